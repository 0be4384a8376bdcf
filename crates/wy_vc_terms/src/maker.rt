//! Terms and new names.
ghost use Rattle.std.specs.Prelude.{◌≡◌, ◌+◌, [], suc, IfOk, OnOk};

use std::alloc::Global;
use wy_term::{NoMemory, Terms};
use wy_vc_tables::sizes::total;

/// Terms, the number of names made so far by the pass, and the number that the next expression has in the walk of flow typing.
#[derive(Drop)]
pub struct Maker {
    pub terms: Terms,
    pub count: u64,
    pub node: usize,
}

impl Maker {
    /// No terms and no names yet.
    pub fn new(alloc: Global) -> Maker
        ensures terms { result.terms ≡ [] }
        ensures count { result.count ≡ 0 }
        ensures node { result.node ≡ 0 }
    {
        Maker {
            terms: Terms::new(alloc),
            count: 0,
            node: 0,
        }
    }

    /// The number of a new name. Want of memory is also the answer where there are 2^64 - 1.
    pub fn name(&mut self) -> Result<u64, NoMemory>
        ensures value { IfOk result (λ n. n ≡ self.old.count) }
        ensures after { OnOk result (self.new ≡ record self.old { count = suc self.old.count }) }
    {
        let number = self.count;
        if number == u64::MAX {
            return Err(NoMemory);
        }
        self.count = number + 1;
        Ok(number)
    }

    /// So many expressions were passed. A number that is too large is want of memory.
    pub fn pass(&mut self, exprs: usize) -> Result<(), NoMemory>
        ensures after { OnOk result (self.new ≡ record self.old { node = self.old.node + exprs }) }
    {
        self.node = total(self.node, exprs)?;
        Ok(())
    }
}
