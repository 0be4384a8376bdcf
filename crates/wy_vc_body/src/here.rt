//! What is known of variables at a point of a body.
ghost use Rattle.std.specs.Prelude.{◌≡◌, [], true, false, IfOk, OnOk};
ghost use Rattle.wy_vc_exprs.specs.wy_vc_spec.Spots as spec;
ghost use Rattle.wy_vc_exprs.specs.wy_vc_spec.Variables as slots;

use std::alloc::{AllocError, Global};
use wy_vc_exprs::put;

/// The term of each variable that has one, by the variables' numbers, and whether each variable has a value on each path to the point.
#[derive(Drop)]
pub struct Here {
    pub vars: Vec<Option<u32>>,
    pub set: Vec<bool>,
}

/// Whether the variable has a value. Constant time.
pub fn is_set(set: &[bool], variable: u32) -> bool
    ensures value { result ≡ spec.is_set set.now variable }
{
    match set.get(variable as usize) {
        None => false,
        Some(has) => *has,
    }
}

/// The variable has a value from now on, or none. Linear in the variables before it that weren't marked yet.
#[tactic(auto, using(crate::proofs::MarkLemmas::mark_pushed, crate::proofs::MarkLemmas::mark_within))]
pub fn mark(set: &mut Vec<bool>, variable: u32, has: bool) -> Result<(), AllocError>
    ensures value { OnOk result (set.new.items ≡ spec.mark set.old.items variable has) }
{
    let index = variable as usize;
    while set.len() <= index {
        set.push(false)?;
    }
    set[index] = has;
    Ok(())
}

impl Here {
    /// Nothing is known. It takes no memory.
    pub fn new(alloc: Global) -> Here
        ensures vars { result.vars.items ≡ [] }
        ensures set { result.set.items ≡ [] }
    {
        Here {
            vars: Vec::new(alloc),
            set: Vec::new(alloc),
        }
    }

    /// The same once more, in time linear in the variables.
    pub fn copy(&self, alloc: Global) -> Result<Here, AllocError>
        ensures vars { IfOk result (λ h. h.vars.items ≡ self.now.vars.items) }
        ensures set { IfOk result (λ h. h.set.items ≡ self.now.set.items) }
    {
        Ok(Here {
            vars: Vec::from_slice(alloc, self.vars.as_slice())?,
            set: Vec::from_slice(alloc, self.set.as_slice())?,
        })
    }

    /// The variable has this term and a value.
    pub fn assign(&mut self, variable: u32, term: u32) -> Result<(), AllocError>
        ensures vars { OnOk result (self.new.vars.items ≡ slots.put self.old.vars.items variable term) }
        ensures set { OnOk result (self.new.set.items ≡ spec.mark self.old.set.items variable true) }
    {
        put(&mut self.vars, variable, term)?;
        mark(&mut self.set, variable, true)
    }

    /// The variable has this term and no value.
    pub fn declare(&mut self, variable: u32, term: u32) -> Result<(), AllocError>
        ensures vars { OnOk result (self.new.vars.items ≡ slots.put self.old.vars.items variable term) }
        ensures set { OnOk result (self.new.set.items ≡ spec.mark self.old.set.items variable false) }
    {
        put(&mut self.vars, variable, term)?;
        mark(&mut self.set, variable, false)
    }
}
