//! What may be without a value at a point of the program.
ghost use Rattle.std.specs.Prelude.{◌≡◌, IfOk, OnOk, length};
ghost use Rattle.wy_assign.specs.Marks as spec;

use std::alloc::{AllocError, Global};
use std::marker::Model;

/// Which variables may be without a value at a point of the program: a bit for each of the first
/// ones, and one for all others. A variable is its number.
#[derive(Drop)]
pub struct Marks {
    /// Whether a path gets to the point.
    reached: bool,
    /// Whether a variable without a bit may be without a value.
    others: bool,
    bits: Vec<bool>,
}

impl Model for Marks {
    ghost use Rattle.wy_assign.specs.Marks as spec;

    ghost Value = { spec.Marks };

    ghost view = { λ m. record { reached = m.reached; others = m.others; bits = m.bits.items } };
}

impl Marks {
    /// No path gets here. It takes no memory.
    pub fn nowhere(alloc: Global) -> Marks
        ensures value { result ≡ spec.nowhere }
    {
        Marks {
            reached: false,
            others: false,
            bits: Vec::new(alloc),
        }
    }

    /// Every variable has a value. It takes no memory.
    pub fn all_set(alloc: Global) -> Marks
        ensures value { result ≡ spec.all_set }
    {
        Marks {
            reached: true,
            others: false,
            bits: Vec::new(alloc),
        }
    }

    /// No variable has a value. It takes no memory.
    pub fn none_set(alloc: Global) -> Marks
        ensures value { result ≡ spec.none_set }
    {
        Marks {
            reached: true,
            others: true,
            bits: Vec::new(alloc),
        }
    }

    /// Whether a path gets here.
    pub fn is_reached(&self) -> bool
        ensures value { result ≡ self.now.reached }
    {
        self.reached
    }

    /// Whether the variable may be without a value, in constant time.
    pub fn has(&self, variable: u32) -> bool
        ensures value { result ≡ spec.has self.now variable }
    {
        self.bit(variable as usize)
    }

    fn bit(&self, index: usize) -> bool
        ensures value { result ≡ spec.has self.now index }
    {
        if index < self.bits.len() {
            self.bits[index]
        } else {
            self.others
        }
    }

    /// The same once more, in linear time.
    pub fn copy(&self, alloc: Global) -> Result<Marks, AllocError>
        ensures value { IfOk result (λ m. m ≡ self.now) }
    {
        let bits = Vec::from_slice(alloc, self.bits.as_slice())?;
        Ok(Marks {
            reached: self.reached,
            others: self.others,
            bits,
        })
    }

    /// The variable is given a value.
    pub fn assign(&mut self, variable: u32) -> Result<(), AllocError>
        ensures value { OnOk result (self.new ≡ spec.assigned self.old variable) }
    {
        if self.has(variable) {
            return self.put(variable as usize, false);
        }
        Ok(())
    }

    /// The variable is declared without a value.
    pub fn declare(&mut self, variable: u32) -> Result<(), AllocError>
        ensures value { OnOk result (self.new ≡ spec.declared self.old variable) }
    {
        if self.has(variable) || !self.reached {
            return Ok(());
        }
        self.put(variable as usize, true)
    }

    /// The bit at this index is this.
    fn put(&mut self, index: usize, bit: bool) -> Result<(), AllocError>
        ensures value { OnOk result (self.new ≡ spec.put self.old index bit) }
    {
        put_bit(&mut self.bits, index, bit, self.others)
    }
}

/// The bit at this index is this, and those before it are the others where there were none.
#[tactic(auto, using(crate::proofs::PutLemmas::put_pushed, crate::proofs::PutLemmas::put_within))]
fn put_bit(bits: &mut Vec<bool>, index: usize, bit: bool, others: bool) -> Result<(), AllocError>
    ensures value { OnOk result (bits.new.items ≡ spec.put_bit bits.old.items index bit others) }
{
    while bits.len() <= index {
        bits.push(others)?;
    }
    bits[index] = bit;
    Ok(())
}

/// Where the paths to two points meet. It is linear in the number of bits, and takes no memory where
/// no path gets to one of them.
pub fn joined(alloc: Global, first: Marks, second: Marks) -> Result<Marks, AllocError>
    ensures value { IfOk result (λ m. m ≡ spec.joined first second) }
{
    if !second.reached {
        return Ok(first);
    }
    if !first.reached {
        return Ok(second);
    }
    let bits = either(alloc, &first, &second)?;
    Ok(Marks {
        reached: true,
        others: first.others || second.others,
        bits,
    })
}

/// The bits of a join.
fn either(alloc: Global, first: &Marks, second: &Marks) -> Result<Vec<bool>, AllocError>
    ensures value { IfOk result (λ v. v.items ≡ spec.either_bits first.now second.now (spec.longer (length first.now.bits) (length second.now.bits))) }
{
    let len = longer(first.bits.len(), second.bits.len());
    let mut bits = Vec::with_capacity(alloc, len)?;
    for i in 0..len {
        bits.push(first.bit(i) || second.bit(i))?;
    }
    Ok(bits)
}

fn longer(n: usize, m: usize) -> usize
    ensures value { result ≡ spec.longer n m }
{
    if n < m { m } else { n }
}
