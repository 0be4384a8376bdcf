//! Sets of variables.
ghost use Rattle.std.specs.Prelude.{◌≡◌, ◌≤◌, ◌<◌, ◌||◌, ℕ, [], true, IfOk, OnOk, length};
ghost use Rattle.wy_live.specs.Lost as lost;
ghost use Rattle.wy_live.specs.Sets as spec;

use crate::apart::next_apart;
use crate::merges::merged;
use crate::words::{Word, is_in, put, take};
use std::alloc::{AllocError, Global};
use std::marker::Model;

/// A set of variables. A variable is its number. It takes two words of memory for each 64 variables
/// that follow one another, where one of these is in it.
#[derive(Drop)]
pub struct Variables {
    count: usize,
    words: Vec<Word>,
}

impl Model for Variables {
    ghost use Rattle.wy_live.specs.Sets as spec;
    ghost use Rattle.wy_live.specs.Words.{shown, Kept};

    ghost Value = { spec.Variables };

    ghost view = { λ s. shown s.words.items s.count };

    ghost invariant = { λ s. Kept s.words.items s.count };
}

impl Variables {
    /// No variable. It takes no memory.
    pub fn none(alloc: Global) -> Variables
        ensures value { result ≡ [] }
    {
        Variables {
            count: 0,
            words: Vec::new(alloc),
        }
    }

    /// No variable from this one on is or was in it.
    pub fn len(&self) -> usize
        ensures value { result ≡ length self.now }
    {
        self.count
    }

    /// Whether the variable is in the set, in time logarithmic in its words.
    pub fn has(&self, variable: u32) -> bool
        ensures value { result ≡ spec.has self.now variable }
    {
        is_in(self.words.as_slice(), variable)
    }

    /// The same once more, in time linear in its words.
    pub fn copy(&self, alloc: Global) -> Result<Variables, AllocError>
        ensures value { IfOk result (λ s. s ≡ self.now) }
    {
        let words = Vec::from_slice(alloc, self.words.as_slice())?;
        Ok(Variables {
            count: self.count,
            words,
        })
    }

    /// The variable is in it from now on. Where its word is new, those behind it are moved.
    pub fn insert(&mut self, variable: u32) -> Result<(), AllocError>
        ensures value { OnOk result (self.new ≡ spec.with self.old variable) }
    {
        put(&mut self.words, variable)?;
        self.count = longer(self.count, variable as usize + 1);
        Ok(())
    }

    /// The variable is not in it from now on. Where its word is empty then, those behind it are moved.
    pub fn remove(&mut self, variable: u32) -> Result<(), AllocError>
        ensures value { OnOk result (self.new ≡ spec.without self.old variable) }
    {
        take(&mut self.words, variable);
        Ok(())
    }

    /// The variable stays in it only where it was in it before.
    pub fn restore(&mut self, variable: u32, before: bool) -> Result<(), AllocError>
        ensures value { OnOk result (self.new ≡ spec.restored before self.old variable) }
    {
        if before {
            return Ok(());
        }
        self.remove(variable)
    }
}

/// The greater of two lengths.
fn longer(one: usize, other: usize) -> usize
    ensures value { result ≡ spec.longer one other }
{
    if one < other { other } else { one }
}

/// What is in one of both, in time linear in their words.
pub fn joined(alloc: Global, first: &Variables, second: &Variables) -> Result<Variables, AllocError>
    ensures value { IfOk result (λ s. s ≡ spec.joined first.now second.now) }
{
    let words = merged(alloc, first.words.as_slice(), second.words.as_slice())?;
    Ok(Variables {
        count: longer(first.count, second.count),
        words,
    })
}

/// The first variable from this one on that the one set has and the other lacks, or the length of the
/// one where there is none. It is linear in the words between, beside a search.
pub fn next_lost(one: &Variables, other: &Variables, from: usize) -> usize
    requires within { from ≤ length one.now }
    ensures behind { from ≤ result }
    ensures within { result ≤ length one.now }
    ensures between { lost.NoneLost one.now other.now from result }
    ensures found { result < length one.now → lost.is_lost one.now other.now result ≡ true }
{
    match next_apart(one.words.as_slice(), other.words.as_slice(), from) {
        Some(variable) => variable,
        None => one.count,
    }
}
