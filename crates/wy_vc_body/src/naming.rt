//! New names, and names for large terms.
ghost use Rattle.std.specs.Prelude.{◌≡◌, ◌<◌, suc, length as count_of, IfOk, OnOk};
ghost use Rattle.wy_vc_exprs.specs.wy_vc_spec.Large as spec;
ghost use Rattle.wy_vc_exprs.specs.wy_vc_spec.Making as made;
ghost use Rattle.wy_vc_exprs.specs.wy_vc_spec.Values.{word_at};
ghost use Rattle.wy_term.specs.Nodes.{tree_at};
ghost use Rattle.wy_vc_body.specs.Named.{named_walk, with_name};
ghost use Rattle.wy_vc_exprs.specs.wy_vc_operations.Growing.{Makes};
ghost use Rattle.wy_vc_exprs.specs.State.{IsSound, Walks, hyps_of};

use crate::large::is_large;
use std::alloc::Global;
use wy_data::Name;
use wy_term::NoMemory;
use wy_vc_exprs::{Maker, Walk, equal, val_name, word_of};

/// A new name of a variable's word.
pub fn new_name(
    alloc: Global,
    maker: &mut Maker,
    words: &[Name],
    variable: u32,
) -> Result<u32, NoMemory>
    ensures made { IfOk result (λ r. Makes maker.old.terms maker.new.terms r (made.val_name (word_at words.now variable) maker.old.count)) }
    ensures count { OnOk result (maker.new.count ≡ suc maker.old.count) }
    ensures node { OnOk result (maker.new.node ≡ maker.old.node) }
{
    let word = word_of(alloc, words, variable)?;
    let number = maker.name()?;
    val_name(alloc, &mut maker.terms, &word, number)
}

// A new name, which equals the value.
fn name_value(
    alloc: Global,
    walk: &mut Walk,
    words: &[Name],
    variable: u32,
    value: u32,
) -> Result<u32, NoMemory>
    requires sound { IsSound walk.old }
    requires within { value < count_of walk.old.maker.terms }
    ensures value { IfOk result (λ r. Walks walk.old walk.new r (named_walk (with_name words.now variable (tree_at walk.old.maker.terms value) (hyps_of walk.old) walk.old.maker.count))) }
    ensures node { OnOk result (walk.new.maker.node ≡ walk.old.maker.node) }
{
    let name = new_name(alloc, &mut walk.maker, words, variable)?;
    let equation = equal(&mut walk.maker.terms, name, value)?;
    walk.assume(equation)?;
    Ok(name)
}

/// The term that a variable is to stand for, of a value given to it: the value's, or a new name that equals it where that is too large.
pub fn named(
    alloc: Global,
    walk: &mut Walk,
    words: &[Name],
    variable: u32,
    value: u32,
) -> Result<u32, NoMemory>
    requires sound { IsSound walk.old }
    requires within { value < count_of walk.old.maker.terms }
    ensures value { IfOk result (λ r. Walks walk.old walk.new r (named_walk (spec.named words.now variable (tree_at walk.old.maker.terms value) (hyps_of walk.old) walk.old.maker.count))) }
    ensures node { OnOk result (walk.new.maker.node ≡ walk.old.maker.node) }
{
    let large = is_large(alloc, &walk.maker.terms, value)?;
    if large {
        name_value(alloc, walk, words, variable, value)
    } else {
        Ok(value)
    }
}
