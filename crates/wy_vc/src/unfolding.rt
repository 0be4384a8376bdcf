//! What the tests of named types stand for.
ghost use Rattle.std.specs.Prelude.{◌≡◌, ◌<◌, length as count_of, IfOk, OnOk};
ghost use Rattle.wy_term.specs.Nodes.{Plain};
ghost use Rattle.wy_vc.specs.Meanings as spec;
ghost use Rattle.wy_vc_tables.specs.program_names.Described.{IsDescribed, setting};
ghost use Rattle.wy_vc_body.specs.wy_vc_operations.Growing.{Kept};

use crate::small::small;
use crate::tests_of_types::types_tested;
use std::alloc::Global;
use wy_core::Core;
use wy_term::NoMemory;
use wy_vc_body::{Maker, type_formula};
use wy_vc_tables::program_names::Program;

/// What the test of a named type stands for: a Val name and a formula, by the numbers of terms, and the named types that the formula tests.
#[derive(Drop)]
pub struct Meaning {
    pub name: u32,
    pub formula: u32,
    pub tests: Vec<u32>,
}

// What the test of this named type stands for.
fn meaning_of(
    alloc: Global,
    core: &Core,
    program: &Program,
    maker: &mut Maker,
    number: u32,
) -> Result<Meaning, NoMemory>
    requires described { IsDescribed core.now program.now }
    ensures kept { OnOk result (Kept maker.old.terms maker.new.terms) }
    ensures value { IfOk result (λ m. spec.IsMeaning maker.new.terms (setting core.now program.now) number m) }
{
    let (name, formula) = type_formula(alloc, core, program, maker, number)?;
    let tests = types_tested(&maker.terms, &[formula])?;
    Ok(Meaning {
        name,
        formula,
        tests,
    })
}

/// What the tests of all named types stand for, by their numbers. Linear in the formulas as they are written out, and for each in how many
/// terms it is made of.
pub fn meanings(
    alloc: Global,
    core: &Core,
    program: &Program,
    maker: &mut Maker,
) -> Result<Vec<Meaning>, NoMemory>
    requires described { IsDescribed core.now program.now }
    ensures kept { OnOk result (Kept maker.old.terms maker.new.terms) }
    ensures value { IfOk result (λ ms. spec.AreMeanings maker.new.terms (setting core.now program.now) ms.items) }
{
    let count = small(program.types.len())?;
    let mut made = Vec::new(alloc);
    for number in 0..count {
        let meaning = meaning_of(alloc, core, program, maker, number)?;
        made.push(meaning)?;
    }
    Ok(made)
}
