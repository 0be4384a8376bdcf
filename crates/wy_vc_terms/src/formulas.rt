//! What other crates call.
ghost use Rattle.std.specs.Prelude.{◌≡◌, ◌+◌, ◌<◌, ◌≤◌, List, ℕ, length as count_of, IfOk, OnOk};
ghost use Rattle.wy_core.specs.CoreSeen.{seen_expr, seen_ty};
ghost use Rattle.wy_term.specs.Term.{Term};
ghost use Rattle.wy_term.specs.Numbers.{IsAt};
ghost use Rattle.wy_vc_tables.specs.wy_vc_spec.Numbered.{numbered};
ghost use Rattle.wy_vc_tables.specs.wy_vc_spec.Sizes.{exprs_in};
ghost use Rattle.wy_vc_tables.specs.wy_vc_spec.Values as spec;
ghost use Rattle.wy_vc_tables.specs.wy_vc_spec.Variables.{Vars};
ghost use Rattle.wy_vc_tables.specs.program_names.Described.{IsDescribed, setting, types_of};
ghost use Rattle.wy_vc_operations.specs.Growing.{AreSlotsAt, Kept};
ghost use Rattle.wy_vc_terms.specs.Made.{IsMade};
ghost use Rattle.wy_vc_terms.specs.Wholes.{type_word};

use crate::maker::Maker;
use crate::types::{defined_to, holds_to};
use crate::values::value_to;
use crate::words::{word_of, x_word};
use std::alloc::{AllocError, Global};
use wy_core::{Core, Expr, Ty};
use wy_data::Name;
use wy_term::NoMemory;
use wy_vc_operations::{formula, val_name};
use wy_vc_tables::program_names::Program;

/// The formula that a datum is in a type. A name is written out where it is to be; each quantifier takes a new name. Linear in the
/// formula as it is written out.
pub fn holds(
    alloc: Global,
    core: &Core,
    program: &Program,
    maker: &mut Maker,
    v: u32,
    ty: &Ty,
) -> Result<u32, NoMemory>
    requires { v < count_of maker.old.terms }
    ensures within { IfOk result (λ r. r < count_of maker.new.terms) }
    ensures grows { OnOk result (count_of maker.old.terms ≤ count_of maker.new.terms) }
    ensures node { OnOk result (maker.new.node ≡ maker.old.node) }
    ensures made { IsDescribed core.now program.now → (t : Term) → IsAt maker.old.terms v t → IfOk result (λ r. IsMade maker.old maker.new r (spec.holds (spec.named_in (setting core.now program.now)) (seen_ty ty.now) t maker.old.count)) }
{
    let depth = program.types.len();
    let count = maker.count;
    let made = holds_to(
        alloc,
        core,
        program,
        depth,
        u64::MAX,
        &mut maker.terms,
        v,
        ty,
        count,
    )?;
    maker.count = made.count;
    Ok(made.term)
}

/// The formula of a clause, where variables stand for these terms. Each quantifier takes a new name. Linear in the clause, with the types
/// that it tests as these are written out.
pub fn value_formula(
    alloc: Global,
    core: &Core,
    program: &Program,
    words: &[Name],
    maker: &mut Maker,
    vars: &mut Vec<Option<u32>>,
    clause: &Expr,
) -> Result<u32, NoMemory>
    ensures within { IfOk result (λ r. r < count_of maker.new.terms) }
    ensures grows { OnOk result (count_of maker.old.terms ≤ count_of maker.new.terms) }
    ensures node { OnOk result (maker.new.node ≡ maker.old.node + exprs_in (seen_expr clause.now)) }
    ensures vars { OnOk result (vars.new.items ≡ vars.old.items) }
    ensures made { IsDescribed core.now program.now → (slots : Vars) → AreSlotsAt maker.old.terms vars.old.items slots → IfOk result (λ r. IsMade maker.old maker.new r (spec.clause_formula (setting core.now program.now) (spec.named_in (setting core.now program.now)) words.now (numbered (seen_expr clause.now) maker.old.node) slots maker.old.count)) }
{
    let depth = program.types.len();
    let count = maker.count;
    let node = maker.node;
    let v = value_to(
        alloc,
        core,
        program,
        words,
        depth,
        u64::MAX,
        &mut maker.terms,
        vars,
        clause,
        count,
        node,
    )?;
    let holds = formula(&mut maker.terms, v.term)?;
    maker.count = v.count;
    maker.node = v.next;
    Ok(holds)
}

// The word of the variable of a named type.
fn type_word(alloc: Global, core: &Core, program: &Program, number: u32) -> Result<Name, AllocError>
    ensures value { IsDescribed core.now program.now → IfOk result (λ word. word ≡ type_word (types_of core.now) number) }
{
    match program.alias(core, number) {
        None => x_word(alloc),
        Some(alias) => match alias.variable {
            None => x_word(alloc),
            Some(variable) => word_of(alloc, alias.variables.as_slice(), variable),
        },
    }
}

/// The Val name and the formula that the test of the named type with this number stands for: the definition and the clauses, of the name
/// with the number 0; its quantifiers have the numbers from 1.
pub fn type_formula(
    alloc: Global,
    core: &Core,
    program: &Program,
    maker: &mut Maker,
    number: u32,
) -> Result<(u32, u32), NoMemory>
    ensures within { IfOk result (λ r. (r.0 < count_of maker.new.terms) × (r.1 < count_of maker.new.terms)) }
    ensures kept { IsDescribed core.now program.now → OnOk result (Kept maker.old.terms maker.new.terms) }
    ensures names { OnOk result (maker.new.count ≡ maker.old.count) }
    ensures node { OnOk result (maker.new.node ≡ maker.old.node) }
    ensures made { IsDescribed core.now program.now → IfOk result (λ r. IsAt maker.new.terms r.0 (spec.test_name (setting core.now program.now) number) × IsAt maker.new.terms r.1 (spec.test_formula (setting core.now program.now) number)) }
{
    let word = type_word(alloc, core, program, number)?;
    let name = val_name(alloc, &mut maker.terms, &word, 0)?;
    let depth = program.types.len();
    let made = defined_to(
        alloc,
        core,
        program,
        depth,
        u64::MAX,
        &mut maker.terms,
        name,
        number,
        1,
    )?;
    Ok((name, made.term))
}
