//! What a type says of a datum that it is in it: its parts, the definition of a name, and the clauses of a named type.
//!
//! Clauses are expressions, and expressions test types: so these functions and those of `values` and `lists` call each other, as deep as
//! types and expressions are nested, and names are written out in them; `left` says how deep they may still go, and begins with more than
//! any memory holds. A walk passes on how many names were made, and the number that the next expression has in the walk of flow typing.
ghost use Rattle.std.specs.Prelude.{◌<◌, ◌≤◌, ◌∷◌, [], List, length as count_of, map, IfOk, OnOk};
ghost use Rattle.wy_core.specs.CoreSeen.{field_tys_of, seen_alias, seen_ty};
ghost use Rattle.wy_core.specs.Types as ty;
ghost use Rattle.wy_term.specs.Nodes.{Plain};
ghost use Rattle.wy_term.specs.Term.{Term};
ghost use Rattle.wy_term.specs.Numbers.{IsAt};
ghost use Rattle.wy_vc_operations.specs.wy_sem.TypeTests.{alias_at};
ghost use Rattle.wy_vc_tables.specs.wy_vc_spec.Making as made;
ghost use Rattle.wy_vc_tables.specs.wy_vc_spec.Numbered.{numbered_alias};
ghost use Rattle.wy_vc_tables.specs.wy_vc_spec.Values as spec;
ghost use Rattle.wy_vc_tables.specs.wy_vc_spec.Variables.{Vars, put_if};
ghost use Rattle.wy_vc_tables.specs.program_names.Described.{IsDescribed, setting, types_of};
ghost use Rattle.wy_vc_operations.specs.Growing.{AreSlotsAt};
ghost use Rattle.wy_vc_terms.specs.Made.{IsMadeAt};
ghost use Rattle.wy_vc_terms.specs.Wholes.{with_clauses};

use crate::parts::{anything, element, is_array, is_int, is_record, next_name};
use crate::values::value_to;
use crate::walked::Made;
use std::alloc::Global;
use wy_core::{Alias, Core, Expr, Ty, TyKind};
use wy_data::Name;
use wy_term::{Kind, NoMemory, Terms};
use wy_vc_operations::{
    both, conjunction, denied, either, falsehood, field, formula, in_type, kind, put,
};
use wy_vc_tables::program_names::Program;

/// The formula that a datum is in a type. A name is written out where it is to be, at most `depth` of them one in another; each quantifier
/// takes a new name.
#[cycle(values)]
pub fn holds_to(
    alloc: Global,
    core: &Core,
    program: &Program,
    depth: usize,
    left: u64,
    terms: &mut Terms,
    v: u32,
    ty: &Ty,
    count: u64,
) -> Result<Made, NoMemory>
    requires { v < count_of terms.old }
    ensures within { IfOk result (λ m. m.term < count_of terms.new) }
    ensures grows { OnOk result (count_of terms.old ≤ count_of terms.new) }
    ensures made { IsDescribed core.now program.now → (t : Term) → IsAt terms.old v t → IfOk result (λ m. IsMadeAt terms.old terms.new m.term m.count (spec.holds (spec.named_to (setting core.now program.now) depth) (seen_ty ty.now) t count)) }
{
    if left == 0 {
        return Err(NoMemory);
    }
    match &ty.kind {
        TyKind::Null => {
            let term = kind(terms, v, Kind::Null)?;
            Ok(Made { term, count })
        }
        TyKind::Bool => {
            let term = kind(terms, v, Kind::Bool)?;
            Ok(Made { term, count })
        }
        TyKind::Int => {
            let term = is_int(alloc, terms, v)?;
            Ok(Made { term, count })
        }
        TyKind::Any => {
            let term = anything(alloc, terms)?;
            Ok(Made { term, count })
        }
        TyKind::Void => {
            let term = falsehood(alloc, terms)?;
            Ok(Made { term, count })
        }
        TyKind::Record(fields) => {
            let held = fields_hold(
                alloc,
                core,
                program,
                depth,
                left - 1,
                terms,
                v,
                fields.as_slice(),
                count,
            )?;
            Ok(held)
        }
        TyKind::Array(item) => {
            let next = next_name(count)?;
            let part = element(alloc, terms, v, count)?;
            let body = holds_to(
                alloc,
                core,
                program,
                depth,
                left - 1,
                terms,
                part,
                item.get(),
                next,
            )?;
            let term = is_array(alloc, terms, v, count, body.term)?;
            Ok(Made {
                term,
                count: body.count,
            })
        }
        TyKind::Union(one, other) => {
            let first = holds_to(
                alloc,
                core,
                program,
                depth,
                left - 1,
                terms,
                v,
                one.get(),
                count,
            )?;
            let second = holds_to(
                alloc,
                core,
                program,
                depth,
                left - 1,
                terms,
                v,
                other.get(),
                first.count,
            )?;
            let term = either(alloc, terms, first.term, second.term)?;
            Ok(Made {
                term,
                count: second.count,
            })
        }
        TyKind::Inter(one, other) => {
            let first = holds_to(
                alloc,
                core,
                program,
                depth,
                left - 1,
                terms,
                v,
                one.get(),
                count,
            )?;
            let second = holds_to(
                alloc,
                core,
                program,
                depth,
                left - 1,
                terms,
                v,
                other.get(),
                first.count,
            )?;
            let term = both(alloc, terms, first.term, second.term)?;
            Ok(Made {
                term,
                count: second.count,
            })
        }
        TyKind::Not(inner) => {
            let inside = holds_to(
                alloc,
                core,
                program,
                depth,
                left - 1,
                terms,
                v,
                inner.get(),
                count,
            )?;
            let term = denied(terms, inside.term)?;
            Ok(Made {
                term,
                count: inside.count,
            })
        }
        TyKind::Named(number) => {
            let held = named_to(
                alloc,
                core,
                program,
                depth,
                left - 1,
                terms,
                v,
                *number,
                count,
            )?;
            Ok(held)
        }
        TyKind::Normal(_) => {
            let term = falsehood(alloc, terms)?;
            Ok(Made { term, count })
        }
    }
}

// A record with these fields, and what each of them is in.
#[cycle(values)]
fn fields_hold(
    alloc: Global,
    core: &Core,
    program: &Program,
    depth: usize,
    left: u64,
    terms: &mut Terms,
    v: u32,
    fields: &[(Name, Ty)],
    count: u64,
) -> Result<Made, NoMemory>
    requires { v < count_of terms.old }
    ensures within { IfOk result (λ m. m.term < count_of terms.new) }
    ensures grows { OnOk result (count_of terms.old ≤ count_of terms.new) }
    ensures made { IsDescribed core.now program.now → (t : Term) → IsAt terms.old v t → IfOk result (λ m. IsMadeAt terms.old terms.new m.term m.count (spec.holds (spec.named_to (setting core.now program.now) depth) (ty.RecordTy (field_tys_of (map (λ f. (f.0, seen_ty f.1)) fields.now))) t count)) }
{
    if left == 0 {
        return Err(NoMemory);
    }
    let whole = is_record(alloc, terms, v, fields)?;
    let mut parts = Vec::from_slice(alloc, &[whole])?;
    let mut next = count;
    for item in fields {
        let part = field(alloc, terms, v, &item.0)?;
        let held = holds_to(
            alloc,
            core,
            program,
            depth,
            left - 1,
            terms,
            part,
            &item.1,
            next,
        )?;
        parts.push(held.term)?;
        next = held.count;
    }
    let term = conjunction(terms, parts)?;
    Ok(Made { term, count: next })
}

// A name: its definition and its clauses, or the test of the name.
#[cycle(values)]
fn named_to(
    alloc: Global,
    core: &Core,
    program: &Program,
    depth: usize,
    left: u64,
    terms: &mut Terms,
    v: u32,
    number: u32,
    count: u64,
) -> Result<Made, NoMemory>
    requires { v < count_of terms.old }
    ensures within { IfOk result (λ m. m.term < count_of terms.new) }
    ensures grows { OnOk result (count_of terms.old ≤ count_of terms.new) }
    ensures made { IsDescribed core.now program.now → (t : Term) → IsAt terms.old v t → IfOk result (λ m. IsMadeAt terms.old terms.new m.term m.count (spec.named_to (setting core.now program.now) depth number t count)) }
{
    if left == 0 {
        return Err(NoMemory);
    }
    if depth == 0 {
        let test = tested(terms, v, number, count)?;
        return Ok(test);
    }
    if program.is_written(number) {
        let held = defined_to(
            alloc,
            core,
            program,
            depth - 1,
            left - 1,
            terms,
            v,
            number,
            count,
        )?;
        return Ok(held);
    }
    let other = tested(terms, v, number, count)?;
    Ok(other)
}

// The test of a name.
fn tested(terms: &mut Terms, v: u32, number: u32, count: u64) -> Result<Made, NoMemory>
    requires { v < count_of terms.old }
    ensures within { IfOk result (λ m. m.term < count_of terms.new) }
    ensures grows { OnOk result (count_of terms.old ≤ count_of terms.new) }
    ensures made { (t : Term) → IsAt terms.old v t → IfOk result (λ m. IsMadeAt terms.old terms.new m.term m.count (spec.valued count (made.in_type number t))) }
{
    let term = in_type(terms, v, number)?;
    Ok(Made { term, count })
}

// What is no name is written out as the type without values.
fn nothing(alloc: Global, terms: &mut Terms, count: u64) -> Result<Made, NoMemory>
    ensures within { IfOk result (λ m. m.term < count_of terms.new) }
    ensures grows { OnOk result (count_of terms.old ≤ count_of terms.new) }
    ensures made { IfOk result (λ m. IsMadeAt terms.old terms.new m.term m.count (spec.valued count (made.all_of (made.falsehood ∷ [])))) }
{
    let none = falsehood(alloc, terms)?;
    let parts = Vec::from_slice(alloc, &[none])?;
    let term = conjunction(terms, parts)?;
    Ok(Made { term, count })
}

/// The definition and the clauses of the named type with this number.
#[cycle(values)]
pub fn defined_to(
    alloc: Global,
    core: &Core,
    program: &Program,
    depth: usize,
    left: u64,
    terms: &mut Terms,
    v: u32,
    number: u32,
    count: u64,
) -> Result<Made, NoMemory>
    requires { v < count_of terms.old }
    ensures within { IfOk result (λ m. m.term < count_of terms.new) }
    ensures grows { OnOk result (count_of terms.old ≤ count_of terms.new) }
    ensures made { IsDescribed core.now program.now → (t : Term) → IsAt terms.old v t → IfOk result (λ m. IsMadeAt terms.old terms.new m.term m.count (spec.defined (setting core.now program.now) (spec.named_to (setting core.now program.now) depth) (alias_at (types_of core.now) number) t count)) }
{
    if left == 0 {
        return Err(NoMemory);
    }
    match program.alias(core, number) {
        None => {
            let none = nothing(alloc, terms, count)?;
            Ok(none)
        }
        Some(alias) => {
            let first = program.first(number);
            let held = alias_to(
                alloc,
                core,
                program,
                depth,
                left - 1,
                terms,
                v,
                alias,
                first,
                count,
            )?;
            Ok(held)
        }
    }
}

// The slots of a type's clauses: its variable stands for the datum.
fn slots_of(alloc: Global, variable: Option<u32>, v: u32) -> Result<Vec<Option<u32>>, NoMemory>
    ensures made { (ns : List Plain) (t : Term) → IsAt ns v t → IfOk result (λ vars. AreSlotsAt ns vars.items (put_if [] variable t)) }
{
    let mut vars = Vec::new(alloc);
    match variable {
        None => Ok(vars),
        Some(x) => {
            put(&mut vars, x, v)?;
            Ok(vars)
        }
    }
}

// The definition and the clauses of a named type, whose first expression has this number.
#[cycle(values)]
fn alias_to(
    alloc: Global,
    core: &Core,
    program: &Program,
    depth: usize,
    left: u64,
    terms: &mut Terms,
    v: u32,
    alias: &Alias,
    first: usize,
    count: u64,
) -> Result<Made, NoMemory>
    requires { v < count_of terms.old }
    ensures within { IfOk result (λ m. m.term < count_of terms.new) }
    ensures grows { OnOk result (count_of terms.old ≤ count_of terms.new) }
    ensures made { IsDescribed core.now program.now → (t : Term) → IsAt terms.old v t → IfOk result (λ m. IsMadeAt terms.old terms.new m.term m.count (spec.defined (setting core.now program.now) (spec.named_to (setting core.now program.now) depth) (numbered_alias (seen_alias alias.now) first) t count)) }
{
    if left == 0 {
        return Err(NoMemory);
    }
    let whole = holds_to(
        alloc,
        core,
        program,
        depth,
        left - 1,
        terms,
        v,
        &alias.ty,
        count,
    )?;
    let mut vars = slots_of(alloc, alias.variable, v)?;
    let held = clauses_hold(
        alloc,
        core,
        program,
        alias.variables.as_slice(),
        depth,
        left - 1,
        terms,
        &mut vars,
        alias.clauses.as_slice(),
        whole.count,
        first,
        whole.term,
    )?;
    Ok(held)
}

// A formula and behind it those of clauses.
#[cycle(values)]
fn clauses_hold(
    alloc: Global,
    core: &Core,
    program: &Program,
    words: &[Name],
    depth: usize,
    left: u64,
    terms: &mut Terms,
    vars: &mut Vec<Option<u32>>,
    clauses: &[Expr],
    count: u64,
    node: usize,
    whole: u32,
) -> Result<Made, NoMemory>
    requires { whole < count_of terms.old }
    ensures within { IfOk result (λ m. m.term < count_of terms.new) }
    ensures grows { OnOk result (count_of terms.old ≤ count_of terms.new) }
    ensures made { IsDescribed core.now program.now → (slots : Vars) (f : Term) → AreSlotsAt terms.old vars.old.items slots → IsAt terms.old whole f → IfOk result (λ m. IsMadeAt terms.old terms.new m.term m.count (with_clauses (setting core.now program.now) (spec.named_to (setting core.now program.now) depth) words.now clauses.now node slots f count)) }
{
    if left == 0 {
        return Err(NoMemory);
    }
    let mut parts = Vec::from_slice(alloc, &[whole])?;
    let mut names = count;
    let mut next = node;
    for clause in clauses {
        let v = value_to(
            alloc,
            core,
            program,
            words,
            depth,
            left - 1,
            terms,
            vars,
            clause,
            names,
            next,
        )?;
        let holds = formula(terms, v.term)?;
        parts.push(holds)?;
        names = v.count;
        next = v.next;
    }
    let term = conjunction(terms, parts)?;
    Ok(Made { term, count: names })
}
