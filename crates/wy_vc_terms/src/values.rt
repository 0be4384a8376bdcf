//! What an expression of a contract evaluates to.
//!
//! A walk passes on how many names were made, and the number that the next expression has in the walk of flow typing. `left` says how deep
//! it may still go, as in `types`.
ghost use Rattle.std.specs.Prelude.{◌≡◌, ◌+◌, ◌<◌, ◌≤◌, ◌&&◌, suc, List, length as count_of, IfOk, OnOk};
ghost use Rattle.wy_core.specs.CoreSeen.{seen_expr};
ghost use Rattle.wy_vc_tables.specs.wy_vc_spec.Making as made;
ghost use Rattle.wy_vc_tables.specs.wy_vc_spec.Numbered as numbers;
ghost use Rattle.wy_vc_tables.specs.wy_vc_spec.Numbered.{numbered};
ghost use Rattle.wy_vc_tables.specs.wy_vc_spec.Sizes.{exprs_in, exprs_in_all};
ghost use Rattle.wy_vc_tables.specs.wy_vc_spec.Values as spec;
ghost use Rattle.wy_vc_tables.specs.wy_vc_spec.Variables.{Vars, put as spec_put};
ghost use Rattle.wy_vc_tables.specs.program_names.Described.{IsDescribed, is_number_in, setting};
ghost use Rattle.wy_vc_operations.specs.Growing.{AreSlotsAt};
ghost use Rattle.wy_vc_terms.specs.Made.{IsMadeAt};

use crate::lists::{field_values_to, values_to};
use crate::parts::next_name;
use crate::types::holds_to;
use crate::walked::Valued;
use crate::words::{is_number, variable, word_of};
use std::alloc::Global;
use wy_core::{Core, Expr, ExprKind};
use wy_data::Name;
use wy_term::{NoMemory, Terms};
use wy_vc_operations::{
    field, index, int, length, list, negated, null, number_name, operated, put, put_back,
    quantified, record, repeated, slot_at, truth, value_of, whole, with_denial,
};
use wy_vc_tables::program_names::Program;
use wy_vc_tables::sizes::{exprs_in_all, total};

/// The term of what an expression of a contract evaluates to, where variables stand for these terms. Each quantifier takes a new name. A
/// contract calls nothing.
#[cycle(values)]
pub fn value_to(
    alloc: Global,
    core: &Core,
    program: &Program,
    words: &[Name],
    depth: usize,
    left: u64,
    terms: &mut Terms,
    vars: &mut Vec<Option<u32>>,
    expr: &Expr,
    count: u64,
    node: usize,
) -> Result<Valued, NoMemory>
    ensures within { IfOk result (λ m. m.term < count_of terms.new) }
    ensures grows { OnOk result (count_of terms.old ≤ count_of terms.new) }
    ensures node { IfOk result (λ m. m.next ≡ node + exprs_in (seen_expr expr.now)) }
    ensures vars { OnOk result (vars.new.items ≡ vars.old.items) }
    ensures made { IsDescribed core.now program.now → (slots : Vars) → AreSlotsAt terms.old vars.old.items slots → IfOk result (λ m. IsMadeAt terms.old terms.new m.term m.count (spec.value (setting core.now program.now) (spec.named_to (setting core.now program.now) depth) words.now (numbered (seen_expr expr.now) node) slots count)) }
{
    if left == 0 {
        return Err(NoMemory);
    }
    match &expr.kind {
        ExprKind::Null => {
            let term = null(terms)?;
            let next = total(node, 1)?;
            Ok(Valued { term, count, next })
        }
        ExprKind::Bool(b) => {
            let term = truth(terms, *b)?;
            let next = total(node, 1)?;
            Ok(Valued { term, count, next })
        }
        ExprKind::Int(z) => {
            let term = whole(terms, *z)?;
            let next = total(node, 1)?;
            Ok(Valued { term, count, next })
        }
        ExprKind::Var(x) => {
            let term = variable(terms, vars.as_slice(), *x)?;
            let next = total(node, 1)?;
            Ok(Valued { term, count, next })
        }
        ExprKind::Call(_, args) => {
            let passed = exprs_in_all(args.as_slice())?;
            let behind = total(node, passed)?;
            let term = null(terms)?;
            let next = total(behind, 1)?;
            Ok(Valued { term, count, next })
        }
        ExprKind::Neg(a) => {
            let v = value_to(
                alloc,
                core,
                program,
                words,
                depth,
                left - 1,
                terms,
                vars,
                a.get(),
                count,
                node,
            )?;
            let term = negated(terms, v.term)?;
            let next = total(v.next, 1)?;
            Ok(Valued {
                term,
                count: v.count,
                next,
            })
        }
        ExprKind::Not(a) => {
            let v = value_to(
                alloc,
                core,
                program,
                words,
                depth,
                left - 1,
                terms,
                vars,
                a.get(),
                count,
                node,
            )?;
            let term = with_denial(terms, v.term)?;
            let next = total(v.next, 1)?;
            Ok(Valued {
                term,
                count: v.count,
                next,
            })
        }
        ExprKind::Len(a) => {
            let v = value_to(
                alloc,
                core,
                program,
                words,
                depth,
                left - 1,
                terms,
                vars,
                a.get(),
                count,
                node,
            )?;
            let term = length(terms, v.term)?;
            let next = total(v.next, 1)?;
            Ok(Valued {
                term,
                count: v.count,
                next,
            })
        }
        ExprKind::Binary(op, a, b) => {
            let v = value_to(
                alloc,
                core,
                program,
                words,
                depth,
                left - 1,
                terms,
                vars,
                a.get(),
                count,
                node,
            )?;
            let w = value_to(
                alloc,
                core,
                program,
                words,
                depth,
                left - 1,
                terms,
                vars,
                b.get(),
                v.count,
                v.next,
            )?;
            let numbers = are_numbers(program, v.next, w.next);
            let term = operated(alloc, terms, *op, numbers, v.term, w.term)?;
            let next = total(w.next, 1)?;
            Ok(Valued {
                term,
                count: w.count,
                next,
            })
        }
        ExprKind::Is(a, ty) => {
            let v = value_to(
                alloc,
                core,
                program,
                words,
                depth,
                left - 1,
                terms,
                vars,
                a.get(),
                count,
                node,
            )?;
            let test = holds_to(
                alloc,
                core,
                program,
                depth,
                left - 1,
                terms,
                v.term,
                ty,
                v.count,
            )?;
            let term = value_of(terms, test.term)?;
            let next = total(v.next, 1)?;
            Ok(Valued {
                term,
                count: test.count,
                next,
            })
        }
        ExprKind::Index(a, b) => {
            let v = value_to(
                alloc,
                core,
                program,
                words,
                depth,
                left - 1,
                terms,
                vars,
                a.get(),
                count,
                node,
            )?;
            let w = value_to(
                alloc,
                core,
                program,
                words,
                depth,
                left - 1,
                terms,
                vars,
                b.get(),
                v.count,
                v.next,
            )?;
            let term = index(terms, v.term, w.term)?;
            let next = total(w.next, 1)?;
            Ok(Valued {
                term,
                count: w.count,
                next,
            })
        }
        ExprKind::Field(a, name) => {
            let v = value_to(
                alloc,
                core,
                program,
                words,
                depth,
                left - 1,
                terms,
                vars,
                a.get(),
                count,
                node,
            )?;
            let term = field(alloc, terms, v.term, name)?;
            let next = total(v.next, 1)?;
            Ok(Valued {
                term,
                count: v.count,
                next,
            })
        }
        ExprKind::List(items) => {
            let all = values_to(
                alloc,
                core,
                program,
                words,
                depth,
                left - 1,
                terms,
                vars,
                items.as_slice(),
                count,
                node,
            )?;
            let names = all.count;
            let behind = all.next;
            let term = list(terms, all.terms)?;
            let next = total(behind, 1)?;
            Ok(Valued {
                term,
                count: names,
                next,
            })
        }
        ExprKind::Repeat(a, b) => {
            let v = value_to(
                alloc,
                core,
                program,
                words,
                depth,
                left - 1,
                terms,
                vars,
                a.get(),
                count,
                node,
            )?;
            let w = value_to(
                alloc,
                core,
                program,
                words,
                depth,
                left - 1,
                terms,
                vars,
                b.get(),
                v.count,
                v.next,
            )?;
            let term = repeated(terms, v.term, w.term)?;
            let next = total(w.next, 1)?;
            Ok(Valued {
                term,
                count: w.count,
                next,
            })
        }
        ExprKind::Record(fields) => {
            let all = field_values_to(
                alloc,
                core,
                program,
                words,
                depth,
                left - 1,
                terms,
                vars,
                fields.as_slice(),
                count,
                node,
            )?;
            let names = all.count;
            let behind = all.next;
            let term = record(terms, all.fields)?;
            let next = total(behind, 1)?;
            Ok(Valued {
                term,
                count: names,
                next,
            })
        }
        ExprKind::Quant(all, x, a, b, body) => {
            let v = value_to(
                alloc,
                core,
                program,
                words,
                depth,
                left - 1,
                terms,
                vars,
                a.get(),
                count,
                node,
            )?;
            let w = value_to(
                alloc,
                core,
                program,
                words,
                depth,
                left - 1,
                terms,
                vars,
                b.get(),
                v.count,
                v.next,
            )?;
            let u = body_to(
                alloc,
                core,
                program,
                words,
                depth,
                left - 1,
                terms,
                vars,
                *x,
                body.get(),
                w.count,
                w.next,
            )?;
            let word = word_of(alloc, words, *x)?;
            let term = quantified(alloc, terms, *all, &word, w.count, v.term, w.term, u.term)?;
            let next = total(u.next, 1)?;
            Ok(Valued {
                term,
                count: u.count,
                next,
            })
        }
    }
}

// Whether two expressions are numbers, before these numbers.
fn are_numbers(program: &Program, first: usize, second: usize) -> bool
    ensures value { (k m : numbers.Node) → suc k.number ≡ first → suc m.number ≡ second → result ≡ (is_number_in program.now.is_number.items k && is_number_in program.now.is_number.items m) }
{
    let a = is_number(program, first);
    let b = is_number(program, second);
    both_are(a, b)
}

fn both_are(a: bool, b: bool) -> bool
    ensures value { result ≡ (a && b) }
{
    a && b
}

// The body of a quantifier: its variable stands for a new name meanwhile.
#[cycle(values)]
fn body_to(
    alloc: Global,
    core: &Core,
    program: &Program,
    words: &[Name],
    depth: usize,
    left: u64,
    terms: &mut Terms,
    vars: &mut Vec<Option<u32>>,
    variable: u32,
    body: &Expr,
    count: u64,
    node: usize,
) -> Result<Valued, NoMemory>
    ensures within { IfOk result (λ m. m.term < count_of terms.new) }
    ensures grows { OnOk result (count_of terms.old ≤ count_of terms.new) }
    ensures node { IfOk result (λ m. m.next ≡ node + exprs_in (seen_expr body.now)) }
    ensures vars { OnOk result (vars.new.items ≡ vars.old.items) }
    ensures made { IsDescribed core.now program.now → (slots : Vars) → AreSlotsAt terms.old vars.old.items slots → IfOk result (λ m. IsMadeAt terms.old terms.new m.term m.count (spec.value (setting core.now program.now) (spec.named_to (setting core.now program.now) depth) words.now (numbered (seen_expr body.now) node) (spec_put slots variable (made.int (made.int_name (spec.word_at words.now variable) count))) (suc count))) }
{
    if left == 0 {
        return Err(NoMemory);
    }
    let word = word_of(alloc, words, variable)?;
    let next = next_name(count)?;
    let name = number_name(alloc, terms, &word, count)?;
    let bound = int(terms, name)?;
    let slot = slot_at(vars.as_slice(), variable);
    let slots = vars.len();
    put(vars, variable, bound)?;
    let u = value_to(
        alloc,
        core,
        program,
        words,
        depth,
        left - 1,
        terms,
        vars,
        body,
        next,
        node,
    )?;
    put_back(vars, variable, slot, slots);
    Ok(u)
}
