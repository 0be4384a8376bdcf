//! Values that come into a part of a variable.
ghost use Rattle.std.specs.Prelude.{◌≡◌, ◌<◌, ◌+◌, [], ◌∷◌, length as count_of, map, Some, IfOk, OnOk};
ghost use Rattle.wy_vc_exprs.specs.wy_vc_spec.Numbered as numbers;
ghost use Rattle.wy_vc_exprs.specs.wy_vc_spec.Sizes as sizes;
ghost use Rattle.wy_vc_exprs.specs.wy_vc_spec.Statements as spec;
ghost use Rattle.wy_vc_exprs.specs.wy_vc_spec.Variables.{Vars};
ghost use Rattle.wy_core.specs.CoreSeen.{seen_expr, seen_step};
ghost use Rattle.wy_core.specs.CoreTree as tree;
ghost use Rattle.wy_term.specs.Nodes.{tree_at};
ghost use Rattle.wy_term.specs.Numbers.{IsAt};
ghost use Rattle.wy_term.specs.Term.{Term};
ghost use Rattle.wy_vc_body.specs.Frames.{IsFrame, body_at};
ghost use Rattle.wy_vc_body.specs.Going.{Went};
ghost use Rattle.wy_vc_body.specs.Places.{Along, AreParts, IsPart, Stepping, numbered_step, seen_part, seen_parts, stepped};
ghost use Rattle.wy_vc_body.specs.Paths.{spot_of};
ghost use Rattle.wy_vc_exprs.specs.wy_vc_operations.Growing.{Makes};
ghost use Rattle.wy_vc_exprs.specs.Slots.{AreSlots, slots_of};
ghost use Rattle.wy_vc_exprs.specs.State.{IsSound, hyps_of};

use crate::frame::Frame;
use crate::here::Here;
use crate::types::type_of;
use crate::values::give;
use std::alloc::Global;
use wy_core::{Expr, Step, StepKind};
use wy_data::Name;
use wy_term::{NoMemory, Terms};
use wy_vc_exprs::{Walk, field, index, owe_index, updated, updated_field, variable, walked};

/// A part that a step of a path leads out of, by the number of its term: an element of an array at an index, or a field of a record.
#[derive(Drop)]
pub enum Part {
    Element(u32, u32),
    Field(Name, u32),
}

// The part that a step leads out of, and what it leads to.
#[derive(Drop)]
struct Led {
    part: Part,
    whole: u32,
}

// A step to an element: the index is walked, and then it is one of the array.
fn step_in_array(
    alloc: Global,
    frame: &Frame,
    walk: &mut Walk,
    vars: &[Option<u32>],
    at: u32,
    expr: &Expr,
    whole: u32,
) -> Result<Led, NoMemory>
    requires frame { IsFrame walk.old.maker.terms frame.now }
    requires sound { IsSound walk.old }
    requires slots { AreSlots walk.old.maker.terms vars.now }
    requires within { whole < count_of walk.old.maker.terms }
    ensures value { IfOk result (λ l. Stepping walk.old walk.new l.part l.whole (stepped (body_at walk.old.maker.terms frame.now) (tree.IndexStep at (numbers.numbered (seen_expr expr.now) walk.old.maker.node)) (tree_at walk.old.maker.terms whole) (slots_of walk.old.maker.terms vars.now) (hyps_of walk.old) walk.old.maker.count)) }
    ensures node { OnOk result (walk.new.maker.node ≡ walk.old.maker.node + sizes.exprs_in (seen_expr expr.now)) }
{
    let words = frame.routine.variables.as_slice();
    let place = walked(alloc, frame.core, frame.program, words, walk, vars, expr)?;
    owe_index(alloc, walk, at, whole, place)?;
    let inner = index(&mut walk.maker.terms, whole, place)?;
    Ok(Led {
        part: Part::Element(whole, place),
        whole: inner,
    })
}

// A step to a field.
fn step_in_record(
    alloc: Global,
    walk: &mut Walk,
    at: u32,
    name: &Name,
    whole: u32,
) -> Result<Led, NoMemory>
    requires sound { IsSound walk.old }
    requires within { whole < count_of walk.old.maker.terms }
    ensures value { (b : spec.Body numbers.Node) (vars : Vars) → IfOk result (λ l. Stepping walk.old walk.new l.part l.whole (stepped b (tree.FieldStep at name.now) (tree_at walk.old.maker.terms whole) vars (hyps_of walk.old) walk.old.maker.count)) }
    ensures node { OnOk result (walk.new.maker.node ≡ walk.old.maker.node) }
{
    let _at = at;
    let inner = field(alloc, &mut walk.maker.terms, whole, name)?;
    let name = name.copy(alloc)?;
    Ok(Led {
        part: Part::Field(name, whole),
        whole: inner,
    })
}

// A step of a path.
fn step_in(
    alloc: Global,
    frame: &Frame,
    walk: &mut Walk,
    vars: &[Option<u32>],
    step: &Step,
    whole: u32,
) -> Result<Led, NoMemory>
    requires frame { IsFrame walk.old.maker.terms frame.now }
    requires sound { IsSound walk.old }
    requires slots { AreSlots walk.old.maker.terms vars.now }
    requires within { whole < count_of walk.old.maker.terms }
    ensures value { IfOk result (λ l. Stepping walk.old walk.new l.part l.whole (stepped (body_at walk.old.maker.terms frame.now) (numbered_step (seen_step step.now) walk.old.maker.node) (tree_at walk.old.maker.terms whole) (slots_of walk.old.maker.terms vars.now) (hyps_of walk.old) walk.old.maker.count)) }
    ensures node { OnOk result (walk.new.maker.node ≡ walk.old.maker.node + sizes.exprs_in_step (seen_step step.now)) }
{
    match &step.kind {
        StepKind::Index(expr) => { step_in_array(alloc, frame, walk, vars, step.at, expr, whole) }
        StepKind::Field(name) => step_in_record(alloc, walk, step.at, name, whole),
    }
}

// The parts along a path, from the outside.
fn parts_along(
    alloc: Global,
    frame: &Frame,
    walk: &mut Walk,
    vars: &[Option<u32>],
    path: &[Step],
    whole: u32,
) -> Result<Vec<Part>, NoMemory>
    requires frame { IsFrame walk.old.maker.terms frame.now }
    requires sound { IsSound walk.old }
    requires slots { AreSlots walk.old.maker.terms vars.now }
    requires within { whole < count_of walk.old.maker.terms }
    ensures value { IfOk result (λ ps. Along walk.old walk.new ps.items (spec.along (body_at walk.old.maker.terms frame.now) (numbers.numbered_path (map seen_step path.now) walk.old.maker.node) (tree_at walk.old.maker.terms whole) (slots_of walk.old.maker.terms vars.now) (hyps_of walk.old) walk.old.maker.count)) }
    ensures node { OnOk result (walk.new.maker.node ≡ walk.old.maker.node + sizes.exprs_in_path (map seen_step path.now)) }
{
    let mut parts = Vec::new(alloc);
    let mut inner = whole;
    for step in path {
        let led = step_in(alloc, frame, walk, vars, step, inner)?;
        parts.push(led.part)?;
        inner = led.whole;
    }
    Ok(parts)
}

// The part with another value in place of what the step leads to.
fn with_part(alloc: Global, terms: &mut Terms, part: Part, value: u32) -> Result<u32, NoMemory>
    requires part { IsPart terms.old part }
    requires within { value < count_of terms.old }
    ensures within { IfOk result (λ r. r < count_of terms.new) }
    ensures made { (v : Term) → IsAt terms.old value v → IfOk result (λ r. Makes terms.old terms.new r (spec.rebuilt (seen_part terms.old part ∷ []) v)) }
{
    match part {
        Part::Element(whole, place) => updated(terms, whole, place, value),
        Part::Field(name, whole) => updated_field(alloc, terms, whole, &name, value),
    }
}

// The whole with another value at the end of the path.
fn rebuilt(alloc: Global, terms: &mut Terms, parts: Vec<Part>, value: u32) -> Result<u32, NoMemory>
    requires parts { AreParts terms.old parts.items }
    requires within { value < count_of terms.old }
    ensures made { (v : Term) → IsAt terms.old value v → IfOk result (λ r. Makes terms.old terms.new r (spec.rebuilt (seen_parts terms.old parts.items) v)) }
{
    let mut parts = parts;
    let mut whole = value;
    while let Some(part) = parts.pop() {
        whole = with_part(alloc, terms, part, whole)?;
    }
    Ok(whole)
}

/// `x = e` and `x[i].f = e`: each index along the path is walked and checked before the next, then the value is walked, and the variable is
/// given the whole with the value in its place.
pub fn assign(
    alloc: Global,
    frame: &Frame,
    walk: &mut Walk,
    here: &mut Here,
    at: u32,
    x: u32,
    path: &[Step],
    expr: &Expr,
) -> Result<(), NoMemory>
    requires frame { IsFrame walk.old.maker.terms frame.now }
    requires sound { IsSound walk.old }
    requires slots { AreSlots walk.old.maker.terms here.old.vars.items }
    ensures value { OnOk result (Went walk.old walk.new (Some here.new) (spec.assigned (body_at walk.old.maker.terms frame.now) at x (numbers.numbered_path (map seen_step path.now) walk.old.maker.node) (numbers.numbered (seen_expr expr.now) (walk.old.maker.node + sizes.exprs_in_path (map seen_step path.now))) (spot_of walk.old here.old) walk.old.maker.count)) }
    ensures node { OnOk result (walk.new.maker.node ≡ walk.old.maker.node + sizes.exprs_in_path (map seen_step path.now) + sizes.exprs_in (seen_expr expr.now)) }
{
    let words = frame.routine.variables.as_slice();
    let whole = variable(&mut walk.maker.terms, here.vars.as_slice(), x)?;
    let parts = parts_along(alloc, frame, walk, here.vars.as_slice(), path, whole)?;
    let vars = here.vars.as_slice();
    let value = walked(alloc, frame.core, frame.program, words, walk, vars, expr)?;
    let value = rebuilt(alloc, &mut walk.maker.terms, parts, value)?;
    let ty = type_of(frame.types.as_slice(), x);
    give(alloc, frame, walk, here, at, x, value, ty)
}
