//! Statements that hold no others.
ghost use Rattle.std.specs.Prelude.{◌≡◌, ◌+◌, suc, List, [], map, None, Some, IfOk, OnOk};
ghost use Rattle.wy_vc_spec.specs.Making.{val_name};
ghost use Rattle.wy_vc_spec.specs.Numbered as numbers;
ghost use Rattle.wy_vc_spec.specs.Sizes as sizes;
ghost use Rattle.wy_vc_spec.specs.Spots as spots;
ghost use Rattle.wy_vc_spec.specs.Statements as spec;
ghost use Rattle.wy_vc_spec.specs.Values.{word_at};
ghost use Rattle.wy_core.specs.CoreSeen.{seen_expr, seen_exprs, seen_option, seen_step, seen_ty};
ghost use Rattle.wy_core.specs.CoreTree as tree;
ghost use Rattle.wy_vc_body.specs.Frames.{IsFrame, body_at};
ghost use Rattle.wy_vc_body.specs.Going.{Went};
ghost use Rattle.wy_vc_body.specs.Paths.{spot_of};
ghost use Rattle.wy_vc_body.specs.wy_vc_exprs.Slots.{AreSlots};
ghost use Rattle.wy_vc_body.specs.wy_vc_exprs.State.{IsSound};

use std::alloc::Global;
use wy_core::{Expr, Step, Ty};
use wy_term::{CondKind, NoMemory};
use wy_vc_body::{
    Frame, Here, Walk, assign, call, disjunction, formula, give, leave, new_name, walked,
    walked_all,
};

// `int x`: the variable takes a new name, and has no value.
fn declare_name(
    alloc: Global,
    frame: &Frame,
    walk: &mut Walk,
    here: Here,
    x: u32,
) -> Result<Here, NoMemory>
    requires sound { IsSound walk.old }
    requires slots { AreSlots walk.old.maker.terms here.vars.items }
    ensures value { IfOk result (λ h. Went walk.old walk.new (Some h) (spots.goes (suc walk.old.maker.count) (spots.declare x (val_name (word_at frame.now.routine.now.variables x) walk.old.maker.count) (spot_of walk.old here)) [])) }
    ensures node { OnOk result (walk.new.maker.node ≡ walk.old.maker.node) }
{
    let words = frame.routine.variables.as_slice();
    let name = new_name(alloc, &mut walk.maker, words, x)?;
    let mut here = here;
    here.declare(x, name)?;
    Ok(here)
}

// `int x = e`: the value comes into the variable.
fn declare_value(
    alloc: Global,
    frame: &Frame,
    walk: &mut Walk,
    here: Here,
    at: u32,
    ty: &Ty,
    x: u32,
    value: &Expr,
) -> Result<Here, NoMemory>
    requires frame { IsFrame walk.old.maker.terms frame.now }
    requires sound { IsSound walk.old }
    requires slots { AreSlots walk.old.maker.terms here.vars.items }
    ensures value { (around : List (tree.Expr numbers.Node)) → IfOk result (λ h. Went walk.old walk.new (Some h) (spec.exec (body_at walk.old.maker.terms frame.now) around (tree.DeclareStmt at (seen_ty ty.now) x (Some (numbers.numbered (seen_expr value.now) walk.old.maker.node))) (spot_of walk.old here) walk.old.maker.count)) }
    ensures node { OnOk result (walk.new.maker.node ≡ walk.old.maker.node + sizes.exprs_in (seen_expr value.now)) }
{
    let words = frame.routine.variables.as_slice();
    let vars = here.vars.as_slice();
    let term = walked(alloc, frame.core, frame.program, words, walk, vars, value)?;
    let mut here = here;
    give(alloc, frame, walk, &mut here, at, x, term, Some(ty))?;
    Ok(here)
}

/// `int x` and `int x = e`.
pub fn declare(
    alloc: Global,
    frame: &Frame,
    walk: &mut Walk,
    here: Here,
    at: u32,
    ty: &Ty,
    x: u32,
    value: &Option<Expr>,
) -> Result<Option<Here>, NoMemory>
    requires frame { IsFrame walk.old.maker.terms frame.now }
    requires sound { IsSound walk.old }
    requires slots { AreSlots walk.old.maker.terms here.vars.items }
    ensures value { (around : List (tree.Expr numbers.Node)) → IfOk result (λ h. Went walk.old walk.new h (spec.exec (body_at walk.old.maker.terms frame.now) around (tree.DeclareStmt at (seen_ty ty.now) x (numbers.numbered_option (seen_option value.now) walk.old.maker.node)) (spot_of walk.old here) walk.old.maker.count)) }
    ensures node { OnOk result (walk.new.maker.node ≡ walk.old.maker.node + sizes.exprs_in_option (seen_option value.now)) }
{
    match value {
        None => {
            let here = declare_name(alloc, frame, walk, here, x)?;
            Ok(Some(here))
        }
        Some(value) => {
            let here = declare_value(alloc, frame, walk, here, at, ty, x, value)?;
            Ok(Some(here))
        }
    }
}

/// `x = e` and `x[i].f = e`.
pub fn assign_part(
    alloc: Global,
    frame: &Frame,
    walk: &mut Walk,
    here: Here,
    at: u32,
    x: u32,
    path: &[Step],
    expr: &Expr,
) -> Result<Option<Here>, NoMemory>
    requires frame { IsFrame walk.old.maker.terms frame.now }
    requires sound { IsSound walk.old }
    requires slots { AreSlots walk.old.maker.terms here.vars.items }
    ensures value { (around : List (tree.Expr numbers.Node)) → IfOk result (λ h. Went walk.old walk.new h (spec.exec (body_at walk.old.maker.terms frame.now) around (tree.AssignStmt at x (numbers.numbered_path (map seen_step path.now) walk.old.maker.node) (numbers.numbered (seen_expr expr.now) (walk.old.maker.node + sizes.exprs_in_path (map seen_step path.now)))) (spot_of walk.old here) walk.old.maker.count)) }
    ensures node { OnOk result (walk.new.maker.node ≡ walk.old.maker.node + sizes.exprs_in_path (map seen_step path.now) + sizes.exprs_in (seen_expr expr.now)) }
{
    let mut here = here;
    assign(alloc, frame, walk, &mut here, at, x, path, expr)?;
    Ok(Some(here))
}

/// `m(e)`: what the arguments owe, and what the call does.
pub fn call_method(
    alloc: Global,
    frame: &Frame,
    walk: &mut Walk,
    here: Here,
    at: u32,
    routine: u32,
    args: &[Expr],
) -> Result<Option<Here>, NoMemory>
    requires frame { IsFrame walk.old.maker.terms frame.now }
    requires sound { IsSound walk.old }
    requires slots { AreSlots walk.old.maker.terms here.vars.items }
    ensures value { (around : List (tree.Expr numbers.Node)) → IfOk result (λ h. Went walk.old walk.new h (spec.exec (body_at walk.old.maker.terms frame.now) around (tree.CallStmt at routine (numbers.numbered_all (tree.exprs_of (seen_exprs args.now)) walk.old.maker.node)) (spot_of walk.old here) walk.old.maker.count)) }
    ensures node { OnOk result (walk.new.maker.node ≡ walk.old.maker.node + sizes.exprs_in_all (tree.exprs_of (seen_exprs args.now))) }
{
    let words = frame.routine.variables.as_slice();
    let vars = here.vars.as_slice();
    let terms = walked_all(alloc, frame.core, frame.program, words, walk, vars, args)?;
    let given = terms.as_slice();
    call(alloc, frame.core, frame.program, walk, at, routine, given)?;
    Ok(Some(here))
}

// `return e`
fn return_value(
    alloc: Global,
    frame: &Frame,
    walk: &mut Walk,
    here: &Here,
    at: u32,
    value: &Expr,
) -> Result<(), NoMemory>
    requires frame { IsFrame walk.old.maker.terms frame.now }
    requires sound { IsSound walk.old }
    requires slots { AreSlots walk.old.maker.terms here.now.vars.items }
    ensures value { (around : List (tree.Expr numbers.Node)) → OnOk result (Went walk.old walk.new None (spec.exec (body_at walk.old.maker.terms frame.now) around (tree.ReturnStmt at (Some (numbers.numbered (seen_expr value.now) walk.old.maker.node))) (spot_of walk.old here.now) walk.old.maker.count)) }
    ensures node { OnOk result (walk.new.maker.node ≡ walk.old.maker.node + sizes.exprs_in (seen_expr value.now)) }
{
    let words = frame.routine.variables.as_slice();
    let vars = here.vars.as_slice();
    let term = walked(alloc, frame.core, frame.program, words, walk, vars, value)?;
    leave(alloc, frame, walk, at, Some(term))
}

/// `return` and `return e`: no path goes on.
pub fn leave_body(
    alloc: Global,
    frame: &Frame,
    walk: &mut Walk,
    here: Here,
    at: u32,
    value: &Option<Expr>,
) -> Result<Option<Here>, NoMemory>
    requires frame { IsFrame walk.old.maker.terms frame.now }
    requires sound { IsSound walk.old }
    requires slots { AreSlots walk.old.maker.terms here.vars.items }
    ensures value { (around : List (tree.Expr numbers.Node)) → IfOk result (λ h. Went walk.old walk.new h (spec.exec (body_at walk.old.maker.terms frame.now) around (tree.ReturnStmt at (numbers.numbered_option (seen_option value.now) walk.old.maker.node)) (spot_of walk.old here) walk.old.maker.count)) }
    ensures node { OnOk result (walk.new.maker.node ≡ walk.old.maker.node + sizes.exprs_in_option (seen_option value.now)) }
{
    match value {
        None => {
            leave(alloc, frame, walk, at, None)?;
            Ok(None)
        }
        Some(value) => {
            return_value(alloc, frame, walk, &here, at, value)?;
            Ok(None)
        }
    }
}

/// `assert e`
pub fn hold(
    alloc: Global,
    frame: &Frame,
    walk: &mut Walk,
    here: Here,
    at: u32,
    expr: &Expr,
) -> Result<Option<Here>, NoMemory>
    requires frame { IsFrame walk.old.maker.terms frame.now }
    requires sound { IsSound walk.old }
    requires slots { AreSlots walk.old.maker.terms here.vars.items }
    ensures value { (around : List (tree.Expr numbers.Node)) → IfOk result (λ h. Went walk.old walk.new h (spec.exec (body_at walk.old.maker.terms frame.now) around (tree.AssertStmt at (numbers.numbered (seen_expr expr.now) walk.old.maker.node)) (spot_of walk.old here) walk.old.maker.count)) }
    ensures node { OnOk result (walk.new.maker.node ≡ walk.old.maker.node + sizes.exprs_in (seen_expr expr.now)) }
{
    let words = frame.routine.variables.as_slice();
    let vars = here.vars.as_slice();
    let term = walked(alloc, frame.core, frame.program, words, walk, vars, expr)?;
    let holds = formula(&mut walk.maker.terms, term)?;
    walk.owe(alloc, CondKind::Assert, at, holds)?;
    Ok(Some(here))
}

/// `fail`: it is never reached.
pub fn never(alloc: Global, walk: &mut Walk, at: u32) -> Result<Option<Here>, NoMemory>
    requires sound { IsSound walk.old }
    ensures value { (body : spec.Body numbers.Node) (around : List (tree.Expr numbers.Node)) (here : Here) → IfOk result (λ h. Went walk.old walk.new h (spec.exec body around (tree.FailStmt at) (spot_of walk.old here) walk.old.maker.count)) }
    ensures node { OnOk result (walk.new.maker.node ≡ walk.old.maker.node) }
{
    let none = disjunction(&mut walk.maker.terms, Vec::new(alloc))?;
    walk.owe(alloc, CondKind::Fail, at, none)?;
    Ok(None)
}
