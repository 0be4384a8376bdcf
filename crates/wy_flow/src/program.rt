//! Declarations.
ghost use Rattle.std.specs.Prelude.{◌≡◌, ◌≢◌, List, [], map, IfErr, IfOk, MatchResult, OnOk};
ghost use Rattle.wy_core.specs.CoreSeen.{place_of_ty, seen_alias, seen_core, seen_decl, seen_exprs, seen_output, seen_param, seen_routine, seen_ty};
ghost use Rattle.wy_core.specs.Types as types;
ghost use Rattle.wy_flow_spec.specs.environment.Seen.{seen_environment, seen_slots};
ghost use Rattle.wy_flow_spec.specs.environment.Variables.{nothing_known};
ghost use Rattle.wy_flow_exprs.specs.Seen.{seen_flow, seen_program, seen_types};
ghost use Rattle.wy_types.specs.Names.{names_in, types_of};
ghost use Rattle.wy_types.specs.Questions.{IsOver};
ghost use Rattle.wy_types.specs.Recursion.{RecurThroughParts};
ghost use Rattle.wy_flow_spec.specs.typing.Outcomes.{Fails, Meets};
ghost use Rattle.wy_flow_spec.specs.typing.Programs as spec;
ghost use Rattle.wy_flow_spec.specs.typing.TypedPrograms.{core_of, flow_of};
ghost use Rattle.wy_flow_spec.specs.declared.typing.fault.FlowFault.{FlowFault};
ghost use Rattle.wy_flow_spec.specs.declared.typing.fault.FlowFault.TheVariants.{NoMemory};

use crate::branches::clauses;
use crate::state::State;
use crate::statements::block_typed;
use std::alloc::{AllocError, Global};
use wy_core::{Alias, Core, Decl, Output, Param, Routine, Ty};
use wy_flow_exprs::checks::norm_at;
use wy_flow_exprs::{Program, Walk, result_of, signatures_of};
use wy_flow_spec::environment::{Environment, Shared, put_slot};
use wy_flow_spec::typing::{FlowFault, Typed};
use wy_items::Items;
use wy_types::Names;

/// The program with the flow type of each expression, or the first fault in the order of the walk:
/// declarations in the order of the source, each once and from left to right, the parts of a node
/// before its checks. A wide question is `TypeWide` at the node that asks it.
///
/// Linear in the program times the cost of its questions; each `if`, loop and ensures clause copies the
/// variables' types besides, by their owners, and each join compares them.
pub fn check(alloc: Global, core: Core) -> Result<Typed, FlowFault>
    requires recursion { RecurThroughParts (names_in (seen_core core)) }
    ensures typed { IfOk result (λ t. (core_of t ≡ seen_core core) × spec.IsTyped (seen_core core) (flow_of t)) }
    ensures complete { (flow : List types.Ty) → spec.IsTyped (seen_core core) flow → MatchResult result (λ t. flow_of t ≡ flow) (λ e. e ≡ NoMemory) }
    ensures fault { IfErr result (λ e. e ≢ NoMemory → spec.CoreTyped (seen_core core) (Fails e)) }
    ensures exact { (f : FlowFault) → spec.CoreTyped (seen_core core) (Fails f) → MatchResult result (λ t. ⊥) (λ e. e ≢ NoMemory → e ≡ f) }
{
    let names = Names::of(alloc, &core)?;
    let signatures = signatures_of(alloc, &core)?;
    let program = Program { names, signatures };
    let flow = flow_types(alloc, &program, core.decls.as_slice())?;
    let Program { names, .. } = program;
    Ok(Typed::new(core, names, flow))
}

// The flow type of each expression, each behind its parts.
fn flow_types(alloc: Global, program: &Program, decls: &[Decl]) -> Result<Items<Shared>, FlowFault>
    requires recursion { RecurThroughParts (types_of program.now.names) }
    ensures value { Meets (spec.DeclsTyped (seen_program program.now) (map seen_decl decls.now) []) seen_types result }
{
    let mut walk = Walk {
        question: program.names.question(alloc)?,
        flow: Items::new(alloc),
    };
    for decl in decls {
        decl_typed(alloc, program, &mut walk, decl)?;
    }
    let Walk { flow, .. } = walk;
    Ok(flow)
}

fn decl_typed(
    alloc: Global,
    program: &Program,
    walk: &mut Walk,
    decl: &Decl,
) -> Result<(), FlowFault>
    requires recursion { RecurThroughParts (types_of program.now.names) }
    requires over { IsOver (types_of program.now.names) walk.old.question }
    ensures value { Meets (spec.DeclTyped (seen_program program.now) (seen_decl decl.now) (seen_flow walk.old)) (λ (u : Unit {0}). seen_flow walk.new) result }
    ensures over { OnOk result (IsOver (types_of program.now.names) walk.new.question) }
{
    match decl {
        Decl::Alias(alias) => alias_typed(alloc, program, walk, alias),
        Decl::Routine(routine) => routine_typed(alloc, program, walk, routine),
    }
}

// The variable has the normal type of its declared type, asked at the place of that.
fn with_variable(
    alloc: Global,
    program: &Program,
    walk: &mut Walk,
    env: Environment,
    variable: u32,
    ty: &Ty,
) -> Result<Environment, FlowFault>
    requires recursion { RecurThroughParts (types_of program.now.names) }
    requires over { IsOver (types_of program.now.names) walk.old.question }
    ensures value { Meets (spec.WithVariable (types_of program.now.names) (place_of_ty ty.now) (seen_ty ty.now) variable (seen_environment env)) seen_environment result }
    ensures over { OnOk result (IsOver (types_of program.now.names) walk.new.question) }
    ensures flow { OnOk result (seen_flow walk.new ≡ seen_flow walk.old) }
{
    let made = norm_at(alloc, &program.names, &mut walk.question, ty.at, ty)?;
    let mut env = env;
    env.give(variable, made)?;
    Ok(env)
}

fn alias_typed(
    alloc: Global,
    program: &Program,
    walk: &mut Walk,
    alias: &Alias,
) -> Result<(), FlowFault>
    requires recursion { RecurThroughParts (types_of program.now.names) }
    requires over { IsOver (types_of program.now.names) walk.old.question }
    ensures value { Meets (spec.AliasTyped (seen_program program.now) (seen_alias alias.now) (seen_flow walk.old) alias.now.variable) (λ (u : Unit {0}). seen_flow walk.new) result }
    ensures over { OnOk result (IsOver (types_of program.now.names) walk.new.question) }
{
    match alias.variable {
        None => Ok(()),
        Some(variable) => {
            let nothing = Environment::new(alloc);
            let env = with_variable(alloc, program, walk, nothing, variable, &alias.ty)?;
            clauses(alloc, program, walk, &env, alias.clauses.as_slice())
        }
    }
}

// The parameters have their declared types.
fn with_params(
    alloc: Global,
    program: &Program,
    walk: &mut Walk,
    params: &[Param],
) -> Result<Environment, FlowFault>
    requires recursion { RecurThroughParts (types_of program.now.names) }
    requires over { IsOver (types_of program.now.names) walk.old.question }
    ensures value { Meets (spec.WithParams (types_of program.now.names) (map seen_param params.now) nothing_known) seen_environment result }
    ensures over { OnOk result (IsOver (types_of program.now.names) walk.new.question) }
    ensures flow { OnOk result (seen_flow walk.new ≡ seen_flow walk.old) }
{
    let mut here = Environment::new(alloc);
    for param in params {
        let next = with_variable(alloc, program, walk, here, param.variable, &param.ty)?;
        here = next;
    }
    Ok(here)
}

fn declared_params(alloc: Global, params: &[Param]) -> Result<Items<Option<Shared>>, AllocError>
    ensures value { IfOk result (λ t. seen_slots t ≡ spec.declared_params [] (map seen_param params.now)) }
{
    let mut declared = Items::new(alloc);
    for param in params {
        let ty = Shared::new(alloc, param.ty.copy(alloc)?)?;
        put_slot(&mut declared, param.variable, ty)?;
    }
    Ok(declared)
}

// A named result has its declared type in the ensures clauses.
fn with_result(
    alloc: Global,
    program: &Program,
    walk: &mut Walk,
    env: Environment,
    output: &Option<Output>,
) -> Result<Environment, FlowFault>
    requires recursion { RecurThroughParts (types_of program.now.names) }
    requires over { IsOver (types_of program.now.names) walk.old.question }
    ensures value { Meets (spec.WithResult (types_of program.now.names) (seen_environment env) (seen_output output.now)) seen_environment result }
    ensures over { OnOk result (IsOver (types_of program.now.names) walk.new.question) }
    ensures flow { OnOk result (seen_flow walk.new ≡ seen_flow walk.old) }
{
    match output {
        None => Ok(env),
        Some(output) => with_named(alloc, program, walk, env, &output.ty, output.variable),
    }
}

fn with_named(
    alloc: Global,
    program: &Program,
    walk: &mut Walk,
    env: Environment,
    ty: &Ty,
    variable: Option<u32>,
) -> Result<Environment, FlowFault>
    requires recursion { RecurThroughParts (types_of program.now.names) }
    requires over { IsOver (types_of program.now.names) walk.old.question }
    ensures value { Meets (spec.WithNamed (types_of program.now.names) (place_of_ty ty.now) (seen_ty ty.now) (seen_environment env) variable) seen_environment result }
    ensures over { OnOk result (IsOver (types_of program.now.names) walk.new.question) }
    ensures flow { OnOk result (seen_flow walk.new ≡ seen_flow walk.old) }
{
    match variable {
        None => Ok(env),
        Some(variable) => with_variable(alloc, program, walk, env, variable, ty),
    }
}

fn routine_typed(
    alloc: Global,
    program: &Program,
    walk: &mut Walk,
    routine: &Routine,
) -> Result<(), FlowFault>
    requires recursion { RecurThroughParts (types_of program.now.names) }
    requires over { IsOver (types_of program.now.names) walk.old.question }
    ensures value { Meets (spec.RoutineTyped (seen_program program.now) (seen_routine routine.now) (seen_flow walk.old)) (λ (u : Unit {0}). seen_flow walk.new) result }
    ensures over { OnOk result (IsOver (types_of program.now.names) walk.new.question) }
{
    let env = with_params(alloc, program, walk, routine.params.as_slice())?;
    clauses(alloc, program, walk, &env, routine.preconditions.as_slice())?;
    let copy = env.copy(alloc)?;
    let behind = with_result(alloc, program, walk, copy, &routine.result)?;
    clauses(
        alloc,
        program,
        walk,
        &behind,
        routine.postconditions.as_slice(),
    )?;
    let declared = declared_params(alloc, routine.params.as_slice())?;
    let state = State {
        env,
        declared,
        breaks: Items::new(alloc),
    };
    let output = result_of(alloc, &routine.result)?;
    let _end = block_typed(
        alloc,
        program,
        walk,
        &output,
        routine.body.as_slice(),
        state,
    )?;
    Ok(())
}
