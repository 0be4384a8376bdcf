//! What is known where a contract or a body begins, and of a result.
ghost use Rattle.std.specs.Prelude.{◌≡◌, [], ◌∷◌, ℕ, map, Some, IfOk, OnOk};
ghost use Rattle.wy_vc_spec.specs.Numbered.{numbered_routine};
ghost use Rattle.wy_vc_spec.specs.Programs as spec;
ghost use Rattle.wy_vc_spec.specs.Values.{word_if};
ghost use Rattle.wy_vc_spec.specs.Variables as slots;
ghost use Rattle.wy_core.specs.CoreSeen.{seen_output, seen_param, seen_routine};
ghost use Rattle.wy_vc_body.specs.Loops.{Renews};
ghost use Rattle.wy_vc.specs.Entering.{Enters};
ghost use Rattle.wy_vc_body.specs.Paths.{spot_of};
ghost use Rattle.wy_vc_tables.specs.program_names.Described.{IsDescribed, setting};
ghost use Rattle.wy_vc_body.specs.wy_vc_exprs.Slots.{AreSlots, slots_of};
ghost use Rattle.wy_vc_body.specs.wy_vc_exprs.State.{IsSound, hyps_of};

use std::alloc::{AllocError, Global};
use wy_core::{Core, Output, Param, Routine};
use wy_data::Name;
use wy_term::NoMemory;
use wy_vc_body::{Here, Walk, assume_in_type, new_name, put, val_name, variable, word_of};
use wy_vc_tables::program_names::Program;

// A parameter takes a new name, and has a value.
fn name_param(
    alloc: Global,
    walk: &mut Walk,
    words: &[Name],
    here: &mut Here,
    param: &Param,
) -> Result<(), NoMemory>
    requires sound { IsSound walk.old }
    requires slots { AreSlots walk.old.maker.terms here.old.vars.items }
    ensures value { OnOk result (Renews walk.old walk.new here.new (spec.name_params words.now (seen_param param.now ∷ []) (spot_of walk.old here.old) walk.old.maker.count)) }
    ensures node { OnOk result (walk.new.maker.node ≡ walk.old.maker.node) }
{
    let name = new_name(alloc, &mut walk.maker, words, param.variable)?;
    here.assign(param.variable, name)?;
    Ok(())
}

// The parameters take new names, one after the other.
fn name_params(
    alloc: Global,
    walk: &mut Walk,
    words: &[Name],
    here: &mut Here,
    params: &[Param],
) -> Result<(), NoMemory>
    requires sound { IsSound walk.old }
    requires slots { AreSlots walk.old.maker.terms here.old.vars.items }
    ensures value { OnOk result (Renews walk.old walk.new here.new (spec.name_params words.now (map seen_param params.now) (spot_of walk.old here.old) walk.old.maker.count)) }
    ensures node { OnOk result (walk.new.maker.node ≡ walk.old.maker.node) }
{
    for param in params {
        name_param(alloc, walk, words, here, param)?;
    }
    Ok(())
}

// A parameter is of its type.
fn assume_param(
    alloc: Global,
    core: &Core,
    program: &Program,
    walk: &mut Walk,
    here: &Here,
    param: &Param,
) -> Result<(), NoMemory>
    requires described { IsDescribed core.now program.now }
    requires sound { IsSound walk.old }
    requires slots { AreSlots walk.old.maker.terms here.now.vars.items }
    ensures value { OnOk result (Renews walk.old walk.new here.now (spec.assume_params (setting core.now program.now) (seen_param param.now ∷ []) (spot_of walk.old here.now) walk.old.maker.count)) }
    ensures node { OnOk result (walk.new.maker.node ≡ walk.old.maker.node) }
{
    let term = variable(&mut walk.maker.terms, here.vars.as_slice(), param.variable)?;
    assume_in_type(alloc, core, program, walk, term, &param.ty)
}

// The parameters are of their types.
fn assume_params(
    alloc: Global,
    core: &Core,
    program: &Program,
    walk: &mut Walk,
    here: &Here,
    params: &[Param],
) -> Result<(), NoMemory>
    requires described { IsDescribed core.now program.now }
    requires sound { IsSound walk.old }
    requires slots { AreSlots walk.old.maker.terms here.now.vars.items }
    ensures value { OnOk result (Renews walk.old walk.new here.now (spec.assume_params (setting core.now program.now) (map seen_param params.now) (spot_of walk.old here.now) walk.old.maker.count)) }
    ensures node { OnOk result (walk.new.maker.node ≡ walk.old.maker.node) }
{
    for param in params {
        assume_param(alloc, core, program, walk, here, param)?;
    }
    Ok(())
}

/// Where a contract or a body begins: each parameter takes a new name, and then each is of its type. Nothing is assumed before, and no
/// name is made.
pub fn enter(
    alloc: Global,
    core: &Core,
    program: &Program,
    walk: &mut Walk,
    routine: &Routine,
) -> Result<Here, NoMemory>
    requires described { IsDescribed core.now program.now }
    requires sound { IsSound walk.old }
    requires hyps { walk.old.hyps.items ≡ [] }
    requires count { walk.old.maker.count ≡ 0 }
    ensures value { (k : ℕ) → IfOk result (λ h. Renews walk.old walk.new h (spec.enter (setting core.now program.now) (numbered_routine (seen_routine routine.now) k))) }
    ensures node { OnOk result (walk.new.maker.node ≡ walk.old.maker.node) }
{
    let words = routine.variables.as_slice();
    let params = routine.params.as_slice();
    let mut here = Here::new(alloc);
    name_params(alloc, walk, words, &mut here, params)?;
    assume_params(alloc, core, program, walk, &here, params)?;
    Ok(here)
}

// The word of a result: that of its variable, if it has one.
fn result_word(alloc: Global, words: &[Name], variable: Option<u32>) -> Result<Name, AllocError>
    ensures value { IfOk result (λ word. word ≡ word_if words.now variable spec.result_word) }
{
    match variable {
        None => Ok(Name::new(String::from_str(alloc, "result")?)),
        Some(variable) => word_of(alloc, words, variable),
    }
}

// The variable, if there is one, stands for this term.
fn put_if(vars: &mut Vec<Option<u32>>, variable: Option<u32>, term: u32) -> Result<(), AllocError>
    ensures value { OnOk result (vars.new.items ≡ slots.put_if vars.old.items variable term) }
{
    match variable {
        None => Ok(()),
        Some(variable) => put(vars, variable, term),
    }
}

// A result takes a new name, and is of its type.
fn enter_output(
    alloc: Global,
    core: &Core,
    program: &Program,
    walk: &mut Walk,
    routine: &Routine,
    output: &Output,
    vars: &mut Vec<Option<u32>>,
) -> Result<(), NoMemory>
    requires described { IsDescribed core.now program.now }
    requires sound { IsSound walk.old }
    requires slots { AreSlots walk.old.maker.terms vars.old.items }
    ensures value { (k : ℕ) → OnOk result (Enters walk.old walk.new vars.new.items (spec.enter_result (setting core.now program.now) (numbered_routine (seen_routine routine.now) k) (seen_output (Some output.now)) (slots_of walk.old.maker.terms vars.old.items) (hyps_of walk.old) walk.old.maker.count)) }
    ensures node { OnOk result (walk.new.maker.node ≡ walk.old.maker.node) }
{
    let words = routine.variables.as_slice();
    let word = result_word(alloc, words, output.variable)?;
    let number = walk.maker.name()?;
    let name = val_name(alloc, &mut walk.maker.terms, &word, number)?;
    assume_in_type(alloc, core, program, walk, name, &output.ty)?;
    put_if(vars, output.variable, name)?;
    Ok(())
}

/// The result of a function or method, where it has one: it takes a new name, and is of its type.
pub fn enter_result(
    alloc: Global,
    core: &Core,
    program: &Program,
    walk: &mut Walk,
    routine: &Routine,
    vars: &mut Vec<Option<u32>>,
) -> Result<(), NoMemory>
    requires described { IsDescribed core.now program.now }
    requires sound { IsSound walk.old }
    requires slots { AreSlots walk.old.maker.terms vars.old.items }
    ensures value { (k : ℕ) → OnOk result (Enters walk.old walk.new vars.new.items (spec.enter_result (setting core.now program.now) (numbered_routine (seen_routine routine.now) k) (seen_output routine.now.result) (slots_of walk.old.maker.terms vars.old.items) (hyps_of walk.old) walk.old.maker.count)) }
    ensures node { OnOk result (walk.new.maker.node ≡ walk.old.maker.node) }
{
    match &routine.result {
        None => Ok(()),
        Some(output) => enter_output(alloc, core, program, walk, routine, output, vars),
    }
}
