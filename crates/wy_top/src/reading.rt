//! The conditions that the program of a source owes.
ghost use Rattle.std.specs.Prelude.{◌≡◌, ◌<◌, ◌≤◌, ◌^◌, ℕ, List, All, length, map, false, IsTrue, IfOk, IfErr, MatchResult};
ghost use Rattle.wy_batch.specs.wy_check.Within.{IsWithin};
ghost use Rattle.wy_top_probe.specs.wy_top_source.wy_assign.Assigned.{IsAssigned};
ghost use Rattle.wy_vc.specs.wy_vc_spec.Limits.{most_conditions};
ghost use Rattle.wy_core.specs.CoreTree as tree;
ghost use Rattle.wy_core.specs.Types as types;
ghost use Rattle.wy_top_probe.specs.wy_top_answers.wy_sound_terms.formed.OwedConditions.{owed_conditions};
ghost use Rattle.wy_top.specs.Faults.{is_no_memory};
ghost use Rattle.wy_top.specs.Owed.{IsDue, IsRefused, Owes, told_by};
ghost use Rattle.wy_top.specs.declared.fault.OwedFault.{OwedFault};
ghost use Rattle.wy_top_probe.specs.wy_top_answers.wy_vc_laws.shown.Certified.{AreFormed};
ghost use Rattle.wy_top_probe.specs.wy_top_source.texts.Sources.{IsFormed};
ghost use Rattle.wy_term.specs.Condition.{condition_of};
ghost use Rattle.wy_top_probe.specs.wy_flow_spec.typing.TypedPrograms.{core_of, flow_of};
ghost use Rattle.wy_vc.specs.Listed.{seen_conds};

use crate::fault::OwedFault;
use std::alloc::Global;
use wy_term::Conds;
use wy_top_probe::read_program;
use wy_top_probe::wy_flow_spec::typing::Typed;
use wy_vc::conditions;

/// The typed and assigned program that the bytes spell, and the conditions that it owes, in order. The source is refused first; then
/// the limits of a list are tested. The numbers of the conditions are those of their terms, and what the laws on certificates ask of
/// conditions holds of them. It takes what reading the program and making its conditions take.
pub fn read_owed(alloc: Global, source: &[u8]) -> Result<(Typed, Conds), OwedFault>
    requires { length source.now < 2 ^ 32 }
    ensures program { IfOk result (λ r. Owes source.now (core_of r.0) (flow_of r.0)) }
    ensures list { IfOk result (λ r. seen_conds r.1 ≡ told_by (core_of r.0) (flow_of r.0)) }
    ensures complete { (core : tree.Core ℕ) → (flow : List types.Ty) → Owes source.now core flow → MatchResult result (λ r. (core_of r.0 ≡ core) × (flow_of r.0 ≡ flow)) (λ e. IsTrue (is_no_memory e)) }
    ensures core { IfOk result (λ r. IsFormed (core_of r.0)) }
    ensures assigned { IfOk result (λ r. IsAssigned (core_of r.0)) }
    ensures conditions { IfOk result (λ r. map (condition_of r.1.terms) r.1.list.items ≡ owed_conditions (core_of r.0) (flow_of r.0)) }
    ensures numbers { IfOk result (λ r. All (IsWithin (length r.1.terms)) r.1.list.items) }
    ensures formed { IfOk result (λ r. AreFormed (map (condition_of r.1.terms) r.1.list.items)) }
    ensures few { IfOk result (λ r. length r.1.list.items ≤ most_conditions) }
    ensures refused { IfErr result (λ e. is_no_memory e ≡ false → IsRefused source.now e) }
    ensures exact { (f : OwedFault) → IsDue source.now f → MatchResult result (λ r. ⊥) (λ e. is_no_memory e ≡ false → e ≡ f) }
{
    let typed = match read_program(alloc, source) {
        Ok(typed) => typed,
        Err(refusal) => return Err(OwedFault::Source(refusal)),
    };
    match conditions(alloc, &typed) {
        Ok(conds) => Ok((typed, conds)),
        Err(fault) => Err(OwedFault::Limit(fault)),
    }
}
