//! The evidence that a program is accepted.
ghost use Rattle.std.specs.Prelude.{◌≡◌, map};
ghost use Rattle.wy_sound.specs.acceptance.Acceptance.{IsAccepted, AreProved};
ghost use Rattle.wy_assign.specs.Assigned.{IsAssigned};
ghost use Rattle.wy_cert.specs.Steps.{steps_of};
ghost use Rattle.wy_sound_programs.specs.wy_sound_terms.formed.OwedConditions.{owed_conditions};
ghost use Rattle.wy_term.specs.Condition.{condition_of};
ghost use Rattle.wy_flow_spec.specs.typing.TypedPrograms.{core_of, flow_of};

use std::marker::Model;
use wy_cert::Cert;
use wy_flow_spec::typing::Typed;
use wy_term::Conds;

/// A program that is well typed, that assigns each variable before its uses, and of which every condition is true of all data
/// and whole numbers.
#[derive(Drop)]
pub struct Accepted {
    typed: Typed,
}

impl Model for Accepted {
    ghost use Rattle.std.specs.Coded.{codes};
    ghost use Rattle.wy_sound.specs.acceptance.Acceptance.{IsAccepted};
    ghost use Rattle.wy_core.specs.contracts.declarations.Core as cores;
    ghost use Rattle.wy_core.specs.contracts.types.Ty as tys;
    ghost use Rattle.wy_sound_programs.specs.wy_types.contracts.names.Names as tables;
    ghost use Rattle.wy_flow_spec.specs.typing.TypedPrograms.{Triple};

    ghost Value = { Triple };

    ghost coded = { Prim.hlevel (codes, cores.the_row.coded, tables.the_row.coded, tys.the_row.coded) };

    ghost view = { λ a. a.typed };

    ghost invariant = { λ a. IsAccepted a.typed };
}

/// Accepts a program that assigns each variable before its uses, whose conditions are these, and each of which has the certificate at
/// its place: valid for it, and with terms of the sorts of their places, as those of a file and those that are found have. It takes no
/// memory.
pub fn accept(typed: Typed, conds: &Conds, certs: &[Cert]) -> Accepted
    requires assigned { IsAssigned (core_of typed) }
    requires list { map (condition_of conds.now.terms) conds.now.list.items ≡ owed_conditions (core_of typed) (flow_of typed) }
    requires proved { AreProved (map (condition_of conds.now.terms) conds.now.list.items) (map steps_of certs.now) }
    ensures value { result ≡ typed }
{
    Accepted { typed }
}

impl Accepted {
    /// The program. It takes no memory.
    pub fn typed(&self) -> &Typed
        ensures value { result.now ≡ self.now }
        ensures accepted { IsAccepted self.now }
    {
        &self.typed
    }
}
