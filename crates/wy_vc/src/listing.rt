//! The conditions of a program, within the limits.
ghost use Rattle.std.specs.Prelude.{◌≡◌, [], suc, take, All, IfErr, IfOk};
ghost use Rattle.wy_vc_spec.specs.Limits as limits;
ghost use Rattle.wy_vc_spec.specs.Numbered.{numbered_core};
ghost use Rattle.wy_vc_spec.specs.Programs as programs;
ghost use Rattle.wy_core.specs.CoreSeen.{seen_core};
ghost use Rattle.wy_vc.specs.Listed as spec;
ghost use Rattle.wy_vc_body.specs.Frames.{program_of};
ghost use Rattle.wy_vc.specs.Counted.{seen_passing};
ghost use Rattle.wy_vc.specs.Told.{IsCond};
ghost use Rattle.wy_vc_tables.specs.program_names.Described.{IsDescribed};
ghost use Rattle.wy_vc_body.specs.wy_vc_exprs.State.{IsSound, owed_of};

use crate::declarations::owe_declarations;
use crate::fault::VcFault;
use crate::limits::{Passing, first_limit};
use crate::program::typed_program;
use crate::telling::told_all;
use crate::unfolding::meanings;
use std::alloc::Global;
use wy_core::Core;
use wy_flow_spec::typing::Typed;
use wy_term::{Conds, NoMemory};
use wy_vc_body::{Maker, Walk};
use wy_vc_tables::program_names::Program;

/// The most conditions of a program.
const MOST_CONDITIONS: usize = 16384;

// Nothing is assumed, and nothing owed.
fn nothing(alloc: Global) -> Walk
    ensures sound { IsSound result }
    ensures owed { owed_of result ≡ [] }
{
    Walk {
        maker: Maker::new(alloc),
        hyps: Vec::new(alloc),
        owed: Vec::new(alloc),
    }
}

// No more than one goal beyond the limit is kept, which tells as much as all of them.
fn cut(walk: &mut Walk)
    ensures maker { walk.new.maker ≡ walk.old.maker }
    ensures hyps { walk.new.hyps ≡ walk.old.hyps }
    ensures owed { walk.new.owed.items ≡ take (suc limits.most_conditions) walk.old.owed.items }
{
    walk.owed.truncate(MOST_CONDITIONS + 1);
}

// What the program owes: all, or more than there may be.
fn owed(alloc: Global, core: &Core, program: &Program) -> Result<Walk, NoMemory>
    requires described { IsDescribed core.now program.now }
    ensures sound { IfOk result IsSound }
    ensures first { IfOk result (λ w. spec.AreFirst (owed_of w) (programs.decls_conditions (program_of core.now program.now) (numbered_core (seen_core core.now)))) }
{
    let mut walk = nothing(alloc);
    owe_declarations(alloc, core, program, &mut walk, MOST_CONDITIONS)?;
    cut(&mut walk);
    Ok(walk)
}

// The conditions of the program, or so many that there are too many, and which limit they pass first.
fn first_conditions(alloc: Global, typed: &Typed) -> Result<(Conds, Passing), NoMemory>
    ensures list { IfOk result (λ r. seen_passing r.1 ≡ limits.Within → spec.seen_conds r.0 ≡ spec.told_of typed.now) }
    ensures limit { IfOk result (λ r. seen_passing r.1 ≡ spec.limit_of typed.now) }
    ensures once { IfOk result (λ r. All (spec.HasTypesOnce r.0.terms) r.0.list.items) }
    ensures numbers { IfOk result (λ r. All (IsCond r.0.terms) r.0.list.items) }
{
    let core = typed.core();
    let program = typed_program(alloc, core, typed)?;
    let mut walk = owed(alloc, core, &program)?;
    let meanings = meanings(alloc, core, &program, &mut walk.maker)?;
    let Walk { maker, owed, .. } = walk;
    let terms = maker.terms;
    let list = told_all(alloc, &terms, meanings.as_slice(), owed)?;
    let limit = first_limit(&terms, list.as_slice())?;
    Ok((Conds { terms, list }, limit))
}

/// The conditions of a well-typed program: what each declaration owes, in order of the source, each with its kind, its place, what may be
/// assumed, the goal, and the named types that these mention with what their tests stand for. The program is refused where there are too
/// many, or where one has too many terms, the first in the order of the list.
///
/// Terms are shared, and hypotheses stay on a stack on the way through a body, so a condition's hypotheses are those of the one before up
/// to where the stack was cut, and then what was assumed since; its list is a copy of what stands there. Which types they test is kept on a
/// stack likewise, and a table, made once, tells which terms test none and need no walk. What conditions are made of is gathered, each term
/// once, so counting looks at what the conditions before haven't. So it takes time linear in the program as its properties and clauses are
/// written out, in these lists of numbers, in the different terms of all, and for each condition in the types that it mentions, and in the
/// terms of its goal and of the hypotheses that the one before hasn't, of those that test a type; where more is gathered than a condition may
/// have, the next begins with what it alone is made of. Behind a declaration with which there are too many no other is walked.
pub fn conditions(alloc: Global, typed: &Typed) -> Result<Conds, VcFault>
    ensures list { IfOk result (λ cs. spec.seen_conds cs ≡ spec.told_of typed.now) }
    ensures within { IfOk result (λ cs. spec.limit_of typed.now ≡ limits.Within) }
    ensures fault { IfErr result (λ e. spec.IsDue e (spec.limit_of typed.now)) }
    ensures once { IfOk result (λ cs. All (spec.HasTypesOnce cs.terms) cs.list.items) }
    ensures numbers { IfOk result (λ cs. All (IsCond cs.terms) cs.list.items) }
{
    match first_conditions(alloc, typed) {
        Err(NoMemory) => Err(VcFault::NoMemory),
        Ok((conds, limit)) => match limit {
            Passing::Within => Ok(conds),
            Passing::TooMany => Err(VcFault::TooManyConds),
            Passing::TooLarge(number) => Err(VcFault::TooManyTerms(number)),
        },
    }
}
