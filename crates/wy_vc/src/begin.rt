//! Where a type, a contract or a body begins.
ghost use Rattle.std.specs.Prelude.{◌≡◌, []};

use wy_vc_body::Walk;

/// Nothing is assumed, no name is made, and this is the number of the next expression. The terms and what is owed stay.
pub fn begin(walk: &mut Walk, first: usize)
    ensures terms { walk.new.maker.terms ≡ walk.old.maker.terms }
    ensures owed { walk.new.owed ≡ walk.old.owed }
    ensures hyps { walk.new.hyps.items ≡ [] }
    ensures count { walk.new.maker.count ≡ 0 }
    ensures node { walk.new.maker.node ≡ first }
{
    walk.back_to(0);
    walk.maker.count = 0;
    walk.maker.node = first;
}
