//! The connectives of three values.
ghost use Rattle.std.specs.Prelude.{◌≡◌};
ghost use Rattle.wy_check_spec.specs.judge.Judgement.{turned, both, either};
ghost use Rattle.wy_check_nodes.specs.Judged.{fails};

use wy_check_spec::judge::Verdict;

/// The verdict on the denial of a formula with this one, in constant time.
pub fn turn(v: Verdict) -> Verdict
    ensures { result ≡ turned v }
{
    match v {
        Verdict::Yes => Verdict::No,
        Verdict::No => Verdict::Yes,
        Verdict::Open => Verdict::Open,
    }
}

/// The verdict on an `and` of two formulas with these, in constant time.
pub fn meet(v: Verdict, w: Verdict) -> Verdict
    ensures { result ≡ both v w }
{
    match (v, w) {
        (Verdict::No, _) | (Verdict::Open, Verdict::No) => Verdict::No,
        (Verdict::Yes, other) => other,
        (Verdict::Open, _) => Verdict::Open,
    }
}

/// The verdict on an `or` of two formulas with these, in constant time.
pub fn join(v: Verdict, w: Verdict) -> Verdict
    ensures { result ≡ either v w }
{
    match (v, w) {
        (Verdict::Yes, _) | (Verdict::Open, Verdict::Yes) => Verdict::Yes,
        (Verdict::No, other) => other,
        (Verdict::Open, _) => Verdict::Open,
    }
}

/// Whether a formula with this verdict fails, or its denial does where that is meant, in constant time.
pub fn fails(verdict: Verdict, holds: bool) -> bool
    ensures { result ≡ fails verdict holds }
{
    match verdict {
        Verdict::Yes => !holds,
        Verdict::No => holds,
        Verdict::Open => false,
    }
}
