//! Equal and opposite coefficients.
ghost use Rattle.std.specs.Prelude.{◌≡◌};
ghost use Rattle.wy_lin_eliminate.specs.Variables as variables;

use crate::places::coefficient;

fn agrees(ps: &[(i128, u32)], qs: &[(i128, u32)]) -> bool
    ensures value { result ≡ variables.agrees ps.now qs.now }
{
    for p in ps {
        if p.0 != coefficient(qs, p.1) {
            return false;
        }
    }
    true
}

/// Whether each variable has the same coefficient in both.
pub fn agree(ps: &[(i128, u32)], qs: &[(i128, u32)]) -> bool
    ensures value { result ≡ variables.agree ps.now qs.now }
{
    agrees(ps, qs) && agrees(qs, ps)
}

// Whether two numbers give 0.
fn give_zero(a: i128, b: i128) -> bool
    ensures value { result ≡ variables.gives_zero a b }
{
    a.checked_add(b) == Some(0)
}

fn opposes(ps: &[(i128, u32)], qs: &[(i128, u32)]) -> bool
    ensures value { result ≡ variables.opposes ps.now qs.now }
{
    for p in ps {
        if !give_zero(p.0, coefficient(qs, p.1)) {
            return false;
        }
    }
    true
}

/// Whether each variable's coefficients in both give 0.
pub fn opposite(ps: &[(i128, u32)], qs: &[(i128, u32)]) -> bool
    ensures value { result ≡ variables.opposite ps.now qs.now }
{
    opposes(ps, qs) && opposes(qs, ps)
}
