//! Whether conjuncts of numbers are the same. Equal terms have one number.
ghost use Rattle.std.specs.Prelude.{◌≡◌};
ghost use Rattle.wy_types.specs.Shape.{signed_as};
ghost use Rattle.wy_types.specs.Conjuncts.{same_term};
ghost use Rattle.wy_types.specs.Same as same;

use crate::conjuncts::{Atom, Conjunct, Part, Signed};
use wy_core::Name;

fn agree(a: bool, b: bool) -> bool
    ensures value { result ≡ signed_as a b }
{
    if b { a } else { !a }
}

/// Whether both are the same term, reading and sign.
pub fn same_signed(a: &Signed<u32>, b: &Signed<u32>) -> bool
    ensures value { result ≡ same.same_signed same_term a.now b.now }
{
    a.term == b.term && agree(a.up, b.up) && agree(a.inside, b.inside)
}

/// Whether both lists have the same terms in the same order.
pub fn same_terms(a: &[Signed<u32>], b: &[Signed<u32>]) -> bool
    ensures value { result ≡ same.same_terms same_term a.now b.now }
{
    let mut rest = b;
    for x in a {
        match rest {
            [] => return false,
            [y, others @ ..] => {
                if !same_signed(x, y) {
                    return false;
                }
                rest = others;
            }
        }
    }
    rest.is_empty()
}

fn same_fields(a: &[(Name, Part<u32>)], b: &[(Name, Part<u32>)]) -> bool
    ensures value { result ≡ same.same_fields same_term a.now b.now }
{
    let mut rest = b;
    for x in a {
        match rest {
            [] => return false,
            [y, others @ ..] => {
                if !x.0.is(&y.0) || !same_terms(x.1.terms.as_slice(), y.1.terms.as_slice()) {
                    return false;
                }
                rest = others;
            }
        }
    }
    rest.is_empty()
}

/// Whether both are the same atom.
pub fn same_atom(a: &Atom<u32>, b: &Atom<u32>) -> bool
    ensures value { result ≡ same.same_atom same_term a.now b.now }
{
    match (a, b) {
        (Atom::Null, Atom::Null) => true,
        (Atom::Bool, Atom::Bool) => true,
        (Atom::Int, Atom::Int) => true,
        (Atom::Array(p), Atom::Array(q)) => same_terms(p.terms.as_slice(), q.terms.as_slice()),
        (Atom::Record(xs), Atom::Record(ys)) => same_fields(xs.as_slice(), ys.as_slice()),
        (Atom::AnyRecord, Atom::AnyRecord) => true,
        _ => false,
    }
}

fn same_atoms(a: &[Atom<u32>], b: &[Atom<u32>]) -> bool
    ensures value { result ≡ same.same_atoms same_term a.now b.now }
{
    let mut rest = b;
    for x in a {
        match rest {
            [] => return false,
            [y, others @ ..] => {
                if !same_atom(x, y) {
                    return false;
                }
                rest = others;
            }
        }
    }
    rest.is_empty()
}

/// Whether both are the same conjunct.
pub fn same_conjunct(a: &Conjunct<u32>, b: &Conjunct<u32>) -> bool
    ensures value { result ≡ same.same_conjunct same_term a.now b.now }
{
    same_atom(&a.positive, &b.positive)
        && same_atoms(a.negatives.as_slice(), b.negatives.as_slice())
}

/// Whether both lists have the same conjuncts in the same order.
pub fn same_conjuncts(a: &[Conjunct<u32>], b: &[Conjunct<u32>]) -> bool
    ensures value { result ≡ same.same_conjuncts same_term a.now b.now }
{
    let mut rest = b;
    for x in a {
        match rest {
            [] => return false,
            [y, others @ ..] => {
                if !same_conjunct(x, y) {
                    return false;
                }
                rest = others;
            }
        }
    }
    rest.is_empty()
}

/// Whether the term is one of the list, in time linear in the list.
pub fn has_signed(all: &[Signed<u32>], signed: &Signed<u32>) -> bool
    ensures value { result ≡ same.has_signed same_term all.now signed.now }
{
    for x in all {
        if same_signed(x, signed) {
            return true;
        }
    }
    false
}

/// Whether the atom is one of the list, in time linear in the list.
pub fn has_atom(all: &[Atom<u32>], atom: &Atom<u32>) -> bool
    ensures value { result ≡ same.has_atom same_term all.now atom.now }
{
    for x in all {
        if same_atom(x, atom) {
            return true;
        }
    }
    false
}

/// Whether the conjunct is one of the list, in time linear in the list.
pub fn has_conjunct(all: &[Conjunct<u32>], conjunct: &Conjunct<u32>) -> bool
    ensures value { result ≡ same.has_conjunct same_term all.now conjunct.now }
{
    for x in all {
        if same_conjunct(x, conjunct) {
            return true;
        }
    }
    false
}
