//! Numbers by which parts and conjuncts are found: equal ones have one number. Others seldom share it,
//! and what shares it is compared.
ghost use Rattle.std.specs.Prelude.{◌≡◌};
ghost use Rattle.wy_canon.specs.Digests as digests;

use wy_data::Name;
use wy_types::{Atom, Conjunct, Part, Signed};

// The digest with one number more.
#[tactic(auto, unfolding(crate::specs::Digests::mixed))]
fn mixed(digest: u64, number: u64) -> u64
    ensures value { result ≡ digests.mixed digest number }
{
    digest.wrapping_mul(1099511628211).wrapping_add(number)
}

fn with_flag(digest: u64, flag: bool) -> u64
    ensures value { result ≡ digests.with_flag digest flag }
{
    if flag {
        mixed(digest, 1)
    } else {
        mixed(digest, 0)
    }
}

fn with_signed(digest: u64, signed: &Signed<u32>) -> u64
    ensures value { result ≡ digests.with_signed digest signed.now }
{
    let digest = mixed(digest, u64::from(signed.term));
    let digest = with_flag(digest, signed.up);
    with_flag(digest, signed.inside)
}

fn with_terms(digest: u64, terms: &[Signed<u32>]) -> u64
    ensures value { result ≡ digests.with_terms digest terms.now }
{
    let mut made = digest;
    for signed in terms {
        made = with_signed(made, signed);
    }
    made
}

fn with_bytes(digest: u64, bytes: &[u8]) -> u64
    ensures value { result ≡ digests.with_bytes digest bytes.now }
{
    let mut made = digest;
    for byte in bytes {
        made = mixed(made, u64::from(*byte));
    }
    made
}

fn with_fields(digest: u64, fields: &[(Name, Part<u32>)]) -> u64
    ensures value { result ≡ digests.with_fields digest fields.now }
{
    let mut made = digest;
    for field in fields {
        made = with_bytes(made, field.0.as_bytes());
        made = with_terms(made, field.1.terms.as_slice());
    }
    made
}

fn with_atom(digest: u64, atom: &Atom<u32>) -> u64
    ensures value { result ≡ digests.with_atom digest atom.now }
{
    match atom {
        Atom::Null => mixed(digest, 1),
        Atom::Bool => mixed(digest, 2),
        Atom::Int => mixed(digest, 3),
        Atom::Array(part) => with_terms(mixed(digest, 4), part.terms.as_slice()),
        Atom::Record(fields) => with_fields(mixed(digest, 5), fields.as_slice()),
        Atom::AnyRecord => mixed(digest, 6),
    }
}

fn with_atoms(digest: u64, atoms: &[Atom<u32>]) -> u64
    ensures value { result ≡ digests.with_atoms digest atoms.now }
{
    let mut made = digest;
    for atom in atoms {
        made = with_atom(made, atom);
    }
    made
}

/// The digest of a part, in time linear in its terms.
pub fn part_digest(part: &[Signed<u32>]) -> u64
    ensures value { result ≡ digests.part_digest part.now }
{
    with_terms(1, part)
}

/// The digest of a conjunct, in time linear in its size.
pub fn conjunct_digest(conjunct: &Conjunct<u32>) -> u64
    ensures value { result ≡ digests.conjunct_digest conjunct.now }
{
    let digest = with_atom(1, &conjunct.positive);
    with_atoms(digest, conjunct.negatives.as_slice())
}
