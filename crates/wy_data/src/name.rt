//! Names, compared by their bytes.
ghost use Rattle.std.specs.Prelude.{◌≡◌, Some, refl, bytes_eq, string_bytes, IfOk, IsTrue, ◌↔◌, length};
ghost use Rattle.std.proofs.Common.{rules};
ghost use Rattle.std.specs.Ordering.{is_lt, nat_cmp};
ghost use Rattle.std.specs.Str.{IsUtf8};
ghost use Rattle.std.specs.Hash as fed;
ghost use Rattle.std.specs.Cmp.{on_equiv, on_total, on_po, on_per, partial_equiv_from_equiv};
ghost use Rattle.std.specs.Cmp.Lexicographic.{slice_cmp, nat_list_eq_equiv, nat_list_cmp_total, texts_ties, texts_po};
ghost use Rattle.std.specs.Cmp.Rules.{hashing};

use std::alloc::{AllocError, Global};
use std::cmp::Ordering;
use std::convert::AsStr;
use std::hash::{Hash, Hasher};
use std::marker::Model;

/// A name: a `String` that clauses see as the list of its bytes.
#[derive(Debug, Drop)]
pub struct Name {
    text: String,
}

impl Model for Name {
    ghost use Rattle.std.specs.Prelude.{List, ℕ, string_bytes};

    ghost Value = { List ℕ };

    ghost view = { λ n. string_bytes n.text };
}

impl Name {
    /// The name that the text spells. It takes no memory.
    pub fn new(text: String) -> Name
        ensures value { result ≡ string_bytes text }
    {
        Name { text }
    }

    pub fn as_str(&self) -> &str
        ensures value { result.now ≡ self.now }
        ensures utf8 { IsUtf8 self.now }
    {
        self.text.as_str()
    }

    pub fn as_bytes(&self) -> &[u8]
        ensures value { result.now ≡ self.now }
    {
        self.text.as_bytes()
    }

    /// How many bytes the name has.
    pub fn len(&self) -> usize
        ensures value { result ≡ length self.now }
    {
        self.text.as_bytes().len()
    }

    /// The same name once more, in time linear in its length.
    pub fn copy(&self, alloc: Global) -> Result<Name, AllocError>
        ensures value { IfOk result (λ copy. copy ≡ self.now) }
    {
        Ok(Name {
            text: String::from_str(alloc, self.text.as_str())?,
        })
    }

    /// Whether both have the same bytes.
    pub fn is(&self, other: &Name) -> bool
        ensures value { result ≡ bytes_eq self.now other.now }
        ensures complete { IsTrue result ↔ (self.now ≡ other.now) }
    {
        same_bytes(self.as_bytes(), other.as_bytes())
    }

    /// Whether this name stands before the other in the order of bytes.
    pub fn precedes(&self, other: &Name) -> bool
        ensures value { result ≡ is_lt (slice_cmp nat_cmp self.now other.now) }
    {
        matches!(self.cmp(other), Ordering::Less)
    }
}

/// Whether both lists have the same bytes.
pub fn same_bytes(a: &[u8], b: &[u8]) -> bool
    ensures value { result ≡ bytes_eq a.now b.now }
    ensures complete { IsTrue result ↔ (a.now ≡ b.now) }
{
    a == b
}

impl AsStr for Name {
    ghost text = { λ n. n };

    fn as_str(&self) -> &str {
        Name::as_str(self)
    }
}

impl PartialEq for Name {
    ghost eq = { λ a b. bytes_eq a b };

    ghost laws = { on_per (λ n. n) (partial_equiv_from_equiv nat_list_eq_equiv) };

    fn eq(&self, other: &Name) -> bool {
        self.as_bytes() == other.as_bytes()
    }
}

impl Eq for Name {
    ghost laws = { on_equiv (λ n. n) nat_list_eq_equiv };
}

impl PartialOrd for Name {
    ghost partial_cmp = { λ a b. Some (slice_cmp nat_cmp a b) };

    ghost laws = { on_po (λ n. n) texts_po };

    fn partial_cmp(&self, other: &Name) -> Option<Ordering> {
        Some(self.cmp(other))
    }
}

impl Ord for Name {
    ghost cmp = { λ a b. slice_cmp nat_cmp a b };

    ghost total = { on_total (λ n. n) nat_list_cmp_total };

    ghost matches_partial_cmp = { λ a b. refl };

    ghost matches_eq = { λ a b. texts_ties a b };

    fn cmp(&self, other: &Name) -> Ordering {
        self.as_bytes().cmp(other.as_bytes())
    }
}

impl Hash for Name {
    ghost hash_input = { λ n. fed.str n };

    ghost respects_eq = { Prim.search (hashing, rules) };

    fn hash<H: Hasher>(&self, state: &mut H) {
        self.as_str().hash(state);
    }
}
