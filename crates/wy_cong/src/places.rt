//! The class of a term.
ghost use Rattle.std.specs.Prelude.{◌≡◌, ◌<◌, length};
ghost use Rattle.wy_cong.specs.Seen.{terms_of, IsPresent};
ghost use Rattle.wy_cong.specs.Signatures.{class_at};
ghost use Rattle.wy_search_spec.specs.Classes as classes;
ghost use Rattle.wy_term.specs.Nodes.{tree_at};

use crate::labels::{label_at, same_label};
use crate::present::{Present, place};
use wy_term::Terms;

/// The label of a term's class, where the term is present.
pub fn label_of(terms: &Terms, present: &Present, labels: &[u32], t: u32) -> Option<u32>
    requires term { t < length terms.now }
    requires present { IsPresent terms.now present.now }
    ensures { result ≡ classes.label_of labels.now (classes.place_from (terms_of (tree_at terms.now) present.now) (tree_at terms.now t) 0) }
{
    match place(terms, present, t) {
        Some(k) => Some(label_at(labels, k)),
        None => None,
    }
}

/// A number for a term's class: two terms have one number where they are equal, or both are present and in one class, and
/// nowhere else.
pub fn class_number(terms: &Terms, present: &Present, labels: &[u32], t: u32) -> u64
    requires term { t < length terms.now }
    requires present { IsPresent terms.now present.now }
    ensures { result ≡ class_at (terms_of (tree_at terms.now) present.now) labels.now (tree_at terms.now) t }
{
    match label_of(terms, present, labels, t) {
        Some(l) => u64::from(l) * 2,
        None => u64::from(t) * 2 + 1,
    }
}

/// Whether two terms are equal, or both are present and in one class, in constant time on average.
pub fn in_one_class(terms: &Terms, present: &Present, labels: &[u32], s: u32, t: u32) -> bool
    requires first { s < length terms.now }
    requires second { t < length terms.now }
    requires present { IsPresent terms.now present.now }
    ensures { result ≡ classes.in_one_class (terms_of (tree_at terms.now) present.now) labels.now (tree_at terms.now s) (tree_at terms.now t) }
{
    if terms.same(s, t) {
        return true;
    }
    let a = label_of(terms, present, labels, s);
    let b = label_of(terms, present, labels, t);
    same_label(a, b)
}
