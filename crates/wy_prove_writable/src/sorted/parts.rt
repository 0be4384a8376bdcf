//! Whether parts are sorted throughout and of given sorts.
ghost use Rattle.std.specs.Prelude.{◌≡◌, ◌<◌, ◌↔◌, false, length, map, slice_index_or, All, IsTrue};
ghost use Rattle.wy_term_subst.specs.kept_sorts.SortKept.{HasSort};
ghost use Rattle.wy_term_subst.specs.sorted.Sorted.{AreSorted, each, these};
ghost use Rattle.wy_term.specs.Nodes.{parts_at, tree_at};
ghost use Rattle.wy_prove_writable.specs.sorted.Sorts.{seen_sort, MarkSorted};

use crate::sorted::sorts::{Sort, is_of_sort};
use wy_data::Name;
use wy_term::Terms;

/// Whether a term is marked.
pub fn is_marked(marks: &[bool], term: u32) -> bool
    requires { term < length marks.now }
    ensures value { result ≡ slice_index_or marks.now term false }
{
    marks[term as usize]
}

/// Whether a term is sorted throughout and of a sort, in constant time.
pub fn has_sort(terms: &Terms, marks: &[bool], term: u32, sort: Sort) -> bool
    requires term { term < length marks.now }
    requires marks { MarkSorted terms.now marks.now }
    ensures exactly { IsTrue result ↔ HasSort (tree_at terms.now term) (seen_sort sort) }
{
    is_marked(marks, term) && is_of_sort(terms, term, sort)
}

/// Whether these parts are of the sorts beside them.
pub fn have_sorts(terms: &Terms, marks: &[bool], parts: &[(u32, Sort)]) -> bool
    requires parts { All (λ p. p.0 < length marks.now) parts.now }
    requires marks { MarkSorted terms.now marks.now }
    ensures exactly { IsTrue result ↔ AreSorted (parts_at (tree_at terms.now) (map (λ p. p.0) parts.now)) (these (map (λ p. seen_sort p.1) parts.now)) }
{
    for part in parts {
        if !has_sort(terms, marks, part.0, part.1) {
            return false;
        }
    }
    true
}

/// Whether each of these parts is of one sort.
pub fn have_sort(terms: &Terms, marks: &[bool], parts: &[u32], sort: Sort) -> bool
    requires parts { All (λ k. k < length marks.now) parts.now }
    requires marks { MarkSorted terms.now marks.now }
    ensures exactly { IsTrue result ↔ AreSorted (parts_at (tree_at terms.now) parts.now) (each (seen_sort sort)) }
{
    for part in parts {
        if !has_sort(terms, marks, *part, sort) {
            return false;
        }
    }
    true
}

// Whether each field's term is of the sort of data.
fn are_data(terms: &Terms, marks: &[bool], fields: &[(Name, u32)]) -> bool
    requires parts { All (λ p. p.1 < length marks.now) fields.now }
    requires marks { MarkSorted terms.now marks.now }
    ensures exactly { IsTrue result ↔ AreSorted (parts_at (tree_at terms.now) (map (λ p. p.1) fields.now)) (each (seen_sort Sort.Val)) }
{
    for field in fields {
        if !has_sort(terms, marks, field.1, Sort::Val) {
            return false;
        }
    }
    true
}

/// Whether the fields of a record are data.
pub fn is_record(terms: &Terms, marks: &[bool], fields: &Vec<(Name, u32)>) -> bool
    requires parts { All (λ k. k < length marks.now) (map (λ p. p.1) fields.now.items) }
    requires marks { MarkSorted terms.now marks.now }
    ensures exactly { IsTrue result ↔ AreSorted (parts_at (tree_at terms.now) (map (λ p. p.1) fields.now.items)) (each (seen_sort Sort.Val)) }
{
    are_data(terms, marks, fields)
}
