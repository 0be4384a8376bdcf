//! Whether terms are such as a schema takes, and which parts they have.
ghost use Rattle.std.specs.Prelude.{◌≡◌, ◌<◌, length, option_map, Some, IfOk, IfSome};
ghost use Rattle.wy_term_subst.specs.wy_term.Nodes.{parts_at, tree_at};
ghost use Rattle.wy_term_subst.specs.wy_term.Rewriting.{as_number};
ghost use Rattle.wy_facts.specs.Schema.{is_val, length_is_natural, length_of_copies, length_of_updated, element_of_array, element_of_copies, element_updated, element_elsewhere, elements_at_one_index, field_updated, equal_numbers, datum_by_kind, as_updated, as_element, as_copies, element_numbered, numbered_in, set_to};
ghost use Rattle.wy_facts.specs.Seen.{seen_instance, terms_at, AreBelow};

use crate::schema::{Instance, Schema};
use wy_term_subst::{NoMemory, Node, Terms};

/// A schema, stated of these parts.
pub fn of_parts(terms: &Terms, schema: Schema, parts: &[u32]) -> Result<Option<Instance>, NoMemory>
    requires { AreBelow (length terms.now) parts.now }
    ensures value { IfOk result (λ o. option_map (seen_instance terms.now) o ≡ Some (record { schema = schema; parts = terms_at terms.now parts.now })) }
    ensures within { IfOk result (λ o. IfSome o (λ i. AreBelow (length terms.now) i.parts.items)) }
{
    Ok(Some(Instance {
        schema,
        parts: Vec::from_slice(terms.allocator(), parts)?,
    }))
}

// Whether a term is a Val term.
fn is_val(terms: &Terms, t: u32) -> bool
    requires { t < length terms.now }
    ensures value { result ≡ is_val (tree_at terms.now t) }
{
    match terms.node(t) {
        Node::ValName(_, _) | Node::Null | Node::Bool(_) | Node::Int(_) | Node::Truth(_) => true,
        Node::Array(_) | Node::Repeat(_, _) | Node::Update(_, _, _) | Node::Get(_, _) => true,
        Node::Record(_) | Node::Field(_, _) | Node::SetField(_, _, _) => true,
        _ => false,
    }
}

/// The array, the index and the other element of an array with another element.
pub fn updated_at(terms: &Terms, t: u32) -> Option<(u32, u32, u32)>
    requires { t < length terms.now }
    ensures value { option_map (λ u. (tree_at terms.now u.0, tree_at terms.now u.1, tree_at terms.now u.2)) result ≡ as_updated (tree_at terms.now t) }
    ensures within { IfSome result (λ u. (u.0 < length terms.now) × (u.1 < length terms.now) × (u.2 < length terms.now)) }
{
    match terms.node(t) {
        Node::Update(a, i, w) => Some((*a, *i, *w)),
        _ => None,
    }
}

// The array and the index of an element.
fn element_at(terms: &Terms, t: u32) -> Option<(u32, u32)>
    requires { t < length terms.now }
    ensures value { option_map (λ g. (tree_at terms.now g.0, tree_at terms.now g.1)) result ≡ as_element (tree_at terms.now t) }
    ensures within { IfSome result (λ g. (g.0 < length terms.now) × (g.1 < length terms.now)) }
{
    match terms.node(t) {
        Node::Get(a, i) => Some((*a, *i)),
        _ => None,
    }
}

// What is copied, and how often.
fn copies_at(terms: &Terms, t: u32) -> Option<(u32, u32)>
    requires { t < length terms.now }
    ensures value { option_map (λ c. (tree_at terms.now c.0, tree_at terms.now c.1)) result ≡ as_copies (tree_at terms.now t) }
    ensures within { IfSome result (λ c. (c.0 < length terms.now) × (c.1 < length terms.now)) }
{
    match terms.node(t) {
        Node::Repeat(v, n) => Some((*v, *n)),
        _ => None,
    }
}

/// The length of `v` is at least 0.
pub fn length_is_natural(terms: &Terms, v: u32) -> Result<Option<Instance>, NoMemory>
    requires { v < length terms.now }
    ensures value { IfOk result (λ o. option_map (seen_instance terms.now) o ≡ length_is_natural (tree_at terms.now v)) }
    ensures within { IfOk result (λ o. IfSome o (λ i. AreBelow (length terms.now) i.parts.items)) }
{
    if is_val(terms, v) {
        of_parts(terms, Schema::LengthIsNatural, &[v])
    } else {
        Ok(None)
    }
}

/// The length of copies.
pub fn length_of_copies(terms: &Terms, t: u32) -> Result<Option<Instance>, NoMemory>
    requires { t < length terms.now }
    ensures value { IfOk result (λ o. option_map (seen_instance terms.now) o ≡ length_of_copies (tree_at terms.now t)) }
    ensures within { IfOk result (λ o. IfSome o (λ i. AreBelow (length terms.now) i.parts.items)) }
{
    match copies_at(terms, t) {
        Some((_, n)) => of_parts(terms, Schema::LengthOfCopies, &[t, n]),
        None => Ok(None),
    }
}

/// The length of an array with another element.
pub fn length_of_updated(terms: &Terms, t: u32) -> Result<Option<Instance>, NoMemory>
    requires { t < length terms.now }
    ensures value { IfOk result (λ o. option_map (seen_instance terms.now) o ≡ length_of_updated (tree_at terms.now t)) }
    ensures within { IfOk result (λ o. IfSome o (λ i. AreBelow (length terms.now) i.parts.items)) }
{
    match updated_at(terms, t) {
        Some((a, _, _)) => of_parts(terms, Schema::LengthOfUpdated, &[t, a]),
        None => Ok(None),
    }
}

// The element with this number of an array that is written out.
#[tactic(auto, using(crate::proofs::StepLemmas::numbered_low))]
fn part_numbered(_terms: &Terms, elements: &[u32], place: i128) -> Option<u32>
    requires { AreBelow (length _terms.now) elements.now }
    ensures value { option_map (tree_at _terms.now) result ≡ element_numbered (parts_at (tree_at _terms.now) elements.now) place }
    ensures within { IfSome result (λ v. v < length _terms.now) }
{
    if place < 0 {
        return None;
    }
    if elements.len() as i128 <= place {
        return None;
    }
    Some(elements[place as usize])
}

// The element with this number of a term that is an array that is written out.
fn element_numbered(terms: &Terms, a: u32, z: i128) -> Option<u32>
    requires { a < length terms.now }
    ensures value { option_map (tree_at terms.now) result ≡ numbered_in (tree_at terms.now a) z }
    ensures within { IfSome result (λ v. v < length terms.now) }
{
    match terms.node(a) {
        Node::Array(elements) => part_numbered(terms, elements, z),
        _ => None,
    }
}

// The number that a term is, if it is one.
fn number_at(terms: &Terms, t: u32) -> Option<i128>
    requires { t < length terms.now }
    ensures { result ≡ as_number (tree_at terms.now t) }
{
    match terms.node(t) {
        Node::Number(number) => Some(*number),
        _ => None,
    }
}

/// An element of a written out array, and the number of one of its elements.
pub fn element_of_array(terms: &Terms, t: u32, k: u32) -> Result<Option<Instance>, NoMemory>
    requires first { t < length terms.now }
    requires second { k < length terms.now }
    ensures value { IfOk result (λ o. option_map (seen_instance terms.now) o ≡ element_of_array (tree_at terms.now t) (tree_at terms.now k)) }
    ensures within { IfOk result (λ o. IfSome o (λ i. AreBelow (length terms.now) i.parts.items)) }
{
    let (Some((a, i)), Some(z)) = (element_at(terms, t), number_at(terms, k)) else {
        return Ok(None);
    };
    match element_numbered(terms, a, z) {
        Some(v) => of_parts(terms, Schema::ElementOfArray, &[t, i, k, v]),
        None => Ok(None),
    }
}

/// An element of an array of copies.
pub fn element_of_copies(terms: &Terms, t: u32) -> Result<Option<Instance>, NoMemory>
    requires { t < length terms.now }
    ensures value { IfOk result (λ o. option_map (seen_instance terms.now) o ≡ element_of_copies (tree_at terms.now t)) }
    ensures within { IfOk result (λ o. IfSome o (λ i. AreBelow (length terms.now) i.parts.items)) }
{
    let Some((a, i)) = element_at(terms, t) else {
        return Ok(None);
    };
    match copies_at(terms, a) {
        Some((v, n)) => of_parts(terms, Schema::ElementOfCopies, &[t, i, n, v]),
        None => Ok(None),
    }
}

/// An element of an array with another element: the other element.
pub fn element_updated(terms: &Terms, t: u32) -> Result<Option<Instance>, NoMemory>
    requires { t < length terms.now }
    ensures value { IfOk result (λ o. option_map (seen_instance terms.now) o ≡ element_updated (tree_at terms.now t)) }
    ensures within { IfOk result (λ o. IfSome o (λ i. AreBelow (length terms.now) i.parts.items)) }
{
    let Some((b, j)) = element_at(terms, t) else {
        return Ok(None);
    };
    match updated_at(terms, b) {
        Some((a, i, w)) => of_parts(terms, Schema::ElementUpdated, &[t, a, i, w, j]),
        None => Ok(None),
    }
}

/// An element of an array with another element: one beside it.
pub fn element_elsewhere(terms: &Terms, t: u32) -> Result<Option<Instance>, NoMemory>
    requires { t < length terms.now }
    ensures value { IfOk result (λ o. option_map (seen_instance terms.now) o ≡ element_elsewhere (tree_at terms.now t)) }
    ensures within { IfOk result (λ o. IfSome o (λ i. AreBelow (length terms.now) i.parts.items)) }
{
    let Some((b, j)) = element_at(terms, t) else {
        return Ok(None);
    };
    match updated_at(terms, b) {
        Some((a, i, _)) => of_parts(terms, Schema::ElementElsewhere, &[t, a, i, j]),
        None => Ok(None),
    }
}

/// Two elements of one array.
pub fn elements_at_one_index(terms: &Terms, s: u32, t: u32) -> Result<Option<Instance>, NoMemory>
    requires first { s < length terms.now }
    requires second { t < length terms.now }
    ensures value { IfOk result (λ o. option_map (seen_instance terms.now) o ≡ elements_at_one_index (tree_at terms.now s) (tree_at terms.now t)) }
    ensures within { IfOk result (λ o. IfSome o (λ i. AreBelow (length terms.now) i.parts.items)) }
{
    let Some((a, i)) = element_at(terms, s) else {
        return Ok(None);
    };
    let Some((b, j)) = element_at(terms, t) else {
        return Ok(None);
    };
    if terms.same(a, b) {
        of_parts(terms, Schema::ElementsAtOneIndex, &[s, t, i, j])
    } else {
        Ok(None)
    }
}

// What a field was set to, where that field is the one that is read.
fn set_to(terms: &Terms, t: u32) -> Option<u32>
    requires { t < length terms.now }
    ensures value { option_map (tree_at terms.now) result ≡ set_to (tree_at terms.now t) }
    ensures within { IfSome result (λ w. w < length terms.now) }
{
    match terms.node(t) {
        Node::Field(r, name) => match terms.node(*r) {
            Node::SetField(_, set, w) => { if set.is(name) { Some(*w) } else { None } }
            _ => None,
        },
        _ => None,
    }
}

/// The field of a record that was set.
pub fn field_updated(terms: &Terms, t: u32) -> Result<Option<Instance>, NoMemory>
    requires { t < length terms.now }
    ensures value { IfOk result (λ o. option_map (seen_instance terms.now) o ≡ field_updated (tree_at terms.now t)) }
    ensures within { IfOk result (λ o. IfSome o (λ i. AreBelow (length terms.now) i.parts.items)) }
{
    match set_to(terms, t) {
        Some(w) => of_parts(terms, Schema::FieldUpdated, &[t, w]),
        None => Ok(None),
    }
}

/// Two data that are equal.
pub fn equal_numbers(terms: &Terms, t: u32) -> Result<Option<Instance>, NoMemory>
    requires { t < length terms.now }
    ensures value { IfOk result (λ o. option_map (seen_instance terms.now) o ≡ equal_numbers (tree_at terms.now t)) }
    ensures within { IfOk result (λ o. IfSome o (λ i. AreBelow (length terms.now) i.parts.items)) }
{
    match terms.node(t) {
        Node::Equal(v, w) => of_parts(terms, Schema::EqualNumbers, &[t, *v, *w]),
        _ => Ok(None),
    }
}

/// A datum, or the datum of a formula.
pub fn datum_by_kind(terms: &Terms, v: u32) -> Result<Option<Instance>, NoMemory>
    requires { v < length terms.now }
    ensures value { IfOk result (λ o. option_map (seen_instance terms.now) o ≡ datum_by_kind (tree_at terms.now v)) }
    ensures within { IfOk result (λ o. IfSome o (λ i. AreBelow (length terms.now) i.parts.items)) }
{
    match terms.node(v) {
        Node::Truth(f) => of_parts(terms, Schema::DatumOfFormula, &[v, *f]),
        _ => {
            if is_val(terms, v) {
                of_parts(terms, Schema::DatumByKind, &[v])
            } else {
                Ok(None)
            }
        }
    }
}
