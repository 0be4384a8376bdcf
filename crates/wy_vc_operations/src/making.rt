//! A function for each form of term. The term is folded as it is made; older numbers name what they named.
ghost use Rattle.std.specs.Prelude.{◌≡◌, ◌<◌, ◌≤◌, true, false, ℕ, List, length as count_of, map, IfOk, OnOk};
ghost use Rattle.wy_vc_spec.specs.Making as made;
ghost use Rattle.wy_vc_spec.specs.Operations as op;
ghost use Rattle.wy_term.specs.Folding.{folded};
ghost use Rattle.wy_term.specs.Nodes.{HasPartsBelow, grown, plain, plain_kind, tree_at};
ghost use Rattle.wy_term.specs.Numbers.{IsAt};
ghost use Rattle.wy_term.specs.Term as term;
ghost use Rattle.wy_term.specs.Term.{Term};
ghost use Rattle.wy_vc_operations.specs.Growing.{AreAt, AreBelow, Makes};

use std::alloc::Global;
use wy_data::Name;
use wy_term::{Kind, NoMemory, Node, Quantifier, Terms};

// The number of the term with this node.
fn put(terms: &mut Terms, node: Node) -> Result<u32, NoMemory>
    requires { HasPartsBelow (count_of terms.old) (plain node) }
    ensures within { IfOk result (λ r. r < count_of terms.new) }
    ensures grows { OnOk result (count_of terms.old ≤ count_of terms.new) }
    ensures made { IfOk result (λ r. Makes terms.old terms.new r (folded (grown (tree_at terms.old) (plain node)))) }
{
    terms.intern(node)
}

/// `null`
pub fn null(terms: &mut Terms) -> Result<u32, NoMemory>
    ensures within { IfOk result (λ r. r < count_of terms.new) }
    ensures grows { OnOk result (count_of terms.old ≤ count_of terms.new) }
    ensures made { IfOk result (λ r. Makes terms.old terms.new r (made.null)) }
{
    put(terms, Node::Null)
}

/// `true` or `false`, a datum.
pub fn truth(terms: &mut Terms, truth: bool) -> Result<u32, NoMemory>
    ensures within { IfOk result (λ r. r < count_of terms.new) }
    ensures grows { OnOk result (count_of terms.old ≤ count_of terms.new) }
    ensures made { IfOk result (λ r. Makes terms.old terms.new r (made.truth truth)) }
{
    put(terms, Node::Bool(truth))
}

/// The Int term of a number.
pub fn number_of(terms: &mut Terms, number: i128) -> Result<u32, NoMemory>
    ensures within { IfOk result (λ r. r < count_of terms.new) }
    ensures grows { OnOk result (count_of terms.old ≤ count_of terms.new) }
    ensures made { IfOk result (λ r. Makes terms.old terms.new r (made.number_of number)) }
{
    put(terms, Node::Number(number))
}

/// The Val name of this word with a number.
pub fn val_name(alloc: Global, terms: &mut Terms, word: &Name, number: u64) -> Result<u32, NoMemory>
    ensures within { IfOk result (λ r. r < count_of terms.new) }
    ensures grows { OnOk result (count_of terms.old ≤ count_of terms.new) }
    ensures made { IfOk result (λ r. Makes terms.old terms.new r (made.val_name word.now number)) }
{
    let word = word.copy(alloc)?;
    put(terms, Node::ValName(word, u128::from(number)))
}

/// The Int name of this word with a number.
pub fn number_name(
    alloc: Global,
    terms: &mut Terms,
    word: &Name,
    number: u64,
) -> Result<u32, NoMemory>
    ensures within { IfOk result (λ r. r < count_of terms.new) }
    ensures grows { OnOk result (count_of terms.old ≤ count_of terms.new) }
    ensures made { IfOk result (λ r. Makes terms.old terms.new r (made.int_name word.now number)) }
{
    let word = word.copy(alloc)?;
    put(terms, Node::IntName(word, u128::from(number)))
}

/// The number in a datum.
pub fn num(terms: &mut Terms, value: u32) -> Result<u32, NoMemory>
    requires { value < count_of terms.old }
    ensures within { IfOk result (λ r. r < count_of terms.new) }
    ensures grows { OnOk result (count_of terms.old ≤ count_of terms.new) }
    ensures made { (v : Term) → IsAt terms.old value v → IfOk result (λ r. Makes terms.old terms.new r (made.num v)) }
{
    put(terms, Node::Num(value))
}

/// The length of an array.
pub fn len(terms: &mut Terms, value: u32) -> Result<u32, NoMemory>
    requires { value < count_of terms.old }
    ensures within { IfOk result (λ r. r < count_of terms.new) }
    ensures grows { OnOk result (count_of terms.old ≤ count_of terms.new) }
    ensures made { (v : Term) → IsAt terms.old value v → IfOk result (λ r. Makes terms.old terms.new r (made.len v)) }
{
    put(terms, Node::Len(value))
}

/// A number, a datum.
pub fn int(terms: &mut Terms, number: u32) -> Result<u32, NoMemory>
    requires { number < count_of terms.old }
    ensures within { IfOk result (λ r. r < count_of terms.new) }
    ensures grows { OnOk result (count_of terms.old ≤ count_of terms.new) }
    ensures made { (s : Term) → IsAt terms.old number s → IfOk result (λ r. Makes terms.old terms.new r (made.int s)) }
{
    put(terms, Node::Int(number))
}

/// The truth of a formula, a datum.
pub fn value_of(terms: &mut Terms, formula: u32) -> Result<u32, NoMemory>
    requires { formula < count_of terms.old }
    ensures within { IfOk result (λ r. r < count_of terms.new) }
    ensures grows { OnOk result (count_of terms.old ≤ count_of terms.new) }
    ensures made { (f : Term) → IsAt terms.old formula f → IfOk result (λ r. Makes terms.old terms.new r (made.value_of f)) }
{
    put(terms, Node::Truth(formula))
}

/// The element of an array at an Int term.
pub fn get(terms: &mut Terms, array: u32, index: u32) -> Result<u32, NoMemory>
    requires first { array < count_of terms.old }
    requires second { index < count_of terms.old }
    ensures within { IfOk result (λ r. r < count_of terms.new) }
    ensures grows { OnOk result (count_of terms.old ≤ count_of terms.new) }
    ensures made { (v s : Term) → IsAt terms.old array v → IsAt terms.old index s → IfOk result (λ r. Makes terms.old terms.new r (made.get v s)) }
{
    put(terms, Node::Get(array, index))
}

/// The field of a record.
pub fn field(alloc: Global, terms: &mut Terms, whole: u32, name: &Name) -> Result<u32, NoMemory>
    requires { whole < count_of terms.old }
    ensures within { IfOk result (λ r. r < count_of terms.new) }
    ensures grows { OnOk result (count_of terms.old ≤ count_of terms.new) }
    ensures made { (v : Term) → IsAt terms.old whole v → IfOk result (λ r. Makes terms.old terms.new r (made.field name.now v)) }
{
    let name = name.copy(alloc)?;
    put(terms, Node::Field(whole, name))
}

/// The denial of a formula.
pub fn denied(terms: &mut Terms, formula: u32) -> Result<u32, NoMemory>
    requires { formula < count_of terms.old }
    ensures within { IfOk result (λ r. r < count_of terms.new) }
    ensures grows { OnOk result (count_of terms.old ≤ count_of terms.new) }
    ensures made { (f : Term) → IsAt terms.old formula f → IfOk result (λ r. Makes terms.old terms.new r (made.denied f)) }
{
    put(terms, Node::Not(formula))
}

/// The one Int term is at most the other.
pub fn at_most(terms: &mut Terms, first: u32, second: u32) -> Result<u32, NoMemory>
    requires first { first < count_of terms.old }
    requires second { second < count_of terms.old }
    ensures within { IfOk result (λ r. r < count_of terms.new) }
    ensures grows { OnOk result (count_of terms.old ≤ count_of terms.new) }
    ensures made { (s t : Term) → IsAt terms.old first s → IsAt terms.old second t → IfOk result (λ r. Makes terms.old terms.new r (made.at_most s t)) }
{
    put(terms, Node::AtMost(first, second))
}

/// The two data are equal.
pub fn equal(terms: &mut Terms, first: u32, second: u32) -> Result<u32, NoMemory>
    requires first { first < count_of terms.old }
    requires second { second < count_of terms.old }
    ensures within { IfOk result (λ r. r < count_of terms.new) }
    ensures grows { OnOk result (count_of terms.old ≤ count_of terms.new) }
    ensures made { (v w : Term) → IsAt terms.old first v → IsAt terms.old second w → IfOk result (λ r. Makes terms.old terms.new r (made.equal v w)) }
{
    put(terms, Node::Equal(first, second))
}

/// A datum is of this kind.
pub fn kind(terms: &mut Terms, value: u32, kind: Kind) -> Result<u32, NoMemory>
    requires { value < count_of terms.old }
    ensures within { IfOk result (λ r. r < count_of terms.new) }
    ensures grows { OnOk result (count_of terms.old ≤ count_of terms.new) }
    ensures made { (v : Term) → IsAt terms.old value v → IfOk result (λ r. Makes terms.old terms.new r (made.of_kind (plain_kind kind) v)) }
{
    put(terms, Node::Kind(value, kind))
}

/// A datum is of the named type with this number.
pub fn in_type(terms: &mut Terms, value: u32, number: u32) -> Result<u32, NoMemory>
    requires { value < count_of terms.old }
    ensures within { IfOk result (λ r. r < count_of terms.new) }
    ensures grows { OnOk result (count_of terms.old ≤ count_of terms.new) }
    ensures made { (v : Term) → IsAt terms.old value v → IfOk result (λ r. Makes terms.old terms.new r (made.in_type number v)) }
{
    put(terms, Node::In(value, number))
}

/// All of these formulas. Linear in them.
pub fn conjunction(terms: &mut Terms, formulas: Vec<u32>) -> Result<u32, NoMemory>
    requires { AreBelow (count_of terms.old) formulas.items }
    ensures within { IfOk result (λ r. r < count_of terms.new) }
    ensures grows { OnOk result (count_of terms.old ≤ count_of terms.new) }
    ensures made { (fs : List Term) → AreAt terms.old formulas.items fs → IfOk result (λ r. Makes terms.old terms.new r (made.all_of fs)) }
{
    put(terms, Node::And(formulas))
}

/// One of these formulas. Linear in them.
pub fn disjunction(terms: &mut Terms, formulas: Vec<u32>) -> Result<u32, NoMemory>
    requires { AreBelow (count_of terms.old) formulas.items }
    ensures within { IfOk result (λ r. r < count_of terms.new) }
    ensures grows { OnOk result (count_of terms.old ≤ count_of terms.new) }
    ensures made { (fs : List Term) → AreAt terms.old formulas.items fs → IfOk result (λ r. Makes terms.old terms.new r (made.any_of fs)) }
{
    put(terms, Node::Or(formulas))
}

/// `all` of an Int name from one Int term on and below another.
pub fn every(
    alloc: Global,
    terms: &mut Terms,
    word: &Name,
    number: u64,
    from: u32,
    below: u32,
    body: u32,
) -> Result<u32, NoMemory>
    requires first { from < count_of terms.old }
    requires second { below < count_of terms.old }
    requires third { body < count_of terms.old }
    ensures within { IfOk result (λ r. r < count_of terms.new) }
    ensures grows { OnOk result (count_of terms.old ≤ count_of terms.new) }
    ensures made { (s t f : Term) → IsAt terms.old from s → IsAt terms.old below t → IsAt terms.old body f → IfOk result (λ r. Makes terms.old terms.new r (made.bound true word.now number s t f)) }
{
    let word = word.copy(alloc)?;
    let quantifier = Quantifier {
        word,
        number: number as u128,
        from,
        below,
        body,
    };
    put(terms, Node::All(quantifier))
}

/// `some` of an Int name from one Int term on and below another.
pub fn exists(
    alloc: Global,
    terms: &mut Terms,
    word: &Name,
    number: u64,
    from: u32,
    below: u32,
    body: u32,
) -> Result<u32, NoMemory>
    requires first { from < count_of terms.old }
    requires second { below < count_of terms.old }
    requires third { body < count_of terms.old }
    ensures within { IfOk result (λ r. r < count_of terms.new) }
    ensures grows { OnOk result (count_of terms.old ≤ count_of terms.new) }
    ensures made { (s t f : Term) → IsAt terms.old from s → IsAt terms.old below t → IsAt terms.old body f → IfOk result (λ r. Makes terms.old terms.new r (made.bound false word.now number s t f)) }
{
    let word = word.copy(alloc)?;
    let quantifier = Quantifier {
        word,
        number: number as u128,
        from,
        below,
        body,
    };
    put(terms, Node::Some(quantifier))
}

/// The opposite of an Int term.
pub(crate) fn neg(terms: &mut Terms, number: u32) -> Result<u32, NoMemory>
    requires { number < count_of terms.old }
    ensures within { IfOk result (λ r. r < count_of terms.new) }
    ensures grows { OnOk result (count_of terms.old ≤ count_of terms.new) }
    ensures made { (s : Term) → IsAt terms.old number s → IfOk result (λ r. Makes terms.old terms.new r (made.of_one term.neg s)) }
{
    put(terms, Node::Neg(number))
}

/// The sum of two Int terms.
pub(crate) fn add(terms: &mut Terms, first: u32, second: u32) -> Result<u32, NoMemory>
    requires first { first < count_of terms.old }
    requires second { second < count_of terms.old }
    ensures within { IfOk result (λ r. r < count_of terms.new) }
    ensures grows { OnOk result (count_of terms.old ≤ count_of terms.new) }
    ensures made { (s t : Term) → IsAt terms.old first s → IsAt terms.old second t → IfOk result (λ r. Makes terms.old terms.new r (made.of_two term.add s t)) }
{
    put(terms, Node::Add(first, second))
}

/// The difference of two Int terms.
pub(crate) fn sub(terms: &mut Terms, first: u32, second: u32) -> Result<u32, NoMemory>
    requires first { first < count_of terms.old }
    requires second { second < count_of terms.old }
    ensures within { IfOk result (λ r. r < count_of terms.new) }
    ensures grows { OnOk result (count_of terms.old ≤ count_of terms.new) }
    ensures made { (s t : Term) → IsAt terms.old first s → IsAt terms.old second t → IfOk result (λ r. Makes terms.old terms.new r (made.of_two term.sub s t)) }
{
    put(terms, Node::Sub(first, second))
}

/// The product of two Int terms.
pub(crate) fn mul(terms: &mut Terms, first: u32, second: u32) -> Result<u32, NoMemory>
    requires first { first < count_of terms.old }
    requires second { second < count_of terms.old }
    ensures within { IfOk result (λ r. r < count_of terms.new) }
    ensures grows { OnOk result (count_of terms.old ≤ count_of terms.new) }
    ensures made { (s t : Term) → IsAt terms.old first s → IsAt terms.old second t → IfOk result (λ r. Makes terms.old terms.new r (made.of_two term.mul s t)) }
{
    put(terms, Node::Mul(first, second))
}

/// The quotient of two Int terms.
pub(crate) fn div(terms: &mut Terms, first: u32, second: u32) -> Result<u32, NoMemory>
    requires first { first < count_of terms.old }
    requires second { second < count_of terms.old }
    ensures within { IfOk result (λ r. r < count_of terms.new) }
    ensures grows { OnOk result (count_of terms.old ≤ count_of terms.new) }
    ensures made { (s t : Term) → IsAt terms.old first s → IsAt terms.old second t → IfOk result (λ r. Makes terms.old terms.new r (made.of_two term.div s t)) }
{
    put(terms, Node::Div(first, second))
}

/// The remainder of two Int terms.
pub(crate) fn rem(terms: &mut Terms, first: u32, second: u32) -> Result<u32, NoMemory>
    requires first { first < count_of terms.old }
    requires second { second < count_of terms.old }
    ensures within { IfOk result (λ r. r < count_of terms.new) }
    ensures grows { OnOk result (count_of terms.old ≤ count_of terms.new) }
    ensures made { (s t : Term) → IsAt terms.old first s → IsAt terms.old second t → IfOk result (λ r. Makes terms.old terms.new r (made.of_two term.rem s t)) }
{
    put(terms, Node::Mod(first, second))
}

/// The array of so many copies, by an Int term.
pub(crate) fn repeat(terms: &mut Terms, item: u32, count: u32) -> Result<u32, NoMemory>
    requires first { item < count_of terms.old }
    requires second { count < count_of terms.old }
    ensures within { IfOk result (λ r. r < count_of terms.new) }
    ensures grows { OnOk result (count_of terms.old ≤ count_of terms.new) }
    ensures made { (v s : Term) → IsAt terms.old item v → IsAt terms.old count s → IfOk result (λ r. Makes terms.old terms.new r (made.of_two term.repeat v s)) }
{
    put(terms, Node::Repeat(item, count))
}

/// The array with another element at an Int term.
pub(crate) fn update(terms: &mut Terms, array: u32, index: u32, value: u32) -> Result<u32, NoMemory>
    requires first { array < count_of terms.old }
    requires second { index < count_of terms.old }
    requires third { value < count_of terms.old }
    ensures within { IfOk result (λ r. r < count_of terms.new) }
    ensures grows { OnOk result (count_of terms.old ≤ count_of terms.new) }
    ensures made { (v s w : Term) → IsAt terms.old array v → IsAt terms.old index s → IsAt terms.old value w → IfOk result (λ r. Makes terms.old terms.new r (made.of_three term.update v s w)) }
{
    put(terms, Node::Update(array, index, value))
}

/// The record with another value of a field.
pub(crate) fn set_field(
    alloc: Global,
    terms: &mut Terms,
    whole: u32,
    name: &Name,
    value: u32,
) -> Result<u32, NoMemory>
    requires first { whole < count_of terms.old }
    requires second { value < count_of terms.old }
    ensures within { IfOk result (λ r. r < count_of terms.new) }
    ensures grows { OnOk result (count_of terms.old ≤ count_of terms.new) }
    ensures made { (v w : Term) → IsAt terms.old whole v → IsAt terms.old value w → IfOk result (λ r. Makes terms.old terms.new r (made.of_two (term.set_field name.now) v w)) }
{
    let name = name.copy(alloc)?;
    put(terms, Node::SetField(whole, name, value))
}

/// The array of these data. Linear in them.
pub fn list(terms: &mut Terms, items: Vec<u32>) -> Result<u32, NoMemory>
    requires { AreBelow (count_of terms.old) items.items }
    ensures within { IfOk result (λ r. r < count_of terms.new) }
    ensures grows { OnOk result (count_of terms.old ≤ count_of terms.new) }
    ensures made { (vs : List Term) → AreAt terms.old items.items vs → IfOk result (λ r. Makes terms.old terms.new r (op.list vs)) }
{
    put(terms, Node::Array(items))
}

/// The record of these fields. Linear in them.
pub fn record(terms: &mut Terms, fields: Vec<(Name, u32)>) -> Result<u32, NoMemory>
    requires { AreBelow (count_of terms.old) (map (λ f. f.1) fields.items) }
    ensures within { IfOk result (λ r. r < count_of terms.new) }
    ensures grows { OnOk result (count_of terms.old ≤ count_of terms.new) }
    ensures made { (names : List (List ℕ)) (vs : List Term) → map (λ f. f.0) fields.items ≡ names → AreAt terms.old (map (λ f. f.1) fields.items) vs → IfOk result (λ r. Makes terms.old terms.new r (op.record_of names vs)) }
{
    put(terms, Node::Record(fields))
}
