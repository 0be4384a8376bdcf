//! Facts: what a schema states of its arguments.
ghost use Rattle.std.specs.Prelude.{◌≡◌, ◌≢◌, ◌<◌, ◌≤◌, ◌∷◌, [], ℕ, length, option_map, IfOk, IfSome, IfNone, OnErr};
ghost use Rattle.wy_term_subst.specs.wy_term.Folding.{folded};
ghost use Rattle.wy_term_subst.specs.wy_term.Nodes.{plain, grown, tree_at, HasPartsBelow};
ghost use Rattle.wy_term_subst.specs.wy_term.Condition.{condition_of};
ghost use Rattle.wy_facts.specs.Schema.{◌>>=◌ as bind, instance, by_one, by_two, plain_by_one, instance_of, fact_of, division};
ghost use Rattle.wy_facts.specs.Membership.{membership_of, fact_in, AreTypesBelow};
ghost use Rattle.wy_facts.specs.Truth.{AlwaysHolds};
ghost use Rattle.wy_facts.specs.Seen.{seen_instance, terms_at, AreBelow, Stays};

use crate::arguments::{
    datum_by_kind, element_elsewhere, element_of_array, element_of_copies, element_updated,
    elements_at_one_index, equal_numbers, field_updated, length_is_natural, length_of_copies,
    length_of_updated, of_parts,
};
use crate::membership::membership;
use crate::schema::{Instance, Schema};
use crate::shapes::{division_at, field_before, kind_before_set, kind_before_update};
use crate::stating::stated_of;
use wy_term_subst::{Cond, NoMemory, Node, Terms};

// A schema, stated of a term and of the term of a node that is made, where there is one.
fn with_made(
    terms: &mut Terms,
    schema: Schema,
    t: u32,
    node: Option<Node>,
) -> Result<Option<Instance>, NoMemory>
    requires term { t < length terms.old }
    requires node { IfSome node (λ n. HasPartsBelow (length terms.old) (plain n)) }
    ensures value { IfOk result (λ o. option_map (seen_instance terms.new) o ≡ bind (option_map (λ n. grown (tree_at terms.old) (plain n)) node) (λ u. instance schema (tree_at terms.old t ∷ folded u ∷ []))) }
    ensures within { IfOk result (λ o. IfSome o (λ i. AreBelow (length terms.new) i.parts.items)) }
    ensures stays { Stays terms.old terms.new }
{
    match node {
        None => Ok(None),
        Some(node) => {
            let u = terms.intern(node)?;
            of_parts(terms, schema, &[t, u])
        }
    }
}

// Quotient and remainder.
fn division(terms: &mut Terms, t: u32) -> Result<Option<Instance>, NoMemory>
    requires { t < length terms.old }
    ensures value { IfOk result (λ o. option_map (seen_instance terms.new) o ≡ division (tree_at terms.old t)) }
    ensures within { IfOk result (λ o. IfSome o (λ i. AreBelow (length terms.new) i.parts.items)) }
    ensures stays { Stays terms.old terms.new }
{
    match division_at(terms, t) {
        None => Ok(None),
        Some((a, b)) => {
            let q = terms.intern(Node::Div(a, b))?;
            let r = terms.intern(Node::Mod(a, b))?;
            of_parts(terms, Schema::Division, &[a, b, q, r])
        }
    }
}

// The instance of a schema of one argument whose parts are there already.
fn plain_by_one(terms: &Terms, n: u32, t: u32) -> Result<Option<Instance>, NoMemory>
    requires { t < length terms.now }
    ensures value { IfOk result (λ o. option_map (seen_instance terms.now) o ≡ plain_by_one n (tree_at terms.now t)) }
    ensures within { IfOk result (λ o. IfSome o (λ i. AreBelow (length terms.now) i.parts.items)) }
{
    match n {
        1 => length_is_natural(terms, t),
        2 => length_of_copies(terms, t),
        3 => length_of_updated(terms, t),
        5 => element_of_copies(terms, t),
        6 => element_updated(terms, t),
        7 => element_elsewhere(terms, t),
        9 => field_updated(terms, t),
        11 => equal_numbers(terms, t),
        14 => datum_by_kind(terms, t),
        _ => Ok(None),
    }
}

// The instance of a schema of one argument.
fn by_one(terms: &mut Terms, n: u32, t: u32) -> Result<Option<Instance>, NoMemory>
    requires { t < length terms.old }
    ensures value { IfOk result (λ o. option_map (seen_instance terms.new) o ≡ by_one n (tree_at terms.old t)) }
    ensures within { IfOk result (λ o. IfSome o (λ i. AreBelow (length terms.new) i.parts.items)) }
    ensures stays { Stays terms.old terms.new }
{
    match n {
        10 => {
            let node = field_before(terms, t)?;
            with_made(terms, Schema::FieldElsewhere, t, node)
        }
        12 => {
            let node = kind_before_update(terms, t)?;
            with_made(terms, Schema::KindOfUpdated, t, node)
        }
        13 => {
            let node = kind_before_set(terms, t)?;
            with_made(terms, Schema::KindOfFieldUpdated, t, node)
        }
        15 => division(terms, t),
        _ => plain_by_one(terms, n, t),
    }
}

// The instance of a schema of two arguments.
fn by_two(terms: &Terms, n: u32, s: u32, t: u32) -> Result<Option<Instance>, NoMemory>
    requires first { s < length terms.now }
    requires second { t < length terms.now }
    ensures value { IfOk result (λ o. option_map (seen_instance terms.now) o ≡ by_two n (tree_at terms.now s) (tree_at terms.now t)) }
    ensures within { IfOk result (λ o. IfSome o (λ i. AreBelow (length terms.now) i.parts.items)) }
{
    match n {
        4 => element_of_array(terms, s, t),
        8 => elements_at_one_index(terms, s, t),
        _ => Ok(None),
    }
}

fn instance_of(terms: &mut Terms, n: u32, args: &[u32]) -> Result<Option<Instance>, NoMemory>
    requires { AreBelow (length terms.old) args.now }
    ensures value { IfOk result (λ o. option_map (seen_instance terms.new) o ≡ instance_of n (terms_at terms.old args.now)) }
    ensures within { IfOk result (λ o. IfSome o (λ i. AreBelow (length terms.new) i.parts.items)) }
    ensures stays { Stays terms.old terms.new }
{
    match args {
        [t] => by_one(terms, n, *t),
        [s, t] => by_two(terms, n, *s, *t),
        _ => Ok(None),
    }
}

// The formula that a schema states without a condition, where the arguments are such as it takes.
fn plain_made(terms: &mut Terms, n: u32, args: &[u32]) -> Result<Option<u32>, NoMemory>
    requires { AreBelow (length terms.old) args.now }
    ensures value { IfOk result (λ o. option_map (tree_at terms.new) o ≡ fact_of n (terms_at terms.old args.now)) }
    ensures within { IfOk result (λ o. IfSome o (λ f. f < length terms.new)) }
    ensures stays { Stays terms.old terms.new }
{
    match instance_of(terms, n, args)? {
        None => Ok(None),
        Some(instance) => match stated_of(terms, &instance) {
            Ok(f) => Ok(Some(f)),
            Err(e) => Err(e),
        },
    }
}

// The formula that is stated of tests of named types, where the argument is one.
fn membership_made(terms: &mut Terms, cond: &Cond, args: &[u32]) -> Result<Option<u32>, NoMemory>
    requires args { AreBelow (length terms.old) args.now }
    requires types { AreTypesBelow (length terms.old) cond.now }
    ensures value { IfOk result (λ o. option_map (tree_at terms.new) o ≡ membership_of (condition_of terms.old cond.now).types (terms_at terms.old args.now)) }
    ensures within { IfOk result (λ o. IfSome o (λ f. f < length terms.new)) }
    ensures stays { Stays terms.old terms.new }
{
    match args {
        [t] => membership(terms, cond, *t),
        _ => Ok(None),
    }
}

// The formula that a schema states, where the arguments are such as it takes.
fn fact_made(terms: &mut Terms, cond: &Cond, n: u32, args: &[u32]) -> Result<Option<u32>, NoMemory>
    requires args { AreBelow (length terms.old) args.now }
    requires types { AreTypesBelow (length terms.old) cond.now }
    ensures value { IfOk result (λ o. option_map (tree_at terms.new) o ≡ fact_in (condition_of terms.old cond.now).types n (terms_at terms.old args.now)) }
    ensures within { IfOk result (λ o. IfSome o (λ f. f < length terms.new)) }
    ensures stays { Stays terms.old terms.new }
{
    if n == 16 {
        membership_made(terms, cond, args)
    } else {
        plain_made(terms, n, args)
    }
}

/// The formula that a schema, by its number from 1 to 16, states of these arguments; none exactly where the arguments are
/// not such as it takes. It holds of all data, where `in` of each of the condition's types means the type's formula; those
/// of schemas 1 to 15 rest on no condition. It takes a number of calls of `intern` that depends on the schema alone, and
/// the time to compare and copy the names in an argument; schema 16 takes the time to find the type among the condition's
/// and to put the datum into its formula. Older numbers name what they named, and where there is no answer the terms are as
/// before.
pub fn fact(
    terms: &mut Terms,
    cond: &Cond,
    schema: u32,
    args: &[u32],
) -> Result<Option<u32>, NoMemory>
    requires args { AreBelow (length terms.old) args.now }
    requires types { AreTypesBelow (length terms.old) cond.now }
    ensures value { IfOk result (λ o. option_map (tree_at terms.new) o ≡ fact_in (condition_of terms.old cond.now).types schema (terms_at terms.old args.now)) }
    ensures holds { schema ≢ 16 → IfOk result (λ o. IfSome o (λ f. AlwaysHolds (tree_at terms.new f))) }
    ensures within { IfOk result (λ o. IfSome o (λ f. f < length terms.new)) }
    ensures kept { (t : ℕ) → t < length terms.old → tree_at terms.new t ≡ tree_at terms.old t }
    ensures grows { length terms.old ≤ length terms.new }
    ensures none { IfOk result (λ o. IfNone o (length terms.new ≡ length terms.old)) }
    ensures no_memory { OnErr result (length terms.new ≡ length terms.old) }
{
    let mark = terms.mark();
    match fact_made(terms, cond, schema, args) {
        Ok(Some(f)) => Ok(Some(f)),
        Ok(None) => {
            terms.back_to(mark);
            Ok(None)
        }
        Err(e) => {
            terms.back_to(mark);
            Err(e)
        }
    }
}
