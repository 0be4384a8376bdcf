//! What terms of a kind are.
ghost use Rattle.std.specs.Prelude.{◌≡◌, ◌<◌, false, true, length, map, option_map, IfOk, IfSome, OnOk};
ghost use Rattle.wy_facts.specs.Made.{denial, either, implies, is_equal, made_one};
ghost use Rattle.wy_facts.specs.Membership.{AreTypesBelow};
ghost use Rattle.wy_facts.specs.Seen.{AreBelow, Stays};
ghost use Rattle.wy_cong.specs.wy_check_spec.judge.Node.{Node as TreeNode};
ghost use Rattle.wy_check_nodes.specs.Seen.{seen_branch, seen_formula, IsBranch};
ghost use Rattle.wy_cong.specs.wy_search_spec.Expansion as search;
ghost use Rattle.wy_search_facts.specs.About.{about_fact, is_formula, literal_said, said_by, IsAboutBelow};
ghost use Rattle.wy_search_facts.specs.Adding.{Leads};
ghost use Rattle.wy_term.specs.Nodes.{tree_at};
ghost use Rattle.wy_term.specs.Term.{int, num, null, truth};

use crate::equations::in_equation;
use crate::made::{push_fact, push_some};
use wy_check_nodes::{Branch, has_literal, pending_at};
use wy_term::{Cond, Kind, NoMemory, Node, Terms};

/// What a fact on a term's kind is about.
#[derive(Clone, Copy, Debug, PartialEq, Eq)]
pub enum About {
    /// A formula as a datum.
    Formula,
    /// A term of which a test says that it is null.
    Null(u32),
    /// A term of which a test says that it is a truth value.
    Bool(u32),
    /// A term of which a test says that it is a number.
    Int(u32),
    /// Nothing.
    Nothing,
}

fn subject(terms: &Terms, t: u32) -> About
    requires { t < length terms.now }
    ensures value { (node : TreeNode) → search.kind_fact node (tree_at terms.now t) ≡ about_fact node (tree_at terms.now) (tree_at terms.now t) result }
    ensures within { IsAboutBelow (length terms.now) result }
{
    match terms.node(t) {
        Node::Truth(_) => About::Formula,
        Node::Kind(v, kind) => match kind {
            Kind::Null => About::Null(*v),
            Kind::Bool => About::Bool(*v),
            Kind::Int => About::Int(*v),
            Kind::Array => About::Nothing,
            Kind::Record(_) => About::Nothing,
        },
        _ => About::Nothing,
    }
}

fn is_formula(what: About) -> bool
    ensures { result ≡ is_formula what }
{
    match what {
        About::Formula => true,
        _ => false,
    }
}

// ---- formulas, folded as they are made

fn either(terms: &mut Terms, f: u32, g: u32) -> Result<u32, NoMemory>
    requires first { f < length terms.old }
    requires second { g < length terms.old }
    ensures value { IfOk result (λ k. tree_at terms.new k ≡ either (tree_at terms.old f) (tree_at terms.old g)) }
    ensures within { IfOk result (λ k. k < length terms.new) }
    ensures stays { Stays terms.old terms.new }
{
    let members = Vec::from_slice(terms.allocator(), &[f, g])?;
    terms.intern(Node::Or(members))
}

fn denial(terms: &mut Terms, f: u32) -> Result<u32, NoMemory>
    requires { f < length terms.old }
    ensures value { IfOk result (λ k. tree_at terms.new k ≡ denial (tree_at terms.old f)) }
    ensures within { IfOk result (λ k. k < length terms.new) }
    ensures stays { Stays terms.old terms.new }
{
    terms.intern(Node::Not(f))
}

fn implies(terms: &mut Terms, f: u32, g: u32) -> Result<u32, NoMemory>
    requires first { f < length terms.old }
    requires second { g < length terms.old }
    ensures value { IfOk result (λ k. tree_at terms.new k ≡ implies (tree_at terms.old f) (tree_at terms.old g)) }
    ensures within { IfOk result (λ k. k < length terms.new) }
    ensures stays { Stays terms.old terms.new }
{
    let denied = denial(terms, f)?;
    either(terms, denied, g)
}

fn equation(terms: &mut Terms, v: u32, w: u32) -> Result<u32, NoMemory>
    requires first { v < length terms.old }
    requires second { w < length terms.old }
    ensures value { IfOk result (λ k. tree_at terms.new k ≡ is_equal (tree_at terms.old v) (tree_at terms.old w)) }
    ensures within { IfOk result (λ k. k < length terms.new) }
    ensures stays { Stays terms.old terms.new }
{
    terms.intern(Node::Equal(v, w))
}

fn is_null(terms: &mut Terms, v: u32) -> Result<u32, NoMemory>
    requires { v < length terms.old }
    ensures value { IfOk result (λ k. tree_at terms.new k ≡ search.equal_to (tree_at terms.old v) null) }
    ensures within { IfOk result (λ k. k < length terms.new) }
    ensures stays { Stays terms.old terms.new }
{
    let null = terms.intern(Node::Null)?;
    equation(terms, v, null)
}

fn is_truth(terms: &mut Terms, v: u32, b: bool) -> Result<u32, NoMemory>
    requires { v < length terms.old }
    ensures value { IfOk result (λ k. tree_at terms.new k ≡ search.equal_to (tree_at terms.old v) (truth b)) }
    ensures within { IfOk result (λ k. k < length terms.new) }
    ensures stays { Stays terms.old terms.new }
{
    let truth = terms.intern(Node::Bool(b))?;
    equation(terms, v, truth)
}

fn is_bool(terms: &mut Terms, v: u32) -> Result<u32, NoMemory>
    requires { v < length terms.old }
    ensures value { IfOk result (λ k. tree_at terms.new k ≡ either (search.equal_to (tree_at terms.old v) (truth true)) (search.equal_to (tree_at terms.old v) (truth false))) }
    ensures within { IfOk result (λ k. k < length terms.new) }
    ensures stays { Stays terms.old terms.new }
{
    let yes = is_truth(terms, v, true)?;
    let no = is_truth(terms, v, false)?;
    either(terms, yes, no)
}

fn is_whole(terms: &mut Terms, v: u32) -> Result<u32, NoMemory>
    requires { v < length terms.old }
    ensures value { IfOk result (λ k. tree_at terms.new k ≡ is_equal (tree_at terms.old v) (made_one int (made_one num (tree_at terms.old v)))) }
    ensures within { IfOk result (λ k. k < length terms.new) }
    ensures stays { Stays terms.old terms.new }
{
    let number = terms.intern(Node::Num(v))?;
    let datum = terms.intern(Node::Int(number))?;
    equation(terms, v, datum)
}

// ---- the facts

// What a term is, of which a literal tells the kind; of a number only where the term stands in an equation.
fn what_it_is(terms: &mut Terms, branch: &Branch, what: About) -> Result<Option<u32>, NoMemory>
    requires branch { IsBranch terms.old branch.now }
    requires what { IsAboutBelow (length terms.old) what }
    ensures value { IfOk result (λ o. option_map (tree_at terms.new) o ≡ said_by (seen_branch (tree_at terms.old) branch.now) (tree_at terms.old) what) }
    ensures within { IfOk result (λ o. IfSome o (λ f. f < length terms.new)) }
    ensures stays { Stays terms.old terms.new }
{
    match what {
        About::Null(v) => Ok(Some(is_null(terms, v)?)),
        About::Bool(v) => Ok(Some(is_bool(terms, v)?)),
        About::Int(v) => {
            if in_equation(terms, branch, v)? {
                Ok(Some(is_whole(terms, v)?))
            } else {
                Ok(None)
            }
        }
        _ => Ok(None),
    }
}

// What a test of a term's kind, that is a literal and isn't denied, says of the term.
fn kind_said(
    terms: &mut Terms,
    branch: &Branch,
    t: u32,
    what: About,
) -> Result<Option<u32>, NoMemory>
    requires branch { IsBranch terms.old branch.now }
    requires term { t < length terms.old }
    requires what { IsAboutBelow (length terms.old) what }
    ensures value { IfOk result (λ o. option_map (tree_at terms.new) o ≡ option_map (implies (tree_at terms.old t)) (said_by (seen_branch (tree_at terms.old) branch.now) (tree_at terms.old) what)) }
    ensures within { IfOk result (λ o. IfSome o (λ f. f < length terms.new)) }
    ensures stays { Stays terms.old terms.new }
{
    match what_it_is(terms, branch, what)? {
        Some(says) => Ok(Some(implies(terms, t, says)?)),
        None => Ok(None),
    }
}

// The same, where the test is such a literal.
fn literal_said(
    terms: &mut Terms,
    branch: &Branch,
    t: u32,
    what: About,
) -> Result<Option<u32>, NoMemory>
    requires branch { IsBranch terms.old branch.now }
    requires term { t < length terms.old }
    requires what { IsAboutBelow (length terms.old) what }
    ensures value { IfOk result (λ o. option_map (tree_at terms.new) o ≡ literal_said (seen_branch (tree_at terms.old) branch.now) (tree_at terms.old) (tree_at terms.old t) what) }
    ensures within { IfOk result (λ o. IfSome o (λ f. f < length terms.new)) }
    ensures stays { Stays terms.old terms.new }
{
    if has_literal(terms, branch, t, true) {
        kind_said(terms, branch, t, what)
    } else {
        Ok(None)
    }
}

// What is known of a formula as a datum, or of a term of a kind, where the term holds this.
fn push_about(
    terms: &mut Terms,
    cond: &Cond,
    branch: &Branch,
    facts: &mut Vec<u32>,
    t: u32,
) -> Result<(), NoMemory>
    requires branch { IsBranch terms.old branch.now }
    requires term { t < length terms.old }
    requires types { AreTypesBelow (length terms.old) cond.now }
    requires facts { AreBelow (length terms.old) facts.old.items }
    ensures value { OnOk result (Leads terms.old facts.old.items terms.new facts.new.items (λ done. search.with_some done (search.kind_fact (seen_branch (tree_at terms.old) branch.now) (tree_at terms.old t)))) }
    ensures stays { Stays terms.old terms.new }
{
    let what = subject(terms, t);
    if is_formula(what) {
        return push_fact(terms, cond, facts, 14, &[t]);
    }
    let said = literal_said(terms, branch, t, what)?;
    push_some(facts, said)
}

// The same of a term that stands in a node; of a denial nothing is known.
fn push_kind_fact(
    terms: &mut Terms,
    cond: &Cond,
    branch: &Branch,
    facts: &mut Vec<u32>,
    t: u32,
    holds: bool,
) -> Result<(), NoMemory>
    requires branch { IsBranch terms.old branch.now }
    requires term { t < length terms.old }
    requires types { AreTypesBelow (length terms.old) cond.now }
    requires facts { AreBelow (length terms.old) facts.old.items }
    ensures value { OnOk result (Leads terms.old facts.old.items terms.new facts.new.items (λ done. search.with_some done (search.kind_fact (seen_branch (tree_at terms.old) branch.now) (seen_formula (tree_at terms.old) (t, holds))))) }
    ensures stays { Stays terms.old terms.new }
{
    if holds {
        push_about(terms, cond, branch, facts, t)
    } else {
        Ok(())
    }
}

/// What is known of each formula as a datum, and of each term of which a literal that isn't denied says its kind.
pub fn push_kind_facts(
    terms: &mut Terms,
    cond: &Cond,
    branch: &Branch,
    facts: &mut Vec<u32>,
    found: &Branch,
) -> Result<(), NoMemory>
    requires branch { IsBranch terms.old branch.now }
    requires found { IsBranch terms.old found.now }
    requires types { AreTypesBelow (length terms.old) cond.now }
    requires facts { AreBelow (length terms.old) facts.old.items }
    ensures value { OnOk result (Leads terms.old facts.old.items terms.new facts.new.items (λ done. search.with_kind_facts (seen_branch (tree_at terms.old) branch.now) done (map (seen_formula (tree_at terms.old)) found.now.pending.keys))) }
    ensures stays { Stays terms.old terms.new }
{
    for i in 0..found.pending.len() {
        let (t, holds) = pending_at(found, i);
        push_kind_fact(terms, cond, branch, facts, t, holds)?;
    }
    Ok(())
}
