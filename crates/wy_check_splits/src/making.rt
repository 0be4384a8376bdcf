//! Formulas, folded as they are made.
ghost use Rattle.std.specs.Prelude.{◌≡◌, ◌<◌, length, IfOk};
ghost use Rattle.wy_check_nodes.specs.wy_term.Nodes.{tree_at};
ghost use Rattle.wy_check_nodes.specs.wy_facts.Made.{is_at_most, denial, one_of_three};
ghost use Rattle.wy_check_nodes.specs.wy_facts.Seen.{Stays};

use wy_check_nodes::{NoMemory, Node, Terms};

/// `s <= t`
pub fn at_most(terms: &mut Terms, s: u32, t: u32) -> Result<u32, NoMemory>
    requires first { s < length terms.old }
    requires second { t < length terms.old }
    ensures value { IfOk result (λ f. tree_at terms.new f ≡ is_at_most (tree_at terms.old s) (tree_at terms.old t)) }
    ensures within { IfOk result (λ f. f < length terms.new) }
    ensures stays { Stays terms.old terms.new }
{
    terms.intern(Node::AtMost(s, t))
}

/// `not f`
pub fn denial(terms: &mut Terms, f: u32) -> Result<u32, NoMemory>
    requires { f < length terms.old }
    ensures value { IfOk result (λ g. tree_at terms.new g ≡ denial (tree_at terms.old f)) }
    ensures within { IfOk result (λ g. g < length terms.new) }
    ensures stays { Stays terms.old terms.new }
{
    terms.intern(Node::Not(f))
}

/// `not s <= t`
pub fn above(terms: &mut Terms, s: u32, t: u32) -> Result<u32, NoMemory>
    requires first { s < length terms.old }
    requires second { t < length terms.old }
    ensures value { IfOk result (λ f. tree_at terms.new f ≡ denial (is_at_most (tree_at terms.old s) (tree_at terms.old t))) }
    ensures within { IfOk result (λ f. f < length terms.new) }
    ensures stays { Stays terms.old terms.new }
{
    let f = at_most(terms, s, t)?;
    denial(terms, f)
}

/// `or(f; g; h)`
pub fn one_of_three(terms: &mut Terms, f: u32, g: u32, h: u32) -> Result<u32, NoMemory>
    requires first { f < length terms.old }
    requires second { g < length terms.old }
    requires third { h < length terms.old }
    ensures value { IfOk result (λ k. tree_at terms.new k ≡ one_of_three (tree_at terms.old f) (tree_at terms.old g) (tree_at terms.old h)) }
    ensures within { IfOk result (λ k. k < length terms.new) }
    ensures stays { Stays terms.old terms.new }
{
    let members = Vec::from_slice(terms.allocator(), &[f, g, h])?;
    terms.intern(Node::Or(members))
}
