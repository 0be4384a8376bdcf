//! The list of nodes in which a number names a term, and equal terms have one number.
ghost use Rattle.std.specs.Prelude.{◌≡◌, ◌<◌, ◌≤◌, ◌↔◌, [], ℕ, List, length, map, take, IsTrue, IfOk, OnErr};
ghost use Rattle.wy_term.specs.Nodes.{plain, grown, tree_at, node_at as plain_at, HasPartsBelow, AreNodes, Extends, Adds};
ghost use Rattle.wy_term.specs.Same.{same_term};
ghost use Rattle.wy_term.specs.Rewriting.{rewritten};
ghost use Rattle.wy_term.specs.Folding.{folded};
ghost use Rattle.wy_term.specs.Numbers.{IsAt, Keeps};

use crate::copy::copied;
use crate::fold::{Folded, fold};
use crate::node::Node;
use crate::replace::made;
use indexmap::IndexSet;
use std::alloc::Global;
use std::marker::Model;
use wy_value::NoMemory;

/// Terms and formulas by number, each made of earlier ones. A contract sees the list of its nodes, and by `tree_at` the
/// tree that a number names. Two different numbers name different trees.
#[derive(Drop)]
pub struct Terms {
    nodes: IndexSet<Node>,
}

impl Model for Terms {
    ghost use Rattle.std.specs.Prelude.{List, map};
    ghost use Rattle.wy_term.specs.Nodes.{Plain, plain, AreNodes};

    ghost Value = { List Plain };

    ghost view = { λ s. map plain s.nodes.keys };

    ghost invariant = { λ s. AreNodes (map plain s.nodes.keys) };
}

/// How many terms a list had.
#[derive(Clone, Copy, Debug, PartialEq, Eq)]
pub struct Mark {
    terms: usize,
}

impl Model for Mark {
    ghost use Rattle.std.specs.Prelude.{ℕ};

    ghost Value = { ℕ };

    ghost view = { λ m. m.terms };

    ghost inverse = { λ n. record { terms = n } };
}

impl Terms {
    /// No terms yet. It keeps the allocator and takes no memory.
    pub fn new(alloc: Global) -> Terms
        ensures value { result ≡ [] }
    {
        Terms {
            nodes: IndexSet::new(alloc),
        }
    }

    /// How many terms there are; their numbers are those below it.
    pub fn len(&self) -> usize
        ensures value { result ≡ length self.now }
    {
        count(&self.nodes)
    }

    /// Whether there are none.
    pub fn is_empty(&self) -> bool
        ensures value { IsTrue result ↔ (length self.now ≡ 0) }
    {
        self.len() == 0
    }

    /// The node of the term with this number, in constant time. Its parts have smaller numbers.
    pub fn node(&self, term: u32) -> &Node
        requires { term < length self.now }
        ensures value { plain result.now ≡ plain_at self.now term }
        ensures tree { tree_at self.now term ≡ grown (tree_at self.now) (plain result.now) }
        ensures within { HasPartsBelow term (plain result.now) }
    {
        node_at(&self.nodes, term)
    }

    /// The number of the term that this node's term is folded to, in amortized constant time beside that of looking at
    /// the node's parts and hashing it; a quantifier over a range of at most 256 numbers takes the time to make its body
    /// at each of them. Older numbers name what they named. Want of memory is also the answer where 2^32 - 1 terms stand,
    /// and where a thousand such quantifiers stand one in another.
    pub fn intern(&mut self, node: Node) -> Result<u32, NoMemory>
        requires { HasPartsBelow (length self.old) (plain node) }
        ensures tree { IfOk result (λ t. tree_at self.new t ≡ folded (grown (tree_at self.old) (plain node))) }
        ensures within { IfOk result (λ t. t < length self.new) }
        ensures kept { (t : ℕ) → t < length self.old → tree_at self.new t ≡ tree_at self.old t }
        ensures grows { length self.old ≤ length self.new }
        ensures no_memory { OnErr result (self.new ≡ self.old) }
    {
        let mark = self.mark();
        match made(self, node) {
            Ok(term) => Ok(term),
            Err(e) => {
                self.back_to(mark);
                Err(e)
            }
        }
    }

    /// The number of the term that this node's term is folded to, where it is no quantifier.
    pub(crate) fn make(&mut self, node: Node) -> Result<u32, NoMemory>
        requires { HasPartsBelow (length self.old) (plain node) }
        ensures value { IfOk result (λ t. IsAt self.new t (rewritten (grown (tree_at self.old) (plain node)))) }
        ensures keeps { Keeps self.old self.new }
    {
        match fold(self, node)? {
            Folded::Term(term) => Ok(term),
            Folded::Node(node) => self.put(node),
        }
    }

    /// The number of the term with this node, which isn't folded.
    pub(crate) fn put(&mut self, node: Node) -> Result<u32, NoMemory>
        requires { HasPartsBelow (length self.old) (plain node) }
        ensures value { IfOk result (λ t. IsAt self.new t (grown (tree_at self.old) (plain node))) }
        ensures keeps { Keeps self.old self.new }
    {
        add(&mut self.nodes, node)
    }

    /// The allocator that the list was made with. It takes no memory.
    pub fn allocator(&self) -> Global {
        *self.nodes.allocator()
    }

    /// The number of the same term as one of another list. It takes time linear in how many terms that one is made of and
    /// their parts, each counted once. Older numbers name what they named, at want of memory too.
    pub fn copy(&mut self, from: &Terms, term: u32) -> Result<u32, NoMemory>
        requires { term < length from.now }
        ensures tree { IfOk result (λ t. tree_at self.new t ≡ tree_at from.now term) }
        ensures within { IfOk result (λ t. t < length self.new) }
        ensures kept { (t : ℕ) → t < length self.old → tree_at self.new t ≡ tree_at self.old t }
        ensures grows { length self.old ≤ length self.new }
    {
        copied(self, from, term)
    }

    /// Whether two numbers name equal terms, in constant time.
    pub fn same(&self, s: u32, t: u32) -> bool
        requires first { s < length self.now }
        requires second { t < length self.now }
        ensures value { result ≡ same_term (tree_at self.now s) (tree_at self.now t) }
    {
        same_number(&self.nodes, s, t)
    }

    /// Two numbers are one exactly where they name equal terms, in every list of terms, however it came to be.
    pub fn one_number_for_each_term(&self)
        ensures one { (s t : ℕ) → s < length self.now → t < length self.now → ((s ≡ t) ↔ (tree_at self.now s ≡ tree_at self.now t)) }
    {
        one_number(&self.nodes);
    }

    /// How many terms there are, to go back to. It takes no memory.
    pub fn mark(&self) -> Mark
        ensures value { result ≡ length self.now }
    {
        Mark { terms: self.len() }
    }

    /// Takes away the terms that were made after the mark, in time linear in their number. It takes no memory.
    pub fn back_to(&mut self, mark: Mark)
        requires { mark ≤ length self.old }
        ensures value { self.new ≡ take mark self.old }
        ensures kept { (t : ℕ) → t < mark → tree_at self.new t ≡ tree_at self.old t }
    {
        cut(&mut self.nodes, mark.terms);
    }
}

fn count(nodes: &IndexSet<Node>) -> usize
    ensures { result ≡ length (map plain nodes.now.keys) }
{
    nodes.len()
}

// The node with a number.
fn node_at(nodes: &IndexSet<Node>, term: u32) -> &Node
    requires { term < length (map plain nodes.now.keys) }
    ensures { plain result.now ≡ plain_at (map plain nodes.now.keys) term }
{
    &nodes[term as usize]
}

// The number of a node, which is put in where it doesn't stand yet.
fn add(nodes: &mut IndexSet<Node>, node: Node) -> Result<u32, NoMemory>
    ensures added { IfOk result (Adds (map plain nodes.old.keys) (map plain nodes.new.keys) (plain node)) }
    ensures extends { Extends (map plain nodes.old.keys) (map plain nodes.new.keys) }
    ensures no_memory { OnErr result (nodes.new.keys ≡ nodes.old.keys) }
{
    if nodes.len() >= u32::MAX as usize {
        return Err(NoMemory);
    }
    let (term, _) = nodes.insert_full(node)?;
    Ok(term as u32)
}

// Whether two numbers are equal, and so name equal terms.
fn same_number(nodes: &IndexSet<Node>, s: u32, t: u32) -> bool
    requires nodes { AreNodes (map plain nodes.now.keys) }
    requires first { s < length (map plain nodes.now.keys) }
    requires second { t < length (map plain nodes.now.keys) }
    ensures { result ≡ same_term (tree_at (map plain nodes.now.keys) s) (tree_at (map plain nodes.now.keys) t) }
{
    s == t
}

fn one_number(nodes: &IndexSet<Node>)
    requires { AreNodes (map plain nodes.now.keys) }
    ensures { (s t : ℕ) → s < length (map plain nodes.now.keys) → t < length (map plain nodes.now.keys) → ((s ≡ t) ↔ (tree_at (map plain nodes.now.keys) s ≡ tree_at (map plain nodes.now.keys) t)) }
{
    let _nodes = nodes;
}

// The first nodes alone.
fn cut(nodes: &mut IndexSet<Node>, terms: usize)
    ensures { map plain nodes.new.keys ≡ take terms (map plain nodes.old.keys) }
{
    nodes.truncate(terms);
}
