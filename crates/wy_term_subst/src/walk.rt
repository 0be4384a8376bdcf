//! A term made anew, where names stand for other terms.
ghost use Rattle.std.specs.Prelude.{nat_lt, ◌≡◌, ◌<◌, ◌≤◌, ◌+◌, ◌∷◌, [], if◌then◌else◌, true, false, ℕ, List, All, None, length, IfOk, IfSome, IfNone, OnOk};
ghost use Rattle.std.specs.HashMap.{get};
ghost use Rattle.wy_term.specs.Term.{Of, Term, leaf, int_name};
ghost use Rattle.wy_term.specs.Nodes.{plain, tree_at, parts_at};
ghost use Rattle.wy_term.specs.Folding.{found, found_or, hidden};
ghost use Rattle.wy_term.specs.ReplacingView.{seen_pairs, AreBelow, IsName, is_name};
ghost use Rattle.wy_term_subst.specs.Names.{new_number};
ghost use Rattle.wy_term_subst.specs.Substitution.{with_new_name, bound_by, binder_of, entered, finished, put_of, put, Entered};
ghost use Rattle.wy_term_subst.specs.View.{Kept, symbol_at, Counts};
ghost use Rattle.wy_term_subst.specs.Walk.{pairs_in, env_in, AreScopes, Enters, next_of, IsOpen, Ask, ask_of, answer, Answers, IsStill, same_place, AreMadeBelow, Remembers, Fits, Avoids, Stands, Bounds, GoesOn, NextFits, Leads, Enlarges, Opens, Begins};

use crate::names::{IntNames, Taken, is_among, new_number};
use crate::parts::{parts_of, with_parts};
use crate::scope::{Scope, found, is_hidden, with_pair};
use std::alloc::Global;
use std::collections::HashMap;
use wy_term::{Name, NoMemory, Node, Terms};

/// A term that is gone into: so many of its parts are made already. A quantifier binds a name with this number.
#[derive(Drop)]
pub struct Open {
    pub term: u32,
    pub number: u128,
    /// The scope around it.
    pub outer: usize,
    /// The scope of its third part and of those behind it.
    pub inner: usize,
    /// How many names had been made before it.
    pub before: usize,
    pub parts: Vec<u32>,
    pub images: Vec<u32>,
}

/// Where the walk is: the terms that were gone into and wait for the next of their parts, outer ones first, all scopes so
/// far, what terms became in them, and the numbers that are taken.
#[derive(Drop)]
pub struct Walk {
    pub waiting: Vec<Open>,
    pub scopes: Vec<Scope>,
    pub made: HashMap<(u32, usize), u32>,
    pub taken: Taken,
    pub new_names: usize,
}

/// What comes next: to go on with a term, or nothing, where the whole is made.
#[derive(Drop)]
pub enum Next {
    Part(Open),
    Whole(u32),
}

// ---- scopes

// The pairs of a scope.
#[tactic(auto, using(crate::proofs::ScopeLemmas::pairs_read))]
fn pairs_of(scopes: &[Scope], scope: usize) -> &[(u32, u32)]
    requires { scope < length scopes.now }
    ensures { result.now ≡ pairs_in scopes.now scope }
{
    &scopes[scope].pairs
}

// One more scope, in which a name stands for a term.
fn enter(
    scopes: &mut Vec<Scope>,
    alloc: Global,
    outer: usize,
    pair: (u32, u32),
) -> Result<usize, NoMemory>
    requires { outer < length scopes.old.items }
    ensures { IfOk result (λ s. Enters scopes.old.items scopes.new.items s (pair ∷ pairs_in scopes.old.items outer)) }
{
    let scope = with_pair(alloc, pair, pairs_of(scopes, outer))?;
    let number = scopes.len();
    scopes.push(scope)?;
    Ok(number)
}

// The scope in which a name stands for itself.
fn hide(terms: &Terms, scopes: &mut Vec<Scope>, scope: usize, name: u32) -> Result<usize, NoMemory>
    requires scope { scope < length scopes.old.items }
    requires name { name < length terms.now }
    requires scopes { AreScopes (length terms.now) scopes.old.items }
    ensures enters { IfOk result (λ s. Enters scopes.old.items scopes.new.items s (pairs_in scopes.new.items s)) }
    ensures below { IfOk result (λ s. AreScopes (length terms.now) scopes.new.items) }
    ensures value { IfOk result (λ s. env_in terms.now scopes.new.items s ≡ hidden (found (env_in terms.now scopes.old.items scope) (tree_at terms.now name)) (tree_at terms.now name) (env_in terms.now scopes.old.items scope)) }
{
    if !is_hidden(terms, pairs_of(scopes, scope), name) {
        return Ok(scope);
    }
    let inner = enter(scopes, terms.allocator(), scope, (name, name))?;
    Ok(inner)
}

// ---- what is there already

// What a term became in a scope, if it was made there and no name with it.
fn remembered(made: &HashMap<(u32, usize), u32>, t: u32, scope: usize) -> Option<u32>
    ensures { result ≡ get same_place made.now (t, scope) }
{
    made.get(&(t, scope)).copied()
}

fn is_name_at(terms: &Terms, t: u32) -> bool
    requires { t < length terms.now }
    ensures name { result ≡ true → IsName (tree_at terms.now t) }
    ensures other { result ≡ false → is_name (symbol_at terms.now t) ≡ false }
{
    match terms.node(t) {
        Node::IntName(_, _) | Node::ValName(_, _) => true,
        _ => false,
    }
}

// A name, or what it stands for.
fn name_or(terms: &Terms, pairs: &[(u32, u32)], t: u32) -> u32
    requires within { t < length terms.now }
    requires pairs { AreBelow (length terms.now) pairs.now }
    ensures below { result < length terms.now }
    ensures value { tree_at terms.now result ≡ found_or (found (seen_pairs (tree_at terms.now) pairs.now) (tree_at terms.now t)) (tree_at terms.now t) }
{
    match found(terms, pairs, t) {
        Some(r) => r,
        None => t,
    }
}

// What a term became in a scope, if it was made there already or is a name.
fn image_at(terms: &Terms, walk: &Walk, t: u32, scope: usize) -> Option<u32>
    requires within { t < length terms.now }
    requires scope { scope < length walk.now.scopes.items }
    requires fits { Fits terms.now walk.now }
    ensures below { IfSome result (λ r. r < length terms.now) }
    ensures still { (u : Term) → Remembers terms.now walk.now.scopes.items u (get same_place walk.now.made) → IfSome result (IsStill terms.now u (tree_at terms.now t) (env_in terms.now walk.now.scopes.items scope)) }
    ensures other { IfNone result (is_name (symbol_at terms.now t) ≡ false) }
{
    match remembered(&walk.made, t, scope) {
        Some(image) => Some(image),
        None => {
            if is_name_at(terms, t) {
                Some(name_or(terms, pairs_of(&walk.scopes, scope), t))
            } else {
                None
            }
        }
    }
}

// ---- quantifiers

// The Int name with a word and a number.
fn name_of(terms: &mut Terms, word: Name, number: u128) -> Result<u32, NoMemory>
    ensures value { IfOk result (λ r. tree_at terms.new r ≡ leaf (int_name word number)) }
    ensures within { IfOk result (λ r. r < length terms.new) }
    ensures kept { Kept terms.old terms.new }
{
    terms.intern(Node::IntName(word, number))
}

// The number of a new name.
fn fresh_number(walk: &mut Walk) -> Result<u128, NoMemory>
    ensures waiting { walk.new.waiting ≡ walk.old.waiting }
    ensures scopes { walk.new.scopes ≡ walk.old.scopes }
    ensures made { walk.new.made ≡ walk.old.made }
    ensures value { (base : ℕ) (ns : List ℕ) → Counts walk.old.taken ns → length ns ≡ base + walk.old.new_names → IfOk result (λ n. (n ≡ new_number ns) × Counts walk.new.taken (n ∷ ns) × (length (n ∷ ns) ≡ base + walk.new.new_names)) }
{
    let Some(count) = walk.new_names.checked_add(1) else {
        return Err(NoMemory);
    };
    let number = new_number(&mut walk.taken)?;
    walk.new_names = count;
    Ok(number)
}

// A quantifier that binds a new name.
fn renamed(
    terms: &mut Terms,
    walk: &mut Walk,
    scope: usize,
    word: Name,
    number: u128,
) -> Result<(u128, usize), NoMemory>
    requires scope { scope < length walk.old.scopes.items }
    requires fits { Fits terms.old walk.old }
    ensures kept { Kept terms.old terms.new }
    ensures enlarges { IfOk result (λ r. Enlarges terms.new walk.old walk.new r.1) }
    ensures value { (base : ℕ) (ns : List ℕ) → Counts walk.old.taken ns → length ns ≡ base + walk.old.new_names → IfOk result (λ r. Bounds terms.new walk.new base (with_new_name word number (new_number ns) (env_in terms.old walk.old.scopes.items scope) ns) r.0 r.1) }
{
    let alloc = terms.allocator();
    let new = fresh_number(walk)?;
    let name = name_of(terms, word.copy(alloc)?, number)?;
    let image = name_of(terms, word, new)?;
    let inner = enter(&mut walk.scopes, alloc, scope, (name, image))?;
    Ok((new, inner))
}

// A quantifier that keeps its name, which stands for itself in the body.
fn kept(
    terms: &mut Terms,
    walk: &mut Walk,
    scope: usize,
    word: Name,
    number: u128,
) -> Result<(u128, usize), NoMemory>
    requires scope { scope < length walk.old.scopes.items }
    requires fits { Fits terms.old walk.old }
    ensures kept { Kept terms.old terms.new }
    ensures enlarges { IfOk result (λ r. Enlarges terms.new walk.old walk.new r.1) }
    ensures value { (base : ℕ) (ns : List ℕ) → Counts walk.old.taken ns → length ns ≡ base + walk.old.new_names → IfOk result (λ r. Bounds terms.new walk.new base (record { number = number; inner = hidden (found (env_in terms.old walk.old.scopes.items scope) (leaf (int_name word number))) (leaf (int_name word number)) (env_in terms.old walk.old.scopes.items scope); taken = ns }) r.0 r.1) }
{
    let name = name_of(terms, word, number)?;
    let inner = hide(terms, &mut walk.scopes, scope, name)?;
    Ok((number, inner))
}

// The number that a quantifier's name takes, and the scope of its body.
fn bound(
    terms: &mut Terms,
    avoided: &IntNames,
    walk: &mut Walk,
    scope: usize,
    word: Name,
    number: u128,
) -> Result<(u128, usize), NoMemory>
    requires scope { scope < length walk.old.scopes.items }
    requires fits { Fits terms.old walk.old }
    ensures kept { Kept terms.old terms.new }
    ensures enlarges { IfOk result (λ r. Enlarges terms.new walk.old walk.new r.1) }
    ensures value { (u : Term) (base : ℕ) (ns : List ℕ) → Avoids avoided.now u → Counts walk.old.taken ns → length ns ≡ base + walk.old.new_names → IfOk result (λ r. Bounds terms.new walk.new base (bound_by u word number (env_in terms.old walk.old.scopes.items scope) ns) r.0 r.1) }
{
    if is_among(avoided, word.copy(terms.allocator())?, number) {
        renamed(terms, walk, scope, word, number)
    } else {
        kept(terms, walk, scope, word, number)
    }
}

// The word and the number of the name that a node binds.
fn binder(alloc: Global, node: &Node) -> Result<Option<(Name, u128)>, NoMemory>
    ensures { IfOk result (λ o. o ≡ binder_of (plain node.now).symbol) }
{
    match node {
        Node::All(q) => Ok(Some((q.word.copy(alloc)?, q.number))),
        Node::Some(q) => Ok(Some((q.word.copy(alloc)?, q.number))),
        _ => Ok(None),
    }
}

// The number that the name takes which a term binds, if it binds one, and the scope of its body.
fn entered(
    terms: &mut Terms,
    avoided: &IntNames,
    walk: &mut Walk,
    t: u32,
    scope: usize,
) -> Result<(u128, usize), NoMemory>
    requires within { t < length terms.old }
    requires scope { scope < length walk.old.scopes.items }
    requires fits { Fits terms.old walk.old }
    ensures kept { Kept terms.old terms.new }
    ensures enlarges { IfOk result (λ r. Enlarges terms.new walk.old walk.new r.1) }
    ensures value { (u : Term) (base : ℕ) (ns : List ℕ) → Avoids avoided.now u → Counts walk.old.taken ns → length ns ≡ base + walk.old.new_names → IfOk result (λ r. Bounds terms.new walk.new base (entered u (symbol_at terms.old t) (env_in terms.old walk.old.scopes.items scope) ns) r.0 r.1) }
{
    match binder(terms.allocator(), terms.node(t))? {
        Some((word, number)) => bound(terms, avoided, walk, scope, word, number),
        None => Ok((0, scope)),
    }
}

// ---- terms that are gone into

// Goes into a term.
fn opened(
    terms: &mut Terms,
    avoided: &IntNames,
    walk: &mut Walk,
    t: u32,
    scope: usize,
) -> Result<Open, NoMemory>
    requires within { t < length terms.old }
    requires scope { scope < length walk.old.scopes.items }
    requires fits { Fits terms.old walk.old }
    requires name { is_name (symbol_at terms.old t) ≡ false }
    ensures kept { Kept terms.old terms.new }
    ensures enlarges { IfOk result (λ o. Enlarges terms.new walk.old walk.new o.inner) }
    ensures current { IfOk result (λ o. IsOpen terms.new (length walk.new.scopes.items) o) }
    ensures value { (u : Term) (base : ℕ) (ns : List ℕ) → Avoids avoided.now u → Counts walk.old.taken ns → length ns ≡ base + walk.old.new_names → IfOk result (λ o. Opens terms.new walk.new u base o (ask_of (tree_at terms.old t) (env_in terms.old walk.old.scopes.items scope) ns)) }
{
    let alloc = terms.allocator();
    let before = walk.new_names;
    let parts = parts_of(alloc, terms.node(t))?;
    let (number, inner) = entered(terms, avoided, walk, t, scope)?;
    Ok(Open {
        term: t,
        number,
        outer: scope,
        inner,
        before,
        parts,
        images: Vec::new(alloc),
    })
}

// The term of what its parts became.
fn closed(terms: &mut Terms, _scopes: &[Scope], current: &Open) -> Result<u32, NoMemory>
    requires current { IsOpen terms.old (length _scopes.now) current.now }
    requires full { length current.now.images.items ≡ length current.now.parts.items }
    ensures kept { Kept terms.old terms.new }
    ensures within { IfOk result (λ r. r < length terms.new) }
    ensures value { (env : List (Term × Term)) → IfOk result (λ r. tree_at terms.new r ≡ finished (symbol_at terms.old current.now.term) env current.now.number (parts_at (tree_at terms.old) current.now.images.items)) }
{
    let alloc = terms.allocator();
    let node = with_parts(
        alloc,
        terms.node(current.term),
        current.number,
        &current.images,
    )?;
    terms.intern(node)
}

// Notes what a term became where no name was made meanwhile.
fn note(_terms: &Terms, walk: &mut Walk, current: &Open, image: u32) -> Result<(), NoMemory>
    requires within { image < length _terms.now }
    requires current { IsOpen _terms.now (length walk.old.scopes.items) current.now }
    requires made { AreMadeBelow (length _terms.now) (length walk.old.scopes.items) (get same_place walk.old.made) }
    ensures waiting { walk.new.waiting ≡ walk.old.waiting }
    ensures scopes { walk.new.scopes ≡ walk.old.scopes }
    ensures taken { walk.new.taken ≡ walk.old.taken }
    ensures new_names { walk.new.new_names ≡ walk.old.new_names }
    ensures made { OnOk result (AreMadeBelow (length _terms.now) (length walk.old.scopes.items) (get same_place walk.new.made)) }
    ensures remembers { (u : Term) (base : ℕ) (ask : Ask) (now : List ℕ) → answer u ask ≡ put_of (tree_at _terms.now image) now → ask.term ≡ tree_at _terms.now current.now.term → ask.env ≡ env_in _terms.now walk.old.scopes.items current.now.outer → length ask.taken ≡ base + current.now.before → length now ≡ base + walk.old.new_names → Remembers _terms.now walk.old.scopes.items u (get same_place walk.old.made) → OnOk result (Remembers _terms.now walk.old.scopes.items u (get same_place walk.new.made)) }
{
    if current.before != walk.new_names {
        return Ok(());
    }
    walk.made.insert((current.term, current.outer), image)?;
    Ok(())
}

// ---- steps

// Makes the next part of a term, or goes into it.
fn go_on(
    terms: &mut Terms,
    avoided: &IntNames,
    walk: &mut Walk,
    current: Open,
    part: u32,
    scope: usize,
) -> Result<Next, NoMemory>
    requires fits { Fits terms.old walk.old }
    requires current { IsOpen terms.old (length walk.old.scopes.items) current }
    requires more { length current.images.items < length current.parts.items }
    requires part { part ≡ next_of current }
    requires scope { scope ≡ (if nat_lt (length current.images.items) 2 then current.outer else current.inner) }
    ensures kept { Kept terms.old terms.new }
    ensures fits { IfOk result (NextFits terms.new walk.new) }
    ensures leads { (u : Term) (base : ℕ) (first : Ask) → Avoids avoided.now u → GoesOn terms.old walk.old u base first current → IfOk result (Leads terms.new walk.new u base first) }
{
    let mut current = current;
    match image_at(terms, walk, part, scope) {
        Some(image) => {
            current.images.push(image)?;
            Ok(Next::Part(current))
        }
        None => {
            let inside = opened(terms, avoided, walk, part, scope)?;
            walk.waiting.push(current)?;
            Ok(Next::Part(inside))
        }
    }
}

// Hands what was made to the term that waits for it.
fn hand_on(_terms: &Terms, walk: &mut Walk, image: u32) -> Result<Next, NoMemory>
    requires fits { Fits _terms.now walk.old }
    requires within { image < length _terms.now }
    ensures fits { IfOk result (NextFits _terms.now walk.new) }
    ensures leads { (u : Term) (base : ℕ) (first ask : Ask) (now : List ℕ) → Stands _terms.now walk.old u base first ask now → answer u ask ≡ put_of (tree_at _terms.now image) now → IfOk result (Leads _terms.now walk.new u base first) }
{
    match walk.waiting.pop() {
        Some(outer) => {
            let mut outer = outer;
            outer.images.push(image)?;
            Ok(Next::Part(outer))
        }
        None => Ok(Next::Whole(image)),
    }
}

// Makes a term whose parts are made.
fn finish(terms: &mut Terms, walk: &mut Walk, current: &Open) -> Result<Next, NoMemory>
    requires fits { Fits terms.old walk.old }
    requires current { IsOpen terms.old (length walk.old.scopes.items) current.now }
    requires full { length current.now.images.items ≡ length current.now.parts.items }
    ensures kept { Kept terms.old terms.new }
    ensures fits { IfOk result (NextFits terms.new walk.new) }
    ensures leads { (u : Term) (base : ℕ) (first : Ask) → GoesOn terms.old walk.old u base first current.now → IfOk result (Leads terms.new walk.new u base first) }
{
    let image = closed(terms, &walk.scopes, current)?;
    note(terms, walk, current, image)?;
    hand_on(terms, walk, image)
}

// Goes on with a term: makes its next part or goes into that; where all its parts are made, makes the term, which is a part
// of the one that waits.
fn step(
    terms: &mut Terms,
    avoided: &IntNames,
    walk: &mut Walk,
    current: Open,
) -> Result<Next, NoMemory>
    requires fits { Fits terms.old walk.old }
    requires current { IsOpen terms.old (length walk.old.scopes.items) current }
    ensures kept { Kept terms.old terms.new }
    ensures fits { IfOk result (NextFits terms.new walk.new) }
    ensures leads { (u : Term) (base : ℕ) (first : Ask) → Avoids avoided.now u → GoesOn terms.old walk.old u base first current → IfOk result (Leads terms.new walk.new u base first) }
{
    let k = current.images.len();
    if k < current.parts.len() {
        let part = current.parts[k];
        let scope = if k < 2 { current.outer } else { current.inner };
        go_on(terms, avoided, walk, current, part, scope)
    } else {
        finish(terms, walk, &current)
    }
}

// Goes on until the whole is made.
fn run(terms: &mut Terms, avoided: &IntNames, walk: &mut Walk, first: Open) -> Result<u32, NoMemory>
    requires fits { Fits terms.old walk.old }
    requires current { IsOpen terms.old (length walk.old.scopes.items) first }
    ensures kept { Kept terms.old terms.new }
    ensures within { IfOk result (λ r. r < length terms.new) }
    ensures value { (u : Term) (base : ℕ) (ask : Ask) → Avoids avoided.now u → GoesOn terms.old walk.old u base ask first → IfOk result (λ r. tree_at terms.new r ≡ (answer u ask).term) }
{
    let mut current = first;
    for _turn in 0..u64::MAX {
        match step(terms, avoided, walk, current)? {
            Next::Part(next) => current = next,
            Next::Whole(image) => return Ok(image),
        }
    }
    Err(NoMemory)
}

// A walk that begins with this scope.
fn begun(alloc: Global, scope: Scope, taken: Taken) -> Result<Walk, NoMemory>
    ensures { IfOk result (Begins scope taken) }
{
    let mut scopes = Vec::new(alloc);
    scopes.push(scope)?;
    Ok(Walk {
        waiting: Vec::new(alloc),
        scopes,
        made: HashMap::new(alloc),
        taken,
        new_names: 0,
    })
}

/// The term where names stand for others as in this scope, and no quantifier binds one of the names to be avoided. It works
/// on a list of terms that were gone into. A term in which no quantifier is renamed is made once in each scope; another as
/// often as it stands in the whole.
pub fn put(
    terms: &mut Terms,
    avoided: &IntNames,
    scope: Scope,
    taken: Taken,
    root: u32,
) -> Result<u32, NoMemory>
    requires within { root < length terms.old }
    requires scope { AreBelow (length terms.old) scope.pairs.items }
    ensures kept { Kept terms.old terms.new }
    ensures within { IfOk result (λ r. r < length terms.new) }
    ensures value { (u : Term) (ns : List ℕ) → Avoids avoided.now u → Counts taken ns → IfOk result (λ r. tree_at terms.new r ≡ (put u (tree_at terms.old root) (seen_pairs (tree_at terms.old) scope.pairs.items) ns).term) }
{
    let mut walk = begun(terms.allocator(), scope, taken)?;
    match image_at(terms, &walk, root, 0) {
        Some(image) => Ok(image),
        None => {
            let current = opened(terms, avoided, &mut walk, root, 0)?;
            run(terms, avoided, &mut walk, current)
        }
    }
}
