//! The walk through a node.
ghost use Rattle.std.specs.Prelude.{◌≡◌, ◌<◌, ◌++◌, [], ◌∷◌, false, true, Some, nat_eq, length, map, slice_get, IfOk, IfSome, OnOk};
ghost use Rattle.std.specs.HashSet.{contains};
ghost use Rattle.wy_search_spec.specs.wy_check_spec.judge.Node.{has_formula};
ghost use Rattle.wy_check_splits.specs.wy_check_nodes.Seen.{IsBare, IsBranch, seen_branch, seen_formula};
ghost use Rattle.wy_search_spec.specs.Standing as search;
ghost use Rattle.wy_cong.specs.Begun.{AreBegun, BeginListed, BeginsMet, BeginsOne};
ghost use Rattle.wy_cong.specs.Heads.{BeginsWith};
ghost use Rattle.wy_cong.specs.Marks.{is_any_bound, listed_unless};
ghost use Rattle.wy_cong.specs.Walk.{AreListed, AreTasks, IsWalk, leads, leads_from, leads_with, list_of, next_tasks, of_literals, of_pending, tasks_of, visits, with_next};
ghost use Rattle.wy_cong.specs.declared.task.Task.TheVariants.{Visit, Bind, Leave};
ghost use Rattle.wy_term.specs.Nodes.{plain, tree_at};
ghost use Rattle.wy_term.specs.Scope.{free_names};

use crate::caught::is_caught;
use crate::task::Task;
use std::collections::{HashSet, VecDeque};
use wy_check_splits::{Branch, add_pending, bare, nth_literal, pending_at};
use wy_data::Name;
use wy_items::few::{SignedSet, no_signed};
use wy_term::{NoMemory, Node, Quantifier, Terms};

// What is listed, the quantifiers around, outermost first, whether one was met, the terms with parts that were first met
// outside quantifiers, and what is still to be done, next first. Where little is listed, it is looked through. Until a quantifier
// is met, what was met is what is listed, and isn't noted besides.
#[derive(Drop)]
struct Walk {
    found: SignedSet,
    around: Vec<u32>,
    quantified: bool,
    begun: HashSet<u32>,
    tasks: VecDeque<Task>,
}

// Whether a node has no parts, as a number or a name.
fn is_leaf(node: &Node) -> bool
    ensures { result ≡ true → (plain node.now).parts ≡ [] }
{
    match node {
        Node::Number(_) | Node::IntName(_, _) | Node::ValName(_, _) => true,
        Node::Null | Node::Bool(_) => true,
        _ => false,
    }
}

// Whether a term is still to be gone into: it isn't where it was met outside quantifiers before. No term stands in itself, so
// all that stands in it has been met since, and what stands in it without bound names is listed, whatever is around it here.
fn begin(begun: &mut HashSet<u32>, outside: bool, k: u32, node: &Node) -> Result<bool, NoMemory>
    ensures known { IfOk result (λ more. more ≡ false → contains nat_eq begun.old k ≡ true) }
    ensures begun { OnOk result (BeginsOne (contains nat_eq begun.old) (contains nat_eq begun.new) outside k) }
{
    if is_leaf(node) {
        return Ok(true);
    }
    if outside {
        return Ok(begun.insert(k)?);
    }
    Ok(!begun.contains(&k))
}

// The term as it stands in a node: a denial by the formula that it denies.
fn bare_form(terms: &Terms, k: u32) -> (u32, bool)
    requires { k < length terms.now }
    ensures value { seen_formula (tree_at terms.now) result ≡ tree_at terms.now k }
    ensures below { result.0 < length terms.now }
    ensures bare { IsBare (tree_at terms.now) result }
{
    match terms.node(k) {
        Node::Not(f) => (*f, false),
        _ => (k, true),
    }
}

// Lists a term. Whether it is new there.
fn list_first(terms: &Terms, found: &mut SignedSet, k: u32, holds: bool) -> Result<bool, NoMemory>
    requires term { k < length terms.now }
    requires listed { AreListed terms.now found.old }
    requires bare { IsBare (tree_at terms.now) (k, holds) }
    ensures value { OnOk result (map (seen_formula (tree_at terms.now)) found.new.keys.items ≡ listed_unless false (map (seen_formula (tree_at terms.now)) found.old.keys.items) (seen_formula (tree_at terms.now) (k, holds))) }
    ensures known { IfOk result (λ more. more ≡ false → has_formula (map (seen_formula (tree_at terms.now)) found.old.keys.items) (seen_formula (tree_at terms.now) (k, holds)) ≡ true) }
    ensures listed { OnOk result (AreListed terms.now found.new) }
{
    terms.one_number_for_each_term();
    Ok(wy_items::few::list(found, k, holds)?)
}

// Lists a term, unless it is listed or one of its free names is bound here.
fn list(terms: &Terms, walk: &mut Walk, k: u32, holds: bool) -> Result<(), NoMemory>
    requires term { k < length terms.now }
    requires walk { IsWalk terms.now walk.old }
    requires bare { IsBare (tree_at terms.now) (k, holds) }
    ensures value { OnOk result (list_of (tree_at terms.now) walk.new ≡ listed_unless (is_any_bound (map (tree_at terms.now) walk.old.around.items) (free_names (seen_formula (tree_at terms.now) (k, holds)))) (list_of (tree_at terms.now) walk.old) (seen_formula (tree_at terms.now) (k, holds))) }
    ensures around { walk.new.around ≡ walk.old.around }
    ensures quantified { walk.new.quantified ≡ walk.old.quantified }
    ensures begun { walk.new.begun ≡ walk.old.begun }
    ensures tasks { walk.new.tasks ≡ walk.old.tasks }
    ensures walk { OnOk result (IsWalk terms.now walk.new) }
{
    if is_caught(terms, &walk.around, k)? {
        return Ok(());
    }
    list_first(terms, &mut walk.found, k, holds)?;
    Ok(())
}

// This term next.
fn with_one(tasks: &mut VecDeque<Task>, s: u32) -> Result<(), NoMemory>
    ensures { OnOk result (tasks.new.items ≡ visits (s ∷ []) ++ tasks.old.items) }
{
    tasks.push_front(Task::Visit(s, true))?;
    Ok(())
}

// The first of these terms at once, and then the second.
fn first_of_two(tasks: &mut VecDeque<Task>, s: u32, t: u32) -> Result<Option<u32>, NoMemory>
    ensures value { IfOk result (λ next. with_next next tasks.new.items ≡ visits (s ∷ t ∷ []) ++ tasks.old.items) }
    ensures first { IfOk result (λ next. IfSome next (BeginsWith (s ∷ t ∷ []))) }
{
    tasks.push_front(Task::Visit(t, true))?;
    Ok(Some(s))
}

// The first of these terms at once, and then the others.
fn first_of_three(
    tasks: &mut VecDeque<Task>,
    s: u32,
    t: u32,
    u: u32,
) -> Result<Option<u32>, NoMemory>
    ensures value { IfOk result (λ next. with_next next tasks.new.items ≡ visits (s ∷ t ∷ u ∷ []) ++ tasks.old.items) }
    ensures first { IfOk result (λ next. IfSome next (BeginsWith (s ∷ t ∷ u ∷ []))) }
{
    tasks.push_front(Task::Visit(u, true))?;
    tasks.push_front(Task::Visit(t, true))?;
    Ok(Some(s))
}

// These terms next.
fn with_all(tasks: &mut VecDeque<Task>, parts: &[u32]) -> Result<(), NoMemory>
    ensures { OnOk result (tasks.new.items ≡ visits parts.now ++ tasks.old.items) }
{
    let mut left = parts.len();
    while left > 0 {
        left -= 1;
        tasks.push_front(Task::Visit(parts[left], true))?;
    }
    Ok(())
}

// The first of these terms at once, if there is one, and then the others.
fn first_of_all(tasks: &mut VecDeque<Task>, parts: &[u32]) -> Result<Option<u32>, NoMemory>
    ensures value { IfOk result (λ next. with_next next tasks.new.items ≡ visits parts.now ++ tasks.old.items) }
    ensures first { IfOk result (λ next. IfSome next (BeginsWith parts.now)) }
{
    let Some((first, others)) = parts.split_first() else {
        return Ok(None);
    };
    with_all(tasks, others)?;
    Ok(Some(*first))
}

// The terms in these fields next.
fn with_fields(tasks: &mut VecDeque<Task>, fields: &[(Name, u32)]) -> Result<(), NoMemory>
    ensures { OnOk result (tasks.new.items ≡ visits (map (λ p. p.1) fields.now) ++ tasks.old.items) }
{
    let mut left = fields.len();
    while left > 0 {
        left -= 1;
        tasks.push_front(Task::Visit(fields[left].1, true))?;
    }
    Ok(())
}

// The bounds of a quantifier next, and its body, in which its name is bound.
fn with_range(tasks: &mut VecDeque<Task>, q: u32, by: &Quantifier) -> Result<(), NoMemory>
    ensures { OnOk result (tasks.new.items ≡ tasks_of q (by.now.from ∷ by.now.below ∷ by.now.body ∷ []) ++ tasks.old.items) }
{
    tasks.push_front(Task::Leave)?;
    tasks.push_front(Task::Visit(by.body, true))?;
    tasks.push_front(Task::Bind(q))?;
    tasks.push_front(Task::Visit(by.below, true))?;
    tasks.push_front(Task::Visit(by.from, true))?;
    Ok(())
}

// What stands in a term next, by its node: the part that it gives at once, if it gives one, and then the others.
fn put_others(tasks: &mut VecDeque<Task>, k: u32, node: &Node) -> Result<Option<u32>, NoMemory>
    ensures value { IfOk result (λ next. with_next next tasks.new.items ≡ next_tasks k (plain node.now) ++ tasks.old.items) }
    ensures first { IfOk result (λ next. IfSome next (BeginsWith (plain node.now).parts)) }
{
    match node {
        Node::Number(_) | Node::IntName(_, _) | Node::ValName(_, _) => Ok(None),
        Node::Null | Node::Bool(_) => Ok(None),
        Node::Neg(s) | Node::Num(s) | Node::Len(s) => Ok(Some(*s)),
        Node::Int(s) | Node::Truth(s) | Node::Field(s, _) => Ok(Some(*s)),
        Node::Kind(s, _) | Node::In(s, _) | Node::Not(s) => Ok(Some(*s)),
        Node::Add(s, t) | Node::Sub(s, t) | Node::Mul(s, t) => first_of_two(tasks, *s, *t),
        Node::Div(s, t) | Node::Mod(s, t) | Node::Repeat(s, t) => first_of_two(tasks, *s, *t),
        Node::Get(s, t) | Node::SetField(s, _, t) => first_of_two(tasks, *s, *t),
        Node::AtMost(s, t) | Node::Equal(s, t) => first_of_two(tasks, *s, *t),
        Node::Update(s, t, u) => first_of_three(tasks, *s, *t, *u),
        Node::Array(ks) | Node::And(ks) | Node::Or(ks) => first_of_all(tasks, ks),
        Node::Record(fields) => {
            with_fields(tasks, fields)?;
            Ok(None)
        }
        Node::All(by) | Node::Some(by) => {
            with_range(tasks, k, by)?;
            Ok(None)
        }
    }
}

// What stands in a term next, by its node.
fn put_parts(tasks: &mut VecDeque<Task>, k: u32, node: &Node) -> Result<(), NoMemory>
    ensures { OnOk result (tasks.new.items ≡ next_tasks k (plain node.now) ++ tasks.old.items) }
{
    match put_others(tasks, k, node)? {
        Some(part) => with_one(tasks, part),
        None => Ok(()),
    }
}

// Lists a term, where no quantifier was met before, and puts its parts next, but for the part that it gives, which comes before
// them: unless it is listed, since it was begun then. A denial is listed before it is begun.
fn enter(terms: &Terms, walk: &mut Walk, k: u32) -> Result<Option<u32>, NoMemory>
    requires term { k < length terms.now }
    requires walk { IsWalk terms.now walk.old }
    requires begun { AreBegun (tree_at terms.now) walk.old (Visit k true ∷ walk.old.tasks.items) }
    requires quantified { walk.old.quantified ≡ false }
    ensures value { IfOk result (λ next. leads_with (tree_at terms.now) walk.new next ≡ leads_from (tree_at terms.now) walk.old (Visit k true)) }
    ensures walk { OnOk result (IsWalk terms.now walk.new) }
    ensures begun { IfOk result (λ next. AreBegun (tree_at terms.now) walk.new (with_next next walk.new.tasks.items)) }
    ensures lower { IfOk result (λ next. IfSome next (λ s. s < k)) }
    ensures quantified { walk.new.quantified ≡ walk.old.quantified }
{
    let node = terms.node(k);
    let (f, holds) = bare_form(terms, k);
    let more = list_first(terms, &mut walk.found, f, holds)?;
    let known = holds && !more;
    if known {
        return Ok(None);
    }
    put_others(&mut walk.tasks, k, node)
}

// Lists a term, and goes into its parts, where no quantifier was met before: a first part is gone into at once, and so on.
fn visit_first(terms: &Terms, walk: &mut Walk, k: u32) -> Result<(), NoMemory>
    requires term { k < length terms.now }
    requires walk { IsWalk terms.now walk.old }
    requires begun { AreBegun (tree_at terms.now) walk.old (Visit k true ∷ walk.old.tasks.items) }
    requires quantified { walk.old.quantified ≡ false }
    ensures value { OnOk result (leads (tree_at terms.now) walk.new ≡ leads_from (tree_at terms.now) walk.old (Visit k true)) }
    ensures walk { OnOk result (IsWalk terms.now walk.new) }
    ensures begun { OnOk result (AreBegun (tree_at terms.now) walk.new walk.new.tasks.items) }
{
    let mut next = Some(k);
    while let Some(part) = next {
        next = enter(terms, walk, part)?;
    }
    Ok(())
}

// So where one was met: unless that was begun before outside quantifiers.
fn visit_again(terms: &Terms, walk: &mut Walk, k: u32) -> Result<(), NoMemory>
    requires term { k < length terms.now }
    requires walk { IsWalk terms.now walk.old }
    requires begun { AreBegun (tree_at terms.now) walk.old (Visit k true ∷ walk.old.tasks.items) }
    requires quantified { walk.old.quantified ≡ true }
    ensures value { OnOk result (leads (tree_at terms.now) walk.new ≡ leads_from (tree_at terms.now) walk.old (Visit k true)) }
    ensures walk { OnOk result (IsWalk terms.now walk.new) }
    ensures begun { OnOk result (AreBegun (tree_at terms.now) walk.new walk.new.tasks.items) }
{
    let node = terms.node(k);
    let outside = walk.around.is_empty();
    let more = begin(&mut walk.begun, outside, k, node)?;
    if !more {
        return Ok(());
    }
    let (f, holds) = bare_form(terms, k);
    list(terms, walk, f, holds)?;
    put_parts(&mut walk.tasks, k, node)
}

// Lists a term, and goes into its parts, unless that was begun before.
fn visit(terms: &Terms, walk: &mut Walk, k: u32) -> Result<(), NoMemory>
    requires term { k < length terms.now }
    requires walk { IsWalk terms.now walk.old }
    requires begun { AreBegun (tree_at terms.now) walk.old (Visit k true ∷ walk.old.tasks.items) }
    ensures value { OnOk result (leads (tree_at terms.now) walk.new ≡ leads_from (tree_at terms.now) walk.old (Visit k true)) }
    ensures walk { OnOk result (IsWalk terms.now walk.new) }
    ensures begun { OnOk result (AreBegun (tree_at terms.now) walk.new walk.new.tasks.items) }
{
    if walk.quantified {
        visit_again(terms, walk, k)
    } else {
        visit_first(terms, walk, k)
    }
}

// Lists the denial of a formula, and goes into the formula.
fn visit_denied(terms: &Terms, walk: &mut Walk, k: u32) -> Result<(), NoMemory>
    requires term { k < length terms.now }
    requires walk { IsWalk terms.now walk.old }
    requires begun { AreBegun (tree_at terms.now) walk.old (Visit k false ∷ walk.old.tasks.items) }
    ensures value { OnOk result (leads (tree_at terms.now) walk.new ≡ leads_from (tree_at terms.now) walk.old (Visit k false)) }
    ensures walk { OnOk result (IsWalk terms.now walk.new) }
    ensures begun { OnOk result (AreBegun (tree_at terms.now) walk.new walk.new.tasks.items) }
{
    list(terms, walk, k, false)?;
    walk.tasks.push_front(Task::Visit(k, true))?;
    Ok(())
}

// The atoms of the literals are to be visited, in order, with room for so many tasks.
fn literal_tasks(terms: &Terms, branch: &Branch, room: usize) -> Result<VecDeque<Task>, NoMemory>
    requires { IsBranch terms.now branch.now }
    ensures value { IfOk result (λ ts. ts.items ≡ of_literals branch.now.literals.keys) }
{
    let mut tasks = VecDeque::with_capacity(terms.allocator(), room)?;
    for i in 0..branch.literals.len() {
        let (a, _) = nth_literal(terms, branch, i);
        tasks.push_back(Task::Visit(a, true))?;
    }
    Ok(tasks)
}

// All that is to be done at first: the literals in order, and then the pending formulas, with room for so many tasks.
fn first_tasks(terms: &Terms, branch: &Branch, room: usize) -> Result<VecDeque<Task>, NoMemory>
    requires { IsBranch terms.now branch.now }
    ensures value { IfOk result (λ ts. ts.items ≡ of_literals branch.now.literals.keys ++ of_pending branch.now.pending.keys) }
{
    let mut tasks = literal_tasks(terms, branch, room)?;
    for i in 0..branch.pending.len() {
        let (f, holds) = pending_at(branch, i);
        tasks.push_back(Task::Visit(f, holds))?;
    }
    Ok(tasks)
}

// Room for what the walk begins with, and as much again: most literals and formulas have a part at least.
fn first_room(branch: &Branch) -> usize {
    let count = branch.literals.len().saturating_add(branch.pending.len());
    count.saturating_mul(2)
}

// What is listed is begun, unless it is a denial.
fn begin_held(begun: &mut HashSet<u32>, k: u32, holds: bool) -> Result<(), NoMemory>
    ensures { OnOk result (BeginsOne (contains nat_eq begun.old) (contains nat_eq begun.new) holds k) }
{
    if !holds {
        return Ok(());
    }
    begun.insert(k)?;
    Ok(())
}

/// What is listed at a place from 0, in constant time.
pub fn listed_at(found: &SignedSet, i: usize) -> (u32, bool)
    requires { i < length found.now.keys.items }
    ensures { slice_get found.now.keys.items i ≡ Some result }
{
    found.keys[i]
}

// So all that is listed.
fn begin_listed(begun: &mut HashSet<u32>, found: &SignedSet) -> Result<(), NoMemory>
    ensures { OnOk result (BeginListed (contains nat_eq begun.old) (contains nat_eq begun.new) found.now.keys.items) }
{
    for i in 0..found.keys.len() {
        let (k, holds) = listed_at(found, i);
        begin_held(begun, k, holds)?;
    }
    Ok(())
}

// A quantifier is met: where it is the first, what was begun before is noted.
fn meet(walk: &mut Walk) -> Result<(), NoMemory>
    ensures found { walk.new.found ≡ walk.old.found }
    ensures around { walk.new.around ≡ walk.old.around }
    ensures tasks { walk.new.tasks ≡ walk.old.tasks }
    ensures quantified { OnOk result (walk.new.quantified ≡ true) }
    ensures begun { OnOk result (BeginsMet walk.old.quantified (contains nat_eq walk.old.begun) (contains nat_eq walk.new.begun) walk.old.found.keys.items) }
{
    if walk.quantified {
        return Ok(());
    }
    begin_listed(&mut walk.begun, &walk.found)?;
    walk.quantified = true;
    Ok(())
}

// The name of a quantifier is bound in what comes next.
fn bind(terms: &Terms, walk: &mut Walk, q: u32) -> Result<(), NoMemory>
    requires task { q < length terms.now }
    requires walk { IsWalk terms.now walk.old }
    requires begun { AreBegun (tree_at terms.now) walk.old (Bind q ∷ walk.old.tasks.items) }
    ensures value { OnOk result (leads (tree_at terms.now) walk.new ≡ leads_from (tree_at terms.now) walk.old (Bind q)) }
    ensures walk { OnOk result (IsWalk terms.now walk.new) }
    ensures begun { OnOk result (AreBegun (tree_at terms.now) walk.new walk.new.tasks.items) }
{
    meet(walk)?;
    walk.around.push(q)?;
    Ok(())
}

// Does one thing.
fn step(terms: &Terms, walk: &mut Walk, task: Task) -> Result<(), NoMemory>
    requires task { AreTasks (length terms.now) (task ∷ []) }
    requires walk { IsWalk terms.now walk.old }
    requires begun { AreBegun (tree_at terms.now) walk.old (task ∷ walk.old.tasks.items) }
    ensures value { OnOk result (leads (tree_at terms.now) walk.new ≡ leads_from (tree_at terms.now) walk.old task) }
    ensures walk { OnOk result (IsWalk terms.now walk.new) }
    ensures begun { OnOk result (AreBegun (tree_at terms.now) walk.new walk.new.tasks.items) }
{
    match task {
        Task::Visit(k, holds) => {
            if holds {
                visit(terms, walk, k)
            } else {
                visit_denied(terms, walk, k)
            }
        }
        Task::Bind(q) => bind(terms, walk, q),
        Task::Leave => {
            walk.around.pop();
            Ok(())
        }
    }
}

/// The terms and formulas that stand in a node without bound names, those of the literals in order and then those of the
/// pending formulas, a term before its parts, each once.
///
/// Outside quantifiers it goes into each term once, and takes time linear in how many terms they are made of and their parts,
/// each counted once. Below quantifiers it passes over the terms that it met outside before, and goes through the others as
/// trees, where it looks in each term for the name of each quantifier around it.
pub fn listed(terms: &Terms, branch: &Branch) -> Result<SignedSet, NoMemory>
    requires { IsBranch terms.now branch.now }
    ensures value { IfOk result (λ s. map (seen_formula (tree_at terms.now)) s.keys.items ≡ search.standing (seen_branch (tree_at terms.now) branch.now)) }
    ensures listed { IfOk result (AreListed terms.now) }
{
    let room = first_room(branch);
    let mut walk = Walk {
        found: no_signed(terms.allocator(), room)?,
        around: Vec::new(terms.allocator()),
        quantified: false,
        begun: HashSet::with_capacity(terms.allocator(), 0)?,
        tasks: first_tasks(terms, branch, room)?,
    };
    for _turn in 0..u64::MAX {
        match walk.tasks.pop_front() {
            Some(task) => step(terms, &mut walk, task)?,
            None => return Ok(walk.found),
        }
    }
    Err(NoMemory)
}

/// What `listed` lists, as the pending formulas of a node that has no literals. It takes the time of `listed`.
pub fn standing(terms: &Terms, branch: &Branch) -> Result<Branch, NoMemory>
    requires { IsBranch terms.now branch.now }
    ensures value { IfOk result (λ b. (seen_branch (tree_at terms.now) b).pending ≡ search.standing (seen_branch (tree_at terms.now) branch.now)) }
    ensures branch { IfOk result (IsBranch terms.now) }
{
    let found = listed(terms, branch)?;
    let mut made = bare(terms.allocator());
    for i in 0..found.keys.len() {
        let (k, holds) = listed_at(&found, i);
        add_pending(terms, &mut made, k, holds)?;
    }
    Ok(made)
}
