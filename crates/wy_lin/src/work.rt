//! The form of a term, made by a list of tasks in place of recursion.
ghost use Rattle.std.specs.Prelude.{◌≡◌, ◌<◌, ℕ, [], ◌∷◌, length, Some, IfOk};
ghost use Rattle.wy_term.specs.Rewriting.{as_number};
ghost use Rattle.wy_term.specs.Nodes.{tree_at};
ghost use Rattle.wy_term.specs.Term.{Term as Tree, two, mul};
ghost use Rattle.wy_lin.specs.declared.work.Task.TheVariants.{Term};
ghost use Rattle.wy_lin.specs.Linear.{variable_form};
ghost use Rattle.wy_lin.specs.TermForm.{with, form_of};
ghost use Rattle.wy_lin.specs.Seen.{Gives, IsOver, linear_sum, linear_form, seen_sum, seen_form};
ghost use Rattle.wy_lin.specs.Work.{Leads, IsTaskOver, IsWorkOver, AreSumsOver, joined, scaled, seen_sums, outcome, outcome_after, run};

use crate::arithmetic::Factor;
use crate::linear::Form;
use crate::stop::Stop;
use crate::sum::{Sum, form_from, number_sum, plus, variable_sum};
use std::alloc::Global;
use std::collections::VecDeque;
use wy_term::{NoMemory, Node, Terms};

/// What is to be done. Forms lie in a list, the last one made first.
#[derive(Clone, Copy, Debug, PartialEq, Eq)]
pub enum Task {
    /// The form of this term is put in front.
    Term(u32),
    /// The first form goes, and the factor's multiple of it is added to the one behind it.
    Join(Factor),
    /// The first form becomes the factor's multiple of it.
    Multiply(Factor),
}

/// What is to be done, next first, and the forms that were made, last first.
#[derive(Drop)]
pub struct Work {
    pub tasks: VecDeque<Task>,
    pub forms: VecDeque<Sum>,
}

/// A form of terms, and a multiple of another.
pub fn with_form(terms: &Terms, f: Sum, m: Factor, g: &Form) -> Result<Sum, Stop>
    requires first { IsOver (length terms.now) (linear_sum f) }
    requires second { IsOver (length terms.now) (linear_form g.now) }
    ensures gives { Gives (seen_sum (tree_at terms.now)) result (with (seen_sum (tree_at terms.now) f) m (seen_form (tree_at terms.now) g.now)) }
    ensures below { IfOk result (λ s. IsOver (length terms.now) (linear_sum s)) }
{
    terms.one_number_for_each_term();
    plus(f, m, g)
}

// In the place of the first two forms: the second one, and a multiple of the first one more.
fn join(
    alloc: Global,
    terms: &Terms,
    forms: VecDeque<Sum>,
    m: Factor,
) -> Result<VecDeque<Sum>, Stop>
    requires forms { AreSumsOver (length terms.now) forms.items }
    ensures gives { Gives (λ fs. seen_sums (tree_at terms.now) fs.items) result (joined m (seen_sums (tree_at terms.now) forms.items)) }
    ensures below { IfOk result (λ fs. AreSumsOver (length terms.now) fs.items) }
{
    let mut forms = forms;
    let Some(g) = forms.pop_front() else {
        return Err(Stop::Undefined);
    };
    let Some(f) = forms.pop_front() else {
        return Err(Stop::Undefined);
    };
    let added = form_from(alloc, &g)?;
    match with_form(terms, f, m, &added) {
        Ok(h) => {
            forms.push_front(h)?;
            Ok(forms)
        }
        Err(stop) => Err(stop),
    }
}

// In the place of the first form: a multiple of it.
fn multiply(
    alloc: Global,
    terms: &Terms,
    forms: VecDeque<Sum>,
    m: Factor,
) -> Result<VecDeque<Sum>, Stop>
    requires forms { AreSumsOver (length terms.now) forms.items }
    ensures gives { Gives (λ fs. seen_sums (tree_at terms.now) fs.items) result (scaled m (seen_sums (tree_at terms.now) forms.items)) }
    ensures below { IfOk result (λ fs. AreSumsOver (length terms.now) fs.items) }
{
    let mut forms = forms;
    let Some(g) = forms.pop_front() else {
        return Err(Stop::Undefined);
    };
    let multiplied = form_from(alloc, &g)?;
    match with_form(terms, number_sum(alloc, 0), m, &multiplied) {
        Ok(h) => {
            forms.push_front(h)?;
            Ok(forms)
        }
        Err(stop) => Err(stop),
    }
}

// One form more in front.
fn with_sum(work: Work, sum: Sum) -> Result<Work, NoMemory>
    ensures tasks { IfOk result (λ w. w.tasks.items ≡ work.tasks.items) }
    ensures forms { IfOk result (λ w. w.forms.items ≡ sum ∷ work.forms.items) }
{
    let mut forms = work.forms;
    forms.push_front(sum)?;
    Ok(Work {
        tasks: work.tasks,
        forms,
    })
}

// A term, and then a task, to be done first.
fn with_one(work: Work, s: u32, task: Task) -> Result<Work, NoMemory>
    ensures tasks { IfOk result (λ w. w.tasks.items ≡ Term s ∷ task ∷ work.tasks.items) }
    ensures forms { IfOk result (λ w. w.forms.items ≡ work.forms.items) }
{
    let mut tasks = work.tasks;
    tasks.push_front(task)?;
    tasks.push_front(Task::Term(s))?;
    Ok(Work {
        tasks,
        forms: work.forms,
    })
}

// Two terms, and then a task, to be done first.
fn with_two(work: Work, s: u32, t: u32, task: Task) -> Result<Work, NoMemory>
    ensures tasks { IfOk result (λ w. w.tasks.items ≡ Term s ∷ Term t ∷ task ∷ work.tasks.items) }
    ensures forms { IfOk result (λ w. w.forms.items ≡ work.forms.items) }
{
    match with_one(work, t, task) {
        Ok(work) => {
            let mut tasks = work.tasks;
            tasks.push_front(Task::Term(s))?;
            Ok(Work {
                tasks,
                forms: work.forms,
            })
        }
        Err(e) => Err(e),
    }
}

// The number that a term is, if it is one.
fn number_at(terms: &Terms, t: u32) -> Option<i128>
    requires { t < length terms.now }
    ensures { result ≡ as_number (tree_at terms.now t) }
{
    match terms.node(t) {
        Node::Number(number) => Some(*number),
        _ => None,
    }
}

// A term that is a variable.
fn take_variable(alloc: Global, terms: &Terms, work: Work, t: u32) -> Result<Work, Stop>
    requires term { t < length terms.now }
    requires work { IsWorkOver (length terms.now) work }
    requires variable { form_of (tree_at terms.now t) ≡ Some (variable_form (tree_at terms.now t)) }
    ensures leads { Leads (tree_at terms.now) result (outcome_after (tree_at terms.now) (Term t) work) }
    ensures below { IfOk result (IsWorkOver (length terms.now)) }
{
    let sum = variable_sum(alloc, t)?;
    Ok(with_sum(work, sum)?)
}

// A product: a multiple of a factor where the other one is a number, else a variable.
fn take_product(
    alloc: Global,
    terms: &Terms,
    work: Work,
    t: u32,
    s: u32,
    u: u32,
) -> Result<Work, Stop>
    requires term { t < length terms.now }
    requires first { s < length terms.now }
    requires second { u < length terms.now }
    requires tree { tree_at terms.now t ≡ two mul (tree_at terms.now s) (tree_at terms.now u) }
    requires work { IsWorkOver (length terms.now) work }
    ensures leads { Leads (tree_at terms.now) result (outcome_after (tree_at terms.now) (Term t) work) }
    ensures below { IfOk result (IsWorkOver (length terms.now)) }
{
    match number_at(terms, s) {
        Some(c) => Ok(with_one(work, u, Task::Multiply(Factor::Scale(c)))?),
        None => match number_at(terms, u) {
            Some(c) => Ok(with_one(work, s, Task::Multiply(Factor::Scale(c)))?),
            None => take_variable(alloc, terms, work, t),
        },
    }
}

// A term: its form is made at once, or its parts are to be done first.
fn take_term(alloc: Global, terms: &Terms, work: Work, t: u32) -> Result<Work, Stop>
    requires term { t < length terms.now }
    requires work { IsWorkOver (length terms.now) work }
    ensures leads { Leads (tree_at terms.now) result (outcome_after (tree_at terms.now) (Term t) work) }
    ensures below { IfOk result (IsWorkOver (length terms.now)) }
{
    match terms.node(t) {
        Node::Number(z) => Ok(with_sum(work, number_sum(alloc, *z))?),
        Node::Add(s, u) => Ok(with_two(work, *s, *u, Task::Join(Factor::Times(1)))?),
        Node::Sub(s, u) => Ok(with_two(work, *s, *u, Task::Join(Factor::Minus))?),
        Node::Neg(s) => Ok(with_one(work, *s, Task::Multiply(Factor::Minus))?),
        Node::Mul(s, u) => take_product(alloc, terms, work, t, *s, *u),
        _ => take_variable(alloc, terms, work, t),
    }
}

// One task done.
fn turn(alloc: Global, terms: &Terms, work: Work, task: Task) -> Result<Work, Stop>
    requires task { IsTaskOver (length terms.now) task }
    requires work { IsWorkOver (length terms.now) work }
    ensures leads { Leads (tree_at terms.now) result (outcome_after (tree_at terms.now) task work) }
    ensures below { IfOk result (IsWorkOver (length terms.now)) }
{
    match task {
        Task::Term(t) => take_term(alloc, terms, work, t),
        Task::Join(m) => match join(alloc, terms, work.forms, m) {
            Ok(forms) => Ok(Work {
                tasks: work.tasks,
                forms,
            }),
            Err(stop) => Err(stop),
        },
        Task::Multiply(m) => match multiply(alloc, terms, work.forms, m) {
            Ok(forms) => Ok(Work {
                tasks: work.tasks,
                forms,
            }),
            Err(stop) => Err(stop),
        },
    }
}

// The form that is left where nothing is to be done any more.
#[tactic(auto, using(crate::proofs::WorkLemmas::ended, crate::proofs::WorkLemmas::first_over))]
fn last_form(work: Work) -> Result<Sum, Stop>
    requires { work.tasks.items ≡ [] }
    ensures gives { (at : ℕ → Tree) (t : ℕ) → outcome at work ≡ run at (Term t ∷ []) [] → Gives (seen_sum at) result (form_of (at t)) }
    ensures below { (n : ℕ) → AreSumsOver n work.forms.items → IfOk result (λ s. IsOver n (linear_sum s)) }
{
    let mut forms = work.forms;
    match forms.pop_front() {
        Some(form) => Ok(form),
        None => Err(Stop::NoMemory),
    }
}

// The form of a term is all that is to be done.
fn first_work(alloc: Global, t: u32) -> Result<Work, NoMemory>
    ensures tasks { IfOk result (λ w. w.tasks.items ≡ Term t ∷ []) }
    ensures forms { IfOk result (λ w. w.forms.items ≡ []) }
{
    let mut tasks = VecDeque::new(alloc);
    tasks.push_front(Task::Term(t))?;
    Ok(Work {
        tasks,
        forms: VecDeque::new(alloc),
    })
}

/// The form of an Int term. It works on a list of tasks, and takes time linear in the size of the term as a tree and in
/// the parts of the forms of all right sides, factors and opposites in it.
pub fn sum_of_term(alloc: Global, terms: &Terms, t: u32) -> Result<Sum, Stop>
    requires { t < length terms.now }
    ensures gives { Gives (seen_sum (tree_at terms.now)) result (form_of (tree_at terms.now t)) }
    ensures below { IfOk result (λ s. IsOver (length terms.now) (linear_sum s)) }
{
    let mut work = first_work(alloc, t)?;
    for _turn in 0..u64::MAX {
        match work.tasks.pop_front() {
            Some(task) => {
                work = turn(alloc, terms, work, task)?;
            }
            None => return last_form(work),
        }
    }
    Err(Stop::NoMemory)
}
