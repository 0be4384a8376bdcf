//! What stands for a thing that is to be read, by the front of the text.
ghost use Rattle.std.specs.Prelude.{◌≡◌, ℕ, [], ◌∷◌, ◌++◌, map, None, Some, IfOk, IfSome, MatchOption};
ghost use Rattle.wy_term.specs.Term as term;
ghost use Rattle.wy_term.specs.Sorts.{int_sort, val_sort, formula_sort};
ghost use Rattle.wy_term_text.specs.spell.Grammar as grammar;
ghost use Rattle.wy_term_text.specs.spell.Grammar.{one_of, two_of, bounds};
ghost use Rattle.wy_term_text.specs.spell.Todo as todo;
ghost use Rattle.wy_term_text.specs.spell.Todo.{a_term, gap_works, Replaces, Covers, Refuses};
ghost use Rattle.wy_term_text.specs.spell.Heads.{int_works, val_works, formula_works, parted, led_at};
ghost use Rattle.wy_term_text.specs.spell.Fields.{IsFieldRead, IsKindFieldRead, NoField};
ghost use Rattle.wy_term.specs.wy_data.scan.Words.{NoWord};
ghost use Rattle.wy_term_text.specs.spell.View.{seen, series_seen, sort_seen, symbol_of};

use crate::spell::lead::{Class, Lead, begins, blocked, class_of, lead_of};
use crate::spell::work::{Root, Series, Sort, Task};
use std::alloc::Global;
use wy_term::scan::{are_fields, behind, natural, numbered, whole, word};
use wy_term::{Kind, Name, NoMemory};

// What is to be read in its place, and the text that is left; None where nothing can be read.
type Expansion<'a> = Result<Option<(Vec<Task>, &'a [u8])>, NoMemory>;

fn closing(series: Series) -> &'static str
    ensures value { result.now ≡ grammar.closing (series_seen series) }
{
    match series {
        Series::Elements => "]",
        Series::Members => ")",
    }
}

fn between(series: Series) -> &'static str
    ensures value { result.now ≡ grammar.between (series_seen series) }
{
    match series {
        Series::Elements => ", ",
        Series::Members => "; ",
    }
}

fn sort_in(series: Series) -> Sort
    ensures value { sort_seen result ≡ grammar.sort_in (series_seen series) }
{
    match series {
        Series::Elements => Sort::Val,
        Series::Members => Sort::Formula,
    }
}

// ---- lists of what is to be read

fn one(alloc: Global, s: Sort, root: Root, base: usize) -> Result<Vec<Task>, NoMemory>
    ensures value { IfOk result (λ ts. map seen ts.items ≡ gap_works (one_of (sort_seen s)) ++ (todo.root (symbol_of root) base ∷ [])) }
{
    let mut tasks = Vec::new(alloc);
    tasks.push(Task::Term(s))?;
    tasks.push(Task::Word(")"))?;
    tasks.push(Task::Root(root, base))?;
    Ok(tasks)
}

fn two(alloc: Global, s: Sort, t: Sort, root: Root, base: usize) -> Result<Vec<Task>, NoMemory>
    ensures value { IfOk result (λ ts. map seen ts.items ≡ gap_works (two_of (sort_seen s) (sort_seen t)) ++ (todo.root (symbol_of root) base ∷ [])) }
{
    let mut tasks = Vec::new(alloc);
    tasks.push(Task::Term(s))?;
    tasks.push(Task::Word(", "))?;
    tasks.push(Task::Term(t))?;
    tasks.push(Task::Word(")"))?;
    tasks.push(Task::Root(root, base))?;
    Ok(tasks)
}

fn update(alloc: Global, base: usize) -> Result<Vec<Task>, NoMemory>
    ensures value { IfOk result (λ ts. map seen ts.items ≡ parted term.update base) }
{
    let mut tasks = Vec::new(alloc);
    tasks.push(Task::Term(Sort::Val))?;
    tasks.push(Task::Word(", "))?;
    tasks.push(Task::Term(Sort::Int))?;
    tasks.push(Task::Word(", "))?;
    tasks.push(Task::Term(Sort::Val))?;
    tasks.push(Task::Word(")"))?;
    tasks.push(Task::Root(Root::Update, base))?;
    Ok(tasks)
}

fn bounded(alloc: Global, root: Root, base: usize) -> Result<Vec<Task>, NoMemory>
    ensures value { IfOk result (λ ts. map seen ts.items ≡ gap_works bounds ++ (todo.root (symbol_of root) base ∷ [])) }
{
    let mut tasks = Vec::new(alloc);
    tasks.push(Task::Term(Sort::Int))?;
    tasks.push(Task::Word(".."))?;
    tasks.push(Task::Term(Sort::Int))?;
    tasks.push(Task::Word(" | ("))?;
    tasks.push(Task::Term(Sort::Formula))?;
    tasks.push(Task::Word(")"))?;
    tasks.push(Task::Root(root, base))?;
    Ok(tasks)
}

fn compared(
    alloc: Global,
    s: Sort,
    sign: &'static str,
    root: Root,
    base: usize,
) -> Result<Vec<Task>, NoMemory>
    ensures value { IfOk result (λ ts. map seen ts.items ≡ gap_works ((sort_seen s, sign.now) ∷ (sort_seen s, []) ∷ []) ++ (todo.root (symbol_of root) base ∷ [])) }
{
    let mut tasks = Vec::new(alloc);
    tasks.push(Task::Term(s))?;
    tasks.push(Task::Word(sign))?;
    tasks.push(Task::Term(s))?;
    tasks.push(Task::Word(""))?;
    tasks.push(Task::Root(root, base))?;
    Ok(tasks)
}

fn denial(alloc: Global, base: usize) -> Result<Vec<Task>, NoMemory>
    ensures value { IfOk result (λ ts. map seen ts.items ≡ parted term.denied base) }
{
    let mut tasks = Vec::new(alloc);
    tasks.push(Task::Term(Sort::Formula))?;
    tasks.push(Task::Word(""))?;
    tasks.push(Task::Root(Root::Not, base))?;
    Ok(tasks)
}

fn alone(alloc: Global, task: Task) -> Result<Vec<Task>, NoMemory>
    ensures value { IfOk result (λ ts. map seen ts.items ≡ seen task ∷ []) }
{
    let mut tasks = Vec::new(alloc);
    tasks.push(task)?;
    Ok(tasks)
}

// A datum, and behind it something else.
fn datum_then(alloc: Global, task: Task) -> Result<Vec<Task>, NoMemory>
    ensures value { IfOk result (λ ts. map seen ts.items ≡ a_term val_sort ∷ seen task ∷ []) }
{
    let mut tasks = Vec::new(alloc);
    tasks.push(Task::Term(Sort::Val))?;
    tasks.push(task)?;
    Ok(tasks)
}

// A datum, a text, and then a node is made.
fn datum_then_root(
    alloc: Global,
    text: &'static str,
    root: Root,
    base: usize,
) -> Result<Vec<Task>, NoMemory>
    ensures value { IfOk result (λ ts. map seen ts.items ≡ a_term val_sort ∷ todo.word text.now ∷ todo.root (symbol_of root) base ∷ []) }
{
    let mut tasks = Vec::new(alloc);
    tasks.push(Task::Term(Sort::Val))?;
    tasks.push(Task::Word(text))?;
    tasks.push(Task::Root(root, base))?;
    Ok(tasks)
}

fn text_then_root(
    alloc: Global,
    text: &'static str,
    root: Root,
    base: usize,
) -> Result<Vec<Task>, NoMemory>
    ensures value { IfOk result (λ ts. map seen ts.items ≡ todo.word text.now ∷ todo.root (symbol_of root) base ∷ []) }
{
    let mut tasks = Vec::new(alloc);
    tasks.push(Task::Word(text))?;
    tasks.push(Task::Root(root, base))?;
    Ok(tasks)
}

// ---- terms

// What comes behind a lead, where an Int term is to be read.
fn int_lead(alloc: Global, lead: Lead, base: usize) -> Result<Option<Vec<Task>>, NoMemory>
    ensures value { IfOk result (λ o. MatchOption o (int_works lead base ≡ None) (λ ts. int_works lead base ≡ Some (map seen ts.items))) }
{
    match lead {
        Lead::Add => Ok(Some(two(alloc, Sort::Int, Sort::Int, Root::Add, base)?)),
        Lead::Sub => Ok(Some(two(alloc, Sort::Int, Sort::Int, Root::Sub, base)?)),
        Lead::Neg => Ok(Some(one(alloc, Sort::Int, Root::Neg, base)?)),
        Lead::Mul => Ok(Some(two(alloc, Sort::Int, Sort::Int, Root::Mul, base)?)),
        Lead::Div => Ok(Some(two(alloc, Sort::Int, Sort::Int, Root::Div, base)?)),
        Lead::Mod => Ok(Some(two(alloc, Sort::Int, Sort::Int, Root::Mod, base)?)),
        Lead::Num => Ok(Some(one(alloc, Sort::Val, Root::Num, base)?)),
        Lead::Len => Ok(Some(one(alloc, Sort::Val, Root::Len, base)?)),
        _ => Ok(None),
    }
}

// Likewise where a Val term is to be read.
fn val_lead(alloc: Global, lead: Lead, base: usize) -> Result<Option<Vec<Task>>, NoMemory>
    ensures value { IfOk result (λ o. MatchOption o (val_works lead base ≡ None) (λ ts. val_works lead base ≡ Some (map seen ts.items))) }
{
    match lead {
        Lead::Null => Ok(Some(alone(alloc, Task::Root(Root::Null, base))?)),
        Lead::True => Ok(Some(alone(alloc, Task::Root(Root::Bool(true), base))?)),
        Lead::False => Ok(Some(alone(alloc, Task::Root(Root::Bool(false), base))?)),
        Lead::Int => Ok(Some(one(alloc, Sort::Int, Root::Int, base)?)),
        Lead::Truth => Ok(Some(one(alloc, Sort::Formula, Root::Truth, base)?)),
        Lead::Array => Ok(Some(alone(alloc, Task::First(Series::Elements, Root::Array, base))?)),
        Lead::Repeat => Ok(Some(two(alloc, Sort::Val, Sort::Int, Root::Repeat, base)?)),
        Lead::Update => Ok(Some(update(alloc, base)?)),
        Lead::Get => Ok(Some(two(alloc, Sort::Val, Sort::Int, Root::Get, base)?)),
        Lead::Record => Ok(Some(alone(alloc, Task::FirstField(base))?)),
        Lead::Field => Ok(Some(datum_then(alloc, Task::FieldName(base))?)),
        Lead::SetField => Ok(Some(datum_then(alloc, Task::SetFieldName(base))?)),
        _ => Ok(None),
    }
}

// Likewise where a formula is to be read.
fn formula_lead(alloc: Global, lead: Lead, base: usize) -> Result<Option<Vec<Task>>, NoMemory>
    ensures value { IfOk result (λ o. MatchOption o (formula_works lead base ≡ None) (λ ts. formula_works lead base ≡ Some (map seen ts.items))) }
{
    match lead {
        Lead::True => Ok(Some(alone(alloc, Task::Root(Root::And, base))?)),
        Lead::False => Ok(Some(alone(alloc, Task::Root(Root::Or, base))?)),
        Lead::Kind => Ok(Some(datum_then(alloc, Task::KindName(base))?)),
        Lead::In => Ok(Some(datum_then(alloc, Task::TypeNumber(base))?)),
        Lead::All => Ok(Some(alone(alloc, Task::Binder(true, base))?)),
        Lead::Some => Ok(Some(alone(alloc, Task::Binder(false, base))?)),
        Lead::Not => Ok(Some(denial(alloc, base)?)),
        Lead::And => Ok(Some(alone(alloc, Task::First(Series::Members, Root::And, base))?)),
        Lead::Or => Ok(Some(alone(alloc, Task::First(Series::Members, Root::Or, base))?)),
        _ => Ok(None),
    }
}

#[tactic(auto, unfolding(crate::specs::spell::Heads::led_at))]
fn led<'a>(alloc: Global, sort: Sort, text: &'a [u8], base: usize) -> Expansion<'a>
    ensures value { IfOk result (λ o. MatchOption o (led_at (sort_seen sort) base text.now ≡ None) (λ p. led_at (sort_seen sort) base text.now ≡ Some (map seen p.0.items, p.1.now))) }
{
    let Some((lead, rest)) = lead_of(text) else {
        return Ok(None);
    };
    if blocked(sort, lead, rest) {
        return Ok(None);
    }
    let tasks = match sort {
        Sort::Int => int_lead(alloc, lead, base)?,
        Sort::Val => val_lead(alloc, lead, base)?,
        Sort::Formula => formula_lead(alloc, lead, base)?,
    };
    match tasks {
        None => Ok(None),
        Some(tasks) => Ok(Some((tasks, rest))),
    }
}

#[tactic(auto, using(crate::proofs::spell_lemmas::GoesLemmas::term_steps, crate::proofs::spell_lemmas::GoesUp::term_covers))]
fn int_term(alloc: Global, text: &[u8], base: usize) -> Expansion
    ensures sound { IfOk result (λ o. IfSome o (λ p. Replaces (a_term int_sort) text.now base (map seen p.0.items) p.1.now)) }
    ensures complete { IfOk result (λ o. MatchOption o (Refuses (a_term int_sort) text.now base) (λ p. Covers (a_term int_sort) text.now base (map seen p.0.items) p.1.now)) }
{
    match class_of(text) {
        Class::Number => match whole(alloc, text)? {
            None => Ok(None),
            Some((z, rest)) => Ok(Some((alone(alloc, Task::Root(Root::Number(z), base))?, rest))),
        },
        Class::IntName => match numbered(alloc, text, 35)? {
            None => Ok(None),
            Some((word, n, rest)) => Ok(Some((
                alone(alloc, Task::Root(Root::IntName(word, n), base))?,
                rest,
            ))),
        },
        Class::ValName => Ok(None),
        Class::Lead => led(alloc, Sort::Int, text, base),
        Class::Datum => led(alloc, Sort::Int, text, base),
    }
}

#[tactic(auto, using(crate::proofs::spell_lemmas::GoesLemmas::term_steps, crate::proofs::spell_lemmas::GoesUp::term_covers))]
fn val_term(alloc: Global, text: &[u8], base: usize) -> Expansion
    ensures sound { IfOk result (λ o. IfSome o (λ p. Replaces (a_term val_sort) text.now base (map seen p.0.items) p.1.now)) }
    ensures complete { IfOk result (λ o. MatchOption o (Refuses (a_term val_sort) text.now base) (λ p. Covers (a_term val_sort) text.now base (map seen p.0.items) p.1.now)) }
{
    match class_of(text) {
        Class::ValName => match numbered(alloc, text, 46)? {
            None => Ok(None),
            Some((word, n, rest)) => Ok(Some((
                alone(alloc, Task::Root(Root::ValName(word, n), base))?,
                rest,
            ))),
        },
        Class::Number => Ok(None),
        Class::IntName => Ok(None),
        Class::Lead => led(alloc, Sort::Val, text, base),
        Class::Datum => led(alloc, Sort::Val, text, base),
    }
}

#[tactic(auto, using(crate::proofs::spell_lemmas::GoesLemmas::term_steps, crate::proofs::spell_lemmas::GoesUp::term_covers))]
fn formula(alloc: Global, text: &[u8], base: usize) -> Expansion
    ensures sound { IfOk result (λ o. IfSome o (λ p. Replaces (a_term formula_sort) text.now base (map seen p.0.items) p.1.now)) }
    ensures complete { IfOk result (λ o. MatchOption o (Refuses (a_term formula_sort) text.now base) (λ p. Covers (a_term formula_sort) text.now base (map seen p.0.items) p.1.now)) }
{
    match begins(text) {
        Sort::Int => Ok(Some((
            compared(alloc, Sort::Int, " <= ", Root::AtMost, base)?,
            text,
        ))),
        Sort::Val => Ok(Some((compared(alloc, Sort::Val, " = ", Root::Equal, base)?, text))),
        Sort::Formula => led(alloc, Sort::Formula, text, base),
    }
}

// ---- series

#[tactic(auto, using(crate::proofs::spell_lemmas::GoesLemmas::series_steps, crate::proofs::spell_lemmas::GoesUp::series_covers))]
fn first(alloc: Global, series: Series, root: Root, text: &[u8], base: usize) -> Expansion
    ensures sound { IfOk result (λ o. IfSome o (λ p. (n : ℕ) → Replaces (todo.first (series_seen series) (symbol_of root) base) text.now n (map seen p.0.items) p.1.now)) }
    ensures complete { IfOk result (λ o. MatchOption o ((n : ℕ) → Refuses (todo.first (series_seen series) (symbol_of root) base) text.now n) (λ p. (n : ℕ) → Covers (todo.first (series_seen series) (symbol_of root) base) text.now n (map seen p.0.items) p.1.now)) }
{
    match behind(text, closing(series).as_bytes()) {
        Some(rest) => Ok(Some((alone(alloc, Task::Root(root, base))?, rest))),
        None => Ok(Some((part_of(alloc, series, root, base)?, text))),
    }
}

fn part_of(alloc: Global, series: Series, root: Root, base: usize) -> Result<Vec<Task>, NoMemory>
    ensures value { IfOk result (λ ts. map seen ts.items ≡ a_term (grammar.sort_in (series_seen series)) ∷ todo.more (series_seen series) (symbol_of root) base ∷ []) }
{
    let mut tasks = Vec::new(alloc);
    tasks.push(Task::Term(sort_in(series)))?;
    tasks.push(Task::More(series, root, base))?;
    Ok(tasks)
}

#[tactic(auto, using(crate::proofs::spell_lemmas::GoesLemmas::series_steps, crate::proofs::spell_lemmas::GoesUp::series_covers))]
fn more(alloc: Global, series: Series, root: Root, text: &[u8], base: usize) -> Expansion
    ensures sound { IfOk result (λ o. IfSome o (λ p. (n : ℕ) → Replaces (todo.more (series_seen series) (symbol_of root) base) text.now n (map seen p.0.items) p.1.now)) }
    ensures complete { IfOk result (λ o. MatchOption o ((n : ℕ) → Refuses (todo.more (series_seen series) (symbol_of root) base) text.now n) (λ p. (n : ℕ) → Covers (todo.more (series_seen series) (symbol_of root) base) text.now n (map seen p.0.items) p.1.now)) }
{
    match behind(text, closing(series).as_bytes()) {
        Some(rest) => Ok(Some((alone(alloc, Task::Root(root, base))?, rest))),
        None => match behind(text, between(series).as_bytes()) {
            None => Ok(None),
            Some(rest) => Ok(Some((part_of(alloc, series, root, base)?, rest))),
        },
    }
}

// ---- names and numbers behind a part

#[tactic(auto, using(crate::proofs::spell_lemmas::GoesLemmas::field_steps, crate::proofs::spell_lemmas::GoesUp::field_covers))]
fn first_field(alloc: Global, text: &[u8], base: usize) -> Expansion
    ensures sound { IfOk result (λ o. IfSome o (λ p. (n : ℕ) → Replaces (todo.first_field base) text.now n (map seen p.0.items) p.1.now)) }
    ensures complete { IfOk result (λ o. MatchOption o ((n : ℕ) → Refuses (todo.first_field base) text.now n) (λ p. (n : ℕ) → Covers (todo.first_field base) text.now n (map seen p.0.items) p.1.now)) }
{
    match behind(text, b"}") {
        Some(rest) => Ok(Some((
            alone(alloc, Task::Root(Root::Record(Vec::new(alloc)), base))?,
            rest,
        ))),
        None => field(alloc, Vec::new(alloc), text, base),
    }
}

// A field's name and colon, behind fields of other names.
#[tactic(auto, using(crate::proofs::spell_lemmas::GoesLemmas::name_steps, crate::proofs::spell_lemmas::GoesUp::name_covers))]
fn field(alloc: Global, mut names: Vec<Name>, text: &[u8], base: usize) -> Expansion
    ensures value { IfOk result (λ o. MatchOption o (NoField text.now) (λ p. IsFieldRead names.items base text.now (map seen p.0.items) p.1.now)) }
{
    let Some((name, rest)) = word(alloc, text)? else {
        return Ok(None);
    };
    let Some(rest) = behind(rest, b": ") else {
        return Ok(None);
    };
    names.push(name)?;
    Ok(Some((datum_then(alloc, Task::MoreFields(names, base))?, rest)))
}

#[tactic(auto, using(crate::proofs::spell_lemmas::GoesLemmas::field_steps, crate::proofs::spell_lemmas::GoesUp::field_covers))]
fn more_fields(alloc: Global, names: Vec<Name>, text: &[u8], base: usize) -> Expansion
    ensures sound { IfOk result (λ o. IfSome o (λ p. (n : ℕ) → Replaces (todo.more_fields names.items base) text.now n (map seen p.0.items) p.1.now)) }
    ensures complete { IfOk result (λ o. MatchOption o ((n : ℕ) → Refuses (todo.more_fields names.items base) text.now n) (λ p. (n : ℕ) → Covers (todo.more_fields names.items base) text.now n (map seen p.0.items) p.1.now)) }
{
    if let Some(rest) = behind(text, b"}") {
        if !are_fields(alloc, &names)? {
            return Ok(None);
        }
        return Ok(Some((alone(alloc, Task::Root(Root::Record(names), base))?, rest)));
    }
    match behind(text, b", ") {
        None => Ok(None),
        Some(rest) => field(alloc, names, rest, base),
    }
}

#[tactic(auto, using(crate::proofs::spell_lemmas::GoesLemmas::field_steps, crate::proofs::spell_lemmas::GoesUp::field_covers))]
fn field_name(alloc: Global, text: &[u8], base: usize) -> Expansion
    ensures sound { IfOk result (λ o. IfSome o (λ p. (n : ℕ) → Replaces (todo.field_name base) text.now n (map seen p.0.items) p.1.now)) }
    ensures complete { IfOk result (λ o. MatchOption o ((n : ℕ) → Refuses (todo.field_name base) text.now n) (λ p. (n : ℕ) → Covers (todo.field_name base) text.now n (map seen p.0.items) p.1.now)) }
{
    let Some(rest) = behind(text, b", ") else {
        return Ok(None);
    };
    let Some((name, rest)) = word(alloc, rest)? else {
        return Ok(None);
    };
    let tasks = text_then_root(alloc, ")", Root::Field(name), base)?;
    Ok(Some((tasks, rest)))
}

#[tactic(auto, using(crate::proofs::spell_lemmas::GoesLemmas::field_steps, crate::proofs::spell_lemmas::GoesUp::field_covers))]
fn set_field_name(alloc: Global, text: &[u8], base: usize) -> Expansion
    ensures sound { IfOk result (λ o. IfSome o (λ p. (n : ℕ) → Replaces (todo.set_field_name base) text.now n (map seen p.0.items) p.1.now)) }
    ensures complete { IfOk result (λ o. MatchOption o ((n : ℕ) → Refuses (todo.set_field_name base) text.now n) (λ p. (n : ℕ) → Covers (todo.set_field_name base) text.now n (map seen p.0.items) p.1.now)) }
{
    let Some(rest) = behind(text, b", ") else {
        return Ok(None);
    };
    let Some((name, rest)) = word(alloc, rest)? else {
        return Ok(None);
    };
    let Some(rest) = behind(rest, b", ") else {
        return Ok(None);
    };
    let tasks = datum_then_root(alloc, ")", Root::SetField(name), base)?;
    Ok(Some((tasks, rest)))
}

#[tactic(auto, using(crate::proofs::spell_lemmas::GoesLemmas::kind_steps, crate::proofs::spell_lemmas::KindUp::kind_covers))]
fn kind_name(alloc: Global, text: &[u8], base: usize) -> Expansion
    ensures sound { IfOk result (λ o. IfSome o (λ p. (n : ℕ) → Replaces (todo.kind_name base) text.now n (map seen p.0.items) p.1.now)) }
    ensures complete { IfOk result (λ o. MatchOption o ((n : ℕ) → Refuses (todo.kind_name base) text.now n) (λ p. (n : ℕ) → Covers (todo.kind_name base) text.now n (map seen p.0.items) p.1.now)) }
{
    let Some(text) = behind(text, b", ") else {
        return Ok(None);
    };
    if let Some(rest) = behind(text, b"null)") {
        return Ok(Some((
            alone(alloc, Task::Root(Root::Kind(Kind::Null), base))?,
            rest,
        )));
    }
    if let Some(rest) = behind(text, b"bool)") {
        return Ok(Some((
            alone(alloc, Task::Root(Root::Kind(Kind::Bool), base))?,
            rest,
        )));
    }
    if let Some(rest) = behind(text, b"int)") {
        return Ok(Some((alone(alloc, Task::Root(Root::Kind(Kind::Int), base))?, rest)));
    }
    if let Some(rest) = behind(text, b"array)") {
        return Ok(Some((
            alone(alloc, Task::Root(Root::Kind(Kind::Array), base))?,
            rest,
        )));
    }
    if let Some(rest) = behind(text, b"{})") {
        let kind = Kind::Record(Vec::new(alloc));
        return Ok(Some((alone(alloc, Task::Root(Root::Kind(kind), base))?, rest)));
    }
    match behind(text, b"{") {
        None => Ok(None),
        Some(rest) => kind_field(alloc, Vec::new(alloc), rest, base),
    }
}

// A name of a kind's field list, behind other names.
#[tactic(auto, using(crate::proofs::spell_lemmas::GoesLemmas::name_steps, crate::proofs::spell_lemmas::GoesUp::name_covers))]
fn kind_field(alloc: Global, mut names: Vec<Name>, text: &[u8], base: usize) -> Expansion
    ensures value { IfOk result (λ o. MatchOption o (NoWord text.now) (λ p. IsKindFieldRead names.items base text.now (map seen p.0.items) p.1.now)) }
{
    let Some((name, rest)) = word(alloc, text)? else {
        return Ok(None);
    };
    names.push(name)?;
    Ok(Some((alone(alloc, Task::KindFields(names, base))?, rest)))
}

#[tactic(auto, using(crate::proofs::spell_lemmas::GoesLemmas::kind_steps, crate::proofs::spell_lemmas::KindUp::kind_covers))]
fn kind_fields(alloc: Global, names: Vec<Name>, text: &[u8], base: usize) -> Expansion
    ensures sound { IfOk result (λ o. IfSome o (λ p. (n : ℕ) → Replaces (todo.kind_fields names.items base) text.now n (map seen p.0.items) p.1.now)) }
    ensures complete { IfOk result (λ o. MatchOption o ((n : ℕ) → Refuses (todo.kind_fields names.items base) text.now n) (λ p. (n : ℕ) → Covers (todo.kind_fields names.items base) text.now n (map seen p.0.items) p.1.now)) }
{
    if let Some(rest) = behind(text, b"})") {
        if !are_fields(alloc, &names)? {
            return Ok(None);
        }
        return Ok(Some((
            alone(alloc, Task::Root(Root::Kind(Kind::Record(names)), base))?,
            rest,
        )));
    }
    match behind(text, b", ") {
        None => Ok(None),
        Some(rest) => kind_field(alloc, names, rest, base),
    }
}

#[tactic(auto, using(crate::proofs::spell_lemmas::GoesLemmas::number_steps, crate::proofs::spell_lemmas::GoesUp::number_covers))]
fn type_number(alloc: Global, text: &[u8], base: usize) -> Expansion
    ensures sound { IfOk result (λ o. IfSome o (λ p. (n : ℕ) → Replaces (todo.type_number base) text.now n (map seen p.0.items) p.1.now)) }
    ensures complete { IfOk result (λ o. MatchOption o ((n : ℕ) → Refuses (todo.type_number base) text.now n) (λ p. (n : ℕ) → Covers (todo.type_number base) text.now n (map seen p.0.items) p.1.now)) }
{
    let Some(rest) = behind(text, b", ") else {
        return Ok(None);
    };
    match natural(alloc, rest)? {
        None => Ok(None),
        Some((n, rest)) => {
            if n > u32::MAX as u128 {
                return Ok(None);
            }
            let tasks = text_then_root(alloc, ")", Root::In(n as u32), base)?;
            Ok(Some((tasks, rest)))
        }
    }
}

#[tactic(auto, using(crate::proofs::spell_lemmas::GoesLemmas::number_steps, crate::proofs::spell_lemmas::GoesUp::number_covers))]
fn binder(alloc: Global, all: bool, text: &[u8], base: usize) -> Expansion
    ensures sound { IfOk result (λ o. IfSome o (λ p. (n : ℕ) → Replaces (todo.bind all base) text.now n (map seen p.0.items) p.1.now)) }
    ensures complete { IfOk result (λ o. MatchOption o ((n : ℕ) → Refuses (todo.bind all base) text.now n) (λ p. (n : ℕ) → Covers (todo.bind all base) text.now n (map seen p.0.items) p.1.now)) }
{
    let Some((word, n, rest)) = numbered(alloc, text, 35)? else {
        return Ok(None);
    };
    let Some(rest) = behind(rest, b" in ") else {
        return Ok(None);
    };
    let root = if all {
        Root::All(word, n)
    } else {
        Root::Some(word, n)
    };
    Ok(Some((bounded(alloc, root, base)?, rest)))
}

/// What stands for a thing that is to be read, which is no root, where so many terms are done.
#[tactic(auto, using(crate::proofs::spell_lemmas::GoesLemmas::expanded_steps, crate::proofs::spell_lemmas::GoesUp::expanded_covers))]
pub(crate) fn expanded(alloc: Global, task: Task, text: &[u8], done: usize) -> Expansion
    ensures sound { IfOk result (λ o. IfSome o (λ p. Replaces (seen task) text.now done (map seen p.0.items) p.1.now)) }
    ensures complete { IfOk result (λ o. MatchOption o (Refuses (seen task) text.now done) (λ p. Covers (seen task) text.now done (map seen p.0.items) p.1.now)) }
{
    match task {
        Task::Word(word) => match behind(text, word.as_bytes()) {
            None => Ok(None),
            Some(rest) => Ok(Some((Vec::new(alloc), rest))),
        },
        Task::Term(Sort::Int) => int_term(alloc, text, done),
        Task::Term(Sort::Val) => val_term(alloc, text, done),
        Task::Term(Sort::Formula) => formula(alloc, text, done),
        Task::Root(root, base) => Ok(Some((alone(alloc, Task::Root(root, base))?, text))),
        Task::First(series, root, base) => first(alloc, series, root, text, base),
        Task::More(series, root, base) => more(alloc, series, root, text, base),
        Task::FirstField(base) => first_field(alloc, text, base),
        Task::MoreFields(names, base) => more_fields(alloc, names, text, base),
        Task::FieldName(base) => field_name(alloc, text, base),
        Task::SetFieldName(base) => set_field_name(alloc, text, base),
        Task::KindName(base) => kind_name(alloc, text, base),
        Task::KindFields(names, base) => kind_fields(alloc, names, text, base),
        Task::TypeNumber(base) => type_number(alloc, text, base),
        Task::Binder(all, base) => binder(alloc, all, text, base),
    }
}
