//! How a term begins.
ghost use Rattle.std.specs.Prelude.{◌≡◌, None, Some, MatchOption};
ghost use Rattle.wy_term_text.specs.spell.Grammar as grammar;
ghost use Rattle.wy_term.specs.wy_data.scan.Front.{heads};
ghost use Rattle.wy_term_text.specs.spell.Heads.{lead_at, class_at, begins_with, sort_by_lead, is_number_byte, by_sign as class_by_sign, blocked as blocked_by};
ghost use Rattle.wy_term_text.specs.spell.View.{sort_seen};

use crate::spell::work::Sort;
use wy_term::scan::{behind, is_digit, is_word_byte, run};

/// A word at the front of a text that says what is to be read.
#[derive(Clone, Copy)]
pub(crate) enum Lead {
    Add,
    Sub,
    Neg,
    Mul,
    Div,
    Mod,
    Num,
    Len,
    Null,
    True,
    False,
    Int,
    Truth,
    Array,
    Repeat,
    Update,
    Get,
    Record,
    Field,
    SetField,
    Kind,
    In,
    All,
    Some,
    Not,
    And,
    Or,
}

const LEADS: [(&str, Lead); 27] = [
    ("add(", Lead::Add),
    ("sub(", Lead::Sub),
    ("neg(", Lead::Neg),
    ("mul(", Lead::Mul),
    ("div(", Lead::Div),
    ("mod(", Lead::Mod),
    ("num(", Lead::Num),
    ("len(", Lead::Len),
    ("null", Lead::Null),
    ("true", Lead::True),
    ("false", Lead::False),
    ("int(", Lead::Int),
    ("bool(", Lead::Truth),
    ("arr[", Lead::Array),
    ("rep(", Lead::Repeat),
    ("upd(", Lead::Update),
    ("get(", Lead::Get),
    ("rec{", Lead::Record),
    ("fld(", Lead::Field),
    ("setf(", Lead::SetField),
    ("kind(", Lead::Kind),
    ("in(", Lead::In),
    ("all ", Lead::All),
    ("some ", Lead::Some),
    ("not ", Lead::Not),
    ("and(", Lead::And),
    ("or(", Lead::Or),
];

/// The word at the front of the text, and what follows it.
#[tactic(auto, using(crate::proofs::spell_lemmas::CodeLemmas::lead_steps), unfolding(crate::specs::spell::Heads::lead_at))]
pub(crate) fn lead_of(text: &[u8]) -> Option<(Lead, &[u8])>
    ensures value { MatchOption result (lead_at text.now ≡ None) (λ p. lead_at text.now ≡ Some (p.0, p.1.now)) }
{
    for row in LEADS.as_slice() {
        if let Some(rest) = behind(text, row.0.as_bytes()) {
            return Some((row.1, rest));
        }
    }
    None
}

/// What the front of a text begins, where a formula is to be read.
#[derive(Clone, Copy)]
pub(crate) enum Class {
    /// A number.
    Number,
    /// A name of a number.
    IntName,
    /// A name of a datum.
    ValName,
    /// What a lead says, but `true` and `false` before a space are data.
    Lead,
    Datum,
}

/// How the text begins.
#[tactic(auto, using(crate::proofs::spell_lemmas::CodeLemmas::class_steps))]
pub(crate) fn class_of(text: &[u8]) -> Class
    ensures value { result ≡ class_at text.now }
{
    if starts_number(text) {
        return Class::Number;
    }
    let (_, rest) = run(text);
    by_sign(rest)
}

fn starts_number(text: &[u8]) -> bool
    ensures value { result ≡ heads is_number_byte text.now }
{
    match text {
        [] => false,
        [first, ..] => is_digit(*first) || *first == 45,
    }
}

// The class by what follows the bytes of a word.
fn by_sign(rest: &[u8]) -> Class
    ensures value { result ≡ class_by_sign rest.now }
{
    match rest {
        [] => Class::Lead,
        [first, ..] => {
            if *first == 35 {
                Class::IntName
            } else if *first == 46 {
                Class::ValName
            } else if *first == 32 {
                Class::Datum
            } else {
                Class::Lead
            }
        }
    }
}

// Whether a name or a word goes on.
fn goes_on(text: &[u8]) -> bool
    ensures value { result ≡ heads grammar.goes_on text.now }
{
    match text {
        [] => false,
        [first, ..] => is_word_byte(*first) || *first == 35 || *first == 46,
    }
}

fn goes_on_or_space(text: &[u8]) -> bool
    ensures value { result ≡ heads grammar.goes_on_or_space text.now }
{
    match text {
        [] => false,
        [first, ..] => is_word_byte(*first) || *first == 35 || *first == 46 || *first == 32,
    }
}

/// Whether what follows a lead that is the whole of a term would go on with it.
pub(crate) fn blocked(sort: Sort, lead: Lead, rest: &[u8]) -> bool
    ensures value { result ≡ blocked_by (sort_seen sort) lead rest.now }
{
    match sort {
        Sort::Int => false,
        Sort::Val => match lead {
            Lead::Null | Lead::True | Lead::False => goes_on(rest),
            _ => false,
        },
        Sort::Formula => match lead {
            Lead::True | Lead::False => goes_on_or_space(rest),
            _ => false,
        },
    }
}

/// The sort of a term that begins with the lead.
fn sort_of(lead: Lead) -> Sort
    ensures value { sort_seen result ≡ sort_by_lead lead }
{
    match lead {
        Lead::Add | Lead::Sub | Lead::Neg | Lead::Mul | Lead::Div | Lead::Mod => Sort::Int,
        Lead::Num | Lead::Len => Sort::Int,
        Lead::Null | Lead::Int | Lead::Truth | Lead::Array | Lead::Repeat => Sort::Val,
        Lead::Update | Lead::Get | Lead::Record | Lead::Field | Lead::SetField => Sort::Val,
        Lead::True | Lead::False | Lead::Kind | Lead::In | Lead::All => Sort::Formula,
        Lead::Some | Lead::Not | Lead::And | Lead::Or => Sort::Formula,
    }
}

/// The sort of the term with which the formula at the front begins, or a formula's.
#[tactic(auto, unfolding(crate::specs::spell::Heads::begins_with))]
pub(crate) fn begins(text: &[u8]) -> Sort
    ensures value { sort_seen result ≡ begins_with text.now }
{
    match class_of(text) {
        Class::Number | Class::IntName => Sort::Int,
        Class::ValName => Sort::Val,
        Class::Lead => match lead_of(text) {
            None => Sort::Formula,
            Some((lead, _)) => sort_of(lead),
        },
        Class::Datum => match lead_of(text) {
            None => Sort::Formula,
            Some((lead, _)) => match lead {
                Lead::True | Lead::False => Sort::Val,
                lead => sort_of(lead),
            },
        },
    }
}
