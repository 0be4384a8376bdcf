//! Terms and formulas in the words of the source.
//!
//! A list of pieces is kept that are still to be written, so terms nest to any depth.
use crate::naming::Naming;
use crate::parts::{is_difference, is_equation, node_of, sides};
use crate::type_text::alias_name;
use std::alloc::Global;
use wy_core::Core;
use wy_explain_source::{NoMemory, Page};
use wy_term::{Kind, Node, Quantifier, Terms};

/// How strongly what stands around a piece binds: a piece that binds less stands in brackets.
const LOOSE: u8 = 0;

const LOGIC: u8 = 1;

const SUM: u8 = 2;

const PRODUCT: u8 = 3;

const TIGHT: u8 = 4;

/// What is still to be written.
#[derive(Drop)]
enum Piece {
    Word(&'static [u8]),
    Text(Page),
    /// A term, and how strongly what stands around it binds.
    Term(u32, u8),
    /// A formula that holds or, where that is false, is denied.
    Formula(u32, bool, u8),
}

/// What the texts go by.
#[derive(Clone, Copy)]
pub struct Words<'a> {
    pub terms: &'a Terms,
    pub core: &'a Core,
    pub naming: &'a Naming,
}

/// Writes a formula, or its denial.
pub fn put_formula(
    page: &mut Page,
    words: Words,
    formula: u32,
    holds: bool,
) -> Result<(), NoMemory> {
    let alloc = page.alloc();
    let mut todo: Vec<Piece> = Vec::new(alloc);
    todo.push(Piece::Formula(formula, holds, LOOSE))?;
    for _ in 0..u64::MAX {
        match todo.pop() {
            None => return Ok(()),
            Some(Piece::Word(text)) => page.bytes(text)?,
            Some(Piece::Text(text)) => page.bytes(text.as_slice())?,
            Some(Piece::Term(term, around)) => {
                let mut pieces = term_pieces(alloc, words, term, around)?;
                pieces.reverse();
                todo.append(&mut pieces)?;
            }
            Some(Piece::Formula(formula, holds, around)) => {
                let mut pieces = formula_pieces(alloc, words, formula, holds, around)?;
                pieces.reverse();
                todo.append(&mut pieces)?;
            }
        }
    }
    Ok(())
}

fn word(alloc: Global, text: &'static [u8]) -> Result<Vec<Piece>, NoMemory> {
    let mut pieces = Vec::new(alloc);
    pieces.push(Piece::Word(text))?;
    Ok(pieces)
}

fn text(alloc: Global, page: Page) -> Result<Vec<Piece>, NoMemory> {
    let mut pieces = Vec::new(alloc);
    pieces.push(Piece::Text(page))?;
    Ok(pieces)
}

fn name_page(
    alloc: Global,
    words: Words,
    name: &[u8],
    number: u128,
    is_bound: bool,
) -> Result<Page, NoMemory> {
    let mut page = Page::new(alloc);
    match words.naming.shown(name, number, is_bound) {
        Some(shown) => page.bytes(shown)?,
        None => page.bytes(name)?,
    }
    Ok(page)
}

// A number; the ends of `int` and the greatest length by powers.
fn number_page(alloc: Global, number: i128) -> Result<Page, NoMemory> {
    let mut page = Page::new(alloc);
    let power: i128 = 39_614_081_257_132_168_796_771_975_168;
    if number == power - 1 {
        page.text("2^95 - 1")?;
    } else if number == -power {
        page.text("-2^95")?;
    } else if number == 9_223_372_036_854_775_807 {
        page.text("2^63 - 1")?;
    } else {
        page.whole(number)?;
    }
    Ok(page)
}

// Two terms with a sign between, in brackets where what stands around binds more strongly.
fn operation(
    alloc: Global,
    sign: &'static [u8],
    left: (u32, u8),
    right: (u32, u8),
    own: u8,
    around: u8,
) -> Result<Vec<Piece>, NoMemory> {
    let mut pieces = Vec::new(alloc);
    if own < around {
        pieces.push(Piece::Word(b"(".as_slice()))?;
    }
    pieces.push(Piece::Term(left.0, left.1))?;
    pieces.push(Piece::Word(sign))?;
    pieces.push(Piece::Term(right.0, right.1))?;
    if own < around {
        pieces.push(Piece::Word(b")".as_slice()))?;
    }
    Ok(pieces)
}

// A term between two words.
fn between(
    alloc: Global,
    front: &'static [u8],
    term: u32,
    around: u8,
    back: &'static [u8],
) -> Result<Vec<Piece>, NoMemory> {
    let mut pieces = Vec::new(alloc);
    pieces.push(Piece::Word(front))?;
    pieces.push(Piece::Term(term, around))?;
    pieces.push(Piece::Word(back))?;
    Ok(pieces)
}

fn term_pieces(alloc: Global, words: Words, term: u32, around: u8) -> Result<Vec<Piece>, NoMemory> {
    let node = match node_of(words.terms, term) {
        Some(node) => node,
        None => return Ok(Vec::new(alloc)),
    };
    match node {
        Node::Number(number) => text(alloc, number_page(alloc, *number)?),
        Node::IntName(name, number) => text(
            alloc,
            name_page(alloc, words, name.as_bytes(), *number, true)?,
        ),
        Node::ValName(name, number) => text(
            alloc,
            name_page(alloc, words, name.as_bytes(), *number, false)?,
        ),
        Node::Add(s, t) => operation(
            alloc,
            b" + ".as_slice(),
            (*s, SUM),
            (*t, PRODUCT),
            SUM,
            around,
        ),
        Node::Sub(s, t) => operation(
            alloc,
            b" - ".as_slice(),
            (*s, SUM),
            (*t, PRODUCT),
            SUM,
            around,
        ),
        Node::Mul(s, t) => operation(
            alloc,
            b" * ".as_slice(),
            (*s, PRODUCT),
            (*t, TIGHT),
            PRODUCT,
            around,
        ),
        Node::Div(s, t) => operation(
            alloc,
            b" / ".as_slice(),
            (*s, PRODUCT),
            (*t, TIGHT),
            PRODUCT,
            around,
        ),
        Node::Mod(s, t) => operation(
            alloc,
            b" % ".as_slice(),
            (*s, PRODUCT),
            (*t, TIGHT),
            PRODUCT,
            around,
        ),
        Node::Neg(s) => between(alloc, b"-".as_slice(), *s, TIGHT, b"".as_slice()),
        Node::Num(v) | Node::Int(v) => between(alloc, b"".as_slice(), *v, around, b"".as_slice()),
        Node::Len(v) => between(alloc, b"|".as_slice(), *v, LOOSE, b"|".as_slice()),
        Node::Null => word(alloc, b"null".as_slice()),
        Node::Bool(truth) => word(
            alloc,
            if *truth {
                b"true".as_slice()
            } else {
                b"false".as_slice()
            },
        ),
        _ => data_pieces(alloc, words, term, node, around),
    }
}

// Arrays, records and formulas as data.
fn data_pieces(
    alloc: Global,
    words: Words,
    term: u32,
    node: &Node,
    around: u8,
) -> Result<Vec<Piece>, NoMemory> {
    match node {
        Node::Array(items) => array_pieces(alloc, items.as_slice()),
        Node::Record(fields) => record_pieces(alloc, fields.as_slice()),
        Node::Get(v, s) => {
            let mut pieces = between(alloc, b"".as_slice(), *v, TIGHT, b"[".as_slice())?;
            pieces.push(Piece::Term(*s, LOOSE))?;
            pieces.push(Piece::Word(b"]".as_slice()))?;
            Ok(pieces)
        }
        Node::Repeat(v, s) => {
            let mut pieces = between(alloc, b"[".as_slice(), *v, LOOSE, b"; ".as_slice())?;
            pieces.push(Piece::Term(*s, LOOSE))?;
            pieces.push(Piece::Word(b"]".as_slice()))?;
            Ok(pieces)
        }
        Node::Update(v, s, w) => {
            let mut pieces = between(alloc, b"".as_slice(), *v, TIGHT, b"[".as_slice())?;
            pieces.push(Piece::Term(*s, LOOSE))?;
            pieces.push(Piece::Word(b" := ".as_slice()))?;
            pieces.push(Piece::Term(*w, LOOSE))?;
            pieces.push(Piece::Word(b"]".as_slice()))?;
            Ok(pieces)
        }
        Node::Field(v, name) => {
            let mut pieces = between(alloc, b"".as_slice(), *v, TIGHT, b".".as_slice())?;
            let mut own = Page::new(alloc);
            own.bytes(name.as_bytes())?;
            pieces.push(Piece::Text(own))?;
            Ok(pieces)
        }
        Node::SetField(v, name, w) => {
            let mut pieces = between(alloc, b"".as_slice(), *v, TIGHT, b"{".as_slice())?;
            let mut own = Page::new(alloc);
            own.bytes(name.as_bytes())?;
            pieces.push(Piece::Text(own))?;
            pieces.push(Piece::Word(b" := ".as_slice()))?;
            pieces.push(Piece::Term(*w, LOOSE))?;
            pieces.push(Piece::Word(b"}".as_slice()))?;
            Ok(pieces)
        }
        Node::Truth(formula) => {
            let mut pieces = Vec::new(alloc);
            pieces.push(Piece::Formula(*formula, true, around))?;
            Ok(pieces)
        }
        _ => formula_pieces(alloc, words, term, true, around),
    }
}

fn array_pieces(alloc: Global, items: &[u32]) -> Result<Vec<Piece>, NoMemory> {
    let mut pieces = word(alloc, b"[".as_slice())?;
    let mut is_first = true;
    for item in items {
        if !is_first {
            pieces.push(Piece::Word(b", ".as_slice()))?;
        }
        is_first = false;
        pieces.push(Piece::Term(*item, LOOSE))?;
    }
    pieces.push(Piece::Word(b"]".as_slice()))?;
    Ok(pieces)
}

fn record_pieces(alloc: Global, fields: &[(wy_term::Name, u32)]) -> Result<Vec<Piece>, NoMemory> {
    let mut pieces = word(alloc, b"{".as_slice())?;
    let mut is_first = true;
    for field in fields {
        let mut own = Page::new(alloc);
        own.text(if is_first { "" } else { ", " })?;
        own.bytes(field.0.as_bytes())?;
        own.text(": ")?;
        is_first = false;
        pieces.push(Piece::Text(own))?;
        pieces.push(Piece::Term(field.1, LOOSE))?;
    }
    pieces.push(Piece::Word(b"}".as_slice()))?;
    Ok(pieces)
}

fn formula_pieces(
    alloc: Global,
    words: Words,
    formula: u32,
    holds: bool,
    around: u8,
) -> Result<Vec<Piece>, NoMemory> {
    let node = match node_of(words.terms, formula) {
        Some(node) => node,
        None => return Ok(Vec::new(alloc)),
    };
    match node {
        Node::AtMost(s, t) => at_most(alloc, words, *s, *t, holds, around),
        Node::Equal(v, w) => compared(alloc, words, *v, *w, holds, around),
        Node::Kind(v, kind) => kind_pieces(alloc, *v, kind, holds),
        Node::In(v, number) => in_pieces(alloc, words, *v, *number, holds),
        Node::Not(inner) => {
            let mut pieces = Vec::new(alloc);
            pieces.push(Piece::Formula(*inner, !holds, around))?;
            Ok(pieces)
        }
        Node::And(parts) => all_of(alloc, words, parts.as_slice(), holds, around),
        Node::Or(parts) => any_of(alloc, words, parts.as_slice(), holds, around),
        Node::All(quantifier) => quantified(alloc, b"all {".as_slice(), quantifier, holds),
        Node::Some(quantifier) => quantified(alloc, b"some {".as_slice(), quantifier, holds),
        _ => {
            let mut pieces = Vec::new(alloc);
            if !holds {
                pieces.push(Piece::Word(b"!".as_slice()))?;
            }
            pieces.push(Piece::Term(formula, TIGHT))?;
            Ok(pieces)
        }
    }
}

// Formulas that hold together; `s <= t && t <= s` is `s == t`.
fn all_of(
    alloc: Global,
    words: Words,
    parts: &[u32],
    holds: bool,
    around: u8,
) -> Result<Vec<Piece>, NoMemory> {
    if is_equation(words.terms, parts) {
        return equation(alloc, words, parts, holds, around);
    }
    joined(alloc, parts, holds, holds, around)
}

// Formulas of which one holds; `s < t || t < s` is `s != t`.
fn any_of(
    alloc: Global,
    words: Words,
    parts: &[u32],
    holds: bool,
    around: u8,
) -> Result<Vec<Piece>, NoMemory> {
    if is_difference(words.terms, parts) {
        return equation(alloc, words, parts, !holds, around);
    }
    joined(alloc, parts, holds, !holds, around)
}

fn equation(
    alloc: Global,
    words: Words,
    parts: &[u32],
    is_equal: bool,
    around: u8,
) -> Result<Vec<Piece>, NoMemory> {
    match sides(words.terms, parts) {
        Some((s, t)) => compared(alloc, words, s, t, is_equal, around),
        None => Ok(Vec::new(alloc)),
    }
}

// `s == t` or `s != t`. A constant stands right.
fn compared(
    alloc: Global,
    words: Words,
    s: u32,
    t: u32,
    is_equal: bool,
    around: u8,
) -> Result<Vec<Piece>, NoMemory> {
    let sign = if is_equal {
        b" == ".as_slice()
    } else {
        b" != ".as_slice()
    };
    if is_constant(words.terms, s) && !is_constant(words.terms, t) {
        return operation(alloc, sign, (t, SUM), (s, SUM), LOGIC, around);
    }
    operation(alloc, sign, (s, SUM), (t, SUM), LOGIC, around)
}

fn is_constant(terms: &Terms, term: u32) -> bool {
    match node_of(terms, term) {
        Some(Node::Number(_) | Node::Null | Node::Bool(_)) => true,
        Some(Node::Int(number)) => matches!(node_of(terms, *number), Some(Node::Number(_))),
        _ => false,
    }
}

// `s <= t`, or `t < s` for its denial; `s + 1 <= t` is `s < t`.
fn at_most(
    alloc: Global,
    words: Words,
    s: u32,
    t: u32,
    holds: bool,
    around: u8,
) -> Result<Vec<Piece>, NoMemory> {
    if !holds {
        return operation(alloc, b" < ".as_slice(), (t, SUM), (s, SUM), LOGIC, around);
    }
    match node_of(words.terms, s) {
        Some(Node::Add(less, one)) => {
            if is_one(words.terms, *one) {
                return operation(
                    alloc,
                    b" < ".as_slice(),
                    (*less, SUM),
                    (t, SUM),
                    LOGIC,
                    around,
                );
            }
        }
        _ => {}
    }
    operation(alloc, b" <= ".as_slice(), (s, SUM), (t, SUM), LOGIC, around)
}

fn is_one(terms: &Terms, term: u32) -> bool {
    match node_of(terms, term) {
        Some(Node::Number(number)) => *number == 1,
        _ => false,
    }
}

fn kind_pieces(
    alloc: Global,
    value: u32,
    kind: &Kind,
    holds: bool,
) -> Result<Vec<Piece>, NoMemory> {
    let mut pieces = between(
        alloc,
        if holds {
            b"".as_slice()
        } else {
            b"!(".as_slice()
        },
        value,
        TIGHT,
        b" is ".as_slice(),
    )?;
    match kind {
        Kind::Null => pieces.push(Piece::Word(b"null".as_slice()))?,
        Kind::Bool => pieces.push(Piece::Word(b"bool".as_slice()))?,
        Kind::Int => pieces.push(Piece::Word(b"int".as_slice()))?,
        Kind::Array => pieces.push(Piece::Word(b"an array".as_slice()))?,
        Kind::Record(fields) => {
            let mut own = Page::new(alloc);
            own.text("a record {")?;
            let mut is_first = true;
            for field in fields {
                own.text(if is_first { "" } else { ", " })?;
                own.bytes(field.as_bytes())?;
                is_first = false;
            }
            own.text("}")?;
            pieces.push(Piece::Text(own))?;
        }
    }
    if !holds {
        pieces.push(Piece::Word(b")".as_slice()))?;
    }
    Ok(pieces)
}

fn in_pieces(
    alloc: Global,
    words: Words,
    value: u32,
    number: u32,
    holds: bool,
) -> Result<Vec<Piece>, NoMemory> {
    let mut pieces = between(
        alloc,
        if holds {
            b"".as_slice()
        } else {
            b"!(".as_slice()
        },
        value,
        TIGHT,
        b" is ".as_slice(),
    )?;
    let mut own = Page::new(alloc);
    match alias_name(words.core, number) {
        Some(name) => own.text(name.as_str())?,
        None => own.text("?")?,
    }
    own.text(if holds { "" } else { ")" })?;
    pieces.push(Piece::Text(own))?;
    Ok(pieces)
}

// Formulas that hold or are denied, joined by `&&` or `||`.
fn joined(
    alloc: Global,
    parts: &[u32],
    holds: bool,
    is_all: bool,
    around: u8,
) -> Result<Vec<Piece>, NoMemory> {
    let mut pieces = Vec::new(alloc);
    match parts {
        [] => {
            pieces.push(Piece::Word(if is_all {
                b"true".as_slice()
            } else {
                b"false".as_slice()
            }))?;
            return Ok(pieces);
        }
        [only] => {
            pieces.push(Piece::Formula(*only, holds, around))?;
            return Ok(pieces);
        }
        _ => {}
    }
    if around > LOOSE {
        pieces.push(Piece::Word(b"(".as_slice()))?;
    }
    let mut is_first = true;
    for part in parts {
        if !is_first {
            pieces.push(Piece::Word(if is_all {
                b" && ".as_slice()
            } else {
                b" || ".as_slice()
            }))?;
        }
        is_first = false;
        pieces.push(Piece::Formula(*part, holds, LOGIC))?;
    }
    if around > LOOSE {
        pieces.push(Piece::Word(b")".as_slice()))?;
    }
    Ok(pieces)
}

fn quantified(
    alloc: Global,
    front: &'static [u8],
    quantifier: &Quantifier,
    holds: bool,
) -> Result<Vec<Piece>, NoMemory> {
    let mut pieces = Vec::new(alloc);
    if !holds {
        pieces.push(Piece::Word(b"!".as_slice()))?;
    }
    pieces.push(Piece::Word(front))?;
    let mut own = Page::new(alloc);
    own.text(" ")?;
    own.bytes(quantifier.word.as_bytes())?;
    own.text(" in ")?;
    pieces.push(Piece::Text(own))?;
    pieces.push(Piece::Term(quantifier.from, SUM))?;
    pieces.push(Piece::Word(b"..".as_slice()))?;
    pieces.push(Piece::Term(quantifier.below, SUM))?;
    pieces.push(Piece::Word(b" | ".as_slice()))?;
    pieces.push(Piece::Formula(quantifier.body, true, LOOSE))?;
    pieces.push(Piece::Word(b" }".as_slice()))?;
    Ok(pieces)
}
