//! Terms and formulas as text.
ghost use Rattle.std.specs.Prelude.{◌≡◌, ◌<◌, ℕ, ◌++◌, ◌∷◌, [], All, codes, length, map, string_bytes, IfOk, OnOk};
ghost use Rattle.std.specs.Fmt.{decimal};
ghost use Rattle.wy_term.specs.Nodes.{tree_at, parts_at, plain_kind};
ghost use Rattle.wy_term_text.specs.show.Text.{separated, labelled, applied, bound, connected, truth_text, number_name, datum_name, kind_text, text_of, texts_of};
ghost use Rattle.wy_term_text.specs.show.TextView.{piece_text, all_text, stack_text, IsPieceBelow};

use std::alloc::Global;
use wy_term::{Kind, Name, NoMemory, Node, Quantifier, Terms};

/// A part of a text that is still to be written.
#[derive(Drop)]
enum Piece {
    Word(&'static str),
    Text(String),
    Term(u32),
    // terms with a word between neighbours
    Terms(&'static str, Vec<u32>),
    // names and terms, as `a: v, b: w`
    Fields(Vec<(Name, u32)>),
}

// ---- names and kinds

fn number_name(alloc: Global, word: &Name, number: u128) -> Result<String, NoMemory>
    ensures { IfOk result (λ s. string_bytes s ≡ number_name word.now number) }
{
    Ok(format!(in alloc; "{}#{}", word.as_str(), number)?)
}

fn datum_name(alloc: Global, word: &Name, number: u128) -> Result<String, NoMemory>
    ensures { IfOk result (λ s. string_bytes s ≡ datum_name word.now number) }
{
    Ok(format!(in alloc; "{}.{}", word.as_str(), number)?)
}

fn type_text(alloc: Global, number: u32) -> Result<String, NoMemory>
    ensures { IfOk result (λ s. string_bytes s ≡ decimal number) }
{
    Ok(format!(in alloc; "{number}")?)
}

// Names with a comma between neighbours.
#[tactic(auto, using(crate::proofs::show_lemmas::TextLemmas::names_more, crate::proofs::show_lemmas::TextLemmas::names_end))]
fn name_list(alloc: Global, names: &[Name]) -> Result<String, NoMemory>
    ensures { IfOk result (λ s. string_bytes s ≡ separated (codes ", ") names.now) }
{
    let mut text = String::new(alloc);
    match names {
        [] => Ok(text),
        [first, others @ ..] => {
            text.push_str(first.as_str())?;
            for name in others {
                text.push_str(", ")?;
                text.push_str(name.as_str())?;
            }
            Ok(text)
        }
    }
}

fn kind_text(alloc: Global, kind: &Kind) -> Result<String, NoMemory>
    ensures { IfOk result (λ s. string_bytes s ≡ kind_text (plain_kind kind.now)) }
{
    match kind {
        Kind::Null => Ok(String::from_str(alloc, "null")?),
        Kind::Bool => Ok(String::from_str(alloc, "bool")?),
        Kind::Int => Ok(String::from_str(alloc, "int")?),
        Kind::Array => Ok(String::from_str(alloc, "array")?),
        Kind::Record(names) => {
            let names = name_list(alloc, names)?;
            Ok(format!(in alloc; "{{{}}}", names.as_str())?)
        }
    }
}

// ---- nodes

// One piece of text.
fn alone(_terms: &Terms, alloc: Global, text: String) -> Result<Vec<Piece>, NoMemory>
    ensures value { IfOk result (λ ps. all_text (tree_at _terms.now) ps.items ≡ string_bytes text) }
    ensures below { IfOk result (λ ps. All (IsPieceBelow (length _terms.now)) ps.items) }
{
    let mut pieces = Vec::new(alloc);
    pieces.push(Piece::Text(text))?;
    Ok(pieces)
}

// A fixed text.
fn word(_terms: &Terms, alloc: Global, word: &'static str) -> Result<Vec<Piece>, NoMemory>
    ensures value { IfOk result (λ ps. all_text (tree_at _terms.now) ps.items ≡ word.now) }
    ensures below { IfOk result (λ ps. All (IsPieceBelow (length _terms.now)) ps.items) }
{
    let mut pieces = Vec::new(alloc);
    pieces.push(Piece::Word(word))?;
    Ok(pieces)
}

// Terms between an opening and a closing text.
fn enclosed(
    _terms: &Terms,
    alloc: Global,
    before: &'static str,
    parts: &[u32],
    sep: &'static str,
    behind: &'static str,
) -> Result<Vec<Piece>, NoMemory>
    requires { All (λ k. k < length _terms.now) parts.now }
    ensures value { IfOk result (λ ps. all_text (tree_at _terms.now) ps.items ≡ before.now ++ (separated sep.now (texts_of (parts_at (tree_at _terms.now) parts.now)) ++ behind.now)) }
    ensures below { IfOk result (λ ps. All (IsPieceBelow (length _terms.now)) ps.items) }
{
    let mut pieces = Vec::new(alloc);
    pieces.push(Piece::Word(before))?;
    pieces.push(Piece::Terms(sep, Vec::from_slice(alloc, parts)?))?;
    pieces.push(Piece::Word(behind))?;
    Ok(pieces)
}

// Pieces in brackets: a term, and behind it what else there is.
fn with_text(
    _terms: &Terms,
    alloc: Global,
    before: &'static str,
    part: u32,
    text: String,
) -> Result<Vec<Piece>, NoMemory>
    requires { part < length _terms.now }
    ensures value { IfOk result (λ ps. all_text (tree_at _terms.now) ps.items ≡ before.now ++ (text_of (tree_at _terms.now part) ++ (codes ", " ++ (string_bytes text ++ codes ")")))) }
    ensures below { IfOk result (λ ps. All (IsPieceBelow (length _terms.now)) ps.items) }
{
    let mut pieces = Vec::new(alloc);
    pieces.push(Piece::Word(before))?;
    pieces.push(Piece::Term(part))?;
    pieces.push(Piece::Word(", "))?;
    pieces.push(Piece::Text(text))?;
    pieces.push(Piece::Word(")"))?;
    Ok(pieces)
}

fn record(_terms: &Terms, alloc: Global, fields: &[(Name, u32)]) -> Result<Vec<Piece>, NoMemory>
    requires { All (λ k. k < length _terms.now) (map (λ p. p.1) fields.now) }
    ensures value { IfOk result (λ ps. all_text (tree_at _terms.now) ps.items ≡ codes "rec{" ++ (separated (codes ", ") (labelled (map (λ p. p.0) fields.now) (texts_of (parts_at (tree_at _terms.now) (map (λ p. p.1) fields.now)))) ++ codes "}")) }
    ensures below { IfOk result (λ ps. All (IsPieceBelow (length _terms.now)) ps.items) }
{
    let mut pieces = Vec::new(alloc);
    pieces.push(Piece::Word("rec{"))?;
    pieces.push(Piece::Fields(copied_fields(alloc, fields)?))?;
    pieces.push(Piece::Word("}"))?;
    Ok(pieces)
}

fn copied_fields(alloc: Global, fields: &[(Name, u32)]) -> Result<Vec<(Name, u32)>, NoMemory>
    ensures { IfOk result (λ fs. fs.items ≡ fields.now) }
{
    let mut copies = Vec::new(alloc);
    for field in fields {
        copies.push((field.0.copy(alloc)?, field.1))?;
    }
    Ok(copies)
}

fn set_field(
    _terms: &Terms,
    alloc: Global,
    part: u32,
    name: &Name,
    other: u32,
) -> Result<Vec<Piece>, NoMemory>
    requires first { part < length _terms.now }
    requires second { other < length _terms.now }
    ensures value { IfOk result (λ ps. all_text (tree_at _terms.now) ps.items ≡ codes "setf(" ++ (text_of (tree_at _terms.now part) ++ (codes ", " ++ (name.now ++ (codes ", " ++ (text_of (tree_at _terms.now other) ++ codes ")")))))) }
    ensures below { IfOk result (λ ps. All (IsPieceBelow (length _terms.now)) ps.items) }
{
    let mut pieces = Vec::new(alloc);
    pieces.push(Piece::Word("setf("))?;
    pieces.push(Piece::Term(part))?;
    pieces.push(Piece::Word(", "))?;
    pieces.push(Piece::Text(String::from_str(alloc, name.as_str())?))?;
    pieces.push(Piece::Word(", "))?;
    pieces.push(Piece::Term(other))?;
    pieces.push(Piece::Word(")"))?;
    Ok(pieces)
}

fn quantifier(
    _terms: &Terms,
    alloc: Global,
    word: &'static str,
    q: &Quantifier,
) -> Result<Vec<Piece>, NoMemory>
    requires from { q.now.from < length _terms.now }
    requires below { q.now.below < length _terms.now }
    requires body { q.now.body < length _terms.now }
    ensures value { IfOk result (λ ps. all_text (tree_at _terms.now) ps.items ≡ bound word.now q.now.word q.now.number (text_of (tree_at _terms.now q.now.from) ∷ text_of (tree_at _terms.now q.now.below) ∷ text_of (tree_at _terms.now q.now.body) ∷ [])) }
    ensures below { IfOk result (λ ps. All (IsPieceBelow (length _terms.now)) ps.items) }
{
    let mut pieces = Vec::new(alloc);
    pieces.push(Piece::Word(word))?;
    pieces.push(Piece::Text(number_name(alloc, &q.word, q.number)?))?;
    pieces.push(Piece::Word(" in "))?;
    pieces.push(Piece::Term(q.from))?;
    pieces.push(Piece::Word(".."))?;
    pieces.push(Piece::Term(q.below))?;
    pieces.push(Piece::Word(" | ("))?;
    pieces.push(Piece::Term(q.body))?;
    pieces.push(Piece::Word(")"))?;
    Ok(pieces)
}

// A text, and behind it a term.
fn denial(_terms: &Terms, alloc: Global, part: u32) -> Result<Vec<Piece>, NoMemory>
    requires { part < length _terms.now }
    ensures value { IfOk result (λ ps. all_text (tree_at _terms.now) ps.items ≡ codes "not " ++ text_of (tree_at _terms.now part)) }
    ensures below { IfOk result (λ ps. All (IsPieceBelow (length _terms.now)) ps.items) }
{
    let mut pieces = Vec::new(alloc);
    pieces.push(Piece::Word("not "))?;
    pieces.push(Piece::Term(part))?;
    Ok(pieces)
}

fn comparison(
    _terms: &Terms,
    alloc: Global,
    part: u32,
    sign: &'static str,
    other: u32,
) -> Result<Vec<Piece>, NoMemory>
    requires first { part < length _terms.now }
    requires second { other < length _terms.now }
    ensures value { IfOk result (λ ps. all_text (tree_at _terms.now) ps.items ≡ text_of (tree_at _terms.now part) ++ (sign.now ++ text_of (tree_at _terms.now other))) }
    ensures below { IfOk result (λ ps. All (IsPieceBelow (length _terms.now)) ps.items) }
{
    let mut pieces = Vec::new(alloc);
    pieces.push(Piece::Term(part))?;
    pieces.push(Piece::Word(sign))?;
    pieces.push(Piece::Term(other))?;
    Ok(pieces)
}

fn connected(
    terms: &Terms,
    alloc: Global,
    none: &'static str,
    before: &'static str,
    parts: &[u32],
) -> Result<Vec<Piece>, NoMemory>
    requires { All (λ k. k < length terms.now) parts.now }
    ensures value { IfOk result (λ ps. all_text (tree_at terms.now) ps.items ≡ connected none.now before.now (texts_of (parts_at (tree_at terms.now) parts.now))) }
    ensures below { IfOk result (λ ps. All (IsPieceBelow (length terms.now)) ps.items) }
{
    if parts.is_empty() {
        return word(terms, alloc, none);
    }
    enclosed(terms, alloc, before, parts, "; ", ")")
}

// The pieces of a term's text.
fn pieces_of(terms: &Terms, t: u32) -> Result<Vec<Piece>, NoMemory>
    requires { t < length terms.now }
    ensures value { IfOk result (λ ps. all_text (tree_at terms.now) ps.items ≡ text_of (tree_at terms.now t)) }
    ensures below { IfOk result (λ ps. All (IsPieceBelow (length terms.now)) ps.items) }
{
    let alloc = terms.allocator();
    match terms.node(t) {
        Node::Number(z) => alone(terms, alloc, format!(in alloc; "{z}")?),
        Node::IntName(name, n) => alone(terms, alloc, number_name(alloc, name, *n)?),
        Node::Add(s, t) => enclosed(terms, alloc, "add(", &[*s, *t], ", ", ")"),
        Node::Sub(s, t) => enclosed(terms, alloc, "sub(", &[*s, *t], ", ", ")"),
        Node::Neg(s) => enclosed(terms, alloc, "neg(", &[*s], ", ", ")"),
        Node::Mul(s, t) => enclosed(terms, alloc, "mul(", &[*s, *t], ", ", ")"),
        Node::Div(s, t) => enclosed(terms, alloc, "div(", &[*s, *t], ", ", ")"),
        Node::Mod(s, t) => enclosed(terms, alloc, "mod(", &[*s, *t], ", ", ")"),
        Node::Num(v) => enclosed(terms, alloc, "num(", &[*v], ", ", ")"),
        Node::Len(v) => enclosed(terms, alloc, "len(", &[*v], ", ", ")"),
        Node::ValName(name, n) => alone(terms, alloc, datum_name(alloc, name, *n)?),
        Node::Null => word(terms, alloc, "null"),
        Node::Bool(true) => word(terms, alloc, "true"),
        Node::Bool(false) => word(terms, alloc, "false"),
        Node::Int(s) => enclosed(terms, alloc, "int(", &[*s], ", ", ")"),
        Node::Truth(f) => enclosed(terms, alloc, "bool(", &[*f], ", ", ")"),
        Node::Array(vs) => enclosed(terms, alloc, "arr[", vs, ", ", "]"),
        Node::Repeat(v, s) => enclosed(terms, alloc, "rep(", &[*v, *s], ", ", ")"),
        Node::Update(v, s, w) => enclosed(terms, alloc, "upd(", &[*v, *s, *w], ", ", ")"),
        Node::Get(v, s) => enclosed(terms, alloc, "get(", &[*v, *s], ", ", ")"),
        Node::Record(fields) => record(terms, alloc, fields),
        Node::Field(v, name) => {
            let name = String::from_str(alloc, name.as_str())?;
            with_text(terms, alloc, "fld(", *v, name)
        }
        Node::SetField(v, name, w) => set_field(terms, alloc, *v, name, *w),
        Node::AtMost(s, t) => comparison(terms, alloc, *s, " <= ", *t),
        Node::Equal(v, w) => comparison(terms, alloc, *v, " = ", *w),
        Node::Kind(v, kind) => with_text(terms, alloc, "kind(", *v, kind_text(alloc, kind)?),
        Node::In(v, n) => with_text(terms, alloc, "in(", *v, type_text(alloc, *n)?),
        Node::All(q) => quantifier(terms, alloc, "all ", q),
        Node::Some(q) => quantifier(terms, alloc, "some ", q),
        Node::Not(f) => denial(terms, alloc, *f),
        Node::And(fs) => connected(terms, alloc, "true", "and(", fs),
        Node::Or(fs) => connected(terms, alloc, "false", "or(", fs),
    }
}

// ---- texts

// Terms with a text between neighbours.
#[tactic(auto, using(crate::proofs::show_lemmas::TextLemmas::terms_more, crate::proofs::show_lemmas::TextLemmas::terms_end))]
fn neighbours(
    _terms: &Terms,
    alloc: Global,
    sep: &'static str,
    parts: &[u32],
) -> Result<Vec<Piece>, NoMemory>
    requires { All (λ k. k < length _terms.now) parts.now }
    ensures value { IfOk result (λ ps. all_text (tree_at _terms.now) ps.items ≡ separated sep.now (texts_of (parts_at (tree_at _terms.now) parts.now))) }
    ensures below { IfOk result (λ ps. All (IsPieceBelow (length _terms.now)) ps.items) }
{
    let mut pieces = Vec::new(alloc);
    match parts {
        [] => Ok(pieces),
        [first, others @ ..] => {
            pieces.push(Piece::Term(*first))?;
            for part in others {
                pieces.push(Piece::Word(sep))?;
                pieces.push(Piece::Term(*part))?;
            }
            Ok(pieces)
        }
    }
}

// The fields of a record.
#[tactic(auto, using(crate::proofs::show_lemmas::TextLemmas::fields_more, crate::proofs::show_lemmas::TextLemmas::fields_end))]
fn fields_of(
    _terms: &Terms,
    alloc: Global,
    fields: Vec<(Name, u32)>,
) -> Result<Vec<Piece>, NoMemory>
    requires { All (λ k. k < length _terms.now) (map (λ p. p.1) fields.items) }
    ensures value { IfOk result (λ ps. all_text (tree_at _terms.now) ps.items ≡ separated (codes ", ") (labelled (map (λ p. p.0) fields.items) (texts_of (parts_at (tree_at _terms.now) (map (λ p. p.1) fields.items))))) }
    ensures below { IfOk result (λ ps. All (IsPieceBelow (length _terms.now)) ps.items) }
{
    let mut pieces = Vec::new(alloc);
    match fields.as_slice() {
        [] => Ok(pieces),
        [first, others @ ..] => {
            pieces.push(Piece::Text(String::from_str(alloc, first.0.as_str())?))?;
            pieces.push(Piece::Word(": "))?;
            pieces.push(Piece::Term(first.1))?;
            for field in others {
                pieces.push(Piece::Word(", "))?;
                pieces.push(Piece::Text(String::from_str(alloc, field.0.as_str())?))?;
                pieces.push(Piece::Word(": "))?;
                pieces.push(Piece::Term(field.1))?;
            }
            Ok(pieces)
        }
    }
}

// What a piece with terms is made of.
fn expanded(terms: &Terms, piece: Piece) -> Result<Vec<Piece>, NoMemory>
    requires { IsPieceBelow (length terms.now) piece }
    ensures value { IfOk result (λ ps. all_text (tree_at terms.now) ps.items ≡ piece_text (tree_at terms.now) piece) }
    ensures below { IfOk result (λ ps. All (IsPieceBelow (length terms.now)) ps.items) }
{
    let alloc = terms.allocator();
    match piece {
        Piece::Word(text) => word(terms, alloc, text),
        Piece::Text(text) => alone(terms, alloc, text),
        Piece::Term(t) => pieces_of(terms, t),
        Piece::Terms(sep, parts) => neighbours(terms, alloc, sep, &parts),
        Piece::Fields(fields) => fields_of(terms, alloc, fields),
    }
}

/// How a formula is written, in time linear in the length of the text. It works on a list of what is still to be
/// written, so a formula may be of any depth.
pub fn show_formula(terms: &Terms, formula: u32) -> Result<Vec<u8>, NoMemory>
    requires { formula < length terms.now }
    ensures { IfOk result (λ bytes. bytes.items ≡ text_of (tree_at terms.now formula)) }
{
    written(terms, formula)
}

// Writes a piece, or puts what it is made of on the list of what is still to be written.
#[tactic(auto, using(crate::proofs::show_lemmas::TextLemmas::expanded_text, crate::proofs::show_lemmas::TextLemmas::pieces_below))]
fn write_piece(
    terms: &Terms,
    out: &mut Vec<u8>,
    todo: &mut Vec<Piece>,
    piece: Piece,
) -> Result<(), NoMemory>
    requires piece { IsPieceBelow (length terms.now) piece }
    requires todo { All (IsPieceBelow (length terms.now)) todo.old.items }
    ensures value { OnOk result (out.new.items ++ stack_text (tree_at terms.now) todo.new.items ≡ out.old.items ++ (piece_text (tree_at terms.now) piece ++ stack_text (tree_at terms.now) todo.old.items)) }
    ensures todo { OnOk result (All (IsPieceBelow (length terms.now)) todo.new.items) }
{
    match piece {
        Piece::Word(word) => out.extend_from_slice(word.as_bytes())?,
        Piece::Text(text) => out.extend_from_slice(text.as_bytes())?,
        piece => {
            let mut pieces = expanded(terms, piece)?;
            pieces.reverse();
            todo.append(&mut pieces)?;
        }
    }
    Ok(())
}

// How a term or formula is written.
#[tactic(auto, using(crate::proofs::show_lemmas::TextLemmas::popped_text))]
fn written(terms: &Terms, root: u32) -> Result<Vec<u8>, NoMemory>
    requires { root < length terms.now }
    ensures { IfOk result (λ bytes. bytes.items ≡ text_of (tree_at terms.now root)) }
{
    let alloc = terms.allocator();
    let mut out = Vec::new(alloc);
    let mut todo = Vec::new(alloc);
    todo.push(Piece::Term(root))?;
    for _turn in 0..u64::MAX {
        match todo.pop() {
            None => return Ok(out),
            Some(piece) => write_piece(terms, &mut out, &mut todo, piece)?,
        }
    }
    Err(NoMemory)
}
