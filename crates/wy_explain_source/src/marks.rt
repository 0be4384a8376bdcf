//! The marks of a source: its tokens with the bytes that they take.
use crate::nodes::{Span, narrow};
use crate::source::cut;
use std::alloc::Global;
use wy_ast::NoMemory;
use wy_lex::{Token, TokenKind};

/// What a mark is, as far as an explanation asks.
#[derive(Clone, Copy, Debug, PartialEq, Eq)]
pub enum Sort {
    Word,
    Name,
    Literal,
    Open,
    Close,
    Bar,
    /// `&&` or `||`.
    Logic,
    /// `:`
    Colon,
    /// A word that begins a clause.
    Clause,
    Sign,
    LineEnd,
}

/// A token with the bytes that it takes, and the number of the mark that it opens or closes, or its own.
#[derive(Clone, Copy, Debug)]
pub struct Mark {
    pub sort: Sort,
    pub span: Span,
    pub partner: usize,
}

/// The marks of a source by rising places. The marks of blocks and of the end are left out.
#[derive(Drop)]
pub struct Marks {
    list: Vec<Mark>,
}

impl Marks {
    /// The marks of these tokens of the source.
    pub fn of(alloc: Global, bytes: &[u8], tokens: &[Token]) -> Result<Marks, NoMemory> {
        let mut list = Vec::new(alloc);
        let mut open: Vec<usize> = Vec::new(alloc);
        for token in tokens {
            let sort = match sort_of(&token.kind) {
                Some(sort) => sort,
                None => continue,
            };
            let number = list.len();
            let mut partner = number;
            if sort == Sort::Open {
                open.push(number)?;
            }
            if sort == Sort::Close {
                partner = closed(&mut open, &mut list, number);
            }
            let span = Span {
                from: token.at,
                to: end_of(bytes, sort, token.at),
            };
            list.push(Mark {
                sort,
                span,
                partner,
            })?;
        }
        Ok(Marks { list })
    }

    pub fn all(&self) -> &[Mark] {
        self.list.as_slice()
    }

    /// The mark with this number.
    pub fn get(&self, number: usize) -> Option<Mark> {
        match self.list.get(number) {
            Some(mark) => Some(*mark),
            None => None,
        }
    }

    /// The number of the first mark at or behind the offset; that of no mark where there is none.
    pub fn from(&self, at: u32) -> usize {
        let mut low = 0usize;
        let mut high = self.list.len();
        for _ in 0..64 {
            if low >= high {
                break;
            }
            let middle = low.saturating_add(high.saturating_sub(low) / 2);
            match self.list.get(middle) {
                Some(mark) => {
                    if mark.span.from < at {
                        low = middle.saturating_add(1);
                    } else {
                        high = middle;
                    }
                }
                None => high = middle,
            }
        }
        low
    }

    /// The mark at or behind the offset.
    pub fn at(&self, at: u32) -> Option<Mark> {
        self.get(self.from(at))
    }

    /// The mark before the offset.
    pub fn before(&self, at: u32) -> Option<Mark> {
        let number = self.from(at);
        if number == 0 {
            return None;
        }
        self.get(number.saturating_sub(1))
    }

    /// The end of the bracket's partner; the offset where no bracket stands there.
    pub fn close_of(&self, at: u32) -> u32 {
        match self.at(at) {
            Some(mark) => match self.get(mark.partner) {
                Some(partner) => partner.span.to.max(at),
                None => at,
            },
            None => at,
        }
    }

    /// The end of the mark at the offset.
    pub fn end_of(&self, at: u32) -> u32 {
        match self.at(at) {
            Some(mark) => mark.span.to.max(at),
            None => at,
        }
    }

    /// The end of the last mark on the line that goes on at the offset.
    pub fn line_end(&self, at: u32) -> u32 {
        let mut end = at;
        let first = self.from(at);
        for mark in rest(self.list.as_slice(), first) {
            if mark.sort == Sort::LineEnd {
                break;
            }
            end = mark.span.to;
        }
        end
    }

    /// The front of what stands there, with the brackets around it that close before the operator.
    pub fn widened_left(&self, from: u32, operator: u32) -> u32 {
        let mut from = from;
        for _ in 0..128 {
            let mark = match self.before(from) {
                Some(mark) => mark,
                None => break,
            };
            if mark.sort != Sort::Open || !self.closes_before(mark, operator) {
                break;
            }
            from = mark.span.from;
        }
        from
    }

    // Whether the bracket closes before the offset.
    fn closes_before(&self, mark: Mark, at: u32) -> bool {
        match self.get(mark.partner) {
            Some(partner) => partner.sort == Sort::Close && partner.span.from < at,
            None => false,
        }
    }

    /// The end of what ends there, with the brackets around it that open behind the operator.
    pub fn widened_right(&self, to: u32, operator: u32) -> u32 {
        let mut to = to;
        for _ in 0..128 {
            let mark = match self.at(to) {
                Some(mark) => mark,
                None => break,
            };
            if mark.sort != Sort::Close || !self.opens_behind(mark, operator) {
                break;
            }
            to = mark.span.to;
        }
        to
    }

    // Whether the bracket opens behind the offset.
    fn opens_behind(&self, mark: Mark, at: u32) -> bool {
        match self.get(mark.partner) {
            Some(partner) => partner.sort == Sort::Open && partner.span.from > at,
            None => false,
        }
    }
}

// The marks from a number on.
fn rest(marks: &[Mark], from: usize) -> &[Mark] {
    if from <= marks.len() {
        return &marks[from..];
    }
    &marks[..0]
}

// The bracket with this number closes the last open one, if there is one; its partner.
fn closed(open: &mut Vec<usize>, list: &mut Vec<Mark>, number: usize) -> usize {
    match open.pop() {
        Some(partner) => {
            if partner < list.len() {
                let mut mark = list[partner];
                mark.partner = number;
                list[partner] = mark;
            }
            partner
        }
        None => number,
    }
}

fn sort_of(kind: &TokenKind) -> Option<Sort> {
    match kind {
        TokenKind::BlockIn | TokenKind::BlockOut | TokenKind::End => None,
        TokenKind::LineEnd => Some(Sort::LineEnd),
        TokenKind::Name(_) => Some(Sort::Name),
        TokenKind::Numeral(_) | TokenKind::Text(_) => Some(Sort::Literal),
        TokenKind::OpenParen | TokenKind::OpenBracket | TokenKind::OpenBrace => Some(Sort::Open),
        TokenKind::CloseParen | TokenKind::CloseBracket | TokenKind::CloseBrace => Some(
            Sort::Close,
        ),
        TokenKind::Bar => Some(Sort::Bar),
        TokenKind::And | TokenKind::Or => Some(Sort::Logic),
        TokenKind::Colon => Some(Sort::Colon),
        TokenKind::Requires | TokenKind::Ensures | TokenKind::Where => Some(Sort::Clause),
        TokenKind::Comma
        | TokenKind::Semicolon
        | TokenKind::Dot
        | TokenKind::Range
        | TokenKind::Arrow
        | TokenKind::Assign
        | TokenKind::Equal
        | TokenKind::NotEqual
        | TokenKind::Less
        | TokenKind::LessEqual
        | TokenKind::Greater
        | TokenKind::GreaterEqual
        | TokenKind::Plus
        | TokenKind::Minus
        | TokenKind::Star
        | TokenKind::Slash
        | TokenKind::Percent
        | TokenKind::Not
        | TokenKind::Implies
        | TokenKind::Ampersand => Some(Sort::Sign),
        _ => Some(Sort::Word),
    }
}

// Whether the byte may stand in a name, a word or a numeral.
fn is_wordly(byte: u8) -> bool {
    byte.is_ascii_alphanumeric() || byte == b'_' || byte >= 128
}

// The byte behind the token that begins there.
fn end_of(bytes: &[u8], sort: Sort, at: u32) -> u32 {
    let from = at as usize;
    let tail = cut(bytes, from.min(bytes.len()), bytes.len());
    let size = match sort {
        Sort::LineEnd => 0,
        Sort::Word | Sort::Name | Sort::Clause => word_size(tail),
        Sort::Literal => literal_size(tail),
        Sort::Open | Sort::Close | Sort::Bar | Sort::Colon => 1,
        Sort::Logic => 2,
        Sort::Sign => sign_size(tail),
    };
    narrow(from.saturating_add(size))
}

fn word_size(tail: &[u8]) -> usize {
    let mut size = 0usize;
    for byte in tail {
        if !is_wordly(*byte) {
            break;
        }
        size = size.saturating_add(1);
    }
    size
}

// Of a numeral, or of a string with its quotes.
fn literal_size(tail: &[u8]) -> usize {
    let mut size = 0usize;
    let mut is_text = false;
    let mut is_escaped = false;
    for byte in tail {
        if size == 0 {
            is_text = *byte == b'"';
        } else if !is_text && !is_wordly(*byte) {
            break;
        } else if is_text && *byte == b'"' && !is_escaped {
            return size.saturating_add(1);
        }
        is_escaped = is_text && *byte == b'\\' && !is_escaped;
        size = size.saturating_add(1);
    }
    size
}

fn sign_size(tail: &[u8]) -> usize {
    if tail.starts_with(b"==>") {
        return 3;
    }
    for sign in ["==", "!=", "<=", ">=", "->", ".."] {
        if tail.starts_with(sign.as_bytes()) {
            return 2;
        }
    }
    1
}
