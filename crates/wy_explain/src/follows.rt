//! What could stand in the place of a token that can't.
use crate::checker::Checker;
use crate::text_faults::open_bracket;
use std::alloc::Global;
use wy_explain_source::{NoMemory, Page, Seen, Span};

/// Sources above this size aren't tried.
const LARGEST: usize = 65_536;

/// Tokens that are told by one word where two of them could stand.
#[derive(Clone, Copy, PartialEq, Eq)]
enum Family {
    /// None: it is told by its own words.
    Own,
    Expression,
    Type,
    Operator,
    Statement,
    Declaration,
}

impl Family {
    fn words(self) -> &'static str {
        match self {
            Family::Own => "",
            Family::Expression => "an expression",
            Family::Type => "a type",
            Family::Operator => "an operator",
            Family::Statement => "a statement",
            Family::Declaration => "a declaration",
        }
    }
}

/// A token that is tried, its own words, and its family.
const TRIED: [(&str, &str, Family); 44] = [
    ("x__", "a name", Family::Expression),
    ("7", "a numeral", Family::Expression),
    ("\"\"", "a string", Family::Expression),
    ("all", "`all`", Family::Expression),
    ("null", "`null`", Family::Expression),
    ("true", "`true`", Family::Expression),
    ("(", "`(`", Family::Expression),
    ("[", "`[`", Family::Expression),
    ("{", "`{`", Family::Expression),
    ("!", "`!`", Family::Expression),
    ("-", "`-`", Family::Expression),
    ("|", "`|`", Family::Expression),
    ("int", "a type", Family::Type),
    ("+", "an operator", Family::Operator),
    ("%", "an operator", Family::Operator),
    ("==", "an operator", Family::Operator),
    ("&&", "an operator", Family::Operator),
    ("||", "an operator", Family::Operator),
    ("==>", "an operator", Family::Operator),
    (")", "`)`", Family::Own),
    ("]", "`]`", Family::Own),
    ("}", "`}`", Family::Own),
    (",", "`,`", Family::Own),
    (":", "`:`", Family::Own),
    (";", "`;`", Family::Own),
    (".", "`.`", Family::Own),
    ("..", "`..`", Family::Own),
    ("=", "`=`", Family::Own),
    ("->", "`->`", Family::Own),
    ("is", "`is`", Family::Own),
    ("in", "`in`", Family::Own),
    ("where", "`where`", Family::Own),
    ("requires", "`requires`", Family::Own),
    ("ensures", "`ensures`", Family::Own),
    ("return", "a statement", Family::Statement),
    ("while", "a statement", Family::Statement),
    ("else", "`else`", Family::Own),
    ("case", "`case`", Family::Own),
    ("default", "`default`", Family::Own),
    ("function", "a declaration", Family::Declaration),
    ("type", "a declaration", Family::Declaration),
    ("method", "a declaration", Family::Declaration),
    ("&", "`&`", Family::Own),
    ("\n", "the end of the line", Family::Own),
];

/// Which of the tried tokens could stand at the offset, by asking the reader of programs for each: in their order, an entry each.
pub fn could_stand<C: Checker>(
    alloc: Global,
    seen: &Seen,
    checker: &C,
    at: u32,
) -> Result<Vec<bool>, NoMemory> {
    let mut choices = Vec::new(alloc);
    let before = seen.text(Span { from: 0, to: at });
    if before.len() > LARGEST {
        return Ok(choices);
    }
    let is_open = open_bracket(seen, at).is_some();
    for number in 0..TRIED.len() {
        let token = TRIED[number].0.as_bytes();
        let is_told = token != b"\n".as_slice() || !is_open;
        choices.push(is_told && may_stand(alloc, checker, before, token)?)?;
    }
    Ok(choices)
}

// Whether a program may begin with the text and this token.
fn may_stand<C: Checker>(
    alloc: Global,
    checker: &C,
    before: &[u8],
    token: &[u8],
) -> Result<bool, NoMemory> {
    let mut page = Page::new(alloc);
    page.bytes(before)?;
    let is_fresh = match before.last() {
        Some(byte) => byte.is_ascii_whitespace(),
        None => true,
    };
    let is_line_end = token == b"\n".as_slice();
    if is_fresh && is_line_end {
        return Ok(false);
    }
    if !is_fresh && !is_line_end {
        page.text(" ")?;
    }
    let at = page.as_slice().len();
    page.bytes(token)?;
    match checker.unread(alloc, page.as_slice())? {
        Some(fault) => Ok(fault as usize > at),
        None => Ok(true),
    }
}

/// Writes the tokens that could stand, families by their words where two of them could.
pub fn put_choices(page: &mut Page, choices: &[bool]) -> Result<(), NoMemory> {
    let mut told = 0usize;
    for number in 0..TRIED.len() {
        let (_, own, family) = TRIED[number];
        let is_family = family != Family::Own && in_family(choices, family, TRIED.len()) > 1;
        if !could(choices, number) || (is_family && is_told(choices, family, number)) {
            continue;
        }
        page.text(if told == 0 { " Here may stand: " } else { ", " })?;
        if is_family {
            page.text(family.words())?;
        } else {
            page.bytes(own.as_bytes())?;
        }
        told = told.saturating_add(1);
    }
    if told > 0 {
        page.text(".")?;
    }
    Ok(())
}

// Whether a family needs no words here: an earlier one of it could stand, or it is but a bar and a minus, which are operators too.
fn is_told(choices: &[bool], family: Family, number: usize) -> bool {
    in_family(choices, family, number) > 0 || (family == Family::Expression && !could(choices, 1))
}

fn could(choices: &[bool], number: usize) -> bool {
    match choices.get(number) {
        Some(could) => *could,
        None => false,
    }
}

// How many of a family could stand, of those before this number.
fn in_family(choices: &[bool], family: Family, number: usize) -> usize {
    let mut count = 0usize;
    for other in 0..TRIED.len() {
        if other < number && TRIED[other].2 == family && could(choices, other) {
            count = count.saturating_add(1);
        }
    }
    count
}
