//! Faults of the text: what can't be read.
use crate::checker::Checker;
use crate::follows::{could_stand, put_choices};
use std::alloc::Global;
use wy_explain_source::{
    Finding, Mark, NoMemory, Page, Seen, Sort, Span, TokenKind, hint, point_at, tokens,
};

/// What is told of a fault of the text at this place.
pub fn text_fault<C: Checker>(
    alloc: Global,
    seen: &Seen,
    checker: &C,
    word: &'static str,
    at: u32,
) -> Result<Finding, NoMemory> {
    let mut finding = Finding::new(alloc, word, at, seen.mark_at(at));
    match word {
        "NotUtf8" => not_utf8(seen, &mut finding)?,
        "BadChar" => bad_char(alloc, seen, &mut finding)?,
        "BadIndent" => bad_indent(alloc, seen, &mut finding)?,
        "BadNumeral" => bad_numeral(seen, &mut finding)?,
        "OpenComment" => finding
            .message
            .text("This comment isn't closed: no `*/` follows.")?,
        "Mixed" => mixed(alloc, seen, &mut finding)?,
        "Deep" => finding.message.text(
            "This stands inside more than 100 brackets, bars, prefix operators, right sides of `==>` and blocks together. Give a part of it a name of its own: a variable, or a property.",
        )?,
        "TooMany" => finding.message.text(
            "This is the 4,097th declaration; a source has 4,096 at most.",
        )?,
        _ => unexpected(alloc, seen, checker, &mut finding)?,
    }
    Ok(finding)
}

fn byte_at(seen: &Seen, at: u32) -> Option<u8> {
    seen.source.bytes.get(at as usize).copied()
}

fn not_utf8(seen: &Seen, finding: &mut Finding) -> Result<(), NoMemory> {
    finding.message.text("The byte ")?;
    finding
        .message
        .number(u64::from(byte_at(seen, finding.at).unwrap_or(0)))?;
    finding.message.text(
        " (decimal) is no part of UTF-8 here. Save the file as UTF-8, or leave the character out.",
    )
}

// Whether an odd number of quotes stands before the offset on its line.
fn is_in_text(seen: &Seen, at: u32) -> bool {
    let line = seen.source.line_of(at);
    let mut is_in = false;
    let mut is_escaped = false;
    for byte in seen.text(Span {
        from: line.from,
        to: at,
    }) {
        if *byte == b'"' && !is_escaped {
            is_in = !is_in;
        }
        is_escaped = is_in && *byte == b'\\' && !is_escaped;
    }
    is_in
}

fn bad_char(alloc: Global, seen: &Seen, finding: &mut Finding) -> Result<(), NoMemory> {
    let at = finding.at;
    let byte = byte_at(seen, at).unwrap_or(b'\n');
    if is_in_text(seen, at) {
        return bad_in_text(finding, byte);
    }
    if byte == b'\r' {
        return finding
            .message
            .text("A CR stands directly before an LF only.");
    }
    finding.span = character(seen, at);
    let shown = seen.text(finding.span);
    finding.message.code(shown)?;
    finding
        .message
        .text(" begins no word, number, string or sign of the language.")?;
    match byte {
        b'\'' => hint(
            alloc,
            finding,
            "a character is the number of its code, as 97 for a; a string stands in \"\"",
        ),
        b'#' => hint(alloc, finding, "a comment begins with `//`"),
        b'^' => hint(alloc, finding, "there is no power; write products"),
        b'?' => hint(
            alloc,
            finding,
            "a choice is an `if`; `T | null` is the type of a value that may lack",
        ),
        _ => Ok(()),
    }
}

fn bad_in_text(finding: &mut Finding, byte: u8) -> Result<(), NoMemory> {
    match byte {
        b'\n' | b'\r' => finding.message.text(
            "The string isn't closed: its line ends before a second `\"`.",
        ),
        b'\\' => finding.message.text(
            "This backslash begins no escape: `\\n`, `\\t`, `\\\\` and `\\\"` are all that there are.",
        ),
        _ => finding.message.text(
            "A string has characters from 32 to 126 only, and the escapes `\\n`, `\\t`, `\\\\` and `\\\"`.",
        ),
    }
}

// The character that begins at the offset.
fn character(seen: &Seen, at: u32) -> Span {
    let size = match byte_at(seen, at) {
        Some(byte) => {
            if byte < 192 {
                1
            } else if byte < 224 {
                2
            } else if byte < 240 {
                3
            } else {
                4
            }
        }
        None => 1,
    };
    Span {
        from: at,
        to: at.saturating_add(size),
    }
}

fn bad_indent(alloc: Global, seen: &Seen, finding: &mut Finding) -> Result<(), NoMemory> {
    let own = seen.source.indent_of(finding.at);
    finding.span = Span {
        from: own.from,
        to: own.to.max(own.from.saturating_add(1)),
    };
    finding.message.text("This line is indented by ")?;
    put_indent(&mut finding.message, seen.text(own))?;
    finding
        .message
        .text(", and no open block has that indentation: they have ")?;
    let open = open_indents(alloc, seen, own.from)?;
    put_indent(&mut finding.message, b"")?;
    for indent in open.as_slice() {
        finding.message.text(", ")?;
        put_indent(&mut finding.message, seen.text(*indent))?;
    }
    finding.message.text(
        ". A deeper block begins behind a line that ends with `:`, with the spaces and tabs of the block around it first.",
    )?;
    let innermost = match open.as_slice().last() {
        Some(indent) => seen.text(*indent).len(),
        None => 0,
    };
    put_line_before(alloc, seen, finding, own, innermost)
}

// The line before, where the line is deeper than the innermost open block and the line before doesn't begin one.
fn put_line_before(
    alloc: Global,
    seen: &Seen,
    finding: &mut Finding,
    own: Span,
    innermost: usize,
) -> Result<(), NoMemory> {
    if own.from == 0 || seen.text(own).len() <= innermost {
        return Ok(());
    }
    let before = seen.source.line_of(own.from.saturating_sub(1));
    if before.is_empty() || seen.text(before).ends_with(b":") {
        return Ok(());
    }
    point_at(
        alloc,
        finding,
        "No block begins behind this line, which doesn't end with `:`:",
        before,
    )
}

// The indentations of the blocks that are open before the offset, the outermost first.
fn open_indents(alloc: Global, seen: &Seen, at: u32) -> Result<Vec<Span>, NoMemory> {
    let mut open = Vec::new(alloc);
    let before = seen.text(Span { from: 0, to: at });
    if before.len() >= u32::MAX as usize {
        return Ok(open);
    }
    let cut = match tokens(alloc, before) {
        Ok(cut) => cut,
        Err(_) => return Ok(open),
    };
    for token in cut.as_slice() {
        if token.at >= at {
            break;
        }
        match &token.kind {
            TokenKind::BlockIn => open.push(seen.source.indent_of(token.at))?,
            TokenKind::BlockOut => {
                let _closed = open.pop();
            }
            _ => {}
        }
    }
    Ok(open)
}

// An indentation in words.
fn put_indent(page: &mut Page, indent: &[u8]) -> Result<(), NoMemory> {
    let mut spaces = 0u64;
    let mut tabs = 0u64;
    for byte in indent {
        if *byte == b'\t' {
            tabs = tabs.saturating_add(1);
        } else {
            spaces = spaces.saturating_add(1);
        }
    }
    if tabs == 0 {
        page.number(spaces)?;
        return page.text(if spaces == 1 { " space" } else { " spaces" });
    }
    page.number(tabs)?;
    page.text(if tabs == 1 { " tab" } else { " tabs" })?;
    if spaces == 0 {
        return Ok(());
    }
    page.text(" and ")?;
    page.number(spaces)?;
    page.text(" spaces, mixed")
}

fn bad_numeral(seen: &Seen, finding: &mut Finding) -> Result<(), NoMemory> {
    let tail = seen.text(Span {
        from: finding.at,
        to: seen.source.line_of(finding.at).to,
    });
    let mut size = 0usize;
    let mut digits = 0usize;
    for byte in tail {
        if !byte.is_ascii_alphanumeric() && *byte != b'_' && *byte < 128 {
            break;
        }
        if byte.is_ascii_digit() && digits == size {
            digits = digits.saturating_add(1);
        }
        size = size.saturating_add(1);
    }
    finding.span = Span::of(
        finding.at as usize,
        (finding.at as usize).saturating_add(size),
    );
    if digits < size {
        return finding.message.text(
            "A letter or `_` stands directly behind the numeral: put a space or an operator between, or let the name begin with its letter.",
        );
    }
    finding.message.text(
        "The numeral is too large: an `int` is at most 39614081257132168796771975167, which is 2^95 - 1.",
    )
}

// The other operator before this one, and where the part begins that it joins; no part where that isn't plain.
fn other_logic(seen: &Seen, at: u32) -> (Option<Mark>, u32) {
    let mut number = seen.marks.from(at);
    let mut deep = 0usize;
    let mut other = None;
    let mut front = at;
    for _ in 0..100_000 {
        if number == 0 {
            break;
        }
        number = number.saturating_sub(1);
        let mark = match seen.marks.get(number) {
            Some(mark) => mark,
            None => break,
        };
        match mark.sort {
            Sort::Close => deep = deep.saturating_add(1),
            Sort::Open => {
                if deep == 0 {
                    break;
                }
                deep = deep.saturating_sub(1);
            }
            Sort::Logic => {
                if deep == 0 && other.is_none() {
                    other = Some(mark);
                }
            }
            Sort::Word | Sort::Clause | Sort::LineEnd | Sort::Colon => {
                if deep == 0 && is_front(seen.text(mark.span)) {
                    break;
                }
            }
            Sort::Sign => {
                if deep == 0 && is_front(seen.text(mark.span)) {
                    break;
                }
            }
            _ => {}
        }
        front = mark.span.from;
    }
    (other, front)
}

// Whether an expression may begin behind this word or sign.
fn is_front(text: &[u8]) -> bool {
    let words = [
        "", "return", "assert", "if", "while", "requires", "ensures", "where", "=", "==>", ",",
        ":", ";", "switch", "in", "..",
    ];
    for word in words {
        if word.as_bytes() == text {
            return true;
        }
    }
    false
}

fn mixed(alloc: Global, seen: &Seen, finding: &mut Finding) -> Result<(), NoMemory> {
    finding.message.text("`&&` and `||` don't stand beside each other without brackets.")?;
    let (other, front) = other_logic(seen, finding.at);
    let other = match other {
        Some(other) => other,
        None => return Ok(()),
    };
    point_at(alloc, finding, "The other one stands here:", other.span)?;
    let before = match seen.marks.before(finding.at) {
        Some(mark) => mark.span.to,
        None => return Ok(()),
    };
    let line = seen.source.line_of(finding.at);
    if front < line.from || seen.source.line_of(other.span.from) != line {
        return Ok(());
    }
    let mut page = Page::new(alloc);
    page.text("for example `")?;
    page.bytes(seen.text(Span {
        from: seen.source.indent_of(line.from).to,
        to: front,
    }))?;
    page.text("(")?;
    page.bytes(seen.text(Span {
        from: front,
        to: before,
    }))?;
    page.text(")")?;
    page.bytes(seen.text(Span {
        from: before,
        to: line.to,
    }))?;
    page.text("`")?;
    finding.hint.push(page)?;
    Ok(())
}

/// The last bracket before the offset that isn't closed there.
pub fn open_bracket(seen: &Seen, at: u32) -> Option<Span> {
    let mut found = None;
    for mark in seen.marks.all() {
        if mark.span.from >= at {
            break;
        }
        if mark.sort == Sort::Open && seen.marks.close_of(mark.span.from) > at.max(mark.span.to) {
            found = Some(mark.span);
        }
        if mark.sort == Sort::Open && seen.marks.close_of(mark.span.from) <= mark.span.to {
            found = Some(mark.span);
        }
    }
    found
}

fn unexpected<C: Checker>(
    alloc: Global,
    seen: &Seen,
    checker: &C,
    finding: &mut Finding,
) -> Result<(), NoMemory> {
    let at = finding.at;
    let is_end = at as usize >= seen.source.bytes.len();
    let shown = seen.text(seen.mark_at(at));
    if is_end {
        finding.span = last_mark(seen);
        finding.message.text("The source ends too early.")?;
    } else if shown == b"\n".as_slice() || shown == b"\r".as_slice() {
        finding.message.text("The line ends too early.")?;
    } else {
        finding.message.code(shown)?;
        finding.message.text(" can't stand here.")?;
    }
    let choices = could_stand(alloc, seen, checker, at)?;
    put_choices(&mut finding.message, choices.as_slice())?;
    match open_bracket(seen, at) {
        Some(span) => point_at(alloc, finding, "This bracket is open:", span),
        None => Ok(()),
    }
}

// The last mark of the source.
fn last_mark(seen: &Seen) -> Span {
    let mut span = Span { from: 0, to: 1 };
    for mark in seen.marks.all() {
        if mark.sort != Sort::LineEnd {
            span = mark.span;
        }
    }
    span
}
