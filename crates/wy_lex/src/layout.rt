//! Lines and blocks.
ghost use Rattle.std.specs.Prelude.{◌≡◌, ◌≤◌, ◌<◌, ◌^◌, length, ◌++◌, IfOk, MatchOption};
ghost use Rattle.wy_lex.specs.Layout as layout;

use crate::blocks::Blocks;
use crate::symbol::Character;
use crate::token::{Token, TokenKind};
use crate::words::{continues, depth_after, is_colon};
use std::alloc::{AllocError, Global};
use wy_data::Bytes;
use wy_items::Items;

/// How far the line has come that tokens stand in.
#[derive(Clone, Copy, Debug, PartialEq, Eq)]
pub enum Line {
    /// The source has no token yet.
    Fresh,
    /// The last token stands in it.
    Open,
    /// It has ended at the offset, unless the next one continues it.
    Ended(u32),
}

/// What was read of a source.
#[derive(Drop)]
pub struct State {
    /// The tokens so far.
    pub made: Items<Token>,
    /// The indentations of the open blocks.
    pub blocks: Blocks,
    /// How many brackets are open.
    pub depth: usize,
    pub line: Line,
    /// The blanks that the line begins with which is read.
    pub indent: Bytes,
    /// Whether the last token is a colon.
    pub header: bool,
    /// What would lengthen the last piece that was read.
    pub more: Character,
}

/// Where nothing was read but the first blanks.
pub fn first_state(alloc: Global, indent: Bytes) -> Result<State, AllocError>
    ensures { IfOk result (λ s. s ≡ layout.first_state indent) }
{
    Ok(State {
        made: Items::new(alloc),
        blocks: Blocks::new(alloc)?,
        depth: 0,
        line: Line::Fresh,
        indent,
        header: false,
        more: Character::Blank,
    })
}

/// Whether a token may stand here that continues no line: within a line always, and first in a line if
/// its indentation fits.
pub fn may_stand(state: &State) -> bool
    ensures { result ≡ layout.may_stand state.now }
{
    if is_within(state.line) {
        return true;
    }
    match state.blocks.level(state.indent.as_slice()) {
        Some(_) => true,
        None => state.header && state.blocks.is_deeper(state.indent.as_slice()),
    }
}

fn is_within(line: Line) -> bool
    ensures { result ≡ layout.is_within line }
{
    matches!(line, Line::Open)
}

/// One more token. It begins a line if the last one has ended and it continues none.
pub fn placed(
    alloc: Global,
    state: State,
    kind: TokenKind,
    at: u32,
    more: Character,
) -> Result<State, AllocError>
    requires { state.depth ≤ length state.made }
    ensures value { IfOk result (λ s. s ≡ layout.placed state kind at more) }
    ensures counted { IfOk result (λ s. s.depth ≤ length s.made) }
{
    if is_within(state.line) || continues(&kind) {
        return added(state, kind, at, more);
    }
    added(begun(alloc, state, at)?, kind, at, more)
}

fn added(state: State, kind: TokenKind, at: u32, more: Character) -> Result<State, AllocError>
    requires { state.depth ≤ length state.made }
    ensures value { IfOk result (λ s. s ≡ layout.added state kind at more) }
    ensures counted { IfOk result (λ s. s.depth ≤ length s.made) }
{
    let State {
        mut made,
        blocks,
        depth,
        line: _,
        indent,
        header: _,
        more: _,
    } = state;
    let header = is_colon(&kind);
    let room = made.as_slice().len();
    prove!(depth <= room);
    let depth = depth_after(&kind, depth);
    made.push(Token { kind, at })?;
    Ok(State {
        made,
        blocks,
        depth,
        line: Line::Open,
        indent,
        header,
        more,
    })
}

// A line begins.
fn begun(alloc: Global, state: State, at: u32) -> Result<State, AllocError>
    requires { state.depth ≤ length state.made }
    ensures value { IfOk result (λ s. s ≡ layout.begun state at) }
    ensures counted { IfOk result (λ s. s.depth ≤ length s.made) }
{
    let State {
        made,
        mut blocks,
        depth,
        line,
        indent,
        header,
        more,
    } = state;
    let mut made = ended(made, line)?;
    match blocks.level(indent.as_slice()) {
        Some(n) => {
            let made = closed(made, blocks.len().saturating_sub(n + 1), at)?;
            blocks.keep(n + 1);
            let indent = Bytes::new(Vec::new(alloc));
            Ok(State {
                made,
                blocks,
                depth,
                line: Line::Open,
                indent,
                header,
                more,
            })
        }
        None => {
            made.push(Token {
                kind: TokenKind::BlockIn,
                at,
            })?;
            blocks.push(indent)?;
            let indent = Bytes::new(Vec::new(alloc));
            Ok(State {
                made,
                blocks,
                depth,
                line: Line::Open,
                indent,
                header,
                more,
            })
        }
    }
}

// The tokens, and the end of the line where it has ended.
fn ended(mut made: Items<Token>, line: Line) -> Result<Items<Token>, AllocError>
    ensures { IfOk result (λ ts. ts ≡ made ++ layout.ending line) }
{
    if let Line::Ended(at) = line {
        made.push(Token {
            kind: TokenKind::LineEnd,
            at,
        })?;
    }
    Ok(made)
}

// The tokens, and the ends of so many blocks.
#[tactic(auto, using(crate::proofs::LineLemmas::outs_next))]
fn closed(mut made: Items<Token>, count: usize, at: u32) -> Result<Items<Token>, AllocError>
    ensures { IfOk result (λ ts. ts ≡ made ++ layout.outs count at) }
{
    for _block in 0..count {
        made.push(Token {
            kind: TokenKind::BlockOut,
            at,
        })?;
    }
    Ok(made)
}

/// A line end, and the blanks that the line behind it begins with.
pub fn broken(state: State, at: u32, indent: Bytes) -> State
    ensures { result ≡ layout.broken state at indent }
{
    let line = if is_within(state.line) && state.depth == 0 {
        Line::Ended(at)
    } else {
        state.line
    };
    State {
        line,
        indent,
        more: Character::Blank,
        ..state
    }
}

/// What makes no token.
pub fn passed(state: State, more: Character) -> State
    ensures { result ≡ layout.passed state more }
{
    State { more, ..state }
}

/// All tokens of a source of so many bytes.
pub fn finished(state: State, size: u32) -> Result<Items<Token>, AllocError>
    ensures { IfOk result (λ ts. ts ≡ layout.finished state size) }
{
    let State {
        made,
        blocks,
        depth,
        line,
        indent: _,
        header: _,
        more: _,
    } = state;
    let mut made = if depth == 0 {
        let made = last_ended(made, line, size)?;
        closed(made, blocks.len().saturating_sub(1), size)?
    } else {
        made
    };
    made.push(Token {
        kind: TokenKind::End,
        at: size,
    })?;
    Ok(made)
}

// The tokens, and the end of the last line.
fn last_ended(mut made: Items<Token>, line: Line, size: u32) -> Result<Items<Token>, AllocError>
    ensures { IfOk result (λ ts. ts ≡ made ++ layout.last_ending line size) }
{
    match line {
        Line::Fresh => Ok(made),
        Line::Open => {
            made.push(Token {
                kind: TokenKind::LineEnd,
                at: size,
            })?;
            Ok(made)
        }
        Line::Ended(at) => {
            made.push(Token {
                kind: TokenKind::LineEnd,
                at,
            })?;
            Ok(made)
        }
    }
}
