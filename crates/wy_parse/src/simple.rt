//! Statements without blocks.
ghost use Rattle.std.specs.Prelude.{◌≡◌, true, None};
ghost use Rattle.wy_reading.specs.Reader.{Reads};
ghost use Rattle.wy_parse_grammar.specs.Steps as steps;
ghost use Rattle.wy_parse.specs.StmtGrammar as grammar;
ghost use Rattle.wy_parse.specs.StmtReading as spec;
ghost use Rattle.wy_parse.specs.StmtTrees as trees;
ghost use Rattle.wy_parse_grammar.specs.Trees.{some};
ghost use Rattle.wy_parse_grammar.specs.declared.measured.Measured.TheVariants.{Low};

use crate::parts::{ExprPart, TypePart, expr_part, type_part};
use std::alloc::Global;
use wy_ast::{Expr, Step, StepKind, Stmt, StmtKind};
use wy_data::Name;
use wy_items::Items;
use wy_lex::{Token, TokenKind};
use wy_parse_grammar::cursor::{Read, inner, inside, mark, name, next_in, next_is};
use wy_parse_grammar::expressions::{arguments, expr};
use wy_parse_grammar::measured::{Measured, both, boxed, pushed};
use wy_parse_grammar::sort::{
    ASSERT, ASSIGN, CLOSE_BRACKET, CLOSE_PAREN, Class, DOT, LINE_END, OPEN_BRACKET, OPEN_PAREN,
    RETURN, WHERE, has, sort,
};
use wy_parse_grammar::types::{array_node, named_node, type_rest, type_tail};
use wy_reading::Stop;

/// The steps of a path, as far as they were read.
type Path = Measured<Items<Step>>;

/// The node of a statement. A statement has no height of its own.
pub fn stmt_node(at: u32, kind: Measured<StmtKind>) -> Measured<Stmt>
    ensures { result ≡ trees.stmt_node at kind }
{
    match kind {
        Measured::Low(kind, _) => Measured::Low(Stmt { at, kind }, 0),
        Measured::High(at) => Measured::High(at),
    }
}

/// 'return' [ expr ] LINE
#[tactic(auto, unfolding(crate::specs::StmtReading::return_stmt))]
pub fn return_stmt(alloc: Global, tokens: &[Token], levels: usize) -> Read<'_, Measured<Stmt>>
    ensures { Reads (spec.return_stmt true levels tokens.now) result }
{
    let (at, rest) = mark(tokens, RETURN)?;
    if next_is(rest, LINE_END) {
        let (_, rest) = mark(rest, LINE_END)?;
        return Ok((bare_return(at), rest));
    }
    let (value, rest) = expr_part(alloc, rest, levels)?;
    let (_, rest) = mark(rest, LINE_END)?;
    Ok((return_node(at, value), rest))
}

fn bare_return(at: u32) -> Measured<Stmt>
    ensures { result ≡ trees.return_node at (Low None 0) }
{
    stmt_node(at, Measured::Low(StmtKind::Return(None), 0))
}

fn return_node(at: u32, value: ExprPart) -> Measured<Stmt>
    ensures { result ≡ trees.return_node at (some value) }
{
    let kind = match value {
        Measured::Low(value, height) => {
            Measured::Low(StmtKind::Return(Some(value.into_inner())), height)
        }
        Measured::High(at) => Measured::High(at),
    };
    stmt_node(at, kind)
}

/// 'assert' expr LINE
#[tactic(auto, unfolding(crate::specs::StmtReading::assert_stmt))]
pub fn assert_stmt(alloc: Global, tokens: &[Token], levels: usize) -> Read<'_, Measured<Stmt>>
    ensures { Reads (spec.assert_stmt true levels tokens.now) result }
{
    let (at, rest) = mark(tokens, ASSERT)?;
    let (test, rest) = expr_part(alloc, rest, levels)?;
    let (_, rest) = mark(rest, LINE_END)?;
    Ok((assert_node(at, test), rest))
}

fn assert_node(at: u32, test: ExprPart) -> Measured<Stmt>
    ensures { result ≡ trees.assert_node at test }
{
    let kind = match test {
        Measured::Low(test, height) => {
            Measured::Low(StmtKind::Assert(test.into_inner()), height)
        }
        Measured::High(at) => Measured::High(at),
    };
    stmt_node(at, kind)
}

/// ( 'break' | 'continue' | 'skip' | 'fail' ) LINE
#[tactic(auto, unfolding(crate::specs::StmtReading::word_stmt, crate::specs::StmtReading::word))]
pub fn word_stmt(tokens: &[Token]) -> Read<'_, Measured<Stmt>>
    ensures { Reads (spec.word_stmt tokens.now) result }
{
    match tokens {
        [first, rest @ ..] if has(Class::Word, sort(&first.kind)) => {
            let (_, rest) = mark(rest, LINE_END)?;
            let kind = Measured::Low(word_kind(&first.kind), 0);
            Ok((stmt_node(first.at, kind), rest))
        }
        _ => Err(Stop::Unexpected(tokens.len())),
    }
}

fn word_kind(kind: &TokenKind) -> StmtKind
    ensures { result ≡ grammar.word_kind kind.now }
{
    match kind {
        TokenKind::Break => StmtKind::Break,
        TokenKind::Continue => StmtKind::Continue,
        TokenKind::Skip => StmtKind::Skip,
        _ => StmtKind::Fail,
    }
}

/// type NAME [ '=' expr ] LINE, where the type doesn't begin with a name
#[tactic(auto, unfolding(crate::specs::StmtReading::declare_stmt, wy_parse_grammar::specs::Steps::placed))]
pub fn declare_stmt(alloc: Global, tokens: &[Token], levels: usize) -> Read<'_, Measured<Stmt>>
    ensures { Reads (spec.declare_stmt true levels tokens.now) result }
{
    let at = place(tokens);
    let (ty, rest) = type_part(alloc, tokens, levels)?;
    declared(alloc, at, ty, rest, levels)
}

// Where the first token stands.
fn place(tokens: &[Token]) -> u32
    ensures { result ≡ steps.place tokens.now }
{
    match tokens {
        [] => 0,
        [first, ..] => first.at,
    }
}

// The rest of a declaration behind its type.
#[tactic(auto, unfolding(crate::specs::StmtReading::declared))]
fn declared<'a>(
    alloc: Global,
    at: u32,
    ty: TypePart,
    tokens: &'a [Token],
    levels: usize,
) -> Read<'a, Measured<Stmt>>
    ensures { Reads (spec.declared true levels at ty tokens.now) result }
{
    let ((_, name), rest) = name(alloc, tokens)?;
    if next_is(rest, ASSIGN) {
        let (_, rest) = mark(rest, ASSIGN)?;
        let (value, rest) = expr_part(alloc, rest, levels)?;
        let (_, rest) = mark(rest, LINE_END)?;
        return Ok((declare_node(at, ty, name, value), rest));
    }
    let (_, rest) = mark(rest, LINE_END)?;
    Ok((bare_declare(at, ty, name), rest))
}

fn bare_declare(at: u32, ty: TypePart, name: Name) -> Measured<Stmt>
    ensures { result ≡ trees.declare_node at ty name (Low None 0) }
{
    let kind = match ty {
        Measured::Low(ty, height) => {
            Measured::Low(StmtKind::Declare(ty.into_inner(), name, None), height)
        }
        Measured::High(at) => Measured::High(at),
    };
    stmt_node(at, kind)
}

fn declare_node(at: u32, ty: TypePart, name: Name, value: ExprPart) -> Measured<Stmt>
    ensures { result ≡ trees.declare_node at ty name (some value) }
{
    let kind = match both(ty, value) {
        Measured::Low((ty, value), height) => {
            let value = Some(value.into_inner());
            Measured::Low(StmtKind::Declare(ty.into_inner(), name, value), height)
        }
        Measured::High(at) => Measured::High(at),
    };
    stmt_node(at, kind)
}

/// A statement that begins with a name: a call, an assignment, or a declaration whose type begins
/// with it. One more token tells which, and behind a `[` another one.
#[tactic(auto, unfolding(crate::specs::StmtReading::named_stmt))]
pub fn named_stmt(alloc: Global, tokens: &[Token], levels: usize) -> Read<'_, Measured<Stmt>>
    ensures { Reads (spec.named_stmt true levels tokens.now) result }
{
    let ((at, name), rest) = name(alloc, tokens)?;
    if next_is(rest, OPEN_PAREN) {
        return call_stmt(alloc, at, name, rest, levels);
    }
    if next_is(rest, OPEN_BRACKET) {
        return bracket_stmt(alloc, at, name, rest, levels);
    }
    named_rest(alloc, at, name, rest, levels)
}

// What goes on with neither bracket behind a name: a type, or a path or a value.
#[tactic(auto, unfolding(crate::specs::StmtReading::named_rest))]
fn named_rest<'a>(
    alloc: Global,
    at: u32,
    name: Name,
    tokens: &'a [Token],
    levels: usize,
) -> Read<'a, Measured<Stmt>>
    ensures { Reads (spec.named_rest true levels at name tokens.now) result }
{
    if next_in(tokens, Class::TypeGoesOn) {
        let (ty, rest) = type_tail(alloc, named_node(at, name), tokens, levels)?;
        return declared(alloc, at, boxed(alloc, ty)?, rest, levels);
    }
    path_stmt(alloc, at, name, tokens, levels)
}

// [ '.' NAME { step } ] '=' expr LINE, behind the name
#[tactic(auto, unfolding(crate::specs::StmtReading::path_stmt))]
fn path_stmt<'a>(
    alloc: Global,
    at: u32,
    name: Name,
    tokens: &'a [Token],
    levels: usize,
) -> Read<'a, Measured<Stmt>>
    ensures { Reads (spec.path_stmt true levels at name tokens.now) result }
{
    let none = Measured::Low(Items::new(alloc), 0);
    if next_is(tokens, DOT) {
        let (path, rest) = field_step(alloc, none, tokens)?;
        return assigned(alloc, at, name, path, rest, levels);
    }
    valued(alloc, at, name, none, tokens, levels)
}

// NAME '(' args ')' LINE, behind the name
#[tactic(auto, unfolding(crate::specs::StmtReading::call_stmt))]
fn call_stmt<'a>(
    alloc: Global,
    at: u32,
    name: Name,
    tokens: &'a [Token],
    levels: usize,
) -> Read<'a, Measured<Stmt>>
    ensures { Reads (spec.call_stmt true levels at name tokens.now) result }
{
    let (_, rest) = mark(tokens, OPEN_PAREN)?;
    let (args, rest) = arguments(alloc, rest, inside(levels))?;
    let (_, rest) = inner(rest, CLOSE_PAREN, inside(levels))?;
    let (_, rest) = mark(rest, LINE_END)?;
    Ok((call_node(at, name, args), rest))
}

fn call_node(at: u32, name: Name, args: Measured<Items<Expr>>) -> Measured<Stmt>
    ensures { result ≡ trees.call_node at name args }
{
    let kind = match args {
        Measured::Low(args, height) => Measured::Low(StmtKind::Call(name, args), height),
        Measured::High(at) => Measured::High(at),
    };
    stmt_node(at, kind)
}

// What goes on with '[' behind a name: a type of arrays, or the path into a variable.
#[tactic(auto, unfolding(crate::specs::StmtReading::bracket_stmt))]
fn bracket_stmt<'a>(
    alloc: Global,
    at: u32,
    name: Name,
    tokens: &'a [Token],
    levels: usize,
) -> Read<'a, Measured<Stmt>>
    ensures { Reads (spec.bracket_stmt true levels at name tokens.now) result }
{
    let (bracket, rest) = mark(tokens, OPEN_BRACKET)?;
    if next_is(rest, CLOSE_BRACKET) {
        return array_stmt(alloc, at, name, bracket, rest, levels);
    }
    index_stmt(alloc, at, name, bracket, rest, levels)
}

// The rest of a declaration whose type begins with NAME '[' ']', behind the first bracket.
#[tactic(auto, unfolding(crate::specs::StmtReading::array_stmt))]
fn array_stmt<'a>(
    alloc: Global,
    at: u32,
    name: Name,
    bracket: u32,
    tokens: &'a [Token],
    levels: usize,
) -> Read<'a, Measured<Stmt>>
    ensures { Reads (spec.array_stmt true levels at name bracket tokens.now) result }
{
    let (_, rest) = inner(tokens, CLOSE_BRACKET, inside(levels))?;
    let begun = array_node(alloc, bracket, named_node(at, name))?;
    let (ty, rest) = type_rest(alloc, begun, rest, levels)?;
    declared(alloc, at, boxed(alloc, ty)?, rest, levels)
}

// The rest of an assignment into NAME '[' expr ']', behind the first bracket.
#[tactic(auto, unfolding(crate::specs::StmtReading::index_stmt))]
fn index_stmt<'a>(
    alloc: Global,
    at: u32,
    name: Name,
    bracket: u32,
    tokens: &'a [Token],
    levels: usize,
) -> Read<'a, Measured<Stmt>>
    ensures { Reads (spec.index_stmt true levels at name bracket tokens.now) result }
{
    let (index, rest) = expr_part(alloc, tokens, inside(levels))?;
    let (_, rest) = mark(rest, CLOSE_BRACKET)?;
    let none = Measured::Low(Items::new(alloc), 0);
    let path = pushed(none, index_step(bracket, index))?;
    assigned(alloc, at, name, path, rest, levels)
}

// { '[' expr ']' | '.' NAME } '=' expr LINE, behind the name and the first steps
#[tactic(auto, unfolding(crate::specs::StmtReading::assigned))]
fn assigned<'a>(
    alloc: Global,
    at: u32,
    name: Name,
    path: Path,
    tokens: &'a [Token],
    levels: usize,
) -> Read<'a, Measured<Stmt>>
    ensures { Reads (spec.assigned true levels at name path tokens.now) result }
{
    let (path, rest) = steps(alloc, path, tokens, levels)?;
    valued(alloc, at, name, path, rest, levels)
}

// '=' expr LINE, behind the name and its path
#[tactic(auto, unfolding(crate::specs::StmtReading::valued))]
fn valued<'a>(
    alloc: Global,
    at: u32,
    name: Name,
    path: Path,
    tokens: &'a [Token],
    levels: usize,
) -> Read<'a, Measured<Stmt>>
    ensures { Reads (spec.valued true levels at name path tokens.now) result }
{
    let (_, rest) = mark(tokens, ASSIGN)?;
    let (value, rest) = expr_part(alloc, rest, levels)?;
    let (_, rest) = mark(rest, LINE_END)?;
    Ok((assign_node(at, name, path, value), rest))
}

fn assign_node(at: u32, name: Name, path: Path, value: ExprPart) -> Measured<Stmt>
    ensures { result ≡ trees.assign_node at name path value }
{
    let kind = match both(path, value) {
        Measured::Low((path, value), height) => {
            Measured::Low(StmtKind::Assign(name, path, value.into_inner()), height)
        }
        Measured::High(at) => Measured::High(at),
    };
    stmt_node(at, kind)
}

#[tactic(auto, using(wy_reading::proofs::Turns::reader_steps), unfolding(crate::specs::StmtReading::steps))]
fn steps<'a>(alloc: Global, path: Path, tokens: &'a [Token], levels: usize) -> Read<'a, Path>
    ensures { Reads (spec.steps true levels path tokens.now) result }
{
    let (mut made, mut rest) = (path, tokens);
    for _turn in 0..tokens.len() {
        if !next_in(rest, Class::Step) {
            return Ok((made, rest));
        }
        let (more, after) = step(alloc, made, rest, levels)?;
        made = more;
        rest = after;
    }
    Ok((made, rest))
}

#[tactic(auto, unfolding(crate::specs::StmtReading::step))]
fn step<'a>(alloc: Global, path: Path, tokens: &'a [Token], levels: usize) -> Read<'a, Path>
    ensures { Reads (spec.step true levels path tokens.now) result }
{
    if next_is(tokens, OPEN_BRACKET) {
        let (at, rest) = mark(tokens, OPEN_BRACKET)?;
        let (index, rest) = expr_part(alloc, rest, inside(levels))?;
        let (_, rest) = mark(rest, CLOSE_BRACKET)?;
        return Ok((pushed(path, index_step(at, index))?, rest));
    }
    field_step(alloc, path, tokens)
}

// '.' NAME
#[tactic(auto, unfolding(crate::specs::StmtReading::field_step))]
fn field_step<'a>(alloc: Global, path: Path, tokens: &'a [Token]) -> Read<'a, Path>
    ensures { Reads (spec.field_step path tokens.now) result }
{
    let (at, rest) = mark(tokens, DOT)?;
    let ((_, name), rest) = name(alloc, rest)?;
    let kind = StepKind::Field(name);
    Ok((pushed(path, Measured::Low(Step { at, kind }, 0))?, rest))
}

fn index_step(at: u32, index: ExprPart) -> Measured<Step>
    ensures { result ≡ trees.index_step at index }
{
    match index {
        Measured::Low(index, height) => {
            let kind = StepKind::Index(index.into_inner());
            Measured::Low(Step { at, kind }, height)
        }
        Measured::High(at) => Measured::High(at),
    }
}

/// { 'where' expr }, behind those that were read
#[tactic(auto, using(wy_reading::proofs::Turns::reader_steps), unfolding(crate::specs::StmtReading::wheres))]
pub fn wheres<'a>(
    alloc: Global,
    clauses: Measured<Items<Expr>>,
    tokens: &'a [Token],
    levels: usize,
) -> Read<'a, Measured<Items<Expr>>>
    ensures { Reads (spec.wheres true levels clauses tokens.now) result }
{
    let (mut made, mut rest) = (clauses, tokens);
    for _turn in 0..tokens.len() {
        if !next_is(rest, WHERE) {
            return Ok((made, rest));
        }
        let (more, after) = where_clause(alloc, made, rest, levels)?;
        made = more;
        rest = after;
    }
    Ok((made, rest))
}

/// 'where' expr
pub fn where_clause<'a>(
    alloc: Global,
    clauses: Measured<Items<Expr>>,
    tokens: &'a [Token],
    levels: usize,
) -> Read<'a, Measured<Items<Expr>>>
    ensures { Reads (spec.where_clause true levels clauses tokens.now) result }
{
    let (_, rest) = mark(tokens, WHERE)?;
    let (clause, rest) = expr(alloc, rest, levels)?;
    Ok((pushed(clauses, clause)?, rest))
}
