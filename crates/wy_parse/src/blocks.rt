//! Blocks. A switch with no case has its default's block on its own level, so nothing bounds how deep
//! such blocks stand in one another: those that are open are kept in a list and not on the stack.
ghost use Rattle.std.specs.Prelude.{◌≡◌, ◌≢◌, ◌+◌, ◌<◌, ◌&&◌, not, [], length, ℕ, true, false, IfOk};
ghost use Rattle.wy_reading.specs.Reader.{Reads};
ghost use Rattle.wy_reading.specs.Rule.{heads};
ghost use Rattle.wy_parse.specs.BlockGrammar.{width};
ghost use Rattle.wy_parse.specs.BlockReading.{block_at, shut_block};
ghost use Rattle.wy_parse_grammar.specs.Nests.{Nests};
ghost use Rattle.wy_parse.specs.OpenBlocks as open_blocks;
ghost use Rattle.wy_parse_grammar.specs.Sorts as sorts;
ghost use Rattle.wy_parse.specs.StmtTrees as trees;
ghost use Rattle.wy_parse_grammar.specs.Trees as parts;
ghost use Rattle.wy_parse_grammar.specs.declared.sort.Class.TheVariants as class;

use crate::nested::{Cases, Nested, Stmts, switch_node};
use crate::parts::{ExprPart, expr_part};
use crate::simple::{assert_stmt, declare_stmt, named_stmt, return_stmt, word_stmt};
use std::alloc::{AllocError, Global};
use wy_ast::Stmt;
use wy_items::Items;
use wy_lex::Token;
use wy_parse_grammar::cursor::{Read, inside, mark, next_in, next_is, too_deep};
use wy_parse_grammar::fault::Kind;
use wy_parse_grammar::measured::{Measured, both, pushed, some};
use wy_parse_grammar::sort::{
    ASSERT, BLOCK_IN, BLOCK_OUT, CASE, COLON, Class, DEFAULT, DO, FOR, IF, LINE_END, NAME, RETURN,
    SWITCH, WHILE,
};
use wy_reading::Stop;

/// A switch without cases whose default's block is read.
#[derive(Drop)]
pub struct Open {
    pub at: u32,
    pub value: ExprPart,
    /// The statements before it in its block.
    pub before: Stmts,
}

/// How far a block was read.
#[derive(Drop)]
pub struct Progress {
    /// The switches that are open, outermost first.
    pub switches: Items<Open>,
    /// The statements of the innermost block.
    pub made: Stmts,
    /// Whether the innermost block has a statement.
    pub begun: bool,
}

/// LINE IN stmt { stmt } OUT, whose statements stand where there are so many levels.
#[tactic(auto, using(crate::proofs::OpenBlocks::block_levels))]
pub fn block(
    alloc: Global,
    tokens: &[Token],
    levels: usize,
) -> Result<(Stmts, &[Token]), Stop<Kind>>
    ensures { Reads (block_at levels tokens.now) result }
{
    if levels == 0 {
        return shut_block(tokens);
    }
    let (_, rest) = mark(tokens, LINE_END)?;
    let (_, rest) = mark(rest, BLOCK_IN)?;
    let nested = Nested { alloc, block };
    statements(&nested, rest, levels)
}

// LINE IN, and a statement that stands too deep
#[tactic(auto, unfolding(crate::specs::BlockReading::shut_block))]
fn shut_block(tokens: &[Token]) -> Read<'_, Stmts>
    ensures { Reads (shut_block tokens.now) result }
{
    let (_, rest) = mark(tokens, LINE_END)?;
    let (_, rest) = mark(rest, BLOCK_IN)?;
    too_deep(rest, Class::Statement)
}

// stmt { stmt } OUT
fn statements<'a, B: Fn(Global, &[Token], usize) -> Result<(Stmts, &[Token]), Stop<Kind>>>(
    nested: &Nested<B>,
    tokens: &'a [Token],
    levels: usize,
) -> Read<'a, Stmts>
    requires some { 0 < levels }
    requires nests { (l : ℕ) → l < levels → Nests block_at l (B.pre nested.now.block) (B.post nested.now.block) }
    ensures { Reads (open_blocks.going levels width false parts.none tokens.now) result }
{
    let mut progress = Progress {
        switches: Items::new(nested.alloc),
        made: Measured::Low(Items::new(nested.alloc), 0),
        begun: false,
    };
    // Their number fits, and no more switches are open than tokens were read.
    count(tokens);
    let mut rest = tokens;
    'pieces: loop {
        if halts(&progress, rest) && progress.switches.is_empty() {
            let (_, rest) = mark(rest, BLOCK_OUT)?;
            return Ok((progress.made, rest));
        }
        let (more, after) = piece(nested, progress, rest, levels)?;
        progress = more;
        rest = after;
    }
}

// How many tokens there are.
fn count(tokens: &[Token]) -> usize
    ensures { result ≡ length tokens.now }
{
    tokens.len()
}

// Whether the innermost block is at its end.
fn halts(progress: &Progress, tokens: &[Token]) -> bool
    ensures { result ≡ (progress.now.begun && not (heads (sorts.has class.Statement) tokens.now)) }
{
    progress.begun && !next_in(tokens, Class::Statement)
}

// A statement, the begin of a switch without cases, or the end of one.
#[tactic(auto, using(crate::proofs::OpenBlocks::piece_steps))]
fn piece<'a, B: Fn(Global, &[Token], usize) -> Result<(Stmts, &[Token]), Stop<Kind>>>(
    nested: &Nested<B>,
    progress: Progress,
    tokens: &'a [Token],
    levels: usize,
) -> Read<'a, Progress>
    requires some { 0 < levels }
    requires nests { (l : ℕ) → l < levels → Nests block_at l (B.pre nested.now.block) (B.post nested.now.block) }
    requires room { length progress.switches + length tokens.now < width }
    requires goes_on { (progress.begun && not (heads (sorts.has class.Statement) tokens.now)) ≡ true → progress.switches ≢ [] }
    ensures { open_blocks.Goes levels progress tokens.now result }
{
    if halts(&progress, tokens) {
        return end(nested.alloc, progress, tokens);
    }
    if next_is(tokens, SWITCH) {
        return switch(nested, progress, tokens, levels);
    }
    let (stmt, rest) = statement(nested, tokens, levels)?;
    Ok((with(progress, stmt)?, rest))
}

// OUT OUT: the innermost open switch is whole.
#[tactic(auto, using(crate::proofs::OpenBlocks::end_steps))]
fn end(alloc: Global, progress: Progress, tokens: &[Token]) -> Read<'_, Progress>
    requires some { progress.switches ≢ [] }
    requires halts { (progress.begun && not (heads (sorts.has class.Statement) tokens.now)) ≡ true }
    requires room { length progress.switches + length tokens.now < width }
    ensures { (levels : ℕ) → open_blocks.Goes levels progress tokens.now result }
{
    let (_, rest) = mark(tokens, BLOCK_OUT)?;
    let (_, rest) = mark(rest, BLOCK_OUT)?;
    Ok((closed(alloc, progress)?, rest))
}

// A switch without cases is open.
fn opened(
    alloc: Global,
    at: u32,
    value: ExprPart,
    progress: Progress,
) -> Result<Progress, AllocError>
    ensures { IfOk result (λ p. p ≡ open_blocks.opened at value progress) }
{
    let Progress {
        mut switches,
        made,
        begun: _,
    } = progress;
    switches.push(Open {
        at,
        value,
        before: made,
    })?;
    Ok(Progress {
        switches,
        made: Measured::Low(Items::new(alloc), 0),
        begun: false,
    })
}

// The innermost open switch is whole.
fn closed(alloc: Global, progress: Progress) -> Result<Progress, AllocError>
    requires { progress.switches ≢ [] }
    ensures { IfOk result (λ p. open_blocks.Closes progress p) }
{
    let Progress {
        mut switches,
        made,
        begun,
    } = progress;
    match switches.pop() {
        Some(last) => {
            let made = whole(alloc, last, made)?;
            Ok(Progress {
                switches,
                made,
                begun,
            })
        }
        None => Ok(Progress {
            switches,
            made,
            begun,
        }),
    }
}

// The statements before a switch, with the switch, whose default has these.
fn whole(alloc: Global, last: Open, body: Stmts) -> Result<Stmts, AllocError>
    ensures { IfOk result (λ ss. ss ≡ open_blocks.closed last body) }
{
    let Open { at, value, before } = last;
    let alone = both(Measured::Low(Items::new(alloc), 0), some(body));
    pushed(before, switch_node(at, value, alone))
}

fn with(progress: Progress, stmt: Measured<Stmt>) -> Result<Progress, AllocError>
    ensures { IfOk result (λ p. p ≡ open_blocks.with_stmt progress stmt) }
{
    let Progress {
        switches,
        made,
        begun: _,
    } = progress;
    Ok(Progress {
        switches,
        made: pushed(made, stmt)?,
        begun: true,
    })
}

// 'switch' expr ':' LINE IN, and then its cases, or the begin of its default
#[tactic(auto, using(crate::proofs::OpenBlocks::switch_steps))]
fn switch<'a, B: Fn(Global, &[Token], usize) -> Result<(Stmts, &[Token]), Stop<Kind>>>(
    nested: &Nested<B>,
    progress: Progress,
    tokens: &'a [Token],
    levels: usize,
) -> Read<'a, Progress>
    requires some { 0 < levels }
    requires nests { (l : ℕ) → l < levels → Nests block_at l (B.pre nested.now.block) (B.post nested.now.block) }
    requires room { length progress.switches + length tokens.now < width }
    requires begins { heads (sorts.is sorts.SWITCH) tokens.now ≡ true }
    requires goes_on { (progress.begun && not (heads (sorts.has class.Statement) tokens.now)) ≡ false }
    ensures { open_blocks.Goes levels progress tokens.now result }
{
    let alloc = nested.alloc;
    let ((at, value), rest) = header(alloc, tokens, levels)?;
    if next_is(rest, DEFAULT) {
        let (_, rest) = lone_default(rest)?;
        return Ok((opened(alloc, at, value, progress)?, rest));
    }
    let (cases, rest) = with_cases(nested, rest, levels)?;
    Ok((with(progress, switch_node(at, value, cases))?, rest))
}

// 'switch' expr ':' LINE IN
#[tactic(auto, unfolding(crate::specs::OpenBlocks::header))]
fn header(alloc: Global, tokens: &[Token], levels: usize) -> Read<'_, (u32, ExprPart)>
    ensures { Reads (open_blocks.header levels tokens.now) result }
{
    let (at, rest) = mark(tokens, SWITCH)?;
    let (value, rest) = expr_part(alloc, rest, levels)?;
    let (_, rest) = mark(rest, COLON)?;
    let (_, rest) = mark(rest, LINE_END)?;
    let (_, rest) = mark(rest, BLOCK_IN)?;
    Ok(((at, value), rest))
}

// 'default' ':' LINE IN
#[tactic(auto, unfolding(crate::specs::OpenBlocks::lone_default))]
fn lone_default(tokens: &[Token]) -> Read<'_, u32>
    ensures { Reads (open_blocks.lone_default tokens.now) result }
{
    let (_, rest) = mark(tokens, DEFAULT)?;
    let (_, rest) = mark(rest, COLON)?;
    let (_, rest) = mark(rest, LINE_END)?;
    mark(rest, BLOCK_IN)
}

// A case, and what follows it in its switch.
#[tactic(auto, using(crate::proofs::StepLemmas::statement_steps), unfolding(crate::specs::OpenBlocks::with_cases))]
fn with_cases<'a, B: Fn(Global, &[Token], usize) -> Result<(Stmts, &[Token]), Stop<Kind>>>(
    nested: &Nested<B>,
    tokens: &'a [Token],
    levels: usize,
) -> Read<'a, Cases>
    requires some { 0 < levels }
    requires nests { (l : ℕ) → l < levels → Nests block_at l (B.pre nested.now.block) (B.post nested.now.block) }
    ensures { Reads (open_blocks.with_cases levels tokens.now) result }
{
    let none = Measured::Low(Items::new(nested.alloc), 0);
    let (_, rest) = mark(tokens, CASE)?;
    let (first, rest) = nested.case(none, rest, inside(levels))?;
    nested.cases(first, rest, inside(levels))
}

// A statement that is no switch.
#[tactic(auto, using(crate::proofs::StepLemmas::statement_steps), unfolding(crate::specs::OpenBlocks::statement_but_switch))]
fn statement<'a, B: Fn(Global, &[Token], usize) -> Result<(Stmts, &[Token]), Stop<Kind>>>(
    nested: &Nested<B>,
    tokens: &'a [Token],
    levels: usize,
) -> Read<'a, Measured<Stmt>>
    requires some { 0 < levels }
    requires nests { (l : ℕ) → l < levels → Nests block_at l (B.pre nested.now.block) (B.post nested.now.block) }
    ensures { Reads (open_blocks.statement_but_switch levels tokens.now) result }
{
    let alloc = nested.alloc;
    if next_is(tokens, NAME) {
        return named_stmt(alloc, tokens, levels);
    }
    if next_is(tokens, RETURN) {
        return return_stmt(alloc, tokens, levels);
    }
    if next_is(tokens, ASSERT) {
        return assert_stmt(alloc, tokens, levels);
    }
    if next_in(tokens, Class::Word) {
        return word_stmt(tokens);
    }
    if next_is(tokens, IF) {
        return nested.if_stmt(tokens, levels);
    }
    if next_is(tokens, WHILE) {
        return nested.while_stmt(tokens, levels);
    }
    if next_is(tokens, DO) {
        return nested.do_stmt(tokens, levels);
    }
    if next_is(tokens, FOR) {
        return nested.for_stmt(tokens, levels);
    }
    declare_stmt(alloc, tokens, levels)
}
