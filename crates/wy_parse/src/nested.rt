//! Statements with blocks, over a function value that reads the blocks one level deeper.
ghost use Rattle.std.specs.Prelude.{◌≡◌, ◌<◌, ◌≤◌, ℕ, true};
ghost use Rattle.wy_reading.specs.Reader.{Reads};
ghost use Rattle.wy_parse.specs.BlockReading as spec;
ghost use Rattle.wy_parse_grammar.specs.Nests.{Nests};
ghost use Rattle.wy_parse_grammar.specs.Steps as steps;
ghost use Rattle.wy_parse.specs.StmtTrees as trees;

use crate::parts::{ExprPart, expr_part, sum_part};
use crate::simple::{stmt_node, wheres};
use std::alloc::{AllocError, Global};
use wy_ast::{Case, Expr, Stmt, StmtKind};
use wy_data::Name;
use wy_items::{Boxed, Items};
use wy_lex::Token;
use wy_parse_grammar::cursor::{Read, inside, mark, name, next_is, shut};
use wy_parse_grammar::fault::Kind;
use wy_parse_grammar::labels::labels;
use wy_parse_grammar::measured::{Measured, both, pushed, some};
use wy_parse_grammar::sort::{
    BLOCK_OUT, CASE, COLON, DEFAULT, DO, ELSE, FOR, IF, IN, LINE_END, RANGE, WHILE,
};
use wy_reading::Stop;

/// The statements of a block, as far as they were read.
pub type Stmts = Measured<Items<Stmt>>;

/// The cases of a switch, as far as they were read, and its default.
pub type Cases = Measured<(Items<Case>, Option<Items<Stmt>>)>;

/// The ends of a range.
type Ends = Measured<(Boxed<Expr>, Boxed<Expr>)>;

/// The readers of statements with blocks.
#[derive(Clone, Copy)]
pub struct Nested<B> {
    pub alloc: Global,
    /// Reads `block`, whose statements stand where there are so many levels.
    pub block: B,
}

impl<B: Fn(Global, &[Token], usize) -> Result<(Stmts, &[Token]), Stop<Kind>>> Nested<B> {
    fn block<'a>(&self, tokens: &'a [Token], levels: usize) -> Read<'a, Stmts>
        requires { Nests spec.block_at (levels) (B.pre self.now.block) (B.post self.now.block) }
        ensures { Reads (spec.block_at levels tokens.now) result }
    {
        (self.block)(self.alloc, tokens, levels)
    }

    /// 'if' expr ':' block { 'else' 'if' expr ':' block } [ 'else' ':' block ], whose first token
    /// stands where there are so many levels. What is behind an `else` stands one level deeper.
    #[cycle(branches)]
    #[tactic(auto, using(crate::proofs::StepLemmas::branch_steps), unfolding(crate::specs::BlockReading::if_stmt))]
    pub fn if_stmt<'a>(&self, tokens: &'a [Token], levels: usize) -> Read<'a, Measured<Stmt>>
        requires { (l : ℕ) → l < levels → Nests spec.block_at l (B.pre self.now.block) (B.post self.now.block) }
        ensures { Reads (spec.branch_at levels tokens.now) result }
    {
        if levels == 0 {
            return shut(tokens, IF);
        }
        let (at, rest) = mark(tokens, IF)?;
        let (test, rest) = expr_part(self.alloc, rest, levels)?;
        let (_, rest) = mark(rest, COLON)?;
        self.if_rest(at, test, rest, levels - 1)
    }

    // What stands behind the test and its colon, where there are so many levels inside.
    #[cycle(branches)]
    #[tactic(auto, unfolding(crate::specs::BlockReading::if_rest))]
    fn if_rest<'a>(
        &self,
        at: u32,
        test: ExprPart,
        tokens: &'a [Token],
        levels: usize,
    ) -> Read<'a, Measured<Stmt>>
        requires { (l : ℕ) → l ≤ levels → Nests spec.block_at l (B.pre self.now.block) (B.post self.now.block) }
        ensures { Reads (spec.if_rest (spec.block_at levels) (spec.branch_at levels) at test tokens.now) result }
    {
        let (first, rest) = self.block(tokens, levels)?;
        let (second, rest) = self.otherwise(rest, levels)?;
        Ok((if_node(at, test, first, second), rest))
    }

    // [ 'else' ( ':' block | 'if' .. ) ]
    #[cycle(branches)]
    #[tactic(auto, unfolding(crate::specs::BlockReading::otherwise))]
    fn otherwise<'a>(&self, tokens: &'a [Token], levels: usize) -> Read<'a, Stmts>
        requires { (l : ℕ) → l ≤ levels → Nests spec.block_at l (B.pre self.now.block) (B.post self.now.block) }
        ensures { Reads (spec.otherwise (spec.block_at levels) (spec.branch_at levels) tokens.now) result }
    {
        let none = Measured::Low(Items::new(self.alloc), 0);
        if !next_is(tokens, ELSE) {
            return Ok((none, tokens));
        }
        let (_, rest) = mark(tokens, ELSE)?;
        if next_is(rest, COLON) {
            let (_, rest) = mark(rest, COLON)?;
            return self.block(rest, levels);
        }
        let (inner, rest) = self.if_stmt(rest, levels)?;
        Ok((pushed(none, inner)?, rest))
    }

    /// 'while' expr { where } ':' block
    #[tactic(auto, unfolding(crate::specs::BlockReading::while_stmt))]
    pub fn while_stmt<'a>(&self, tokens: &'a [Token], levels: usize) -> Read<'a, Measured<Stmt>>
        requires { Nests spec.block_at (steps.inside levels) (B.pre self.now.block) (B.post self.now.block) }
        ensures { Reads (spec.while_stmt true levels (spec.block_at (steps.inside levels)) tokens.now) result }
    {
        let (at, rest) = mark(tokens, WHILE)?;
        let (test, rest) = expr_part(self.alloc, rest, levels)?;
        self.while_rest(at, test, rest, levels)
    }

    // { where } ':' block, behind the test
    #[tactic(auto, unfolding(crate::specs::BlockReading::while_rest))]
    fn while_rest<'a>(
        &self,
        at: u32,
        test: ExprPart,
        tokens: &'a [Token],
        levels: usize,
    ) -> Read<'a, Measured<Stmt>>
        requires { Nests spec.block_at (steps.inside levels) (B.pre self.now.block) (B.post self.now.block) }
        ensures { Reads (spec.while_rest true levels (spec.block_at (steps.inside levels)) at test tokens.now) result }
    {
        let none = Measured::Low(Items::new(self.alloc), 0);
        let (invariants, rest) = wheres(self.alloc, none, tokens, levels)?;
        let (_, rest) = mark(rest, COLON)?;
        let (body, rest) = self.block(rest, inside(levels))?;
        Ok((while_node(at, test, invariants, body), rest))
    }

    /// 'do' ':' block 'while' expr { where } LINE
    #[tactic(auto, unfolding(crate::specs::BlockReading::do_stmt))]
    pub fn do_stmt<'a>(&self, tokens: &'a [Token], levels: usize) -> Read<'a, Measured<Stmt>>
        requires { Nests spec.block_at (steps.inside levels) (B.pre self.now.block) (B.post self.now.block) }
        ensures { Reads (spec.do_stmt true levels (spec.block_at (steps.inside levels)) tokens.now) result }
    {
        let (at, rest) = mark(tokens, DO)?;
        let (_, rest) = mark(rest, COLON)?;
        let (body, rest) = self.block(rest, inside(levels))?;
        do_rest(self.alloc, at, body, rest, levels)
    }

    /// 'for' NAME 'in' sum '..' sum { where } ':' block
    #[tactic(auto, unfolding(crate::specs::BlockReading::for_stmt))]
    pub fn for_stmt<'a>(&self, tokens: &'a [Token], levels: usize) -> Read<'a, Measured<Stmt>>
        requires { Nests spec.block_at (steps.inside levels) (B.pre self.now.block) (B.post self.now.block) }
        ensures { Reads (spec.for_stmt true levels (spec.block_at (steps.inside levels)) tokens.now) result }
    {
        let (at, rest) = mark(tokens, FOR)?;
        let ((_, name), rest) = name(self.alloc, rest)?;
        let (_, rest) = mark(rest, IN)?;
        self.for_range(at, name, rest, levels)
    }

    // sum '..' sum { where } ':' block, behind 'in'
    #[tactic(auto, unfolding(crate::specs::BlockReading::for_range))]
    fn for_range<'a>(
        &self,
        at: u32,
        name: Name,
        tokens: &'a [Token],
        levels: usize,
    ) -> Read<'a, Measured<Stmt>>
        requires { Nests spec.block_at (steps.inside levels) (B.pre self.now.block) (B.post self.now.block) }
        ensures { Reads (spec.for_range true levels (spec.block_at (steps.inside levels)) at name tokens.now) result }
    {
        let (from, rest) = sum_part(self.alloc, tokens, levels)?;
        let (_, rest) = mark(rest, RANGE)?;
        let (to, rest) = sum_part(self.alloc, rest, levels)?;
        self.for_rest(at, name, both(from, to), rest, levels)
    }

    // { where } ':' block, behind the ends of the range
    #[tactic(auto, unfolding(crate::specs::BlockReading::for_rest))]
    fn for_rest<'a>(
        &self,
        at: u32,
        name: Name,
        ends: Ends,
        tokens: &'a [Token],
        levels: usize,
    ) -> Read<'a, Measured<Stmt>>
        requires { Nests spec.block_at (steps.inside levels) (B.pre self.now.block) (B.post self.now.block) }
        ensures { Reads (spec.for_rest true levels (spec.block_at (steps.inside levels)) at name ends tokens.now) result }
    {
        let none = Measured::Low(Items::new(self.alloc), 0);
        let (invariants, rest) = wheres(self.alloc, none, tokens, levels)?;
        let (_, rest) = mark(rest, COLON)?;
        let (body, rest) = self.block(rest, inside(levels))?;
        Ok((for_node(at, name, ends, invariants, body), rest))
    }

    /// label { ',' label } ':' block, behind 'case', whose block's statements stand where there are so
    /// many levels
    #[tactic(auto, unfolding(crate::specs::BlockReading::case_rest))]
    pub fn case<'a>(
        &self,
        cases: Measured<Items<Case>>,
        tokens: &'a [Token],
        levels: usize,
    ) -> Read<'a, Measured<Items<Case>>>
        requires { Nests spec.block_at (levels) (B.pre self.now.block) (B.post self.now.block) }
        ensures { Reads (spec.case_rest (spec.block_at levels) cases tokens.now) result }
    {
        let (labels, rest) = labels(self.alloc, tokens)?;
        let (_, rest) = mark(rest, COLON)?;
        let (body, rest) = self.block(rest, levels)?;
        Ok((pushed(cases, case_node(labels, body))?, rest))
    }

    /// { case } [ 'default' ':' block ] OUT, behind the cases that were read, where the block of the
    /// last one stands on a level inside of which there are so many. Each further block stands one
    /// level deeper, and that of `default` on the level of the last one.
    #[tactic(auto, using(crate::proofs::StepLemmas::case_steps), unfolding(crate::specs::BlockReading::default, crate::specs::BlockReading::last_out))]
    pub fn cases<'a>(
        &self,
        cases: Measured<Items<Case>>,
        tokens: &'a [Token],
        levels: usize,
    ) -> Read<'a, Cases>
        requires { (l : ℕ) → l ≤ levels → Nests spec.block_at l (B.pre self.now.block) (B.post self.now.block) }
        ensures { Reads (spec.cases_at levels cases tokens.now) result }
    {
        if next_is(tokens, CASE) {
            if levels == 0 {
                return shut(tokens, CASE);
            }
            let (_, rest) = mark(tokens, CASE)?;
            let (cases, rest) = self.case(cases, rest, levels - 1)?;
            return self.cases(cases, rest, levels - 1);
        }
        if next_is(tokens, DEFAULT) {
            let (_, rest) = mark(tokens, DEFAULT)?;
            let (_, rest) = mark(rest, COLON)?;
            let (last, rest) = self.block(rest, levels)?;
            let (_, rest) = mark(rest, BLOCK_OUT)?;
            return Ok((both(cases, some(last)), rest));
        }
        let (_, rest) = mark(tokens, BLOCK_OUT)?;
        Ok((both(cases, Measured::Low(None, 0)), rest))
    }
}

// 'while' expr { where } LINE, behind the block
#[tactic(auto, unfolding(crate::specs::BlockReading::do_rest))]
fn do_rest<'a>(
    alloc: Global,
    at: u32,
    body: Stmts,
    tokens: &'a [Token],
    levels: usize,
) -> Read<'a, Measured<Stmt>>
    ensures { Reads (spec.do_rest true levels at body tokens.now) result }
{
    let (_, rest) = mark(tokens, WHILE)?;
    let (test, rest) = expr_part(alloc, rest, levels)?;
    let none = Measured::Low(Items::new(alloc), 0);
    let (invariants, rest) = wheres(alloc, none, rest, levels)?;
    let (_, rest) = mark(rest, LINE_END)?;
    Ok((do_node(at, body, test, invariants), rest))
}

fn if_node(at: u32, test: ExprPart, first: Stmts, second: Stmts) -> Measured<Stmt>
    ensures { result ≡ trees.if_node at test first second }
{
    let kind = match both(test, both(first, second)) {
        Measured::Low((test, (first, second)), height) => {
            Measured::Low(StmtKind::If(test.into_inner(), first, second), height)
        }
        Measured::High(at) => Measured::High(at),
    };
    stmt_node(at, kind)
}

fn while_node(
    at: u32,
    test: ExprPart,
    invariants: Measured<Items<Expr>>,
    body: Stmts,
) -> Measured<Stmt>
    ensures { result ≡ trees.while_node at test invariants body }
{
    let kind = match both(test, both(invariants, body)) {
        Measured::Low((test, (invariants, body)), height) => {
            Measured::Low(StmtKind::While(test.into_inner(), invariants, body), height)
        }
        Measured::High(at) => Measured::High(at),
    };
    stmt_node(at, kind)
}

fn do_node(
    at: u32,
    body: Stmts,
    test: ExprPart,
    invariants: Measured<Items<Expr>>,
) -> Measured<Stmt>
    ensures { result ≡ trees.do_node at body test invariants }
{
    let kind = match both(body, both(test, invariants)) {
        Measured::Low((body, (test, invariants)), height) => {
            Measured::Low(StmtKind::Do(body, test.into_inner(), invariants), height)
        }
        Measured::High(at) => Measured::High(at),
    };
    stmt_node(at, kind)
}

fn for_node(
    at: u32,
    name: Name,
    ends: Ends,
    invariants: Measured<Items<Expr>>,
    body: Stmts,
) -> Measured<Stmt>
    ensures { result ≡ trees.for_node at name ends invariants body }
{
    let kind = match both(ends, both(invariants, body)) {
        Measured::Low(((from, to), (invariants, body)), height) => {
            let (from, to) = (from.into_inner(), to.into_inner());
            Measured::Low(StmtKind::For(name, from, to, invariants, body), height)
        }
        Measured::High(at) => Measured::High(at),
    };
    stmt_node(at, kind)
}

fn case_node(labels: Items<Expr>, body: Stmts) -> Measured<Case>
    ensures { result ≡ trees.case_node labels body }
{
    match body {
        Measured::Low(body, height) => Measured::Low(Case { labels, body }, height),
        Measured::High(at) => Measured::High(at),
    }
}

/// The node of a switch.
pub fn switch_node(at: u32, value: ExprPart, cases: Cases) -> Measured<Stmt>
    ensures { result ≡ trees.switch_node at value cases }
{
    let kind = match both(value, cases) {
        Measured::Low((value, (cases, last)), height) => {
            Measured::Low(StmtKind::Switch(value.into_inner(), cases, last), height)
        }
        Measured::High(at) => Measured::High(at),
    };
    stmt_node(at, kind)
}
