//! Operators of two operands, over a function value that reads what they stand between.
ghost use Rattle.std.specs.Prelude.{◌≡◌, true};
ghost use Rattle.wy_reading.specs.Reader.{Reads, barred};
ghost use Rattle.wy_parse_grammar.specs.ExprGrammar as grammar;
ghost use Rattle.wy_parse_grammar.specs.ExprReading as spec;
ghost use Rattle.wy_parse_grammar.specs.Nests.{Nests};
ghost use Rattle.wy_parse_grammar.specs.Sorts as sorts;
ghost use Rattle.wy_parse_grammar.specs.declared.fault.Kind.TheVariants as kind;

use crate::cursor::{Read, mark, next_in, next_is, operator};
use crate::expr_nodes::{binary_node, is_node};
use crate::fault::Kind;
use crate::measured::{Measured, boxed};
use crate::sort::{AND, Class, IS, OR};
use crate::types::type_term;
use std::alloc::Global;
use wy_ast::{Expr, Op};
use wy_lex::Token;
use wy_reading::Stop;

/// The readers of what operators join, where there are so many levels.
#[derive(Clone, Copy)]
pub struct Operators<U> {
    pub alloc: Global,
    pub levels: usize,
    /// Reads `unary` on this level.
    pub unary: U,
}

impl<U: Fn(Global, &[Token], usize) -> Result<(Measured<Expr>, &[Token]), Stop<Kind>>> Operators<
    U,
> {
    /// An operand.
    pub fn unary<'a>(&self, tokens: &'a [Token]) -> Read<'a, Measured<Expr>>
        requires { Nests spec.unary self.now.levels (U.pre self.now.unary) (U.post self.now.unary) }
        ensures { Reads (spec.unary self.now.levels tokens.now) result }
    {
        (self.unary)(self.alloc, tokens, self.levels)
    }

    // product = unary { ( '*' | '/' | '%' ) unary }
    #[tactic(auto, using(wy_reading::proofs::Turns::reader_steps), unfolding(crate::specs::ExprReading::product))]
    fn product<'a>(&self, tokens: &'a [Token]) -> Read<'a, Measured<Expr>>
        requires { Nests spec.unary self.now.levels (U.pre self.now.unary) (U.post self.now.unary) }
        ensures { Reads (spec.product (spec.unary self.now.levels) tokens.now) result }
    {
        let (mut made, mut rest) = self.unary(tokens)?;
        for _turn in 0..rest.len() {
            if !next_in(rest, Class::Factor) {
                return Ok((made, rest));
            }
            let (more, after) = self.factor(made, rest)?;
            made = more;
            rest = after;
        }
        Ok((made, rest))
    }

    fn factor<'a>(&self, left: Measured<Expr>, tokens: &'a [Token]) -> Read<'a, Measured<Expr>>
        requires { Nests spec.unary self.now.levels (U.pre self.now.unary) (U.post self.now.unary) }
        ensures { Reads (spec.factor (spec.unary self.now.levels) left tokens.now) result }
    {
        let left = boxed(self.alloc, left)?;
        let ((at, op), rest) = operator(tokens, Class::Factor)?;
        let (right, rest) = self.unary(rest)?;
        let right = boxed(self.alloc, right)?;
        Ok((binary_node(at, op, left, right), rest))
    }

    /// sum = product { ( '+' | '-' ) product }
    #[tactic(auto, using(wy_reading::proofs::Turns::reader_steps), unfolding(crate::specs::ExprReading::sum))]
    pub fn sum<'a>(&self, tokens: &'a [Token]) -> Read<'a, Measured<Expr>>
        requires { Nests spec.unary self.now.levels (U.pre self.now.unary) (U.post self.now.unary) }
        ensures { Reads (spec.sum (spec.unary self.now.levels) tokens.now) result }
    {
        let (mut made, mut rest) = self.product(tokens)?;
        for _turn in 0..rest.len() {
            if !next_in(rest, Class::Summand) {
                return Ok((made, rest));
            }
            let (more, after) = self.summand(made, rest)?;
            made = more;
            rest = after;
        }
        Ok((made, rest))
    }

    fn summand<'a>(&self, left: Measured<Expr>, tokens: &'a [Token]) -> Read<'a, Measured<Expr>>
        requires { Nests spec.unary self.now.levels (U.pre self.now.unary) (U.post self.now.unary) }
        ensures { Reads (spec.summand (spec.unary self.now.levels) left tokens.now) result }
    {
        let left = boxed(self.alloc, left)?;
        let ((at, op), rest) = operator(tokens, Class::Summand)?;
        let (right, rest) = self.product(rest)?;
        let right = boxed(self.alloc, right)?;
        Ok((binary_node(at, op, left, right), rest))
    }

    // comparison = sum [ ( '==' | '!=' | '<' | '<=' | '>' | '>=' ) sum | 'is' type ]
    #[tactic(auto, unfolding(crate::specs::ExprReading::comparison))]
    fn comparison<'a>(&self, tokens: &'a [Token]) -> Read<'a, Measured<Expr>>
        requires { Nests spec.unary self.now.levels (U.pre self.now.unary) (U.post self.now.unary) }
        ensures { Reads (spec.comparison self.now.levels (spec.unary self.now.levels) tokens.now) result }
    {
        let (left, rest) = self.sum(tokens)?;
        self.compared(left, rest)
    }

    #[tactic(auto, unfolding(crate::specs::ExprReading::compared))]
    fn compared<'a>(&self, left: Measured<Expr>, tokens: &'a [Token]) -> Read<'a, Measured<Expr>>
        requires { Nests spec.unary self.now.levels (U.pre self.now.unary) (U.post self.now.unary) }
        ensures { Reads (spec.compared self.now.levels (spec.unary self.now.levels) left tokens.now) result }
    {
        if next_in(tokens, Class::Comparison) {
            return self.related(left, tokens);
        }
        if next_is(tokens, IS) {
            return self.tested(left, tokens);
        }
        Ok((left, tokens))
    }

    #[tactic(auto, unfolding(crate::specs::ExprReading::related))]
    fn related<'a>(&self, left: Measured<Expr>, tokens: &'a [Token]) -> Read<'a, Measured<Expr>>
        requires { Nests spec.unary self.now.levels (U.pre self.now.unary) (U.post self.now.unary) }
        ensures { Reads (spec.related self.now.levels (spec.unary self.now.levels) left tokens.now) result }
    {
        let left = boxed(self.alloc, left)?;
        let ((at, op), rest) = operator(tokens, Class::Comparison)?;
        let (right, rest) = self.sum(rest)?;
        let right = boxed(self.alloc, right)?;
        Ok((binary_node(at, op, left, right), rest))
    }

    #[tactic(auto, unfolding(crate::specs::ExprReading::tested))]
    fn tested<'a>(&self, left: Measured<Expr>, tokens: &'a [Token]) -> Read<'a, Measured<Expr>>
        ensures { Reads (spec.tested self.now.levels (spec.unary self.now.levels) left tokens.now) result }
    {
        let left = boxed(self.alloc, left)?;
        let (at, rest) = mark(tokens, IS)?;
        let (ty, rest) = type_term(self.alloc, rest, self.levels)?;
        Ok((is_node(at, left, ty), rest))
    }

    /// logic = comparison { '&&' comparison } | comparison { '||' comparison }
    #[tactic(auto, unfolding(crate::specs::ExprReading::logic))]
    pub fn logic<'a>(&self, tokens: &'a [Token]) -> Read<'a, Measured<Expr>>
        requires { Nests spec.unary self.now.levels (U.pre self.now.unary) (U.post self.now.unary) }
        ensures { Reads (spec.logic self.now.levels (spec.unary self.now.levels) true tokens.now) result }
    {
        let (left, rest) = self.comparison(tokens)?;
        if next_is(rest, AND) {
            let (made, rest) = self.chain(left, rest, AND)?;
            return unmixed(made, rest, OR);
        }
        if next_is(rest, OR) {
            let (made, rest) = self.chain(left, rest, OR)?;
            return unmixed(made, rest, AND);
        }
        Ok((left, rest))
    }

    // One operator at least, and all that follow of the same sort.
    #[tactic(auto, using(wy_reading::proofs::Turns::reader_steps), unfolding(crate::specs::ExprReading::chain))]
    fn chain<'a>(
        &self,
        left: Measured<Expr>,
        tokens: &'a [Token],
        sort: u8,
    ) -> Read<'a, Measured<Expr>>
        requires { Nests spec.unary self.now.levels (U.pre self.now.unary) (U.post self.now.unary) }
        ensures { Reads (spec.chain self.now.levels (spec.unary self.now.levels) sort left tokens.now) result }
    {
        let (mut made, mut rest) = self.connected(left, tokens, sort)?;
        for _turn in 0..rest.len() {
            if !next_is(rest, sort) {
                return Ok((made, rest));
            }
            let (more, after) = self.connected(made, rest, sort)?;
            made = more;
            rest = after;
        }
        Ok((made, rest))
    }

    fn connected<'a>(
        &self,
        left: Measured<Expr>,
        tokens: &'a [Token],
        sort: u8,
    ) -> Read<'a, Measured<Expr>>
        requires { Nests spec.unary self.now.levels (U.pre self.now.unary) (U.post self.now.unary) }
        ensures { Reads (spec.connected self.now.levels (spec.unary self.now.levels) sort left tokens.now) result }
    {
        let left = boxed(self.alloc, left)?;
        let (at, rest) = mark(tokens, sort)?;
        let (right, rest) = self.comparison(rest)?;
        let right = boxed(self.alloc, right)?;
        Ok((binary_node(at, joint(sort), left, right), rest))
    }
}

// The operator of the sort.
fn joint(sort: u8) -> Op
    ensures { result ≡ grammar.joint sort }
{
    if sort == AND { Op::And } else { Op::Or }
}

// What was read, if the operator that it may not be mixed with doesn't follow.
fn unmixed(made: Measured<Expr>, tokens: &[Token], other: u8) -> Read<'_, Measured<Expr>>
    ensures { Reads (barred (sorts.is other) kind.Mixed made tokens.now) result }
{
    if next_is(tokens, other) {
        drop(made);
        return Err(Stop::Fault(Kind::Mixed, tokens.len()));
    }
    Ok((made, tokens))
}
