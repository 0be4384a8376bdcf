//! Expressions. What stands inside of brackets, bars and prefix operators is read by a function value
//! one level deeper, so each reader is proved by itself, and `unary` and `joined` alone call
//! themselves.
ghost use Rattle.std.specs.Prelude.{◌≡◌, ◌≤◌, ℕ};
ghost use Rattle.wy_reading.specs.Reader.{Reads};
ghost use Rattle.wy_parse_grammar.specs.ExprReading as spec;
ghost use Rattle.wy_parse_grammar.specs.Nests.{Nests};

use crate::cursor::{Read, inner, inner_name, mark, marked, name, next_in, next_is, too_deep};
use crate::expr_nodes::{
    Fields, Ranges, binary_node, call_node, field_node, index_node, leaf, len_node, list_node,
    neg_node, not_node, quant_node, range, record_node, repeat_node,
};
use crate::fault::Kind;
use crate::literals::{glued, literal, next_is_glued, quantifier};
use crate::measured::{Measured, boxed, named, pushed};
use crate::operators::Operators;
use crate::sort::{
    BAR, CLOSE_BRACE, CLOSE_BRACKET, CLOSE_PAREN, COLON, COMMA, Class, DOT, IMPLIES, IN, MINUS,
    NAME, NOT, OPEN_BRACE, OPEN_BRACKET, OPEN_PAREN, RANGE, SEMICOLON,
};
use std::alloc::Global;
use wy_ast::{Expr, ExprKind, Op};
use wy_data::Name;
use wy_items::Items;
use wy_lex::Token;
use wy_reading::Stop;

/// The readers of what has an inside, where there are so many levels inside.
#[derive(Clone, Copy)]
struct Inside<U> {
    alloc: Global,
    levels: usize,
    /// Reads `unary` on a level.
    unary: U,
}

impl<
    U: Fn(Global, &[Token], usize) -> Result<(Measured<Expr>, &[Token]), Stop<Kind>> + Copy,
> Inside<U> {
    fn inner_unary<'a>(&self, tokens: &'a [Token]) -> Read<'a, Measured<Expr>>
        requires { (l : ℕ) → l ≤ self.now.levels → Nests spec.unary l (U.pre self.now.unary) (U.post self.now.unary) }
        ensures { Reads (spec.unary self.now.levels tokens.now) result }
    {
        let operators = Operators {
            alloc: self.alloc,
            levels: self.levels,
            unary: self.unary,
        };
        operators.unary(tokens)
    }

    fn inner_expr<'a>(&self, tokens: &'a [Token]) -> Read<'a, Measured<Expr>>
        requires { (l : ℕ) → l ≤ self.now.levels → Nests spec.unary l (U.pre self.now.unary) (U.post self.now.unary) }
        ensures { Reads (spec.expr self.now.levels tokens.now) result }
    {
        joined(self.alloc, tokens, self.levels, self.unary)
    }

    fn inner_sum<'a>(&self, tokens: &'a [Token]) -> Read<'a, Measured<Expr>>
        requires { (l : ℕ) → l ≤ self.now.levels → Nests spec.unary l (U.pre self.now.unary) (U.post self.now.unary) }
        ensures { Reads (spec.sum (spec.unary self.now.levels) tokens.now) result }
    {
        let operators = Operators {
            alloc: self.alloc,
            levels: self.levels,
            unary: self.unary,
        };
        operators.sum(tokens)
    }

    // unary = '!' unary | '-' unary | postfix
    #[tactic(auto, unfolding(crate::specs::ExprReading::unary_of))]
    fn prefixed<'a>(&self, tokens: &'a [Token]) -> Read<'a, Measured<Expr>>
        requires { (l : ℕ) → l ≤ self.now.levels → Nests spec.unary l (U.pre self.now.unary) (U.post self.now.unary) }
        ensures { Reads (spec.unary_of self.now.levels (spec.unary self.now.levels) (spec.expr self.now.levels) tokens.now) result }
    {
        if next_is(tokens, NOT) {
            let (at, rest) = mark(tokens, NOT)?;
            let (operand, rest) = self.inner_unary(rest)?;
            return Ok((not_node(self.alloc, at, operand)?, rest));
        }
        if next_is(tokens, MINUS) {
            let (at, rest) = mark(tokens, MINUS)?;
            return self.negated(at, rest);
        }
        let (first, rest) = self.primary(tokens)?;
        self.steps(first, rest)
    }

    // What stands behind a minus: a numeral that touches it makes a literal with it.
    #[tactic(auto, unfolding(crate::specs::ExprReading::negated))]
    fn negated<'a>(&self, at: u32, tokens: &'a [Token]) -> Read<'a, Measured<Expr>>
        requires { (l : ℕ) → l ≤ self.now.levels → Nests spec.unary l (U.pre self.now.unary) (U.post self.now.unary) }
        ensures { Reads (spec.negated self.now.levels (spec.unary self.now.levels) (spec.expr self.now.levels) at tokens.now) result }
    {
        if next_is_glued(tokens, at) {
            let (number, rest) = glued(tokens, at)?;
            return self.steps(leaf(at, ExprKind::Int(number)), rest);
        }
        let (operand, rest) = self.inner_unary(tokens)?;
        Ok((neg_node(self.alloc, at, operand)?, rest))
    }

    // { '[' expr ']' | '.' NAME }, behind a primary
    #[tactic(auto, using(wy_reading::proofs::Turns::reader_steps), unfolding(crate::specs::ExprReading::steps))]
    fn steps<'a>(&self, first: Measured<Expr>, tokens: &'a [Token]) -> Read<'a, Measured<Expr>>
        requires { (l : ℕ) → l ≤ self.now.levels → Nests spec.unary l (U.pre self.now.unary) (U.post self.now.unary) }
        ensures { Reads (spec.steps self.now.levels (spec.unary self.now.levels) (spec.expr self.now.levels) first tokens.now) result }
    {
        let (mut made, mut rest) = (first, tokens);
        for _turn in 0..tokens.len() {
            if !next_in(rest, Class::Step) {
                return Ok((made, rest));
            }
            let (more, after) = self.step(made, rest)?;
            made = more;
            rest = after;
        }
        Ok((made, rest))
    }

    #[tactic(auto, unfolding(crate::specs::ExprReading::step))]
    fn step<'a>(&self, whole: Measured<Expr>, tokens: &'a [Token]) -> Read<'a, Measured<Expr>>
        requires { (l : ℕ) → l ≤ self.now.levels → Nests spec.unary l (U.pre self.now.unary) (U.post self.now.unary) }
        ensures { Reads (spec.step self.now.levels (spec.unary self.now.levels) (spec.expr self.now.levels) whole tokens.now) result }
    {
        if next_is(tokens, OPEN_BRACKET) {
            return self.indexed(whole, tokens);
        }
        self.selected(whole, tokens)
    }

    #[tactic(auto, unfolding(crate::specs::ExprReading::indexed))]
    fn indexed<'a>(&self, whole: Measured<Expr>, tokens: &'a [Token]) -> Read<'a, Measured<Expr>>
        requires { (l : ℕ) → l ≤ self.now.levels → Nests spec.unary l (U.pre self.now.unary) (U.post self.now.unary) }
        ensures { Reads (spec.indexed self.now.levels (spec.unary self.now.levels) (spec.expr self.now.levels) whole tokens.now) result }
    {
        let whole = boxed(self.alloc, whole)?;
        let (at, rest) = mark(tokens, OPEN_BRACKET)?;
        let (index, rest) = self.inner_expr(rest)?;
        let index = boxed(self.alloc, index)?;
        let (_, rest) = mark(rest, CLOSE_BRACKET)?;
        Ok((index_node(at, whole, index), rest))
    }

    #[tactic(auto, unfolding(crate::specs::ExprReading::selected))]
    fn selected<'a>(&self, whole: Measured<Expr>, tokens: &'a [Token]) -> Read<'a, Measured<Expr>>
        ensures { Reads (spec.selected self.now.levels (spec.unary self.now.levels) (spec.expr self.now.levels) whole tokens.now) result }
    {
        let whole = boxed(self.alloc, whole)?;
        let (at, rest) = mark(tokens, DOT)?;
        let ((_, name), rest) = name(self.alloc, rest)?;
        Ok((field_node(at, whole, name), rest))
    }

    // primary = NUMERAL | STRING | 'null' | 'true' | 'false' | NAME | NAME '(' args ')'
    //         | '(' expr ')' | '|' sum '|' | '[' args ']' | '[' expr ';' expr ']'
    //         | '{' fields '}' | ( 'all' | 'some' ) '{' range { ',' range } '|' expr '}'
    #[tactic(auto, unfolding(crate::specs::ExprReading::primary))]
    fn primary<'a>(&self, tokens: &'a [Token]) -> Read<'a, Measured<Expr>>
        requires { (l : ℕ) → l ≤ self.now.levels → Nests spec.unary l (U.pre self.now.unary) (U.post self.now.unary) }
        ensures { Reads (spec.primary self.now.levels (spec.unary self.now.levels) (spec.expr self.now.levels) tokens.now) result }
    {
        if next_in(tokens, Class::Literal) {
            return literal(self.alloc, tokens);
        }
        if next_is(tokens, NAME) {
            let ((at, name), rest) = name(self.alloc, tokens)?;
            return self.called(at, name, rest);
        }
        self.enclosed(tokens)
    }

    // What begins with a bracket, a bar, 'all' or 'some'.
    #[tactic(auto, unfolding(crate::specs::ExprReading::enclosed))]
    fn enclosed<'a>(&self, tokens: &'a [Token]) -> Read<'a, Measured<Expr>>
        requires { (l : ℕ) → l ≤ self.now.levels → Nests spec.unary l (U.pre self.now.unary) (U.post self.now.unary) }
        ensures { Reads (spec.enclosed self.now.levels (spec.unary self.now.levels) (spec.expr self.now.levels) tokens.now) result }
    {
        if next_is(tokens, OPEN_PAREN) {
            return self.grouped(tokens);
        }
        if next_is(tokens, BAR) {
            return self.barred_in(tokens);
        }
        self.collected(tokens)
    }

    #[tactic(auto, unfolding(crate::specs::ExprReading::grouped))]
    fn grouped<'a>(&self, tokens: &'a [Token]) -> Read<'a, Measured<Expr>>
        requires { (l : ℕ) → l ≤ self.now.levels → Nests spec.unary l (U.pre self.now.unary) (U.post self.now.unary) }
        ensures { Reads (spec.grouped self.now.levels (spec.unary self.now.levels) (spec.expr self.now.levels) tokens.now) result }
    {
        let (_, rest) = mark(tokens, OPEN_PAREN)?;
        let (inner, rest) = self.inner_expr(rest)?;
        let ((inner, _), rest) = marked(inner, rest, CLOSE_PAREN)?;
        Ok((inner, rest))
    }

    #[tactic(auto, unfolding(crate::specs::ExprReading::barred_in))]
    fn barred_in<'a>(&self, tokens: &'a [Token]) -> Read<'a, Measured<Expr>>
        requires { (l : ℕ) → l ≤ self.now.levels → Nests spec.unary l (U.pre self.now.unary) (U.post self.now.unary) }
        ensures { Reads (spec.barred_in self.now.levels (spec.unary self.now.levels) (spec.expr self.now.levels) tokens.now) result }
    {
        let (at, rest) = mark(tokens, BAR)?;
        let (inner, rest) = self.inner_sum(rest)?;
        let inner = boxed(self.alloc, inner)?;
        let (_, rest) = mark(rest, BAR)?;
        Ok((len_node(at, inner), rest))
    }

    // What begins with '[', '{', 'all' or 'some'.
    #[tactic(auto, unfolding(crate::specs::ExprReading::collected))]
    fn collected<'a>(&self, tokens: &'a [Token]) -> Read<'a, Measured<Expr>>
        requires { (l : ℕ) → l ≤ self.now.levels → Nests spec.unary l (U.pre self.now.unary) (U.post self.now.unary) }
        ensures { Reads (spec.collected self.now.levels (spec.unary self.now.levels) (spec.expr self.now.levels) tokens.now) result }
    {
        if next_is(tokens, OPEN_BRACKET) {
            let (at, rest) = mark(tokens, OPEN_BRACKET)?;
            return self.listed(at, rest);
        }
        if next_is(tokens, OPEN_BRACE) {
            let (at, rest) = mark(tokens, OPEN_BRACE)?;
            let (fields, rest) = self.fields(rest)?;
            let (_, rest) = inner(rest, CLOSE_BRACE, self.levels)?;
            return Ok((record_node(at, fields), rest));
        }
        let ((at, all), rest) = quantifier(tokens)?;
        self.quantified(at, all, rest)
    }

    // A variable, or a call of the name.
    #[tactic(auto, unfolding(crate::specs::ExprReading::called))]
    fn called<'a>(&self, at: u32, name: Name, tokens: &'a [Token]) -> Read<'a, Measured<Expr>>
        requires { (l : ℕ) → l ≤ self.now.levels → Nests spec.unary l (U.pre self.now.unary) (U.post self.now.unary) }
        ensures { Reads (spec.called self.now.levels (spec.unary self.now.levels) (spec.expr self.now.levels) at name tokens.now) result }
    {
        if !next_is(tokens, OPEN_PAREN) {
            return Ok((leaf(at, ExprKind::Var(name)), tokens));
        }
        let (_, rest) = mark(tokens, OPEN_PAREN)?;
        let (args, rest) = self.args(rest)?;
        let (_, rest) = inner(rest, CLOSE_PAREN, self.levels)?;
        Ok((call_node(at, name, args), rest))
    }

    // args = [ expr { ',' expr } ]
    #[tactic(auto, unfolding(crate::specs::ExprReading::arg_list))]
    fn args<'a>(&self, tokens: &'a [Token]) -> Read<'a, Measured<Items<Expr>>>
        requires { (l : ℕ) → l ≤ self.now.levels → Nests spec.unary l (U.pre self.now.unary) (U.post self.now.unary) }
        ensures { Reads (spec.arg_list self.now.levels (spec.unary self.now.levels) (spec.expr self.now.levels) tokens.now) result }
    {
        let none = Measured::Low(Items::new(self.alloc), 0);
        if !next_in(tokens, Class::Expression) {
            return Ok((none, tokens));
        }
        let (first, rest) = self.inner_expr(tokens)?;
        self.more_args(pushed(none, first)?, rest)
    }

    #[tactic(auto, using(wy_reading::proofs::Turns::reader_steps), unfolding(crate::specs::ExprReading::more_args))]
    fn more_args<'a>(
        &self,
        args: Measured<Items<Expr>>,
        tokens: &'a [Token],
    ) -> Read<'a, Measured<Items<Expr>>>
        requires { (l : ℕ) → l ≤ self.now.levels → Nests spec.unary l (U.pre self.now.unary) (U.post self.now.unary) }
        ensures { Reads (spec.more_args self.now.levels (spec.unary self.now.levels) (spec.expr self.now.levels) args tokens.now) result }
    {
        let (mut made, mut rest) = (args, tokens);
        for _turn in 0..tokens.len() {
            if !next_is(rest, COMMA) {
                return Ok((made, rest));
            }
            let (more, after) = self.next_arg(made, rest)?;
            made = more;
            rest = after;
        }
        Ok((made, rest))
    }

    fn next_arg<'a>(
        &self,
        args: Measured<Items<Expr>>,
        tokens: &'a [Token],
    ) -> Read<'a, Measured<Items<Expr>>>
        requires { (l : ℕ) → l ≤ self.now.levels → Nests spec.unary l (U.pre self.now.unary) (U.post self.now.unary) }
        ensures { Reads (spec.next_arg self.now.levels (spec.unary self.now.levels) (spec.expr self.now.levels) args tokens.now) result }
    {
        let (_, rest) = mark(tokens, COMMA)?;
        let (arg, rest) = self.inner_expr(rest)?;
        Ok((pushed(args, arg)?, rest))
    }

    // What stands behind '[': a list, or an item and how often it stands.
    #[tactic(auto, unfolding(crate::specs::ExprReading::listed))]
    fn listed<'a>(&self, at: u32, tokens: &'a [Token]) -> Read<'a, Measured<Expr>>
        requires { (l : ℕ) → l ≤ self.now.levels → Nests spec.unary l (U.pre self.now.unary) (U.post self.now.unary) }
        ensures { Reads (spec.listed self.now.levels (spec.unary self.now.levels) (spec.expr self.now.levels) at tokens.now) result }
    {
        if next_is(tokens, CLOSE_BRACKET) {
            let (_, rest) = inner(tokens, CLOSE_BRACKET, self.levels)?;
            return Ok((
                list_node(at, Measured::Low(Items::new(self.alloc), 0)),
                rest,
            ));
        }
        let (first, rest) = self.inner_expr(tokens)?;
        self.listed_rest(at, first, rest)
    }

    // What stands behind the first item: ';' expr ']' | { ',' expr } ']'
    #[tactic(auto, unfolding(crate::specs::ExprReading::listed_rest))]
    fn listed_rest<'a>(
        &self,
        at: u32,
        first: Measured<Expr>,
        tokens: &'a [Token],
    ) -> Read<'a, Measured<Expr>>
        requires { (l : ℕ) → l ≤ self.now.levels → Nests spec.unary l (U.pre self.now.unary) (U.post self.now.unary) }
        ensures { Reads (spec.listed_rest self.now.levels (spec.unary self.now.levels) (spec.expr self.now.levels) at first tokens.now) result }
    {
        if next_is(tokens, SEMICOLON) {
            return self.repeated(at, first, tokens);
        }
        let none = Measured::Low(Items::new(self.alloc), 0);
        self.itemized(at, pushed(none, first)?, tokens)
    }

    #[tactic(auto, unfolding(crate::specs::ExprReading::repeated))]
    fn repeated<'a>(
        &self,
        at: u32,
        first: Measured<Expr>,
        tokens: &'a [Token],
    ) -> Read<'a, Measured<Expr>>
        requires { (l : ℕ) → l ≤ self.now.levels → Nests spec.unary l (U.pre self.now.unary) (U.post self.now.unary) }
        ensures { Reads (spec.repeated self.now.levels (spec.unary self.now.levels) (spec.expr self.now.levels) at first tokens.now) result }
    {
        let first = boxed(self.alloc, first)?;
        let (_, rest) = mark(tokens, SEMICOLON)?;
        let (count, rest) = self.inner_expr(rest)?;
        let count = boxed(self.alloc, count)?;
        let (_, rest) = mark(rest, CLOSE_BRACKET)?;
        Ok((repeat_node(at, first, count), rest))
    }

    #[tactic(auto, unfolding(crate::specs::ExprReading::itemized))]
    fn itemized<'a>(
        &self,
        at: u32,
        items: Measured<Items<Expr>>,
        tokens: &'a [Token],
    ) -> Read<'a, Measured<Expr>>
        requires { (l : ℕ) → l ≤ self.now.levels → Nests spec.unary l (U.pre self.now.unary) (U.post self.now.unary) }
        ensures { Reads (spec.itemized self.now.levels (spec.unary self.now.levels) (spec.expr self.now.levels) at items tokens.now) result }
    {
        let (items, rest) = self.more_args(items, tokens)?;
        let (_, rest) = mark(rest, CLOSE_BRACKET)?;
        Ok((list_node(at, items), rest))
    }

    // [ NAME ':' expr { ',' NAME ':' expr } ]
    #[tactic(auto, using(wy_reading::proofs::Turns::reader_steps), unfolding(crate::specs::ExprReading::field_list))]
    fn fields<'a>(&self, tokens: &'a [Token]) -> Read<'a, Fields>
        requires { (l : ℕ) → l ≤ self.now.levels → Nests spec.unary l (U.pre self.now.unary) (U.post self.now.unary) }
        ensures { Reads (spec.field_list self.now.levels (spec.unary self.now.levels) (spec.expr self.now.levels) tokens.now) result }
    {
        let none = Measured::Low(Items::new(self.alloc), 0);
        if !next_is(tokens, NAME) {
            return Ok((none, tokens));
        }
        let (mut made, mut rest) = self.field(none, tokens)?;
        for _turn in 0..rest.len() {
            if !next_is(rest, COMMA) {
                return Ok((made, rest));
            }
            let (more, after) = self.next_field(made, rest)?;
            made = more;
            rest = after;
        }
        Ok((made, rest))
    }

    #[tactic(auto, unfolding(crate::specs::ExprReading::field))]
    fn field<'a>(&self, fields: Fields, tokens: &'a [Token]) -> Read<'a, Fields>
        requires { (l : ℕ) → l ≤ self.now.levels → Nests spec.unary l (U.pre self.now.unary) (U.post self.now.unary) }
        ensures { Reads (spec.field self.now.levels (spec.unary self.now.levels) (spec.expr self.now.levels) fields tokens.now) result }
    {
        let ((_, name), rest) = inner_name(self.alloc, tokens, self.levels)?;
        let (_, rest) = mark(rest, COLON)?;
        let (value, rest) = self.inner_expr(rest)?;
        Ok((pushed(fields, named(name, value))?, rest))
    }

    fn next_field<'a>(&self, fields: Fields, tokens: &'a [Token]) -> Read<'a, Fields>
        requires { (l : ℕ) → l ≤ self.now.levels → Nests spec.unary l (U.pre self.now.unary) (U.post self.now.unary) }
        ensures { Reads (spec.next_field self.now.levels (spec.unary self.now.levels) (spec.expr self.now.levels) fields tokens.now) result }
    {
        let (_, rest) = mark(tokens, COMMA)?;
        self.field(fields, rest)
    }

    // What stands behind 'all' and 'some': '{' range { ',' range } '|' expr '}'
    #[tactic(auto, unfolding(crate::specs::ExprReading::quantified))]
    fn quantified<'a>(&self, at: u32, all: bool, tokens: &'a [Token]) -> Read<'a, Measured<Expr>>
        requires { (l : ℕ) → l ≤ self.now.levels → Nests spec.unary l (U.pre self.now.unary) (U.post self.now.unary) }
        ensures { Reads (spec.quantified self.now.levels (spec.unary self.now.levels) (spec.expr self.now.levels) at all tokens.now) result }
    {
        let (_, rest) = mark(tokens, OPEN_BRACE)?;
        let (ranges, rest) = self.ranges(rest)?;
        let (_, rest) = mark(rest, BAR)?;
        let (body, rest) = self.inner_expr(rest)?;
        let body = boxed(self.alloc, body)?;
        let (_, rest) = mark(rest, CLOSE_BRACE)?;
        Ok((quant_node(at, all, ranges, body), rest))
    }

    #[tactic(auto, using(wy_reading::proofs::Turns::reader_steps), unfolding(crate::specs::ExprReading::range_list))]
    fn ranges<'a>(&self, tokens: &'a [Token]) -> Read<'a, Ranges>
        requires { (l : ℕ) → l ≤ self.now.levels → Nests spec.unary l (U.pre self.now.unary) (U.post self.now.unary) }
        ensures { Reads (spec.range_list self.now.levels (spec.unary self.now.levels) (spec.expr self.now.levels) tokens.now) result }
    {
        let none = Measured::Low(Items::new(self.alloc), 0);
        let (mut made, mut rest) = self.range(none, tokens)?;
        for _turn in 0..rest.len() {
            if !next_is(rest, COMMA) {
                return Ok((made, rest));
            }
            let (more, after) = self.next_range(made, rest)?;
            made = more;
            rest = after;
        }
        Ok((made, rest))
    }

    // range = NAME 'in' sum '..' sum
    #[tactic(auto, unfolding(crate::specs::ExprReading::range))]
    fn range<'a>(&self, ranges: Ranges, tokens: &'a [Token]) -> Read<'a, Ranges>
        requires { (l : ℕ) → l ≤ self.now.levels → Nests spec.unary l (U.pre self.now.unary) (U.post self.now.unary) }
        ensures { Reads (spec.range self.now.levels (spec.unary self.now.levels) (spec.expr self.now.levels) ranges tokens.now) result }
    {
        let ((_, name), rest) = inner_name(self.alloc, tokens, self.levels)?;
        let (_, rest) = mark(rest, IN)?;
        let (from, rest) = self.inner_sum(rest)?;
        let from = boxed(self.alloc, from)?;
        let (_, rest) = mark(rest, RANGE)?;
        let (to, rest) = self.inner_sum(rest)?;
        Ok((pushed(ranges, range(name, from, to))?, rest))
    }

    fn next_range<'a>(&self, ranges: Ranges, tokens: &'a [Token]) -> Read<'a, Ranges>
        requires { (l : ℕ) → l ≤ self.now.levels → Nests spec.unary l (U.pre self.now.unary) (U.post self.now.unary) }
        ensures { Reads (spec.next_range self.now.levels (spec.unary self.now.levels) (spec.expr self.now.levels) ranges tokens.now) result }
    {
        let (_, rest) = mark(tokens, COMMA)?;
        self.range(ranges, rest)
    }
}

// expr = logic [ '==>' expr ], where there are so many levels, over the reader of operands.
#[tactic(auto, using(crate::proofs::StepLemmas::expr_steps))]
fn joined<
    'a,
    U: Fn(Global, &[Token], usize) -> Result<(Measured<Expr>, &[Token]), Stop<Kind>> + Copy,
>(alloc: Global, tokens: &'a [Token], levels: usize, unary: U) -> Read<'a, Measured<Expr>>
    requires { (l : ℕ) → l ≤ levels → Nests spec.unary l (U.pre unary) (U.post unary) }
    ensures { Reads (spec.expr levels tokens.now) result }
{
    if levels == 0 {
        return too_deep(tokens, Class::Expression);
    }
    let operators = Operators {
        alloc,
        levels,
        unary,
    };
    let (left, rest) = operators.logic(tokens)?;
    if !next_is(rest, IMPLIES) {
        return Ok((left, rest));
    }
    let left = boxed(alloc, left)?;
    let (at, rest) = mark(rest, IMPLIES)?;
    let (right, rest) = joined(alloc, rest, levels - 1, unary)?;
    let right = boxed(alloc, right)?;
    Ok((binary_node(at, Op::Implies, left, right), rest))
}

/// What may be an operand, where there are so many levels.
#[tactic(auto, using(crate::proofs::StepLemmas::unary_steps))]
fn unary(
    alloc: Global,
    tokens: &[Token],
    levels: usize,
) -> Result<(Measured<Expr>, &[Token]), Stop<Kind>>
    ensures { Reads (spec.unary levels tokens.now) result }
{
    if levels == 0 {
        return too_deep(tokens, Class::Expression);
    }
    let inside = Inside {
        alloc,
        levels: levels - 1,
        unary,
    };
    inside.prefixed(tokens)
}

/// An expression, where there are so many levels.
pub fn expr(alloc: Global, tokens: &[Token], levels: usize) -> Read<'_, Measured<Expr>>
    ensures { Reads (spec.expr levels tokens.now) result }
{
    joined(alloc, tokens, levels, unary)
}

/// A sum, where there are so many levels.
pub fn sum(alloc: Global, tokens: &[Token], levels: usize) -> Read<'_, Measured<Expr>>
    ensures { Reads (spec.sum_in levels tokens.now) result }
{
    let operators = Operators {
        alloc,
        levels,
        unary,
    };
    operators.sum(tokens)
}

/// Arguments that stand inside of a pair of brackets, where there are so many levels inside.
pub fn arguments(alloc: Global, tokens: &[Token], levels: usize) -> Read<'_, Measured<Items<Expr>>>
    ensures { Reads (spec.args_in levels tokens.now) result }
{
    let inside = Inside {
        alloc,
        levels,
        unary,
    };
    inside.args(tokens)
}
