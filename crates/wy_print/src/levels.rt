//! The levels of the grammar of expressions, and how operators are written.
//!
//! A part of an expression stands in brackets exactly where its level may not stand there.
ghost use Rattle.std.specs.Prelude.{◌≡◌};
ghost use Rattle.wy_print.specs.Levels as levels;

use wy_ast::Op;

/// `a ==> b`
pub const IMPLICATION: u8 = 0;

/// `a || b`
pub const DISJUNCTION: u8 = 1;

/// `a && b`
pub const CONJUNCTION: u8 = 2;

/// `a < b` or `a is int`
pub const COMPARISON: u8 = 3;

/// `a + b`
pub const SUM: u8 = 4;

/// `a * b`
pub const PRODUCT: u8 = 5;

/// `!a` or `- a`
pub const UNARY: u8 = 6;

/// What an index or a field may follow.
pub const POSTFIX: u8 = 7;

/// The level of what the operator makes.
pub fn level_of(op: Op) -> u8
    ensures value { result ≡ levels.level_of op }
{
    match op {
        Op::Add | Op::Sub => SUM,
        Op::Mul | Op::Div | Op::Mod => PRODUCT,
        Op::Equal | Op::NotEqual | Op::Less | Op::LessEqual | Op::Greater | Op::GreaterEqual =>
            COMPARISON,
        Op::And => CONJUNCTION,
        Op::Or => DISJUNCTION,
        Op::Implies => IMPLICATION,
    }
}

// The lowest level that may stand on its left.
fn lowest_left(op: Op) -> u8
    ensures value { result ≡ levels.lowest_left op }
{
    match op {
        Op::Add | Op::Sub => SUM,
        Op::Mul | Op::Div | Op::Mod => PRODUCT,
        Op::Equal | Op::NotEqual | Op::Less | Op::LessEqual | Op::Greater | Op::GreaterEqual => SUM,
        Op::And => CONJUNCTION,
        Op::Or | Op::Implies => DISJUNCTION,
    }
}

// The lowest level that may stand on its right.
fn lowest_right(op: Op) -> u8
    ensures value { result ≡ levels.lowest_right op }
{
    match op {
        Op::Add | Op::Sub => PRODUCT,
        Op::Mul | Op::Div | Op::Mod => UNARY,
        Op::Equal | Op::NotEqual | Op::Less | Op::LessEqual | Op::Greater | Op::GreaterEqual => SUM,
        Op::And | Op::Or => COMPARISON,
        Op::Implies => IMPLICATION,
    }
}

// Whether it is `||`.
fn is_or(op: Op) -> bool
    ensures value { result ≡ levels.is_or op }
{
    matches!(op, Op::Or)
}

/// Whether what has the level needs brackets on the left of the operator. `&&` and `||` don't mix.
pub fn needs_left(op: Op, level: u8) -> bool
    ensures value { result ≡ levels.needs_left op level }
{
    level < lowest_left(op) || (is_or(op) && level == CONJUNCTION)
}

/// Whether what has the level needs brackets on the right of the operator.
pub fn needs_right(op: Op, level: u8) -> bool
    ensures value { result ≡ levels.needs_right op level }
{
    level < lowest_right(op)
}

/// How the operator is written.
pub fn symbol(op: Op) -> &'static [u8]
    ensures value { result.now ≡ levels.symbol op }
{
    match op {
        Op::Add => b"+",
        Op::Sub => b"-",
        Op::Mul => b"*",
        Op::Div => b"/",
        Op::Mod => b"%",
        Op::Equal => b"==",
        Op::NotEqual => b"!=",
        Op::Less => b"<",
        Op::LessEqual => b"<=",
        Op::Greater => b">",
        Op::GreaterEqual => b">=",
        Op::And => b"&&",
        Op::Or => b"||",
        Op::Implies => b"==>",
    }
}
