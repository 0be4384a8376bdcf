//! What a walk through a type or an expression gives: terms, with how many names were made up to them.

use wy_data::Name;

/// A formula, and how many names were made up to it.
#[derive(Clone, Copy)]
pub struct Made {
    pub term: u32,
    pub count: u64,
}

/// The term of an expression, how many names were made up to it, and the number of the expression behind it.
#[derive(Clone, Copy)]
pub struct Valued {
    pub term: u32,
    pub count: u64,
    pub next: usize,
}

/// The terms of expressions, how many names were made up to them, and the number of the expression behind them.
#[derive(Drop)]
pub struct ValuedAll {
    pub terms: Vec<u32>,
    pub count: u64,
    pub next: usize,
}

/// The terms of the fields of a record with their names, how many names were made up to them, and the number of the expression behind them.
#[derive(Drop)]
pub struct ValuedFields {
    pub fields: Vec<(Name, u32)>,
    pub count: u64,
    pub next: usize,
}
