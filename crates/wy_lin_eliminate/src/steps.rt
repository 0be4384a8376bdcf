//! Steps of a certificate, and what elimination finds.
use wy_items::Items;

/// A step. Each multiplier stands beside a place, from 0, in the list of the given forms followed by the forms that the
/// cuts before the step gave.
#[derive(Debug, Drop)]
pub enum LinStep {
    /// The sum of the forms with these multipliers is a negative constant.
    Sum(Items<(u128, u32)>),
    /// The divisor divides every coefficient of the sum of the forms with these multipliers, and gives one form more: the
    /// sum divided by it, the constant rounded down, without variables whose coefficient is 0.
    Cut(u128, Items<(u128, u32)>),
}

/// Steps, the last of which is a sum.
#[derive(Debug, Drop)]
pub struct Steps {
    pub list: Items<LinStep>,
}

/// What elimination finds.
#[derive(Debug, Drop)]
pub enum Elim {
    /// The forms can't all be at least 0, by these steps.
    Refuted(Steps),
    /// No form is left.
    Consistent,
    /// More than 4,096 forms would stand.
    Crowded,
    /// A number of a step leaves 128 bits.
    Wide,
}
