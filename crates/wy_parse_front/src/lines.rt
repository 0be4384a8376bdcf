//! Lines and columns of many offsets in one text.
//!
//! `starts` finds once where the lines of a text start; it then gives the place of each offset by a binary search.

mod starts;

pub use starts::Lines;
