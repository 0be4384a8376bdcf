//! Laws of verification conditions: which certificates show them, and what their formulas are made of.
//!
//! `shown` has what it means that conditions are shown, `folded` that their formulas are folded, `grounded` that each name in them is
//! bound or given, `listed_types` that the types which they list are closed. There is no code here.
#![tactic(auto)]

pub mod folded;
pub mod grounded;
pub mod listed_types;
pub mod shown;
