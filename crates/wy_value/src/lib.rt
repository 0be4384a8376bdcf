//! Values: what programs compute with.
//!
//! `bounds` has the two ends of the language's `int`; no other crate writes their digits. `value` has
//! the values, and `shapes` the table by which a machine numbers the fields and shapes of records.
#![tactic(auto)]

mod bounds;
mod character;
mod fault;
mod fields;
mod flat;
mod laws;
mod nested;
mod printer;
mod shapes;
mod text;
mod value;

pub use bounds::{INT_MAX, INT_MIN};
pub use fault::ValueFault;
pub use laws::{
    a_shown_value_is_read, a_text_has_one_fault, a_text_has_one_reading, datum_determines_value,
    text_determines_value,
};
pub use printer::show;
pub use shapes::Shapes;
pub use text::read_values;
pub use value::Value;
pub use wy_data::{Name, scan};
pub use wy_reading::{Boxed, Items, NoMemory};
