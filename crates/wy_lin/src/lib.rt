//! Linear forms: sums of products of a whole number and a variable, and a number.
//!
//! A form (`linear`) has its variables by the numbers of terms. `forms` gives the form of an Int term and that of a
//! literal, which is at least 0 exactly where the literal holds; a list of tasks (`work`) takes the term apart, however
//! deep it is. `combination` adds multiples of forms. Sums are made in `sum`, where a variable is found by a look-up, and
//! no number in them ever leaves 128 bits (`arithmetic`, whose answers and refusals are those of `stop`).
#![tactic(auto)]

mod arithmetic;
mod combination;
mod forms;
mod linear;
mod stop;
mod sum;
mod work;

pub use combination::combine;
pub use forms::{form, term_form};
pub use linear::Form;
pub use wy_term::{Cond, Kind, NoMemory, Node, Quantifier, Terms};
