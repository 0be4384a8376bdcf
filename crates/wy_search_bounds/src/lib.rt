//! How the elimination of a node's variables ends.
//!
//! `forms` takes the form of a literal, its variables by their places among the terms present. `firsts` lists the first place of
//! each place's class, `removal` says which forms take the variables away that aren't the first of their class, and `sums` adds
//! them up; `replacing` gives what is left of a form. `gathering` does so for each literal, and `ending` eliminates the variables
//! of what is left. The definition is that of `wy_search_spec`.
//!
//! `known` keeps the forms of literals that were made, so that each is made once: nodes share most of their literals, and so do the
//! conditions of a list, and forms are made of terms as deep as a function's body is long. What it has of old terms (`lasting`)
//! outlives a search, and the rest (`passing`) goes with the terms that the search made. `made` puts a form behind others.
//!
//! The products of bounds that a round of expansion adds to a node.
//!
//! `tightest` finds, for a factor of a product, the literal that is its tightest lower or upper bound. `products` lists what the
//! product of each such bound of the one factor with each of the other states. The definition is that of `wy_search_spec`.
#![tactic(auto)]

mod ending;
mod firsts;
mod forms;
mod gathering;
mod known;
mod lasting;
mod made;
mod passing;
mod products;
mod removal;
mod replacing;
mod sums;
mod tightest;

pub use ending::{Ending, ending_of_elimination};
pub use forms::numbered;
pub use known::{KnownForms, forget_from, no_forms};
pub use products::{Bounds, bounds_of, products_of};
pub use removal::{Taking, takings};
pub use replacing::{Replaced, replace};
pub use tightest::Bound;
pub use wy_check::product_stated;
pub use wy_cong::{
    Present, classes, classes_clash, in_one_class, next_atom, place, standing, terms_present,
};
