//! The shapes of records.
use wy_data::Name;
use wy_reading::Items;

/// The names of fields by their numbers, and the shapes by theirs: a shape is the list of its fields'
/// numbers, by rising names. `IsShapes` says what a table owes.
#[derive(Drop)]
pub struct Shapes {
    pub names: Items<Name>,
    pub lists: Items<Items<u32>>,
}
