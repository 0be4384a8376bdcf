//! What code is made by.
use crate::tables::table::Table;
use wy_items::Items;

/// The names of fields and the shapes of records by their numbers, and for each function and method
/// whether it gives a result. The routines of types stand behind theirs.
#[derive(Drop)]
pub struct Context {
    pub table: Table,
    pub results: Items<bool>,
}
