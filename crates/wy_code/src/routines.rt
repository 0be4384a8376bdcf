//! The code of a program.
use crate::instructions::Instr;
use wy_items::Items;
use wy_value::Shapes;

/// The code of a program. The function or method with the number k has the routine k, and the
/// routines behind these test the declared types, in their order.
#[derive(Drop)]
pub struct Code {
    /// The names of fields and the shapes of records, by the numbers that instructions have for them.
    pub shapes: Shapes,
    pub routines: Items<Routine>,
}

/// A routine. Its frame has so many registers; the first of them hold the arguments at entry, and
/// the others are empty.
#[derive(Drop)]
pub struct Routine {
    pub registers: u32,
    pub params: u32,
    pub body: Items<Instr>,
}
