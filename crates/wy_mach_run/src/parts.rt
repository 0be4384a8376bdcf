//! What a run starts with.
use wy_code::Code;
use wy_items::Items;
use wy_value::Value;

/// What a run starts with: code, the number of its entry, the arguments, and whether the entry gives a result.
#[derive(Drop)]
pub struct Start {
    /// The code of the program.
    pub code: Code,
    /// The number of the entry among the functions and methods of the program, from 0; its routine has the same.
    pub entry: u32,
    pub args: Items<Value>,
    /// Whether the text of the result is wanted: a method may give none.
    pub has_result: bool,
}
