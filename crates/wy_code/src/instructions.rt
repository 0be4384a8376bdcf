//! The instructions. ORDER Instr.
use wy_items::Items;

/// What a `Const` puts into a register.
#[derive(Clone, Copy, Debug, PartialEq, Eq)]
pub enum Scalar {
    Null,
    Bool(bool),
    Int(i128),
}

/// What an `Arith` computes of two numbers. The quotient and the rest are those of a division whose
/// rest isn't negative.
#[derive(Clone, Copy, Debug, PartialEq, Eq)]
pub enum Arithmetic {
    /// `+`
    Add,
    /// `-`
    Sub,
    /// `*`
    Mul,
    /// `/`
    Div,
    /// `%`
    Mod,
}

/// How a `Compare` compares two numbers.
#[derive(Clone, Copy, Debug, PartialEq, Eq)]
pub enum Comparison {
    /// `<`
    Less,
    /// `<=`
    LessEqual,
    /// `>`
    Greater,
    /// `>=`
    GreaterEqual,
}

/// A step of the path of a `Put`.
#[derive(Clone, Copy, Debug, PartialEq, Eq)]
pub enum Slot {
    /// The item of an array whose index is in this register.
    Item(u32),
    /// The field of a record whose name has this number.
    Field(u32),
}

/// What a `Kind` asks for.
#[derive(Clone, Copy, Debug, PartialEq, Eq)]
pub enum Kind {
    Null,
    Bool,
    Int,
    Array,
    /// A record with the fields of the shape with this number.
    Shape(u32),
}

/// An instruction. A register is its number in the frame, from 0. What reads a register leaves it as
/// it is, unless it is said to move: then the register is empty behind it. What puts something into
/// a register releases what was there.
#[derive(Drop)]
pub enum Instr {
    /// `Const d c`: puts c into d.
    Const(u32, Scalar),
    /// `Move d r`: moves r into d.
    Move(u32, u32),
    /// `Share d r`: puts what is in r into d too.
    Share(u32, u32),
    /// `Clear [r, ..]`: releases what is in these, and empties them.
    Clear(Items<u32>),
    /// `Arith d op a b`: a number of the numbers a and b.
    Arith(u32, Arithmetic, u32, u32),
    /// `Compare d op a b`: a truth value of the numbers a and b.
    Compare(u32, Comparison, u32, u32),
    /// `Equal d a b`: whether a and b are the same, compared by structure.
    Equal(u32, u32, u32),
    /// `Not d a`: the other truth value.
    Not(u32, u32),
    /// `Jump t`: goes on at the instruction with this number, from 0.
    Jump(u32),
    /// `Branch r t`: goes on at t where r is false, else behind.
    Branch(u32, u32),
    /// `Array d [r, ..]`: an array of these items, which are moved, from left to right.
    Array(u32, Items<u32>),
    /// `Record d s [r, ..]`: a record of the shape s, of which these values are moved, from left to
    /// right.
    Record(u32, u32, Items<u32>),
    /// `Fill d v n`: an array of so many copies of v, which is moved.
    Fill(u32, u32, u32),
    /// `Len d a`: how many items the array has.
    Len(u32, u32),
    /// `Get d a i`: the item of the array a with the index i.
    Get(u32, u32, u32),
    /// `Field d a f`: the field of the record a whose name has this number.
    Field(u32, u32, u32),
    /// `Put a [slot, ..] v`: v, which is moved, stands at the end of this path into a.
    Put(u32, Items<Slot>, u32),
    /// `Kind d a k`: whether a is of this kind.
    Kind(u32, u32, Kind),
    /// `Call d f [r, ..]`: runs the routine f on these arguments, which are moved from left to
    /// right; its result comes into d.
    Call(u32, u32, Items<u32>),
    /// `Return r`: ends the routine with what is in r.
    Return(u32),
    /// `Print a`: writes the array of numbers as bytes.
    Print(u32),
    /// `PrintInt a`: writes the number in decimal.
    PrintInt(u32),
}
