//! The formula of each schema as a list of instructions.
ghost use Rattle.std.specs.Prelude.{IfOk};
ghost use Rattle.wy_facts.specs.declared.schema.Schema.TheVariants as schemas;
ghost use Rattle.wy_facts.specs.Program.{States};

use crate::schema::Schema;
use std::alloc::{AllocError, Global};

/// A term without parts.
#[derive(Clone, Copy, Debug, PartialEq, Eq)]
pub enum Leaf {
    Zero,
    Null,
    True,
    False,
}

/// A form of terms and formulas of one part.
#[derive(Clone, Copy, Debug, PartialEq, Eq)]
pub enum Unary {
    Neg,
    Num,
    Len,
    Int,
    IsNull,
    IsBool,
    IsInt,
    Not,
}

/// A form of terms and formulas of two parts.
#[derive(Clone, Copy, Debug, PartialEq, Eq)]
pub enum Binary {
    Add,
    Mul,
    Get,
    AtMost,
    Equal,
    And,
    Or,
}

/// What is to be made. A list of these is a formula in prefix notation and is read from its end: each takes the terms that
/// were made last, the last one first.
#[derive(Clone, Copy, Debug, PartialEq, Eq)]
pub enum Instruction {
    /// The part with this number, from 0.
    Part(usize),
    Leaf(Leaf),
    Unary(Unary),
    Binary(Binary),
    AndThree,
    OrThree,
    AndFour,
}

// 0 <= len(v)
fn length_is_natural(alloc: Global) -> Result<Vec<Instruction>, AllocError>
    ensures states { IfOk result (λ p. States p.items schemas.LengthIsNatural) }
{
    Vec::from_slice(
        alloc,
        &[
            Instruction::Binary(Binary::AtMost),
            Instruction::Leaf(Leaf::Zero),
            Instruction::Unary(Unary::Len),
            Instruction::Part(0),
        ],
    )
}

// 0 <= n implies len(t) = n
fn length_of_copies(alloc: Global) -> Result<Vec<Instruction>, AllocError>
    ensures states { IfOk result (λ p. States p.items schemas.LengthOfCopies) }
{
    Vec::from_slice(
        alloc,
        &[
            Instruction::Binary(Binary::Or),
            Instruction::Unary(Unary::Not),
            Instruction::Binary(Binary::AtMost),
            Instruction::Leaf(Leaf::Zero),
            Instruction::Part(1),
            Instruction::Binary(Binary::And),
            Instruction::Binary(Binary::AtMost),
            Instruction::Unary(Unary::Len),
            Instruction::Part(0),
            Instruction::Part(1),
            Instruction::Binary(Binary::AtMost),
            Instruction::Part(1),
            Instruction::Unary(Unary::Len),
            Instruction::Part(0),
        ],
    )
}

// len(t) = len(a)
fn length_of_updated(alloc: Global) -> Result<Vec<Instruction>, AllocError>
    ensures states { IfOk result (λ p. States p.items schemas.LengthOfUpdated) }
{
    Vec::from_slice(
        alloc,
        &[
            Instruction::Binary(Binary::And),
            Instruction::Binary(Binary::AtMost),
            Instruction::Unary(Unary::Len),
            Instruction::Part(0),
            Instruction::Unary(Unary::Len),
            Instruction::Part(1),
            Instruction::Binary(Binary::AtMost),
            Instruction::Unary(Unary::Len),
            Instruction::Part(1),
            Instruction::Unary(Unary::Len),
            Instruction::Part(0),
        ],
    )
}

// i < k, or k < i, or t = v
fn element_of_array(alloc: Global) -> Result<Vec<Instruction>, AllocError>
    ensures states { IfOk result (λ p. States p.items schemas.ElementOfArray) }
{
    Vec::from_slice(
        alloc,
        &[
            Instruction::OrThree,
            Instruction::Unary(Unary::Not),
            Instruction::Binary(Binary::AtMost),
            Instruction::Part(2),
            Instruction::Part(1),
            Instruction::Unary(Unary::Not),
            Instruction::Binary(Binary::AtMost),
            Instruction::Part(1),
            Instruction::Part(2),
            Instruction::Binary(Binary::Equal),
            Instruction::Part(0),
            Instruction::Part(3),
        ],
    )
}

// 0 <= i and i < n imply t = v
fn element_of_copies(alloc: Global) -> Result<Vec<Instruction>, AllocError>
    ensures states { IfOk result (λ p. States p.items schemas.ElementOfCopies) }
{
    Vec::from_slice(
        alloc,
        &[
            Instruction::Binary(Binary::Or),
            Instruction::Unary(Unary::Not),
            Instruction::Binary(Binary::And),
            Instruction::Binary(Binary::AtMost),
            Instruction::Leaf(Leaf::Zero),
            Instruction::Part(1),
            Instruction::Unary(Unary::Not),
            Instruction::Binary(Binary::AtMost),
            Instruction::Part(2),
            Instruction::Part(1),
            Instruction::Binary(Binary::Equal),
            Instruction::Part(0),
            Instruction::Part(3),
        ],
    )
}

// i <= j, j <= i, 0 <= i and i < len(a) imply t = w
fn element_updated(alloc: Global) -> Result<Vec<Instruction>, AllocError>
    ensures states { IfOk result (λ p. States p.items schemas.ElementUpdated) }
{
    Vec::from_slice(
        alloc,
        &[
            Instruction::Binary(Binary::Or),
            Instruction::Unary(Unary::Not),
            Instruction::AndFour,
            Instruction::Binary(Binary::AtMost),
            Instruction::Part(2),
            Instruction::Part(4),
            Instruction::Binary(Binary::AtMost),
            Instruction::Part(4),
            Instruction::Part(2),
            Instruction::Binary(Binary::AtMost),
            Instruction::Leaf(Leaf::Zero),
            Instruction::Part(2),
            Instruction::Unary(Unary::Not),
            Instruction::Binary(Binary::AtMost),
            Instruction::Unary(Unary::Len),
            Instruction::Part(1),
            Instruction::Part(2),
            Instruction::Binary(Binary::Equal),
            Instruction::Part(0),
            Instruction::Part(3),
        ],
    )
}

// i < j or j < i implies t = get(a, j)
fn element_elsewhere(alloc: Global) -> Result<Vec<Instruction>, AllocError>
    ensures states { IfOk result (λ p. States p.items schemas.ElementElsewhere) }
{
    Vec::from_slice(
        alloc,
        &[
            Instruction::Binary(Binary::Or),
            Instruction::Unary(Unary::Not),
            Instruction::Binary(Binary::Or),
            Instruction::Unary(Unary::Not),
            Instruction::Binary(Binary::AtMost),
            Instruction::Part(3),
            Instruction::Part(2),
            Instruction::Unary(Unary::Not),
            Instruction::Binary(Binary::AtMost),
            Instruction::Part(2),
            Instruction::Part(3),
            Instruction::Binary(Binary::Equal),
            Instruction::Part(0),
            Instruction::Binary(Binary::Get),
            Instruction::Part(1),
            Instruction::Part(3),
        ],
    )
}

// i < j, or j < i, or s = t
fn elements_at_one_index(alloc: Global) -> Result<Vec<Instruction>, AllocError>
    ensures states { IfOk result (λ p. States p.items schemas.ElementsAtOneIndex) }
{
    Vec::from_slice(
        alloc,
        &[
            Instruction::OrThree,
            Instruction::Unary(Unary::Not),
            Instruction::Binary(Binary::AtMost),
            Instruction::Part(3),
            Instruction::Part(2),
            Instruction::Unary(Unary::Not),
            Instruction::Binary(Binary::AtMost),
            Instruction::Part(2),
            Instruction::Part(3),
            Instruction::Binary(Binary::Equal),
            Instruction::Part(0),
            Instruction::Part(1),
        ],
    )
}

// t = w
fn field_updated(alloc: Global) -> Result<Vec<Instruction>, AllocError>
    ensures states { IfOk result (λ p. States p.items schemas.FieldUpdated) }
{
    Vec::from_slice(
        alloc,
        &[
            Instruction::Binary(Binary::Equal),
            Instruction::Part(0),
            Instruction::Part(1),
        ],
    )
}

// t = u
fn field_elsewhere(alloc: Global) -> Result<Vec<Instruction>, AllocError>
    ensures states { IfOk result (λ p. States p.items schemas.FieldElsewhere) }
{
    Vec::from_slice(
        alloc,
        &[
            Instruction::Binary(Binary::Equal),
            Instruction::Part(0),
            Instruction::Part(1),
        ],
    )
}

// e implies num(v) <= num(w) and num(w) <= num(v)
fn equal_numbers(alloc: Global) -> Result<Vec<Instruction>, AllocError>
    ensures states { IfOk result (λ p. States p.items schemas.EqualNumbers) }
{
    Vec::from_slice(
        alloc,
        &[
            Instruction::Binary(Binary::Or),
            Instruction::Unary(Unary::Not),
            Instruction::Part(0),
            Instruction::Binary(Binary::And),
            Instruction::Binary(Binary::AtMost),
            Instruction::Unary(Unary::Num),
            Instruction::Part(1),
            Instruction::Unary(Unary::Num),
            Instruction::Part(2),
            Instruction::Binary(Binary::AtMost),
            Instruction::Unary(Unary::Num),
            Instruction::Part(2),
            Instruction::Unary(Unary::Num),
            Instruction::Part(1),
        ],
    )
}

// k holds exactly where l does
fn kind_of_updated(alloc: Global) -> Result<Vec<Instruction>, AllocError>
    ensures states { IfOk result (λ p. States p.items schemas.KindOfUpdated) }
{
    Vec::from_slice(
        alloc,
        &[
            Instruction::Binary(Binary::And),
            Instruction::Binary(Binary::Or),
            Instruction::Unary(Unary::Not),
            Instruction::Part(0),
            Instruction::Part(1),
            Instruction::Binary(Binary::Or),
            Instruction::Unary(Unary::Not),
            Instruction::Part(1),
            Instruction::Part(0),
        ],
    )
}

// l implies k
fn kind_of_field_updated(alloc: Global) -> Result<Vec<Instruction>, AllocError>
    ensures states { IfOk result (λ p. States p.items schemas.KindOfFieldUpdated) }
{
    Vec::from_slice(
        alloc,
        &[
            Instruction::Binary(Binary::Or),
            Instruction::Unary(Unary::Not),
            Instruction::Part(1),
            Instruction::Part(0),
        ],
    )
}

// kind null implies v = null, kind bool that v is true or false, and kind int that v = int(num(v))
fn datum_by_kind(alloc: Global) -> Result<Vec<Instruction>, AllocError>
    ensures states { IfOk result (λ p. States p.items schemas.DatumByKind) }
{
    Vec::from_slice(
        alloc,
        &[
            Instruction::AndThree,
            Instruction::Binary(Binary::Or),
            Instruction::Unary(Unary::Not),
            Instruction::Unary(Unary::IsNull),
            Instruction::Part(0),
            Instruction::Binary(Binary::Equal),
            Instruction::Part(0),
            Instruction::Leaf(Leaf::Null),
            Instruction::Binary(Binary::Or),
            Instruction::Unary(Unary::Not),
            Instruction::Unary(Unary::IsBool),
            Instruction::Part(0),
            Instruction::Binary(Binary::Or),
            Instruction::Binary(Binary::Equal),
            Instruction::Part(0),
            Instruction::Leaf(Leaf::True),
            Instruction::Binary(Binary::Equal),
            Instruction::Part(0),
            Instruction::Leaf(Leaf::False),
            Instruction::Binary(Binary::Or),
            Instruction::Unary(Unary::Not),
            Instruction::Unary(Unary::IsInt),
            Instruction::Part(0),
            Instruction::Binary(Binary::Equal),
            Instruction::Part(0),
            Instruction::Unary(Unary::Int),
            Instruction::Unary(Unary::Num),
            Instruction::Part(0),
        ],
    )
}

// f and v = true, or not f and v = false
fn datum_of_formula(alloc: Global) -> Result<Vec<Instruction>, AllocError>
    ensures states { IfOk result (λ p. States p.items schemas.DatumOfFormula) }
{
    Vec::from_slice(
        alloc,
        &[
            Instruction::Binary(Binary::Or),
            Instruction::Binary(Binary::And),
            Instruction::Part(1),
            Instruction::Binary(Binary::Equal),
            Instruction::Part(0),
            Instruction::Leaf(Leaf::True),
            Instruction::Binary(Binary::And),
            Instruction::Unary(Unary::Not),
            Instruction::Part(1),
            Instruction::Binary(Binary::Equal),
            Instruction::Part(0),
            Instruction::Leaf(Leaf::False),
        ],
    )
}

// b = 0; or a = b * q + r, 0 <= r, (b <= 0 or r < b) and (0 <= b or r < neg(b))
fn division(alloc: Global) -> Result<Vec<Instruction>, AllocError>
    ensures states { IfOk result (λ p. States p.items schemas.Division) }
{
    Vec::from_slice(
        alloc,
        &[
            Instruction::Binary(Binary::Or),
            Instruction::Binary(Binary::And),
            Instruction::Binary(Binary::AtMost),
            Instruction::Part(1),
            Instruction::Leaf(Leaf::Zero),
            Instruction::Binary(Binary::AtMost),
            Instruction::Leaf(Leaf::Zero),
            Instruction::Part(1),
            Instruction::AndFour,
            Instruction::Binary(Binary::And),
            Instruction::Binary(Binary::AtMost),
            Instruction::Part(0),
            Instruction::Binary(Binary::Add),
            Instruction::Binary(Binary::Mul),
            Instruction::Part(1),
            Instruction::Part(2),
            Instruction::Part(3),
            Instruction::Binary(Binary::AtMost),
            Instruction::Binary(Binary::Add),
            Instruction::Binary(Binary::Mul),
            Instruction::Part(1),
            Instruction::Part(2),
            Instruction::Part(3),
            Instruction::Part(0),
            Instruction::Binary(Binary::AtMost),
            Instruction::Leaf(Leaf::Zero),
            Instruction::Part(3),
            Instruction::Binary(Binary::Or),
            Instruction::Binary(Binary::AtMost),
            Instruction::Part(1),
            Instruction::Leaf(Leaf::Zero),
            Instruction::Unary(Unary::Not),
            Instruction::Binary(Binary::AtMost),
            Instruction::Part(1),
            Instruction::Part(3),
            Instruction::Binary(Binary::Or),
            Instruction::Binary(Binary::AtMost),
            Instruction::Leaf(Leaf::Zero),
            Instruction::Part(1),
            Instruction::Unary(Unary::Not),
            Instruction::Binary(Binary::AtMost),
            Instruction::Unary(Unary::Neg),
            Instruction::Part(1),
            Instruction::Part(3),
        ],
    )
}

/// The formula of a schema as a list of instructions.
pub fn program(alloc: Global, schema: Schema) -> Result<Vec<Instruction>, AllocError>
    ensures states { IfOk result (λ p. States p.items schema) }
{
    match schema {
        Schema::LengthIsNatural => length_is_natural(alloc),
        Schema::LengthOfCopies => length_of_copies(alloc),
        Schema::LengthOfUpdated => length_of_updated(alloc),
        Schema::ElementOfArray => element_of_array(alloc),
        Schema::ElementOfCopies => element_of_copies(alloc),
        Schema::ElementUpdated => element_updated(alloc),
        Schema::ElementElsewhere => element_elsewhere(alloc),
        Schema::ElementsAtOneIndex => elements_at_one_index(alloc),
        Schema::FieldUpdated => field_updated(alloc),
        Schema::FieldElsewhere => field_elsewhere(alloc),
        Schema::EqualNumbers => equal_numbers(alloc),
        Schema::KindOfUpdated => kind_of_updated(alloc),
        Schema::KindOfFieldUpdated => kind_of_field_updated(alloc),
        Schema::DatumByKind => datum_by_kind(alloc),
        Schema::DatumOfFormula => datum_of_formula(alloc),
        Schema::Division => division(alloc),
    }
}
