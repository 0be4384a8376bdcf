//! Code as text.
ghost use Rattle.std.specs.Prelude.{◌≡◌, ◌∷◌, ◌++◌, IfOk, OnOk};
ghost use Rattle.std.specs.Fmt.{decimal, signed_decimal};
ghost use Rattle.wy_code.specs.Listing as spec;

use crate::instructions::{Arithmetic, Comparison, Instr, Kind, Scalar, Slot};
use crate::routines::{Code, Routine};
use std::alloc::Global;
use wy_items::NoMemory;

/// The text of the code: for each routine a line `routine 0` with its number, and then each of its
/// instructions on a line behind two spaces, as `  Arith r2 + r0 r1`. An instruction is its name and
/// its operands. A register is written `r2`, a list of registers `[r2, r3]`, a path `[[r2], .0]`, a
/// kind by its word or as `shape 0`, a constant as values are, and a place to go to, a routine, a
/// shape or a field by its number. Linear in the code.
pub fn show_code(alloc: Global, code: &Code) -> Result<Vec<u8>, NoMemory>
    ensures value { IfOk result (λ text. text.items ≡ spec.code_text code.now) }
{
    let mut text = Vec::new(alloc);
    let mut number = 0;
    for routine in code.routines.as_slice() {
        write_routine(alloc, &mut text, number, routine)?;
        number += 1;
    }
    Ok(text)
}

fn write_routine(
    alloc: Global,
    text: &mut Vec<u8>,
    number: u64,
    routine: &Routine,
) -> Result<(), NoMemory>
    ensures { OnOk result (text.new.items ≡ text.old.items ++ spec.routine_text number routine.now) }
{
    write_bytes(text, b"routine ")?;
    write_number(alloc, text, number)?;
    write_bytes(text, b"\n")?;
    write_body(alloc, text, routine.body.as_slice())
}

fn write_body(alloc: Global, text: &mut Vec<u8>, body: &[Instr]) -> Result<(), NoMemory>
    ensures { OnOk result (text.new.items ≡ text.old.items ++ spec.body_text body.now) }
{
    for instr in body {
        write_bytes(text, b"  ")?;
        write_instr(alloc, text, instr)?;
        write_bytes(text, b"\n")?;
    }
    Ok(())
}

fn write_instr(alloc: Global, text: &mut Vec<u8>, instr: &Instr) -> Result<(), NoMemory>
    ensures { OnOk result (text.new.items ≡ text.old.items ++ spec.instr_text instr.now) }
{
    match instr {
        Instr::Const(d, scalar) => {
            write_bytes(text, b"Const")?;
            write_register(alloc, text, *d)?;
            write_scalar(alloc, text, *scalar)
        }
        Instr::Move(d, r) => write_two(alloc, text, b"Move", *d, *r),
        Instr::Share(d, r) => write_two(alloc, text, b"Share", *d, *r),
        Instr::Clear(registers) => {
            write_bytes(text, b"Clear")?;
            write_registers(alloc, text, registers.as_slice())
        }
        Instr::Arith(d, op, a, b) => {
            write_bytes(text, b"Arith")?;
            write_register(alloc, text, *d)?;
            write_bytes(text, arithmetic_sign(*op))?;
            write_register(alloc, text, *a)?;
            write_register(alloc, text, *b)
        }
        Instr::Compare(d, op, a, b) => {
            write_bytes(text, b"Compare")?;
            write_register(alloc, text, *d)?;
            write_bytes(text, comparison_sign(*op))?;
            write_register(alloc, text, *a)?;
            write_register(alloc, text, *b)
        }
        Instr::Equal(d, a, b) => write_three(alloc, text, b"Equal", *d, *a, *b),
        Instr::Not(d, a) => write_two(alloc, text, b"Not", *d, *a),
        Instr::Jump(to) => {
            write_bytes(text, b"Jump")?;
            write_operand(alloc, text, *to)
        }
        Instr::Branch(r, to) => {
            write_bytes(text, b"Branch")?;
            write_register(alloc, text, *r)?;
            write_operand(alloc, text, *to)
        }
        Instr::Array(d, items) => {
            write_bytes(text, b"Array")?;
            write_register(alloc, text, *d)?;
            write_registers(alloc, text, items.as_slice())
        }
        Instr::Record(d, shape, values) => {
            write_bytes(text, b"Record")?;
            write_register(alloc, text, *d)?;
            write_operand(alloc, text, *shape)?;
            write_registers(alloc, text, values.as_slice())
        }
        Instr::Fill(d, v, n) => write_three(alloc, text, b"Fill", *d, *v, *n),
        Instr::Len(d, a) => write_two(alloc, text, b"Len", *d, *a),
        Instr::Get(d, a, i) => write_three(alloc, text, b"Get", *d, *a, *i),
        Instr::Field(d, a, field) => {
            write_two(alloc, text, b"Field", *d, *a)?;
            write_operand(alloc, text, *field)
        }
        Instr::Put(a, path, v) => {
            write_bytes(text, b"Put")?;
            write_register(alloc, text, *a)?;
            write_path(alloc, text, path.as_slice())?;
            write_register(alloc, text, *v)
        }
        Instr::Kind(d, a, kind) => {
            write_two(alloc, text, b"Kind", *d, *a)?;
            write_kind(alloc, text, *kind)
        }
        Instr::Call(d, routine, arguments) => {
            write_bytes(text, b"Call")?;
            write_register(alloc, text, *d)?;
            write_operand(alloc, text, *routine)?;
            write_registers(alloc, text, arguments.as_slice())
        }
        Instr::Return(r) => write_one(alloc, text, b"Return", *r),
        Instr::Print(a) => write_one(alloc, text, b"Print", *a),
        Instr::PrintInt(a) => write_one(alloc, text, b"PrintInt", *a),
    }
}

// A name and a register.
fn write_one(alloc: Global, text: &mut Vec<u8>, name: &[u8], a: u32) -> Result<(), NoMemory>
    ensures { OnOk result (text.new.items ≡ text.old.items ++ (name.now ++ spec.register_text a)) }
{
    write_bytes(text, name)?;
    write_register(alloc, text, a)
}

// A name and two registers.
fn write_two(alloc: Global, text: &mut Vec<u8>, name: &[u8], a: u32, b: u32) -> Result<(), NoMemory>
    ensures { OnOk result (text.new.items ≡ text.old.items ++ (name.now ++ (spec.register_text a ++ spec.register_text b))) }
{
    write_bytes(text, name)?;
    write_register(alloc, text, a)?;
    write_register(alloc, text, b)
}

// A name and three registers.
fn write_three(
    alloc: Global,
    text: &mut Vec<u8>,
    name: &[u8],
    a: u32,
    b: u32,
    c: u32,
) -> Result<(), NoMemory>
    ensures { OnOk result (text.new.items ≡ text.old.items ++ (name.now ++ (spec.register_text a ++ (spec.register_text b ++ spec.register_text c)))) }
{
    write_bytes(text, name)?;
    write_register(alloc, text, a)?;
    write_register(alloc, text, b)?;
    write_register(alloc, text, c)
}

fn write_register(alloc: Global, text: &mut Vec<u8>, register: u32) -> Result<(), NoMemory>
    ensures { OnOk result (text.new.items ≡ text.old.items ++ spec.register_text register) }
{
    write_bytes(text, b" r")?;
    write_number(alloc, text, u64::from(register))
}

// A number that is no register.
fn write_operand(alloc: Global, text: &mut Vec<u8>, number: u32) -> Result<(), NoMemory>
    ensures { OnOk result (text.new.items ≡ text.old.items ++ spec.operand_text number) }
{
    write_bytes(text, b" ")?;
    write_number(alloc, text, u64::from(number))
}

fn write_registers(alloc: Global, text: &mut Vec<u8>, registers: &[u32]) -> Result<(), NoMemory>
    ensures { OnOk result (text.new.items ≡ text.old.items ++ spec.registers_text registers.now) }
{
    let [first, rest @ ..] = registers else {
        return write_bytes(text, b" []");
    };
    write_bytes(text, b" [r")?;
    write_number(alloc, text, u64::from(*first))?;
    write_more_registers(alloc, text, rest)?;
    write_bytes(text, b"]")
}

fn write_more_registers(
    alloc: Global,
    text: &mut Vec<u8>,
    registers: &[u32],
) -> Result<(), NoMemory>
    ensures { OnOk result (text.new.items ≡ text.old.items ++ spec.more_registers registers.now) }
{
    for register in registers {
        write_bytes(text, b", r")?;
        write_number(alloc, text, u64::from(*register))?;
    }
    Ok(())
}

fn write_path(alloc: Global, text: &mut Vec<u8>, path: &[Slot]) -> Result<(), NoMemory>
    ensures { OnOk result (text.new.items ≡ text.old.items ++ spec.path_text path.now) }
{
    let [first, rest @ ..] = path else {
        return write_bytes(text, b" []");
    };
    write_bytes(text, b" [")?;
    write_slot(alloc, text, *first)?;
    write_more_slots(alloc, text, rest)?;
    write_bytes(text, b"]")
}

fn write_more_slots(alloc: Global, text: &mut Vec<u8>, slots: &[Slot]) -> Result<(), NoMemory>
    ensures { OnOk result (text.new.items ≡ text.old.items ++ spec.more_slots slots.now) }
{
    for slot in slots {
        write_bytes(text, b", ")?;
        write_slot(alloc, text, *slot)?;
    }
    Ok(())
}

fn write_slot(alloc: Global, text: &mut Vec<u8>, slot: Slot) -> Result<(), NoMemory>
    ensures { OnOk result (text.new.items ≡ text.old.items ++ spec.slot_text slot) }
{
    match slot {
        Slot::Item(register) => {
            write_bytes(text, b"[r")?;
            write_number(alloc, text, u64::from(register))?;
            write_bytes(text, b"]")
        }
        Slot::Field(field) => {
            write_bytes(text, b".")?;
            write_number(alloc, text, u64::from(field))
        }
    }
}

fn write_scalar(alloc: Global, text: &mut Vec<u8>, scalar: Scalar) -> Result<(), NoMemory>
    ensures { OnOk result (text.new.items ≡ text.old.items ++ spec.scalar_text scalar) }
{
    match scalar {
        Scalar::Null => write_bytes(text, b" null"),
        Scalar::Bool(true) => write_bytes(text, b" true"),
        Scalar::Bool(false) => write_bytes(text, b" false"),
        Scalar::Int(number) => {
            write_bytes(text, b" ")?;
            write_signed(alloc, text, number)
        }
    }
}

fn write_kind(alloc: Global, text: &mut Vec<u8>, kind: Kind) -> Result<(), NoMemory>
    ensures { OnOk result (text.new.items ≡ text.old.items ++ spec.kind_text kind) }
{
    match kind {
        Kind::Null => write_bytes(text, b" null"),
        Kind::Bool => write_bytes(text, b" bool"),
        Kind::Int => write_bytes(text, b" int"),
        Kind::Array => write_bytes(text, b" array"),
        Kind::Shape(shape) => {
            write_bytes(text, b" shape")?;
            write_operand(alloc, text, shape)
        }
    }
}

fn arithmetic_sign(op: Arithmetic) -> &'static [u8]
    ensures { result.now ≡ spec.arithmetic_text op }
{
    match op {
        Arithmetic::Add => b" +",
        Arithmetic::Sub => b" -",
        Arithmetic::Mul => b" *",
        Arithmetic::Div => b" /",
        Arithmetic::Mod => b" %",
    }
}

fn comparison_sign(op: Comparison) -> &'static [u8]
    ensures { result.now ≡ spec.comparison_text op }
{
    match op {
        Comparison::Less => b" <",
        Comparison::LessEqual => b" <=",
        Comparison::Greater => b" >",
        Comparison::GreaterEqual => b" >=",
    }
}

fn write_number(alloc: Global, text: &mut Vec<u8>, number: u64) -> Result<(), NoMemory>
    ensures { OnOk result (text.new.items ≡ text.old.items ++ decimal number) }
{
    let digits = format!(in alloc; "{number}")?;
    write_bytes(text, digits.as_bytes())
}

fn write_signed(alloc: Global, text: &mut Vec<u8>, number: i128) -> Result<(), NoMemory>
    ensures { OnOk result (text.new.items ≡ text.old.items ++ signed_decimal number) }
{
    let digits = format!(in alloc; "{number}")?;
    write_bytes(text, digits.as_bytes())
}

fn write_bytes(text: &mut Vec<u8>, bytes: &[u8]) -> Result<(), NoMemory>
    ensures { OnOk result (text.new.items ≡ text.old.items ++ bytes.now) }
{
    text.extend_from_slice(bytes)?;
    Ok(())
}
