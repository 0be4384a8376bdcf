//! The start of a run.
ghost use Rattle.std.specs.Prelude.{◌≡◌, ◌≤◌, ◌-◌, [], ◌++◌, Some, IfOk, OnOk, length, map, slice_get, vec_capacity};
ghost use Rattle.wy_value.specs.Seen.{seen, seen_items};
ghost use Rattle.wy_value.specs.Shapes.{IsShapes};
ghost use Rattle.wy_value.specs.Values.{AreValues};
ghost use Rattle.wy_heap.specs.Nodes.{map_of};
ghost use Rattle.wy_heap.specs.Meaning.{MeanAll};
ghost use Rattle.wy_heap.specs.Extending.{Extends};
ghost use Rattle.wy_heap.specs.Importing.{OnlyOnes};
ghost use Rattle.wy_heap.specs.Standing.{Stands};
ghost use Rattle.wy_code.specs.declared.routines.Routine.{Routine};
ghost use Rattle.wy_code_spec.specs.step.Step.{holding, empties};
ghost use Rattle.wy_mach.specs.Showing.{Shows};
ghost use Rattle.wy_mach.specs.States.{IsMachine, HasInts, PathsFit, RoutinesPathsFit, BodyPathsFit, InstrPathFits};
ghost use Rattle.wy_mach.specs.Running.{Starts};
ghost use Rattle.wy_mach.specs.SharedSteps.{IsFirst, ArePlaced};
ghost use Rattle.wy_mach.specs.SharedTurns.{state_of};

use crate::entering::entry_registers;
use crate::frames::Frame;
use crate::machine::Machine;
use crate::making::release_all;
use std::alloc::{AllocError, Global};
use wy_code::{Code, Instr, Routine};
use wy_data::Name;
use wy_heap::{Heap, NoMemory, Place, Slot};
use wy_items::Items;
use wy_value::{Shapes, Value};

impl Machine {
    /// A run of the routine `entry` of the code on these arguments, in which no node ever has more
    /// holders than `cap`. Each array and each record of an argument is a node of its own, with one holder.
    /// `has_result` says whether the text of its result is wanted. Room for the longest
    /// path of the code is reserved here, so that a `Put` in place takes no memory. It is linear in the
    /// code's table, the code, the arguments and the routine's registers.
    pub fn start(
        alloc: Global,
        code: &Code,
        entry: u32,
        args: &[Value],
        cap: u32,
        has_result: bool,
    ) -> Result<Machine, NoMemory>
        requires table { IsShapes code.now.shapes }
        requires ints { HasInts code.now }
        requires entry { (r : Routine) × (slice_get code.now.routines entry ≡ Some r) × (length args.now ≡ r.params) }
        requires args { AreValues (seen_items args.now) }
        requires cap { 1 ≤ cap }
        ensures is { IfOk result (IsMachine code.now) }
        ensures starts { IfOk result (Starts code.now entry (map seen args.now)) }
        ensures has_result { IfOk result (λ machine. machine.has_result ≡ has_result) }
        ensures first { IfOk result (λ machine. IsFirst code.now entry (map seen args.now) (state_of machine)) }
        ensures copies { IfOk result (λ machine. machine.heap.copies ≡ 0) }
        ensures cap { IfOk result (λ machine. machine.heap.cap ≡ cap) }
    {
        let Some(routine) = code.routines.get(entry as usize) else {
            unreachable!()
        };
        let path = path_room(alloc, code)?;
        let shapes = copied(alloc, &code.shapes)?;
        let mut heap = Heap::new(alloc, shapes, cap);
        let registers = first_registers(alloc, &mut heap, routine.registers, args)?;
        Ok(Machine {
            heap,
            frame: Frame {
                routine: entry,
                at: 0,
                registers,
            },
            callers: Vec::new(alloc),
            path,
            has_result,
            alloc,
        })
    }
}

// the registers of the first frame: the arguments, and null behind them
fn first_registers(
    alloc: Global,
    heap: &mut Heap,
    many: u32,
    args: &[Value],
) -> Result<Vec<Place>, NoMemory>
    requires stands { Stands heap.old [] }
    requires args { AreValues (seen_items args.now) }
    ensures stands { IfOk result (λ all. Stands heap.new all.items) }
    ensures shows { IfOk result (λ all. Shows (map_of heap.new) (holding (map seen args.now) ++ empties (many - length (map seen args.now))) all.items) }
    ensures placed { IfOk result (λ all. ArePlaced (map_of heap.new) (map seen args.now) many all.items) }
    ensures ones { OnOk result (OnlyOnes heap.old heap.new) }
    ensures extends { OnOk result (Extends heap.old.shapes heap.new.shapes) }
    ensures copies { OnOk result (heap.new.copies ≡ heap.old.copies) }
    ensures cap { OnOk result (heap.new.cap ≡ heap.old.cap) }
{
    let places = imported(alloc, heap, args)?;
    match entry_registers(many, places) {
        Ok(all) => Ok(all),
        Err(places) => {
            release_all(heap, places);
            Err(NoMemory)
        }
    }
}

// a place for each argument
fn imported(alloc: Global, heap: &mut Heap, args: &[Value]) -> Result<Vec<Place>, NoMemory>
    requires stands { Stands heap.old [] }
    requires args { AreValues (seen_items args.now) }
    ensures stands { IfOk result (λ places. Stands heap.new places.items) }
    ensures mean { IfOk result (λ places. MeanAll (map_of heap.new) (seen_items args.now) places.items) }
    ensures ones { OnOk result (OnlyOnes heap.old heap.new) }
    ensures extends { OnOk result (Extends heap.old.shapes heap.new.shapes) }
    ensures copies { OnOk result (heap.new.copies ≡ heap.old.copies) }
    ensures cap { OnOk result (heap.new.cap ≡ heap.old.cap) }
{
    let Ok(mut places) = Vec::with_capacity(alloc, args.len()) else {
        return Err(NoMemory);
    };
    for i in 0..args.len() {
        match heap.import(&args[i]) {
            Ok(place) => places.push_reserved(place),
            Err(_) => {
                release_all(heap, places);
                return Err(NoMemory);
            }
        }
    }
    Ok(places)
}

// room for the longest path of the code
fn path_room(alloc: Global, code: &Code) -> Result<Vec<Slot>, NoMemory>
    ensures { IfOk result (λ path. PathsFit code.now (vec_capacity path)) }
{
    let most = longest_of(code.routines.as_slice());
    match Vec::with_capacity(alloc, most) {
        Ok(path) => Ok(path),
        Err(_) => Err(NoMemory),
    }
}

// how many steps the longest path of these routines has
fn longest_of(routines: &[Routine]) -> usize
    ensures { RoutinesPathsFit routines.now result }
{
    let mut most = 0usize;
    for f in 0..routines.len() {
        most = longer_in(most, &routines[f]);
    }
    most
}

// the longest path of a routine, where that is longer
fn longer_in(most: usize, routine: &Routine) -> usize
    ensures more { most ≤ result }
    ensures fits { BodyPathsFit routine.now.body result }
{
    let longest = longest_path(routine.body.as_slice());
    if longest > most { longest } else { most }
}

// how many steps the longest path of these has
fn longest_path(body: &[Instr]) -> usize
    ensures { BodyPathsFit body.now result }
{
    let mut most = 0usize;
    for i in 0..body.len() {
        most = longer(most, &body[i]);
    }
    most
}

// the path of an instruction, where that is longer
fn longer(most: usize, instr: &Instr) -> usize
    ensures more { most ≤ result }
    ensures fits { InstrPathFits instr.now result }
{
    match instr {
        Instr::Put(_, steps, _) => longest_one(most, steps.len()),
        _ => most,
    }
}

fn longest_one(most: usize, other: usize) -> usize
    ensures more { most ≤ result }
    ensures other { other ≤ result }
{
    if other > most { other } else { most }
}

// the same table once more
fn copied(alloc: Global, shapes: &Shapes) -> Result<Shapes, NoMemory>
    ensures { IfOk result (λ table. table ≡ shapes.now) }
{
    let Ok(names) = copied_names(alloc, shapes.names.as_slice()) else {
        return Err(NoMemory);
    };
    let Ok(lists) = copied_lists(alloc, shapes.lists.as_slice()) else {
        return Err(NoMemory);
    };
    Ok(Shapes { names, lists })
}

fn copied_names(alloc: Global, names: &[Name]) -> Result<Items<Name>, AllocError>
    ensures { IfOk result (λ made. made ≡ names.now) }
{
    let mut made = Items::new(alloc);
    for i in 0..names.len() {
        made.push(names[i].copy(alloc)?)?;
    }
    Ok(made)
}

fn copied_lists(alloc: Global, lists: &[Items<u32>]) -> Result<Items<Items<u32>>, AllocError>
    ensures { IfOk result (λ made. made ≡ lists.now) }
{
    let mut made = Items::new(alloc);
    for i in 0..lists.len() {
        made.push(Items::from_slice(alloc, lists[i].as_slice())?)?;
    }
    Ok(made)
}
