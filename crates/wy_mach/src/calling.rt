//! The instructions that call and return.
ghost use Rattle.std.specs.Prelude.{◌≡◌, ◌≤◌, ◌<◌, ◌+◌, ◌-◌, ◌∷◌, [], ◌++◌, ℕ, List, Option, reverse, IfOk, OnOk, OnErr, length, vec_len, vec_capacity};
ghost use Rattle.wy_value.specs.Datum.{Datum};
ghost use Rattle.wy_heap.specs.declared.part.Part.{Part};
ghost use Rattle.wy_heap.specs.Nodes.{map_of};
ghost use Rattle.wy_heap.specs.Meaning.{Means};
ghost use Rattle.wy_heap.specs.Standing.{Stands, AreHeld};
ghost use Rattle.wy_code.specs.declared.instructions.Instr.{Instr};
ghost use Rattle.wy_mach.specs.Taking.{nulls};
ghost use Rattle.wy_mach.specs.Sharing.{Spares};
ghost use Rattle.wy_mach.specs.States.{places_of, places_below, callers_of};
ghost use Rattle.wy_mach.specs.SharedTurns.{SharesCall, SharesReturn, LeavesNodes, ReturnsLast, EndsSo, IsNoEnd};
ghost use Rattle.wy_mach.specs.Pacing.{turn_of};
ghost use Rattle.wy_mach.specs.Running.{TurnsBy, Turned, KeepsRest, HasTextOf, Enters, Resumes, IsEnd, next_by};

use crate::entering::entry_registers;
use crate::frames::{Caller, Frame, leave};
use crate::machine::{Machine, Pace, Turn};
use crate::making::{release_all, take_all};
use crate::registers::{put, take};
use crate::stop::Stop;
use std::mem;
use wy_code::Code;
use wy_heap::{NoMemory, Place};

impl Machine {
    // `Call`
    #[inline(never)]
    pub(crate) fn call(&mut self, code: &Code, to: u32, number: u32, numbers: &[u32]) -> Pace
        requires stands { Stands self.old.heap (places_of self.old) }
        requires below { self.old.frame.at < 18446744073709551615 }
        ensures stands { Stands self.new.heap (places_of self.new) }
        ensures kept { KeepsRest self.old self.new }
        ensures turned { IfOk (turn_of result) (λ turn. (before : Option (List ℕ)) (failed : ℕ) → Turned (next_by code.now (Instr.Call to number numbers.now)) self.old self.new before before failed failed turn) }
        ensures shares { IfOk (turn_of result) (λ turn. turn ≡ Turn.Went → SharesCall code.now self.old self.new to number numbers.now) }
        ensures no_end { IfOk (turn_of result) IsNoEnd }
    {
        let Some(routine) = code.routines.get(number as usize) else {
            return Pace::Stuck;
        };
        if numbers.len() != routine.params as usize {
            return Pace::Stuck;
        }
        if self.callers.reserve(1).is_err() {
            return Pace::NoMemory;
        }
        let alloc = self.alloc;
        match take_all(alloc, self.frame.registers.as_mut_slice(), numbers) {
            Ok(arguments) => self.enter(number, to, routine.registers, arguments),
            Err(Stop::Stuck) => Pace::Stuck,
            Err(Stop::NoMemory) => Pace::NoMemory,
        }
    }

    // goes into a routine with these arguments, which were taken from the registers
    fn enter(&mut self, number: u32, to: u32, registers: u32, arguments: Vec<Place>) -> Pace
        requires stands { Stands self.old.heap (arguments.items ++ places_of self.old) }
        requires below { self.old.frame.at < 18446744073709551615 }
        requires room { vec_len self.old.callers < vec_capacity self.old.callers }
        ensures stands { Stands self.new.heap (places_of self.new) }
        ensures kept { KeepsRest self.old self.new }
        ensures entered { OnOk (turn_of result) (Enters self.old self.new number to registers arguments.items) }
        ensures registers { OnOk (turn_of result) (self.new.frame.registers.items ≡ arguments.items ++ nulls (registers - length arguments.items)) }
        ensures went { IfOk (turn_of result) (λ turn. turn ≡ Turn.Went) }
    {
        match entry_registers(registers, arguments) {
            Ok(all) => {
                self.push_frame(number, to, all);
                Pace::Went
            }
            Err(arguments) => {
                release_all(&mut self.heap, arguments);
                Pace::NoMemory
            }
        }
    }

    // a frame with these registers runs now, and the one that ran waits for it
    fn push_frame(&mut self, number: u32, to: u32, registers: Vec<Place>)
        requires below { self.old.frame.at < 18446744073709551615 }
        requires room { vec_len self.old.callers < vec_capacity self.old.callers }
        ensures frame { self.new.frame ≡ record { routine = number; at = 0; registers = registers } }
        ensures callers { self.new.callers.items ≡ self.old.callers.items ++ record { frame = record self.old.frame { at = self.old.frame.at + 1 }; target = to } ∷ [] }
        ensures heap { self.new.heap ≡ self.old.heap }
        ensures has_result { self.new.has_result ≡ self.old.has_result }
        ensures path { self.new.path ≡ self.old.path }
    {
        let entered = Frame {
            routine: number,
            at: 0,
            registers,
        };
        let mut frame = mem::replace(&mut self.frame, entered);
        frame.at += 1;
        self.callers.push_reserved(Caller { frame, target: to });
    }

    // `Return`
    pub(crate) fn give_back(&mut self, from: u32) -> Result<Turn, NoMemory>
        requires stands { Stands self.old.heap (places_of self.old) }
        ensures stands { Stands self.new.heap (places_of self.new) }
        ensures kept { KeepsRest self.old self.new }
        ensures turned { IfOk result (TurnsBy (Instr.Return from) self.old self.new) }
        ensures shares { IfOk result (λ turn. turn ≡ Turn.Went → SharesReturn self.old self.new from) }
        ensures ends { IfOk result (EndsSo (ReturnsLast self.old from)) }
        ensures wants { OnErr result (self.old.callers.items ≡ []) }
    {
        if from as usize >= self.frame.registers.len() {
            return Ok(Turn::Stuck);
        }
        let given = take(self.frame.registers.as_mut_slice(), from);
        match self.callers.pop() {
            Some(caller) => {
                self.resume(caller, given);
                Ok(Turn::Went)
            }
            None => self.end(given),
        }
    }

    // the last caller runs again, and the result comes into its register
    fn resume(&mut self, caller: Caller, given: Place)
        requires stands { Stands self.old.heap (given ∷ (self.old.frame.registers.items ++ (caller.frame.registers.items ++ places_below (callers_of self.old)))) }
        ensures resumed { Resumes self.old self.new caller given }
        ensures spares { Spares self.old.heap self.new.heap }
        ensures kept { KeepsRest self.old self.new }
    {
        let Caller { frame, target } = caller;
        let ended = mem::replace(&mut self.frame, frame);
        leave(&mut self.heap, ended);
        put(
            &mut self.heap,
            self.frame.registers.as_mut_slice(),
            target,
            given,
        );
    }

    // the run ends with this result
    fn end(&mut self, given: Place) -> Result<Turn, NoMemory>
        requires stands { Stands self.old.heap (given ∷ places_of self.old) }
        requires last { self.old.callers.items ≡ [] }
        ensures stands { Stands self.new.heap (places_of self.new) }
        ensures kept { KeepsRest self.old self.new }
        ensures done { IfOk result (IsEnd self.old given) }
        ensures leaves { IfOk result (EndsSo (LeavesNodes self.old.heap given)) }
    {
        let alloc = self.alloc;
        let registers = mem::replace(&mut self.frame.registers, Vec::new(alloc));
        release_all(&mut self.heap, registers);
        let copies = self.heap.copies();
        let nodes = self.heap.live();
        let text = self.text_of(&given);
        self.heap.release(given);
        Ok(Turn::Done {
            text: text?,
            copies,
            nodes,
        })
    }

    // the text of a result, where one is wanted
    fn text_of(&self, given: &Place) -> Result<Option<Vec<u8>>, NoMemory>
        requires held { AreHeld self.now.heap (given.now ∷ []) }
        ensures text { IfOk result (λ text. (d : Datum) → Means (map_of self.now.heap) d given.now → HasTextOf self.now.has_result text d) }
    {
        if self.has_result {
            Ok(Some(self.heap.text(given)?))
        } else {
            Ok(None)
        }
    }
}
