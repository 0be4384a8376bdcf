//! A program as its conditions see it.
ghost use Rattle.std.specs.Prelude.{◌≡◌, [], slice_get, slice_index_or, false};
ghost use Rattle.std.specs.Option.{option_copied};
ghost use Rattle.wy_core.specs.CoreSeen.{seen_core, seen_ty};
ghost use Rattle.wy_core.specs.CoreTree as tree;
ghost use Rattle.wy_core.specs.CoreTree.{routines_of};
ghost use Rattle.wy_core.specs.declared.declarations.Core as whole;
ghost use Rattle.wy_vc_spec.specs.wy_sem.TypeTests as sem;
ghost use Rattle.wy_vc_spec.specs.wy_sem.Evaluation as sem_call;
ghost use Rattle.wy_vc_spec.specs.wy_sem.Evaluation.{callee};
ghost use Rattle.wy_vc_spec.specs.Numbered.{Node, numbered_core};
ghost use Rattle.wy_vc_tables.specs.program_names.Described.{IsDescribed, IsFound, IsRoutine, alias_in, alias_of, first_of, routine_in, routine_of, types_of, written_at};

use crate::program_names::declared::Declared;
use crate::sizes::mentions_marked;
use wy_core::{Alias, Core, Decl, Routine, Ty};

/// A function or method: the number of its declaration, and of the first expression of its requires clauses, its ensures clauses and its
/// body, in the walk of flow typing.
#[derive(Clone, Copy)]
pub struct Called {
    pub decl: usize,
    pub preconditions: usize,
    pub postconditions: usize,
    pub body: usize,
}

/// What the conditions of a program ask of its declarations.
#[derive(Drop)]
pub struct Program {
    /// The named types, by their numbers.
    pub types: Vec<Declared>,
    /// The functions and methods, by their numbers.
    pub routines: Vec<Called>,
    /// Whether a type with a clause is reached from each named type, through names too.
    pub constrained: Vec<bool>,
    /// Whether each expression is a number, by its number in the walk of flow typing.
    pub is_number: Vec<bool>,
}

/// What a call calls.
#[derive(Clone, Copy)]
pub enum Callee<'a> {
    Declared(&'a Routine, Called),
    Print,
    PrintInt,
    Unknown,
}

// The function or method of a declaration.
fn routine_at(core: &Core, decl: usize) -> Option<&Routine>
    ensures value { option_copied result ≡ routine_in (slice_get core.now.decls decl) }
{
    match core.decls.get(decl) {
        Some(Decl::Routine(routine)) => Some(routine),
        _ => None,
    }
}

// The named type of a declaration.
fn alias_at(core: &Core, decl: usize) -> Option<&Alias>
    ensures value { option_copied result ≡ alias_in (slice_get core.now.decls decl) }
{
    match core.decls.get(decl) {
        Some(Decl::Alias(alias)) => Some(alias),
        _ => None,
    }
}

// What a call of a function or method calls.
fn declared_callee(core: &Core, called: Called) -> Callee<'_>
    ensures value { (r : tree.Routine Node) → IsRoutine r (routine_of core.now called) called → IsFound (sem_call.Declared r) result }
{
    match routine_at(core, called.decl) {
        Some(routine) => Callee::Declared(routine, called),
        None => Callee::Unknown,
    }
}

// What has a number this far behind the functions and methods.
fn built_in<'a>(behind: usize) -> Callee<'a>
    ensures value { IsFound (callee [] behind) result }
{
    if behind == 0 {
        return Callee::Print;
    }
    if behind == 1 {
        return Callee::PrintInt;
    }
    Callee::Unknown
}

impl Program {
    /// Whether the expression with this number is a number. Constant time.
    pub fn is_number_at(&self, node: usize) -> bool
        ensures value { result ≡ slice_index_or self.now.is_number.items node false }
    {
        match self.is_number.get(node) {
            None => false,
            Some(is) => *is,
        }
    }

    /// Whether a formula has the definition and the clauses of the name with this number, where it speaks of it. Constant time.
    pub fn is_written(&self, number: u32) -> bool
        ensures value { result ≡ written_at self.now.types.items number }
    {
        match self.types.get(number as usize) {
            None => true,
            Some(declared) => declared.is_written,
        }
    }

    /// The number of the first expression of the clauses of the named type with this number. Constant time.
    pub fn first(&self, number: u32) -> usize
        ensures value { result ≡ first_of (slice_get self.now.types.items number) }
    {
        match self.types.get(number as usize) {
            None => 0,
            Some(declared) => declared.first,
        }
    }

    /// The named type with this number. Constant time.
    pub fn alias<'a>(&self, core: &'a Core, number: u32) -> Option<&'a Alias>
        ensures value { option_copied result ≡ alias_of core.now (slice_get self.now.types.items number) }
    {
        match self.types.get(number as usize) {
            None => None,
            Some(declared) => alias_at(core, declared.decl),
        }
    }

    /// The function or method with this number. Constant time.
    pub fn callee<'a>(&self, core: &'a Core, number: u32) -> Callee<'a>
        ensures value { IsDescribed core.now self.now → IsFound (callee (routines_of (numbered_core (seen_core core.now))) number) result }
    {
        let index = number as usize;
        let routines = self.routines.as_slice();
        let count = routines.len();
        match routines.get(index) {
            Some(called) => declared_callee(core, *called),
            None => built_in(index - count),
        }
    }

    /// Whether a type with a clause is reached from a type, through names too. Linear in the type.
    pub fn is_constrained(&self, ty: &Ty) -> bool
        ensures value { (core : whole.Core) → IsDescribed core self.now → result ≡ sem.is_constrained (types_of core) (seen_ty ty.now) }
    {
        mentions_marked(self.constrained.as_slice(), ty)
    }
}
