//! The types of a question in a table.
ghost use Rattle.std.specs.Prelude.{◌≡◌, ℕ, Bool, List, map, IfOk, OnOk};
ghost use Rattle.wy_core.specs.CoreSeen.{seen_ty};
ghost use Rattle.wy_types.specs.declared.conjuncts.Conjunct.{Conjunct};
ghost use Rattle.wy_types.specs.Membership as terms;
ghost use Rattle.wy_types.specs.Membership.{member};
ghost use Rattle.wy_types.specs.Names.{shape_of, is_in_ty, is_in_normal, seen_declared, types_of};
ghost use Rattle.wy_types.specs.Numbering as numbering;
ghost use Rattle.wy_types.specs.Questions.{numbered, IsOver};
ghost use Rattle.wy_types.specs.Ranked.{IsRanked};
ghost use Rattle.wy_types.specs.Reading.{ty_at, conjuncts_at};
ghost use Rattle.wy_types.specs.Recursion.{RecurThroughParts};
ghost use Rattle.wy_types.specs.Shape.{any_in};
ghost use Rattle.wy_core.specs.wy_value.Datum.{Datum};

use crate::names::{Declared, Names};
use crate::numbering::Numbering;
use crate::table::{Definition, Table};
use crate::tree_numbers::put_ty;
use std::alloc::{AllocError, Global};
use wy_core::Ty;
use wy_items::Items;

/// Two types by their numbers in a table that has the declared types too, and a number above the
/// depth to which bare names in them go. The table serves for one question after another.
#[derive(Drop)]
pub struct Question {
    pub table: Table,
    /// How many of the terms are those of the declared types; they come first.
    pub base: u32,
    pub depth: u32,
    pub first: u32,
    pub second: u32,
}

// The numbers of the declared types.
fn put_declared(
    alloc: Global,
    nodes: &mut Numbering,
    declared: &[Declared],
) -> Result<Items<Definition>, AllocError>
    ensures nodes { OnOk result (nodes.new ≡ (numbering.put_declared nodes.old (map seen_declared declared.now)).0) }
    ensures made { IfOk result (λ made. made ≡ (numbering.put_declared nodes.old (map seen_declared declared.now)).1) }
{
    let mut made = Items::new(alloc);
    for one in declared {
        let term = put_ty(alloc, nodes, &one.ty)?;
        made.push(Definition {
            term,
            constrained: one.constrained,
        })?;
    }
    Ok(made)
}

impl Names {
    /// The declared types in a table, in time linear in their size, for questions by `ask`: until one
    /// is put, both of its types are the term with the number 0. Want of memory is also the answer
    /// where the terms are more than 2^32 - 2.
    pub fn question(&self, alloc: Global) -> Result<Question, AllocError>
        ensures over { IfOk result (λ q. IsOver (types_of self.now) q) }
    {
        let mut nodes = Numbering::new(alloc);
        let definitions = put_declared(alloc, &mut nodes, self.declared.as_slice())?;
        let base = nodes.len() as u32;
        Ok(Question {
            table: Table { nodes, definitions },
            base,
            depth: base + 1,
            first: 0,
            second: 0,
        })
    }

    /// The question whether the first type is within the second, in time linear in the size of the
    /// declared types and of both. Want of memory is also the answer where the terms of these are
    /// more than 2^32 - 2.
    pub fn number(&self, alloc: Global, first: &Ty, second: &Ty) -> Result<Question, AllocError>
        requires recursion { RecurThroughParts (types_of self.now) }
        ensures value { IfOk result (λ q. q ≡ numbered (types_of self.now) (seen_ty first.now) (seen_ty second.now)) }
        ensures ranked { IfOk result (λ q. (rank : ℕ → ℕ) × IsRanked q.table rank q.depth) }
        ensures first { IfOk result (λ q. (d : Datum) (up : Bool) → member q.table q.depth d up q.first ≡ is_in_ty (types_of self.now) (shape_of (types_of self.now) d) up (seen_ty first.now)) }
        ensures second { IfOk result (λ q. (d : Datum) (up : Bool) → member q.table q.depth d up q.second ≡ is_in_ty (types_of self.now) (shape_of (types_of self.now) d) up (seen_ty second.now)) }
        ensures conjuncts { IfOk result (λ q. (d : Datum) (cs : List (Conjunct ℕ)) → any_in (terms.shape_of q.table q.depth d) cs ≡ is_in_normal (shape_of (types_of self.now) d) (conjuncts_at (ty_at q.table q.depth) cs)) }
    {
        let mut question = self.question(alloc)?;
        question.ask(alloc, self, first, second)?;
        Ok(question)
    }
}

impl Question {
    /// Makes it the question whether the first type is within the second, in time linear in the size
    /// of both and of the two before. Want of memory is also the answer where the terms are more than
    /// 2^32 - 2; the question is then no longer one.
    pub fn ask(
        &mut self,
        alloc: Global,
        _names: &Names,
        first: &Ty,
        second: &Ty,
    ) -> Result<(), AllocError>
        requires recursion { RecurThroughParts (types_of _names.now) }
        requires over { IsOver (types_of _names.now) self.old }
        ensures value { OnOk result (self.new ≡ numbered (types_of _names.now) (seen_ty first.now) (seen_ty second.now)) }
        ensures over { OnOk result (IsOver (types_of _names.now) self.new) }
        ensures ranked { OnOk result ((rank : ℕ → ℕ) × IsRanked self.new.table rank self.new.depth) }
        ensures first { OnOk result ((d : Datum) (up : Bool) → member self.new.table self.new.depth d up self.new.first ≡ is_in_ty (types_of _names.now) (shape_of (types_of _names.now) d) up (seen_ty first.now)) }
        ensures second { OnOk result ((d : Datum) (up : Bool) → member self.new.table self.new.depth d up self.new.second ≡ is_in_ty (types_of _names.now) (shape_of (types_of _names.now) d) up (seen_ty second.now)) }
        ensures conjuncts { OnOk result ((d : Datum) (cs : List (Conjunct ℕ)) → any_in (terms.shape_of self.new.table self.new.depth d) cs ≡ is_in_normal (shape_of (types_of _names.now) d) (conjuncts_at (ty_at self.new.table self.new.depth) cs)) }
    {
        self.table.nodes.truncate(self.base as usize);
        self.first = put_ty(alloc, &mut self.table.nodes, first)?;
        self.second = put_ty(alloc, &mut self.table.nodes, second)?;
        self.depth = self.table.nodes.len() as u32 + 1;
        Ok(())
    }
}
