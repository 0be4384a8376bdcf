//! What the items of a list and the fields of a record evaluate to, in order.
ghost use Rattle.std.specs.Prelude.{◌≡◌, ◌+◌, ◌<◌, ◌≤◌, length as count_of, map, IfOk, OnOk};
ghost use Rattle.wy_core.specs.CoreSeen.{seen_exprs, seen_fields};
ghost use Rattle.wy_core.specs.CoreTree.{exprs_of};
ghost use Rattle.wy_vc_tables.specs.wy_vc_spec.Numbered.{numbered_all, numbered_fields};
ghost use Rattle.wy_vc_tables.specs.wy_vc_spec.Sizes.{exprs_in_all, exprs_in_fields};
ghost use Rattle.wy_vc_tables.specs.wy_vc_spec.Values as spec;
ghost use Rattle.wy_vc_tables.specs.wy_vc_spec.Variables.{Vars};
ghost use Rattle.wy_vc_tables.specs.program_names.Described.{IsDescribed, setting};
ghost use Rattle.wy_vc_operations.specs.Growing.{AreBelow, AreSlotsAt};
ghost use Rattle.wy_vc_terms.specs.Made.{AreMade};

use crate::values::value_to;
use crate::walked::{ValuedAll, ValuedFields};
use std::alloc::Global;
use wy_core::{Core, Expr};
use wy_data::Name;
use wy_term::{NoMemory, Terms};
use wy_vc_tables::program_names::Program;
use wy_vc_tables::sizes::exprs_in_all;

// The terms of expressions, in order.
#[cycle(values)]
pub fn values_to(
    alloc: Global,
    core: &Core,
    program: &Program,
    words: &[Name],
    depth: usize,
    left: u64,
    terms: &mut Terms,
    vars: &mut Vec<Option<u32>>,
    items: &[Expr],
    count: u64,
    node: usize,
) -> Result<ValuedAll, NoMemory>
    ensures within { IfOk result (λ m. AreBelow (count_of terms.new) m.terms.items) }
    ensures grows { OnOk result (count_of terms.old ≤ count_of terms.new) }
    ensures node { IfOk result (λ m. m.next ≡ node + exprs_in_all (exprs_of (seen_exprs items.now))) }
    ensures vars { OnOk result (vars.new.items ≡ vars.old.items) }
    ensures made { IsDescribed core.now program.now → (slots : Vars) → AreSlotsAt terms.old vars.old.items slots → IfOk result (λ m. AreMade terms.old terms.new m.terms.items m.count (spec.values (setting core.now program.now) (spec.named_to (setting core.now program.now) depth) words.now (numbered_all (exprs_of (seen_exprs items.now)) node) slots count)) }
{
    if left == 0 {
        return Err(NoMemory);
    }
    let mut made = Vec::new(alloc);
    let mut names = count;
    let mut next = node;
    for item in items {
        let v = value_to(
            alloc,
            core,
            program,
            words,
            depth,
            left - 1,
            terms,
            vars,
            item,
            names,
            next,
        )?;
        made.push(v.term)?;
        names = v.count;
        next = v.next;
    }
    Ok(ValuedAll {
        terms: made,
        count: names,
        next,
    })
}

// The terms of the fields of a record, in order, with their names.
#[cycle(values)]
pub fn field_values_to(
    alloc: Global,
    core: &Core,
    program: &Program,
    words: &[Name],
    depth: usize,
    left: u64,
    terms: &mut Terms,
    vars: &mut Vec<Option<u32>>,
    items: &[(Name, Expr)],
    count: u64,
    node: usize,
) -> Result<ValuedFields, NoMemory>
    ensures within { IfOk result (λ m. AreBelow (count_of terms.new) (map (λ f. f.1) m.fields.items)) }
    ensures names { IfOk result (λ m. map (λ f. f.0) m.fields.items ≡ spec.field_names (seen_fields items.now)) }
    ensures grows { OnOk result (count_of terms.old ≤ count_of terms.new) }
    ensures node { IfOk result (λ m. m.next ≡ node + exprs_in_fields (seen_fields items.now)) }
    ensures vars { OnOk result (vars.new.items ≡ vars.old.items) }
    ensures made { IsDescribed core.now program.now → (slots : Vars) → AreSlotsAt terms.old vars.old.items slots → IfOk result (λ m. AreMade terms.old terms.new (map (λ f. f.1) m.fields.items) m.count (spec.field_values (setting core.now program.now) (spec.named_to (setting core.now program.now) depth) words.now (numbered_fields (seen_fields items.now) node) slots count)) }
{
    if left == 0 {
        return Err(NoMemory);
    }
    let mut made = Vec::new(alloc);
    let mut names = count;
    let mut next = node;
    for item in items {
        let v = value_to(
            alloc,
            core,
            program,
            words,
            depth,
            left - 1,
            terms,
            vars,
            &item.1,
            names,
            next,
        )?;
        let name = item.0.copy(alloc)?;
        made.push((name, v.term))?;
        names = v.count;
        next = v.next;
    }
    Ok(ValuedFields {
        fields: made,
        count: names,
        next,
    })
}
