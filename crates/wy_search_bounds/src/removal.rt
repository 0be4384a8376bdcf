//! The forms that take variables away which aren't the first of their class.
ghost use Rattle.std.specs.Prelude.{◌≡◌, ◌++◌, [], ◌∷◌, IfOk, OnOk};
ghost use Rattle.wy_search_bounds.specs.Firsts.{AreFirsts};
ghost use Rattle.wy_search_bounds.specs.Seen.{seen_taking, seen_takings};
ghost use Rattle.wy_cong.specs.wy_search_spec.Bounds as bounds;

use crate::firsts::{first_of_class, first_places};
use crate::forms::order_form;
use std::alloc::Global;
use wy_lin::Form;
use wy_term::NoMemory;

/// A form that is added to another so many times.
#[derive(Drop)]
pub struct Taking {
    pub times: u128,
    pub form: Form,
}

// The form that takes a variable away, with this coefficient, and how often it does.
fn taking_away(alloc: Global, c: i128, v: u32, w: u32) -> Result<Taking, NoMemory>
    ensures { IfOk result (λ t. seen_taking t ≡ bounds.taking_away c v w) }
{
    let form = if c < 0 {
        order_form(alloc, w, v)?
    } else {
        order_form(alloc, v, w)?
    };
    Ok(Taking {
        times: c.unsigned_abs(),
        form,
    })
}

// What takes this variable away, if its coefficient isn't 0 and it isn't the first of its class.
fn push_taking(
    alloc: Global,
    labels: &[u32],
    firsts: &[u32],
    made: &mut Vec<Taking>,
    c: i128,
    v: u32,
) -> Result<(), NoMemory>
    requires { AreFirsts labels.now firsts.now }
    ensures { OnOk result (seen_takings made.new.items ≡ seen_takings made.old.items ++ bounds.takings labels.now ((c, v) ∷ [])) }
{
    if c == 0 {
        return Ok(());
    }
    let first = first_of_class(labels, firsts, v)?;
    if first == v {
        return Ok(());
    }
    made.push(taking_away(alloc, c, v, first)?)?;
    Ok(())
}

/// What takes those variables of these parts away that aren't the first of their class, where the first places of classes are
/// listed. It takes time linear in the parts.
pub fn takings_by(
    alloc: Global,
    labels: &[u32],
    firsts: &[u32],
    parts: &[(i128, u32)],
) -> Result<Vec<Taking>, NoMemory>
    requires { AreFirsts labels.now firsts.now }
    ensures { IfOk result (λ ts. seen_takings ts.items ≡ bounds.takings labels.now parts.now) }
{
    let mut made = Vec::new(alloc);
    for part in parts {
        push_taking(alloc, labels, firsts, &mut made, part.0, part.1)?;
    }
    Ok(made)
}

/// What takes those variables of these parts away that aren't the first of their class, in time linear in the places and in the
/// parts.
pub fn takings(
    alloc: Global,
    labels: &[u32],
    parts: &[(i128, u32)],
) -> Result<Vec<Taking>, NoMemory>
    ensures { IfOk result (λ ts. seen_takings ts.items ≡ bounds.takings labels.now parts.now) }
{
    let firsts = first_places(alloc, labels)?;
    takings_by(alloc, labels, &firsts, parts)
}
