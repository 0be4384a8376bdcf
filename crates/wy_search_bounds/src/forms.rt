//! Forms whose variables are given by places.
ghost use Rattle.std.specs.Prelude.{◌≡◌, ◌<◌, length, IfOk};
ghost use Rattle.wy_cong.specs.Seen.{terms_of, IsPresent};
ghost use Rattle.wy_lin.specs.Seen.{IsOver, linear_form, seen_form};
ghost use Rattle.wy_cong.specs.wy_search_spec.Bounds as bounds;
ghost use Rattle.wy_cong.specs.wy_search_spec.Classes.{place_from};
ghost use Rattle.wy_term.specs.Nodes.{tree_at};

use smallvec::SmallVec;
use std::alloc::Global;
use wy_cong::{Present, place};
use wy_lin::Form;
use wy_term::{NoMemory, Terms};

// The place of a variable, 0 where it has none.
fn place_of(terms: &Terms, present: &Present, v: u32) -> u32
    requires variable { v < length terms.now }
    requires present { IsPresent terms.now present.now }
    ensures { result ≡ bounds.number_or_end (place_from (terms_of (tree_at terms.now) present.now) (tree_at terms.now v) 0) }
{
    match place(terms, present, v) {
        Some(k) => k,
        None => 0,
    }
}

/// A form, its variables by their places among the terms present.
pub fn numbered(terms: &Terms, present: &Present, form: &Form) -> Result<Form, NoMemory>
    requires form { IsOver (length terms.now) (linear_form form.now) }
    requires present { IsPresent terms.now present.now }
    ensures { IfOk result (λ made. linear_form made ≡ bounds.numbered (terms_of (tree_at terms.now) present.now) (seen_form (tree_at terms.now) form.now)) }
{
    let mut parts = SmallVec::new(terms.allocator());
    for part in form.parts.as_slice() {
        parts.push((part.0, place_of(terms, present, part.1)))?;
    }
    Ok(Form {
        parts,
        constant: form.constant,
    })
}

/// A copy of a form.
pub fn copied(alloc: Global, form: &Form) -> Result<Form, NoMemory>
    ensures { IfOk result (λ made. linear_form made ≡ linear_form form.now) }
{
    let parts = SmallVec::from_slice(alloc, form.parts.as_slice())?;
    Ok(Form {
        parts,
        constant: form.constant,
    })
}

/// `v <= w` as a form.
pub fn order_form(alloc: Global, v: u32, w: u32) -> Result<Form, NoMemory>
    ensures { IfOk result (λ made. linear_form made ≡ bounds.order_form v w) }
{
    let mut parts = SmallVec::new(alloc);
    parts.push((-1, v))?;
    parts.push((1, w))?;
    Ok(Form { parts, constant: 0 })
}
