//! Types as a user writes them.
use wy_core::{Atom, Conjunct, Core, Decl, Name, Part, Signed, Ty, TyKind};
use wy_explain_source::{NoMemory, Page};

/// Writes a type. A normal one, which no source spells, is brought back to a union; the names that stand in it are kept. A tight one
/// stands in brackets where `|` or `&` would part it.
#[cycle(put_ty)]
pub fn put_ty(ty: &Ty, core: &Core, page: &mut Page, is_tight: bool) -> Result<(), NoMemory> {
    match &ty.kind {
        TyKind::Null => page.text("null"),
        TyKind::Bool => page.text("bool"),
        TyKind::Int => page.text("int"),
        TyKind::Any => page.text("any"),
        TyKind::Void => page.text("void"),
        TyKind::Record(fields) => put_fields(fields.as_slice(), core, page),
        TyKind::Array(item) => {
            put_ty(item.get(), core, page, true)?;
            page.text("[]")
        }
        TyKind::Union(left, right) => {
            put_open(page, is_tight)?;
            put_ty(left.get(), core, page, false)?;
            page.text(" | ")?;
            put_ty(right.get(), core, page, false)?;
            put_close(page, is_tight)
        }
        TyKind::Inter(left, right) => {
            put_open(page, is_tight)?;
            put_ty(left.get(), core, page, true)?;
            page.text(" & ")?;
            put_ty(right.get(), core, page, true)?;
            put_close(page, is_tight)
        }
        TyKind::Not(operand) => {
            page.text("!")?;
            put_ty(operand.get(), core, page, true)
        }
        TyKind::Named(number) => match alias_name(core, *number) {
            Some(name) => page.text(name.as_str()),
            None => page.text("?"),
        },
        TyKind::Normal(conjuncts) => put_normal(conjuncts.as_slice(), core, page, is_tight),
    }
}

/// The name of the declared type with this number.
pub fn alias_name(core: &Core, number: u32) -> Option<&Name> {
    let mut passed = 0u32;
    for decl in core.decls.as_slice() {
        match decl {
            Decl::Alias(alias) => {
                if passed == number {
                    return Some(&alias.name);
                }
                passed = passed.saturating_add(1);
            }
            Decl::Routine(_) => {}
        }
    }
    None
}

fn put_open(page: &mut Page, is_tight: bool) -> Result<(), NoMemory> {
    page.text(if is_tight { "(" } else { "" })
}

fn put_close(page: &mut Page, is_tight: bool) -> Result<(), NoMemory> {
    page.text(if is_tight { ")" } else { "" })
}

#[cycle(put_ty)]
fn put_fields(fields: &[(Name, Ty)], core: &Core, page: &mut Page) -> Result<(), NoMemory> {
    let mut is_first = true;
    for field in fields {
        page.text(if is_first { "{" } else { ", " })?;
        put_ty(&field.1, core, page, false)?;
        page.text(" ")?;
        page.text(field.0.as_str())?;
        is_first = false;
    }
    page.text(if fields.is_empty() { "{}" } else { "}" })
}

// Whether these are all kinds of values, whole.
fn is_any(conjuncts: &[Conjunct]) -> bool {
    let mut whole = 0usize;
    for conjunct in conjuncts {
        let is_whole = match &conjunct.positive {
            Atom::Null | Atom::Bool | Atom::Int | Atom::AnyRecord => true,
            Atom::Array(part) => part.terms.is_empty(),
            Atom::Record(_) => false,
        };
        if is_whole && conjunct.negatives.is_empty() {
            whole = whole.saturating_add(1);
        }
    }
    whole == 5 && conjuncts.len() == 5
}

// The union of its conjuncts.
#[cycle(put_ty)]
fn put_normal(
    conjuncts: &[Conjunct],
    core: &Core,
    page: &mut Page,
    is_tight: bool,
) -> Result<(), NoMemory> {
    if conjuncts.is_empty() {
        return page.text("void");
    }
    if is_any(conjuncts) {
        return page.text("any");
    }
    let is_many = conjuncts.len() > 1;
    put_open(page, is_tight && is_many)?;
    let mut is_first = true;
    for conjunct in conjuncts {
        page.text(if is_first { "" } else { " | " })?;
        put_conjunct(conjunct, core, page)?;
        is_first = false;
    }
    put_close(page, is_tight && is_many)
}

#[cycle(put_ty)]
fn put_conjunct(conjunct: &Conjunct, core: &Core, page: &mut Page) -> Result<(), NoMemory> {
    put_atom(&conjunct.positive, core, page)?;
    for negative in conjunct.negatives.as_slice() {
        page.text(" & !")?;
        put_atom(negative, core, page)?;
    }
    Ok(())
}

#[cycle(put_ty)]
fn put_atom(atom: &Atom, core: &Core, page: &mut Page) -> Result<(), NoMemory> {
    match atom {
        Atom::Null => page.text("null"),
        Atom::Bool => page.text("bool"),
        Atom::Int => page.text("int"),
        Atom::Array(part) => {
            put_part(part, core, page, true)?;
            page.text("[]")
        }
        Atom::Record(fields) => put_parts(fields.as_slice(), core, page),
        Atom::AnyRecord => page.text("{..}"),
    }
}

#[cycle(put_ty)]
fn put_parts(fields: &[(Name, Part)], core: &Core, page: &mut Page) -> Result<(), NoMemory> {
    let mut is_first = true;
    for field in fields {
        page.text(if is_first { "{" } else { ", " })?;
        put_part(&field.1, core, page, false)?;
        page.text(" ")?;
        page.text(field.0.as_str())?;
        is_first = false;
    }
    page.text(if fields.is_empty() { "{}" } else { "}" })
}

// What is in all of its terms.
#[cycle(put_ty)]
fn put_part(part: &Part, core: &Core, page: &mut Page, is_tight: bool) -> Result<(), NoMemory> {
    let terms = part.terms.as_slice();
    if terms.is_empty() {
        return page.text("any");
    }
    let is_many = terms.len() > 1;
    put_open(page, is_tight && is_many)?;
    let mut is_first = true;
    for term in terms {
        page.text(if is_first { "" } else { " & " })?;
        put_signed(term, core, page, is_tight || is_many)?;
        is_first = false;
    }
    put_close(page, is_tight && is_many)
}

#[cycle(put_ty)]
fn put_signed(term: &Signed, core: &Core, page: &mut Page, is_tight: bool) -> Result<(), NoMemory> {
    if !term.inside {
        page.text("!")?;
    }
    put_ty(&term.term, core, page, is_tight || !term.inside)
}
