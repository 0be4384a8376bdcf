//! Whether a program is wrong: small arguments are tried on the function or method that owes a condition, and on its callers.
use std::alloc::Global;
use wy_eval_exprs::routine_at;
use wy_explain::{
    Class, CondKind, Finding, Label, NoMemory, Page, Seen, owing_node, owing_span, point,
};
use wy_flow::Typed;
use wy_probe::{ProbeEnd, probe};
use wy_value::{Value, show};

/// How many tuples of arguments are tried, and each for how many ticks.
const TUPLES: u32 = 200;

const TICKS: u32 = 200;

/// How many callers of it are tried.
const CALLERS: usize = 3;

/// Tells in a finding on which small arguments the function or method fails that holds the place, or else one of its callers fails at
/// the place, or that none were found.
pub fn put_tried(
    alloc: Global,
    seen: &Seen,
    typed: &Typed,
    at: u32,
    finding: &mut Finding,
) -> Result<(), NoMemory> {
    let decl = match seen.decl_at(at) {
        Some(decl) => decl,
        None => return Ok(()),
    };
    match tried_on(alloc, seen, typed, decl)? {
        Some(ProbeEnd::Found { args, kind, at, .. }) => {
            let name = name_of(seen, decl);
            put_fault(alloc, seen, name, args.as_slice(), kind, at, finding)
        }
        Some(ProbeEnd::None { tried, met, .. }) => {
            if put_callers(alloc, seen, typed, decl, finding)? {
                return Ok(());
            }
            put_none(alloc, name_of(seen, decl), tried, met, finding)
        }
        None => Ok(()),
    }
}

// The name that a node has.
fn name_of<'a>(seen: &Seen<'a>, decl: usize) -> &'a [u8] {
    match seen.nodes.get(decl) {
        Some(node) => seen.text(node.name),
        None => b"".as_slice(),
    }
}

// How small arguments end on the function or method that this node declares; nothing where it declares another thing.
fn tried_on(
    alloc: Global,
    seen: &Seen,
    typed: &Typed,
    decl: usize,
) -> Result<Option<ProbeEnd>, NoMemory> {
    let entry = match entry_of(seen, decl) {
        Some(entry) => entry,
        None => return Ok(None),
    };
    let core = typed.core();
    match routine_at(core.decls.as_slice(), entry) {
        Some(_routine) => {
            let end = probe(alloc, typed, entry, TUPLES, TICKS)?;
            Ok(Some(end))
        }
        None => Ok(None),
    }
}

// Tells of the first caller that is found to fail at the finding's place; whether there is one.
fn put_callers(
    alloc: Global,
    seen: &Seen,
    typed: &Typed,
    decl: usize,
    finding: &mut Finding,
) -> Result<bool, NoMemory> {
    let name = name_of(seen, decl);
    let mut left = CALLERS;
    let mut last = decl;
    for node in seen.nodes.all() {
        let is_call = node.class == Class::Call || node.class == Class::CallStmt;
        let is_other = node.decl != decl && node.decl != last;
        if left == 0 || !is_call || !is_other || seen.text(node.name) != name {
            continue;
        }
        left -= 1;
        last = node.decl;
        match tried_on(alloc, seen, typed, last)? {
            Some(ProbeEnd::Found { args, kind, at, .. }) => {
                if at == finding.at {
                    put_fault(
                        alloc,
                        seen,
                        name_of(seen, last),
                        args.as_slice(),
                        kind,
                        at,
                        finding,
                    )?;
                    return Ok(true);
                }
            }
            _ => {}
        }
    }
    Ok(false)
}

// The number of the function or method that this node declares, among these.
fn entry_of(seen: &Seen, decl: usize) -> Option<u32> {
    let mut count = 0u32;
    let mut number = 0usize;
    for node in seen.nodes.all() {
        if number == decl {
            return if node.class.is_routine() {
                Some(count)
            } else {
                None
            };
        }
        if node.class.is_routine() {
            count = count.saturating_add(1);
        }
        number = number.saturating_add(1);
    }
    None
}

// Arguments on which one fails: with the kind and the place, where that isn't the finding's.
fn put_fault(
    alloc: Global,
    seen: &Seen,
    name: &[u8],
    args: &[Value],
    kind: CondKind,
    at: u32,
    finding: &mut Finding,
) -> Result<(), NoMemory> {
    let mut page = Page::new(alloc);
    page.text("The program is wrong: `")?;
    put_call(alloc, &mut page, name, args)?;
    page.text("` fails here")?;
    if at == finding.at {
        page.text(".")?;
        return put_sentence(finding, page);
    }
    page.text(" (")?;
    page.text(kind.word())?;
    page.text("):")?;
    let span = owing_span(seen, owing_node(seen, kind, at), at);
    point(finding, page, span)
}

fn put_none(
    alloc: Global,
    name: &[u8],
    tried: u32,
    met: u32,
    finding: &mut Finding,
) -> Result<(), NoMemory> {
    let mut page = Page::new(alloc);
    page.text("No arguments were found on which ")?;
    page.code(name)?;
    page.text(" fails: ")?;
    page.number(u64::from(tried))?;
    page.text(" tried, ")?;
    page.number(u64::from(met))?;
    page.text(" of them meet what is required.")?;
    put_sentence(finding, page)
}

fn put_sentence(finding: &mut Finding, text: Page) -> Result<(), NoMemory> {
    finding.labels.push(Label { text, span: None })?;
    Ok(())
}

// A call as it is written.
fn put_call(alloc: Global, page: &mut Page, name: &[u8], args: &[Value]) -> Result<(), NoMemory> {
    page.bytes(name)?;
    page.text("(")?;
    let mut is_first = true;
    for value in args {
        page.text(if is_first { "" } else { ", " })?;
        let text = show(alloc, value)?;
        page.bytes(text.as_slice())?;
        is_first = false;
    }
    page.text(")")
}
