//! What may be without a value at the ends of a statement.
ghost use Rattle.std.specs.Prelude.{◌≡◌, IfOk, map};
ghost use Rattle.wy_assign.specs.Flows as spec;
ghost use Rattle.wy_core.specs.CoreSeen.{seen_option, seen_step};

use crate::marks::{Marks, joined};
use std::alloc::{AllocError, Global};
use wy_core::{Expr, Step};

/// What may be without a value at a point, and at each `break` and `continue` met so far in the loop
/// around it.
#[derive(Drop)]
pub struct Flow {
    pub here: Marks,
    pub breaks: Marks,
    pub continues: Marks,
}

/// The same, and the least place so far of a use of what may be without a value.
#[derive(Drop)]
pub struct Walk {
    pub flow: Flow,
    pub found: Option<u32>,
}

/// From here on, with no `break` and no `continue` so far.
pub fn from_here(alloc: Global, here: Marks) -> Flow
    ensures value { result ≡ spec.from_here here }
{
    Flow {
        here,
        breaks: Marks::nowhere(alloc),
        continues: Marks::nowhere(alloc),
    }
}

/// Behind a declaration, with or without a value.
pub fn declare(flow: Flow, variable: u32, value: &Option<Expr>) -> Result<Flow, AllocError>
    ensures value { IfOk result (λ f. f ≡ spec.declared_here variable (seen_option value.now) flow) }
{
    let Flow {
        mut here,
        breaks,
        continues,
    } = flow;
    match value {
        None => {
            here.declare(variable)?;
            Ok(Flow {
                here,
                breaks,
                continues,
            })
        }
        Some(_) => {
            here.assign(variable)?;
            Ok(Flow {
                here,
                breaks,
                continues,
            })
        }
    }
}

/// Behind an assignment to a variable, or to a part of it.
pub fn assign(flow: Flow, variable: u32, path: &[Step]) -> Result<Flow, AllocError>
    ensures value { IfOk result (λ f. f ≡ spec.assigned_here variable (map seen_step path.now) flow) }
{
    match path {
        [] => {
            let Flow {
                mut here,
                breaks,
                continues,
            } = flow;
            here.assign(variable)?;
            Ok(Flow {
                here,
                breaks,
                continues,
            })
        }
        [_, ..] => Ok(flow),
    }
}

/// No path goes on.
pub fn left(alloc: Global, flow: Flow) -> Flow
    ensures value { result ≡ spec.left flow }
{
    let Flow {
        breaks,
        continues,
        ..
    } = flow;
    Flow {
        here: Marks::nowhere(alloc),
        breaks,
        continues,
    }
}

/// Behind a `break`.
pub fn broken(alloc: Global, flow: Flow) -> Result<Flow, AllocError>
    ensures value { IfOk result (λ f. f ≡ spec.broken flow) }
{
    let Flow {
        here,
        breaks,
        continues,
    } = flow;
    let breaks = joined(alloc, breaks, here)?;
    Ok(Flow {
        here: Marks::nowhere(alloc),
        breaks,
        continues,
    })
}

/// Behind a `continue`.
pub fn continued(alloc: Global, flow: Flow) -> Result<Flow, AllocError>
    ensures value { IfOk result (λ f. f ≡ spec.continued flow) }
{
    let Flow {
        here,
        breaks,
        continues,
    } = flow;
    let continues = joined(alloc, continues, here)?;
    Ok(Flow {
        here: Marks::nowhere(alloc),
        breaks,
        continues,
    })
}

/// Where the second block of an `if` begins, and the marks with which the first one ended.
pub fn otherwise(before: Marks, first: Flow) -> (Marks, Flow)
    ensures ended { result.0 ≡ first.here }
    ensures begun { result.1 ≡ spec.otherwise before first }
{
    let Flow {
        here,
        breaks,
        continues,
    } = first;
    let begun = Flow {
        here: before,
        breaks,
        continues,
    };
    (here, begun)
}

/// Behind both blocks of an `if`, of which the first ends with these marks.
pub fn rejoined(alloc: Global, first: Marks, second: Flow) -> Result<Flow, AllocError>
    ensures value { IfOk result (λ f. f ≡ spec.rejoined first second) }
{
    let Flow {
        here,
        breaks,
        continues,
    } = second;
    let here = joined(alloc, first, here)?;
    Ok(Flow {
        here,
        breaks,
        continues,
    })
}

/// The head of a loop, before the first turn and behind each, and what the loop's `break`s leave,
/// where `turn` is what a turn by itself leaves.
pub fn head(alloc: Global, before: Marks, turn: Flow) -> Result<(Marks, Marks), AllocError>
    ensures value { IfOk result (λ r. (r.0 ≡ spec.head before turn) × (r.1 ≡ turn.breaks)) }
{
    let Flow {
        here,
        breaks,
        continues,
    } = turn;
    if !before.is_reached() {
        return Ok((before, breaks));
    }
    let before = joined(alloc, before, here)?;
    let before = joined(alloc, before, continues)?;
    Ok((before, breaks))
}

/// Behind a loop whose head has these marks and whose `break`s leave those.
pub fn exit(alloc: Global, head: Marks, breaks: Marks) -> Result<Marks, AllocError>
    ensures value { IfOk result (λ m. m ≡ spec.exit head breaks) }
{
    if !head.is_reached() {
        return Ok(head);
    }
    joined(alloc, head, breaks)
}
