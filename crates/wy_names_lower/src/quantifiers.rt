//! Quantifiers of several ranges, written by quantifiers of one.
ghost use Rattle.std.specs.Prelude.{◌≡◌, map, IfOk};
ghost use Rattle.wy_core.specs.CoreSeen.{seen_expr};
ghost use Rattle.wy_names_lower.specs.ExprsLowered as lowered;
ghost use Rattle.wy_names_lower.specs.SeenPairs.{seen_head};

use std::alloc::{AllocError, Global};
use wy_core::Expr;
use wy_core_build::quant;
use wy_items::{Boxed, Items};

/// A range of a quantifier: its variable, its first number, and the number behind its last.
#[derive(Drop)]
pub struct Head {
    pub variable: u32,
    pub from: Boxed<Expr>,
    pub to: Boxed<Expr>,
}

/// A quantifier of the first range over one of the others, and the body last.
#[tactic(auto, using(crate::proofs::PopLemmas::quantified_last))]
pub fn quantified(
    alloc: Global,
    at: u32,
    all: bool,
    heads: Items<Head>,
    body: Expr,
) -> Result<Expr, AllocError>
    ensures value { IfOk result (λ e. seen_expr e ≡ lowered.quantified at all (map seen_head heads) (seen_expr body)) }
{
    let mut heads = heads;
    let mut made = body;
    while let Some(head) = heads.pop() {
        made = around(alloc, at, all, head, made)?;
    }
    Ok(made)
}

/// A quantifier of this range.
fn around(alloc: Global, at: u32, all: bool, head: Head, body: Expr) -> Result<Expr, AllocError>
    ensures value { IfOk result (λ e. seen_expr e ≡ lowered.quant_of at all (seen_head head) (seen_expr body)) }
{
    let Head { variable, from, to } = head;
    let body = Boxed::new(alloc, body)?;
    Ok(quant(at, all, variable, from, to, body))
}
