//! What a step leads to.
ghost use Rattle.std.specs.Prelude.{◌≡◌, ◌<◌, ℕ, List, option_map, IfOk, IfSome};
ghost use Rattle.wy_term.specs.Term.{Term};
ghost use Rattle.wy_term.specs.Nodes.{Plain, tree_at};
ghost use Rattle.wy_vc_laws.specs.wy_check_spec.judge.Node.{Node};
ghost use Rattle.wy_facts.specs.Seen.{terms_at, AreBelow};
ghost use Rattle.wy_lin.specs.Linear.{◌>>=◌ as bind};
ghost use Rattle.wy_vc_laws.specs.wy_check_spec.valid.Literals.{only_if};
ghost use Rattle.wy_vc_laws.specs.wy_check_spec.valid.Validity.{closed, left_with, left_with_one};
ghost use Rattle.wy_check.specs.Led.{led, IsOutcomeOver};

use std::alloc::Global;
use wy_term::NoMemory;

/// What a valid step does to the node at which it stands.
#[derive(Drop)]
pub enum Outcome {
    /// The node is closed.
    Closes,
    /// The node with these formulas more is to be closed.
    Adds(Vec<u32>),
    /// The node with this atom, and then the node with its denial, are to be closed.
    Splits(u32),
}

/// The node is closed, where the step is valid.
pub fn closes(valid: bool) -> Option<Outcome>
    ensures value { (at : ℕ → Term) (node : Node) → option_map (led at node) result ≡ only_if valid closed }
    ensures within { (n : ℕ) → IfSome result (IsOutcomeOver n) }
{
    if valid { Some(Outcome::Closes) } else { None }
}

/// The formulas that a step states are added, where it is valid.
pub fn adds(stated: Option<Vec<u32>>) -> Option<Outcome>
    ensures value { (nodes : List Plain) (node : Node) → option_map (led (tree_at nodes) node) result ≡ bind (option_map (λ fs. terms_at nodes fs.items) stated) (left_with node) }
    ensures within { (n : ℕ) → IfSome stated (λ fs. AreBelow n fs.items) → IfSome result (IsOutcomeOver n) }
{
    match stated {
        Some(formulas) => Some(Outcome::Adds(formulas)),
        None => None,
    }
}

/// The formula that a step states is added, where it is valid.
pub fn adds_one(alloc: Global, stated: Option<u32>) -> Result<Option<Outcome>, NoMemory>
    ensures value { (at : ℕ → Term) (node : Node) → IfOk result (λ o. option_map (led at node) o ≡ bind (option_map at stated) (left_with_one node)) }
    ensures within { (n : ℕ) → IfSome stated (λ f. f < n) → IfOk result (λ o. IfSome o (IsOutcomeOver n)) }
{
    match stated {
        Some(f) => Ok(Some(Outcome::Adds(Vec::from_slice(alloc, &[f])?))),
        None => Ok(None),
    }
}
