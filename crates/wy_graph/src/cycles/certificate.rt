//! By what labels are known to be right, and the test of it.
ghost use Rattle.std.specs.Prelude.{◌≡◌, ◌<◌, ℕ, true, IsTrue, slice_get};
ghost use Rattle.wy_graph.specs.cycles.Certificates as spec;

use crate::cycles::graph::Arrow;
use wy_items::Items;

/// How each node hangs on another one of its label: by which arrow, and at which rank. Ranks fall on the
/// way to the label's root.
#[derive(Drop)]
pub struct Hangs {
    pub arrows: Items<usize>,
    pub ranks: Items<usize>,
}

/// Labels, and by what they are known to be right: labels rise along arrows, each label has a root, from
/// each node arrows lead up to the root of its label, and from there down to the node.
#[derive(Drop)]
pub struct Certificate {
    pub labels: Items<usize>,
    pub roots: Items<usize>,
    pub up: Hangs,
    pub down: Hangs,
}

/// The number at the index, or 0 where there is none.
pub fn number_at(list: &[usize], index: usize) -> usize
    ensures value { result ≡ spec.number_at list.now index }
{
    match list.get(index) {
        None => 0,
        Some(number) => *number,
    }
}

fn arrow_at(arrows: &[Arrow], index: usize) -> Option<Arrow>
    ensures value { result ≡ slice_get arrows.now index }
{
    arrows.get(index).copied()
}

/// Whether the node is the root of its label.
fn is_root(certificate: &Certificate, node: usize) -> bool
    ensures value { result ≡ spec.is_root certificate.now node }
{
    let label = number_at(certificate.labels.as_slice(), node);
    number_at(certificate.roots.as_slice(), label) == node
}

/// Whether the first node has the label of the second and a lower rank.
fn is_nearer(labels: &[usize], ranks: &[usize], first: usize, second: usize) -> bool
    ensures value { result ≡ spec.is_nearer labels.now ranks.now first second }
{
    number_at(labels, first) == number_at(labels, second)
        && number_at(ranks, first) < number_at(ranks, second)
}

/// Whether the node's arrow leads to one nearer to the root.
fn leads_up(arrows: &[Arrow], labels: &[usize], up: &Hangs, node: usize) -> bool
    ensures value { result ≡ spec.leads_up arrows.now labels.now up.now node }
{
    match arrow_at(arrows, number_at(up.arrows.as_slice(), node)) {
        None => false,
        Some(arrow) => {
            arrow.from as usize == node
                && is_nearer(labels, up.ranks.as_slice(), arrow.to as usize, node)
        }
    }
}

/// Whether the node's arrow comes from one nearer to the root.
fn leads_down(arrows: &[Arrow], labels: &[usize], down: &Hangs, node: usize) -> bool
    ensures value { result ≡ spec.leads_down arrows.now labels.now down.now node }
{
    match arrow_at(arrows, number_at(down.arrows.as_slice(), node)) {
        None => false,
        Some(arrow) => {
            arrow.to as usize == node
                && is_nearer(labels, down.ranks.as_slice(), arrow.from as usize, node)
        }
    }
}

/// Whether the node is the root of its label, or arrows lead nearer to it and back.
fn fits(arrows: &[Arrow], certificate: &Certificate, node: usize) -> bool
    ensures value { result ≡ spec.fits arrows.now certificate.now node }
{
    let labels = certificate.labels.as_slice();
    is_root(certificate, node)
        || (leads_up(arrows, labels, &certificate.up, node)
            && leads_down(arrows, labels, &certificate.down, node))
}

fn each_fits(arrows: &[Arrow], certificate: &Certificate, count: usize) -> bool
    ensures value { IsTrue result → (v : ℕ) → v < count → spec.fits arrows.now certificate.now v ≡ true }
{
    for node in 0..count {
        if !fits(arrows, certificate, node) {
            return false;
        }
    }
    true
}

/// Whether both ends are nodes, and the label doesn't fall.
fn rises(labels: &[usize], count: usize, arrow: Arrow) -> bool
    ensures value { result ≡ spec.rises labels.now count arrow }
{
    let (from, to) = (arrow.from as usize, arrow.to as usize);
    from < count && to < count && number_at(labels, from) <= number_at(labels, to)
}

fn each_rises(arrows: &[Arrow], labels: &[usize], count: usize) -> bool
    ensures value { result ≡ spec.each_rises labels.now count arrows.now }
{
    for arrow in arrows {
        if !rises(labels, count, *arrow) {
            return false;
        }
    }
    true
}

/// Whether the certificate is one for these arrows. Linear in nodes and arrows.
pub fn holds(arrows: &[Arrow], certificate: &Certificate, count: usize) -> bool
    ensures nodes { IsTrue result → (v : ℕ) → v < count → spec.fits arrows.now certificate.now v ≡ true }
    ensures arrows { IsTrue result → spec.each_rises certificate.now.labels count arrows.now ≡ true }
{
    each_fits(arrows, certificate, count)
        && each_rises(arrows, certificate.labels.as_slice(), count)
}
