//! Laws of heaps. Each function says one, and does nothing.
ghost use Rattle.std.specs.Prelude.{◌≡◌, ◌↔◌, ℕ, List, [], IsSome};
ghost use Rattle.wy_heap.specs.declared.part.Part.{Part};
ghost use Rattle.wy_heap.specs.declared.heap.Heap.{Heap};
ghost use Rattle.wy_heap.specs.Nodes.{map_of, at, size};
ghost use Rattle.wy_heap.specs.Standing.{Stands};
ghost use Rattle.wy_heap.specs.Reaching.{Reach};

/// The nodes of a heap are those that the places of its callers reach: nothing dead is kept, and nothing
/// that is reached is missing. So `live` counts what is reached.
pub fn nothing_dead()
    ensures { (h : Heap) (places : List Part) → Stands h places → (k : ℕ) → IsSome (at (map_of h) k) ↔ Reach (map_of h) places k }
{}

/// A heap of which nothing is held has no node.
pub fn nothing_left()
    ensures { (h : Heap) → Stands h [] → size (map_of h) ≡ 0 }
{}
