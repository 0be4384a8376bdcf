//! Release: a hold is let go of, and what nothing holds any more is freed at once.
//!
//! A node whose count became 0 waits in a list that goes through a field of its own, so a release takes
//! neither memory nor stack.
ghost use Rattle.std.specs.Prelude.{◌≡◌, ◌≤◌, ◌∷◌, [], ◌++◌, ℕ, List};
ghost use Rattle.wy_heap.specs.declared.part.Part.{Part};
ghost use Rattle.wy_heap.specs.declared.part.Part.TheVariants.{Key};
ghost use Rattle.wy_heap.specs.Nodes.{Map, map_of, count_at};
ghost use Rattle.wy_heap.specs.Standing.{Stands, Counts, AreHeld, Acts, SameTable};
ghost use Rattle.wy_heap.specs.Freeing.{Frees};
ghost use Rattle.wy_heap.specs.Changing.{SameRest, Leads, Lasts, Upholds, Upheld, More};

use crate::heap::Heap;
use crate::node::Node;
use crate::part::{Part, Place};

impl Heap {
    /// Lets go of a place, and frees each node that nothing holds any more, in time linear in their
    /// parts. It takes no memory, and no stack however deep they lie.
    #[inline(always)]
    pub fn release(&mut self, p: Place)
        requires held { AreHeld self.old (p ∷ []) }
        ensures acts { (others : List Part) → Stands self.old (p ∷ others) → Acts self.old self.new [] others }
        ensures lasts { Lasts (map_of self.old) (map_of self.new) }
        ensures kept { SameTable self.old self.new }
        ensures copies { self.new.copies ≡ self.old.copies }
    {
        let part = p.spent();
        self.free(part);
    }

    // lets go of a hold, and frees what nothing holds any more. What holds no node is let go of at once.
    #[inline(always)]
    pub(crate) fn free(&mut self, part: Part)
        requires { (others : List Part) × Counts self.old (part ∷ others) }
        ensures leads { (others : List Part) → Counts self.old (part ∷ others) → Leads self.old self.new [] others }
        ensures lasts { Lasts (map_of self.old) (map_of self.new) }
        ensures upheld { Upheld self.old (map_of self.new) part }
        ensures lower { (k : ℕ) → count_at self.new k ≤ count_at self.old k }
        ensures rest { SameRest self.old self.new }
    {
        if let Part::Key(key) = part {
            self.free_hold(Part::Key(key));
        }
    }

    // the same by the list of the nodes that wait
    #[inline(never)]
    fn free_hold(&mut self, part: Part)
        requires { (others : List Part) × Counts self.old (part ∷ others) }
        ensures leads { (others : List Part) → Counts self.old (part ∷ others) → Leads self.old self.new [] others }
        ensures lasts { Lasts (map_of self.old) (map_of self.new) }
        ensures upheld { Upheld self.old (map_of self.new) part }
        ensures lower { (k : ℕ) → count_at self.new k ≤ count_at self.old k }
        ensures rest { SameRest self.old self.new }
    {
        let mut dead = self.let_go(part, None);
        while let Some(key) = dead {
            let Node {
                count: _,
                next,
                shape: _,
                parts,
            } = self.nodes.remove(key);
            dead = self.let_go_all(&parts, next);
        }
    }

    // lets go of the holds on these parts, and frees what nothing holds any more
    pub(crate) fn free_all(&mut self, parts: &[Part])
        requires { (others : List Part) × Counts self.old (parts.now ++ others) }
        ensures counts { (others : List Part) → Counts self.old (parts.now ++ others) → Counts self.new others }
        ensures upheld { (base : Map) (others : List Part) → Counts self.old (parts.now ++ others) → Upholds base others → More base (map_of self.old) → More base (map_of self.new) }
        ensures lower { (k : ℕ) → count_at self.new k ≤ count_at self.old k }
        ensures rest { SameRest self.old self.new }
    {
        for part in parts {
            self.free(*part);
        }
    }

    // lets go of a hold; where it was the last, the node waits before the others
    pub(crate) fn let_go(&mut self, part: Part, dead: Option<usize>) -> Option<usize>
        requires { (places : List Part) × Frees self.old dead (part ∷ places) }
        ensures frees { (places : List Part) → Frees self.old dead (part ∷ places) → Frees self.new result places }
        ensures nodes { map_of self.new ≡ map_of self.old }
        ensures many { (k : ℕ) → part ≡ Key k → 2 ≤ count_at self.old k → result ≡ dead }
        ensures lower { (k : ℕ) → count_at self.new k ≤ count_at self.old k }
        ensures rest { SameRest self.old self.new }
    {
        match part {
            Part::Key(key) => {
                let node = &mut self.nodes[key];
                node.count -= 1;
                if node.count == 0 {
                    node.next = dead;
                    Some(key)
                } else {
                    dead
                }
            }
            _ => dead,
        }
    }

    // lets go of the holds on these parts
    fn let_go_all(&mut self, parts: &[Part], first: Option<usize>) -> Option<usize>
        requires { (places : List Part) × Frees self.old first (parts.now ++ places) }
        ensures frees { (places : List Part) → Frees self.old first (parts.now ++ places) → Frees self.new result places }
        ensures nodes { map_of self.new ≡ map_of self.old }
        ensures lower { (k : ℕ) → count_at self.new k ≤ count_at self.old k }
        ensures rest { SameRest self.old self.new }
    {
        let mut dead = first;
        for part in parts {
            dead = self.let_go(*part, dead);
        }
        dead
    }
}
