//! Marking: from the newest place down, each marked node marks its two parts, which stand before it.
//! So one pass suffices: what is marked is reached by a root, and the parts of what is marked are marked.
//! Memory and cells are no struct: the cells are lent for one call, and each clause says what they hold of the memory as it is then.
ghost use Rattle.std.specs.Prelude.{◌≡◌, ℕ, ◌≤◌, List, length, slice_index_or, None};
ghost use Rattle.interning.specs.Model.{held};
ghost use Rattle.memos.specs.declared.diagram.Diagram.{Diagram};
ghost use Rattle.memos.specs.Diagrams.{seen};
ghost use Rattle.diagrams.specs.Collecting.{ClosedFrom, Copied, Covers, Marked, Sparing, copies, marked_by, marks};
ghost use Rattle.diagrams.specs.Memory.{trees};

use super::{Cell, NodeMemory};
use memos::diagram::{Diagram, View};

impl<'a> NodeMemory<'a> {
    // Marks the places that the roots reach by their nodes.
    pub(super) fn mark(&self, roots: &[Diagram], cells: &mut [Cell])
        requires { length (trees self.now) ≤ length cells.old }
        ensures sparing { Sparing (trees self.now) roots.now (marks cells.new) }
        ensures covers { Covers (trees self.now) roots.now (length roots.now) (marks cells.new) }
        ensures closed { ClosedFrom (held self.now.interner) 0 (marks cells.new) }
        ensures copied { Copied (held self.now.interner) (copies cells.new) }
    {
        cells.fill(Cell::blank());
        self.mark_roots(roots, cells);
        self.spread(cells);
    }

    // Marks the place of a diagram, if it is held.
    fn mark_place(&self, diagram: Diagram, cells: &mut [Cell])
        requires { length (trees self.now) ≤ length cells.old }
        ensures marked { marks cells.new ≡ marked_by (length (trees self.now)) (marks cells.old) (seen diagram) }
        ensures copied { Copied (held self.now.interner) (copies cells.old) → Copied (held self.now.interner) (copies cells.new) }
    {
        if let View::Node(place) = diagram.view()
            && place < self.len()
        {
            cells[place as usize].node = Some(self.key(place));
        }
    }

    // Marks the places of the roots.
    fn mark_roots(&self, roots: &[Diagram], cells: &mut [Cell])
        requires room { length (trees self.now) ≤ length cells.old }
        requires blank { (p : ℕ) → slice_index_or (copies cells.old) p None ≡ None }
        ensures sparing { Sparing (trees self.now) roots.now (marks cells.new) }
        ensures covers { Covers (trees self.now) roots.now (length roots.now) (marks cells.new) }
        ensures copied { Copied (held self.now.interner) (copies cells.new) }
    {
        for root in roots {
            self.mark_place(*root, cells);
        }
    }

    // Marks the parts of what is marked.
    fn spread(&self, cells: &mut [Cell])
        requires room { length (trees self.now) ≤ length cells.old }
        requires copied { Copied (held self.now.interner) (copies cells.old) }
        ensures sparing { (rs : List Diagram) → Sparing (trees self.now) rs (marks cells.old) → Sparing (trees self.now) rs (marks cells.new) }
        ensures more { (p : ℕ) → Marked (marks cells.old) p → Marked (marks cells.new) p }
        ensures closed { ClosedFrom (held self.now.interner) 0 (marks cells.new) }
        ensures copied { Copied (held self.now.interner) (copies cells.new) }
    {
        // An index, since a turn writes the cells of other places than the one that it has come to.
        for place in (0..self.len()).rev() {
            if let Some(node) = cells[place as usize].node {
                self.mark_place(node.low, cells);
                self.mark_place(node.high, cells);
            }
        }
    }
}
