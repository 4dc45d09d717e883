//! Throwing out what no root reaches: the marked nodes are built anew in the emptied memory, from the oldest to the newest.
//! The parts of a marked node are marked and stand before it, so they have moved when it does; trees stay what they are.
ghost use Rattle.std.specs.Prelude.{◌≡◌, ◌≤◌, length, map};
ghost use Rattle.interning.specs.Model.{held};
ghost use Rattle.memos.specs.Diagrams.{seen};
ghost use Rattle.diagrams.specs.Collecting.{ClosedFrom, Copied, Moved, ThrownOut, copies, marks, moved_as, moves};
ghost use Rattle.diagrams.specs.Memory.{SameMemory, trees};

use super::{Cell, NodeMemory, TooFewCells};
use crate::node::Node;
use memos::diagram::{Diagram, View};

// A diagram under the name that it has moved to.
fn moved(cells: &[Cell], diagram: Diagram) -> Diagram
    ensures { result ≡ moved_as (moves cells.now) diagram (seen diagram) }
{
    match diagram.view() {
        View::Node(place) => cells.get(place as usize).map_or(diagram, |cell| cell.moved),
        _ => diagram,
    }
}

// Puts each root under the name that it has moved to.
fn move_roots(roots: &mut [Diagram], cells: &[Cell])
    ensures { roots.new ≡ map (λ d. moved_as (moves cells.now) d (seen d)) roots.old }
{
    for root in roots.iter_mut() {
        *root = moved(cells, *root);
    }
}

impl<'a> NodeMemory<'a> {
    // Throws out every node that no root reaches, and moves the roots. Refused where fewer cells than nodes are lent.
    pub fn collect(&mut self, roots: &mut [Diagram], cells: &mut [Cell]) -> Result<(), TooFewCells>
        ensures collected { ThrownOut (length cells.old) (trees self.old) roots.old (trees self.new) roots.new result }
        ensures same { SameMemory self.old self.new }
    {
        if cells.len() < self.len() as usize {
            return Err(TooFewCells);
        }
        // a cell for each node; any more that are lent stay as they are
        let cells = &mut cells[..self.len() as usize];
        self.mark(roots, cells);
        self.refill(cells);
        move_roots(roots, cells);
        Ok(())
    }

    // Holds the marked nodes alone; their cells tell under which names.
    fn refill(&mut self, cells: &mut [Cell])
        requires cells { length (trees self.old) ≤ length cells.old }
        requires closed { ClosedFrom (held self.old.interner) 0 (marks cells.old) }
        requires copied { Copied (held self.old.interner) (copies cells.old) }
        ensures moved { Moved (trees self.old) (marks cells.old) (length (trees self.old)) (trees self.new) (moves cells.new) }
        ensures same { SameMemory self.old self.new }
    {
        let len = self.len();
        self.clear();
        // An index, since a turn reads the cells of other places than the one that it has come to.
        for place in 0..len {
            let Some(node) = cells[place as usize].node else {
                continue;
            };
            let low = moved(cells, node.low);
            let high = moved(cells, node.high);
            let diagram = self.build(Node { low, high, ..node }).unwrap();
            cells[place as usize].moved = diagram;
        }
    }
}
