//! Values of trees that a node has from those of its two parts: one pass upward tells them of all places.
ghost use Rattle.std.specs.Prelude.{◌≡◌, length};
ghost use Rattle.memos.specs.Diagrams.{seen};
ghost use Rattle.families.specs.Good.{Good};
ghost use Rattle.families.specs.Trees as tree;
ghost use Rattle.families.specs.Trees.{Tree};
ghost use Rattle.diagrams.specs.Folding.{FoldedOut, HasParts, value_at};
ghost use Rattle.diagrams.specs.Memory.{trees};

use super::{NodeMemory, TooFewCells};
use memos::diagram::{Diagram, View};

// A value of trees, as it is worked out.
pub(super) trait Fold {
    type Value: Copy;

    // The value of a tree.
    ghost value: { Self → Tree → Self.Value };

    // The value of none.
    fn none(&self) -> Self::Value
        ensures { result ≡ value self.now tree.none };

    // The value of always.
    fn always(&self) -> Self::Value
        ensures { result ≡ value self.now tree.always };

    // The value of a family's tree, from those of its two parts.
    fn node(&self, member: u8, low: Self::Value, high: Self::Value) -> Self::Value
        requires { HasParts (value self.now) member low high }
        ensures { (l h : Tree) → Good 1 (tree.node member l h) → low ≡ value self.now l → high ≡ value self.now h → result ≡ value self.now (tree.node member l h) };
}

// The value of a diagram, from those of the places.
pub(super) fn value_of<F: Fold>(fold: &F, cells: &[F::Value], diagram: Diagram) -> F::Value
    ensures { result ≡ value_at (F.value fold.now) cells.now (seen diagram) }
{
    match diagram.view() {
        View::None => fold.none(),
        View::Always => fold.always(),
        View::Node(place) => cells.get(place as usize).copied().unwrap_or(fold.none()),
    }
}

impl<'a> NodeMemory<'a> {
    // Writes the value of each place into its cell.
    pub(super) fn fold<F: Fold>(&self, fold: &F, cells: &mut [F::Value]) -> Result<(), TooFewCells>
        ensures { FoldedOut (F.value fold.now) (length cells.old) (trees self.now) cells.new result }
    {
        if cells.len() < self.len() as usize {
            return Err(TooFewCells);
        }
        // An index, since a turn reads the cells of other places than the one whose cell it writes.
        for place in 0..self.len() {
            let node = self.key(place);
            let low = value_of(fold, cells, node.low);
            let high = value_of(fold, cells, node.high);
            cells[place as usize] = fold.node(node.member, low, high);
        }
        Ok(())
    }
}
