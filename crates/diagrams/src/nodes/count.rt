//! How many groups a diagram has: the number of a node is the sum of those of its two parts.
//! A family has at most 2^48 groups, so that no sum wraps.
ghost use Rattle.std.specs.Prelude.{length};
ghost use Rattle.families.specs.Trees.{groups};
ghost use Rattle.diagrams.specs.Counting.{Counted};
ghost use Rattle.diagrams.specs.Memory.{trees};

use super::fold::{Fold, value_of};
use super::{NodeMemory, TooFewCells};
use memos::diagram::Diagram;

// The number of groups of a tree.
#[derive(Clone, Copy)]
struct Count;

impl Fold for Count {
    type Value = u64;

    ghost value = { λ it t. length (groups t) };

    fn none(&self) -> u64 {
        0
    }

    fn always(&self) -> u64 {
        1
    }

    fn node(&self, _member: u8, low: u64, high: u64) -> u64 {
        low + high
    }
}

impl<'a> NodeMemory<'a> {
    // The number of a diagram's groups, refused where fewer cells than nodes are lent.
    pub fn count(&self, diagram: Diagram, cells: &mut [u64]) -> Result<u64, TooFewCells>
        ensures { Counted (length cells.old) (trees self.now) diagram result }
    {
        self.fold(&Count, cells)?;
        Ok(value_of(&Count, cells, diagram))
    }
}
