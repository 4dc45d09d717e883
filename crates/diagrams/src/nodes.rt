//! The memory of nodes. A node's parts stand at earlier places, so that it is read front to back as a list of trees.
//! Nodes are told by their trees: equal trees have one place, and two diagrams are the same exactly when their trees are.
ghost use Rattle.std.specs.Prelude.{◌≡◌, ◌+◌, ◌^◌, ◌≤◌};
ghost use Rattle.interning.specs.Decode.{Rooted, decode};
ghost use Rattle.interning.specs.Model.{held, capacity};
ghost use Rattle.interning.specs.Places.{Each};
ghost use Rattle.families.specs.Good.{Proper};
ghost use Rattle.diagrams.specs.Collecting.{blank};
ghost use Rattle.diagrams.specs.NodeKeys.{NamesBelow, node_tree};

pub use self::read::Parts;
use crate::node::Node;
use interning::interner::Interner;
use memos::diagram::Diagram;

mod avoid;
mod branch;
mod build;
mod collect;
mod count;
mod fold;
mod list;
mod mark;
mod open;
mod read;
mod single;

// The nodes of all diagrams of a bench. Each place has a name, and each tree is that of a family.
#[derive(Drop)]
pub struct NodeMemory<'a> {
    interner: Interner<'a, Node>,
    ghost few: { capacity interner + 2 ≤ 2 ^ 32 },
    ghost rooted: { ∥ Rooted NamesBelow (held interner) ∥₁ },
    ghost good: { ∥ Each Proper (decode node_tree (held interner)) ∥₁ },
}

// What is kept of a place while the nodes that no root reaches are thrown out: its node, if a root reaches it, and the name
// under which that goes afterwards.
#[derive(Clone, Copy)]
pub struct Cell {
    node: Option<Node>,
    moved: Diagram,
}

impl Cell {
    // A cell of which nothing is kept yet.
    pub fn blank() -> Cell
        ensures { result ≡ blank }
    {
        Cell {
            node: None,
            moved: Diagram::none(),
        }
    }
}

// Fewer cells than nodes are lent.
#[derive(Clone, Copy, PartialEq, Eq, Debug)]
pub struct TooFewCells;
