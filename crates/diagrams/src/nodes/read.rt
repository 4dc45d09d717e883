//! Reading a diagram: its node, its top member, its parts at a member, and whether two diagrams are one.
//! What stands at a place is what its node means over the places before it.
//! A clause says what holds of the trees that a diagram denotes, whichever they are: a diagram alone denotes none.
ghost use Rattle.std.specs.Prelude.{◌≡◌, ◌<◌, length, Decides};
ghost use Rattle.interning.specs.Model.{held};
ghost use Rattle.interning.specs.Places.{Stands};
ghost use Rattle.memos.specs.Diagrams.{seen};
ghost use Rattle.families.specs.Trees.{Tree};
ghost use Rattle.families.specs.Questions.{top, low_at, high_at};
ghost use Rattle.diagrams.specs.Building.{Denotes, NamedNode, Opened};
ghost use Rattle.diagrams.specs.Memory.{trees};

use super::NodeMemory;
use crate::node::Node;
use memos::diagram::{Diagram, View};

// The two parts of a diagram at a member.
#[derive(Clone, Copy)]
pub struct Parts {
    pub low: Diagram,
    pub high: Diagram,
}

impl<'a> NodeMemory<'a> {
    // The node that a diagram names, or none where it is none or always.
    pub fn node(&self, diagram: Diagram) -> Option<Node>
        ensures named { NamedNode (held self.now.interner) (seen diagram) result }
        ensures opened { (t : Tree) → Denotes (trees self.now) diagram t → Opened (trees self.now) t result }
    {
        match diagram.view() {
            View::Node(place) => self.interner.key_at(place),
            _ => None,
        }
    }

    // The node at a place that is held.
    pub(crate) fn key(&self, place: u32) -> Node
        requires { place < length (trees self.now) }
        ensures { Stands (held self.now.interner) result place }
    {
        self.interner.key_at(place).unwrap()
    }

    // The top member of a diagram, and 49 where there is none.
    pub fn top(&self, diagram: Diagram) -> u8
        ensures { (t : Tree) → Denotes (trees self.now) diagram t → result ≡ top t }
    {
        self.node(diagram).map_or(49, |node| node.member)
    }

    // Low and high where the member is the top one, else the diagram itself and none.
    pub fn parts(&self, diagram: Diagram, member: u8) -> Parts
        ensures low { (t : Tree) → Denotes (trees self.now) diagram t → Denotes (trees self.now) result.low (low_at member t) }
        ensures high { (t : Tree) → Denotes (trees self.now) diagram t → Denotes (trees self.now) result.high (high_at member t) }
    {
        match self.node(diagram) {
            Some(node) if node.member == member => Parts {
                low: node.low,
                high: node.high,
            },
            _ => Parts {
                low: diagram,
                high: Diagram::none(),
            },
        }
    }

    // Whether two diagrams of the memory have one tree: they are one diagram.
    pub fn same(&self, one: Diagram, other: Diagram) -> bool
        ensures { (s t : Tree) → Denotes (trees self.now) one s → Denotes (trees self.now) other t → Decides result (s ≡ t) }
    {
        one == other
    }
}
