//! Building a diagram over two others, as the family's tree is built over two trees.
//! To intern a node is to intern its tree, since nodes are told by their trees.
ghost use Rattle.std.specs.Prelude.{◌≡◌};
ghost use Rattle.families.specs.Trees.{Tree};
ghost use Rattle.diagrams.specs.Building.{Denotes, Fitting, Joins};
ghost use Rattle.diagrams.specs.Memory.{SameMemory, places, trees};

use super::NodeMemory;
use crate::node::Node;
use interning::interner::Full;
use memos::diagram::Diagram;

impl<'a> NodeMemory<'a> {
    // The diagram over two parts: low where high is none, else the node, which takes the next place where it has none.
    pub(crate) fn build(&mut self, node: Node) -> Result<Diagram, Full>
        requires fitting { Fitting (trees self.old) node }
        ensures joins { (l h : Tree) → Denotes (trees self.old) node.low l → Denotes (trees self.old) node.high h → Joins (places self.old) (trees self.old) node.member l h result (trees self.new) }
        ensures same { SameMemory self.old self.new }
    {
        if node.high == Diagram::none() {
            return Ok(node.low);
        }
        let place = self.interner.intern(node)?;
        Diagram::node(place).ok_or(Full)
    }
}
