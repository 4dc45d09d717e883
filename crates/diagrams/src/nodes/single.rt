//! The family of one member: its only group is that member alone.
ghost use Rattle.std.specs.Prelude.{◌≡◌};
ghost use Rattle.diagrams.specs.Building.{Makes, single_made, single_tree};
ghost use Rattle.diagrams.specs.Memory.{SameMemory, places, trees};

use super::NodeMemory;
use crate::node::Node;
use interning::interner::Full;
use memos::diagram::Diagram;

impl<'a> NodeMemory<'a> {
    // The diagram of a member alone, and of no group where the number is no member.
    pub fn single(&mut self, member: u8) -> Result<Diagram, Full>
        ensures makes { Makes (places self.old) (trees self.old) (single_tree member) (single_made member) result (trees self.new) }
        ensures same { SameMemory self.old self.new }
    {
        if !(1..=48).contains(&member) {
            return Ok(Diagram::none());
        }
        self.build(Node {
            member,
            low: Diagram::none(),
            high: Diagram::always(),
        })
    }
}
