//! A node memory from its slots, emptied, and how full it is.
//! A place has a name if its number and two more fit 32 bits, so that the last slots may stay unused.
ghost use Rattle.std.specs.Prelude.{◌≡◌, ◌-◌, ◌^◌, min, [], length};
ghost use Rattle.diagrams.specs.Memory.{SameMemory, places, trees};

use super::NodeMemory;
use crate::node::Node;
use interning::interner::Interner;
use interning::slot::Slot;

// How many places have names.
const NAMES: usize = 0xffff_fffe;

impl<'a> NodeMemory<'a> {
    // An empty memory over the slots; those past the last name stay unused.
    pub fn open(slots: &'a mut [Slot<Node>]) -> NodeMemory<'a>
        ensures trees { trees result ≡ [] }
        ensures places { places result ≡ min (length slots.old) (2 ^ 32 - 2) }
    {
        let size = slots.len().min(NAMES);
        NodeMemory {
            interner: Interner::open(&mut slots[..size]),
        }
    }

    // Forgets every node.
    pub fn clear(&mut self)
        ensures trees { trees self.new ≡ [] }
        ensures same { SameMemory self.old self.new }
    {
        self.interner.clear();
    }

    // How many nodes are held.
    pub fn len(&self) -> u32
        ensures { result ≡ length (trees self.now) }
    {
        self.interner.len()
    }

    // How many nodes can be held.
    pub fn capacity(&self) -> u32
        ensures { result ≡ places self.now }
    {
        self.interner.capacity()
    }
}
