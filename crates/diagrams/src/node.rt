//! Nodes as keys of the interning memory: a node names its parts by their diagrams, whose places stand before it.
ghost use Rattle.std.specs.Prelude.{◌≡◌};
ghost use Rattle.std.proofs.Common.{ap, rules};
ghost use Rattle.memos.specs.Diagrams.{seen};
ghost use Rattle.diagrams.specs.NodeKeys.{node_mark, word};

use interning::hashing::{finish, mix};
use interning::key::Key;
use memos::diagram::{Diagram, View};

// A member, the diagram of the groups without it, and that of the groups with it.
#[derive(Clone, Copy, PartialEq, Eq)]
pub struct Node {
    pub member: u8,
    pub low: Diagram,
    pub high: Diagram,
}

// A diagram's name as a word of a hash. By its view, since a diagram gives its number to nobody.
fn word_of(diagram: Diagram) -> u32
    ensures { result ≡ word (seen diagram) }
{
    match diagram.view() {
        View::None => 0,
        View::Always => 1,
        View::Node(place) => place.wrapping_add(2),
    }
}

impl Key for Node {
    ghost mark = { node_mark };

    ghost sound = { Prim.search rules };

    ghost marked = { λ x y e. let same : x ≡ y = Prim.search rules in ap node_mark same };

    fn hash(&self) -> u32 {
        finish(mix(
            mix(u32::from(self.member), word_of(self.low)),
            word_of(self.high),
        ))
    }
}
