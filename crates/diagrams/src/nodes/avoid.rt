//! The first group of a diagram, in falling order, that shares no member with a given group.
//! One pass upward tells of each place whether it has such a group; one descent then finds the first, the high side before the low.
ghost use Rattle.std.specs.Prelude.{◌≡◌, ◌≤◌, true, ◌&&◌, ◌||◌, ◌↔◌, length};
ghost use Rattle.memos.specs.Diagrams.{seen};
ghost use Rattle.families.specs.Groups.{Group, holds, is_member, weight};
ghost use Rattle.families.specs.Sets.{Meet};
ghost use Rattle.families.specs.Trees.{Tree, groups};
ghost use Rattle.diagrams.specs.Avoiding.{Avoided, apart, first_avoiding, has_avoiding};
ghost use Rattle.diagrams.specs.Building.{Denotes};
ghost use Rattle.diagrams.specs.Folding.{Folded};
ghost use Rattle.diagrams.specs.Memory.{trees};

use super::fold::{Fold, value_of};
use super::{NodeMemory, TooFewCells};
use families::masks::{bit, meets};
use memos::diagram::{Diagram, View};

// Whether two groups share no member, whatever bits from 2^48 up are set in the first.
fn avoids(group: u64, other: u64) -> bool
    ensures bits { result ≡ apart group other }
    ensures members { Group other → (result ≡ true) ↔ (Meet (holds group) (holds other) → ⊥) }
{
    !meets(group, other)
}

// Whether a number is a member that a group leaves out.
fn leaves_out(group: u64, member: u8) -> bool
    ensures { result ≡ (is_member member && apart group (weight member)) }
{
    bit(u32::from(member)).is_some_and(|weight| avoids(group, weight))
}

// Whether a tree has a group that shares no member with a given one.
#[derive(Clone, Copy)]
struct Avoiding {
    group: u64,
}

impl Fold for Avoiding {
    type Value = bool;

    ghost value = { λ it t. has_avoiding it.group t };

    fn none(&self) -> bool {
        false
    }

    fn always(&self) -> bool {
        true
    }

    fn node(&self, member: u8, low: bool, high: bool) -> bool {
        low || (leaves_out(self.group, member) && high)
    }
}

impl<'a> NodeMemory<'a> {
    // The first of a diagram's groups, in falling order, that shares no member with a group, or none where each does.
    // Refused where fewer cells than nodes are lent.
    pub fn first_avoiding(
        &self,
        diagram: Diagram,
        group: u64,
        cells: &mut [bool],
    ) -> Result<Option<u64>, TooFewCells>
        ensures { Avoided (length cells.old) (trees self.now) diagram group result }
    {
        let avoiding = Avoiding { group };
        self.fold(&avoiding, cells)?;
        Ok(self.descend(diagram, &avoiding, cells))
    }

    // The first group, with the cells told: on the high side where there is one to find, else on the low side.
    fn descend(&self, diagram: Diagram, avoiding: &Avoiding, cells: &[bool]) -> Option<u64>
        requires { Folded (has_avoiding avoiding.now.group) (trees self.now) (length (trees self.now)) cells.now }
        ensures { (t : Tree) → Denotes (trees self.now) diagram t → result ≡ first_avoiding avoiding.now.group (groups t) }
    {
        match diagram.view() {
            View::None => None,
            View::Always => Some(0),
            View::Node(_) => {
                let node = self.node(diagram)?;
                let weight = bit(u32::from(node.member))?;
                if avoids(avoiding.group, weight) && value_of(avoiding, cells, node.high) {
                    let rest = self.descend(node.high, avoiding, cells)?;
                    return Some(weight + rest);
                }
                self.descend(node.low, avoiding, cells)
            }
        }
    }
}
