//! The branches of a diagram that are still to be walked, each with the members gathered on the way to it.
//! At a node the high side comes first and the low side is put off: so the groups come in falling order.
ghost use Rattle.std.specs.Prelude.{◌≡◌, ◌≤◌, length, MatchOption};
ghost use Rattle.interning.specs.Model.{held};
ghost use Rattle.interning.specs.Places.{Stands};
ghost use Rattle.families.specs.Groups.{weight};
ghost use Rattle.diagrams.specs.Memory.{trees};
ghost use Rattle.diagrams.specs.Stacks.{stacked};
ghost use Rattle.diagrams.specs.Walking.{BranchFits, Comes};

use super::NodeMemory;
use crate::node::Node;
use arrayvec::ArrayVec;
use families::masks::bit;
use memos::diagram::{Diagram, View};

// A diagram, and the number of the members gathered on the way to it.
#[derive(Clone, Copy)]
pub(super) struct Branch {
    pub(super) diagram: Diagram,
    pub(super) gathered: u64,
}

// What fills idle places. By hand: by a derive, none would be the default of every diagram.
impl Default for Branch {
    fn default() -> Branch {
        Branch {
            diagram: Diagram::none(),
            gathered: 0,
        }
    }
}

// What a branch comes to: no group, the one that is gathered, or the high side of a node.
#[derive(Clone, Copy)]
pub(super) enum Found {
    Nothing,
    Group,
    High(Branch),
}

impl<'a> NodeMemory<'a> {
    // The node at a place with the number of its member, or none past the last place.
    pub(super) fn weighed(&self, place: u32) -> Option<(Node, u64)>
        ensures { MatchOption result (length (trees self.now) ≤ place) (λ r. Stands (held self.now.interner) r.0 place × (r.1 ≡ weight r.0.member)) }
    {
        let node = self.interner.key_at(place)?;
        let weight = bit(u32::from(node.member))?;
        Some((node, weight))
    }

    // Looks at a branch. The low side of a node is put off.
    pub(super) fn fork(&self, branch: Branch, later: &mut ArrayVec<Branch, 48>) -> Found
        requires { BranchFits (trees self.now) (length (stacked later.old)) branch }
        ensures { Comes (trees self.now) branch (stacked later.old) (stacked later.new) result }
    {
        match branch.diagram.view() {
            View::None => Found::Nothing,
            View::Always => Found::Group,
            View::Node(place) => {
                let Some((node, weight)) = self.weighed(place) else {
                    return Found::Nothing;
                };
                later.push(Branch {
                    diagram: node.low,
                    gathered: branch.gathered,
                });
                Found::High(Branch {
                    diagram: node.high,
                    gathered: branch.gathered + weight,
                })
            }
        }
    }
}
