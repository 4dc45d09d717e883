//! The groups of a diagram in falling order, from the largest below a limit on.
//! Where no group with the top member is below the limit, each one without it is: so one way down at most leads to nothing.
ghost use Rattle.std.specs.Prelude.{◌≡◌, ◌+◌, ◌/◌, ◌≤◌, ◌++◌, length, take, drop};
ghost use Rattle.families.specs.Trees.{Tree, groups};
ghost use Rattle.diagrams.specs.Building.{Denotes};
ghost use Rattle.diagrams.specs.Listing.{Listed, first_below, group_bytes, page};
ghost use Rattle.diagrams.specs.Memory.{trees};

use super::NodeMemory;
use super::branch::{Branch, Found};
use arrayvec::ArrayVec;
use memos::diagram::{Diagram, View};

// Writes a group from a place of the buffer on, the most significant byte first.
#[tactic(auto, using(crate::proofs::Pages::put_mid_is))]
fn put(buffer: &mut [u8], at: usize, group: u64)
    requires { at + 8 ≤ length buffer.old }
    ensures { buffer.new ≡ take at buffer.old ++ (group_bytes group ++ drop (at + 8) buffer.old) }
{
    buffer[at..at + 8].copy_from_slice(&group.to_be_bytes());
}

impl<'a> NodeMemory<'a> {
    // The largest group of a diagram that is below a limit, or none.
    pub fn first_below(&self, diagram: Diagram, limit: u64) -> Option<u64>
        ensures { (t : Tree) → Denotes (trees self.now) diagram t → result ≡ first_below limit (groups t) }
    {
        if limit == 0 {
            return None;
        }
        match diagram.view() {
            View::None => None,
            View::Always => Some(0),
            View::Node(place) => {
                let (node, weight) = self.weighed(place)?;
                // not by `or_else`: the descent's end is not seen through a closure
                match self.first_below(node.high, limit.saturating_sub(weight)) {
                    Some(group) => Some(weight + group),
                    None => self.first_below(node.low, limit),
                }
            }
        }
    }

    // Writes the groups of a diagram below a limit, falling, as many whole ones as the buffer holds, and tells how many.
    // One walk: a branch whose number is not below the limit is left at once, and the walk where the page is full.
    pub fn list(&self, diagram: Diagram, limit: u64, buffer: &mut [u8]) -> usize
        ensures { (t : Tree) → Denotes (trees self.now) diagram t → Listed (page limit (length buffer.old / 8) (groups t)) buffer.old buffer.new result }
    {
        let room = buffer.len() / 8;
        if room == 0 {
            return 0;
        }
        // counted by hand: with the cells of `chunks_exact_mut` no proof knows what they left in the buffer
        let mut count = 0;
        let mut later = ArrayVec::<Branch, 48>::new();
        later.push(Branch {
            diagram,
            gathered: 0,
        });
        'page: while let Some(mut branch) = later.pop() {
            'descent: while branch.gathered < limit {
                match self.fork(branch, &mut later) {
                    Found::High(high) => branch = high,
                    Found::Nothing => break 'descent,
                    Found::Group => {
                        if count == room {
                            break 'page;
                        }
                        put(buffer, count * 8, branch.gathered);
                        count += 1;
                        break 'descent;
                    }
                }
            }
        }
        count
    }
}
