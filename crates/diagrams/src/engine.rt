//! A memory of nodes with a memo whose notes are right in it, so that nothing has to be known of a question that is asked.
ghost use Rattle.std.specs.Prelude.{◌≡◌, []};
ghost use Rattle.diagrams.specs.Memory.{trees};
ghost use Rattle.diagrams.specs.Solving.{AllRight, Closed};

use crate::nodes::NodeMemory;
use memos::memo::Memo;

mod calls;

// An operand of a question is no diagram of the memory.
#[derive(Clone, Copy, PartialEq, Eq, Debug)]
pub struct Stranger;

#[derive(Drop)]
pub struct Engine<'a, M: Memo + Drop> {
    nodes: NodeMemory<'a>,
    memo: M,
    // Each note answers its question in this memory, and a memo that keeps every note has those of the questions on the way.
    ghost right: { ∥ AllRight (trees nodes) (M.Memo.notes memo) ∥₁ },
    ghost closed: { ∥ (M.Memo.keeps memo → Closed (trees nodes) (M.Memo.notes memo)) ∥₁ },
}
