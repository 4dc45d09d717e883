ghost use Rattle.std.specs.Prelude.{◌≡◌, [], length, Decides};
ghost use Rattle.memos.specs.Diagrams.{seen};
ghost use Rattle.diagrams.specs.Asking.{OperandsHeld};
ghost use Rattle.diagrams.specs.Building.{Makes, single_made, single_tree};
ghost use Rattle.diagrams.specs.Collecting.{ThrownOut};
ghost use Rattle.diagrams.specs.Engines.{Forgets, Replies};
ghost use Rattle.diagrams.specs.Memory.{SameMemory, places, trees};
ghost use Rattle.diagrams.specs.NodeKeys.{Below};

use super::{Engine, Stranger};
use crate::nodes::{Cell, NodeMemory, TooFewCells};
use crate::solve::{Solved, solve};
use interning::interner::Full;
use memos::diagram::{Diagram, View};
use memos::memo::Memo;
use memos::question::Question;

impl<'a, M: Memo + Drop> Engine<'a, M> {
    // Over a memory, and a memo that is emptied.
    pub fn open(nodes: NodeMemory<'a>, mut memo: M) -> Engine<'a, M>
        ensures nodes { result.nodes ≡ nodes.entry }
        ensures notes { M.Memo.notes result.memo ≡ [] }
    {
        memo.forget();
        Engine { nodes, memo }
    }

    // The memory, to count and list in.
    pub fn nodes(&self) -> &NodeMemory<'a>
        ensures { result.now ≡ self.now.nodes }
    {
        &self.nodes
    }

    // The diagram of a member alone, and of no group where the number is no member.
    pub fn single(&mut self, member: u8) -> Result<Diagram, Full>
        ensures makes { Makes (places self.old.nodes) (trees self.old.nodes) (single_tree member) (single_made member) result (trees self.new.nodes) }
        ensures notes { M.Memo.notes self.new.memo ≡ M.Memo.notes self.old.memo }
        ensures same { SameMemory self.old.nodes self.new.nodes }
    {
        self.nodes.single(member)
    }

    // Works a question out; refused where an operand is no diagram of the memory.
    pub fn ask(&mut self, question: Question) -> Result<Solved, Stranger>
        ensures replies { Replies (M.Memo.keeps self.new.memo) (places self.old.nodes) (trees self.old.nodes) (M.Memo.notes self.old.memo) (trees self.new.nodes) (M.Memo.notes self.new.memo) question result }
        ensures already { M.Memo.keeps self.new.memo → M.Memo.keeps self.old.memo }
        ensures same { SameMemory self.old.nodes self.new.nodes }
    {
        if !self.holds_operands(question) {
            return Err(Stranger);
        }
        Ok(solve(&mut self.nodes, &mut self.memo, question))
    }

    // Throws out what no root reaches and moves the roots, and forgets the notes, which may name what is gone.
    // Refused where fewer cells than nodes are lent.
    pub fn throw_out(
        &mut self,
        roots: &mut [Diagram],
        cells: &mut [Cell],
    ) -> Result<(), TooFewCells>
        ensures thrown_out { ThrownOut (length cells.old) (trees self.old.nodes) roots.old (trees self.new.nodes) roots.new result }
        ensures forgets { Forgets (M.Memo.notes self.old.memo) (M.Memo.notes self.new.memo) result }
        ensures same { SameMemory self.old.nodes self.new.nodes }
    {
        self.nodes.collect(roots, cells)?;
        self.memo.forget();
        Ok(())
    }

    // Whether a diagram is of the memory.
    fn holds(&self, diagram: Diagram) -> bool
        ensures { Decides result (Below (length (trees self.now.nodes)) (seen diagram)) }
    {
        match diagram.view() {
            View::Node(place) => place < self.nodes.len(),
            _ => true,
        }
    }

    // Whether the operands of a question are.
    fn holds_operands(&self, question: Question) -> bool
        ensures { Decides result (OperandsHeld (trees self.now.nodes) question) }
    {
        match question {
            Question::Either(f, g) | Question::Both(f, g) | Question::Less(f, g) => {
                self.holds(f) && self.holds(g)
            }
            Question::Turn(f) | Question::Off(f, _) | Question::On(f, _) => self.holds(f),
        }
    }
}
