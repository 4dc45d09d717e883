//! Questions on diagrams, as keys of the interning memory.
//! A question's hash goes over three numbers, its kind and its operands.
ghost use Rattle.std.specs.Prelude.{◌≡◌};
ghost use Rattle.memos.specs.Questions.{question_mark};
ghost use Rattle.std.proofs.Common.{ap, rules};

use crate::diagram::Diagram;
use interning::hashing::{finish, mix};
use interning::key::Key;

// An operation with its operands; `Off` and `On` name a member.
#[derive(Clone, Copy, PartialEq, Eq)]
pub enum Question {
    Either(Diagram, Diagram),
    Both(Diagram, Diagram),
    Less(Diagram, Diagram),
    Turn(Diagram),
    Off(Diagram, u8),
    On(Diagram, u8),
}

impl Key for Question {
    ghost mark = { question_mark };

    ghost sound = { Prim.search rules };

    ghost marked = { λ x y e. let same : x ≡ y = Prim.search rules in ap question_mark same };

    // The definition of the hash fixes the numbers of the kinds; no other code has them.
    fn hash(&self) -> u32 {
        let (kind, left, right) = match *self {
            Question::Either(f, g) => (0, f.code, g.code),
            Question::Both(f, g) => (1, f.code, g.code),
            Question::Less(f, g) => (2, f.code, g.code),
            Question::Turn(f) => (3, f.code, 0),
            Question::Off(f, v) => (4, f.code, u32::from(v)),
            Question::On(f, v) => (5, f.code, u32::from(v)),
        };
        finish(mix(mix(kind, left), right))
    }
}
