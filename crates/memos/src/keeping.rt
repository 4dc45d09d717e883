//! The keeping memo, over lent places: it holds and recalls every note until it is full.
//! Its places are two halves. Notes go into the current one; when that is full the other takes its turn and is emptied first,
//! so that of a full memo the newer half is always left. A question has a note in one half at most.
ghost use Rattle.std.specs.Prelude.{◌+◌, ◌≤◌};
ghost use Rattle.memos.specs.Arranged.{Arranged};
ghost use Rattle.memos.specs.Halves.{half_notes, half_room};

use crate::diagram::Diagram;
use crate::half::Half;
use crate::question::Question;
use interning::slot::Slot;

mod noting;

// The size is not from 1 to 65,536, or too few places are handed over.
#[derive(Clone, Copy, PartialEq, Eq, Debug)]
pub struct SizeDenied;

// As many slots and answers as a memo is to have places. Two slices, since slots with an answer would be no slots of an interner.
#[derive(Drop)]
pub struct Places<'a> {
    slots: &'a mut [Slot<Question>],
    answers: &'a mut [Diagram],
}

// The half that takes new notes. An enum and no index: the halves are two fields, since a note is tried in both at once.
#[derive(Clone, Copy)]
enum Current {
    First,
    Second,
}

#[derive(Drop)]
pub struct KeepingMemo<'a> {
    first: Half<'a>,
    second: Half<'a>,
    current: Current,
    // Nothing noted since the memo was last emptied is lost. A flag of its own: it goes with either half.
    whole: bool,
    // The halves are equal, or the first has one place more.
    ghost larger: { half_room second ≤ half_room first },
    ghost even: { half_room first ≤ half_room second + 1 },
    // No question is in both halves, and while nothing was lost the first is filled before the second is begun.
    ghost arranged: { ∥ Arranged current whole (half_room first) (half_notes first) (half_notes second) ∥₁ },
}
