//! The calls of the keeping memo. A note is tried in the halves as they are; where it finds no place, a half takes its turn.
//! Nothing is lost by that as long as the second half is still empty, and otherwise the half in use is spared.
ghost use Rattle.std.specs.Prelude.{◌≡◌, true, [], length};
ghost use Rattle.memos.specs.Arranged.{Follows};
ghost use Rattle.memos.specs.Halves.{half_notes, half_room, Shared};
ghost use Rattle.memos.specs.Keeping.{memo_notes, memo_room, recent, lent_room, Fresh, Lent, Holding, Stuck, Taken, Tried};
ghost use Rattle.memos.specs.Notes.{Noted, Recalled, Told};

use super::{Current, KeepingMemo, Places, SizeDenied};
use crate::diagram::Diagram;
use crate::half::Half;
use crate::memo::Memo;
use crate::question::Question;
use interning::interner::Full;
use interning::slot::Slot;

impl<'a> Places<'a> {
    // The first `size` slots and answers, unless the size is not allowed or there are fewer.
    pub fn lend(
        slots: &'a mut [Slot<Question>],
        answers: &'a mut [Diagram],
        size: usize,
    ) -> Result<Places<'a>, SizeDenied>
        ensures { Lent (length slots.old) (length answers.old) size result }
    {
        if size < 1 || size > 65_536 || slots.len() < size || answers.len() < size {
            return Err(SizeDenied);
        }
        Ok(Places {
            slots: &mut slots[..size],
            answers: &mut answers[..size],
        })
    }
}

impl<'a> KeepingMemo<'a> {
    // An empty memo over the places.
    pub fn open(places: Places<'a>) -> KeepingMemo<'a>
        ensures { Fresh (lent_room places.entry) result }
    {
        let Places { slots, answers } = places;
        let size = slots.len().min(answers.len());
        let second = size / 2;
        let first = size - second;
        let (first_slots, rest) = slots.split_at_mut(first);
        let (second_slots, _) = rest.split_at_mut(second);
        let (first_answers, second_answers) = answers.split_at_mut(first);
        KeepingMemo {
            first: Half::open(first_slots, first_answers),
            second: Half::open(second_slots, second_answers),
            current: Current::First,
            whole: true,
        }
    }

    // The half that takes its turn when the current one is full.
    fn next(&self) -> Current
        ensures { Follows self.now.current (half_room self.now.second) result }
    {
        match self.current {
            Current::First if self.second.capacity() > 0 => Current::Second,
            _ => Current::First,
        }
    }

    // Holds a note without emptying a half, unless it finds no place.
    fn hold(&mut self, question: Question, answer: Diagram) -> Result<(), Full>
        ensures { Tried self.old question answer result self.new }
    {
        match self.current {
            Current::First => hold_in(&mut self.first, &mut self.second, question, answer),
            Current::Second => hold_in(&mut self.second, &mut self.first, question, answer),
        }
    }

    // Empties the half whose turn it is for a note. The first one is full by then; by emptying the second nothing is lost if it was empty.
    fn turn(&mut self, question: Question, answer: Diagram)
        requires { Stuck self.old question }
        ensures { Taken self.old self.new question answer }
    {
        match self.next() {
            Current::First => {
                self.first.restart(question, answer);
                self.whole = false;
                self.current = Current::First;
            }
            Current::Second => {
                self.whole &= self.second.is_empty();
                self.second.restart(question, answer);
                self.current = Current::Second;
            }
        }
    }
}

// Holds a note: in the other half where that has its question, else in the current one, unless it finds no place.
fn hold_in(
    current: &mut Half,
    other: &mut Half,
    question: Question,
    answer: Diagram,
) -> Result<(), Full>
    ensures shared { Shared (half_room current.old) (half_notes current.old) (half_notes other.old) question answer result (half_notes current.new) (half_notes other.new) }
    ensures room { half_room current.new ≡ half_room current.old }
    ensures room_other { half_room other.new ≡ half_room other.old }
{
    if other.replace(question, answer) {
        return Ok(());
    }
    current.put(question, answer)
}

impl Memo for KeepingMemo<'_> {
    ghost notes = { memo_notes };

    ghost keeps = { λ m. m.whole ≡ true };

    fn recall(&mut self, question: Question) -> Option<Diagram>
        ensures recalled { Recalled (self.old.whole ≡ true) (self.new.whole ≡ true) (memo_notes self.old) (memo_notes self.new) question result }
        ensures told { Told (Unit {0}) (memo_notes self.old) question result }
    {
        // Not by `or_else`: what its closure recalls is known only by a clause on the closure, which is longer.
        match self.first.recall(question) {
            Some(answer) => Some(answer),
            None => self.second.recall(question),
        }
    }

    fn note(&mut self, question: Question, answer: Diagram)
        ensures noted { Noted (self.old.whole ≡ true) (self.new.whole ≡ true) (memo_notes self.old) (memo_notes self.new) question answer }
        ensures holding { Holding self.old.whole self.new.whole (memo_room self.old) (recent self.old) (memo_notes self.old) (memo_notes self.new) question answer }
        ensures room { memo_room self.new ≡ memo_room self.old }
    {
        if self.hold(question, answer).is_err() {
            self.turn(question, answer);
        }
    }

    fn forget(&mut self)
        ensures emptied { memo_notes self.new ≡ [] }
        ensures fresh { Fresh (memo_room self.old) self.new }
    {
        self.first.clear();
        self.second.clear();
        self.current = Current::First;
        self.whole = true;
    }
}
