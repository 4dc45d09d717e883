//! A half of the keeping memo: an interner of questions, and the answer to each at its place.
//! Questions are pairwise different, so a question has one answer.
//! The answers lie beside the interner's slots: slots that held them would have every kind of key carry a value, and nodes and terms have none.
ghost use Rattle.std.specs.Prelude.{◌≡◌, ◌≤◌, [], length, Decides};
ghost use Rattle.interning.specs.Chain.{room};
ghost use Rattle.interning.specs.Model.{capacity};

use crate::diagram::Diagram;
use crate::question::Question;
use interning::interner::{Full, Interner};
use interning::slot::Slot;

// That a call leaves the room as it was is a clause of each, since it speaks of two halves, before and after.
#[derive(Drop)]
pub(crate) struct Half<'a> {
    interner: Interner<'a, Question>,
    answers: &'a mut [Diagram],
    // Each place that the interner can give has one for an answer.
    ghost roomy: { capacity interner ≤ length answers.now },
}

impl<'a> Half<'a> {
    ghost use Rattle.memos.specs.Halves.{half_notes, half_room, Alone, Put};
    ghost use Rattle.memos.specs.Notes.{Told};
    ghost use Rattle.memos.specs.Noting.{asked, answered};

    // An empty half over as many places as there are slots.
    pub(crate) fn open(slots: &'a mut [Slot<Question>], answers: &'a mut [Diagram]) -> Half<'a>
        requires { length slots.old ≤ length answers.old }
        ensures notes { half_notes result ≡ [] }
        ensures room { half_room result ≡ room (length slots.old) }
    {
        Half {
            interner: Interner::open(slots),
            answers,
        }
    }

    // How many notes can be held.
    pub(crate) fn capacity(&self) -> u32
        ensures { result ≡ half_room self.now }
    {
        self.interner.capacity()
    }

    // Whether there is no note.
    pub(crate) fn is_empty(&self) -> bool
        ensures { Decides result (half_notes self.now ≡ []) }
    {
        self.interner.len() == 0
    }

    // The answer to a question, or none where no note is for it.
    pub(crate) fn recall(&self, question: Question) -> Option<Diagram>
        ensures { Told (Unit {0}) (half_notes self.now) question result }
    {
        if self.is_empty() {
            return None;
        }
        let place = self.interner.find(question)?;
        Some(self.answers[place as usize])
    }

    // Changes the answer to a question, where there is one, and says whether there is.
    pub(crate) fn replace(&mut self, question: Question, answer: Diagram) -> bool
        ensures asked { result ≡ asked question (half_notes self.old) }
        ensures notes { half_notes self.new ≡ answered question answer (half_notes self.old) }
        ensures room { half_room self.new ≡ half_room self.old }
    {
        if self.is_empty() {
            return false;
        }
        let Some(place) = self.interner.find(question) else {
            return false;
        };
        self.answers[place as usize] = answer;
        true
    }

    // Notes the answer to a question, unless there is no place for it.
    pub(crate) fn put(&mut self, question: Question, answer: Diagram) -> Result<(), Full>
        ensures put { Put (half_room self.old) (half_notes self.old) question answer result (half_notes self.new) }
        ensures room { half_room self.new ≡ half_room self.old }
    {
        let place = self.interner.intern(question)?;
        self.answers[place as usize] = answer;
        Ok(())
    }

    // Forgets every note.
    pub(crate) fn clear(&mut self)
        ensures notes { half_notes self.new ≡ [] }
        ensures room { half_room self.new ≡ half_room self.old }
    {
        self.interner.clear();
    }

    // Forgets every note but a new one, for which there is a place unless there is none at all.
    pub(crate) fn restart(&mut self, question: Question, answer: Diagram)
        ensures notes { Alone (half_room self.old) question answer (half_notes self.new) }
        ensures room { half_room self.new ≡ half_room self.old }
    {
        self.clear();
        let _ = self.put(question, answer);
    }
}
