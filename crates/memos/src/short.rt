//! The short memo: 1,024 places of its own, where a new note replaces the old one in its place.
//! A question's hash fixes its place, and the whole question is compared, so that an answer is never another's.
ghost use Rattle.std.specs.Prelude.{◌≡◌, [], length, Some, None, slice_index_or, slice_set};
ghost use Rattle.memos.specs.Short.{entries_notes, place_of, read};
ghost use Rattle.memos.specs.Notes.{Recalled, Noted};

use crate::diagram::Diagram;
use crate::memo::Memo;
use crate::question::Question;
use interning::key::Key;

// A place of the memo: empty, or a question with its answer.
type Entry = Option<(Question, Diagram)>;

// The answer to a question at a place, or none where the place is empty or holds another's.
fn told(entry: Entry, question: Question) -> Option<Diagram>
    ensures { result ≡ read entry question }
{
    match entry {
        Some((held, answer)) if held == question => Some(answer),
        _ => None,
    }
}

#[derive(Drop)]
pub struct ShortMemo {
    entries: [Entry; 1024],
    ghost size: { length entries ≡ 1024 },
}

impl ShortMemo {
    // A memo without notes.
    pub fn new() -> ShortMemo
        ensures { entries_notes result.entries ≡ [] }
    {
        ShortMemo {
            entries: [None; 1024],
        }
    }
}

impl Memo for ShortMemo {
    ghost notes = { λ m. entries_notes m.entries };

    ghost keeps = { λ _. ⊥ };

    fn recall(&mut self, question: Question) -> Option<Diagram>
        ensures recalled { Recalled ⊥ ⊥ (entries_notes self.old.entries) (entries_notes self.new.entries) question result }
        ensures answer { result ≡ read (slice_index_or self.old.entries (place_of question) None) question }
    {
        told(self.entries[question.hash() as usize % 1024], question)
    }

    fn note(&mut self, question: Question, answer: Diagram)
        ensures noted { Noted ⊥ ⊥ (entries_notes self.old.entries) (entries_notes self.new.entries) question answer }
        ensures entries { self.new.entries ≡ slice_set self.old.entries (place_of question) (Some (question, answer)) }
    {
        self.entries[question.hash() as usize % 1024] = Some((question, answer));
    }

    fn forget(&mut self) {
        self.entries = [None; 1024];
    }
}
