//! What a memo is to its callers: it may forget, but it never tells a wrong answer.
//! Its meaning is the list of the notes that it holds now; it may claim besides that it has kept every note since it was emptied.
ghost use Rattle.std.specs.Prelude.{◌≡◌, List, []};
ghost use Rattle.memos.specs.declared.diagram.Diagram.{Diagram};
ghost use Rattle.memos.specs.declared.question.Question.{Question};
ghost use Rattle.memos.specs.Notes.{Recalled, Noted};

use crate::diagram::Diagram;
use crate::question::Question;

pub trait Memo {
    // The notes held now, each a question with its answer.
    ghost notes: { Self → List (Question × Diagram) };

    // Everything noted since the memo was last emptied is still held.
    ghost keeps: { Self → Type 0 };

    // The answer that is noted for a question, or none. The notes stay.
    fn recall(&mut self, question: Question) -> Option<Diagram>
        ensures recalled { Recalled (keeps self.old) (keeps self.new) (notes self.old) (notes self.new) question result };

    // Notes the answer to a question; other notes may be lost for it.
    // Two parameters, as key and value at a map's `insert`: whatever takes both puts them to different uses.
    fn note(&mut self, question: Question, answer: Diagram)
        ensures noted { Noted (keeps self.old) (keeps self.new) (notes self.old) (notes self.new) question answer };

    // Forgets every note.
    fn forget(&mut self)
        ensures emptied { notes self.new ≡ [] };
}
