//! The solver: works a question out over a memory of nodes and any memo.
//! An open question waits for exactly one further answer; it is resumed with that answer, and then asks on or builds its own.
ghost use Rattle.std.specs.Prelude.{◌≡◌, ℕ, [], ◌∷◌, length, OnOk};
ghost use Rattle.families.specs.Questions.{Ask as Asked};
ghost use Rattle.families.specs.Meanings.{GoodAsk};
ghost use Rattle.diagrams.specs.declared.solve.Step.TheVariants.{Ask as Asking, Answer as Answering};
ghost use Rattle.diagrams.specs.Asking.{Asks, ask_at};
ghost use Rattle.diagrams.specs.Memory.{SameMemory, places, trees};
ghost use Rattle.diagrams.specs.Solving.{AllRight, Closed, CountsOn, Due, Grows, Puttable, Steps, Takes, TalliedOut, WorkedOut, load, told};
ghost use Rattle.diagrams.specs.Stacks.{stacked};

use crate::frames;
use crate::frames::{Frame, Next};
use crate::nodes::NodeMemory;
use arrayvec::ArrayVec;
use interning::interner::Full;
use memos::diagram::Diagram;
use memos::memo::Memo;
use memos::question::Question;

// What came of a question, and how many questions were opened for it.
#[derive(Clone, Copy)]
pub struct Solved {
    pub answer: Result<Diagram, Full>,
    pub opened: u64,
}

// An open question, and how far it has come. Beside `Wait`, whose question is the further one that is waited for.
#[derive(Clone, Copy)]
pub(crate) struct Pending {
    pub(crate) question: Question,
    pub(crate) frame: Frame,
}

// What fills the idle places of the stack. By hand, since a question has no default.
impl Default for Pending {
    fn default() -> Pending {
        Pending {
            question: Question::Turn(Diagram::none()),
            frame: Frame::High {
                member: 0,
                low: Diagram::none(),
            },
        }
    }
}

// What is done next: a question is asked, or an answer is taken to the newest open question.
// An enum and no closure: the open questions lie on a stack of fixed size, and nothing is called back.
#[derive(Clone, Copy)]
enum Step {
    Ask(Question),
    Answer(Diagram),
}

// The work on one question: the memory, the memo, the open questions, and how many were opened.
// What a call leaves of the borrows and of the memo's claim is a clause of each, since it speaks of a value before and after.
#[derive(Drop)]
struct Solver<'n, 'a, 'm, M: Memo> {
    nodes: &'n mut NodeMemory<'a>,
    memo: &'m mut M,
    stack: ArrayVec<Pending, 48>,
    opened: u64,
    ghost right: { ∥ AllRight (trees nodes.now) (M.Memo.notes memo.now) ∥₁ },
    ghost closed: { ∥ (M.Memo.keeps memo.now → Closed (trees nodes.now) (M.Memo.notes memo.now)) ∥₁ },
}

impl<'n, 'a, 'm, M: Memo> Solver<'n, 'a, 'm, M> {
    // Asks a question: it is answered at sight or by a note, or else it is opened.
    fn put(&mut self, question: Question) -> Step
        requires puttable { Puttable (trees self.old.nodes.now) (length (stacked self.old.stack)) question }
        ensures nodes { self.new.nodes ≡ self.old.nodes }
        ensures memo { self.new.memo.ghost_name ≡ self.old.memo.ghost_name }
        ensures notes { M.Memo.notes self.new.memo.now ≡ M.Memo.notes self.old.memo.now }
        ensures counts { CountsOn (M.Memo.keeps self.old.memo.now) (M.Memo.keeps self.new.memo.now) (trees self.old.nodes.now) (M.Memo.notes self.old.memo.now) (trees self.old.nodes.now) (M.Memo.notes self.new.memo.now) (ask_at (trees self.old.nodes.now) question) (stacked self.old.stack) (stacked self.old.stack) (stacked self.new.stack) self.old.opened self.new.opened }
        ensures already { M.Memo.keeps self.new.memo.now → M.Memo.keeps self.old.memo.now }
        ensures steps { Steps (trees self.old.nodes.now) (told (M.Memo.keeps self.old.memo.now) (trees self.old.nodes.now) (M.Memo.notes self.old.memo.now)) (trees self.old.nodes.now) (told (M.Memo.keeps self.new.memo.now) (trees self.old.nodes.now) (M.Memo.notes self.new.memo.now)) (ask_at (trees self.old.nodes.now) question) (stacked self.old.stack) (stacked self.new.stack) (load (stacked self.old.stack) (Asking question)) result }
    {
        if let Some(answer) = frames::sight(self.nodes, question) {
            return Step::Answer(answer);
        }
        if let Some(answer) = self.memo.recall(question) {
            return Step::Answer(answer);
        }
        let wait = frames::begin(self.nodes, question);
        self.stack.push(Pending {
            question,
            frame: wait.frame,
        });
        self.opened = self.opened.saturating_add(1);
        Step::Ask(wait.question)
    }

    // Takes an answer to the open question that waits for it: it asks on, or its own answer is built and noted.
    fn take(&mut self, newest: Pending, answer: Diagram) -> Result<Step, Full>
        requires due { Due (trees self.old.nodes.now) (told (M.Memo.keeps self.old.memo.now) (trees self.old.nodes.now) (M.Memo.notes self.old.memo.now)) (length (stacked self.old.stack)) newest answer }
        ensures nodes { self.new.nodes.ghost_name ≡ self.old.nodes.ghost_name }
        ensures memo { self.new.memo.ghost_name ≡ self.old.memo.ghost_name }
        ensures grows { Grows (trees self.old.nodes.now) (trees self.new.nodes.now) (ask_at (trees self.old.nodes.now) newest.question) }
        ensures counts { OnOk result (CountsOn (M.Memo.keeps self.old.memo.now) (M.Memo.keeps self.new.memo.now) (trees self.old.nodes.now) (M.Memo.notes self.old.memo.now) (trees self.new.nodes.now) (M.Memo.notes self.new.memo.now) (ask_at (trees self.old.nodes.now) newest.question) (stacked self.old.stack) (newest ∷ stacked self.old.stack) (stacked self.new.stack) self.old.opened self.new.opened) }
        ensures already { M.Memo.keeps self.new.memo.now → M.Memo.keeps self.old.memo.now }
        ensures takes { Takes (places self.old.nodes.now) (trees self.old.nodes.now) (told (M.Memo.keeps self.old.memo.now) (trees self.old.nodes.now) (M.Memo.notes self.old.memo.now)) (trees self.new.nodes.now) (told (M.Memo.keeps self.new.memo.now) (trees self.new.nodes.now) (M.Memo.notes self.new.memo.now)) (ask_at (trees self.old.nodes.now) newest.question) (stacked self.old.stack) (stacked self.new.stack) (load (newest ∷ stacked self.old.stack) (Answering answer)) result }
        ensures same { SameMemory self.old.nodes.now self.new.nodes.now }
    {
        let question = newest.question;
        match frames::resume(newest.frame, answer) {
            Next::Wait(wait) => {
                self.stack.push(Pending {
                    question,
                    frame: wait.frame,
                });
                Ok(Step::Ask(wait.question))
            }
            Next::Done(node) => {
                let built = self.nodes.build(node)?;
                self.memo.note(question, built);
                Ok(Step::Answer(built))
            }
        }
    }

    // Works a question out, with no question open before.
    fn run(&mut self, question: Question) -> Result<Diagram, Full>
        requires asks { (q : Asked) × Asks (trees self.old.nodes.now) question q × GoodAsk 1 q }
        requires none_open { stacked self.old.stack ≡ [] }
        requires none_opened { self.old.opened ≡ 0 }
        ensures nodes { self.new.nodes.ghost_name ≡ self.old.nodes.ghost_name }
        ensures memo { self.new.memo.ghost_name ≡ self.old.memo.ghost_name }
        ensures answer { (q : Asked) → Asks (trees self.old.nodes.now) question q → WorkedOut (places self.old.nodes.now) (trees self.old.nodes.now) (trees self.new.nodes.now) q result }
        ensures opened { M.Memo.keeps self.new.memo.now → (q : Asked) → Asks (trees self.old.nodes.now) question q → TalliedOut (trees self.old.nodes.now) (M.Memo.notes self.old.memo.now) (trees self.new.nodes.now) (M.Memo.notes self.new.memo.now) q result self.new.opened }
        ensures already { M.Memo.keeps self.new.memo.now → M.Memo.keeps self.old.memo.now }
        ensures grows { (q : Asked) → Asks (trees self.old.nodes.now) question q → Grows (trees self.old.nodes.now) (trees self.new.nodes.now) q }
        ensures same { SameMemory self.old.nodes.now self.new.nodes.now }
    {
        let mut step = Step::Ask(question);
        loop {
            match step {
                Step::Ask(asked) => step = self.put(asked),
                Step::Answer(answer) => {
                    let Some(newest) = self.stack.pop() else {
                        return Ok(answer);
                    };
                    step = self.take(newest, answer)?;
                }
            }
        }
    }
}

// Works a question out: sight first, then the memo, else it is opened; every answered question that was opened is noted.
pub fn solve<M: Memo>(nodes: &mut NodeMemory<'_>, memo: &mut M, question: Question) -> Solved
    requires notes { AllRight (trees nodes.old) (M.Memo.notes memo.old) }
    requires closed { M.Memo.keeps memo.old → Closed (trees nodes.old) (M.Memo.notes memo.old) }
    requires asks { (q : Asked) × Asks (trees nodes.old) question q × GoodAsk 1 q }
    ensures answer { (q : Asked) → Asks (trees nodes.old) question q → WorkedOut (places nodes.old) (trees nodes.old) (trees nodes.new) q result.answer }
    ensures opened { M.Memo.keeps memo.new → (q : Asked) → Asks (trees nodes.old) question q → TalliedOut (trees nodes.old) (M.Memo.notes memo.old) (trees nodes.new) (M.Memo.notes memo.new) q result.answer result.opened }
    ensures already { M.Memo.keeps memo.new → M.Memo.keeps memo.old }
    ensures closed { M.Memo.keeps memo.new → Closed (trees nodes.new) (M.Memo.notes memo.new) }
    ensures grows { (q : Asked) → Asks (trees nodes.old) question q → Grows (trees nodes.old) (trees nodes.new) q }
    ensures notes { AllRight (trees nodes.new) (M.Memo.notes memo.new) }
    ensures same { SameMemory nodes.old nodes.new }
{
    let mut solver = Solver {
        nodes,
        memo,
        stack: ArrayVec::new(),
        opened: 0,
    };
    let answer = solver.run(question);
    Solved {
        answer,
        opened: solver.opened,
    }
}
