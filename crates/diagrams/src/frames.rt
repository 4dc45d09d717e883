//! Open questions. A question that is not answered at sight asks further ones, one after the other, and builds its answer from theirs.
//! A frame is an open question between two of these, and holds what it still needs.
ghost use Rattle.std.specs.Prelude.{◌≡◌, List};
ghost use Rattle.families.specs.Trees.{Tree};
ghost use Rattle.families.specs.Questions.{Ask, sight as seeing, opens};
ghost use Rattle.families.specs.Scripts.{Script, script};
ghost use Rattle.diagrams.specs.Asking.{Asks, Seen};
ghost use Rattle.diagrams.specs.Building.{Denotes};
ghost use Rattle.diagrams.specs.Frames.{Awaits, Continues, Fewer, Waits, ahead};
ghost use Rattle.diagrams.specs.Memory.{trees};

use self::begins::{begin_both, begin_either, begin_less, begin_parts, begin_turn};
use self::resumes::{resume_both, resume_less, resume_turn};
use self::sights::{sight_less, sight_order, sight_parts, sight_turn};
use crate::node::Node;
use crate::nodes::NodeMemory;
use memos::diagram::Diagram;
use memos::question::Question;

mod begins;
mod resumes;
mod sights;

// Two operands apart at a member: `f0` and `f1` are the low and the high part of the first, `g0` and `g1` those of the second.
#[derive(Clone, Copy)]
pub struct Halves {
    member: u8,
    f0: Diagram,
    f1: Diagram,
    g0: Diagram,
    g1: Diagram,
}

// An open question by the answer that it waits for, with the parts of its operands and the answers that it still needs.
// A variant's name says the kind of question, or the parts that the answer is on. An enum and no closure, since frames lie on a stack of fixed size.
// Each names its member and answers itself: a struct for the pair would make every place that takes one longer.
#[derive(Clone, Copy)]
pub enum Frame {
    EitherLow {
        member: u8,
        f1: Diagram,
        g1: Diagram,
    },
    Both(BothFrame),
    Less(LessFrame),
    Turn(TurnFrame),
    // the low part, after which `high` is asked on the high part
    Low {
        member: u8,
        high: Question,
    },
    // all groups with the member, from which those are to go that contain a group of low
    Highs {
        member: u8,
        low: Diagram,
    },
    // the last answer, the high part
    High {
        member: u8,
        low: Diagram,
    },
}

// What passes both of two: `first` is what came of the high part of the first operand.
#[derive(Clone, Copy)]
pub enum BothFrame {
    Low {
        halves: Halves,
    },
    HighHigh {
        halves: Halves,
        low: Diagram,
    },
    HighLow {
        halves: Halves,
        low: Diagram,
        first: Diagram,
    },
    // what is in one of the two answers on the high part of the first operand
    Join {
        halves: Halves,
        low: Diagram,
    },
    LowHigh {
        member: u8,
        low: Diagram,
        first: Diagram,
    },
}

// The groups of one family that contain none of another.
#[derive(Clone, Copy)]
pub enum LessFrame {
    Low {
        member: u8,
        f1: Diagram,
        g0: Diagram,
        g1: Diagram,
    },
    High {
        member: u8,
        low: Diagram,
        g0: Diagram,
    },
}

// The smallest groups that stop a family: `turned` is the answer on its low part.
#[derive(Clone, Copy)]
pub enum TurnFrame {
    Low { member: u8, f1: Diagram },
    High { member: u8, turned: Diagram },
    Both { member: u8, turned: Diagram },
}

// An open question, and the further question that it waits for.
#[derive(Clone, Copy)]
pub struct Wait {
    pub frame: Frame,
    pub question: Question,
}

// What an open question does with an answer.
#[derive(Clone, Copy)]
pub enum Next {
    Wait(Wait),
    // its answer is to be built over this node
    Done(Node),
}

// The answer to a question at sight, or none where it has to be opened.
pub(crate) fn sight(nodes: &NodeMemory<'_>, question: Question) -> Option<Diagram>
    ensures { (q : Ask) → Asks (trees nodes.now) question q → Seen (trees nodes.now) result (seeing q) }
{
    match question {
        Question::Either(f, g) => sight_order(nodes, f, g).map(|(_, more)| more),
        Question::Both(f, g) => sight_order(nodes, f, g).map(|(less, _)| less),
        Question::Less(f, g) => sight_less(nodes, f, g),
        Question::Turn(f) => sight_turn(nodes, f),
        Question::Off(f, away) => sight_parts(nodes, f, away).map(|parts| parts.low),
        Question::On(f, away) => sight_parts(nodes, f, away).map(|parts| parts.high),
    }
}

// Opens a question: what it waits for first.
pub(crate) fn begin(nodes: &NodeMemory<'_>, question: Question) -> Wait
    ensures { (q : Ask) → Asks (trees nodes.now) question q → seeing q ≡ opens → Waits (trees nodes.now) result (script q) }
{
    match question {
        Question::Either(f, g) => begin_either(nodes, f, g),
        Question::Both(f, g) => begin_both(nodes, f, g),
        Question::Less(f, g) => begin_less(nodes, f, g),
        Question::Turn(f) => begin_turn(nodes, f),
        Question::Off(f, away) => begin_parts(nodes, f, |part| Question::Off(part, away)),
        Question::On(f, away) => begin_parts(nodes, f, |part| Question::On(part, away)),
    }
}

// Goes on with an answer.
pub(crate) fn resume(frame: Frame, answer: Diagram) -> Next
    ensures continues { (ts : List Tree) (k : Tree → Script) (t : Tree) → Awaits ts frame k → Denotes ts answer t → Continues ts result (k t) }
    ensures fewer { Fewer result (ahead frame) }
{
    match frame {
        Frame::EitherLow { member, f1, g1 } => Next::Wait(Wait {
            frame: Frame::Highs {
                member,
                low: answer,
            },
            question: Question::Either(f1, g1),
        }),
        Frame::Both(both) => resume_both(both, answer),
        Frame::Less(less) => resume_less(less, answer),
        Frame::Turn(turn) => resume_turn(turn, answer),
        Frame::Low { member, high } => Next::Wait(Wait {
            frame: Frame::High {
                member,
                low: answer,
            },
            question: high,
        }),
        Frame::Highs { member, low } => Next::Wait(Wait {
            frame: Frame::High { member, low },
            question: Question::Less(answer, low),
        }),
        Frame::High { member, low } => Next::Done(Node {
            member,
            low,
            high: answer,
        }),
    }
}
