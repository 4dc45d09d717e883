//! How the kinds with several stages go on with an answer.
ghost use Rattle.std.specs.Prelude.{List};
ghost use Rattle.families.specs.Trees.{Tree};
ghost use Rattle.families.specs.Scripts.{Script};
ghost use Rattle.diagrams.specs.declared.frames.Frame.TheVariants.{Both as InBoth, Less as InLess, Turn as InTurn};
ghost use Rattle.diagrams.specs.Building.{Denotes};
ghost use Rattle.diagrams.specs.Frames.{Awaits, Continues, Fewer, ahead};

use super::{BothFrame, Frame, LessFrame, Next, TurnFrame, Wait};
use memos::diagram::Diagram;
use memos::question::Question;

// With the low parts answered, what the three other pairs of parts come to is joined to the groups with the member.
pub(super) fn resume_both(frame: BothFrame, answer: Diagram) -> Next
    ensures continues { (ts : List Tree) (k : Tree → Script) (t : Tree) → Awaits ts (InBoth frame) k → Denotes ts answer t → Continues ts result (k t) }
    ensures fewer { Fewer result (ahead (InBoth frame)) }
{
    match frame {
        BothFrame::Low { halves } => Next::Wait(Wait {
            frame: Frame::Both(BothFrame::HighHigh {
                halves,
                low: answer,
            }),
            question: Question::Both(halves.f1, halves.g1),
        }),
        BothFrame::HighHigh { halves, low } => Next::Wait(Wait {
            frame: Frame::Both(BothFrame::HighLow {
                halves,
                low,
                first: answer,
            }),
            question: Question::Both(halves.f1, halves.g0),
        }),
        BothFrame::HighLow { halves, low, first } => Next::Wait(Wait {
            frame: Frame::Both(BothFrame::Join { halves, low }),
            question: Question::Either(first, answer),
        }),
        BothFrame::Join { halves, low } => Next::Wait(Wait {
            frame: Frame::Both(BothFrame::LowHigh {
                member: halves.member,
                low,
                first: answer,
            }),
            question: Question::Both(halves.f0, halves.g1),
        }),
        BothFrame::LowHigh { member, low, first } => Next::Wait(Wait {
            frame: Frame::Highs { member, low },
            question: Question::Either(first, answer),
        }),
    }
}

// The high part loses what contains a group of the other high part, and then what contains one of the other low part.
pub(super) fn resume_less(frame: LessFrame, answer: Diagram) -> Next
    ensures continues { (ts : List Tree) (k : Tree → Script) (t : Tree) → Awaits ts (InLess frame) k → Denotes ts answer t → Continues ts result (k t) }
    ensures fewer { Fewer result (ahead (InLess frame)) }
{
    match frame {
        LessFrame::Low { member, f1, g0, g1 } => Next::Wait(Wait {
            frame: Frame::Less(LessFrame::High {
                member,
                low: answer,
                g0,
            }),
            question: Question::Less(f1, g1),
        }),
        LessFrame::High { member, low, g0 } => Next::Wait(Wait {
            frame: Frame::High { member, low },
            question: Question::Less(answer, g0),
        }),
    }
}

// Low is what stops both parts, and high what stops the low part and contains no group of low.
pub(super) fn resume_turn(frame: TurnFrame, answer: Diagram) -> Next
    ensures continues { (ts : List Tree) (k : Tree → Script) (t : Tree) → Awaits ts (InTurn frame) k → Denotes ts answer t → Continues ts result (k t) }
    ensures fewer { Fewer result (ahead (InTurn frame)) }
{
    match frame {
        TurnFrame::Low { member, f1 } => Next::Wait(Wait {
            frame: Frame::Turn(TurnFrame::High {
                member,
                turned: answer,
            }),
            question: Question::Turn(f1),
        }),
        TurnFrame::High { member, turned } => Next::Wait(Wait {
            frame: Frame::Turn(TurnFrame::Both { member, turned }),
            question: Question::Both(turned, answer),
        }),
        TurnFrame::Both { member, turned } => Next::Wait(Wait {
            frame: Frame::High {
                member,
                low: answer,
            },
            question: Question::Less(turned, answer),
        }),
    }
}
