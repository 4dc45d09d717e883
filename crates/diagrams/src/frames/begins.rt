//! What an opened question of each kind waits for first: the answer on the low parts.
ghost use Rattle.families.specs.Trees.{Tree};
ghost use Rattle.families.specs.Questions.{Ask, either, both, less, turn, top, low_at, high_at};
ghost use Rattle.families.specs.Scripts.{script, ask, builds};
ghost use Rattle.diagrams.specs.Building.{Denotes};
ghost use Rattle.diagrams.specs.Frames.{AsksAs, Halved, Waits};
ghost use Rattle.diagrams.specs.Memory.{trees};

use super::{BothFrame, Frame, Halves, LessFrame, TurnFrame, Wait};
use crate::nodes::NodeMemory;
use memos::diagram::Diagram;
use memos::question::Question;

// Takes two operands apart at the smaller of their top members.
fn split(nodes: &NodeMemory<'_>, f: Diagram, g: Diagram) -> Halves
    ensures { (s t : Tree) → Denotes (trees nodes.now) f s → Denotes (trees nodes.now) g t → Halved (trees nodes.now) result s t }
{
    let member = nodes.top(f).min(nodes.top(g));
    let f = nodes.parts(f, member);
    let g = nodes.parts(g, member);
    Halves {
        member,
        f0: f.low,
        f1: f.high,
        g0: g.low,
        g1: g.high,
    }
}

// What passes one of two.
#[tactic(auto, using(crate::proofs::Begun::begins_either))]
pub(super) fn begin_either(nodes: &NodeMemory<'_>, f: Diagram, g: Diagram) -> Wait
    ensures { (s t : Tree) → Denotes (trees nodes.now) f s → Denotes (trees nodes.now) g t → Waits (trees nodes.now) result (script (either s t)) }
{
    let halves = split(nodes, f, g);
    Wait {
        frame: Frame::EitherLow {
            member: halves.member,
            f1: halves.f1,
            g1: halves.g1,
        },
        question: Question::Either(halves.f0, halves.g0),
    }
}

// What passes both of two.
#[tactic(auto, using(crate::proofs::Begun::begins_both))]
pub(super) fn begin_both(nodes: &NodeMemory<'_>, f: Diagram, g: Diagram) -> Wait
    ensures { (s t : Tree) → Denotes (trees nodes.now) f s → Denotes (trees nodes.now) g t → Waits (trees nodes.now) result (script (both s t)) }
{
    let halves = split(nodes, f, g);
    Wait {
        frame: Frame::Both(BothFrame::Low { halves }),
        question: Question::Both(halves.f0, halves.g0),
    }
}

// The groups of the first that contain none of the second.
#[tactic(auto, using(crate::proofs::Begun::begins_less))]
pub(super) fn begin_less(nodes: &NodeMemory<'_>, f: Diagram, g: Diagram) -> Wait
    ensures { (s t : Tree) → Denotes (trees nodes.now) f s → Denotes (trees nodes.now) g t → Waits (trees nodes.now) result (script (less s t)) }
{
    let halves = split(nodes, f, g);
    Wait {
        frame: Frame::Less(LessFrame::Low {
            member: halves.member,
            f1: halves.f1,
            g0: halves.g0,
            g1: halves.g1,
        }),
        question: Question::Less(halves.f0, halves.g0),
    }
}

// The smallest groups that stop a family.
#[tactic(auto, using(crate::proofs::Begun::begins_turn))]
pub(super) fn begin_turn(nodes: &NodeMemory<'_>, f: Diagram) -> Wait
    ensures { (t : Tree) → Denotes (trees nodes.now) f t → Waits (trees nodes.now) result (script (turn t)) }
{
    let member = nodes.top(f);
    let f = nodes.parts(f, member);
    Wait {
        frame: Frame::Turn(TurnFrame::Low { member, f1: f.high }),
        question: Question::Turn(f.low),
    }
}

// A question on one diagram that asks the same of its two parts: `of` makes the question of a part.
#[tactic(auto, using(crate::proofs::Begun::begins_parts))]
pub(super) fn begin_parts<F: Fn(Diagram) -> Question>(
    nodes: &NodeMemory<'_>,
    f: Diagram,
    of: F,
) -> Wait
    requires { F.IsAlwaysCallable of }
    ensures { (q : Tree → Ask) → AsksAs (trees nodes.now) (F.post of) q → (t : Tree) → Denotes (trees nodes.now) f t → Waits (trees nodes.now) result (ask (q (low_at (top t) t)) (λ l. ask (q (high_at (top t) t)) (λ h. builds (top t) l h))) }
{
    let member = nodes.top(f);
    let f = nodes.parts(f, member);
    Wait {
        frame: Frame::Low {
            member,
            high: of(f.high),
        },
        question: of(f.low),
    }
}
