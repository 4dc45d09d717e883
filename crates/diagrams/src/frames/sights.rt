//! What is seen of a question of each kind, by what its operands are.
//! Two operands stay two parameters, here and where a question is begun: each kind does another thing with them.
ghost use Rattle.std.specs.Option.{option_map};
ghost use Rattle.families.specs.Trees.{Tree};
ghost use Rattle.families.specs.Questions.{sight as seeing, either, both, less, turn, off, on};
ghost use Rattle.diagrams.specs.Asking.{Seen};
ghost use Rattle.diagrams.specs.Building.{Denotes};
ghost use Rattle.diagrams.specs.Memory.{trees};

use crate::nodes::{NodeMemory, Parts};
use memos::diagram::{Diagram, View};

// Two diagrams, the one that passes less first, where it is seen: the first is what passes both, the second what passes one of them.
#[tactic(auto, using(crate::proofs::Sighted::sees_order))]
pub(super) fn sight_order(
    nodes: &NodeMemory<'_>,
    f: Diagram,
    g: Diagram,
) -> Option<(Diagram, Diagram)>
    ensures less { (s t : Tree) → Denotes (trees nodes.now) f s → Denotes (trees nodes.now) g t → Seen (trees nodes.now) (option_map (λ p. p.0) result) (seeing (both s t)) }
    ensures more { (s t : Tree) → Denotes (trees nodes.now) f s → Denotes (trees nodes.now) g t → Seen (trees nodes.now) (option_map (λ p. p.1) result) (seeing (either s t)) }
{
    match (f.view(), g.view()) {
        (View::None, _) | (_, View::Always) => Some((f, g)),
        (_, View::None) | (View::Always, _) => Some((g, f)),
        _ if nodes.same(f, g) => Some((f, f)),
        _ => None,
    }
}

// The groups of the first that contain none of the second.
#[tactic(auto, using(crate::proofs::Sighted::sees_less))]
pub(super) fn sight_less(nodes: &NodeMemory<'_>, f: Diagram, g: Diagram) -> Option<Diagram>
    ensures { (s t : Tree) → Denotes (trees nodes.now) f s → Denotes (trees nodes.now) g t → Seen (trees nodes.now) result (seeing (less s t)) }
{
    match (f.view(), g.view()) {
        (View::None, _) | (_, View::None) => Some(f),
        (_, View::Always) => Some(Diagram::none()),
        (View::Always, _) => Some(f),
        _ if nodes.same(f, g) => Some(Diagram::none()),
        _ => None,
    }
}

// The smallest groups that meet every group.
#[tactic(auto, using(crate::proofs::Sighted::sees_turn))]
pub(super) fn sight_turn(nodes: &NodeMemory<'_>, f: Diagram) -> Option<Diagram>
    ensures { (t : Tree) → Denotes (trees nodes.now) f t → Seen (trees nodes.now) result (seeing (turn t)) }
{
    match f.view() {
        View::None => Some(Diagram::always()),
        View::Always => Some(Diagram::none()),
        View::Node(_) => None,
    }
}

// The low and the high part at a member, where they are seen: the groups without it, and those with it, it taken out.
pub(super) fn sight_parts(nodes: &NodeMemory<'_>, f: Diagram, away: u8) -> Option<Parts>
    ensures low { (t : Tree) → Denotes (trees nodes.now) f t → Seen (trees nodes.now) (option_map (λ p. p.low) result) (seeing (off t away)) }
    ensures high { (t : Tree) → Denotes (trees nodes.now) f t → Seen (trees nodes.now) (option_map (λ p. p.high) result) (seeing (on t away)) }
{
    match nodes.node(f) {
        Some(node) if node.member < away => None,
        _ => Some(nodes.parts(f, away)),
    }
}
