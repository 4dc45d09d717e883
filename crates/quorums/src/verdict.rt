//! What can be said of a family.
use crate::family::worked;
use crate::group::Group;
use diagrams::engine::Engine;
use memos::diagram::Diagram;
use memos::memo::Memo;
use memos::question::Question;
use std::fmt;

#[derive(Clone, Copy)]
pub enum Verdict {
    // two groups share no member
    Clash,
    // all groups meet; the first smallest stopping group that contains no passing one
    Dominated(Group),
    // all groups meet, and no coterie on the members dominates them
    Nondominated,
}

impl fmt::Display for Verdict {
    fn fmt<W: fmt::Write>(&self, f: &mut fmt::Formatter<W>) -> fmt::Result {
        match self {
            Verdict::Clash => f.write_str("two groups share no member"),
            Verdict::Dominated(group) => write!(
                f,
                "dominated, since {group} stops and does not pass"
            ),
            Verdict::Nondominated => f.write_str("nondominated"),
        }
    }
}

impl Verdict {
    // The verdict on a family with the groups that stop it, or none where the places don't do.
    pub(crate) fn of<M: Memo + Drop>(
        engine: &mut Engine<'_, M>,
        passing: Diagram,
        stopping: Diagram,
    ) -> Option<Verdict> {
        let apart = worked(engine, Question::Less(passing, stopping))?;
        if apart != Diagram::none() {
            return Some(Verdict::Clash);
        }
        let left = worked(engine, Question::Less(stopping, passing))?;
        match engine.nodes().first_below(left, u64::MAX) {
            Some(group) => Some(Verdict::Dominated(Group(group))),
            None => Some(Verdict::Nondominated),
        }
    }
}
