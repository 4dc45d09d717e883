//! What an accepted call answers.

// What can be said of a family, with the groups that show it.
#[derive(Clone, Copy, PartialEq, Eq)]
pub enum Verdict {
    // all groups meet, and no coterie on the members dominates them
    Nondominated,
    // all groups meet; the first smallest stopping group that contains no passing group
    Dominated(u64),
    // two groups that share no member
    Clash(u64, u64),
}

#[derive(Clone, Copy, PartialEq, Eq)]
pub enum Answer {
    // a shelf was changed as asked
    Done,
    Same(bool),
    Count(u64),
    Verdict(Verdict),
    // how many groups were written
    Groups(usize),
    Tally(u64),
    // how many bytes were written
    Sheet(usize),
}
