//! What can be called on a bench of sixteen shelves, numbered from 0. Sources and target may be one shelf.

// A call with its arguments; the buffer of `Groups` and `Sheet` is handed over beside it.
#[derive(Clone, Copy)]
pub enum Call<'t> {
    // puts the smallest groups that pass a rule on the target
    Set {
        target: u8,
        text: &'t [u8],
    },
    Copy {
        source: u8,
        target: u8,
    },
    // empties a shelf
    Clear {
        target: u8,
    },
    // puts there what passes on some source
    Either {
        first: u8,
        second: u8,
        target: u8,
    },
    // puts there what passes on both sources
    Both {
        first: u8,
        second: u8,
        target: u8,
    },
    // puts the smallest stopping groups there
    Turn {
        source: u8,
        target: u8,
    },
    // puts there what passes on the source with the member counted in exactly where the other shelf passes
    Replace {
        source: u8,
        member: u8,
        by: u8,
        target: u8,
    },
    // whether two shelves hold one family
    Same {
        first: u8,
        second: u8,
    },
    // the number of groups
    Count {
        source: u8,
    },
    Verdict {
        source: u8,
    },
    // writes the groups with numbers below a bound
    Groups {
        source: u8,
        below: u64,
    },
    // how many questions the last accepted call that works something out has opened
    Tally,
    // writes verdict, counts, and the smallest passing and stopping groups
    Sheet {
        source: u8,
    },
}
