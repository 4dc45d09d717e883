//! The lists whose brackets are open, the innermost last, each with the places of the items read so far.
//! The items of all of them lie in one row, so that a reading begins with one blank row in place of many blank lists.
//! Callers see the open lists alone, innermost first (`levels`).
ghost use Rattle.std.specs.Prelude.{◌≡◌, ◌≤◌, true, reverse, length};
ghost use Rattle.rules.specs.Nests.{laid};

use crate::words::Head;
use arrayvec::ArrayVec;

mod levels;

// At most as many lists are open together.
pub const DEPTH: usize = 16;

// A list has at most as many items.
pub const WIDTH: usize = 64;

// All open lists together have at most as many.
pub const ROW: usize = DEPTH * WIDTH;

// The places of a list's items.
pub type Places = ArrayVec<u32, WIDTH>;

// A list with the places of its items.
#[derive(Drop)]
pub struct OpenList {
    pub head: Head,
    pub places: Places,
}

// A list whose bracket is open: what it asks of its items, and where they begin in the row.
#[derive(Clone, Copy, Default)]
pub struct Opened {
    head: Head,
    first: usize,
}

// The open lists. Each one's items end where those of the next begin, and are no more than a list may have.
#[derive(Drop)]
pub struct Nest {
    lists: ArrayVec<Opened, DEPTH>,
    row: ArrayVec<u32, ROW>,
    ghost few: { length lists.items ≤ 16 },
    ghost parted: { laid (reverse lists.items) (length row.items) ≡ true },
}
