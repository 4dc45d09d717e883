//! The terms that a list expands to, made in the memory from the places of its items.
//! `least k` comes from a table with a row for the items from one on and a cell for each count.
//! What a call makes is said of the terms that stand at its places, whichever they are: a place alone means none.
//! A cell is made only where `least k` passes through it, so nothing but terms in the result is put in.
ghost use Rattle.std.specs.Prelude.{◌≡◌, suc, ◌+◌, ◌*◌, ◌/◌, ◌%◌, ◌<◌, ◌≤◌, true, List, ◌∷◌, length, take, drop};
ghost use Rattle.rules.specs.Building.{AllAt, Makes};
ghost use Rattle.rules.specs.Expanding.{Beside, Ready, Filled, parts};
ghost use Rattle.rules.specs.Memory.{view};
ghost use Rattle.rules.specs.Reading.{fits};
ghost use Rattle.rules.specs.Spelling.{Figure};
ghost use Rattle.rules.specs.Terms.{Term, least_of, grid_of, expand_list};

use crate::nest::Places;
use crate::terms::{TermKey, TermMemory};
use crate::words::Head;

impl<'a> TermMemory<'a> {
    // The place of `least j` of an item and those after it, `left` together, of which `least j - 1` and `least j` are given.
    fn cell(&mut self, item: u32, left: usize, j: usize, fewer: u32, level: u32) -> u32
        requires { (1 ≤ j) × (j ≤ left) }
        ensures { (e : Term) (es : List Term) → left ≡ suc (length es) → Beside (view self.old) j item fewer level e es → Makes (view self.old) (view self.new) result (least_of j (e ∷ es)) }
    {
        if left == 1 {
            item
        } else if j == left {
            self.put(TermKey::Both(item, fewer))
        } else if j == 1 {
            self.put(TermKey::Either(item, level))
        } else {
            let with = self.put(TermKey::Both(item, fewer));
            self.put(TermKey::Either(with, level))
        }
    }

    // Makes the cells of one row from those of the row after it, in place and from the last to the first.
    fn cells(&mut self, item: u32, left: usize, fewest: usize, most: usize, row: &mut [u32])
        requires { (1 ≤ fewest) × (most ≤ left) × (most < length row.old) }
        ensures { (e : Term) (es us : List Term) → left ≡ suc (length es) → Ready (view self.old) row.old item fewest most e es us → Filled (view self.old) (view self.new) row.new fewest most (e ∷ es) us }
    {
        // Each cell is written over from itself and the one before it, which no iterator over the row lends together.
        for j in (fewest..most + 1).rev() {
            row[j] = self.cell(item, left, j, row[j - 1], row[j]);
        }
    }

    // The place of `least k` of the items, row by row from the last item to the first: a row holds `least j` of the items from i on for each j that is still wanted.
    pub(crate) fn least(&mut self, items: &[u32], k: usize) -> u32
        requires { (1 ≤ k) × (k ≤ length items.now) × (k ≤ 64) }
        ensures { (es : List Term) → AllAt (view self.old) items.now es → Makes (view self.old) (view self.new) result (least_of k es) }
    {
        let mut row = [0u32; 65];
        for (i, item) in items.iter().enumerate().rev() {
            let left = items.len() - i;
            let fewest = k.saturating_sub(i).max(1);
            self.cells(*item, left, fewest, k.min(left), &mut row);
        }
        row[k]
    }

    // The place of `least outer` of the rows of w items, each row being `least inner` of its items.
    fn least_of_rows(&mut self, items: &Places, w: usize, inner: usize, outer: usize) -> u32
        requires laid_out { (1 ≤ w) × (length items.now.items % w ≡ 0) }
        requires counts { (1 ≤ inner) × (inner ≤ w) × (1 ≤ outer) × (outer ≤ length items.now.items / w) }
        ensures { (es : List Term) → AllAt (view self.old) items.now.items es → Makes (view self.old) (view self.new) result (least_of outer (parts w inner es)) }
    {
        let mut places = Places::new();
        for row in items.chunks_exact(w) {
            places.push(self.least(row, inner));
        }
        self.least(&places, outer)
    }

    // The place of the grid of the items in rows of w: some row whole, and some item of every row.
    fn grid(&mut self, items: &Places, w: usize) -> u32
        requires { (1 ≤ length items.now.items) × (1 ≤ w) × (length items.now.items % w ≡ 0) }
        ensures { (es : List Term) → AllAt (view self.old) items.now.items es → Makes (view self.old) (view self.new) result (grid_of w es) }
    {
        let some = self.least_of_rows(items, w, w, 1);
        let each = self.least_of_rows(items, w, 1, items.len() / w);
        self.put(TermKey::Both(some, each))
    }

    // The place of what a list expands to.
    pub(crate) fn expand(&mut self, head: Head, items: &Places) -> u32
        requires { (1 ≤ length items.now.items) × Figure head × (fits head (length items.now.items) ≡ true) }
        ensures { (es : List Term) → AllAt (view self.old) items.now.items es → Makes (view self.old) (view self.new) result (expand_list head es) }
    {
        match head {
            Head::All => self.least(items, items.len()),
            Head::Any => self.least(items, 1),
            Head::Least(k) => self.least(items, usize::from(k)),
            Head::Grid(w) => self.grid(items, usize::from(w)),
        }
    }
}
