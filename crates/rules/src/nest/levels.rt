ghost use Rattle.std.specs.Prelude.{◌≡◌, ◌<◌, ◌++◌, false, [], ◌∷◌, length, IfNone};
ghost use Rattle.std.specs.Option.{option_to_list};
ghost use Rattle.rules.specs.Levels.{levels, added, crowded};

use super::{DEPTH, Nest, OpenList, Opened, Places, WIDTH};
use crate::words::Head;
use arrayvec::ArrayVec;

impl Nest {
    // No list is open.
    pub(crate) fn new() -> Nest
        ensures { levels result ≡ [] }
    {
        Nest {
            lists: ArrayVec::new(),
            row: ArrayVec::new(),
        }
    }

    // How many lists are open.
    pub(crate) fn depth(&self) -> usize
        ensures { result ≡ length (levels self.now) }
    {
        self.lists.len()
    }

    // Opens a list within the innermost one.
    pub(crate) fn open(&mut self, head: Head)
        requires { length (levels self.old) < 16 }
        ensures { levels self.new ≡ record { head = head; places = record { items = [] } } ∷ levels self.old }
    {
        let first = self.row.len();
        self.lists.push(Opened { head, first });
    }

    // Takes the innermost list out.
    pub(crate) fn close(&mut self) -> Option<OpenList>
        ensures taken { levels self.old ≡ option_to_list result ++ levels self.new }
        ensures none { IfNone result (levels self.new ≡ []) }
    {
        let list = self.lists.pop()?;
        let mut places = Places::new();
        // a list has no more items than fit
        let _ = places.try_extend_from_slice(&self.row[list.first..]);
        self.row.truncate(list.first);
        Some(OpenList {
            head: list.head,
            places,
        })
    }

    // Whether the innermost list has no room for another item.
    pub(crate) fn is_crowded(&self) -> bool
        ensures { result ≡ crowded (levels self.now) }
    {
        match self.lists.last() {
            Some(list) => self.row.len() - list.first >= WIDTH,
            None => false,
        }
    }

    // One item more in the innermost list.
    pub(crate) fn add(&mut self, item: u32)
        requires open { 0 < length (levels self.old) }
        requires roomy { crowded (levels self.old) ≡ false }
        ensures { levels self.new ≡ added item (levels self.old) }
    {
        self.row.push(item);
    }
}
