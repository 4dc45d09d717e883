ghost use Rattle.std.specs.Prelude.{◌≡◌, false, length, Decides};
ghost use Rattle.interning.specs.Chain.{room};
ghost use Rattle.interning.specs.Model.{held};
ghost use Rattle.interning.specs.Places.{Read};
ghost use Rattle.rules.specs.Building.{KeyOf, Makes, empty};
ghost use Rattle.rules.specs.Memory.{view};
ghost use Rattle.rules.specs.TermKeys.{NamesBelow};
ghost use Rattle.rules.specs.Terms.{Term};

use super::{TermKey, TermMemory};
use interning::interner::{Full, Interner};
use interning::slot::Slot;

impl<'a> TermMemory<'a> {
    // An empty memory over the slots.
    pub fn open(slots: &'a mut [Slot<TermKey>]) -> TermMemory<'a>
        ensures { view result ≡ empty (room (length slots.old)) }
    {
        TermMemory {
            interner: Interner::open(slots),
            overfull: false,
        }
    }

    // Forgets every term.
    pub fn clear(&mut self)
        ensures view { view self.new ≡ empty (view self.old).room }
    {
        self.interner.clear();
        self.overfull = false;
    }

    // How many terms are held.
    pub fn len(&self) -> u32
        ensures { result ≡ length (view self.now).terms }
    {
        self.interner.len()
    }

    // The term at a place, by the places of its parts.
    pub fn key_at(&self, place: u32) -> Option<TermKey>
        ensures { Read (held self.now.interner) place result }
    {
        self.interner.key_at(place)
    }

    // Whether a term has found no place.
    pub(crate) fn is_overfull(&self) -> bool
        ensures { result ≡ (view self.now).over }
    {
        self.overfull
    }

    // Whether a key names held terms alone.
    fn names(&self, key: TermKey) -> bool
        ensures { Decides result (NamesBelow (length (view self.now).terms) key) }
    {
        let len = self.len();
        match key {
            TermKey::Member(_) => true,
            TermKey::Both(a, b) | TermKey::Either(a, b) => a < len && b < len,
        }
    }

    // The place of the term that a key stands for, which is put in if it is not held; any place, 0, once the memory is overfull.
    pub(crate) fn put(&mut self, key: TermKey) -> u32
        ensures { (t : Term) → KeyOf (view self.old) key t → Makes (view self.old) (view self.new) result t }
    {
        if self.overfull || !self.names(key) {
            return 0;
        }
        match self.interner.intern(key) {
            Ok(place) => place,
            Err(Full) => {
                self.overfull = true;
                0
            }
        }
    }
}
