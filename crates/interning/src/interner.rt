//! The interner: the list of the different keys that it was given, in order of arrival; a key's place is its index.
ghost use Rattle.std.specs.Prelude.{◌≡◌, ◌≤◌, [], length};
ghost use Rattle.interning.specs.Chain.{Linked, room};

use crate::key::Key;
use crate::slot::Slot;
use chains::unlink;

mod chains;
mod size;

// No place is left for a new key.
#[derive(Clone, Copy, PartialEq, Eq, Debug)]
pub struct Full;

// The slots are lent, and as many as are used hold keys: nothing here allocates, so they are no vector and no map.
#[derive(Drop)]
pub struct Interner<'a, K: Key> {
    slots: &'a mut [Slot<K>],
    used: u32,
    // Each key held has a place, and is in the chain of its hash.
    ghost within: { used ≤ room (length slots.now) },
    ghost linked: { ∥ Linked K.mark slots.now used ∥₁ },
}

impl<'a, K: Key> Interner<'a, K> {
    ghost use Rattle.interning.specs.Interned.{Interned};
    ghost use Rattle.interning.specs.Model.{held, capacity, SameSlots};
    ghost use Rattle.interning.specs.Places.{Read, Sought};

    // An empty interner over the slots.
    pub fn open(slots: &'a mut [Slot<K>]) -> Interner<'a, K>
        ensures held { held result ≡ [] }
        ensures capacity { capacity result ≡ room (length slots.old) }
    {
        unlink(slots);
        Interner { slots, used: 0 }
    }

    // Forgets every key.
    pub fn clear(&mut self)
        ensures held { held self.new ≡ [] }
        ensures slots { SameSlots self.old self.new }
    {
        unlink(self.slots);
        self.used = 0;
    }

    // The key at a place, or none past the last.
    pub fn key_at(&self, place: u32) -> Option<K>
        ensures { Read (held self.now) place result }
    {
        if place >= self.len() {
            return None;
        }
        Some(self.slots[place as usize].key)
    }

    // The place of a key, or none where it is not held.
    pub fn find(&self, key: K) -> Option<u32>
        ensures { Sought (held self.now) key result }
    {
        self.walk(self.newest(key), key)
    }

    // The place of a key, which takes the next one where it has none.
    pub fn intern(&mut self, key: K) -> Result<u32, Full>
        ensures interned { Interned (capacity self.old) (held self.old) key result (held self.new) }
        ensures slots { SameSlots self.old self.new }
    {
        if let Some(place) = self.find(key) {
            return Ok(place);
        }
        if self.len() >= self.capacity() {
            return Err(Full);
        }
        Ok(self.append(key))
    }
}
