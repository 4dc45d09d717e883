//! The chains of an interner: one for each bucket, through the places of its keys, newest first.
//! Links fall, so a walk takes at most a step for each key held; no place of a bucket is jumped over, so a walk comes to
//! every place that may hold the key.
ghost use Rattle.std.specs.Prelude.{◌≡◌, ◌<◌, length};
ghost use Rattle.interning.specs.Chain.{Linked, Seeks};
ghost use Rattle.interning.specs.Interned.{Placed};
ghost use Rattle.interning.specs.Model.{held, capacity, SameSlots};
ghost use Rattle.interning.specs.Places.{Absent, Sought};

use super::Interner;
use crate::key::Key;
use crate::slot::{Link, Slot};
use std::mem;

// Takes every place out of the chains.
pub(super) fn unlink<K: Key>(slots: &mut [Slot<K>])
    ensures linked { ∥ Linked K.mark slots.new 0 ∥₁ }
    ensures slots { length slots.new ≡ length slots.old }
{
    for slot in slots.iter_mut() {
        slot.head = Link::none();
    }
}

impl<'a, K: Key> Interner<'a, K> {
    // The newest place of a key's bucket.
    pub(super) fn newest(&self, key: K) -> Link
        ensures { Seeks K.mark K.eq self.now.slots.now self.now.used key result.past }
    {
        if self.slots.is_empty() {
            return Link::none();
        }
        self.slots[key.hash() as usize % self.slots.len()].head
    }

    // The place of a key that is looked for from `cursor` on, through older and older places of the bucket.
    pub(super) fn walk(&self, mut cursor: Link, key: K) -> Option<u32>
        requires { Seeks K.mark K.eq self.now.slots.now self.now.used key cursor.past }
        ensures { Sought (held self.now) key result }
    {
        let slots = &*self.slots;
        for _ in 0..self.used {
            let place = cursor.place()?;
            let slot = &slots[place as usize];
            if slot.key == key {
                return Some(place);
            }
            cursor = slot.next;
        }
        None
    }

    // Puts an absent key at the next place, and that place at the head of the key's chain.
    pub(super) fn append(&mut self, key: K) -> u32
        requires free { self.old.used < capacity self.old }
        requires absent { Absent (held self.old) key }
        ensures placed { Placed (capacity self.old) (held self.old) key result (held self.new) }
        ensures slots { SameSlots self.old self.new }
    {
        let place = self.used;
        let slots = &mut *self.slots;
        let bucket = key.hash() as usize % slots.len();
        let older = mem::replace(&mut slots[bucket].head, Link::to(place));
        let fresh = &mut slots[place as usize];
        fresh.key = key;
        fresh.next = older;
        self.used = place + 1;
        place
    }
}
