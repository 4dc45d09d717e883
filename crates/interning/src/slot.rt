//! The memory of an interner: a slot for each place, which is also the head of one bucket's chain.
//! A link is one past the place that it names, so that it takes four bytes and a chain ends at 0.
ghost use Rattle.std.specs.Prelude.{◌≡◌, ◌+◌, ◌^◌, ◌<◌};
ghost use Rattle.interning.specs.Link.{after};

// A place, or none. A number and no option: with links of eight bytes a table of 65,536 keys took up to 1.2 times as long
// (benchmark/src/bin/layouts.rs), and the engine over it is to take no longer than the plain one, whose node is one word.
#[derive(Clone, Copy)]
pub struct Link {
    past: u32,
}

impl Link {
    // The link to no place.
    pub(crate) fn none() -> Link
        ensures { result.past ≡ 0 }
    {
        Link { past: 0 }
    }

    // The link to a place.
    pub(crate) fn to(place: u32) -> Link
        requires { place + 1 < 2 ^ 32 }
        ensures { result.past ≡ place + 1 }
    {
        Link { past: place + 1 }
    }

    // The place that is linked to.
    pub(crate) fn place(self) -> Option<u32>
        ensures { after result ≡ self.past }
    {
        if self.past == 0 {
            None
        } else {
            Some(self.past - 1)
        }
    }
}

// A place for a key, and the head of a chain.
#[derive(Clone, Copy)]
pub struct Slot<K> {
    pub(crate) key: K,
    pub(crate) head: Link,
    pub(crate) next: Link,
}

impl<K> Slot<K> {
    // A slot that is not used yet; any key will do.
    pub fn blank(key: K) -> Slot<K>
        ensures key { result.key ≡ key }
        ensures head { result.head.past ≡ 0 }
        ensures next { result.next.past ≡ 0 }
    {
        Slot {
            key,
            head: Link::none(),
            next: Link::none(),
        }
    }
}
