//! An interner of three slots, with keys that share one bucket. Were it to fail, equal keys would get two places.
ghost use Rattle.std.specs.Prelude.{◌==◌};
ghost use Rattle.std.proofs.Common.{rules};

use crate::interner::Interner;
use crate::key::Key;
use crate::slot::Slot;

#[derive(Clone, Copy, PartialEq, Eq)]
struct Word(u32);

impl Key for Word {
    ghost mark = { λ w. 7 };

    ghost sound = { Prim.search rules };

    ghost marked = { Prim.search rules };

    fn hash(&self) -> u32 {
        7
    }
}

#[test]
fn interns_each_key_once(rt: HostRuntime) {
    let mut slots = [Slot::blank(Word(0)); 3];
    let mut words = Interner::open(&mut slots);
    assert_eq!(rt; words.intern(Word(5)).ok(), Some(0));
    assert_eq!(rt; words.intern(Word(6)).ok(), Some(1));
    assert_eq!(rt; words.intern(Word(5)).ok(), Some(0));
    assert_eq!(rt; words.intern(Word(8)).ok(), Some(2));
    assert!(rt; words.intern(Word(9)).is_err() && words.len() == 3);
    assert_eq!(rt; words.find(Word(6)), Some(1));
    assert!(rt; matches!(words.key_at(2), Some(Word(8))) && words.key_at(3).is_none());
    words.clear();
    assert!(rt; words.find(Word(5)).is_none() && words.capacity() == 3);
    assert_eq!(rt; words.intern(Word(9)).ok(), Some(0));
}
