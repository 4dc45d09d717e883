//! Terms as keys of the interning memory: a term names its parts by their places, which stand before it.
//! So the memory is read front to back as a list of whole terms, and equal terms have one place.
ghost use Rattle.std.specs.Prelude.{◌≡◌};
ghost use Rattle.interning.specs.Model.{held};
ghost use Rattle.interning.specs.Decode.{Rooted};
ghost use Rattle.rules.specs.TermKeys.{NamesBelow, term_mark};
ghost use Rattle.std.proofs.Common.{rules};

use interning::hashing::{finish, mix};
use interning::interner::Interner;
use interning::key::Key;

mod memory;

// A term over the places of other terms.
#[derive(Clone, Copy, PartialEq, Eq)]
pub enum TermKey {
    Member(u8),
    Both(u32, u32),
    Either(u32, u32),
}

impl Key for TermKey {
    ghost mark = { term_mark };

    ghost sound = { Prim.search rules };

    ghost marked = { Prim.search rules };

    // The definition of the hash fixes the numbers of the kinds; no other code has them.
    fn hash(&self) -> u32 {
        match *self {
            TermKey::Member(v) => finish(mix(0, u32::from(v))),
            TermKey::Both(a, b) => finish(mix(mix(1, a), b)),
            TermKey::Either(a, b) => finish(mix(mix(2, a), b)),
        }
    }
}

// The terms of one rule, each held once. It remembers whether a term has found no place.
// Clauses see it through `view` and by no model: proofs above use what its ghost fields say, and `key_at` is said of the keys, both of which a model would hide.
// The flag stays a flag: the reading goes on where a term has found no place, since a fault further on in the text is told before it.
#[derive(Drop)]
pub struct TermMemory<'a> {
    interner: Interner<'a, TermKey>,
    overfull: bool,
    ghost rooted: { ∥ Rooted NamesBelow (held interner) ∥₁ },
}
