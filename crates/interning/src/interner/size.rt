//! How full an interner is.
ghost use Rattle.std.specs.Prelude.{◌≡◌, length};
ghost use Rattle.interning.specs.Model.{held, capacity};

use super::Interner;
use crate::key::Key;

impl<'a, K: Key> Interner<'a, K> {
    // How many keys are held.
    pub fn len(&self) -> u32
        ensures used { result ≡ self.now.used }
        ensures held { result ≡ length (held self.now) }
    {
        self.used
    }

    // How many keys can be held.
    pub fn capacity(&self) -> u32
        ensures { result ≡ capacity self.now }
    {
        u32::try_from(self.slots.len()).unwrap_or(u32::MAX)
    }
}
