//! What an interner asks of its keys.
//! Equality is the type's own `==`; the laws tie it to the keys themselves and to their hashes, and the lookup of a key rests on these laws alone.
ghost use Rattle.std.specs.Prelude.{◌≡◌, ℕ, true};

pub trait Key: Copy + Eq {
    // The hash of a key.
    ghost mark: { Self → ℕ };

    // The hash of the key.
    fn hash(&self) -> u32
        ensures { result ≡ mark self.now };

    // Equal keys are the same key.
    ghost sound: { (x y : Self) → Self.eq x y ≡ true → x ≡ y };

    // Equal keys have equal hashes.
    ghost marked: { (x y : Self) → Self.eq x y ≡ true → mark x ≡ mark y };
}
