//! Hashes that the kinds of keys share: a key's hash is a few calls of `mix`, one for each field, and one of `finish`.
//! Each function is pinned by a definition, so that a kind of key states its hash by the same calls.
ghost use Rattle.std.specs.Prelude.{◌≡◌};
ghost use Rattle.interning.specs.Hash.{mixed, finished};

// The hash so far with one more word.
pub fn mix(hash: u32, word: u32) -> u32
    ensures { result ≡ mixed hash word }
{
    (hash ^ word).wrapping_mul(0x9e37_79b1).rotate_left(13)
}

// The hash after its last word, with its high bits brought into the low ones.
pub fn finish(hash: u32) -> u32
    ensures { result ≡ finished hash }
{
    (hash ^ (hash >> 16)).wrapping_mul(0x85eb_ca6b)
}
