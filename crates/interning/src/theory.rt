//! The theorems above an interner, each on the contract of a function that carries it.
ghost use Rattle.interning.specs.Decode.{Decodes, Lifts, Separates};
ghost use Rattle.interning.specs.Distinct.{Agree, Counts, Distinguishes};

// What keys that name earlier places mean goes by the places before them.
pub fn decoding_stands<K, T>()
    ensures { Decodes K T }
{}

// Different keys mean different things.
pub fn separating_stands<K, T>()
    ensures { Separates K T }
{}

// To intern a key that names earlier places is to intern what it means.
pub fn lifting_stands<K, T>()
    ensures { Lifts K T }
{}

// A list can be stripped of its repetitions.
pub fn distinct_stands<T>()
    ensures { Distinguishes T }
{}

// A list without repetitions counts the different entries of another.
pub fn counting_stands<T>()
    ensures counts { Counts T }
    ensures agree { Agree T }
{}
