//! The words of a rule.
ghost use Rattle.std.specs.Prelude.{◌≡◌};
ghost use Rattle.rules.specs.Words.{word};

// A word that begins a list.
#[derive(Clone, Copy, PartialEq, Eq)]
pub enum Word {
    All,
    Any,
    Least,
    Grid,
}

// What a list asks of its items: its word with the figure that follows it.
#[derive(Clone, Copy, PartialEq, Eq, Default)]
pub enum Head {
    // also what fills idle places
    #[default]
    All,
    Any,
    Least(u8),
    Grid(u8),
}

// The word that the letters spell.
pub(crate) fn word_of(letters: &[u8]) -> Option<Word>
    ensures { result ≡ word letters.now }
{
    match letters {
        b"all" => Some(Word::All),
        b"any" => Some(Word::Any),
        b"least" => Some(Word::Least),
        b"grid" => Some(Word::Grid),
        _ => None,
    }
}
