//! The scanner: a text, token by token. Each call finds the end of one longest run, and the runs of what is left stay as they were.
ghost use Rattle.std.specs.Prelude.{◌≡◌, ◌<◌, ◌≤◌, length, ◌≢◌, slice_index};
ghost use Rattle.rules.specs.Classes.{class};
ghost use Rattle.rules.specs.Scanning.{OneClass, FirstRun};
ghost use Rattle.rules.specs.Tokens.{value, classed};

use crate::classes::Class;
use crate::faults::TextFault;
use crate::tokens::{Kind, Token};
use crate::words::word_of;

// The end of the longest run of a class from a place on.
fn run_end(text: &[u8], from: usize, class: Class) -> usize
    requires { from ≤ length text.now }
    ensures { OneClass text.now class from result }
{
    let run = text[from..]
        .iter()
        .take_while(|&&byte| Class::from(byte) == class)
        .count();
    from + run
}

// The end of the run that begins at a place.
fn first_end(text: &[u8], place: usize) -> usize
    requires within { place < length text.now }
    requires begun { class (slice_index text.now place) ≢ Class.Blank }
    ensures { FirstRun text.now place result }
{
    let class = Class::from(text[place]);
    match class {
        Class::Digit | Class::Letter => run_end(text, place, class),
        _ => place + 1,
    }
}

// The value of a run of digits.
fn value_of(digits: &[u8]) -> u16
    ensures { result ≡ value digits.now }
{
    if digits.starts_with(b"0") {
        return 0;
    }
    digits.iter().fold(0, |value: u16, digit| {
        value
            .saturating_mul(10)
            .saturating_add(u16::from(digit.saturating_sub(b'0')))
    })
}

// A text, and how far it has been told. The whole text and a place in it, since tokens and faults are told by their places.
#[derive(Drop)]
pub struct Scanner<'a> {
    text: &'a [u8],
    at: usize,
    ghost within: { at ≤ length text.now },
}

impl<'a> Scanner<'a> {
    ghost use Rattle.rules.specs.Scanners.{left};
    ghost use Rattle.rules.specs.Tokens.{lexemes};

    // A scanner at the first byte of a text.
    pub(crate) fn new(text: &'a [u8]) -> Scanner<'a>
        ensures { left result ≡ lexemes 0 text.now }
    {
        Scanner { text, at: 0 }
    }
}

// Tells the tokens of the text in their order, and its faults.
impl Iterator for Scanner<'_> {
    ghost use Rattle.std.specs.Iterator.{YieldsFirst, item_count};
    ghost use Rattle.rules.specs.Scanners.{left};

    type Item = Result<Token, TextFault>;

    ghost next_gives = { YieldsFirst left };

    ghost remaining = { item_count left };

    fn next(&mut self) -> Option<Result<Token, TextFault>> {
        let place = run_end(self.text, self.at, Class::Blank);
        self.at = place;
        let class = Class::from(*self.text.get(place)?);
        let end = first_end(self.text, place);
        self.at = end;
        Some(lexeme_of(class, place, &self.text[place..end]))
    }
}

// What a run is: a token, or a fault of the text.
fn lexeme_of(class: Class, place: usize, run: &[u8]) -> Result<Token, TextFault>
    ensures { result ≡ classed class place run.now }
{
    let kind = match class {
        Class::Digit => Kind::Number(value_of(run)),
        Class::Letter => Kind::Word(word_of(run).ok_or(TextFault::Word(place))?),
        Class::Open => Kind::Open,
        Class::Close => Kind::Close,
        Class::Blank | Class::Other => return Err(TextFault::Byte(place)),
    };
    Ok(Token { place, kind })
}
