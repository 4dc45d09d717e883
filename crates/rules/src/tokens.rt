//! Tokens of a rule's text.
use crate::words::Word;

// What a token is.
#[derive(Clone, Copy, PartialEq, Eq)]
pub enum Kind {
    // a number's value, 0 where its numeral begins with 0, and 65,535 from there on
    Number(u16),
    Word(Word),
    Open,
    Close,
}

// A token and the place of its first byte.
#[derive(Clone, Copy, PartialEq, Eq)]
pub struct Token {
    pub place: usize,
    pub kind: Kind,
}
