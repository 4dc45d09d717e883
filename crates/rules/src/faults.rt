//! Why a rule's text is denied. The rule's fault carries the text's fault whole; number, place and layer are definitions over both.
ghost use Rattle.std.specs.Prelude.{◌≡◌, Some};
ghost use Rattle.rules.specs.Faults.{number, place, layer, layer_name};
ghost use Rattle.rules.specs.declared.faults.RuleFault.TheVariants.{Text as CarriedText};

use std::fmt;
use thiserror::Error;

// A fault of the text alone, at a byte offset.
#[derive(Clone, Copy, PartialEq, Eq, Debug, Error)]
pub enum TextFault {
    #[error("a byte of no class")]
    Byte(usize),
    #[error("a word that no rule has")]
    Word(usize),
}

// Why a text is not let in as a rule.
#[derive(Clone, Copy, PartialEq, Eq, Debug, Error)]
pub enum RuleFault {
    #[error("the text has more than 4,096 bytes")]
    Length,
    #[error(transparent)]
    Text(TextFault),
    #[error("a token that cannot stand there, or a rule that is not finished")]
    Token(usize),
    #[error("a seventeenth open bracket")]
    Depth(usize),
    #[error("a number out of its range")]
    Range(usize),
    #[error("a list that does not fit its word")]
    Shape(usize),
    #[error("more different terms than there are places")]
    Terms,
}

// The part of the reading that found a fault.
#[derive(Clone, Copy, PartialEq, Eq, Debug)]
pub enum Layer {
    Text,
    Rule,
}

impl fmt::Display for Layer {
    ghost output = { λ found. Some (layer_name found) };

    fn fmt<W: fmt::Write>(&self, f: &mut fmt::Formatter<W>) -> fmt::Result {
        f.write_str(match self {
            Layer::Text => "text",
            Layer::Rule => "rule",
        })
    }
}

// By hand, since `from_gives` says which fault a `?` makes, and a derived `From` does not.
impl From<TextFault> for RuleFault {
    ghost from_gives = { λ fault r. r ≡ CarriedText fault };

    fn from(fault: TextFault) -> RuleFault {
        RuleFault::Text(fault)
    }
}

impl RuleFault {
    // The number of the question that was answered no.
    pub fn number(self) -> u8
        ensures { result ≡ number self }
    {
        match self {
            RuleFault::Length => 6,
            RuleFault::Text(TextFault::Byte(_)) => 7,
            RuleFault::Text(TextFault::Word(_)) => 8,
            RuleFault::Token(_) => 9,
            RuleFault::Depth(_) => 10,
            RuleFault::Range(_) => 11,
            RuleFault::Shape(_) => 12,
            RuleFault::Terms => 13,
        }
    }

    // The byte offset of the fault, where it has one.
    pub fn place(self) -> Option<usize>
        ensures { result ≡ place self }
    {
        match self {
            RuleFault::Text(TextFault::Byte(at)) => Some(at),
            RuleFault::Text(TextFault::Word(at)) => Some(at),
            RuleFault::Token(at) => Some(at),
            RuleFault::Depth(at) => Some(at),
            RuleFault::Range(at) => Some(at),
            RuleFault::Shape(at) => Some(at),
            RuleFault::Length | RuleFault::Terms => None,
        }
    }

    // The layer of a fault that has a place.
    pub fn layer(self) -> Option<Layer>
        ensures { result ≡ layer self }
    {
        match self {
            RuleFault::Text(_) => Some(Layer::Text),
            RuleFault::Token(_) => Some(Layer::Rule),
            RuleFault::Depth(_) => Some(Layer::Rule),
            RuleFault::Range(_) => Some(Layer::Rule),
            RuleFault::Shape(_) => Some(Layer::Rule),
            RuleFault::Length | RuleFault::Terms => None,
        }
    }
}
