//! The lines of the press. Heap and text are two parameters, as in the kit's own functions.
ghost use Rattle.std.specs.Prelude.{◌≡◌, IfOk, Ok};
ghost use Rattle.hex.specs.Hex.{decode_of};

use crate::verdicts::Verdict;
use hex::{FromHexError, decode};
use std::alloc::{AllocError, Global};
use thiserror::Error;

// Why a line gives no vector.
#[derive(Debug, Drop, Error)]
pub enum LineError {
    #[error("malformed")]
    Malformed,
    #[error(transparent)]
    Memory(AllocError),
}

impl From<FromHexError> for LineError {
    fn from(error: FromHexError) -> LineError {
        match error {
            // `hex` has a variant of its own where the allocator refused
            FromHexError::OutOfMemory => LineError::Memory(AllocError),
            _ => LineError::Malformed,
        }
    }
}

// A rule, and what the press says of it.
#[derive(Drop)]
pub struct Vector {
    pub rule: Vec<u8>,
    pub told: Verdict,
}

// Whether a byte is a digit of hex, with small letters alone.
fn is_digit(byte: &u8) -> bool {
    matches!(*byte, b'0'..=b'9' | b'a'..=b'f')
}

// The bytes that a text spells in hex; there is at least one. The digits are looked at first, so that a malformed text takes no memory.
fn spelt(heap: Global, text: &str) -> Result<Vec<u8>, LineError>
    ensures { IfOk result (λ bytes. decode_of text.now ≡ Ok bytes.items) }
{
    if text.is_empty() || !text.as_bytes().iter().all(is_digit) {
        return Err(LineError::Malformed);
    }
    Ok(decode(heap, text)?)
}

// A rule's bytes; `-` stands for none.
fn rule_of(heap: Global, text: &str) -> Result<Vec<u8>, LineError> {
    if text == "-" {
        Ok(Vec::new(heap))
    } else {
        spelt(heap, text)
    }
}

impl Vector {
    pub(crate) fn parse(heap: Global, line: &str) -> Result<Vector, LineError> {
        let (rule, written) = line.split_once(' ').ok_or(LineError::Malformed)?;
        let rule = rule_of(heap, rule)?;
        let written = spelt(heap, written)?;
        let told = Verdict::told(written.as_slice()).ok_or(LineError::Malformed)?;
        Ok(Vector { rule, told })
    }
}
