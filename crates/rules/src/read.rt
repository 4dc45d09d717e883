//! The reading of a rule's text: let in, with its terms in the memory, or denied with the first fault.
//! Text, members and memory are what `read` is called with, and stay its parameters in its two steps; that the memory's room stays
//! is a clause of each, since it speaks of the memory before and after.
ghost use Rattle.std.specs.Prelude.{◌≡◌};
ghost use Rattle.rules.specs.Building.{empty};
ghost use Rattle.rules.specs.Memory.{view};
ghost use Rattle.rules.specs.Outcome.{outcome, Comes, Left, ReadOff};

use crate::faults::RuleFault;
use crate::nest::Nest;
use crate::reader::{Reader, Wants};
use crate::scanner::Scanner;
use crate::terms::TermMemory;

// A rule's text has at most as many bytes.
pub const LONGEST: usize = 4096;

// Reads a text that is not too long into an empty memory; what is wanted at its end.
fn read_tokens(text: &[u8], n: u8, terms: &mut TermMemory<'_>) -> Result<u32, RuleFault>
    requires { view terms.old ≡ empty (view terms.old).room }
    ensures reads { ReadOff n text.now (view terms.new) result }
    ensures room { (view terms.new).room ≡ (view terms.old).room }
{
    // built in place, so that what it leaves in the memory is known
    let mut reader = Reader {
        nest: Nest::new(),
        wants: Wants::Item,
        terms,
        n,
    };
    for lexeme in Scanner::new(text) {
        reader.take(lexeme?)?;
    }
    reader.finish(text.len())
}

// Reads a text into an empty memory, whatever it holds afterwards where the text is denied.
fn read_into(text: &[u8], n: u8, terms: &mut TermMemory<'_>) -> Result<u32, RuleFault>
    requires { view terms.old ≡ empty (view terms.old).room }
    ensures comes { Comes (view terms.new) result (outcome n (view terms.new).room text.now) }
    ensures room { (view terms.new).room ≡ (view terms.old).room }
{
    if text.len() > LONGEST {
        return Err(RuleFault::Length);
    }
    let place = read_tokens(text, n, terms)?;
    if terms.is_overfull() {
        return Err(RuleFault::Terms);
    }
    Ok(place)
}

// Reads a rule over members up to n. Let in, its different terms are in the memory, the whole rule's at the place told; denied, the memory is empty.
pub fn read(text: &[u8], n: u8, terms: &mut TermMemory<'_>) -> Result<u32, RuleFault>
    ensures comes { Comes (view terms.new) result (outcome n (view terms.old).room text.now) }
    ensures left { Left (view terms.new) result }
    ensures room { (view terms.new).room ≡ (view terms.old).room }
{
    terms.clear(); // of what an earlier rule left
    let reading = read_into(text, n, terms);
    // Not by `inspect_err`: its contract says nothing of what the closure holds where there is no error.
    if reading.is_err() {
        terms.clear();
    }
    reading
}
