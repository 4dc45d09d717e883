//! A text is read in a setting, and a line says what came of it.
use crate::outcomes::Outcome;
use interning::slot::Slot;
use rules::read::read;
use rules::terms::{TermKey, TermMemory};
use std::alloc::{AllocError, Global};
use std::{fmt, io};

// What a rule is read with: its members are 1 to n, and the memory has so many term places.
#[derive(Clone, Copy)]
pub struct Setting {
    pub n: u8,
    pub places: usize,
}

pub const USUAL: Setting = Setting {
    n: 48,
    places: 1024,
};

impl fmt::Display for Setting {
    fn fmt<W: fmt::Write>(&self, f: &mut fmt::Formatter<W>) -> fmt::Result {
        let n = self.n;
        write!(f, "n = {n}")?;
        let places = self.places;
        if places != USUAL.places {
            write!(f, ", R = {places}")?;
        }
        Ok(())
    }
}

fn outcome(heap: Global, text: &str, setting: Setting) -> Result<Outcome, AllocError> {
    let mut slots = vec![in heap; Slot::blank(TermKey::Member(0)); setting.places]?;
    let mut terms = TermMemory::open(&mut slots);
    let reading = read(text.as_bytes(), setting.n, &mut terms);
    Ok(Outcome(reading.map(|_| terms.len())))
}

// A text in quotes; of a long one the start, and its length.
fn shown(heap: Global, text: &str) -> Result<String, AllocError> {
    let len = text.len();
    if len > 20 {
        format!(in heap; "\"{text:.20}..\" {len} bytes")
    } else {
        format!(in heap; "\"{text}\"")
    }
}

// Reads the text, and prints its line.
pub(crate) fn show(rt: &HostRuntime, text: &str, setting: Setting) -> io::Result<()> {
    let heap = rt.alloc();
    let outcome = outcome(heap, text, setting)?;
    let text = shown(heap, text)?;
    let setting = setting.to_string(heap)?;
    println!(rt; "  {text:<38}{setting:<20}{outcome}")
}

// A heading, and under it the line of each text in the usual setting.
pub(crate) fn show_group(rt: &HostRuntime, heading: &str, texts: &[&str]) -> io::Result<()> {
    rt.println(heading)?;
    for text in texts {
        show(rt, *text, USUAL)?;
    }
    Ok(())
}
