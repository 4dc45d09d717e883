//! What the reading says of a text, in words.
use rules::faults::RuleFault;
use std::fmt;

// What the reading says of a text: let in, with so many different terms, or denied.
#[derive(Clone, Copy)]
pub struct Outcome(pub Result<u32, RuleFault>);

impl fmt::Display for Outcome {
    fn fmt<W: fmt::Write>(&self, f: &mut fmt::Formatter<W>) -> fmt::Result {
        match self.0 {
            Ok(1) => write!(f, "let in, 1 different term"),
            Ok(terms) => write!(f, "let in, {terms} different terms"),
            Err(fault) => {
                let number = fault.number();
                write!(f, "denied {number}")?;
                if let Some(place) = fault.place() {
                    write!(f, " at {place}")?;
                }
                if let Some(layer) = fault.layer() {
                    write!(f, " ({layer})")?;
                }
                write!(f, ": {fault}")
            }
        }
    }
}
