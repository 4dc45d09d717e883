//! What is said of a rule, by the reading or by the press.
ghost use Rattle.std.specs.Prelude.{◌≡◌, Ok, Err, MatchResult};
ghost use Rattle.conformance.specs.Denials.{denial};

use rules::faults::RuleFault;
use std::fmt;
use std::str::from_utf8;

// Why a rule is denied: the number of the question that was answered no, and the byte offset of the fault, where it has one.
#[derive(Clone, Copy, PartialEq, Eq)]
pub struct Denial {
    pub number: u8,
    pub place: Option<usize>,
}

impl From<RuleFault> for Denial {
    ghost from_gives = { λ fault r. r ≡ denial fault };

    fn from(fault: RuleFault) -> Denial {
        Denial {
            number: fault.number(),
            place: fault.place(),
        }
    }
}

impl fmt::Display for Denial {
    fn fmt<W: fmt::Write>(&self, f: &mut fmt::Formatter<W>) -> fmt::Result {
        write!(f, "denied {}", self.number)?;
        match self.place {
            Some(place) => write!(f, " at {place}"),
            None => Ok(()),
        }
    }
}

// Let in, or denied.
#[derive(Clone, Copy, PartialEq, Eq)]
pub struct Verdict(pub Result<(), Denial>);

// What the reading says.
impl From<Result<u32, RuleFault>> for Verdict {
    ghost from_gives = { λ reading r. MatchResult reading (λ _. r.0 ≡ Ok tt) (λ fault. r.0 ≡ Err (denial fault)) };

    fn from(reading: Result<u32, RuleFault>) -> Verdict {
        Verdict(reading.map(|_| ()).map_err(Denial::from))
    }
}

impl Verdict {
    // What the press says of the rule by what it wrote: a sheet, `no N` or `no N at A`.
    pub(crate) fn told(written: &[u8]) -> Option<Verdict> {
        match written.strip_prefix(b"no ") {
            Some(line) => Verdict::denial(from_utf8(line).ok()?),
            None => Some(Verdict(Ok(()))),
        }
    }

    // `N` or `N at A`, and the end of the line. 14 and 15 speak of the sheet, so the rule itself was let in.
    fn denial(line: &str) -> Option<Verdict> {
        let line = line.strip_suffix('\n')?;
        let (number, place) = match line.split_once(" at ") {
            Some((number, place)) => (number, Some(place.parse::<usize>().ok()?)),
            None => (line, None),
        };
        match number.parse::<u8>().ok()? {
            number @ 6..=13 => Some(Verdict(Err(Denial { number, place }))),
            14 | 15 => Some(Verdict(Ok(()))),
            _ => None,
        }
    }
}

impl fmt::Display for Verdict {
    fn fmt<W: fmt::Write>(&self, f: &mut fmt::Formatter<W>) -> fmt::Result {
        match &self.0 {
            Ok(()) => f.write_str("let in"),
            Err(denial) => denial.fmt(f),
        }
    }
}
