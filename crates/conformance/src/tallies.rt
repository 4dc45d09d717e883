//! How many lines agree, by what is said of their rules, and what is wrong with the others.
ghost use Rattle.std.specs.Prelude.{◌≡◌, ◌+◌, ◌<◌, vec_len, Decides, OnOk, ◌≢◌};

use crate::verdicts::{Denial, Verdict};
use std::alloc::{AllocError, Global};
use std::collections::BTreeMap;
use std::{fmt, io};

// No option of the two verdicts: a malformed line is a trouble too.
#[derive(Clone, Copy)]
enum Trouble {
    Malformed,
    Differs { told: Verdict, ours: Verdict },
}

// What is wrong with a line; the first is 1.
#[derive(Clone, Copy)]
struct Finding {
    line: usize,
    trouble: Trouble,
}

impl fmt::Display for Finding {
    fn fmt<W: fmt::Write>(&self, f: &mut fmt::Formatter<W>) -> fmt::Result {
        write!(f, "line {}: ", self.line)?;
        match self.trouble {
            Trouble::Malformed => f.write_str("malformed"),
            Trouble::Differs { told, ours } => {
                write!(f, "the press says {told}, the reading {ours}")
            }
        }
    }
}

#[derive(Drop)]
pub struct Tally {
    lines: usize,
    agreed: usize,
    let_in: usize,
    // by the number of the denial
    denied: BTreeMap<u8, usize>,
    findings: Vec<Finding>,
}

impl Tally {
    pub(crate) fn new(heap: Global) -> Tally
        ensures { vec_len result.findings ≡ 0 }
    {
        Tally {
            lines: 0,
            agreed: 0,
            let_in: 0,
            denied: BTreeMap::new(heap),
            findings: Vec::new(heap),
        }
    }

    fn find(&mut self, trouble: Trouble) -> Result<(), AllocError>
        ensures { OnOk result (vec_len self.new.findings ≡ vec_len self.old.findings + 1) }
    {
        let line = self.lines;
        self.findings.push(Finding { line, trouble })?;
        Ok(())
    }

    // Counts one more line that cannot be read.
    pub(crate) fn malformed(&mut self) -> Result<(), AllocError>
        ensures { OnOk result (vec_len self.new.findings ≡ vec_len self.old.findings + 1) }
    {
        self.lines = self.lines.saturating_add(1);
        self.find(Trouble::Malformed)
    }

    // Counts one more line, by what the press says of its rule and what the reading does.
    pub(crate) fn compare(&mut self, told: Verdict, ours: Verdict) -> Result<(), AllocError>
        ensures agrees { told ≡ ours → OnOk result (vec_len self.new.findings ≡ vec_len self.old.findings) }
        ensures differs { (told ≢ ours) → OnOk result (vec_len self.new.findings ≡ vec_len self.old.findings + 1) }
    {
        self.lines = self.lines.saturating_add(1);
        if told != ours {
            return self.find(Trouble::Differs { told, ours });
        }
        self.agreed = self.agreed.saturating_add(1);
        match told.0 {
            Ok(()) => self.let_in = self.let_in.saturating_add(1),
            Err(Denial { number, .. }) => {
                let count = self.denied.entry(number)?.or_insert(0);
                *count = count.saturating_add(1);
            }
        }
        Ok(())
    }

    // Whether there are lines, and all agree.
    pub(crate) fn is_clean(&self) -> bool
        ensures { Decides result ((0 < self.now.lines) × (vec_len self.now.findings ≡ 0)) }
    {
        self.lines > 0 && self.findings.is_empty()
    }

    pub(crate) fn print(&self, rt: &HostRuntime) -> io::Result<()> {
        for (number, count) in self.denied.iter() {
            println!(rt; "denied {number:>2}: {count:>3} agree")?;
        }
        println!(rt; "let in:    {:>3} agree", self.let_in)?;
        for finding in self.findings.iter() {
            rt.println(*finding)?;
        }
        println!(rt; "{} of {} agree", self.agreed, self.lines)
    }
}
