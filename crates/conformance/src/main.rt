//! Holds the reading of rules to the vectors of an independent press. A line of press.txt has a rule's bytes and the bytes that the press wrote for it, in hex.
//! `rt ci` runs this on a copy of the folder data/ and holds what it prints to the file `stdout`; a line that differs fails the run.
#![tactic(auto)]

mod tallies;
mod vectors;
mod verdicts;

ghost use Rattle.std.specs.Prelude.{◌≤◌, vec_len, OnOk};

use anyhow::ensure;
use interning::slot::Slot;
use rules::read::read;
use rules::terms::{TermKey, TermMemory};
use std::alloc::{AllocError, Global};
use std::fs;
use tallies::Tally;
use vectors::{LineError, Vector};
use verdicts::Verdict;

// The members that the press was run with: 1 to so many.
const MEMBERS: u8 = 48;

// The term places that it was run with.
const PLACES: usize = 1024;

// Reads a line's rule, and counts whether the reading says of it what the press did.
fn judge(
    heap: Global,
    tally: &mut Tally,
    terms: &mut TermMemory<'_>,
    line: &str,
) -> Result<(), AllocError>
    ensures { OnOk result (vec_len tally.old.findings ≤ vec_len tally.new.findings) }
{
    match Vector::parse(heap, line) {
        Ok(Vector { rule, told }) => {
            let ours = Verdict::from(read(rule.as_slice(), MEMBERS, terms));
            tally.compare(told, ours)
        }
        Err(LineError::Malformed) => tally.malformed(),
        Err(LineError::Memory(error)) => Err(error),
    }
}

fn run(rt: &HostRuntime) -> anyhow::Result<()> {
    let heap = rt.alloc();
    let text = fs::read_to_string(rt, "press.txt")?;
    let mut slots = vec![in heap; Slot::blank(TermKey::Member(0)); PLACES]?;
    let mut terms = TermMemory::open(&mut slots);
    let mut tally = Tally::new(heap);
    for line in text.lines() {
        judge(heap, &mut tally, &mut terms, line)?;
    }
    tally.print(rt)?;
    ensure!(tally.is_clean(), "not every line agrees");
    Ok(())
}

fn main(rt: HostRuntime) -> anyhow::Result<()> {
    run(&rt)
}
