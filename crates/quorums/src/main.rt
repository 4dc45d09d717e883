//! Worked rules, from their texts to their groups: which pass, which stop, and what can be said of them.
//! `rt run` proves and runs this; it takes no input, and `rt ci` holds what it prints to the file `stdout`.
#![tactic(auto)]

mod account;
mod family;
mod group;
mod verdict;

use account::show;
use std::io;

const RULES: [&str; 8] = [
    "1",
    "least 2 (1 2 3)",
    "least 2 (1 1 2)",
    "any(1 all(1 2))",
    "any(1 2)",
    "all(1 2)",
    "grid 2 (1 2 3 4)",
    "least 2 (1 2 all(4 5))",
];

fn run(rt: &HostRuntime) -> io::Result<()> {
    for text in RULES {
        show(rt, text)?;
    }
    Ok(())
}

fn main(rt: HostRuntime) -> io::Result<()> {
    run(&rt)
}
