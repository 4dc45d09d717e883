//! Worked rules and damaged ones, each with what the reading says of it: let in, or denied and why.
//! `rt run` proves and runs this; it takes no input, and `rt ci` holds what it prints to the file `stdout`.
#![tactic(auto)]

mod outcomes;
mod texts;
mod trials;

use std::io;
use texts::{extended, listed, nested};
use trials::{Setting, USUAL, show, show_group};

const OF_EACH_WORD: [&str; 5] = [
    "1",
    "least 2 (1 2 3)",
    "least 2 (1 1 2)",
    "any(1 all(1 2))",
    "grid 2 (1 2 3 4)",
];

const SHAPES: [&str; 3] = ["least 3 (1 2 3)", "least 4 (1 2 3)", "grid 2 (1 2 3)"];

const DAMAGED: [&str; 6] = ["ring(1 2)", "", "all()", "1 2", "all(1;2)", "all(01 2)"];

fn members(rt: &HostRuntime) -> io::Result<()> {
    rt.println("Members up to n")?;
    show(rt, "all(1 5)", Setting { n: 4, ..USUAL })?;
    show(rt, "all(1 5)", Setting { n: 5, ..USUAL })
}

fn limits(rt: &HostRuntime) -> io::Result<()> {
    let heap = rt.alloc();
    rt.println("Sixteen open brackets, and seventeen")?;
    show(rt, nested(heap, 16)?.as_str(), USUAL)?;
    show(rt, nested(heap, 17)?.as_str(), USUAL)?;
    rt.println("64 items, and 65")?;
    show(rt, listed(heap, "any", 64)?.as_str(), USUAL)?;
    show(rt, listed(heap, "any", 65)?.as_str(), USUAL)?;
    rt.println("4,096 bytes, and 4,097")?;
    show(rt, extended(heap, "all(1 2)", " ", 4096)?.as_str(), USUAL)?;
    show(rt, extended(heap, "all(1 2)", " ", 4097)?.as_str(), USUAL)?;
    rt.println("A number of 3,000 digits")?;
    let mut number = extended(heap, "all(2 ", "7", 3006)?;
    number.push(')')?;
    show(rt, number.as_str(), USUAL)
}

fn term_places(rt: &HostRuntime) -> io::Result<()> {
    let heap = rt.alloc();
    rt.println("More term places than usual, and fewer")?;
    let roomy = Setting {
        places: 16384,
        ..USUAL
    };
    let tight = Setting {
        places: 64,
        ..USUAL
    };
    show(rt, listed(heap, "least 32 ", 64)?.as_str(), roomy)?;
    show(rt, listed(heap, "least 24 ", 48)?.as_str(), tight)
}

fn run(rt: &HostRuntime) -> io::Result<()> {
    show_group(rt, "Rules of each word", &OF_EACH_WORD)?;
    show_group(rt, "What a word asks of its list", &SHAPES)?;
    members(rt)?;
    show_group(rt, "Damaged rules", &DAMAGED)?;
    show_group(rt, "Letters and digits that touch", &["least2(1 2 3)"])?;
    limits(rt)?;
    term_places(rt)
}

fn main(rt: HostRuntime) -> io::Result<()> {
    run(&rt)
}
