//! What is said of a rule: its smallest passing and stopping groups, and its verdict.
use crate::family::{family, worked};
use crate::group::Group;
use crate::verdict::Verdict;
use diagrams::engine::Engine;
use diagrams::node::Node;
use diagrams::nodes::NodeMemory;
use interning::slot::Slot;
use memos::diagram::Diagram;
use memos::memo::Memo;
use memos::question::Question;
use memos::short::ShortMemo;
use rules::read::read;
use rules::terms::{TermKey, TermMemory};
use std::alloc::{AllocError, Global};
use std::io;

const PLACES: usize = 2048;

// The groups of a diagram, in falling order.
fn groups<M: Memo + Drop>(
    heap: Global,
    engine: &Engine<'_, M>,
    diagram: Diagram,
) -> Result<String, AllocError> {
    let mut page = [0u8; 512];
    let count = engine.nodes().list(diagram, u64::MAX, &mut page);
    let mut text = String::new(heap);
    for cell in page.chunks_exact(8).take(count) {
        let mut bytes = [0u8; 8];
        bytes.copy_from_slice(cell);
        let group = Group(u64::from_be_bytes(bytes));
        write!(text, " {group}")?;
    }
    Ok(text)
}

// What is said of the rule whose term stands at a place, or none where the places don't do.
fn account<M: Memo + Drop>(
    heap: Global,
    engine: &mut Engine<'_, M>,
    terms: &TermMemory<'_>,
    place: u32,
) -> Result<Option<String>, AllocError> {
    let Some(passing) = family(heap, engine, terms, place)? else {
        return Ok(None);
    };
    let Some(stopping) = worked(engine, Question::Turn(passing)) else {
        return Ok(None);
    };
    let Some(verdict) = Verdict::of(engine, passing, stopping) else {
        return Ok(None);
    };
    let passes = groups(heap, engine, passing)?;
    let stops = groups(heap, engine, stopping)?;
    let text = format!(in heap; "{verdict}\n  passing: {passes}\n  stopping:{stops}")?;
    Ok(Some(text))
}

// Reads a rule, and prints what is said of it.
pub(crate) fn show(rt: &HostRuntime, text: &str) -> io::Result<()> {
    let heap = rt.alloc();
    let mut slots = vec![in heap; Slot::blank(TermKey::Member(0)); PLACES]?;
    let mut terms = TermMemory::open(&mut slots);
    let blank = Node {
        member: 0,
        low: Diagram::none(),
        high: Diagram::none(),
    };
    let mut nodes = vec![in heap; Slot::blank(blank); PLACES]?;
    let mut engine = Engine::open(NodeMemory::open(&mut nodes), ShortMemo::new());
    match read(text.as_bytes(), 48, &mut terms) {
        Ok(place) => match account(heap, &mut engine, &terms, place)? {
            Some(account) => println!(rt; "{text}: {account}"),
            None => println!(rt; "{text}: more nodes than {PLACES}"),
        },
        Err(fault) => println!(rt; "{text}: {fault}"),
    }
}
