//! The families of rules, as diagrams of an engine.
use diagrams::engine::Engine;
use memos::diagram::Diagram;
use memos::memo::Memo;
use memos::question::Question;
use rules::terms::{TermKey, TermMemory};
use std::alloc::{AllocError, Global};

// The answer to a question, where the places do.
pub(crate) fn worked<M: Memo + Drop>(
    engine: &mut Engine<'_, M>,
    question: Question,
) -> Option<Diagram> {
    engine.ask(question).ok()?.answer.ok()
}

// The diagram of the term at a place.
fn at(diagrams: &[Diagram], place: u32) -> Option<Diagram> {
    diagrams.get(place as usize).copied()
}

// The diagram of a term, from those of the terms before it.
fn term<M: Memo + Drop>(
    engine: &mut Engine<'_, M>,
    earlier: &[Diagram],
    key: TermKey,
) -> Option<Diagram> {
    match key {
        TermKey::Member(v) => engine.single(v).ok(),
        TermKey::Both(a, b) => {
            let question = Question::Both(at(earlier, a)?, at(earlier, b)?);
            worked(engine, question)
        }
        TermKey::Either(a, b) => {
            let question = Question::Either(at(earlier, a)?, at(earlier, b)?);
            worked(engine, question)
        }
    }
}

// The diagram of the rule whose term stands at a place, or none where the places don't do.
pub(crate) fn family<M: Memo + Drop>(
    heap: Global,
    engine: &mut Engine<'_, M>,
    terms: &TermMemory<'_>,
    place: u32,
) -> Result<Option<Diagram>, AllocError> {
    let mut diagrams = Vec::new(heap);
    // By place, since the memory gives its terms one at a time.
    for earlier in 0..terms.len() {
        let Some(key) = terms.key_at(earlier) else {
            return Ok(None);
        };
        let Some(diagram) = term(engine, &diagrams, key) else {
            return Ok(None);
        };
        diagrams.push(diagram)?;
    }
    Ok(at(&diagrams, place))
}
