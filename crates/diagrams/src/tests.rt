//! The solver at work on the majority of three. Were a test to fail, an answer would be none of the definitions'.
use crate::engine::Engine;
use crate::node::Node;
use crate::nodes::{Cell, NodeMemory};
use interning::slot::Slot;
use memos::diagram::Diagram;
use memos::memo::Memo;
use memos::question::Question;
use memos::short::ShortMemo;
use std::test::Fail;

// The answer to a question, if there is one.
fn worked<M: Memo + Drop>(engine: &mut Engine<'_, M>, question: Question) -> Option<Diagram> {
    engine.ask(question).ok()?.answer.ok()
}

// What any two of the members 1, 2 and 3 pass.
fn majority<M: Memo + Drop>(engine: &mut Engine<'_, M>) -> Option<Diagram> {
    let one = engine.single(1).ok()?;
    let two = engine.single(2).ok()?;
    let three = engine.single(3).ok()?;
    let both = worked(engine, Question::Both(one, two))?;
    let either = worked(engine, Question::Either(one, two))?;
    let third = worked(engine, Question::Both(either, three))?;
    worked(engine, Question::Either(both, third))
}

#[test]
fn majority_of_three_stops_itself(rt: HostRuntime) -> Result<(), Fail> {
    let blank = Node {
        member: 0,
        low: Diagram::none(),
        high: Diagram::none(),
    };
    let mut slots = [Slot::blank(blank); 32];
    let mut engine = Engine::open(NodeMemory::open(&mut slots), ShortMemo::new());
    let Some(majority) = majority(&mut engine) else {
        return Err(Fail::new("the majority has no diagram"));
    };
    assert!(rt; worked(&mut engine, Question::Turn(majority)) == Some(majority));
    assert!(rt; worked(&mut engine, Question::Less(majority, majority)) == Some(Diagram::none()));
    assert!(rt; engine.nodes().count(majority, &mut [0; 32]) == Ok(3));
    let mut roots = [majority];
    assert!(rt;
        engine
            .throw_out(&mut roots, &mut [Cell::blank(); 32])
            .is_ok()
    );
    assert!(rt; engine.nodes().len() == 4);
    assert!(rt; worked(&mut engine, Question::Turn(roots[0])) == Some(roots[0]));
    Ok(())
}
