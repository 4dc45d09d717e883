ghost use Rattle.std.specs.Prelude.{◌≡◌, true, is_some};

use crate::diagram::Diagram;
use crate::keeping::{KeepingMemo, Places};
use crate::memo::Memo;
use crate::question::Question;
use crate::short::ShortMemo;
use interning::slot::Slot;
use std::process::Abort;
use std::test::Fail;

fn question(v: u8) -> Question {
    Question::On(Diagram::always(), v)
}

fn answer(v: u8) -> Diagram {
    Diagram::node(u32::from(v)).unwrap_or(Diagram::none())
}

// A memo that still has every note tells an answer to what it was just told.
fn twice_told<M: Memo>(memo: &mut M, question: Question, answer: Diagram) -> Option<Diagram>
    ensures { M.Memo.keeps memo.new → is_some result ≡ true }
{
    memo.note(question, answer);
    memo.recall(question)
}

// Whether a memo tells the right answers, or none, to the first questions, and right ones to the last `sure` of them.
fn tells_right<M: Memo>(memo: &mut M, asked: u8, sure: usize) -> bool {
    for v in 0..asked {
        match memo.recall(question(v)) {
            Some(told) => {
                if told != answer(v) {
                    return false;
                }
            }
            None => {
                if usize::from(asked - v) <= sure {
                    return false;
                }
            }
        }
    }
    true
}

// A memo that is told more than it can hold.
fn overfilled(rt: &impl Abort, size: usize) -> Result<(), Fail> {
    let mut slots = [Slot::blank(Question::Turn(Diagram::none())); 5];
    let mut answers = [Diagram::none(); 5];
    let Ok(places) = Places::lend(&mut slots, &mut answers, size) else {
        return Err(Fail::new("a size that is allowed is denied"));
    };
    let mut memo = KeepingMemo::open(places);
    for v in 0..20u8 {
        assert!(rt; twice_told(&mut memo, question(v), answer(v)) == Some(answer(v)));
        assert!(rt; tells_right(&mut memo, v + 1, size / 2 + 1));
    }
    memo.forget();
    assert!(rt; memo.recall(question(19)) == None);
    Ok(())
}

// Losing it, a user of a small memo would be told wrong answers, or none soon after noting them.
#[test]
fn keeping_memo_tells_right_beyond_full(rt: HostRuntime) -> Result<(), Fail> {
    overfilled(&rt, 1)?;
    overfilled(&rt, 2)?;
    overfilled(&rt, 3)?;
    overfilled(&rt, 5)
}

// Losing it, a user would be told the answer to another question that shares the place: 40 and 48 do.
#[test]
fn short_memo_tells_no_other_answer(rt: HostRuntime) {
    let mut memo = ShortMemo::new();
    assert!(rt; twice_told(&mut memo, question(40), answer(40)) == Some(answer(40)));
    assert!(rt; memo.recall(question(48)) == None);
    assert!(rt; twice_told(&mut memo, question(48), answer(48)) == Some(answer(48)));
    assert!(rt; memo.recall(question(40)) == None);
    memo.forget();
    assert!(rt; memo.recall(question(48)) == None);
}
