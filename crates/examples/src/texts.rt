//! Texts that are too long to write out. Heap and text are two parameters, as in the kit's own functions.
ghost use Rattle.std.specs.Prelude.{◌≡◌, ◌+◌, ◌*◌, max, length, IfOk, string_len};

use std::alloc::{AllocError, Global};

// `all(` so many times, a member, and as many closing brackets.
pub(crate) fn nested(heap: Global, depth: usize) -> Result<String, AllocError>
    ensures { IfOk result (λ s. string_len s ≡ 5 * depth + 1) }
{
    let opening = "all(".repeat(heap, depth)?;
    let closing = ")".repeat(heap, depth)?;
    format!(in heap; "{opening}1{closing}")
}

// A word over a list of so many members: 1 to 48, and then from 1 again.
pub(crate) fn listed(heap: Global, word: &str, items: u8) -> Result<String, AllocError> {
    let mut text = format!(in heap; "{word}(1")?;
    for item in 1..items {
        let member = item % 48 + 1;
        write!(text, " {member}")?;
    }
    text.push(')')?;
    Ok(text)
}

// The text, and after it one mark again and again up to a length.
pub(crate) fn extended(
    heap: Global,
    text: &str,
    mark: &str,
    len: usize,
) -> Result<String, AllocError>
    requires { length mark.now ≡ 1 }
    ensures { IfOk result (λ s. string_len s ≡ max (length text.now) len) }
{
    let marks = mark.repeat(heap, len.saturating_sub(text.len()))?;
    format!(in heap; "{text}{marks}")
}
