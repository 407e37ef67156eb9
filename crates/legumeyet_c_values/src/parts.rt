//! A text with its parts into what the caller gives.

ghost use Rattle.std.specs.Prelude.{◌≡◌, ◌≤◌, ◌↔◌, length, IsTrue};
ghost use Rattle.legumeyet_c_values.specs.Parts.{IsPutInParts, given, held_text, over};

use crate::call_error::CallError;
use crate::intervals::{Interval, list_parts};
use writeable::PartsSink;
use writeable_bytes::copy_to_slice;

// Lays a text over the caller's bytes; whether it has room there.
fn lay_text(text: &str, out: &mut [u8]) -> bool
    ensures written { out.new ≡ over text.now out.old }
    ensures room { IsTrue result ↔ (length text.now ≤ length out.old) }
{
    copy_to_slice(text.as_bytes(), out).is_ok()
}

/// Writes a text with its parts to what the caller gives. `TooSmall`: one of both needs more room.
pub fn put_parts(
    sink: &PartsSink,
    out: &mut [u8],
    length: &mut usize,
    intervals: &mut [Interval],
    count: &mut usize,
) -> Result<(), CallError>
    ensures { IsPutInParts (λ text. text ≡ held_text sink.now) (λ error. ⊥)
        (given out.old length.old intervals.old count.old) (given out.new length.new intervals.new count.new) result }
{
    let text = sink.text();
    let parts = sink.parts();
    let is_listed = parts.len() <= intervals.len();
    list_parts(parts, intervals);
    let is_whole = lay_text(text, out);
    *length = text.len();
    *count = parts.len();
    if is_whole && is_listed {
        Ok(())
    } else {
        Err(CallError::TooSmall)
    }
}
