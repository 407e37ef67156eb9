//! A run of one call: the number is read, rounded towards zero to a multiple of 25, and written.

ghost use Rattle.std.specs.Prelude.{◌≡◌, false};

use crate::case::Case;
use crate::change::ROOM;
use fixed_decimal::{Call, RoundingIncrement, SignedRoundingMode, UnsignedRoundingMode, run_calls};
use rows::{Stop, number_of, put_text};
use writeable::TextSink;

/// The answer of a run: the text that it wrote, or `refused`.
pub fn answer(case: Case<'_>, out: &mut String) -> Result<(), Stop> {
    let alloc = *out.allocator();
    out.reserve(ROOM)?;
    let position = number_of::<i16>(case.argument)?;
    let sink = TextSink::from_string(String::with_capacity(alloc, ROOM)?);
    answer_in(case, position, sink, out)
}

// The same, of a sink with room for the text.
fn answer_in(
    case: Case<'_>,
    position: i16,
    mut sink: TextSink,
    out: &mut String,
) -> Result<(), Stop>
    requires { sink.refused ≡ false }
{
    let alloc = *out.allocator();
    let mode = SignedRoundingMode::Unsigned(UnsignedRoundingMode::Trunc);
    let calls = [Call::Round(position, mode, RoundingIncrement::MultiplesOf25)];
    case.begin();
    let said = match run_calls(alloc, case.receiver.as_bytes(), &calls, &mut sink) {
        Ok(()) => Ok(()),
        Err(_) => put_text(out, "refused "),
    };
    let shown = put_text(out, sink.text());
    drop(sink);
    said?;
    shown
}
