//! The numbers and texts of the words, in their order.

ghost use Rattle.std.specs.Prelude.{◌≡◌, ◌≢◌, IfOk, OnOk, codes, map};
ghost use Rattle.std.specs.Io.KnownBytes.{Appends};
ghost use Rattle.legumeyet_options.specs.Sayings.{saying};
ghost use Rattle.legumeyet.specs.Output.{ReadNothing, shown, status_said, texts_shown};

use crate::fault::CallFault;
use crate::input::put_input;
use crate::numbers::{Asked, is_last, put_number};
use std::io::Write;

// Writes a number of the words, or where it is `-` those of standard input, of which something else is asked. Returns the
// status.
fn put_word<W: Write>(
    rt: &HostRuntime,
    asked: &Asked<'_, '_>,
    asked_of_input: &Asked<'_, '_>,
    number: &str,
    out: &mut W,
) -> Result<u8, CallFault>
    ensures output { number.now ≢ codes "-" → OnOk result (Appends (W.contents out.old) (W.contents out.new)
        (shown asked.now.invalid asked.now.has_parts number.now (saying asked.now.sayer.now number.now))) }
    ensures status { number.now ≢ codes "-"
        → IfOk result (λ status. status ≡ status_said (saying asked.now.sayer.now number.now)) }
{
    if number == "-" {
        put_input(rt, asked_of_input, out)
    } else {
        put_number(rt, asked, number.as_bytes(), out)
    }
}

/// Writes the numbers of the words; `-` stands for those of standard input, of which something else is asked. Returns the
/// status.
pub fn put_words<W: Write>(
    rt: &HostRuntime,
    asked: &Asked<'_, '_>,
    asked_of_input: &Asked<'_, '_>,
    numbers: &[&str],
    out: &mut W,
) -> Result<u8, CallFault>
    ensures output { ReadNothing (map (λ number. number.now) numbers.now)
        → OnOk result (Appends (W.contents out.old) (W.contents out.new)
        (texts_shown asked.now.invalid asked.now.has_parts asked.now.sayer.now (map (λ number. number.now) numbers.now))) }
{
    let mut status = 0u8;
    for number in numbers {
        let status_of_word = put_word(rt, asked, asked_of_input, number, out)?;
        status |= status_of_word;
        if is_last(asked.invalid, status_of_word) {
            return Ok(status);
        }
    }
    Ok(status)
}
