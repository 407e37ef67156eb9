//! Numbers and texts, of the words or of standard input, written line by line.

ghost use Rattle.std.specs.Prelude.{◌≡◌, IfOk, OnOk, map};
ghost use Rattle.std.specs.Io.KnownBytes.{Appends};
ghost use Rattle.legumeyet_options.specs.Sayings.{saying};
ghost use Rattle.legumeyet.specs.Output.{is_last, shown, stand_in, status_said, texts_shown};

use crate::fault::CallFault;
use crate::parts::{put_said, put_text};
use crate::report::tell_refused;
use legumeyet_options::{Invalid, NotSaid, Sayer};
use std::io::Write;

/// What is asked of numbers or of texts.
#[derive(Clone, Copy)]
pub struct Asked<'m, 's> {
    /// The tag, for what is told of refusals.
    pub tag: &'m str,
    /// The word of `--round`, for the same.
    pub round: &'m str,
    /// What they are said by.
    pub sayer: &'m Sayer<'s>,
    /// Whether their parts are written too.
    pub has_parts: bool,
    /// What is written for those that are refused.
    pub invalid: Invalid,
}

/// Whether nothing is written after a text with this status.
pub fn is_last(invalid: Invalid, status: u8) -> bool
    ensures value { result ≡ is_last invalid status }
{
    match invalid {
        Invalid::Abort => status == 1,
        Invalid::Empty | Invalid::Keep | Invalid::Skip => false,
    }
}

// Writes what stands for a text that is refused.
fn put_stand_in<W: Write>(invalid: Invalid, text: &[u8], out: &mut W) -> Result<(), CallFault>
    ensures output { OnOk result (Appends (W.contents out.old) (W.contents out.new) (stand_in invalid text.now)) }
{
    match invalid {
        Invalid::Empty => put_text(out, b""),
        Invalid::Keep => put_text(out, text),
        Invalid::Skip | Invalid::Abort => Ok(()),
    }
}

// Tells that a text is refused, after what was written before, and writes what stands for it.
fn put_refused<W: Write>(
    rt: &HostRuntime,
    asked: &Asked<'_, '_>,
    text: &[u8],
    why: NotSaid,
    out: &mut W,
) -> Result<(), CallFault>
    ensures output { OnOk result (Appends (W.contents out.old) (W.contents out.new)
        (stand_in asked.now.invalid text.now)) }
{
    match out.flush() {
        Ok(()) => {}
        Err(error) => return Err(CallFault::Write(error)),
    }
    tell_refused(rt, asked.tag, asked.round, text, why);
    put_stand_in(asked.invalid, text, out)
}

/// Writes what is said of a number or a text, with its parts where they are asked for, and returns the status: 1 where it
/// is refused.
pub fn put_number<W: Write>(
    rt: &HostRuntime,
    asked: &Asked<'_, '_>,
    text: &[u8],
    out: &mut W,
) -> Result<u8, CallFault>
    ensures output { OnOk result (Appends (W.contents out.old) (W.contents out.new)
        (shown asked.now.invalid asked.now.has_parts text.now (saying asked.now.sayer.now text.now))) }
    ensures status { IfOk result (λ status. status ≡ status_said (saying asked.now.sayer.now text.now)) }
{
    match asked.sayer.say(rt.alloc(), text) {
        Ok(sink) => {
            put_said(&sink, asked.has_parts, out)?;
            Ok(0)
        }
        Err(NotSaid::Memory) => Err(CallFault::MEMORY),
        Err(why) => {
            put_refused(rt, asked, text, why, out)?;
            Ok(1)
        }
    }
}

/// Writes what is said of each text in a line of its own, and returns the status: 1 where one is refused.
pub fn put_texts<W: Write>(
    rt: &HostRuntime,
    asked: &Asked<'_, '_>,
    texts: &[&str],
    out: &mut W,
) -> Result<u8, CallFault>
    ensures output { OnOk result (Appends (W.contents out.old) (W.contents out.new)
        (texts_shown asked.now.invalid asked.now.has_parts asked.now.sayer.now (map (λ text. text.now) texts.now))) }
{
    let mut status = 0u8;
    for text in texts {
        let status_of_text = put_number(rt, asked, text.as_bytes(), out)?;
        status |= status_of_text;
        if is_last(asked.invalid, status_of_text) {
            return Ok(status);
        }
    }
    Ok(status)
}
