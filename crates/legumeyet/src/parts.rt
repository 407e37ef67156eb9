//! The parts of a number's text.

ghost use Rattle.std.specs.Prelude.{◌≡◌, ◌++◌, [], OnOk, if◌then◌else◌};
ghost use Rattle.std.specs.Io.KnownBytes.{Appends};
ghost use Rattle.writeable.specs.PartName.{name_of};
ghost use Rattle.locale_numbers_lines.specs.Lines.{ended};
ghost use Rattle.legumeyet.specs.Parts.{part_line, part_lines};

use crate::fault::CallFault;
use std::io::Write;
use writeable::{Part, PartsSink};

// Writes a piece of a line.
fn put_piece<W: Write>(piece: &[u8], out: &mut W) -> Result<(), CallFault>
    ensures output { OnOk result (Appends (W.contents out.old) (W.contents out.new) piece.now) }
{
    match out.write_all(piece) {
        Ok(()) => Ok(()),
        Err(error) => Err(CallFault::Write(error)),
    }
}

/// Writes a text and a line feed.
pub fn put_text<W: Write>(out: &mut W, text: &[u8]) -> Result<(), CallFault>
    ensures output { OnOk result (Appends (W.contents out.old) (W.contents out.new) (ended text.now)) }
{
    put_piece(text, out)?;
    put_piece(b"\n", out)
}

// Writes a part: its name and its text.
fn put_part<W: Write>(part: Part, text: &str, out: &mut W) -> Result<(), CallFault>
    ensures output { OnOk result (Appends (W.contents out.old) (W.contents out.new)
        (part_line (record { part = name_of part; text = text.now }))) }
{
    put_piece(b"  ", out)?;
    put_piece(part.value.as_bytes(), out)?;
    put_piece(b" ", out)?;
    put_piece(text.as_bytes(), out)?;
    put_piece(b"\n", out)
}

// Writes the parts that a sink holds, each in a line with its name before it.
fn put_held<W: Write>(sink: &PartsSink, out: &mut W) -> Result<(), CallFault>
    ensures output { OnOk result (Appends (W.contents out.old) (W.contents out.new) (part_lines sink.now.held)) }
{
    for (part, text) in sink.part_texts() {
        put_part(part, text, out)?;
    }
    Ok(())
}

/// Writes the text that a sink holds in a line, and the lines of its parts after it where they are asked for.
pub fn put_said<W: Write>(sink: &PartsSink, parts: bool, out: &mut W) -> Result<(), CallFault>
    ensures output { OnOk result (Appends (W.contents out.old) (W.contents out.new)
        (ended sink.now.held.text ++ (if parts then part_lines sink.now.held else []))) }
{
    put_text(out, sink.text().as_bytes())?;
    if parts { put_held(sink, out) } else { Ok(()) }
}
