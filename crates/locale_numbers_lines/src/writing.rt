//! Whole texts onto a writer that may take them in parts.

ghost use Rattle.std.specs.Prelude.{◌≡◌, ◌<◌, false, [], length, string_bytes, is_err, MatchResult, OnOk};
ghost use Rattle.std.specs.Io.KnownBytes.{Appends};
ghost use Rattle.locale_numbers_lines.specs.Run.{WritesFront};
ghost use Rattle.locale_numbers_lines.specs.Progress.{Moves};

use crate::byte_writer::{ByteWriteFault, ByteWriter};

// How many bytes are read at once, and how long the ready answers may grow before they are written.
pub const PIECE: usize = 65_536;

// Writes all of these bytes; after a fault a beginning of them was written.
pub fn write_whole<W: ByteWriter>(writer: &mut W, bytes: &[u8]) -> Result<(), ByteWriteFault>
    requires { W.failed writer.old ≡ false }
    ensures wrote { MatchResult result
        (λ _. Appends (W.contents writer.old) (W.contents writer.new) bytes.now)
        (λ _. WritesFront bytes.now (W.contents writer.old) (W.contents writer.new)) }
    ensures fault { W.failed writer.new ≡ is_err result }
{
    let mut rest = bytes;
    'write: while !rest.is_empty() {
        match writer.write(rest) {
            Ok(0) => return Err(ByteWriteFault),
            Ok(count) => rest = &rest[count..],
            Err(fault) => return Err(fault),
        }
    }
    Ok(())
}

// Writes the ready answers, and lets them go.
pub fn write_ready<W: ByteWriter>(writer: &mut W, ready: &mut String) -> Result<(), ByteWriteFault>
    requires { W.failed writer.old ≡ false }
    ensures wrote { MatchResult result
        (λ _. Appends (W.contents writer.old) (W.contents writer.new) (string_bytes ready.old))
        (λ _. WritesFront (string_bytes ready.old) (W.contents writer.old) (W.contents writer.new)) }
    ensures gone { MatchResult result
        (λ _. string_bytes ready.new ≡ [])
        (λ _. string_bytes ready.new ≡ string_bytes ready.old) }
    ensures fault { W.failed writer.new ≡ is_err result }
{
    write_whole(writer, ready.as_bytes())?;
    ready.clear();
    Ok(())
}

// Writes the ready answers once they are as long as a piece.
pub fn write_full<W: ByteWriter>(writer: &mut W, ready: &mut String) -> Result<(), ByteWriteFault>
    requires { W.failed writer.old ≡ false }
    ensures moved { MatchResult result
        (λ _. Moves (string_bytes ready.old) (string_bytes ready.new) (W.contents writer.old) (W.contents writer.new))
        (λ _. WritesFront (string_bytes ready.old) (W.contents writer.old) (W.contents writer.new)) }
    ensures short { OnOk result (length (string_bytes ready.new) < PIECE) }
    ensures fault { W.failed writer.new ≡ is_err result }
{
    if ready.len() < PIECE {
        return Ok(());
    }
    write_ready(writer, ready)
}
