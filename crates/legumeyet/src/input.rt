//! The numbers of standard input.

ghost use Rattle.std.specs.Prelude.{◌≡◌, ◌<◌, ℕ, List, Some, true, false, IfOk, OnOk, length};
ghost use Rattle.std.specs.List.{before_first, position};
ghost use Rattle.std.specs.Io.BufRead.{drop_through, take_through};
ghost use Rattle.std.specs.Io.KnownBytes.{Appends, IsAtEnd, Keeps};
ghost use Rattle.std.specs.Io.Buffered.{reader_remaining};
ghost use Rattle.legumeyet.specs.Feeds.{is_feed};
ghost use Rattle.legumeyet.specs.Output.{input_shown};

use crate::fault::CallFault;
use crate::numbers::{Asked, is_last, put_number};
use legumeyet_columns::trimmed;
use std::io::{self, BufRead, BufReader, Read, Write};

// Where the line feed of a line is, where it has one.
fn feed_place(line: &[u8]) -> Option<usize>
    ensures value { result ≡ position is_feed line.now }
{
    line.iter().position(|byte| *byte == b'\n')
}

// What is before the line feed of a line, where it has one.
fn before_feed(line: &[u8]) -> &[u8]
    ensures value { result.now ≡ before_first is_feed line.now }
{
    match feed_place(line) {
        Some(end) => &line[..end],
        None => line,
    }
}

// Reads a line, with its line feed, and returns whether there was none.
fn read_line<R: Read>(reader: &mut BufReader<R>, line: &mut Vec<u8>) -> Result<bool, CallFault>
    ensures line { OnOk result ((bytes : List ℕ) → reader_remaining R.remaining reader.old ≡ Some bytes
        → (line.new.items ≡ take_through 10 bytes)
        × (reader_remaining R.remaining reader.new ≡ Some (drop_through 10 bytes))) }
    ensures over { IfOk result (λ is_over. is_over ≡ true → IsAtEnd (reader_remaining R.remaining reader.old)) }
    ensures some { IfOk result (λ is_over. is_over ≡ false → 0 < length line.new.items) }
{
    line.clear();
    match reader.read_until(b'\n', line) {
        Ok(count) => Ok(count == 0),
        Err(error) => Err(CallFault::of_read(error)),
    }
}

// Writes out what is written so far where the reader has no whole line: what is to come may be long in coming.
fn flush_if_waiting<R: Read, W: Write>(reader: &BufReader<R>, out: &mut W) -> Result<(), CallFault>
    ensures same { OnOk result (Keeps (W.contents out.old) (W.contents out.new)) }
{
    if reader.buffer().contains(&b'\n') {
        return Ok(());
    }
    match out.flush() {
        Ok(()) => Ok(()),
        Err(error) => Err(CallFault::Write(error)),
    }
}

// Writes each number that a reader has in a line of its own, and returns the status.
fn put_lines<R: Read, W: Write>(
    rt: &HostRuntime,
    asked: &Asked<'_, '_>,
    reader: &mut BufReader<R>,
    out: &mut W,
) -> Result<u8, CallFault>
    ensures output { (input : List ℕ) → reader_remaining R.remaining reader.old ≡ Some input
        → OnOk result (Appends (W.contents out.old) (W.contents out.new)
        (input_shown asked.now.invalid asked.now.has_parts asked.now.sayer.now input)) }
{
    let mut status = 0u8;
    let mut line = Vec::new(rt.alloc());
    for _turn in 0..u64::MAX {
        let is_over = read_line(reader, &mut line)?;
        if is_over {
            return Ok(status);
        }
        let text = trimmed(before_feed(&line));
        let status_of_line = put_number(rt, asked, text, out)?;
        status |= status_of_line;
        if is_last(asked.invalid, status_of_line) {
            return Ok(status);
        }
        flush_if_waiting(reader, out)?;
    }
    Err(CallFault::Read(io::Error::other("too many lines")))
}

/// Writes the numbers of standard input, and returns the status: 1 where one is refused.
pub fn put_input<W: Write>(
    rt: &HostRuntime,
    asked: &Asked<'_, '_>,
    out: &mut W,
) -> Result<u8, CallFault> {
    let Ok(mut reader) = BufReader::new(rt.alloc(), rt.stdin()) else {
        return Err(CallFault::MEMORY);
    };
    put_lines(rt, asked, &mut reader, out)
}
