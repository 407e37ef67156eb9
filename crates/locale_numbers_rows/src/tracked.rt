//! What `Tracked` makes of a reader and a writer of std.

use crate::shelf::Page;
use locale_numbers::{ByteReader, ByteWriter, Tracked};
use rows::Stop;
use std::io;

/// Writes whether a reader has failed, whether a read that is interrupted succeeds, and whether it has failed then.
pub fn read(out: &mut String) -> Result<(), Stop> {
    let mut reader = Tracked::new(Page {
        rest: &[],
        fault: Some(io::ErrorKind::Interrupted),
        flushes: 0,
    });
    let before = ByteReader::has_failed(&reader);
    let succeeds = ByteReader::read(&mut reader, &mut [0; 4]).is_ok();
    let after = ByteReader::has_failed(&reader);
    drop(reader);
    write!(out, "failed {before}, read {succeeds}, failed {after}")?;
    Ok(())
}

/// Writes whether a write of which no byte is taken succeeds, and whether the writer has failed then.
pub fn write(piece: &[u8], out: &mut String) -> Result<(), Stop> {
    let mut writer = Tracked::new(Page {
        rest: &[],
        fault: None,
        flushes: 0,
    });
    let succeeds = ByteWriter::write(&mut writer, piece) == Ok(0);
    let after = ByteWriter::has_failed(&writer);
    drop(writer);
    write!(out, "took 0 {succeeds}, failed {after}")?;
    Ok(())
}

/// Writes whether a flush of a writer that is `sound`, or of one that is `broken`, succeeds, whether the writer has
/// failed then, and how often the one that it tracks was flushed.
pub fn flush(passed: &[&str], out: &mut String) -> Result<(), Stop> {
    let fault = match passed {
        [kind] if *kind == "sound" => None,
        [kind] if *kind == "broken" => Some(io::ErrorKind::Other),
        _ => return Err(Stop::Unknown),
    };
    let mut writer = Tracked::new(Page {
        rest: &[],
        fault,
        flushes: 0,
    });
    let succeeds = ByteWriter::flush(&mut writer).is_ok();
    let after = ByteWriter::has_failed(&writer);
    let page = writer.into_inner();
    let flushes = page.flushes;
    drop(page);
    write!(out, "flush {succeeds}, failed {after}, flushed {flushes}")?;
    Ok(())
}
