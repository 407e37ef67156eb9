//! Values that are written with their parts.

use rows::{Stop, put_text, put_written};
use writeable::{PartsSink, Writeable};

// Writes the parts that a sink has taken, where it has not refused.
fn put_taken(out: &mut String, is_written: bool, sink: &PartsSink) -> Result<(), Stop> {
    if !is_written {
        return Err(Stop::Memory);
    }
    for (start, end, part) in sink.parts() {
        if !out.is_empty() {
            out.push(' ')?;
        }
        write!(out, "{start}-{end}{}", part.value)?;
    }
    Ok(())
}

// Writes the intervals of the parts of a value's text, each as `start-end value`, with blanks between.
fn put_parts<W: Writeable>(out: &mut String, value: &W) -> Result<(), Stop> {
    let mut sink = PartsSink::new(*out.allocator());
    let is_written = value.write_to(&mut sink).is_ok();
    let put = put_taken(out, is_written, &sink);
    drop(sink);
    put
}

/// Writes the text of a value, or the intervals of its parts where the name of the call ends so.
pub fn put_by<W: Writeable>(out: &mut String, call: &str, value: &W) -> Result<(), Stop> {
    if call.ends_with("_parts") {
        put_parts(out, value)
    } else {
        put_written(out, value)
    }
}

/// Writes that a number has no text.
pub fn put_range(out: &mut String) -> Result<(), Stop> {
    put_text(out, "range")
}
