//! Sinks: a text, and a text with parts.

use crate::case::Case;
use crate::change::{Argument, Change, Receiver, answer as changed};
use rows::{Stop, filled, put_text};
use std::alloc::{AllocError, Global};
use writeable::{Part, PartsSink, Sink, TextSink};

// The part that a row opens.
const PART: Part = Part {
    category: "row",
    value: "part",
};

/// The answer of a call of these types.
pub fn answer(case: Case<'_>, out: &mut String) -> Result<(), Stop> {
    match case.call {
        "TextSink::write_str" => changed::<TextSink>(case, out),
        "PartsSink::write_str" => changed::<PartsSink>(case, out),
        "PartsSink::open_part" => changed::<OpenPart>(case, out),
        "PartsSink::close_part" => changed::<ClosePart>(case, out),
        _ => Err(Stop::Unknown),
    }
}

// Writes a text into a sink that has not refused.
fn write<S: Sink>(sink: &mut S, text: &str) -> Result<(), AllocError> {
    if sink.has_refused() || sink.write_str(text).is_err() {
        return Err(AllocError);
    }
    Ok(())
}

// Opens a part in a sink that has not refused.
fn open<S: Sink>(sink: &mut S) -> Result<(), AllocError> {
    if sink.has_refused() || sink.open_part(PART).is_err() {
        return Err(AllocError);
    }
    Ok(())
}

// Closes a part in a sink that has not refused.
fn close<S: Sink>(sink: &mut S) -> Result<(), AllocError> {
    if sink.has_refused() || sink.close_part().is_err() {
        return Err(AllocError);
    }
    Ok(())
}

// ---- a text, which stands for its call `write_str`

/// A text to write.
#[derive(Drop)]
pub struct Text {
    held: String,
}

impl Argument for Text {
    fn read(alloc: Global, field: &str) -> Result<Text, Stop> {
        Ok(Text {
            held: String::from_str(alloc, field)?,
        })
    }
}

impl Receiver for TextSink {
    fn read(alloc: Global, field: &str) -> Result<TextSink, Stop> {
        let mut sink = TextSink::new(alloc);
        let written = write(&mut sink, field);
        Ok(filled(sink, written)?)
    }

    fn show(self, out: &mut String) -> Result<(), Stop> {
        let put = put_text(out, self.text());
        drop(self);
        put
    }
}

impl Change for TextSink {
    type Receiver = TextSink;

    type Argument = Text;

    fn make(_alloc: Global, sink: &mut TextSink, text: Text) -> Result<(), AllocError> {
        write(sink, text.held.as_str())
    }
}

// ---- a text with parts

// A sink of the text of a field, with a part around it that is still open.
fn opened(alloc: Global, field: &str) -> Result<PartsSink, Stop> {
    let mut sink = PartsSink::new(alloc);
    let written = match open(&mut sink) {
        Ok(()) => write(&mut sink, field),
        Err(refused) => Err(refused),
    };
    Ok(filled(sink, written)?)
}

// Writes the text, and then each listed part as its start and its end: `abc 0-2`.
fn put_parts(out: &mut String, sink: &PartsSink) -> Result<(), Stop> {
    put_text(out, sink.text())?;
    for (start, end, _part) in sink.parts() {
        write!(out, " {start}-{end}")?;
    }
    Ok(())
}

impl Receiver for PartsSink {
    fn read(alloc: Global, field: &str) -> Result<PartsSink, Stop> {
        opened(alloc, field)
    }

    fn show(self, out: &mut String) -> Result<(), Stop> {
        let put = put_parts(out, &self);
        drop(self);
        put
    }
}

// A sink of parts stands for its call `write_str`.
impl Change for PartsSink {
    type Receiver = PartsSink;

    type Argument = Text;

    fn make(_alloc: Global, sink: &mut PartsSink, text: Text) -> Result<(), AllocError> {
        write(sink, text.held.as_str())
    }
}

struct OpenPart;

impl Change for OpenPart {
    type Receiver = PartsSink;

    type Argument = Text;

    fn make(_alloc: Global, sink: &mut PartsSink, _text: Text) -> Result<(), AllocError> {
        open(sink)
    }
}

struct ClosePart;

impl Change for ClosePart {
    type Receiver = PartsSink;

    type Argument = Text;

    fn make(_alloc: Global, sink: &mut PartsSink, _text: Text) -> Result<(), AllocError> {
        close(sink)
    }
}
