//! A text and the intervals of its parts, held in memory.

ghost use Rattle.std.specs.Prelude.{◌≡◌, ◌≢◌, ◌≤◌, false, [], map, insert, vec_len, cond, is_ok, if◌then◌else◌, ◌==◌, OnOk, OnErr};
ghost use Rattle.writeable.specs.HeldParts.{held_after};
ghost use Rattle.writeable.specs.PartText.{part_texts};

use crate::error::Error;
use crate::part::Part;
use crate::part_texts::PartTexts;
use crate::sink::Sink;
use std::alloc::{AllocError, Global};
use std::marker::Model;

// A part that is open: where it began, and its place in the list once it is closed.
#[derive(Clone, Copy)]
struct OpenPart {
    start: usize,
    place: usize,
    part: Part,
}

/// A sink that holds the text and the intervals of its parts: of `a,b` with the part A around all
/// of it, `a,b` and (0, 3, A). It refuses only where it is out of memory for a byte, an opening, or
/// a closing that lists a part.
#[derive(Drop)]
pub struct PartsSink {
    text: String,
    parts: Vec<(usize, usize, Part)>,
    open_parts: Vec<OpenPart>,
    refused: bool,
}

impl Model for PartsSink {
    ghost use Rattle.std.specs.Prelude.{map};
    ghost use Rattle.std.specs.String.{string_bytes};
    ghost use Rattle.writeable.specs.HeldParts.{HeldParts};

    ghost Value = { HeldParts };

    ghost use Rattle.writeable.specs.ListedParts.{interval_of, open_interval, FitTogether};

    ghost view = { λ s. record {
      held = record {
        text = string_bytes s.text;
        parts = map interval_of s.parts.items;
        open_parts = map open_interval s.open_parts.items;
      };
      refused = s.refused;
    } };

    ghost invariant = { λ s. FitTogether (string_bytes s.text) s.parts.items s.open_parts.items };
}

impl PartsSink {
    ghost use Rattle.writeable.specs.ListedParts.{interval_of};

    /// An empty sink: its text is `""`, and no part is listed. It does not allocate.
    pub fn new(alloc: Global) -> Self
        ensures { result ≡ record { held = held_after []; refused = false } }
    {
        PartsSink {
            text: String::new(alloc),
            parts: Vec::new(alloc),
            open_parts: Vec::new(alloc),
            refused: false,
        }
    }

    /// The text that was written: `a,b` after `write_str("a,")` and `write_char('b')`. It does not allocate.
    pub fn text(&self) -> &str
        ensures { result.now ≡ self.now.held.text }
    {
        self.text.as_str()
    }

    /// The parts that were closed, as start, end and name, in order of opening.
    ///
    /// Start and end count bytes. A part without bytes is not listed, nor is one that is still open: open A, `a`, open
    /// B, `,`, close, `b`, close gives (0, 3, A), (1, 2, B). It does not allocate.
    pub fn parts(&self) -> &[(usize, usize, Part)]
        ensures { map interval_of result.now ≡ self.now.held.parts }
    {
        self.parts.as_slice()
    }

    /// The parts that were closed with their texts, in the order of `parts`: open A, `a`, open B, `,`,
    /// close, `b`, close gives A with `a,b`, then B with `,`. It never allocates.
    pub fn part_texts(&self) -> PartTexts<'_>
        ensures { result ≡ part_texts self.now.held.text self.now.held.parts }
    {
        PartTexts {
            text: self.text.as_str(),
            rest: self.parts.as_slice(),
        }
    }
}

// Lists `last` at its place, where it ends at `end`, unless it has no bytes. It allocates only where the part is
// listed.
fn list_closed(
    parts: &mut Vec<(usize, usize, Part)>,
    last: OpenPart,
    end: usize,
) -> Result<(), AllocError>
    requires { last.place ≤ vec_len parts.old }
    ensures ok { OnOk result (parts.new.items ≡ (if last.start == end then parts.old.items
        else insert parts.old.items last.place (last.start, end, last.part))) }
    ensures err { OnErr result (parts.new.items ≡ parts.old.items) }
    ensures room { OnErr result (last.start ≢ end) }
{
    if last.start == end {
        return Ok(());
    }
    match parts.insert(last.place, (last.start, end, last.part)) {
        Ok(()) => Ok(()),
        Err(_) => Err(AllocError),
    }
}

impl Sink for PartsSink {
    ghost use Rattle.std.specs.Prelude.{Bool};
    ghost use Rattle.writeable.specs.HeldParts.{HoldsThen, NeedsRoom};
    ghost use Rattle.writeable.specs.SinkLaws.{needs_more_room, held_nothing, held_joins};

    ghost takes = { HoldsThen };

    ghost lacks_room = { NeedsRoom };

    ghost refused = { λ s. s.refused };

    ghost lacks_more = { needs_more_room };

    ghost nothing = { held_nothing };

    ghost joins = { λ s t u first second begun _ ended. held_joins s t u first second begun ended };

    fn has_refused(&self) -> bool {
        self.refused
    }

    fn write_str(&mut self, text: &str) -> Result<(), Error> {
        match self.text.push_str(text) {
            Ok(()) => Ok(()),
            Err(_) => {
                self.refused = true;
                Err(Error)
            }
        }
    }

    fn open_part(&mut self, part: Part) -> Result<(), Error> {
        let begun = OpenPart {
            start: self.text.len(),
            place: self.parts.len(),
            part,
        };
        match self.open_parts.push(begun) {
            Ok(()) => Ok(()),
            Err(_) => {
                self.refused = true;
                Err(Error)
            }
        }
    }

    fn close_part(&mut self) -> Result<(), Error> {
        let Some(last) = self.open_parts.last().copied() else {
            return Ok(());
        };
        match list_closed(&mut self.parts, last, self.text.len()) {
            Ok(()) => {
                self.open_parts.pop();
                Ok(())
            }
            Err(_) => {
                self.refused = true;
                Err(Error)
            }
        }
    }
}
