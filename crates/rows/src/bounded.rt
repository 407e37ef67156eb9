//! A sink with little room.
ghost use Rattle.std.specs.Prelude.{◌≡◌, false};

use crate::answers::put_text;
use crate::stop::Stop;
use std::alloc::Global;
use writeable::{Error, Part, Sink, Writeable};

/// A sink with room for a number of bytes. It refuses a call that brings more, and takes nothing of that one.
#[derive(Drop)]
pub struct Bounded {
    text: String,
    room: usize,
    refused: bool,
}

impl Bounded {
    /// An empty sink with room for this number of bytes.
    pub fn new(alloc: Global, room: usize) -> Bounded
        ensures { ⟦<Bounded as Sink>⟧.refused result ≡ false }
    {
        Bounded {
            text: String::new(alloc),
            room,
            refused: false,
        }
    }

    /// What it has taken.
    pub fn text(&self) -> &str {
        self.text.as_str()
    }
}

impl Sink for Bounded {
    ghost use Rattle.std.specs.Prelude.{⊤};

    // which events were taken is left open
    ghost takes = { λ _ _ _. ⊤ };

    ghost lacks_room = { λ _ _. ⊤ };

    ghost refused = { λ s. s.refused };

    ghost lacks_more = { λ _ _ _ lacking. lacking };

    ghost nothing = { λ _. tt };

    ghost joins = { λ _ _ _ _ _ _ _ _. tt };

    fn has_refused(&self) -> bool {
        self.refused
    }

    fn write_str(&mut self, text: &str) -> Result<(), Error> {
        let Some(left) = self.room.checked_sub(text.len()) else {
            self.refused = true;
            return Err(Error);
        };
        match self.text.push_str(text) {
            Ok(()) => {
                self.room = left;
                Ok(())
            }
            Err(_) => {
                self.refused = true;
                Err(Error)
            }
        }
    }

    fn open_part(&mut self, _part: Part) -> Result<(), Error> {
        Ok(())
    }

    fn close_part(&mut self) -> Result<(), Error> {
        Ok(())
    }
}

/// Writes what a sink holds at the end: `12.`, or `refused 12.` where it has refused.
pub fn put_held(out: &mut String, text: &str, has_refused: bool) -> Result<(), Stop> {
    if !has_refused {
        return put_text(out, text);
    }
    put_text(out, "refused")?;
    if text.is_empty() {
        return Ok(());
    }
    put_text(out, " ")?;
    put_text(out, text)
}

/// Writes what a sink with room for `room` bytes holds of a value.
pub fn put_in_room<W: Writeable>(out: &mut String, value: &W, room: usize) -> Result<(), Stop> {
    let mut sink = Bounded::new(*out.allocator(), room);
    let is_refused = value.write_to(&mut sink).is_err();
    let held = if is_refused == sink.has_refused() {
        put_held(out, sink.text(), is_refused)
    } else {
        put_text(out, "neither taken nor refused")
    };
    drop(sink);
    held
}
