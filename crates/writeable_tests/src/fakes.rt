//! Values and sinks that the rows use.
ghost use Rattle.std.specs.Prelude.{◌≡◌, ◌||◌, is_err};

use std::fmt;
use writeable::{Error, Part, Sink, Writeable};

pub const OUTER: Part = Part {
    category: "test",
    value: "A",
};

pub const INNER: Part = Part {
    category: "test",
    value: "B",
};

/// `a,b`, with the part A around all of it and B around the comma.
#[derive(Clone, Copy)]
pub struct Pair;

impl Writeable for Pair {
    ghost use Rattle.std.specs.Prelude.{◌++◌, codes};
    ghost use Rattle.writeable.specs.AnnotatedText.{bytes, opening, closing};
    ghost use Rattle.writeable_tests.specs.Names.{outer, inner};

    ghost events = { λ _. opening outer ++ (bytes (codes "a") ++ (opening inner
        ++ (bytes (codes ",") ++ (closing ++ (bytes (codes "b") ++ closing))))) };

    fn write_to<S: Sink>(&self, sink: &mut S) -> Result<(), Error> {
        sink.open_part(OUTER)?;
        sink.write_str("a")?;
        sink.open_part(INNER)?;
        sink.write_str(",")?;
        sink.close_part()?;
        sink.write_str("b")?;
        sink.close_part()
    }
}

/// A writer of a formatter that fails at once.
#[derive(Drop)]
pub struct Failing;

impl fmt::Write for Failing {
    fn write_str(&mut self, _text: &str) -> fmt::Result {
        Err(fmt::Error)
    }
}

/// A sink that takes a number of calls and refuses the next one.
#[derive(Drop)]
pub struct Short {
    pub calls: usize,
    pub refused: bool,
}

impl Short {
    fn take(&mut self) -> Result<(), Error>
        ensures { self.new.refused ≡ (self.old.refused || is_err result) }
    {
        match self.calls.checked_sub(1) {
            Some(left) => {
                self.calls = left;
                Ok(())
            }
            None => {
                self.refused = true;
                Err(Error)
            }
        }
    }
}

impl Sink for Short {
    ghost use Rattle.std.specs.Prelude.{⊤};

    // which events were taken is left open
    ghost takes = { λ _ _ _. ⊤ };

    ghost lacks_room = { λ _ _. ⊤ };

    ghost refused = { λ s. s.refused };

    ghost lacks_more = { λ _ _ _ lacking. lacking };

    ghost nothing = { λ _. tt };

    ghost joins = { λ _ _ _ _ _ _ _ _. tt };

    fn has_refused(&self) -> bool {
        self.refused
    }

    fn write_str(&mut self, _text: &str) -> Result<(), Error> {
        self.take()
    }

    fn open_part(&mut self, _part: Part) -> Result<(), Error> {
        self.take()
    }

    fn close_part(&mut self) -> Result<(), Error> {
        self.take()
    }
}
