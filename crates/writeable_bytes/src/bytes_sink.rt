//! A sink over bytes of the caller's.

ghost use Rattle.std.specs.Prelude.{◌≡◌, false};

use crate::laying::lay;
use writeable::{Error, Part, Sink};

/// A sink that lays the text over borrowed bytes, from the first on, and leaves out the parts: `a,b` over `....` gives
/// `a,b.`, and over `..` gives `a,`.
///
/// After the end of the bytes it only counts. A call is refused exactly where the length of the text would pass the
/// greatest `usize`. It does not allocate.
#[derive(Drop)]
pub struct BytesSink<'b> {
    /// The bytes that the text is laid over: `a,b.` after `a,b` over `....`.
    pub out: &'b mut [u8],
    /// How many bytes the text has so far, written or not: 3 after `a,b` over `..`.
    pub length: usize,
    /// Whether a call was refused.
    pub refused: bool,
}

impl<'b> BytesSink<'b> {
    /// A sink over these bytes, which holds no text yet.
    pub fn new(out: &'b mut [u8]) -> Self
        ensures { result ≡ record { out = out.entry; length = 0; refused = false } }
    {
        BytesSink {
            out,
            length: 0,
            refused: false,
        }
    }
}

/// `Error`, only where the length of the text would pass the greatest `usize`. It does not allocate.
impl<'b> Sink for BytesSink<'b> {
    ghost use Rattle.writeable_bytes.specs.LaidText.{LaysText, PassesLength, passes_more, lays_nothing, lays_joined};

    ghost takes = { λ s es t. LaysText s.out s.length es t.out t.length };

    ghost lacks_room = { λ s es. PassesLength s.length es };

    ghost refused = { λ s. s.refused };

    ghost lacks_more = { λ s first second passes. passes_more s.length first second passes };

    ghost nothing = { λ s. lays_nothing s.out s.length };

    ghost joins = { λ s t u first second begun _ ended. lays_joined s.out t.out u.out
        s.length t.length u.length first second begun ended };

    fn has_refused(&self) -> bool {
        self.refused
    }

    fn write_str(&mut self, text: &str) -> Result<(), Error> {
        match self.length.checked_add(text.len()) {
            Some(length) => {
                lay(self.out, self.length, text.as_bytes());
                self.length = length;
                Ok(())
            }
            None => {
                self.refused = true;
                Err(Error)
            }
        }
    }

    fn open_part(&mut self, _part: Part) -> Result<(), Error> {
        Ok(())
    }

    fn close_part(&mut self) -> Result<(), Error> {
        Ok(())
    }
}
