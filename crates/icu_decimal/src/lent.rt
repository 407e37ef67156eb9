//! A value that is lent, written as it is.

ghost use Rattle.std.specs.Prelude.{◌≡◌};

use std::marker::Model;
use writeable::{Error, LengthHint, Sink, Writeable};

// A value that is lent.
#[derive(Drop)]
pub struct Lent<'v, T> {
    value: &'v T,
}

impl<'v, T> Model for Lent<'v, T> {
    ghost Value = { T };

    ghost view = { λ s. s.value.now };
}

impl<'v, T> Lent<'v, T> {
    // The value, which is written as it is.
    pub fn new(value: &'v T) -> Self
        ensures { result ≡ value.now }
    {
        Lent { value }
    }
}

impl<'v, T: Writeable> Writeable for Lent<'v, T> {
    ghost use Rattle.std.specs.Prelude.{length};
    ghost use Rattle.writeable.specs.AnnotatedText.{text_of};
    ghost use Rattle.writeable.specs.LengthHint.{IsWithinHint};

    ghost events = { λ s. T.events s };

    fn write_to<S: Sink>(&self, sink: &mut S) -> Result<(), Error> {
        self.value.write_to(sink)
    }

    fn writeable_length_hint(&self) -> LengthHint
        ensures { IsWithinHint result (length (text_of (T.events self.now))) }
    {
        self.value.writeable_length_hint()
    }
}
