//! The text of a value without its parts.

ghost use Rattle.std.specs.Prelude.{◌≡◌};

use std::marker::Model;
use writeable::{Error, LengthHint, Sink, Writeable};

// A value without its parts: of `1,234` the same text.
#[derive(Drop)]
pub struct TextAlone<'v, T> {
    value: &'v T,
}

impl<'v, T> Model for TextAlone<'v, T> {
    ghost Value = { T };

    ghost view = { λ s. s.value.now };
}

impl<'v, T> TextAlone<'v, T> {
    // The value, of which the text alone is written.
    pub fn new(value: &'v T) -> Self
        ensures { result ≡ value.now }
    {
        TextAlone { value }
    }
}

impl<'v, T: Writeable> Writeable for TextAlone<'v, T> {
    ghost use Rattle.std.specs.Prelude.{length};
    ghost use Rattle.writeable.specs.AnnotatedText.{text_of, without_parts};
    ghost use Rattle.writeable.specs.LengthHint.{IsWithinHint};

    ghost events = { λ s. without_parts (T.events s) };

    fn write_to<S: Sink>(&self, sink: &mut S) -> Result<(), Error> {
        self.value.write_text(sink)
    }

    #[tactic(auto, using(writeable::proofs::AnnotatedTextLemmas::text_of_bytes))]
    fn writeable_length_hint(&self) -> LengthHint
        ensures { IsWithinHint result (length (text_of (without_parts (T.events self.now)))) }
    {
        self.value.writeable_length_hint()
    }
}
