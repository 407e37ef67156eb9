//! Values that can be written: as a text with parts, as a text without them, or into a new string.

ghost use Rattle.std.specs.Prelude.{◌≡◌, false, List, [], length, OnOk, OnErr, IfOk, IsOk, is_err};

use crate::error::Error;
use crate::length_hint::LengthHint;
use crate::partless_sink::PartlessSink;
use crate::sink::Sink;
use crate::text_sink::TextSink;
use std::alloc::{AllocError, Global};

/// A value that can be written as a text with parts. A `&str` is one, without parts.
///
/// After ICU4X's `writeable::Writeable`.
pub trait Writeable {
    ghost use Rattle.std.specs.String.{string_bytes};
    ghost use Rattle.writeable.specs.AnnotatedText.{Event, text_of, without_parts};
    ghost use Rattle.writeable.specs.Taking.{HasBegun};
    ghost use Rattle.writeable.specs.LengthHint.{IsWithinHint};

    // what the value writes
    ghost events: { Self → List Event };

    /// Writes the value into `sink`: `a,b` after `x` is `xa,b`. The condition is that the sink has not refused yet.
    ///
    /// `Ok`: the sink took the whole value after what it held. [`Error`], only where the sink refused: it has taken a
    /// beginning. It allocates only what the sink does.
    fn write_to<S: Sink>(&self, sink: &mut S) -> Result<(), Error>
        requires { S.refused sink.old ≡ false }
        ensures ok { OnOk result (S.takes sink.old (events self.now) sink.new) }
        ensures refused { S.refused sink.new ≡ is_err result }
        ensures begun { OnErr result (HasBegun S.takes S.lacks_room sink.old (events self.now) sink.new) };

    /// Writes the text of the value into `sink`, without its parts: `a,b` with parts after `x` is `xa,b` with no part
    /// more. The condition is that the sink has not refused yet.
    ///
    /// `Ok`: the sink took the whole text after what it held. [`Error`], only where the sink refused: it has taken a
    /// beginning. It allocates only what the sink does.
    fn write_text<S: Sink>(&self, sink: &mut S) -> Result<(), Error>
        requires { S.refused sink.old ≡ false }
        ensures ok { OnOk result (S.takes sink.old (without_parts (events self.now)) sink.new) }
        ensures refused { S.refused sink.new ≡ is_err result }
        ensures begun { OnErr result
            (HasBegun S.takes S.lacks_room sink.old (without_parts (events self.now)) sink.new) }
    {
        let mut partless = PartlessSink { to: sink };
        let written = self.write_to(&mut partless);
        let PartlessSink { to: _ } = partless;
        written
    }

    /// Bounds of how many bytes the text has: for `"a,b"` exactly 3; a value that says nothing has 0 and more. It does
    /// not allocate.
    fn writeable_length_hint(&self) -> LengthHint
        ensures { IsWithinHint result (length (text_of (events self.now))) }
    {
        LengthHint::at_least(0)
    }

    /// The text of the value, without its parts: `a,b` with parts gives the string `a,b`.
    ///
    /// It allocates, unless the text is empty. `AllocError`: out of memory.
    #[tactic(auto, using(crate::proofs::AnnotatedTextLemmas::text_of_bytes))]
    final fn write_to_string(&self, alloc: Global) -> Result<String, AllocError>
        ensures succeeds { text_of (events self.now) ≡ [] → IsOk result }
        ensures ok { IfOk result (λ text. string_bytes text ≡ text_of (events self.now)) }
    {
        let mut sink = TextSink::with_capacity(alloc, self.writeable_length_hint().low)?;
        match self.write_text(&mut sink) {
            Ok(()) => Ok(sink.into_string()),
            Err(_) => Err(AllocError),
        }
    }
}

impl<'a> Writeable for &'a str {
    ghost use Rattle.std.specs.Prelude.{Some};
    ghost use Rattle.writeable.specs.AnnotatedText.{bytes, text_of};
    ghost use Rattle.writeable.specs.LengthHint.{IsWithinHint};

    ghost events = { λ text. bytes text.now };

    fn write_to<S: Sink>(&self, sink: &mut S) -> Result<(), Error> {
        sink.write_str(self)
    }

    #[tactic(auto, using(crate::proofs::AnnotatedTextLemmas::text_of_bytes))]
    fn write_text<S: Sink>(&self, sink: &mut S) -> Result<(), Error> {
        sink.write_str(self)
    }

    #[tactic(auto, using(crate::proofs::AnnotatedTextLemmas::text_of_bytes))]
    fn writeable_length_hint(&self) -> LengthHint
        ensures within { IsWithinHint result (length (text_of (bytes self.now.now))) }
        ensures low { result.low ≡ length self.now.now }
        ensures high { result.high ≡ Some (length self.now.now) }
    {
        LengthHint::exact(self.len())
    }
}
