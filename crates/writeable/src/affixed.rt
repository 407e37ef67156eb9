//! A value with a text before it and one after it.

use crate::error::Error;
use crate::format_sink::display;
use crate::length_hint::LengthHint;
use crate::sink::Sink;
use crate::write::Writeable;
use std::fmt;
use std::marker::Model;

/// A value between two texts, which may be empty: `€` before `5`, and ` net` after it, are `€5 net`.
///
/// The two texts are borrowed, and are not parts; the value keeps its own parts.
#[derive(Clone, Debug, Drop)]
pub struct Affixed<'a, T> {
    /// What is written before the value: `€` of `€5 net`.
    pub before: &'a str,
    /// The value: `5` of `€5 net`.
    pub value: T,
    /// What is written after the value: ` net` of `€5 net`.
    pub behind: &'a str,
}

impl<'a, T> Model for Affixed<'a, T> {
    ghost use Rattle.writeable.specs.Affixed.{BetweenTexts};

    ghost Value = { BetweenTexts T };

    ghost view = { λ s. record { before = s.before.now; value = s.value; behind = s.behind.now } };
}

/// The text before, the value with its parts, the text after: `€5 net`.
///
/// `Error`, only where the sink refused: it has taken a beginning. Writing allocates only what the sink and the value
/// do. The hint is the value's, with the lengths of the two texts added to its ends; so it is at least these, 7 of
/// `€5 net`.
impl<'a, T: Writeable> Writeable for Affixed<'a, T> {
    ghost use Rattle.std.specs.Prelude.{◌+◌, ◌≤◌, length, min};
    ghost use Rattle.writeable.specs.Affixed.{affixed};
    ghost use Rattle.writeable.specs.AnnotatedText.{text_of};
    ghost use Rattle.writeable.specs.LengthHint.{IsWithinHint};

    ghost events = { λ s. affixed T.events s };

    fn write_to<S: Sink>(&self, sink: &mut S) -> Result<(), Error> {
        sink.write_str(self.before)?;
        self.value.write_to(sink)?;
        sink.write_str(self.behind)
    }

    fn writeable_length_hint(&self) -> LengthHint
        ensures within { IsWithinHint result (length (text_of (affixed T.events self.now))) }
        ensures low { min (length self.now.before + length self.now.behind) usize.MAX ≤ result.low }
    {
        self.value
            .writeable_length_hint()
            .longer_by(self.before.len())
            .longer_by(self.behind.len())
    }
}

/// The same text, without its parts: `€5 net`. It allocates only what the writer and the value do.
impl<'a, T: Writeable> fmt::Display for Affixed<'a, T> {
    ghost use Rattle.std.specs.Prelude.{Some};
    ghost use Rattle.writeable.specs.Affixed.{affixed};
    ghost use Rattle.writeable.specs.AnnotatedText.{text_of};

    ghost output = { λ s. Some (text_of (affixed T.events s)) };

    fn fmt<W: fmt::Write>(&self, f: &mut fmt::Formatter<W>) -> fmt::Result {
        display(self, f)
    }
}
