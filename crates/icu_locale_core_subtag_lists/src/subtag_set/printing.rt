//! Printing a set: its subtags between hyphens, without parts.

ghost use Rattle.std.specs.Prelude.{◌<◌, ◌^◌, length, SomeIff};
ghost use Rattle.icu_locale_core_grammar.specs.Pieces.{joined_text};

use crate::printing::{joined_length, write_joined};
use crate::subtag_set::SubtagSet;
use icu_locale_core_subtags::SubtagRule;
use std::fmt;
use writeable::{Error, LengthHint, Sink, Writeable, display};

// How many bytes the text of a set has, where a `usize` holds it.
fn text_length<R: SubtagRule<8>>(set: &SubtagSet<R>) -> Option<usize>
    ensures { SomeIff result (length (joined_text set.now) < 2 ^ 64) (length (joined_text set.now)) }
{
    match set.as_slice().split_first() {
        Some((first, others)) => joined_length(first, others),
        None => Some(0),
    }
}

/// The subtags in byte order, with hyphens between them: `1996-fonipa`. Nothing of the empty set.
impl<R: SubtagRule<8>> Writeable for SubtagSet<R> {
    ghost use Rattle.std.specs.Prelude.{◌≡◌, ◌<◌, ◌^◌, Some, length};
    ghost use Rattle.writeable.specs.AnnotatedText.{bytes, text_of};
    ghost use Rattle.writeable.specs.LengthHint.{IsWithinHint};
    ghost use Rattle.icu_locale_core_grammar.specs.Pieces.{joined_text};

    ghost events = { λ v. bytes (joined_text v) };

    fn write_to<S: Sink>(&self, sink: &mut S) -> Result<(), Error> {
        match self.as_slice().split_first() {
            Some((first, others)) => write_joined(first, others, sink),
            None => Ok(()),
        }
    }

    #[tactic(auto, using(writeable::proofs::AnnotatedTextLemmas::text_of_bytes))]
    fn writeable_length_hint(&self) -> LengthHint
        ensures within { IsWithinHint result (length (text_of (bytes (joined_text self.now)))) }
        ensures low { length (joined_text self.now) < 2 ^ 64 → result.low ≡ length (joined_text self.now) }
        ensures high { length (joined_text self.now) < 2 ^ 64 → result.high ≡ Some (length (joined_text self.now)) }
    {
        match text_length(self) {
            Some(length) => LengthHint::exact(length),
            None => LengthHint::at_least(usize::MAX),
        }
    }
}

impl<R: SubtagRule<8>> fmt::Display for SubtagSet<R> {
    ghost use Rattle.std.specs.Prelude.{Some};
    ghost use Rattle.icu_locale_core_grammar.specs.Pieces.{joined_text};

    ghost output = { λ v. Some (joined_text v) };

    #[tactic(auto, using(writeable::proofs::AnnotatedTextLemmas::text_of_bytes))]
    fn fmt<W: fmt::Write>(&self, f: &mut fmt::Formatter<W>) -> fmt::Result {
        display(self, f)
    }
}
