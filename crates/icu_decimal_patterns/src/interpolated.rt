//! A value in a pattern.

ghost use Rattle.std.specs.Prelude.{◌≡◌, option_map};
ghost use Rattle.std.specs.Option.{option_eq};
ghost use Rattle.icu_decimal_patterns.specs.SamePattern.{same_pattern};

use crate::pattern::{Pattern, least_length, write_in};
use std::fmt;
use std::marker::Model;
use writeable::{Error, LengthHint, Sink, Writeable, display};

/// A value in a pattern, or by itself where there is no pattern: `1.2` in the pattern of thousands is `1.2K`.
///
/// The parts are those of the value; the texts of the pattern are no parts.
#[derive(Debug, Drop)]
pub struct Interpolated<'l, T> {
    pattern: Option<&'l Pattern>,
    value: T,
}

impl<'l, T> Model for Interpolated<'l, T> {
    ghost use Rattle.std.specs.Prelude.{option_map};
    ghost use Rattle.icu_decimal_patterns.specs.Pattern.{InPattern};

    ghost Value = { InPattern T };

    ghost view = { λ s. record { pattern = option_map (λ p. p.now) s.pattern; value = s.value } };
}

impl<'l, T> Interpolated<'l, T> {
    /// A value in a pattern, which is borrowed; without one, the value by itself. `1.2` in `{0}K` is written `1.2K`,
    /// and without a pattern `1.2`. It does not allocate.
    pub fn new(pattern: Option<&'l Pattern>, value: T) -> Self
        ensures { result ≡ record { pattern = option_map (λ p. p.now) pattern.entry; value = value } }
    {
        Interpolated { pattern, value }
    }

    /// The value without the pattern: `1.2` of `1.2K`. It does not allocate.
    pub fn value(&self) -> &T
        ensures { result.now ≡ self.now.value }
    {
        &self.value
    }

    /// Another value in the same pattern: of `1.2K` with `3` it is `3K`. It does not allocate.
    pub fn with_value<U>(&self, value: U) -> Interpolated<'l, U>
        ensures { result ≡ record { pattern = self.now.pattern; value = value } }
    {
        Interpolated {
            pattern: self.pattern,
            value,
        }
    }
}

/// The text before the placeholder, the value with its parts, the text after it: `1.2K`. A pattern without a
/// placeholder is written by itself, and so is a value without a pattern.
impl<'l, T: Writeable> Writeable for Interpolated<'l, T> {
    ghost use Rattle.std.specs.Prelude.{length};
    ghost use Rattle.writeable.specs.AnnotatedText.{text_of};
    ghost use Rattle.writeable.specs.LengthHint.{IsWithinHint};
    ghost use Rattle.icu_decimal_patterns.specs.Pattern.{interpolated_events};

    ghost events = { λ s. interpolated_events T.events s };

    fn write_to<S: Sink>(&self, sink: &mut S) -> Result<(), Error> {
        match self.pattern {
            Some(pattern) => write_in(pattern, &self.value, sink),
            None => self.value.write_to(sink),
        }
    }

    #[tactic(auto, using(crate::proofs::HintLemmas::pattern_is_longer))]
    fn writeable_length_hint(&self) -> LengthHint
        ensures { IsWithinHint result (length (text_of (interpolated_events T.events self.now))) }
    {
        let inner = self.value.writeable_length_hint().low;
        match self.pattern {
            Some(pattern) => LengthHint::at_least(least_length(pattern, inner)),
            None => LengthHint::at_least(inner),
        }
    }
}

/// The same text, without its parts: `1.2K`.
impl<'l, T: Writeable> fmt::Display for Interpolated<'l, T> {
    ghost use Rattle.std.specs.Prelude.{Some};
    ghost use Rattle.writeable.specs.AnnotatedText.{text_of};
    ghost use Rattle.icu_decimal_patterns.specs.Pattern.{interpolated_events};

    ghost output = { λ s. Some (text_of (interpolated_events T.events s)) };

    fn fmt<W: fmt::Write>(&self, f: &mut fmt::Formatter<W>) -> fmt::Result {
        display(self, f)
    }
}

// Whether both patterns are none, or the same.
fn have_same_pattern(a: Option<&Pattern>, b: Option<&Pattern>) -> bool
    ensures { result ≡ option_eq same_pattern (option_map (λ p. p.now) a.entry) (option_map (λ p. p.now) b.entry) }
{
    match (a, b) {
        (None, None) => true,
        (Some(a), Some(b)) => *a == *b,
        _ => false,
    }
}

/// Equal where the values are, and the patterns: `1.2K` equals `1.2K`, and not `1.2M`.
impl<'l, T: PartialEq> PartialEq for Interpolated<'l, T> {
    ghost use Rattle.std.specs.Prelude.{◌&&◌};
    ghost use Rattle.std.specs.Option.{option_eq};
    ghost use Rattle.std.specs.Cmp.{and_per, on_per, partial_equiv_from_equiv};
    ghost use Rattle.std.specs.Cmp.Lexicographic.{options_equiv};
    ghost use Rattle.icu_decimal_patterns.specs.SamePattern.{same_pattern, same_pattern_equiv};

    ghost eq = { λ a b. T.eq a.value b.value && option_eq same_pattern a.pattern b.pattern };

    ghost laws = { and_per (on_per (λ s. s.value) T.laws) (on_per (λ s. s.pattern)
        (partial_equiv_from_equiv (options_equiv same_pattern_equiv))) };

    fn eq(&self, other: &Self) -> bool {
        self.value == other.value && have_same_pattern(self.pattern, other.pattern)
    }
}

impl<'l, T: Eq> Eq for Interpolated<'l, T> {
    ghost use Rattle.std.specs.Cmp.{and_equiv, on_equiv};
    ghost use Rattle.std.specs.Cmp.Lexicographic.{options_equiv};
    ghost use Rattle.icu_decimal_patterns.specs.SamePattern.{same_pattern_equiv};

    ghost laws = { and_equiv (on_equiv (λ s. s.value) T.Eq.laws)
        (on_equiv (λ s. s.pattern) (options_equiv same_pattern_equiv)) };
}
