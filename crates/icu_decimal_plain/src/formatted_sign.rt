//! A value between the affixes of its sign.

ghost use Rattle.std.specs.Prelude.{◌≡◌, ◌++◌, false, is_err, option_map, IfOk, IsOk, OnOk, OnErr};
ghost use Rattle.std.specs.Option.{option_eq};
ghost use Rattle.writeable.specs.AnnotatedText.{bytes, opening, closing};
ghost use Rattle.writeable.specs.PartName.{name_of};
ghost use Rattle.writeable.specs.Taking.{HasBegun};
ghost use Rattle.icu_decimal_plain.specs.Affixes.{affixes_of, as_part, prefix_events, suffix_events};
ghost use Rattle.icu_decimal_plain.specs.HeldAffixes.{part_name, texts_of};
ghost use Rattle.icu_decimal_plain.specs.SameAffixes.{same_affixes};

use crate::writing::write_part;
use fixed_decimal::Sign;
use icu_decimal_symbols::{DecimalSymbols, parts};
use std::alloc::AllocError;
use std::fmt;
use std::marker::Model;
use writeable::{Error, LengthHint, Part, Sink, Writeable, display};

// The signs that have affixes.
#[derive(Clone, Copy, Debug)]
enum SignPart {
    Minus,
    Plus,
}

impl SignPart {
    // The part that an affix of the sign is.
    fn part(self) -> Part
        ensures { name_of result ≡ part_name self }
    {
        match self {
            SignPart::Minus => parts::MINUS_SIGN,
            SignPart::Plus => parts::PLUS_SIGN,
        }
    }
}

// The affixes of a sign, and which sign it is.
#[derive(Clone, Copy, Debug)]
struct Affixes<'l> {
    part: SignPart,
    prefix: &'l str,
    suffix: &'l str,
}

/// A value between the affixes of its sign: `1,234` with a minus sign is `-1,234` in English.
///
/// Each affix is the part `MINUS_SIGN` or `PLUS_SIGN`.
#[derive(Debug, Drop)]
pub struct FormattedSign<'l, T> {
    value: T,
    affixes: Option<Affixes<'l>>,
}

impl<'l, T> Model for FormattedSign<'l, T> {
    ghost use Rattle.std.specs.Prelude.{option_map};
    ghost use Rattle.icu_decimal_plain.specs.Affixes.{WithSign};

    ghost Value = { WithSign T };

    ghost use Rattle.icu_decimal_plain.specs.HeldAffixes.{texts_of};

    ghost view = { λ s. record { value = s.value; affixes = option_map texts_of s.affixes } };
}

// The affixes of the sign in these symbols.
fn affixes_in<'l>(sign: Sign, symbols: &'l DecimalSymbols) -> Option<Affixes<'l>>
    ensures { option_map texts_of result ≡ affixes_of symbols.now.strings sign }
{
    match sign {
        Sign::None => None,
        Sign::Negative => Some(Affixes {
            part: SignPart::Minus,
            prefix: symbols.minus_sign_prefix(),
            suffix: symbols.minus_sign_suffix(),
        }),
        Sign::Positive => Some(Affixes {
            part: SignPart::Plus,
            prefix: symbols.plus_sign_prefix(),
            suffix: symbols.plus_sign_suffix(),
        }),
    }
}

impl<'l, T> FormattedSign<'l, T> {
    /// The value with the affixes that the sign has in these symbols, which are borrowed: `"5"` with `Sign::Negative`
    /// is written `-5` in English. It does not allocate.
    pub fn new(sign: Sign, symbols: &'l DecimalSymbols, value: T) -> Self
        ensures { result ≡ record { value = value; affixes = affixes_of symbols.now.strings sign } }
    {
        FormattedSign {
            value,
            affixes: affixes_in(sign, symbols),
        }
    }

    /// The value without the affixes: `1,234` of `-1,234`. It does not allocate.
    pub fn value(&self) -> &T
        ensures { result.now ≡ self.now.value }
    {
        &self.value
    }
}

impl<'l, T: Clone> FormattedSign<'l, T> {
    /// A copy, its value cloned: that of `-1,234.5` writes `-1,234.5`.
    ///
    /// It allocates where cloning the value does. `AllocError`: out of memory, only there. A `FormattedDecimal` does
    /// not allocate, and always succeeds.
    pub fn try_clone(&self) -> Result<Self, AllocError>
        ensures succeeds { T.is_infallible self.now.value → IsOk result }
        ensures value { IfOk result (λ copy. T.is_clone self.now.value copy.value) }
        ensures affixes { IfOk result (λ copy. copy.affixes ≡ self.now.affixes) }
    {
        let value = self.value.clone()?;
        Ok(FormattedSign {
            value,
            affixes: self.affixes,
        })
    }
}

// Writes the prefix, where there is a sign.
fn write_prefix<S: Sink>(affixes: Option<Affixes<'_>>, sink: &mut S) -> Result<(), Error>
    requires { S.refused sink.old ≡ false }
    ensures ok { OnOk result (S.takes sink.old (prefix_events (option_map texts_of affixes.entry)) sink.new) }
    ensures refused { S.refused sink.new ≡ is_err result }
    ensures begun { OnErr result
        (HasBegun S.takes S.lacks_room sink.old (prefix_events (option_map texts_of affixes.entry)) sink.new) }
{
    match affixes {
        Some(affixes) => write_part(affixes.part.part(), affixes.prefix, sink),
        None => Ok(()),
    }
}

// Writes the suffix, where there is a sign.
fn write_suffix<S: Sink>(affixes: Option<Affixes<'_>>, sink: &mut S) -> Result<(), Error>
    requires { S.refused sink.old ≡ false }
    ensures ok { OnOk result (S.takes sink.old (suffix_events (option_map texts_of affixes.entry)) sink.new) }
    ensures refused { S.refused sink.new ≡ is_err result }
    ensures begun { OnErr result
        (HasBegun S.takes S.lacks_room sink.old (suffix_events (option_map texts_of affixes.entry)) sink.new) }
{
    match affixes {
        Some(affixes) => write_part(affixes.part.part(), affixes.suffix, sink),
        None => Ok(()),
    }
}

/// The prefix, the value and the suffix: `-1,234` in English, of which `-` is the part `MINUS_SIGN`.
///
/// `Error`, only where the sink refused: it has taken a beginning. Writing allocates only what the sink and the value
/// do. The hint is the least length that the value's hint says, of `-1,234` at least 4; it allocates only what the
/// value's hint does.
impl<'l, T: Writeable> Writeable for FormattedSign<'l, T> {
    ghost use Rattle.std.specs.Prelude.{length};
    ghost use Rattle.writeable.specs.AnnotatedText.{text_of};
    ghost use Rattle.writeable.specs.LengthHint.{IsWithinHint};
    ghost use Rattle.icu_decimal_plain.specs.Affixes.{events_with_sign};

    ghost events = { λ s. events_with_sign T.events s };

    fn write_to<S: Sink>(&self, sink: &mut S) -> Result<(), Error> {
        write_prefix(self.affixes, sink)?;
        self.value.write_to(sink)?;
        write_suffix(self.affixes, sink)
    }

    #[tactic(auto, using(crate::proofs::TextLemmas::without_sign, crate::proofs::TextLemmas::with_sign))]
    fn write_text<S: Sink>(&self, sink: &mut S) -> Result<(), Error> {
        let Some(affixes) = self.affixes else {
            return self.value.write_text(sink);
        };
        sink.write_str(affixes.prefix)?;
        self.value.write_text(sink)?;
        sink.write_str(affixes.suffix)
    }

    #[tactic(auto, using(crate::proofs::HintLemmas::value_is_shorter))]
    fn writeable_length_hint(&self) -> LengthHint
        ensures { IsWithinHint result (length (text_of (events_with_sign T.events self.now))) }
    {
        LengthHint::at_least(self.value.writeable_length_hint().low)
    }
}

/// The same text, without its parts: `-1,234`. It allocates only what the writer and the value do.
impl<'l, T: Writeable> fmt::Display for FormattedSign<'l, T> {
    ghost use Rattle.std.specs.Prelude.{Some};
    ghost use Rattle.writeable.specs.AnnotatedText.{text_of};
    ghost use Rattle.icu_decimal_plain.specs.Affixes.{events_with_sign};

    ghost output = { λ s. Some (text_of (events_with_sign T.events s)) };

    fn fmt<W: fmt::Write>(&self, f: &mut fmt::Formatter<W>) -> fmt::Result {
        display(self, f)
    }
}

// Whether the affixes are the same, and their parts.
fn have_same_texts(a: Option<Affixes<'_>>, b: Option<Affixes<'_>>) -> bool
    ensures { result ≡ option_eq same_affixes (option_map texts_of a.entry) (option_map texts_of b.entry) }
{
    match (a, b) {
        (None, None) => true,
        (Some(a), Some(b)) => {
            a.part.part() == b.part.part() && a.prefix == b.prefix && a.suffix == b.suffix
        }
        _ => false,
    }
}

/// Equal where the values are, and the affixes: `-5` equals `-5`, and not `5`.
impl<'l, T: PartialEq> PartialEq for FormattedSign<'l, T> {
    ghost use Rattle.std.specs.Prelude.{◌&&◌};
    ghost use Rattle.std.specs.Option.{option_eq};
    ghost use Rattle.std.specs.Cmp.{and_per, on_per, partial_equiv_from_equiv};
    ghost use Rattle.std.specs.Cmp.Lexicographic.{options_equiv};
    ghost use Rattle.icu_decimal_plain.specs.SameAffixes.{same_affixes, same_affixes_equiv};

    ghost eq = { λ a b. T.eq a.value b.value && option_eq same_affixes a.affixes b.affixes };

    ghost laws = { and_per (on_per (λ s. s.value) T.laws) (on_per (λ s. s.affixes)
        (partial_equiv_from_equiv (options_equiv same_affixes_equiv))) };

    fn eq(&self, other: &Self) -> bool {
        self.value == other.value && have_same_texts(self.affixes, other.affixes)
    }
}

impl<'l, T: Eq> Eq for FormattedSign<'l, T> {
    ghost use Rattle.std.specs.Cmp.{and_equiv, on_equiv};
    ghost use Rattle.std.specs.Cmp.Lexicographic.{options_equiv};
    ghost use Rattle.icu_decimal_plain.specs.SameAffixes.{same_affixes_equiv};

    ghost laws = { and_equiv (on_equiv (λ s. s.value) T.Eq.laws)
        (on_equiv (λ s. s.affixes) (options_equiv same_affixes_equiv)) };
}
