//! Writing values: their subtags between hyphens, without parts.

ghost use Rattle.std.specs.Prelude.{◌≡◌, ◌<◌, ◌^◌, false, is_err, length, OnOk, OnErr, SomeIff, IsTrue, ◌↔◌};
ghost use Rattle.writeable.specs.AnnotatedText.{bytes};
ghost use Rattle.writeable.specs.Taking.{HasBegun};
ghost use Rattle.icu_locale_core_keywords_fields.specs.EntryText.{value_text, hyphened_value};

use crate::kind::EntryKind;
use crate::value::ValueOf;
use icu_locale_core_subtag_lists::{joined_length, pieces_length, write_joined, write_pieces};
use std::fmt;
use writeable::{Error, LengthHint, Sink, Writeable, display, strict_cmp};

impl<K: EntryKind> ValueOf<K> {
    /// Writes the subtags, each with a hyphen before it: `-abc-def`. Of a field without a value it is `-true`.
    ///
    /// The condition is that the sink has not refused yet. `Error`, only where the sink refused: it has taken a
    /// beginning. Only the sink may allocate.
    pub fn write_hyphened<S: Sink>(&self, sink: &mut S) -> Result<(), Error>
        requires { S.refused sink.old ≡ false }
        ensures ok { OnOk result (S.takes sink.old (bytes (hyphened_value K.needs self.now)) sink.new) }
        ensures refused { S.refused sink.new ≡ is_err result }
        ensures begun { OnErr result
            (HasBegun S.takes S.lacks_room sink.old (bytes (hyphened_value K.needs self.now)) sink.new) }
    {
        if self.is_empty() && K::needs_value() {
            return sink.write_str("-true");
        }
        write_pieces(self.as_subtags_slice(), sink)
    }

    /// Whether the text of the value is this one, in normal case: of `abc-def` true for `abc-def`, false for `ABC-def`.
    ///
    /// Of a keyword without a value it is the empty text, of a field without one `true`. It does not allocate.
    pub fn eq_str(&self, other: &str) -> bool
        ensures { IsTrue result ↔ (value_text K.needs self.now ≡ other.now) }
    {
        strict_cmp(self, other.as_bytes()).is_eq()
    }

    /// How many bytes `write_hyphened` writes: 8 of `abc-def`. `None` where a `usize` does not hold it. It does not
    /// allocate.
    pub fn hyphened_length(&self) -> Option<usize>
        ensures { SomeIff result (length (hyphened_value K.needs self.now) < 2 ^ 64)
            (length (hyphened_value K.needs self.now)) }
    {
        if self.is_empty() && K::needs_value() {
            return Some(5);
        }
        pieces_length(self.as_subtags_slice())
    }
}

impl<K: EntryKind> Writeable for ValueOf<K> {
    ghost use Rattle.std.specs.Prelude.{◌≡◌, ◌<◌, ◌^◌, Some, length};
    ghost use Rattle.writeable.specs.AnnotatedText.{bytes, text_of};
    ghost use Rattle.writeable.specs.LengthHint.{IsWithinHint};
    ghost use Rattle.icu_locale_core_keywords_fields.specs.EntryText.{value_text};

    ghost events = { λ v. bytes (value_text K.needs v) };

    fn write_to<S: Sink>(&self, sink: &mut S) -> Result<(), Error> {
        match self.as_subtags_slice().split_first() {
            Some((first, others)) => write_joined(first, others, sink),
            None => {
                if K::needs_value() {
                    sink.write_str("true")
                } else {
                    Ok(())
                }
            }
        }
    }

    #[tactic(auto, using(writeable::proofs::AnnotatedTextLemmas::text_of_bytes))]
    fn writeable_length_hint(&self) -> LengthHint
        ensures within { IsWithinHint result (length (text_of (bytes (value_text K.needs self.now)))) }
        ensures low { length (value_text K.needs self.now) < 2 ^ 64
            → result.low ≡ length (value_text K.needs self.now) }
        ensures high { length (value_text K.needs self.now) < 2 ^ 64
            → result.high ≡ Some (length (value_text K.needs self.now)) }
    {
        match value_length(self) {
            Some(length) => LengthHint::exact(length),
            None => LengthHint::at_least(usize::MAX),
        }
    }
}

// How many bytes the text of a value has, where a `usize` holds it.
fn value_length<K: EntryKind>(value: &ValueOf<K>) -> Option<usize>
    ensures { SomeIff result (length (value_text K.needs value.now) < 2 ^ 64) (length (value_text K.needs value.now)) }
{
    match value.as_subtags_slice().split_first() {
        Some((first, others)) => joined_length(first, others),
        None => Some(if K::needs_value() { 4 } else { 0 }),
    }
}

impl<K: EntryKind> fmt::Display for ValueOf<K> {
    ghost use Rattle.std.specs.Prelude.{Some};
    ghost use Rattle.icu_locale_core_keywords_fields.specs.EntryText.{value_text};

    ghost output = { λ v. Some (value_text K.needs v) };

    #[tactic(auto, using(writeable::proofs::AnnotatedTextLemmas::text_of_bytes))]
    fn fmt<W: fmt::Write>(&self, f: &mut fmt::Formatter<W>) -> fmt::Result {
        display(self, f)
    }
}

impl<K: EntryKind> fmt::Debug for ValueOf<K> {
    fn fmt<W: fmt::Write>(&self, f: &mut fmt::Formatter<W>) -> fmt::Result {
        fmt::Debug::fmt(self.as_subtags_slice(), f)
    }
}
