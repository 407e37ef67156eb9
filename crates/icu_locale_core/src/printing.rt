//! Printing a data locale: its text, without parts.

ghost use Rattle.std.specs.Prelude.{◌≡◌, ◌++◌, ◌≤◌, false, is_err, length, OnOk, OnErr};
ghost use Rattle.writeable.specs.AnnotatedText.{bytes};
ghost use Rattle.writeable.specs.Taking.{HasBegun};
ghost use Rattle.icu_locale_core_grammar.specs.TagPreferences.{subdivision_text};
ghost use Rattle.icu_locale_core.specs.DataText.{data_text, piece_tail, keyword_head, subdivision_tail, data_events};

use crate::data_locale::DataLocale;
use icu_locale_core_langid::write_optional;
use icu_locale_core_preference_keywords::SubdivisionId;
use icu_locale_core_subtags::laws::subtags_are_words;
use icu_locale_core_subtags::{SubtagOf, SubtagRule};
use std::fmt;
use writeable::{Error, LengthHint, Sink, Writeable, display};

// Writes the subdivision as a keyword.
fn write_keyword<S: Sink>(subdivision: SubdivisionId, sink: &mut S) -> Result<(), Error>
    requires { S.refused sink.old ≡ false }
    ensures ok { OnOk result (S.takes sink.old (bytes keyword_head ++ bytes (subdivision_text subdivision)) sink.new) }
    ensures refused { S.refused sink.new ≡ is_err result }
    ensures begun { OnErr result
        (HasBegun S.takes S.lacks_room sink.old (bytes keyword_head ++ bytes (subdivision_text subdivision)) sink.new) }
{
    sink.write_str("-u-sd-")?;
    subdivision.write_to(sink)
}

// Writes the subdivision as a keyword, where there is one.
#[tactic(auto, using(crate::proofs::DataTextLemmas::subdivision_events, crate::proofs::DataTextLemmas::no_subdivision_events))]
fn write_subdivision<S: Sink>(subdivision: Option<SubdivisionId>, sink: &mut S) -> Result<(), Error>
    requires { S.refused sink.old ≡ false }
    ensures ok { OnOk result (S.takes sink.old (bytes (subdivision_tail subdivision)) sink.new) }
    ensures refused { S.refused sink.new ≡ is_err result }
    ensures begun { OnErr result
        (HasBegun S.takes S.lacks_room sink.old (bytes (subdivision_tail subdivision)) sink.new) }
{
    match subdivision {
        Some(subdivision) => write_keyword(subdivision, sink),
        None => Ok(()),
    }
}

// Writes the text, part by part.
fn write_parts<S: Sink>(data_locale: &DataLocale, sink: &mut S) -> Result<(), Error>
    requires { S.refused sink.old ≡ false }
    ensures ok { OnOk result (S.takes sink.old (data_events data_locale.now) sink.new) }
    ensures refused { S.refused sink.new ≡ is_err result }
    ensures begun { OnErr result (HasBegun S.takes S.lacks_room sink.old (data_events data_locale.now) sink.new) }
{
    sink.write_str(data_locale.language.as_str())?;
    write_optional(data_locale.script, sink)?;
    write_optional(data_locale.region, sink)?;
    write_optional(data_locale.variant, sink)?;
    write_subdivision(data_locale.subdivision, sink)
}

// How many bytes `write_optional` writes.
#[tactic(auto, using(icu_locale_core_langid::proofs::LanguageTextLemmas::one_piece_length))]
fn piece_length<R: SubtagRule<N>, const N: usize>(piece: Option<SubtagOf<R, N>>) -> usize
    requires { N ≤ 8 }
    ensures value { result ≡ length (piece_tail piece) }
    ensures bound { result ≤ 9 }
{
    match piece {
        Some(piece) => {
            subtags_are_words(&piece);
            piece.as_str().len() + 1
        }
        None => 0,
    }
}

// How many bytes `write_subdivision` writes.
#[tactic(auto, using(crate::proofs::DataTextLemmas::subdivision_length))]
fn subdivision_length(subdivision: Option<SubdivisionId>) -> usize
    ensures value { result ≡ length (subdivision_tail subdivision) }
    ensures bound { result ≤ 14 }
{
    match subdivision {
        Some(subdivision) => {
            let piece = subdivision.into_subtag();
            subtags_are_words(&piece);
            piece.as_str().len() + 6
        }
        None => 0,
    }
}

// How many bytes the text has.
#[tactic(auto, using(crate::proofs::DataTextLemmas::length_joined))]
fn text_length(data_locale: &DataLocale) -> usize
    ensures { result ≡ length (data_text data_locale.now) }
{
    subtags_are_words(&data_locale.language);
    let language = data_locale.language.as_str().len();
    let script = piece_length(data_locale.script);
    let region = piece_length(data_locale.region);
    let variant = piece_length(data_locale.variant);
    language + script + region + variant + subdivision_length(data_locale.subdivision)
}

/// The text of the tag that it is: `en-US-u-sd-ustx`. The hint is its length. Source: UTS 35, section 3.2.1.
impl Writeable for DataLocale {
    ghost use Rattle.std.specs.Prelude.{◌≡◌, Some, length};
    ghost use Rattle.writeable.specs.AnnotatedText.{bytes, text_of};
    ghost use Rattle.writeable.specs.LengthHint.{IsWithinHint};
    ghost use Rattle.icu_locale_core.specs.DataText.{data_text};

    ghost events = { λ d. bytes (data_text d) };

    #[tactic(auto, using(crate::proofs::DataTextLemmas::events_joined))]
    fn write_to<S: Sink>(&self, sink: &mut S) -> Result<(), Error> {
        write_parts(self, sink)
    }

    #[tactic(auto, using(writeable::proofs::AnnotatedTextLemmas::text_of_bytes))]
    fn writeable_length_hint(&self) -> LengthHint
        ensures within { IsWithinHint result (length (text_of (bytes (data_text self.now)))) }
        ensures low { result.low ≡ length (data_text self.now) }
        ensures high { result.high ≡ Some (length (data_text self.now)) }
    {
        LengthHint::exact(text_length(self))
    }
}

/// The same text.
impl fmt::Display for DataLocale {
    ghost use Rattle.std.specs.Prelude.{Some};
    ghost use Rattle.icu_locale_core.specs.DataText.{data_text};

    ghost output = { λ d. Some (data_text d) };

    #[tactic(auto, using(writeable::proofs::AnnotatedTextLemmas::text_of_bytes))]
    fn fmt<W: fmt::Write>(&self, f: &mut fmt::Formatter<W>) -> fmt::Result {
        display(self, f)
    }
}

/// The text between braces: `DataLocale{en-US-u-sd-ustx}`.
impl fmt::Debug for DataLocale {
    fn fmt<W: fmt::Write>(&self, f: &mut fmt::Formatter<W>) -> fmt::Result {
        write!(f, "DataLocale{{{self}}}")
    }
}
