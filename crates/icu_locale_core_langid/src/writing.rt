//! Printing a language identifier: its text, without parts.

ghost use Rattle.std.specs.Prelude.{◌≡◌, ◌++◌, ◌<◌, ◌^◌, false, [], ◌∷◌, is_err, length, flat_map, option_to_list, OnOk, OnErr, SomeIff};
ghost use Rattle.writeable.specs.AnnotatedText.{bytes};
ghost use Rattle.writeable.specs.Taking.{HasBegun};
ghost use Rattle.icu_locale_core_grammar.specs.Pieces.{hyphen, hyphened};
ghost use Rattle.icu_locale_core_langid.specs.LanguageText.{language_text, language_events};

use crate::language_identifier::LanguageIdentifier;
use icu_locale_core_subtag_lists::write_pieces;
use icu_locale_core_subtags::{SubtagOf, SubtagRule};
use std::fmt;
use writeable::{CountSink, Error, LengthHint, Sink, Writeable, display};

// Writes a hyphen, and the piece.
pub(crate) fn write_piece<S: Sink>(piece: &str, sink: &mut S) -> Result<(), Error>
    requires { S.refused sink.old ≡ false }
    ensures ok { OnOk result (S.takes sink.old (bytes (hyphen ∷ []) ++ bytes piece.now) sink.new) }
    ensures refused { S.refused sink.new ≡ is_err result }
    ensures begun { OnErr result
        (HasBegun S.takes S.lacks_room sink.old (bytes (hyphen ∷ []) ++ bytes piece.now) sink.new) }
{
    sink.write_char('-')?;
    sink.write_str(piece)
}

/// Writes a hyphen and the subtag, where there is one: `-US` of the region `US`, and nothing of none.
///
/// The condition is that the sink has not refused yet. `Error` exactly where the sink refuses. Only the sink may
/// allocate.
#[tactic(auto, using(crate::proofs::LanguageTextLemmas::one_piece_events, crate::proofs::LanguageTextLemmas::no_piece_events))]
pub fn write_optional<R: SubtagRule<N>, const N: usize, S: Sink>(
    subtag: Option<SubtagOf<R, N>>,
    sink: &mut S,
) -> Result<(), Error>
    requires { S.refused sink.old ≡ false }
    ensures ok { OnOk result (S.takes sink.old (bytes (flat_map hyphened (option_to_list subtag))) sink.new) }
    ensures refused { S.refused sink.new ≡ is_err result }
    ensures begun { OnErr result
        (HasBegun S.takes S.lacks_room sink.old (bytes (flat_map hyphened (option_to_list subtag))) sink.new) }
{
    match subtag {
        Some(subtag) => write_piece(subtag.as_str(), sink),
        None => Ok(()),
    }
}

// Writes the text, part by part.
fn write_parts<S: Sink>(id: &LanguageIdentifier, sink: &mut S) -> Result<(), Error>
    requires { S.refused sink.old ≡ false }
    ensures ok { OnOk result (S.takes sink.old (language_events id.now) sink.new) }
    ensures refused { S.refused sink.new ≡ is_err result }
    ensures begun { OnErr result (HasBegun S.takes S.lacks_room sink.old (language_events id.now) sink.new) }
{
    sink.write_str(id.language.as_str())?;
    write_optional(id.script, sink)?;
    write_optional(id.region, sink)?;
    write_pieces(id.variants.as_slice(), sink)
}

// How many bytes the text has: 5 of `en-US`. `None` where a `usize` does not hold it. It is counted as it is written.
pub(crate) fn text_length(id: &LanguageIdentifier) -> Option<usize>
    ensures { SomeIff result (length (language_text id.now) < 2 ^ 64) (length (language_text id.now)) }
{
    let mut sink = CountSink::new();
    match id.write_to(&mut sink) {
        Ok(()) => Some(sink.count() as usize),
        Err(_) => None,
    }
}

impl Writeable for LanguageIdentifier {
    ghost use Rattle.std.specs.Prelude.{◌≡◌, ◌<◌, ◌^◌, Some, length};
    ghost use Rattle.writeable.specs.AnnotatedText.{bytes, text_of};
    ghost use Rattle.writeable.specs.LengthHint.{IsWithinHint};
    ghost use Rattle.icu_locale_core_langid.specs.LanguageText.{language_text};

    ghost events = { λ id. bytes (language_text id) };

    #[tactic(auto, using(crate::proofs::LanguageTextLemmas::events_joined))]
    fn write_to<S: Sink>(&self, sink: &mut S) -> Result<(), Error> {
        write_parts(self, sink)
    }

    #[tactic(auto, using(writeable::proofs::AnnotatedTextLemmas::text_of_bytes))]
    fn writeable_length_hint(&self) -> LengthHint
        ensures within { IsWithinHint result (length (text_of (bytes (language_text self.now)))) }
        ensures low { length (language_text self.now) < 2 ^ 64 → result.low ≡ length (language_text self.now) }
        ensures high { length (language_text self.now) < 2 ^ 64 → result.high ≡ Some (length (language_text self.now)) }
    {
        match text_length(self) {
            Some(length) => LengthHint::exact(length),
            None => LengthHint::at_least(usize::MAX),
        }
    }
}

impl fmt::Display for LanguageIdentifier {
    ghost use Rattle.std.specs.Prelude.{Some};
    ghost use Rattle.icu_locale_core_langid.specs.LanguageText.{language_text};

    ghost output = { λ id. Some (language_text id) };

    #[tactic(auto, using(writeable::proofs::AnnotatedTextLemmas::text_of_bytes))]
    fn fmt<W: fmt::Write>(&self, f: &mut fmt::Formatter<W>) -> fmt::Result {
        display(self, f)
    }
}

/// As `Display`: `en-US`.
impl fmt::Debug for LanguageIdentifier {
    ghost use Rattle.std.specs.Prelude.{Some};
    ghost use Rattle.icu_locale_core_langid.specs.LanguageText.{language_text};

    ghost debug_output = { λ id. Some (language_text id) };

    fn fmt<W: fmt::Write>(&self, f: &mut fmt::Formatter<W>) -> fmt::Result {
        fmt::Display::fmt(self, f)
    }
}
