//! Printing a language identifier within `t`: all in lower case.

ghost use Rattle.std.specs.Prelude.{◌≡◌, ◌++◌, ◌<◌, ◌^◌, false, is_err, length, map, flat_map, option_to_list, OnOk, OnErr, SomeIff};
ghost use Rattle.writeable.specs.AnnotatedText.{bytes};
ghost use Rattle.writeable.specs.Taking.{HasBegun};
ghost use Rattle.icu_locale_core_grammar.specs.Subtags.{lower};
ghost use Rattle.icu_locale_core_grammar.specs.Pieces.{hyphened};
ghost use Rattle.icu_locale_core_langid.specs.LanguageText.{inner_text, inner_events};

use crate::language_identifier::LanguageIdentifier;
use crate::laws::identifiers_read_back;
use crate::writing::{text_length, write_piece};
use icu_locale_core_subtag_lists::write_pieces;
use icu_locale_core_subtags::{SubtagOf, SubtagRule};
use writeable::{Error, Sink};

// Writes a hyphen and the subtag in lower case, where there is one.
#[tactic(auto, using(crate::proofs::LanguageTextLemmas::one_piece_events, crate::proofs::LanguageTextLemmas::no_piece_events))]
fn write_optional_lower<R: SubtagRule<N>, const N: usize, S: Sink>(
    subtag: Option<SubtagOf<R, N>>,
    sink: &mut S,
) -> Result<(), Error>
    requires { S.refused sink.old ≡ false }
    ensures ok { OnOk result
        (S.takes sink.old (bytes (flat_map hyphened (map lower (option_to_list subtag)))) sink.new) }
    ensures refused { S.refused sink.new ≡ is_err result }
    ensures begun { OnErr result
        (HasBegun S.takes S.lacks_room sink.old (bytes (flat_map hyphened (map lower (option_to_list subtag))))
        sink.new) }
{
    match subtag {
        Some(subtag) => write_piece(subtag.to_tinystr().to_ascii_lowercase().as_str(), sink),
        None => Ok(()),
    }
}

// Writes the text within `t`, part by part.
fn write_inner_parts<S: Sink>(id: &LanguageIdentifier, sink: &mut S) -> Result<(), Error>
    requires { S.refused sink.old ≡ false }
    ensures ok { OnOk result (S.takes sink.old (inner_events id.now) sink.new) }
    ensures refused { S.refused sink.new ≡ is_err result }
    ensures begun { OnErr result (HasBegun S.takes S.lacks_room sink.old (inner_events id.now) sink.new) }
{
    write_piece(id.language.as_str(), sink)?;
    write_optional_lower(id.script, sink)?;
    write_optional_lower(id.region, sink)?;
    write_pieces(id.variants.as_slice(), sink)
}

impl LanguageIdentifier {
    /// Writes the identifier as it is written within `t`: each piece in lower case, with a hyphen before it.
    ///
    /// Of `en-Latn-US` it writes `-en-latn-us`. The condition is that the sink has not refused yet. `Error`, only where
    /// the sink refused: it has taken a beginning. Only the sink may allocate.
    #[tactic(auto, using(crate::proofs::LanguageTextLemmas::inner_joined))]
    pub fn write_inner_to<S: Sink>(&self, sink: &mut S) -> Result<(), Error>
        requires { S.refused sink.old ≡ false }
        ensures ok { OnOk result (S.takes sink.old (bytes (inner_text self.now)) sink.new) }
        ensures refused { S.refused sink.new ≡ is_err result }
        ensures begun { OnErr result (HasBegun S.takes S.lacks_room sink.old (bytes (inner_text self.now)) sink.new) }
    {
        identifiers_read_back(self);
        write_inner_parts(self, sink)
    }

    /// How many bytes `write_inner_to` writes, where a `usize` holds the number: of `en-Latn-US` they are 11. It does
    /// not allocate.
    #[tactic(auto, using(crate::proofs::LanguageTextLemmas::inner_length))]
    pub fn inner_length(&self) -> Option<usize>
        ensures { SomeIff result (length (inner_text self.now) < 2 ^ 64) (length (inner_text self.now)) }
    {
        text_length(self)?.checked_add(1)
    }
}
