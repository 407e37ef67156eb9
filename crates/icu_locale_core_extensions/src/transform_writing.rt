//! Printing the extension `t`.

ghost use Rattle.std.specs.Prelude.{◌≡◌, ◌++◌, true, false, is_err, flat_map, OnOk, OnErr};
ghost use Rattle.writeable.specs.AnnotatedText.{bytes};
ghost use Rattle.writeable.specs.Taking.{HasBegun};
ghost use Rattle.icu_locale_core_grammar.specs.NormalText.{inner_pieces};
ghost use Rattle.icu_locale_core_grammar.specs.Pieces.{hyphened};
ghost use Rattle.icu_locale_core_keywords_fields.specs.EntryText.{hyphened_entries};

use crate::block_writing::{Block, length_hint, write_alone};
use crate::transform::Transform;
use icu_locale_core_langid::LanguageIdentifier;
use std::fmt;
use writeable::{Error, LengthHint, Sink, Writeable, display};

// Writes the language part in lower case, each piece with a hyphen before it.
#[tactic(auto, using(crate::proofs::BlockLemmas::no_language_events))]
fn write_language<S: Sink>(lang: &Option<LanguageIdentifier>, sink: &mut S) -> Result<(), Error>
    requires { S.refused sink.old ≡ false }
    ensures ok { OnOk result (S.takes sink.old (bytes (flat_map hyphened (inner_pieces lang.now))) sink.new) }
    ensures refused { S.refused sink.new ≡ is_err result }
    ensures begun { OnErr result
        (HasBegun S.takes S.lacks_room sink.old (bytes (flat_map hyphened (inner_pieces lang.now))) sink.new) }
{
    match lang {
        Some(lang) => lang.write_inner_to(sink),
        None => Ok(()),
    }
}

// Writes the language part and the fields, each piece with a hyphen before it.
fn write_tail<S: Sink>(transform: &Transform, sink: &mut S) -> Result<(), Error>
    requires { S.refused sink.old ≡ false }
    ensures ok { OnOk result
        (S.takes sink.old
        (bytes (flat_map hyphened (inner_pieces transform.now.head))
        ++ bytes (hyphened_entries true transform.now.entries)) sink.new) }
    ensures refused { S.refused sink.new ≡ is_err result }
    ensures begun { OnErr result
        (HasBegun S.takes S.lacks_room sink.old
        (bytes (flat_map hyphened (inner_pieces transform.now.head))
        ++ bytes (hyphened_entries true transform.now.entries)) sink.new) }
{
    write_language(&transform.lang, sink)?;
    transform.fields.write_hyphened(sink)
}

impl Block for Transform {
    ghost use Rattle.icu_locale_core_grammar.specs.Subtags.{transform_text};
    ghost use Rattle.icu_locale_core_grammar.specs.Meaning as meaning;
    ghost use Rattle.icu_locale_core_grammar.specs.NormalText.{transform_pieces};

    ghost first = { λ t. transform_text };

    ghost behind = { λ t. transform_pieces t };

    ghost part = { λ t. meaning.Part.transform t };

    #[tactic(auto, using(crate::proofs::BlockLemmas::no_transform_piece))]
    fn has_no_piece(&self) -> bool {
        self.is_empty()
    }

    fn singleton(&self) -> &str {
        "t"
    }

    #[tactic(auto, using(crate::proofs::BlockLemmas::transform_tail_events))]
    fn write_pieces<S: Sink>(&self, sink: &mut S) -> Result<(), Error> {
        write_tail(self, sink)
    }
}

/// `t`, the language part in lower case and the fields, with hyphens between them: `t-de-latn-m0-true`. Nothing where
/// it is empty.
impl Writeable for Transform {
    ghost use Rattle.std.specs.Prelude.{◌≡◌, ◌<◌, ◌^◌, Some, length};
    ghost use Rattle.writeable.specs.AnnotatedText.{bytes, text_of};
    ghost use Rattle.writeable.specs.LengthHint.{IsWithinHint};
    ghost use Rattle.icu_locale_core_extensions.specs.ExtensionText.{transform_alone};

    ghost events = { λ t. bytes (transform_alone t) };

    fn write_to<S: Sink>(&self, sink: &mut S) -> Result<(), Error> {
        write_alone(self, sink)
    }

    fn writeable_length_hint(&self) -> LengthHint
        ensures within { IsWithinHint result (length (text_of (bytes (transform_alone self.now)))) }
        ensures low { length (transform_alone self.now) < 2 ^ 64 → result.low ≡ length (transform_alone self.now) }
        ensures high { length (transform_alone self.now) < 2 ^ 64
            → result.high ≡ Some (length (transform_alone self.now)) }
    {
        length_hint(self)
    }
}

impl fmt::Display for Transform {
    ghost use Rattle.std.specs.Prelude.{Some};
    ghost use Rattle.icu_locale_core_extensions.specs.ExtensionText.{transform_alone};

    ghost output = { λ t. Some (transform_alone t) };

    #[tactic(auto, using(writeable::proofs::AnnotatedTextLemmas::text_of_bytes))]
    fn fmt<W: fmt::Write>(&self, f: &mut fmt::Formatter<W>) -> fmt::Result {
        display(self, f)
    }
}
