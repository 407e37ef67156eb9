//! Printing the extension `u`.

ghost use Rattle.std.specs.Prelude.{◌≡◌, ◌++◌, false, is_err, flat_map, OnOk, OnErr};
ghost use Rattle.writeable.specs.AnnotatedText.{bytes};
ghost use Rattle.writeable.specs.Taking.{HasBegun};
ghost use Rattle.icu_locale_core_grammar.specs.Pieces.{hyphened};
ghost use Rattle.icu_locale_core_keywords_fields.specs.EntryText.{hyphened_entries};

use crate::block_writing::{Block, length_hint, write_alone};
use crate::unicode::Unicode;
use icu_locale_core_subtag_lists::write_pieces;
use std::fmt;
use writeable::{Error, LengthHint, Sink, Writeable, display};

// Writes the attributes and the keywords, each piece with a hyphen before it.
fn write_tail<S: Sink>(unicode: &Unicode, sink: &mut S) -> Result<(), Error>
    requires { S.refused sink.old ≡ false }
    ensures ok { OnOk result
        (S.takes sink.old
        (bytes (flat_map hyphened unicode.now.head) ++ bytes (hyphened_entries false unicode.now.entries))
        sink.new) }
    ensures refused { S.refused sink.new ≡ is_err result }
    ensures begun { OnErr result
        (HasBegun S.takes S.lacks_room sink.old
        (bytes (flat_map hyphened unicode.now.head) ++ bytes (hyphened_entries false unicode.now.entries))
        sink.new) }
{
    write_pieces(unicode.attributes.as_slice(), sink)?;
    unicode.keywords.write_hyphened(sink)
}

impl Block for Unicode {
    ghost use Rattle.icu_locale_core_grammar.specs.Subtags.{unicode_text};
    ghost use Rattle.icu_locale_core_grammar.specs.Meaning as meaning;
    ghost use Rattle.icu_locale_core_grammar.specs.NormalText.{unicode_pieces};

    ghost first = { λ u. unicode_text };

    ghost behind = { λ u. unicode_pieces u };

    ghost part = { λ u. meaning.Part.unicode u };

    #[tactic(auto, using(crate::proofs::BlockLemmas::no_unicode_piece))]
    fn has_no_piece(&self) -> bool {
        self.is_empty()
    }

    fn singleton(&self) -> &str {
        "u"
    }

    #[tactic(auto, using(crate::proofs::BlockLemmas::unicode_tail_events))]
    fn write_pieces<S: Sink>(&self, sink: &mut S) -> Result<(), Error> {
        write_tail(self, sink)
    }
}

/// `u`, the attributes and the keywords, with hyphens between them: `u-foo-nu-thai`. Nothing where it is empty.
impl Writeable for Unicode {
    ghost use Rattle.std.specs.Prelude.{◌≡◌, ◌<◌, ◌^◌, Some, length};
    ghost use Rattle.writeable.specs.AnnotatedText.{bytes, text_of};
    ghost use Rattle.writeable.specs.LengthHint.{IsWithinHint};
    ghost use Rattle.icu_locale_core_extensions.specs.ExtensionText.{unicode_alone};

    ghost events = { λ u. bytes (unicode_alone u) };

    fn write_to<S: Sink>(&self, sink: &mut S) -> Result<(), Error> {
        write_alone(self, sink)
    }

    fn writeable_length_hint(&self) -> LengthHint
        ensures within { IsWithinHint result (length (text_of (bytes (unicode_alone self.now)))) }
        ensures low { length (unicode_alone self.now) < 2 ^ 64 → result.low ≡ length (unicode_alone self.now) }
        ensures high { length (unicode_alone self.now) < 2 ^ 64 → result.high ≡ Some (length (unicode_alone self.now)) }
    {
        length_hint(self)
    }
}

impl fmt::Display for Unicode {
    ghost use Rattle.std.specs.Prelude.{Some};
    ghost use Rattle.icu_locale_core_extensions.specs.ExtensionText.{unicode_alone};

    ghost output = { λ u. Some (unicode_alone u) };

    #[tactic(auto, using(writeable::proofs::AnnotatedTextLemmas::text_of_bytes))]
    fn fmt<W: fmt::Write>(&self, f: &mut fmt::Formatter<W>) -> fmt::Result {
        display(self, f)
    }
}
