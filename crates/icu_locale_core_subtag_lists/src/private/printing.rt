//! Printing private subtags.

ghost use Rattle.std.specs.Prelude.{◌≡◌, ◌<◌, ◌^◌, ◌++◌, false, is_err, length, flat_map, OnOk, OnErr, SomeIff};
ghost use Rattle.writeable.specs.AnnotatedText.{bytes};
ghost use Rattle.writeable.specs.Taking.{HasBegun};
ghost use Rattle.icu_locale_core_grammar.specs.Subtags.{private_text};
ghost use Rattle.icu_locale_core_grammar.specs.Pieces.{hyphened, joined_text};
ghost use Rattle.icu_locale_core_grammar.specs.NormalText.{private_pieces};

use crate::printing::{pieces_length, write_pieces};
use crate::private::Private;
use icu_locale_core_subtags::private::Subtag;
use std::fmt;
use writeable::{Error, LengthHint, Sink, Writeable, display};

// The number of bytes of the text; `None` where a `usize` does not hold it.
fn text_length(private: &Private) -> Option<usize>
    ensures { SomeIff result (length (joined_text (private_pieces private.now)) < 2 ^ 64)
        (length (joined_text (private_pieces private.now))) }
{
    if private.is_empty() {
        return Some(0);
    }
    pieces_length(private.as_slice())?.checked_add(1)
}

// Writes `x`, and the pieces after it.
fn write_after_singleton<S: Sink>(pieces: &[Subtag], sink: &mut S) -> Result<(), Error>
    requires { S.refused sink.old ≡ false }
    ensures ok { OnOk result (S.takes sink.old (bytes private_text ++ bytes (flat_map hyphened pieces.now)) sink.new) }
    ensures refused { S.refused sink.new ≡ is_err result }
    ensures begun { OnErr result
        (HasBegun S.takes S.lacks_room sink.old (bytes private_text ++ bytes (flat_map hyphened pieces.now)) sink.new) }
{
    sink.write_str("x")?;
    write_pieces(pieces, sink)
}

/// `x` and the subtags, with hyphens between them: `x-foo-a`. Nothing where there is none.
impl Writeable for Private {
    ghost use Rattle.std.specs.Prelude.{◌≡◌, ◌<◌, ◌^◌, Some, length};
    ghost use Rattle.writeable.specs.AnnotatedText.{bytes, text_of};
    ghost use Rattle.writeable.specs.LengthHint.{IsWithinHint};
    ghost use Rattle.icu_locale_core_grammar.specs.Pieces.{joined_text};
    ghost use Rattle.icu_locale_core_grammar.specs.NormalText.{private_pieces};

    ghost events = { λ v. bytes (joined_text (private_pieces v)) };

    #[tactic(auto, using(crate::proofs::PrintingLemmas::no_private_events, crate::proofs::PrintingLemmas::private_events))]
    fn write_to<S: Sink>(&self, sink: &mut S) -> Result<(), Error> {
        if self.is_empty() {
            return Ok(());
        }
        write_after_singleton(self.as_slice(), sink)
    }

    #[tactic(auto, using(writeable::proofs::AnnotatedTextLemmas::text_of_bytes))]
    fn writeable_length_hint(&self) -> LengthHint
        ensures within { IsWithinHint result (length (text_of (bytes (joined_text (private_pieces self.now))))) }
        ensures low { length (joined_text (private_pieces self.now)) < 2 ^ 64
            → result.low ≡ length (joined_text (private_pieces self.now)) }
        ensures high { length (joined_text (private_pieces self.now)) < 2 ^ 64
            → result.high ≡ Some (length (joined_text (private_pieces self.now))) }
    {
        match text_length(self) {
            Some(length) => LengthHint::exact(length),
            None => LengthHint::at_least(usize::MAX),
        }
    }
}

impl fmt::Display for Private {
    ghost use Rattle.std.specs.Prelude.{Some};
    ghost use Rattle.icu_locale_core_grammar.specs.Pieces.{joined_text};
    ghost use Rattle.icu_locale_core_grammar.specs.NormalText.{private_pieces};

    ghost output = { λ v. Some (joined_text (private_pieces v)) };

    #[tactic(auto, using(writeable::proofs::AnnotatedTextLemmas::text_of_bytes))]
    fn fmt<W: fmt::Write>(&self, f: &mut fmt::Formatter<W>) -> fmt::Result {
        display(self, f)
    }
}
