//! Printing extensions that have no rule of their own, and the private subtags.

use crate::block_writing::{Block, length_hint, write_alone};
use crate::other::Other;
use icu_locale_core_subtag_lists::{Private, write_pieces};
use std::fmt;
use writeable::{Error, LengthHint, Sink, Writeable, display};

impl Block for Other {
    ghost use Rattle.icu_locale_core_grammar.specs.Meaning as meaning;

    ghost first = { λ o. o.0 };

    ghost behind = { λ o. o.1 };

    ghost part = { λ o. meaning.Part.other o.1 };

    #[tactic(auto, using(crate::proofs::BlockLemmas::by_length))]
    fn has_no_piece(&self) -> bool {
        self.is_empty()
    }

    fn singleton(&self) -> &str {
        self.get_ext_str()
    }

    fn write_pieces<S: Sink>(&self, sink: &mut S) -> Result<(), Error> {
        write_pieces(self.as_slice(), sink)
    }
}

impl Block for Private {
    ghost use Rattle.icu_locale_core_grammar.specs.Subtags.{private_text};
    ghost use Rattle.icu_locale_core_grammar.specs.Meaning as meaning;

    ghost first = { λ v. private_text };

    ghost behind = { λ v. v };

    ghost part = { λ v. meaning.Part.other v };

    #[tactic(auto, using(crate::proofs::BlockLemmas::by_length))]
    fn has_no_piece(&self) -> bool {
        self.is_empty()
    }

    fn singleton(&self) -> &str {
        "x"
    }

    fn write_pieces<S: Sink>(&self, sink: &mut S) -> Result<(), Error> {
        write_pieces(self.as_slice(), sink)
    }
}

/// The singleton and the pieces, with hyphens between them: `a-foo-bar`. Nothing where there is no piece.
impl Writeable for Other {
    ghost use Rattle.std.specs.Prelude.{◌≡◌, ◌<◌, ◌^◌, Some, length};
    ghost use Rattle.writeable.specs.AnnotatedText.{bytes, text_of};
    ghost use Rattle.writeable.specs.LengthHint.{IsWithinHint};
    ghost use Rattle.icu_locale_core_extensions.specs.ExtensionText.{other_alone};

    ghost events = { λ o. bytes (other_alone o) };

    fn write_to<S: Sink>(&self, sink: &mut S) -> Result<(), Error> {
        write_alone(self, sink)
    }

    fn writeable_length_hint(&self) -> LengthHint
        ensures within { IsWithinHint result (length (text_of (bytes (other_alone self.now)))) }
        ensures low { length (other_alone self.now) < 2 ^ 64 → result.low ≡ length (other_alone self.now) }
        ensures high { length (other_alone self.now) < 2 ^ 64 → result.high ≡ Some (length (other_alone self.now)) }
    {
        length_hint(self)
    }
}

impl fmt::Display for Other {
    ghost use Rattle.std.specs.Prelude.{Some};
    ghost use Rattle.icu_locale_core_extensions.specs.ExtensionText.{other_alone};

    ghost output = { λ o. Some (other_alone o) };

    #[tactic(auto, using(writeable::proofs::AnnotatedTextLemmas::text_of_bytes))]
    fn fmt<W: fmt::Write>(&self, f: &mut fmt::Formatter<W>) -> fmt::Result {
        display(self, f)
    }
}
