//! The text of a subdivision: its region in lower case, then its suffix.

ghost use Rattle.std.specs.Prelude.{◌≡◌};
ghost use Rattle.icu_locale_core_grammar.specs.TagPreferences.{subdivision_text};

use crate::subdivision::SubdivisionId;
use icu_locale_core_subtags::Subtag;
use icu_locale_core_subtags::laws::subtags_are_words;
use std::fmt;
use tinystr::TinyAsciiStr;
use writeable::{Error, LengthHint, Sink, Writeable, display};

impl SubdivisionId {
    // The text, at most 7 characters.
    fn text(self) -> TinyAsciiStr<7>
        ensures { result ≡ subdivision_text self }
    {
        subtags_are_words(&self.region);
        subtags_are_words(&self.suffix);
        self.region
            .to_tinystr()
            .to_ascii_lowercase()
            .concat(self.suffix.to_tinystr())
    }

    /// The text as one piece of a value, 3 to 7 letters and digits in lower case: `ustx`. It does not allocate.
    pub fn into_subtag(self) -> Subtag
        ensures { result ≡ subdivision_text self }
    {
        subtags_are_words(&self.region);
        subtags_are_words(&self.suffix);
        let text = self.text();
        match Subtag::try_from_str(text.as_str()) {
            Ok(subtag) => subtag,
            Err(_) => unreachable!(),
        }
    }
}

/// The text, the region in lower case and then the suffix: `ustx`. The hint is its length.
impl Writeable for SubdivisionId {
    ghost use Rattle.std.specs.Prelude.{◌≡◌, Some, length};
    ghost use Rattle.writeable.specs.AnnotatedText.{bytes, text_of};
    ghost use Rattle.writeable.specs.LengthHint.{IsWithinHint};
    ghost use Rattle.icu_locale_core_grammar.specs.TagPreferences.{subdivision_text};

    ghost events = { λ s. bytes (subdivision_text s) };

    fn write_to<S: Sink>(&self, sink: &mut S) -> Result<(), Error> {
        sink.write_str(self.text().as_str())
    }

    #[tactic(auto, using(writeable::proofs::AnnotatedTextLemmas::text_of_bytes))]
    fn writeable_length_hint(&self) -> LengthHint
        ensures within { IsWithinHint result (length (text_of (bytes (subdivision_text self.now)))) }
        ensures low { result.low ≡ length (subdivision_text self.now) }
        ensures high { result.high ≡ Some (length (subdivision_text self.now)) }
    {
        LengthHint::exact(self.text().len())
    }
}

/// The same text.
impl fmt::Display for SubdivisionId {
    ghost use Rattle.std.specs.Prelude.{Some};
    ghost use Rattle.icu_locale_core_grammar.specs.TagPreferences.{subdivision_text};

    ghost output = { λ s. Some (subdivision_text s) };

    #[tactic(auto, using(writeable::proofs::AnnotatedTextLemmas::text_of_bytes))]
    fn fmt<W: fmt::Write>(&self, f: &mut fmt::Formatter<W>) -> fmt::Result {
        display(self, f)
    }
}

/// The text in quotes: `"ustx"`.
impl fmt::Debug for SubdivisionId {
    fn fmt<W: fmt::Write>(&self, f: &mut fmt::Formatter<W>) -> fmt::Result {
        fmt::Debug::fmt(&self.text().as_str(), f)
    }
}
