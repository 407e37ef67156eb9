//! Printing a locale: its text, without parts.

ghost use Rattle.std.specs.Prelude.{◌≡◌, ◌<◌, ◌^◌, false, is_err, length, OnOk, OnErr, SomeIff};
ghost use Rattle.writeable.specs.Taking.{HasBegun};
ghost use Rattle.icu_locale_core_grammar.specs.NormalText.{normal_text};
ghost use Rattle.icu_locale_core_locale.specs.LocaleText.{locale_events};

use crate::locale::Locale;
use icu_locale_core_extensions::write_extensions;
use std::fmt;
use writeable::{CountSink, Error, LengthHint, Sink, Writeable, display};

// Writes the text, part by part.
fn write_parts<S: Sink>(locale: &Locale, sink: &mut S) -> Result<(), Error>
    requires { S.refused sink.old ≡ false }
    ensures ok { OnOk result (S.takes sink.old (locale_events locale.now) sink.new) }
    ensures refused { S.refused sink.new ≡ is_err result }
    ensures begun { OnErr result (HasBegun S.takes S.lacks_room sink.old (locale_events locale.now) sink.new) }
{
    locale.id.write_to(sink)?;
    write_extensions(&locale.extensions, false, sink)
}

// How many bytes the text has, where a `usize` holds it.
fn text_length(locale: &Locale) -> Option<usize>
    ensures { SomeIff result (length (normal_text locale.now) < 2 ^ 64) (length (normal_text locale.now)) }
{
    let mut sink = CountSink::new();
    match locale.write_to(&mut sink) {
        Ok(()) => Some(sink.count() as usize),
        Err(_) => None,
    }
}

/// The language part, the extensions in byte order of their singletons, and the private subtags:
/// `en-Latn-US-u-nu-thai-x-foo`.
///
/// A locale that was read prints the normal text of what was read. Source: UTS 35, section 3.2.1.
impl Writeable for Locale {
    ghost use Rattle.std.specs.Prelude.{◌≡◌, ◌<◌, ◌^◌, Some, length};
    ghost use Rattle.writeable.specs.AnnotatedText.{bytes, text_of};
    ghost use Rattle.writeable.specs.LengthHint.{IsWithinHint};
    ghost use Rattle.icu_locale_core_grammar.specs.NormalText.{normal_text};

    ghost events = { λ m. bytes (normal_text m) };

    fn write_to<S: Sink>(&self, sink: &mut S) -> Result<(), Error> {
        write_parts(self, sink)
    }

    #[tactic(auto, using(writeable::proofs::AnnotatedTextLemmas::text_of_bytes))]
    fn writeable_length_hint(&self) -> LengthHint
        ensures within { IsWithinHint result (length (text_of (bytes (normal_text self.now)))) }
        ensures low { length (normal_text self.now) < 2 ^ 64 → result.low ≡ length (normal_text self.now) }
        ensures high { length (normal_text self.now) < 2 ^ 64 → result.high ≡ Some (length (normal_text self.now)) }
    {
        match text_length(self) {
            Some(length) => LengthHint::exact(length),
            None => LengthHint::at_least(usize::MAX),
        }
    }
}

impl fmt::Display for Locale {
    ghost use Rattle.std.specs.Prelude.{Some};
    ghost use Rattle.icu_locale_core_grammar.specs.NormalText.{normal_text};

    ghost output = { λ m. Some (normal_text m) };

    #[tactic(auto, using(writeable::proofs::AnnotatedTextLemmas::text_of_bytes))]
    fn fmt<W: fmt::Write>(&self, f: &mut fmt::Formatter<W>) -> fmt::Result {
        display(self, f)
    }
}

impl fmt::Debug for Locale {
    ghost use Rattle.std.specs.Prelude.{Some};
    ghost use Rattle.icu_locale_core_grammar.specs.NormalText.{normal_text};

    ghost debug_output = { λ m. Some (normal_text m) };

    fn fmt<W: fmt::Write>(&self, f: &mut fmt::Formatter<W>) -> fmt::Result {
        fmt::Display::fmt(self, f)
    }
}
