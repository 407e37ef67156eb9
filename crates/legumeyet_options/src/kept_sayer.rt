//! What says many texts, each as text alone.

ghost use Rattle.std.specs.Prelude.{◌≡◌, ◌≢◌, ◌++◌, false, Ok, Err, Some, IfErr, IfSome, IsTrue, OnOk};
ghost use Rattle.icu_decimal_direct.specs.TextDigits.{number_spelled};
ghost use Rattle.icu_decimal_direct.specs.TextTables.{text_tables};
ghost use Rattle.icu_decimal.specs.PlainText.{decimal_text};
ghost use Rattle.locale_numbers_answers.specs.NumberReading.{number, reading_of};
ghost use Rattle.locale_numbers_formatter.specs.FormatText.{plain_tables};
ghost use Rattle.legumeyet_options.specs.KeptSayers.{KnowsTexts, PutSaid, usual};
ghost use Rattle.legumeyet_options.specs.Sayings.{saying};
ghost use Rattle.legumeyet_options.specs.declared.saying.Sayer.TheVariants as by;

use crate::saying::{NotSaid, Sayer};
use icu_decimal_direct::{TextDigits, TextTables};
use locale_numbers_formats::{LeadingZeros, NumberOptions, Rounding, SignAsked, TrailingZeros};
use locale_numbers_formatter::laws::{format_is_text, plain_is_layered};
use locale_numbers_formatter::{FormatterKind, NumberFormatter};
use std::alloc::{AllocError, Global};
use std::marker::Model;

/// What says many texts: it puts plain numbers directly, where their tables are of that kind and nothing is asked of their
/// digits and their sign. A clause sees the [`Sayer`].
#[derive(Drop)]
pub struct KeptSayer<'a> {
    sayer: Sayer<'a>,
    texts: Option<TextTables<'a>>,
}

impl<'a> Model for KeptSayer<'a> {
    ghost use Rattle.legumeyet_options.specs.declared.saying.Sayer.{Sayer};
    ghost use Rattle.legumeyet_options.specs.KeptSayers.{KnowsTexts};

    ghost Value = { Sayer };

    ghost view = { λ k. k.sayer };

    ghost invariant = { λ k. KnowsTexts k.sayer k.texts };
}

// Whether options are those of no words, which leave a plain number as it is given.
fn is_usual(options: &NumberOptions) -> bool
    ensures { IsTrue result → options.now ≡ usual }
{
    matches!(
        *options,
        NumberOptions {
            rounding: Rounding::Usual,
            leading_zeros: LeadingZeros::TrimRoundedZero,
            zeros: TrailingZeros::Keep,
            integer_digits: 0,
            fraction_digits: 0,
            sign: SignAsked::Keep,
        }
    )
}

// What texts are put with directly by a formatter, where it is one of plain numbers.
fn texts_of<'a>(formatter: &NumberFormatter<'a>) -> Option<TextTables<'a>>
    ensures { IfSome result (λ texts. formatter.now ≡ plain_tables (text_tables texts)) }
{
    match formatter.kind() {
        FormatterKind::Plain(plain) => {
            TextTables::of(plain.symbols(), plain.digits(), plain.tables().strategy())
        }
        FormatterKind::Compact(_)
        | FormatterKind::CompactDigits(_)
        | FormatterKind::Scientific(_)
        | FormatterKind::Percent(_)
        | FormatterKind::Currency(_) => None,
    }
}

// The same of what says texts.
fn known_texts<'a>(sayer: &Sayer<'a>) -> Option<TextTables<'a>>
    ensures { KnowsTexts sayer.now result }
{
    match sayer {
        Sayer::Writes(Some(formatter), options, false) if is_usual(options) => texts_of(formatter),
        _ => None,
    }
}

// How many bytes a text may have that is put directly.
const ROOM: usize = 136;

// Puts the text of digits after what `out` holds.
fn put_digits(
    texts: &TextTables<'_>,
    digits: &TextDigits<'_>,
    out: &mut Vec<u8>,
) -> Result<(), AllocError>
    ensures text { OnOk result (out.new.items
        ≡ out.old.items ++ decimal_text (text_tables texts.now) (number_spelled digits.now)) }
{
    let mut bytes = [0; ROOM];
    let end = texts.put(digits, &mut bytes, 0);
    out.extend_from_slice(&bytes[..end])
}

// The digits of a text that says a number.
fn digits_of(text: &[u8]) -> Option<TextDigits<'_>>
    ensures { IfSome result (λ digits. reading_of text.now ≡ number (number_spelled digits)) }
{
    TextDigits::of(text)
}

// Puts what is said of a text, by its digits and directly.
fn put_direct(
    _sayer: &Sayer<'_>,
    texts: &TextTables<'_>,
    _text: &[u8],
    digits: &TextDigits<'_>,
    out: &mut Vec<u8>,
) -> Result<(), NotSaid>
    requires known { _sayer.now ≡ by.Writes (Some (plain_tables (text_tables texts.now))) usual false }
    requires reads { reading_of _text.now ≡ number (number_spelled digits.now) }
    ensures said { OnOk result (PutSaid (saying _sayer.now _text.now) out.old.items out.new.items) }
    ensures memory { IfErr result (λ why. why ≡ NotSaid.Memory) }
{
    format_is_text();
    plain_is_layered();
    match put_digits(texts, digits, out) {
        Ok(()) => Ok(()),
        Err(_) => Err(NotSaid::Memory),
    }
}

impl<'a> KeptSayer<'a> {
    /// One that says what this one does. It does not allocate.
    pub fn new(sayer: Sayer<'a>) -> Self
        ensures value { result ≡ sayer.entry }
    {
        let texts = known_texts(&sayer);
        KeptSayer { sayer, texts }
    }

    // Puts what is said of a text after what `out` holds, by way of its parts.
    fn put_said(&self, alloc: Global, text: &[u8], out: &mut Vec<u8>) -> Result<(), NotSaid>
        ensures said { OnOk result (PutSaid (saying self.now text.now) out.old.items out.new.items) }
        ensures refused { IfErr result (λ why. why ≢ NotSaid.Memory
            → (saying self.now text.now ≡ Err why) × (out.new.items ≡ out.old.items)) }
    {
        let sink = match self.sayer.say(alloc, text) {
            Ok(sink) => sink,
            Err(why) => return Err(why),
        };
        match out.extend_from_slice(sink.text().as_bytes()) {
            Ok(()) => Ok(()),
            Err(_) => Err(NotSaid::Memory),
        }
    }

    /// Puts what is said of a text after what `out` holds, without its parts: by one that writes with the formatter of `de`
    /// `1.234,5` for `1234.5`.
    ///
    /// `NotSaid`: why nothing is said; unless it is `Memory`, `out` is as before. Allocates, but for plain numbers only
    /// where `out` lacks room.
    pub fn put(&self, alloc: Global, text: &[u8], out: &mut Vec<u8>) -> Result<(), NotSaid>
        ensures said { OnOk result (PutSaid (saying self.now text.now) out.old.items out.new.items) }
        ensures refused { IfErr result (λ why. why ≢ NotSaid.Memory
            → (saying self.now text.now ≡ Err why) × (out.new.items ≡ out.old.items)) }
    {
        let Some(texts) = &self.texts else {
            return self.put_said(alloc, text, out);
        };
        let Some(digits) = digits_of(text) else {
            return self.put_said(alloc, text, out);
        };
        put_direct(&self.sayer, texts, text, &digits, out)
    }
}
