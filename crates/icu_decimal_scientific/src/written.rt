//! A number with its exponent, as a formatter writes it.

ghost use Rattle.std.specs.Prelude.{◌≡◌, false, is_err, OnErr, OnOk};
ghost use Rattle.writeable.specs.PartName.{name_of};
ghost use Rattle.writeable.specs.Taking.{HasBegun};
ghost use Rattle.icu_decimal_plain.specs.Affixes.{affixes_of, as_part};
ghost use Rattle.icu_decimal_plain.specs.BorrowedTables.{borrowed_tables};
ghost use Rattle.icu_decimal_plain.specs.PlainText.{prefix_text, suffix_text};
ghost use Rattle.icu_decimal_scientific.specs.ExponentialText.{exponent_events, integer_events, sign_events, signed_exponent};

use crate::parts;
use fixed_decimal::{Decimal, Sign};
use icu_decimal_plain::{DecimalTables, FormattedUnsignedDecimal};
use icu_decimal_symbols::DecimalSymbols;
use std::fmt;
use std::marker::Model;
use writeable::{Error, Part, Sink, Writeable, display};

// An exponent: its digits, and the affixes of its sign.
#[derive(Debug, Drop)]
pub(crate) struct WrittenExponent<'l> {
    sign: Sign,
    prefix: &'l str,
    suffix: &'l str,
    number: FormattedUnsignedDecimal<'l>,
}

impl<'l> Model for WrittenExponent<'l> {
    ghost use Rattle.icu_decimal_scientific.specs.ExponentialText.{SignedExponent};

    ghost Value = { SignedExponent };

    ghost view = { λ e. record { sign = e.sign; prefix = e.prefix.now; suffix = e.suffix.now; number = e.number } };
}

/// A number without its sign, with its exponent: `1.2E-6` of `-1.2E-6`. It borrows the number and the tables.
///
/// Its parts are those of the number, and those of `parts`.
#[derive(Debug, Drop)]
pub struct NumberWithExponent<'l> {
    number: FormattedUnsignedDecimal<'l>,
    separator: &'l str,
    exponent: WrittenExponent<'l>,
}

impl<'l> Model for NumberWithExponent<'l> {
    ghost use Rattle.icu_decimal_scientific.specs.ExponentialText.{Exponential};

    ghost Value = { Exponential };

    ghost view = { λ n. record { number = n.number; separator = n.separator.now; exponent = n.exponent } };
}

// The prefix that a sign has in these symbols.
pub(crate) fn prefix_in(sign: Sign, symbols: &DecimalSymbols) -> &str
    ensures { result.now ≡ prefix_text (affixes_of symbols.now.strings sign) }
{
    match sign {
        Sign::None => "",
        Sign::Negative => symbols.minus_sign_prefix(),
        Sign::Positive => symbols.plus_sign_prefix(),
    }
}

// The suffix that a sign has in these symbols.
pub(crate) fn suffix_in(sign: Sign, symbols: &DecimalSymbols) -> &str
    ensures { result.now ≡ suffix_text (affixes_of symbols.now.strings sign) }
{
    match sign {
        Sign::None => "",
        Sign::Negative => symbols.minus_sign_suffix(),
        Sign::Positive => symbols.plus_sign_suffix(),
    }
}

// Writes a text as a part.
fn write_part<S: Sink>(part: Part, text: &str, sink: &mut S) -> Result<(), Error>
    requires { S.refused sink.old ≡ false }
    ensures ok { OnOk result (S.takes sink.old (as_part (name_of part) text.now) sink.new) }
    ensures refused { S.refused sink.new ≡ is_err result }
    ensures begun { OnErr result (HasBegun S.takes S.lacks_room sink.old (as_part (name_of part) text.now) sink.new) }
{
    sink.open_part(part)?;
    sink.write_str(text)?;
    sink.close_part()
}

// Writes an affix of the sign of an exponent.
fn write_sign<S: Sink>(sign: Sign, text: &str, sink: &mut S) -> Result<(), Error>
    requires { S.refused sink.old ≡ false }
    ensures ok { OnOk result (S.takes sink.old (sign_events sign text.now) sink.new) }
    ensures refused { S.refused sink.new ≡ is_err result }
    ensures begun { OnErr result (HasBegun S.takes S.lacks_room sink.old (sign_events sign text.now) sink.new) }
{
    match sign {
        Sign::None => Ok(()),
        Sign::Negative => write_part(parts::EXPONENT_MINUS_SIGN, text, sink),
        Sign::Positive => write_part(parts::EXPONENT_PLUS_SIGN, text, sink),
    }
}

// Writes the digits of an exponent.
fn write_integer<S: Sink>(number: &FormattedUnsignedDecimal<'_>, sink: &mut S) -> Result<(), Error>
    requires { S.refused sink.old ≡ false }
    ensures ok { OnOk result (S.takes sink.old (integer_events number.now) sink.new) }
    ensures refused { S.refused sink.new ≡ is_err result }
    ensures begun { OnErr result (HasBegun S.takes S.lacks_room sink.old (integer_events number.now) sink.new) }
{
    sink.open_part(parts::EXPONENT_INTEGER)?;
    number.write_text(sink)?;
    sink.close_part()
}

impl<'l> WrittenExponent<'l> {
    // The exponent with the affixes that its sign has in these tables.
    pub(crate) fn new(tables: &'l DecimalTables<'l>, exponent: &'l Decimal) -> Self
        ensures { result ≡ signed_exponent (borrowed_tables tables.now) exponent.now }
    {
        let symbols = tables.symbols();
        WrittenExponent {
            sign: exponent.sign,
            prefix: prefix_in(exponent.sign, symbols),
            suffix: suffix_in(exponent.sign, symbols),
            number: tables.format_unsigned(&exponent.absolute),
        }
    }

    // Writes the exponent.
    fn write<S: Sink>(&self, sink: &mut S) -> Result<(), Error>
        requires { S.refused sink.old ≡ false }
        ensures ok { OnOk result (S.takes sink.old (exponent_events self.now) sink.new) }
        ensures refused { S.refused sink.new ≡ is_err result }
        ensures begun { OnErr result (HasBegun S.takes S.lacks_room sink.old (exponent_events self.now) sink.new) }
    {
        write_sign(self.sign, self.prefix, sink)?;
        write_integer(&self.number, sink)?;
        write_sign(self.sign, self.suffix, sink)
    }
}

impl<'l> NumberWithExponent<'l> {
    // The number with this exponent, and the text before it.
    pub(crate) fn new(
        number: FormattedUnsignedDecimal<'l>,
        separator: &'l str,
        exponent: WrittenExponent<'l>,
    ) -> Self
        ensures { result ≡ record { number = number.entry; separator = separator.now; exponent = exponent.entry } }
    {
        NumberWithExponent {
            number,
            separator,
            exponent,
        }
    }
}

/// The number with its exponent, and their parts: `1.2E-6`.
///
/// `Error`, only where the sink refused: it has taken a beginning. Writing allocates only what the sink does.
impl<'l> Writeable for NumberWithExponent<'l> {
    ghost use Rattle.icu_decimal_scientific.specs.ExponentialText.{exponential_events};

    ghost events = { exponential_events };

    fn write_to<S: Sink>(&self, sink: &mut S) -> Result<(), Error> {
        self.number.write_to(sink)?;
        write_part(parts::EXPONENT_SEPARATOR, self.separator, sink)?;
        self.exponent.write(sink)
    }
}

/// The same text, without its parts: `1.2E-6`. It allocates only what the writer does.
impl<'l> fmt::Display for NumberWithExponent<'l> {
    ghost use Rattle.std.specs.Prelude.{Some};
    ghost use Rattle.writeable.specs.AnnotatedText.{text_of};
    ghost use Rattle.icu_decimal_scientific.specs.ExponentialText.{exponential_events};

    ghost output = { λ n. Some (text_of (exponential_events n)) };

    fn fmt<W: fmt::Write>(&self, f: &mut fmt::Formatter<W>) -> fmt::Result {
        display(self, f)
    }
}
