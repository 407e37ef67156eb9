//! Numbers written with a formatter and options, one after the other.

ghost use Rattle.std.specs.Prelude.{◌≡◌};
ghost use Rattle.std.proofs.Common.{inl};
ghost use Rattle.legumeyet_c_values.specs.Numbers.{given_of};
ghost use Rattle.legumeyet_c_values.specs.Putting.{IsPut};
ghost use Rattle.legumeyet_c.specs.ColumnWriting.{IsAskedFault, WritesAsked};
ghost use Rattle.legumeyet_c.specs.Writing.{asked_for};

use crate::direct::put_digits;
use crate::formatting::put_text;
use crate::lent_formatter::LentFormatter;
use fixed_decimal::Decimal;
use icu_decimal_direct::{TextDigits, TextTables};
use legumeyet_c_values::{CallError, GivenNumber, NumberWriter, change};
use locale_numbers_formats::NumberOptions;
use std::alloc::Global;
use std::marker::Model;

// Writes a number, changed as options ask for; `value` is room for it.
pub(crate) fn write_given(
    alloc: Global,
    lent: &LentFormatter<'_>,
    options: &NumberOptions,
    number: GivenNumber<'_>,
    value: &mut Decimal,
    out: &mut [u8],
    length: &mut usize,
) -> Result<(), CallError>
    ensures { IsPut (WritesAsked (asked_for lent.now options.now) (given_of number.entry))
        (IsAskedFault (asked_for lent.now options.now) (given_of number.entry)) out.old out.new length.old length.new
        result }
{
    match number.assign_changed(alloc, options, lent.fractions(), value) {
        Ok(()) => put_text(lent, value, out, length),
        Err(error) => Err(error),
    }
}

// A formatter with what is made of each number, and what texts are put with directly, where that can be.
#[derive(Drop)]
pub(crate) struct FormatWriter<'l> {
    lent: &'l LentFormatter<'l>,
    texts: Option<TextTables<'l>>,
    options: &'l NumberOptions,
}

impl<'l> Model for FormatWriter<'l> {
    ghost use Rattle.std.specs.Prelude.{◌≡◌, IfSome};
    ghost use Rattle.icu_decimal_direct.specs.TextTables.{text_tables};
    ghost use Rattle.legumeyet_c.specs.Writing.{Asked, asked_for, asked_plainly};

    ghost Value = { Asked };

    ghost view = { λ w. asked_for w.lent.now w.options.now };

    ghost invariant = { λ w. IfSome w.texts (λ texts. asked_plainly (text_tables texts) ≡ asked_for w.lent.now w.options.now) };
}

impl<'l> FormatWriter<'l> {
    // What writes numbers with a formatter and options. It does not allocate.
    pub(crate) fn new(lent: &'l LentFormatter<'l>, options: &'l NumberOptions) -> FormatWriter<'l>
        ensures { result ≡ asked_for lent.now options.now }
    {
        FormatWriter {
            lent,
            texts: lent.texts(options),
            options,
        }
    }
}

impl<'l> NumberWriter for FormatWriter<'l> {
    ghost says = { WritesAsked };

    ghost fails = { IsAskedFault };

    ghost faults = { λ asked number error fault. inl (inl fault) };

    fn write(
        &self,
        number: &mut Decimal,
        out: &mut [u8],
        length: &mut usize,
    ) -> Result<(), CallError> {
        match change(number, self.options, self.lent.fractions()) {
            Ok(()) => put_text(self.lent, number, out, length),
            Err(error) => Err(error),
        }
    }

    fn write_text(
        &self,
        alloc: Global,
        text: &[u8],
        number: &mut Decimal,
        out: &mut [u8],
        length: &mut usize,
    ) -> Result<(), CallError> {
        let given = GivenNumber::Text(text);
        let Some(texts) = &self.texts else {
            return write_given(alloc, self.lent, self.options, given, number, out, length);
        };
        match TextDigits::of(text) {
            Some(digits) => put_digits(texts, &digits, out, length),
            None => write_given(alloc, self.lent, self.options, given, number, out, length),
        }
    }
}
