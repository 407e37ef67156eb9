//! What formatters of currencies, percents, units and messages use: a plain or a compact formatter.

ghost use Rattle.std.specs.Prelude.{◌≡◌, ◌↔◌, List, Option, false, is_err, IfOk, IsErrOf, IsOk, IsTrue, OnErr, OnOk};
ghost use Rattle.writeable.specs.AnnotatedText.{Event};
ghost use Rattle.writeable.specs.Taking.{HasBegun};
ghost use Rattle.fixed_decimal.specs.declared.Sign.{Sign};
ghost use Rattle.fixed_decimal.specs.Number.{Number};
ghost use Rattle.fixed_decimal.specs.Range.{IsLong};
ghost use Rattle.icu_decimal_plurals.specs.Operands.{Operands};
ghost use Rattle.icu_decimal_compact_value.specs.Choice.{CanShow};
ghost use Rattle.icu_decimal_plain.specs.Affixes.{AffixTexts, affixes_of, events_with_sign};
ghost use Rattle.icu_decimal.specs.HeldTables.{tables_of};
ghost use Rattle.icu_decimal.specs.AbstractText.{compact_unsigned_events, plain_operands, plain_unsigned_events, shown_operands};
ghost use Rattle.icu_decimal.specs.CompactText.{compact_of};
ghost use Rattle.icu_decimal.specs.FormattedNumbers.{formatted_unsigned_events};
ghost use Rattle.icu_decimal.specs.HeldCompact.{compact_tables_of};
ghost use Rattle.icu_decimal.specs.declared.formatted_unsigned.FormattedUnsigned.{FormattedUnsigned};

use crate::compact_formatter::CompactDecimalFormatter;
use crate::error::WriteFault;
use crate::formatted_unsigned::FormattedUnsigned;
use crate::formatter::DecimalFormatter;
use crate::lent::Lent;
use fixed_decimal::{Sign, UnsignedDecimal};
use icu_decimal_plain::FormattedSign;
use icu_decimal_plurals::PluralOperands;
use std::alloc::AllocError;
use writeable::{Error, Sink, Writeable};

mod private {
    pub trait Sealed {}
}

/// A plain or a compact formatter, as formatters of currencies, percents, units and messages take either of them.
///
/// A number is written without its sign, and then the affixes of the sign around all that is made of it:
/// `format_unsigned` of 5 in English writes `5`, and `format_sign` of the text `5 %` and a minus sign writes `-5 %`.
/// Around what `format_unsigned` returns they are the text of `format`. The trait is sealed: there is no other
/// implementation. After ICU4X's `AbstractFormatter`.
pub trait AbstractFormatter: private::Sealed {
    // the number can be written
    ghost can_write: { Self → Number → Type 0 };

    // writing the number may allocate
    ghost takes_memory: { Self → Number → Type 0 };

    // only for one of more than sixteen digits
    ghost takes_memory_if_long: { (f : Self) (number : Number) → takes_memory f number → IsLong number.count };

    // a number without a sign, with what it is written with
    ghost formatted: { Self → Number → FormattedUnsigned };

    // what it is written as
    ghost unsigned_events: { Self → Number → List Event };

    // the affixes of a sign
    ghost affixes: { Self → Sign → Option AffixTexts };

    // the plural operands of what is shown for a number
    ghost plural_operands: { Self → Number → Operands };

    /// Whether the number can be written: true by a plain formatter, and by a compact one where `can_show` is. In
    /// English both write 1650, and the compact one does not write 32,768 nines.
    ///
    /// It is the condition of `format_unsigned`, `write_unsigned` and `plural_operands`. It does not allocate.
    fn can_write(&self, value: &UnsignedDecimal) -> bool
        ensures { IsTrue result ↔ can_write self.now value.now };

    /// The number without a sign as the formatter writes it: 1650 as `1,650` in English, and as `1.6K` by a compact
    /// formatter.
    ///
    /// The condition is `can_write`. A plain formatter borrows the number and does not allocate. A compact one
    /// allocates where the number has more than sixteen digits, from the first to the last one that is not zero.
    /// `AllocError`: out of memory, only there.
    fn format_unsigned<'l>(
        &'l self,
        value: &'l UnsignedDecimal,
    ) -> Result<FormattedUnsigned<'l>, AllocError>
        requires { can_write self.now value.now }
        ensures value { IfOk result (λ number. number ≡ formatted self.now value.now) }
        ensures events { IfOk result (λ number. formatted_unsigned_events number ≡ unsigned_events self.now value.now) }
        ensures room { OnErr result (takes_memory self.now value.now) };

    /// The value between the affixes of the sign: `5 %` and a minus sign as `-5 %` in English.
    ///
    /// Each affix is the part `MINUS_SIGN` or `PLUS_SIGN`, and `Sign::None` has none. It does not allocate.
    fn format_sign<'l, T: Writeable>(&'l self, sign: Sign, value: T) -> FormattedSign<'l, T>
        ensures { result ≡ record { value = value; affixes = affixes self.now sign } };

    /// Writes the number without a sign: 1650 as `1,650` in English, and as `1.6K` by a compact formatter.
    ///
    /// The condition is `can_write`, and that the sink has not refused yet. `Sink` exactly where the sink refused,
    /// which has then taken a beginning. It allocates as `format_unsigned` does. `Memory`: out of memory, only there,
    /// and nothing was written.
    final fn write_unsigned<S: Sink>(
        &self,
        value: &UnsignedDecimal,
        sink: &mut S,
    ) -> Result<(), WriteFault>
        requires fine { S.refused sink.old ≡ false }
        requires can { can_write self.now value.now }
        ensures sink { IsTrue (S.refused sink.new) ↔ IsErrOf result WriteFault.Sink }
        ensures ok { OnOk result (S.takes sink.old (unsigned_events self.now value.now) sink.new) }
        ensures begun { IsErrOf result WriteFault.Sink
            → HasBegun S.takes S.lacks_room sink.old (unsigned_events self.now value.now) sink.new }
        ensures same { IsErrOf result WriteFault.Memory → sink.new ≡ sink.old }
        ensures room { IsErrOf result WriteFault.Memory → takes_memory self.now value.now }
    {
        self.format_unsigned(value)?.write_to(sink)?;
        Ok(())
    }

    /// Writes the value between the affixes of the sign: `5 %` and a minus sign as `-5 %` in English.
    ///
    /// Each affix is the part `MINUS_SIGN` or `PLUS_SIGN`, and `Sign::None` has none. The sink has not refused yet.
    /// [`Error`] exactly where the sink refused, which has then taken a beginning. Only the sink may allocate.
    final fn write_sign<T: Writeable, S: Sink>(
        &self,
        value: &T,
        sign: Sign,
        sink: &mut S,
    ) -> Result<(), Error>
        requires { S.refused sink.old ≡ false }
        ensures ok { OnOk result
            (S.takes sink.old
            (events_with_sign T.events (record { value = value.now; affixes = affixes self.now sign })) sink.new) }
        ensures refused { S.refused sink.new ≡ is_err result }
        ensures begun { OnErr result
            (HasBegun S.takes S.lacks_room sink.old
            (events_with_sign T.events (record { value = value.now; affixes = affixes self.now sign })) sink.new) }
    {
        self.format_sign(sign, Lent::new(value)).write_to(sink)
    }

    /// The plural operands of what is shown for the number: of 999999 those of `999999`, and by a compact formatter in
    /// English those of 1 with the exponent 6.
    ///
    /// The condition is `can_write`. It allocates as `format_unsigned` does. `AllocError`: out of memory, only there.
    fn plural_operands(&self, value: &UnsignedDecimal) -> Result<PluralOperands, AllocError>
        requires { can_write self.now value.now }
        ensures value { IfOk result (λ operands. operands ≡ plural_operands self.now value.now) }
        ensures room { OnErr result (takes_memory self.now value.now) };
}

impl<'b> private::Sealed for DecimalFormatter<'b> {}

impl<'b> AbstractFormatter for DecimalFormatter<'b> {
    ghost can_write = { λ f number. Unit {0} };

    ghost takes_memory = { λ f number. ⊥ };

    ghost takes_memory_if_long = { λ f number never. absurd never };

    ghost formatted = { λ f number. FormattedUnsigned.Plain (record { number = number; tables = tables_of f }) };

    ghost unsigned_events = { λ f number. plain_unsigned_events (tables_of f) number };

    ghost affixes = { λ f sign. affixes_of (tables_of f).symbols.strings sign };

    ghost plural_operands = { λ f number. plain_operands number };

    fn can_write(&self, _value: &UnsignedDecimal) -> bool {
        true
    }

    fn format_unsigned<'l>(
        &'l self,
        value: &'l UnsignedDecimal,
    ) -> Result<FormattedUnsigned<'l>, AllocError>
        ensures succeeds { IsOk result }
        ensures value { IfOk result
            (λ number. number ≡ FormattedUnsigned.Plain (record { number = value.now; tables = tables_of self.now })) }
        ensures events { IfOk result
            (λ number. formatted_unsigned_events number ≡ plain_unsigned_events (tables_of self.now) value.now) }
        ensures room { OnErr result ⊥ }
    {
        let number = DecimalFormatter::format_unsigned(self, value);
        Ok(FormattedUnsigned::Plain(number))
    }

    fn format_sign<'l, T: Writeable>(&'l self, sign: Sign, value: T) -> FormattedSign<'l, T> {
        FormattedSign::new(sign, self.symbols(), value)
    }

    fn plural_operands(&self, value: &UnsignedDecimal) -> Result<PluralOperands, AllocError>
        ensures succeeds { IsOk result }
        ensures value { IfOk result (λ operands. operands ≡ plain_operands value.now) }
        ensures room { OnErr result ⊥ }
    {
        Ok(PluralOperands::from_significand_and_exponent(value, 0))
    }
}

impl<'b> private::Sealed for CompactDecimalFormatter<'b> {}

impl<'b> AbstractFormatter for CompactDecimalFormatter<'b> {
    ghost can_write = { λ f number. CanShow (compact_tables_of f).patterns.entries number.count };

    ghost takes_memory = { λ f number. IsLong number.count };

    ghost takes_memory_if_long = { λ f number long. long };

    ghost formatted = { λ f number. FormattedUnsigned.Compact (compact_of (compact_tables_of f) number) };

    ghost unsigned_events = { λ f number. compact_unsigned_events (compact_tables_of f) number };

    ghost affixes = { λ f sign. affixes_of (compact_tables_of f).plain.symbols.strings sign };

    ghost plural_operands = { λ f number. shown_operands (compact_tables_of f) number };

    fn can_write(&self, value: &UnsignedDecimal) -> bool {
        self.can_show(value)
    }

    fn format_unsigned<'l>(
        &'l self,
        value: &'l UnsignedDecimal,
    ) -> Result<FormattedUnsigned<'l>, AllocError> {
        Ok(FormattedUnsigned::Compact(self.shown(value)?))
    }

    fn format_sign<'l, T: Writeable>(&'l self, sign: Sign, value: T) -> FormattedSign<'l, T> {
        FormattedSign::new(sign, self.plain.symbols(), value)
    }

    fn plural_operands(&self, value: &UnsignedDecimal) -> Result<PluralOperands, AllocError> {
        Ok(self.shown(value)?.operands())
    }
}
