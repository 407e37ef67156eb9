//! The plural operands of a number as it is shown.

ghost use Rattle.std.specs.Prelude.{◌≡◌, min, IfNone, IfOk, IfSome, OnErr};
ghost use Rattle.fixed_decimal.specs.Shifts.{rise};
ghost use Rattle.icu_decimal.specs.HeldCompact.{compact_tables_of};
ghost use Rattle.icu_decimal.specs.Significand.{Shows};
ghost use Rattle.icu_decimal.specs.ShownChoice.{CanShow};
ghost use Rattle.locale_numbers_formatter.specs.FormatText.{CanFormat, MayLengthen, compact_tables, shown_by};
ghost use Rattle.locale_numbers_formatter.specs.HeldDigits.{digits_format};
ghost use Rattle.locale_numbers_formatter.specs.HeldScientific.{scientific_format};
ghost use Rattle.locale_numbers_formatter.specs.ShownOperands.{shown_operands, value_operands, value_seen};

use crate::compact_digits::CompactDigitsFormatter;
use crate::number_formatter::{FormatterKind, NumberFormatter};
use crate::scientific::ScientificFormatter;
use fixed_decimal::Decimal;
use icu_decimal::CompactDecimalFormatter;
use icu_decimal::plurals::PluralOperands;
use icu_decimal_compact_value::{CompactEntry, ShownUnder, show_in_place};
use std::alloc::AllocError;

// Makes a number what it is shown as under these entries, its sign kept.
fn show_absolute(value: &mut Decimal, entries: &[CompactEntry]) -> ShownUnder
    requires { CanShow entries.now value.old.absolute.count }
    ensures sign { value.new.sign ≡ value.old.sign }
    ensures value { Shows entries.now value.old.absolute
        (record { significand = value.new.absolute; exponent = result.exponent; entry = result.entry }) }
{
    show_in_place(&mut value.absolute, entries)
}

// Makes a number what compact text shows for it, and returns the operands of that.
fn show_operands(formatter: &CompactDecimalFormatter<'_>, value: &mut Decimal) -> PluralOperands
    requires { CanFormat (compact_tables (compact_tables_of formatter.now)) value.old }
    ensures value { value.new
        ≡ (shown_by (compact_tables (compact_tables_of formatter.now)) value.old).significand }
    ensures operands { result
        ≡ value_operands (value_seen (compact_tables (compact_tables_of formatter.now)) value.old) }
{
    let under = show_absolute(value, formatter.patterns().entries());
    PluralOperands::from_significand_and_exponent(&value.absolute, under.exponent)
}

// The same where what is shown is a decimal; else the number stays.
fn compact_operands(
    formatter: &CompactDecimalFormatter<'_>,
    value: &mut Decimal,
) -> Option<PluralOperands>
    ensures operands { result ≡ shown_operands (compact_tables (compact_tables_of formatter.now)) value.old }
    ensures value { IfSome result (λ operands. value.new
        ≡ (shown_by (compact_tables (compact_tables_of formatter.now)) value.old).significand) }
    ensures same { IfNone result (value.new ≡ value.old) }
{
    if formatter.can_format(value) {
        Some(show_operands(formatter, value))
    } else {
        None
    }
}

// The same of digits of its own.
fn digits_operands(
    formatter: &CompactDigitsFormatter<'_>,
    value: &mut Decimal,
) -> Result<Option<PluralOperands>, AllocError>
    ensures operands { IfOk result (λ seen. seen ≡ shown_operands (digits_format formatter.now) value.old) }
    ensures value { IfOk result (λ seen. IfSome seen
        (λ operands. value.new ≡ (shown_by (digits_format formatter.now) value.old).significand)) }
    ensures same { IfOk result (λ seen. IfNone seen (value.new ≡ value.old)) }
    ensures room { OnErr result (MayLengthen (digits_format formatter.now)) }
{
    if !formatter.can_show(value) {
        return Ok(None);
    }
    let under = formatter.show(value)?;
    Ok(Some(PluralOperands::from_significand_and_exponent(&value.absolute, under.exponent)))
}

// The exponent of a scientific number that plural rules see.
fn seen_exponent(exponent: i32) -> u8
    ensures { result ≡ min 255 (rise exponent) }
{
    exponent.clamp(0, 255) as u8
}

// The same of a scientific number.
fn scientific_operands(
    formatter: &ScientificFormatter<'_>,
    value: &mut Decimal,
) -> Result<Option<PluralOperands>, AllocError>
    ensures operands { IfOk result (λ seen. seen ≡ shown_operands (scientific_format formatter.now) value.old) }
    ensures value { IfOk result (λ seen. IfSome seen
        (λ operands. value.new ≡ (shown_by (scientific_format formatter.now) value.old).significand)) }
    ensures same { IfOk result (λ seen. IfNone seen (value.new ≡ value.old)) }
    ensures room { OnErr result (MayLengthen (scientific_format formatter.now)) }
{
    if !formatter.can_show(value) {
        return Ok(None);
    }
    let exponent = formatter.show_form(value)?;
    let seen = seen_exponent(exponent);
    Ok(Some(PluralOperands::from_significand_and_exponent(&value.absolute, seen)))
}

impl<'a> NumberFormatter<'a> {
    /// What plural rules see of the number as this formatter shows it: of 1.50 the operands of `1.50`, and of 1650 by a
    /// short formatter of `en` those of `1.6` with the exponent 3. Of the exponents of scientific numbers they see those from
    /// 0 to 255: 0 of one below, and 255 of one above.
    ///
    /// By a compact formatter the number becomes the one in the pattern, 1.6, and by one of scientific numbers the
    /// significand; by any other it stays. `None`: by these formatters, where the number can't be formatted, as `can_format`
    /// says; it then stays too. It may allocate only by digits of its own that are rounded to multiples of 25. `AllocError`:
    /// out of memory; the number may then be another one.
    ///
    /// Source: UTS 35, part 3 (numbers), section 5.1.1.
    pub fn plural_operands(&self, value: &mut Decimal) -> Result<Option<PluralOperands>, AllocError>
        ensures operands { IfOk result (λ seen. seen ≡ shown_operands self.now value.old) }
        ensures value { IfOk result (λ seen. IfSome seen
            (λ operands. value.new ≡ (shown_by self.now value.old).significand)) }
        ensures same { IfOk result (λ seen. IfNone seen (value.new ≡ value.old)) }
        ensures room { OnErr result (MayLengthen self.now) }
    {
        match &self.kind {
            FormatterKind::Compact(formatter) => Ok(compact_operands(formatter, value)),
            FormatterKind::CompactDigits(formatter) => digits_operands(formatter, value),
            FormatterKind::Scientific(formatter) => scientific_operands(formatter, value),
            FormatterKind::Plain(_) | FormatterKind::Percent(_) | FormatterKind::Currency(_) => {
                Ok(Some(PluralOperands::from_significand_and_exponent(&value.absolute, 0)))
            }
        }
    }
}
