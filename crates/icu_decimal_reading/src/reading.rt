//! Reading a plain text back.

ghost use Rattle.std.specs.Prelude.{◌≡◌, ◌↔◌, true, false, cond, length, IfNone, IfOk, IfSome, IsErrOf, OnOk};
ghost use Rattle.std.specs.Str.{bytes_eq, chars};
ghost use Rattle.fixed_decimal.specs.declared.Sign.TheVariants.{None as NoSign};
ghost use Rattle.icu_decimal_plain.specs.BorrowedTables.{borrowed_tables};
ghost use Rattle.icu_decimal_plain.specs.PlainText.{decimal_text};
ghost use Rattle.icu_decimal_reading.specs.DecimalOfText.{HasManyDigits, HasNoNumber, IsAnswered, IsPlainText, decimal, not_written};
ghost use Rattle.icu_decimal_reading.specs.PlainReading.{fraction_in, is_text_of, is_within, number_with, plain_reading, signed_reading, whole_in, with_sign, written_reading};
ghost use Rattle.icu_decimal_reading.specs.Readable.{is_readable_by};
ghost use Rattle.icu_decimal_reading.specs.ReadingLaws.{AreTables};

use crate::error::ReadError;
use crate::likely::assign_likely;
use crate::scanning::number_in;
use crate::symbols::{are_tables, is_readable};
use fixed_decimal::{Decimal, Sign};
use icu_decimal_plain::DecimalTables;
use std::alloc::Global;

// Whether the number is written so.
fn is_written_so(tables: &DecimalTables<'_>, number: &Decimal, text: &str) -> bool
    ensures { result ≡ is_text_of (borrowed_tables tables.now) text.now number.now }
{
    tables.is_written_as(number, text)
}

// The number that a text likely is, where it is written so. One that shows more digits than the text has bytes is not.
fn read_likely(alloc: Global, tables: &DecimalTables<'_>, text: &str) -> Option<Decimal>
    requires readable { is_readable_by (borrowed_tables tables.now) ≡ true }
    requires tables { AreTables (borrowed_tables tables.now) }
    ensures { IfSome result (λ v. plain_reading (borrowed_tables tables.now) text.now ≡ decimal v) }
{
    let mut number = Decimal::zero(alloc);
    if !assign_likely(alloc, &mut number, tables, text) {
        return None;
    }
    let range = number.magnitude_range();
    if range.end().abs_diff(*range.start()) as usize >= text.len() {
        return None;
    }
    if is_written_so(tables, &number, text) {
        Some(number)
    } else {
        None
    }
}

// The number with the sign under which it is written so.
#[tactic(auto, using(crate::proofs::ReadingLemmas::first_sign, crate::proofs::ReadingLemmas::second_sign, crate::proofs::ReadingLemmas::third_sign, crate::proofs::ReadingLemmas::no_sign_fits))]
fn with_sign_of(tables: &DecimalTables<'_>, number: Decimal, text: &str) -> Option<Decimal>
    requires { number.sign ≡ NoSign }
    ensures some { IfSome result
        (λ v. signed_reading (borrowed_tables tables.now) text.now number.absolute ≡ decimal v) }
    ensures none { IfNone result (signed_reading (borrowed_tables tables.now) text.now number.absolute ≡ not_written) }
{
    let mut number = number;
    if is_written_so(tables, &number, text) {
        return Some(number);
    }
    number.set_sign(Sign::Negative);
    if is_written_so(tables, &number, text) {
        return Some(number);
    }
    number.set_sign(Sign::Positive);
    if is_written_so(tables, &number, text) {
        return Some(number);
    }
    None
}

// The reading that the definition has, of tables whose symbols are readable.
#[tactic(auto, using(crate::proofs::ReadingLemmas::digits_differ, crate::proofs::ReadingLemmas::reading_past, crate::proofs::ReadingLemmas::reading_signed))]
fn read_as_defined(
    alloc: Global,
    tables: &DecimalTables<'_>,
    text: &str,
) -> Result<Decimal, ReadError>
    requires { is_readable_by (borrowed_tables tables.now) ≡ true }
    ensures unreadable { ¬ (IsErrOf result ReadError.Unreadable) }
    ensures memory { IsErrOf result ReadError.Memory → HasManyDigits (borrowed_tables tables.now) text.now }
    ensures reading { IsAnswered result (plain_reading (borrowed_tables tables.now) text.now) }
{
    let symbols = tables.symbols();
    let number = match number_in(alloc, tables.digits(), symbols.decimal_separator(), text) {
        Ok(number) => number,
        Err(error) => return Err(error),
    };
    match with_sign_of(tables, number, text) {
        Some(number) => Ok(number),
        None => Err(ReadError::NotWritten),
    }
}

/// As `read_plain`, of tables whose symbols are known to be readable: in English `-1,234.50` is -1234.50.
///
/// The condition is `is_readable`, which looks through all symbols: a caller who reads many texts with the same tables
/// tests it once. `NotWritten`: no decimal is written so. `Memory`: out of memory. Allocates where the text has more
/// than sixteen digits.
#[tactic(auto, using(crate::proofs::LawLemmas::answered_value))]
pub fn read_readable(
    alloc: Global,
    tables: &DecimalTables<'_>,
    text: &str,
) -> Result<Decimal, ReadError>
    requires { is_readable_by (borrowed_tables tables.now) ≡ true }
    ensures unreadable { ¬ (IsErrOf result ReadError.Unreadable) }
    ensures not_written { IsErrOf result ReadError.NotWritten → HasNoNumber (borrowed_tables tables.now) text.now }
    ensures memory { IsErrOf result ReadError.Memory → HasManyDigits (borrowed_tables tables.now) text.now }
    ensures value { IfOk result (λ v. IsPlainText (borrowed_tables tables.now) text.now v) }
    ensures reading { IsAnswered result (plain_reading (borrowed_tables tables.now) text.now) }
{
    are_tables(tables);
    match read_likely(alloc, tables, text) {
        Some(found) => Ok(found),
        None => read_as_defined(alloc, tables, text),
    }
}

/// The decimal whose text with these tables this is: in English `-1,234.50` is -1234.50, shown down to magnitude -2.
///
/// Sign, digits and visible range are those of the one decimal that is written so. `Unreadable`: `is_readable` is
/// false. `NotWritten`: no decimal is written so, as `98,7654` or `1234` in English. `Memory`: out of memory. Allocates
/// where the text has more than sixteen digits.
#[tactic(auto, using(crate::proofs::ReadingLemmas::reading_unreadable))]
pub fn read_plain(
    alloc: Global,
    tables: &DecimalTables<'_>,
    text: &str,
) -> Result<Decimal, ReadError>
    ensures unreadable { IsErrOf result ReadError.Unreadable ↔ (is_readable_by (borrowed_tables tables.now) ≡ false) }
    ensures not_written { IsErrOf result ReadError.NotWritten → HasNoNumber (borrowed_tables tables.now) text.now }
    ensures memory { IsErrOf result ReadError.Memory → HasManyDigits (borrowed_tables tables.now) text.now }
    ensures value { IfOk result (λ v. IsPlainText (borrowed_tables tables.now) text.now v) }
    ensures reading { IsAnswered result (plain_reading (borrowed_tables tables.now) text.now) }
{
    if !is_readable(tables) {
        return Err(ReadError::Unreadable);
    }
    read_readable(alloc, tables, text)
}
