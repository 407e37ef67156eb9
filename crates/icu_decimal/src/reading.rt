//! Reading plain texts back, by a formatter.

ghost use Rattle.std.specs.Prelude.{◌≡◌, ◌↔◌, true, false, IfOk, IsErrOf};
ghost use Rattle.icu_decimal_reading.specs.DecimalOfText.{HasManyDigits, HasNoNumber, IsAnswered, IsPlainText};
ghost use Rattle.icu_decimal_reading.specs.PlainReading.{plain_reading};
ghost use Rattle.icu_decimal_reading.specs.Readable.{is_readable_by};
ghost use Rattle.icu_decimal_reading.specs.ReadingLaws.{AreTables};
ghost use Rattle.icu_decimal.specs.HeldTables.{tables_of};

use crate::formatter::DecimalFormatter;
use fixed_decimal::Decimal;
use icu_decimal_reading::ReadError;
use std::alloc::Global;

/// Whether texts can be read back under the formatter's symbols: in English they can.
///
/// They can where the ten digits differ and are in no affix and no separator, the decimal separator is neither empty
/// nor the grouping separator, and the affixes of a minus sign, of a plus sign and of no sign differ as pairs. Then no
/// two decimals have one text. It does not allocate.
pub fn is_readable(formatter: &DecimalFormatter<'_>) -> bool
    ensures value { result ≡ is_readable_by (tables_of formatter.now) }
    ensures tables { AreTables (tables_of formatter.now) }
{
    icu_decimal_reading::is_readable(formatter.tables())
}

/// The decimal whose text under the formatter this is: in English `-1,234.50` is -1234.50, shown down to magnitude -2.
///
/// Sign, digits and visible range are those of the one decimal that the formatter writes so. `Unreadable` where
/// `is_readable` is false; `NotWritten` where the formatter writes no decimal so, as `98,7654` or `1234` in English;
/// `Memory`: out of memory. It allocates where the text has more than sixteen digits.
pub fn read_plain(
    alloc: Global,
    formatter: &DecimalFormatter<'_>,
    text: &str,
) -> Result<Decimal, ReadError>
    ensures unreadable { IsErrOf result ReadError.Unreadable ↔ (is_readable_by (tables_of formatter.now) ≡ false) }
    ensures not_written { IsErrOf result ReadError.NotWritten → HasNoNumber (tables_of formatter.now) text.now }
    ensures memory { IsErrOf result ReadError.Memory → HasManyDigits (tables_of formatter.now) text.now }
    ensures value { IfOk result (λ v. IsPlainText (tables_of formatter.now) text.now v) }
    ensures reading { IsAnswered result (plain_reading (tables_of formatter.now) text.now) }
{
    icu_decimal_reading::read_plain(alloc, formatter.tables(), text)
}

/// As `read_plain`, of a formatter whose symbols are known to be readable: in English `-1,234.50` is -1234.50.
///
/// The condition is `is_readable`, which looks through all symbols: a caller who reads many texts with one formatter
/// makes the test once. `NotWritten` where the formatter writes no decimal so; `Memory`: out of memory. It allocates
/// where the text has more than sixteen digits.
pub fn read_readable(
    alloc: Global,
    formatter: &DecimalFormatter<'_>,
    text: &str,
) -> Result<Decimal, ReadError>
    requires { is_readable_by (tables_of formatter.now) ≡ true }
    ensures unreadable { ¬ (IsErrOf result ReadError.Unreadable) }
    ensures not_written { IsErrOf result ReadError.NotWritten → HasNoNumber (tables_of formatter.now) text.now }
    ensures memory { IsErrOf result ReadError.Memory → HasManyDigits (tables_of formatter.now) text.now }
    ensures value { IfOk result (λ v. IsPlainText (tables_of formatter.now) text.now v) }
    ensures reading { IsAnswered result (plain_reading (tables_of formatter.now) text.now) }
{
    icu_decimal_reading::read_readable(alloc, formatter.tables(), text)
}
