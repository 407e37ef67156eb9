//! Reading what people type, by a formatter.

ghost use Rattle.std.specs.Prelude.{◌≡◌, IfOk, IsErrOf};
ghost use Rattle.icu_decimal_reading.specs.DecimalOfText.{IsAnswered};
ghost use Rattle.icu_decimal_lenient.specs.LenientReading.{IsUnreadable, MayAllocate, is_leniently_readable_by};
ghost use Rattle.icu_decimal_lenient.specs.TypedReading.{HasNoNumberTyped, IsTypedNumber, typed_reading};
ghost use Rattle.icu_decimal.specs.HeldTables.{tables_of};

use crate::formatter::DecimalFormatter;
use fixed_decimal::Decimal;
use icu_decimal_reading::ReadError;
use std::alloc::Global;

/// Whether what people type can be read under the formatter's symbols: in English it can.
///
/// It can where `is_readable` is true of the symbols as they are, and once they are folded: so not where the decimal
/// separator is `,` and the grouping separator U+FF0C, which folds to `,`. It does not allocate.
pub fn is_leniently_readable(formatter: &DecimalFormatter<'_>) -> bool
    ensures { result ≡ is_leniently_readable_by (tables_of formatter.now) }
{
    icu_decimal_lenient::is_leniently_readable(formatter.tables())
}

/// The decimal that was typed: in English `1234.5`, ` 1,234.5 ` and `−5` with U+2212 are read, `1,23` is not; in Hindi
/// `१,२३४.५` is 1234.5.
///
/// Sign, digits and visible range are those of the text. `Unreadable` where `is_readable` is false, or where
/// `is_leniently_readable` is and the formatter writes no decimal so; `NotWritten` where it is a text of no decimal,
/// folded or not, nor is it one with its native digits in ASCII; `Memory`: out of memory. It allocates where the text has
/// more than sixteen digits, and where the formatter writes no decimal so. A form field keeps `LenientTables` of
/// `formatter.tables()`, which are made once.
pub fn read_lenient(
    alloc: Global,
    formatter: &DecimalFormatter<'_>,
    text: &str,
) -> Result<Decimal, ReadError>
    ensures unreadable { IsErrOf result ReadError.Unreadable → IsUnreadable (tables_of formatter.now) text.now }
    ensures not_written { IsErrOf result ReadError.NotWritten → HasNoNumberTyped (tables_of formatter.now) text.now }
    ensures memory { IsErrOf result ReadError.Memory → MayAllocate (tables_of formatter.now) text.now }
    ensures value { IfOk result (λ v. IsTypedNumber (tables_of formatter.now) text.now v) }
    ensures reading { IsAnswered result (typed_reading (tables_of formatter.now) text.now) }
{
    icu_decimal_lenient::read_lenient(alloc, formatter.tables(), text)
}
