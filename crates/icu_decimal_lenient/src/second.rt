//! A second reading of a typed text, beside the first one.

ghost use Rattle.std.specs.Prelude.{◌≡◌, IsErrOf};
ghost use Rattle.icu_decimal_symbols.specs.declared.options.GroupingStrategy.{GroupingStrategy as Grouping};
ghost use Rattle.icu_decimal_plain.specs.BorrowedTables.{borrowed_tables};
ghost use Rattle.icu_decimal_reading.specs.DecimalOfText.{IsAnswered, PlainReading};
ghost use Rattle.icu_decimal_reading.specs.PlainReading.{is_text_of};
ghost use Rattle.icu_decimal_lenient.specs.LenientReading.{is_own_text, under, unless_other};

use fixed_decimal::Decimal;
use icu_decimal_plain::DecimalTables;
use icu_decimal_reading::ReadError;
use icu_decimal_symbols::options::GroupingStrategy;

// Whether the text is that of the decimal under this grouping.
fn is_text_under(
    tables: &DecimalTables<'_>,
    strategy: GroupingStrategy,
    value: &Decimal,
    text: &str,
) -> bool
    ensures { result ≡ is_text_of (under strategy (borrowed_tables tables.now)) text.now value.now }
{
    DecimalTables::new(tables.symbols(), tables.digits(), strategy).is_written_as(value, text)
}

/// Whether the text is what a formatter with these tables writes of the decimal, under any grouping: in English `1,234`
/// and `1234` are of 1234, ` 1234` is not.
///
/// It does not allocate.
pub fn is_own_text(tables: &DecimalTables<'_>, value: &Decimal, text: &str) -> bool
    ensures { result ≡ is_own_text (borrowed_tables tables.now) text.now value.now }
{
    is_text_under(tables, GroupingStrategy::Never, value, text)
        || (is_text_under(tables, GroupingStrategy::Always, value, text)
            || (is_text_under(tables, GroupingStrategy::Min2, value, text)
                || is_text_under(tables, GroupingStrategy::OnAligned, value, text)))
}

/// The decimal that was read first, where a second reading is no other decimal: 1.234 beside 1234 is refused, 1234 beside
/// 1234 or beside none is 1234.
///
/// `NotWritten`: the second one is another decimal. `Memory`: the second one was out of memory. It does not allocate.
pub fn unless_other(
    number: Decimal,
    other: Result<Decimal, ReadError>,
) -> Result<Decimal, ReadError>
    ensures unreadable { ¬ (IsErrOf result ReadError.Unreadable) }
    ensures memory { IsErrOf result ReadError.Memory → IsErrOf other ReadError.Memory }
    ensures reading { (second : PlainReading) → IsAnswered other second
        → IsAnswered result (unless_other number second) }
{
    match other {
        Ok(found) => if number == found {
            Ok(number)
        } else {
            Err(ReadError::NotWritten)
        },
        Err(ReadError::Memory) => Err(ReadError::Memory),
        Err(ReadError::Unreadable | ReadError::NotWritten) => Ok(number),
    }
}
