//! Reading a text by what it would be written with.

ghost use Rattle.std.specs.Prelude.{◌≡◌, ◌⊎◌, false, IfOk, IsErrOf};
ghost use Rattle.icu_dimension_affixes.specs.HeldUnits.{settings_of};
ghost use Rattle.icu_dimension_affixes.specs.UnitReading.{HasNoDecimal, IsUnitText, is_unit_readable_by, reader_texts};

use fixed_decimal::Decimal;
use icu_decimal::error::ReadError;
use icu_dimension_affixes::{UnitReader, UnitTables};
use std::alloc::Global;

// The decimal whose text with its unit this is, by a reader that is made for it.
pub(crate) fn read_once(
    alloc: Global,
    tables: &UnitTables<'_>,
    text: &str,
) -> Result<Decimal, ReadError>
    ensures value { IfOk result (λ v. IsUnitText (reader_texts (settings_of tables.now)) text.now v) }
    ensures readable { IsErrOf result ReadError.Unreadable
        → is_unit_readable_by (reader_texts (settings_of tables.now)) ≡ false }
    ensures unreadable { is_unit_readable_by (reader_texts (settings_of tables.now)) ≡ false
        → IsErrOf result ReadError.Unreadable ⊎ IsErrOf result ReadError.Memory }
    ensures not_written { IsErrOf result ReadError.NotWritten
        → HasNoDecimal (reader_texts (settings_of tables.now)) text.now }
{
    match UnitReader::try_new(alloc, tables) {
        Ok(reader) => reader.read(alloc, text),
        Err(_) => Err(ReadError::Memory),
    }
}
