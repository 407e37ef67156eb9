//! An exact reader of texts with a unit that was asked whether they can be read.

ghost use Rattle.std.specs.Prelude.{◌≡◌, IsErrOf};
ghost use Rattle.icu_decimal.specs.PlainReading.{IsAnswered};
ghost use Rattle.icu_dimension_affixes.specs.UnitReading.{HasManyBetween};
ghost use Rattle.icu_dimension_lenient.specs.UnitReadings.{unit_reading};

use fixed_decimal::Decimal;
use icu_decimal::error::ReadError;
use icu_dimension_affixes::UnitReader;
use std::alloc::Global;
use std::marker::Model;

// An exact reader of texts with a unit that was asked once whether they can be read: that of English and `€` reads
// `€1.50`.
#[derive(Drop)]
pub(crate) struct AskedUnitReader<'a> {
    reader: UnitReader<'a>,
    is_readable: bool,
}

impl<'a> Model for AskedUnitReader<'a> {
    ghost use Rattle.std.specs.Prelude.{◌≡◌};
    ghost use Rattle.icu_dimension_affixes.specs.UnitReading.{AreReaderTexts, ReaderTexts, is_unit_readable_by};

    ghost Value = { ReaderTexts };

    ghost view = { λ s. s.reader };

    ghost invariant = { λ s. AreReaderTexts s.reader × (s.is_readable ≡ is_unit_readable_by s.reader) };
}

impl<'a> AskedUnitReader<'a> {
    // The reader, once it is asked. It does not allocate.
    pub(crate) fn new(reader: UnitReader<'a>) -> Self
        ensures { result ≡ reader.entry }
    {
        let is_readable = reader.is_readable();
        AskedUnitReader {
            reader,
            is_readable,
        }
    }

    // The number whose text with the unit this is: of English and `€` 1.50 of `€1.50`.
    //
    // `Unreadable`, `NotWritten`: as `UnitReader::read`. `Memory`: out of memory. It allocates where more than sixteen
    // digits are between the affixes of a sign.
    pub(crate) fn read(&self, alloc: Global, text: &str) -> Result<Decimal, ReadError>
        ensures memory { IsErrOf result ReadError.Memory → HasManyBetween self.now text.now }
        ensures reading { IsAnswered result (unit_reading self.now text.now) }
    {
        if self.is_readable {
            self.reader.read_readable(alloc, text)
        } else {
            Err(ReadError::Unreadable)
        }
    }
}
