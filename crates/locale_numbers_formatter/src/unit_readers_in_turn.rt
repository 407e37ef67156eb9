//! What people type of numbers with a unit, read by a reader, and where a second one is given, also by that.

ghost use Rattle.std.specs.Prelude.{◌≡◌, IsErrOf};
ghost use Rattle.icu_decimal.specs.PlainReading.{IsAnswered};
ghost use Rattle.locale_numbers_formatter.specs.TypedUnits.{MayAllocateTypedInTurn, arabic_unit_by, unit_reading_by, unit_reading_in_turn};

use crate::typed_unit_reader::TypedUnitReader;
use fixed_decimal::Decimal;
use icu_decimal::error::ReadError;
use icu_decimal_lenient::{NativeReader, read_in_native};
use std::alloc::Global;
use std::marker::Model;

// What reads the texts with a unit of a form that people type into: by a reader and, where there is one, by a second one,
// as that of `ar-EG-u-nu-latn` beside that of `ar-EG`.
#[derive(Drop)]
pub(crate) struct UnitReadersInTurn<'a> {
    first: TypedUnitReader<'a>,
    second: Option<TypedUnitReader<'a>>,
}

impl<'a> Model for UnitReadersInTurn<'a> {
    ghost use Rattle.locale_numbers_formatter.specs.TypedUnits.{TypedInTurn};

    ghost Value = { TypedInTurn };

    ghost view = { λ s. record { first = s.first; second = s.second } };
}

impl<'a> UnitReadersInTurn<'a> {
    // A reader and a second one. It does not allocate.
    pub(crate) fn new(first: TypedUnitReader<'a>, second: Option<TypedUnitReader<'a>>) -> Self
        ensures { result ≡ record { first = first.entry; second = second.entry } }
    {
        UnitReadersInTurn { first, second }
    }

    // The number that was typed: by the reader of `en` and `EUR` 1234.5 of `€1234.5` and of `€१,२३४.५`, and 5 of `5 EUR`.
    //
    // `Unreadable`: as `TypedUnitReader::read`, or, where there is a second reader, as `read_or` of these. `NotWritten`:
    // so too, and with its native digits in ASCII it is none either. `Memory`: out of memory. It allocates as they do, and
    // where the text is no number as it is, and its digits are native.
    pub(crate) fn read(&self, alloc: Global, text: &str) -> Result<Decimal, ReadError>
        ensures memory { IsErrOf result ReadError.Memory → MayAllocateTypedInTurn self.now text.now }
        ensures reading { IsAnswered result (unit_reading_in_turn self.now text.now) }
    {
        read_in_native(alloc, self, text)
    }
}

impl<'a> NativeReader for UnitReadersInTurn<'a> {
    ghost reading = { λ readers. unit_reading_by readers.first readers.second };

    ghost arabic = { λ readers. arabic_unit_by readers.first.reader.tables readers.first.folded };

    ghost allocates = { MayAllocateTypedInTurn };

    ghost lacks = { λ readers. Unit {0} };

    fn read_as_is(&self, alloc: Global, text: &str) -> Result<Decimal, ReadError> {
        match &self.second {
            Some(second) => self.first.read_or(alloc, second, text),
            None => self.first.read(alloc, text),
        }
    }

    fn read_with_arabic(&self, alloc: Global, text: &str) -> Result<Decimal, ReadError> {
        self.first.read_arabic(alloc, text)
    }
}
