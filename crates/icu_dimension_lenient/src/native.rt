//! What people type of numbers with a unit, read as it is, else in native digits.

ghost use Rattle.std.specs.Prelude.{IfOk, IsErrOf};
ghost use Rattle.icu_decimal_reading.specs.DecimalOfText.{IsAnswered};
ghost use Rattle.icu_dimension_lenient.specs.LenientUnits.{MayAllocateUnit};
ghost use Rattle.icu_dimension_lenient.specs.NativeUnits.{IsTypedUnitNumber, arabic_unit_reading, lenient_unit_reading, native_unit_reading};

use crate::reader::LenientUnitReader;
use fixed_decimal::Decimal;
use icu_decimal_lenient::{NativeReader, read_arabic, read_in_native};
use icu_decimal_reading::ReadError;
use std::alloc::Global;

impl<'b> NativeReader for LenientUnitReader<'b> {
    ghost reading = { lenient_unit_reading };

    ghost arabic = { λ a. arabic_unit_reading a.reader.tables a.folded };

    ghost allocates = { MayAllocateUnit };

    ghost lacks = { λ a. ⊥ };

    #[tactic(auto, using(icu_decimal_lenient::proofs::LenientStepLemmas::answered_first, icu_decimal_lenient::proofs::LenientStepLemmas::answered_second))]
    fn read_as_is(&self, alloc: Global, text: &str) -> Result<Decimal, ReadError> {
        match self.read_exactly(alloc, text) {
            Ok(number) => Ok(number),
            Err(ReadError::NotWritten) => self.read_leniently(alloc, text),
            Err(ReadError::Unreadable) => Err(ReadError::Unreadable),
            Err(ReadError::Memory) => Err(ReadError::Memory),
        }
    }

    fn read_with_arabic(&self, alloc: Global, text: &str) -> Result<Decimal, ReadError> {
        read_arabic(alloc, &self.texts, &self.decimals, text)
    }
}

impl<'b> LenientUnitReader<'b> {
    /// The decimal that was typed, with its unit or without: in English with `€` and `EUR` the texts `1234.5`,
    /// `€1234.5`, `1,234.5 €`, `EUR 1,234.5` and `१,२३४.५ €` are 1234.5, and `$5` and `€1,23` are none.
    ///
    /// Sign, digits and visible range are those of the text. `NotWritten`: it is a text of no decimal, or of two: with the
    /// unit `.` and a space before it, `.50` is 50 and 0.50; nor is it one with its native digits in ASCII. `Memory`: out of
    /// memory. What the formatter writes is read in one pass, and allocates where it has more than sixteen digits; any
    /// other text is folded, which allocates.
    pub fn read(&self, alloc: Global, text: &str) -> Result<Decimal, ReadError>
        ensures unreadable { ¬ (IsErrOf result ReadError.Unreadable) }
        ensures memory { IsErrOf result ReadError.Memory → MayAllocateUnit self.now text.now }
        ensures value { IfOk result (λ v. IsTypedUnitNumber self.now text.now v) }
        ensures reading { IsAnswered result (native_unit_reading self.now text.now) }
    {
        let _texts = &self.texts; // for the proof
        read_in_native(alloc, self, text)
    }
}
