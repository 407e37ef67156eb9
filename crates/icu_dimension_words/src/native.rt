//! What people type of numbers with words, read as it is, else in native digits.

ghost use Rattle.std.specs.Prelude.{IfOk, IsErrOf};
ghost use Rattle.icu_decimal_reading.specs.DecimalOfText.{IsAnswered};
ghost use Rattle.icu_dimension_words.specs.LenientWords.{MayAllocateWords, lenient_words_reading};
ghost use Rattle.icu_dimension_words.specs.NativeWords.{IsTypedWordsNumber, arabic_words_reading, native_words_reading};

use crate::lenient_reader::LenientWordReader;
use fixed_decimal::Decimal;
use icu_decimal_lenient::{NativeReader, read_arabic, read_in_native};
use icu_decimal_reading::ReadError;
use std::alloc::Global;

impl<'b> NativeReader for LenientWordReader<'b> {
    ghost reading = { lenient_words_reading };

    ghost arabic = { λ a. arabic_words_reading a.settings.tables a.typed };

    ghost allocates = { MayAllocateWords };

    ghost lacks = { λ a. ⊥ };

    #[tactic(auto, using(icu_decimal_lenient::proofs::LenientStepLemmas::answered_first, icu_decimal_lenient::proofs::LenientStepLemmas::answered_second))]
    fn read_as_is(&self, alloc: Global, text: &str) -> Result<Decimal, ReadError> {
        match self.read_exactly(alloc, text) {
            Ok(number) => Ok(number),
            Err(ReadError::NotWritten) => self.read_leniently(alloc, text),
            Err(ReadError::Unreadable) => Err(ReadError::Unreadable),
            Err(ReadError::Memory) => Err(ReadError::Memory),
        }
    }

    fn read_with_arabic(&self, alloc: Global, text: &str) -> Result<Decimal, ReadError> {
        read_arabic(alloc, &self.typed, self.kept.tables(), text)
    }
}

impl<'b> LenientWordReader<'b> {
    /// The decimal that was typed, with its words or without: in English with ` kilometer`, ` kilometers` and ` km` the
    /// texts `1,234.5 kilometers`, `1234.5km`, `1234.5 kilometer`, `१,२३४.५ km` and `1234.5` are 1234.5, and `5 mi`,
    /// `5 KM` and `1,23 km` are none.
    ///
    /// Sign, digits and visible range are those of the text. `NotWritten`: it is a text of no decimal, or of two, nor is
    /// it one with its native digits in ASCII. `Memory`: out of memory. What the formatter writes is read in one pass for
    /// each category, and allocates where it has more than sixteen digits; any other text is folded, which allocates.
    pub fn read(&self, alloc: Global, text: &str) -> Result<Decimal, ReadError>
        ensures unreadable { ¬ (IsErrOf result ReadError.Unreadable) }
        ensures memory { IsErrOf result ReadError.Memory → MayAllocateWords self.now text.now }
        ensures value { IfOk result (λ v. IsTypedWordsNumber self.now text.now v) }
        ensures reading { IsAnswered result (native_words_reading self.now text.now) }
    {
        let _typed = &self.typed; // for the proof
        read_in_native(alloc, self, text)
    }
}
