//! Steps of lenient reading, for readers of texts that have more than a number.

ghost use Rattle.std.specs.Prelude.{◌≡◌, IfOk, IsErrOf, string_bytes};
ghost use Rattle.icu_decimal_plain.specs.BorrowedTables.{borrowed_tables};
ghost use Rattle.icu_decimal_reading.specs.DecimalOfText.{IsAnswered};
ghost use Rattle.icu_decimal_lenient.specs.Folding.{folded_symbols, folded_text};
ghost use Rattle.icu_decimal_lenient.specs.LenientReading.{HasNoTyped, IsTypedText, MayAllocate, filled_text, lenient_reading, read_either};

use crate::filling::fill;
use crate::folded::read_grouped;
use crate::folding::fold_text;
use crate::lenient::LenientTables;
use fixed_decimal::Decimal;
use icu_decimal_plain::DecimalTables;
use icu_decimal_reading::{ReadError, are_tables};
use icu_decimal_symbols::DecimalSymbols;
use std::alloc::{AllocError, Global};

impl<'b> LenientTables<'b> {
    /// The symbols, folded: of Sweden `-` for the prefix U+2212 of a minus sign. It does not allocate.
    pub fn folded(&self) -> &DecimalSymbols
        ensures { result.now ≡ folded_symbols self.now }
    {
        &self.folded
    }

    /// The tables: of English, those with `.` before the fraction. It does not allocate.
    pub fn tables(&self) -> &DecimalTables<'b>
        ensures { borrowed_tables result.now ≡ self.now }
    {
        &self.tables
    }

    /// As `read`, without native digits: in Hindi of `1,234.5` 1234.5, of `१` none.
    ///
    /// `NotWritten`: it is a text of no decimal, folded or not. `Memory`: out of memory. Allocates as `read`.
    pub fn read_without_native(&self, alloc: Global, text: &str) -> Result<Decimal, ReadError>
        ensures unreadable { ¬ (IsErrOf result ReadError.Unreadable) }
        ensures not_written { IsErrOf result ReadError.NotWritten → HasNoTyped self.now text.now }
        ensures memory { IsErrOf result ReadError.Memory → MayAllocate self.now text.now }
        ensures value { IfOk result (λ v. IsTypedText self.now text.now v) }
        ensures reading { IsAnswered result (lenient_reading self.now text.now) }
    {
        are_tables(&self.tables);
        self.answer(alloc, text)
    }

    /// A text, folded: of `−5` with U+2212 `-5`.
    ///
    /// Allocates. `AllocError`: out of memory.
    pub fn fold(&self, alloc: Global, text: &str) -> Result<String, AllocError>
        ensures { IfOk result (λ folded. string_bytes folded ≡ folded_text self.now.digits text.now) }
    {
        fold_text(alloc, self.tables.digits(), text)
    }

    /// A folded text, filled: in English of `.5` `0.5`.
    ///
    /// Allocates. `AllocError`: out of memory.
    pub fn fill(&self, alloc: Global, text: &str) -> Result<String, AllocError>
        ensures { IfOk result (λ filled. string_bytes filled
            ≡ filled_text (folded_symbols self.now).strings.decimal_separator text.now) }
    {
        fill(alloc, self.folded.decimal_separator(), text)
    }

    /// A folded text, as it is, without groups or with all of them: in English `1234.5` and `1,234.5` are 1234.5, `.5` is
    /// not one.
    ///
    /// `NotWritten`: it is no number so. `Memory`: out of memory. Allocates where more than sixteen digits are in it.
    pub fn read_folded_text(&self, alloc: Global, text: &str) -> Result<Decimal, ReadError>
        ensures unreadable { ¬ (IsErrOf result ReadError.Unreadable) }
        ensures reading { IsAnswered result (read_either (folded_symbols self.now) text.now) }
    {
        read_grouped(alloc, &self.folded, text)
    }
}
