//! What people type, read: as the formatter would write it, or as that once it is folded.

ghost use Rattle.std.specs.Prelude.{◌≡◌, ◌↔◌, ◌⊎◌, true, false, IsErrOf, IfOk, OnOk};
ghost use Rattle.icu_decimal_plain.specs.BorrowedTables.{borrowed_tables};
ghost use Rattle.icu_decimal_reading.specs.DecimalOfText.{IsAnswered, not_written};
ghost use Rattle.icu_decimal_reading.specs.PlainReading.{plain_reading};
ghost use Rattle.icu_decimal_reading.specs.Readable.{is_readable_by};
ghost use Rattle.icu_decimal_lenient.specs.LenientReading.{IsUnreadable, MayAllocate, folded_reading, is_leniently_readable_by, lenient_reading};
ghost use Rattle.icu_decimal_lenient.specs.TypedReading.{HasNoNumberByBoth, HasNoNumberTyped, IsTypedNumber, typed_by_both, typed_reading};

use crate::folded::read_whole;
use crate::folding::{fold_symbols, fold_text};
use crate::readable::is_leniently_readable;
use crate::typed::{TableReader, read_typed, read_typed_or};
use fixed_decimal::Decimal;
use icu_decimal_plain::DecimalTables;
use icu_decimal_reading::{ReadError, are_tables, is_readable, read_readable};
use icu_decimal_symbols::DecimalSymbols;
use std::alloc::Global;
use std::marker::Model;

/// Tables that texts are read with leniently: beside them are their symbols, folded, which are made once.
///
/// A form field makes them once, and reads with them at each key.
#[derive(Debug, Drop)]
pub struct LenientTables<'b> {
    pub(crate) tables: DecimalTables<'b>,
    pub(crate) folded: DecimalSymbols,
}

impl<'b> Model for LenientTables<'b> {
    ghost use Rattle.icu_decimal_plain.specs.BorrowedTables.{borrowed_tables};
    ghost use Rattle.icu_decimal_plain.specs.PlainText.{Tables};
    ghost use Rattle.icu_decimal_lenient.specs.LenientReading.{AreKept};

    ghost Value = { Tables };

    ghost view = { λ s. borrowed_tables s.tables };

    ghost invariant = { λ s. AreKept (borrowed_tables s.tables) s.folded };
}

impl<'b> LenientTables<'b> {
    /// These tables, to read leniently with: of English, those with which `1234.5` and `1,234.5` are 1234.5.
    ///
    /// `Unreadable`: `is_leniently_readable` is false. `Memory`: out of memory. Allocates the six folded texts of the
    /// symbols.
    #[tactic(auto, using(crate::proofs::LenientStepLemmas::are_kept, crate::proofs::LenientStepLemmas::digits_differ))]
    pub fn new(alloc: Global, tables: &DecimalTables<'b>) -> Result<Self, ReadError>
        ensures unreadable { IsErrOf result ReadError.Unreadable
            ↔ (is_leniently_readable_by (borrowed_tables tables.now) ≡ false) }
        ensures not_written { ¬ (IsErrOf result ReadError.NotWritten) }
        ensures memory { IsErrOf result ReadError.Memory
            → is_leniently_readable_by (borrowed_tables tables.now) ≡ true }
        ensures readable { OnOk result (is_leniently_readable_by (borrowed_tables tables.now) ≡ true) }
        ensures value { IfOk result (λ kept. kept ≡ borrowed_tables tables.now) }
    {
        if !is_leniently_readable(tables) {
            return Err(ReadError::Unreadable);
        }
        let folded = fold_symbols(alloc, tables)?;
        Ok(LenientTables {
            tables: *tables,
            folded,
        })
    }

    // A text that is not the formatter's own.
    fn read_fold(&self, alloc: Global, text: &str) -> Result<Decimal, ReadError>
        ensures unreadable { ¬ (IsErrOf result ReadError.Unreadable) }
        ensures reading { IsAnswered result (folded_reading self.now text.now) }
    {
        let folded = fold_text(alloc, self.tables.digits(), text)?;
        read_whole(alloc, &self.folded, folded.as_str())
    }

    // A text, as it is, else folded.
    #[tactic(auto, using(crate::proofs::LenientStepLemmas::answered_first, crate::proofs::LenientStepLemmas::answered_second))]
    pub(crate) fn answer(&self, alloc: Global, text: &str) -> Result<Decimal, ReadError>
        ensures unreadable { ¬ (IsErrOf result ReadError.Unreadable) }
        ensures memory { IsErrOf result ReadError.Memory → MayAllocate self.now text.now }
        ensures reading { IsAnswered result (lenient_reading self.now text.now) }
    {
        match read_readable(alloc, &self.tables, text) {
            Ok(number) => Ok(number),
            Err(ReadError::NotWritten) => self.read_fold(alloc, text),
            Err(error) => Err(error),
        }
    }

    /// The decimal that was typed: in English `1234.5`, ` 1,234.5 ` and `−5` with U+2212 are read, `1,23` is not; in Hindi
    /// `१,२३४.५` is 1234.5.
    ///
    /// Sign, digits and visible range are those of the text. `NotWritten`: it is a text of no decimal, folded or not, nor
    /// is it one with its native digits in ASCII. `Memory`: out of memory. What the formatter writes is read in one pass,
    /// and allocates where it has more than sixteen digits; any other text is folded, which allocates.
    pub fn read(&self, alloc: Global, text: &str) -> Result<Decimal, ReadError>
        ensures unreadable { ¬ (IsErrOf result ReadError.Unreadable) }
        ensures not_written { IsErrOf result ReadError.NotWritten → HasNoNumberTyped self.now text.now }
        ensures memory { IsErrOf result ReadError.Memory → MayAllocate self.now text.now }
        ensures value { IfOk result (λ v. IsTypedNumber self.now text.now v) }
        ensures reading { IsAnswered result (typed_reading self.now text.now) }
    {
        are_tables(&self.tables);
        read_typed(alloc, self, text)
    }

    /// As `read`, and by other tables: `1,234.5` is 1234.5 in an Egyptian form, with those of `ar-EG-u-nu-latn` for the
    /// others.
    ///
    /// What a formatter with these tables writes, under any grouping, the others are not asked for. Any other text is
    /// what one of them reads, where the other one reads none or the same. Where both read none, native digits are read
    /// as those of ASCII. `NotWritten`: it is a text of no decimal by either, or it is ambiguous: these tables read one
    /// decimal and the others another, as `1,234` with those of `km-u-nu-khmr` is 1.234, and 1234 with those of `km`.
    /// `Memory`: out of memory. Allocates as `read` does, and as `read` of the others where they are asked.
    pub fn read_or(
        &self,
        alloc: Global,
        other: &LenientTables<'_>,
        text: &str,
    ) -> Result<Decimal, ReadError>
        ensures unreadable { ¬ (IsErrOf result ReadError.Unreadable) }
        ensures not_written { IsErrOf result ReadError.NotWritten → HasNoNumberByBoth self.now other.now text.now }
        ensures memory { IsErrOf result ReadError.Memory
            → MayAllocate self.now text.now ⊎ MayAllocate other.now text.now }
        ensures value { IfOk result
            (λ v. IsTypedNumber self.now text.now v ⊎ IsTypedNumber other.now text.now v) }
        ensures reading { IsAnswered result (typed_by_both self.now other.now text.now) }
    {
        are_tables(&self.tables);
        are_tables(&other.tables);
        read_typed_or(alloc, self, other, text)
    }
}

impl<'b> TableReader for LenientTables<'b> {
    ghost reads_by = { λ t. t };

    fn tables(&self) -> &DecimalTables<'_> {
        &self.tables
    }

    fn read_folded(&self, alloc: Global, text: &str) -> Result<Decimal, ReadError> {
        self.answer(alloc, text)
    }
}

// A text that is not the formatter's own: the symbols are folded for it.
#[tactic(auto, using(crate::proofs::LenientStepLemmas::unreadable_reading))]
fn read_by_folds(
    alloc: Global,
    tables: &DecimalTables<'_>,
    text: &str,
) -> Result<Decimal, ReadError>
    ensures memory { IsErrOf result ReadError.Memory → is_leniently_readable_by (borrowed_tables tables.now) ≡ true }
    ensures reading { IsAnswered result (folded_reading (borrowed_tables tables.now) text.now) }
{
    let kept = match LenientTables::new(alloc, tables) {
        Ok(kept) => kept,
        Err(error) => return Err(error),
    };
    let read = kept.read_fold(alloc, text);
    drop(kept);
    read
}

// A text, as it is, else folded.
#[tactic(auto, using(crate::proofs::LenientStepLemmas::answered_first, crate::proofs::LenientStepLemmas::answered_second, crate::proofs::LenientStepLemmas::lacks_reading))]
fn answer(alloc: Global, tables: &DecimalTables<'_>, text: &str) -> Result<Decimal, ReadError>
    ensures memory { IsErrOf result ReadError.Memory → MayAllocate (borrowed_tables tables.now) text.now }
    ensures reading { IsAnswered result (lenient_reading (borrowed_tables tables.now) text.now) }
{
    if !is_readable(tables) {
        return Err(ReadError::Unreadable);
    }
    match read_readable(alloc, tables, text) {
        Ok(number) => Ok(number),
        Err(ReadError::NotWritten) => read_by_folds(alloc, tables, text),
        Err(error) => Err(error),
    }
}

impl<'b> TableReader for DecimalTables<'b> {
    ghost reads_by = { borrowed_tables };

    fn tables(&self) -> &DecimalTables<'_> {
        self
    }

    fn read_folded(&self, alloc: Global, text: &str) -> Result<Decimal, ReadError> {
        answer(alloc, self, text)
    }
}

/// As `read` of `LenientTables`, for one text: in English ` 1234.5 ` is 1234.5, and `1,23` is not one.
///
/// The symbols are folded only where the text is not the formatter's own. `Unreadable`: `is_readable` of
/// `icu_decimal_reading` is false, or `is_leniently_readable` is and the text is not the formatter's own.
/// `NotWritten`: as `read`. `Memory`: out of memory. Allocates where the text has more than sixteen digits, or is
/// folded.
pub fn read_lenient(
    alloc: Global,
    tables: &DecimalTables<'_>,
    text: &str,
) -> Result<Decimal, ReadError>
    ensures unreadable { IsErrOf result ReadError.Unreadable → IsUnreadable (borrowed_tables tables.now) text.now }
    ensures not_written { IsErrOf result ReadError.NotWritten
        → HasNoNumberTyped (borrowed_tables tables.now) text.now }
    ensures memory { IsErrOf result ReadError.Memory → MayAllocate (borrowed_tables tables.now) text.now }
    ensures value { IfOk result (λ v. IsTypedNumber (borrowed_tables tables.now) text.now v) }
    ensures reading { IsAnswered result (typed_reading (borrowed_tables tables.now) text.now) }
{
    are_tables(tables);
    read_typed(alloc, tables, text)
}
