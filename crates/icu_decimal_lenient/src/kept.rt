//! Folded symbols, kept by who has the tables.

ghost use Rattle.std.specs.Prelude.{◌≡◌, true, false, IsErrOf, IsOk, IfOk};
ghost use Rattle.std.specs.Option.{option_copied};
ghost use Rattle.icu_decimal_plain.specs.BorrowedTables.{borrowed_tables};
ghost use Rattle.icu_decimal_reading.specs.DecimalOfText.{IsAnswered};
ghost use Rattle.icu_decimal_lenient.specs.KeptFolds.{folds_of};
ghost use Rattle.icu_decimal_lenient.specs.LenientReading.{AreKept, IsUnreadable, MayAllocate, folded_reading, is_leniently_readable_by, lenient_reading};
ghost use Rattle.icu_decimal_lenient.specs.TypedReading.{HasNoNumberTyped, IsTypedNumber, typed_reading};

use crate::folded::read_whole;
use crate::folding::{fold_symbols, fold_text};
use crate::readable::is_leniently_readable;
use crate::typed::{TableReader, read_typed};
use fixed_decimal::Decimal;
use icu_decimal_plain::DecimalTables;
use icu_decimal_reading::{ReadError, are_tables, is_readable, read_readable};
use icu_decimal_symbols::DecimalSymbols;
use std::alloc::{AllocError, Global};
use std::marker::Model;

/// The symbols of tables, folded, without the tables: for who owns these, and can't keep beside them what borrows them.
///
/// Those of English read `1234.5` as 1234.5, with the tables of English.
#[derive(Debug, Drop)]
pub struct FoldedSymbols {
    is_readable: bool,
    symbols: Option<DecimalSymbols>,
}

impl Model for FoldedSymbols {
    ghost use Rattle.icu_decimal_lenient.specs.KeptFolds.{KeptFolds};

    ghost Value = { KeptFolds };

    ghost view = { λ s. record { is_readable = s.is_readable; symbols = s.symbols } };
}

// The folded symbols, where texts can be read with them.
#[tactic(auto, using(crate::proofs::LenientStepLemmas::digits_differ))]
fn fold_if_readable(
    alloc: Global,
    tables: &DecimalTables<'_>,
) -> Result<Option<DecimalSymbols>, AllocError>
    ensures succeeds { is_leniently_readable_by (borrowed_tables tables.now) ≡ false → IsOk result }
    ensures value { IfOk result (λ symbols. symbols ≡ (folds_of (borrowed_tables tables.now)).symbols) }
{
    if !is_leniently_readable(tables) {
        return Ok(None);
    }
    match fold_symbols(alloc, tables) {
        Ok(symbols) => Ok(Some(symbols)),
        Err(refused) => Err(refused),
    }
}

// A text that is not the formatter's own, read with these folded symbols.
#[tactic(auto, using(crate::proofs::LenientStepLemmas::kept_differ, crate::proofs::LenientStepLemmas::kept_readable))]
fn read_by(
    alloc: Global,
    symbols: &DecimalSymbols,
    tables: &DecimalTables<'_>,
    text: &str,
) -> Result<Decimal, ReadError>
    requires { AreKept (borrowed_tables tables.now) symbols.now }
    ensures unreadable { ¬ (IsErrOf result ReadError.Unreadable) }
    ensures reading { IsAnswered result (folded_reading (borrowed_tables tables.now) text.now) }
{
    let folded = fold_text(alloc, tables.digits(), text)?;
    read_whole(alloc, symbols, folded.as_str())
}

// A text that is not the formatter's own, read with the folded symbols, where there are any.
#[tactic(auto, using(crate::proofs::LenientStepLemmas::folds_kept, crate::proofs::LenientStepLemmas::folds_readable, crate::proofs::LenientStepLemmas::no_folds_kept))]
fn read_folded(
    alloc: Global,
    symbols: Option<&DecimalSymbols>,
    tables: &DecimalTables<'_>,
    text: &str,
) -> Result<Decimal, ReadError>
    requires { option_copied symbols ≡ (folds_of (borrowed_tables tables.now)).symbols }
    ensures memory { IsErrOf result ReadError.Memory → is_leniently_readable_by (borrowed_tables tables.now) ≡ true }
    ensures reading { IsAnswered result (folded_reading (borrowed_tables tables.now) text.now) }
{
    match symbols {
        Some(symbols) => read_by(alloc, symbols, tables, text),
        None => Err(ReadError::Unreadable),
    }
}

impl FoldedSymbols {
    /// The symbols of these tables, folded: of English, those with which `1234.5` and `1,234.5` are 1234.5.
    ///
    /// The grouping of the tables does not matter. `AllocError`: out of memory. Allocates the six folded texts of the
    /// symbols where `is_leniently_readable` is true of the tables, else nothing.
    pub fn try_new(alloc: Global, tables: &DecimalTables<'_>) -> Result<Self, AllocError>
        ensures succeeds { is_leniently_readable_by (borrowed_tables tables.now) ≡ false → IsOk result }
        ensures value { IfOk result (λ folded. folded ≡ folds_of (borrowed_tables tables.now)) }
    {
        let symbols = fold_if_readable(alloc, tables)?;
        Ok(FoldedSymbols {
            is_readable: is_readable(tables),
            symbols,
        })
    }

    // A text, as it is, else folded.
    #[tactic(auto, using(crate::proofs::LenientStepLemmas::answered_first, crate::proofs::LenientStepLemmas::answered_second, crate::proofs::LenientStepLemmas::lacks_reading))]
    fn answer(
        &self,
        alloc: Global,
        tables: &DecimalTables<'_>,
        text: &str,
    ) -> Result<Decimal, ReadError>
        requires { self.now ≡ folds_of (borrowed_tables tables.now) }
        ensures memory { IsErrOf result ReadError.Memory → MayAllocate (borrowed_tables tables.now) text.now }
        ensures reading { IsAnswered result (lenient_reading (borrowed_tables tables.now) text.now) }
    {
        if !self.is_readable {
            return Err(ReadError::Unreadable);
        }
        match read_readable(alloc, tables, text) {
            Ok(number) => Ok(number),
            Err(ReadError::NotWritten) => {
                read_folded(alloc, self.symbols.as_ref(), tables, text)
            },
            Err(error) => Err(error),
        }
    }

    /// As `read_lenient`, with the tables whose fold this is, under any grouping: in English ` 1234.5 ` is 1234.5, and
    /// `1,23` is not one.
    ///
    /// `Unreadable`: `is_readable` of `icu_decimal_reading` is false of the tables, or `is_leniently_readable` is and the
    /// text is not the formatter's own. `NotWritten`: it is a text of no decimal, folded or not, nor is it one with its
    /// native digits in ASCII. `Memory`: out of memory. Allocates where the text has more than sixteen digits, or is
    /// folded.
    pub fn read(
        &self,
        alloc: Global,
        tables: &DecimalTables<'_>,
        text: &str,
    ) -> Result<Decimal, ReadError>
        requires { self.now ≡ folds_of (borrowed_tables tables.now) }
        ensures unreadable { IsErrOf result ReadError.Unreadable → IsUnreadable (borrowed_tables tables.now) text.now }
        ensures not_written { IsErrOf result ReadError.NotWritten
            → HasNoNumberTyped (borrowed_tables tables.now) text.now }
        ensures memory { IsErrOf result ReadError.Memory → MayAllocate (borrowed_tables tables.now) text.now }
        ensures value { IfOk result (λ v. IsTypedNumber (borrowed_tables tables.now) text.now v) }
        ensures reading { IsAnswered result (typed_reading (borrowed_tables tables.now) text.now) }
    {
        are_tables(tables);
        let reader = WithFold {
            folded: self,
            tables,
        };
        read_typed(alloc, &reader, text)
    }
}

// Tables, and their fold.
#[derive(Clone, Copy)]
struct WithFold<'f> {
    folded: &'f FoldedSymbols,
    tables: &'f DecimalTables<'f>,
    ghost fold: { folded.now ≡ folds_of (borrowed_tables tables.now) },
}

impl<'f> TableReader for WithFold<'f> {
    ghost reads_by = { λ reader. borrowed_tables reader.tables.now };

    fn tables(&self) -> &DecimalTables<'_> {
        self.tables
    }

    fn read_folded(&self, alloc: Global, text: &str) -> Result<Decimal, ReadError> {
        self.folded.answer(alloc, self.tables, text)
    }
}
