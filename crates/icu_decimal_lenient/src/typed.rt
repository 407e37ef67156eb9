//! What people type, read as it is, else in native digits.

ghost use Rattle.std.specs.Prelude.{◌≡◌, ◌⊎◌, ℕ, List, Option, None, Some, cond, IsErrOf};
ghost use Rattle.icu_decimal_plain.specs.BorrowedTables.{borrowed_tables};
ghost use Rattle.icu_decimal_plain.specs.PlainText.{Tables};
ghost use Rattle.icu_decimal_reading.specs.DecimalOfText.{IsAnswered, PlainReading, not_written};
ghost use Rattle.icu_decimal_lenient.specs.LenientReading.{MayAllocate, is_leniently_readable_by, lenient_reading, or_else, reading_by_both};
ghost use Rattle.icu_decimal_lenient.specs.Native.{arabic_text, native_text};
ghost use Rattle.icu_decimal_lenient.specs.TypedReading.{arabic_by, arabic_reading, by_option, typed_by, typed_by_both, typed_reading};

use crate::lenient::LenientTables;
use crate::native::{arabic_symbols, has_arabic_digits, has_arabic_separator, native_text};
use crate::second::{is_own_text, unless_other};
use fixed_decimal::Decimal;
use icu_decimal_plain::DecimalTables;
use icu_decimal_reading::ReadError;
use icu_decimal_symbols::options::GroupingStrategy;
use std::alloc::Global;

/// What reads a text as it is, and one whose digits were Arabic with their separators: of `٤٥٦` it is given `456`.
pub trait NativeReader {
    // What a text is read as.
    ghost reading: { Self → List ℕ → PlainReading };

    // What one with the separators of Arabic digits is read as.
    ghost arabic: { Self → List ℕ → PlainReading };

    // Where the first of them may be out of memory.
    ghost allocates: { Self → List ℕ → Type 0 };

    // Whether texts may be unreadable.
    ghost lacks: { Self → Type 0 };

    /// The decimal of a text as it is: in Hindi of `1,234.5` 1234.5, of `१` none.
    fn read_as_is(&self, alloc: Global, text: &str) -> Result<Decimal, ReadError>
        ensures unreadable { IsErrOf result ReadError.Unreadable → lacks self.now }
        ensures memory { IsErrOf result ReadError.Memory → allocates self.now text.now }
        ensures reading { IsAnswered result (reading self.now text.now) };

    /// The decimal of a text with the separators of Arabic digits: in Hindi of `1٬234٫5` 1234.5.
    fn read_with_arabic(&self, alloc: Global, text: &str) -> Result<Decimal, ReadError>
        ensures unreadable { IsErrOf result ReadError.Unreadable → lacks self.now }
        ensures reading { IsAnswered result (arabic self.now text.now) };
}

// A text in ASCII whose digits were native ones.
#[tactic(auto, using(crate::proofs::LenientStepLemmas::answered_first, crate::proofs::LenientStepLemmas::answered_second, crate::proofs::TypedLemmas::unreadable_first))]
fn read_spelled<R: NativeReader>(
    alloc: Global,
    reader: &R,
    text: &str,
    is_arabic: bool,
) -> Result<Decimal, ReadError>
    ensures unreadable { IsErrOf result ReadError.Unreadable → R.lacks reader.now }
    ensures reading { IsAnswered result (or_else (R.reading reader.now text.now)
        (by_option (R.arabic reader.now) (cond is_arabic (Some text.now) None))) }
{
    match reader.read_as_is(alloc, text) {
        Ok(number) => Ok(number),
        Err(ReadError::Unreadable) => Err(ReadError::Unreadable),
        Err(ReadError::NotWritten) => if is_arabic {
            reader.read_with_arabic(alloc, text)
        } else {
            Err(ReadError::NotWritten)
        },
        Err(ReadError::Memory) => Err(ReadError::Memory),
    }
}

// A text that is no number as it is.
#[tactic(auto, using(crate::proofs::TypedLemmas::no_native, crate::proofs::TypedStepLemmas::spelled_again))]
fn read_digits<R: NativeReader>(alloc: Global, reader: &R, text: &str) -> Result<Decimal, ReadError>
    ensures unreadable { IsErrOf result ReadError.Unreadable → R.lacks reader.now }
    ensures reading { IsAnswered result (or_else (by_option (R.reading reader.now) (native_text text.now))
        (by_option (R.arabic reader.now) (arabic_text text.now))) }
{
    let Some(native) = native_text(alloc, text)? else {
        return Err(ReadError::NotWritten);
    };
    let read = read_spelled(alloc, reader, native.as_str(), has_arabic_digits(text));
    drop(native);
    read
}

/// The decimal of a text as it is, else with its native digits in ASCII, else, of Arabic digits, so with their
/// separators: in Hindi `1,234.5`, `१,२३४.५` and `١٬٢٣٤٫٥` are 1234.5.
///
/// `Unreadable`, `NotWritten`: as by the reader. `Memory`: out of memory. Allocates as the reader, and where the text is
/// no number as it is, and its digits are native.
#[tactic(auto, using(crate::proofs::LenientStepLemmas::answered_first, crate::proofs::LenientStepLemmas::answered_second, crate::proofs::TypedLemmas::unreadable_first))]
pub fn read_in_native<R: NativeReader>(
    alloc: Global,
    reader: &R,
    text: &str,
) -> Result<Decimal, ReadError>
    ensures unreadable { IsErrOf result ReadError.Unreadable → R.lacks reader.now }
    ensures memory { IsErrOf result ReadError.Memory
        → R.allocates reader.now text.now ⊎ (R.reading reader.now text.now ≡ not_written) }
    ensures reading { IsAnswered result (typed_by (R.reading reader.now) (R.arabic reader.now) text.now) }
{
    match reader.read_as_is(alloc, text) {
        Ok(number) => Ok(number),
        Err(ReadError::Unreadable) => Err(ReadError::Unreadable),
        Err(ReadError::NotWritten) => read_digits(alloc, reader, text),
        Err(ReadError::Memory) => Err(ReadError::Memory),
    }
}

// ---- with tables

/// What reads by tables that are made for a text: those of a formatter, with the separators of Arabic digits.
pub trait MadeTablesReader {
    // What a text is read as by tables.
    ghost reading_by: { Self → Tables → List ℕ → PlainReading };

    /// The decimal of a text by these tables: by those of Hindi with U+066C between groups, of `1٬234` 1234.
    fn read_by_tables(
        &self,
        alloc: Global,
        tables: &LenientTables<'_>,
        text: &str,
    ) -> Result<Decimal, ReadError>
        ensures unreadable { ¬ (IsErrOf result ReadError.Unreadable) }
        ensures reading { IsAnswered result (reading_by self.now tables.now text.now) };
}

// A text by tables, where they are leniently readable.
fn read_if_readable<R: MadeTablesReader>(
    alloc: Global,
    reader: &R,
    tables: &DecimalTables<'_>,
    text: &str,
) -> Result<Decimal, ReadError>
    ensures unreadable { ¬ (IsErrOf result ReadError.Unreadable) }
    ensures reading { IsAnswered result (cond (is_leniently_readable_by (borrowed_tables tables.now))
        (R.reading_by reader.now (borrowed_tables tables.now) text.now) not_written) }
{
    let kept = match LenientTables::new(alloc, tables) {
        Ok(kept) => kept,
        Err(ReadError::Memory) => return Err(ReadError::Memory),
        Err(ReadError::Unreadable | ReadError::NotWritten) => return Err(ReadError::NotWritten),
    };
    let read = reader.read_by_tables(alloc, &kept, text);
    drop(kept);
    read
}

/// The decimal of a text by tables whose separators are those of Arabic digits, in place of others: by those of Hindi of
/// `1٬234٫5` 1234.5.
///
/// `NotWritten`: as by the reader, or the tables have such a separator already, or with these can't be read leniently.
/// `Memory`: out of memory. Allocates.
pub fn read_arabic<R: MadeTablesReader>(
    alloc: Global,
    reader: &R,
    tables: &DecimalTables<'_>,
    text: &str,
) -> Result<Decimal, ReadError>
    ensures unreadable { ¬ (IsErrOf result ReadError.Unreadable) }
    ensures reading { IsAnswered result
        (arabic_by (R.reading_by reader.now) (borrowed_tables tables.now) text.now) }
{
    if has_arabic_separator(tables.symbols()) {
        return Err(ReadError::NotWritten);
    }
    let symbols = arabic_symbols(alloc, tables.symbols())?;
    let arabic = DecimalTables::new(&symbols, tables.digits(), GroupingStrategy::Auto);
    let read = read_if_readable(alloc, reader, &arabic, text);
    drop(symbols);
    read
}

// A text of a number alone.
#[derive(Clone, Copy)]
struct NumberAlone;

impl MadeTablesReader for NumberAlone {
    ghost reading_by = { λ alone. lenient_reading };

    fn read_by_tables(
        &self,
        alloc: Global,
        tables: &LenientTables<'_>,
        text: &str,
    ) -> Result<Decimal, ReadError> {
        tables.read_without_native(alloc, text)
    }
}

/// What reads by tables: what the formatter writes, and that once it is folded.
pub trait TableReader {
    // The tables that it reads by.
    ghost reads_by: { Self → Tables };

    /// The tables that it reads by: of a form in Hindi, those with `,` between groups.
    fn tables(&self) -> &DecimalTables<'_>
        ensures { borrowed_tables result.now ≡ reads_by self.now };

    /// The decimal of a text without native digits: in Hindi of `1,234.5` 1234.5, of `१` none.
    fn read_folded(&self, alloc: Global, text: &str) -> Result<Decimal, ReadError>
        ensures memory { IsErrOf result ReadError.Memory → MayAllocate (reads_by self.now) text.now }
        ensures reading { IsAnswered result (lenient_reading (reads_by self.now) text.now) };
}

// One reader.
#[derive(Clone, Copy)]
struct One<'r, R: TableReader> {
    reader: &'r R,
}

impl<'r, R: TableReader> NativeReader for One<'r, R> {
    ghost reading = { λ one. lenient_reading (R.reads_by one.reader.now) };

    ghost arabic = { λ one. arabic_reading (R.reads_by one.reader.now) };

    ghost allocates = { λ one. MayAllocate (R.reads_by one.reader.now) };

    ghost lacks = { λ one. Unit {0} };

    fn read_as_is(&self, alloc: Global, text: &str) -> Result<Decimal, ReadError> {
        self.reader.read_folded(alloc, text)
    }

    fn read_with_arabic(&self, alloc: Global, text: &str) -> Result<Decimal, ReadError> {
        read_arabic(alloc, &NumberAlone, self.reader.tables(), text)
    }
}

// Two readers: the second one is asked where the text is not what the first one writes.
#[derive(Clone, Copy)]
struct Both<'r, R: TableReader, O: TableReader> {
    reader: &'r R,
    other: &'r O,
}

impl<'r, R: TableReader, O: TableReader> NativeReader for Both<'r, R, O> {
    ghost reading = { λ both. reading_by_both (R.reads_by both.reader.now) (O.reads_by both.other.now) };

    ghost arabic = { λ both. arabic_reading (R.reads_by both.reader.now) };

    ghost allocates = { λ both text. MayAllocate (R.reads_by both.reader.now) text
        ⊎ MayAllocate (O.reads_by both.other.now) text };

    ghost lacks = { λ both. Unit {0} };

    #[tactic(auto, using(crate::proofs::AgreementLemmas::own_agrees, crate::proofs::AgreementLemmas::answered_other))]
    fn read_as_is(&self, alloc: Global, text: &str) -> Result<Decimal, ReadError> {
        let number = match self.reader.read_folded(alloc, text) {
            Ok(number) => number,
            Err(ReadError::NotWritten) => return self.other.read_folded(alloc, text),
            Err(error) => return Err(error),
        };
        if is_own_text(self.reader.tables(), &number, text) {
            return Ok(number);
        }
        unless_other(number, self.other.read_folded(alloc, text))
    }

    fn read_with_arabic(&self, alloc: Global, text: &str) -> Result<Decimal, ReadError> {
        read_arabic(alloc, &NumberAlone, self.reader.tables(), text)
    }
}

/// The decimal that was typed, by a reader: as `read` of `LenientTables`.
///
/// `Unreadable`, `NotWritten`: as `read_lenient`. `Memory`: out of memory. Allocates as `read_lenient`.
pub fn read_typed<R: TableReader>(
    alloc: Global,
    reader: &R,
    text: &str,
) -> Result<Decimal, ReadError>
    ensures memory { IsErrOf result ReadError.Memory → MayAllocate (R.reads_by reader.now) text.now }
    ensures reading { IsAnswered result (typed_reading (R.reads_by reader.now) text.now) }
{
    read_in_native(alloc, &One { reader }, text)
}

/// The same, by two readers: as `read_or` of `LenientTables`.
///
/// `Unreadable`: as `read_typed` by the first one, or, where by this the text is no number, by the second one.
/// `NotWritten`: it is a text of no decimal by either, or it is ambiguous. `Memory`: out of memory. Allocates as
/// `read_typed` by each that is asked.
pub fn read_typed_or<R: TableReader, O: TableReader>(
    alloc: Global,
    reader: &R,
    other: &O,
    text: &str,
) -> Result<Decimal, ReadError>
    ensures memory { IsErrOf result ReadError.Memory
        → MayAllocate (R.reads_by reader.now) text.now ⊎ MayAllocate (O.reads_by other.now) text.now }
    ensures reading { IsAnswered result (typed_by_both (R.reads_by reader.now) (O.reads_by other.now) text.now) }
{
    read_in_native(alloc, &Both { reader, other }, text)
}
