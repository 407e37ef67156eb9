//! What people type of numbers with a unit, read.

ghost use Rattle.std.specs.Prelude.{◌≡◌, ◌&&◌, true, false, [], ◌∷◌, IsErrOf, IfOk, OnOk};
ghost use Rattle.icu_decimal_reading.specs.DecimalOfText.{IsAnswered};
ghost use Rattle.icu_decimal_lenient.specs.Folding.{folded_symbols};
ghost use Rattle.icu_decimal_lenient.specs.LenientReading.{filled_text, is_leniently_readable_by, trimmed_fold};
ghost use Rattle.icu_decimal_plain.specs.BorrowedTables.{borrowed_tables};
ghost use Rattle.icu_dimension_affixes.specs.HeldUnits.{name_of, settings_of};
ghost use Rattle.icu_dimension_affixes.specs.UnitReading.{AreReaderTexts, HasManyBetween, HasNoDecimal, IsUnitText, is_unit_readable_by, reader_texts};
ghost use Rattle.icu_dimension_lenient.specs.Agreement.{agreed_after};
ghost use Rattle.icu_dimension_lenient.specs.HeldPairs.{pairs_of, unit_of};
ghost use Rattle.icu_dimension_lenient.specs.OwnUnitTexts.{is_own_unit_text};
ghost use Rattle.icu_dimension_lenient.specs.LenientUnits.{folded_ways, is_leniently_unit_readable_by, lenient_texts, read_named, read_own, texts_with, typed_unit_reading};
ghost use Rattle.icu_dimension_lenient.specs.UnitReadings.{unit_reading};

use crate::agreement::{add_reading, found_reading};
use crate::beside::read_by_name;
use crate::ends::strip_pair;
use crate::own::read_affixes;
use crate::pairs::{FoldedTexts, do_tell, fold_texts};
use fixed_decimal::{Decimal, Sign};
use icu_decimal_lenient::{LenientTables, MadeTablesReader, is_own_text};
use icu_decimal_plain::DecimalTables;
use icu_decimal_reading::ReadError;
use icu_dimension_affixes::{Unit, UnitPattern, UnitReader, UnitTables};
use std::alloc::Global;
use std::marker::Model;

// The affixes of a sign around what is filled.
fn read_filled(
    alloc: Global,
    kept: &LenientTables<'_>,
    texts: &FoldedTexts,
    text: &str,
) -> Result<Decimal, ReadError>
    ensures unreadable { ¬ (IsErrOf result ReadError.Unreadable) }
    ensures reading { IsAnswered result (read_own (folded_symbols kept.now) (pairs_of texts.now.pairs)
        (filled_text (folded_symbols kept.now).strings.decimal_separator text.now)) }
{
    let filled = kept.fill(alloc, text)?;
    read_affixes(alloc, kept, &texts.pairs, filled.as_str())
}

// The affixes of a sign around what is filled, beside what was found in other ways.
#[tactic(auto, using(crate::proofs::AgreementSteps::answered_after, crate::proofs::AgreementSteps::refused_after))]
fn agree_filled(
    alloc: Global,
    kept: &LenientTables<'_>,
    texts: &FoldedTexts,
    text: &str,
    found: Option<Decimal>,
) -> Result<Decimal, ReadError>
    ensures unreadable { ¬ (IsErrOf result ReadError.Unreadable) }
    ensures reading { IsAnswered result (agreed_after found
        (read_own (folded_symbols kept.now) (pairs_of texts.now.pairs)
        (filled_text (folded_symbols kept.now).strings.decimal_separator text.now) ∷ [])) }
{
    match add_reading(found, read_filled(alloc, kept, texts, text)) {
        Ok(found) => found_reading(found),
        Err(error) => Err(error),
    }
}

// The code beside the number, and what is filled.
#[tactic(auto, using(crate::proofs::AgreementSteps::answered_after, crate::proofs::AgreementSteps::refused_after))]
fn agree_code(
    alloc: Global,
    kept: &LenientTables<'_>,
    texts: &FoldedTexts,
    text: &str,
    found: Option<Decimal>,
) -> Result<Decimal, ReadError>
    ensures unreadable { ¬ (IsErrOf result ReadError.Unreadable) }
    ensures reading { IsAnswered result (agreed_after found
        (read_named (folded_symbols kept.now) (unit_of texts.now).code text.now
        ∷ (read_own (folded_symbols kept.now) (pairs_of texts.now.pairs)
        (filled_text (folded_symbols kept.now).strings.decimal_separator text.now) ∷ []))) }
{
    match add_reading(found, read_by_name(alloc, kept, texts.code.as_str(), text)) {
        Ok(found) => agree_filled(alloc, kept, texts, text, found),
        Err(error) => Err(error),
    }
}

// The unit beside the number, its code, and what is filled.
#[tactic(auto, using(crate::proofs::AgreementSteps::answered_after, crate::proofs::AgreementSteps::refused_after))]
fn agree_names(
    alloc: Global,
    kept: &LenientTables<'_>,
    texts: &FoldedTexts,
    text: &str,
    found: Option<Decimal>,
) -> Result<Decimal, ReadError>
    ensures unreadable { ¬ (IsErrOf result ReadError.Unreadable) }
    ensures reading { IsAnswered result (agreed_after found
        (read_named (folded_symbols kept.now) (unit_of texts.now).unit text.now
        ∷ (read_named (folded_symbols kept.now) (unit_of texts.now).code text.now
        ∷ (read_own (folded_symbols kept.now) (pairs_of texts.now.pairs)
        (filled_text (folded_symbols kept.now).strings.decimal_separator text.now) ∷ [])))) }
{
    match add_reading(found, read_by_name(alloc, kept, texts.unit.as_str(), text)) {
        Ok(found) => agree_code(alloc, kept, texts, text, found),
        Err(error) => Err(error),
    }
}

// A folded and trimmed text.
#[tactic(auto, using(crate::proofs::AgreementSteps::answered_after, crate::proofs::AgreementSteps::refused_after))]
fn agree_trimmed(
    alloc: Global,
    kept: &LenientTables<'_>,
    texts: &FoldedTexts,
    text: &str,
    found: Option<Decimal>,
) -> Result<Decimal, ReadError>
    ensures unreadable { ¬ (IsErrOf result ReadError.Unreadable) }
    ensures reading { IsAnswered result (agreed_after found
        (folded_ways (folded_symbols kept.now) (unit_of texts.now) text.now)) }
{
    match add_reading(found, read_affixes(alloc, kept, &texts.pairs, text)) {
        Ok(found) => agree_names(alloc, kept, texts, text, found),
        Err(error) => Err(error),
    }
}

// A text with its unit, folded and trimmed.
fn agree_folded(
    alloc: Global,
    kept: &LenientTables<'_>,
    texts: &FoldedTexts,
    text: &str,
    found: Option<Decimal>,
) -> Result<Decimal, ReadError>
    ensures unreadable { ¬ (IsErrOf result ReadError.Unreadable) }
    ensures reading { IsAnswered result (agreed_after found
        (folded_ways (folded_symbols kept.now) (unit_of texts.now) (trimmed_fold kept.now text.now))) }
{
    let folded = kept.fold(alloc, text)?;
    agree_trimmed(alloc, kept, texts, folded.as_str().trim(), found)
}

// A text without its unit, and with it.
#[tactic(auto, using(crate::proofs::AgreementSteps::answered_after, crate::proofs::AgreementSteps::refused_after))]
fn read_typed(
    alloc: Global,
    kept: &LenientTables<'_>,
    texts: &FoldedTexts,
    text: &str,
) -> Result<Decimal, ReadError>
    ensures unreadable { ¬ (IsErrOf result ReadError.Unreadable) }
    ensures reading { IsAnswered result (typed_unit_reading kept.now (unit_of texts.now) text.now) }
{
    match add_reading(None, kept.read_without_native(alloc, text)) {
        Ok(found) => agree_folded(alloc, kept, texts, text, found),
        Err(error) => Err(error),
    }
}

// By tables that are made for a text.
impl MadeTablesReader for FoldedTexts {
    ghost reading_by = { λ texts tables text. typed_unit_reading tables (unit_of texts) text };

    fn read_by_tables(
        &self,
        alloc: Global,
        tables: &LenientTables<'_>,
        text: &str,
    ) -> Result<Decimal, ReadError> {
        read_typed(alloc, tables, self, text)
    }
}

/// What numbers with a unit are read with leniently: a reader of what the formatter writes, and beside it the symbols,
/// the affixes of each sign, the unit and its code, folded once.
///
/// A form field makes it once, and reads with it at each key. That of English, `€` and `EUR` reads `5 EUR` as 5.
#[derive(Debug, Drop)]
pub struct LenientUnitReader<'b> {
    exact: UnitReader<'b>,
    pub(crate) decimals: DecimalTables<'b>,
    kept: LenientTables<'b>,
    pub(crate) texts: FoldedTexts,
}

impl<'b> Model for LenientUnitReader<'b> {
    ghost use Rattle.icu_decimal_plain.specs.BorrowedTables.{borrowed_tables};
    ghost use Rattle.icu_dimension_lenient.specs.HeldPairs.{unit_of};
    ghost use Rattle.icu_dimension_lenient.specs.LenientUnits.{AreKeptTexts, LenientTexts};

    ghost Value = { LenientTexts };

    ghost view = { λ r. record { reader = r.exact; folded = unit_of r.texts } };

    ghost invariant = { λ r. AreKeptTexts r.exact (borrowed_tables r.decimals) r.kept };
}

// The tables of a readable reader, to read leniently with.
fn keep_tables<'b>(
    alloc: Global,
    exact: &UnitReader<'b>,
    decimals: &DecimalTables<'b>,
) -> Result<LenientTables<'b>, ReadError>
    requires { exact.now.tables ≡ borrowed_tables decimals.now }
    ensures unreadable { IsErrOf result ReadError.Unreadable
        → (is_unit_readable_by exact.now && is_leniently_readable_by exact.now.tables) ≡ false }
    ensures not_written { ¬ (IsErrOf result ReadError.NotWritten) }
    ensures texts { OnOk result (AreReaderTexts exact.now) }
    ensures exact { OnOk result (is_unit_readable_by exact.now ≡ true) }
    ensures folded { OnOk result (is_leniently_readable_by exact.now.tables ≡ true) }
    ensures value { IfOk result (λ kept. kept ≡ exact.now.tables) }
{
    if !exact.is_readable() {
        return Err(ReadError::Unreadable);
    }
    LenientTables::new(alloc, decimals)
}

// A number, and whether an exact reader with these tables has it from this text, under any grouping.
#[tactic(auto, using(crate::proofs::OwnUnitLemmas::own_between, crate::proofs::OwnUnitLemmas::own_without))]
fn is_own_by(
    exact: &UnitReader<'_>,
    decimals: &DecimalTables<'_>,
    number: Decimal,
    text: &str,
) -> (Decimal, bool)
    requires { borrowed_tables decimals.now ≡ exact.now.tables }
    ensures number { result.0 ≡ number }
    ensures own { result.1 ≡ is_own_unit_text exact.now text.now number }
{
    let sign = number.sign;
    let affixes = exact.affixes(sign);
    let inner = strip_pair(text, affixes.before.as_str(), affixes.after.as_str());
    let unsigned = number.with_sign(Sign::None);
    let is_own = match inner {
        Some(inner) => is_own_text(decimals, &unsigned, inner),
        None => false,
    };
    (unsigned.with_sign(sign), is_own)
}

// An exact reader with its tables, and beside it what is folded of them, of a unit and of its code.
fn with_folded<'b>(
    alloc: Global,
    exact: UnitReader<'b>,
    decimals: &DecimalTables<'b>,
    unit: &str,
    code: &str,
) -> Result<LenientUnitReader<'b>, ReadError>
    requires { exact.tables ≡ borrowed_tables decimals.now }
    ensures unreadable { IsErrOf result ReadError.Unreadable
        → is_leniently_unit_readable_by (texts_with exact.entry unit.now code.now) ≡ false }
    ensures not_written { ¬ (IsErrOf result ReadError.NotWritten) }
    ensures texts { OnOk result (AreReaderTexts exact.entry) }
    ensures readable { OnOk result (is_leniently_unit_readable_by (texts_with exact.entry unit.now code.now) ≡ true) }
    ensures value { IfOk result (λ reader. reader ≡ texts_with exact.entry unit.now code.now) }
{
    let kept = match keep_tables(alloc, &exact, decimals) {
        Ok(kept) => kept,
        Err(error) => return Err(error),
    };
    let texts = fold_texts(alloc, &kept, &exact, unit, code)?;
    if !do_tell(&texts.pairs) {
        return Err(ReadError::Unreadable);
    }
    Ok(LenientUnitReader {
        exact,
        decimals: *decimals,
        kept,
        texts,
    })
}

impl<'b> LenientUnitReader<'b> {
    /// The lenient reader of what these tables write, and of amounts with this code: those of English and `€`, with
    /// `EUR`, read `5 €` and `5 EUR` as 5. Of percents the code is `%`.
    ///
    /// `Unreadable`: `is_readable` of a `UnitReader` is false, or `is_leniently_readable` of the tables is, or, folded, a
    /// digit is in the affixes or two signs have the same ones. `Memory`: out of memory. It allocates for each affix, and
    /// for each folded text.
    pub fn try_new(alloc: Global, tables: &UnitTables<'b>, code: &str) -> Result<Self, ReadError>
        ensures unreadable { IsErrOf result ReadError.Unreadable
            → is_leniently_unit_readable_by (lenient_texts (settings_of tables.now) code.now) ≡ false }
        ensures not_written { ¬ (IsErrOf result ReadError.NotWritten) }
        ensures texts { OnOk result (AreReaderTexts (reader_texts (settings_of tables.now))) }
        ensures readable { OnOk result
            (is_leniently_unit_readable_by (lenient_texts (settings_of tables.now) code.now) ≡ true) }
        ensures value { IfOk result (λ reader. reader ≡ lenient_texts (settings_of tables.now) code.now) }
    {
        let exact = UnitReader::try_new(alloc, tables)?;
        with_folded(alloc, exact, tables.decimals(), tables.unit().text, code)
    }

    /// As `try_new`, of the parts of the tables: it borrows only what the tables of decimals borrow, so it can be kept
    /// beside these.
    ///
    /// Of English, `¤` before the number, `€` and `EUR` it reads `5 €` as 5. `Unreadable`, `Memory`: as `try_new`. It
    /// allocates for each affix, and for each folded text.
    pub fn of_parts<'l>(
        alloc: Global,
        decimals: &'l DecimalTables<'b>,
        pattern: &'l UnitPattern,
        unit: Unit<'l>,
        code: &str,
    ) -> Result<Self, ReadError>
        ensures unreadable { IsErrOf result ReadError.Unreadable
            → is_leniently_unit_readable_by (lenient_texts (record {
              tables = borrowed_tables decimals.now;
              pattern = pattern.now;
              unit = name_of unit.entry;
            }) code.now) ≡ false }
        ensures not_written { ¬ (IsErrOf result ReadError.NotWritten) }
        ensures texts { OnOk result (AreReaderTexts (reader_texts (record {
          tables = borrowed_tables decimals.now;
          pattern = pattern.now;
          unit = name_of unit.entry;
        }))) }
        ensures readable { OnOk result (is_leniently_unit_readable_by (lenient_texts (record {
          tables = borrowed_tables decimals.now;
          pattern = pattern.now;
          unit = name_of unit.entry;
        }) code.now) ≡ true) }
        ensures value { IfOk result (λ reader. reader ≡ lenient_texts (record {
          tables = borrowed_tables decimals.now;
          pattern = pattern.now;
          unit = name_of unit.entry;
        }) code.now) }
    {
        let exact = UnitReader::of_parts(alloc, decimals, pattern, unit)?;
        with_folded(alloc, exact, decimals, unit.text, code)
    }

    /// The first step of `read`: the decimal that the formatter writes so. In English with `€`, `€1,234.5` is 1234.5, and
    /// `€1234.5` is none.
    ///
    /// `NotWritten`: no decimal is written so. `Memory`: out of memory. It allocates where more than sixteen digits are
    /// between the affixes of a sign.
    pub fn read_exactly(&self, alloc: Global, text: &str) -> Result<Decimal, ReadError>
        ensures unreadable { ¬ (IsErrOf result ReadError.Unreadable) }
        ensures not_written { IsErrOf result ReadError.NotWritten → HasNoDecimal self.now.reader text.now }
        ensures memory { IsErrOf result ReadError.Memory → HasManyBetween self.now.reader text.now }
        ensures value { IfOk result (λ v. IsUnitText self.now.reader text.now v) }
        ensures reading { IsAnswered result (unit_reading self.now.reader text.now) }
    {
        self.exact.read_readable(alloc, text)
    }

    /// The number, and whether it is what the formatter writes so, under any grouping: in English with `€`, `€1,234` and
    /// `€1234` are of 1234, and `€ 1234` is not.
    ///
    /// The number comes back as it was. It does not allocate.
    pub fn own_text(&self, number: Decimal, text: &str) -> (Decimal, bool)
        ensures number { result.0 ≡ number }
        ensures own { result.1 ≡ is_own_unit_text self.now.reader text.now number }
    {
        is_own_by(&self.exact, &self.decimals, number, text)
    }

    /// The second step of `read`, for a text that the formatter does not write: in English with `€` and `EUR`, `€1234.5`
    /// and `5 EUR` are 1234.5 and 5. Native digits are not read.
    ///
    /// `NotWritten`: it is a text of no decimal, folded, or of two. `Memory`: out of memory. It allocates.
    pub fn read_leniently(&self, alloc: Global, text: &str) -> Result<Decimal, ReadError>
        ensures unreadable { ¬ (IsErrOf result ReadError.Unreadable) }
        ensures reading { IsAnswered result
            (typed_unit_reading self.now.reader.tables self.now.folded text.now) }
    {
        read_typed(alloc, &self.kept, &self.texts, text)
    }
}
