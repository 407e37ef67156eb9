//! Reading numbers with a unit back.

ghost use Rattle.std.specs.Prelude.{◌≡◌, ◌≢◌, ◌↔◌, ℕ, List, ◌++◌, false, true, IfNone, IfOk, IfSome, IsErrOf, string_bytes};
ghost use Rattle.std.specs.Str.{bytes_eq};
ghost use Rattle.icu_decimal_plain.specs.BorrowedTables.{borrowed_tables};
ghost use Rattle.icu_decimal_reading.specs.DecimalOfText.{HasManyDigits};
ghost use Rattle.icu_decimal_reading.specs.Readable.{is_readable_by};
ghost use Rattle.icu_dimension_affixes.specs.HeldReaders.{pair_of, reader_of};
ghost use Rattle.icu_dimension_affixes.specs.HeldUnits.{name_of, settings_of};
ghost use Rattle.icu_dimension_affixes.specs.UnitReading.{AreReaderTexts, HasManyBetween, HasNoDecimal, HasNoNumberBetween, HasNoUnsigned, IsSignedText, IsUnitText, IsUnsignedText, HasManyIn, do_differ, is_clear, is_unit_readable_by, pair_for, reader_texts};

use crate::patterns::UnitPattern;
use crate::sign_affixes::{SignAffixes, sign_affixes};
use crate::tables::UnitTables;
use crate::unit::Unit;
use fixed_decimal::{Decimal, Sign};
use icu_decimal_plain::DecimalTables;
use icu_decimal_reading::ReadError;
use icu_decimal_reading::digits::has_none;
use std::alloc::{AllocError, Global};
use std::marker::Model;

/// What numbers with a unit are read with: the tables, and the affixes of each sign, which it has put together once.
///
/// That of English and `€` reads `-€1,234.50` as -1234.50. It borrows only what the tables of decimals borrow.
#[derive(Debug, Drop)]
pub struct UnitReader<'b> {
    decimals: DecimalTables<'b>,
    none: SignAffixes,
    minus: SignAffixes,
    plus: SignAffixes,
}

impl<'b> Model for UnitReader<'b> {
    ghost use Rattle.icu_dimension_affixes.specs.UnitReading.{ReaderTexts};

    ghost Value = { ReaderTexts };

    ghost use Rattle.icu_decimal_plain.specs.BorrowedTables.{borrowed_tables};
    ghost use Rattle.icu_dimension_affixes.specs.HeldReaders.{pair_of};

    ghost view = { λ r. record {
      tables = borrowed_tables r.decimals;
      pairs = record { none = pair_of r.none; minus = pair_of r.minus; plus = pair_of r.plus };
    } };
}

// What follows a text at the front of another.
fn strip_before<'t>(text: &'t str, before: &str) -> Option<&'t str>
    ensures some { IfSome result (λ rest. text.now ≡ before.now ++ rest.now) }
    ensures none { IfNone result ((rest : List ℕ) → text.now ≢ before.now ++ rest) }
{
    text.strip_prefix(before)
}

// What comes before a text at the end of another.
fn strip_after<'t>(text: &'t str, after: &str) -> Option<&'t str>
    ensures some { IfSome result (λ front. text.now ≡ front.now ++ after.now) }
    ensures none { IfNone result ((front : List ℕ) → text.now ≢ front ++ after.now) }
{
    text.strip_suffix(after)
}

// What is between two affixes.
fn strip_affixes<'t>(text: &'t str, affixes: &SignAffixes) -> Option<&'t str>
    ensures some { IfSome result
        (λ inner. text.now ≡ string_bytes affixes.now.before ++ (inner.now ++ string_bytes affixes.now.after)) }
    ensures none { IfNone result ((inner : List ℕ)
        → text.now ≢ string_bytes affixes.now.before ++ (inner ++ string_bytes affixes.now.after)) }
{
    match strip_before(text, affixes.before.as_str()) {
        Some(rest) => strip_after(rest, affixes.after.as_str()),
        None => None,
    }
}

// The number, where it has no sign.
fn unsigned_number(number: Decimal) -> Option<Decimal>
    ensures value { IfSome result (λ v. v ≡ number) }
    ensures sign { IfSome result (λ v. v.sign ≡ Sign.None) }
    ensures none { IfNone result (number.sign ≢ Sign.None) }
{
    match number.sign {
        Sign::None => Some(number),
        Sign::Negative | Sign::Positive => None,
    }
}

// The number without a sign that is written so.
#[tactic(auto, using(crate::proofs::ReaderLemmas::unsigned_written, crate::proofs::ReaderLemmas::unsigned_missing, crate::proofs::ReaderLemmas::signed_only))]
fn read_unsigned(
    alloc: Global,
    decimals: &DecimalTables<'_>,
    text: &str,
) -> Result<Decimal, ReadError>
    requires { is_readable_by (borrowed_tables decimals.now) ≡ true }
    ensures unreadable { ¬ (IsErrOf result ReadError.Unreadable) }
    ensures not_written { IsErrOf result ReadError.NotWritten → HasNoUnsigned (borrowed_tables decimals.now) text.now }
    ensures memory { IsErrOf result ReadError.Memory → HasManyDigits (borrowed_tables decimals.now) text.now }
    ensures value { IfOk result (λ v. IsUnsignedText (borrowed_tables decimals.now) text.now v) }
{
    icu_decimal_reading::are_tables(decimals);
    match icu_decimal_reading::read_readable(alloc, decimals, text) {
        Ok(number) => match unsigned_number(number) {
            Some(number) => Ok(number),
            None => Err(ReadError::NotWritten),
        },
        Err(error) => Err(error),
    }
}

// The number between the affixes of a sign, with the sign.
#[tactic(auto, using(crate::proofs::ReaderLemmas::between_written, crate::proofs::ReaderLemmas::between_missing, crate::proofs::ReaderLemmas::between_nothing, crate::proofs::ReaderLemmas::between_many))]
fn read_signed(
    alloc: Global,
    decimals: &DecimalTables<'_>,
    affixes: &SignAffixes,
    sign: Sign,
    text: &str,
) -> Result<Decimal, ReadError>
    requires { is_readable_by (borrowed_tables decimals.now) ≡ true }
    ensures unreadable { ¬ (IsErrOf result ReadError.Unreadable) }
    ensures not_written { IsErrOf result ReadError.NotWritten
        → HasNoNumberBetween (borrowed_tables decimals.now) (pair_of affixes.now) text.now }
    ensures memory { IsErrOf result ReadError.Memory
        → HasManyIn (borrowed_tables decimals.now) (pair_of affixes.now) text.now }
    ensures value { IfOk result
        (λ v. IsSignedText (borrowed_tables decimals.now) (pair_of affixes.now) sign text.now v) }
{
    let Some(inner) = strip_affixes(text, affixes) else {
        return Err(ReadError::NotWritten);
    };
    match read_unsigned(alloc, decimals, inner) {
        Ok(number) => Ok(number.with_sign(sign)),
        Err(error) => Err(error),
    }
}

// The number between the affixes of one of the signs, with that sign.
#[tactic(auto, using(crate::proofs::ReaderLemmas::readable_tables, crate::proofs::ReaderLemmas::unit_written, crate::proofs::ReaderLemmas::unit_missing, crate::proofs::ReaderLemmas::unit_many))]
fn read_any(
    alloc: Global,
    decimals: &DecimalTables<'_>,
    none: &SignAffixes,
    minus: &SignAffixes,
    plus: &SignAffixes,
    text: &str,
) -> Result<Decimal, ReadError>
    requires { is_unit_readable_by (reader_of decimals.now none.now minus.now plus.now) ≡ true }
    ensures unreadable { ¬ (IsErrOf result ReadError.Unreadable) }
    ensures not_written { IsErrOf result ReadError.NotWritten
        → HasNoDecimal (reader_of decimals.now none.now minus.now plus.now) text.now }
    ensures memory { IsErrOf result ReadError.Memory
        → HasManyBetween (reader_of decimals.now none.now minus.now plus.now) text.now }
    ensures value { IfOk result
        (λ v. IsUnitText (reader_of decimals.now none.now minus.now plus.now) text.now v) }
{
    match read_signed(alloc, decimals, none, Sign::None, text) {
        Ok(number) => return Ok(number),
        Err(ReadError::NotWritten) => {}
        Err(error) => return Err(error),
    }
    match read_signed(alloc, decimals, minus, Sign::Negative, text) {
        Ok(number) => return Ok(number),
        Err(ReadError::NotWritten) => {}
        Err(error) => return Err(error),
    }
    read_signed(alloc, decimals, plus, Sign::Positive, text)
}

// That the tables and the affixes are texts, which the laws of reading ask.
#[tactic(auto, using(crate::proofs::UnitReadingLemmas::are_reader_texts))]
fn are_texts(
    decimals: &DecimalTables<'_>,
    none: &SignAffixes,
    minus: &SignAffixes,
    plus: &SignAffixes,
)
    ensures { AreReaderTexts (reader_of decimals.now none.now minus.now plus.now) }
{
    icu_decimal_reading::are_tables(decimals);
    let _none_before = none.before.as_str(); // for the proof
    let _none_after = none.after.as_str(); // for the proof
    let _minus_before = minus.before.as_str(); // for the proof
    let _minus_after = minus.after.as_str(); // for the proof
    let _plus_before = plus.before.as_str(); // for the proof
    let _plus_after = plus.after.as_str(); // for the proof
}

/// Whether no digit of a table is in the affixes: none of ASCII is in `-€` and the empty text. It does not allocate.
pub fn are_clear(digits: &[char; 10], affixes: &SignAffixes) -> bool
    ensures { result ≡ is_clear digits.now (pair_of affixes.now) }
{
    has_none(digits, affixes.before.as_str()) && has_none(digits, affixes.after.as_str())
}

// Whether two texts are one.
fn is_same_text(one: &str, other: &str) -> bool
    ensures { result ≡ bytes_eq one.now other.now }
{
    one == other
}

/// Whether the affixes differ: `-€` and the empty text, and `€` and the empty text, do. It does not allocate.
pub fn are_apart(one: &SignAffixes, other: &SignAffixes) -> bool
    ensures { result ≡ do_differ (pair_of one.now) (pair_of other.now) }
{
    !(is_same_text(one.before.as_str(), other.before.as_str())
        && is_same_text(one.after.as_str(), other.after.as_str()))
}

impl<'b> UnitReader<'b> {
    /// The reader of what is written with these tables of decimals, this pattern and this unit: of English, `¤` before
    /// the number and `€` it reads `-€1,234.50`. It borrows neither the pattern nor the unit.
    ///
    /// It allocates for each affix that is not empty. `AllocError`: out of memory.
    pub fn of_parts<'l>(
        alloc: Global,
        decimals: &'l DecimalTables<'b>,
        pattern: &'l UnitPattern,
        unit: Unit<'l>,
    ) -> Result<Self, AllocError>
        ensures { IfOk result (λ reader. reader ≡ reader_texts
            (record { tables = borrowed_tables decimals.now; pattern = pattern.now; unit = name_of unit.entry })) }
    {
        let tables = UnitTables::new(&*decimals, pattern, unit);
        let none = sign_affixes(alloc, &tables, Sign::None)?;
        let minus = sign_affixes(alloc, &tables, Sign::Negative)?;
        let plus = sign_affixes(alloc, &tables, Sign::Positive)?;
        Ok(UnitReader {
            decimals: *decimals,
            none,
            minus,
            plus,
        })
    }

    /// The reader of what these tables write: those of English and `€` read `-€1,234.50`.
    ///
    /// It allocates for each affix that is not empty. `AllocError`: out of memory.
    pub fn try_new(alloc: Global, tables: &UnitTables<'b>) -> Result<Self, AllocError>
        ensures { IfOk result (λ reader. reader ≡ reader_texts (settings_of tables.now)) }
    {
        UnitReader::of_parts(alloc, tables.decimals, tables.pattern, tables.unit)
    }

    /// Whether texts can be read back: in English with `€` they can.
    ///
    /// They can where the tables are readable, no digit is in the affixes, and the affixes of a minus sign, of a plus
    /// sign and of no sign differ as pairs. Then no two decimals have one text. It does not allocate.
    pub fn is_readable(&self) -> bool
        ensures value { result ≡ is_unit_readable_by self.now }
        ensures texts { AreReaderTexts self.now }
    {
        are_texts(&self.decimals, &self.none, &self.minus, &self.plus);
        let digits = self.decimals.digits();
        icu_decimal_reading::is_readable(&self.decimals)
            && ((are_clear(digits, &self.none)
                && (are_clear(digits, &self.minus) && are_clear(digits, &self.plus)))
                && (are_apart(&self.none, &self.minus)
                    && (are_apart(&self.none, &self.plus) && are_apart(&self.minus, &self.plus))))
    }

    /// The affixes of a sign, with the unit in its place: of English and `€`, `-€` and the empty text of a minus sign. It
    /// does not allocate.
    pub fn affixes(&self, sign: Sign) -> &SignAffixes
        ensures { pair_of result.now ≡ pair_for self.now.pairs sign }
    {
        match sign {
            Sign::None => &self.none,
            Sign::Negative => &self.minus,
            Sign::Positive => &self.plus,
        }
    }

    /// As `read`, of a reader that is known to be readable: of English and `€`, `-€1,234.50` is -1234.50.
    ///
    /// The condition is `is_readable`, which looks through all texts: a caller who reads many texts tests it once.
    /// `NotWritten`: no decimal is written so. `Memory`: out of memory. It allocates where more than sixteen digits are
    /// between the affixes of a sign.
    pub fn read_readable(&self, alloc: Global, text: &str) -> Result<Decimal, ReadError>
        requires { is_unit_readable_by self.now ≡ true }
        ensures unreadable { ¬ (IsErrOf result ReadError.Unreadable) }
        ensures not_written { IsErrOf result ReadError.NotWritten → HasNoDecimal self.now text.now }
        ensures memory { IsErrOf result ReadError.Memory → HasManyBetween self.now text.now }
        ensures value { IfOk result (λ v. IsUnitText self.now text.now v) }
    {
        read_any(
            alloc,
            &self.decimals,
            &self.none,
            &self.minus,
            &self.plus,
            text,
        )
    }

    /// The decimal whose text with its unit this is: of English and `€`, `-€1,234.50` is -1234.50, shown down to
    /// magnitude -2.
    ///
    /// Sign, digits and visible range are those of the one decimal that is written so. `Unreadable`: `is_readable` is
    /// false. `NotWritten`: no decimal is written so, as `$1.00`, `1.00` or `€1234.50`. `Memory`: out of memory. It
    /// allocates where more than sixteen digits are between the affixes of a sign.
    pub fn read(&self, alloc: Global, text: &str) -> Result<Decimal, ReadError>
        ensures unreadable { IsErrOf result ReadError.Unreadable ↔ (is_unit_readable_by self.now ≡ false) }
        ensures not_written { IsErrOf result ReadError.NotWritten → HasNoDecimal self.now text.now }
        ensures memory { IsErrOf result ReadError.Memory → HasManyBetween self.now text.now }
        ensures value { IfOk result (λ v. IsUnitText self.now text.now v) }
    {
        if !self.is_readable() {
            return Err(ReadError::Unreadable);
        }
        self.read_readable(alloc, text)
    }
}
