//! Reading scientific texts back.

ghost use Rattle.std.specs.Prelude.{◌≡◌, ◌≢◌, ◌↔◌, ◌++◌, ◌==◌, ℕ, List, false, true, IfNone, IfOk, IfSome, IsErrOf};
ghost use Rattle.std.specs.Str.{IsUtf8, NoCharPasses};
ghost use Rattle.icu_decimal_plain.specs.BorrowedTables.{borrowed_tables};
ghost use Rattle.icu_decimal_plain.specs.Affixes.{affixes_of};
ghost use Rattle.icu_decimal_plain.specs.PlainText.{prefix_text, suffix_text};
ghost use Rattle.icu_decimal_reading.specs.DecimalOfText.{HasManyDigits};
ghost use Rattle.icu_decimal_reading.specs.Readable.{is_readable_by};
ghost use Rattle.icu_decimal_scientific.specs.HeldTables.{settings_of};
ghost use Rattle.icu_decimal_scientific.specs.ReadingSteps.{HasManyAround, HasNoExponential, HasNoSplit, HasNoUnsigned, HasNoWhole, HasNoneWith, IsCutAt, IsExponentialText, IsOnlySplit, IsUnsigned, IsWholeText};
ghost use Rattle.icu_decimal_scientific.specs.ScientificReading.{HasManyBeside, HasNoScientific, IsScientificText, is_scientific_readable_by};

use crate::readable::are_texts;
use crate::shown::ShownScientific;
use crate::tables::ScientificTables;
use crate::written::{prefix_in, suffix_in};
use fixed_decimal::{Decimal, FixedInteger, Sign};
use icu_decimal_plain::DecimalTables;
use icu_decimal_reading::ReadError;
use icu_decimal_reading::digits::split_character;
use icu_decimal_symbols::DecimalSymbols;
use std::alloc::Global;

// What follows a text at the front of another.
fn strip_before<'t>(text: &'t str, before: &str) -> Option<&'t str>
    ensures some { IfSome result (λ rest. text.now ≡ before.now ++ rest.now) }
    ensures none { IfNone result ((rest : List ℕ) → text.now ≢ before.now ++ rest) }
{
    text.strip_prefix(before)
}

// What comes before a text at the end of another.
fn strip_after<'t>(text: &'t str, after: &str) -> Option<&'t str>
    ensures some { IfSome result (λ front. text.now ≡ front.now ++ after.now) }
    ensures none { IfNone result ((front : List ℕ) → text.now ≢ front ++ after.now) }
{
    text.strip_suffix(after)
}

// What is between two texts.
fn strip_both<'t>(text: &'t str, before: &str, after: &str) -> Option<&'t str>
    ensures some { IfSome result (λ inner. text.now ≡ before.now ++ (inner.now ++ after.now)) }
    ensures none { IfNone result ((inner : List ℕ) → text.now ≢ before.now ++ (inner ++ after.now)) }
{
    match strip_before(text, before) {
        Some(rest) => strip_after(rest, after),
        None => None,
    }
}

// What is between the affixes of a sign.
fn strip_sign<'t>(text: &'t str, symbols: &DecimalSymbols, sign: Sign) -> Option<&'t str>
    ensures some { IfSome result
        (λ inner. text.now ≡ prefix_text (affixes_of symbols.now.strings sign)
        ++ (inner.now ++ suffix_text (affixes_of symbols.now.strings sign))) }
    ensures none { IfNone result
        ((inner : List ℕ) → text.now ≢ prefix_text (affixes_of symbols.now.strings sign)
        ++ (inner ++ suffix_text (affixes_of symbols.now.strings sign))) }
{
    strip_both(text, prefix_in(sign, symbols), suffix_in(sign, symbols))
}

// The texts before and after the first place of a character.
#[tactic(auto, using(crate::proofs::CutLemmas::cut_around))]
fn cut_at(text: &str, mark: char) -> Option<(&str, &str)>
    ensures some { IfSome result (λ r. IsCutAt mark text.now r.0.now r.1.now) }
    ensures none { IfNone result (NoCharPasses (λ c. c == mark) text.now) }
{
    text.split_once(mark)
}

// That a text is one, for the proof.
fn is_text(text: &str)
    ensures { IsUtf8 text.now }
{}

// The texts before and after the first place where a separator can be.
#[tactic(auto, using(crate::proofs::CutLemmas::only_split, crate::proofs::CutLemmas::no_separator, crate::proofs::CutLemmas::no_mark, crate::proofs::CutLemmas::no_rest))]
fn split_at_separator<'t>(text: &'t str, separator: &str) -> Option<(&'t str, &'t str)>
    ensures some { IfSome result (λ r. IsOnlySplit separator.now text.now r.0.now r.1.now) }
    ensures none { IfNone result (HasNoSplit separator.now text.now) }
{
    is_text(separator);
    let Some((mark, more)) = split_character(separator) else {
        return None;
    };
    is_text(more);
    let Some((front, behind)) = cut_at(text, mark) else {
        return None;
    };
    is_text(behind);
    match strip_before(behind, more) {
        Some(back) => Some((front, back)),
        None => None,
    }
}

// The number, where it has no sign.
fn without_sign(number: Decimal) -> Option<Decimal>
    ensures value { IfSome result (λ v. v ≡ number) }
    ensures sign { IfSome result (λ v. v.sign ≡ Sign.None) }
    ensures none { IfNone result (number.sign ≢ Sign.None) }
{
    match number.sign {
        Sign::None => Some(number),
        Sign::Negative | Sign::Positive => None,
    }
}

// The number without a sign that is written so.
#[tactic(auto, using(crate::proofs::ReaderLemmas::unsigned_written, crate::proofs::ReaderLemmas::unsigned_missing, crate::proofs::ReaderLemmas::signed_only))]
fn read_unsigned(
    alloc: Global,
    decimals: &DecimalTables<'_>,
    text: &str,
) -> Result<Decimal, ReadError>
    requires { is_readable_by (borrowed_tables decimals.now) ≡ true }
    ensures unreadable { ¬ (IsErrOf result ReadError.Unreadable) }
    ensures not_written { IsErrOf result ReadError.NotWritten → HasNoUnsigned (borrowed_tables decimals.now) text.now }
    ensures memory { IsErrOf result ReadError.Memory → HasManyDigits (borrowed_tables decimals.now) text.now }
    ensures value { IfOk result (λ v. IsUnsigned (borrowed_tables decimals.now) text.now v) }
{
    icu_decimal_reading::are_tables(decimals);
    match icu_decimal_reading::read_readable(alloc, decimals, text) {
        Ok(number) => match without_sign(number) {
            Some(number) => Ok(number),
            None => Err(ReadError::NotWritten),
        },
        Err(error) => Err(error),
    }
}

// The whole number that is written so.
#[tactic(auto, using(crate::proofs::ReaderLemmas::whole_written, crate::proofs::ReaderLemmas::whole_missing, crate::proofs::ReaderLemmas::fraction_only))]
fn read_whole(
    alloc: Global,
    exponents: &DecimalTables<'_>,
    text: &str,
) -> Result<Decimal, ReadError>
    requires { is_readable_by (borrowed_tables exponents.now) ≡ true }
    ensures unreadable { ¬ (IsErrOf result ReadError.Unreadable) }
    ensures not_written { IsErrOf result ReadError.NotWritten → HasNoWhole (borrowed_tables exponents.now) text.now }
    ensures memory { IsErrOf result ReadError.Memory → HasManyDigits (borrowed_tables exponents.now) text.now }
    ensures value { IfOk result (λ v. IsWholeText (borrowed_tables exponents.now) text.now v) }
{
    icu_decimal_reading::are_tables(exponents);
    match icu_decimal_reading::read_readable(alloc, exponents, text) {
        Ok(number) => match FixedInteger::try_from(number) {
            Ok(whole) => Ok(whole.into_decimal()),
            Err(_) => Err(ReadError::NotWritten),
        },
        Err(error) => Err(error),
    }
}

// The number without a sign and the exponent that are written so.
#[tactic(auto, using(crate::proofs::ReaderLemmas::exponential_written, crate::proofs::ReaderLemmas::split_missing, crate::proofs::ReaderLemmas::front_missing, crate::proofs::ReaderLemmas::back_missing, crate::proofs::ReaderLemmas::front_many, crate::proofs::ReaderLemmas::back_many))]
fn read_exponential(
    alloc: Global,
    tables: &ScientificTables<'_>,
    text: &str,
) -> Result<ShownScientific, ReadError>
    requires { is_scientific_readable_by (settings_of tables.now) ≡ true }
    ensures unreadable { ¬ (IsErrOf result ReadError.Unreadable) }
    ensures not_written { IsErrOf result ReadError.NotWritten → HasNoExponential (settings_of tables.now) text.now }
    ensures memory { IsErrOf result ReadError.Memory → HasManyAround (settings_of tables.now) text.now }
    ensures value { IfOk result (λ v. IsExponentialText (settings_of tables.now) text.now v) }
{
    are_texts(&tables.decimals, tables.separator, &tables.exponents);
    let Some((front, back)) = split_at_separator(text, tables.separator) else {
        return Err(ReadError::NotWritten);
    };
    let significand = match read_unsigned(alloc, &tables.decimals, front) {
        Ok(significand) => significand,
        Err(error) => return Err(error),
    };
    match read_whole(alloc, &tables.exponents, back) {
        Ok(exponent) => Ok(ShownScientific {
            significand,
            exponent,
        }),
        Err(error) => Err(error),
    }
}

// The number with this sign that is written so.
#[tactic(auto, using(crate::proofs::ReaderLemmas::signed_written, crate::proofs::ReaderLemmas::signed_missing, crate::proofs::ReaderLemmas::sign_missing, crate::proofs::ReaderLemmas::signed_many))]
fn read_signed(
    alloc: Global,
    tables: &ScientificTables<'_>,
    sign: Sign,
    text: &str,
) -> Result<ShownScientific, ReadError>
    requires { is_scientific_readable_by (settings_of tables.now) ≡ true }
    ensures unreadable { ¬ (IsErrOf result ReadError.Unreadable) }
    ensures not_written { IsErrOf result ReadError.NotWritten → HasNoneWith (settings_of tables.now) sign text.now }
    ensures memory { IsErrOf result ReadError.Memory → HasManyBeside (settings_of tables.now) text.now }
    ensures value { IfOk result (λ v. IsScientificText (settings_of tables.now) text.now v) }
{
    let Some(inner) = strip_sign(text, tables.decimals.symbols(), sign) else {
        return Err(ReadError::NotWritten);
    };
    match read_exponential(alloc, tables, inner) {
        Ok(number) => Ok(number.with_sign(sign)),
        Err(error) => Err(error),
    }
}

impl<'b> ScientificTables<'b> {
    /// As `read`, of tables that are known to be readable: in English with `E`, `-1.20E6` is -1.20 and 6.
    ///
    /// The condition is `is_readable`, which looks through all texts: a caller who reads many texts tests it once.
    /// `NotWritten`: no scientific number is written so. `Memory`: out of memory. It allocates where more than sixteen
    /// digits are before the exponent, or in it.
    #[tactic(auto, using(crate::proofs::ReaderLemmas::none_with_any))]
    pub fn read_readable(&self, alloc: Global, text: &str) -> Result<ShownScientific, ReadError>
        requires { is_scientific_readable_by (settings_of self.now) ≡ true }
        ensures unreadable { ¬ (IsErrOf result ReadError.Unreadable) }
        ensures not_written { IsErrOf result ReadError.NotWritten → HasNoScientific (settings_of self.now) text.now }
        ensures memory { IsErrOf result ReadError.Memory → HasManyBeside (settings_of self.now) text.now }
        ensures value { IfOk result (λ v. IsScientificText (settings_of self.now) text.now v) }
    {
        match read_signed(alloc, self, Sign::None, text) {
            Ok(number) => return Ok(number),
            Err(ReadError::NotWritten) => {}
            Err(error) => return Err(error),
        }
        match read_signed(alloc, self, Sign::Negative, text) {
            Ok(number) => return Ok(number),
            Err(ReadError::NotWritten) => {}
            Err(error) => return Err(error),
        }
        read_signed(alloc, self, Sign::Positive, text)
    }

    /// The scientific number whose text this is: in English with `E`, `-1.20E6` is -1.20 and 6.
    ///
    /// Signs and digits are those of the one number that is written so. `Unreadable`: `is_readable` is false.
    /// `NotWritten`: no scientific number is written so, as `1.2`, `1.2e6` or `1200E-0.5`. `Memory`: out of memory. It
    /// allocates where more than sixteen digits are before the exponent, or in it.
    pub fn read(&self, alloc: Global, text: &str) -> Result<ShownScientific, ReadError>
        ensures unreadable { IsErrOf result ReadError.Unreadable ↔ (is_scientific_readable_by (settings_of self.now) ≡ false) }
        ensures not_written { IsErrOf result ReadError.NotWritten → HasNoScientific (settings_of self.now) text.now }
        ensures memory { IsErrOf result ReadError.Memory → HasManyBeside (settings_of self.now) text.now }
        ensures value { IfOk result (λ v. IsScientificText (settings_of self.now) text.now v) }
    {
        if !self.is_readable() {
            return Err(ReadError::Unreadable);
        }
        self.read_readable(alloc, text)
    }
}
