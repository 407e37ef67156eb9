//! Reading texts of a notation.

ghost use Rattle.std.specs.Prelude.{◌≡◌, ◌↔◌, ℤ, false, true, IfNone, IfOk, IfSome, IsErrOf, IsFalse, IsTrue};
ghost use Rattle.fixed_decimal.specs.IntegerText.{ShowsNoFraction};
ghost use Rattle.icu_decimal_reading.specs.DecimalOfText.{IsAnswered};
ghost use Rattle.icu_decimal_scientific.specs.HeldTables.{settings_of};
ghost use Rattle.icu_decimal_scientific.specs.NotationReading.{HasNoForm, IsDecimalText, IsFormText, IsShownForm, ShowsNoForm};
ghost use Rattle.icu_decimal_scientific.specs.Scientific.{step};
ghost use Rattle.icu_decimal_scientific.specs.ScientificLaws.{IsNormal};
ghost use Rattle.icu_decimal_scientific.specs.ScientificReading.{HasManyBeside, is_scientific_readable_by};
ghost use Rattle.icu_decimal_scientific.specs.ScientificReadings.{scientific_reading};
ghost use Rattle.icu_decimal_scientific.specs.Steps.{IsFormExponent};

use crate::exponent_reader::{exponent_value, is_shown_so};
use crate::notation::ScientificNotation;
use crate::number::ScientificNumber;
use crate::places::{fall_of, first_place, rise_of};
use crate::product::is_decimal;
use crate::readable::are_texts;
use crate::shown::{ExponentOptions, ShownScientific};
use crate::tables::ScientificTables;
use fixed_decimal::{Decimal, UnsignedDecimal};
use icu_decimal_reading::ReadError;
use std::alloc::Global;

// How far apart the exponents of a notation are.
fn step_of(notation: ScientificNotation) -> u32
    ensures { result ≡ step notation }
{
    match notation {
        ScientificNotation::Scientific => 1,
        ScientificNotation::Engineering => 3,
    }
}

// Whether a significand and an exponent are normal in a notation.
#[tactic(auto, using(crate::proofs::NotationLemmas::normal_zero, crate::proofs::NotationLemmas::zero_alone, crate::proofs::NotationLemmas::no_multiple))]
fn is_normal(significand: &UnsignedDecimal, exponent: i32, notation: ScientificNotation) -> bool
    ensures normal { IsTrue result → IsNormal notation significand.now.count exponent }
    ensures other { IsFalse result → ¬ (IsNormal notation significand.now.count exponent) }
{
    if significand.is_zero() {
        return exponent == 0;
    }
    let first = first_place(significand);
    let step = step_of(notation);
    if first < 32768 {
        return false;
    }
    if 32768 + step <= first {
        return false;
    }
    (rise_of(exponent) + fall_of(exponent)) % step == 0
}

// The exponent, where it is shown as a notation shows it, with this significand.
fn form_exponent(
    significand: &UnsignedDecimal,
    shown: &Decimal,
    notation: ScientificNotation,
    options: ExponentOptions,
) -> Option<i32>
    requires { ShowsNoFraction shown.now }
    ensures some { IfSome result (λ value. IsFormExponent notation options significand.now shown.now value) }
    ensures none { IfNone result ((value : ℤ) → ¬ (IsFormExponent notation options significand.now shown.now value)) }
{
    let Some(value) = exponent_value(shown) else {
        return None;
    };
    if !is_shown_so(shown, value, options) {
        return None;
    }
    if !is_normal(significand, value, notation) {
        return None;
    }
    if !is_decimal(significand, value) {
        return None;
    }
    Some(value)
}

impl ShownScientific {
    /// The significand with its exponent, where the number is shown as a notation and options show it: -1.20 and 6 of
    /// `-1.20E6`.
    ///
    /// `None` where the significand and the exponent are not normal in the notation, as 12 and 5 in the scientific one;
    /// where the exponent is shown otherwise, as 06 by the default options; or where they are no decimal, as 1 and
    /// 32768. It does not allocate.
    pub fn into_form(
        self,
        notation: ScientificNotation,
        options: ExponentOptions,
    ) -> Option<ScientificNumber>
        ensures some { IfSome result (λ form. IsShownForm notation options form self) }
        ensures none { IfNone result (ShowsNoForm notation options self) }
    {
        let ShownScientific {
            significand,
            exponent: shown,
        } = self;
        match form_exponent(&significand.absolute, &shown, notation, options) {
            Some(exponent) => Some(ScientificNumber {
                significand,
                exponent,
            }),
            None => None,
        }
    }
}

// The form of a text of tables that are known to be readable.
fn read_readable_form(
    alloc: Global,
    tables: &ScientificTables<'_>,
    notation: ScientificNotation,
    options: ExponentOptions,
    text: &str,
) -> Result<ScientificNumber, ReadError>
    requires { is_scientific_readable_by (settings_of tables.now) ≡ true }
    ensures unreadable { ¬ (IsErrOf result ReadError.Unreadable) }
    ensures not_written { IsErrOf result ReadError.NotWritten → HasNoForm (settings_of tables.now) notation options text.now }
    ensures memory { IsErrOf result ReadError.Memory → HasManyBeside (settings_of tables.now) text.now }
    ensures value { IfOk result (λ form. IsFormText (settings_of tables.now) notation options text.now form) }
{
    are_texts(&tables.decimals, tables.separator, &tables.exponents);
    match tables.read_readable(alloc, text) {
        Ok(shown) => match shown.into_form(notation, options) {
            Some(form) => Ok(form),
            None => Err(ReadError::NotWritten),
        },
        Err(error) => Err(error),
    }
}

impl<'b> ScientificTables<'b> {
    /// The significand and the exponent whose text in a notation this is: in English with `E`, `-1.20E6` is -1.20 and 6,
    /// in either notation.
    ///
    /// `Unreadable`: `is_readable` is false. `NotWritten`: no number is written so in the notation and by the options, as
    /// `12E5` in the scientific one, `1.2E06` by the default options, and `1E32768`, which is no decimal. `Memory`: out of
    /// memory. It allocates where more than sixteen digits are before the exponent, or in it.
    ///
    /// A caller who reads many texts tests `is_readable` once, and then calls `read_readable` and `into_form`.
    pub fn read_form(
        &self,
        alloc: Global,
        notation: ScientificNotation,
        options: ExponentOptions,
        text: &str,
    ) -> Result<ScientificNumber, ReadError>
        ensures unreadable { IsErrOf result ReadError.Unreadable ↔ (is_scientific_readable_by (settings_of self.now) ≡ false) }
        ensures not_written { IsErrOf result ReadError.NotWritten → HasNoForm (settings_of self.now) notation options text.now }
        ensures memory { IsErrOf result ReadError.Memory → HasManyBeside (settings_of self.now) text.now }
        ensures value { IfOk result (λ form. IsFormText (settings_of self.now) notation options text.now form) }
    {
        if !self.is_readable() {
            return Err(ReadError::Unreadable);
        }
        read_readable_form(alloc, self, notation, options, text)
    }

    /// As `read_decimal`, of tables that are known to be readable: in English with `E`, `-1.20E6` is -1200000.
    ///
    /// The condition is `is_readable`, which looks through all texts: a caller who reads many texts tests it once.
    /// `NotWritten`: no number is written so in the notation and by the options. `Memory`: out of memory. It allocates
    /// where more than sixteen digits are before the exponent, or in it.
    pub fn read_readable_decimal(
        &self,
        alloc: Global,
        notation: ScientificNotation,
        options: ExponentOptions,
        text: &str,
    ) -> Result<Decimal, ReadError>
        requires { is_scientific_readable_by (settings_of self.now) ≡ true }
        ensures unreadable { ¬ (IsErrOf result ReadError.Unreadable) }
        ensures not_written { IsErrOf result ReadError.NotWritten → HasNoForm (settings_of self.now) notation options text.now }
        ensures memory { IsErrOf result ReadError.Memory → HasManyBeside (settings_of self.now) text.now }
        ensures value { IfOk result (λ decimal. IsDecimalText (settings_of self.now) notation options text.now decimal) }
        ensures reading { IsAnswered result (scientific_reading (settings_of self.now) notation options text.now) }
    {
        are_texts(&self.decimals, self.separator, &self.exponents);
        match read_readable_form(alloc, self, notation, options, text) {
            Ok(form) => match form.into_decimal() {
                Ok(decimal) => Ok(decimal),
                Err(_) => unreachable!(),
            },
            Err(error) => Err(error),
        }
    }

    /// The decimal whose text in a notation this is: in English with `E`, `-1.20E6` is -1200000, and `1.20E-2` 0.0120, in
    /// scientific notation.
    ///
    /// The errors are those of `read_form`, and so is where it allocates.
    #[tactic(auto, using(crate::proofs::ScientificReadingsLemmas::unread))]
    pub fn read_decimal(
        &self,
        alloc: Global,
        notation: ScientificNotation,
        options: ExponentOptions,
        text: &str,
    ) -> Result<Decimal, ReadError>
        ensures unreadable { IsErrOf result ReadError.Unreadable ↔ (is_scientific_readable_by (settings_of self.now) ≡ false) }
        ensures not_written { IsErrOf result ReadError.NotWritten → HasNoForm (settings_of self.now) notation options text.now }
        ensures memory { IsErrOf result ReadError.Memory → HasManyBeside (settings_of self.now) text.now }
        ensures value { IfOk result (λ decimal. IsDecimalText (settings_of self.now) notation options text.now decimal) }
        ensures reading { IsAnswered result (scientific_reading (settings_of self.now) notation options text.now) }
    {
        if !self.is_readable() {
            return Err(ReadError::Unreadable);
        }
        self.read_readable_decimal(alloc, notation, options, text)
    }
}
