//! Number skeletons: the words by which ICU asks for a format.

ghost use Rattle.std.specs.Prelude.{◌≡◌};
ghost use Rattle.std.specs.Result.{result_map_both};
ghost use Rattle.locale_numbers_formats.specs.Cutting.{cut_at};
ghost use Rattle.locale_numbers_formats.specs.SkeletonFormats.{compact_rounding, digits_from, digits_of, digits_on, format_of, has_own_digits, notation_of, options_of, own_rounding, rounding_by, rounding_of, strategy_of, unit_of, whole_zeros, zeros_of};
ghost use Rattle.locale_numbers_formats.specs.Skeletons.{fits_currency, has_amount_digits, has_currency_digits, has_unit, is_accounting, is_code, is_compact, is_currency, is_of, is_scientific, no_words, pair_fault, read_word, read_words_of, says_mode, says_precision, set, settled, skeleton_of, space, usual_grouping, word_place};

use crate::cutting::cut_field;
use crate::options::{
    LeadingZeros, NumberOptions, Rounding, RoundingPriority, SignAsked, SignificantDigits,
    TrailingZeros,
};
use crate::shape::{CurrencyUnit, Notation, NumberFormat, NumberShape, NumberUnit};
use crate::skeleton_error::{SkeletonError, WordFault};
use crate::stems::{
    Precision, Setting, SkeletonGrouping, SkeletonNotation, SkeletonSign, SkeletonUnit, WholeZeros,
    setting_named,
};
use fixed_decimal::{RoundingIncrement, SignDisplay, SignedRoundingMode, UnsignedRoundingMode};
use icu_decimal_symbols::options::GroupingStrategy;
use icu_dimension_fractions::{CurrencyStyle, CurrencyUsage, CurrencyWidth};

const SPACE: u8 = b' ';

/// What a number skeleton asks for, after ICU: `compact-short currency/EUR`.
#[derive(Clone, Copy, Debug, PartialEq, Eq)]
pub struct Skeleton {
    /// How the digits are written.
    pub notation: SkeletonNotation,
    /// What is beside them.
    pub unit: SkeletonUnit,
    /// Which are shown.
    pub precision: Precision,
    /// How the number is rounded.
    pub mode: SignedRoundingMode,
    /// Where separators are.
    pub grouping: SkeletonGrouping,
    /// How many integer digits are shown at least; 0 says nothing.
    pub integer_digits: u8,
    /// By what a currency is written.
    pub width: CurrencyWidth,
    /// Which sign is written.
    pub sign: SkeletonSign,
}

// Where separators are, as no word says: in compact numbers none is in four digits.
fn usual_grouping(notation: SkeletonNotation) -> SkeletonGrouping
    ensures { result ≡ usual_grouping notation }
{
    match notation {
        SkeletonNotation::Standard | SkeletonNotation::Scientific(_) => SkeletonGrouping::Auto,
        SkeletonNotation::Compact(_) => SkeletonGrouping::Min2,
    }
}

// What the words so far have set.
#[derive(Clone, Copy)]
struct Words {
    notation: Option<SkeletonNotation>,
    unit: Option<SkeletonUnit>,
    precision: Option<Precision>,
    mode: Option<SignedRoundingMode>,
    grouping: Option<SkeletonGrouping>,
    integer_digits: Option<u8>,
    width: Option<CurrencyWidth>,
    sign: Option<SkeletonSign>,
    point: Option<()>,
}

// What a word sets that may not go with another one.
#[derive(Clone, Copy)]
enum SettingKind {
    // How the digits are written.
    Notation,
    // Which digits are shown.
    Precision,
    // How the number is rounded.
    Mode,
    // By what a currency is written.
    Width,
    // Which sign is written.
    Sign,
}

impl Words {
    // Nothing is set.
    fn none() -> Words
        ensures { result ≡ no_words }
    {
        Words {
            notation: None,
            unit: None,
            precision: None,
            mode: None,
            grouping: None,
            integer_digits: None,
            width: None,
            sign: None,
            point: None,
        }
    }

    // With one thing more.
    fn set(self, setting: Setting) -> Result<Words, WordFault>
        ensures { result ≡ set self setting }
    {
        let mut with = self;
        let was = match setting {
            Setting::OfNotation(x) => with.notation.replace(x).is_some(),
            Setting::OfUnit(x) => with.unit.replace(x).is_some(),
            Setting::OfPrecision(x) => with.precision.replace(x).is_some(),
            Setting::OfMode(x) => with.mode.replace(x).is_some(),
            Setting::OfGrouping(x) => with.grouping.replace(x).is_some(),
            Setting::OfWhole(x) => with.integer_digits.replace(x).is_some(),
            Setting::OfWidth(x) => with.width.replace(x).is_some(),
            Setting::OfSign(x) => with.sign.replace(x).is_some(),
            Setting::OfPoint => with.point.replace(()).is_some(),
            Setting::Refused(fault) => return Err(fault),
        };
        if was { Err(WordFault::Twice) } else { Ok(with) }
    }

    // With what a word at a place sets.
    fn read_word(self, place: usize, word: &[u8]) -> Result<Words, SkeletonError>
        ensures { result ≡ read_word place word.now self }
    {
        if word.is_empty() {
            return Ok(self);
        }
        match self.set(setting_named(word)) {
            Ok(words) => Ok(words),
            Err(fault) => Err(SkeletonError::at(fault, place)),
        }
    }

    // What is asked for, where no word says otherwise.
    fn settled(self) -> Skeleton
        ensures { result ≡ settled self }
    {
        let notation = self.notation.unwrap_or(SkeletonNotation::Standard);
        Skeleton {
            notation,
            unit: self.unit.unwrap_or(SkeletonUnit::None),
            precision: self.precision.unwrap_or(Precision::Usual),
            mode: self.mode.unwrap_or(SignedRoundingMode::Unsigned(UnsignedRoundingMode::HalfEven)),
            grouping: self.grouping.unwrap_or(usual_grouping(notation)),
            integer_digits: self.integer_digits.unwrap_or(0),
            width: self.width.unwrap_or(CurrencyWidth::Short),
            sign: self.sign.unwrap_or(SkeletonSign {
                display: SignDisplay::Auto,
                style: CurrencyStyle::Standard,
            }),
        }
    }
}

// What the words of a text set.
#[tactic(auto, using(crate::proofs::WordLemmas::cut_length))]
fn read_words(text: &[u8]) -> Result<Words, SkeletonError>
    ensures { result ≡ read_words_of text.now }
{
    let mut words = Words::none();
    let mut place = 0;
    let mut rest = text;
    loop {
        let (word, after) = cut_field(rest, SPACE);
        words = words.read_word(place, word)?;
        match after {
            None => return Ok(words),
            Some(next) => {
                place += word.len() + 1;
                rest = next;
            }
        }
    }
}

// Whether a word sets what is of a kind.
fn is_of(kind: SettingKind, setting: Setting) -> bool
    ensures { result ≡ is_of kind setting }
{
    matches!(
        (kind, setting),
        (SettingKind::Notation, Setting::OfNotation(_))
            | (SettingKind::Precision, Setting::OfPrecision(_))
            | (SettingKind::Mode, Setting::OfMode(_))
            | (SettingKind::Width, Setting::OfWidth(_))
            | (SettingKind::Sign, Setting::OfSign(_))
    )
}

// The place of the word of a text that sets what is of a kind.
#[tactic(auto, using(crate::proofs::WordLemmas::cut_length))]
fn word_place(kind: SettingKind, text: &[u8]) -> Option<usize>
    ensures { result ≡ word_place kind 0 (cut_at space text.now) }
{
    let mut place = 0;
    let mut rest = text;
    loop {
        let (word, after) = cut_field(rest, SPACE);
        if is_of(kind, setting_named(word)) {
            return Some(place);
        }
        match after {
            None => return None,
            Some(next) => {
                place += word.len() + 1;
                rest = next;
            }
        }
    }
}

// Whether digits are written with a compact pattern.
fn is_compact(notation: SkeletonNotation) -> bool
    ensures { result ≡ is_compact notation }
{
    match notation {
        SkeletonNotation::Standard | SkeletonNotation::Scientific(_) => false,
        SkeletonNotation::Compact(_) => true,
    }
}

// Whether digits are written with an exponent.
fn is_scientific(notation: SkeletonNotation) -> bool
    ensures { result ≡ is_scientific notation }
{
    match notation {
        SkeletonNotation::Standard | SkeletonNotation::Compact(_) => false,
        SkeletonNotation::Scientific(_) => true,
    }
}

// Whether anything is beside the digits.
fn has_unit(unit: SkeletonUnit) -> bool
    ensures { result ≡ has_unit unit }
{
    match unit {
        SkeletonUnit::None => false,
        SkeletonUnit::Percent(_) | SkeletonUnit::Currency(_) => true,
    }
}

// Whether the unit is a currency.
fn is_currency(unit: SkeletonUnit) -> bool
    ensures { result ≡ is_currency unit }
{
    match unit {
        SkeletonUnit::None | SkeletonUnit::Percent(_) => false,
        SkeletonUnit::Currency(_) => true,
    }
}

// Whether the digits are those of a currency.
fn has_currency_digits(precision: Precision) -> bool
    ensures { result ≡ has_currency_digits precision }
{
    match precision {
        Precision::Currency(_) | Precision::WholeCurrency(_) => true,
        Precision::Usual
        | Precision::Unlimited
        | Precision::Fraction(_, _)
        | Precision::AtLeast(_)
        | Precision::Whole(_, _)
        | Precision::Significant(_, _, _)
        | Precision::SignificantAtLeast(_, _)
        | Precision::Either(_, _, _, _, _, _)
        | Precision::Increment(_, _, _, _) => false,
    }
}

// Whether a word says which digits are shown.
fn says_precision(precision: Precision) -> bool
    ensures { result ≡ says_precision precision }
{
    match precision {
        Precision::Usual => false,
        Precision::Unlimited
        | Precision::Fraction(_, _)
        | Precision::AtLeast(_)
        | Precision::Whole(_, _)
        | Precision::Significant(_, _, _)
        | Precision::SignificantAtLeast(_, _)
        | Precision::Either(_, _, _, _, _, _)
        | Precision::Increment(_, _, _, _)
        | Precision::Currency(_)
        | Precision::WholeCurrency(_) => true,
    }
}

// Whether a number is rounded otherwise than half to even.
fn says_mode(mode: SignedRoundingMode) -> bool
    ensures { result ≡ says_mode mode }
{
    match mode {
        SignedRoundingMode::Unsigned(UnsignedRoundingMode::HalfEven) => false,
        SignedRoundingMode::Unsigned(
            UnsignedRoundingMode::Expand
            | UnsignedRoundingMode::Trunc
            | UnsignedRoundingMode::HalfExpand
            | UnsignedRoundingMode::HalfTrunc,
        )
        | SignedRoundingMode::Ceil
        | SignedRoundingMode::Floor
        | SignedRoundingMode::HalfCeil
        | SignedRoundingMode::HalfFloor => true,
    }
}

// Whether an amount is written as in accounting.
fn is_accounting(style: CurrencyStyle) -> bool
    ensures { result ≡ is_accounting style }
{
    match style {
        CurrencyStyle::Standard => false,
        CurrencyStyle::Accounting => true,
    }
}

// Whether a currency is written by its code.
fn is_code(width: CurrencyWidth) -> bool
    ensures { result ≡ is_code width }
{
    match width {
        CurrencyWidth::Short => false,
        CurrencyWidth::IsoCode => true,
    }
}

// So many significant digits at least, and so many more at most.
fn digits_from(least: u8, more: u8) -> SignificantDigits
    ensures { result ≡ digits_from least more }
{
    SignificantDigits {
        least: least as u16,
        most: least as u16 + more as u16,
    }
}

// So many significant digits at least, and as many as a number has.
fn digits_on(least: u8) -> SignificantDigits
    ensures { result ≡ digits_on least }
{
    SignificantDigits {
        least: least as u16,
        most: u16::MAX,
    }
}

// What becomes of zeros after the point of a whole number.
fn whole_zeros(zeros: WholeZeros) -> TrailingZeros
    ensures { result ≡ whole_zeros zeros }
{
    match zeros {
        WholeZeros::Shown => TrailingZeros::Trim,
        WholeZeros::Hidden => TrailingZeros::TrimAll,
    }
}

impl Skeleton {
    // Whether the digits are those of a currency: by a word, or as no word says which.
    fn fits_currency(&self) -> bool
        ensures { result ≡ fits_currency self.now }
    {
        has_currency_digits(self.precision)
            || (is_currency(self.unit) && !says_precision(self.precision))
    }

    // Whether the digits are those of a currency, or a word says which an amount has.
    fn has_amount_digits(&self) -> bool
        ensures { result ≡ has_amount_digits self.now }
    {
        has_currency_digits(self.precision)
            || (is_currency(self.unit) && says_precision(self.precision))
    }

    // What does not go together, by the kind of the word that is wrong.
    fn pair_fault(&self) -> Option<(SettingKind, WordFault)>
        ensures { result ≡ pair_fault self.now }
    {
        if is_scientific(self.notation) && has_unit(self.unit) {
            Some((SettingKind::Notation, WordFault::Later))
        } else if is_compact(self.notation) && self.has_amount_digits() {
            Some((SettingKind::Precision, WordFault::Later))
        } else if has_currency_digits(self.precision) && !is_currency(self.unit) {
            Some((SettingKind::Precision, WordFault::Pair))
        } else if says_mode(self.mode) && self.fits_currency() {
            Some((SettingKind::Mode, WordFault::Later))
        } else if is_code(self.width) && !is_currency(self.unit) {
            Some((SettingKind::Width, WordFault::Pair))
        } else if is_accounting(self.sign.style) && !is_currency(self.unit) {
            Some((SettingKind::Sign, WordFault::Pair))
        } else {
            None
        }
    }

    /// The skeleton that these bytes are: words with spaces between, before or after them, as `percent .00`. Without a
    /// word it is that of plain numbers. It does not allocate.
    ///
    /// `Unknown`: a word is none, as `foo`. `Twice`: a word sets what another one has set, as the second of `percent
    /// currency/EUR`. `Code`: what follows `currency/` is no code, as `EURO`. `Pair`: a word is for amounts, and there is
    /// no currency, as `sign-accounting` alone. `System`: a word names a numbering system. `Later`: a word, or what goes
    /// with it, is not written yet, as `unit/meter`. `Unsupported`: a word asks for what is not written here, as
    /// `decimal-always`. Each has the place of the word in bytes, 8 of `percent foo`; the first such word is told, and one
    /// that does not go with another only where all are known and none sets twice.
    pub fn try_from_utf8(code_units: &[u8]) -> Result<Skeleton, SkeletonError>
        ensures { result ≡ skeleton_of code_units.now }
    {
        let skeleton = read_words(code_units)?.settled();
        match skeleton.pair_fault() {
            None => Ok(skeleton),
            Some((kind, fault)) => {
                let place = word_place(kind, code_units).unwrap_or(0);
                Err(SkeletonError::at(fault, place))
            }
        }
    }

    /// The skeleton that a text is, and the errors, as `try_from_utf8` has them of its bytes: `percent .00`. It does not
    /// allocate.
    pub fn try_from_str(s: &str) -> Result<Skeleton, SkeletonError>
        ensures { result ≡ skeleton_of s.now }
    {
        Self::try_from_utf8(s.as_bytes())
    }

    // Whether digits of what is before a compact pattern are asked for, or of a significand.
    fn has_own_digits(&self) -> bool
        ensures { result ≡ has_own_digits self.now }
    {
        is_scientific(self.notation)
            || (is_compact(self.notation)
                && (says_precision(self.precision) || says_mode(self.mode)))
    }

    // What a number is rounded to by the precision: an amount of money, or another one.
    fn rounding_by(&self, amount: bool) -> Rounding
        ensures { result ≡ rounding_by amount self.now.mode self.now.precision }
    {
        let one = RoundingIncrement::MultiplesOf1;
        match self.precision {
            Precision::Usual if amount => Rounding::Usual,
            Precision::Usual => Rounding::At(-6, self.mode, one),
            Precision::Unlimited | Precision::AtLeast(_) => Rounding::AsGiven,
            Precision::Fraction(least, more) | Precision::Whole(least, more) => {
                Rounding::At(-(least as i16 + more as i16), self.mode, one)
            }
            Precision::Significant(least, more, _) => {
                Rounding::Significant(digits_from(least, more), self.mode)
            }
            Precision::SignificantAtLeast(least, _) => {
                Rounding::Significant(digits_on(least), self.mode)
            }
            Precision::Either(least, more, digits, others, priority, _) => {
                let position = -(least as i16 + more as i16);
                Rounding::Either(priority, position, digits_from(digits, others), self.mode)
            }
            Precision::Increment(step, zeros, digits, _) => {
                Rounding::At(zeros as i16 - digits as i16, self.mode, step)
            }
            Precision::Currency(CurrencyUsage::Standard)
            | Precision::WholeCurrency(CurrencyUsage::Standard) => Rounding::Usual,
            Precision::Currency(CurrencyUsage::Cash)
            | Precision::WholeCurrency(CurrencyUsage::Cash) => Rounding::Cash,
        }
    }

    // What a number before a compact pattern is rounded to.
    fn compact_rounding(&self) -> Rounding
        ensures { result ≡ compact_rounding self.now.mode self.now.precision }
    {
        if says_precision(self.precision) {
            return self.rounding_by(false);
        }
        let two = SignificantDigits { least: 1, most: 2 };
        Rounding::Either(RoundingPriority::MorePrecision, 0, two, self.mode)
    }

    // What a number before a compact pattern, or a significand, is rounded to.
    fn own_rounding(&self) -> Rounding
        ensures { result ≡ own_rounding self.now.notation self.now.mode self.now.precision }
    {
        if is_compact(self.notation) {
            self.compact_rounding()
        } else {
            self.rounding_by(false)
        }
    }

    // What a number is rounded to.
    fn rounding(&self) -> Rounding
        ensures { result ≡ rounding_of self.now }
    {
        if self.has_own_digits() {
            self.own_rounding()
        } else if is_compact(self.notation) {
            Rounding::AsGiven
        } else {
            self.rounding_by(is_currency(self.unit))
        }
    }

    // What becomes of the zeros at the end of the fraction.
    fn trailing_zeros(&self) -> TrailingZeros
        ensures { result ≡ zeros_of self.now }
    {
        match self.precision {
            Precision::Usual if is_currency(self.unit) && !is_compact(self.notation) => {
                TrailingZeros::Keep
            }
            Precision::Usual
            | Precision::Unlimited
            | Precision::Fraction(_, _)
            | Precision::AtLeast(_) => TrailingZeros::Trim,
            Precision::Whole(_, _) => TrailingZeros::TrimAll,
            Precision::Significant(_, _, zeros)
            | Precision::SignificantAtLeast(_, zeros)
            | Precision::Either(_, _, _, _, _, zeros)
            | Precision::Increment(_, _, _, zeros) => whole_zeros(zeros),
            Precision::WholeCurrency(_) => TrailingZeros::TrimWhole,
            Precision::Currency(_) => TrailingZeros::Keep,
        }
    }

    // How many fraction digits are shown at least.
    fn fraction_digits(&self) -> u8
        ensures { result ≡ digits_of self.now.precision }
    {
        match self.precision {
            Precision::Fraction(least, _)
            | Precision::AtLeast(least)
            | Precision::Whole(least, _)
            | Precision::Either(least, _, _, _, _, _)
            | Precision::Increment(_, _, least, _) => least,
            Precision::Usual
            | Precision::Unlimited
            | Precision::Significant(_, _, _)
            | Precision::SignificantAtLeast(_, _)
            | Precision::Currency(_)
            | Precision::WholeCurrency(_) => 0,
        }
    }

    // What is beside the digits.
    fn number_unit(&self) -> NumberUnit
        ensures { result ≡ unit_of self.now }
    {
        match self.unit {
            SkeletonUnit::None => NumberUnit::None,
            SkeletonUnit::Percent(sign) => NumberUnit::Percent(sign),
            SkeletonUnit::Currency(code) => NumberUnit::Currency(CurrencyUnit {
                code,
                style: self.sign.style,
                width: self.width,
            }),
        }
    }

    // Where separators are.
    fn strategy(&self) -> GroupingStrategy
        ensures { result ≡ strategy_of self.now.grouping }
    {
        match self.grouping {
            SkeletonGrouping::Auto => GroupingStrategy::Auto,
            SkeletonGrouping::Off => GroupingStrategy::Never,
            SkeletonGrouping::Min2 => GroupingStrategy::Min2,
            SkeletonGrouping::OnAligned => GroupingStrategy::OnAligned,
        }
    }

    // What the words make of a number, or of what is before a compact pattern, or of a significand.
    fn number_options(&self) -> NumberOptions
        ensures { result ≡ options_of self.now }
    {
        NumberOptions {
            rounding: self.rounding(),
            leading_zeros: LeadingZeros::Trim,
            zeros: self.trailing_zeros(),
            integer_digits: self.integer_digits as i16,
            fraction_digits: self.fraction_digits() as i16,
            sign: SignAsked::Show(self.sign.display),
        }
    }

    // How the digits are written.
    fn number_notation(&self) -> Notation
        ensures { result ≡ notation_of self.now }
    {
        match self.notation {
            SkeletonNotation::Standard => Notation::Standard,
            SkeletonNotation::Compact(width) if self.has_own_digits() => {
                Notation::CompactDigits(width, self.number_options())
            }
            SkeletonNotation::Compact(width) => Notation::Compact(width),
            SkeletonNotation::Scientific(style) => {
                Notation::Scientific(style, self.number_options())
            }
        }
    }

    /// The format that it asks for: of `percent .00` that of percents, to hundredths, shown with both; of `compact-short
    /// .00` that of compact numbers with two such digits before the pattern, `1.23K`; of `scientific .00` that of numbers
    /// with two such digits of the significand, `1.23E3`. It does not allocate.
    pub fn format(&self) -> NumberFormat
        ensures { result ≡ format_of self.now }
    {
        NumberFormat {
            shape: NumberShape {
                notation: self.number_notation(),
                unit: self.number_unit(),
                grouping: self.strategy(),
            },
            options: if self.has_own_digits() {
                NumberOptions::unchanged()
            } else {
                self.number_options()
            },
        }
    }
}

impl NumberFormat {
    /// The format that a skeleton asks for, and the errors, as `Skeleton::try_from_utf8` has them of its bytes: of
    /// `percent .00` that of percents, to hundredths. It does not allocate.
    pub fn try_from_str(s: &str) -> Result<NumberFormat, SkeletonError>
        ensures { result ≡ result_map_both format_of (λ error. error) (skeleton_of s.now) }
    {
        match Skeleton::try_from_str(s) {
            Ok(skeleton) => Ok(skeleton.format()),
            Err(error) => Err(error),
        }
    }
}
