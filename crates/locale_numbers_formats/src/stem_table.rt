//! The words of skeletons without digits or a part after a slash, and what each sets.

use crate::shape::{CompactWidth, ScientificStyle};
use crate::skeleton_error::WordFault;
use crate::stems::{
    Precision, Setting, SkeletonGrouping, SkeletonNotation, SkeletonSign, SkeletonUnit,
};
use fixed_decimal::{SignDisplay, SignedRoundingMode, UnsignedRoundingMode};
use icu_decimal_scientific::{ExponentOptions, ExponentSign, ScientificNotation};
use icu_dimension_fractions::{CurrencyStyle, CurrencyUsage, CurrencyWidth, PercentSign};

// The words, their short forms beside them, but for those with digits or a part after a slash.
pub(crate) const STEMS: [(&[u8], Setting); 68] = [
    (
        b"compact-short",
        Setting::OfNotation(SkeletonNotation::Compact(CompactWidth::Short)),
    ),
    (
        b"K",
        Setting::OfNotation(SkeletonNotation::Compact(CompactWidth::Short)),
    ),
    (
        b"compact-long",
        Setting::OfNotation(SkeletonNotation::Compact(CompactWidth::Long)),
    ),
    (
        b"KK",
        Setting::OfNotation(SkeletonNotation::Compact(CompactWidth::Long)),
    ),
    (
        b"scientific",
        Setting::OfNotation(SkeletonNotation::Scientific(ScientificStyle {
            notation: ScientificNotation::Scientific,
            exponents: ExponentOptions {
                sign: ExponentSign::Auto,
                least_digits: 0,
            },
        })),
    ),
    (
        b"engineering",
        Setting::OfNotation(SkeletonNotation::Scientific(ScientificStyle {
            notation: ScientificNotation::Engineering,
            exponents: ExponentOptions {
                sign: ExponentSign::Auto,
                least_digits: 0,
            },
        })),
    ),
    (
        b"notation-simple",
        Setting::OfNotation(SkeletonNotation::Standard),
    ),
    (
        b"percent",
        Setting::OfUnit(SkeletonUnit::Percent(PercentSign::Percent)),
    ),
    (
        b"%",
        Setting::OfUnit(SkeletonUnit::Percent(PercentSign::Percent)),
    ),
    (
        b"permille",
        Setting::OfUnit(SkeletonUnit::Percent(PercentSign::Permille)),
    ),
    (b"base-unit", Setting::OfUnit(SkeletonUnit::None)),
    (
        b"precision-integer",
        Setting::OfPrecision(Precision::Fraction(0, 0)),
    ),
    (b".", Setting::OfPrecision(Precision::Fraction(0, 0))),
    (
        b"precision-unlimited",
        Setting::OfPrecision(Precision::Unlimited),
    ),
    (b".+", Setting::OfPrecision(Precision::Unlimited)),
    (b".*", Setting::OfPrecision(Precision::Unlimited)),
    (
        b"precision-currency-standard",
        Setting::OfPrecision(Precision::Currency(CurrencyUsage::Standard)),
    ),
    (
        b"precision-currency-standard/w",
        Setting::OfPrecision(Precision::WholeCurrency(CurrencyUsage::Standard)),
    ),
    (
        b"precision-currency-cash",
        Setting::OfPrecision(Precision::Currency(CurrencyUsage::Cash)),
    ),
    (
        b"precision-currency-cash/w",
        Setting::OfPrecision(Precision::WholeCurrency(CurrencyUsage::Cash)),
    ),
    (
        b"rounding-mode-ceiling",
        Setting::OfMode(SignedRoundingMode::Ceil),
    ),
    (
        b"rounding-mode-floor",
        Setting::OfMode(SignedRoundingMode::Floor),
    ),
    (
        b"rounding-mode-down",
        Setting::OfMode(SignedRoundingMode::Unsigned(UnsignedRoundingMode::Trunc)),
    ),
    (
        b"rounding-mode-up",
        Setting::OfMode(SignedRoundingMode::Unsigned(UnsignedRoundingMode::Expand)),
    ),
    (
        b"rounding-mode-half-even",
        Setting::OfMode(SignedRoundingMode::Unsigned(UnsignedRoundingMode::HalfEven)),
    ),
    (
        b"rounding-mode-half-down",
        Setting::OfMode(SignedRoundingMode::Unsigned(UnsignedRoundingMode::HalfTrunc)),
    ),
    (
        b"rounding-mode-half-up",
        Setting::OfMode(SignedRoundingMode::Unsigned(UnsignedRoundingMode::HalfExpand)),
    ),
    (
        b"rounding-mode-half-ceiling",
        Setting::OfMode(SignedRoundingMode::HalfCeil),
    ),
    (
        b"rounding-mode-half-floor",
        Setting::OfMode(SignedRoundingMode::HalfFloor),
    ),
    (b"group-off", Setting::OfGrouping(SkeletonGrouping::Off)),
    (b",_", Setting::OfGrouping(SkeletonGrouping::Off)),
    (b"group-min2", Setting::OfGrouping(SkeletonGrouping::Min2)),
    (b",?", Setting::OfGrouping(SkeletonGrouping::Min2)),
    (b"group-auto", Setting::OfGrouping(SkeletonGrouping::Auto)),
    (
        b"group-on-aligned",
        Setting::OfGrouping(SkeletonGrouping::OnAligned),
    ),
    (b",!", Setting::OfGrouping(SkeletonGrouping::OnAligned)),
    (b"decimal-auto", Setting::OfPoint),
    (
        b"unit-width-iso-code",
        Setting::OfWidth(CurrencyWidth::IsoCode),
    ),
    (b"unit-width-short", Setting::OfWidth(CurrencyWidth::Short)),
    (
        b"sign-auto",
        Setting::OfSign(SkeletonSign {
            display: SignDisplay::Auto,
            style: CurrencyStyle::Standard,
        }),
    ),
    (
        b"sign-always",
        Setting::OfSign(SkeletonSign {
            display: SignDisplay::Always,
            style: CurrencyStyle::Standard,
        }),
    ),
    (
        b"+!",
        Setting::OfSign(SkeletonSign {
            display: SignDisplay::Always,
            style: CurrencyStyle::Standard,
        }),
    ),
    (
        b"sign-never",
        Setting::OfSign(SkeletonSign {
            display: SignDisplay::Never,
            style: CurrencyStyle::Standard,
        }),
    ),
    (
        b"+_",
        Setting::OfSign(SkeletonSign {
            display: SignDisplay::Never,
            style: CurrencyStyle::Standard,
        }),
    ),
    (
        b"sign-except-zero",
        Setting::OfSign(SkeletonSign {
            display: SignDisplay::ExceptZero,
            style: CurrencyStyle::Standard,
        }),
    ),
    (
        b"+?",
        Setting::OfSign(SkeletonSign {
            display: SignDisplay::ExceptZero,
            style: CurrencyStyle::Standard,
        }),
    ),
    (
        b"sign-negative",
        Setting::OfSign(SkeletonSign {
            display: SignDisplay::Negative,
            style: CurrencyStyle::Standard,
        }),
    ),
    (
        b"+-",
        Setting::OfSign(SkeletonSign {
            display: SignDisplay::Negative,
            style: CurrencyStyle::Standard,
        }),
    ),
    (
        b"sign-accounting",
        Setting::OfSign(SkeletonSign {
            display: SignDisplay::Auto,
            style: CurrencyStyle::Accounting,
        }),
    ),
    (
        b"()",
        Setting::OfSign(SkeletonSign {
            display: SignDisplay::Auto,
            style: CurrencyStyle::Accounting,
        }),
    ),
    (
        b"sign-accounting-always",
        Setting::OfSign(SkeletonSign {
            display: SignDisplay::Always,
            style: CurrencyStyle::Accounting,
        }),
    ),
    (
        b"()!",
        Setting::OfSign(SkeletonSign {
            display: SignDisplay::Always,
            style: CurrencyStyle::Accounting,
        }),
    ),
    (
        b"sign-accounting-except-zero",
        Setting::OfSign(SkeletonSign {
            display: SignDisplay::ExceptZero,
            style: CurrencyStyle::Accounting,
        }),
    ),
    (
        b"()?",
        Setting::OfSign(SkeletonSign {
            display: SignDisplay::ExceptZero,
            style: CurrencyStyle::Accounting,
        }),
    ),
    (
        b"sign-accounting-negative",
        Setting::OfSign(SkeletonSign {
            display: SignDisplay::Negative,
            style: CurrencyStyle::Accounting,
        }),
    ),
    (
        b"()-",
        Setting::OfSign(SkeletonSign {
            display: SignDisplay::Negative,
            style: CurrencyStyle::Accounting,
        }),
    ),
    (b"unit-width-narrow", Setting::Refused(WordFault::Later)),
    (b"unit-width-full-name", Setting::Refused(WordFault::Later)),
    (b"%x100", Setting::Refused(WordFault::Later)),
    (b"latin", Setting::Refused(WordFault::System)),
    (b"decimal-always", Setting::Refused(WordFault::Unsupported)),
    (
        b"integer-width-trunc",
        Setting::Refused(WordFault::Unsupported),
    ),
    (
        b"unit-width-hidden",
        Setting::Refused(WordFault::Unsupported),
    ),
    (
        b"unit-width-formal",
        Setting::Refused(WordFault::Unsupported),
    ),
    (
        b"unit-width-variant",
        Setting::Refused(WordFault::Unsupported),
    ),
    (b"group-thousands", Setting::Refused(WordFault::Unsupported)),
    (
        b"rounding-mode-half-odd",
        Setting::Refused(WordFault::Unsupported),
    ),
    (
        b"rounding-mode-unnecessary",
        Setting::Refused(WordFault::Unsupported),
    ),
];

// What is told of words with a part after a slash, by what is before it.
pub(crate) const FRONTS: [(&[u8], Setting); 6] = [
    (b"numbering-system", Setting::Refused(WordFault::System)),
    (b"scale", Setting::Refused(WordFault::Later)),
    (b"unit", Setting::Refused(WordFault::Later)),
    (b"measure-unit", Setting::Refused(WordFault::Later)),
    (
        b"per-measure-unit",
        Setting::Refused(WordFault::Unsupported),
    ),
    (b"usage", Setting::Refused(WordFault::Unsupported)),
];
