//! The normal text of a skeleton: its words in ICU's order.

ghost use Rattle.std.specs.Prelude.{◌≡◌, ◌++◌, ◌||◌, codes, false, if◌then◌else◌, [], is_err, is_some, length, map, option_map, OnOk, OnErr};
ghost use Rattle.writeable.specs.AnnotatedText.{bytes};
ghost use Rattle.writeable.specs.Taking.{HasBegun};
ghost use Rattle.locale_numbers_formats.specs.NormalText.{digits_word, either_mark, exponent_sign_mark, fraction_word, gap, grouping_word, joined, marks, mode_word, normal_words, notation_word, percent_word, precision_word, number_text, priority_mark, scientific_stem, scientific_word, sign_word, step_digits, at_signs, at_sign_events, unit_word, whole_mark, width_word, word_after, word_events, word_of};

use crate::options::RoundingPriority;
use crate::shape::{CompactWidth, ScientificStyle};
use crate::skeleton::Skeleton;
use crate::stems::{
    Precision, SkeletonGrouping, SkeletonNotation, SkeletonSign, SkeletonUnit, WholeZeros,
};
use fixed_decimal::{RoundingIncrement, SignDisplay, SignedRoundingMode, UnsignedRoundingMode};
use icu_decimal_scientific::{ExponentSign, ScientificNotation};
use icu_dimension_fractions::{CurrencyStyle, CurrencyUsage, CurrencyWidth, PercentSign};
use std::fmt;
use writeable::{Error, Sink, Writeable, display};

// A word: a front, an `e` for each digit of an exponent, zeros and hashes, a middle, zeros, at-signs and hashes, and what
// is behind these.
#[derive(Clone, Copy)]
struct NormalWord<'a> {
    front: &'a str,
    exponents: u8,
    zeros: u8,
    hashes: u8,
    middle: &'a str,
    last: u8,
    signs: u8,
    others: u8,
    behind: &'a str,
}

// Nothing.
const BLANK: NormalWord<'static> = NormalWord {
    front: "",
    exponents: 0,
    zeros: 0,
    hashes: 0,
    middle: "",
    last: 0,
    signs: 0,
    others: 0,
    behind: "",
};

// A word without digits.
fn fixed(word: &'static str) -> NormalWord<'static>
    ensures { word_of result ≡ word.now }
{
    NormalWord {
        front: word,
        ..BLANK
    }
}

// A point with zeros and hashes, and what is behind these.
fn pointed(zeros: u8, hashes: u8, behind: &'static str) -> NormalWord<'static>
    ensures { word_of result ≡ codes "." ++ (marks zeros (codes "0") ++ (marks hashes (codes "#") ++ behind.now)) }
{
    NormalWord {
        front: ".",
        zeros,
        hashes,
        behind,
        ..BLANK
    }
}

// At-signs and hashes, and what is behind these.
fn at_signs(signs: u8, others: u8, behind: &'static str) -> NormalWord<'static>
    ensures { word_of result ≡ at_signs signs others behind.now }
{
    NormalWord {
        signs,
        others,
        behind,
        ..BLANK
    }
}

// The front of the word of a scientific notation, before digits of exponents where some are asked for.
fn scientific_front(notation: ScientificNotation, has_digits: bool) -> &'static str
    ensures { result.now ≡ scientific_stem notation ++ (if has_digits then codes "/*" else []) }
{
    match (notation, has_digits) {
        (ScientificNotation::Scientific, false) => "scientific",
        (ScientificNotation::Scientific, true) => "scientific/*",
        (ScientificNotation::Engineering, false) => "engineering",
        (ScientificNotation::Engineering, true) => "engineering/*",
    }
}

// What says which sign exponents have.
fn exponent_sign_mark(sign: ExponentSign) -> &'static str
    ensures { result.now ≡ exponent_sign_mark sign }
{
    match sign {
        ExponentSign::Auto => "",
        ExponentSign::Always => "/sign-always",
    }
}

// The word of a scientific notation.
fn scientific_word(style: ScientificStyle) -> NormalWord<'static>
    ensures { word_of result ≡ scientific_word style }
{
    let digits = style.exponents.least_digits;
    NormalWord {
        front: scientific_front(style.notation, digits > 0),
        exponents: digits,
        behind: exponent_sign_mark(style.exponents.sign),
        ..BLANK
    }
}

// The word of a notation.
fn notation_word(notation: SkeletonNotation) -> Option<NormalWord<'static>>
    ensures { option_map word_of result ≡ notation_word notation }
{
    match notation {
        SkeletonNotation::Standard => None,
        SkeletonNotation::Compact(CompactWidth::Short) => Some(fixed("compact-short")),
        SkeletonNotation::Compact(CompactWidth::Long) => Some(fixed("compact-long")),
        SkeletonNotation::Scientific(style) => Some(scientific_word(style)),
    }
}

// The word of a sign of percents.
fn percent_word(sign: PercentSign) -> &'static str
    ensures { result.now ≡ percent_word sign }
{
    match sign {
        PercentSign::Percent => "percent",
        PercentSign::Permille => "permille",
    }
}

// The word of what is beside the digits.
fn unit_word(unit: &SkeletonUnit) -> Option<NormalWord<'_>>
    ensures { option_map word_of result ≡ unit_word unit.now }
{
    match unit {
        SkeletonUnit::None => None,
        SkeletonUnit::Percent(sign) => Some(fixed(percent_word(*sign))),
        SkeletonUnit::Currency(code) => Some(NormalWord {
            front: "currency/",
            behind: code.as_str(),
            ..BLANK
        }),
    }
}

// The word of fraction digits, so many at least and so many more at most.
fn fraction_word(least: u8, more: u8) -> NormalWord<'static>
    ensures { word_of result ≡ fraction_word least more }
{
    if least == 0 && more == 0 {
        fixed("precision-integer")
    } else {
        pointed(least, more, "")
    }
}

// What says that a whole number has no zeros after its point.
fn whole_mark(zeros: WholeZeros) -> &'static str
    ensures { result.now ≡ whole_mark zeros }
{
    match zeros {
        WholeZeros::Shown => "",
        WholeZeros::Hidden => "/w",
    }
}

// What says that a number has as many digits as it was given, and that.
fn endless_mark(zeros: WholeZeros) -> &'static str
    ensures { result.now ≡ codes "*" ++ whole_mark zeros }
{
    match zeros {
        WholeZeros::Shown => "*",
        WholeZeros::Hidden => "*/w",
    }
}

// What says which of two choices of digits counts, and that.
fn priority_mark(priority: RoundingPriority, zeros: WholeZeros) -> &'static str
    ensures { result.now ≡ priority_mark priority ++ whole_mark zeros }
{
    match (priority, zeros) {
        (RoundingPriority::MorePrecision, WholeZeros::Shown) => "r",
        (RoundingPriority::MorePrecision, WholeZeros::Hidden) => "r/w",
        (RoundingPriority::LessPrecision, WholeZeros::Shown) => "s",
        (RoundingPriority::LessPrecision, WholeZeros::Hidden) => "s/w",
    }
}

// Significant digits beside a fraction: how many at-signs and hashes, and what is behind these.
fn either_mark(
    digits: u8,
    others: u8,
    priority: RoundingPriority,
    zeros: WholeZeros,
) -> (u8, u8, &'static str)
    ensures { at_signs result.0 result.1 result.2.now ≡ either_mark digits others priority zeros }
{
    if digits > 0 {
        return (digits, others, priority_mark(priority, zeros));
    }
    match priority {
        RoundingPriority::MorePrecision => (others, 0, endless_mark(zeros)),
        RoundingPriority::LessPrecision => (1, others.saturating_sub(1), whole_mark(zeros)),
    }
}

// The digits of an increment.
fn step_digits(step: RoundingIncrement) -> &'static str
    ensures { result.now ≡ step_digits step }
{
    match step {
        RoundingIncrement::MultiplesOf1 => "1",
        RoundingIncrement::MultiplesOf2 => "2",
        RoundingIncrement::MultiplesOf5 => "5",
        RoundingIncrement::MultiplesOf25 => "25",
    }
}

// The front of the word of an increment that begins with its digits.
fn step_front(step: RoundingIncrement) -> &'static str
    ensures { result.now ≡ codes "precision-increment/" ++ step_digits step }
{
    match step {
        RoundingIncrement::MultiplesOf1 => "precision-increment/1",
        RoundingIncrement::MultiplesOf2 => "precision-increment/2",
        RoundingIncrement::MultiplesOf5 => "precision-increment/5",
        RoundingIncrement::MultiplesOf25 => "precision-increment/25",
    }
}

// The word of an increment with so many zeros behind and so many digits after the point, and what is behind these.
fn increment_word(
    step: RoundingIncrement,
    zeros: u8,
    digits: u8,
    behind: &'static str,
) -> NormalWord<'static>
    ensures { word_of result ≡ codes "precision-increment/" ++ (number_text step zeros digits ++ behind.now) }
{
    let shown = step_digits(step);
    if digits <= zeros {
        NormalWord {
            front: step_front(step),
            zeros: zeros - digits,
            middle: if digits == 0 { "" } else { "." },
            last: digits,
            behind,
            ..BLANK
        }
    } else if (digits as usize) < shown.len() + zeros as usize {
        NormalWord {
            front: "precision-increment/2.5",
            zeros,
            behind,
            ..BLANK
        }
    } else {
        NormalWord {
            front: "precision-increment/0.",
            zeros: (digits as usize - (shown.len() + zeros as usize)) as u8,
            middle: shown,
            last: zeros,
            behind,
            ..BLANK
        }
    }
}

// The word of the digits that are shown.
fn precision_word(precision: Precision) -> Option<NormalWord<'static>>
    ensures { option_map word_of result ≡ precision_word precision }
{
    match precision {
        Precision::Usual => None,
        Precision::Unlimited => Some(fixed("precision-unlimited")),
        Precision::Fraction(least, more) => Some(fraction_word(least, more)),
        Precision::AtLeast(least) => Some(pointed(least, 0, "*")),
        Precision::Whole(least, more) => Some(pointed(least, more, "/w")),
        Precision::Significant(least, more, zeros) => Some(at_signs(
            least,
            more,
            whole_mark(zeros),
        )),
        Precision::SignificantAtLeast(least, zeros) => Some(at_signs(
            least,
            0,
            endless_mark(zeros),
        )),
        Precision::Either(least, more, digits, others, priority, zeros) => {
            let (signs, others, behind) = either_mark(digits, others, priority, zeros);
            Some(NormalWord {
                front: ".",
                zeros: least,
                hashes: more,
                middle: "/",
                signs,
                others,
                behind,
                ..BLANK
            })
        }
        Precision::Increment(step, zeros, digits, whole) => {
            Some(increment_word(step, zeros, digits, whole_mark(whole)))
        }
        Precision::Currency(CurrencyUsage::Standard) => Some(fixed("precision-currency-standard")),
        Precision::Currency(CurrencyUsage::Cash) => Some(fixed("precision-currency-cash")),
        Precision::WholeCurrency(CurrencyUsage::Standard) => {
            Some(fixed("precision-currency-standard/w"))
        }
        Precision::WholeCurrency(CurrencyUsage::Cash) => Some(fixed("precision-currency-cash/w")),
    }
}

// The word of a rounding mode.
fn mode_word(mode: SignedRoundingMode) -> Option<NormalWord<'static>>
    ensures { option_map word_of result ≡ mode_word mode }
{
    match mode {
        SignedRoundingMode::Unsigned(UnsignedRoundingMode::HalfEven) => None,
        SignedRoundingMode::Unsigned(UnsignedRoundingMode::Expand) => {
            Some(fixed("rounding-mode-up"))
        }
        SignedRoundingMode::Unsigned(UnsignedRoundingMode::Trunc) => {
            Some(fixed("rounding-mode-down"))
        }
        SignedRoundingMode::Unsigned(UnsignedRoundingMode::HalfExpand) => {
            Some(fixed("rounding-mode-half-up"))
        }
        SignedRoundingMode::Unsigned(UnsignedRoundingMode::HalfTrunc) => {
            Some(fixed("rounding-mode-half-down"))
        }
        SignedRoundingMode::Ceil => Some(fixed("rounding-mode-ceiling")),
        SignedRoundingMode::Floor => Some(fixed("rounding-mode-floor")),
        SignedRoundingMode::HalfCeil => Some(fixed("rounding-mode-half-ceiling")),
        SignedRoundingMode::HalfFloor => Some(fixed("rounding-mode-half-floor")),
    }
}

// The word of a grouping beside a notation.
fn grouping_word(
    notation: SkeletonNotation,
    grouping: SkeletonGrouping,
) -> Option<NormalWord<'static>>
    ensures { option_map word_of result ≡ grouping_word notation grouping }
{
    match (notation, grouping) {
        (SkeletonNotation::Standard | SkeletonNotation::Scientific(_), SkeletonGrouping::Auto)
        | (SkeletonNotation::Compact(_), SkeletonGrouping::Min2) => None,
        (SkeletonNotation::Compact(_), SkeletonGrouping::Auto) => Some(fixed("group-auto")),
        (SkeletonNotation::Standard | SkeletonNotation::Scientific(_), SkeletonGrouping::Min2) => {
            Some(fixed("group-min2"))
        }
        (_, SkeletonGrouping::Off) => Some(fixed("group-off")),
        (_, SkeletonGrouping::OnAligned) => Some(fixed("group-on-aligned")),
    }
}

// The word of so many integer digits.
fn digits_word(digits: u8) -> Option<NormalWord<'static>>
    ensures { option_map word_of result ≡ digits_word digits }
{
    if digits == 0 {
        None
    } else {
        Some(NormalWord {
            front: "integer-width/*",
            zeros: digits,
            ..BLANK
        })
    }
}

// The word of the width of a currency.
fn width_word(width: CurrencyWidth) -> Option<NormalWord<'static>>
    ensures { option_map word_of result ≡ width_word width }
{
    match width {
        CurrencyWidth::Short => None,
        CurrencyWidth::IsoCode => Some(fixed("unit-width-iso-code")),
    }
}

// The word of a sign.
fn sign_word(sign: SkeletonSign) -> Option<NormalWord<'static>>
    ensures { option_map word_of result ≡ sign_word sign }
{
    match (sign.style, sign.display) {
        (CurrencyStyle::Standard, SignDisplay::Auto) => None,
        (CurrencyStyle::Standard, SignDisplay::Never) => Some(fixed("sign-never")),
        (CurrencyStyle::Standard, SignDisplay::Always) => Some(fixed("sign-always")),
        (CurrencyStyle::Standard, SignDisplay::ExceptZero) => Some(fixed("sign-except-zero")),
        (CurrencyStyle::Standard, SignDisplay::Negative) => Some(fixed("sign-negative")),
        (CurrencyStyle::Accounting, SignDisplay::Auto) => Some(fixed("sign-accounting")),
        (CurrencyStyle::Accounting, SignDisplay::Never) => Some(fixed("sign-never")),
        (CurrencyStyle::Accounting, SignDisplay::Always) => Some(fixed("sign-accounting-always")),
        (CurrencyStyle::Accounting, SignDisplay::ExceptZero) => {
            Some(fixed("sign-accounting-except-zero"))
        }
        (CurrencyStyle::Accounting, SignDisplay::Negative) => {
            Some(fixed("sign-accounting-negative"))
        }
    }
}

// Writes a mark so many times.
fn write_marks<S: Sink>(count: u8, mark: &str, sink: &mut S) -> Result<(), Error>
    requires { S.refused sink.old ≡ false }
    ensures ok { OnOk result (S.takes sink.old (bytes (marks count mark.now)) sink.new) }
    ensures refused { S.refused sink.new ≡ is_err result }
    ensures begun { OnErr result (HasBegun S.takes S.lacks_room sink.old (bytes (marks count mark.now)) sink.new) }
{
    let mut left = count;
    while left > 0 {
        sink.write_str(mark)?;
        left -= 1;
    }
    Ok(())
}

// Writes a space, where something is before it.
#[tactic(auto, using(crate::proofs::NormalLemmas::no_gap))]
fn write_gap<S: Sink>(spaced: bool, sink: &mut S) -> Result<(), Error>
    requires { S.refused sink.old ≡ false }
    ensures ok { OnOk result (S.takes sink.old (bytes (gap spaced)) sink.new) }
    ensures refused { S.refused sink.new ≡ is_err result }
    ensures begun { OnErr result (HasBegun S.takes S.lacks_room sink.old (bytes (gap spaced)) sink.new) }
{
    if spaced { sink.write_str(" ") } else { Ok(()) }
}

// Writes what is behind the zeros and hashes of a word.
fn write_at_signs<S: Sink>(word: NormalWord<'_>, sink: &mut S) -> Result<(), Error>
    requires { S.refused sink.old ≡ false }
    ensures ok { OnOk result (S.takes sink.old (at_sign_events word.entry) sink.new) }
    ensures refused { S.refused sink.new ≡ is_err result }
    ensures begun { OnErr result (HasBegun S.takes S.lacks_room sink.old (at_sign_events word.entry) sink.new) }
{
    sink.write_str(word.middle)?;
    write_marks(word.last, "0", sink)?;
    write_marks(word.signs, "@", sink)?;
    write_marks(word.others, "#", sink)?;
    sink.write_str(word.behind)
}

// Writes a word, after others or as the first.
fn write_word<S: Sink>(spaced: bool, word: NormalWord<'_>, sink: &mut S) -> Result<(), Error>
    requires { S.refused sink.old ≡ false }
    ensures ok { OnOk result (S.takes sink.old (word_events spaced word.entry) sink.new) }
    ensures refused { S.refused sink.new ≡ is_err result }
    ensures begun { OnErr result (HasBegun S.takes S.lacks_room sink.old (word_events spaced word.entry) sink.new) }
{
    write_gap(spaced, sink)?;
    sink.write_str(word.front)?;
    write_marks(word.exponents, "e", sink)?;
    write_marks(word.zeros, "0", sink)?;
    write_marks(word.hashes, "#", sink)?;
    write_at_signs(word, sink)
}

// Writes a word, where there is one.
#[tactic(auto, using(crate::proofs::NormalLemmas::word_events_are))]
fn write_optional<S: Sink>(
    spaced: bool,
    word: &Option<NormalWord<'_>>,
    sink: &mut S,
) -> Result<(), Error>
    requires { S.refused sink.old ≡ false }
    ensures ok { OnOk result
        (S.takes sink.old (bytes (word_after spaced (option_map word_of word.now))) sink.new) }
    ensures refused { S.refused sink.new ≡ is_err result }
    ensures begun { OnErr result
        (HasBegun S.takes S.lacks_room sink.old (bytes (word_after spaced (option_map word_of word.now))) sink.new) }
{
    match word {
        Some(word) => write_word(spaced, *word, sink),
        None => Ok(()),
    }
}

// Whether something is before the next word.
fn is_spaced(spaced: bool, word: &Option<NormalWord<'_>>) -> bool
    ensures { result ≡ (spaced || is_some word.now) }
{
    spaced || word.is_some()
}

// Writes words with a space between each two.
fn write_words<S: Sink>(words: &[Option<NormalWord<'_>>], sink: &mut S) -> Result<(), Error>
    requires { S.refused sink.old ≡ false }
    ensures ok { OnOk result (S.takes sink.old (bytes (joined false (map (option_map word_of) words.now))) sink.new) }
    ensures refused { S.refused sink.new ≡ is_err result }
    ensures begun { OnErr result
        (HasBegun S.takes S.lacks_room sink.old (bytes (joined false (map (option_map word_of) words.now))) sink.new) }
{
    let mut spaced = false;
    for word in words {
        write_optional(spaced, word, sink)?;
        spaced = is_spaced(spaced, word);
    }
    Ok(())
}

impl Skeleton {
    // Its words, in ICU's order; what is usual has none.
    fn normal_words(&self) -> [Option<NormalWord<'_>>; 8]
        ensures { map (option_map word_of) result ≡ normal_words self.now }
    {
        [
            notation_word(self.notation),
            unit_word(&self.unit),
            precision_word(self.precision),
            mode_word(self.mode),
            grouping_word(self.notation, self.grouping),
            digits_word(self.integer_digits),
            width_word(self.width),
            sign_word(self.sign),
        ]
    }
}

/// The normal text: the words in ICU's order, each in its long form, with a space between each two. What is usual has no
/// word: `compact-short currency/EUR` of `currency/EUR  K sign-auto`.
impl Writeable for Skeleton {
    ghost use Rattle.writeable.specs.AnnotatedText.{bytes};
    ghost use Rattle.locale_numbers_formats.specs.NormalText.{skeleton_text};

    ghost events = { λ s. bytes (skeleton_text s) };

    fn write_to<S: Sink>(&self, sink: &mut S) -> Result<(), Error> {
        write_words(&self.normal_words(), sink)
    }
}

impl fmt::Display for Skeleton {
    ghost use Rattle.std.specs.Prelude.{Some};
    ghost use Rattle.locale_numbers_formats.specs.NormalText.{skeleton_text};

    ghost output = { λ s. Some (skeleton_text s) };

    #[tactic(auto, using(writeable::proofs::AnnotatedTextLemmas::text_of_bytes))]
    fn fmt<W: fmt::Write>(&self, f: &mut fmt::Formatter<W>) -> fmt::Result {
        display(self, f)
    }
}
