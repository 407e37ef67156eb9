//! Examples of public items that the other rows do not call: values, errors, identifiers, symbols, formatted numbers.

use icu_decimal::input::Decimal;
use icu_decimal::options::GroupingStrategy;
use icu_decimal::provider::{
    DataError, DataIdentifier, DecimalSymbolStrsBuilder, DecimalSymbols, DecimalSymbolsStrs,
};
use icu_decimal::{Cow, DecimalFormatter, FormattedSign};
use icu_locale_core::DataLocale;
use std::alloc::Global;
use std::process::Abort;
use std::test::Fail;
use tinystr::TinyAsciiStr;

const LATIN: [char; 10] = ['0', '1', '2', '3', '4', '5', '6', '7', '8', '9'];

const THAI: [char; 10] = ['๐', '๑', '๒', '๓', '๔', '๕', '๖', '๗', '๘', '๙'];

// A value is read alike whether it is borrowed or owned.
fn expect_read(rt: &impl Abort) {
    let five = 5;
    let lent = Cow::Borrowed(&five);
    let own = Cow::Owned(5);
    assert_eq!(rt; *lent, 5);
    assert_eq!(rt; *own, 5);
    assert!(rt; lent == own, "whoever owns them");
    assert!(rt; lent != Cow::Owned(6), "other values");
}

// The identifiers of a locale, of a system, and of both, each as its locale and its attributes.
fn identifiers(
    alloc: Global,
    system: &TinyAsciiStr<8>,
    locale: &DataLocale,
) -> Result<String, Fail> {
    let of_locale = DataIdentifier::for_locale(*locale);
    let of_system = DataIdentifier::for_marker_attributes(*system);
    let of_both = DataIdentifier::for_marker_attributes_and_locale(*system, *locale);
    let mut text = String::new(alloc);
    for id in &[of_locale, of_system, of_both] {
        write!(text, "({} {})", id.locale, id.attributes)?;
    }
    Ok(text)
}

// A row: the number of an error and its words.
fn expect_error(
    rt: &impl Abort,
    alloc: Global,
    error: DataError,
    number: u8,
    words: &str,
) -> Result<(), Fail> {
    let found = error.to_string(alloc)?;
    assert_eq!(rt; found.as_str(), words);
    assert_eq!(rt; error.number(), number, "{words}");
    Ok(())
}

const ERRORS: [(DataError, u8, &str); 7] = [
    (DataError::IdentifierNotFound, 1, "identifier not found"),
    (DataError::InvalidRequest, 2, "invalid request"),
    (DataError::Decreasing, 3, "compact exponents decrease"),
    (DataError::TooManyZeros, 4, "too many zeros"),
    (DataError::AboveType, 5, "exponent above its type"),
    (DataError::Memory, 6, "out of memory"),
    (DataError::Custom, 7, "custom"),
];

#[test]
fn values_identifiers_and_errors(rt: HostRuntime) -> Result<(), Fail> {
    expect_read(&rt);
    let thai = TinyAsciiStr::try_from_str("thai")?;
    let english = DataLocale::try_from_str(rt.alloc(), "en")?;
    let found = identifiers(rt.alloc(), &thai, &english)?;
    assert_eq!(rt; found.as_str(), "(en )(und thai)(en thai)");
    for (error, number, words) in &ERRORS {
        expect_error(&rt, rt.alloc(), *error, *number, words)?;
    }
    Ok(())
}

// Whether the texts are equal to those that a copy of their builder builds.
fn are_built(alloc: Global, strings: &DecimalSymbolsStrs) -> Result<bool, Fail> {
    let builder = DecimalSymbolStrsBuilder::from_strs(alloc, strings)?;
    let copy = builder.try_clone();
    drop(builder);
    let built = copy?.build();
    let is_equal = built == *strings;
    drop(built);
    Ok(is_equal)
}

// Whether symbols are equal to a copy, and not where groups end elsewhere.
fn are_copied(symbols: &DecimalSymbols) -> Result<bool, Fail> {
    let mut copy = symbols.try_clone()?;
    let is_equal = copy == *symbols;
    copy.grouping_sizes.secondary = 2;
    let is_other = copy != *symbols;
    drop(copy);
    Ok(is_equal && is_other)
}

// The texts of symbols with `|` between them, the sizes, and whether copies are equal.
fn described(alloc: Global, symbols: &DecimalSymbols) -> Result<String, Fail> {
    let sizes = symbols.grouping_sizes;
    let are_copied = are_copied(symbols)? && are_built(alloc, &symbols.strings)?;
    let mut text = String::new(alloc);
    write!(
        text,
        "{}|{}",
        symbols.minus_sign_prefix(),
        symbols.minus_sign_suffix()
    )?;
    write!(
        text,
        "|{}|{}",
        symbols.plus_sign_prefix(),
        symbols.plus_sign_suffix()
    )?;
    write!(
        text,
        "|{}|{}",
        symbols.decimal_separator(),
        symbols.grouping_separator()
    )?;
    write!(
        text,
        "|{} {} {}",
        symbols.numsys(),
        sizes.primary,
        sizes.secondary
    )?;
    write!(text, " {} {are_copied}", sizes.min_grouping)?;
    Ok(text)
}

// The same, of the symbols of English.
fn english_described(alloc: Global) -> Result<String, Fail> {
    let symbols = DecimalSymbols::new_en_for_testing(alloc)?;
    let text = described(alloc, &symbols);
    drop(symbols);
    text
}

#[test]
fn symbols_of_english(rt: HostRuntime) -> Result<(), Fail> {
    let found = english_described(rt.alloc())?;
    assert_eq!(rt; found.as_str(), "-||+||.|,|latn 3 3 1 true");
    Ok(())
}

// A copy of the formatted number, the number without its sign, and a copy of `5` between the affixes of the sign.
fn written<'x>(
    alloc: Global,
    formatter: &'x DecimalFormatter<'x>,
    number: &'x Decimal,
    is_equal: bool,
) -> Result<String, Fail> {
    let formatted = formatter.format(number);
    let copy = formatted.try_clone()?;
    if copy != formatted {
        return Err(Fail::from("the copy is another"));
    }
    let signed = FormattedSign::new(number.sign, formatter.symbols(), "5").try_clone()?;
    Ok(format!(in alloc; "{copy} {} {signed} {is_equal}", formatted.value())?)
}

// The same, and whether the number is equal to that of a text where both are formatted.
fn beside<'x>(
    alloc: Global,
    formatter: &'x DecimalFormatter<'x>,
    number: &'x Decimal,
    other: &str,
) -> Result<String, Fail> {
    let other = Decimal::try_from_str(alloc, other)?;
    let is_equal = formatter.format(number) == formatter.as_ref().format(&other);
    drop(other);
    written(alloc, formatter, number, is_equal)
}

// The same, of the number of a text.
fn two_texts<'x>(
    alloc: Global,
    formatter: &'x DecimalFormatter<'x>,
    text: &str,
    other: &str,
) -> Result<String, Fail> {
    let number = Decimal::try_from_str(alloc, text)?;
    let found = beside(alloc, formatter, &number, other);
    drop(number);
    found
}

// The same, with the symbols of English and these digits.
fn in_english(alloc: Global, digits: &[char; 10], text: &str, other: &str) -> Result<String, Fail> {
    let symbols = DecimalSymbols::new_en_for_testing(alloc)?;
    let formatter = DecimalFormatter::from_tables(&symbols, digits, GroupingStrategy::Auto.into());
    let found = two_texts(alloc, &formatter, text, other);
    drop(symbols);
    found
}

// A row: what is written for a text, beside another.
fn expect_written(
    rt: &impl Abort,
    alloc: Global,
    digits: &[char; 10],
    text: &str,
    other: &str,
    want: &str,
) -> Result<(), Fail> {
    let found = in_english(alloc, digits, text, other)?;
    assert_eq!(rt; found.as_str(), want, "{text} beside {other}");
    Ok(())
}

const FORMATTED: [(&str, &str, &str); 7] = [
    ("-1234.5", "-1234.5", "-1,234.5 1,234.5 -5 true"),
    ("0.5", "0.5", "0.5 0.5 5 true"),
    // the ranges differ
    ("0.5", "0.50", "0.5 0.5 5 false"),
    ("0007", "7", "0,007 0,007 5 false"),
    // the affixes differ
    ("+5", "5", "+5 5 +5 false"),
    ("-0", "0", "-0 0 -5 false"),
    ("-5", "-6", "-5 5 -5 false"),
];

#[test]
fn formatted_numbers(rt: HostRuntime) -> Result<(), Fail> {
    for (text, other, want) in &FORMATTED {
        expect_written(&rt, rt.alloc(), &LATIN, text, other, want)?;
    }
    let want = "๑,๐๐๐,๐๐๗ ๑,๐๐๐,๐๐๗ 5 true";
    expect_written(&rt, rt.alloc(), &THAI, "1000007", "1000007", want)?;
    Ok(())
}
