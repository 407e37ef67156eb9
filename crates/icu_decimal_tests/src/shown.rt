//! The text and the parts of decimals in the symbols of English, with other sizes and digits.

use crate::one_locale::OneLocale;
use icu_decimal::DecimalFormatter;
use icu_decimal::input::Decimal;
use icu_decimal::options::GroupingStrategy;
use icu_decimal::preferences::DecimalFormatterPreferences;
use icu_decimal::provider::{DecimalSymbols, GroupingSizes};
use std::alloc::Global;
use std::process::Abort;
use std::test::Fail;
use writeable::{PartsSink, Writeable};

const LATIN: [char; 10] = ['0', '1', '2', '3', '4', '5', '6', '7', '8', '9'];

const THAI: [char; 10] = ['๐', '๑', '๒', '๓', '๔', '๕', '๖', '๗', '๘', '๙'];

const BENGALI: [char; 10] = ['০', '১', '২', '৩', '৪', '৫', '৬', '৭', '৮', '৯'];

const AUTO: GroupingStrategy = GroupingStrategy::Auto;

const MIN2: GroupingStrategy = GroupingStrategy::Min2;

const ON_ALIGNED: GroupingStrategy = GroupingStrategy::OnAligned;

// Whose digits a number is written in.
#[derive(Clone, Copy)]
enum Digits {
    Latin,
    Thai,
    Bengali,
}

fn digits_of(digits: Digits) -> [char; 10] {
    match digits {
        Digits::Latin => LATIN,
        Digits::Thai => THAI,
        Digits::Bengali => BENGALI,
    }
}

// The text, and after it the parts as `start-end value`, each after a blank.
fn listing(alloc: Global, sink: &PartsSink) -> Result<String, Fail> {
    let mut text = String::from_str(alloc, sink.text())?;
    for (start, end, part) in sink.parts() {
        write!(text, " {start}-{end}{}", part.value)?;
    }
    Ok(text)
}

// The text of a decimal by this formatter, and the parts that a sink holds of it. The text in the sink must be the
// same.
fn listing_of(
    alloc: Global,
    formatter: &DecimalFormatter<'_>,
    number: &Decimal,
    sink: &PartsSink,
) -> Result<String, Fail> {
    let whole = formatter.format_to_string(alloc, number)?;
    let is_same = whole.as_str() == sink.text();
    drop(whole);
    if is_same {
        listing(alloc, sink)
    } else {
        Err(Fail::from("the sink has another text"))
    }
}

// The text of a decimal by this formatter, and its parts.
fn shown_by(
    alloc: Global,
    formatter: &DecimalFormatter<'_>,
    number: &Decimal,
) -> Result<String, Fail> {
    let mut sink = PartsSink::new(alloc);
    let is_written = formatter.format(number).write_to(&mut sink).is_ok();
    let shown = if is_written {
        listing_of(alloc, formatter, number, &sink)
    } else {
        Err(Fail::from("the sink refused"))
    };
    drop(sink);
    shown
}

// The same, by the formatter of these symbols and digits.
fn shown_in(
    alloc: Global,
    symbols: &DecimalSymbols,
    digits: Digits,
    strategy: GroupingStrategy,
    number: &Decimal,
) -> Result<String, Fail> {
    let digits = digits_of(digits);
    let provider = OneLocale { symbols, digits };
    let preferences = DecimalFormatterPreferences::default();
    match DecimalFormatter::try_new_unstable(&provider, preferences, strategy.into()) {
        Ok(formatter) => shown_by(alloc, &formatter, number),
        Err(_) => Err(Fail::from("no formatter")),
    }
}

// The same, in the symbols of English with these sizes, primary, secondary and least.
fn shown_with(
    alloc: Global,
    sizes: [u8; 3],
    digits: Digits,
    strategy: GroupingStrategy,
    number: &Decimal,
) -> Result<String, Fail> {
    let mut symbols = DecimalSymbols::new_en_for_testing(alloc)?;
    symbols.grouping_sizes = GroupingSizes {
        primary: sizes[0],
        secondary: sizes[1],
        min_grouping: sizes[2],
    };
    let shown = shown_in(alloc, &symbols, digits, strategy, number);
    drop(symbols);
    shown
}

// The same, of the decimal of a text.
fn shown(
    alloc: Global,
    sizes: [u8; 3],
    digits: Digits,
    strategy: GroupingStrategy,
    text: &str,
) -> Result<String, Fail> {
    let number = Decimal::try_from_str(alloc, text)?;
    let shown = shown_with(alloc, sizes, digits, strategy, &number);
    drop(number);
    shown
}

// A row: what is shown for a text.
fn expect_shown(
    rt: &impl Abort,
    alloc: Global,
    sizes: [u8; 3],
    digits: Digits,
    strategy: GroupingStrategy,
    text: &str,
    want: &str,
) -> Result<(), Fail> {
    let found = shown(alloc, sizes, digits, strategy, text)?;
    assert_eq!(rt; found.as_str(), want, "{text}");
    Ok(())
}

// What is shown for the decimal of a text times ten to a power, in English.
fn shown_after_shift(alloc: Global, text: &str, delta: i16) -> Result<String, Fail> {
    let mut number = Decimal::try_from_str(alloc, text)?;
    number.absolute.multiply_pow10(delta);
    let shown = shown_with(alloc, [3, 3, 1], Digits::Latin, AUTO, &number);
    drop(number);
    shown
}

const TEXTS_AND_PARTS: [([u8; 3], Digits, GroupingStrategy, &str, &str); 13] = [
    (
        [3, 3, 1],
        Digits::Latin,
        AUTO,
        "1234",
        "1,234 0-5integer 1-2group",
    ),
    (
        [3, 2, 1],
        Digits::Latin,
        AUTO,
        "1234567",
        "12,34,567 0-9integer 2-3group 5-6group",
    ),
    // zeros in front are digits like others
    (
        [3, 3, 1],
        Digits::Latin,
        AUTO,
        "0007",
        "0,007 0-5integer 1-2group",
    ),
    (
        [3, 3, 1],
        Digits::Latin,
        AUTO,
        "2000.50",
        "2,000.50 0-5integer 1-2group 5-6decimal 6-8fraction",
    ),
    (
        [3, 3, 1],
        Digits::Latin,
        AUTO,
        "-987654.321",
        "-987,654.321 0-1minusSign 1-8integer 4-5group 8-9decimal 9-12fraction",
    ),
    // intervals are in bytes
    (
        [3, 3, 1],
        Digits::Thai,
        AUTO,
        "1000007",
        "๑,๐๐๐,๐๐๗ 0-23integer 3-4group 13-14group",
    ),
    (
        [3, 2, 1],
        Digits::Bengali,
        AUTO,
        "1000007",
        "১০,০০,০০৭ 0-23integer 6-7group 13-14group",
    ),
    (
        [3, 3, 1],
        Digits::Latin,
        MIN2,
        "+1000",
        "+1000 0-1plusSign 1-5integer",
    ),
    (
        [3, 2, 1],
        Digits::Latin,
        MIN2,
        "10000",
        "10,000 0-6integer 2-3group",
    ),
    (
        [3, 3, 2],
        Digits::Latin,
        AUTO,
        "1234.5",
        "1234.5 0-4integer 4-5decimal 5-6fraction",
    ),
    (
        [3, 3, 2],
        Digits::Latin,
        ON_ALIGNED,
        "1234.5",
        "1,234.5 0-5integer 1-2group 5-6decimal 6-7fraction",
    ),
    (
        [1, 0, 0],
        Digits::Latin,
        AUTO,
        "123",
        "1,2,3 0-5integer 1-2group 3-4group",
    ),
    (
        [0, 0, 0],
        Digits::Latin,
        AUTO,
        "1000000",
        "1000000 0-7integer",
    ),
];

#[test]
fn texts_and_parts(rt: HostRuntime) -> Result<(), Fail> {
    for (sizes, digits, strategy, text, want) in &TEXTS_AND_PARTS {
        expect_shown(&rt, rt.alloc(), *sizes, *digits, *strategy, text, want)?;
    }
    let shifted = shown_after_shift(rt.alloc(), "200050", -2)?;
    let want = "2,000.50 0-5integer 1-2group 5-6decimal 6-8fraction";
    assert_eq!(rt;
        shifted.as_str(),
        want,
        "the digits that are shown move too"
    );
    Ok(())
}
