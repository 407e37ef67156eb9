//! Plain texts read back: under which symbols, and as which decimal.

use crate::one_locale::OneLocale;
use icu_decimal::error::ReadError;
use icu_decimal::input::Decimal;
use icu_decimal::options::GroupingStrategy;
use icu_decimal::preferences::DecimalFormatterPreferences;
use icu_decimal::provider::{DecimalSymbolStrsBuilder, DecimalSymbols};
use icu_decimal::{DecimalFormatter, is_readable, read_plain};
use std::alloc::{AllocError, Global};
use std::process::Abort;
use std::test::Fail;

const LATIN: [char; 10] = ['0', '1', '2', '3', '4', '5', '6', '7', '8', '9'];

const THAI: [char; 10] = ['๐', '๑', '๒', '๓', '๔', '๕', '๖', '๗', '๘', '๙'];

const LETTERS: [char; 10] = ['a', 'b', 'c', 'd', 'e', 'f', 'g', 'h', 'i', 'j'];

// `9` is the digit of eight too.
const NINE_TWICE: [char; 10] = ['0', '1', '2', '3', '4', '5', '6', '7', '9', '9'];

// Whose digits a text is read in.
#[derive(Clone, Copy)]
enum Digits {
    Latin,
    Thai,
    Letters,
    NineTwice,
}

fn digits_of(digits: Digits) -> [char; 10] {
    match digits {
        Digits::Latin => LATIN,
        Digits::Thai => THAI,
        Digits::Letters => LETTERS,
        Digits::NineTwice => NINE_TWICE,
    }
}

// What is before and after a number with a minus sign, before and after one with a plus sign, the decimal separator
// and the grouping separator, with `|` between.
const ENGLISH: &str = "-||+||.|,";

const BRACKETS: &str = "(|)|+||.|,";

const MINUS_BEHIND: &str = "|-|+||.|,";

// The affixes of plus begin as those of minus.
const PLUS_BEGINS_AS_MINUS: &str = "-||-+||.|,";

const ONE_PREFIX: &str = "(|)|(|))|.|,";

// The affixes of minus are separators.
const MINUS_IS_POINT: &str = ".||+||.|,";

const POINT_BEHIND: &str = "|.|+||.|,";

const MINUS_IS_GROUP: &str = ",||+||.|,";

// Separators of which one is empty, or begins as the other.
const NO_GROUP: &str = "-||+||.|";

const TWO_POINTS: &str = "-||+||..|.";

const TWO_GROUPS: &str = "-||+||.|..";

const WORDS: &str = "minus ||plus || point | ";

const AUTO: GroupingStrategy = GroupingStrategy::Auto;

const ALWAYS: GroupingStrategy = GroupingStrategy::Always;

const MIN2: GroupingStrategy = GroupingStrategy::Min2;

const ON_ALIGNED: GroupingStrategy = GroupingStrategy::OnAligned;

const NEVER: GroupingStrategy = GroupingStrategy::Never;

const NOT_SO: &str = "not written so";

const UNREADABLE: &str = "unreadable symbols";

// Puts a text in the place of another.
fn put(old: &mut String, text: Option<&str>) -> Result<(), AllocError> {
    old.clear();
    match text {
        Some(text) => old.push_str(text),
        None => Ok(()),
    }
}

// Puts six texts in the places of the affixes and the separators.
fn put_texts(builder: &mut DecimalSymbolStrsBuilder, texts: &str) -> Result<(), AllocError> {
    let mut texts = texts.split('|');
    put(&mut builder.minus_sign_prefix, texts.next())?;
    put(&mut builder.minus_sign_suffix, texts.next())?;
    put(&mut builder.plus_sign_prefix, texts.next())?;
    put(&mut builder.plus_sign_suffix, texts.next())?;
    put(&mut builder.decimal_separator, texts.next())?;
    put(&mut builder.grouping_separator, texts.next())
}

// The texts of these symbols, with six others in their places.
fn builder_with(
    alloc: Global,
    symbols: &DecimalSymbols,
    texts: &str,
) -> Result<DecimalSymbolStrsBuilder, AllocError> {
    let mut builder = DecimalSymbolStrsBuilder::from_strs(alloc, &symbols.strings)?;
    match put_texts(&mut builder, texts) {
        Ok(()) => Ok(builder),
        Err(refused) => {
            drop(builder);
            Err(refused)
        }
    }
}

// Symbols with these affixes and separators, and the sizes of English.
fn symbols_with(alloc: Global, texts: &str) -> Result<DecimalSymbols, AllocError> {
    let english = DecimalSymbols::new_en_for_testing(alloc)?;
    let grouping_sizes = english.grouping_sizes;
    let builder = builder_with(alloc, &english, texts);
    drop(english);
    match builder {
        Ok(builder) => Ok(DecimalSymbols {
            strings: builder.build(),
            grouping_sizes,
        }),
        Err(refused) => Err(refused),
    }
}

// The decimal that a text was read as, which is written as that text again, and is not written as no text.
fn read_twice(
    alloc: Global,
    formatter: &DecimalFormatter<'_>,
    number: &Decimal,
    text: &str,
) -> Result<String, Fail> {
    let again = formatter.format_to_string(alloc, number)?;
    let tables = formatter.tables();
    let is_written = tables.is_written_as(number, text) && !tables.is_written_as(number, "");
    if is_written && again.as_str() == text {
        Ok(number.to_string(alloc)?)
    } else {
        Err(Fail::from("written again it is another text"))
    }
}

// What a text is read as by a formatter, or the words of the error.
fn reading_by(alloc: Global, formatter: &DecimalFormatter<'_>, text: &str) -> Result<String, Fail> {
    match read_plain(alloc, formatter, text) {
        Ok(number) => {
            let read = read_twice(alloc, formatter, &number, text);
            drop(number);
            read
        }
        Err(error) => {
            if is_readable(formatter) == matches!(error, ReadError::Unreadable) {
                return Err(Fail::from("the symbols are said to be readable and not"));
            }
            Ok(error.to_string(alloc)?)
        }
    }
}

// The same, by the formatter of these symbols and digits.
fn reading_in(
    alloc: Global,
    symbols: &DecimalSymbols,
    digits: Digits,
    strategy: GroupingStrategy,
    text: &str,
) -> Result<String, Fail> {
    let digits = digits_of(digits);
    let provider = OneLocale { symbols, digits };
    let preferences = DecimalFormatterPreferences::default();
    match DecimalFormatter::try_new_unstable(&provider, preferences, strategy.into()) {
        Ok(formatter) => reading_by(alloc, &formatter, text),
        Err(_) => Err(Fail::from("no formatter")),
    }
}

// The same, where the symbols have these affixes and separators.
fn reading(
    alloc: Global,
    texts: &str,
    digits: Digits,
    strategy: GroupingStrategy,
    text: &str,
) -> Result<String, Fail> {
    let symbols = symbols_with(alloc, texts)?;
    let read = reading_in(alloc, &symbols, digits, strategy, text);
    drop(symbols);
    read
}

// A row: what a text is read as.
fn expect_read(
    rt: &impl Abort,
    alloc: Global,
    texts: &str,
    digits: Digits,
    strategy: GroupingStrategy,
    text: &str,
    want: &str,
) -> Result<(), Fail> {
    let found = reading(alloc, texts, digits, strategy, text)?;
    assert_eq!(rt; found.as_str(), want, "{text}");
    Ok(())
}

const ENGLISH_TEXTS: [(&str, &str); 24] = [
    ("-987,654.321", "-987654.321"),
    ("0,007", "0007"),
    ("+5", "+5"),
    ("-0", "-0"),
    ("0,000.00", "0000.00"),
    // a separator at a wrong place, none, or one too many
    ("98,7654", NOT_SO),
    ("1234", NOT_SO),
    ("1,,234", NOT_SO),
    (",123", NOT_SO),
    ("1,234,", NOT_SO),
    ("1.234,567", NOT_SO),
    ("1,234.567,8", NOT_SO),
    ("1..5", NOT_SO),
    ("1.2.3", NOT_SO),
    // no digit, or none on one side of the point
    ("", NOT_SO),
    ("-", NOT_SO),
    (".", NOT_SO),
    (".5", NOT_SO),
    ("5.", NOT_SO),
    // affixes that the symbols do not have
    ("--5", NOT_SO),
    ("+-5", NOT_SO),
    ("5-", NOT_SO),
    (" 5", NOT_SO),
    ("5\n", NOT_SO),
];

#[test]
fn english_texts_read_back(rt: HostRuntime) -> Result<(), Fail> {
    for (text, want) in &ENGLISH_TEXTS {
        expect_read(&rt, rt.alloc(), ENGLISH, Digits::Latin, AUTO, text, want)?;
    }
    Ok(())
}

const OTHER_TEXTS: [(&str, Digits, GroupingStrategy, &str, &str); 25] = [
    // other groupings
    (ENGLISH, Digits::Latin, ALWAYS, "1,234,567", "1234567"),
    (ENGLISH, Digits::Latin, MIN2, "1,234", NOT_SO),
    (ENGLISH, Digits::Latin, MIN2, "1234", "1234"),
    (ENGLISH, Digits::Latin, MIN2, "12,345", "12345"),
    (ENGLISH, Digits::Latin, MIN2, "12345", NOT_SO),
    (ENGLISH, Digits::Latin, ON_ALIGNED, "1,234", "1234"),
    (ENGLISH, Digits::Latin, ON_ALIGNED, "1234", NOT_SO),
    (ENGLISH, Digits::Latin, NEVER, "1234567", "1234567"),
    (ENGLISH, Digits::Latin, NEVER, "1,234", NOT_SO),
    // digits of another table, and of two tables
    (ENGLISH, Digits::Thai, AUTO, "๑,๒๓๔.๕", "1234.5"),
    (ENGLISH, Digits::Thai, AUTO, "1,234", NOT_SO),
    (ENGLISH, Digits::Thai, AUTO, "๑,2๓๔", NOT_SO),
    (ENGLISH, Digits::Latin, AUTO, "1,2๓4", NOT_SO),
    (ENGLISH, Digits::Letters, AUTO, "-b,cde.f", "-1234.5"),
    // affixes on both sides, after, and with one beginning
    (BRACKETS, Digits::Latin, AUTO, "(5)", "-5"),
    (BRACKETS, Digits::Latin, AUTO, "(5", NOT_SO),
    (BRACKETS, Digits::Latin, AUTO, "5)", NOT_SO),
    (MINUS_BEHIND, Digits::Latin, AUTO, "1,234-", "-1234"),
    (MINUS_BEHIND, Digits::Latin, AUTO, "-5", NOT_SO),
    (PLUS_BEGINS_AS_MINUS, Digits::Latin, AUTO, "-5", "-5"),
    (PLUS_BEGINS_AS_MINUS, Digits::Latin, AUTO, "-+5", "+5"),
    (PLUS_BEGINS_AS_MINUS, Digits::Latin, AUTO, "+5", NOT_SO),
    (ONE_PREFIX, Digits::Latin, AUTO, "(5)", "-5"),
    (ONE_PREFIX, Digits::Latin, AUTO, "(5))", "+5"),
    (ONE_PREFIX, Digits::Latin, AUTO, "(5)))", NOT_SO),
];

#[test]
fn other_groupings_digits_and_affixes_read_back(rt: HostRuntime) -> Result<(), Fail> {
    for (texts, digits, strategy, text, want) in &OTHER_TEXTS {
        expect_read(&rt, rt.alloc(), texts, *digits, *strategy, text, want)?;
    }
    Ok(())
}

const ODD_SEPARATORS: [(&str, &str, &str); 21] = [
    // affixes that are separators
    (MINUS_IS_POINT, ".5", "-5"),
    (MINUS_IS_POINT, ".1.5", "-1.5"),
    (MINUS_IS_POINT, "1.5", "1.5"),
    (POINT_BEHIND, "5.", "-5"),
    (POINT_BEHIND, "1.5.", "-1.5"),
    (POINT_BEHIND, "1.5", "1.5"),
    (POINT_BEHIND, "5..", NOT_SO),
    (MINUS_IS_GROUP, ",123", "-123"),
    (MINUS_IS_GROUP, ",1,234", "-1234"),
    (MINUS_IS_GROUP, "123,456", "123456"),
    // separators that are empty, long, or begin as the other
    (NO_GROUP, "1234", "1234"),
    (NO_GROUP, "1,234", NOT_SO),
    (TWO_POINTS, "1.234..5", "1234.5"),
    (TWO_POINTS, "1..234", "1.234"),
    (TWO_POINTS, "1.234.5", NOT_SO),
    (TWO_POINTS, "1...5", NOT_SO),
    (TWO_GROUPS, "1..234.5", "1234.5"),
    (TWO_GROUPS, "1.234", "1.234"),
    (TWO_GROUPS, "1...5", NOT_SO),
    (WORDS, "minus 1 234 point 5", "-1234.5"),
    (WORDS, "minus 1 234 point", NOT_SO),
];

#[test]
fn odd_separators_read_back(rt: HostRuntime) -> Result<(), Fail> {
    for (texts, text, want) in &ODD_SEPARATORS {
        expect_read(&rt, rt.alloc(), texts, Digits::Latin, AUTO, text, want)?;
    }
    Ok(())
}

const UNREADABLE_SYMBOLS: [(&str, Digits, &str, &str); 11] = [
    // symbols that are not readable
    (ENGLISH, Digits::NineTwice, "5", UNREADABLE),
    ("-||+||.|0", Digits::Latin, "5", UNREADABLE),
    ("-||+||a1|,", Digits::Latin, "5", UNREADABLE),
    ("-|7|+||.|,", Digits::Latin, "5", UNREADABLE),
    ("-|||8x|.|,", Digits::Latin, "5", UNREADABLE),
    ("-||-||.|,", Digits::Latin, "5", UNREADABLE),
    ("||+||.|,", Digits::Latin, "5", UNREADABLE),
    ("-||||.|,", Digits::Latin, "5", UNREADABLE),
    ("-||+|||,", Digits::Latin, "5", UNREADABLE),
    ("-||+||,|,", Digits::Latin, "5", UNREADABLE),
    // an affix of no digits is readable though it holds a digit of another table
    ("-1||+||.|,", Digits::Thai, "-1๕", "-5"),
];

#[test]
fn unreadable_symbols(rt: HostRuntime) -> Result<(), Fail> {
    for (texts, digits, text, want) in &UNREADABLE_SYMBOLS {
        expect_read(&rt, rt.alloc(), texts, *digits, AUTO, text, want)?;
    }
    Ok(())
}

// A text with `count` ones after it.
fn with_ones(alloc: Global, front: &str, count: u32) -> Result<String, AllocError> {
    let mut text = String::from_str(alloc, front)?;
    for _ in 0..count {
        text.push('1')?;
    }
    Ok(text)
}

// A row: whether a text with this many ones after it is read, as it is.
fn expect_long_read(
    rt: &impl Abort,
    alloc: Global,
    front: &str,
    count: u32,
    is_number: bool,
) -> Result<(), Fail> {
    let text = with_ones(alloc, front, count)?;
    let want = if is_number { text.as_str() } else { NOT_SO };
    let found = reading(
        alloc,
        ENGLISH,
        Digits::Latin,
        GroupingStrategy::Never,
        text.as_str(),
    )?;
    assert!(rt; found.as_str() == want, "{front} and {count} ones");
    Ok(())
}

const LONGEST_TEXTS: [(&str, u32, bool); 5] = [
    ("", 32_768, true),
    ("", 32_769, false),
    ("0.", 32_768, true),
    ("0.", 32_769, false),
    ("-1111.", 60, true),
];

#[test]
fn longest_texts(rt: HostRuntime) -> Result<(), Fail> {
    for (front, count, is_number) in &LONGEST_TEXTS {
        expect_long_read(&rt, rt.alloc(), front, *count, *is_number)?;
    }
    Ok(())
}
