//! Words of digits: zeros for each that is shown, hashes for each that may be.

ghost use Rattle.std.specs.Prelude.{◌≡◌, ◌+◌, ◌≤◌, length};
ghost use Rattle.locale_numbers_formats.specs.Marks.{digits_end, digits_setting, either_end, either_setting, fraction_end, fraction_setting, marked, old_end, option_setting, padded_setting, zeros_or};
ghost use Rattle.locale_numbers_formats.specs.Runs.{leading, marks_alone};

use crate::exponents::exponent_setting;
use crate::options::RoundingPriority;
use crate::skeleton_error::WordFault;
use crate::stems::{Precision, Setting, WholeZeros};

// How many digits a word may ask for.
pub(crate) const MOST: usize = 100;

// How many marks of a kind a text begins with.
pub(crate) fn leading(text: &[u8], mark: u8) -> usize
    ensures count { result ≡ leading mark text.now }
    ensures most { result ≤ length text.now }
{
    let mut count = 0;
    while count < text.len() && text[count] == mark {
        count += 1;
    }
    count
}

// How many marks a text is, where it has those of one kind alone, one at least and a hundred at most.
pub(crate) fn marks_alone(text: &[u8], mark: u8) -> Option<u8>
    ensures { result ≡ marks_alone mark text.now }
{
    if text.is_empty() || text.len() > MOST || leading(text, mark) < text.len() {
        None
    } else {
        Some(text.len() as u8)
    }
}

// What zeros alone set: so many integer digits.
fn zeros_or(text: &[u8], fault: WordFault) -> Setting
    ensures { result ≡ zeros_or fault text.now }
{
    match marks_alone(text, b'0') {
        None => Setting::Refused(fault),
        Some(digits) => Setting::OfWhole(digits),
    }
}

// What follows `integer-width/`: a star or a plus, and zeros.
pub(crate) fn padded_setting(option: &[u8]) -> Setting
    ensures { result ≡ padded_setting option.now }
{
    match option.split_first() {
        None => Setting::Refused(WordFault::Unsupported),
        Some((first, zeros)) => {
            if *first == b'*' || *first == b'+' {
                zeros_or(zeros, WordFault::Unsupported)
            } else {
                Setting::Refused(WordFault::Unsupported)
            }
        }
    }
}

// What at-signs and hashes set, by what follows these.
fn digits_end(least: u8, more: u8, end: &[u8]) -> Setting
    ensures { result ≡ digits_end least more end.now }
{
    if end == b"".as_slice() {
        Setting::OfPrecision(Precision::Significant(least, more, WholeZeros::Shown))
    } else if end == b"/w".as_slice() {
        Setting::OfPrecision(Precision::Significant(least, more, WholeZeros::Hidden))
    } else if more == 0 && (end == b"*".as_slice() || end == b"+".as_slice()) {
        Setting::OfPrecision(Precision::SignificantAtLeast(least, WholeZeros::Shown))
    } else if more == 0 && (end == b"*/w".as_slice() || end == b"+/w".as_slice()) {
        Setting::OfPrecision(Precision::SignificantAtLeast(least, WholeZeros::Hidden))
    } else {
        Setting::Refused(WordFault::Unknown)
    }
}

// What an at-sign sets, by the marks after it.
fn digits_setting(marks: &[u8]) -> Setting
    ensures { result ≡ digits_setting marks.now }
{
    let others = leading(marks, b'@');
    let rest = &marks[others..];
    let more = leading(rest, b'#');
    if 1 + others + more > MOST {
        return Setting::Refused(WordFault::Unknown);
    }
    digits_end(1 + others as u8, more as u8, &rest[more..])
}

// What significant digits beside a fraction set without a priority, by what follows them.
fn old_end(least: u8, more: u8, digits: u8, others: u8, end: &[u8]) -> Setting
    requires { digits + others ≤ 100 }
    ensures { result ≡ old_end least more digits others end.now }
{
    let endless = end == b"*".as_slice() || end == b"+".as_slice();
    let whole_endless = end == b"*/w".as_slice() || end == b"+/w".as_slice();
    let (most, priority, zeros) = if endless && others == 0 {
        (digits, RoundingPriority::MorePrecision, WholeZeros::Shown)
    } else if whole_endless && others == 0 {
        (digits, RoundingPriority::MorePrecision, WholeZeros::Hidden)
    } else if end == b"".as_slice() && digits == 1 {
        (
            digits + others,
            RoundingPriority::LessPrecision,
            WholeZeros::Shown,
        )
    } else if end == b"/w".as_slice() && digits == 1 {
        (
            digits + others,
            RoundingPriority::LessPrecision,
            WholeZeros::Hidden,
        )
    } else {
        return Setting::Refused(WordFault::Unknown);
    };
    Setting::OfPrecision(Precision::Either(least, more, 0, most, priority, zeros))
}

// What significant digits beside a fraction set, by what follows them.
fn either_end(least: u8, more: u8, digits: u8, others: u8, end: &[u8]) -> Setting
    requires { digits + others ≤ 100 }
    ensures { result ≡ either_end least more digits others end.now }
{
    let (priority, zeros) = if end == b"r".as_slice() {
        (RoundingPriority::MorePrecision, WholeZeros::Shown)
    } else if end == b"r/w".as_slice() {
        (RoundingPriority::MorePrecision, WholeZeros::Hidden)
    } else if end == b"s".as_slice() {
        (RoundingPriority::LessPrecision, WholeZeros::Shown)
    } else if end == b"s/w".as_slice() {
        (RoundingPriority::LessPrecision, WholeZeros::Hidden)
    } else {
        return old_end(least, more, digits, others, end);
    };
    Setting::OfPrecision(Precision::Either(least, more, digits, others, priority, zeros))
}

// What an at-sign beside a fraction sets, by the marks after it.
fn either_setting(least: u8, more: u8, marks: &[u8]) -> Setting
    ensures { result ≡ either_setting least more marks.now }
{
    let digits = leading(marks, b'@');
    let rest = &marks[digits..];
    let others = leading(rest, b'#');
    if 1 + digits + others > MOST {
        return Setting::Refused(WordFault::Unknown);
    }
    either_end(least, more, 1 + digits as u8, others as u8, &rest[others..])
}

// What a fraction sets by what follows its slash.
pub(crate) fn option_setting(least: u8, more: u8, option: &[u8]) -> Setting
    ensures { result ≡ option_setting least more option.now }
{
    match option.split_first() {
        None => Setting::Refused(WordFault::Unknown),
        Some((first, marks)) => {
            if *first == b'@' {
                either_setting(least, more, marks)
            } else if option == b"w".as_slice() {
                Setting::OfPrecision(Precision::Whole(least, more))
            } else {
                Setting::Refused(WordFault::Unknown)
            }
        }
    }
}

// What a point sets with so many zeros and hashes after it, by what follows these.
fn fraction_end(least: u8, more: u8, end: &[u8]) -> Setting
    ensures { result ≡ fraction_end least more end.now }
{
    match end.split_first() {
        None => Setting::OfPrecision(Precision::Fraction(least, more)),
        Some((first, option)) => {
            if *first == b'/' {
                option_setting(least, more, option)
            } else if more == 0 && least > 0 && (end == b"*".as_slice() || end == b"+".as_slice()) {
                Setting::OfPrecision(Precision::AtLeast(least))
            } else {
                Setting::Refused(WordFault::Unknown)
            }
        }
    }
}

// What a point sets, by the marks after it.
fn fraction_setting(marks: &[u8]) -> Setting
    ensures { result ≡ fraction_setting marks.now }
{
    let least = leading(marks, b'0');
    let rest = &marks[least..];
    let more = leading(rest, b'#');
    if least + more > MOST {
        return Setting::Refused(WordFault::Unknown);
    }
    fraction_end(least as u8, more as u8, &rest[more..])
}

// What a word of marks sets; `None` of another word.
pub(crate) fn marked(word: &[u8]) -> Option<Setting>
    ensures { result ≡ marked word.now }
{
    let (first, marks) = word.split_first()?;
    if *first == b'.' {
        Some(fraction_setting(marks))
    } else if *first == b'0' {
        Some(zeros_or(word, WordFault::Unknown))
    } else if *first == b'@' {
        Some(digits_setting(marks))
    } else if *first == b'E' {
        Some(exponent_setting(marks))
    } else {
        None
    }
}
