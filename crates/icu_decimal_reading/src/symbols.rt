//! Which symbols are readable.

ghost use Rattle.std.specs.Prelude.{◌≡◌, [], length, not};
ghost use Rattle.std.specs.Char.{IsScalar};
ghost use Rattle.std.specs.List.{AllByRecursion};
ghost use Rattle.std.specs.Str.{bytes_eq};
ghost use Rattle.icu_decimal_plain.specs.BorrowedTables.{borrowed_tables};
ghost use Rattle.icu_decimal_reading.specs.ReadingLaws.{AreTables};
ghost use Rattle.icu_decimal_reading.specs.Readable.{are_clear, do_separators_differ, do_signs_differ, is_readable_by, is_same_pair};

use crate::digits::{do_all_differ, has_none};
use icu_decimal_plain::DecimalTables;
use icu_decimal_symbols::DecimalSymbols;

// Whether two texts are one.
fn is_same_text(one: &str, other: &str) -> bool
    ensures { result ≡ bytes_eq one.now other.now }
{
    one == other
}

// Whether no digit is in the affixes and in the separators.
fn are_texts_clear(table: &[char; 10], symbols: &DecimalSymbols) -> bool
    ensures { result ≡ are_clear table.now symbols.now.strings }
{
    has_none(table, symbols.minus_sign_prefix())
        && (has_none(table, symbols.minus_sign_suffix())
            && (has_none(table, symbols.plus_sign_prefix())
                && (has_none(table, symbols.plus_sign_suffix())
                    && (has_none(table, symbols.decimal_separator())
                        && has_none(table, symbols.grouping_separator())))))
}

// Whether two pairs of affixes are one.
fn is_one_pair(prefix: &str, suffix: &str, other_prefix: &str, other_suffix: &str) -> bool
    ensures { result ≡ is_same_pair prefix.now suffix.now other_prefix.now other_suffix.now }
{
    is_same_text(prefix, other_prefix) && is_same_text(suffix, other_suffix)
}

// Whether the affixes of both signs and of none differ.
fn do_affixes_differ(symbols: &DecimalSymbols) -> bool
    ensures { result ≡ do_signs_differ symbols.now.strings }
{
    let minus_prefix = symbols.minus_sign_prefix();
    let minus_suffix = symbols.minus_sign_suffix();
    let plus_prefix = symbols.plus_sign_prefix();
    let plus_suffix = symbols.plus_sign_suffix();
    !is_one_pair(minus_prefix, minus_suffix, "", "")
        && (!is_one_pair(plus_prefix, plus_suffix, "", "")
            && !is_one_pair(minus_prefix, minus_suffix, plus_prefix, plus_suffix))
}

// Whether the decimal separator is there, and no grouping separator.
fn is_decimal_apart(symbols: &DecimalSymbols) -> bool
    ensures { result ≡ do_separators_differ symbols.now.strings }
{
    let decimal = symbols.decimal_separator();
    !is_same_text(decimal, "") && !is_same_text(decimal, symbols.grouping_separator())
}

// The digits of a table, and that they are ten.
fn ten_digits(table: &[char; 10]) -> &[char]
    ensures value { result.now ≡ table.now }
    ensures ten { length result.now ≡ 10 }
{
    table
}

// A digit, which is a character.
fn character(digit: char) -> char
    ensures value { result ≡ digit }
    ensures scalar { IsScalar digit }
{
    digit
}

// That each digit is a character.
fn are_characters(digits: &[char])
    ensures { AllByRecursion IsScalar digits.now }
{
    for digit in digits {
        let _ = character(*digit); // for the proof
    }
}

/// Says of any tables that they are ten digits, each a character, and six texts, which the laws of reading ask of them.
///
/// Nothing is computed, and nothing is allocated.
pub fn are_tables(tables: &DecimalTables<'_>)
    ensures { AreTables (borrowed_tables tables.now) }
{
    are_characters(ten_digits(tables.digits()));
    let symbols = tables.symbols();
    let _minus_prefix = symbols.minus_sign_prefix(); // for the proof
    let _minus_suffix = symbols.minus_sign_suffix(); // for the proof
    let _plus_prefix = symbols.plus_sign_prefix(); // for the proof
    let _plus_suffix = symbols.plus_sign_suffix(); // for the proof
    let _decimal = symbols.decimal_separator(); // for the proof
    let _grouping = symbols.grouping_separator(); // for the proof
}

/// Whether texts can be read back under the symbols of these tables: in English they can.
///
/// They can where the ten digits differ and are in no affix and no separator, the decimal separator is neither empty
/// nor the grouping separator, and the affixes of a minus sign, of a plus sign and of no sign differ as pairs. Then no
/// two decimals have one text. Does not allocate.
pub fn is_readable(tables: &DecimalTables<'_>) -> bool
    ensures value { result ≡ is_readable_by (borrowed_tables tables.now) }
    ensures tables { AreTables (borrowed_tables tables.now) }
{
    are_tables(tables);
    let table = tables.digits();
    let symbols = tables.symbols();
    do_all_differ(table)
        && (are_texts_clear(table, symbols)
            && (is_decimal_apart(symbols) && do_affixes_differ(symbols)))
}
