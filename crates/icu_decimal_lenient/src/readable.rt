//! Which symbols are readable, and stay so once they are folded.

ghost use Rattle.std.specs.Prelude.{◌≡◌, true, [], length, is_none};
ghost use Rattle.std.specs.List.{list_all};
ghost use Rattle.std.specs.Str.{bytes_eq, chars};
ghost use Rattle.icu_decimal_symbols.specs.declared.options.GroupingStrategy.TheVariants.{Never};
ghost use Rattle.icu_decimal_plain.specs.BorrowedTables.{borrowed_tables};
ghost use Rattle.icu_decimal_reading.specs.Readable.{all_differ, are_clear, digit_of, do_separators_differ, do_signs_differ, has_no_digit, is_readable_by, is_same_pair};
ghost use Rattle.icu_decimal_reading.specs.ReadingLaws.{AreTables};
ghost use Rattle.icu_decimal_lenient.specs.Folding.{folded_chars, folded_strings, folded_symbols, folded_text, plain_digits};
ghost use Rattle.icu_decimal_lenient.specs.LenientReading.{is_leniently_readable_by, with_folded};

use crate::filling::digits;
use crate::folding::split_folded;
use icu_decimal_plain::DecimalTables;
use icu_decimal_reading::digits::is_digit;
use icu_decimal_reading::{are_tables, is_readable};
use icu_decimal_symbols::DecimalSymbols;

// Whether no character of a text is a digit of ASCII once it is folded.
#[tactic(auto, using(crate::proofs::ReadableLemmas::lacks_not, crate::proofs::ReadableLemmas::lacks_more, crate::proofs::ReadableLemmas::lacks_end))]
fn lacks_digit(table: &[char; 10], text: &str) -> bool
    requires { all_differ table.now ≡ true }
    ensures { result
        ≡ list_all (λ d. is_none (digit_of plain_digits d)) (folded_chars table.now (chars text.now)) }
{
    let mut left = text;
    while let Some((character, rest)) = split_folded(table, left) {
        if is_digit(digits(), character) {
            return false;
        }
        left = rest;
    }
    true
}

// Whether a text has no digit of ASCII once it is folded.
fn folds_clear(table: &[char; 10], text: &str) -> bool
    requires differ { all_differ table.now ≡ true }
    requires ten { length table.now ≡ 10 }
    ensures { result ≡ has_no_digit plain_digits (folded_text table.now text.now) }
{
    lacks_digit(table, text)
}

// Whether two texts have the same characters once they are folded.
#[tactic(auto, using(crate::proofs::ReadableLemmas::alike_more, crate::proofs::ReadableLemmas::alike_apart, crate::proofs::ReadableLemmas::alike_short, crate::proofs::ReadableLemmas::alike_long, crate::proofs::ReadableLemmas::alike_end))]
fn fold_alike(table: &[char; 10], one: &str, other: &str) -> bool
    requires { all_differ table.now ≡ true }
    ensures { result ≡ bytes_eq (folded_chars table.now (chars one.now)) (folded_chars table.now (chars other.now)) }
{
    let mut left = one;
    let mut right = other;
    while let Some((character, rest)) = split_folded(table, left) {
        let Some((found, more)) = split_folded(table, right) else {
            return false;
        };
        if found != character {
            return false;
        }
        left = rest;
        right = more;
    }
    match split_folded(table, right) {
        Some(_) => false,
        None => true,
    }
}

// Whether two texts are one once they are folded.
fn fold_to_one(table: &[char; 10], one: &str, other: &str) -> bool
    requires { all_differ table.now ≡ true }
    ensures { result ≡ bytes_eq (folded_text table.now one.now) (folded_text table.now other.now) }
{
    fold_alike(table, one, other)
}

// Whether nothing is left of a text once it is folded.
#[tactic(auto, using(crate::proofs::ReadableLemmas::some_left, crate::proofs::ReadableLemmas::none_left))]
fn folds_to_nothing(table: &[char; 10], text: &str) -> bool
    requires { all_differ table.now ≡ true }
    ensures { result ≡ bytes_eq (folded_text table.now text.now) [] }
{
    match split_folded(table, text) {
        Some(_) => false,
        None => true,
    }
}

// Whether no digit is in the folded affixes and in the folded separators.
fn are_folds_clear(table: &[char; 10], symbols: &DecimalSymbols) -> bool
    requires differ { all_differ table.now ≡ true }
    requires ten { length table.now ≡ 10 }
    ensures { result ≡ are_clear plain_digits (folded_strings table.now symbols.now.strings) }
{
    folds_clear(table, symbols.minus_sign_prefix())
        && (folds_clear(table, symbols.minus_sign_suffix())
            && (folds_clear(table, symbols.plus_sign_prefix())
                && (folds_clear(table, symbols.plus_sign_suffix())
                    && (folds_clear(table, symbols.decimal_separator())
                        && folds_clear(table, symbols.grouping_separator())))))
}

// Whether the folded affixes of a sign are both empty.
fn fold_to_no_pair(table: &[char; 10], prefix: &str, suffix: &str) -> bool
    requires { all_differ table.now ≡ true }
    ensures { result ≡ is_same_pair (folded_text table.now prefix.now) (folded_text table.now suffix.now) [] [] }
{
    folds_to_nothing(table, prefix) && folds_to_nothing(table, suffix)
}

// Whether the affixes of minus and plus are one pair once they are folded.
fn do_signs_fold_to_one(table: &[char; 10], symbols: &DecimalSymbols) -> bool
    requires { all_differ table.now ≡ true }
    ensures { result ≡ is_same_pair (folded_text table.now symbols.now.strings.minus_sign_prefix)
        (folded_text table.now symbols.now.strings.minus_sign_suffix)
        (folded_text table.now symbols.now.strings.plus_sign_prefix)
        (folded_text table.now symbols.now.strings.plus_sign_suffix) }
{
    fold_to_one(
        table,
        symbols.minus_sign_prefix(),
        symbols.plus_sign_prefix(),
    ) && fold_to_one(
        table,
        symbols.minus_sign_suffix(),
        symbols.plus_sign_suffix(),
    )
}

// Whether the folded affixes of both signs and of none differ.
fn do_folds_differ(table: &[char; 10], symbols: &DecimalSymbols) -> bool
    requires { all_differ table.now ≡ true }
    ensures { result ≡ do_signs_differ (folded_strings table.now symbols.now.strings) }
{
    !fold_to_no_pair(
        table,
        symbols.minus_sign_prefix(),
        symbols.minus_sign_suffix(),
    ) && (!fold_to_no_pair(
        table,
        symbols.plus_sign_prefix(),
        symbols.plus_sign_suffix(),
    ) && !do_signs_fold_to_one(table, symbols))
}

// Whether the folded decimal separator is there, and is no folded grouping separator.
fn is_fold_apart(table: &[char; 10], symbols: &DecimalSymbols) -> bool
    requires { all_differ table.now ≡ true }
    ensures { result ≡ do_separators_differ (folded_strings table.now symbols.now.strings) }
{
    let decimal = symbols.decimal_separator();
    !folds_to_nothing(table, decimal) && !fold_to_one(table, decimal, symbols.grouping_separator())
}

// Whether the folded symbols are readable, of tables whose symbols are.
#[tactic(auto, using(icu_decimal_reading::proofs::ReadingLemmas::digits_differ))]
fn are_folds_readable(tables: &DecimalTables<'_>) -> bool
    requires readable { is_readable_by (borrowed_tables tables.now) ≡ true }
    requires tables { AreTables (borrowed_tables tables.now) }
    ensures { result ≡ is_readable_by (with_folded Never (folded_symbols (borrowed_tables tables.now))) }
{
    let table = tables.digits();
    let symbols = tables.symbols();
    are_folds_clear(table, symbols)
        && (is_fold_apart(table, symbols) && do_folds_differ(table, symbols))
}

/// Whether what people type can be read with the symbols of these tables: in English it can.
///
/// It can where `is_readable` of `icu_decimal_reading` is true of the symbols as they are, and of the folded ones with
/// the digits `0` to `9`: so not where the decimal separator is `,` and the grouping separator U+FF0C, which folds to
/// `,`. Of each locale of CLDR 48 it can. Does not allocate.
pub fn is_leniently_readable(tables: &DecimalTables<'_>) -> bool
    ensures { result ≡ is_leniently_readable_by (borrowed_tables tables.now) }
{
    are_tables(tables);
    is_readable(tables) && are_folds_readable(tables)
}
