//! Characters that count as one: texts and symbols, folded.

ghost use Rattle.std.specs.Prelude.{◌≡◌, ◌+◌, ◌++◌, ◌≤◌, ◌<◌, true, [], ◌∷◌, length, IfOk, IfNone, IfSome, OnOk, encode_utf8, string_bytes};
ghost use Rattle.std.specs.Str.{chars, encode_utf8_all};
ghost use Rattle.icu_decimal_plain.specs.BorrowedTables.{borrowed_tables};
ghost use Rattle.icu_decimal_lenient.specs.Folding.{fold_mark, fold_of, folded_chars, folded_symbols, folded_text, is_apostrophe, is_between, is_comma, is_direction, is_minus, is_plus, is_point, is_space, plain_of};
ghost use Rattle.icu_decimal_reading.specs.Readable.{all_differ};

use icu_decimal_plain::DecimalTables;
use icu_decimal_reading::digits::{digit_in, split_character};
use icu_decimal_symbols::{DecimalSymbolStrsBuilder, DecimalSymbols, GroupingSizes};
use std::alloc::{AllocError, Global};

// Whether a code point is from one to another.
fn lies(low: u32, high: u32, code: u32) -> bool
    ensures { result ≡ is_between low high code }
{
    low <= code && code <= high
}

// Marks of direction.
fn has_direction(code: u32) -> bool
    ensures { result ≡ is_direction code }
{
    code == 0x061C
        || lies(0x200E, 0x200F, code)
        || lies(0x202A, 0x202E, code)
        || lies(0x2066, 0x2069, code)
}

// What counts as `-`, outside ASCII.
fn reads_minus(code: u32) -> bool
    ensures { result ≡ is_minus code }
{
    lies(0x2010, 0x2013, code)
        || code == 0x207B
        || code == 0x208B
        || code == 0x2212
        || code == 0x2796
        || code == 0xFE63
        || code == 0xFF0D
}

// What counts as `+`.
fn reads_plus(code: u32) -> bool
    ensures { result ≡ is_plus code }
{
    code == 0x207A
        || code == 0x208A
        || code == 0x2795
        || code == 0xFB29
        || code == 0xFE62
        || code == 0xFF0B
}

// What counts as `'`.
fn reads_apostrophe(code: u32) -> bool
    ensures { result ≡ is_apostrophe code }
{
    lies(0x2018, 0x2019, code) || code == 0x02BC || code == 0xFF07
}

// What counts as a space.
fn reads_space(code: u32) -> bool
    ensures { result ≡ is_space code }
{
    code == 0x00A0
        || code == 0x1680
        || lies(0x2000, 0x200A, code)
        || code == 0x202F
        || code == 0x205F
        || code == 0x3000
}

// What counts as `.`.
fn reads_point(code: u32) -> bool
    ensures { result ≡ is_point code }
{
    code == 0x2024 || code == 0xFE52 || code == 0xFF0E
}

// What counts as `,`.
fn reads_comma(code: u32) -> bool
    ensures { result ≡ is_comma code }
{
    code == 0xFE50 || code == 0xFF0C
}

// The digit of ASCII with this value.
fn plain_digit(digit: u8) -> char
    requires { digit ≤ 9 }
    ensures { result ≡ digit + 48 }
{
    (digit + 48) as char
}

// The ASCII character that one outside ASCII counts as, or itself.
fn plain_character(character: char) -> char
    ensures { result ≡ plain_of character }
{
    let code = character as u32;
    if reads_minus(code) {
        '-'
    } else if reads_plus(code) {
        '+'
    } else if reads_apostrophe(code) {
        '\''
    } else if reads_space(code) {
        ' '
    } else if reads_point(code) {
        '.'
    } else if reads_comma(code) {
        ','
    } else if lies(0xFF10, 0xFF19, code) {
        plain_digit((code - 0xFF10) as u8)
    } else {
        character
    }
}

// What a character counts as that is no digit of the table; nothing for a mark of direction.
fn fold_other(character: char) -> Option<char>
    ensures { result ≡ fold_mark character }
{
    if character as u32 <= 0x7F {
        return Some(character);
    }
    if has_direction(character as u32) {
        return None;
    }
    Some(plain_character(character))
}

// What a character counts as; nothing for a mark of direction.
#[tactic(auto, using(crate::proofs::FoldStepLemmas::digit_folds, crate::proofs::FoldStepLemmas::other_folds))]
fn fold_character(table: &[char; 10], character: char) -> Option<char>
    requires { all_differ table.now ≡ true }
    ensures { result ≡ fold_of table.now character }
{
    match digit_in(table, character) {
        Some(digit) => Some(plain_digit(digit)),
        None => fold_other(character),
    }
}

// The first character of a text once it is folded, and what follows it in the text.
#[tactic(auto, using(crate::proofs::FoldStepLemmas::split_here, crate::proofs::FoldStepLemmas::split_more, crate::proofs::FoldStepLemmas::split_end))]
pub(crate) fn split_folded<'t>(table: &[char; 10], text: &'t str) -> Option<(char, &'t str)>
    requires { all_differ table.now ≡ true }
    ensures some { IfSome result
        (λ r. folded_chars table.now (chars text.now) ≡ r.0 ∷ folded_chars table.now (chars r.1.now)) }
    ensures less { IfSome result (λ r. length r.1.now < length text.now) }
    ensures none { IfNone result (folded_chars table.now (chars text.now) ≡ []) }
{
    let mut left = text;
    while let Some((character, rest)) = split_character(left) {
        if let Some(folded) = fold_character(table, character) {
            return Some((folded, rest));
        }
        left = rest;
    }
    None
}

// Puts a character after a text.
pub(crate) fn put(out: &mut String, character: char) -> Result<(), AllocError>
    ensures { OnOk result (string_bytes out.new ≡ string_bytes out.old ++ encode_utf8 character) }
{
    out.push(character)
}

// Puts a text, folded, after another.
#[tactic(auto, using(crate::proofs::FoldStepLemmas::fold_more, crate::proofs::FoldStepLemmas::fold_end))]
fn put_folded(out: &mut String, table: &[char; 10], text: &str) -> Result<(), AllocError>
    requires { all_differ table.now ≡ true }
    ensures { OnOk result (string_bytes out.new ≡ string_bytes out.old ++ folded_text table.now text.now) }
{
    let mut left = text;
    while let Some((character, rest)) = split_folded(table, left) {
        put(out, character)?;
        left = rest;
    }
    Ok(())
}

/// A text, folded by a table of digits.
pub(crate) fn fold_text(alloc: Global, table: &[char; 10], text: &str) -> Result<String, AllocError>
    requires { all_differ table.now ≡ true }
    ensures { IfOk result (λ folded. string_bytes folded ≡ folded_text table.now text.now) }
{
    let mut folded = String::with_capacity(alloc, text.len())?;
    put_folded(&mut folded, table, text)?;
    Ok(folded)
}

/// The symbols that folded texts are read with.
pub(crate) fn fold_symbols(
    alloc: Global,
    tables: &DecimalTables<'_>,
) -> Result<DecimalSymbols, AllocError>
    requires { all_differ (borrowed_tables tables.now).digits ≡ true }
    ensures { IfOk result (λ symbols. symbols ≡ folded_symbols (borrowed_tables tables.now)) }
{
    let table = tables.digits();
    let symbols = tables.symbols();
    let minus_sign_prefix = fold_text(alloc, table, symbols.minus_sign_prefix())?;
    let minus_sign_suffix = fold_text(alloc, table, symbols.minus_sign_suffix())?;
    let plus_sign_prefix = fold_text(alloc, table, symbols.plus_sign_prefix())?;
    let plus_sign_suffix = fold_text(alloc, table, symbols.plus_sign_suffix())?;
    let decimal_separator = fold_text(alloc, table, symbols.decimal_separator())?;
    let grouping_separator = fold_text(alloc, table, symbols.grouping_separator())?;
    let texts = DecimalSymbolStrsBuilder {
        minus_sign_prefix,
        minus_sign_suffix,
        plus_sign_prefix,
        plus_sign_suffix,
        decimal_separator,
        grouping_separator,
        numsys: symbols.system(),
    };
    Ok(DecimalSymbols {
        strings: texts.build(),
        grouping_sizes: GroupingSizes {
            min_grouping: 1,
            ..symbols.grouping_sizes
        },
    })
}
