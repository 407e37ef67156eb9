//! A guess at the number that a text is: nothing is claimed of it.

ghost use Rattle.std.specs.Prelude.{◌≡◌, true};
ghost use Rattle.icu_decimal_plain.specs.BorrowedTables.{borrowed_tables};
ghost use Rattle.icu_decimal_reading.specs.Readable.{is_readable_by};

use crate::likely_bytes::{Separators, assign_bytes};
use crate::likely_characters::assign_characters;
use fixed_decimal::{Decimal, Sign};
use icu_decimal_plain::DecimalTables;
use icu_decimal_symbols::DecimalSymbols;
use std::alloc::Global;

// Whether a text begins with an affix, and not with an empty one.
fn has_affix(text: &str, affix: &str) -> bool {
    !affix.is_empty() && text.as_bytes().starts_with(affix.as_bytes())
}

// The sign whose prefix is in front.
fn likely_sign(symbols: &DecimalSymbols, text: &str) -> Sign {
    if has_affix(text, symbols.minus_sign_prefix()) {
        return Sign::Negative;
    }
    if has_affix(text, symbols.plus_sign_prefix()) {
        return Sign::Positive;
    }
    Sign::None
}

// What is between the affixes of a sign.
fn between<'t>(symbols: &DecimalSymbols, sign: Sign, text: &'t str) -> Option<&'t [u8]> {
    let (prefix, suffix) = match sign {
        Sign::Negative => (symbols.minus_sign_prefix(), symbols.minus_sign_suffix()),
        Sign::Positive => (symbols.plus_sign_prefix(), symbols.plus_sign_suffix()),
        Sign::None => return None,
    };
    let behind = text.as_bytes().strip_prefix(prefix.as_bytes())?;
    behind.strip_suffix(suffix.as_bytes())
}

// Makes a number the one that a text with a sign most likely is.
#[inline(never)]
fn assign_signed(
    alloc: Global,
    number: &mut Decimal,
    symbols: &DecimalSymbols,
    separators: Separators,
    text: &str,
) -> bool {
    let sign = likely_sign(symbols, text);
    let Some(inside) = between(symbols, sign, text) else {
        return false;
    };
    let found = assign_bytes(alloc, number, inside, separators);
    number.set_sign(sign);
    found
}

// Makes a number the one that a text with separators of one byte each most likely is.
fn assign_with(
    alloc: Global,
    number: &mut Decimal,
    symbols: &DecimalSymbols,
    separators: Separators,
    text: &str,
) -> bool {
    let bytes = text.as_bytes();
    match bytes.first() {
        Some(first) if first.is_ascii_digit() => assign_bytes(alloc, number, bytes, separators),
        _ => assign_signed(alloc, number, symbols, separators, text),
    }
}

// The separators of tables whose digits are `0` to `9` in groups of three, where each separator is one byte.
fn separators_in(tables: &DecimalTables<'_>) -> Option<Separators> {
    let symbols = tables.symbols();
    let sizes = symbols.grouping_sizes;
    if tables.digits()[0] != '0' || sizes.primary != 3 || sizes.secondary != 3 {
        return None;
    }
    let group = symbols.grouping_separator().as_bytes();
    let point = symbols.decimal_separator().as_bytes();
    if group.len() != 1 || point.len() != 1 {
        return None;
    }
    Some(Separators {
        group: group[0],
        point: point[0],
    })
}

// Makes a number the one that a text most likely is, and returns whether there is one. The digits are those of the
// table, and what begins as the decimal separator is the point; the sign is that whose prefix is in front.
#[tactic(auto, using(crate::proofs::ReadingLemmas::digits_differ))]
pub(crate) fn assign_likely(
    alloc: Global,
    number: &mut Decimal,
    tables: &DecimalTables<'_>,
    text: &str,
) -> bool
    requires { is_readable_by (borrowed_tables tables.now) ≡ true }
{
    let symbols = tables.symbols();
    if let Some(separators) = separators_in(tables) {
        return assign_with(alloc, number, symbols, separators, text);
    }
    let Some(point) = symbols.decimal_separator().chars().next() else {
        return false;
    };
    let found = assign_characters(alloc, number, tables.digits(), point, text);
    number.set_sign(likely_sign(symbols, text));
    found
}
