//! The tables of one locale, as a row spells them.

use crate::refusals::made;
use icu_decimal::pattern::Pattern;
use icu_decimal::plurals::{PluralElements, PluralRules};
use icu_decimal::provider::{
    CompactPatterns, DataError, DataIdentifier, DataProvider, DecimalCompactLongV1,
    DecimalCompactShortV1, DecimalDigitsV1, DecimalSymbols, DecimalSymbolsV1, ParentProvider,
    PluralsCardinalV1,
};
use icu_locale_core::DataLocale;
use rows::{Stop, filled, number_of};
use serde_json::Value;
use std::alloc::{AllocError, Global};
use std::collections::BTreeMap;

/// The digits of each row.
pub const LATIN: [char; 10] = ['0', '1', '2', '3', '4', '5', '6', '7', '8', '9'];

/// A provider that returns the borrowed tables of one locale for each identifier.
#[derive(Clone, Copy)]
pub struct OneLocale<'t> {
    pub symbols: &'t DecimalSymbols,
    pub digits: [char; 10],
    pub rules: &'t PluralRules,
    pub patterns: &'t CompactPatterns,
}

// No locale has a parent.
impl ParentProvider for OneLocale<'_> {
    fn parent(&self, _locale: &DataLocale) -> Option<DataLocale> {
        None
    }

    fn chain_limit(&self) -> u128 {
        0
    }
}

impl DataProvider<DecimalSymbolsV1> for OneLocale<'_> {
    ghost use Rattle.std.specs.Prelude.{Ok};

    ghost table = { λ one id. Ok one.symbols.now };

    fn load(&self, id: &DataIdentifier) -> Result<&DecimalSymbols, DataError> {
        Ok(self.symbols)
    }
}

impl DataProvider<DecimalDigitsV1> for OneLocale<'_> {
    ghost use Rattle.std.specs.Prelude.{Ok};

    ghost table = { λ one id. Ok one.digits };

    fn load(&self, id: &DataIdentifier) -> Result<&[char; 10], DataError> {
        Ok(&self.digits)
    }
}

impl DataProvider<PluralsCardinalV1> for OneLocale<'_> {
    ghost use Rattle.std.specs.Prelude.{Ok};

    ghost table = { λ one id. Ok one.rules.now };

    fn load(&self, id: &DataIdentifier) -> Result<&PluralRules, DataError> {
        Ok(self.rules)
    }
}

impl DataProvider<DecimalCompactShortV1> for OneLocale<'_> {
    ghost use Rattle.std.specs.Prelude.{Ok};

    ghost table = { λ one id. Ok one.patterns.now };

    fn load(&self, id: &DataIdentifier) -> Result<&CompactPatterns, DataError> {
        Ok(self.patterns)
    }
}

impl DataProvider<DecimalCompactLongV1> for OneLocale<'_> {
    ghost use Rattle.std.specs.Prelude.{Ok};

    ghost table = { λ one id. Ok one.patterns.now };

    fn load(&self, id: &DataIdentifier) -> Result<&CompactPatterns, DataError> {
        Ok(self.patterns)
    }
}

/// The value of a JSON text.
pub fn value_of(alloc: Global, text: &str) -> Result<Value, Stop> {
    match Value::from_str(alloc, text) {
        Ok(value) => Ok(value),
        Err(fault) => if fault.is_memory() {
            Err(Stop::Memory)
        } else {
            Err(Stop::Unknown)
        },
    }
}

/// The patterns of a JSON text of slots.
pub fn elements_of(slots: &str, out: &mut String) -> Result<PluralElements<Pattern>, Stop> {
    let alloc = *out.allocator();
    let slots = value_of(alloc, slots)?;
    let elements = PluralElements::from_json(alloc, &slots);
    drop(slots);
    made(elements, out)
}

// The types of a table, each with its exponent and its patterns.
type Types = BTreeMap<u8, (u8, PluralElements<Pattern>)>;

// Puts a type with its exponent and its patterns to the others.
fn put(
    types: &mut Types,
    log10_type: u8,
    exponent: u8,
    patterns: PluralElements<Pattern>,
) -> Result<(), AllocError> {
    let old = types.insert(log10_type, (exponent, patterns));
    let is_put = old.is_ok();
    drop(old);
    if is_put { Ok(()) } else { Err(AllocError) }
}

// The type, the exponent and the slots of a part of a table.
fn part_of(part: &str) -> Result<(u8, u8, &str), Stop> {
    let Some((kind, behind)) = part.split_once(':') else {
        return Err(Stop::Unknown);
    };
    let Some((exponent, slots)) = behind.split_once(':') else {
        return Err(Stop::Unknown);
    };
    Ok((number_of(kind)?, number_of(exponent)?, slots))
}

// Puts the type of a part to the others.
fn put_part(types: &mut Types, part: &str, out: &mut String) -> Result<(), Stop> {
    let (log10_type, exponent, slots) = part_of(part)?;
    let patterns = elements_of(slots, out)?;
    Ok(put(types, log10_type, exponent, patterns)?)
}

// Puts the types of a text to the others.
fn put_all(types: &mut Types, text: &str, out: &mut String) -> Result<(), Stop> {
    if text.is_empty() {
        return Ok(());
    }
    for part in text.split(';') {
        put_part(types, part, out)?;
    }
    Ok(())
}

// The types of a text, each with its exponent and its patterns.
fn types_of(text: &str, out: &mut String) -> Result<Types, Stop> {
    let mut types = BTreeMap::new(*out.allocator());
    let put = put_all(&mut types, text, out);
    filled(types, put)
}

/// The table of a text: parts with semicolons between, each a type, an exponent and slots in JSON, with colons between;
/// `zero` are the patterns of smaller numbers. The words of a refusal are the answer.
pub fn table_of(
    text: &str,
    zero: Option<&PluralElements<Pattern>>,
    out: &mut String,
) -> Result<CompactPatterns, Stop> {
    let types = types_of(text, out)?;
    let table = CompactPatterns::new(*out.allocator(), types, zero);
    made(table, out)
}

/// Writes the types and the exponents of a table, with semicolons between.
pub fn put_listed(out: &mut String, table: &CompactPatterns) -> Result<(), Stop> {
    for entry in table.entries() {
        if !out.is_empty() {
            out.push(';')?;
        }
        write!(out, "{}:{}", entry.log10_type, entry.exponent)?;
    }
    Ok(())
}

// Writes the types and the exponents that the table of a text keeps.
fn put_kept_over(
    zero: Option<&PluralElements<Pattern>>,
    table: &str,
    out: &mut String,
) -> Result<(), Stop> {
    let table = table_of(table, zero, out)?;
    let put = put_listed(out, &table);
    drop(table);
    put
}

// Writes the types and the exponents that a table keeps, where `zero` are the slots of smaller numbers, or empty.
fn put_kept(zero: &str, table: &str, out: &mut String) -> Result<(), Stop> {
    if zero.is_empty() {
        return put_kept_over(None, table, out);
    }
    let zero = elements_of(zero, out)?;
    let put = put_kept_over(Some(&zero), table, out);
    drop(zero);
    put
}

/// The answer of a call of tables.
pub fn answer(passed: &[&str], out: &mut String) -> Result<(), Stop> {
    match passed {
        [zero, table] => put_kept(zero, table, out),
        _ => Err(Stop::Unknown),
    }
}
