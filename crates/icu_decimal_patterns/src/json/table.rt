//! Tables from JSON.

ghost use Rattle.std.specs.Prelude.{◌≡◌, ◌≢◌, ◌↔◌, [], IfErr, IfOk, IsErrOf, IsSomeAnd, None, OnErr, OnOk, map, true};
ghost use Rattle.std.specs.BTreeMap.{insert_entry};
ghost use Rattle.std.specs.Ordering.{nat_cmp};
ghost use Rattle.serde_json.specs.View.{view};
ghost use Rattle.icu_decimal_patterns.specs.KeptEntries.{IsFaulty, IsTable, IsTableFault, MakesEntries, NeverFalls, of_type};
ghost use Rattle.icu_decimal_patterns.specs.TableJson.{IsTableJsonFault, SaysTable, rise_from, types_of};
ghost use Rattle.icu_decimal_patterns.specs.TableSteps.{known_types};
ghost use Rattle.icu_decimal_symbols.specs.declared.error.DataError.{DataError};

use super::types::{first_fault, never_falls, rows_of, type_in};
use crate::borrowed::owned_elements;
use crate::compact_patterns::CompactPatterns;
use crate::kept::GivenTypes;
use icu_decimal_symbols::error::DataError;
use serde_json::Value;
use std::alloc::{AllocError, Global};
use std::collections::BTreeMap;

// Puts a type into a map.
fn put<V: Drop>(types: &mut BTreeMap<u8, V>, log10_type: u8, typed: V) -> Result<(), AllocError>
    ensures { OnOk result (types.new.entries ≡ insert_entry nat_cmp types.old.entries log10_type typed) }
{
    match types.insert(log10_type, typed) {
        Ok(_) => Ok(()),
        Err(_) => Err(AllocError),
    }
}

// The types of rows, with texts of their own.
fn owned_types(alloc: Global, rows: &[Value]) -> Result<GivenTypes, AllocError>
    requires { rise_from 0 (known_types (map view rows.now)) ≡ true }
    ensures value { IfOk result (λ types. map of_type types.entries ≡ known_types (map view rows.now)) }
    ensures room { OnErr result (known_types (map view rows.now) ≢ []) }
{
    let mut types = BTreeMap::new(alloc);
    for row in rows {
        let Some((log10_type, (exponent, patterns))) = type_in(row) else {
            continue;
        };
        let patterns = owned_elements(alloc, &patterns)?;
        put(&mut types, log10_type, (exponent, patterns))?;
    }
    Ok(types)
}

// The table of rows.
fn table_of(alloc: Global, rows: &[Value]) -> Result<CompactPatterns, DataError>
    requires { rise_from 0 (known_types (map view rows.now)) ≡ true }
    ensures decreasing { IsErrOf result DataError.Decreasing ↔ ¬ (NeverFalls 0 (known_types (map view rows.now))) }
    ensures above { IsErrOf result DataError.AboveType
        ↔ IsFaulty None (known_types (map view rows.now)) DataError.AboveType }
    ensures zeros { IsErrOf result DataError.TooManyZeros
        ↔ IsFaulty None (known_types (map view rows.now)) DataError.TooManyZeros }
    ensures only { IfErr result IsTableFault }
    ensures value { IfOk result (λ table. IsTable None (known_types (map view rows.now)) table) }
    ensures room { IsErrOf result DataError.Memory → MakesEntries None (known_types (map view rows.now)) }
{
    if !never_falls(rows) {
        return Err(DataError::Decreasing);
    }
    if let Some(fault) = first_fault(rows) {
        return Err(fault);
    }
    match owned_types(alloc, rows) {
        Ok(types) => CompactPatterns::new(alloc, types, None),
        Err(_) => Err(DataError::Memory),
    }
}

impl CompactPatterns {
    /// The table that a JSON value says, made as by `new` without patterns of smaller numbers: an array of an array of
    /// a type, its exponent and its slots each, where the numbers are 0 to 255 and the types rise strictly.
    /// `[[3,3,[["other",["","K"]]]],[6,6,[["other",["","M"]]]]]` is the short table of `en` in the sample book.
    ///
    /// Refused, in this order: Custom, where the value has another form, or a type is not above the one before it;
    /// Decreasing, AboveType and TooManyZeros where `new` refuses the types so; Memory: out of memory. It does not
    /// allocate for an array without items, nor where another error is returned.
    pub fn from_json(alloc: Global, value: &Value) -> Result<Self, DataError>
        ensures custom { IsErrOf result DataError.Custom ↔ (types_of (view value.now) ≡ None) }
        ensures decreasing { IsErrOf result DataError.Decreasing
            ↔ IsSomeAnd (types_of (view value.now)) (λ given. ¬ (NeverFalls 0 given)) }
        ensures above { IsErrOf result DataError.AboveType
            ↔ IsSomeAnd (types_of (view value.now)) (λ given. IsFaulty None given DataError.AboveType) }
        ensures zeros { IsErrOf result DataError.TooManyZeros
            ↔ IsSomeAnd (types_of (view value.now)) (λ given. IsFaulty None given DataError.TooManyZeros) }
        ensures only { IfErr result IsTableJsonFault }
        ensures value { IfOk result (SaysTable (view value.now)) }
        ensures room { IsErrOf result DataError.Memory
            → IsSomeAnd (types_of (view value.now)) (λ given. MakesEntries None given) }
    {
        match rows_of(value) {
            Some(rows) => table_of(alloc, rows),
            None => Err(DataError::Custom),
        }
    }
}
