//! Arrays of units as tables.

ghost use Rattle.std.specs.Prelude.{◌≡◌, true, IfOk, IsErrOf, IfErr, IsSome, OnOk, Some, None, [], map};
ghost use Rattle.indexmap.specs.IndexMap.{get, hasher_of};
ghost use Rattle.serde_json.specs.Data.{item, no_items};
ghost use Rattle.serde_json.specs.View.{items_view, view};
ghost use Rattle.locale_numbers_tables.specs.Allocation.{begins_with};
ghost use Rattle.locale_numbers_tables.specs.Keys.{table_in};
ghost use Rattle.locale_numbers_units.specs.Adding.{Adds};
ghost use Rattle.locale_numbers_units.specs.Faults.{first_fault_after, under_key};
ghost use Rattle.locale_numbers_tables.specs.Telling.{IsTold};
ghost use Rattle.locale_numbers_tables.specs.declared.BookError.{BookError};

use crate::array::UnitArray;
use indexmap::IndexMap;
use locale_numbers_tables::{BookError, Seed, Table, add};
use serde_json::Value;
use std::alloc::Global;
use std::hash::Hash;

// What is wrong with an entry of this key that says nothing for that fault: that the key is there already comes first.
fn fault_under<K: Eq + Hash, V>(
    table: &IndexMap<K, V, Seed>,
    key: &K,
    fault: BookError,
) -> BookError
    ensures twice { IsSome (get K.eq table.now key.now) → result ≡ BookError.Duplicate }
    ensures fresh { get K.eq table.now key.now ≡ None → result ≡ fault }
{
    if table.contains_key(key) {
        BookError::Duplicate
    } else {
        fault
    }
}

// Adds what an entry says to a table of that many entries in the end, and lets the entry go.
fn add_entry<A: UnitArray>(
    alloc: Global,
    table: &mut IndexMap<A::Key, A::Said, Seed>,
    entry: Value,
    count: usize,
) -> Result<(), BookError>
    ensures added { OnOk result
        (Adds A.Key.eq A.key_in A.said_in A.fault_in (view entry) table.old.entries table.new.entries) }
    ensures fault { IfErr result
        (λ fault. IsTold
        (first_fault_after A.Key.eq A.key_in A.fault_in (map (λ pair. pair.0) table.old.entries)
        (item (view entry) no_items)) fault) }
    ensures seeded { OnOk result (hasher_of table.new ≡ hasher_of table.old) }
    ensures grows { OnOk result (A.may_grow (view entry) ≡ true) }
    ensures room { IsErrOf result BookError.Memory → A.may_grow (view entry) ≡ true }
{
    match A::read_key(alloc, &entry) {
        Ok(key) => match A::read(alloc, &entry) {
            Ok(said) => match add(table, key, said, count) {
                Ok(()) => Ok(()),
                Err(fault) => Err(fault),
            },
            Err(fault) => Err(fault_under(&*table, &key, fault)),
        },
        Err(fault) => Err(fault),
    }
}

// Adds what the entries of an array say to an empty table.
fn fill<A: UnitArray>(
    alloc: Global,
    table: &mut IndexMap<A::Key, A::Said, Seed>,
    entries: Vec<Value>,
) -> Result<(), BookError>
    requires { table.old.entries ≡ [] }
    ensures value { OnOk result
        (table_in A.Key.eq (under_key A.key_in A.said_in) (items_view entries.items) ≡ Some table.new.entries) }
    ensures seeded { OnOk result (hasher_of table.new ≡ hasher_of table.old) }
    ensures sound { OnOk result (first_fault_after A.Key.eq A.key_in A.fault_in [] (items_view entries.items) ≡ None) }
    ensures fault { IfErr result
        (λ fault. IsTold (first_fault_after A.Key.eq A.key_in A.fault_in [] (items_view entries.items)) fault) }
    ensures room { IsErrOf result BookError.Memory → begins_with A.may_grow (items_view entries.items) ≡ true }
{
    let count = entries.len();
    for entry in entries {
        match add_entry::<A>(alloc, table, entry, count) {
            Ok(()) => {}
            Err(fault) => return Err(fault),
        }
    }
    Ok(())
}

/// The table that the entries of an array of units make, hashed by this seed; each entry is dropped once it is read.
pub fn table_of<A: UnitArray>(
    alloc: Global,
    seed: Seed,
    entries: Vec<Value>,
) -> Result<Table<A::Key, A::Said>, BookError>
    ensures value { IfOk result
        (λ table. table_in A.Key.eq (under_key A.key_in A.said_in) (items_view entries.items) ≡ Some table.map.entries) }
    ensures seeded { IfOk result (λ table. hasher_of table.map ≡ seed) }
    ensures sound { OnOk result (first_fault_after A.Key.eq A.key_in A.fault_in [] (items_view entries.items) ≡ None) }
    ensures fault { IfErr result
        (λ fault. IsTold (first_fault_after A.Key.eq A.key_in A.fault_in [] (items_view entries.items)) fault) }

    // A fault of the first entry that is found before anything is allocated is never reported as out of memory.
    ensures room { IsErrOf result BookError.Memory → begins_with A.may_grow (items_view entries.items) ≡ true }
{
    let mut map: IndexMap<A::Key, A::Said, Seed> = IndexMap::with_hasher(alloc, seed);
    match fill::<A>(alloc, &mut map, entries) {
        Ok(()) => Ok(Table { map }),
        Err(fault) => Err(fault),
    }
}
