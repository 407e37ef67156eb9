//! The arrays of a book as tables.

ghost use Rattle.std.specs.Prelude.{◌≡◌, true, IfOk, IsErrOf, IfErr, OnOk, Some, None, [], map};
ghost use Rattle.indexmap.specs.IndexMap.{hasher_of};
ghost use Rattle.serde_json.specs.Data.{item, no_items};
ghost use Rattle.serde_json.specs.View.{items_view, view};
ghost use Rattle.locale_numbers_tables.specs.Adding.{Adds};
ghost use Rattle.locale_numbers_tables.specs.Faults.{first_fault_after};
ghost use Rattle.locale_numbers_tables.specs.Keys.{table_in};
ghost use Rattle.locale_numbers_tables.specs.Telling.{IsTold};
ghost use Rattle.locale_numbers_tables.specs.Allocation.{begins_with};

use crate::BookError;
use crate::entry::Entry;
use crate::seed::Seed;
use crate::table::{Table, add};
use indexmap::IndexMap;
use serde_json::Value;
use std::alloc::Global;

// Adds what an entry says to a table of that many entries in the end, and lets the entry go.
fn add_entry<V: Entry>(
    alloc: Global,
    table: &mut IndexMap<V::Key, V, Seed>,
    entry: Value,
    count: usize,
) -> Result<(), BookError>
    ensures added { OnOk result
        (Adds V.Key.eq V.meaning V.key_in V.fault_in (view entry) table.old.entries table.new.entries) }
    ensures fault { IfErr result
        (λ fault. IsTold
        (first_fault_after V.Key.eq V.key_in V.fault_in (map (λ pair. pair.0) table.old.entries)
        (item (view entry) no_items)) fault) }
    ensures seeded { OnOk result (hasher_of table.new ≡ hasher_of table.old) }
    ensures grows { OnOk result (V.may_grow (view entry) ≡ true) }
    ensures room { IsErrOf result BookError.Memory → V.may_grow (view entry) ≡ true }
{
    let read = V::read(alloc, &entry);
    drop(entry);
    match read {
        Ok((key, value)) => match add(table, key, value, count) {
            Ok(()) => Ok(()),
            Err(fault) => Err(fault),
        },
        Err(fault) => Err(fault),
    }
}

// Adds what the entries of an array say to an empty table.
fn fill<V: Entry>(
    alloc: Global,
    table: &mut IndexMap<V::Key, V, Seed>,
    entries: Vec<Value>,
) -> Result<(), BookError>
    requires { table.old.entries ≡ [] }
    ensures value { OnOk result (table_in V.Key.eq V.meaning (items_view entries.items) ≡ Some table.new.entries) }
    ensures seeded { OnOk result (hasher_of table.new ≡ hasher_of table.old) }
    ensures sound { OnOk result (first_fault_after V.Key.eq V.key_in V.fault_in [] (items_view entries.items) ≡ None) }
    ensures fault { IfErr result
        (λ fault. IsTold (first_fault_after V.Key.eq V.key_in V.fault_in [] (items_view entries.items)) fault) }
    ensures room { IsErrOf result BookError.Memory → begins_with V.may_grow (items_view entries.items) ≡ true }
{
    let count = entries.len();
    for entry in entries {
        match add_entry(alloc, table, entry, count) {
            Ok(()) => {}
            Err(fault) => return Err(fault),
        }
    }
    Ok(())
}

/// The table that the entries of an array make, hashed by this seed; each entry is dropped once it is read.
pub fn table_of<V: Entry>(
    alloc: Global,
    seed: Seed,
    entries: Vec<Value>,
) -> Result<Table<V::Key, V>, BookError>
    ensures value { IfOk result
        (λ table. table_in V.Key.eq V.meaning (items_view entries.items) ≡ Some table.map.entries) }
    ensures seeded { IfOk result (λ table. hasher_of table.map ≡ seed) }
    ensures sound { OnOk result (first_fault_after V.Key.eq V.key_in V.fault_in [] (items_view entries.items) ≡ None) }
    ensures fault { IfErr result
        (λ fault. IsTold (first_fault_after V.Key.eq V.key_in V.fault_in [] (items_view entries.items)) fault) }

    // A fault of the first entry that is found before anything is allocated is never reported as out of memory.
    ensures room { IsErrOf result BookError.Memory → begins_with V.may_grow (items_view entries.items) ≡ true }
{
    let mut map: IndexMap<V::Key, V, Seed> = IndexMap::with_hasher(alloc, seed);
    match fill(alloc, &mut map, entries) {
        Ok(()) => Ok(Table { map }),
        Err(fault) => Err(fault),
    }
}
