//! Arrays of words, added to tables.

ghost use Rattle.std.specs.Prelude.{◌≡◌, IfErr, IfOk, IsErrOf, None, OnOk, Some, true};
ghost use Rattle.serde_json.specs.View.{items_view, view};
ghost use Rattle.locale_numbers_tables.specs.Allocation.{begins_with};
ghost use Rattle.locale_numbers_tables.specs.Keys.{table_at};
ghost use Rattle.locale_numbers_words.specs.Faults.{IsTold, agrees, first_fault_after, found_of, said_fault, table_after, under, with_said};

use crate::entry::WordArray;
use crate::error::WordsError;
use indexmap::IndexMap;
use locale_numbers_tables::{Seed, add};
use serde_json::Value;
use std::alloc::Global;

// Puts what is said under a key that is not there.
fn put_new<A: WordArray>(
    table: &mut IndexMap<A::Key, A::Said, Seed>,
    key: A::Key,
    said: Option<A::Said>,
    count: usize,
) -> Result<(), WordsError>
    requires { table_at A.Key.eq key table.old.entries ≡ None }
    ensures added { OnOk result
        (table.new.entries ≡ with_said A.Key.eq table.old.entries (Some key) said) }
    ensures sound { OnOk result (said_fault A.same_said A.late None said ≡ None) }
    ensures fault { IfErr result (λ fault. IsTold (said_fault A.same_said A.late None said) fault) }
{
    match said {
        Some(said) => match add(table, key, said, count) {
            Ok(()) => Ok(()),
            Err(_) => Err(WordsError::Memory),
        },
        None => Err(A::late()),
    }
}

// Whether what is said is what was said earlier.
fn agrees<A: WordArray>(earlier: &A::Said, said: &Option<A::Said>) -> bool
    ensures { result ≡ agrees A.same_said (Some earlier.now) said.now }
{
    match said {
        Some(said) => A::is_same(earlier, said),
        None => false,
    }
}

// What a table has for what is said under a key: nothing, the same, or something else.
enum Found {
    Nothing,
    Same,
    Other,
}

fn find<A: WordArray>(
    table: &IndexMap<A::Key, A::Said, Seed>,
    key: &A::Key,
    said: &Option<A::Said>,
) -> Found
    ensures { result ≡ found_of A.same_said (table_at A.Key.eq key.now table.now.entries) said.now }
{
    match table.get(key) {
        Some(earlier) => {
            if agrees::<A>(earlier, said) {
                Found::Same
            } else {
                Found::Other
            }
        }
        None => Found::Nothing,
    }
}

// Puts what is said under a key, where the key is new.
fn put<A: WordArray>(
    table: &mut IndexMap<A::Key, A::Said, Seed>,
    key: A::Key,
    said: Option<A::Said>,
    count: usize,
) -> Result<(), WordsError>
    ensures added { OnOk result
        (table.new.entries ≡ with_said A.Key.eq table.old.entries (Some key) said) }
    ensures sound { OnOk result
        (said_fault A.same_said A.late (table_at A.Key.eq key table.old.entries) said ≡ None) }
    ensures fault { IfErr result
        (λ fault. IsTold (said_fault A.same_said A.late (table_at A.Key.eq key table.old.entries) said) fault) }
{
    match find::<A>(&*table, &key, &said) {
        Found::Nothing => put_new::<A>(table, key, said, count),
        Found::Same => Ok(()),
        Found::Other => Err(WordsError::Duplicate),
    }
}

// Adds what an entry says to a table of that many entries at most in the end, and lets the entry go.
fn add_entry<A: WordArray>(
    alloc: Global,
    seed: Seed,
    table: &mut IndexMap<A::Key, A::Said, Seed>,
    entry: Value,
    count: usize,
) -> Result<(), WordsError>
    ensures added { OnOk result
        (table.new.entries ≡ with_said A.Key.eq table.old.entries (A.key_in (view entry)) (A.said_in (view entry))) }
    ensures sound { OnOk result
        (A.fault_in (under A.Key.eq table.old.entries (A.key_in (view entry))) (view entry) ≡ None) }
    ensures fault { IfErr result
        (λ fault. IsTold (A.fault_in (under A.Key.eq table.old.entries (A.key_in (view entry))) (view entry)) fault) }
    ensures grows { OnOk result (A.may_grow (view entry) ≡ true) }
    ensures room { IsErrOf result WordsError.Memory → A.may_grow (view entry) ≡ true }
{
    let read = A::read(alloc, seed, &entry);
    drop(entry);
    match read {
        Ok((key, said)) => put::<A>(table, key, said, count),
        Err(fault) => Err(fault),
    }
}

// Adds what the entries of an array say to a table; each entry is dropped once it is read.
pub(crate) fn fill<A: WordArray>(
    alloc: Global,
    seed: Seed,
    table: &mut IndexMap<A::Key, A::Said, Seed>,
    entries: Vec<Value>,
) -> Result<(), WordsError>
    ensures value { OnOk result
        (table.new.entries
        ≡ table_after A.Key.eq A.key_in A.said_in table.old.entries (items_view entries.items)) }
    ensures sound { OnOk result
        (first_fault_after A.Key.eq A.key_in A.said_in A.fault_in table.old.entries (items_view entries.items)
        ≡ None) }
    ensures fault { IfErr result
        (λ fault. IsTold
        (first_fault_after A.Key.eq A.key_in A.said_in A.fault_in table.old.entries (items_view entries.items))
        fault) }

    // A fault of the first entry that is found before anything is allocated is never reported as out of memory.
    ensures room { IsErrOf result WordsError.Memory → begins_with A.may_grow (items_view entries.items) ≡ true }
{
    let count = table.len().saturating_add(entries.len());
    for entry in entries {
        match add_entry::<A>(alloc, seed, table, entry, count) {
            Ok(()) => {}
            Err(fault) => return Err(fault),
        }
    }
    Ok(())
}
