//! A table that has no key twice.

ghost use Rattle.std.specs.Prelude.{◌≡◌, ◌⊎◌, ◌++◌, [], ◌∷◌, None, IsSome, OnOk, IsErrOf, IfErr};
ghost use Rattle.indexmap.specs.IndexMap.{get, hasher_of};
ghost use Rattle.locale_numbers_faults.specs.declared.BookError.{BookError};

use crate::BookError;
use crate::seed::Seed;
use indexmap::IndexMap;
use std::hash::Hash;

/// What the entries of an array define, each under its key: of `[["latn","0123456789"]]` the ten digits of `latn`.
pub struct Table<K: Eq + Hash, V> {
    pub map: IndexMap<K, V, Seed>,
}

// A table is dropped by one call, whose proof a user's exits cite: a derived drop would be opened column by column at
// each of them.
impl<K: Eq + Hash + Drop, V: Drop> Drop for Table<K, V> {
    fn drop(self) {
        let Self { map: _map } = self;
    }
}

// Makes room for as many entries as there will be, at the first one, so that the table does not grow while they are added.
fn make_room<K: Eq + Hash, V>(
    table: &mut IndexMap<K, V, Seed>,
    count: usize,
) -> Result<(), BookError>
    ensures same { table.new.entries ≡ table.old.entries }
    ensures seeded { hasher_of table.new ≡ hasher_of table.old }
    ensures only { IfErr result (λ fault. fault ≡ BookError.Memory) }
{
    match table.reserve(count.saturating_sub(table.len())) {
        Ok(()) => Ok(()),
        Err(_) => Err(BookError::Memory),
    }
}

/// Adds what is under a key that is not there yet, to a table of that many entries in the end: with a second `latn` it is
/// `Duplicate`, and then the table is of no use. It allocates. A table that grows step by step would be moved each time.
///
/// - Duplicate: the key is there already.
/// - Memory: else, out of memory.
pub fn add<K: Eq + Hash + Drop, V: Drop>(
    table: &mut IndexMap<K, V, Seed>,
    key: K,
    value: V,
    count: usize,
) -> Result<(), BookError>
    ensures added { OnOk result (table.new.entries ≡ table.old.entries ++ (key, value) ∷ []) }
    ensures fresh { OnOk result (get K.eq table.old key ≡ None) }
    ensures duplicate { IsErrOf result BookError.Duplicate → IsSome (get K.eq table.old key) }

    // A key that is there already is never reported as out of memory.
    ensures twice { IsSome (get K.eq table.old key) → IsErrOf result BookError.Duplicate }
    ensures seeded { hasher_of table.new ≡ hasher_of table.old }
    ensures only { IfErr result (λ fault. (fault ≡ BookError.Duplicate) ⊎ (fault ≡ BookError.Memory)) }
{
    match table.insert(key, value) {
        Ok(None) => make_room(table, count),
        Ok(Some(_)) => Err(BookError::Duplicate),
        Err(_) => Err(BookError::Memory),
    }
}
