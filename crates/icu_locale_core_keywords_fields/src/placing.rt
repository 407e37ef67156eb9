//! The place of a key among entries whose keys rise, and entries set at their keys.

ghost use Rattle.std.specs.Prelude.{◌≡◌, true, List, length, vec_len, vec_capacity, IfOk, OnOk, OnErr, IsOk, MatchResult, is_some, ◌≤◌, ◌<◌, fold};
ghost use Rattle.std.specs.List.{count_by};
ghost use Rattle.icu_locale_core_grammar.specs.Collections.{Rises, keys_of, value_at};
ghost use Rattle.icu_locale_core_keywords_fields.specs.EntryChanges.{set_entry, set_in_turn, is_new};
ghost use Rattle.icu_locale_core_keywords_fields.specs.Places.{IsFoundAt, IsMissingAt};

use crate::entries::EntriesOf;
use crate::kind::EntryKind;
use crate::value::ValueOf;
use icu_locale_core_subtags::SubtagOf;
use std::alloc::AllocError;
use std::mem;

// The place of the key, or the place where it belongs.
pub(crate) fn place_in<K: EntryKind>(
    entries: &[(SubtagOf<K, 2>, ValueOf<K>)],
    key: &SubtagOf<K, 2>,
) -> Result<usize, usize>
    requires { Rises (keys_of entries.now) }
    ensures { MatchResult result (λ place. IsFoundAt key.now entries.now place)
        (λ place. IsMissingAt key.now entries.now place) }
{
    entries.binary_search_by(|entry| entry.0.cmp(key))
}

// Sets the value of a key, and returns the value that it had, if any.
pub(crate) fn set_in<K: EntryKind>(
    entries: &mut Vec<(SubtagOf<K, 2>, ValueOf<K>)>,
    key: SubtagOf<K, 2>,
    value: ValueOf<K>,
) -> Result<Option<ValueOf<K>>, AllocError>
    requires { Rises (keys_of entries.old.items) }
    ensures ok { OnOk result (entries.new.items ≡ set_entry (key, value) entries.old.items) }
    ensures old { IfOk result (λ old. old ≡ value_at key entries.old.items) }
    ensures there { is_some (value_at key entries.old.items) ≡ true → IsOk result }
    ensures room { vec_len entries.old < vec_capacity entries.old → IsOk result }
    ensures capacity { vec_capacity entries.old ≤ vec_capacity entries.new }
    ensures err { OnErr result (entries.new.items ≡ entries.old.items) }
{
    match place_in(entries.as_slice(), &key) {
        Ok(place) => Ok(Some(mem::replace(&mut entries[place].1, value))),
        Err(place) => {
            let Ok(()) = entries.insert(place, (key, value)) else {
                return Err(AllocError);
            };
            Ok(None)
        }
    }
}

// Sets each of some entries, in a vector that has room for the new ones.
pub(crate) fn set_all<K: EntryKind>(
    entries: &mut Vec<(SubtagOf<K, 2>, ValueOf<K>)>,
    others: Vec<(SubtagOf<K, 2>, ValueOf<K>)>,
)
    requires rises { Rises (keys_of entries.old.items) }
    requires room { length (fold set_in_turn entries.old.items others.items) ≤ vec_capacity entries.old }
    ensures { entries.new.items ≡ fold set_in_turn entries.old.items others.items }
{
    for (key, value) in others {
        drop(set_in(entries, key, value));
    }
}

// How many of the entries have a key that the map does not have.
pub(crate) fn count_new<K: EntryKind>(
    entries: &[(SubtagOf<K, 2>, ValueOf<K>)],
    map: &EntriesOf<K>,
) -> usize
    ensures { result ≡ count_by (is_new map.now) entries.now }
{
    entries
        .iter()
        .filter(|entry| !map.contains_key(&entry.0))
        .count()
}
