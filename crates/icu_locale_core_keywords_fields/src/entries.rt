//! Maps from keys to values.

ghost use Rattle.std.specs.Prelude.{◌≡◌, true, false, List, [], ◌∷◌, Option, None, Some, length, IfOk, OnOk, OnErr, IsOk, MatchResult, is_some, ◌==◌};
ghost use Rattle.std.specs.Option.{option_copied};
ghost use Rattle.std.specs.Iterator.Adapters.{IterYieldsInOrder};
ghost use Rattle.std.specs.Slice.Iter.{iter_rest};
ghost use Rattle.icu_locale_core_grammar.specs.Collections.{Entry, Rises, keys_of, put_first, value_at};
ghost use Rattle.icu_locale_core_keywords_fields.specs.EntryChanges.{set_entry, without_key};
ghost use Rattle.icu_locale_core_keywords_fields.specs.Places.{IsFoundAt, IsMissingAt};

use crate::kind::EntryKind;
use crate::placing::{place_in, set_in};
use crate::value::ValueOf;
use icu_locale_core_subtags::SubtagOf;
use std::alloc::{AllocError, Global};
use std::marker::Model;
use std::{mem, slice};

/// Keywords or fields: a map from keys to values, listed in byte order of the keys. No key occurs twice.
/// `ca-buddhist-nu-thai` has `buddhist` at `ca` and `thai` at `nu`.
///
/// After ICU4X's `Keywords` and `Fields`.
#[derive(Drop)]
pub struct EntriesOf<K: EntryKind> {
    pub(crate) entries: Vec<(SubtagOf<K, 2>, ValueOf<K>)>,
}

impl<K: EntryKind> Model for EntriesOf<K> {
    ghost use Rattle.std.specs.Prelude.{List};
    ghost use Rattle.icu_locale_core_grammar.specs.Collections.{Entry, Rises, keys_of};

    ghost Value = { List Entry };

    ghost view = { λ m. m.entries.items };

    ghost invariant = { λ m. Rises (keys_of m.entries.items) };
}

impl<K: EntryKind> EntriesOf<K> {
    /// The empty map, of which `is_empty` is true. It does not allocate.
    #[tactic(auto, using(icu_locale_core_grammar::proofs::MapLemmas::rises_none))]
    pub fn new(alloc: Global) -> Self
        ensures { result ≡ [] }
    {
        EntriesOf {
            entries: Vec::new(alloc),
        }
    }

    /// The map with one entry: `nu` and `thai` give `nu-thai`. `AllocError`: out of memory.
    pub fn new_single(
        alloc: Global,
        key: SubtagOf<K, 2>,
        value: ValueOf<K>,
    ) -> Result<Self, AllocError>
        ensures { IfOk result (λ m. m ≡ (key, value) ∷ []) }
    {
        let mut map = Self::new(alloc);
        map.put_first(key, value)?;
        Ok(map)
    }

    // The entries, in byte order of their keys.
    pub(crate) fn as_slice(&self) -> &[(SubtagOf<K, 2>, ValueOf<K>)]
        ensures value { result.now ≡ self.now }
        ensures rises { Rises (keys_of result.now) }
    {
        self.entries.as_slice()
    }

    // The place of the key, or the place where it belongs.
    pub(crate) fn place_of(&self, key: &SubtagOf<K, 2>) -> Result<usize, usize>
        ensures { MatchResult result (λ place. IsFoundAt key.now self.now place)
            (λ place. IsMissingAt key.now self.now place) }
    {
        place_in(self.as_slice(), key)
    }

    // Puts an entry that is not there at its place.
    fn insert_at(
        &mut self,
        place: usize,
        key: SubtagOf<K, 2>,
        value: ValueOf<K>,
    ) -> Result<(), AllocError>
        requires { IsMissingAt key self.old place }
        ensures ok { OnOk result (self.new ≡ put_first (key, value) self.old) }
        ensures err { OnErr result (self.new ≡ self.old) }
    {
        let Ok(()) = self.entries.insert(place, (key, value)) else {
            return Err(AllocError);
        };
        Ok(())
    }

    // Puts the entry into the map, unless the key is there: then the map stays as it is.
    //
    // `AllocError`: out of memory, and the map is as before.
    pub(crate) fn put_first(
        &mut self,
        key: SubtagOf<K, 2>,
        value: ValueOf<K>,
    ) -> Result<(), AllocError>
        ensures ok { OnOk result (self.new ≡ put_first (key, value) self.old) }
        ensures err { OnErr result (self.new ≡ self.old) }
    {
        match self.place_of(&key) {
            Ok(_) => Ok(()),
            Err(place) => self.insert_at(place, key, value),
        }
    }

    /// The value of a key, if the map has the key: of `ca-buddhist-nu-thai` at `nu` it is `thai`, at `co` there is
    /// none. It does not allocate.
    pub fn get(&self, key: &SubtagOf<K, 2>) -> Option<&ValueOf<K>>
        ensures { option_copied result ≡ value_at key.now self.now }
    {
        match self.place_of(key) {
            Ok(place) => Some(&self.entries[place].1),
            Err(_) => None,
        }
    }

    /// Whether the map has the key: `nu-thai` has `nu`, and has no `ca`. It does not allocate.
    pub fn contains_key(&self, key: &SubtagOf<K, 2>) -> bool
        ensures { result ≡ is_some (value_at key.now self.now) }
    {
        self.place_of(key).is_ok()
    }

    /// Sets the value of a key, and returns the value that it had, if any.
    ///
    /// `nu` set to `latn` in `ca-buddhist-nu-thai` returns `thai` and leaves `ca-buddhist-nu-latn`. `AllocError`: out
    /// of memory, and the map is as before. It does not allocate where the map has the key.
    pub fn set(
        &mut self,
        key: SubtagOf<K, 2>,
        value: ValueOf<K>,
    ) -> Result<Option<ValueOf<K>>, AllocError>
        ensures ok { OnOk result (self.new ≡ set_entry (key, value) self.old) }
        ensures old { IfOk result (λ old. old ≡ value_at key self.old) }
        ensures succeeds { is_some (value_at key self.old) ≡ true → IsOk result }
        ensures err { OnErr result (self.new ≡ self.old) }
    {
        set_in(&mut self.entries, key, value)
    }

    /// Removes the key, and returns the value that it had, if any. It does not allocate.
    ///
    /// `nu` removed from `ca-buddhist-nu-thai` returns `thai` and leaves `ca-buddhist`.
    pub fn remove(&mut self, key: &SubtagOf<K, 2>) -> Option<ValueOf<K>>
        ensures value { result ≡ value_at key.now self.old }
        ensures rest { self.new ≡ without_key key.now self.old }
    {
        match self.place_of(key) {
            Ok(place) => Some(self.entries.remove(place).1),
            Err(_) => None,
        }
    }

    /// Removes every entry, and returns the map as it was: of `nu-thai` it is `nu-thai`. It does not allocate.
    pub fn clear(&mut self) -> Self
        ensures value { result ≡ self.old }
        ensures empty { self.new ≡ [] }
    {
        let alloc = *self.entries.allocator();
        mem::replace(self, Self::new(alloc))
    }

    /// Whether the map has no entry: true of what `new` gives, and of the empty text. It does not allocate.
    pub fn is_empty(&self) -> bool
        ensures { result ≡ (length self.now == 0) }
    {
        self.entries.is_empty()
    }

    /// The entries one after another, in byte order of their keys, each a key and its value: two of
    /// `ca-coptic-nu-thai`. It does not allocate.
    pub fn iter(&self) -> slice::Iter<'_, (SubtagOf<K, 2>, ValueOf<K>)>
        ensures rest { iter_rest result ≡ self.now }
        ensures len { length (iter_rest result) ≡ length self.now }
        ensures runs { IterYieldsInOrder Entry }
    {
        self.as_slice().iter()
    }
}
