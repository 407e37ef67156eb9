//! Values and maps out of iterators, and joined maps.

ghost use Rattle.std.specs.Prelude.{◌≡◌, List, ℕ, [], IsOk, IfOk, OnOk, OnErr};
ghost use Rattle.std.specs.Iterator.{AlwaysYields, Drains, HoldsAlong, IsFinite};
ghost use Rattle.icu_locale_core_grammar.specs.Collections.{Entry, map_of};
ghost use Rattle.icu_locale_core_keywords_fields.specs.EntryChanges.{joined_maps, HasKeysOf};
ghost use Rattle.icu_locale_core_keywords_fields.specs.Values.{without_true};

use crate::entries::EntriesOf;
use crate::kind::EntryKind;
use crate::placing::{count_new, set_all};
use crate::value::ValueOf;
use icu_locale_core_subtags::{Subtag, SubtagOf};
use std::alloc::{AllocError, Global};
use std::marker::PhantomData;

impl<K: EntryKind> ValueOf<K> {
    /// The value of the subtags in their order, without `true`: of `abc`, `true`, `def` it is `abc-def`.
    ///
    /// The condition is that the iterator ends. `AllocError`: out of memory. Where each subtag is `true`, or there is
    /// none, it does not allocate.
    pub fn try_from_iter<I: IntoIterator<Item = Subtag>>(
        alloc: Global,
        iter: I,
    ) -> Result<Self, AllocError>
        requires { (it : I.IntoIter) → I.into_iter_gives iter it
            → I.IntoIter.can_next it × IsFinite (I.IntoIter.remaining it) }
        ensures succeeds { ((it : I.IntoIter) → I.into_iter_gives iter it
            → HoldsAlong I.IntoIter.next_gives it (λ subtags. without_true subtags ≡ [])) → IsOk result }
        ensures empty { ((it : I.IntoIter) → I.into_iter_gives iter it
            → AlwaysYields I.IntoIter.next_gives (λ x. x) it []) → IsOk result }
        ensures value { IfOk result
            (λ v. (it : I.IntoIter) × (subtags : List (List ℕ)) × I.into_iter_gives iter it
            × Drains I.IntoIter.next_gives it subtags × (v ≡ without_true subtags)) }
    {
        let mut value = Self::new_empty(alloc);
        for subtag in iter {
            value.push_subtag(subtag)?;
        }
        Ok(value)
    }

    /// A copy: of `abc-def` it is `abc-def`. `AllocError`: out of memory. The empty value does not allocate.
    pub fn try_clone(&self) -> Result<Self, AllocError>
        ensures succeeds { self.now ≡ [] → IsOk result }
        ensures value { IfOk result (λ v. v ≡ self.now) }
    {
        if self.is_empty() {
            return Ok(Self::new_empty(*self.subtags.allocator()));
        }
        let subtags = self.subtags.clone()?;
        Ok(ValueOf {
            subtags,
            kind: PhantomData,
        })
    }
}

// The same key.
fn copied<T: Copy>(key: &T) -> T
    ensures { result ≡ key.now }
{
    *key
}

impl<K: EntryKind> EntriesOf<K> {
    /// The map of the entries; of equal keys the first is kept: of `nu` with `thai`, `ca` with `buddhist` and `nu` with
    /// `latn` it is `ca-buddhist-nu-thai`.
    ///
    /// The condition is that the iterator ends. `AllocError`: out of memory. Without an item it does not allocate.
    pub fn try_from_iter<I: IntoIterator<Item = (SubtagOf<K, 2>, ValueOf<K>)>>(
        alloc: Global,
        iter: I,
    ) -> Result<Self, AllocError>
        requires { (it : I.IntoIter) → I.into_iter_gives iter it
            → I.IntoIter.can_next it × IsFinite (I.IntoIter.remaining it) }
        ensures succeeds { ((it : I.IntoIter) → I.into_iter_gives iter it
            → AlwaysYields I.IntoIter.next_gives (λ x. x) it []) → IsOk result }
        ensures value { IfOk result
            (λ m. (it : I.IntoIter) × (entries : List Entry) × I.into_iter_gives iter it
            × Drains I.IntoIter.next_gives it entries × (m ≡ map_of entries)) }
    {
        let mut map = Self::new(alloc);
        for (key, value) in iter {
            map.put_first(key, value)?;
        }
        Ok(map)
    }

    /// A copy: of `nu-thai` it is `nu-thai`. `AllocError`: out of memory. The empty map does not allocate.
    pub fn try_clone(&self) -> Result<Self, AllocError>
        ensures succeeds { self.now ≡ [] → IsOk result }
        ensures value { IfOk result (λ m. m ≡ self.now) }
    {
        let mut entries = Vec::with_capacity(*self.entries.allocator(), self.entries.len())?;
        for (key, value) in self.as_slice() {
            entries.push_reserved((copied(key), value.try_clone()?));
        }
        Ok(EntriesOf { entries })
    }

    /// Adds the entries of the other map to this one; of equal keys the other's is kept.
    ///
    /// `ca-buddhist-nu-thai` with `nu-latn` becomes `ca-buddhist-nu-latn`. `AllocError`: out of memory, and the map is
    /// as before. It does not allocate where one of the two maps has all keys of the other.
    pub fn extend_from_keywords(&mut self, other: Self) -> Result<(), AllocError>
        ensures succeeds { other ≡ [] → IsOk result }
        ensures empty { self.old ≡ [] → IsOk result }
        ensures there { HasKeysOf self.old other → IsOk result }
        ensures within { HasKeysOf other self.old → IsOk result }
        ensures ok { OnOk result (self.new ≡ joined_maps other self.old) }
        ensures err { OnErr result (self.new ≡ self.old) }
    {
        if count_new(self.as_slice(), &other) == 0 {
            *self = other;
            return Ok(());
        }
        let more = count_new(other.as_slice(), self);
        self.entries.reserve(more)?;
        let EntriesOf { entries } = other;
        set_all(&mut self.entries, entries);
        Ok(())
    }
}
