//! A set of subtags of one rule, in byte order.

ghost use Rattle.std.specs.Prelude.{◌≡◌, ◌==◌, ℕ, List, true, false, not, [], length, IfOk, OnOk, OnErr, IsOk, slice_get};
ghost use Rattle.std.specs.Option.{option_copied};
ghost use Rattle.std.specs.Iterator.Adapters.{IterYieldsInOrder};
ghost use Rattle.std.specs.Slice.Iter.{iter_rest};
ghost use Rattle.icu_locale_core_grammar.specs.Collections.{AreApart, contains_text, insert_text, set_of};
ghost use Rattle.icu_locale_core_subtag_lists.specs.SubtagSets.{AreNormalPieces, IsSubtagSet, remove_text};

mod comparing;
mod place;
mod printing;

use self::place::place_of;
use icu_locale_core_subtags::laws::subtags_are_words;
use icu_locale_core_subtags::{SubtagOf, SubtagRule};
use std::alloc::{AllocError, Global};
use std::marker::Model;
use std::{mem, slice};

/// A set of subtags of the rule R, each of at most 8 characters: none of them twice, in byte order of their texts. Of
/// the variants `fonipa` and `1996` it is `1996`, `fonipa`.
#[derive(Drop)]
pub struct SubtagSet<R: SubtagRule<8>> {
    items: Vec<SubtagOf<R, 8>>,
}

impl<R: SubtagRule<8>> Model for SubtagSet<R> {
    ghost use Rattle.std.specs.Prelude.{ℕ, List};
    ghost use Rattle.icu_locale_core_subtag_lists.specs.SubtagSets.{IsSubtagSet};

    ghost Value = { List (List ℕ) };

    ghost view = { λ s. s.items.items };

    ghost invariant = { λ s. IsSubtagSet R.accepts R.normal s.items.items };
}

impl<R: SubtagRule<8>> SubtagSet<R> {
    /// The empty set, of which `is_empty` is true. It does not allocate.
    pub fn new(alloc: Global) -> Self
        ensures { result ≡ [] }
    {
        SubtagSet {
            items: Vec::new(alloc),
        }
    }

    // The set of these subtags, of which none occurs twice. It does not allocate.
    pub(crate) fn from_distinct(items: Vec<SubtagOf<R, 8>>) -> Self
        requires apart { AreApart items.items }
        requires each { AreNormalPieces R.accepts R.normal items.items }
        ensures { result ≡ set_of items.items }
    {
        let mut items = items;
        items.sort_unstable();
        SubtagSet { items }
    }

    // The allocator of the set.
    pub(crate) fn allocator(&self) -> Global {
        *self.items.allocator()
    }

    /// Puts the subtag into the set, and returns whether the set changed.
    ///
    /// `b` pushed into the set of `a`, `c` gives `a`, `b`, `c`. `AllocError`: out of memory; the set is then as before.
    /// A subtag that is there already does not allocate.
    pub fn push(&mut self, subtag: SubtagOf<R, 8>) -> Result<bool, AllocError>
        ensures succeeds { contains_text subtag self.old ≡ true → IsOk result }
        ensures changed { IfOk result (λ changed. changed ≡ not (contains_text subtag self.old)) }
        ensures value { OnOk result (self.new ≡ insert_text subtag self.old) }
        ensures same { IfOk result (λ changed. changed ≡ false → self.new ≡ self.old) }
        ensures err { OnErr result (self.new ≡ self.old) }
    {
        match place_of(self.items.as_slice(), &subtag) {
            Ok(_) => Ok(false),
            Err(place) => {
                subtags_are_words(&subtag);
                self.items.insert(place, subtag)?;
                Ok(true)
            }
        }
    }

    /// Removes the subtag from the set, and returns whether it was there.
    ///
    /// `b` removed from the set of `a`, `b`, `c` leaves `a`, `c`. It does not allocate.
    pub fn remove(&mut self, subtag: SubtagOf<R, 8>) -> bool
        ensures there { result ≡ contains_text subtag self.old }
        ensures value { self.new ≡ remove_text subtag self.old }
    {
        match place_of(self.items.as_slice(), &subtag) {
            Ok(place) => {
                self.items.remove(place);
                true
            }
            Err(_) => false,
        }
    }

    /// Whether the subtag is in the set: the set of `fonipa` has `fonipa`, and has no `1996`. It does not allocate.
    pub fn contains(&self, subtag: &SubtagOf<R, 8>) -> bool
        ensures { result ≡ contains_text subtag.now self.now }
    {
        place_of(self.items.as_slice(), subtag).is_ok()
    }

    /// The subtags, in byte order: of the set of `fonipa` and `1996` they are `1996`, `fonipa`. It does not allocate.
    pub fn as_slice(&self) -> &[SubtagOf<R, 8>]
        ensures value { result.now ≡ self.now }
        ensures set { IsSubtagSet R.accepts R.normal self.now }
    {
        self.items.as_slice()
    }

    /// How many subtags there are: 1 in the set of `fonipa`. It does not allocate.
    pub fn len(&self) -> usize
        ensures { result ≡ length self.now }
    {
        self.items.len()
    }

    /// Whether there is no subtag, as in the set that `new` gives. It does not allocate.
    pub fn is_empty(&self) -> bool
        ensures { result ≡ (length self.now == 0) }
    {
        self.items.is_empty()
    }

    /// The subtag at this index, counted from 0: of `1996`, `fonipa` at 1 it is `fonipa`, and at 2 there is none. It
    /// does not allocate.
    pub fn get(&self, index: usize) -> Option<&SubtagOf<R, 8>>
        ensures { option_copied result ≡ slice_get self.now index }
    {
        self.as_slice().get(index)
    }

    /// The least subtag, `1996` of `fonipa` and `1996`; `None` where there is none. It does not allocate.
    pub fn first(&self) -> Option<&SubtagOf<R, 8>>
        ensures { option_copied result ≡ slice_get self.now 0 }
    {
        self.as_slice().first()
    }

    /// The subtags one after another, in byte order: two of `fonipa` and `1996`. It does not allocate.
    pub fn iter(&self) -> slice::Iter<'_, SubtagOf<R, 8>>
        ensures rest { iter_rest result ≡ self.now }
        ensures len { length (iter_rest result) ≡ length self.now }
        ensures runs { IterYieldsInOrder (List ℕ) }
    {
        self.as_slice().iter()
    }

    /// Removes every subtag, and returns the set as it was: of `1996`, `fonipa` these two. It does not allocate.
    pub fn clear(&mut self) -> Self
        ensures value { result ≡ self.old }
        ensures empty { self.new ≡ [] }
    {
        let alloc = *self.items.allocator();
        mem::replace(self, SubtagSet::new(alloc))
    }

    /// A copy: of `1996`, `fonipa` a set of these two. `AllocError`: out of memory. The empty set does not allocate.
    pub fn try_clone(&self) -> Result<Self, AllocError>
        ensures succeeds { self.now ≡ [] → IsOk result }
        ensures value { IfOk result (λ set. set ≡ self.now) }
        ensures set { IsSubtagSet R.accepts R.normal self.now }
    {
        if self.is_empty() {
            return Ok(SubtagSet::new(*self.items.allocator()));
        }
        let items = self.items.clone()?;
        Ok(SubtagSet { items })
    }
}
