//! A set that is read piece by piece.

ghost use Rattle.std.specs.Prelude.{◌≡◌, ◌==◌, true, false, not, [], length, IfOk, OnOk, OnErr, IsOk};
ghost use Rattle.icu_locale_core_grammar.specs.Collections.{contains_text, insert_text};

use crate::subtag_set::SubtagSet;
use icu_locale_core_subtags::laws::subtags_are_words;
use icu_locale_core_subtags::{SubtagOf, SubtagRule};
use std::alloc::{AllocError, Global};
use std::collections::BTreeSet;
use std::marker::Model;
use tinystr::TinyAsciiStr;

// How many of the subtags are looked through one by one.
const FEW: usize = 16;

/// A set of subtags of the rule R that is read piece by piece: the cost of adding one grows with the logarithm of their
/// count, in whatever order they come. `settled` gives the set.
#[derive(Drop)]
pub struct GrowingSet<R: SubtagRule<8>> {
    // In the order in which they came.
    items: Vec<SubtagOf<R, 8>>,
    // The texts of those after the first few.
    known: BTreeSet<TinyAsciiStr<8>>,
}

impl<R: SubtagRule<8>> Model for GrowingSet<R> {
    ghost use Rattle.std.specs.Prelude.{ℕ, List};
    ghost use Rattle.icu_locale_core_grammar.specs.Collections.{set_of};
    ghost use Rattle.icu_locale_core_subtag_lists.specs.Growing.{IsGrowing};

    ghost Value = { List (List ℕ) };

    ghost view = { λ s. set_of s.items.items };

    ghost invariant = { λ s. IsGrowing R.accepts R.normal s.items.items s.known.keys };
}

impl<R: SubtagRule<8>> GrowingSet<R> {
    /// The empty set, of which `is_empty` is true. It does not allocate.
    pub fn new(alloc: Global) -> Self
        ensures { result ≡ [] }
    {
        GrowingSet {
            items: Vec::new(alloc),
            known: BTreeSet::new(alloc),
        }
    }

    /// Whether there is no subtag, as in the set that `new` gives. It does not allocate.
    pub fn is_empty(&self) -> bool
        ensures { result ≡ (length self.now == 0) }
    {
        self.items.as_slice().is_empty()
    }

    /// Whether the subtag is in the set: the set of `fonipa` has `fonipa`, and has no `1996`. It does not allocate.
    pub fn contains(&self, subtag: &SubtagOf<R, 8>) -> bool
        ensures { result ≡ contains_text subtag.now self.now }
    {
        let items = self.items.as_slice();
        if items.len() <= FEW {
            items.contains(subtag)
        } else {
            items[..FEW].contains(subtag) || self.known.contains(&subtag.to_tinystr())
        }
    }

    // Puts in a subtag that is not there.
    fn put(&mut self, subtag: SubtagOf<R, 8>) -> Result<(), AllocError>
        requires { contains_text subtag self.old ≡ false }
        ensures value { OnOk result (self.new ≡ insert_text subtag self.old) }
        ensures err { OnErr result (self.new ≡ self.old) }
    {
        subtags_are_words(&subtag);
        let text = subtag.to_tinystr();
        let count = self.items.len();
        self.items.push(subtag)?;
        if count < FEW {
            return Ok(());
        }
        match self.known.insert(text) {
            Ok(_) => Ok(()),
            Err(_) => {
                self.items.truncate(count);
                Err(AllocError)
            }
        }
    }

    /// Puts the subtag into the set, and returns whether the set changed.
    ///
    /// `b` pushed into the set of `a`, `c` gives `a`, `b`, `c`. `AllocError`: out of memory; the set is then as before.
    /// A subtag that is there already does not allocate.
    pub fn push(&mut self, subtag: SubtagOf<R, 8>) -> Result<bool, AllocError>
        ensures succeeds { contains_text subtag self.old ≡ true → IsOk result }
        ensures changed { IfOk result (λ changed. changed ≡ not (contains_text subtag self.old)) }
        ensures value { OnOk result (self.new ≡ insert_text subtag self.old) }
        ensures err { OnErr result (self.new ≡ self.old) }
    {
        let _items = &self.items; // for the proof
        if self.contains(&subtag) {
            return Ok(false);
        }
        self.put(subtag)?;
        Ok(true)
    }

    /// The set: of `fonipa` and then `1996` it has `1996`, `fonipa`. It does not allocate.
    pub fn settled(self) -> SubtagSet<R>
        ensures { result ≡ self }
    {
        let GrowingSet { items, known: _ } = self;
        SubtagSet::from_distinct(items)
    }
}
