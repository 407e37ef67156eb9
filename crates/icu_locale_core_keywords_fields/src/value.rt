//! The value of an entry.

ghost use Rattle.std.specs.Prelude.{◌≡◌, ℕ, true, false, List, [], Option, None, Some, length, IfOk, OnOk, OnErr, IsOk, option_to_list, remove, slice_get, ◌==◌};
ghost use Rattle.std.specs.Option.{option_copied};
ghost use Rattle.std.specs.Iterator.Adapters.{IterYieldsInOrder};
ghost use Rattle.std.specs.Slice.Iter.{iter_rest};
ghost use Rattle.icu_locale_core_grammar.specs.Subtags.{is_true};
ghost use Rattle.icu_locale_core_grammar.specs.TagPreferences.{one_piece};
ghost use Rattle.icu_locale_core_keywords_fields.specs.Values.{without_true, IsWithoutTrue, with_subtag};

use crate::kind::EntryKind;
use icu_locale_core_subtags::Subtag;
use icu_locale_core_subtags::laws::subtags_are_words;
use std::alloc::{AllocError, Global};
use std::marker::{Model, PhantomData};
use std::slice;

/// The value of a keyword or a field: a list of subtags, none of which is `true`.
///
/// After ICU4X's `Value`. Source: UTS 35, sections 3.2.1 and 3.6.
#[derive(Drop)]
pub struct ValueOf<K: EntryKind> {
    pub(crate) subtags: Vec<Subtag>,
    pub(crate) kind: PhantomData<K>,
}

impl<K: EntryKind> Model for ValueOf<K> {
    ghost use Rattle.std.specs.Prelude.{ℕ, List};
    ghost use Rattle.icu_locale_core_keywords_fields.specs.Values.{IsWithoutTrue};

    ghost Value = { List (List ℕ) };

    ghost view = { λ v. v.subtags.items };

    ghost invariant = { λ v. IsWithoutTrue v.subtags.items };
}

// Whether the subtag is `true`.
fn is_true_word(subtag: &Subtag) -> bool
    ensures { result ≡ is_true subtag.now }
{
    subtags_are_words(subtag);
    subtag.as_str() == "true"
}

impl<K: EntryKind> ValueOf<K> {
    /// The empty value: a keyword's prints as the empty text, a field's as `true`. It does not allocate.
    pub fn new_empty(alloc: Global) -> Self
        ensures { result ≡ [] }
    {
        ValueOf {
            subtags: Vec::new(alloc),
            kind: PhantomData,
        }
    }

    /// The value of one subtag; the empty value of none, and of `true`.
    ///
    /// `AllocError`: out of memory. It allocates where the value has a subtag.
    pub fn from_subtag(alloc: Global, subtag: Option<Subtag>) -> Result<Self, AllocError>
        ensures value { IfOk result (λ v. v ≡ without_true (option_to_list subtag)) }
        ensures succeeds { without_true (option_to_list subtag) ≡ [] → IsOk result }
    {
        let mut value = Self::new_empty(alloc);
        let Some(subtag) = subtag else {
            return Ok(value);
        };
        value.push_subtag(subtag)?;
        Ok(value)
    }

    /// Puts a subtag after the others, or leaves it out where it is `true`.
    ///
    /// `abc` and then `true` and `def` give `abc-def`. `AllocError`: out of memory, and the value is as before.
    pub fn push_subtag(&mut self, subtag: Subtag) -> Result<(), AllocError>
        ensures ok { OnOk result (self.new ≡ with_subtag self.old subtag) }
        ensures succeeds { is_true subtag ≡ true → IsOk result }
        ensures err { OnErr result (self.new ≡ self.old) }
    {
        if is_true_word(&subtag) {
            return Ok(());
        }
        match self.subtags.push(subtag) {
            Ok(()) => Ok(()),
            Err(_) => Err(AllocError),
        }
    }

    /// The subtag of a value that has exactly one: `abc` of `abc`, none of `abc-def`. It does not allocate.
    pub fn as_single_subtag(&self) -> Option<&Subtag>
        ensures { option_copied result ≡ one_piece self.now }
    {
        match self.subtags.as_slice() {
            [subtag] => Some(subtag),
            _ => None,
        }
    }

    /// The subtag of a value that has exactly one, as `as_single_subtag`: `abc` of `abc`. It does not allocate.
    pub fn into_single_subtag(self) -> Option<Subtag>
        ensures { result ≡ one_piece self }
    {
        self.as_single_subtag().copied()
    }

    /// The subtags, none of which is `true`: of `abc-true-de` they are `abc`, `de`. It does not allocate.
    pub fn as_subtags_slice(&self) -> &[Subtag]
        ensures value { result.now ≡ self.now }
        ensures never_true { IsWithoutTrue result.now }
    {
        self.subtags.as_slice()
    }

    /// Leaves the empty value: of `abc-de` no subtag is left. It does not allocate.
    pub fn clear(&mut self)
        ensures { self.new ≡ [] }
    {
        self.subtags.clear();
    }

    /// The subtag at this place, from 0 on: of `abc-def` at 1 it is `def`, and at 2 there is none. It does not
    /// allocate.
    pub fn get_subtag(&self, index: usize) -> Option<&Subtag>
        ensures { option_copied result ≡ slice_get self.now index }
    {
        self.subtags.get(index)
    }

    /// Removes the subtag at this place and returns it; `None`, and nothing is removed, where there is none. Of
    /// `abc-def` at 0 it returns `abc` and leaves `def`. It does not allocate.
    pub fn remove_subtag(&mut self, index: usize) -> Option<Subtag>
        ensures value { result ≡ slice_get self.old index }
        ensures rest { self.new ≡ remove self.old index }
    {
        if index < self.subtags.len() {
            Some(self.subtags.remove(index))
        } else {
            None
        }
    }

    /// How many subtags the value has: 2 of `abc-def`. It does not allocate.
    pub fn subtag_count(&self) -> usize
        ensures { result ≡ length self.now }
    {
        self.subtags.len()
    }

    /// Whether the value has no subtag: true of `true`, which is left out, and false of `abc`. It does not allocate.
    pub fn is_empty(&self) -> bool
        ensures { result ≡ (length self.now == 0) }
    {
        self.subtags.is_empty()
    }

    /// The subtags one after another: of `abc-de` `abc`, and then `de`. It does not allocate.
    pub fn iter(&self) -> slice::Iter<'_, Subtag>
        ensures rest { iter_rest result ≡ self.now }
        ensures len { length (iter_rest result) ≡ length self.now }
        ensures runs { IterYieldsInOrder (List ℕ) }
    {
        self.as_subtags_slice().iter()
    }
}
