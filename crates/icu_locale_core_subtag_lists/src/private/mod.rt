//! The private subtags of a tag.

ghost use Rattle.std.specs.Prelude.{◌≡◌, ◌==◌, ℕ, false, List, [], ◌∷◌, ◌++◌, length, IfOk, IfErr, IsOk, OnOk, OnErr, slice_get};
ghost use Rattle.std.specs.Option.{option_copied};
ghost use Rattle.std.specs.Iterator.Adapters.{IterYieldsInOrder};
ghost use Rattle.std.specs.Slice.Iter.{iter_rest};
ghost use Rattle.std.specs.Result.{IsErrOf};
ghost use Rattle.icu_locale_core_grammar.specs.declared.error.ParseError.{ParseError};
ghost use Rattle.icu_locale_core_grammar.specs.Subtags.{is_private, is_private_piece};
ghost use Rattle.icu_locale_core_grammar.specs.Pieces.{pieces};
ghost use Rattle.icu_locale_core_grammar.specs.PartReaders.{MeansOwn, ReadsPrivate};
ghost use Rattle.icu_locale_core_grammar.specs.WellFormed.{AreLower};
ghost use Rattle.icu_locale_core_subtag_lists.specs.Reading.{IsRefused, begins, begins_after};

mod comparing;
mod printing;

use icu_locale_core_grammar::ParseError;
use icu_locale_core_subtags::laws::subtags_are_words;
use icu_locale_core_subtags::private::Subtag;
use icu_locale_core_subtags::{SubtagIterator, is_letter};
use std::alloc::{AllocError, Global};
use std::marker::Model;
use std::slice;

/// The private subtags of a tag, those after `x`, in the order written: `foo`, `a` of `x-foo-a`.
#[derive(Drop)]
pub struct Private {
    items: Vec<Subtag>,
}

impl Model for Private {
    ghost use Rattle.std.specs.Prelude.{ℕ, List};
    ghost use Rattle.icu_locale_core_grammar.specs.Subtags.{is_private_piece};
    ghost use Rattle.icu_locale_core_grammar.specs.WellFormed.{AreLower};

    ghost Value = { List (List ℕ) };

    ghost view = { λ s. s.items.items };

    ghost invariant = { λ s. AreLower is_private_piece s.items.items };
}

impl Private {
    /// No private subtags: `is_empty` is true of them. It does not allocate.
    pub fn new(alloc: Global) -> Self
        ensures { result ≡ [] }
    {
        Private {
            items: Vec::new(alloc),
        }
    }

    /// Only this private subtag: `foo` gives `x-foo`. It allocates. `AllocError`: out of memory.
    pub fn new_single(alloc: Global, subtag: Subtag) -> Result<Self, AllocError>
        ensures { IfOk result (λ private. private ≡ subtag ∷ []) }
    {
        let mut private = Private::new(alloc);
        private.push(subtag)?;
        Ok(private)
    }

    /// The private subtags of this text: `x`, and 1 or more pieces of 1 to 8 letters and digits, in either case, with
    /// hyphens between them.
    ///
    /// `X-Foo-a` has `foo`, `a`. `InvalidExtension` where the text has another form, as `foo`, `x` and
    /// `x-toolongpiece`. `Memory`: out of memory. It does not allocate where the first piece is not `x`, or no private
    /// subtag is right after it. Source: UTS 35, section 3.2.
    pub fn try_from_str(alloc: Global, s: &str) -> Result<Self, ParseError>
        ensures value { IfOk result (ReadsPrivate s.now) }
        ensures fault { IfErr result (IsRefused (ReadsPrivate s.now)) }
        ensures room { begins_after is_private is_private_piece (pieces s.now) ≡ false
            → ¬ (IsErrOf result ParseError.Memory) }
    {
        Private::try_from_utf8(alloc, s.as_bytes())
    }

    /// The private subtags of these bytes, as `try_from_str`: `X-Foo-a` has `foo`, `a`. The errors are those of
    /// `try_from_str`; it allocates where that does.
    pub fn try_from_utf8(alloc: Global, code_units: &[u8]) -> Result<Self, ParseError>
        ensures value { IfOk result (ReadsPrivate code_units.now) }
        ensures fault { IfErr result (IsRefused (ReadsPrivate code_units.now)) }
        ensures room { begins_after is_private is_private_piece (pieces code_units.now) ≡ false
            → ¬ (IsErrOf result ParseError.Memory) }
    {
        let (rest, first) = SubtagIterator::new(code_units).next_const();
        let Some(singleton) = first else {
            return Err(ParseError::InvalidExtension);
        };
        if !is_letter(singleton, b'x') {
            return Err(ParseError::InvalidExtension);
        }
        let private = Private::try_from_iter(alloc, rest)?;
        if private.is_empty() {
            return Err(ParseError::InvalidExtension);
        }
        Ok(private)
    }

    /// The private subtags that these pieces are, without a singleton: `Foo`, `a` are `foo`, `a`, and no piece is the
    /// empty list.
    ///
    /// `InvalidExtension` where one is no private subtag. `Memory`: out of memory. It does not allocate where there is
    /// no piece, or the first is no private subtag.
    pub fn try_from_iter(alloc: Global, iter: SubtagIterator<'_>) -> Result<Self, ParseError>
        ensures value { IfOk result (MeansOwn iter.entry) }
        ensures fault { IfErr result (IsRefused (MeansOwn iter.entry)) }
        ensures room { begins is_private_piece iter.entry ≡ false → ¬ (IsErrOf result ParseError.Memory) }
    {
        let mut private = Private::new(alloc);
        for piece in iter {
            let Ok(subtag) = Subtag::try_from_utf8(piece) else {
                return Err(ParseError::InvalidExtension);
            };
            let Ok(()) = private.push(subtag) else {
                return Err(ParseError::Memory);
            };
        }
        Ok(private)
    }

    /// Puts one more private subtag after the others: `a` after `foo` gives `foo`, `a`.
    ///
    /// `AllocError`: out of memory; the list is then as before.
    pub fn push(&mut self, subtag: Subtag) -> Result<(), AllocError>
        ensures value { OnOk result (self.new ≡ self.old ++ subtag ∷ []) }
        ensures err { OnErr result (self.new ≡ self.old) }
    {
        subtags_are_words(&subtag);
        self.items.push(subtag)?;
        Ok(())
    }

    /// The private subtags, in the order written: of `x-b-a` they are `b`, `a`. It does not allocate.
    pub fn as_slice(&self) -> &[Subtag]
        ensures value { result.now ≡ self.now }
        ensures lower { AreLower is_private_piece self.now }
    {
        self.items.as_slice()
    }

    /// The private subtags one after another, in the order written: of `x-foo-a` `foo`, and then `a`. It does not
    /// allocate.
    pub fn iter(&self) -> slice::Iter<'_, Subtag>
        ensures rest { iter_rest result ≡ self.now }
        ensures len { length (iter_rest result) ≡ length self.now }
        ensures runs { IterYieldsInOrder (List ℕ) }
    {
        self.as_slice().iter()
    }

    /// How many private subtags there are: 2 of `x-foo-a`. It does not allocate.
    pub fn len(&self) -> usize
        ensures { result ≡ length self.now }
    {
        self.items.len()
    }

    /// Whether there is no private subtag, as `new` gives them. It does not allocate.
    pub fn is_empty(&self) -> bool
        ensures { result ≡ (length self.now == 0) }
    {
        self.items.is_empty()
    }

    /// The private subtag at this index, counted from 0: of `x-foo-a` at 1 it is `a`; `None` past the last. It does not
    /// allocate.
    pub fn get(&self, index: usize) -> Option<&Subtag>
        ensures { option_copied result ≡ slice_get self.now index }
    {
        self.as_slice().get(index)
    }

    /// The first private subtag, `foo` of `x-foo-a`; `None` where there is none. It does not allocate.
    pub fn first(&self) -> Option<&Subtag>
        ensures { option_copied result ≡ slice_get self.now 0 }
    {
        self.as_slice().first()
    }

    /// Removes every private subtag: `x-foo-a` then prints as the empty text. It does not allocate.
    pub fn clear(&mut self)
        ensures { self.new ≡ [] }
    {
        self.items.clear();
    }

    /// A copy: of `x-a-b` it has `a`, `b`. `AllocError`: out of memory. It does not allocate where there is no subtag.
    pub fn try_clone(&self) -> Result<Self, AllocError>
        ensures succeeds { self.now ≡ [] → IsOk result }
        ensures value { IfOk result (λ private. private ≡ self.now) }
    {
        if self.is_empty() {
            return Ok(Private::new(*self.items.allocator()));
        }
        let items = self.items.clone()?;
        Ok(Private { items })
    }
}
