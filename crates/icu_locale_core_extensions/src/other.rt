//! Extensions that have no rule of their own.

ghost use Rattle.std.specs.Prelude.{◌≡◌, ℕ, ◌==◌, false, List, [], ◌∷◌, length, take, drop, IsOk, IfOk, IfErr, OnOk, OnErr, MatchOption};
ghost use Rattle.std.specs.Result.{IsErrOf};
ghost use Rattle.std.specs.Iterator.Adapters.{IterYieldsInOrder};
ghost use Rattle.std.specs.Slice.Iter.{iter_rest};
ghost use Rattle.icu_locale_core_grammar.specs.declared.error.ParseError.{ParseError};
ghost use Rattle.icu_locale_core_grammar.specs.Subtags.{is_other, is_other_piece};
ghost use Rattle.icu_locale_core_grammar.specs.Pieces.{pieces};
ghost use Rattle.icu_locale_core_grammar.specs.Collections.{put_first};
ghost use Rattle.icu_locale_core_grammar.specs.PartReaders.{ReadsOther};
ghost use Rattle.icu_locale_core_grammar.specs.TagStages.{other_after as pieces_after};
ghost use Rattle.icu_locale_core_grammar.specs.Meaning.{MeansOther};
ghost use Rattle.icu_locale_core_keywords_fields.specs.Steps.{IsStep};
ghost use Rattle.icu_locale_core_subtag_lists.specs.Reading.{IsRefused, begins, begins_after};
ghost use Rattle.icu_locale_core_extensions.specs.Others.{IsPlaceOf, IsThere, KeepsSingleton};
ghost use Rattle.icu_locale_core_extensions.specs.RetainedByType.{other_type};

use crate::extension_type::ExtensionType;
use crate::opening::other_behind;
use crate::singleton::OtherSingleton;
use icu_locale_core_grammar::ParseError;
use icu_locale_core_subtags::laws::subtags_are_words;
use icu_locale_core_subtags::{Step, Subtag, SubtagIterator};
use std::alloc::{AllocError, Global};
use std::cmp::Ordering;
use std::marker::Model;
use std::slice;

/// An extension that is neither `u`, `t` nor `x`: its singleton and its subtags, `a-foo-bar`.
///
/// Source: RFC 5646 (BCP 47), section 2.2.6.
#[derive(Drop)]
pub struct Other {
    pub(crate) singleton: OtherSingleton,
    pub(crate) subtags: Vec<Subtag>,
}

impl Model for Other {
    ghost use Rattle.icu_locale_core_grammar.specs.Collections.{Entry};
    ghost use Rattle.icu_locale_core_grammar.specs.Subtags.{is_other_piece};
    ghost use Rattle.icu_locale_core_grammar.specs.WellFormed.{AreLower};

    ghost Value = { Entry };

    ghost view = { λ o. (o.singleton, o.subtags.items) };

    ghost invariant = { λ o. AreLower is_other_piece o.subtags.items };
}

impl Other {
    // The extension of this singleton, without a piece.
    pub(crate) fn opened(alloc: Global, singleton: OtherSingleton) -> Self
        ensures { result ≡ (singleton, []) }
    {
        Other {
            singleton,
            subtags: Vec::new(alloc),
        }
    }

    /// The singleton as text, in lower case: of `A-Foo-bar` it is `a`. It does not allocate.
    pub fn get_ext_str(&self) -> &str
        ensures { result.now ≡ self.now.0 }
    {
        self.singleton.as_str()
    }

    /// The singleton as a byte, in lower case: of `A-Foo-bar` it is `b'a'`. It does not allocate.
    pub fn get_ext_byte(&self) -> u8
        ensures { self.now.0 ≡ result ∷ [] }
    {
        subtags_are_words(&self.singleton);
        self.get_ext_str().as_bytes()[0]
    }

    /// The type of the extension: of `A-Foo-bar` it is `Other(b'a')`. It does not allocate.
    pub fn get_ext(&self) -> ExtensionType
        ensures { result ≡ other_type self.now.0 }
    {
        ExtensionType::Other(self.get_ext_byte())
    }

    /// The subtags one after another: `foo` and then `bar` of `a-foo-bar`. It does not allocate.
    pub fn iter(&self) -> slice::Iter<'_, Subtag>
        ensures rest { iter_rest result ≡ self.now.1 }
        ensures len { length (iter_rest result) ≡ length self.now.1 }
        ensures runs { IterYieldsInOrder (List ℕ) }
    {
        self.as_slice().iter()
    }

    /// A copy: of `a-foo` it is `a-foo`. `AllocError`: out of memory. It does not allocate where there is no subtag.
    pub fn try_clone(&self) -> Result<Self, AllocError>
        ensures succeeds { self.now.1 ≡ [] → IsOk result }
        ensures value { IfOk result (λ other. other ≡ self.now) }
    {
        if self.is_empty() {
            return Ok(Other::opened(*self.subtags.allocator(), self.singleton));
        }
        let subtags = self.subtags.clone()?;
        Ok(Other {
            singleton: self.singleton,
            subtags,
        })
    }

    /// The subtags: `foo`, `bar` of `a-foo-bar`. It does not allocate.
    pub fn as_slice(&self) -> &[Subtag]
        ensures { result.now ≡ self.now.1 }
    {
        self.subtags.as_slice()
    }

    /// Whether it has no subtag; then it prints nothing. False of `a-foo`, and of each one that was read. It does not
    /// allocate.
    pub fn is_empty(&self) -> bool
        ensures { result ≡ (length self.now.1 == 0) }
    {
        self.subtags.is_empty()
    }

    /// Removes all subtags, and leaves the singleton: `a-foo` then prints nothing. It does not allocate.
    pub fn clear(&mut self)
        ensures { self.new ≡ (self.old.0, []) }
    {
        self.subtags.clear();
    }
}

// The extension of this singleton with these pieces.
fn read_body(
    alloc: Global,
    singleton: OtherSingleton,
    body: SubtagIterator<'_>,
) -> Result<Other, ParseError>
    ensures value { IfOk result (λ o. (singleton ≡ o.0) × MeansOther body.entry o.1) }
    ensures fault { IfErr result (IsRefused (MeansOther body.entry)) }
    ensures room { begins is_other_piece body.entry ≡ false → ¬ (IsErrOf result ParseError.Memory) }
{
    let mut other = Other::opened(alloc, singleton);
    for piece in body {
        match other_after(other, piece) {
            Ok(Step::Taken(next)) => other = next,
            Ok(Step::Refused(_)) => return Err(ParseError::InvalidExtension),
            Err(_) => return Err(ParseError::Memory),
        }
    }
    Ok(other)
}

impl Other {
    /// The extension in this text, with its singleton: `A-Foo-bar` has the singleton `a` and the subtags `foo`, `bar`.
    ///
    /// `InvalidExtension`: the text is no such extension, as `a`, `a-b`, and one of `u`, `t` or `x`. `Memory`: out of
    /// memory. It does not allocate where the first piece is no such singleton, or no subtag of an extension is right
    /// after it. Source: RFC 5646 (BCP 47), section 2.2.6.
    pub fn try_from_str(alloc: Global, s: &str) -> Result<Self, ParseError>
        ensures value { IfOk result (ReadsOther s.now) }
        ensures fault { IfErr result (IsRefused (ReadsOther s.now)) }
        ensures room { begins_after is_other is_other_piece (pieces s.now) ≡ false
            → ¬ (IsErrOf result ParseError.Memory) }
    {
        Self::try_from_utf8(alloc, s.as_bytes())
    }

    /// The extension in these bytes, as `try_from_str`: `A-Foo-bar` has `a` and `foo`, `bar`. The errors are those of
    /// `try_from_str`; it allocates where that does.
    pub fn try_from_utf8(alloc: Global, code_units: &[u8]) -> Result<Self, ParseError>
        ensures value { IfOk result (ReadsOther code_units.now) }
        ensures fault { IfErr result (IsRefused (ReadsOther code_units.now)) }
        ensures room { begins_after is_other is_other_piece (pieces code_units.now) ≡ false
            → ¬ (IsErrOf result ParseError.Memory) }
    {
        match other_behind(code_units) {
            Some(opened) => read_body(alloc, opened.0, opened.1),
            None => Err(ParseError::InvalidExtension),
        }
    }
}

// The extension with one more piece.
pub(crate) fn other_after(mut other: Other, piece: &[u8]) -> Result<Step<Other>, AllocError>
    ensures step { IfOk result (IsStep pieces_after (λ o. o.1) other.1 piece.now) }
    ensures singleton { IfOk result (KeepsSingleton other.0) }
    ensures room { is_other_piece piece.now ≡ false → IsOk result }
{
    match Subtag::try_from_utf8(piece) {
        Ok(subtag) => {
            subtags_are_words(&subtag);
            let Ok(()) = other.subtags.push(subtag) else {
                return Err(AllocError);
            };
            Ok(Step::Taken(other))
        }
        Err(_) => Ok(Step::Refused(other)),
    }
}

// The index at which an extension of this singleton belongs in a list of extensions; `None` where one is there already.
fn place_of(others: &[Other], singleton: &OtherSingleton) -> Option<usize>
    ensures { MatchOption result (IsThere singleton.now others.now)
        (λ place. IsPlaceOf singleton.now others.now place) }
{
    for (index, held) in others.iter().enumerate() {
        match singleton.cmp(&held.singleton) {
            Ordering::Less => return Some(index),
            Ordering::Equal => return None,
            Ordering::Greater => {}
        }
    }
    Some(others.len())
}

// Puts an extension into a list by its singleton, unless one is there already: then the list stays as it is.
pub(crate) fn put_other(others: &mut Vec<Other>, other: Other) -> Result<(), AllocError>
    ensures ok { OnOk result (others.new.items ≡ put_first other others.old.items) }
    ensures err { OnErr result (others.new.items ≡ others.old.items) }
{
    match place_of(others.as_slice(), &other.singleton) {
        None => Ok(()),
        Some(place) => {
            let Ok(()) = others.insert(place, other) else {
                return Err(AllocError);
            };
            Ok(())
        }
    }
}
