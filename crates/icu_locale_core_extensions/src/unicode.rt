//! The extension `u`.

ghost use Rattle.std.specs.Prelude.{◌≡◌, true, false, [], ◌∷◌, ◌++◌, IsOk, IfOk, IfErr, OnOk, OnErr};
ghost use Rattle.std.specs.Result.{IsErrOf};
ghost use Rattle.icu_locale_core_grammar.specs.declared.error.ParseError.{ParseError};
ghost use Rattle.icu_locale_core_grammar.specs.Subtags.{is_unicode};
ghost use Rattle.icu_locale_core_grammar.specs.Pieces.{pieces};
ghost use Rattle.icu_locale_core_grammar.specs.Meaning.{no_unicode};
ghost use Rattle.icu_locale_core_grammar.specs.Collections.{set_of};
ghost use Rattle.icu_locale_core_keywords_fields.specs.EntryChanges.{HasKeysOf, joined_maps};
ghost use Rattle.icu_locale_core_grammar.specs.PartReaders.{ReadsUnicode};
ghost use Rattle.icu_locale_core_subtag_lists.specs.Reading.{IsRefused};
ghost use Rattle.icu_locale_core_subtag_lists.specs.SubtagSets.{has_all_of};
ghost use Rattle.icu_locale_core_extensions.specs.ExtensionsValue.{is_empty_unicode};
ghost use Rattle.icu_locale_core_extensions.specs.Allocation.{unicode_may_grow, grows_after};

use crate::head::AttributesHead;
use crate::headed_reading::read_headed;
use icu_locale_core_grammar::ParseError;
use icu_locale_core_keywords_fields::unicode::Keywords;
use icu_locale_core_subtag_lists::laws::texts_rise;
use icu_locale_core_subtag_lists::{Attributes, GrowingSet};
use icu_locale_core_subtags::unicode::KeyRule;
use std::alloc::{AllocError, Global};
use std::marker::Model;

/// Attributes and keywords: `u-foo-nu-thai`. Source: UTS 35, section 3.6.
#[derive(Drop)]
pub struct Unicode {
    /// The keywords, by key.
    pub keywords: Keywords,
    /// The attributes, in byte order.
    pub attributes: Attributes,
}

impl Model for Unicode {
    ghost use Rattle.icu_locale_core_grammar.specs.Meaning.{UnicodeMeaning};

    ghost Value = { UnicodeMeaning };

    ghost view = { λ u. record { head = u.attributes; entries = u.keywords } };
}

impl Unicode {
    /// No attribute and no keyword: `is_empty` is true. It does not allocate.
    pub fn new(alloc: Global) -> Self
        ensures { result ≡ no_unicode }
    {
        Unicode {
            keywords: Keywords::new(alloc),
            attributes: Attributes::new(alloc),
        }
    }

    /// Whether it has neither attribute nor keyword; then it prints nothing. False of `u-foo`. It does not allocate.
    pub fn is_empty(&self) -> bool
        ensures { result ≡ is_empty_unicode self.now }
    {
        self.attributes.is_empty() && self.keywords.is_empty()
    }

    /// Removes all attributes and keywords: of `u-foo-nu-thai` nothing is left. It does not allocate.
    pub fn clear(&mut self)
        ensures { self.new ≡ no_unicode }
    {
        self.keywords.clear();
        self.attributes.clear();
    }

    /// A copy: of `u-nu-thai` it is `u-nu-thai`. `AllocError`: out of memory. An empty one does not allocate.
    pub fn try_clone(&self) -> Result<Self, AllocError>
        ensures succeeds { self.now ≡ no_unicode → IsOk result }
        ensures value { IfOk result (λ unicode. unicode ≡ self.now) }
    {
        let keywords = self.keywords.try_clone()?;
        let attributes = self.attributes.try_clone()?;
        Ok(Unicode {
            keywords,
            attributes,
        })
    }

    /// Adds the attributes and keywords of the other extension to this one; of equal keys the other's value is kept.
    ///
    /// `u-foo-nu-thai` with `u-bar-nu-latn` becomes `u-bar-foo-nu-latn`. `AllocError`: out of memory; the extension is
    /// then as before. It does not allocate where one of the two has all attributes and all keys of the other, as
    /// `u-nu-thai` with `u-nu-latn`.
    pub fn extend(&mut self, other: Unicode) -> Result<(), AllocError>
        ensures succeeds { other ≡ no_unicode → IsOk result }
        ensures empty { self.old ≡ no_unicode → IsOk result }
        ensures there { has_all_of self.old.head other.head ≡ true → HasKeysOf self.old.entries other.entries
            → IsOk result }
        ensures within { has_all_of other.head self.old.head ≡ true → HasKeysOf other.entries self.old.entries
            → IsOk result }
        ensures attributes { OnOk result (self.new.head ≡ set_of (self.old.head ++ other.head)) }
        ensures keywords { OnOk result (self.new.entries ≡ joined_maps other.entries self.old.entries) }
        ensures err { OnErr result (self.new ≡ self.old) }
    {
        if self.attributes.has_all(other.attributes.as_slice()) {
            texts_rise(&self.attributes);
            return self.keywords.extend_from_keywords(other.keywords);
        }
        let attributes = self.attributes.joined(other.attributes)?;
        self.keywords.extend_from_keywords(other.keywords)?;
        self.attributes = attributes;
        Ok(())
    }

    /// The extension in this text, with its singleton: `u-FOO-nu-thai` has the attribute `foo` and `nu` with `thai`.
    ///
    /// `InvalidExtension`: the text is no such extension, as `u`, `u-nu-` and `t-de`. `Memory`: out of memory. It does
    /// not allocate where no attribute, value or end of a keyword comes before the first piece at fault, as in
    /// `u-nu-toolongpiece`. Source: UTS 35, sections 3.2 and 3.6.
    pub fn try_from_str(alloc: Global, s: &str) -> Result<Self, ParseError>
        ensures value { IfOk result (ReadsUnicode s.now) }
        ensures fault { IfErr result (IsRefused (ReadsUnicode s.now)) }
        ensures room { grows_after is_unicode unicode_may_grow (pieces s.now) ≡ false
            → ¬ (IsErrOf result ParseError.Memory) }
    {
        Self::try_from_utf8(alloc, s.as_bytes())
    }

    /// The extension in these bytes, as `try_from_str`: `u-FOO` has the attribute `foo`. The errors are those of
    /// `try_from_str`; it allocates where that does.
    pub fn try_from_utf8(alloc: Global, code_units: &[u8]) -> Result<Self, ParseError>
        ensures value { IfOk result (ReadsUnicode code_units.now) }
        ensures fault { IfErr result (IsRefused (ReadsUnicode code_units.now)) }
        ensures room { grows_after is_unicode unicode_may_grow (pieces code_units.now) ≡ false
            → ¬ (IsErrOf result ParseError.Memory) }
    {
        let attributes = GrowingSet::new(alloc);
        match read_headed::<AttributesHead, KeyRule>(alloc, code_units, b'u', attributes) {
            Ok((attributes, keywords)) => Ok(Unicode {
                keywords,
                attributes: attributes.settled(),
            }),
            Err(fault) => Err(fault),
        }
    }
}
