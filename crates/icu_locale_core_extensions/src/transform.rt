//! The extension `t`.

ghost use Rattle.std.specs.Prelude.{◌≡◌, false, [], ◌∷◌, None, IsOk, IfOk, IfErr};
ghost use Rattle.std.specs.Result.{IsErrOf};
ghost use Rattle.icu_locale_core_grammar.specs.declared.error.ParseError.{ParseError};
ghost use Rattle.icu_locale_core_grammar.specs.Subtags.{is_transform};
ghost use Rattle.icu_locale_core_grammar.specs.Pieces.{pieces};
ghost use Rattle.icu_locale_core_grammar.specs.Meaning.{no_transform};
ghost use Rattle.icu_locale_core_grammar.specs.PartReaders.{ReadsTransform};
ghost use Rattle.icu_locale_core_subtag_lists.specs.Reading.{IsRefused};
ghost use Rattle.icu_locale_core_extensions.specs.ExtensionsValue.{is_empty_transform};
ghost use Rattle.icu_locale_core_extensions.specs.Allocation.{transform_may_grow, grows_after};

use crate::head::{LanguageHead, settled_language};
use crate::headed_reading::read_headed;
use icu_locale_core_grammar::ParseError;
use icu_locale_core_keywords_fields::transform::Fields;
use icu_locale_core_langid::LanguageIdentifier;
use icu_locale_core_subtags::transform::KeyRule;
use std::alloc::{AllocError, Global};
use std::marker::Model;

/// A language part or none, and fields: `t-de-latn-m0-true`. Source: UTS 35, section 3.7.
#[derive(Drop)]
pub struct Transform {
    /// The language part, where there is one.
    pub lang: Option<LanguageIdentifier>,
    /// The fields, by key.
    pub fields: Fields,
}

impl Model for Transform {
    ghost use Rattle.icu_locale_core_grammar.specs.Meaning.{TransformMeaning};

    ghost Value = { TransformMeaning };

    ghost view = { λ t. record { head = t.lang; entries = t.fields } };
}

// An equal language part, or none.
fn cloned_language(
    lang: &Option<LanguageIdentifier>,
) -> Result<Option<LanguageIdentifier>, AllocError>
    ensures succeeds { lang.now ≡ None → IsOk result }
    ensures value { IfOk result (λ cloned. cloned ≡ lang.now) }
{
    match lang {
        Some(lang) => Ok(Some(lang.try_clone()?)),
        None => Ok(None),
    }
}

impl Transform {
    /// No language part and no field: `is_empty` is true. It does not allocate.
    pub fn new(alloc: Global) -> Self
        ensures { result ≡ no_transform }
    {
        Transform {
            lang: None,
            fields: Fields::new(alloc),
        }
    }

    /// Whether it has neither a language part nor a field; then it prints nothing. False of `t-de`. It does not
    /// allocate.
    pub fn is_empty(&self) -> bool
        ensures { result ≡ is_empty_transform self.now }
    {
        self.lang.is_none() && self.fields.is_empty()
    }

    /// Removes the language part and all fields: of `t-de-m0-und` nothing is left. It does not allocate.
    pub fn clear(&mut self)
        ensures { self.new ≡ no_transform }
    {
        self.lang = None;
        self.fields.clear();
    }

    /// A copy: of `t-de` it is `t-de`. `AllocError`: out of memory. An empty one does not allocate.
    pub fn try_clone(&self) -> Result<Self, AllocError>
        ensures succeeds { self.now ≡ no_transform → IsOk result }
        ensures value { IfOk result (λ transform. transform ≡ self.now) }
    {
        let lang = cloned_language(&self.lang)?;
        let fields = self.fields.try_clone()?;
        Ok(Transform { lang, fields })
    }

    /// The extension in this text, with its singleton: `t-DE-m0-true` has the language part `de` and the field `m0`
    /// without a value.
    ///
    /// `InvalidExtension`: the text is no such extension, as `t`, `t-h0` and `u-foo`. `Memory`: out of memory. It does
    /// not allocate where no variant, value or end of a field comes before the first piece at fault, as in `t-de-latn`
    /// and `t-h0`. Source: UTS 35, sections 3.2 and 3.7.
    pub fn try_from_str(alloc: Global, s: &str) -> Result<Self, ParseError>
        ensures value { IfOk result (ReadsTransform s.now) }
        ensures fault { IfErr result (IsRefused (ReadsTransform s.now)) }
        ensures room { grows_after is_transform transform_may_grow (pieces s.now) ≡ false
            → ¬ (IsErrOf result ParseError.Memory) }
    {
        Self::try_from_utf8(alloc, s.as_bytes())
    }

    /// The extension in these bytes, as `try_from_str`: `T-De` has the language `de`. The errors are those of
    /// `try_from_str`; it allocates where that does.
    pub fn try_from_utf8(alloc: Global, code_units: &[u8]) -> Result<Self, ParseError>
        ensures value { IfOk result (ReadsTransform code_units.now) }
        ensures fault { IfErr result (IsRefused (ReadsTransform code_units.now)) }
        ensures room { grows_after is_transform transform_may_grow (pieces code_units.now) ≡ false
            → ¬ (IsErrOf result ParseError.Memory) }
    {
        match read_headed::<LanguageHead, KeyRule>(alloc, code_units, b't', None) {
            Ok((lang, fields)) => Ok(Transform {
                lang: settled_language(lang),
                fields,
            }),
            Err(fault) => Err(fault),
        }
    }
}
