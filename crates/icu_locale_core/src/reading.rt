//! Reading a data locale: a tag that says nothing else.

ghost use Rattle.std.specs.Prelude.{◌≡◌, ◌↔◌, ◌⊎◌, false, [], IfOk, IfErr, IsTrue, ◌∷◌};
ghost use Rattle.std.specs.Result.{IsErrOf};
ghost use Rattle.icu_locale_core_grammar.specs.declared.error.ParseError.{ParseError};
ghost use Rattle.icu_locale_core_grammar.specs.Pieces.{pieces};
ghost use Rattle.icu_locale_core_grammar.specs.TagPreferences.{subdivision_key, subdivision_text, subdivision_entries, locale_preferences_of, language_priority};
ghost use Rattle.icu_locale_core_grammar.specs.DataTags.{IsDataTag, IsRefusedTag, MeansDataLocale, HasDataFault};
ghost use Rattle.icu_locale_core_locale.specs.Allocation.{tag_may_grow};
ghost use Rattle.icu_locale_core.specs.DataExtensions.{data_extensions, data_unicode};

use crate::data_locale::DataLocale;
use crate::keywords::key_of;
use icu_locale_core_extensions::{Extensions, Unicode};
use icu_locale_core_grammar::ParseError;
use icu_locale_core_keywords_fields::unicode::{Keywords, Value};
use icu_locale_core_locale::Locale;
use icu_locale_core_preference_keywords::{RegionalSubdivision, SubdivisionId};
use icu_locale_core_subtags::Subtag;
use icu_locale_core_subtags::unicode::Key;
use std::alloc::Global;

// Whether the piece is all that the value has.
fn is_alone(value: &Value, piece: Subtag) -> bool
    ensures { IsTrue result ↔ (value.now ≡ piece ∷ []) }
{
    match value.as_single_subtag() {
        Some(only) => *only == piece,
        None => false,
    }
}

// Whether the entry is `sd` with this subdivision.
fn is_subdivision(key: &Key, value: &Value, subdivision: SubdivisionId) -> bool
    ensures { IsTrue result ↔ ((key.now ≡ subdivision_key) × (value.now ≡ subdivision_text subdivision ∷ [])) }
{
    *key == key_of::<RegionalSubdivision>() && is_alone(value, subdivision.into_subtag())
}

// Whether the subdivision is all that the keywords say.
fn are_subdivision(keywords: &Keywords, subdivision: Option<SubdivisionId>) -> bool
    ensures { IsTrue result ↔ (keywords.now ≡ subdivision_entries subdivision) }
{
    match subdivision {
        None => keywords.is_empty(),
        Some(subdivision) => match keywords.iter().as_slice() {
            [(key, value)] => is_subdivision(key, value, subdivision),
            _ => false,
        },
    }
}

// Whether the subdivision is all that the extension `u` says.
fn is_data_unicode(unicode: &Unicode, subdivision: Option<SubdivisionId>) -> bool
    ensures { IsTrue result ↔ (unicode.now ≡ data_unicode subdivision) }
{
    unicode.attributes.is_empty() && are_subdivision(&unicode.keywords, subdivision)
}

// Whether the subdivision is all that the extensions say.
fn are_data_extensions(extensions: &Extensions, subdivision: Option<SubdivisionId>) -> bool
    ensures { IsTrue result ↔ (extensions.now ≡ data_extensions subdivision) }
{
    is_data_unicode(&extensions.unicode, subdivision)
        && extensions.transform.is_empty()
        && extensions.private.is_empty()
        && extensions.other.is_empty()
}

// The data locale that the tag is, or why it is not one.
fn data_locale_of(locale: &Locale) -> Result<DataLocale, ParseError>
    ensures is { IfOk result (λ _. IsDataTag locale.now) }
    ensures value { IfOk result (λ d. language_priority (locale_preferences_of locale.now) ≡ d) }
    ensures refused { IfErr result (IsRefusedTag locale.now) }
{
    let data_locale = DataLocale::from(locale);
    if locale.id.variants.len() > 1 {
        return Err(ParseError::InvalidSubtag);
    }
    if !are_data_extensions(&locale.extensions, data_locale.subdivision) {
        return Err(ParseError::InvalidExtension);
    }
    Ok(data_locale)
}

impl DataLocale {
    /// The data locale that the text is, in either case: a tag of a language, and of a script, a region, a variant and
    /// `sd` where they are asked for.
    ///
    /// `en-us-u-sd-ustx` reads as `en-US-u-sd-ustx`. The faults of a tag come first, as `Locale::try_from_str` names
    /// them. `InvalidSubtag`: a second variant, as in `de-1996-fonipa`. `InvalidExtension`: anything else that a data
    /// locale does not hold, as in `en-u-nu-latn`, `en-x-foo` and `en-u-sd-12a`. `Memory`: out of memory; it allocates
    /// only for variants and extensions. Source: UTS 35, section 3.
    pub fn try_from_str(alloc: Global, s: &str) -> Result<Self, ParseError>
        ensures value { IfOk result (MeansDataLocale (pieces s.now)) }
        ensures fault { IfErr result (λ e. (e ≡ ParseError.Memory) ⊎ HasDataFault (pieces s.now) e) }
        ensures room { tag_may_grow (pieces s.now) ≡ false → ¬ (IsErrOf result ParseError.Memory) }
    {
        Self::try_from_utf8(alloc, s.as_bytes())
    }

    /// The data locale that the bytes are, as `try_from_str`: `DE-1996` reads as `de-1996`. The errors are those of
    /// `try_from_str`; it allocates where that does.
    pub fn try_from_utf8(alloc: Global, code_units: &[u8]) -> Result<Self, ParseError>
        ensures value { IfOk result (MeansDataLocale (pieces code_units.now)) }
        ensures fault { IfErr result (λ e. (e ≡ ParseError.Memory) ⊎ HasDataFault (pieces code_units.now) e) }
        ensures room { tag_may_grow (pieces code_units.now) ≡ false → ¬ (IsErrOf result ParseError.Memory) }
    {
        let locale = Locale::try_from_utf8(alloc, code_units)?;
        data_locale_of(&locale)
    }
}
