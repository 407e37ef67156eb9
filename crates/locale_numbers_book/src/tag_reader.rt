//! What a tag prefers.

ghost use Rattle.std.specs.Prelude.{◌≡◌, false, true, IfOk, IfSome, IsOk, OnErr};
ghost use Rattle.icu_locale_core.specs.Pieces.{pieces};
ghost use Rattle.icu_locale_core.specs.SingleModes.{single};
ghost use Rattle.icu_locale_core.specs.SingleVariant.{SingleMeaning, MeansSingle, single_tag};
ghost use Rattle.icu_locale_core.specs.Subtags.{is_true};
ghost use Rattle.icu_locale_core.specs.TagPreferences.{preferences_of};
ghost use Rattle.icu_locale_core.specs.TagAllocation.{tag_may_grow};
ghost use Rattle.locale_numbers_book.specs.Wanted.{wanted_of};

use icu_decimal::DecimalFormatterPreferences;
use icu_locale_core::parser::SingleParts;
use icu_locale_core::preferences::LocalePreferences;
use icu_locale_core::preferences::extensions::unicode::keywords::NumberingSystem;
use icu_locale_core::subtags::Subtag;
use icu_locale_core::{Locale, ParseError};
use std::alloc::{AllocError, Global};

// The numbering system that a subtag of a value names.
#[tactic(auto, using(crate::proofs::WantedLemmas::system_named, crate::proofs::WantedLemmas::system_refused))]
fn system_named(subtag: Option<Subtag>) -> Option<NumberingSystem>
    requires { IfSome subtag (λ s. is_true s ≡ false) }
    ensures { result ≡ subtag }
{
    match NumberingSystem::try_from(subtag?) {
        Ok(system) => Some(system),
        Err(_) => unreachable!(),
    }
}

// What a tag of one variant and one keyword at most prefers.
fn preferences_in(parts: SingleParts) -> DecimalFormatterPreferences
    requires { IfSome (preferences_of (single_tag (single parts))).numbering_system (λ s. is_true s ≡ false) }
    ensures { result ≡ preferences_of (single_tag (single parts)) }
{
    let (locale_preferences, subtag) = LocalePreferences::from_single_parts(parts);
    DecimalFormatterPreferences {
        locale_preferences,
        numbering_system: system_named(subtag),
    }
}

// What a tag of any form prefers.
fn read_any(alloc: Global, tag: &[u8]) -> Result<Option<DecimalFormatterPreferences>, AllocError>
    ensures value { IfOk result (λ preferences. preferences ≡ wanted_of tag.now) }
    ensures room { OnErr result (tag_may_grow (pieces tag.now) ≡ true) }
{
    match Locale::try_from_utf8(alloc, tag) {
        Ok(locale) => Ok(Some(DecimalFormatterPreferences::from(&locale))),
        Err(fault) => match fault {
            ParseError::Memory => Err(AllocError),
            _ => Ok(None),
        },
    }
}

/// What a tag prefers, or `None` where the bytes are no tag: `en-u-nu-thai` prefers the locale `en` and the system
/// `thai`, and `e` is no tag.
///
/// `AllocError`: out of memory. A tag of at most one variant and one keyword does not allocate, nor does one of
/// language, script and region only.
pub fn read_preferences(
    alloc: Global,
    tag: &[u8],
) -> Result<Option<DecimalFormatterPreferences>, AllocError>
    ensures value { IfOk result (λ preferences. preferences ≡ wanted_of tag.now) }
    ensures room { OnErr result (tag_may_grow (pieces tag.now) ≡ true) }
    ensures single { (m : SingleMeaning) → MeansSingle (pieces tag.now) m → IsOk result }
{
    match Locale::try_from_utf8_with_single_variant_single_keyword_unicode_extension(tag) {
        Ok(parts) => Ok(Some(preferences_in(parts))),
        Err(_) => read_any(alloc, tag),
    }
}
