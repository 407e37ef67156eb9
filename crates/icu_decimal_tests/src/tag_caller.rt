//! The caller of `CALLING.md` of `icu_locale_core`.

ghost use Rattle.std.specs.Prelude.{◌≡◌, ◌⊎◌, IfErr, IfOk};
ghost use Rattle.icu_locale_core.specs.FaultyPiece.{HasFault};
ghost use Rattle.icu_locale_core.specs.Pieces.{pieces};
ghost use Rattle.icu_locale_core.specs.Meaning.{TagMeaning, MeansTag};
ghost use Rattle.icu_locale_core.specs.TagPreferences.{locale_preferences_of};
ghost use Rattle.icu_locale_core.specs.declared.ParseError.{ParseError};

use icu_locale_core::preferences::LocalePreferences;
use icu_locale_core::{Locale, ParseError};
use std::alloc::Global;

/// What a tag prefers: of `EN-us-u-nu-thai` the language `en` and the region `US`.
pub fn preferences_in(alloc: Global, tag: &str) -> Result<LocalePreferences, ParseError>
    ensures value { IfOk result (λ p. (m : TagMeaning) × MeansTag (pieces tag.now) m × (p ≡ locale_preferences_of m)) }
    ensures fault { IfErr result (λ e. (e ≡ ParseError.Memory) ⊎ HasFault MeansTag (pieces tag.now) e) }
{
    let locale = Locale::try_from_str(alloc, tag)?;
    Ok(LocalePreferences::from(&locale))
}
