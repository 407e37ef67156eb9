//! The numbering system of a locale, and whether its keywords read.

ghost use Rattle.std.specs.Prelude.{◌≡◌};
ghost use Rattle.icu_locale_core.specs.TagPreferences.{numbering_key, keyword_piece};
ghost use Rattle.icu_locale_core.specs.PreferenceChanges.{fails_numbering};

use icu_locale_core::Locale;
use icu_locale_core::extensions::unicode::{Key, Keywords};
use icu_locale_core::preferences::extensions::unicode::keywords::NumberingSystem;

// The key `nu`.
fn key_of_numbering() -> Key
    ensures { result ≡ numbering_key }
{
    match Key::try_from_str("nu") {
        Ok(key) => key,
        Err(_) => unreachable!(),
    }
}

// The system at this key, where its value is one subtag.
fn system_at(keywords: &Keywords, key: &Key) -> Option<NumberingSystem>
    ensures { result ≡ keyword_piece key.now keywords.now }
{
    match keywords.get(key) {
        Some(value) => NumberingSystem::try_from(value).ok(),
        None => None,
    }
}

// The numbering system of the locale: the value of `nu`, where that is one subtag.
pub(crate) fn system_of(locale: &Locale) -> Option<NumberingSystem>
    ensures { result ≡ keyword_piece numbering_key locale.now.extensions.unicode.entries }
{
    system_at(&locale.extensions.unicode.keywords, &key_of_numbering())
}

// Whether `nu` is there, and does not read.
pub(crate) fn fails_at_numbering(locale: &Locale) -> bool
    ensures { result ≡ fails_numbering locale.now.extensions.unicode.entries }
{
    let keywords = &locale.extensions.unicode.keywords;
    let key = key_of_numbering();
    keywords.contains_key(&key) && system_at(keywords, &key).is_none()
}
