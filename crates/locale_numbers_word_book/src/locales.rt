//! The locales that words are asked for under.

ghost use Rattle.std.specs.Prelude.{◌≡◌, ◌++◌, ◌∷◌, [], IfOk, OnOk, filter, is_some};
ghost use Rattle.icu_decimal.specs.Chains.{chain, walk};
ghost use Rattle.icu_locale_core.specs.TagPreferences.{language_priority};
ghost use Rattle.locale_numbers_words.specs.FoundWords.{patterns_for};
ghost use Rattle.locale_numbers_word_book.specs.WordLocales.{asked_locales, is_no_root, own_locales, own_of, with_root};

use icu_decimal::DecimalFormatterPreferences;
use icu_decimal::provider::ParentProvider;
use icu_locale_core::DataLocale;
use locale_numbers_book::Tables;
use locale_numbers_words::Words;
use std::alloc::{AllocError, Global};

// Whether a locale is not `und`.
fn is_no_root(locale: &DataLocale) -> bool
    ensures { result ≡ is_no_root locale.now }
{
    !locale.is_unknown()
}

// Appends a locale that is not `und`.
fn put_known(locale: DataLocale, locales: &mut Vec<DataLocale>) -> Result<(), AllocError>
    ensures { OnOk result (locales.new.items ≡ locales.old.items ++ filter is_no_root (locale ∷ [])) }
{
    if is_no_root(&locale) {
        locales.push(locale)?;
    }
    Ok(())
}

// Appends those of a chain after its first locale, but `und`.
fn put_parents<P: ParentProvider>(
    provider: &P,
    first: DataLocale,
    locales: &mut Vec<DataLocale>,
) -> Result<(), AllocError>
    ensures { OnOk result (locales.new.items
        ≡ locales.old.items ++ filter is_no_root (walk (P.next provider.now) (P.limit provider.now) first)) }
{
    let mut current = first;
    for _turn in 0..provider.chain_limit() {
        match provider.parent(&current) {
            Some(parent) => {
                put_known(parent, locales)?;
                current = parent;
            }
            None => return Ok(()),
        }
    }
    Ok(())
}

// Puts the first locale of a chain, and the others but `und`, into an empty list.
fn put_own<P: ParentProvider>(
    provider: &P,
    first: DataLocale,
    locales: &mut Vec<DataLocale>,
) -> Result<(), AllocError>
    requires { locales.old.items ≡ [] }
    ensures { OnOk result (locales.new.items ≡ own_of (chain (P.next provider.now) (P.limit provider.now) first)) }
{
    locales.push(first)?;
    put_parents(provider, first, locales)
}

// The same, for preferences.
fn put_own_locales<T: Tables>(
    tables: &T,
    preferences: &DecimalFormatterPreferences,
    locales: &mut Vec<DataLocale>,
) -> Result<(), AllocError>
    requires { locales.old.items ≡ [] }
    ensures { OnOk result (locales.new.items ≡ own_locales (T.book tables.now) preferences.now) }
{
    let first = preferences
        .locale_preferences
        .to_data_locale_language_priority();
    put_own(tables, first, locales)
}

// Whether one of these locales has a name pattern.
fn have_pattern(words: &Words, locales: &[DataLocale]) -> bool
    ensures { result ≡ is_some (patterns_for words.now locales.now) }
{
    for locale in locales {
        if words.patterns(locale).is_some() {
            return true;
        }
    }
    false
}

// Appends `und` to locales of which one has a name pattern.
fn put_root(words: &Words, locales: &mut Vec<DataLocale>) -> Result<(), AllocError>
    ensures { OnOk result (locales.new.items ≡ with_root words.now locales.old.items) }
{
    if have_pattern(words, locales.as_slice()) {
        locales.push(DataLocale::default())?;
    }
    Ok(())
}

// Puts the locales that these words are asked for under into an empty list.
pub(crate) fn put_asked<T: Tables>(
    words: &Words,
    tables: &T,
    preferences: &DecimalFormatterPreferences,
    locales: &mut Vec<DataLocale>,
) -> Result<(), AllocError>
    requires { locales.old.items ≡ [] }
    ensures { OnOk result (locales.new.items ≡ asked_locales words.now (T.book tables.now) preferences.now) }
{
    put_own_locales(tables, preferences, locales)?;
    put_root(words, locales)
}

/// The locales under which words are asked for that preferences ask for, of the tables of a book: `de-AT` and `de` of
/// `de-AT`. A file of words is that of the language of one of them.
///
/// They are those of the chain but `und`, where that is not the first. It allocates. `AllocError`: out of memory.
pub fn word_locales<T: Tables>(
    alloc: Global,
    tables: &T,
    preferences: &DecimalFormatterPreferences,
) -> Result<Vec<DataLocale>, AllocError>
    ensures { IfOk result (λ locales. locales.items ≡ own_locales (T.book tables.now) preferences.now) }
{
    let mut locales = Vec::new(alloc);
    match put_own_locales(tables, preferences, &mut locales) {
        Ok(()) => Ok(locales),
        Err(refused) => {
            drop(locales);
            Err(refused)
        }
    }
}
