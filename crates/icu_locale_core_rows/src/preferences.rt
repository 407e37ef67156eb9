//! Rows of what locales prefer.

use crate::call::Call;
use crate::part::of_text;
use crate::refusals::stated;
use crate::writing::put_optional;
use icu_locale_core::Locale;
use icu_locale_core::laws::preferences::same_preferences;
use icu_locale_core::preferences::{LocalePreferences, numbering_system};
use rows::{Stop, put, put_last_written, put_written};

/// The answer of a call of preferences, which are those of the locale of a text.
pub fn preferences(call: &Call<'_>, out: &mut String) -> Result<(), Stop> {
    match call.name {
        "default" => put_locale(out, call, LocalePreferences::default()),
        "from_locale_strict" | "numbering_system" => {
            let locale: Locale = of_text(call, call.first, out)?;
            let done = answer_lent(&locale, call, out);
            drop(locale);
            done
        }
        "==" | "extend" | "same_preferences" => answer_two(call, out),
        _ => answer_one(preferences_of(call, call.first, out)?, call, out),
    }
}

// Writes the locale that has these preferences.
fn put_locale(
    out: &mut String,
    call: &Call<'_>,
    preferences: LocalePreferences,
) -> Result<(), Stop> {
    put_last_written(out, preferences.to_locale(call.alloc)?)
}

// The answer of a call that is lent a locale.
fn answer_lent(locale: &Locale, call: &Call<'_>, out: &mut String) -> Result<(), Stop> {
    if call.name == "numbering_system" {
        return put_optional(out, numbering_system(locale).as_ref());
    }
    let preferences = stated(LocalePreferences::from_locale_strict(locale), out)?;
    put_locale(out, call, preferences)
}

// The preferences of the locale of a text.
fn preferences_of(
    call: &Call<'_>,
    text: &str,
    out: &mut String,
) -> Result<LocalePreferences, Stop> {
    let locale: Locale = of_text(call, text, out)?;
    let preferences = LocalePreferences::from(&locale);
    drop(locale);
    Ok(preferences)
}

// The answer of a call of the preferences of two texts.
fn answer_two(call: &Call<'_>, out: &mut String) -> Result<(), Stop> {
    let mut one = preferences_of(call, call.first, out)?;
    let other = preferences_of(call, call.second, out)?;
    match call.name {
        "==" => put(out, &(one == other)),
        "extend" => {
            one.extend(other);
            put_locale(out, call, one)
        }
        _ => put(out, &same_preferences(&one, &other)),
    }
}

fn answer_one(
    preferences: LocalePreferences,
    call: &Call<'_>,
    out: &mut String,
) -> Result<(), Stop> {
    match call.name {
        "to_data_locale_language_priority" => {
            put_written(out, &preferences.to_data_locale_language_priority())
        }
        "to_data_locale_region_priority" => {
            put_written(out, &preferences.to_data_locale_region_priority())
        }
        "to_locale" => put_locale(out, call, preferences),
        "language" => put_written(out, &preferences.language()),
        "region" => put_optional(out, preferences.region().as_ref()),
        _ => Err(Stop::Unknown),
    }
}
