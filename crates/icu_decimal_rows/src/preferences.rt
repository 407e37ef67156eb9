//! Answers of the calls of preferences and of options.

use crate::formatters::strategy_of as strategy_named;
use crate::refusals::read;
use icu_decimal::options::{CompactDecimalFormatterOptions, DecimalFormatterOptions, strategy_of};
use icu_decimal::preferences::{CompactDecimalFormatterPreferences, DecimalFormatterPreferences};
use icu_decimal::provider::DataIdentifier;
use icu_locale_core::preferences::extensions::unicode::errors::PreferencesParseError;
use icu_locale_core::{LanguageIdentifier, Locale};
use rows::{Stop, put, put_debug, put_text, refused_debug};
use std::alloc::Global;

// Writes a locale, and the numbering system after a blank.
fn put_identifier(out: &mut String, id: DataIdentifier) -> Result<(), Stop> {
    write!(out, "{} {}", id.locale, id.attributes)?;
    Ok(())
}

// Writes the locale that is preferred, and the numbering system after a blank, where one is preferred.
fn put_preferred(out: &mut String, preferences: &DecimalFormatterPreferences) -> Result<(), Stop> {
    let locale = preferences
        .locale_preferences
        .to_data_locale_language_priority();
    match preferences.nu_id(&locale) {
        Some(id) => put_identifier(out, id),
        None => put(out, &locale),
    }
}

// What a locale prefers by a strict call; the name of a refusal is the answer.
fn strict<T>(read: Result<T, PreferencesParseError>, out: &mut String) -> Result<T, Stop> {
    match read {
        Ok(preferences) => Ok(preferences),
        Err(refusal) => Err(refused_debug(out, &refusal)),
    }
}

// Preferences for compact numbers, made into those for plain ones.
fn plain(compact: CompactDecimalFormatterPreferences) -> DecimalFormatterPreferences {
    DecimalFormatterPreferences::from(&compact)
}

// What a locale prefers, by a call that borrows it.
fn of_locale(
    call: &str,
    locale: &Locale,
    out: &mut String,
) -> Result<DecimalFormatterPreferences, Stop> {
    match call {
        "from" => Ok(DecimalFormatterPreferences::from(locale)),
        "from_id" => Ok(DecimalFormatterPreferences::from(&locale.id)),
        "from_locale_strict" => {
            strict(DecimalFormatterPreferences::from_locale_strict(locale), out)
        }
        "compact_from" => Ok(plain(CompactDecimalFormatterPreferences::from(locale))),
        "compact_from_id" => Ok(plain(CompactDecimalFormatterPreferences::from(&locale.id))),
        "compact_from_locale_strict" => Ok(plain(strict(
            CompactDecimalFormatterPreferences::from_locale_strict(locale),
            out,
        )?)),
        _ => Err(Stop::Unknown),
    }
}

// The locale of a tag.
fn locale_of(alloc: Global, tag: &str) -> Result<Locale, Stop> {
    read(Locale::try_from_str(alloc, tag))
}

// The language identifier of a tag.
fn identifier_of(alloc: Global, tag: &str) -> Result<LanguageIdentifier, Stop> {
    read(LanguageIdentifier::try_from_str(alloc, tag))
}

// What the locale of a tag prefers, by a call that borrows it.
fn of_lent(call: &str, tag: &str, out: &mut String) -> Result<DecimalFormatterPreferences, Stop> {
    let locale = locale_of(*out.allocator(), tag)?;
    let preferences = of_locale(call, &locale, out);
    drop(locale);
    preferences
}

// What the locale or the language identifier of a tag prefers, by a call that takes it or borrows it.
fn of_tag(call: &str, tag: &str, out: &mut String) -> Result<DecimalFormatterPreferences, Stop> {
    let alloc = *out.allocator();
    match call {
        "from_own" => Ok(DecimalFormatterPreferences::from(locale_of(alloc, tag)?)),
        "from_own_id" => Ok(DecimalFormatterPreferences::from(identifier_of(alloc, tag)?)),
        "compact_from_own" => Ok(plain(CompactDecimalFormatterPreferences::from(locale_of(
            alloc, tag,
        )?))),
        "compact_from_own_id" => Ok(plain(CompactDecimalFormatterPreferences::from(identifier_of(
            alloc, tag,
        )?))),
        _ => of_lent(call, tag, out),
    }
}

// What the first prefer, extended by what the second do.
fn extended(
    one: &DecimalFormatterPreferences,
    other: &DecimalFormatterPreferences,
) -> DecimalFormatterPreferences {
    let mut both = *one;
    both.extend(*other);
    both
}

// Preferences for compact numbers that are those for plain ones.
fn compact(of: &DecimalFormatterPreferences) -> CompactDecimalFormatterPreferences {
    CompactDecimalFormatterPreferences {
        locale_preferences: of.locale_preferences,
        numbering_system: of.numbering_system,
    }
}

// The same as `extended`, of preferences for compact numbers.
fn extended_compact(
    one: &DecimalFormatterPreferences,
    other: &DecimalFormatterPreferences,
) -> DecimalFormatterPreferences {
    let mut both = compact(one);
    both.extend(compact(other));
    plain(both)
}

// The locale of the second with the system of the first, where the first prefer one.
fn put_nu_id(
    out: &mut String,
    one: &DecimalFormatterPreferences,
    other: &DecimalFormatterPreferences,
) -> Result<(), Stop> {
    let locale = other.locale_preferences.to_data_locale_language_priority();
    match one.nu_id(&locale) {
        Some(id) => put_identifier(out, id),
        None => put_text(out, "none"),
    }
}

// The answer of a call of two preferences.
fn of_two(
    call: &str,
    one: &DecimalFormatterPreferences,
    other: &DecimalFormatterPreferences,
    out: &mut String,
) -> Result<(), Stop> {
    match call {
        "extend" => put_preferred(out, &extended(one, other)),
        "compact_extend" => put_preferred(out, &extended_compact(one, other)),
        "nu_id" => put_nu_id(out, one, other),
        "==" => put(out, &(one == other)),
        _ => Err(Stop::Unknown),
    }
}

// What is preferred by default.
fn put_default(call: &str, out: &mut String) -> Result<(), Stop> {
    match call {
        "default" => put_preferred(out, &DecimalFormatterPreferences::default()),
        "compact_default" => {
            put_preferred(out, &plain(CompactDecimalFormatterPreferences::default()))
        }
        _ => Err(Stop::Unknown),
    }
}

/// The answer of a call of preferences.
pub fn answer(passed: &[&str], out: &mut String) -> Result<(), Stop> {
    match passed {
        [call] => put_default(call, out),
        [call, tag] => {
            let preferences = of_tag(call, tag, out)?;
            put_preferred(out, &preferences)
        }
        [call, tag, other] => {
            let one = of_lent("from", tag, out)?;
            let other = of_lent("from", other, out)?;
            of_two(call, &one, &other, out)
        }
        _ => Err(Stop::Unknown),
    }
}

// Writes what options for plain numbers say, those for compact ones, those for compact numbers made of the first, those
// for plain numbers made of the second; and the strategy that the first name.
fn put_options(
    out: &mut String,
    plain: DecimalFormatterOptions,
    compact: CompactDecimalFormatterOptions,
) -> Result<(), Stop> {
    let of_plain = CompactDecimalFormatterOptions::from(plain).grouping_strategy;
    let of_compact = DecimalFormatterOptions::from(compact).grouping_strategy;
    for says in [
        plain.grouping_strategy,
        compact.grouping_strategy,
        of_plain,
        of_compact,
    ] {
        put_debug(out, &says)?;
        put_text(out, " ")?;
    }
    put_debug(out, &strategy_of(plain))
}

/// What options say that are the default ones or made of a strategy.
pub fn options(passed: &[&str], out: &mut String) -> Result<(), Stop> {
    match passed {
        ["default"] => put_options(
            out,
            DecimalFormatterOptions::default(),
            CompactDecimalFormatterOptions::default(),
        ),
        [word] => {
            let strategy = strategy_named(word)?;
            put_options(
                out,
                DecimalFormatterOptions::from(strategy),
                CompactDecimalFormatterOptions::from(strategy),
            )
        }
        _ => Err(Stop::Unknown),
    }
}
