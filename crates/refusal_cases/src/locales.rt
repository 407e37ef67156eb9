//! Locales: compared, and asked what they prefer and for the locale of their data.

use crate::case::Case;
use crate::change::ROOM;
use icu_locale_core::preferences::LocalePreferences;
use icu_locale_core::{DataLocale, Locale};
use rows::{Stop, put, put_debug};
use std::alloc::Global;

/// The answer of a call of a locale, which asks for no memory.
pub fn answer(case: Case<'_>, out: &mut String) -> Result<(), Stop> {
    out.reserve(ROOM)?;
    let locale = read(*out.allocator(), case.receiver)?;
    let answered = of_locale(case, &locale, out);
    drop(locale);
    answered
}

fn read(alloc: Global, field: &str) -> Result<Locale, Stop> {
    match Locale::try_from_str(alloc, field) {
        Ok(locale) => Ok(locale),
        Err(_) => Err(Stop::Unknown),
    }
}

fn of_locale(case: Case<'_>, locale: &Locale, out: &mut String) -> Result<(), Stop> {
    if case.call == "Locale::total_cmp" {
        let other = read(*out.allocator(), case.argument)?;
        case.begin();
        let order = locale.total_cmp(&other);
        drop(other);
        return put_debug(out, &order);
    }
    case.begin();
    asked(case, locale, out)
}

fn asked(case: Case<'_>, locale: &Locale, out: &mut String) -> Result<(), Stop> {
    match case.call {
        "Locale::strict_cmp" => put_debug(out, &locale.strict_cmp(case.argument.as_bytes())),
        "Locale::normalizing_eq" => equal(case, locale, out),
        "Locale::is_unknown" => put_debug(out, &locale.is_unknown()),
        "DataLocale::from" => put(out, &DataLocale::from(locale)),
        "LocalePreferences::to_data_locale_region_priority" => {
            let preferences = LocalePreferences::from(locale);
            put(out, &preferences.to_data_locale_region_priority())
        }
        _ => Err(Stop::Unknown),
    }
}

// Whether the argument means the locale: of an argument that asks for no memory.
fn equal(case: Case<'_>, locale: &Locale, out: &mut String) -> Result<(), Stop> {
    match locale.normalizing_eq(*out.allocator(), case.argument) {
        Ok(is_equal) => put_debug(out, &is_equal),
        Err(refused) => Err(Stop::from(refused)),
    }
}
