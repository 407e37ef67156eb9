//! The tables of units that preferences ask a provider for.

ghost use Rattle.std.specs.Prelude.{◌≡◌};
ghost use Rattle.std.specs.Option.{option_copied};
ghost use Rattle.std.specs.Result.{result_map_both};
ghost use Rattle.icu_decimal.specs.Choice.{first_found};
ghost use Rattle.icu_decimal.specs.Identifiers.{identifiers_along};
ghost use Rattle.icu_locale_core.specs.TagPreferences.{language_priority};
ghost use Rattle.icu_dimension.specs.ProvidedUnits.{written_as};
ghost use Rattle.icu_dimension.specs.UnitChoice.{amounts_found, fractions_found, name_found, percent_found, unit_chain, usual_amounts};
ghost use Rattle.icu_dimension_fractions.specs.declared.CurrencyStyle.TheVariants.{Accounting};

use crate::provider::amounts::AmountPatterns;
use crate::provider::chain_loading::load_under;
use crate::provider::markers::{
    CurrencyAccountingV1, CurrencyEssentialsV1, CurrencyFractionsV1, CurrencySymbolsV1,
    PercentEssentialsV1,
};
use crate::provider::names::CurrencySymbol;
use crate::provider::percents::PercentPattern;
use icu_decimal::preferences::{DecimalFormatterPreferences, NumberingSystem};
use icu_decimal::provider::{DataError, DataIdentifier, DataMarker, DataProvider, ParentProvider};
use icu_dimension_fractions::{CurrencyCode, CurrencyStyle, CurrencyWidth, Fraction, FractionInfo};
use icu_locale_core::DataLocale;
use tinystr::TinyAsciiStr;

/// The first table of the numbering system, where one is asked for, along the chain of the locale and then of `und`, and
/// else the first one of no system: of tables of `de` and of `und` with `arab`, `de-AT` gets that of `de`, and with `arab`
/// that of `und`.
///
/// `und` is asked for only where the provider has parents at all. Another error than `IdentifierNotFound` is returned at
/// once; `IdentifierNotFound`: nothing is there. It does not allocate.
pub fn load_by_system<'p, M: DataMarker, P: DataProvider<M> + ParentProvider>(
    provider: &'p P,
    locale: &DataLocale,
    system: Option<NumberingSystem>,
) -> Result<&'p M::DataStruct, DataError>
    ensures { result_map_both (λ found. found.now) (λ error. error) result ≡ first_found (λ id. P.table provider.now id)
        (identifiers_along system (unit_chain (P.next provider.now) (P.limit provider.now) locale.now)) }
{
    let alone = TinyAsciiStr::default();
    let system = match system {
        Some(system) => system.to_tinystr(),
        None => return load_under::<M, P>(provider, locale, alone),
    };
    match load_under::<M, P>(provider, locale, system) {
        Ok(found) => Ok(found),
        Err(error) => match error {
            DataError::IdentifierNotFound => load_under::<M, P>(provider, locale, alone),
            _ => Err(error),
        },
    }
}

// The first patterns in accounting, whatever the currency: of accounts, and then of currencies.
fn load_accounts<'p, P>(
    provider: &'p P,
    locale: &DataLocale,
    system: &Option<NumberingSystem>,
) -> Result<&'p AmountPatterns, DataError>
where
    P: DataProvider<CurrencyEssentialsV1> + DataProvider<CurrencyAccountingV1> + ParentProvider,
    ensures { result_map_both (λ found. found.now) (λ error. error) result ≡ usual_amounts Accounting
        (λ id. ⟦<P as DataProvider<CurrencyEssentialsV1>>⟧.table provider.now id)
        (λ id. ⟦<P as DataProvider<CurrencyAccountingV1>>⟧.table provider.now id)
        (unit_chain (P.next provider.now) (P.limit provider.now) locale.now) system.now }
{
    match load_by_system::<CurrencyAccountingV1, P>(provider, locale, *system) {
        Ok(found) => Ok(found),
        Err(error) => match error {
            DataError::IdentifierNotFound => {
                load_by_system::<CurrencyEssentialsV1, P>(provider, locale, *system)
            }
            _ => Err(error),
        },
    }
}

// The first patterns of amounts in a style, whatever the currency.
fn load_usual_amounts<'p, P>(
    provider: &'p P,
    locale: &DataLocale,
    system: &Option<NumberingSystem>,
    style: CurrencyStyle,
) -> Result<&'p AmountPatterns, DataError>
where
    P: DataProvider<CurrencyEssentialsV1> + DataProvider<CurrencyAccountingV1> + ParentProvider,
    ensures { result_map_both (λ found. found.now) (λ error. error) result ≡ usual_amounts style
        (λ id. ⟦<P as DataProvider<CurrencyEssentialsV1>>⟧.table provider.now id)
        (λ id. ⟦<P as DataProvider<CurrencyAccountingV1>>⟧.table provider.now id)
        (unit_chain (P.next provider.now) (P.limit provider.now) locale.now) system.now }
{
    match style {
        CurrencyStyle::Standard => {
            load_by_system::<CurrencyEssentialsV1, P>(provider, locale, *system)
        }
        CurrencyStyle::Accounting => load_accounts(provider, locale, system),
    }
}

// The first patterns of amounts in a currency and a style: of the code, and then the usual ones.
fn load_by_code<'p, P>(
    provider: &'p P,
    locale: &DataLocale,
    system: &Option<NumberingSystem>,
    code: TinyAsciiStr<8>,
    style: CurrencyStyle,
) -> Result<&'p AmountPatterns, DataError>
where
    P: DataProvider<CurrencyEssentialsV1> + DataProvider<CurrencyAccountingV1> + ParentProvider,
    ensures { result_map_both (λ found. found.now) (λ error. error) result ≡ amounts_found style
        (λ id. ⟦<P as DataProvider<CurrencyEssentialsV1>>⟧.table provider.now id)
        (λ id. ⟦<P as DataProvider<CurrencyAccountingV1>>⟧.table provider.now id)
        (unit_chain (P.next provider.now) (P.limit provider.now) locale.now) system.now code }
{
    match load_under::<CurrencyEssentialsV1, P>(provider, locale, code) {
        Ok(found) => Ok(found),
        Err(error) => match error {
            DataError::IdentifierNotFound => load_usual_amounts(provider, locale, system, style),
            _ => Err(error),
        },
    }
}

// The locale whose chain preferences ask for.
fn locale_of(preferences: &DecimalFormatterPreferences) -> DataLocale
    ensures { result ≡ language_priority preferences.now.locale }
{
    preferences
        .locale_preferences
        .to_data_locale_language_priority()
}

// How percents are written, as the preferences ask for.
pub(crate) fn load_percent<'p, P: DataProvider<PercentEssentialsV1> + ParentProvider>(
    provider: &'p P,
    preferences: &DecimalFormatterPreferences,
) -> Result<&'p PercentPattern, DataError>
    ensures { result_map_both (λ found. found.now) (λ error. error) result ≡ percent_found
        (λ id. P.table provider.now id)
        (unit_chain (P.next provider.now) (P.limit provider.now) (language_priority preferences.now.locale))
        preferences.now.numbering_system }
{
    let locale = locale_of(preferences);
    load_by_system::<PercentEssentialsV1, P>(provider, &locale, preferences.numbering_system)
}

// How amounts are written in a currency and a style, as the preferences ask for.
pub(crate) fn load_amounts<'p, P>(
    provider: &'p P,
    preferences: &DecimalFormatterPreferences,
    code: CurrencyCode,
    style: CurrencyStyle,
) -> Result<&'p AmountPatterns, DataError>
where
    P: DataProvider<CurrencyEssentialsV1> + DataProvider<CurrencyAccountingV1> + ParentProvider,
    ensures { result_map_both (λ found. found.now) (λ error. error) result ≡ amounts_found style
        (λ id. ⟦<P as DataProvider<CurrencyEssentialsV1>>⟧.table provider.now id)
        (λ id. ⟦<P as DataProvider<CurrencyAccountingV1>>⟧.table provider.now id)
        (unit_chain (P.next provider.now) (P.limit provider.now) (language_priority preferences.now.locale))
        preferences.now.numbering_system code }
{
    let locale = locale_of(preferences);
    let system = preferences.numbering_system;
    load_by_code(provider, &locale, &system, code.attributes(), style)
}

// The symbol of a currency, where it is asked for and there is one.
pub(crate) fn load_symbol<'p, P: DataProvider<CurrencySymbolsV1> + ParentProvider>(
    provider: &'p P,
    preferences: &DecimalFormatterPreferences,
    code: CurrencyCode,
    width: CurrencyWidth,
) -> Result<Option<&'p CurrencySymbol>, DataError>
    ensures { result_map_both (λ found. written_as (option_copied found) code) (λ error. error) result
        ≡ name_found width (λ id. P.table provider.now id)
        (unit_chain (P.next provider.now) (P.limit provider.now) (language_priority preferences.now.locale)) code }
{
    match width {
        CurrencyWidth::IsoCode => Ok(None),
        CurrencyWidth::Short => {
            let locale = locale_of(preferences);
            match load_under::<CurrencySymbolsV1, P>(provider, &locale, code.attributes()) {
                Ok(found) => Ok(Some(found)),
                Err(DataError::IdentifierNotFound) => Ok(None),
                Err(error) => Err(error),
            }
        }
    }
}

// The digits of a currency, or two.
pub(crate) fn load_fractions<P: DataProvider<CurrencyFractionsV1>>(
    provider: &P,
    code: CurrencyCode,
) -> Result<FractionInfo, DataError>
    ensures { result ≡ fractions_found (λ id. P.table provider.now id) code }
{
    match provider.load(&DataIdentifier::for_marker_attributes(code.attributes())) {
        Ok(found) => Ok(*found),
        Err(DataError::IdentifierNotFound) => Ok(FractionInfo {
            standard: Fraction::two_digits(),
            cash: Fraction::two_digits(),
        }),
        Err(error) => Err(error),
    }
}
