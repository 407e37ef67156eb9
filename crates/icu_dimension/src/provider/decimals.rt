//! The tables of plain text that preferences ask a provider for, and an entry's own symbols in their place.

ghost use Rattle.std.specs.Prelude.{◌≡◌};
ghost use Rattle.std.specs.Option.{option_copied};
ghost use Rattle.std.specs.Result.{result_map_both};
ghost use Rattle.icu_decimal.specs.BorrowedTables.{borrowed_tables};
ghost use Rattle.icu_dimension.specs.FoundUnits.{decimals_found, with_own};
ghost use Rattle.icu_dimension.specs.HeldDecimals.{held_tables};

use icu_decimal::options::{DecimalFormatterOptions, GroupingStrategy, strategy_of};
use icu_decimal::provider::{
    DataError, DataProvider, DecimalDigitsV1, DecimalSymbols, DecimalSymbolsV1, ParentProvider,
    load_digits, load_symbols,
};
use icu_decimal::{DecimalFormatterPreferences, DecimalTables};

// Symbols, digits and when separators are written.
#[derive(Clone, Copy, Debug)]
pub(crate) struct HeldDecimals<'b> {
    symbols: &'b DecimalSymbols,
    digits: &'b [char; 10],
    strategy: GroupingStrategy,
}

// The tables that the preferences ask for.
pub(crate) fn load_decimals<'b, P>(
    provider: &'b P,
    preferences: &DecimalFormatterPreferences,
    grouping_strategy: Option<GroupingStrategy>,
) -> Result<HeldDecimals<'b>, DataError>
where
    P: DataProvider<DecimalSymbolsV1> + DataProvider<DecimalDigitsV1> + ParentProvider,
    ensures { result_map_both held_tables (λ error. error) result ≡ decimals_found
        (record {
          next = P.next provider.now;
          limit = P.limit provider.now;
          symbols = λ id. ⟦<P as DataProvider<DecimalSymbolsV1>>⟧.table provider.now id;
          digits = λ id. ⟦<P as DataProvider<DecimalDigitsV1>>⟧.table provider.now id;
        }) preferences.now grouping_strategy }
{
    let symbols = load_symbols(provider, preferences)?;
    let digits = load_digits(provider, preferences, symbols)?;
    Ok(HeldDecimals {
        symbols,
        digits,
        strategy: strategy_of(DecimalFormatterOptions { grouping_strategy }),
    })
}

impl<'b> HeldDecimals<'b> {
    // These tables, with other symbols where there are some.
    pub(crate) fn with_own(self, own: &'b Option<DecimalSymbols>) -> DecimalTables<'b>
        ensures { borrowed_tables result ≡ with_own own.now (held_tables self.entry) }
    {
        let symbols = match own {
            Some(own) => own,
            None => self.symbols,
        };
        DecimalTables::new(symbols, self.digits, self.strategy)
    }
}
