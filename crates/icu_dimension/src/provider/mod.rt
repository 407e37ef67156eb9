//! Providers of units: the tables that formatters of percents and amounts borrow, and which of them are taken.
//!
//! Patterns are under a locale and a numbering system, a code or nothing, symbols of currencies under a locale and a
//! code, and digits of currencies only under a code.

mod amounts;
mod chain_loading;
mod decimals;
mod loading;
mod markers;
mod names;
mod percents;

pub use amounts::AmountPatterns;
pub(crate) use decimals::load_decimals;
pub use loading::load_by_system;
pub(crate) use loading::{load_amounts, load_fractions, load_percent, load_symbol};
pub use markers::{
    CurrencyAccountingV1, CurrencyEssentialsV1, CurrencyFractionsV1, CurrencySymbolsV1,
    PercentEssentialsV1,
};
pub use names::{CurrencyName, CurrencySymbol};
pub use percents::PercentPattern;
