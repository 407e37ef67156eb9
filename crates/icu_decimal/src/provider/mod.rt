//! Providers: who has the tables that a formatter borrows, and the identifier of each.
//!
//! A provider returns a table or an error for an identifier. Symbols are under a locale and a numbering system or none,
//! digits only under a numbering system.

mod chain_loading;
mod data_provider;
mod fallback;
mod identifier;
mod loading;
mod markers;
mod parents;

pub use chain_loading::{load_along, load_by_chain};
pub use data_provider::DataProvider;
pub use fallback::load_with_fallback;
pub use icu_decimal_compact_value::CompactEntry;
pub use icu_decimal_patterns::{CompactPatterns, DecimalCompactLongV1, DecimalCompactShortV1};
pub use icu_decimal_plurals::PluralsCardinalV1;
pub use icu_decimal_symbols::{
    DataError, DataMarker, DecimalSymbolStrsBuilder, DecimalSymbols, DecimalSymbolsStrs,
    GroupingSizes,
};
pub use identifier::DataIdentifier;
pub use loading::{load_by_locale, load_digits, load_symbols};
pub use markers::{DecimalDigitsV1, DecimalSymbolsV1};
pub use parents::ParentProvider;
