//! Markers of tables.

/// A name for a kind of tables, which says their type: `DecimalSymbolsV1` is that of `DecimalSymbols`.
pub trait DataMarker {
    /// The type of the tables: `DecimalSymbols` for `DecimalSymbolsV1`.
    type DataStruct;
}
