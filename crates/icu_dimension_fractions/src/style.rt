//! How amounts are written, whatever the locale: for whom, and by what the currency is named.

/// For whom an amount is written. After the keyword `cf` of UTS 35.
#[derive(Clone, Copy, Debug, Default, PartialEq, Eq, Hash)]
pub enum CurrencyStyle {
    /// In general: in English -5 dollars are `-$5.00`.
    #[default]
    Standard,
    /// In accounting: in English -5 dollars are `($5.00)`.
    Accounting,
}

/// How the currency is written. After ICU4X's `Width`.
#[derive(Clone, Copy, Debug, Default, PartialEq, Eq, Hash)]
pub enum CurrencyWidth {
    /// By its symbol, or by its code where it has none: `$5.00`.
    #[default]
    Short,
    /// By its code: `USD 5.00`.
    IsoCode,
}
