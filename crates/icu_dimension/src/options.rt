//! Options: how percents and amounts are written.

ghost use Rattle.std.specs.Prelude.{◌≡◌};
ghost use Rattle.icu_dimension.specs.HeldFormatters.{typed_sign};

use icu_decimal::options::GroupingStrategy;
use icu_dimension_fractions::{CurrencyStyle, CurrencyWidth, PercentSign};

// What people type for a sign.
pub(crate) fn typed(sign: PercentSign) -> &'static str
    ensures { result.now ≡ typed_sign sign }
{
    match sign {
        PercentSign::Percent => "%",
        PercentSign::Permille => "‰",
    }
}

/// How percents are written. By default with the percent sign, with separators where the locale places them: `1,234%`.
#[derive(Clone, Copy, Debug, Default, PartialEq, Eq, Hash)]
pub struct PercentFormatterOptions {
    /// When grouping separators are written; `None` means `Auto`.
    pub grouping_strategy: Option<GroupingStrategy>,
    /// With which sign.
    pub sign: PercentSign,
}

/// How amounts are written. The default is in general, by the symbol, with separators where the locale places them:
/// `-$1,234.50`.
#[derive(Clone, Copy, Debug, Default, PartialEq, Eq, Hash)]
pub struct CurrencyFormatterOptions {
    /// For whom: in general or in accounting.
    pub style: CurrencyStyle,
    /// By what the currency is written: its symbol or its code.
    pub width: CurrencyWidth,
    /// When grouping separators are written; `None` means `Auto`.
    pub grouping_strategy: Option<GroupingStrategy>,
}
