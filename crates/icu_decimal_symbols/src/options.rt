//! Options: when a formatter writes grouping separators.

ghost use Rattle.std.specs.Prelude.{◌≡◌, Some};
ghost use Rattle.icu_decimal_symbols.specs.Options.{strategy_in};

/// When grouping separators are written: with `Never`, 1000 is `1000`. The names are ICU4X's, that of `OnAligned`
/// ICU4C's; source: UTS 35, part 3 (numbers), grouping of number patterns.
#[derive(Clone, Copy, Debug, Default, PartialEq, Eq, Hash)]
pub enum GroupingStrategy {
    /// Where the sizes of the locale place them: `1,234,567`.
    #[default]
    Auto,
    /// Nowhere: the integer digits are one group, `1234567`.
    Never,
    /// As `Auto`: `1,234,567`.
    Always,
    /// As `Auto`, but only with at least two digits before the last separator: `1000`, `10,000`.
    Min2,
    /// As `Auto`, but after one digit too: `1.234` in Spanish, where `Auto` gives `1234`.
    OnAligned,
}

/// How plain numbers are written. The default is `Auto`: `1,000`. With `Never` it is `1000`.
#[derive(Clone, Copy, Debug, Default, PartialEq, Eq, Hash)]
pub struct DecimalFormatterOptions {
    /// When grouping separators are written; `None` means `Auto`.
    pub grouping_strategy: Option<GroupingStrategy>,
}

/// How compact numbers are written. By default it is `Min2`: `1000T`, and `10,000T`. With `Never` that is `10000T`.
#[derive(Clone, Copy, Debug, PartialEq, Eq, Hash)]
pub struct CompactDecimalFormatterOptions {
    /// When grouping separators are written; `None` means `Auto`.
    pub grouping_strategy: Option<GroupingStrategy>,
}

/// The strategy `Min2`, so that `1000T` has no separator and `10,000T` has one. It does not allocate.
impl Default for CompactDecimalFormatterOptions {
    ghost use Rattle.std.specs.Prelude.{◌≡◌, Some};
    ghost use Rattle.icu_decimal_symbols.specs.declared.options.GroupingStrategy.{GroupingStrategy};

    ghost is_default = { λ options. options ≡ record { grouping_strategy = Some GroupingStrategy.Min2 } };

    fn default() -> Self {
        Self::from(GroupingStrategy::Min2)
    }
}

/// The options with this strategy: `Never` gives `Some(Never)`. It does not allocate.
impl From<GroupingStrategy> for DecimalFormatterOptions {
    ghost from_gives = { λ strategy options. options ≡ record { grouping_strategy = Some strategy } };

    fn from(grouping_strategy: GroupingStrategy) -> Self {
        DecimalFormatterOptions {
            grouping_strategy: Some(grouping_strategy),
        }
    }
}

/// The options with this strategy: `Never` gives `Some(Never)`. It does not allocate.
impl From<GroupingStrategy> for CompactDecimalFormatterOptions {
    ghost from_gives = { λ strategy options. options ≡ record { grouping_strategy = Some strategy } };

    fn from(grouping_strategy: GroupingStrategy) -> Self {
        CompactDecimalFormatterOptions {
            grouping_strategy: Some(grouping_strategy),
        }
    }
}

/// The same strategy, or none: `Some(Never)` gives `Some(Never)`, and `None` gives `None`. So the default options for
/// plain numbers do not become the default ones for compact numbers. It does not allocate.
impl From<DecimalFormatterOptions> for CompactDecimalFormatterOptions {
    ghost from_gives = { λ plain compact. compact ≡ record { grouping_strategy = plain.grouping_strategy } };

    fn from(options: DecimalFormatterOptions) -> Self {
        CompactDecimalFormatterOptions {
            grouping_strategy: options.grouping_strategy,
        }
    }
}

/// The same strategy, or none: `Some(Min2)` gives `Some(Min2)`, and `None` gives `None`. It does not allocate.
impl From<CompactDecimalFormatterOptions> for DecimalFormatterOptions {
    ghost from_gives = { λ compact plain. plain ≡ record { grouping_strategy = compact.grouping_strategy } };

    fn from(options: CompactDecimalFormatterOptions) -> Self {
        DecimalFormatterOptions {
            grouping_strategy: options.grouping_strategy,
        }
    }
}

/// The strategy that the options name: `Never` of `Some(Never)`, and `Auto` of `None`. It does not allocate.
pub fn strategy_of(options: DecimalFormatterOptions) -> GroupingStrategy
    ensures { result ≡ strategy_in options.grouping_strategy }
{
    options.grouping_strategy.unwrap_or_default()
}
