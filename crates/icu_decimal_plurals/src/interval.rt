//! Intervals of whole numbers.

ghost use Rattle.std.specs.Prelude.{◌≡◌};

/// The whole numbers from `low` to `high`, these two with them: `2..4` has 2, 3 and 4.
#[derive(Clone, Copy, Debug, PartialEq, Eq)]
pub struct Interval {
    /// The least one.
    pub low: u64,
    /// The greatest one.
    pub high: u64,
}

impl Interval {
    ghost use Rattle.icu_decimal_plurals.specs.Conditions.{is_in};

    /// Whether the number is one of these.
    pub fn contains(&self, number: u64) -> bool
        ensures { result ≡ is_in number self.now }
    {
        self.low <= number && number <= self.high
    }
}
