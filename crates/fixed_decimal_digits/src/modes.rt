//! The modes of a rounding, by size, and its increments, by name.

ghost use Rattle.std.specs.Prelude.{◌≡◌};
ghost use Rattle.fixed_decimal_digits.specs.Rounding.{increment_number};

/// Which multiple a rounding takes, by size: at 0 by `Trunc`, `7.8` becomes `7`. The modes have their names from
/// ECMA-402's `roundingMode`.
#[derive(Clone, Copy, Debug, Drop, PartialEq, Eq, Hash)]
pub enum UnsignedRoundingMode {
    /// The next multiple away from zero: at 0, `7.3` becomes `8`.
    Expand,
    /// The next multiple towards zero: at 0, `7.8` becomes `7`.
    Trunc,
    /// The nearest multiple; a tie goes away from zero: at 0, `2.5` becomes `3`.
    HalfExpand,
    /// The nearest multiple; a tie goes towards zero: at 0, `7.5` becomes `7`.
    HalfTrunc,
    /// The nearest multiple; a tie goes to the even count of the unit: at 0, `2.5` becomes `2`, and `3.5`
    /// becomes `4`.
    HalfEven,
}

/// The multiples that a rounding looks at, counted in the last place that it keeps, as in ECMA-402's
/// `roundingIncrement`.
#[derive(Clone, Copy, Debug, Drop, PartialEq, Eq, Hash)]
pub enum RoundingIncrement {
    /// Every count: 1.1, 1.2, 1.3.
    MultiplesOf1,
    /// Every second count: 1.0, 1.2, 1.4.
    MultiplesOf2,
    /// Every fifth count: 1.0, 1.5, 2.0.
    MultiplesOf5,
    /// Every 25th count: 1.00, 1.25, 1.50.
    MultiplesOf25,
}

/// The increment that looks at every count, `MultiplesOf1`.
impl Default for RoundingIncrement {
    ghost use Rattle.fixed_decimal_digits.specs.declared.modes.RoundingIncrement.TheVariants.{MultiplesOf1};

    ghost is_default = { λ increment. increment ≡ MultiplesOf1 };

    fn default() -> RoundingIncrement {
        Self::MultiplesOf1
    }
}

impl RoundingIncrement {
    // The number in the name of the increment.
    pub(crate) fn step(self) -> u8
        ensures { result ≡ increment_number self }
    {
        match self {
            RoundingIncrement::MultiplesOf1 => 1,
            RoundingIncrement::MultiplesOf2 => 2,
            RoundingIncrement::MultiplesOf5 => 5,
            RoundingIncrement::MultiplesOf25 => 25,
        }
    }
}
