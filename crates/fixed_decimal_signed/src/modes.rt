//! Which multiple a rounding takes, by size or by order.

ghost use Rattle.std.specs.Prelude.{◌≡◌};
ghost use Rattle.fixed_decimal_signed.specs.SignedRounding.{size_mode};

use crate::sign::Sign;
use fixed_decimal_unsigned::UnsignedRoundingMode;

/// Which multiple a rounding takes, by size or by order: at 0 by `Ceil`, `-7.3` becomes `-7`. The modes have
/// their names from ECMA-402's `roundingMode`.
#[derive(Clone, Copy, Debug, Drop, PartialEq, Eq, Hash)]
pub enum SignedRoundingMode {
    /// By size, whatever the sign: at 0 by `Unsigned(Expand)`, `-7.3` becomes `-8`.
    Unsigned(UnsignedRoundingMode),
    /// The next multiple that is not smaller: at 0, `-7.3` becomes `-7`, and `7.3` becomes `8`.
    Ceil,
    /// The next multiple that is not larger: at 0, `-7.3` becomes `-8`, and `7.3` becomes `7`.
    Floor,
    /// The nearest multiple; a tie goes upwards: at 0, `2.5` becomes `3`, and `-2.5` becomes `-2`.
    HalfCeil,
    /// The nearest multiple; a tie goes downwards: at 0, `2.5` becomes `2`, and `-2.5` becomes `-3`.
    HalfFloor,
}

impl SignedRoundingMode {
    // What the mode does to the size of a number with this sign.
    pub(crate) fn by_size(self, sign: Sign) -> UnsignedRoundingMode
        ensures { result ≡ size_mode sign self }
    {
        match self {
            SignedRoundingMode::Unsigned(mode) => mode,
            SignedRoundingMode::Ceil => match sign {
                Sign::Negative => UnsignedRoundingMode::Trunc,
                _ => UnsignedRoundingMode::Expand,
            },
            SignedRoundingMode::Floor => match sign {
                Sign::Negative => UnsignedRoundingMode::Expand,
                _ => UnsignedRoundingMode::Trunc,
            },
            SignedRoundingMode::HalfCeil => match sign {
                Sign::Negative => UnsignedRoundingMode::HalfTrunc,
                _ => UnsignedRoundingMode::HalfExpand,
            },
            SignedRoundingMode::HalfFloor => match sign {
                Sign::Negative => UnsignedRoundingMode::HalfExpand,
                _ => UnsignedRoundingMode::HalfTrunc,
            },
        }
    }
}
