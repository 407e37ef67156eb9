//! Equality of numbers: that of their printed texts.
ghost use Rattle.std.specs.Cmp.Rules.{comparing};
ghost use Rattle.std.proofs.Common.{rules};
ghost use Rattle.fixed_decimal_unsigned.specs.Equality.{are_equal};

use crate::unsigned_decimal::UnsignedDecimal;
use fixed_decimal_digits::is_same_count;

/// Two numbers are equal where their printed texts are: `0.5` and `0.50` are not.
impl PartialEq for UnsignedDecimal {
    ghost eq = { are_equal };

    ghost laws = { Prim.search (comparing, rules) };

    fn eq(&self, other: &UnsignedDecimal) -> bool {
        self.low == other.low
            && self.high == other.high
            && is_same_count(&self.digits, self.top, &other.digits, other.top)
    }
}

impl Eq for UnsignedDecimal {
    ghost laws = { Prim.search (comparing, rules) };
}
