//! Equality: that of the printed texts.
ghost use Rattle.std.specs.Prelude.{◌≡◌, ◌==◌};
ghost use Rattle.std.specs.Cmp.Rules.{comparing};
ghost use Rattle.std.proofs.Common.{rules};
ghost use Rattle.fixed_decimal_signed.specs.SignedEquality.{sign_number, are_equal_signed};

use crate::sign::Sign;
use crate::signed::Signed;

// Whether two signs are one.
fn is_same_sign(sign: Sign, other: Sign) -> bool
    ensures { result ≡ (sign_number sign == sign_number other) }
{
    match sign {
        Sign::None => matches!(other, Sign::None),
        Sign::Negative => matches!(other, Sign::Negative),
        Sign::Positive => matches!(other, Sign::Positive),
    }
}

/// Two values are equal where their signs and their absolute values are: `0` and `-0` are not.
impl<T: PartialEq> PartialEq for Signed<T> {
    ghost eq = { are_equal_signed T.eq };

    ghost laws = { Prim.search (comparing, rules) };

    fn eq(&self, other: &Signed<T>) -> bool {
        is_same_sign(self.sign, other.sign) && self.absolute == other.absolute
    }
}

impl<T: Eq> Eq for Signed<T> {
    ghost laws = { Prim.search (comparing, rules) };
}
