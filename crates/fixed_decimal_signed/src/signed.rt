//! Values of any type with a sign, on which the calls of the value itself can be made too.

ghost use Rattle.std.specs.Prelude.{◌≡◌};
ghost use Rattle.std.specs.Borrow.{Lends, sem};
ghost use Rattle.fixed_decimal_signed.specs.contracts.signed.Signed.{the_row};

use crate::sign::Sign;
use std::marker::Model;
use std::ops::{Deref, DerefMut};

/// A value with a sign: `-12.3` is `Negative` and the unsigned `12.3`.
#[derive(Debug, Drop)]
pub struct Signed<T> {
    /// The sign as it is written; zero may have one: `Negative` of `-0`.
    pub sign: Sign,
    /// The value without its sign: `12.3` of `-12.3`.
    pub absolute: T,
}

impl<T> Model for Signed<T> {
    ghost use Rattle.fixed_decimal_signed.specs.SignedValue.{SignedValue};

    ghost Value = { SignedValue T };

    ghost view = { λ a. record { sign = a.sign; absolute = a.absolute } };
}

impl<T> Signed<T> {
    /// The sign: `Negative` of `-12.3`. It does not allocate.
    pub fn sign(&self) -> Sign
        ensures { result ≡ self.now.sign }
    {
        self.sign
    }

    /// Puts another sign in place of the one that was there: `1729` with `Negative` becomes `-1729`. It does not
    /// allocate.
    pub fn set_sign(&mut self, sign: Sign)
        ensures { self.new ≡ record { sign = sign; absolute = self.old.absolute } }
    {
        self.sign = sign;
    }

    /// The value with another sign: `1729` with `Negative` gives `-1729`. It does not allocate.
    pub fn with_sign(self, sign: Sign) -> Signed<T>
        ensures { result ≡ record { sign = sign; absolute = self.absolute } }
    {
        let Signed { sign: _, absolute } = self;
        Signed { sign, absolute }
    }
}

impl<T> Deref for Signed<T> {
    type Target = T;

    ghost deref_gives = { λ s t. t ≡ s.absolute };

    fn deref(&self) -> &T {
        &self.absolute
    }
}

impl<T> DerefMut for Signed<T> {
    ghost deref_mut_gives = { λ s t. t ≡ s.absolute };

    fn deref_mut(&mut self) -> &mut T
        ensures* writes_back { sem 𝓛
            (Lends (the_row T.row) T.row self.entry result (λ w. record { sign = self.old.sign; absolute = w })) }
        ensures value { result.now ≡ self.old.absolute }
    {
        &mut self.absolute
    }
}
