//! The digits of a currency, and rounding to them.

ghost use Rattle.std.specs.Prelude.{◌≡◌, ◌≢◌, ◌↔◌, ◌+◌, IfErr, IfOk, IsOk, IsTrue, OnErr, OnOk};
ghost use Rattle.fixed_decimal.specs.Number.{place};
ghost use Rattle.fixed_decimal.specs.Rounding.{IsMultiple};
ghost use Rattle.icu_dimension_fractions.specs.FractionMemory.{MayGrowAmount};
ghost use Rattle.icu_dimension_fractions.specs.FractionRounding.{RoundsAmount, ShowsAmount};
ghost use Rattle.icu_dimension_fractions.specs.Fractions.{fraction_for, last_place, step};
ghost use Rattle.icu_dimension_fractions.specs.RoundedDigit.{TakesMultiple, rounded_place};

use crate::increment::FractionIncrement;
use fixed_decimal::{
    Decimal, SignDisplay, SignedRoundingMode, UnsignedDecimal, UnsignedRoundingMode,
};
use std::alloc::{AllocError, AllocFailed};

/// Whether an amount is paid in cash: Swiss francs in cash are multiples of 5 of the last digit. After ICU's currency
/// usage.
#[derive(Clone, Copy, Debug, PartialEq, Eq)]
pub enum CurrencyUsage {
    /// An amount that is written or booked: 2.345 francs are `2.34`.
    Standard,
    /// An amount in cash: 2.345 francs are `2.35`.
    Cash,
}

/// How many digits an amount has after the point, 0 to 255, and to which multiples of the last one it is rounded: 2 and
/// multiples of 1 of dollars.
#[derive(Clone, Copy, Debug, PartialEq, Eq)]
pub struct Fraction {
    /// How many digits there are after the point: 2 of dollars, 0 of yen.
    pub digits: u8,
    /// To which multiples of the last digit an amount is rounded.
    pub increment: FractionIncrement,
}

/// The digits of a currency: those of its amounts, and those of its amounts in cash. After ICU4X's `FractionInfo`.
#[derive(Clone, Copy, Debug, PartialEq, Eq)]
pub struct FractionInfo {
    /// The digits of amounts.
    pub standard: Fraction,
    /// The digits of amounts in cash.
    pub cash: Fraction,
}

impl FractionInfo {
    /// The digits for a usage: of Swiss francs 2 and multiples of 5 for cash. It does not allocate.
    pub fn fraction(self, usage: CurrencyUsage) -> Fraction
        ensures { result ≡ fraction_for self usage }
    {
        match usage {
            CurrencyUsage::Standard => self.standard,
            CurrencyUsage::Cash => self.cash,
        }
    }
}

impl Fraction {
    /// Two digits, and multiples of 1, as of each currency that says nothing else: 0.125 is `0.12`. It does not
    /// allocate.
    pub fn two_digits() -> Self
        ensures { result ≡ record { digits = 2; increment = FractionIncrement.MultiplesOf1 } }
    {
        Fraction {
            digits: 2,
            increment: FractionIncrement::MultiplesOf1,
        }
    }

    // The magnitude of the last digit.
    fn last_magnitude(self) -> i16
        ensures { place result ≡ last_place self }
    {
        0 - self.digits as i16
    }

    // The magnitude of the digit before the last one.
    fn magnitude_before(self) -> i16
        ensures { place result ≡ last_place self + 1 }
    {
        1 - self.digits as i16
    }

    // The magnitude of the digit that is rounded.
    fn rounded_magnitude(self) -> i16
        ensures { place result ≡ rounded_place self }
    {
        if self.increment.is_tens() {
            1 - self.digits as i16
        } else {
            0 - self.digits as i16
        }
    }

    // Rounds an amount to a multiple. Where each unit of the last digit is one, and no digit after it is shown, nothing
    // is done.
    fn round_to_multiple(self, amount: &mut Decimal) -> Result<(), AllocError>
        ensures succeeds { self.increment ≢ FractionIncrement.MultiplesOf25 → IsOk result }
        ensures sign { OnOk result (amount.new.sign ≡ amount.old.sign) }
        ensures size { OnOk result (TakesMultiple self amount.old.absolute amount.new.absolute) }
        ensures same { OnErr result (amount.new ≡ amount.old) }
        ensures room { OnErr result (MayGrowAmount self amount.old.absolute) }
    {
        let range = amount.absolute.magnitude_range();
        if self.increment.is_one() && self.last_magnitude() <= *range.start() {
            return Ok(());
        }
        let mode = SignedRoundingMode::Unsigned(UnsignedRoundingMode::HalfEven);
        let multiples = self.increment.multiples();
        amount.round_with_mode_and_increment(self.rounded_magnitude(), mode, multiples)
    }

    /// Rounds the amount to the fraction in its place, half to even, with all its digits: 0.125 by two digits becomes
    /// `0.12`, and 1.25 by multiples of 50 of the last of two becomes `1.00`.
    ///
    /// It is shown down to the last digit of the fraction: 5 is `5.00`. The sign is kept, of a zero too. It allocates
    /// only for some roundings to multiples of 25: those of `Decimal::round_with_mode_and_increment`. `AllocError`: out
    /// of memory; the amount is then as it was.
    ///
    /// Source: UTS 35, part 3 (numbers), supplemental currency data.
    pub fn round(self, amount: &mut Decimal) -> Result<(), AllocError>
        ensures succeeds { self.increment ≢ FractionIncrement.MultiplesOf25 → IsOk result }
        ensures value { OnOk result (RoundsAmount self amount.old amount.new) }
        ensures same { OnErr result (amount.new ≡ amount.old) }
        ensures room { OnErr result (MayGrowAmount self amount.old.absolute) }
    {
        self.round_to_multiple(amount)?;
        amount.absolute.pad_end(self.last_magnitude());
        Ok(())
    }

    // Whether a number whose last digit shown is that of the fraction is a multiple.
    fn ends_in_multiple(self, number: &UnsignedDecimal) -> bool
        requires { number.now.low ≡ last_place self }
        ensures { IsTrue result ↔ IsMultiple (step self) number.now.count }
    {
        let _number = number.magnitude_range(); // for the proof
        let last = number.digit_at(self.last_magnitude());
        let before = number.digit_at(self.magnitude_before());
        (10 * before + last) % self.increment.number() == 0
    }

    /// Whether the amount is what rounding it to the fraction leaves: by two digits `1.50` is, `1.5` and `1.505` are not.
    /// It does not allocate.
    pub fn is_rounded(self, amount: &Decimal) -> bool
        ensures { IsTrue result ↔ RoundsAmount self amount.now amount.now }
    {
        let range = amount.absolute.magnitude_range();
        *range.start() == self.last_magnitude() && self.ends_in_multiple(&amount.absolute)
    }

    /// The amount rounded to the fraction, half to even, with all its digits, as `round` leaves it: 0.125 by two digits
    /// is `0.12`.
    ///
    /// It allocates where `round` does. `AllocFailed`: out of memory; it holds the amount.
    ///
    /// Source: UTS 35, part 3 (numbers), supplemental currency data.
    pub fn rounded(self, mut amount: Decimal) -> Result<Decimal, AllocFailed<Decimal>>
        ensures succeeds { self.increment ≢ FractionIncrement.MultiplesOf25 → IsOk result }
        ensures value { IfOk result (λ v. RoundsAmount self amount v) }
        ensures same { IfErr result (λ e. e.value ≡ amount) }
        ensures room { OnErr result (MayGrowAmount self amount.absolute) }
    {
        match self.round(&mut amount) {
            Ok(()) => Ok(amount),
            Err(_) => Err(AllocFailed { value: amount }),
        }
    }

    /// The amount as it is shown: rounded as by `rounded`, and then with the sign that is chosen for what is left. With
    /// two digits and `SignDisplay::Negative` -0.001 is `0.00`.
    ///
    /// It allocates where `rounded` does. `AllocFailed`: out of memory; it holds the amount.
    ///
    /// Source: UTS 35, part 3 (numbers), supplemental currency data.
    pub fn shown(
        self,
        amount: Decimal,
        display: SignDisplay,
    ) -> Result<Decimal, AllocFailed<Decimal>>
        ensures succeeds { self.increment ≢ FractionIncrement.MultiplesOf25 → IsOk result }
        ensures value { IfOk result (λ v. ShowsAmount self display amount v) }
        ensures same { IfErr result (λ e. e.value ≡ amount) }
        ensures room { OnErr result (MayGrowAmount self amount.absolute) }
    {
        match self.rounded(amount) {
            Ok(rounded) => Ok(rounded.with_sign_display(display)),
            Err(refused) => Err(refused),
        }
    }
}
