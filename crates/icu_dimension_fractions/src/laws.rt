//! Laws of rounded amounts and of codes, beside the clauses of the calls.

ghost use Rattle.std.specs.Prelude.{◌≡◌, ◌↔◌, IsTrue};
ghost use Rattle.icu_dimension_fractions.specs.FractionLaws.{RoundedAmountsStay};

use crate::code::CurrencyCode;
use std::hash::Hash;

/// A law: what was rounded to a fraction is the same when it is rounded to it again. 0.125 rounded to two digits is
/// `0.12`, and stays so. No call is made: the clause is the law.
pub fn rounded_amounts_stay()
    ensures { RoundedAmountsStay }
{}

/// A law: two codes are `==` exactly where they are one text, and then they are hashed alike. True of `CHF` and `CHF`,
/// false of `CHF` and `EUR`.
pub fn same_codes(one: &CurrencyCode, other: &CurrencyCode) -> bool
    ensures same { IsTrue result ↔ (one.now ≡ other.now) }
    ensures hashed { IsTrue result
        → ⟦<CurrencyCode as Hash>⟧.hash_input one.now ≡ ⟦<CurrencyCode as Hash>⟧.hash_input other.now }
{
    one == other
}
