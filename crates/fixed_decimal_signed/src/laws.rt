//! Laws on texts and numbers. No call is made: each clause is the law.
ghost use Rattle.fixed_decimal_signed.specs.SignedOrder.{SignedModesGoByOrder};

pub use fixed_decimal_unsigned::laws::{
    equal_texts_are_equal_numbers, equality_is_that_of_texts, printed_texts_read_back,
    texts_read_by_exponent, texts_read_once,
};

/// Rounding goes by order: `Ceil` takes the least multiple that is not smaller than the signed number, `Floor`
/// the greatest that is not larger, `HalfCeil` and `HalfFloor` the nearest, with a tie upwards and downwards.
/// At 0, `-7.3` becomes `-7` by `Ceil` and `-8` by `Floor`.
pub fn signed_modes_go_by_order()
    ensures { SignedModesGoByOrder }
{}
