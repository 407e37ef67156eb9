//! Laws over the definitions that an answer goes by. Each function is a proof: it answers nothing.

ghost use Rattle.locale_numbers_answers.specs.Laws.{HasOneReading, HasOneCompactReading, HasOneAmount, HasOneRounding};

pub use locale_numbers_requests::laws::requests_are_at_magnitude;

/// Each text spells one number, or one beyond the limits, or none: what the relations of `fixed_decimal` say of a text
/// is what the answer to a line goes by. `-12.30` spells -12.30, `1e32768` one beyond the limits, and `5.` none.
pub fn texts_have_one_reading()
    ensures { HasOneReading }
{}

/// The same of texts of compact numbers, which exact forms are asked with: `-1.20c6` spells -1.20 with the exponent 6,
/// `1c256` one beyond the limits, and `1c0` none.
pub fn compact_texts_have_one_reading()
    ensures { HasOneCompactReading }
{}

/// Each rounding of a number has one end: what the relation of `fixed_decimal` names is what the answer to a line goes
/// by. By `-2,half-trunc,25` the end of -7.235 is -7.25.
pub fn roundings_have_one_end()
    ensures { HasOneRounding }
{}

/// Each rounding of an amount to the digits of a currency has one end, and the answer to a line goes by it: of 2.345 by
/// multiples of 5 of the second digit it is 2.35.
pub fn amounts_have_one_end()
    ensures { HasOneAmount }
{}
