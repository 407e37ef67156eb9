//! The parts of a text that an exponent has, beside those of the significand.
//!
//! Of `1.2E-6` they are `EXPONENT_SEPARATOR` at 3 to 4, `EXPONENT_MINUS_SIGN` at 4 to 5 and `EXPONENT_INTEGER` at 5 to
//! 6. The values are those of ECMA-402's `formatToParts`.

use writeable::Part;

/// The text before an exponent: `E` of `1.2E-6`.
pub const EXPONENT_SEPARATOR: Part = Part {
    category: "decimal",
    value: "exponentSeparator",
};

/// What is before or after an exponent with a minus sign: `-` of `1.2E-6`.
pub const EXPONENT_MINUS_SIGN: Part = Part {
    category: "decimal",
    value: "exponentMinusSign",
};

/// What is before or after an exponent with a plus sign: `+` of `1.2E+6`.
pub const EXPONENT_PLUS_SIGN: Part = Part {
    category: "decimal",
    value: "exponentPlusSign",
};

/// The digits of an exponent: `6` of `1.2E-6`.
pub const EXPONENT_INTEGER: Part = Part {
    category: "decimal",
    value: "exponentInteger",
};
