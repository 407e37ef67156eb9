//! The parts that words are, beside those of the number.
//!
//! Of `5 kilometers` `UNIT` is at 2 to 12. The values are those of ECMA-402's `formatToParts`.

use writeable::Part;

/// The words of a unit of measurement: `kilometers` of `5 kilometers`.
pub const UNIT: Part = Part {
    category: "dimension",
    value: "unit",
};

/// The name of a currency: `US dollars` of `5.00 US dollars`.
pub const CURRENCY: Part = Part {
    category: "dimension",
    value: "currency",
};
