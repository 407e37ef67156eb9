//! The parts that units are, beside those of the number.
//!
//! Of `-€5` `CURRENCY` is at 1 to 4. The values are those of ECMA-402's `formatToParts`.

use writeable::Part;

/// The symbol or the code of a currency: `€` of `€5`.
pub const CURRENCY: Part = Part {
    category: "dimension",
    value: "currency",
};

/// The percent sign: `%` of `5%`.
pub const PERCENT_SIGN: Part = Part {
    category: "dimension",
    value: "percentSign",
};
