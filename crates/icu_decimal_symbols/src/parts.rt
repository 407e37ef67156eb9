//! The parts of a formatted number: which interval of its text is what.
//!
//! Of `-987,654.321` they are `MINUS_SIGN` at 0 to 1, `INTEGER` at 1 to 8, `GROUP` at 4 to 5, `DECIMAL` at 8 to 9 and
//! `FRACTION` at 9 to 12. The names are those of ICU4X's `parts`; what they name is in UTS 35, part 3 (numbers), number
//! symbols.

use writeable::Part;

/// What is before or after a number with a plus sign: `+` of `+5`.
pub const PLUS_SIGN: Part = Part {
    category: "decimal",
    value: "plusSign",
};

/// What is before or after a number with a minus sign: `-` of `-5`.
pub const MINUS_SIGN: Part = Part {
    category: "decimal",
    value: "minusSign",
};

/// The integer digits with their separators: `1,234` of `1,234.5`.
pub const INTEGER: Part = Part {
    category: "decimal",
    value: "integer",
};

/// The fraction digits: `5` of `1,234.5`.
pub const FRACTION: Part = Part {
    category: "decimal",
    value: "fraction",
};

/// A grouping separator, inside `INTEGER`: `,` of `1,234.5`.
pub const GROUP: Part = Part {
    category: "decimal",
    value: "group",
};

/// The decimal separator: `.` of `1,234.5`.
pub const DECIMAL: Part = Part {
    category: "decimal",
    value: "decimal",
};
