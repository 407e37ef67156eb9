//! Scientific numbers of rows, with the symbols and digits of English and `E` before exponents.

use crate::answers;
use crate::calls::Call;
use icu_decimal::DecimalTables;
use locale_numbers_formats::{NumberOptions, ScientificStyle};
use locale_numbers_formatter::{NumberFormatter, ScientificFormatter, ScientificTables};
use rows::Stop;

/// The answer of a call of scientific numbers in this style, with these digits.
pub fn answer(
    decimals: DecimalTables<'_>,
    style: ScientificStyle,
    options: NumberOptions,
    call: Call<'_>,
    out: &mut String,
) -> Result<(), Stop> {
    let tables = ScientificTables::new(&decimals, "E");
    let formatter = ScientificFormatter::new(*out.allocator(), tables, style, options);
    answers::answer(&NumberFormatter::from(formatter), call, out)
}
