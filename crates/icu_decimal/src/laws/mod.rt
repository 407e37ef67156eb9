//! Laws, beside the clauses of the calls: those of the tables, of plain text, of texts read back, of the patterns of
//! compact text, of the values that it shows, and of compact text itself, with what abstract formatters write.

pub mod compact;
mod found;
pub mod tables;

pub use icu_decimal_compact_value::laws as shown;
pub use icu_decimal_lenient::laws as lenient;
pub use icu_decimal_patterns::laws as patterns;
pub use icu_decimal_reading::laws as reading;

/// Laws of plain text: groups, texts and parts, and the tables that equal preferences find.
pub mod text {
    pub use crate::laws::found::same_tables;
    pub use icu_decimal_grouping::laws::groups_law;
    pub use icu_decimal_plain::laws::{parts_law, text_law};
}
