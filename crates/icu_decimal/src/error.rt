//! Why a table is refused, why an exponent is, and why a number is not written.

pub use crate::write_fault::WriteFault;
pub use icu_decimal_compact_value::CompactExponentError;
pub use icu_decimal_reading::ReadError;
pub use icu_decimal_symbols::error::DataError;
