//! What a formatter takes: a decimal, its sign, and when the sign is shown.

pub use fixed_decimal::{Decimal, Sign, SignDisplay};
