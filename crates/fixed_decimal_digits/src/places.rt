//! The place of magnitude 0.

/// The place of the ones: places are magnitudes counted from the lowest one, -32768, up.
pub const ONES: u16 = 32768;
