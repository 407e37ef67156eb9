//! Entries of compact tables, without their patterns.

/// An entry of a compact table without its patterns: of type 4 and exponent 3, it writes 12000 as `12K`.
///
/// `log10_type` is the least magnitude that the entry is for, 0 to 255; `exponent` is the power of ten that its
/// patterns stand for, 0 to 255.
#[derive(Clone, Copy, Debug, PartialEq, Eq)]
pub struct CompactEntry {
    /// The least magnitude that the entry is for: 3 of `K`, which 1000 has.
    pub log10_type: u8,
    /// The power of ten that its patterns stand for: 3 of `K`.
    pub exponent: u8,
}
