//! Where grouping separators are.

/// Where grouping separators are in the integer digits of a number, counted from the right.
///
/// The sizes 3, 3, 1 give `1,000,000`; the sizes 3, 2, 1 give `10,00,000`; the sizes 3, 3, 2 leave `1000` as it is and
/// give `10,000`. Source: UTS 35, part 3 (numbers), grouping of number patterns.
#[derive(Clone, Copy, Debug, PartialEq, Eq)]
pub struct GroupingSizes {
    /// The count of digits in the last group: 3 in `10,00,000`. At 0 no separator is anywhere.
    pub primary: u8,
    /// The count of digits in each group before the last but the first: 2 in `10,00,000`. At 0 it is `primary`.
    pub secondary: u8,
    /// The least count of digits before the last separator: 2 where `1000` stays and `10,000` has one. 0 means 1.
    pub min_grouping: u8,
}
