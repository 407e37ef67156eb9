//! What a run counted.

/// What a run that answered all lines counted: 2 lines of `one`, line feed, `two`.
#[derive(Clone, Copy, Debug, PartialEq, Eq)]
pub struct Report {
    /// How many lines were answered: 2 of `one`, line feed, `two`; a greater count than
    /// 18,446,744,073,709,551,615 is that one.
    pub lines: u64,
    /// How many things the answerer made for them, by its own count: 2 of two lines, where it makes
    /// one for each.
    pub made: u64,
}
