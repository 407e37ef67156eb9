//! What rules are for.

/// What plural rules are for.
///
/// After ICU4X's type of this name.
#[derive(Clone, Copy, Debug, PartialEq, Eq)]
pub enum PluralRuleType {
    /// How many: `1 book`, `2 books`.
    Cardinal,
    /// Which one: `1st`, `2nd`, `3rd`, `4th`.
    Ordinal,
}
