//! The signs of percents.

/// With which sign percents are written, beside the number as it is given.
#[derive(Clone, Copy, Debug, Default, PartialEq, Eq, Hash)]
pub enum PercentSign {
    /// The percent sign: `12%`.
    #[default]
    Percent,
    /// The permille sign: `12‰`.
    Permille,
}
