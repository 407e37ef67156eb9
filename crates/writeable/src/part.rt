//! The names of the parts of a text.

/// A name for an interval of a text, as `decimal`, `integer` for the digits before the point.
///
/// After ICU4X's `writeable::Part`.
#[derive(Clone, Copy, Debug, PartialEq, Eq)]
pub struct Part {
    /// The group that the name belongs to, as `decimal`.
    pub category: &'static str,
    /// What the interval is, as `integer`.
    pub value: &'static str,
}
