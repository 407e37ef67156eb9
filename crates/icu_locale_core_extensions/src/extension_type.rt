//! The types of extensions, by their singletons.

/// The type of an extension, which its singleton gives: of `a-foo` it is `Other(b'a')`.
///
/// Source: UTS 35, section 3.2, and RFC 5646, section 2.2.6.
#[derive(Clone, Copy, Debug, PartialEq, Eq, Hash)]
pub enum ExtensionType {
    /// The singleton `t`.
    Transform,
    /// The singleton `u`.
    Unicode,
    /// The singleton `x`.
    Private,
    /// Any other singleton, as a byte in lower case.
    Other(u8),
}
