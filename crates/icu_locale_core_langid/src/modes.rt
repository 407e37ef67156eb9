//! How much of a list of pieces a reader of language identifiers takes.

/// How much a reader of language identifiers takes, and what it leaves.
///
/// Of `en-US-u-nu-thai`, `LanguageIdentifier` reads nothing, and the two others read `en-US` and leave `u-nu-thai`. Of
/// `en-US-toolongpiece`, only `Partial` reads `en-US`. Source: ICU4X's `ParserMode`.
#[derive(Clone, Copy, Debug, PartialEq, Eq)]
pub enum ParserMode {
    /// All pieces; a single character is an error.
    LanguageIdentifier,
    /// The pieces before the first single character, which is left with all after it.
    Locale,
    /// The longest front that is a language identifier; the first piece that does not fit is left with all after it.
    Partial,
}
