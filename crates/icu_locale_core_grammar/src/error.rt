//! Why a text is no tag.
ghost use Rattle.std.specs.Prelude.{◌≡◌};
ghost use Rattle.icu_locale_core_grammar.specs.FaultNumber.{number_of};

use thiserror::Error;

/// Why a text is no tag, or no part of a tag.
///
/// The first piece from the left that no rule takes is at fault, or the end where there is no such piece, and its place
/// names the fault. `en-toolongpiece` is `InvalidSubtag`, `en-u` is `InvalidExtension`. Source: UTS 35, section 3.
#[derive(Clone, Copy, Debug, PartialEq, Eq, Hash, Error)]
pub enum ParseError {
    /// The first piece is no language: the empty text, `abcd`, `x-foo`.
    #[error("The given language subtag is invalid")]
    InvalidLanguage,
    /// A piece is at fault outside any extension: `en-`, `de-1996-1996`.
    #[error("Invalid subtag")]
    InvalidSubtag,
    /// A piece is at fault within an extension, or the tag ends within one: `en-u`, `en-a-toolongpiece`.
    #[error("Invalid extension")]
    InvalidExtension,
    /// A singleton that is there already comes where a new one could: `en-a-foo-a-bar`.
    #[error("Duplicated extension")]
    DuplicatedExtension,
    /// Out of memory: the variant of `de-1996` allocates.
    #[error("Out of memory")]
    Memory,
}

impl ParseError {
    /// The number of the fault, 1 to 5 in the order of the cases.
    ///
    /// `InvalidLanguage` is 1 and `Memory` is 5.
    pub fn number(&self) -> u8
        ensures { result ≡ number_of self.now }
    {
        match *self {
            ParseError::InvalidLanguage => 1,
            ParseError::InvalidSubtag => 2,
            ParseError::InvalidExtension => 3,
            ParseError::DuplicatedExtension => 4,
            ParseError::Memory => 5,
        }
    }
}
