//! Why a value states no preference.

ghost use Rattle.std.specs.Prelude.{◌≡◌};

use thiserror::Error;

/// Why a value states no preference: `InvalidKeywordValue` of `abc` as a `FirstDay`.
#[derive(Clone, Copy, Debug, PartialEq, Eq, Hash, Error)]
pub enum PreferencesParseError {
    /// The value is none of those that the type takes: `fw-abc`, `nu-latn-thai`.
    #[error("Invalid keyword value")]
    InvalidKeywordValue,
}

impl PreferencesParseError {
    /// The number of the fault: 1 of `InvalidKeywordValue`, the only one. It does not allocate.
    pub fn number(&self) -> u8
        ensures { result ≡ 1 }
    {
        match *self {
            PreferencesParseError::InvalidKeywordValue => 1,
        }
    }
}
