//! Why a text is no skeleton.

ghost use Rattle.std.specs.Prelude.{◌≡◌};
ghost use Rattle.locale_numbers_formats.specs.SkeletonErrors.{error_at, number_of, place_of};

use thiserror::Error;

/// Why a text is no skeleton that is taken, with the place of what is wrong, in bytes: `Unknown(8)` of `percent foo`.
#[derive(Clone, Copy, Debug, Drop, PartialEq, Eq, Error)]
pub enum SkeletonError {
    /// A word is none of a skeleton, as `foo`; its place.
    #[error("unknown word at {0}")]
    Unknown(usize),
    /// A word sets what another one has set, as the second of `percent currency/EUR`; its place.
    #[error("set twice at {0}")]
    Twice(usize),
    /// What follows `currency/` is no code of a currency, three letters of any case, as in `currency/EURO`; its place.
    #[error("no code of a currency at {0}")]
    Code(usize),
    /// A word is for amounts of money, and there is no currency, as `sign-accounting` alone; its place.
    #[error("no currency for the word at {0}")]
    Pair(usize),
    /// A word names a numbering system, which the tag of a locale has, as `latin`; its place.
    #[error("a numbering system at {0}")]
    System(usize),
    /// A word, or what it says beside another one, is not written yet, as `unit/meter`, and `rounding-mode-up` beside
    /// `currency/EUR`; its place.
    #[error("not written yet: the word at {0}")]
    Later(usize),
    /// A word asks for what is not written here, as `decimal-always`; its place.
    #[error("not written: the word at {0}")]
    Unsupported(usize),
}

/// What is wrong with a word, wherever it is.
#[derive(Clone, Copy, Debug, Drop, PartialEq, Eq)]
pub enum WordFault {
    /// It is none of a skeleton.
    Unknown,
    /// It sets what another one has set.
    Twice,
    /// What follows `currency/` is no code.
    Code,
    /// It is for amounts of money.
    Pair,
    /// It names a numbering system.
    System,
    /// It is not written yet.
    Later,
    /// It is not written here.
    Unsupported,
}

impl SkeletonError {
    // The error of a word at a place.
    pub(crate) fn at(fault: WordFault, place: usize) -> SkeletonError
        ensures { result ≡ error_at fault place }
    {
        match fault {
            WordFault::Unknown => SkeletonError::Unknown(place),
            WordFault::Twice => SkeletonError::Twice(place),
            WordFault::Code => SkeletonError::Code(place),
            WordFault::Pair => SkeletonError::Pair(place),
            WordFault::System => SkeletonError::System(place),
            WordFault::Later => SkeletonError::Later(place),
            WordFault::Unsupported => SkeletonError::Unsupported(place),
        }
    }

    /// Where the fault is, in bytes: 8 of `percent foo`. It does not allocate.
    pub fn place(&self) -> usize
        ensures { result ≡ place_of self.now }
    {
        match *self {
            SkeletonError::Unknown(place)
            | SkeletonError::Twice(place)
            | SkeletonError::Code(place)
            | SkeletonError::Pair(place)
            | SkeletonError::System(place)
            | SkeletonError::Later(place)
            | SkeletonError::Unsupported(place) => place,
        }
    }

    /// The number of the error: 1 of `Unknown`. It does not allocate.
    pub fn number(&self) -> u8
        ensures { result ≡ number_of self.now }
    {
        match self {
            SkeletonError::Unknown(_) => 1,
            SkeletonError::Twice(_) => 2,
            SkeletonError::Code(_) => 3,
            SkeletonError::Pair(_) => 4,
            SkeletonError::System(_) => 5,
            SkeletonError::Later(_) => 6,
            SkeletonError::Unsupported(_) => 7,
        }
    }
}
