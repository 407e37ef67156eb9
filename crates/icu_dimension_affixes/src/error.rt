//! Why two texts are not the affixes of a unit.

ghost use Rattle.std.specs.Prelude.{◌≡◌};
ghost use Rattle.icu_dimension_affixes.specs.declared.error.UnitPatternError.TheVariants.{Memory};

use std::alloc::AllocError;
use thiserror::Error;

/// Why two texts are not the affixes of a unit: `NoPlace` of `(` and `)`.
#[derive(Clone, Copy, Debug, Drop, PartialEq, Eq, Error)]
pub enum UnitPatternError {
    /// The place of the unit is in neither text: `(` and `)`.
    #[error("no place for the unit")]
    NoPlace,
    /// The place of the unit is there more than once: `¤` and `¤`.
    #[error("more than one place for the unit")]
    PlaceTwice,
    /// Out of memory.
    #[error("out of memory")]
    Memory,
}

impl From<AllocError> for UnitPatternError {
    ghost from_gives = { λ _ e. e ≡ Memory };

    fn from(_refused: AllocError) -> UnitPatternError {
        UnitPatternError::Memory
    }
}
