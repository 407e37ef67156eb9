//! The tags of the locales of the world's book.

use crate::world_locales::WORLD_LOCALES;
use std::str::Lines;

/// The tags of the locales of the world's book, in the order of their letters: `af`, `af-NA` and so on.
///
/// They are the lines of [`WORLD_LOCALES`]. It does not allocate.
pub fn world_tags() -> Lines<'static> {
    WORLD_LOCALES.lines()
}
