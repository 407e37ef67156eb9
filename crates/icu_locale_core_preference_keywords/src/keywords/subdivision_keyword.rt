//! The keywords whose values are subdivisions.

ghost use Rattle.icu_locale_core_grammar.specs.TagPreferences.{override_key, subdivision_key};

use crate::piece_keyword::{PieceKey, PieceKeyword};
use crate::subdivision::SubdivisionId;
use icu_locale_core_subtags::unicode::Key;

/// The key `rg`.
pub struct OverrideKey;

/// The key `sd`.
pub struct RegionalKey;

/// The region that takes the place of the locale's own, key `rg`: `gbeng` is England. Its text is not `true`, which no
/// value has.
///
/// Source: UTS 35, section 3.6.1.
pub type RegionOverride = PieceKeyword<OverrideKey, SubdivisionId>;

/// The subdivision that a locale is of, key `sd`: `ustx` is Texas. Its text is not `true`, which no value has.
///
/// Source: UTS 35, section 3.6.1.
pub type RegionalSubdivision = PieceKeyword<RegionalKey, SubdivisionId>;

impl PieceKey for OverrideKey {
    ghost keyword = { override_key };

    fn key() -> Option<Key> {
        Key::try_from_str("rg").ok()
    }

    fn names() -> (&'static str, &'static str) {
        ("RegionOverride", "id")
    }
}

impl PieceKey for RegionalKey {
    ghost keyword = { subdivision_key };

    fn key() -> Option<Key> {
        Key::try_from_str("sd").ok()
    }

    fn names() -> (&'static str, &'static str) {
        ("RegionalSubdivision", "id")
    }
}
