//! What is read of a tag of at most one variant and one keyword.

ghost use Rattle.std.specs.Prelude.{◌≡◌};
ghost use Rattle.icu_locale_core_grammar.specs.SingleVariant.{single_of};
ghost use Rattle.icu_locale_core_langid.specs.OneVariant.{parts_id};
ghost use Rattle.icu_locale_core_langid.specs.SingleModes.{single};

use crate::one_variant::OneVariantParts;
use icu_locale_core_subtags::unicode::Key;
use icu_locale_core_subtags::{Language, Region, Script, Subtag, Variant};

/// What is read of a tag: a language, a script or none, a region or none, a variant or none, and a keyword or none,
/// which is a key and the piece of its value or none.
///
/// `de-DE-1996-u-nu-latn` is `de`, no script, `DE`, `1996`, and `nu` with `latn`.
pub type SingleParts = (
    Language,
    Option<Script>,
    Option<Region>,
    Option<Variant>,
    Option<(Key, Option<Subtag>)>,
);

// The parts and the keyword.
pub(crate) fn joined_parts(
    parts: OneVariantParts,
    keyword: Option<(Key, Option<Subtag>)>,
) -> SingleParts
    ensures { single result ≡ single_of (parts_id parts) keyword }
{
    let (language, script, region, variant) = parts;
    (language, script, region, variant, keyword)
}
