//! The place of a subtag in a set, or the place where it belongs.

ghost use Rattle.std.specs.Prelude.{MatchResult};
ghost use Rattle.icu_locale_core_grammar.specs.Collections.{Rises};
ghost use Rattle.icu_locale_core_subtag_lists.specs.Places.{StandsAt, BelongsAt};

use icu_locale_core_subtags::{SubtagOf, SubtagRule};

// The place of the subtag, or the place where it belongs.
pub(crate) fn place_of<R: SubtagRule<8>>(
    items: &[SubtagOf<R, 8>],
    subtag: &SubtagOf<R, 8>,
) -> Result<usize, usize>
    requires { Rises items.now }
    ensures { MatchResult result (StandsAt subtag.now items.now) (BelongsAt subtag.now items.now) }
{
    items.binary_search(subtag)
}
