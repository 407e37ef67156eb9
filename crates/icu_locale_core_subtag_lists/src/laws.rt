//! Laws of sets and of private subtags: what holds of every set, and facts about the definitions, each proved as the
//! contract of a function that does nothing.

ghost use Rattle.icu_locale_core_grammar.specs.Collections.{Rises};
ghost use Rattle.icu_locale_core_subtag_lists.specs.Laws.{RemovalTakesOne, JoiningHasBoth, AttributesReadBack, PrivateReadsBack};

use crate::subtag_set::SubtagSet;
use icu_locale_core_subtags::SubtagRule;

/// The texts of a set rise in byte order: none occurs twice. Those of `fonipa` and `1996` are `1996`, `fonipa`.
pub fn texts_rise<R: SubtagRule<8>>(set: &SubtagSet<R>)
    ensures { Rises set.now }
{
    let _texts = set.as_slice();
}

/// A set without a text has every other text that it had, and no more, and still rises: `bar`, `foo` without `foo` is
/// `bar`.
pub fn removal()
    ensures { RemovalTakesOne }
{}

/// Two sets joined have what either has, and rise: `bar`, `foo` and `baz`, `foo` are `bar`, `baz`, `foo`.
pub fn joining()
    ensures { JoiningHasBoth }
{}

/// The text of a set of attributes reads back as the set: `bar-foo` as `bar`, `foo`.
pub fn attributes_read_back()
    ensures { AttributesReadBack }
{}

/// The text of private subtags, where there are some, reads back as them: `x-foo-a` as `foo`, `a`.
pub fn private_reads_back()
    ensures { PrivateReadsBack }
{}
