//! Laws of extensions, beside the clauses of the calls.

ghost use Rattle.icu_locale_core_grammar.specs.Subtags.{is_other, is_other_piece, lower};
ghost use Rattle.icu_locale_core_grammar.specs.WellFormed.{IsNormalPiece, AreLower};

use crate::other::Other;
use icu_locale_core_subtags::laws::subtags_are_words;

/// The singleton of another extension is a lower-case letter or digit that is not `t`, `u` or `x`, and each of its
/// pieces is in normal case, 2 to 8 letters and digits.
pub fn others_are_normal(other: &Other)
    ensures singleton { IsNormalPiece is_other lower other.now.0 }
    ensures pieces { AreLower is_other_piece other.now.1 }
{
    subtags_are_words(&other.singleton);
    let _pieces = other.subtags.as_slice();
}
