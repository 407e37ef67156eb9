//! Laws of reading in a mode: each is the contract of a function that computes nothing.

ghost use Rattle.icu_locale_core_langid.specs.SingleLaws.{HasMeaningOrFault, HasOneMeaning, HasOneFault, HasNeverBoth, ModesAgree, KeywordlessAgree};

/// In each mode a list of pieces has a meaning or a fault, one of them, and never both.
///
/// So a reader that returns only the meaning or the fault accepts exactly what has a meaning.
pub fn modes_are_answered()
    ensures answered { HasMeaningOrFault }
    ensures one_meaning { HasOneMeaning }
    ensures one_fault { HasOneFault }
    ensures never_both { HasNeverBoth }
{}

/// What mode `LanguageIdentifier` reads, as `de-DE-1996`, each mode reads the same; and what mode `Locale` reads
/// without a keyword, mode `LanguageIdentifier` reads the same.
pub fn modes_agree()
    ensures whole { ModesAgree }
    ensures keywordless { KeywordlessAgree }
{}
