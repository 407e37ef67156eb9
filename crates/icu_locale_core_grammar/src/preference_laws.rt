//! Laws of preferences. Each function does nothing; its clause is the law.
ghost use Rattle.icu_locale_core_grammar.specs.PreferenceLaws.{SubdivisionReadsBack, PreferencesReadBack, DataLocaleIsItself, AlikeTagsPreferAlike, NothingAddsNothing, JoinedThrice};

/// Preferences written as a tag read back, and a data locale is the language-first form of itself: those of
/// `en-US-u-sd-ustx` are written as this tag, and it prefers the same.
pub fn preferences_read_back()
    ensures subdivision { SubdivisionReadsBack }
    ensures preferences { PreferencesReadBack }
    ensures data_locale { DataLocaleIsItself }
{}

/// An accepted tag and its normal text have the same preferences: `EN-u-SD-ustx` has those of `en-u-sd-ustx`.
pub fn alike_tags_prefer_alike()
    ensures { AlikeTagsPreferAlike }
{}

/// Joining with no preferences changes nothing, and of three the last that is there wins, in whatever order they are
/// joined: `en-US` with `und-GB` and `de` is `de-GB`.
pub fn preferences_join()
    ensures nothing { NothingAddsNothing }
    ensures thrice { JoinedThrice }
{}
