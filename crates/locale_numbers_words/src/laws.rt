//! Laws of the words that are found. No call is made: each clause is the law.

ghost use Rattle.locale_numbers_words.specs.FoundLaws.{NamesAreInPatterns};

/// A law: amounts of each category have the name of that category in the pattern of that category, those of `other`
/// where it has none of its own.
pub fn names_are_in_patterns()
    ensures { NamesAreInPatterns }
{}
