//! Laws of numbers with words. No call is made: each clause is the law.
ghost use Rattle.icu_dimension_words.specs.WordsLaws.{HasOneWordsReading, NoNumberIsHidden, ReadWordsAreWrittenAgain, WordsAreOfTheCategory, WordsAreText, WordsHaveOneDecimal, WordsStandAround, WrittenWordsReadBack};

/// A law: what a number with its words writes is the text of its definition: of 5 in English `5 kilometers`.
pub fn text_law()
    ensures { WordsAreText }
{}

/// A law: without its pair the text is the plain text of the number with its sign: `-5` of `-5 kilometers`. The words
/// are those of the category of the number as it is shown, or of `other`.
pub fn words_stand_around()
    ensures number { WordsStandAround }
    ensures category { WordsAreOfTheCategory }
{}

/// A law: where it is readable, a text has one decimal: no two are written alike. In English `1.0 kilometers` is only
/// 1.0.
pub fn words_have_one_decimal()
    ensures { WordsHaveOneDecimal }
{}

/// A law: a text has one reading at most. A decimal that was written reads back, with its sign and the digits shown; a
/// text that was read, written again, is the same text. In English -1.50 is written `-1.50 kilometers`, and this is read
/// as -1.50.
pub fn both_words_trips()
    ensures one { HasOneWordsReading }
    ensures back { WrittenWordsReadBack }
    ensures again { ReadWordsAreWrittenAgain }
{}

/// A law: a text without a number is that of the number that its category is named after, 0, 1 or 2, shown as one digit
/// without a sign. The Arabic `متر` is that of 1, and not of -1, of 1.0 or of 01.
pub fn no_number_is_hidden()
    ensures { NoNumberIsHidden }
{}
