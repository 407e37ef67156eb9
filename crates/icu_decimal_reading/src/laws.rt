//! Laws of reading. No call is made: each clause is the law.
ghost use Rattle.icu_decimal_reading.specs.ReadingLaws.{AutoIsAlways, HasOneReading, ReadIsWrittenAgain, TextsAreUtf8, TextsHaveOneDecimal, WrittenReadsBack};

/// The text of a decimal is UTF-8, also under symbols that are not readable: in Switzerland that of 1234.5 is
/// `1’234.5`.
pub fn texts_are_utf8()
    ensures { TextsAreUtf8 }
{}

/// Under readable symbols a text has one decimal: no two decimals are written alike. In English `-1,234.50` is only
/// -1234.50.
pub fn texts_have_one_decimal()
    ensures { TextsHaveOneDecimal }
{}

/// The function `plain_reading` says what a text is: the decimal that is written so, or that there is none, or that the
/// symbols are not readable. In English `-1,234.50` is -1234.50, and `98,7654` is not one.
pub fn plain_reading_is_the_reading()
    ensures { HasOneReading }
{}

/// Under readable symbols a decimal that was written reads back, with its sign and the digits shown; a text that was
/// read, written again, is the same text. In English -1234.50 is written `-1,234.50`, and this is read as -1234.50.
pub fn both_trips()
    ensures back { WrittenReadsBack }
    ensures again { ReadIsWrittenAgain }
{}

/// Under the groupings `Auto` and `Always` each text reads alike: in English `1,234,567` is 1234567 under both.
pub fn auto_reads_as_always()
    ensures { AutoIsAlways }
{}
