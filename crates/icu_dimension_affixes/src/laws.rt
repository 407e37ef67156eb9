//! Laws of numbers with a unit. No call is made: each clause is the law.

ghost use Rattle.icu_dimension_affixes.specs.UnitReadingLaws.{HasOneUnitReading, ReadUnitIsWrittenAgain, ReadersReadWhatIsWritten, UnitTextsHaveOneDecimal, WrittenUnitReadsBack};
ghost use Rattle.icu_dimension_affixes.specs.UnitTextLaws.{EmptyUnitIsPlain, UnitIsText};

/// A law: what a decimal with its unit writes is the text of its definition, the number without its sign between the
/// affixes of the sign: in English `-€` and `1,234.5`. With three empty texts and an empty unit it is the plain text of
/// the decimal: `-1,234.5`.
pub fn text_law()
    ensures text { UnitIsText }
    ensures plain { EmptyUnitIsPlain }
{}

/// A law: where it is readable, a text with a unit has one decimal: no two are written alike, neither with one sign nor
/// with two. In English with `€` `-€1,234.50` is only -1234.50. What a reader reads is what the tables write.
pub fn texts_have_one_decimal()
    ensures one { UnitTextsHaveOneDecimal }
    ensures written { ReadersReadWhatIsWritten }
{}

/// A law: a text has one reading at most. A decimal that was written reads back, with its sign and the digits shown; a
/// text that was read, written again, is the same text. In English with `€` -1234.50 is written `-€1,234.50`, and this
/// is read as -1234.50.
pub fn both_trips()
    ensures one { HasOneUnitReading }
    ensures back { WrittenUnitReadsBack }
    ensures again { ReadUnitIsWrittenAgain }
{}
