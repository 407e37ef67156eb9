//! Laws of lenient reading of numbers with a unit. No call is made: each clause is the law.

ghost use Rattle.icu_dimension_lenient.specs.GroupedUnitLaws.{EachUnitGroupingIsLenient, EachUnitGroupingIsNoOther, EachUnitGroupingIsOneWay, UnitGroupingsHaveOneDecimal};
ghost use Rattle.icu_dimension_lenient.specs.LenientUnitLaws.{ExactUnitIsLenient, HasOneLenientUnitReading, LenientUnitIsTyped, LenientUnitMisses, UnitMayBeLeftOff, UnitWaysAgree, WrittenUnitReadsLeniently};
ghost use Rattle.icu_dimension_lenient.specs.NativeUnitLaws.{ArabicUnitIsRead, HasOneExactReading, HasOneReadingByFunction, LenientUnitIsNativeSo, NativeUnitIsAscii, NativeUnitIsTyped, OnlyArabicUnitDiffers, OtherUnitsStay};

/// A law: a text has one lenient reading. In English with `€` that of ` € 5 ` is 5, and that of `€1,23` is not one.
pub fn texts_have_one_lenient_reading()
    ensures { HasOneLenientUnitReading }
{}

/// A law: what is read exactly is read leniently as the same decimal, and so is what the formatter writes: in English
/// with `€` `-€1,234.50` is -1234.50.
pub fn exact_is_lenient()
    ensures exact { ExactUnitIsLenient }
    ensures written { WrittenUnitReadsLeniently }
{}

/// A law: what is read leniently is a spelling of that decimal, and no way in which lenient reading reads it gives another
/// one. Where none is read, no way reads one, or two differ: ` .50` with the unit `.` is 0.50 without it, and 50 with it.
pub fn lenient_reading_agrees()
    ensures typed { LenientUnitIsTyped }
    ensures agree { UnitWaysAgree }
    ensures misses { LenientUnitMisses }
{}

/// A law: a text that is a number without its unit, and no other one with it, and that the formatter does not write, is
/// that number: `1234.5` is 1234.5 in English.
pub fn unit_may_be_left_off()
    ensures { UnitMayBeLeftOff }
{}

/// A law: under two groupings no two decimals share a text with their unit: in English with `€` only 1234 is written
/// `€1234` or `€1,234`.
pub fn unit_groupings_have_one_decimal()
    ensures { UnitGroupingsHaveOneDecimal }
{}

/// A law: what is written under another grouping is read leniently as the decimal that was written, where no way reads
/// another one: in English with `€` both `€1234` and `€1,234` are 1234. Else it is not read, and never as another one.
/// Texts are trimmed, so no white space may be at the ends of the folded affixes.
pub fn each_unit_grouping_is_lenient()
    ensures way { EachUnitGroupingIsOneWay }
    ensures lenient { EachUnitGroupingIsLenient }
    ensures other { EachUnitGroupingIsNoOther }
{}

/// A law: the readings without native digits are answered by functions: in English with `€` of `€1,234.50` both the exact
/// one and the lenient one is 1234.50, and of `5 €` only the lenient one is 5.
pub fn functions_answer_readings()
    ensures exact { HasOneExactReading }
    ensures lenient { HasOneReadingByFunction }
{}

/// A law: native digits add to what is read: what is read without them stays, and so does every text that has none or a
/// mixture. In Hindi with `₹` `₹1,234` is 1234, and `₹1२3` is not read.
pub fn native_digits_add()
    ensures same { LenientUnitIsNativeSo }
    ensures others { OtherUnitsStay }
{}

/// A law: a text in native digits that was not read is read as it is in ASCII: in Hindi with `₹` `₹१२३` as `₹123`. Only
/// Arabic digits are read in another way besides: `٤٥٫٥ ₹` with their separators.
pub fn native_digits_are_ascii()
    ensures same { NativeUnitIsAscii }
    ensures others { OnlyArabicUnitDiffers }
    ensures arabic { ArabicUnitIsRead }
{}

/// A law: what is read with native digits is a spelling of that decimal: as it is, in ASCII, or so with the separators of
/// Arabic digits: in Hindi with `₹` `₹१२३` is one of 123.
pub fn native_reading_is_typed()
    ensures { NativeUnitIsTyped }
{}
