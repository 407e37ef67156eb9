//! Laws of lenient reading. No call is made: each clause is the law.
ghost use Rattle.icu_decimal_lenient.specs.LenientLaws.{AmbiguousIsNotWritten, BothMiss, EachGroupingIsLenient, EachGroupingIsReadByBoth, ExactIsLenient, ExactIsReadByBoth, FoldOfTextIsText, GroupingsHaveOneDecimal, LenientIsTyped, LenientIsUnreadable, LenientMisses, SecondLeavesFirst, SecondReadsRest, TwoGroupingsAreEnough, WrittenReadsLeniently};
ghost use Rattle.icu_decimal_lenient.specs.TypedLaws.{ArabicIsRead, BothAreNumbers, BothAreTypedSo, LenientIsTypedSo, NativeIsAscii, NativeIsAsciiByBoth, OnlyArabicDiffers, OthersStay, TypedBothMiss, TypedIsNumber, TypedIsUnreadable, TypedMisses};

/// Under readable symbols the fold of a decimal's text is its text with the folded symbols: `1’234.5` of Switzerland is
/// `1'234.5`.
pub fn folds_are_texts()
    ensures { FoldOfTextIsText }
{}

/// Each text of a decimal is one without groups, or one with all of them: in English that of 1234 is `1234` or `1,234`.
pub fn two_groupings_are_enough()
    ensures { TwoGroupingsAreEnough }
{}

/// Under readable symbols no two decimals are written alike, though the one is in groups and the other is not.
pub fn groupings_have_one_decimal()
    ensures { GroupingsHaveOneDecimal }
{}

/// What is read exactly is read leniently, as the same decimal, and so is what is read exactly under another grouping:
/// in English `1,234` and `1234` are 1234.
pub fn exact_is_lenient()
    ensures same { ExactIsLenient }
    ensures grouped { EachGroupingIsLenient }
{}

/// What a text is read as: a decimal only where the text is one of that decimal, none only where it is one of none, and
/// unreadable exactly where the symbols do not tell. In English ` 1234.5 ` is 1234.5, and `1,23` is not one.
pub fn lenient_reading_is_the_reading()
    ensures decimal { LenientIsTyped }
    ensures none { LenientMisses }
    ensures unreadable { LenientIsUnreadable }
{}

/// Under readable symbols a decimal that was written reads back leniently, with its sign and the digits shown: in
/// English `1,234.50` as 1234.50.
pub fn written_reads_leniently()
    ensures { WrittenReadsLeniently }
{}

/// Second tables change nothing of what the first ones write, under any grouping: with those of `km-u-nu-latn` after those
/// of `km-u-nu-khmr`, `១,៥` is 1.5.
pub fn own_texts_are_read_by_both()
    ensures same { ExactIsReadByBoth }
    ensures grouped { EachGroupingIsReadByBoth }
{}

/// Second tables add to what is read, and refuse what they read as another decimal: with those of `km-u-nu-latn` after
/// those of `km-u-nu-khmr` also `1,234.5` is read, and `1,234` is refused.
pub fn second_tables_agree()
    ensures first { SecondLeavesFirst }
    ensures rest { SecondReadsRest }
    ensures ambiguous { AmbiguousIsNotWritten }
    ensures none { BothMiss }
{}

/// Native digits add to what is read: what is read without them stays, with second tables too, and so does every text
/// that has none. In Hindi `1,234` is 1234, and `1२3` is not read.
pub fn native_digits_add()
    ensures same { LenientIsTypedSo }
    ensures both { BothAreTypedSo }
    ensures others { OthersStay }
{}

/// A text in native digits that was not read is read as it is in ASCII: in Hindi `१,२३४.५` as `1,234.5`. Only Arabic
/// digits are read in another way besides: `١٬٢٣٤٫٥` with their separators.
pub fn native_digits_are_ascii()
    ensures same { NativeIsAscii }
    ensures both { NativeIsAsciiByBoth }
    ensures others { OnlyArabicDiffers }
    ensures arabic { ArabicIsRead }
{}

/// What is read with native digits is a text of that decimal: as it is, in ASCII, or so with the separators of Arabic
/// digits. What is not read is one of none.
pub fn typed_reading_is_the_reading()
    ensures decimal { TypedIsNumber }
    ensures none { TypedMisses }
    ensures unreadable { TypedIsUnreadable }
{}

/// With second tables what is read is such a text by one of them; what is not read is one of none, or ambiguous.
pub fn typed_by_both_is_the_reading()
    ensures decimal { BothAreNumbers }
    ensures none { TypedBothMiss }
{}
