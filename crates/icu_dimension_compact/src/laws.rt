//! Laws of compact amounts. No call is made: each clause is the law.

ghost use Rattle.icu_dimension_compact.specs.CompactAmountLaws.{AmountIsText, AmountsShowWhatCompactShows, PatternlessIsPlain};

/// A law: the significand and the exponent shown for an amount are those of a compact decimal of the same types. So the
/// laws of the value shown (`laws` of `icu_decimal_compact_value`) hold of amounts: of two the smaller never shows a larger
/// value, a shown value shows itself, and it is off by at most a twentieth. With types 3 and 6, -1172700 shows -1.2 with
/// the exponent 6 as `-1.2M` and as `-$1.2M`.
pub fn compact_amounts_show_what_compact_shows()
    ensures { AmountsShowWhatCompactShows }
{}

/// A law: what an amount writes is the text of its definition, a number with its unit. Below the first type, and where a
/// type has no patterns, it is the plain amount of what is shown: of -5 in English with `$` `-$5`, and in accounting
/// `($5)`.
pub fn compact_amounts_are_amounts()
    ensures text { AmountIsText }
    ensures plain { PatternlessIsPlain }
{}
