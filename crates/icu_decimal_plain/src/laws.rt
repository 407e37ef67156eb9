//! Laws, beside the clauses of the calls: the text of a number and its parts.

ghost use Rattle.icu_decimal_plain.specs.PartLaws.{DecimalHasParts, SeparatorsStandBetween, UnitHasParts, UnsignedHasParts};
ghost use Rattle.icu_decimal_plain.specs.TextLaws.{DecimalIsText, UnsignedIsText};

/// A law: the text that the events of a number write is the text of its definition, with a sign and without: of -1234.5
/// in English `-1,234.5`, and of 1234.5 `1,234.5`.
pub fn text_law()
    ensures unsigned { UnsignedIsText }
    ensures decimal { DecimalIsText }
{}

/// A law: the intervals that are listed for a number are those of its parts, with a sign and without, and no others: of
/// `-1,234.5` in English `minusSign` from byte 0 to 1, `integer` from 1 to 6, in it `group` from 2 to 3, `decimal` from
/// 6 to 7 and `fraction` from 7 to 8. With a text before the number and one after it, and the affixes of the sign
/// around all three, they begin after the first text: of `-€1,234.5` `integer` is from 4 to 9. A separator comes after
/// the groups before it and before those after it.
pub fn parts_law()
    ensures unsigned { UnsignedHasParts }
    ensures decimal { DecimalHasParts }
    ensures unit { UnitHasParts }
    ensures separators { SeparatorsStandBetween }
{}
