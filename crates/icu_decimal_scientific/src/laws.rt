//! Laws of scientific forms and of their texts. No call is made: each clause is the law.
ghost use Rattle.icu_decimal_scientific.specs.CarryLaws.{BeyondIsBelow, CarriedIsNormal, FormIsFunction, FunctionIsForm, ShownExponentIsFunction, UnchangedIsForm};
ghost use Rattle.icu_decimal_scientific.specs.NotationLaws.{DecimalHasFormText, DecimalIsReadBack, FormHasProduct, FormIsWrittenAgain, OneProduct, ProductIsTheNumber, TextHasOneForm};
ghost use Rattle.icu_decimal_scientific.specs.ScientificLaws.{BeyondHasNoForm, FormIsNormal, FormIsTheNumber, NormalFormIsTheForm, OneForm, OneNumber};
ghost use Rattle.icu_decimal_scientific.specs.ScientificReadingsLaws.{DecimalReadsBack, FormReadsBack, HasOneDecimalReading, ProductIsFunction, ProductIsTested, ReadFormIsWrittenAgain, ReadIsDecimal};
ghost use Rattle.icu_decimal_scientific.specs.ShownLaws.{NormalIsShown, NormalReadsBack, ShownIsNormal, ShownReadsBack, WithinIsDecimal};
ghost use Rattle.icu_decimal_scientific.specs.ScientificTextLaws.{HasOneScientificReading, ReadIsWrittenAgain, ScientificIsText, TextsHaveOneNumber, TextsHaveOneValue, WrittenIsReadBack};

/// A law: the significand times ten to the exponent is the number. 1.2 and 6 are the form of 1200000 alone, whatever
/// zeros that shows.
pub fn scientific_is_the_number()
    ensures value { FormIsTheNumber }
    ensures one { OneNumber }
{}

/// A law: the significand of zero is zero, with the exponent 0; any other is at least 1 and below 10, in engineering
/// notation below 1000, where the exponent is a multiple of three.
pub fn scientific_is_normal()
    ensures { FormIsNormal }
{}

/// A law: a number has one form of a notation: the one that is normal. 1200000 is 1.2 and 6, and not 12 and 5.
pub fn one_form_is_normal()
    ensures one { OneForm }
    ensures normal { NormalFormIsTheForm }
{}

/// A law: a number that `ScientificNumber::of_decimal` refuses has no form, as 1000 with 32768 digits after the point, of
/// which the last is not zero.
pub fn refused_numbers_have_no_form()
    ensures { BeyondHasNoForm }
{}

/// A law: what a scientific number writes is the text of its definition: of -1.2 and 6 in English `-1.2E6`.
pub fn text_law()
    ensures { ScientificIsText }
{}

/// A law: where it is readable, a text has one scientific number: no two are written alike. In English with `E`
/// `1.2E06` is only 1.2 and 06. So two significands with their exponents are never written alike, whatever signs and
/// zeros of exponents are asked for: `1.2E6` is only 1.2 and 6.
pub fn scientific_texts_have_one_number()
    ensures value { TextsHaveOneValue }
    ensures number { TextsHaveOneNumber }
{}

/// A law: a text has one reading at most. A scientific number that was written is read as what was written, with its
/// signs and the digits shown; a text that was read, written again, is the same text. In English with `E` -1.20 and 6
/// is written `-1.20E6`, and this is read as -1.20 and 6.
pub fn both_scientific_trips()
    ensures one { HasOneScientificReading }
    ensures back { WrittenIsReadBack }
    ensures again { ReadIsWrittenAgain }
{}

/// A law: the form of a number is a decimal, and that is the number, whatever zeros it shows: 1.2 and 6 are 1200000. A
/// significand and an exponent are one decimal at most.
pub fn form_is_its_decimal()
    ensures one { OneProduct }
    ensures has { FormHasProduct }
    ensures value { ProductIsTheNumber }
{}

/// A law: in a notation a text has one reading at most. What was written of a decimal is read as its form, and as the
/// decimal, whatever zeros that shows; what was read, shown and written again, is the same text. In English with `E`
/// 1200000.0 is written `1.2E6`, and this is read as 1.2 and 6, and as 1200000.
pub fn notation_trips()
    ensures one { TextHasOneForm }
    ensures written { DecimalHasFormText }
    ensures back { DecimalIsReadBack }
    ensures again { FormIsWrittenAgain }
{}

/// A law: the function of `FormOf.antt` answers the form of a number, where it has one: of 1200000 1.2 and 6.
pub fn form_is_a_function()
    ensures value { FormIsFunction }
    ensures beyond { BeyondIsBelow }
    ensures form { FunctionIsForm }
{}

/// A law: an exponent is shown as the function of `ShownNumbers.antt` says, and only so: 6 with the sign `Always` and at
/// least two digits as `+06`.
pub fn shown_exponent_is_a_function()
    ensures { ShownExponentIsFunction }
{}

/// A law: where a significand is changed and reaches a higher exponent, it is divided again, keeps its value and is normal:
/// 10 becomes 1, times ten. Where nothing is changed, the form is shown.
pub fn carried_is_normal()
    ensures normal { CarriedIsNormal }
    ensures unchanged { UnchangedIsForm }
{}

/// A law: functions say whether a significand and an exponent are a decimal, and which: 1.20 and 6 are 1200000.
pub fn product_is_a_function()
    ensures test { ProductIsTested }
    ensures value { ProductIsFunction }
{}

/// A law: the function `scientific_reading` says what a text is in a notation: the decimal that is written so, or that
/// there is none, or that the tables are not readable. In English with `E` and the default options `1.20E6` is 1200000,
/// and `1.20E06` is none.
pub fn scientific_reading_is_the_reading()
    ensures { HasOneDecimalReading }
{}

/// A law: where the tables are readable, the text of a significand and an exponent that are normal, and a decimal, is
/// read as the decimal; so what was written of a decimal is read as the decimal, whatever zeros that shows. A text that
/// was read is that of a normal significand and exponent, and what was read is their decimal. In English with `E`
/// 1200000.0 is written `1.2E6`, and this is read as 1200000; `1.20E6` is too, and is the text of 1.20 and 6.
pub fn decimal_trips()
    ensures form { FormReadsBack }
    ensures back { DecimalReadsBack }
    ensures decimal { ReadIsDecimal }
    ensures again { ReadFormIsWrittenAgain }
{}

/// A law: what is shown of a number whose significand is changed is normal, where the change keeps to the significands of
/// the notation, as each rounding to significant digits does. The text of what is normal, and within the places of decimals,
/// is read as the value shown. In English with `E` 999999 is `1.00E6` with three digits, and this is read as 1000000; 9.99
/// and 32767 are `1.0E32768` with two digits, which is no decimal.
pub fn shown_is_read_back()
    ensures normal { ShownIsNormal }
    ensures within { WithinIsDecimal }
    ensures shown { NormalIsShown }
    ensures any { NormalReadsBack }
    ensures back { ShownReadsBack }
{}
