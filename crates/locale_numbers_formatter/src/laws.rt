//! Laws of the text by layers: it is the text of each format as it is defined in its own crate. No call is made: each clause
//! is the law.

ghost use Rattle.locale_numbers_formatter.specs.ReadingLaws.{FormatReadIsWrittenAgain, FormatReadsBack, PlainReadsByPairs, ReadersReadFormats, ScientificFormIsWritten, ScientificReadsBack};
ghost use Rattle.locale_numbers_formatter.specs.SignificandLaws.{PartsKeepSignificands, ShownFormReadsBack};
ghost use Rattle.locale_numbers_formatter.specs.OwnUnitLaws.{OtherUnitsInTurnStay, OwnUnitTextIsFirsts, UnitInTurnIsAscii, UnitInTurnIsNativeSo};
ghost use Rattle.locale_numbers_formatter.specs.Laws.{CompactIsLayered, CompactPartsAreLayered, CompactValueIsShown, ExactFormatIsText, ExactIsLayered, ExactPartsAreLayered, FormatIsText, PlainIsLayered, PlainPartsAreLayered, ScientificIsLayered, ScientificPartsAreLayered, ScientificValueIsShown, UnitIsLayered, UnitPartsAreLayered};

use icu_decimal::laws::compact::{exact_texts_are_of_events, sign_round_unsigned};
use icu_decimal::laws::reading::plain_reading_is_the_reading;
use icu_decimal::laws::text::text_law;
use icu_decimal_scientific::laws::{
    decimal_trips, shown_is_read_back, text_law as scientific_text_law,
};
use icu_dimension::laws::units::{both_trips, text_law as unit_text_law};
use icu_dimension_lenient::laws::functions_answer_readings;

/// A law: the text of a plain number is its digits between the affixes of its sign: in English `1,234.5` after `-`.
pub fn plain_is_layered()
    ensures text { PlainIsLayered }
    ensures parts { PlainPartsAreLayered }
{}

/// A law: the text of a compact number is the digits shown in their pattern, between the affixes of the sign: in English
/// `1.2` before `M`, after `-`. The value shown is that of the layers, and an exact form has the same layers.
pub fn compact_is_layered()
    ensures text { CompactIsLayered }
    ensures parts { CompactPartsAreLayered }
    ensures value { CompactValueIsShown }
    ensures exact { ExactIsLayered }
    ensures exact_parts { ExactPartsAreLayered }
{
    text_law();
}

/// A law: the text of a number with a unit is its digits between the affixes of its sign, with the unit: in English
/// `1,234.5` after `-€`, and in Swiss German 5 after `CHF-`.
pub fn unit_is_layered()
    ensures text { UnitIsLayered }
    ensures parts { UnitPartsAreLayered }
{}

/// A law: the text of a scientific number is the digits of its significand with the exponent after them, between the affixes
/// of the sign: in English `1.2E3`, after `-`. The value shown is that of the layers.
pub fn scientific_is_layered()
    ensures text { ScientificIsLayered }
    ensures parts { ScientificPartsAreLayered }
    ensures value { ScientificValueIsShown }
{}

/// A law: what a number of any format writes with its parts is the text of its definition, and so is an exact form.
pub fn format_is_text()
    ensures number { FormatIsText }
    ensures exact { ExactFormatIsText }
{
    plain_is_layered();
    compact_is_layered();
    unit_is_layered();
    scientific_is_layered();
    text_law();
    sign_round_unsigned();
    exact_texts_are_of_events();
    unit_text_law();
    scientific_text_law();
}

/// A law: a plain text is read as the number between the affixes of its sign: in English `-1,234.5` as `1,234.5` after
/// `-`.
pub fn plain_reads_by_pairs()
    ensures { PlainReadsByPairs }
{
    plain_reading_is_the_reading();
    functions_answer_readings();
}

/// A law: what a readable format of plain numbers, percents or amounts writes of a number is read as that number, with its
/// sign and the digits shown, and what is read as a number is what the format writes of it. In English -1234.50 is written
/// `-€1,234.50`, and this is read as -1234.50.
pub fn written_reads_back()
    ensures written { ReadersReadFormats }
    ensures back { FormatReadsBack }
    ensures again { FormatReadIsWrittenAgain }
{
    both_trips();
    functions_answer_readings();
}

/// A law: what a readable format of scientific numbers writes of a number is read as the value shown, where that is normal
/// and a decimal. What is read as a number is the text of a normal significand and exponent, which are that number. In
/// English with three digits 999999 is written `1.00E6`, and this is read as 1000000; so is `1E6`.
pub fn scientific_reads_back()
    ensures back { ScientificReadsBack }
    ensures form { ScientificFormIsWritten }
{
    shown_is_read_back();
    decimal_trips();
}

/// A law: options that round to significant digits, to parts of one, or not at all, leave a significand one, so that what a
/// readable format of scientific numbers writes with them is read as the value shown, but where this is no decimal. By two
/// digits 9.99 is `1.0E1`, and this is read as 10; rounded to tens 12.3 is `0E1`, which is not read.
pub fn significands_are_kept()
    ensures keeps { PartsKeepSignificands }
    ensures back { ShownFormReadsBack }
{
    shown_is_read_back();
}

/// A law: what the first of two readers' formatter writes of a number with its unit, under any grouping, and reads as that
/// number, the second one does not change: in `oc-ES-u-nu-fullwide` 9376 dinars are typed `９,３７６ IQD` under any grouping.
pub fn own_unit_texts_are_of_the_first()
    ensures { OwnUnitTextIsFirsts }
{}

/// A law: native digits add to what two readers read of numbers with a unit: what is read without them stays, and so does
/// every text that has none; any other one is read as it is in ASCII. In `hi` and `INR` `₹१२३` is 123, and `₹1२3` is not one.
pub fn native_units_are_read_in_turn()
    ensures same { UnitInTurnIsNativeSo }
    ensures others { OtherUnitsInTurnStay }
    ensures ascii { UnitInTurnIsAscii }
{}
