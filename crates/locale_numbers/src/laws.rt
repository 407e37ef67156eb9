//! Laws over the definitions that the clauses of this crate cite. Each function is a proof: it
//! answers nothing.

ghost use Rattle.locale_numbers_book.specs.FoundFormats.{found_for};
ghost use Rattle.locale_numbers_formats.specs.declared.CompactWidth.TheVariants.{Short, Long};
ghost use Rattle.locale_numbers.specs.AskedFormats.{compact_shape, plain_shape};
ghost use Rattle.locale_numbers.specs.FormatterKeys.{same_keys};
ghost use Rattle.locale_numbers.specs.Laws.{AlikeTagsAreAnsweredAlike, NormalTextIsAnsweredAlike, AutoIsAnsweredAsAlways, AreTexts, EachGroupingIsReadLeniently, FoundTablesAreTexts, LinesAskTheirFields, ReadIsReadLeniently, ReadIsWrittenAgain, RoundedIsWrittenAgain, TellsKeys, WrittenIsUtf8, WrittenReadsBack};
ghost use Rattle.locale_numbers.specs.OldLines.{OldLinesStay};
ghost use Rattle.locale_numbers.specs.PrintedLaws.{FoundTablesAreSound, IsSoundWhereFound, PrintedIsAnswered, PrintedIsNear, PrintedIsWrittenAgain, PrintedKeepsOrder, PrintedPrintsItself, ZeroIsPrintedForZero};
ghost use Rattle.locale_numbers.specs.Selection.{NumbersNeedNoUnits, SelectedBooksAnswerAlike, SelectedBooksFindAlike, SelectedBooksHaveTheFormatters, SelectedParentsAreParents};
ghost use Rattle.locale_numbers.specs.Serving.{ServedBooksAnswerAlike};
ghost use Rattle.locale_numbers.specs.LenientUnitLaws.{EachUnitGroupingIsReadLeniently, ReadUnitIsReadLeniently};
ghost use Rattle.locale_numbers.specs.UnitLaws.{FoundUnitsAreTexts, ReadUnitIsWrittenAgain, WrittenPercentReadsBack, WrittenUnitIsUtf8, WrittenUnitReadsBack};

use crate::formatter_key::FormatterKey;
use icu_decimal::laws::compact::{
    held_entries_are_sound, shown_forms_are_answered, shown_values_are_compact,
};
use icu_decimal::laws::reading::{
    both_trips, plain_reading_is_the_reading, texts_are_utf8, texts_have_one_decimal,
};
use icu_decimal::laws::shown::{exact_forms_of_shown_values, tables_show_values};
use icu_decimal::options::GroupingStrategy;
use icu_decimal::{DecimalFormatterPreferences, is_readable};
pub use icu_dimension::laws::lenient::{each_unit_grouping_is_lenient, functions_answer_readings};
use icu_dimension::laws::units::texts_have_one_decimal as unit_texts_have_one_decimal;
pub use locale_numbers_answers::laws::{
    amounts_have_one_end, compact_texts_have_one_reading, requests_are_at_magnitude,
    roundings_have_one_end, texts_have_one_reading,
};
use locale_numbers_book::laws::{tables_are_sound, units_are_texts};
pub use locale_numbers_book::laws::{
    chains_end, cycles_are_met, data_locales_are_read, is_one_book, old_books_stay,
    sample_book_is_known, sample_units_book_is_known, symbols_are_of_found_locales, tags_are_read,
};
use locale_numbers_book::{Tables, find_formatter};
use locale_numbers_cache::laws::equal_keys_are_one;
pub use locale_numbers_cache::laws::{last_used_are_kept, unused_keys_miss};
use locale_numbers_formats::{CompactWidth, Notation, NumberShape, NumberUnit};
use locale_numbers_formatter::FormatterKind;
use locale_numbers_formatter::laws::{
    compact_is_layered, own_unit_texts_are_of_the_first, plain_reads_by_pairs,
};
pub use locale_numbers_lines::laws::{
    each_input_splits, lines_are_the_pieces, outputs_join, whole_lines_are_the_pieces,
};
pub use locale_numbers_requests::laws::{old_requests_stay, requests_have_codes};

/// A line is answered as what its fields ask is, where these are UTF-8 and no tab is in them: so each law over
/// requests holds of lines. The line of `en`, `plain`, `auto`, `keep`, `-`, `1000` with a tab between each two is
/// answered by `ok`, a tab and `1,000`, and that of five fields by `shape`.
pub fn lines_ask_their_fields()
    ensures { LinesAskTheirFields }
{}

/// A line of the forms `plain`, `short`, `long`, `exact-short`, `exact-long` and `read` is answered as it was before other
/// forms, the grouping `on-aligned` and choices of digits were added, and a line of one of these was refused for its shape:
/// that of `en`, `plain` and `1000` is answered by `ok`, a tab and `1,000`, and those of `percent` and `plural` were answered
/// by `err`, a tab and `shape`.
pub fn old_lines_stay()
    ensures { OldLinesStay }
{
    old_requests_stay();
}

/// Of a tag its language, script, region and first variant count, and its `sd` and `nu` where they read: nothing else
/// in a tag changes an answer, neither `rg` nor any other keyword, attribute, extension, private subtag or later
/// variant. Variants are in the order of their bytes: the first one of `de-fonipa-1996` is `1996`. `EN-X-Foo` and
/// `en` are answered alike.
pub fn alike_tags_are_answered_alike()
    ensures { AlikeTagsAreAnsweredAlike }
{}

/// A tag and its normal text have the same answer to every request: `ar-EG-U-Nu-THAI` has that of `ar-EG-u-nu-thai`.
pub fn normal_text_is_answered_alike()
    ensures { NormalTextIsAnsweredAlike }
{}

/// A book that has of another what the preferences of a tag ask for, and what they ask for with the system `latn`, as lenient
/// lines do, answers each line of the tag as that one does. With `de` a book of the entries of `de` and of the digits of
/// `latn` answers as the sample book with units.
pub fn served_books_answer_alike()
    ensures { ServedBooksAnswerAlike }
{}

/// The small book of a tag answers each line of the tag as the whole book does: it has the entries of the locales of the
/// chain, of `und` too for units, plurals and signs, under no system, `latn` and that of the tag, the digits of these systems
/// and of those that its symbols name, and the parents along the chain. That of `de-AT` has the symbols of `de-AT` and of `de`.
pub fn selected_books_answer_alike()
    ensures { SelectedBooksAnswerAlike }
{}

/// The small book of a tag finds the same locale for it as the whole book: that of `de-AT-1996` finds `de-AT`, where the whole
/// book has symbols of this.
pub fn selected_books_find_alike()
    ensures { SelectedBooksFindAlike }
{}

/// The small book of a tag has for it the formatters of the whole book, of each shape, those for typed texts too, and its plural
/// rules: that of `de-AT` writes amounts with the symbols of `de-AT`, and reads typed ones by those of `de` too.
pub fn selected_books_have_the_formatters()
    ensures { SelectedBooksHaveTheFormatters }
{}

/// The parents along a chain, from its end to its front, are parents of a book: no locale is twice, and none closes a cycle.
/// Of `en-AU` they are that of `en-001` and that of `en-AU`. In another order one could close a cycle under those before it.
pub fn selected_parents_are_parents()
    ensures { SelectedParentsAreParents }
{}

/// A line of a form without a unit, and of neither an ordinal category nor a range, has the same answer by a book with units
/// and more of plurals and by the same book without both: with `en`, `plain` and `1000` both answer `1,000`.
pub fn numbers_need_no_units()
    ensures { NumbersNeedNoUnits }
{}

/// The groupings `auto` and `always` have the same answer to every request: with `en` and `1000` both have `1,000`.
pub fn auto_is_answered_as_always()
    ensures { AutoIsAnsweredAsAlways }
{}

/// What is found in a book is ten digits, each a character, and symbols that are texts, as the laws of reading back ask
/// for: in `SAMPLE_BOOK` with `en` `0` to `9` and `-`, `+`, `.`, `,`.
pub fn found_plain_tables_are_texts()
    ensures { FoundTablesAreTexts }
{}

/// What is found in tables of one's own is so too: with preferences of `en`, in the sample book, `0` to `9` and `-`,
/// `+`, `.`, `,`. It makes a formatter to tell, and does not allocate.
pub fn found_tables_are_texts<T: Tables>(
    tables: &T,
    preferences: DecimalFormatterPreferences,
    grouping: GroupingStrategy,
)
    ensures { AreTexts (found_for (plain_shape grouping) (T.book tables.now) preferences) }
{
    let shape = NumberShape {
        notation: Notation::Standard,
        unit: NumberUnit::None,
        grouping,
    };
    match find_formatter(tables, preferences, &shape) {
        Ok(formatter) => match formatter.kind() {
            FormatterKind::Plain(plain) => {
                let _ = is_readable(plain);
            }
            FormatterKind::Compact(_)
            | FormatterKind::CompactDigits(_)
            | FormatterKind::Scientific(_)
            | FormatterKind::Percent(_)
            | FormatterKind::Currency(_) => (),
        },
        Err(_) => (),
    }
}

/// The answer to a text that is read back, sent as a plain number with `keep` and no rounding, writes that text: with
/// `en`, `-987,654.321` is answered by `-987654.321`, and this by `-987,654.321`.
pub fn read_is_written_again()
    ensures { ReadIsWrittenAgain }
{
    plain_reads_by_pairs();
    plain_reading_is_the_reading();
    both_trips();
}

/// A text that `read` answers by a number, `read-lenient` answers by the same one: with `en`, `-987,654.321` has the
/// answer `-987654.321` to both.
pub fn read_is_read_leniently()
    ensures { ReadIsReadLeniently }
{
    plain_reads_by_pairs();
}

/// Where the symbols are leniently readable, a text that `read` answers by a number with one grouping, `read-lenient`
/// answers by the same one with each: with `en`, `1234` has the answer `1234` to `read` with `never`, and to
/// `read-lenient` with `always`.
pub fn each_grouping_is_read_leniently()
    ensures { EachGroupingIsReadLeniently }
{
    plain_reads_by_pairs();
}

/// What is written of a number is UTF-8, as each field of a line is: with `en` that of -987654.321 is `-987,654.321`.
pub fn written_is_utf8()
    ensures { WrittenIsUtf8 }
{
    texts_are_utf8();
}

/// Under readable symbols a text that was written reads back: the answer is the number, with its sign and the digits
/// shown. With `en`, `-987,654.321` is read as `-987654.321`.
pub fn written_reads_back()
    ensures { WrittenReadsBack }
{
    plain_reads_by_pairs();
    both_trips();
}

/// Under readable symbols a plain answer without a choice of digits, read back and written again with the same rounding
/// and `keep`, is the same text. With `en` and `2,half-expand,1`, `1250` is answered by `1,300`; this is read as `1300`,
/// and written `1,300`.
pub fn rounded_is_written_again()
    ensures { RoundedIsWrittenAgain }
{
    plain_reads_by_pairs();
    plain_reading_is_the_reading();
    texts_have_one_decimal();
}

/// What is found in a book for percents, and for the amounts of a currency in a style, is made of texts, as the laws of
/// reading back with a unit ask for: in `SAMPLE_UNITS_BOOK` with `en` and `EUR` `-€` is before a number with a minus
/// sign. The code of the currency is three letters `A` to `Z`, as that of each form is.
pub fn found_units_are_texts()
    ensures { FoundUnitsAreTexts }
{
    units_are_texts();
}

/// A text that `read-currency-EUR` answers by a number, `read-lenient-currency-EUR` answers by the same one, and so for
/// each unit, whatever the roundings: with `en`, `-€1,234.50` has the answer `ok`, a tab and `-1234.50` by both.
pub fn read_unit_is_read_leniently()
    ensures { ReadUnitIsReadLeniently }
{}

/// Where texts with the unit can be read leniently, what is written with it under any grouping is read leniently as the
/// number that was written: with `en` and `read-lenient-currency-EUR` both `€1234.50` and `€1,234.50` are 1234.50. No
/// white space is at the ends of the folded affixes, and no way of lenient reading reads another number.
pub fn each_unit_grouping_is_read_leniently()
    ensures { EachUnitGroupingIsReadLeniently }
{
    found_units_are_texts();
    functions_answer_readings();
    each_unit_grouping_is_lenient();
    own_unit_texts_are_of_the_first();
}

/// The text of each decimal with its unit is UTF-8, as a field of a line is: the one of -1234.5 with `€` in English is
/// `-€1,234.5`.
pub fn written_unit_is_utf8()
    ensures { WrittenUnitIsUtf8 }
{
    found_units_are_texts();
    texts_are_utf8();
    unit_texts_have_one_decimal();
}

/// The number that a line answers for a text with a unit, sent as it is with the same rounding, is written as that text:
/// under `en` `read-currency-EUR` with `-€1,234.50` answers `-1234.50`, and `currency-EUR` with this `-€1,234.50`.
pub fn read_unit_is_written_again()
    ensures { ReadUnitIsWrittenAgain }
{
    found_units_are_texts();
    functions_answer_readings();
    unit_texts_have_one_decimal();
}

/// Where texts with the unit can be read, what a line writes is read back, under the same rounding, as the number that
/// was written: under `en` `currency-EUR` with `1234.505` writes `€1,234.50`, and `read-currency-EUR` reads this as
/// 1234.50.
pub fn written_unit_reads_back()
    ensures { WrittenUnitReadsBack }
{
    found_units_are_texts();
    functions_answer_readings();
    unit_texts_have_one_decimal();
}

/// Where texts with a percent or a permille sign can be read, what a line writes is read back under the rounding `-`,
/// whatever rounding wrote it: under `en` `percent` with `0,half-even,1` and `12.4` writes `12%`, and `read-percent` with
/// `-` reads this as 12.
pub fn written_percent_reads_back()
    ensures { WrittenPercentReadsBack }
{
    found_units_are_texts();
    functions_answer_readings();
    unit_texts_have_one_decimal();
}

/// What formatters are kept under is told apart exactly where preferences, kinds of tables, groupings or what the formatter
/// is for differ: `en` and `en-x-foo` have one key under `plain` and `auto`, another under `min2`, and another for `plural`.
pub fn keys_are_told_apart()
    ensures { TellsKeys same_keys }
{
    equal_keys_are_one::<FormatterKey>();
}

/// The value that a compact answer prints, sent back in the exact form with the same tag and grouping, `keep` and no
/// rounding, is refused by `exponent` exactly where the entry of its magnitude has another exponent, and by no other
/// word. With types 3 and 7 and exponents 3 and 6, `999500` is answered by `1M` and `1c6`, and this by `exponent`.
pub fn printed_value_is_answered()
    ensures { PrintedIsAnswered }
{
    compact_is_layered();
    shown_values_are_compact();
    shown_forms_are_answered();
}

/// It is answered by the same compact text, where the entry of its magnitude is the one that was used; so where each
/// type is its exponent, and where the value shown has the magnitude of the number. With `en`, `1650` is answered by
/// `1.6K` and `1.6c3`, and this by `1.6K`.
pub fn printed_value_is_written_again()
    ensures { PrintedIsWrittenAgain }
{
    compact_is_layered();
    shown_values_are_compact();
    shown_forms_are_answered();
    exact_forms_of_shown_values();
}

/// Of two numbers that are shown in one form under one tag, and not rounded, the smaller never prints a larger value.
/// With `en`, `999499` prints `999c3`, and `999500` prints `1c6`.
pub fn printed_values_keep_order()
    ensures { PrintedKeepsOrder }
{
    shown_values_are_compact();
    shown_forms_are_answered();
    tables_show_values();
}

/// A printed value is off by at most a twentieth of the number after its rounding (`near`), and zero is printed only
/// for zero (`zero_value`). A number of the size of a printed value prints this size (`itself`). With `en`, `1650`
/// prints `1.6c3`, and `1600` prints it too.
pub fn printed_values_are_near()
    ensures near { PrintedIsNear }
    ensures zero_value { ZeroIsPrintedForZero }
    ensures itself { PrintedPrintsItself }
{
    shown_values_are_compact();
    shown_forms_are_answered();
    tables_show_values();
}

/// What requests find in a book is sound, as the laws of printed values ask for: types that rise, exponents that fit
/// them, and both in bytes. In `SAMPLE_BOOK` with `en` these are the types 3 and 6.
pub fn found_compact_tables_are_sound()
    ensures { FoundTablesAreSound }
{
    tables_are_sound();
}

// What is found of compact numbers in tables is sound.
fn found_tables_are_sound<T: Tables>(
    tables: &T,
    width: CompactWidth,
    preferences: DecimalFormatterPreferences,
    grouping: GroupingStrategy,
)
    ensures { IsSoundWhereFound (found_for (compact_shape width grouping) (T.book tables.now) preferences) }
{
    let shape = NumberShape {
        notation: Notation::Compact(width),
        unit: NumberUnit::None,
        grouping,
    };
    match find_formatter(tables, preferences, &shape) {
        Ok(formatter) => match formatter.kind() {
            FormatterKind::Compact(compact) => held_entries_are_sound(compact),
            FormatterKind::Plain(_)
            | FormatterKind::CompactDigits(_)
            | FormatterKind::Scientific(_)
            | FormatterKind::Percent(_)
            | FormatterKind::Currency(_) => (),
        },
        Err(_) => (),
    }
}

/// What the short form finds in tables of one's own is sound: in the sample book with `en` the types 3 and 6. It makes
/// a formatter to tell, and does not allocate.
pub fn found_short_tables_are_sound<T: Tables>(
    tables: &T,
    preferences: DecimalFormatterPreferences,
    grouping: GroupingStrategy,
)
    ensures { IsSoundWhereFound (found_for (compact_shape Short grouping) (T.book tables.now) preferences) }
{
    found_tables_are_sound(tables, CompactWidth::Short, preferences, grouping);
}

/// What the long form finds in tables of one's own is sound: in the sample book with `en` the types 3 and 6. It makes a
/// formatter to tell, and does not allocate.
pub fn found_long_tables_are_sound<T: Tables>(
    tables: &T,
    preferences: DecimalFormatterPreferences,
    grouping: GroupingStrategy,
)
    ensures { IsSoundWhereFound (found_for (compact_shape Long grouping) (T.book tables.now) preferences) }
{
    found_tables_are_sound(tables, CompactWidth::Long, preferences, grouping);
}
