//! Laws of compact text: what abstract formatters write, the text of an exact form, and what is shown for a number,
//! sent back as one.
//! Where no formatter is passed, no call is made: each clause is the law.
ghost use Rattle.std.specs.Prelude.{◌≡◌, ◌<◌};
ghost use Rattle.icu_decimal_patterns.specs.SmallEntries.{AreSmall, IsSmall};
ghost use Rattle.icu_decimal_compact_value.specs.Entries.{Rises};
ghost use Rattle.icu_decimal.specs.HeldTables.{tables_of};
ghost use Rattle.icu_decimal_plain.specs.PlainText.{decimal_events, decimal_text, formatted, unsigned_text};
ghost use Rattle.icu_decimal.specs.AbstractLaws.{WritesText, WritesTogether, WritesUnit};
ghost use Rattle.icu_decimal.specs.CompactLaws.{ExactTextIsOfEvents, ShownFormAnswers, ShownFormIsInRange, ShownFormIsShownValue, ShownFormWritesSame, ShownIsCompact, SignificandIsNumber};
ghost use Rattle.icu_decimal.specs.CompactText.{compact_decimal_events, compact_decimal_text, compact_formatted, compact_of, compact_text};
ghost use Rattle.icu_decimal.specs.HeldCompact.{compact_tables_of};

use crate::abstract_formatter::AbstractFormatter;
use crate::compact_formatter::CompactDecimalFormatter;
use crate::formatter::DecimalFormatter;
use icu_decimal_compact_value::CompactEntry;

/// The affixes that `write_sign` writes, around what `write_unsigned` writes for a number without its sign, are what
/// `format` writes for the number with it, and their text is that of `format_to_string`: of -999500 in English a
/// compact formatter writes `-` before `1M`, which is `-1M`.
pub fn sign_round_unsigned()
    ensures plain { WritesTogether
        ⟦<DecimalFormatter<'static> as AbstractFormatter>⟧.unsigned_events
        ⟦<DecimalFormatter<'static> as AbstractFormatter>⟧.affixes
        (λ f d. decimal_events (formatted (tables_of f) d)) }
    ensures plain_text { WritesText
        ⟦<DecimalFormatter<'static> as AbstractFormatter>⟧.unsigned_events
        ⟦<DecimalFormatter<'static> as AbstractFormatter>⟧.affixes
        (λ f d. decimal_text (tables_of f) d) }
    ensures compact { WritesTogether
        ⟦<CompactDecimalFormatter<'static> as AbstractFormatter>⟧.unsigned_events
        ⟦<CompactDecimalFormatter<'static> as AbstractFormatter>⟧.affixes
        (λ f d. compact_decimal_events (compact_formatted (compact_tables_of f) d)) }
    ensures compact_text { WritesText
        ⟦<CompactDecimalFormatter<'static> as AbstractFormatter>⟧.unsigned_events
        ⟦<CompactDecimalFormatter<'static> as AbstractFormatter>⟧.affixes
        (λ f d. compact_decimal_text (compact_tables_of f) d) }
{}

/// With a text before what `format_unsigned` returns and one after it, `format_sign` writes the affixes of the sign
/// around all three: of `€`, -1234.5 and no text after in English a plain formatter writes `-€1,234.5`, and a compact
/// one `-€1.2K`.
pub fn sign_round_unit()
    ensures plain { WritesUnit
        ⟦<DecimalFormatter<'static> as AbstractFormatter>⟧.unsigned_events
        ⟦<DecimalFormatter<'static> as AbstractFormatter>⟧.affixes
        (λ f number. unsigned_text (tables_of f) number) }
    ensures compact { WritesUnit
        ⟦<CompactDecimalFormatter<'static> as AbstractFormatter>⟧.unsigned_events
        ⟦<CompactDecimalFormatter<'static> as AbstractFormatter>⟧.affixes
        (λ f number. compact_text (compact_of (compact_tables_of f) number)) }
{}

/// The text of an exact form is that of what `format_with_exponent` returns for it, and where this is refused there is
/// no text: -1.20 with the exponent 6 is `-1.20M` in English, with its parts and without.
pub fn exact_texts_are_of_events()
    ensures { ExactTextIsOfEvents }
{}

/// What is shown for a number, sent back as an exact form of the same tables: whether it is written, and as which text.
///
/// Under rising types it is refused exactly where the entry of the shown value's magnitude has another exponent, and
/// else it is written under that entry (`answer`). It has the same text, with its affixes, plural and grouping, where
/// that entry is the one shown (`same`). It is in range where the number can be shown (`in_range`). Its significand
/// times ten to its exponent is the shown value (`value`). In English 1650 is `1.6K`, and so is 1.6 with the exponent
/// 3. With `K` of type 3 and `k` of type 5, both of exponent 3, 99999 is `100K`, and 100 with the exponent 3 is `100k`.
pub fn shown_forms_are_answered()
    ensures answer { ShownFormAnswers }
    ensures same { ShownFormWritesSame }
    ensures in_range { ShownFormIsInRange }
    ensures value { ShownFormIsShownValue }
{}

/// What is shown for a number is a compact number, where the number can be shown and the entries fit into bytes: of
/// 1650 it is 1.6 with the exponent 3.
pub fn shown_values_are_compact()
    ensures significand { SignificandIsNumber }
    ensures compact { ShownIsCompact }
{}

// A byte is below 256.
fn is_small(byte: u8) -> u8
    ensures small { byte < 256 }
    ensures value { result ≡ byte }
{
    byte
}

// An entry fits into bytes.
fn is_small_entry(entry: &CompactEntry) -> u8
    ensures { IsSmall entry.now }
{
    let _ = is_small(entry.log10_type);
    is_small(entry.exponent)
}

// All entries fit into bytes.
fn entries_are_small(entries: &[CompactEntry])
    ensures { AreSmall entries.now }
{
    for entry in entries {
        let _ = is_small_entry(entry);
    }
}

/// The types of a formatter's table rise, and its numbers fit into bytes: in English those are the types 3 and 6 of the
/// short form. It does not allocate.
pub fn held_entries_are_sound(formatter: &CompactDecimalFormatter<'_>)
    ensures rises { Rises 0 (compact_tables_of formatter.now).patterns.entries }
    ensures small { AreSmall (compact_tables_of formatter.now).patterns.entries }
{
    let entries = formatter.patterns.entries();
    entries_are_small(entries);
}
