//! Numbers that are written as they are given: texts that are put directly, with no number in between.

ghost use Rattle.std.specs.Prelude.{◌≡◌, ◌&&◌, IfSome, option_map};
ghost use Rattle.icu_decimal_direct.specs.TextDigits.{number_spelled};
ghost use Rattle.icu_decimal_direct.specs.TextTables.{text_tables};
ghost use Rattle.legumeyet_c_values.specs.Putting.{IsPut};
ghost use Rattle.legumeyet_c_values.specs.UsualOptions.{is_usual};
ghost use Rattle.locale_numbers.specs.FoundRules.{rules_held};
ghost use Rattle.locale_numbers_formatter.specs.FormatText.{plain_tables};
ghost use Rattle.legumeyet_c.specs.HeldFormats.{in_numbers};
ghost use Rattle.legumeyet_c.specs.Worded.{IsText, IsTextFault};
ghost use Rattle.legumeyet_c.specs.Writing.{asked_for, asked_plainly, shows_as_given};

use icu_decimal_direct::{TextDigits, TextTables};
use icu_plurals::PluralRulesWithRanges;
use legumeyet_c_values::{CallError, is_usual, put_bytes};
use locale_numbers_formats::NumberOptions;
use locale_numbers_formatter::laws::plain_is_layered;
use locale_numbers_formatter::{FormatterKind, NumberFormatter};

// The most bytes of a text that is put directly.
const ROOM: usize = 136;

// What texts are put with directly by a formatter, where it writes plain numbers in the digits of ASCII.
fn texts_of<'a>(formatter: &NumberFormatter<'a>) -> Option<TextTables<'a>>
    ensures { IfSome result (λ texts. plain_tables (text_tables texts) ≡ formatter.now) }
{
    match formatter.kind() {
        FormatterKind::Plain(plain) => {
            let strategy = plain.tables().strategy();
            TextTables::of(plain.symbols(), plain.digits(), strategy)
        }
        FormatterKind::Compact(_)
        | FormatterKind::CompactDigits(_)
        | FormatterKind::Scientific(_)
        | FormatterKind::Percent(_)
        | FormatterKind::Currency(_) => None,
    }
}

// The same, where the options are those of no words.
fn plain_texts<'a>(
    formatter: &NumberFormatter<'a>,
    options: &NumberOptions,
) -> Option<TextTables<'a>>
    ensures { IfSome result
        (λ texts. asked_plainly (text_tables texts) ≡ asked_for (in_numbers formatter.now) options.now) }
{
    if !is_usual(options) {
        return None;
    }
    match texts_of(formatter) {
        Some(texts) => Some(texts),
        None => None,
    }
}

// The same, where numbers are written and no words. It does not allocate.
pub(crate) fn texts_with<'a>(
    formatter: &NumberFormatter<'a>,
    plurals: Option<PluralRulesWithRanges<'_>>,
    options: &NumberOptions,
) -> Option<TextTables<'a>>
    ensures { IfSome result
        (λ texts. asked_plainly (text_tables texts)
        ≡ asked_for (record { tables = formatter.now; plurals = option_map rules_held plurals.entry }) options.now) }
{
    match plurals {
        Some(_) => None,
        None => plain_texts(formatter, options),
    }
}

// Whether a formatter shows numbers as they are given, where the options are those of no words.
fn shows_as_given(formatter: &NumberFormatter<'_>) -> bool
    ensures { result ≡ shows_as_given formatter.now }
{
    match formatter.kind() {
        FormatterKind::Plain(_) | FormatterKind::Percent(_) => true,
        FormatterKind::Compact(_)
        | FormatterKind::CompactDigits(_)
        | FormatterKind::Scientific(_)
        | FormatterKind::Currency(_) => false,
    }
}

// Whether numbers are shown as they are given, with these options.
pub(crate) fn is_as_given(formatter: &NumberFormatter<'_>, options: &NumberOptions) -> bool
    ensures { result ≡ (is_usual options.now && shows_as_given formatter.now) }
{
    is_usual(options) && shows_as_given(formatter)
}

// Writes the number that digits spell.
pub(crate) fn put_digits(
    texts: &TextTables<'_>,
    digits: &TextDigits<'_>,
    out: &mut [u8],
    length: &mut usize,
) -> Result<(), CallError>
    ensures { IsPut (IsText (in_numbers (plain_tables (text_tables texts.now))) (number_spelled digits.now))
        (IsTextFault (in_numbers (plain_tables (text_tables texts.now))) (number_spelled digits.now)) out.old out.new
        length.old length.new result }
{
    plain_is_layered();
    let mut text = [0; ROOM];
    let end = texts.put(digits, &mut text, 0);
    put_bytes(&text[..end], out, length)
}
