//! The task that reads back: the number that a text was written from, as an answer.

ghost use Rattle.std.specs.Prelude.{◌≡◌, ◌⊎◌, true, ◌∷◌, ◌++◌, List, Ok, Option, None, Some, IsOk, OnOk, OnErr, string_bytes};
ghost use Rattle.locale_numbers_lines.specs.Growth.{Grows};
ghost use Rattle.locale_numbers_answers.specs.AnswerSink.{HasRoom};
ghost use Rattle.locale_numbers_answers.specs.AnswerMemory.{ReadAllocates};
ghost use Rattle.locale_numbers_answers.specs.Answers.{read_found};
ghost use Rattle.locale_numbers_formatter.specs.FormatReading.{ReaderAllocates, reader_of};
ghost use Rattle.locale_numbers_formatter.specs.FormatText.{HasNoUnit};
ghost use Rattle.locale_numbers.specs.FormatterKeys.{rules_for};
ghost use Rattle.locale_numbers.specs.Front.{PutsTogether};
ghost use Rattle.locale_numbers.specs.KeptFormatters.{StillKeeps, found_by, reader_is_kept};
ghost use Rattle.locale_numbers.specs.declared.formatter_key.FormatterKey.{FormatterKey};

use crate::formatter_key::FormatterKey;
use crate::formatters::Formatters;
use crate::kept_formatter::KeptFormatter;
use locale_numbers_answers::{write_read_answer, write_refusal};
use locale_numbers_cache::Hashed;
use locale_numbers_formats::Rounding;
use locale_numbers_requests::Refusal;
use std::alloc::{AllocError, Global};

// Writes the answer to a text that a formatter reads back after what `out` holds. What reads it is put together now,
// where it is not kept. It is apart, so that this takes no room on the stack where a formatter is made.
#[inline(never)]
fn read_by_formatter(
    alloc: Global,
    kept: &KeptFormatter<'_>,
    rounding: Rounding,
    text: &str,
    out: &mut String,
) -> Result<(), AllocError>
    ensures text { OnOk result (string_bytes out.new
        ≡ string_bytes out.old ++ read_found (Ok kept.now.formatter) rounding text.now) }
    ensures err { OnErr result (Grows (string_bytes out.old) (string_bytes out.new)) }

    // Where there is room for the answer, only a text of more than sixteen digits may be out of memory, and the affixes
    // of a unit that are put together.
    ensures room { HasRoom out.old (read_found (Ok kept.now.formatter) rounding text.now)
        → HasNoUnit kept.now.formatter ⊎ (kept.now.keeps_reader ≡ true)
        → ¬ (ReaderAllocates (reader_of kept.now.formatter) text.now) → IsOk result }
{
    let fractions = kept.formatter.fractions();
    if let Some(reader) = &kept.reader {
        return write_read_answer(alloc, reader, fractions, rounding, text, out);
    }
    match kept.formatter.reader(alloc) {
        Ok(reader) => write_read_answer(alloc, &reader, fractions, rounding, text, out),
        Err(refused) => Err(refused),
    }
}

// Writes the answer to a text that the formatter of a key reads back after what `out` holds.
//
// `AllocError`: out of memory; a part of the answer may then be there.
#[inline(never)]
pub(crate) fn answer_read<'a, F: Formatters<'a>>(
    alloc: Global,
    formatters: &mut F,
    key: &Hashed<FormatterKey>,
    rounding: Rounding,
    text: &str,
    out: &mut String,
) -> Result<(), AllocError>
    requires ready { F.is_ready formatters.old }
    requires right { F.is_right_for formatters.old key.now }
    requires ruleless { rules_for key.now.purpose ≡ None }
    ensures text { OnOk result (string_bytes out.new ≡ string_bytes out.old
        ++ read_found (found_by (F.book formatters.old) key.now) rounding text.now) }
    ensures err { OnErr result (Grows (string_bytes out.old) (string_bytes out.new)) }

    // Where there is room for the answer, and handing out the formatter of the key takes none, only a text of more than
    // sixteen digits may be out of memory, and the affixes of a unit that are put together where none are kept.
    ensures room { HasRoom out.old (read_found (found_by (F.book formatters.old) key.now) rounding text.now)
        → ¬ (F.may_take_memory formatters.old key.now)
        → ¬ (ReadAllocates (found_by (F.book formatters.old) key.now) text.now)
        → ¬ (PutsTogether (reader_is_kept (F.kept_for formatters.old key.now))
        (found_by (F.book formatters.old) key.now)) → IsOk result }
    ensures counted { OnOk result ((more : List (Option FormatterKey)) →
        F.keeping_over formatters.old (Some key.now ∷ more) ≡ F.keeping_over formatters.new more) }
    ensures kept { StillKeeps (F.kept_for formatters.old) (F.may_take_memory formatters.new)
        (F.kept_for formatters.new) }
    ensures same { F.book formatters.new ≡ F.book formatters.old }
    ensures ready { F.is_ready formatters.new }
    ensures right { F.is_right_for formatters.new key.now }
{
    let found = formatters.find(key)?;
    if !found {
        return write_refusal(out, Refusal::Table);
    }
    read_by_formatter(alloc, formatters.found(key), rounding, text, out)
}
