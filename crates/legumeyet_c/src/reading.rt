//! Texts read back, and what people type: `legumeyet_formatter_read` and `_read_lenient`.

ghost use Rattle.std.specs.Prelude.{◌≡◌, IfOk, IfErr, IsErrOf};
ghost use Rattle.icu_decimal.specs.PlainReading.{IsAnswered, decimal};
ghost use Rattle.legumeyet_c_values.specs.Putting.{Answers, IsPut};
ghost use Rattle.legumeyet_c.specs.HeldFormats.{ReadAllocates, TypedReadAllocates};
ghost use Rattle.legumeyet_c.specs.Kinds.{format_in};
ghost use Rattle.legumeyet_c.specs.Opened.{opened};
ghost use Rattle.legumeyet_c.specs.Reading.{HasReading, IsReadFault, IsUnread, SaysRead, exact_reading, typed_reading};
ghost use Rattle.legumeyet_c.specs.Views.{format_content, format_open};

use crate::content::{Content, formatter_in};
use crate::handle::Handle;
use crate::handles::FormatterHandle;
use crate::held_formatter::HeldFormatter;
use fixed_decimal::Decimal;
use icu_decimal::error::ReadError;
use legumeyet_c_values::{CallError, put, status_of};
use std::alloc::Global;

// How a text is read. A type that holds nothing stands for it.
pub(crate) trait FormatReading {
    ghost use Rattle.std.specs.Prelude.{List, ℕ};
    ghost use Rattle.icu_decimal.specs.PlainReading.{PlainReading};
    ghost use Rattle.legumeyet_c.specs.HeldFormats.{HeldFormat};

    // what it is read as
    ghost reading: { HeldFormat → List ℕ → PlainReading };

    // memory may be wanted for it
    ghost allocates: { HeldFormat → List ℕ → Type 0 };

    /// Keeps with a formatter what makes later texts faster to read, where memory is not refused.
    fn ready(alloc: Global, held: &mut HeldFormatter)
        ensures { held.new ≡ held.old };

    /// The number of the text.
    fn read(alloc: Global, held: &HeldFormatter, text: &str) -> Result<Decimal, ReadError>
        ensures answered { IsAnswered result (reading held.now text.now) }
        ensures memory { IsErrOf result ReadError.Memory → allocates held.now text.now };
}

// As the formatter writes.
pub(crate) struct Exact;

impl FormatReading for Exact {
    ghost reading = { exact_reading };

    ghost allocates = { ReadAllocates };

    fn ready(alloc: Global, held: &mut HeldFormatter) {
        held.keep_exact_reader(alloc)
    }

    fn read(alloc: Global, held: &HeldFormatter, text: &str) -> Result<Decimal, ReadError> {
        held.read(alloc, text)
    }
}

// As people type.
pub(crate) struct Lenient;

impl FormatReading for Lenient {
    ghost reading = { typed_reading };

    ghost allocates = { TypedReadAllocates };

    fn ready(alloc: Global, held: &mut HeldFormatter) {
        held.keep_typed_reader(alloc)
    }

    fn read(alloc: Global, held: &HeldFormatter, text: &str) -> Result<Decimal, ReadError> {
        held.read_typed(alloc, text)
    }
}

// The number that is written so with a formatter.
fn read_with<R: FormatReading>(
    alloc: Global,
    held: &HeldFormatter,
    text: &[u8],
) -> Result<Decimal, CallError>
    ensures value { IfOk result (λ value. HasReading R.reading held.now text.now (decimal value)) }
    ensures fault { IfErr result (λ error. IsUnread R.reading R.allocates held.now text.now error) }
{
    let Ok(text) = str::from_utf8(text) else {
        return Err(CallError::NoUtf8);
    };
    match R::read(alloc, held, text) {
        Ok(value) => Ok(value),
        Err(ReadError::Unreadable) => Err(CallError::Unreadable),
        Err(ReadError::NotWritten) => Err(CallError::NotWritten),
        Err(ReadError::Memory) => Err(CallError::Memory),
    }
}

// Writes the digits of that number, by what is open.
pub(crate) fn write_read<R: FormatReading>(
    alloc: Global,
    content: Option<&Content>,
    text: &[u8],
    out: &mut [u8],
    length: &mut usize,
) -> Result<(), CallError>
    ensures { IsPut (SaysRead R.reading (format_in (opened content.entry)) text.now)
        (IsReadFault R.reading R.allocates (format_in (opened content.entry)) text.now) out.old out.new length.old
        length.new result }
{
    let Some(held) = formatter_in(content) else {
        return Err(CallError::Closed);
    };
    match read_with::<R>(alloc, held, text) {
        Ok(value) => put(&value, out, length),
        Err(error) => Err(error),
    }
}

// Readies the formatter that a content has, where it has one.
fn ready_content<R: FormatReading>(alloc: Global, content: &mut Content)
    ensures { content.new ≡ content.old }
{
    match content {
        Content::Formatter(held) => R::ready(alloc, held),
        Content::Book(_) | Content::Kept(_) | Content::Answers(_) | Content::Nothing => (),
    }
}

// The same with that of a handle.
fn ready_after<R: FormatReading>(alloc: Global, formatter: &mut Handle)
    ensures { formatter.new.pointer.value ≡ formatter.old.pointer.value }
{
    if formatter.is_open {
        ready_content::<R>(alloc, formatter.pointer.get_mut())
    }
}

/// Reads a text back as the one number that the formatter writes so, and writes it as digits: in English `-1,234.50` as
/// `-1234.50`, and with euros `-€1,234.50` too. How many digits the currency has is not looked at: `€1.5` is 1.5. In
/// scientific notation `1.20E6` is 1200000, however many digits the formatter shows.
///
/// Returns 0; 2, the handle is closed; 10, the text is not UTF-8; 11, two numbers may have one text under the tables, and
/// of every text where the formatter writes compact numbers; 12, no number is written so, as `98,7654`; 1, out of memory,
/// which a text with sixteen digits at most never takes where the formatter has no unit; 3, the digits need more room.
#[unsafe(no_mangle)]
pub extern "C" fn legumeyet_formatter_read(
    alloc: Global,
    formatter: &mut FormatterHandle,
    text: &[u8],
    out: &mut [u8],
    length: &mut usize,
) -> i32
    ensures same { format_content formatter.new ≡ format_content formatter.old }
    ensures told { Answers
        (IsPut (SaysRead exact_reading (format_open formatter.old) text.now)
        (IsReadFault exact_reading ReadAllocates (format_open formatter.old) text.now) out.old out.new length.old
        length.new) result }
{
    ready_after::<Exact>(alloc, &mut formatter.handle);
    status_of(write_read::<Exact>(alloc, formatter.handle.content(), text, out, length))
}

/// Reads a text that somebody typed, with its unit or its code before or after the number, or without it: in English
/// ` 1234.5 ` as `1234.5`, and with euros `€1,234.5`, `5 EUR` and `-5 €` as `1234.5`, `5` and `-5`; `1,23` and `$5` are
/// none. What the formatter writes is read as `legumeyet_formatter_read` reads it, and another text is folded. Where its
/// digits are not those of ASCII, a text in these is read too, by the tables that the book has for them.
///
/// Returns as `legumeyet_formatter_read`; 11 also where the tables are not readable once they are folded and the text is
/// not the formatter's own, and of every text where the formatter writes scientific numbers; 1 also where it is not.
#[unsafe(no_mangle)]
pub extern "C" fn legumeyet_formatter_read_lenient(
    alloc: Global,
    formatter: &mut FormatterHandle,
    text: &[u8],
    out: &mut [u8],
    length: &mut usize,
) -> i32
    ensures same { format_content formatter.new ≡ format_content formatter.old }
    ensures told { Answers
        (IsPut (SaysRead typed_reading (format_open formatter.old) text.now)
        (IsReadFault typed_reading TypedReadAllocates (format_open formatter.old) text.now) out.old out.new length.old
        length.new) result }
{
    ready_after::<Lenient>(alloc, &mut formatter.handle);
    status_of(write_read::<Lenient>(alloc, formatter.handle.content(), text, out, length))
}
