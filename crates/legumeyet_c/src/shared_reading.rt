//! Texts read by a shared formatter: `legumeyet_shared_formatter_read` and `_read_lenient`.

ghost use Rattle.legumeyet_c_values.specs.Putting.{Answers, IsPut};
ghost use Rattle.legumeyet_c.specs.HeldFormats.{ReadAllocates, TypedReadAllocates};
ghost use Rattle.legumeyet_c.specs.Reading.{IsReadFault, SaysRead, exact_reading, typed_reading};
ghost use Rattle.legumeyet_c.specs.Views.{shared_format_open};

use crate::reading::{Exact, Lenient, write_read};
use crate::shared_handles::SharedFormatterHandle;
use legumeyet_c_values::status_of;
use std::alloc::Global;

/// Reads a text back, as `legumeyet_formatter_read` does. Any number of threads may be in it at once.
#[unsafe(no_mangle)]
pub extern "C" fn legumeyet_shared_formatter_read(
    alloc: Global,
    formatter: &SharedFormatterHandle,
    text: &[u8],
    out: &mut [u8],
    length: &mut usize,
) -> i32
    ensures { Answers
        (IsPut (SaysRead exact_reading (shared_format_open formatter.now) text.now)
        (IsReadFault exact_reading ReadAllocates (shared_format_open formatter.now) text.now) out.old out.new length.old
        length.new) result }
{
    status_of(write_read::<Exact>(alloc, formatter.handle.content(), text, out, length))
}

/// Reads a text that somebody typed, as `legumeyet_formatter_read_lenient` does. Any number of threads may be in it at
/// once.
#[unsafe(no_mangle)]
pub extern "C" fn legumeyet_shared_formatter_read_lenient(
    alloc: Global,
    formatter: &SharedFormatterHandle,
    text: &[u8],
    out: &mut [u8],
    length: &mut usize,
) -> i32
    ensures { Answers
        (IsPut (SaysRead typed_reading (shared_format_open formatter.now) text.now)
        (IsReadFault typed_reading TypedReadAllocates (shared_format_open formatter.now) text.now) out.old out.new
        length.old length.new) result }
{
    status_of(write_read::<Lenient>(alloc, formatter.handle.content(), text, out, length))
}
