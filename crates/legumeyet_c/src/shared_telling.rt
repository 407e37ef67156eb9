//! Categories of ranges, and facts, by a shared formatter: `legumeyet_shared_formatter_format_range` and `_tell`.

ghost use Rattle.legumeyet_c_values.specs.Numbers.{spelled};
ghost use Rattle.legumeyet_c_values.specs.Putting.{Answers, IsPut};
ghost use Rattle.legumeyet_c.specs.Telling.{IsFactFault, SaysFact};
ghost use Rattle.legumeyet_c.specs.Views.{shared_format_open};
ghost use Rattle.legumeyet_c.specs.Writing.{IsRangeWritingFault, WritesRange};

use crate::ranges::answer_range;
use crate::shared_handles::SharedFormatterHandle;
use crate::telling::write_fact;
use legumeyet_c_values::status_of;
use std::alloc::Global;

/// Writes the plural category of the range from one number to another: of `0` and `1` in French `one`.
///
/// Returns as `legumeyet_formatter_format_range`.
#[unsafe(no_mangle)]
pub extern "C" fn legumeyet_shared_formatter_format_range(
    alloc: Global,
    formatter: &SharedFormatterHandle,
    first: &[u8],
    second: &[u8],
    options: &[i32],
    out: &mut [u8],
    length: &mut usize,
) -> i32
    ensures { Answers
        (IsPut (WritesRange (shared_format_open formatter.now) options.now (spelled first.now) (spelled second.now))
        (IsRangeWritingFault (shared_format_open formatter.now) options.now (spelled first.now) (spelled second.now))
        out.old out.new length.old length.new) result }
{
    let content = formatter.handle.content();
    answer_range(alloc, content, first, second, options, out, length)
}

/// Tells a fact of a formatter as text, by its number: 1 of German `,`.
///
/// Returns as `legumeyet_formatter_tell`.
#[unsafe(no_mangle)]
pub extern "C" fn legumeyet_shared_formatter_tell(
    formatter: &SharedFormatterHandle,
    fact: u32,
    out: &mut [u8],
    length: &mut usize,
) -> i32
    ensures { Answers
        (IsPut (SaysFact (shared_format_open formatter.now) fact) (IsFactFault (shared_format_open formatter.now) fact)
        out.old out.new length.old length.new) result }
{
    status_of(write_fact(formatter.handle.content(), fact, out, length))
}
