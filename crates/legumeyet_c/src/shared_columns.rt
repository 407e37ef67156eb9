//! Columns of a shared formatter: `legumeyet_shared_formatter_format_doubles`, `_format_integers` and `_format_texts`.

ghost use Rattle.legumeyet_c_values.specs.Columns.{doubles, integers, room, spelled_lines};
ghost use Rattle.legumeyet_c_values.specs.Putting.{Answers};
ghost use Rattle.legumeyet_c.specs.ColumnWriting.{IsColumnOf};
ghost use Rattle.legumeyet_c.specs.Views.{shared_format_open};

use crate::column_writing::answer_column;
use crate::shared_handles::SharedFormatterHandle;
use legumeyet_c_values::Column;
use std::alloc::Global;

/// Writes doubles, one after the other, and tells where each text ends: 1234.5 and -7.0 in English as `1,234.5` and `-7`.
///
/// Returns as `legumeyet_formatter_format_doubles`.
#[unsafe(no_mangle)]
pub extern "C" fn legumeyet_shared_formatter_format_doubles(
    alloc: Global,
    formatter: &SharedFormatterHandle,
    numbers: &[f64],
    options: &[i32],
    out: &mut [u8],
    ends: &mut [usize],
    count: &mut usize,
) -> i32
    ensures { Answers
        (IsColumnOf (shared_format_open formatter.now) options.now (doubles numbers.now)
        (room out.old ends.old count.old) (room out.new ends.new count.new)) result }
{
    let column = Column::Doubles(numbers);
    let content = formatter.handle.content();
    answer_column(alloc, content, column, options, out, ends, count)
}

/// Writes integers times ten to the power `exponent`, one after the other, and tells where each text ends: 123450 and
/// -700 with -2 in English as `1,234.50` and `-7.00`.
///
/// Returns as `legumeyet_formatter_format_integers`.
#[unsafe(no_mangle)]
pub extern "C" fn legumeyet_shared_formatter_format_integers(
    alloc: Global,
    formatter: &SharedFormatterHandle,
    mantissas: &[i64],
    exponent: i16,
    options: &[i32],
    out: &mut [u8],
    ends: &mut [usize],
    count: &mut usize,
) -> i32
    ensures { Answers
        (IsColumnOf (shared_format_open formatter.now) options.now (integers mantissas.now exponent)
        (room out.old ends.old count.old) (room out.new ends.new count.new)) result }
{
    let column = Column::Integers(mantissas, exponent);
    let content = formatter.handle.content();
    answer_column(alloc, content, column, options, out, ends, count)
}

/// Writes the numbers that lines are, one after the other, and tells where each text ends: of `1234.5`, a line feed and
/// `-7` in English as `1,234.5` and `-7`.
///
/// Returns as `legumeyet_formatter_format_texts`.
#[unsafe(no_mangle)]
pub extern "C" fn legumeyet_shared_formatter_format_texts(
    alloc: Global,
    formatter: &SharedFormatterHandle,
    numbers: &[u8],
    options: &[i32],
    out: &mut [u8],
    ends: &mut [usize],
    count: &mut usize,
) -> i32
    ensures { Answers
        (IsColumnOf (shared_format_open formatter.now) options.now (spelled_lines numbers.now)
        (room out.old ends.old count.old) (room out.new ends.new count.new)) result }
{
    let column = Column::Texts(numbers);
    let content = formatter.handle.content();
    answer_column(alloc, content, column, options, out, ends, count)
}
