//! Columns: `legumeyet_formatter_format_doubles`, `_format_integers` and `_format_texts`.

ghost use Rattle.std.specs.Prelude.{◌≡◌};
ghost use Rattle.legumeyet_c_values.specs.Columns.{doubles, integers, room, spelled_lines};
ghost use Rattle.legumeyet_c_values.specs.Putting.{Answers};
ghost use Rattle.legumeyet_c.specs.ColumnWriting.{IsColumnOf};
ghost use Rattle.legumeyet_c.specs.Views.{format_content, format_open};

use crate::column_writing::answer_column;
use crate::handles::FormatterHandle;
use legumeyet_c_values::Column;
use std::alloc::Global;

/// Writes doubles, one after the other, and tells where each text ends: 1234.5 and -7.0 in English as `1,234.5` and `-7`,
/// or with euros as `€1,234.50` and `-€7.00`.
///
/// Returns 0, where all were written; 2, the handle is closed; 4, an option is unknown; of the number at `count`, the
/// first that was not written, 3, where there is no place for its end or its text has not room, or what
/// `legumeyet_formatter_format_double` returns.
#[unsafe(no_mangle)]
pub extern "C" fn legumeyet_formatter_format_doubles(
    alloc: Global,
    formatter: &mut FormatterHandle,
    numbers: &[f64],
    options: &[i32],
    out: &mut [u8],
    ends: &mut [usize],
    count: &mut usize,
) -> i32
    ensures same { format_content formatter.new ≡ format_content formatter.old }
    ensures told { Answers
        (IsColumnOf (format_open formatter.old) options.now (doubles numbers.now) (room out.old ends.old count.old)
        (room out.new ends.new count.new)) result }
{
    let column = Column::Doubles(numbers);
    let content = formatter.handle.content();
    answer_column(alloc, content, column, options, out, ends, count)
}

/// Writes integers times ten to the power `exponent`, one after the other, and tells where each text ends: 123450 and
/// -700 with -2 in English as `1,234.50` and `-7.00`.
///
/// Returns as `legumeyet_formatter_format_doubles`, with what `legumeyet_formatter_format_i64` returns of a number.
#[unsafe(no_mangle)]
pub extern "C" fn legumeyet_formatter_format_integers(
    alloc: Global,
    formatter: &mut FormatterHandle,
    mantissas: &[i64],
    exponent: i16,
    options: &[i32],
    out: &mut [u8],
    ends: &mut [usize],
    count: &mut usize,
) -> i32
    ensures same { format_content formatter.new ≡ format_content formatter.old }
    ensures told { Answers
        (IsColumnOf (format_open formatter.old) options.now (integers mantissas.now exponent)
        (room out.old ends.old count.old) (room out.new ends.new count.new)) result }
{
    let column = Column::Integers(mantissas, exponent);
    let content = formatter.handle.content();
    answer_column(alloc, content, column, options, out, ends, count)
}

/// Writes the numbers that lines are, one after the other, and tells where each text ends: of `1234.5`, a line feed and
/// `-7` in English as `1,234.5` and `-7`.
///
/// Returns as `legumeyet_formatter_format_doubles`, with what `legumeyet_formatter_format` returns of a number.
#[unsafe(no_mangle)]
pub extern "C" fn legumeyet_formatter_format_texts(
    alloc: Global,
    formatter: &mut FormatterHandle,
    numbers: &[u8],
    options: &[i32],
    out: &mut [u8],
    ends: &mut [usize],
    count: &mut usize,
) -> i32
    ensures same { format_content formatter.new ≡ format_content formatter.old }
    ensures told { Answers
        (IsColumnOf (format_open formatter.old) options.now (spelled_lines numbers.now)
        (room out.old ends.old count.old) (room out.new ends.new count.new)) result }
{
    let column = Column::Texts(numbers);
    let content = formatter.handle.content();
    answer_column(alloc, content, column, options, out, ends, count)
}
