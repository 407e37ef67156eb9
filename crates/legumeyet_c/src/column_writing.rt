//! Columns written with what is open.

ghost use Rattle.legumeyet_c_values.specs.Columns.{given_in, room};
ghost use Rattle.legumeyet_c_values.specs.Putting.{Answers};
ghost use Rattle.legumeyet_c.specs.ColumnWriting.{IsColumnOf};
ghost use Rattle.legumeyet_c.specs.Kinds.{format_in};
ghost use Rattle.legumeyet_c.specs.Opened.{opened};

use crate::asking::asked;
use crate::content::Content;
use crate::format_writer::FormatWriter;
use legumeyet_c_values::{Column, status_of, write_column};
use std::alloc::Global;

// Answers a call that writes a column with what is open.
pub(crate) fn answer_column(
    alloc: Global,
    content: Option<&Content>,
    column: Column<'_>,
    words: &[i32],
    out: &mut [u8],
    ends: &mut [usize],
    count: &mut usize,
) -> i32
    ensures { Answers
        (IsColumnOf (format_in (opened content.entry)) words.now (given_in column.entry)
        (room out.old ends.old count.old) (room out.new ends.new count.new)) result }
{
    match asked(alloc, content, words) {
        Ok(asked) => {
            let writer = FormatWriter::new(&asked.lent, &asked.options);
            status_of(write_column(alloc, &writer, column, out, ends, count))
        }
        Err(error) => {
            *count = 0;
            error.number()
        }
    }
}
