//! The value that a compact answer prints, sent back in the exact form.

use crate::answers::put_answer;
use locale_numbers::Book;
use rows::Stop;

// The line with the same tag and grouping that sends back, in the exact form, the value after the last tab of the
// answer to a line, as that is in a field.
fn exact_line(line: &[u8], answer: &String) -> Result<String, Stop> {
    let Ok(line) = str::from_utf8(line) else {
        return Err(Stop::Unknown);
    };
    let Some((tag, behind)) = line.split_once('\t') else {
        return Err(Stop::Unknown);
    };
    let Some((form, behind)) = behind.split_once('\t') else {
        return Err(Stop::Unknown);
    };
    let Some((grouping, _)) = behind.split_once('\t') else {
        return Err(Stop::Unknown);
    };
    let Some((_, value)) = answer.as_str().rsplit_once("\\t") else {
        return Err(Stop::Unknown);
    };
    Ok(format!(in *answer.allocator(); "{tag}\texact-{form}\t{grouping}\tkeep\t-\t{value}")?)
}

/// Writes the answer to the value that the answer to a line prints.
pub fn answer(book: &Book, line: &[u8], out: &mut String) -> Result<(), Stop> {
    put_answer(book, line, out)?;
    let exact = exact_line(line, out)?;
    out.clear();
    let put = put_answer(book, exact.as_bytes(), out);
    drop(exact);
    put
}
