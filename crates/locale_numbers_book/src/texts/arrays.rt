//! Arrays of entries as parts of a book's text.

ghost use Rattle.std.specs.Prelude.{◌≡◌, ◌++◌, IfOk, OnOk, map, string_bytes};
ghost use Rattle.std.specs.Str.Lines.{lines};
ghost use Rattle.locale_numbers_book.specs.BookText.{array_text, arrays_text, joined_lines};

use std::alloc::{AllocError, Global};

/// Appends a text, then the array of entries that are given as lines: after `,` and of `["en","en-001"]` it is
/// `,[`, this line and `]`, with a line feed before and after the line.
///
/// Allocates. `AllocError`: out of memory; a part may then be there.
pub fn put_array(out: &mut String, before: &str, entries: &[&str]) -> Result<(), AllocError>
    ensures text { OnOk result (string_bytes out.new
        ≡ string_bytes out.old ++ (before.now ++ array_text (map (λ line. line.now) entries.now))) }
{
    out.push_str(before)?;
    out.push_str("[\n")?;
    put_lines(out, entries)?;
    out.push_str("\n]")
}

// Appends lines with a comma and a line feed between each two.
fn put_lines(out: &mut String, entries: &[&str]) -> Result<(), AllocError>
    ensures text { OnOk result (string_bytes out.new
        ≡ string_bytes out.old ++ joined_lines (map (λ line. line.now) entries.now)) }
{
    let [first, rest @ ..] = entries else {
        return Ok(());
    };
    out.push_str(first)?;
    for line in rest {
        out.push_str(",\n")?;
        out.push_str(line)?;
    }
    Ok(())
}

// The lines of a text.
fn all_lines(alloc: Global, text: &str) -> Result<Vec<&str>, AllocError>
    ensures lines { IfOk result (λ v. map (λ line. line.now) v.items ≡ lines text.now) }
{
    text.lines().collect(alloc)
}

// Appends a text, then the array of all entries of a text.
pub fn put_whole(
    alloc: Global,
    out: &mut String,
    before: &str,
    text: &str,
) -> Result<(), AllocError>
    ensures text { OnOk result (string_bytes out.new
        ≡ string_bytes out.old ++ (before.now ++ array_text (lines text.now))) }
{
    match all_lines(alloc, text) {
        Ok(entries) => {
            let put = put_array(out, before, entries.as_slice());
            drop(entries);
            put
        }
        Err(refused) => Err(refused),
    }
}

/// Appends the array of arrays that have all entries of these texts, a text an array, and in a text an entry a line.
///
/// Allocates. `AllocError`: out of memory; a part may then be there.
pub fn put_arrays(alloc: Global, out: &mut String, texts: &[&str]) -> Result<(), AllocError>
    ensures text { OnOk result (string_bytes out.new
        ≡ string_bytes out.old ++ arrays_text (map (λ text. lines text.now) texts.now)) }
{
    let [first, rest @ ..] = texts else {
        return out.push_str("[]");
    };
    put_whole(alloc, out, "[", first)?;
    for text in rest {
        put_whole(alloc, out, ",", text)?;
    }
    out.push_str("]")
}
