//! A text written as a field.

ghost use Rattle.std.specs.Prelude.{◌≡◌, ◌++◌, IfOk, MatchOption, true, false, if◌then◌else◌};
ghost use Rattle.legumeyet_columns.specs.Cells.{cell_of, has_special, PutCell};
ghost use Rattle.legumeyet_columns.specs.FieldTexts.{is_special};

use crate::dialect::Dialect;
use crate::texts::put_quoted;
use std::alloc::AllocError;

// Whether a byte can only stand in a text in quotes.
fn is_special(dialect: Dialect, byte: u8) -> bool
    ensures value { result ≡ is_special dialect byte }
{
    byte == dialect.delimiter || byte == b'"' || byte == b'\n' || byte == b'\r'
}

// Whether a text has such a byte.
fn has_special(dialect: Dialect, text: &[u8]) -> bool
    ensures value { result ≡ has_special dialect text.now }
{
    text.iter().any(|byte| is_special(dialect, *byte))
}

/// Puts a text as a field, in quotes where it was in quotes or can't stand without them: of CSV `"1,5"` for `1,5`. Returns
/// whether it is put: where there are no quotes, a text with a delimiter or a line feed can't be.
///
/// Allocates. `AllocError`: out of memory; a part may then be there.
pub fn put_text(
    dialect: Dialect,
    was_in_quotes: bool,
    text: &[u8],
    out: &mut Vec<u8>,
) -> Result<bool, AllocError>
    ensures text { IfOk result (λ is_put. PutCell (cell_of dialect was_in_quotes text.now) out.old.items out.new.items is_put) }
{
    let special = has_special(dialect, text);
    if !dialect.has_quotes && special {
        return Ok(false);
    }
    if dialect.has_quotes && (was_in_quotes || special) {
        put_quoted(text, out)?;
    } else {
        out.extend_from_slice(text)?;
    }
    Ok(true)
}
