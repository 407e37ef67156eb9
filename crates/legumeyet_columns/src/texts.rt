//! The text of a field in quotes, and a text put in quotes.

ghost use Rattle.std.specs.Prelude.{◌≡◌, ◌++◌, OnOk, IfOk, option_map};
ghost use Rattle.legumeyet_columns.specs.FieldTexts.{doubled, in_quotes, is_in_quotes, undoubled, unquoted};

use crate::dialect::{Dialect, has_quote};
use std::alloc::{AllocError, Global};

/// Whether a field is in quotes: `"1,5"` is in CSV. It does not allocate.
pub fn is_in_quotes(dialect: Dialect, field: &[u8]) -> bool
    ensures value { result ≡ is_in_quotes dialect field.now }
{
    dialect.has_quotes && matches!(field.first(), Some(b'"'))
}

// The text of what follows a first quote.
fn undoubled(alloc: Global, bytes: &[u8]) -> Result<Option<Vec<u8>>, AllocError>
    ensures value { IfOk result (λ text. option_map (λ text. text.items) text ≡ undoubled bytes.now) }
{
    let mut text = Vec::new(alloc);
    let mut left = bytes;
    while let Some((first, rest)) = left.split_first() {
        left = rest;
        if *first == b'"' {
            match left.split_first() {
                None => return Ok(Some(text)),
                Some((b'"', more)) => left = more,
                Some(_) => return Ok(None),
            }
        }
        text.push(*first)?;
    }
    Ok(None)
}

/// The text of a field in quotes: `a"b` of `"a""b"`; `None` where a quote does not end, or something follows it.
///
/// Allocates. `AllocError`: out of memory.
pub fn unquoted(alloc: Global, field: &[u8]) -> Result<Option<Vec<u8>>, AllocError>
    ensures value { IfOk result (λ text. option_map (λ text. text.items) text ≡ unquoted field.now) }
{
    match field.split_first() {
        Some((_, rest)) => undoubled(alloc, rest),
        None => Ok(None),
    }
}

// Puts a text with each quote twice.
fn put_doubled(text: &[u8], out: &mut Vec<u8>) -> Result<(), AllocError>
    ensures text { OnOk result (out.new.items ≡ out.old.items ++ doubled text.now) }
{
    if !has_quote(text) {
        out.extend_from_slice(text)?;
        return Ok(());
    }
    for byte in text {
        if *byte == b'"' {
            out.push(b'"')?;
        }
        out.push(*byte)?;
    }
    Ok(())
}

/// Puts a text in quotes: `"a""b"` for `a"b`. Allocates. `AllocError`: out of memory; a part may then be there.
pub fn put_quoted(text: &[u8], out: &mut Vec<u8>) -> Result<(), AllocError>
    ensures text { OnOk result (out.new.items ≡ out.old.items ++ in_quotes text.now) }
{
    out.push(b'"')?;
    put_doubled(text, out)?;
    out.push(b'"')?;
    Ok(())
}
