//! Rows of the pieces of a text: each piece of `en-` in brackets is `[en][]`, and one that is missing is `-`.

use crate::call::Call;
use icu_locale_core::parser::SubtagIterator;
use rows::{Stop, escaped, put_text};

/// The answer of a call of the pieces of a text: all of them; the first as `peek` gives it, of the iterator and of its
/// copy, and as `next` does, then what is left in a copy, and in the iterator itself; the first as `next_const` gives
/// it, the one that is peeked at after it, and what three more steps give.
pub fn pieces(call: &Call<'_>, out: &mut String) -> Result<(), Stop> {
    let mut pieces = SubtagIterator::new(call.first.as_bytes());
    match call.name {
        "new" => put_all(out, pieces),
        "peek" => {
            let own = pieces.peek();
            let copied = pieces.again().peek();
            let first = pieces.next();
            let mut same = pieces.again();
            let second = same.next();
            let third = same.next();
            let left = same.peek();
            put_listed(
                out,
                &[own, copied, first, second, third, left, pieces.next()],
            )
        }
        "next_const" => {
            let (pieces, first) = pieces.next_const();
            let behind = pieces.peek();
            let (pieces, second) = pieces.next_const();
            let (pieces, third) = pieces.next_const();
            let (_, last) = pieces.next_const();
            put_listed(out, &[first, behind, second, third, last])
        }
        _ => Err(Stop::Unknown),
    }
}

fn put_all(out: &mut String, pieces: SubtagIterator<'_>) -> Result<(), Stop> {
    for piece in pieces {
        put_piece(out, Some(piece))?;
    }
    Ok(())
}

fn put_listed(out: &mut String, pieces: &[Option<&[u8]>]) -> Result<(), Stop> {
    for piece in pieces {
        put_piece(out, *piece)?;
    }
    Ok(())
}

fn put_piece(out: &mut String, piece: Option<&[u8]>) -> Result<(), Stop> {
    let Some(piece) = piece else {
        return put_text(out, "-");
    };
    put_text(out, "[")?;
    escaped(out, piece)?;
    put_text(out, "]")
}
