//! Printing the subtags of a list, with hyphens before or between them.

ghost use Rattle.std.specs.Prelude.{◌≡◌, ◌++◌, ◌<◌, ◌^◌, false, [], ◌∷◌, is_err, length, flat_map, OnOk, OnErr, SomeIff};
ghost use Rattle.writeable.specs.AnnotatedText.{bytes};
ghost use Rattle.writeable.specs.Taking.{HasBegun};
ghost use Rattle.icu_locale_core_grammar.specs.Pieces.{hyphen, hyphened};

use icu_locale_core_subtags::{SubtagOf, SubtagRule};
use writeable::{Error, Sink, Writeable};

/// Writes a hyphen and the subtag: `-1996`.
///
/// The condition is that the sink has not refused yet. `Error`, only where the sink refused: it has taken a beginning.
/// Only the sink may allocate.
pub fn write_piece<R: SubtagRule<N>, const N: usize, S: Sink>(
    piece: &SubtagOf<R, N>,
    sink: &mut S,
) -> Result<(), Error>
    requires { S.refused sink.old ≡ false }
    ensures ok { OnOk result (S.takes sink.old (bytes (hyphen ∷ []) ++ bytes piece.now) sink.new) }
    ensures refused { S.refused sink.new ≡ is_err result }
    ensures begun { OnErr result
        (HasBegun S.takes S.lacks_room sink.old (bytes (hyphen ∷ []) ++ bytes piece.now) sink.new) }
{
    sink.write_char('-')?;
    piece.write_to(sink)
}

/// Writes the subtags into `sink`, each with a hyphen before it: `-1996-valencia`.
///
/// The condition is that the sink has not refused yet. `Ok`: the sink took them all after what it held. `Error`, only
/// where the sink refused: it has taken a beginning. Only the sink may allocate.
pub fn write_pieces<R: SubtagRule<8>, S: Sink>(
    pieces: &[SubtagOf<R, 8>],
    sink: &mut S,
) -> Result<(), Error>
    requires { S.refused sink.old ≡ false }
    ensures ok { OnOk result (S.takes sink.old (bytes (flat_map hyphened pieces.now)) sink.new) }
    ensures refused { S.refused sink.new ≡ is_err result }
    ensures begun { OnErr result
        (HasBegun S.takes S.lacks_room sink.old (bytes (flat_map hyphened pieces.now)) sink.new) }
{
    for piece in pieces {
        write_piece(piece, sink)?;
    }
    Ok(())
}

/// How many bytes `write_pieces` writes: for `1996`, `valencia` it is 14. `None` where a `usize` does not hold it. It
/// does not allocate.
pub fn pieces_length<R: SubtagRule<8>>(pieces: &[SubtagOf<R, 8>]) -> Option<usize>
    ensures { SomeIff result (length (flat_map hyphened pieces.now) < 2 ^ 64) (length (flat_map hyphened pieces.now)) }
{
    let mut length: usize = 0;
    for piece in pieces {
        length = length.checked_add(piece.as_str().len() + 1)?;
    }
    Some(length)
}

/// Writes the first subtag, and the others with a hyphen before each: `1996-valencia`.
///
/// The condition is that the sink has not refused yet. `Error`, only where the sink refused: it has taken a beginning.
/// Only the sink may allocate.
pub fn write_joined<R: SubtagRule<8>, S: Sink>(
    first: &SubtagOf<R, 8>,
    others: &[SubtagOf<R, 8>],
    sink: &mut S,
) -> Result<(), Error>
    requires { S.refused sink.old ≡ false }
    ensures ok { OnOk result (S.takes sink.old (bytes first.now ++ bytes (flat_map hyphened others.now)) sink.new) }
    ensures refused { S.refused sink.new ≡ is_err result }
    ensures begun { OnErr result
        (HasBegun S.takes S.lacks_room sink.old (bytes first.now ++ bytes (flat_map hyphened others.now)) sink.new) }
{
    first.write_to(sink)?;
    write_pieces(others, sink)
}

/// How many bytes `write_joined` writes: for `1996` and `valencia` it is 13. `None` where a `usize` does not hold it.
/// It does not allocate.
pub fn joined_length<R: SubtagRule<8>>(
    first: &SubtagOf<R, 8>,
    others: &[SubtagOf<R, 8>],
) -> Option<usize>
    ensures { SomeIff result (length (first.now ++ flat_map hyphened others.now) < 2 ^ 64)
        (length (first.now ++ flat_map hyphened others.now)) }
{
    pieces_length(others)?.checked_add(first.as_str().len())
}
