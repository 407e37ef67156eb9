//! Laws of annotated texts. Each is a fact about the definitions, proved as the contract of a
//! function that does nothing.
ghost use Rattle.writeable.specs.Laws.{Joining, TextAlone, TextsJoin, CountAlone, PartAround, Balanced, PartsWithin};

/// Joining: after events that leave no part open, more events write their annotated text after.
/// `a` as the part A, and then `,b` as the part B, are `a,b` with (0, 1, A), (1, 3, B).
pub fn joining()
    ensures { Joining }
{}

/// Text only: the same bytes written without parts are the same text, with no parts. `a,b` with
/// parts becomes `a,b` without any.
pub fn text_alone()
    ensures { TextAlone }
{}

/// Texts join, whatever parts are open: `a,` and then `b` are `a,b`.
pub fn texts_join()
    ensures { TextsJoin }
{}

/// Count only: a count goes on exactly where it stays within the greatest `u64`. From 2 it goes on
/// to 5 with `a,b`.
pub fn count_alone()
    ensures { CountAlone }
{}

/// A part around balanced events is listed before their own parts, unless they write no byte. The
/// part A around `a`, a comma as the part B, and `b` is listed as (0, 3, A), (1, 2, B).
pub fn part_around()
    ensures { PartAround }
{}

/// Bytes are balanced; so are balanced events one after another, and a part around such. Open A,
/// `a`, close is balanced.
pub fn balanced()
    ensures { Balanced }
{}

/// An interval has at least one byte and ends within the text, as (1, 2, B) in `a,b`.
pub fn parts_within()
    ensures { PartsWithin }
{}
