//! Formatters of a tag alone, by the world's book: `legumeyet_formatter_open_world`, `_open_world_skeleton`.

ghost use Rattle.std.specs.Prelude.{◌≡◌};
ghost use Rattle.locale_numbers.specs.declared.BookTexts.{BookTexts};
ghost use Rattle.locale_numbers_formats.specs.Skeletons.{skeleton_of};
ghost use Rattle.legumeyet_c_values.specs.Putting.{Answers};
ghost use Rattle.legumeyet_c.specs.AskedFormats.{format_by_skeleton, format_by_words, place_by};
ghost use Rattle.legumeyet_c.specs.Kinds.{format_in};
ghost use Rattle.legumeyet_c.specs.Opening.{IsOpening};
ghost use Rattle.legumeyet_c.specs.SmallBooks.{FindsSmall, IsSmallFault};
ghost use Rattle.legumeyet_c.specs.Views.{format_content};

use crate::asked_format::{format_by_skeleton, format_by_words};
use crate::handles::FormatterHandle;
use crate::skeletons::tell_place;
use crate::small_books::open_small;
use legumeyet_c_values::status_of;
use locale_numbers::world_texts;
use std::alloc::Global;

/// Opens the formatter of a format in words for a locale tag, which a world's book that is open has for it: without a word
/// that of plain numbers, which for `de` writes -1234.5 as `-1.234,5`. Of the world's book it reads only what the tag asks
/// for, so it is sooner than one that opens the book. It has its own copy of the tables. What the handle had open is
/// closed, where the call returns 0, and else the handle is as it was.
///
/// Returns what [`legumeyet_formatter_open`](crate::formatter::legumeyet_formatter_open) returns with the world's book,
/// in the same order, as by the law `small_books_have_the_formatters`: 0; 4; 14; 5; 6; 1.
#[unsafe(no_mangle)]
pub extern "C" fn legumeyet_formatter_open_world(
    alloc: Global,
    tag: &[u8],
    format: &[i32],
    unit: &[u8],
    formatter: &mut FormatterHandle,
) -> i32
    ensures told { (texts : BookTexts) × Answers
        (IsOpening format_in (FindsSmall texts (format_by_words format.now unit.now) tag.now)
        (IsSmallFault texts (format_by_words format.now unit.now) tag.now)
        (format_content formatter.old) (format_content formatter.new)) result }
{
    let asked = format_by_words(format, unit);
    let texts = world_texts();
    status_of(open_small(alloc, &texts, &asked, tag, &mut formatter.handle))
}

/// Opens the formatter of a skeleton for a locale tag, as
/// [`legumeyet_formatter_open_world`](crate::world_opening::legumeyet_formatter_open_world) does: that of `currency/EUR`
/// for `de` writes -1234.5 as `-1.234,50 €`.
///
/// Returns what [`legumeyet_formatter_open_skeleton`](crate::formatter::legumeyet_formatter_open_skeleton) returns with the
/// world's book: 0; 201 to 207, and only then `place` is where the word or the part of it begins that is wrong; 5; 6; 1.
#[unsafe(no_mangle)]
pub extern "C" fn legumeyet_formatter_open_world_skeleton(
    alloc: Global,
    tag: &[u8],
    skeleton: &[u8],
    place: &mut usize,
    formatter: &mut FormatterHandle,
) -> i32
    ensures place { place.new ≡ place_by (skeleton_of skeleton.now) place.old }
    ensures told { (texts : BookTexts) × Answers
        (IsOpening format_in (FindsSmall texts (format_by_skeleton skeleton.now) tag.now)
        (IsSmallFault texts (format_by_skeleton skeleton.now) tag.now)
        (format_content formatter.old) (format_content formatter.new)) result }
{
    let asked = format_by_skeleton(skeleton);
    let texts = world_texts();
    let outcome = open_small(alloc, &texts, &asked, tag, &mut formatter.handle);
    tell_place(&outcome, place);
    status_of(outcome)
}
