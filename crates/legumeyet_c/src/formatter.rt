//! Formatters of numbers in any format: `legumeyet_formatter_open`, `_open_skeleton` and `_close`.

ghost use Rattle.std.specs.Prelude.{◌≡◌, None, IsSome};
ghost use Rattle.locale_numbers_formats.specs.Skeletons.{skeleton_of};
ghost use Rattle.legumeyet_c_values.specs.Putting.{Answers};
ghost use Rattle.legumeyet_c.specs.AskedFormats.{format_by_skeleton, format_by_words, place_told};
ghost use Rattle.legumeyet_c.specs.Kinds.{format_in};
ghost use Rattle.legumeyet_c.specs.Opening.{FindsFormat, IsClosing, IsFindingFault, IsOpening};
ghost use Rattle.legumeyet_c.specs.Views.{book_content, book_open, format_content, format_open};

use crate::asked_format::{format_by_skeleton, format_by_words};
use crate::format_opening::open;
use crate::handles::{BookHandle, FormatterHandle};
use crate::held_formatter::HeldFormatter;
use crate::opening::close;
use crate::skeletons::tell_place;
use legumeyet_c_values::status_of;
use std::alloc::Global;

/// Opens the formatter of a format in words for a locale tag: without a word that of plain numbers, which for `en` writes
/// -1234.5 as `-1,234.5`; with plurals one that writes `other` of it. It has its own copy of the tables, unless the book is
/// kept. What the handle had open is closed, where the call returns 0, and else the handle is as it was; the book stays
/// open.
///
/// Returns 0; 2, the book is closed; 4, a word has a number that is not in its list; 14, the unit is no code of a currency
/// where the words ask for amounts, or a text where they don't; 5, the text is no locale tag; 6, the book lacks a table
/// for it, or the plural rules, or a compact or scientific number would have a unit; 1, out of memory, also in place of
/// the last two.
#[unsafe(no_mangle)]
pub extern "C" fn legumeyet_formatter_open(
    alloc: Global,
    book: &mut BookHandle,
    tag: &[u8],
    format: &[i32],
    unit: &[u8],
    formatter: &mut FormatterHandle,
) -> i32
    ensures same { book_content book.new ≡ book_content book.old }
    ensures told { Answers
        (IsOpening format_in (FindsFormat (book_open book.old) (format_by_words format.now unit.now) tag.now)
        (IsFindingFault (book_open book.old) (format_by_words format.now unit.now) tag.now)
        (format_content formatter.old) (format_content formatter.new)) result }
{
    let asked = format_by_words(format, unit);
    status_of(open(alloc, &mut book.handle, &asked, tag, &mut formatter.handle))
}

/// Opens the formatter of a skeleton for a locale tag: that of `currency/EUR` for `de` writes -1234.5 as `-1.234,50 €`, and
/// that of `compact-short .00` for `en` as `-1.23K`. It has its own copy of the tables, unless the book is kept. What the
/// handle had open is closed, where the call returns 0, and else the handle is as it was; the book stays open.
///
/// Returns 0; 2, the book is closed; 201 to 207, the text is no skeleton, and only then `place` is where the word or the
/// part of it begins that is wrong; 5, the text is no locale tag; 6, the book lacks a table for it, or a compact number
/// would have a unit; 1, out of memory, also in place of the last two.
#[unsafe(no_mangle)]
pub extern "C" fn legumeyet_formatter_open_skeleton(
    alloc: Global,
    book: &mut BookHandle,
    tag: &[u8],
    skeleton: &[u8],
    place: &mut usize,
    formatter: &mut FormatterHandle,
) -> i32
    ensures same { book_content book.new ≡ book_content book.old }
    ensures place { place.new ≡ place_told (book_open book.old) (skeleton_of skeleton.now) place.old }
    ensures told { Answers
        (IsOpening format_in (FindsFormat (book_open book.old) (format_by_skeleton skeleton.now) tag.now)
        (IsFindingFault (book_open book.old) (format_by_skeleton skeleton.now) tag.now)
        (format_content formatter.old) (format_content formatter.new)) result }
{
    let asked = format_by_skeleton(skeleton);
    let outcome = open(alloc, &mut book.handle, &asked, tag, &mut formatter.handle);
    tell_place(&outcome, place);
    status_of(outcome)
}

/// Closes a formatter, and frees its memory.
///
/// Returns 0; 2, where it was closed already.
#[unsafe(no_mangle)]
pub extern "C" fn legumeyet_formatter_close(alloc: Global, formatter: &mut FormatterHandle) -> i32
    ensures closed { format_open formatter.new ≡ None }
    ensures gone { IsSome (format_open formatter.old) → format_content formatter.new ≡ None }
    ensures same { format_open formatter.old ≡ None → format_content formatter.new ≡ format_content formatter.old }
    ensures told { Answers (IsClosing (format_open formatter.old)) result }
{
    status_of(close::<HeldFormatter>(alloc, &mut formatter.handle))
}
