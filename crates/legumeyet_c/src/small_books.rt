//! What is found for a tag alone: in the small book of the tag, which is dropped again.

ghost use Rattle.std.specs.Prelude.{◌≡◌, IfOk, IfErr, Some};
ghost use Rattle.locale_numbers.specs.Selection.{asks_units};
ghost use Rattle.locale_numbers.specs.Wanted.{wanted_of};
ghost use Rattle.legumeyet_c_values.specs.declared.CallError.{CallError};
ghost use Rattle.legumeyet_c.specs.Kinds.{format_in};
ghost use Rattle.legumeyet_c.specs.Opening.{FindsFormat, IsFindingFault, IsOpening};
ghost use Rattle.legumeyet_c.specs.SmallBooks.{FindsIn, FindsSmall, IsMissedIn, IsNoSmallText, IsSmallFault, IsSmallText, IsTextPreferred, IsUnwanted, asks_numbers_alone, asks_signs, error_of_book, texts_asked};

use crate::asked_format::AskedFormat;
use crate::format_opening::find_for;
use crate::handle::Handle;
use crate::held_formatter::HeldFormatter;
use crate::opening::put_after;
use icu_decimal::DecimalFormatterPreferences;
use legumeyet_c_values::CallError;
use locale_numbers::{Book, BookError, BookTexts, book_text_for};
use locale_numbers_book::{book_from, read_preferences};
use locale_numbers_formats::{Notation, NumberUnit};
use std::alloc::Global;

// Whether a notation asks for signs: a scientific one, for the text before exponents.
fn asks_signs(notation: &Notation) -> bool
    ensures { result ≡ asks_signs notation.now }
{
    match notation {
        Notation::Standard | Notation::Compact(_) | Notation::CompactDigits(_, _) => false,
        Notation::Scientific(_, _) => true,
    }
}

// Whether a unit asks for the units of a book.
fn asks_units(unit: &NumberUnit) -> bool
    ensures { result ≡ asks_units unit.now }
{
    match unit {
        NumberUnit::None => false,
        NumberUnit::Percent(_) | NumberUnit::Currency(_) => true,
    }
}

// Whether a format asks for neither units nor more: that of plain numbers does.
fn asks_numbers_alone(asked: &AskedFormat) -> bool
    ensures { result ≡ asks_numbers_alone asked.now }
{
    let shape = &asked.format.shape;
    !asks_signs(&shape.notation) && (!asks_units(&shape.unit) && !asked.plurals.is_some())
}

// The entries of the parts that a format asks for.
fn texts_asked<'t>(asked: &AskedFormat, texts: &BookTexts<'t>) -> BookTexts<'t>
    ensures { result ≡ texts_asked asked.now texts.now }
{
    if asks_numbers_alone(asked) {
        BookTexts {
            numbers: texts.numbers,
            units: None,
            more: None,
        }
    } else {
        *texts
    }
}

// The text of the small book of preferences.
fn text_preferred(
    alloc: Global,
    texts: &BookTexts<'_>,
    preferences: &DecimalFormatterPreferences,
    asked: &AskedFormat,
) -> Result<Vec<u8>, CallError>
    ensures value { IfOk result
        (λ text. IsTextPreferred (Some preferences.now) texts.now asked.now text.items) }
    ensures fault { IfErr result (λ error. error ≡ CallError.Memory) }
{
    match book_text_for(alloc, &texts_asked(asked, texts), preferences) {
        Ok(text) => Ok(text.into_bytes()),
        Err(_) => Err(CallError::Memory),
    }
}

// The same of what a tag prefers, or nothing.
fn text_wanted(
    alloc: Global,
    texts: &BookTexts<'_>,
    wanted: &Option<DecimalFormatterPreferences>,
    asked: &AskedFormat,
) -> Result<Vec<u8>, CallError>
    ensures value { IfOk result (λ text. IsTextPreferred wanted.now texts.now asked.now text.items) }
    ensures fault { IfErr result (λ error. IsUnwanted wanted.now error) }
{
    match wanted {
        Some(preferences) => text_preferred(alloc, texts, preferences, asked),
        None => Err(CallError::Tag),
    }
}

// The text of the small book of a tag.
fn text_of_tag(
    alloc: Global,
    texts: &BookTexts<'_>,
    asked: &AskedFormat,
    tag: &[u8],
) -> Result<Vec<u8>, CallError>
    ensures value { IfOk result
        (λ text. IsTextPreferred (wanted_of tag.now) texts.now asked.now text.items) }
    ensures fault { IfErr result (λ error. IsUnwanted (wanted_of tag.now) error) }
{
    match read_preferences(alloc, tag) {
        Ok(wanted) => text_wanted(alloc, texts, &wanted, asked),
        Err(_) => Err(CallError::Memory),
    }
}

// The same, where a format is asked for.
#[inline(never)]
fn small_text(
    alloc: Global,
    texts: &BookTexts<'_>,
    asked: &Result<AskedFormat, CallError>,
    tag: &[u8],
) -> Result<Vec<u8>, CallError>
    ensures value { IfOk result (λ text. IsSmallText texts.now asked.now tag.now text.items) }
    ensures fault { IfErr result (λ error. IsNoSmallText asked.now tag.now error) }
{
    match asked {
        Ok(asked) => text_of_tag(alloc, texts, asked, tag),
        Err(error) => Err(*error),
    }
}

// The error of a text that is refused as a book.
fn error_of(fault: BookError) -> CallError
    ensures { result ≡ error_of_book fault }
{
    match fault {
        BookError::Memory => CallError::Memory,
        _ => CallError::Book(fault),
    }
}

// What a book has for a tag and a format.
fn find_in(
    alloc: Global,
    book: &Book,
    asked: &Result<AskedFormat, CallError>,
    tag: &[u8],
) -> Result<HeldFormatter, CallError>
    ensures value { IfOk result (λ held. FindsFormat (Some book.now) asked.now tag.now held) }
    ensures fault { IfErr result (λ error. IsFindingFault (Some book.now) asked.now tag.now error) }
{
    match asked {
        Ok(format) => find_for(alloc, book, None, format, tag),
        Err(error) => Err(*error),
    }
}

// Opens a handle with it. It has the stack for what it finds only while it runs.
#[inline(never)]
fn open_in(
    alloc: Global,
    book: &Book,
    asked: &Result<AskedFormat, CallError>,
    tag: &[u8],
    handle: &mut Handle,
) -> Result<(), CallError>
    ensures { IsOpening format_in (FindsFormat (Some book.now) asked.now tag.now)
        (IsFindingFault (Some book.now) asked.now tag.now) handle.old.pointer.value handle.new.pointer.value result }
{
    match find_in(alloc, book, asked, tag) {
        Ok(held) => put_after(alloc, handle, held, CallError::Memory),
        Err(error) => Err(error),
    }
}

// Opens a handle with what the book that a text is has for a tag and a format.
#[inline(never)]
fn open_text(
    alloc: Global,
    text: Vec<u8>,
    asked: &Result<AskedFormat, CallError>,
    tag: &[u8],
    handle: &mut Handle,
) -> Result<(), CallError>
    ensures { IsOpening format_in (FindsIn text.items asked.now tag.now) (IsMissedIn text.items asked.now tag.now)
        handle.old.pointer.value handle.new.pointer.value result }
{
    match book_from(alloc, text) {
        Ok(book) => {
            let opened = open_in(alloc, &book, asked, tag, handle);
            drop(book);
            opened
        }
        Err(fault) => Err(error_of(fault)),
    }
}

// Opens a handle with what the small book of a tag has, of the book of these entries.
pub(crate) fn open_small(
    alloc: Global,
    texts: &BookTexts<'_>,
    asked: &Result<AskedFormat, CallError>,
    tag: &[u8],
    handle: &mut Handle,
) -> Result<(), CallError>
    ensures { IsOpening format_in (FindsSmall texts.now asked.now tag.now) (IsSmallFault texts.now asked.now tag.now)
        handle.old.pointer.value handle.new.pointer.value result }
{
    match small_text(alloc, texts, asked, tag) {
        Ok(text) => open_text(alloc, text, asked, tag, handle),
        Err(error) => Err(error),
    }
}
