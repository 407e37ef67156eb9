//! The locales of a book, a line each.

ghost use Rattle.std.specs.Prelude.{◌≡◌, OnOk};
ghost use Rattle.std.specs.Io.KnownBytes.{Appends};
ghost use Rattle.icu_locale_core.specs.DataText.{data_text};
ghost use Rattle.locale_numbers_lines.specs.Lines.{ended};

use crate::book_text::{book_of, read_text};
use crate::fault::CallFault;
use crate::parts::put_text;
use icu_locale_core::DataLocale;
use locale_numbers::{Book, WORLD_LOCALES};
use std::io::Write;

// Writes the tag of a locale in a line of its own.
fn put_locale<W: Write>(rt: &HostRuntime, locale: &DataLocale, out: &mut W) -> Result<(), CallFault>
    ensures output { OnOk result (Appends (W.contents out.old) (W.contents out.new) (ended (data_text locale.now))) }
{
    match format!(in rt.alloc(); "{locale}") {
        Ok(tag) => put_text(out, tag.as_bytes()),
        Err(_) => Err(CallFault::MEMORY),
    }
}

// Lists the locales that a book has symbols for, in its order.
fn list_of_book<W: Write>(rt: &HostRuntime, book: &Book, out: &mut W) -> Result<u8, CallFault> {
    for index in 0..book.locale_count() {
        if let Some(locale) = book.locale(index) {
            put_locale(rt, locale, out)?;
        }
    }
    Ok(0)
}

// Lists the locales of the book of a text.
fn list_of_text<W: Write>(rt: &HostRuntime, text: &[u8], out: &mut W) -> Result<u8, CallFault> {
    match book_of(rt.alloc(), text) {
        Ok(book) => {
            let listed = list_of_book(rt, &book, out);
            drop(book);
            listed
        }
        Err(fault) => Err(CallFault::Program(fault)),
    }
}

/// Lists the locales of the book of a file.
pub fn list_of_file<W: Write>(rt: &HostRuntime, path: &str, out: &mut W) -> Result<u8, CallFault> {
    match read_text(rt, path) {
        Ok(text) => list_of_text(rt, &text, out),
        Err(fault) => Err(CallFault::Program(fault)),
    }
}

/// Lists the locales of the book of all locales.
pub fn list_of_world<W: Write>(out: &mut W) -> Result<u8, CallFault>
    ensures output { OnOk result (Appends (W.contents out.old) (W.contents out.new) WORLD_LOCALES.now) }
{
    match out.write_all(WORLD_LOCALES.as_bytes()) {
        Ok(()) => Ok(0),
        Err(error) => Err(CallFault::Write(error)),
    }
}
