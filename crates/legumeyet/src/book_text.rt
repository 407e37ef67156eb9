//! The book that is asked for.

ghost use Rattle.std.specs.Prelude.{◌≡◌, IfErr, IfOk, Some, string_bytes};
ghost use Rattle.icu_locale_core.specs.TagPreferences.{Preferences};
ghost use Rattle.locale_numbers.specs.Program.{IsOfFile, IsRefusal, Says};
ghost use Rattle.locale_numbers.specs.SelectedText.{selected_text};
ghost use Rattle.locale_numbers.specs.Wanted.{wanted_of};
ghost use Rattle.locale_numbers.specs.declared.BookTexts.{BookTexts};

use crate::asking::PartsNeeded;
use locale_numbers::{Book, BookTexts, ProgramFault, book_text_for, world_text, world_texts};
use locale_numbers_book::read_preferences;
use std::alloc::{AllocError, Global};
use std::fs;

/// The bytes of a file. `File` where it can't be read, `Book` where it is out of memory.
pub fn read_text(rt: &HostRuntime, path: &str) -> Result<Vec<u8>, ProgramFault>
    ensures { IfErr result IsOfFile }
{
    match fs::read(rt, path) {
        Ok(bytes) => Ok(bytes),
        Err(error) => Err(ProgramFault::of_file(error)),
    }
}

/// The book that a text is. `Book` where it is not one.
pub fn book_of(alloc: Global, text: &[u8]) -> Result<Book, ProgramFault>
    ensures says { IfOk result (λ book. Says text.now book) }
    ensures refused { IfErr result (IsRefusal text.now) }
{
    match Book::from_json(alloc, text) {
        Ok(book) => Ok(book),
        Err(refusal) => Err(ProgramFault::Book(refusal)),
    }
}

// The texts of the world's book, without those parts that are not asked for. Those of more are only in a book with units.
fn texts_for(needed: PartsNeeded) -> BookTexts<'static> {
    let texts = world_texts();
    if needed.more {
        texts
    } else if needed.units {
        BookTexts {
            more: None,
            ..texts
        }
    } else {
        BookTexts {
            units: None,
            more: None,
            ..texts
        }
    }
}

/// The text of the small book that the lines of a tag can ask for, of the world's book. Where the tag is none, it is the
/// whole: each line is then refused by any book.
///
/// It answers lines of this tag only, and without other parts only those of numbers. `AllocError`: out of memory.
pub fn world_text_for(alloc: Global, tag: &str, needed: PartsNeeded) -> Result<String, AllocError>
    ensures small { (preferences : Preferences) → wanted_of tag.now ≡ Some preferences → IfOk result (λ text.
        (texts : BookTexts) × (string_bytes text ≡ selected_text texts preferences)) }
{
    match read_preferences(alloc, tag.as_bytes()) {
        Ok(Some(preferences)) => book_text_for(alloc, &texts_for(needed), &preferences),
        Ok(None) => world_text(alloc),
        Err(refused) => Err(refused),
    }
}
