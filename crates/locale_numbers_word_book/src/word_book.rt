//! The words that texts say.

ghost use Rattle.std.specs.Prelude.{◌≡◌, IfErr, IfOk, OnOk, Some, map};
ghost use Rattle.serde_json.specs.Data.{Data};
ghost use Rattle.locale_numbers_book.specs.Json.{Reads};
ghost use Rattle.locale_numbers_words.specs.Faults.{IsTold};
ghost use Rattle.locale_numbers_words.specs.Words.{WordsTables, file_fault, no_words};
ghost use Rattle.locale_numbers_words.specs.declared.error.WordsError.{WordsError};
ghost use Rattle.locale_numbers_word_book.specs.WordTexts.{AddsAll, AddsText, IsRefusedAt, IsRefusedText};

use crate::error::{FileError, FileFault};
use crate::value::value_of;
use locale_numbers_book::{Book, BookError};
use locale_numbers_tables::Seed;
use locale_numbers_words::{Words, WordsError};
use md5::{Digest, Md5};
use std::alloc::Global;
use std::marker::Model;

/// Words of languages, as files of words say them: name patterns, names of currencies and units of measurement, each under
/// a locale. A book is lent beside it where words are asked for, so words of a language may come after the book.
///
/// Of `[[["de",[["other",[""," ¤"]]]]],[["de","EUR",[["other","Euro"]]]],[]]` amounts of `EUR` are named in German:
/// `5,00 Euro`.
pub struct WordBook {
    pub(crate) words: Words,
}

impl Model for WordBook {
    ghost use Rattle.locale_numbers_words.specs.Words.{WordsTables};

    ghost Value = { WordsTables };

    ghost view = { λ b. b.words };
}

// Dropped by one call, as a book is.
impl Drop for WordBook {
    fn drop(self) {
        let WordBook { words: _words } = self;
    }
}

// Why a text is refused that is not the form of words: as a book, where it is one.
fn fault_of_form(alloc: Global, text: &[u8]) -> FileFault
    ensures { (before : WordsTables) (file : Data) → Reads text.now file → file_fault before file ≡ Some WordsError.Shape
        → IsRefusedText before text.now result }
{
    match Book::from_json(alloc, text) {
        Ok(_book) => FileFault::Book,
        Err(fault) => match fault {
            BookError::Memory => FileFault::Words(WordsError::Memory),
            _ => FileFault::Words(WordsError::Shape),
        },
    }
}

// Why a text is refused, of which this is wrong as a file of words.
fn fault_of(alloc: Global, text: &[u8], fault: WordsError) -> FileFault
    ensures { (before : WordsTables) (file : Data) → Reads text.now file → IsTold (file_fault before file) fault
        → IsRefusedText before text.now result }
{
    match fault {
        WordsError::Shape => fault_of_form(alloc, text),
        _ => FileFault::Words(fault),
    }
}

// Adds the words that a text says.
fn add_text(alloc: Global, seed: Seed, words: &mut Words, text: &[u8]) -> Result<(), FileFault>
    ensures added { OnOk result (AddsText words.old text.now words.new) }
    ensures refused { IfErr result (IsRefusedText words.old text.now) }
{
    match value_of(alloc, text) {
        Ok(file) => match words.add_file(alloc, seed, file) {
            Ok(()) => Ok(()),
            Err(fault) => Err(fault_of(alloc, text, fault)),
        },
        Err(fault) => Err(fault),
    }
}

// Adds the words that texts say, the first of which has the number 1.
fn add_texts(alloc: Global, seed: Seed, words: &mut Words, texts: &[&[u8]]) -> Result<(), FileError>
    ensures added { OnOk result (AddsAll words.old (map (λ text. text.now) texts.now) words.new) }
    ensures refused { IfErr result
        (λ error. IsRefusedAt words.old (map (λ text. text.now) texts.now) error.file error.fault) }
{
    let mut number: usize = 0;
    for text in texts {
        number += 1;
        match add_text(alloc, seed, words, text) {
            Ok(()) => {}
            Err(fault) => {
                return Err(FileError {
                    file: number,
                    fault,
                });
            }
        }
    }
    Ok(())
}

// The seed of texts: that of their digest, so that no text can have keys made for it.
fn seed_of(texts: &[&[u8]]) -> Seed {
    let mut hasher = Md5::new();
    for text in texts {
        hasher.update(*text);
    }
    Seed::of_text(&hasher.finalize()[..])
}

impl WordBook {
    /// The words of one text, a file of words: an array of three arrays, of name patterns, of names of currencies and of
    /// units of measurement. `[[],[],[]]` is the shortest. It allocates. The form and the faults are defined in
    /// docs/words.md.
    ///
    /// - Json: the bytes have no reading as JSON, as `[1`.
    /// - Book: the value has another form, and is a book, as `[[],[],[],[],[]]`.
    /// - Words: else the value has another form, or the first faulty entry decides, and in an entry the least number:
    ///   `Words(Code)` of `[[],[["en","usd",[["other","dollars"]]]],[]]`; or it is out of memory, `Words(Memory)`.
    pub fn from_json(alloc: Global, text: &[u8]) -> Result<WordBook, FileFault>
        ensures value { IfOk result (AddsText no_words text.now) }
        ensures refused { IfErr result (IsRefusedText no_words text.now) }
    {
        let seed = Seed::of_text(text);
        let mut words = Words::new(alloc, seed);
        match add_text(alloc, seed, &mut words, text) {
            Ok(()) => Ok(WordBook { words }),
            Err(fault) => {
                drop(words);
                Err(fault)
            }
        }
    }

    /// The words of files, one after the other: of those of German and of French both, with one text alone those of
    /// [`WordBook::from_json`], and without any no words.
    ///
    /// The first file that is refused decides, as `from_json` refuses it after those before it: `Words(Duplicate)` also
    /// where an earlier file has an entry with the same key that says something else. An entry that says the same counts
    /// once, so files may overlap. It allocates.
    pub fn from_texts(alloc: Global, texts: &[&[u8]]) -> Result<WordBook, FileError>
        ensures value { IfOk result (AddsAll no_words (map (λ text. text.now) texts.now)) }
        ensures refused { IfErr result
            (λ error. IsRefusedAt no_words (map (λ text. text.now) texts.now) error.file error.fault) }
    {
        let seed = seed_of(texts);
        let mut words = Words::new(alloc, seed);
        match add_texts(alloc, seed, &mut words, texts) {
            Ok(()) => Ok(WordBook { words }),
            Err(error) => {
                drop(words);
                Err(error)
            }
        }
    }
}
