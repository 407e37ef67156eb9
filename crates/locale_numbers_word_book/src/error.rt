//! Why texts are no words, and why there is no formatter of numbers with words.

ghost use Rattle.std.specs.Prelude.{◌≡◌};
ghost use Rattle.locale_numbers_word_book.specs.TagWords.{word_formatter_error_number};
ghost use Rattle.locale_numbers_word_book.specs.WordErrors.{file_number, file_word, texts_file, texts_number, texts_word};
ghost use Rattle.locale_numbers_word_book.specs.declared.error.WordFormatterError.TheVariants.{Memory};

use locale_numbers_book::BookError;
use locale_numbers_words::WordsError;
use std::alloc::AllocError;
use thiserror::Error;

/// Why a text is no file of words: `Json` of `[1`.
#[derive(Clone, Copy, Debug, Drop, PartialEq, Eq, Error)]
pub enum FileFault {
    /// The bytes are no JSON text, as `[1`.
    #[error("json")]
    Json,
    /// The text is a book, as `[[],[],[],[],[]]`.
    #[error("book")]
    Book,
    /// The JSON value is no file of words, as `[]`, or one of its entries is refused; or it is out of memory.
    #[error("words")]
    Words(WordsError),
}

impl FileFault {
    /// The number of the fault among those of a book: 1 for `Json`, 17 for `Book`, and that of the words, as 15 for
    /// `Words(Measure)`. It does not allocate.
    pub fn number(&self) -> u8
        ensures { result ≡ file_number self.now }
    {
        match self {
            FileFault::Json => 1,
            FileFault::Book => 17,
            FileFault::Words(fault) => fault.number(),
        }
    }

    /// The word of the fault, in lower case: `json` for `Json`, `measure` for `Words(Measure)`. It does not allocate.
    pub fn word(&self) -> &'static str
        ensures { result.now ≡ file_word self.now }
    {
        match self {
            FileFault::Json => "json",
            FileFault::Book => "book",
            FileFault::Words(fault) => fault.word(),
        }
    }
}

/// Which file of words is refused, and why: the second one, as `Words(Duplicate)`.
#[derive(Clone, Copy, Debug, Drop, PartialEq, Eq)]
pub struct FileError {
    /// The number of the file, from 1 on.
    pub file: usize,
    /// Why it is refused.
    pub fault: FileFault,
}

/// Why texts are no book with words: `Book(Json)` of `[1` as the book.
#[derive(Clone, Copy, Debug, Drop, PartialEq, Eq, Error)]
pub enum TextsError {
    /// The first text is no book, as by `Book::from_json`.
    #[error("book")]
    Book(BookError),
    /// The first text is a file of words, as `[[],[],[]]`.
    #[error("words")]
    Words,
    /// The first text is a book, and this file is refused, and none before it.
    #[error("file")]
    File(FileError),
}

impl TextsError {
    /// Which text is refused: 0 for the book, and the number of the file, from 1 on. It does not allocate.
    pub fn file(&self) -> usize
        ensures { result ≡ texts_file self.now }
    {
        match self {
            TextsError::Book(_) | TextsError::Words => 0,
            TextsError::File(error) => error.file,
        }
    }

    /// The number of the fault: that of the book or of the file, and 16 for `Words`. It does not allocate.
    pub fn number(&self) -> u8
        ensures { result ≡ texts_number self.now }
    {
        match self {
            TextsError::Book(fault) => fault.number(),
            TextsError::Words => 16,
            TextsError::File(error) => error.fault.number(),
        }
    }

    /// The word of the fault, in lower case: that of the book or of the file, and `words` for `Words`. It does not
    /// allocate.
    pub fn word(&self) -> &'static str
        ensures { result.now ≡ texts_word self.now }
    {
        match self {
            TextsError::Book(fault) => fault.word(),
            TextsError::Words => "words",
            TextsError::File(error) => error.fault.word(),
        }
    }
}

/// Why there are no words, or no formatter with words, for a tag: `Table` of `fr` where only German words are there.
#[derive(Clone, Copy, Debug, Drop, PartialEq, Eq, Error)]
pub enum WordFormatterError {
    /// The text is no locale tag, as `e`.
    #[error("no locale tag")]
    Tag,
    /// There are no words for the tag, or the book lacks a table for it.
    #[error("no table for the tag")]
    Table,
    /// Out of memory.
    #[error("out of memory")]
    Memory,
    /// The text that should name a currency is not three capitals, as `eur` or `EURO`.
    #[error("no code of a currency")]
    Code,
    /// The text that should name a unit is no name of one, as `Kilometer`.
    #[error("no name of a unit")]
    Measure,
}

impl WordFormatterError {
    /// The number of the error: 1 of `Tag` to 5 of `Measure`, in the order of the cases; the first four are those of
    /// `FormatterError`. It does not allocate.
    pub fn number(&self) -> u8
        ensures { result ≡ word_formatter_error_number self.now }
    {
        match *self {
            WordFormatterError::Tag => 1,
            WordFormatterError::Table => 2,
            WordFormatterError::Memory => 3,
            WordFormatterError::Code => 4,
            WordFormatterError::Measure => 5,
        }
    }
}

impl From<AllocError> for WordFormatterError {
    ghost from_gives = { λ _ e. e ≡ Memory };

    fn from(_refused: AllocError) -> WordFormatterError {
        WordFormatterError::Memory
    }
}
