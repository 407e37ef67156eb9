//! What calls return.

ghost use Rattle.std.specs.Prelude.{◌≡◌, IfSome, IsNone};
ghost use Rattle.legumeyet_c_values.specs.CallErrors.{book_answer, book_text, number_of, skeleton_text, status_of, text_of};
ghost use Rattle.legumeyet_c_values.specs.Information.{IsNoError};

use locale_numbers_faults::BookError;
use locale_numbers_formats::SkeletonError;

/// Why a call was refused: `Tag` of `e` as a locale tag. The header says when each comes.
#[derive(Clone, Copy, Drop)]
pub enum CallError {
    /// Out of memory.
    Memory,
    /// The handle is closed.
    Closed,
    /// The text needs more room.
    TooSmall,
    /// An option is none of its numbers.
    UnknownOption,
    /// The text is no locale tag.
    Tag,
    /// The book lacks a table for the tag.
    Table,
    /// The text is no decimal number.
    Number,
    /// A digit of the number is beyond the magnitudes -32768 to 32767.
    Limit,
    /// A digit of what the number is shown as is beyond the magnitudes -32768 to 32767.
    Range,
    /// The text is not UTF-8.
    NoUtf8,
    /// Two numbers may have one text under the symbols.
    Unreadable,
    /// No number is written so.
    NotWritten,
    /// Numbers of this magnitude have another exponent.
    Exponent,
    /// The text is no code of a currency, or a text is given where there is none.
    Code,
    /// The book is not kept.
    Unkept,
    /// The bytes are no book.
    Book(BookError),
    /// The text is no skeleton.
    Skeleton(SkeletonError),
}

// The number of a book's error: 100 and its own, or 1 for out of memory.
fn book_number(error: BookError) -> i32
    ensures { result ≡ book_answer error }
{
    match error {
        BookError::Json => 101,
        BookError::Shape => 102,
        BookError::Tag => 103,
        BookError::System => 104,
        BookError::Text => 105,
        BookError::Digits => 106,
        BookError::Condition => 107,
        BookError::Types => 108,
        BookError::Exponents => 109,
        BookError::Duplicate => 110,
        BookError::Cycle => 111,
        BookError::Memory => 1,
        BookError::Unit => 113,
        BookError::Code => 114,
    }
}

// What is wrong with a book.
fn book_text(error: BookError) -> &'static str
    ensures { result.now ≡ book_text error }
{
    match error {
        BookError::Json => "no book: no JSON",
        BookError::Shape => "no book: the shape of a book, or of an entry",
        BookError::Tag => "no book: a locale, or a parent of one",
        BookError::System => "no book: the name of a numbering system",
        BookError::Text => "no book: a tab or a line feed in a text",
        BookError::Digits => "no book: digits that are not ten characters",
        BookError::Condition => "no book: a condition of a plural category",
        BookError::Types => "no book: types of patterns that do not rise",
        BookError::Exponents => "no book: exponents of patterns",
        BookError::Duplicate => "no book: a key that is there twice",
        BookError::Cycle => "no book: parents that lead back",
        BookError::Memory => "out of memory",
        BookError::Unit => "no book: a pattern without one place for its unit",
        BookError::Code => "no book: the code of a currency",
    }
}

// What is wrong with a skeleton.
fn skeleton_text(error: SkeletonError) -> &'static str
    ensures { result.now ≡ skeleton_text error }
{
    match error {
        SkeletonError::Unknown(_) => "no skeleton: an unknown word",
        SkeletonError::Twice(_) => "no skeleton: a word that sets what another has set",
        SkeletonError::Code(_) => "no skeleton: no code of a currency",
        SkeletonError::Pair(_) => "no skeleton: a word for amounts, without a currency",
        SkeletonError::System(_) => "no skeleton: a numbering system, which the tag has",
        SkeletonError::Later(_) => "no skeleton: a word that is not written yet",
        SkeletonError::Unsupported(_) => "no skeleton: a word that is not written",
    }
}

impl CallError {
    /// The number of the error, as the header has it: 5 of `Tag`.
    pub fn number(self) -> i32
        ensures { result ≡ number_of self }
    {
        match self {
            CallError::Memory => 1,
            CallError::Closed => 2,
            CallError::TooSmall => 3,
            CallError::UnknownOption => 4,
            CallError::Tag => 5,
            CallError::Table => 6,
            CallError::Number => 7,
            CallError::Limit => 8,
            CallError::Range => 9,
            CallError::NoUtf8 => 10,
            CallError::Unreadable => 11,
            CallError::NotWritten => 12,
            CallError::Exponent => 13,
            CallError::Code => 14,
            CallError::Unkept => 15,
            CallError::Book(error) => book_number(error),
            CallError::Skeleton(error) => 200 + error.number() as i32,
        }
    }

    /// What the error means, in English: `no locale tag` of `Tag`.
    pub fn text(self) -> &'static str
        ensures { result.now ≡ text_of self }
    {
        match self {
            CallError::Memory => "out of memory",
            CallError::Closed => "the handle is closed",
            CallError::TooSmall => "more room is needed",
            CallError::UnknownOption => "an unknown option, or a count of digits out of its range",
            CallError::Tag => "no locale tag",
            CallError::Table => "the book lacks a table for the tag",
            CallError::Number => "no decimal number",
            CallError::Limit => "a digit beyond the magnitudes -32768 to 32767",
            CallError::Range => "a digit of what is shown is beyond the magnitudes -32768 to 32767",
            CallError::NoUtf8 => "no UTF-8",
            CallError::Unreadable => "symbols under which two numbers may have one text",
            CallError::NotWritten => "no number is written so",
            CallError::Exponent => "numbers of this magnitude have another exponent",
            CallError::Code => "no code of a currency",
            CallError::Unkept => "the book is not kept",
            CallError::Book(error) => book_text(error),
            CallError::Skeleton(error) => skeleton_text(error),
        }
    }
}

/// The number that a call returns: 0 where it was not refused.
pub fn status_of(outcome: Result<(), CallError>) -> i32
    ensures { result ≡ status_of outcome }
{
    match outcome {
        Ok(()) => 0,
        Err(error) => error.number(),
    }
}

/// The error that has this number: `Tag` of 5, and none of 16. One of a skeleton is at 0.
pub fn error_of(number: i32) -> Option<CallError>
    ensures value { IfSome result (λ error. number ≡ number_of error) }
    ensures none { IsNone result → IsNoError number }
{
    match number {
        1 => Some(CallError::Memory),
        2 => Some(CallError::Closed),
        3 => Some(CallError::TooSmall),
        4 => Some(CallError::UnknownOption),
        5 => Some(CallError::Tag),
        6 => Some(CallError::Table),
        7 => Some(CallError::Number),
        8 => Some(CallError::Limit),
        9 => Some(CallError::Range),
        10 => Some(CallError::NoUtf8),
        11 => Some(CallError::Unreadable),
        12 => Some(CallError::NotWritten),
        13 => Some(CallError::Exponent),
        14 => Some(CallError::Code),
        15 => Some(CallError::Unkept),
        101 => Some(CallError::Book(BookError::Json)),
        102 => Some(CallError::Book(BookError::Shape)),
        103 => Some(CallError::Book(BookError::Tag)),
        104 => Some(CallError::Book(BookError::System)),
        105 => Some(CallError::Book(BookError::Text)),
        106 => Some(CallError::Book(BookError::Digits)),
        107 => Some(CallError::Book(BookError::Condition)),
        108 => Some(CallError::Book(BookError::Types)),
        109 => Some(CallError::Book(BookError::Exponents)),
        110 => Some(CallError::Book(BookError::Duplicate)),
        111 => Some(CallError::Book(BookError::Cycle)),
        113 => Some(CallError::Book(BookError::Unit)),
        114 => Some(CallError::Book(BookError::Code)),
        201 => Some(CallError::Skeleton(SkeletonError::Unknown(0))),
        202 => Some(CallError::Skeleton(SkeletonError::Twice(0))),
        203 => Some(CallError::Skeleton(SkeletonError::Code(0))),
        204 => Some(CallError::Skeleton(SkeletonError::Pair(0))),
        205 => Some(CallError::Skeleton(SkeletonError::System(0))),
        206 => Some(CallError::Skeleton(SkeletonError::Later(0))),
        207 => Some(CallError::Skeleton(SkeletonError::Unsupported(0))),
        _ => None,
    }
}
