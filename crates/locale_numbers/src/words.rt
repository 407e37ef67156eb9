//! What the program's arguments say: the path of a book, and a capacity.

ghost use Rattle.std.specs.Prelude.{◌≡◌, ◌≤◌, None, Some, IfOk, IfErr, IfSome, map, option_map};
ghost use Rattle.locale_numbers.specs.Words.{capacity_named, said_by, words_said};

use crate::fault::ProgramFault;
use locale_numbers_requests::{are_digits, capped_number};

// How many formatters a run keeps where its words do not say.
const USUAL_CAPACITY: usize = 16;

// The most formatters that a run may be told to keep.
const MOST: u32 = 65535;

/// What the words say that the program was started with: `b` says the book at the path `b` and a capacity of 16.
#[derive(Clone, Copy, Debug, PartialEq, Eq)]
pub struct Words<'a> {
    /// The path of the book's file, as `b`, or `None` for the sample book.
    pub book: Option<&'a str>,
    /// How many formatters a run may keep, 1 at least: 65535 of `b`, `65535`, and 16 of `b`.
    pub capacity: usize,
}

// The capacity that a word names.
fn capacity_named(word: &[u8]) -> Option<usize>
    ensures value { result ≡ capacity_named word.now }
    ensures room { IfSome result (λ capacity. 1 ≤ capacity) }
{
    if word.len() > 5 || !are_digits(word) {
        return None;
    }
    let number = capped_number(word);
    if 1 <= number && number <= MOST {
        Some(number as usize)
    } else {
        None
    }
}

// What a path and a capacity say, where both are known.
fn words_by(path: &str, capacity: Option<usize>) -> Result<Words<'_>, ProgramFault>
    ensures value { IfOk result (λ read. said_by path.now capacity
        ≡ Some (record { book = option_map (λ book. book.now) read.book; capacity = read.capacity })) }
    ensures usage { IfErr result (λ fault. (fault ≡ ProgramFault.Usage) × (said_by path.now capacity ≡ None)) }
    ensures capacity { IfOk result (λ read. Some read.capacity ≡ capacity) }
{
    if path.is_empty() {
        return Err(ProgramFault::Usage);
    }
    match capacity {
        Some(capacity) => Ok(Words {
            book: Some(path),
            capacity,
        }),
        None => Err(ProgramFault::Usage),
    }
}

/// What the words say that the program was started with, its own name left out: BOOK, or BOOK and CAPACITY, or none.
///
/// No words name no book, so the sample book is read, and a capacity of 16. `b` is the book of that path and a capacity
/// of 16, and `b`, `65535` that book and 65535; `00016` is 16. Does not allocate. [`ProgramFault::Usage`] comes for
/// more than two words, for an empty BOOK, and for a CAPACITY that is not one to five digits of a number from 1 to
/// 65535: for `b`, `0`.
pub fn read_words<'a>(words: &[&'a str]) -> Result<Words<'a>, ProgramFault>
    ensures value { IfOk result (λ read. words_said (map (λ word. word.now) words.now)
        ≡ Some (record { book = option_map (λ book. book.now) read.book; capacity = read.capacity })) }
    ensures usage { IfErr result (λ fault. (fault ≡ ProgramFault.Usage)
        × (words_said (map (λ word. word.now) words.now) ≡ None)) }
    ensures room { IfOk result (λ read. 1 ≤ read.capacity) }
{
    match words {
        [] => Ok(Words {
            book: None,
            capacity: USUAL_CAPACITY,
        }),
        [book] => words_by(book, Some(USUAL_CAPACITY)),
        [book, capacity] => words_by(book, capacity_named(capacity.as_bytes())),
        _ => Err(ProgramFault::Usage),
    }
}
