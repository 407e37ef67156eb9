//! What the words ask for.

use crate::asking::{invalid_of, word, words_of};
use crate::book_text::{book_of, read_text, world_text_for};
use crate::column_words::{parts_needed, tell_wrong_table};
use crate::environment::tag_for;
use crate::fault::CallFault;
use crate::listing::{list_of_file, list_of_world};
use crate::numbers::{Asked, is_last, put_texts};
use crate::report::{tell_capacity, tell_option, tell_parts};
use crate::request_lines::{answer_lines, capacity_of};
use crate::sayers::sayer_of;
use crate::tables::put_table;
use crate::words::put_words;
use clap::ArgMatches;
use legumeyet_options::{Invalid, NumberWords, NumbersAsked, OptionFault, Sayer};
use locale_numbers::{Book, world_text};
use locale_numbers_requests::Task;
use std::alloc::AllocError;
use std::io::Write;

// How the numbers of the words are written.
#[derive(Clone, Copy)]
struct Manner<'m> {
    /// The word of `--round`.
    round: &'m str,
    /// Whether their parts are written too.
    has_parts: bool,
    /// What is written for those that are refused.
    of_words: Invalid,
    /// The same for those of standard input.
    of_input: Invalid,
}

// What the words say of it.
fn manner_of<'m>(matches: &'m ArgMatches<'_>) -> Manner<'m> {
    Manner {
        round: word(matches, "round", "-"),
        has_parts: matches.get_flag("parts"),
        of_words: invalid_of(matches, Invalid::Skip),
        of_input: invalid_of(matches, Invalid::Empty),
    }
}

// Writes the numbers of the words, with this for those of standard input that are refused, and returns the status.
fn put_asked<W: Write>(
    rt: &HostRuntime,
    asked: &Asked<'_, '_>,
    of_input: Invalid,
    texts: &[&str],
    out: &mut W,
) -> Result<u8, CallFault> {
    let asked_of_input = Asked {
        invalid: of_input,
        ..*asked
    };
    put_words(rt, asked, &asked_of_input, texts, out)
}

// Writes the numbers of the words by what says them, in this manner, and returns the status.
fn put_in_manner<W: Write>(
    rt: &HostRuntime,
    sayer: &Sayer<'_>,
    manner: Manner<'_>,
    tag: &str,
    texts: &[&str],
    out: &mut W,
) -> Result<u8, CallFault> {
    let asked = Asked {
        tag,
        round: manner.round,
        sayer,
        has_parts: manner.has_parts,
        invalid: manner.of_words,
    };
    put_asked(rt, &asked, manner.of_input, texts, out)
}

// Writes the numbers of the words by what says them, and returns the status.
fn put_said_by<W: Write>(
    rt: &HostRuntime,
    sayer: &Sayer<'_>,
    matches: &ArgMatches<'_>,
    tag: &str,
    texts: &[&str],
    out: &mut W,
) -> Result<u8, CallFault> {
    put_in_manner(rt, sayer, manner_of(matches), tag, texts, out)
}

// Writes the numbers that are to be written, where there are some, and returns the status.
fn put_written<W: Write>(
    rt: &HostRuntime,
    book: &Book,
    matches: &ArgMatches<'_>,
    tag: &str,
    numbers: &NumbersAsked,
    out: &mut W,
) -> Result<u8, CallFault> {
    let Some(texts) = matches.get_strs("numbers") else {
        return Ok(0);
    };
    let sayer = sayer_of(rt.alloc(), book, tag, numbers)?;
    put_said_by(rt, &sayer, matches, tag, texts, out)
}

// Writes the numbers of texts by what reads them, and returns the status.
fn put_read_by<W: Write>(
    rt: &HostRuntime,
    sayer: &Sayer<'_>,
    tag: &str,
    texts: &[&str],
    invalid: Invalid,
    out: &mut W,
) -> Result<u8, CallFault> {
    let asked = Asked {
        tag,
        round: "-",
        sayer,
        has_parts: false,
        invalid,
    };
    put_texts(rt, &asked, texts, out)
}

// Writes the numbers of the texts of an option, where there are some, and returns the status.
fn put_read<W: Write>(
    rt: &HostRuntime,
    book: &Book,
    tag: &str,
    numbers: &NumbersAsked,
    task: Task,
    texts: Option<&[&str]>,
    invalid: Invalid,
    out: &mut W,
) -> Result<u8, CallFault> {
    let Some(texts) = texts else {
        return Ok(0);
    };
    let Ok(numbers) = numbers.reading(task) else {
        return Ok(2);
    };
    let sayer = sayer_of(rt.alloc(), book, tag, &numbers)?;
    put_read_by(rt, &sayer, tag, texts, invalid, out)
}

// Writes what is read leniently, what is read exactly and what is written, in this order, and returns the status.
fn put_all<W: Write>(
    rt: &HostRuntime,
    book: &Book,
    matches: &ArgMatches<'_>,
    tag: &str,
    numbers: &NumbersAsked,
    out: &mut W,
) -> Result<u8, CallFault> {
    let invalid = invalid_of(matches, Invalid::Skip);
    let texts = matches.get_strs("read");
    let lenient = Task::ReadLenient;
    let mut status = put_read(rt, book, tag, numbers, lenient, texts, invalid, out)?;
    if is_last(invalid, status) {
        return Ok(status);
    }
    let texts = matches.get_strs("read-exact");
    status |= put_read(rt, book, tag, numbers, Task::Read, texts, invalid, out)?;
    if is_last(invalid, status) {
        return Ok(status);
    }
    let written = put_written(rt, book, matches, tag, numbers, out)?;
    Ok(status | written)
}

// Does what is asked for by a book, and returns the status.
fn act_by<W: Write>(
    rt: &HostRuntime,
    book: &Book,
    matches: &ArgMatches<'_>,
    tag: &str,
    numbers: &NumbersAsked,
    out: &mut W,
) -> Result<u8, CallFault> {
    if matches.get_flag("lines") {
        return match capacity_of(word(matches, "capacity", "512")) {
            Some(capacity) => answer_lines(rt, book, capacity),
            None => Ok(2),
        };
    }
    if matches.get_strs("field").is_some() {
        return put_table(rt, book, matches, tag, numbers, out);
    }
    put_all(rt, book, matches, tag, numbers, out)
}

// Does what is asked for by the book of a text, and returns the status.
fn act_by_text<W: Write>(
    rt: &HostRuntime,
    text: &[u8],
    matches: &ArgMatches<'_>,
    tag: &str,
    numbers: &NumbersAsked,
    out: &mut W,
) -> Result<u8, CallFault> {
    match book_of(rt.alloc(), text) {
        Ok(book) => {
            let done = act_by(rt, &book, matches, tag, numbers, out);
            drop(book);
            done
        }
        Err(fault) => Err(CallFault::Program(fault)),
    }
}

// The text of the book of all locales, where any line may be asked, or of the part of it that the tag can ask for.
fn text_of_world(
    rt: &HostRuntime,
    matches: &ArgMatches<'_>,
    tag: &str,
    numbers: &NumbersAsked,
) -> Result<String, AllocError> {
    if matches.get_flag("lines") {
        world_text(rt.alloc())
    } else {
        world_text_for(rt.alloc(), tag, parts_needed(matches, numbers))
    }
}

// Does what is asked for by the book that the words name, or by that of all locales.
fn act_asked<W: Write>(
    rt: &HostRuntime,
    matches: &ArgMatches<'_>,
    tag: &str,
    numbers: &NumbersAsked,
    out: &mut W,
) -> Result<u8, CallFault> {
    match matches.get_str("book") {
        None => match text_of_world(rt, matches, tag, numbers) {
            Ok(text) => act_by_text(rt, text.as_bytes(), matches, tag, numbers, out),
            Err(_) => Err(CallFault::MEMORY),
        },
        Some(path) => match read_text(rt, path) {
            Ok(text) => act_by_text(rt, &text, matches, tag, numbers, out),
            Err(fault) => Err(CallFault::Program(fault)),
        },
    }
}

// Why the texts of an option are not read beside such numbers, where it is given.
fn reading_fault_of(
    matches: &ArgMatches<'_>,
    numbers: &NumbersAsked,
    option: &str,
    task: Task,
) -> Option<OptionFault> {
    if matches.get_strs(option).is_none() {
        return None;
    }
    match numbers.reading(task) {
        Ok(_) => None,
        Err(fault) => Some(fault),
    }
}

// Why texts are not read beside such numbers, where some are to be read.
fn reading_fault(matches: &ArgMatches<'_>, numbers: &NumbersAsked) -> Option<OptionFault> {
    match reading_fault_of(matches, numbers, "read", Task::ReadLenient) {
        Some(fault) => Some(fault),
        None => reading_fault_of(matches, numbers, "read-exact", Task::Read),
    }
}

// Tells which of the words is wrong beside those of numbers, where one is, and returns the status.
fn tell_wrong(
    rt: &HostRuntime,
    matches: &ArgMatches<'_>,
    words: &NumberWords<'_>,
    numbers: &NumbersAsked,
) -> Option<u8> {
    let capacity = word(matches, "capacity", "512");
    if capacity_of(capacity).is_none() {
        return Some(tell_capacity(rt, capacity));
    }
    if matches.get_flag("parts") && numbers.task != Task::Write {
        return Some(tell_parts(rt, words.form.unwrap_or("plain")));
    }
    if let Some(fault) = reading_fault(matches, numbers) {
        return Some(tell_option(rt, words, fault));
    }
    tell_wrong_table(rt, matches, numbers)
}

// Does what the words ask for by a book, where they go together, and returns the status.
fn act_checked<W: Write>(
    rt: &HostRuntime,
    matches: &ArgMatches<'_>,
    words: &NumberWords<'_>,
    numbers: &NumbersAsked,
    out: &mut W,
) -> Result<u8, CallFault> {
    if let Some(status) = tell_wrong(rt, matches, words, numbers) {
        return Ok(status);
    }
    match tag_for(rt, matches.get_str("tag")) {
        Ok(tag) => act_asked(rt, matches, tag.as_str(), numbers, out),
        Err(_) => Err(CallFault::MEMORY),
    }
}

/// Does what the words ask for, and returns the status.
pub fn act<W: Write>(
    rt: &HostRuntime,
    matches: &ArgMatches<'_>,
    out: &mut W,
) -> Result<u8, CallFault> {
    if matches.get_flag("locales") {
        return match matches.get_str("book") {
            Some(path) => list_of_file(rt, path, out),
            None => list_of_world(out),
        };
    }
    let words = words_of(matches);
    match words.asked() {
        Ok(numbers) => act_checked(rt, matches, &words, &numbers, out),
        Err(fault) => Ok(tell_option(rt, &words, fault)),
    }
}
