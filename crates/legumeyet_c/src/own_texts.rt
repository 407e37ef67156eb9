//! Texts written by formatters that have their own tables: put directly, where they can be, with what is made for the call.

ghost use Rattle.std.specs.Prelude.{◌≡◌, Ok, IfSome};
ghost use Rattle.icu_decimal_direct.specs.TextTables.{text_tables};
ghost use Rattle.legumeyet_c_values.specs.Numbers.{spelled};
ghost use Rattle.legumeyet_c_values.specs.Putting.{Answers, IsPut};
ghost use Rattle.legumeyet_c.specs.Kinds.{format_in};
ghost use Rattle.legumeyet_c.specs.Opened.{opened};
ghost use Rattle.legumeyet_c.specs.Worded.{IsText, IsTextFault};
ghost use Rattle.legumeyet_c.specs.Writing.{IsNumberWritingFault, WritesNumber, asked_of, asked_plainly};

use crate::content::{Content, formatter_in};
use crate::direct::put_digits;
use crate::writing::{answer_number, answer_unkept_text};
use icu_decimal_direct::{TextDigits, TextTables};
use legumeyet_c_values::{GivenNumber, are_zeros, status_of};
use std::alloc::Global;

// What texts are put with directly by what is open, made for the call, where words ask for nothing.
fn made_texts_asked<'l>(content: Option<&'l Content>, words: &[i32]) -> Option<TextTables<'l>>
    ensures { IfSome result
        (λ texts. Ok (asked_plainly (text_tables texts)) ≡ asked_of (format_in (opened content.entry)) words.now) }
{
    if !are_zeros(words) {
        return None;
    }
    let Some(held) = formatter_in(content) else {
        return None;
    };
    match held.made_texts() {
        Some(texts) => Some(texts),
        None => None,
    }
}

// Answers a call that writes the number that a text spells with what is open, by these tables where it can be.
fn answer_made_text(
    alloc: Global,
    content: Option<&Content>,
    texts: &TextTables<'_>,
    text: &[u8],
    words: &[i32],
    out: &mut [u8],
    length: &mut usize,
) -> i32
    requires known { Ok (asked_plainly (text_tables texts.now)) ≡ asked_of (format_in (opened content)) words.now }
    ensures { Answers
        (IsPut (WritesNumber IsText (format_in (opened content.entry)) words.now (spelled text.now))
        (IsNumberWritingFault IsTextFault (format_in (opened content.entry)) words.now (spelled text.now)) out.old
        out.new length.old length.new) result }
{
    match TextDigits::of(text) {
        Some(digits) => status_of(put_digits(texts, &digits, out, length)),
        None => answer_number(alloc, content, GivenNumber::Text(text), words, out, length),
    }
}

// Answers a call that writes the number that a text spells with what is open, where no tables that texts are put with are
// kept.
pub(crate) fn answer_own_text(
    alloc: Global,
    content: Option<&Content>,
    text: &[u8],
    words: &[i32],
    out: &mut [u8],
    length: &mut usize,
) -> i32
    ensures { Answers
        (IsPut (WritesNumber IsText (format_in (opened content.entry)) words.now (spelled text.now))
        (IsNumberWritingFault IsTextFault (format_in (opened content.entry)) words.now (spelled text.now)) out.old
        out.new length.old length.new) result }
{
    match made_texts_asked(content, words) {
        Some(texts) => answer_made_text(alloc, content, &texts, text, words, out, length),
        None => answer_unkept_text(alloc, content, text, words, out, length),
    }
}
