//! What a call that writes numbers asks for: the formatter that is open, and what is made of each number.

ghost use Rattle.std.specs.Prelude.{◌≡◌, Ok, IfSome};
ghost use Rattle.icu_decimal_direct.specs.TextTables.{text_tables};
ghost use Rattle.legumeyet_c.specs.Kinds.{format_in};
ghost use Rattle.legumeyet_c.specs.Opened.{opened};
ghost use Rattle.legumeyet_c.specs.Writing.{AreWordsAsked, asked_given, asked_in, asked_of, asked_plainly};

use crate::content::{Content, formatter_in};
use crate::held_formatter::HeldFormatter;
use crate::lent_formatter::LentFormatter;
use icu_decimal_direct::TextTables;
use icu_plurals::PluralRules;
use legumeyet_c_values::{CallError, are_zeros, number_options_by};
use locale_numbers_formats::NumberOptions;
use std::alloc::Global;
use std::marker::Model;

// A formatter that is open, and what is made of each number before it is written.
#[derive(Drop)]
pub(crate) struct AskedFormatter<'l> {
    pub(crate) lent: LentFormatter<'l>,
    pub(crate) options: NumberOptions,
}

impl<'l> Model for AskedFormatter<'l> {
    ghost use Rattle.legumeyet_c.specs.Writing.{Asked};

    ghost Value = { Asked };

    ghost view = { λ a. record { wording = a.lent; options = a.options } };
}

// What options that a call gives ask of a formatter: of scientific numbers they change the significand, and any other
// number before it is written.
fn asked_given<'l>(
    alloc: Global,
    lent: LentFormatter<'l>,
    options: NumberOptions,
) -> AskedFormatter<'l>
    ensures { result ≡ asked_given lent.entry options }
{
    match lent.wording_by(alloc, &options) {
        Some(lent) => AskedFormatter {
            lent,
            options: NumberOptions::unchanged(),
        },
        None => AskedFormatter { lent, options },
    }
}

// What words ask of a formatter, and without a word its own options. `UnknownOption`: a word is none of its numbers.
fn asked_in<'l>(
    alloc: Global,
    held: &'l HeldFormatter,
    words: &[i32],
) -> Result<AskedFormatter<'l>, CallError>
    ensures { result ≡ asked_in held.now words.now }
{
    if words.is_empty() {
        return Ok(AskedFormatter {
            lent: held.lent(),
            options: *held.options(),
        });
    }
    match number_options_by(words) {
        Some(options) => Ok(asked_given(alloc, held.lent(), options)),
        None => Err(CallError::UnknownOption),
    }
}

// What words ask of the formatter of what is open. `Closed`; `UnknownOption`, as `asked_in`.
pub(crate) fn asked<'l>(
    alloc: Global,
    content: Option<&'l Content>,
    words: &[i32],
) -> Result<AskedFormatter<'l>, CallError>
    ensures { result ≡ asked_of (format_in (opened content.entry)) words.now }
{
    match formatter_in(content) {
        Some(held) => asked_in(alloc, held, words),
        None => Err(CallError::Closed),
    }
}

// What texts are put with directly by what is open, where words ask for nothing.
#[inline(always)]
pub(crate) fn texts_asked<'l>(
    content: Option<&'l Content>,
    words: &[i32],
) -> Option<&'l TextTables<'static>>
    ensures { IfSome result
        (λ texts. Ok (asked_plainly (text_tables texts.now)) ≡ asked_of (format_in (opened content.entry)) words.now) }
{
    if !are_zeros(words) {
        return None;
    }
    let Some(held) = formatter_in(content) else {
        return None;
    };
    match held.texts() {
        Some(texts) => Some(texts),
        None => None,
    }
}

// The rules whose words are written of numbers as they are given, by what is open, where words ask for nothing.
pub(crate) fn rules_asked<'l>(
    content: Option<&'l Content>,
    words: &[i32],
) -> Option<&'l PluralRules>
    ensures { IfSome result
        (λ rules. AreWordsAsked rules.now (asked_of (format_in (opened content.entry)) words.now)) }
{
    if !are_zeros(words) {
        return None;
    }
    let Some(held) = formatter_in(content) else {
        return None;
    };
    match held.rules() {
        Some(rules) => Some(rules),
        None => None,
    }
}
