//! Handles opened with what a book has for a tag and a format.

ghost use Rattle.std.specs.Prelude.{◌≡◌, ◌⊎◌, Ok, Err, IfOk, IfErr, IfSome, option_map};
ghost use Rattle.locale_numbers.specs.FoundRules.{rules_held};
ghost use Rattle.legumeyet_c.specs.Kinds.{book_in, format_in};
ghost use Rattle.legumeyet_c.specs.Opened.{opened};
ghost use Rattle.legumeyet_c.specs.Opening.{FindsFormat, IsFindingFault, IsOpening, IsTagFault, format_found, plurals_found};

use crate::asked_format::AskedFormat;
use crate::content::{Content, ContentKind, kept_in};
use crate::handle::Handle;
use crate::held_formatter::HeldFormatter;
use crate::opening::put_after;
use icu_plurals::{PluralRuleType, PluralRulesWithRanges};
use legumeyet_c_values::CallError;
use locale_numbers::{Book, FormatterError};
use std::alloc::Global;

// The rules that are asked for, where words are written. `Tag`: the text is no locale tag. `Table`: the book lacks them.
// `Memory`: out of memory.
fn find_plurals<'b>(
    alloc: Global,
    book: &'b Book,
    rule_type: Option<PluralRuleType>,
    tag: &str,
) -> Result<Option<PluralRulesWithRanges<'b>>, FormatterError>
    ensures value { IfOk result
        (λ plurals. plurals_found book.now rule_type tag.now ≡ Ok (option_map rules_held plurals)) }
    ensures fault { IfErr result
        (λ fault. (fault ≡ FormatterError.Memory) ⊎ (plurals_found book.now rule_type tag.now ≡ Err fault)) }
{
    let Some(rule_type) = rule_type else {
        return Ok(None);
    };
    match book.plural_rules(alloc, tag, rule_type) {
        Ok(plurals) => Ok(Some(plurals)),
        Err(fault) => Err(fault),
    }
}

// A copy of what a book has for a tag. `Tag`: it is no locale tag. `Table`: the book lacks a table for it. `Memory`: out
// of memory.
fn find(
    alloc: Global,
    book: &Book,
    asked: &AskedFormat,
    tag: &str,
) -> Result<HeldFormatter, FormatterError>
    ensures value { IfOk result (λ held. format_found book.now asked.now tag.now ≡ Ok held) }
    ensures fault { IfErr result (λ fault. (fault ≡ FormatterError.Memory)
        ⊎ (format_found book.now asked.now tag.now ≡ Err fault)) }
{
    let shape = &asked.format.shape;
    let (formatter, second) = book.number_formatter_with_second(alloc, tag, shape)?;
    let plurals = find_plurals(alloc, book, asked.plurals, tag)?;
    let (second, plurals) = (second.as_ref(), plurals.as_ref());
    match HeldFormatter::own(alloc, &formatter, plurals, second, &asked.format) {
        Ok(held) => Ok(held),
        Err(_) => Err(FormatterError::Memory),
    }
}

// The same of a book that is kept for the rest of the run, whose tables are borrowed and not copied.
fn find_kept(
    alloc: Global,
    book: &'static Book,
    asked: &AskedFormat,
    tag: &str,
) -> Result<HeldFormatter, FormatterError>
    ensures value { IfOk result (λ held. format_found book.now asked.now tag.now ≡ Ok held) }
    ensures fault { IfErr result (λ fault. (fault ≡ FormatterError.Memory)
        ⊎ (format_found book.now asked.now tag.now ≡ Err fault)) }
{
    let format = &asked.format;
    let (formatter, second) = book.number_formatter_with_second(alloc, tag, &format.shape)?;
    let plurals = find_plurals(alloc, book, asked.plurals, tag)?;
    Ok(HeldFormatter::kept(formatter, plurals, second, format.options))
}

// The same, with the errors of calls; where the book is kept, its tables are borrowed.
pub(crate) fn find_for(
    alloc: Global,
    book: &Book,
    kept: Option<&'static Book>,
    asked: &AskedFormat,
    tag: &[u8],
) -> Result<HeldFormatter, CallError>
    requires kept { IfSome kept (λ kept. book.now ≡ kept.now) }
    ensures value { IfOk result (λ held. format_found book.now asked.now tag.now ≡ Ok held) }
    ensures fault { IfErr result (λ error. IsTagFault (format_found book.now asked.now tag.now) tag.now error) }
{
    let Ok(tag) = str::from_utf8(tag) else {
        return Err(CallError::Tag);
    };
    let found = match kept {
        Some(kept) => find_kept(alloc, kept, asked, tag),
        None => find(alloc, book, asked, tag),
    };
    match found {
        Ok(held) => Ok(held),
        Err(FormatterError::Tag) => Err(CallError::Tag),
        Err(FormatterError::Table) => Err(CallError::Table),
        Err(FormatterError::Memory) => Err(CallError::Memory),
        Err(FormatterError::Code) => Err(CallError::Code),
    }
}

// What the book that is open has.
fn find_opened(
    alloc: Global,
    content: Option<&Content>,
    asked: &Result<AskedFormat, CallError>,
    tag: &[u8],
) -> Result<HeldFormatter, CallError>
    ensures value { IfOk result (λ held. FindsFormat (book_in (opened content.entry)) asked.now tag.now held) }
    ensures fault { IfErr result
        (λ error. IsFindingFault (book_in (opened content.entry)) asked.now tag.now error) }
{
    let Some(content) = content else {
        return Err(CallError::Closed);
    };
    match (Book::of_content(content), asked) {
        (Some(book), Ok(format)) => find_for(alloc, book, kept_in(content), format, tag),
        (Some(_), Err(error)) => Err(*error),
        (None, _) => Err(CallError::Closed),
    }
}

// Opens a handle with what the book of another one has; the book stays as it is.
pub(crate) fn open(
    alloc: Global,
    book: &mut Handle,
    asked: &Result<AskedFormat, CallError>,
    tag: &[u8],
    handle: &mut Handle,
) -> Result<(), CallError>
    ensures same { book.new.pointer.value ≡ book.old.pointer.value }
    ensures told { IsOpening format_in (FindsFormat (book_in book.old.pointer.value) asked.now tag.now)
        (IsFindingFault (book_in book.old.pointer.value) asked.now tag.now) handle.old.pointer.value
        handle.new.pointer.value result }
{
    match find_opened(alloc, book.content(), asked, tag) {
        Ok(held) => put_after(alloc, handle, held, CallError::Memory),
        Err(error) => Err(error),
    }
}
