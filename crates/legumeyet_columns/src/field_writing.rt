//! Fields written.

ghost use Rattle.std.specs.Prelude.{◌≡◌, ◌++◌, IfOk, OnOk, Some};
ghost use Rattle.legumeyet_columns.specs.Cells.{PutCell};
ghost use Rattle.legumeyet_columns.specs.FieldsWritten.{cell_for, chosen_cell, field_written, is_refused, said_cell, stand_in};
ghost use Rattle.legumeyet_columns.specs.Trimming.{trimmed};

use crate::asked::{OnRefusal, TableAsked};
use crate::buffers::Texts;
use crate::cells::put_text;
use crate::field_sayer::{FieldFault, FieldSayer};
use crate::padding::put_padded;
use crate::texts::{is_in_quotes, unquoted};
use crate::trimming::trimmed;
use std::alloc::{AllocError, Global};

// Puts a text that is said of a field, with spaces around it, and returns whether it can be a field.
fn put_cell(
    asked: &TableAsked,
    field: &[u8],
    text: &[u8],
    padded: &mut Vec<u8>,
    out: &mut Vec<u8>,
) -> Result<bool, AllocError>
    ensures text { IfOk result (λ is_put.
        PutCell (said_cell asked.now field.now (Some text.now)) out.old.items out.new.items is_put) }
{
    let was_in_quotes = is_in_quotes(asked.dialect, field);
    if asked.padding.width == 0 {
        return put_text(asked.dialect, was_in_quotes, text, out);
    }
    padded.clear();
    put_padded(asked.padding, text, padded)?;
    put_text(asked.dialect, was_in_quotes, padded, out)
}

// Puts what is said of a text that is a field's and not blank, and returns whether it is not refused.
fn put_said<S: FieldSayer>(
    asked: &TableAsked,
    sayer: &S,
    number: u64,
    index: usize,
    field: &[u8],
    text: &[u8],
    texts: &mut Texts,
    out: &mut Vec<u8>,
) -> Result<bool, AllocError>
    ensures text { IfOk result (λ is_put. PutCell (said_cell asked.now field.now (S.said sayer.now index text.now))
        out.old.items out.new.items is_put) }
{
    texts.said.clear();
    if !sayer.say(number, index, text, &mut texts.said)? {
        return Ok(false);
    }
    let is_put = put_cell(asked, field, &texts.said, &mut texts.padded, out)?;
    if !is_put {
        sayer.tell_fault(number, index, FieldFault::Delimiter);
    }
    Ok(is_put)
}

// Puts what is written for a field with this text, and returns whether it is not refused.
fn put_for<S: FieldSayer>(
    asked: &TableAsked,
    sayer: &S,
    number: u64,
    index: usize,
    field: &[u8],
    text: &[u8],
    texts: &mut Texts,
    out: &mut Vec<u8>,
) -> Result<bool, AllocError>
    ensures text { IfOk result (λ is_put. PutCell
        (cell_for asked.now (S.said sayer.now index) field.now (Some (trimmed text.now))) out.old.items out.new.items is_put) }
{
    let text = trimmed(text);
    if text.is_empty() {
        out.extend_from_slice(field)?;
        return Ok(true);
    }
    put_said(asked, sayer, number, index, field, text, texts, out)
}

// Puts what is written for a chosen field, and returns whether it is not refused.
fn put_chosen<S: FieldSayer>(
    alloc: Global,
    asked: &TableAsked,
    sayer: &S,
    number: u64,
    index: usize,
    field: &[u8],
    texts: &mut Texts,
    out: &mut Vec<u8>,
) -> Result<bool, AllocError>
    ensures text { IfOk result (λ is_put. PutCell
        (chosen_cell asked.now (S.said sayer.now index) field.now) out.old.items out.new.items is_put) }
{
    if !is_in_quotes(asked.dialect, field) {
        return put_for(asked, sayer, number, index, field, field, texts, out);
    }
    let Some(text) = unquoted(alloc, field)? else {
        sayer.tell_fault(number, index, FieldFault::Quotes);
        return Ok(false);
    };
    put_for(asked, sayer, number, index, field, &text, texts, out)
}

// Puts what stands for a field that is refused.
fn put_stand_in(on_refusal: OnRefusal, field: &[u8], out: &mut Vec<u8>) -> Result<(), AllocError>
    ensures text { OnOk result (out.new.items ≡ out.old.items ++ stand_in on_refusal field.now) }
{
    match on_refusal {
        OnRefusal::Empty => Ok(()),
        OnRefusal::Keep | OnRefusal::Skip | OnRefusal::Abort => out.extend_from_slice(field),
    }
}

// Puts what is written for a field, and returns whether it is refused.
pub(crate) fn put_field<S: FieldSayer>(
    alloc: Global,
    asked: &TableAsked,
    sayer: &S,
    number: u64,
    index: usize,
    field: &[u8],
    texts: &mut Texts,
    out: &mut Vec<u8>,
) -> Result<bool, AllocError>
    ensures text { OnOk result (out.new.items ≡ out.old.items
        ++ field_written asked.now (S.is_chosen sayer.now) (S.said sayer.now) index field.now) }
    ensures refused { IfOk result (λ refused. refused
        ≡ is_refused asked.now (S.is_chosen sayer.now) (S.said sayer.now) index field.now) }
{
    if !sayer.is_chosen(index) {
        out.extend_from_slice(field)?;
        return Ok(false);
    }
    if put_chosen(alloc, asked, sayer, number, index, field, texts, out)? {
        return Ok(false);
    }
    put_stand_in(asked.on_refusal, field, out)?;
    Ok(true)
}
