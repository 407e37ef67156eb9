//! The chosen fields of a table, and what says their texts.

ghost use Rattle.std.specs.Prelude.{◌≡◌, IfOk, option_map};
ghost use Rattle.legumeyet_columns.specs.Cells.{PutCell};
ghost use Rattle.legumeyet_options.specs.Sayings.{saying, text_said};
ghost use Rattle.legumeyet.specs.ColumnTexts.{all_before, is_there, misses, said_at, sayer_at};

use crate::report::{tell_field, tell_missing, tell_open, tell_refused_field};
use legumeyet_columns::{FieldFault, FieldSayer};
use legumeyet_options::{KeptSayer, NotSaid};
use std::alloc::AllocError;

/// A chosen field: its index, from 0 on, and what says its texts.
#[derive(Drop)]
pub struct Column<'a> {
    pub index: usize,
    pub sayer: KeptSayer<'a>,
}

/// What says the texts of chosen fields, and tells what is refused.
#[derive(Clone, Copy)]
pub struct Columns<'m, 'a> {
    pub rt: &'m HostRuntime,
    /// The tag, for what is told of refusals.
    pub tag: &'m str,
    /// The word of `--round`, for the same.
    pub round: &'m str,
    pub columns: &'m [Column<'a>],
}

// What says the texts of the field of this index.
fn sayer_at<'s, 'a>(columns: &'s [Column<'a>], index: usize) -> Option<&'s KeptSayer<'a>>
    ensures value { option_map (λ sayer. sayer.now) result ≡ sayer_at columns.now index }
{
    for column in columns {
        if column.index == index {
            return Some(&column.sayer);
        }
    }
    None
}

// Whether a record of so many fields lacks a chosen one.
fn misses(columns: &[Column<'_>], count: usize) -> bool
    ensures value { result ≡ misses columns.now count }
{
    for column in columns {
        if count <= column.index {
            return true;
        }
    }
    false
}

// Tells which chosen fields a record of so many fields lacks.
fn tell_lacking(rt: &HostRuntime, columns: &[Column<'_>], number: u64, count: usize) {
    for column in columns {
        if count <= column.index {
            tell_missing(rt, number, column.index);
        }
    }
}

impl Columns<'_, '_> {
    // Puts what a sayer says of the text of a field, and returns whether it says something.
    fn say_by(
        &self,
        sayer: &KeptSayer<'_>,
        number: u64,
        index: usize,
        text: &[u8],
        out: &mut Vec<u8>,
    ) -> Result<bool, AllocError>
        ensures text { IfOk result (λ is_said.
            PutCell (text_said (saying sayer.now text.now)) out.old.items out.new.items is_said) }
    {
        match sayer.put(self.rt.alloc(), text, out) {
            Ok(()) => Ok(true),
            Err(NotSaid::Memory) => Err(AllocError),
            Err(why) => {
                tell_refused_field(self.rt, number, index, self.tag, self.round, text, why);
                Ok(false)
            }
        }
    }
}

impl FieldSayer for Columns<'_, '_> {
    ghost is_chosen = { λ it index. is_there (sayer_at it.columns.now index) };

    ghost said = { λ it index text. said_at (sayer_at it.columns.now index) text };

    ghost misses = { λ it count. misses it.columns.now count };

    ghost all_before = { λ it count later none bound. all_before it.columns.now count later none bound };

    fn is_chosen(&self, index: usize) -> bool {
        sayer_at(self.columns, index).is_some()
    }

    fn say(
        &self,
        number: u64,
        index: usize,
        text: &[u8],
        out: &mut Vec<u8>,
    ) -> Result<bool, AllocError> {
        match sayer_at(self.columns, index) {
            None => Ok(false),
            Some(sayer) => self.say_by(sayer, number, index, text, out),
        }
    }

    fn tell_fault(&self, number: u64, index: usize, fault: FieldFault) {
        tell_field(self.rt, number, index, fault);
    }

    fn tell_open(&self, number: u64) {
        tell_open(self.rt, number);
    }

    fn misses(&self, count: usize) -> bool {
        misses(self.columns, count)
    }

    fn tell_missing(&self, number: u64, count: usize) {
        tell_lacking(self.rt, self.columns, number, count);
    }
}
