//! Rows of `run_calls`.

use crate::rounding::Rounding;
use crate::step::Step;
use crate::words::{sign_display_of, sign_of};
use fixed_decimal::{Call, CallsError, run_calls};
use rows::{Bounded, Stop, filled, number_of, push, put, put_held, put_text, unescaped};
use std::alloc::Global;
use writeable::{Sink, TextSink};

// A rounding of a position, a mode and an increment.
fn rounding_of(words: &str) -> Result<Call, Stop> {
    let it = Rounding::of(words)?;
    Ok(Call::Round(it.position, it.mode, it.increment))
}

// The call that is passed nothing.
fn trim_of(name: &str) -> Result<Call, Stop> {
    match name {
        "TrimStart" => Ok(Call::TrimStart),
        "TrimEnd" => Ok(Call::TrimEnd),
        "TrimEndIfInteger" => Ok(Call::TrimEndIfInteger),
        _ => Err(Stop::Unknown),
    }
}

// The call that is passed a number.
fn call_at(name: &str, position: i16) -> Result<Call, Stop> {
    match name {
        "MultiplyPow10" => Ok(Call::MultiplyPow10(position)),
        "PadStart" => Ok(Call::PadStart(position)),
        "PadEnd" => Ok(Call::PadEnd(position)),
        "SetMaxPosition" => Ok(Call::SetMaxPosition(position)),
        _ => Err(Stop::Unknown),
    }
}

// The call that a field spells.
fn call_of(step: Step<'_>) -> Result<Call, Stop> {
    match step.name {
        "Round" => rounding_of(step.passed),
        "SetSign" => Ok(Call::SetSign(sign_of(step.passed)?)),
        "ApplySignDisplay" => Ok(Call::ApplySignDisplay(sign_display_of(step.passed)?)),
        _ if step.passed.is_empty() => trim_of(step.name),
        _ => call_at(step.name, number_of(step.passed)?),
    }
}

// Puts the calls that fields spell to the others.
fn put_calls(calls: &mut Vec<Call>, fields: &[&str]) -> Result<(), Stop> {
    for field in fields {
        push(calls, call_of(Step::of(field))?)?;
    }
    Ok(())
}

// The calls that fields spell.
fn calls_of(alloc: Global, fields: &[&str]) -> Result<Vec<Call>, Stop> {
    let mut calls = Vec::new(alloc);
    let put = put_calls(&mut calls, fields);
    filled(calls, put)
}

// Writes the answer of a run that was refused, and what its sink then holds.
fn put_refusal(
    refused: CallsError,
    text: &str,
    has_refused: bool,
    out: &mut String,
) -> Result<(), Stop> {
    if text.is_empty() && !has_refused {
        return Err(Stop::Refused(refused.number()));
    }
    put_text(out, "error ")?;
    put(out, &refused.number())?;
    put_text(out, " ")?;
    put_held(out, text, has_refused)
}

// Writes the answer of a run, and what its sink then holds.
fn put_ran(
    ran: Result<(), CallsError>,
    text: &str,
    has_refused: bool,
    out: &mut String,
) -> Result<(), Stop> {
    match ran {
        Ok(()) => put_held(out, text, has_refused),
        Err(CallsError::Memory) => Err(Stop::Memory),
        Err(refused) => put_refusal(refused, text, has_refused, out),
    }
}

// The answer of a run of calls, written into a sink that holds a text.
fn answer_in_text(start: &[u8], calls: &[Call], out: &mut String) -> Result<(), Stop> {
    let alloc = *out.allocator();
    let mut sink = TextSink::new(alloc);
    let ran = run_calls(alloc, start, calls, &mut sink);
    let answer = put_ran(ran, sink.text(), sink.has_refused(), out);
    drop(sink);
    answer
}

// The same, of a number that may be spelled by escapes.
fn answer_of_escaped(start: &str, calls: &[Call], out: &mut String) -> Result<(), Stop> {
    let start = unescaped(*out.allocator(), start)?;
    let answer = answer_in_text(start.as_slice(), calls, out);
    drop(start);
    answer
}

/// The answer of a run of calls, written into a sink that holds a text.
pub fn answer(alloc: Global, fields: &[&str], out: &mut String) -> Result<(), Stop> {
    let Some((start, fields)) = fields.split_first() else {
        return Err(Stop::Unknown);
    };
    let calls = calls_of(alloc, fields)?;
    let answer = answer_of_escaped(start, calls.as_slice(), out);
    drop(calls);
    answer
}

// The answer of a run of calls, written into a sink with this room.
fn answer_bounded(start: &[u8], calls: &[Call], room: usize, out: &mut String) -> Result<(), Stop> {
    let alloc = *out.allocator();
    let mut sink = Bounded::new(alloc, room);
    let ran = run_calls(alloc, start, calls, &mut sink);
    let answer = put_ran(ran, sink.text(), sink.has_refused(), out);
    drop(sink);
    answer
}

/// The answer of a run of calls, written into a sink with the room that the first field says.
pub fn answer_in_room(alloc: Global, fields: &[&str], out: &mut String) -> Result<(), Stop> {
    let [room, start, fields @ ..] = fields else {
        return Err(Stop::Unknown);
    };
    let room = number_of(room)?;
    let calls = calls_of(alloc, fields)?;
    let answer = answer_bounded(start.as_bytes(), calls.as_slice(), room, out);
    drop(calls);
    answer
}
