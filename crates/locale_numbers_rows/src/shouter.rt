//! An answerer that knows nothing of books.
ghost use Rattle.std.specs.Prelude.{◌≡◌, ◌<◌, ◌^◌, string_bytes};
ghost use Rattle.locale_numbers_rows.specs.Shouting.{shout, shouted, answers_after};

use crate::narrow::Narrow;
use crate::pieces::Pieces;
use crate::runs::{Runs, put_left, put_outcome};
use crate::sides::{Left, Sides};
use locale_numbers_lines::{Answerer, run_with};
use rows::{Stop, number_of};
use std::alloc::AllocError;

// Answers in upper case, and counts its answers. Memory runs out for it after some of them, in mid-answer.
#[derive(Clone, Copy)]
struct Shouter {
    answers: u64,
    refused_from: u64,
}

fn shouted_byte(byte: u8) -> char
    ensures small { result < 128 }
    ensures value { result ≡ shouted byte }
{
    if byte < 128 {
        byte.to_ascii_uppercase() as char
    } else {
        '?'
    }
}

impl Answerer for Shouter {
    ghost is_ready = { λ s. s.answers < 2 ^ 64 };

    ghost answer_of = { λ _ line. shout line };

    ghost made_over = { λ s lines. answers_after s.answers lines };

    fn answer_onto(&mut self, line: &[u8], out: &mut String) -> Result<(), AllocError> {
        for byte in line {
            out.push(shouted_byte(*byte))?;
        }
        if self.answers >= self.refused_from {
            return Err(AllocError);
        }
        self.answers = self.answers.saturating_add(1);
        Ok(())
    }

    fn made(&self) -> u64 {
        self.answers
    }
}

impl Runs for Shouter {
    fn run(
        &self,
        reader: &mut Pieces<'_>,
        writer: &mut Narrow<'_>,
        out: &mut String,
    ) -> Result<(), Stop> {
        let mut shouter = Shouter {
            answers: 0,
            refused_from: self.refused_from,
        };
        let outcome = run_with(*out.allocator(), &mut shouter, reader, writer);
        put_outcome(outcome, out)
    }
}

/// Writes what a run leaves whose answers are in upper case, and which is refused memory after so many of them, or
/// never (`all`).
pub fn answer(passed: &[&str], input: &[u8], out: &mut String) -> Result<(), Stop> {
    let [answers, reader, writer, _] = passed else {
        return Err(Stop::Unknown);
    };
    let refused_from = match *answers {
        "all" => u64::MAX,
        answers => number_of(answers)?,
    };
    let shouter = Shouter {
        answers: 0,
        refused_from,
    };
    put_left(
        &shouter,
        Sides::of(reader, writer, input, Left::Sides)?,
        out,
    )
}
