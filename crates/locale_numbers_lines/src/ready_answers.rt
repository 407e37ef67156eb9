//! Answers after those that wait to be written.

ghost use Rattle.std.specs.Prelude.{◌≡◌, ℕ, List, [], ◌∷◌, ◌++◌, string_bytes, OnOk, OnErr};
ghost use Rattle.locale_numbers_lines.specs.Lines.{ended};
ghost use Rattle.locale_numbers_lines.specs.Growth.{Grows};

use crate::answerer::Answerer;
use std::alloc::AllocError;

// The answer to a line and its line feed, after the ready ones; a part of it may be after an error.
fn push_ended<A: Answerer>(
    answerer: &mut A,
    line: &[u8],
    ready: &mut String,
) -> Result<(), AllocError>
    requires { A.is_ready answerer.old }
    ensures text { OnOk result (
        string_bytes ready.new ≡ string_bytes ready.old ++ ended (A.answer_of answerer.old line.now)) }
    ensures made { OnOk result ((more : List (List ℕ)) →
        A.made_over answerer.old (line.now ∷ more) ≡ A.made_over answerer.new more) }
    ensures same { A.answer_of answerer.new ≡ A.answer_of answerer.old }
    ensures ready { A.is_ready answerer.new }
    ensures err { OnErr result (Grows (string_bytes ready.old) (string_bytes ready.new)) }
{
    answerer.answer_onto(line, ready)?;
    ready.push('\n')
}

// The answer to a line and its line feed, after the ready ones; these are as before after an error.
pub fn answer_line<A: Answerer>(
    answerer: &mut A,
    line: &[u8],
    ready: &mut String,
) -> Result<(), AllocError>
    requires { A.is_ready answerer.old }
    ensures text { OnOk result (
        string_bytes ready.new ≡ string_bytes ready.old ++ ended (A.answer_of answerer.old line.now)) }
    ensures made { OnOk result ((more : List (List ℕ)) →
        A.made_over answerer.old (line.now ∷ more) ≡ A.made_over answerer.new more) }
    ensures same { A.answer_of answerer.new ≡ A.answer_of answerer.old }
    ensures ready { A.is_ready answerer.new }
    ensures err { OnErr result (string_bytes ready.new ≡ string_bytes ready.old) }
{
    let whole = ready.len();
    match push_ended(answerer, line, ready) {
        Ok(()) => Ok(()),
        Err(refused) => {
            ready.truncate(whole);
            Err(refused)
        }
    }
}

// The same for a line of which `held` has the beginning, and `end` the rest.
pub fn answer_held<A: Answerer>(
    answerer: &mut A,
    held: &mut Vec<u8>,
    end: &[u8],
    ready: &mut String,
) -> Result<(), AllocError>
    requires { A.is_ready answerer.old }
    ensures text { OnOk result (
        string_bytes ready.new ≡ string_bytes ready.old ++ ended
        (A.answer_of answerer.old (held.old.items ++ end.now))) }
    ensures made { OnOk result ((more : List (List ℕ)) →
        A.made_over answerer.old ((held.old.items ++ end.now) ∷ more) ≡ A.made_over answerer.new more) }
    ensures gone { OnOk result (held.new.items ≡ []) }
    ensures same { A.answer_of answerer.new ≡ A.answer_of answerer.old }
    ensures ready { A.is_ready answerer.new }
    ensures err { OnErr result (string_bytes ready.new ≡ string_bytes ready.old) }
{
    if held.is_empty() {
        return answer_line(answerer, end, ready);
    }
    held.extend_from_slice(end)?;
    answer_line(answerer, held.as_slice(), ready)?;
    held.clear();
    Ok(())
}
