//! What answers lines one by one, as a trait.

ghost use Rattle.std.specs.Prelude.{◌≡◌, ℕ, List, [], ◌∷◌, ◌++◌, string_bytes, OnOk, OnErr};
ghost use Rattle.locale_numbers_lines.specs.Growth.{Grows};

use std::alloc::AllocError;

/// One that answers lines, each alone, and may keep what it makes for later ones: one that turns
/// letters to upper case answers `one` by `ONE`.
pub trait Answerer {
    // What it needs so that it can answer; it has it again after each answer.
    ghost is_ready: { Self → Type 0 };

    // The answer to a line, which no call changes.
    ghost answer_of: { Self → List ℕ → List ℕ };

    // How many things it will have made once these lines are answered too.
    ghost made_over: { Self → List (List ℕ) → ℕ };

    /// Puts the answer to `line`, with no line feed after it, after what `out` holds: in upper
    /// case `b` puts `B` after `A` and a line feed.
    ///
    /// The condition is that it is ready, as it is again after each answer. It fails only where it is out
    /// of memory; a part of the answer may then be there.
    fn answer_onto(&mut self, line: &[u8], out: &mut String) -> Result<(), AllocError>
        requires { is_ready self.old }
        ensures text { OnOk result (
            string_bytes out.new ≡ string_bytes out.old ++ answer_of self.old line.now) }
        ensures made { OnOk result ((more : List (List ℕ)) →
            made_over self.old (line.now ∷ more) ≡ made_over self.new more) }
        ensures same { answer_of self.new ≡ answer_of self.old }
        ensures ready { is_ready self.new }
        ensures err { OnErr result (Grows (string_bytes out.old) (string_bytes out.new)) };

    /// How many things it has made: 2 after two lines, where it makes one for each. The condition is that
    /// it is ready.
    fn made(&self) -> u64
        requires { is_ready self.now }
        ensures value { result ≡ made_over self.now [] };
}
