//! Digits that are single bytes in a row, put together without a table.

ghost use Rattle.std.specs.Prelude.{◌≡◌, ℕ, ◌+◌, ◌*◌, ◌<◌, ◌≤◌, ◌++◌, [], ◌∷◌, length, map, replicate, take};
ghost use Rattle.std.specs.Int.Digits.{AllBelowBase};
ghost use Rattle.std.specs.Option.{ForSome};
ghost use Rattle.icu_decimal_plain.specs.LaterGroups.{groups_ahead};
ghost use Rattle.icu_decimal_plain.specs.PlainText.{chained};
ghost use Rattle.icu_decimal_plain.specs.Runs.{IsRun, run_text};

use crate::digit_chunks::set_block;

// The byte of zero, where the ten characters of a table are ASCII characters in a row.
#[tactic(auto, using(crate::proofs::RunLemmas::run_is))]
pub(crate) fn run_of(table: &[char; 10]) -> Option<u8>
    ensures { ForSome result (λ nought. IsRun nought table.now) }
{
    let nought = table[0] as u32;
    if nought > 118 {
        return None;
    }
    let mut digit = 0;
    while digit < 10 {
        if table[digit] as u32 != nought + digit as u32 {
            return None;
        }
        digit += 1;
    }
    Some(nought as u8)
}

// Puts digits after the first `len` bytes, and returns how many bytes there are then.
#[tactic(auto, using(crate::proofs::PieceLemmas::ten_at, crate::proofs::RunLemmas::run_next, crate::proofs::RunLemmas::run_none))]
pub(crate) fn put_run<const N: usize>(
    waiting: &mut [u8; N],
    len: usize,
    digits: &[u8],
    nought: u8,
) -> usize
    requires room { len + length digits.now ≤ N }
    requires small { nought + 9 < 128 }
    requires tens { AllBelowBase 10 digits.now }
    ensures text { take result waiting.new ≡ take len waiting.old ++ chained (map (run_text nought) digits.now) }
    ensures room { result ≡ len + length digits.now }
{
    let mut at = 0;
    while at < digits.len() {
        waiting[len + at] = nought + digits[at];
        at += 1;
    }
    len + digits.len()
}

// Puts groups of three digits, each with the separator before it, after the first `len` bytes, and returns how many
// bytes there are then.
#[inline(always)]
#[tactic(auto, using(crate::proofs::PieceLemmas::ten_at, crate::proofs::RunLemmas::threes_next, crate::proofs::RunLemmas::threes_none))]
pub(crate) fn put_threes<const N: usize>(
    waiting: &mut [u8; N],
    len: usize,
    separator: u8,
    digits: &[u8],
    groups: usize,
    nought: u8,
) -> usize
    requires room { len + 4 * groups ≤ N }
    requires enough { 3 * groups ≤ length digits.now }
    requires small { nought + 9 < 128 }
    requires tens { AllBelowBase 10 digits.now }
    ensures text { take result waiting.new
        ≡ take len waiting.old ++ groups_ahead (separator ∷ []) (run_text nought) (replicate groups 3) digits.now }
    ensures room { result ≡ len + 4 * groups }
{
    let mut at = 0;
    while at < groups {
        let from = 3 * at;
        let to = len + 4 * at;
        waiting[to] = separator;
        waiting[to + 1] = nought + digits[from];
        waiting[to + 2] = nought + digits[from + 1];
        waiting[to + 3] = nought + digits[from + 2];
        at += 1;
    }
    len + 4 * groups
}

// Sixteen groups of three digits, each with the separator before it. It is a function of its own, of which the compiler
// makes vectors.
#[inline(never)]
fn sixteen_threes(separator: u8, digits: &[u8], nought: u8) -> [u8; 64]
    requires enough { 48 ≤ length digits.now }
    requires small { nought + 9 < 128 }
    requires tens { AllBelowBase 10 digits.now }
    ensures { result ≡ groups_ahead (separator ∷ []) (run_text nought) (replicate 16 3) digits.now }
{
    let mut text = [0; 64];
    put_threes(&mut text, 0, separator, digits, 16, nought);
    text
}

// Does what `put_threes` does, sixteen groups at once.
pub(crate) fn put_many_threes<const N: usize>(
    waiting: &mut [u8; N],
    len: usize,
    separator: u8,
    digits: &[u8],
    groups: usize,
    nought: u8,
) -> usize
    requires room { len + 4 * groups ≤ N }
    requires enough { 3 * groups ≤ length digits.now }
    requires small { nought + 9 < 128 }
    requires tens { AllBelowBase 10 digits.now }
    ensures text { take result waiting.new
        ≡ take len waiting.old ++ groups_ahead (separator ∷ []) (run_text nought) (replicate groups 3) digits.now }
    ensures room { result ≡ len + 4 * groups }
{
    if groups != 16 {
        return put_threes(waiting, len, separator, digits, groups, nought);
    }
    let text = sixteen_threes(separator, digits, nought);
    set_block(waiting, len, &text);
    len + 64
}
