//! Digits after other digits, with zeros between them.

ghost use Rattle.std.specs.Prelude.{◌≡◌, ◌+◌, ◌<◌, ◌≤◌, ◌++◌, length, replicate, OnOk, OnErr, IfSome};
ghost use Rattle.fixed_decimal_digits.specs.InlineDigits.{inline_digits};

use crate::digits::Digits;
use std::alloc::AllocError;

/// Adds `count` zeros after the digits: two after 1 make 1, 0, 0. The condition is that there is room. It does not
/// allocate.
#[tactic(auto, using(std::proofs::lemmas::Grind::replicate_next))]
pub fn push_zeros(digits: &mut Digits, count: usize)
    requires { length digits.old.items + count ≤ digits.old.capacity }
    ensures items { digits.new.items ≡ digits.old.items ++ replicate count 0 }
    ensures capacity { digits.new.capacity ≡ digits.old.capacity }
{
    for _turn in 0..count {
        digits.push_reserved(0);
    }
}

// Adds the digits of another list after the digits, one after another.
#[tactic(auto, using(std::proofs::lemmas::List::take_more))]
fn push_each(digits: &mut Digits, other: &Digits)
    requires { length digits.old.items + length other.now.items ≤ digits.old.capacity }
    ensures items { digits.new.items ≡ digits.old.items ++ other.now.items }
    ensures capacity { digits.new.capacity ≡ digits.old.capacity }
{
    for index in 0..other.len() {
        digits.push_reserved(other.get(index));
    }
}

// Adds the digits of another list after the digits: after an even count its bytes at once.
fn push_all(digits: &mut Digits, other: &Digits)
    requires { length digits.old.items + length other.now.items ≤ digits.old.capacity }
    ensures { digits.new.items ≡ digits.old.items ++ other.now.items }
{
    if digits.len() % 2 == 0 {
        digits.push_list(other);
    } else {
        push_each(digits, other);
    }
}

/// Adds `zeros` zeros and then the digits of another list: one zero and 3 after 1, 2 make 1, 2, 0, 3.
///
/// The condition is that these are at most 65536. It allocates where all together are more than sixteen. `AllocError`:
/// out of memory, only there; then nothing is added.
pub fn push_after(digits: &mut Digits, zeros: usize, other: &Digits) -> Result<(), AllocError>
    requires { zeros + length other.now.items ≤ 65536 }
    ensures ok { OnOk result (digits.new.items ≡ digits.old.items ++ (replicate zeros 0 ++ other.now.items)) }
    ensures err { OnErr result (digits.new ≡ digits.old) }
    ensures room { OnErr result (inline_digits < length digits.old.items + (zeros + length other.now.items)) }
{
    let _inline = digits.len(); // for the proof
    digits.reserve(zeros + other.len())?;
    push_zeros(digits, zeros);
    push_all(digits, other);
    Ok(())
}

/// How many zeros are between the last of some digits and the first of others: 1 between 1, 2 at 32769 and a digit at
/// 32766.
///
/// Each is given with the place of its first digit. `None` where the first of the others is not below the last. It does
/// not allocate.
pub fn zeros_between(digits: &Digits, top: u16, other_top: u16) -> Option<usize>
    requires { length digits.now.items ≤ top + 1 }
    ensures some { IfSome result (λ zeros. other_top + 1 + zeros + length digits.now.items ≡ top + 1) }
    ensures none { result ≡ None → top + 1 ≤ other_top + length digits.now.items }
{
    let last = top as usize + 1 - digits.len();
    let first = other_top as usize;
    if last <= first {
        return None;
    }
    Some(last - first - 1)
}
