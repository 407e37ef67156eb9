//! The digits that a number shows, one after another.
ghost use Rattle.std.specs.Prelude.{◌≡◌, ◌+◌, ◌≤◌, length, min, take, drop, Some, IfSome};
ghost use Rattle.std.specs.Int.Digits.{AllBelowBase};
ghost use Rattle.std.specs.Iterator.{YieldsFirst, UpTo, at_most, item_count};
ghost use Rattle.std.specs.Iterator.SizeHint.{IsWithinCount};
ghost use Rattle.fixed_decimal_digits.specs.CountDigits.{digits_down};
ghost use Rattle.fixed_decimal_digits.specs.DigitList.{count_of};

use crate::digit_run::DigitRun;
use crate::digits::{CHUNK, Digits, STEP};
use std::iter::{ExactSizeIterator, FusedIterator};
use std::marker::Model;

/// The digits of a number at a range of magnitudes, from the highest to the lowest, each from 0 to 9: before the point
/// of `012.30` they are 0, 1, 2, and after it 3, 0.
///
/// It borrows the number, and does not allocate.
#[derive(Debug, Drop)]
pub struct ShownDigits<'l> {
    zeros_before: usize,
    inside: DigitRun<'l>,
    zeros_after: usize,
}

impl<'l> Model for ShownDigits<'l> {
    ghost use Rattle.std.specs.Prelude.{ℕ, ◌≤◌, ◌++◌, List, replicate};

    ghost Value = { List ℕ };

    ghost view = { λ it. replicate it.zeros_before 0 ++ (it.inside ++ replicate it.zeros_after 0) };

    ghost invariant = { λ it. (it.zeros_before ≤ 65536) × (it.zeros_after ≤ 65536) };
}

/// The digits of a count at `count` places from `base` up, where the first that is kept is at `top`: of 1, 2 at 32769,
/// three from 32767 up are 1, 2, 0. It does not allocate.
pub fn digits_at(digits: &Digits, top: u16, base: u16, count: u16) -> ShownDigits<'_>
    requires tens { AllBelowBase 10 digits.now.items }
    requires room { length digits.now.items ≤ top + 1 }
    requires places { base + count ≤ 65536 }
    ensures { result ≡ digits_down (count_of digits.now.items top) base count }
{
    let past = base as usize + count as usize;
    let first = top as usize + 1;
    let zeros_before = past.saturating_sub(first).min(count as usize);
    let places = count as usize - zeros_before;
    let inside = digits.run(first.saturating_sub(past), places);
    let zeros_after = places - inside.len();
    ShownDigits {
        zeros_before,
        inside,
        zeros_after,
    }
}

impl<'l> ShownDigits<'l> {
    /// Puts the next digits into the front of `block`, sixteen or all that are left where these are fewer, and returns
    /// how many. What else is in `block` then means nothing.
    ///
    /// Each is from 0 to 9, and so is each after them, where those of `block` were. Of `012.30` the digits before the
    /// point are 0, 1, 2: the first call returns 3, the next 0. One call for sixteen digits costs one step, not sixteen.
    /// It does not allocate.
    pub fn next_block(&mut self, block: &mut [u8; 16]) -> usize
        ensures count { result ≡ min 16 (length self.old) }
        ensures taken { take result block.new ≡ take result self.old }
        ensures tens { AllBelowBase 10 self.old → AllBelowBase 10 block.old → AllBelowBase 10 block.new }
        ensures rest { self.new ≡ drop result self.old }
    {
        if self.zeros_before == 0 && (self.zeros_after == 0 || self.inside.len() >= STEP) {
            return self.inside.next_block(block);
        }
        self.next_few(block)
    }

    /// The next forty-eight digits, where as many are kept before the zeros after them. `None`, and none is taken: they
    /// are not, or there are zeros before them.
    ///
    /// Of forty-eight ones before the point the first call returns these, the next `None`. It does not allocate.
    pub fn next_chunk(&mut self) -> Option<[u8; 48]>
        ensures taken { IfSome result (λ chunk. chunk ≡ take 48 self.old) }
        ensures tens { IfSome result (λ chunk. AllBelowBase 10 chunk) }
        ensures rest { IfSome result (λ _. self.new ≡ drop 48 self.old) }
        ensures none { result ≡ None → self.new ≡ self.old }
    {
        if self.zeros_before > 0 || self.inside.len() < CHUNK {
            return None;
        }
        Some(self.inside.next_chunk())
    }

    // Does what `next_block` does, digit by digit, zeros before and after with them.
    fn next_few(&mut self, block: &mut [u8; 16]) -> usize
        ensures count { result ≡ min 16 (length self.old) }
        ensures taken { take result block.new ≡ take result self.old }
        ensures tens { AllBelowBase 10 self.old → AllBelowBase 10 block.old → AllBelowBase 10 block.new }
        ensures rest { self.new ≡ drop result self.old }
    {
        let mut count = 0;
        while count < STEP {
            let Some(digit) = self.next() else {
                return count;
            };
            block[count] = digit;
            count += 1;
        }
        count
    }
}

/// The digits in their order; after the last one `None`, for good. After the point of `012.30` they are 3, 0,
/// `None`.
impl<'l> Iterator for ShownDigits<'l> {
    type Item = u8;

    ghost next_gives = { YieldsFirst (λ it. it) };

    ghost remaining = { item_count (λ it. it) };

    fn next(&mut self) -> Option<u8> {
        if self.zeros_before > 0 {
            self.zeros_before -= 1;
            return Some(0);
        }
        if let Some(digit) = self.inside.next() {
            return Some(digit);
        }
        if self.zeros_after > 0 {
            self.zeros_after -= 1;
            return Some(0);
        }
        None
    }

    fn size_hint(&self) -> (usize, Option<usize>)
        ensures lower { IsWithinCount result.0 (at_most (length self.now)) }
        ensures upper { IfSome result.1 (UpTo (at_most (length self.now))) }
        ensures value { result ≡ (length self.now, Some (length self.now)) }
    {
        let left = self.len();
        (left, Some(left))
    }
}

impl<'l> ExactSizeIterator for ShownDigits<'l> {
    fn len(&self) -> usize {
        self.zeros_before + self.inside.len() + self.zeros_after
    }
}

impl<'l> FusedIterator for ShownDigits<'l> {}
