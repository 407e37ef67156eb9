//! Some of the digits of a list, one after another, or sixteen or forty-eight at once.

ghost use Rattle.std.specs.Prelude.{◌≡◌, ◌+◌, ◌^◌, ◌<◌, ◌≤◌, length, min, take, drop};
ghost use Rattle.std.specs.Int.Digits.{AllBelowBase};
ghost use Rattle.std.specs.Iterator.{YieldsFirst, item_count};

use crate::digit_chunks::{chunk_between, chunk_within};
use crate::digits::{CHUNK, Digits, STEP};
use fixed_decimal_digit_words::{digits_between, digits_within};
use std::iter::FusedIterator;
use std::marker::Model;

// Some of the digits, one after another.
#[derive(Debug, Drop)]
pub struct DigitRun<'l> {
    digits: &'l Digits,
    next: usize,
    left: usize,
}

impl<'l> Model for DigitRun<'l> {
    ghost use Rattle.std.specs.Prelude.{ℕ, ◌+◌, ◌^◌, ◌<◌, ◌≤◌, List, length, take, drop};

    ghost Value = { List ℕ };

    ghost view = { λ run. take run.left (drop run.next run.digits.now.items) };

    ghost invariant = { λ run. (run.next + run.left ≤ length run.digits.now.items)
        × ((run.next + run.left < 2 ^ 64) × (run.left < 2 ^ 63)) };
}

impl Digits {
    // The digits from an index on, `most` at most.
    #[tactic(auto, using(crate::proofs::PackedChanges::run_is))]
    pub(crate) fn run(&self, from: usize, most: usize) -> DigitRun<'_>
        requires { most < 2 ^ 63 }
        ensures { result ≡ take most (drop from self.now.items) }
    {
        let next = from.min(self.len());
        let left = most.min(self.len() - next);
        DigitRun {
            digits: self,
            next,
            left,
        }
    }

    // A block of digits that begins with the `count` from an index on.
    #[tactic(auto, using(crate::proofs::PackedChanges::bytes_length))]
    fn block_from(&self, index: usize, count: usize) -> [u8; 16]
        requires few { count ≤ 16 }
        requires within { index + count ≤ length self.now.items }
        ensures taken { take count result ≡ take count (drop index self.now.items) }
        ensures tens { AllBelowBase 10 result }
    {
        let (_, rest) = self.kept.as_slice().split_at(index / 2);
        if index % 2 == 0 {
            digits_within(rest)
        } else {
            digits_between(rest)
        }
    }

    // The forty-eight digits from an index on.
    #[tactic(auto, using(crate::proofs::PackedChanges::bytes_length))]
    fn chunk_from(&self, index: usize) -> [u8; 48]
        requires within { index + 48 ≤ length self.now.items }
        ensures taken { result ≡ take 48 (drop index self.now.items) }
        ensures tens { AllBelowBase 10 result }
    {
        let (_, rest) = self.kept.as_slice().split_at(index / 2);
        if index % 2 == 0 {
            chunk_within(rest)
        } else {
            chunk_between(rest)
        }
    }
}

impl<'l> DigitRun<'l> {
    // How many digits are left.
    pub fn len(&self) -> usize
        ensures value { result ≡ length self.now }
        ensures bound { result < 2 ^ 63 }
    {
        self.left
    }

    // Puts the next digits into the front of a block, sixteen or all that are left where these are fewer, and returns
    // how many. The rest of the block are digits that mean nothing.
    pub fn next_block(&mut self, block: &mut [u8; 16]) -> usize
        ensures count { result ≡ min 16 (length self.old) }
        ensures taken { take result block.new ≡ take result self.old }
        ensures tens { AllBelowBase 10 block.new }
        ensures rest { self.new ≡ drop result self.old }
    {
        let count = STEP.min(self.left);
        *block = self.digits.block_from(self.next, count);
        self.next += count;
        self.left -= count;
        count
    }

    // The next forty-eight digits. The condition is that so many are left.
    pub fn next_chunk(&mut self) -> [u8; 48]
        requires { 48 ≤ length self.old }
        ensures taken { result ≡ take 48 self.old }
        ensures tens { AllBelowBase 10 result }
        ensures rest { self.new ≡ drop 48 self.old }
    {
        let _left = self.len(); // for the proof
        let chunk = self.digits.chunk_from(self.next);
        self.next += CHUNK;
        self.left -= CHUNK;
        chunk
    }
}

impl<'l> Iterator for DigitRun<'l> {
    type Item = u8;

    ghost next_gives = { YieldsFirst (λ run. run) };

    ghost remaining = { item_count (λ run. run) };

    #[tactic(auto, using(crate::proofs::PackedChanges::run_next))]
    fn next(&mut self) -> Option<u8> {
        if self.left == 0 {
            return None;
        }
        let digit = self.digits.get(self.next);
        self.next += 1;
        self.left -= 1;
        Some(digit)
    }
}

impl<'l> FusedIterator for DigitRun<'l> {}
