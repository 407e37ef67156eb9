//! The digits of a number. Only this file, `digit_changes`, `digit_fronts` and `digit_run` know how they lie in memory.

ghost use Rattle.std.specs.Prelude.{◌≡◌, ◌==◌, ◌+◌, ◌%◌, ◌<◌, ◌≤◌, ◌↔◌, [], length, slice_index, take, drop, map, IsTrue, IfOk, OnErr};
ghost use Rattle.std.specs.Bool.{Decides};
ghost use Rattle.fixed_decimal_digit_words.specs.DigitText.{character};
ghost use Rattle.fixed_decimal_digits.specs.InlineDigits.{inline_digits};

use fixed_decimal_digit_words::text_of_block;
use smallvec::SmallVec;
use std::alloc::{AllocError, Global};
use std::marker::Model;

// How many bytes lie inline: those of sixteen digits.
pub const INLINE: usize = 8;

/// How many digits one step reads or writes: those of thirty-two bytes.
pub const BLOCK: usize = 64;

// How many digits one step returns: those of eight bytes.
pub const STEP: usize = 16;

// How many digits are returned at once: those of twenty-four bytes.
pub const CHUNK: usize = 48;

/// A list of digits from 0 to 9, two to a byte, the higher one in the upper half: 9, 0, 5.
///
/// Up to sixteen digits do not allocate.
#[derive(Debug, Drop)]
pub struct Digits {
    pub(crate) kept: SmallVec<u8, INLINE>,
    pub(crate) count: usize,
}

impl Model for Digits {
    ghost use Rattle.std.specs.Prelude.{◌-◌, ◌*◌, ◌^◌, ◌≤◌, min};
    ghost use Rattle.fixed_decimal_digit_words.specs.Packed.{digits_in, IsPacked};
    ghost use Rattle.fixed_decimal_digits.specs.DigitList.{DigitList};

    ghost Value = { DigitList };

    ghost view = { λ a. record {
      items = digits_in a.kept.items a.count;
      capacity = min (2 * a.kept.capacity) (2 ^ 64 - 1);
    } };

    ghost invariant = { λ a. IsPacked a.kept.items a.count × (8 ≤ a.kept.capacity) };
}

impl Digits {
    /// No digits, of which there are 0. It does not allocate.
    pub fn new(alloc: Global) -> Digits
        ensures items { result.items ≡ [] }
        ensures capacity { inline_digits ≤ result.capacity }
    {
        Digits {
            kept: SmallVec::new(alloc),
            count: 0,
        }
    }

    /// No digits, with room for `count`: with room for 12, pushing twelve does not allocate.
    ///
    /// It allocates where that is more than sixteen. `AllocError`: out of memory, only there.
    pub fn with_room(alloc: Global, count: usize) -> Result<Digits, AllocError>
        ensures items { IfOk result (λ d. d.items ≡ []) }
        ensures capacity { IfOk result (λ d. count ≤ d.capacity) }
        ensures room { OnErr result (inline_digits < count) }
    {
        let mut digits = Digits::new(alloc);
        digits.reserve(count)?;
        Ok(digits)
    }

    /// How many digits there are: 3 of 9, 0, 5. It does not allocate.
    #[tactic(auto, using(crate::proofs::PackedChanges::bytes_length))]
    pub fn len(&self) -> usize
        ensures value { result ≡ length self.now.items }
        ensures fits { result ≤ self.now.capacity }
        ensures inline { inline_digits ≤ self.now.capacity }
    {
        let _bytes = self.kept.len(); // for the proof
        self.count
    }

    /// Whether there is no digit: false of 0. It does not allocate.
    pub fn is_empty(&self) -> bool
        ensures { result ≡ (length self.now.items == 0) }
    {
        self.count == 0
    }

    /// The digit at an index, counted from the first: 5 at 2 of 9, 0, 5. The condition is that there is one. It does
    /// not allocate.
    #[tactic(auto, using(crate::proofs::PackedChanges::bytes_length, crate::proofs::PackedChanges::upper_digit, crate::proofs::PackedChanges::lower_digit))]
    pub fn get(&self, index: usize) -> u8
        requires { index < length self.now.items }
        ensures value { result ≡ slice_index self.now.items index }
        ensures ten { result < 10 }
    {
        let byte = self.kept.as_slice()[index / 2];
        if index % 2 == 0 { byte / 16 } else { byte % 16 }
    }

    // Whether two digits side by side, the first at an index, are both this one.
    #[tactic(auto, using(crate::proofs::PackedChanges::bytes_length, crate::proofs::PackedChanges::both_digits))]
    pub(crate) fn are_both(&self, index: usize, digit: u8) -> bool
        requires within { index + 1 < length self.now.items }
        requires ten { digit < 10 }
        ensures { IsTrue result
            ↔ ((slice_index self.now.items index ≡ digit) × (slice_index self.now.items (index + 1) ≡ digit)) }
    {
        let _count = self.len(); // for the proof
        if index % 2 == 0 {
            self.kept.as_slice()[index / 2] == digit * 17
        } else {
            self.get(index) == digit && self.get(index + 1) == digit
        }
    }

    /// The text of a block of digits, `BLOCK` of them from an even index on: of sixty-four ones, `1` sixty-four times.
    ///
    /// The condition is that there are `BLOCK` digits from the index on. It does not allocate.
    #[tactic(auto, using(crate::proofs::PackedChanges::bytes_length))]
    pub fn block(&self, index: usize) -> [u8; 64]
        requires even { index % 2 ≡ 0 }
        requires within { index + 64 ≤ length self.now.items }
        ensures { result ≡ map character (take 64 (drop index self.now.items)) }
    {
        let (_, rest) = self.kept.as_slice().split_at(index / 2);
        let (front, _) = rest.split_at(BLOCK / 2);
        text_of_block(front)
    }

    // Whether the digits are those of another list.
    pub(crate) fn is_same(&self, other: &Digits) -> bool
        ensures { Decides result (self.now.items ≡ other.now.items) }
    {
        self.count == other.count && self.kept.as_slice() == other.kept.as_slice()
    }

    /// A copy: of 9, 0, 5 it is 9, 0, 5.
    ///
    /// It allocates where there are more than sixteen. `AllocError`: out of memory, only there.
    pub fn try_clone(&self) -> Result<Digits, AllocError>
        ensures value { IfOk result (λ d. d.items ≡ self.now.items) }
        ensures room { OnErr result (inline_digits < length self.now.items) }
    {
        let kept = SmallVec::from_slice(*self.kept.allocator(), self.kept.as_slice())?;
        Ok(Digits {
            kept,
            count: self.count,
        })
    }
}
