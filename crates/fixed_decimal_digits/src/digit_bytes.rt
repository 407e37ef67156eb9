//! Changes of the bytes that hold two digits each.

ghost use Rattle.std.specs.Prelude.{◌≡◌, ◌+◌, ◌<◌, ◌≤◌, ◌++◌, length, slice_set, take, drop};
ghost use Rattle.fixed_decimal_digit_words.specs.DigitWord.{word_bytes};
ghost use Rattle.fixed_decimal_digit_words.specs.Packed.{shifted};

use crate::digits::INLINE;
use smallvec::SmallVec;
use std::alloc::Global;

// The first `count` of eight bytes, inline. Each count has an arm of its own, so that the compiler knows which bytes are
// cleared.
fn first_of(alloc: Global, bytes: [u8; 8], count: usize) -> SmallVec<u8, INLINE>
    requires { count ≤ 8 }
    ensures items { result.items ≡ take count bytes }
    ensures capacity { result.capacity ≡ 8 }
{
    match count {
        0 => SmallVec::from_buf_and_len(alloc, bytes, 0),
        1 => SmallVec::from_buf_and_len(alloc, bytes, 1),
        2 => SmallVec::from_buf_and_len(alloc, bytes, 2),
        3 => SmallVec::from_buf_and_len(alloc, bytes, 3),
        4 => SmallVec::from_buf_and_len(alloc, bytes, 4),
        5 => SmallVec::from_buf_and_len(alloc, bytes, 5),
        6 => SmallVec::from_buf_and_len(alloc, bytes, 6),
        7 => SmallVec::from_buf_and_len(alloc, bytes, 7),
        _ => SmallVec::from_buf_and_len(alloc, bytes, 8),
    }
}

// The lowest `count` bytes of a word, at most as many as lie inline, the highest of them first.
#[tactic(auto, using(crate::proofs::WordBytesLemmas::first_bytes))]
fn inline_bytes(alloc: Global, word: u64, count: usize) -> SmallVec<u8, INLINE>
    requires { count ≤ 8 }
    ensures items { result.items ≡ word_bytes word count }
    ensures capacity { result.capacity ≡ 8 }
{
    if count == 0 {
        return SmallVec::new(alloc);
    }
    let first = word << (64 - 8 * count as u32);
    first_of(alloc, first.to_be_bytes(), count)
}

// Replaces the bytes by the lowest `count` bytes of a word, the highest of them first. The memory stays.
#[tactic(auto, using(crate::proofs::WordBytesLemmas::last_bytes))]
pub fn assign_bytes(kept: &mut SmallVec<u8, INLINE>, word: u64, count: usize)
    requires few { count ≤ 8 }
    requires inline { 8 ≤ kept.old.capacity }
    ensures items { kept.new.items ≡ word_bytes word count }
    ensures capacity { kept.old.capacity ≤ kept.new.capacity }
{
    if kept.spilled() {
        let bytes = word.to_be_bytes();
        let (_, lowest) = bytes.split_at(8 - count);
        kept.clear();
        copy_bytes(kept, lowest);
    } else {
        *kept = inline_bytes(*kept.allocator(), word, count);
    }
}

// Adds bytes, for which there is room, after those that are there.
pub fn copy_bytes(kept: &mut SmallVec<u8, INLINE>, bytes: &[u8])
    requires { length kept.old.items + length bytes.now ≤ kept.old.capacity }
    ensures items { kept.new.items ≡ kept.old.items ++ bytes.now }
    ensures capacity { kept.old.capacity ≤ kept.new.capacity }
{
    kept.extend_from_slice(bytes).unwrap();
}

// Adds the bytes of a word, for which there is room, the highest first.
#[tactic(auto, using(crate::proofs::WordBytesLemmas::last_bytes))]
pub fn push_bytes(kept: &mut SmallVec<u8, INLINE>, word: u64)
    requires { length kept.old.items + 8 ≤ kept.old.capacity }
    ensures items { kept.new.items ≡ kept.old.items ++ word_bytes word 8 }
    ensures capacity { kept.old.capacity ≤ kept.new.capacity }
{
    copy_bytes(kept, &word.to_be_bytes());
}

// Puts a byte in the place of another.
pub fn set_byte(kept: &mut SmallVec<u8, INLINE>, index: usize, byte: u8)
    requires { index < length kept.old.items }
    ensures items { kept.new.items ≡ slice_set kept.old.items index byte }
    ensures capacity { kept.new.capacity ≡ kept.old.capacity }
{
    kept.as_mut_slice()[index] = byte;
}

// Removes the first bytes.
pub fn drop_bytes(kept: &mut SmallVec<u8, INLINE>, count: usize)
    requires { count ≤ length kept.old.items }
    ensures items { kept.new.items ≡ drop count kept.old.items }
    ensures capacity { kept.new.capacity ≡ kept.old.capacity }
{
    let left = kept.len() - count;
    kept.as_mut_slice().rotate_left(count);
    kept.truncate(left);
}

// Moves each half up by one: the first is gone, and 0 comes in after the last.
#[tactic(auto, using(crate::proofs::PackedLemmas::shifted_more))]
fn shift_bytes(bytes: &mut [u8])
    ensures { bytes.new ≡ shifted bytes.old }
{
    let mut index = 0;
    while index < bytes.len() {
        let next = if index + 1 < bytes.len() {
            bytes[index + 1] / 16
        } else {
            0
        };
        bytes[index] = bytes[index] % 16 * 16 + next;
        index += 1;
    }
}

// Moves each half of the bytes up by one.
pub fn shift_half(kept: &mut SmallVec<u8, INLINE>)
    ensures items { kept.new.items ≡ shifted kept.old.items }
    ensures capacity { kept.new.capacity ≡ kept.old.capacity }
{
    shift_bytes(kept.as_mut_slice());
}
