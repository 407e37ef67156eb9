//! Digits added to a list, and removed from either end.

ghost use Rattle.std.specs.Prelude.{◌≡◌, ◌+◌, ◌%◌, ◌^◌, ◌<◌, ◌≤◌, [], ◌∷◌, ◌++◌, length, drop, map, IsOk, OnOk, OnErr};
ghost use Rattle.std.specs.Char.{digit_value};
ghost use Rattle.std.specs.Int.Digits.{AllBelowBase};
ghost use Rattle.fixed_decimal_digit_words.specs.DigitText.{AreDigits};
ghost use Rattle.fixed_decimal_digit_words.specs.DigitWord.{word_digits};
ghost use Rattle.fixed_decimal_digits.specs.InlineDigits.{inline_digits};

use crate::digit_bytes::{assign_bytes, copy_bytes, drop_bytes, push_bytes, set_byte, shift_half};
use crate::digits::Digits;
use fixed_decimal_digit_words::bytes_of_block;
use std::alloc::AllocError;

// What the first digit of sixteen counts in a word.
const FIRST_OF_SIXTEEN: u64 = 0x1000_0000_0000_0000;

impl Digits {
    /// Makes room for `more` more digits: with room for two more after 9, 0, 5, pushing both does not allocate.
    ///
    /// The digits stay. It allocates where there is less room. `AllocError`: out of memory, only there; the list is
    /// then as before.
    #[tactic(auto, using(crate::proofs::PackedChanges::bytes_length))]
    pub fn reserve(&mut self, more: usize) -> Result<(), AllocError>
        ensures items { self.new.items ≡ self.old.items }
        ensures ok { OnOk result (length self.new.items + more ≤ self.new.capacity) }
        ensures err { OnErr result (self.new ≡ self.old) }
        ensures succeeds { length self.old.items + more ≤ self.old.capacity → IsOk result }
    {
        let Some(count) = self.count.checked_add(more) else {
            return Err(AllocError);
        };
        let bytes = count / 2 + count % 2;
        self.kept.reserve(bytes - self.kept.len())
    }

    // Makes room for `count` digits in all, those that are there among them.
    pub(crate) fn make_room(&mut self, count: usize) -> Result<(), AllocError>
        ensures ok { OnOk result (count ≤ self.new.capacity) }
        ensures err { OnErr result (self.new ≡ self.old) }
        ensures room { OnErr result (self.old.capacity < count) }
    {
        let more = count.saturating_sub(self.len());
        self.reserve(more)
    }

    /// Replaces the digits by the lowest `count` digits of a word, four bits each: 9, 0, 5 of 0x905 and 3.
    ///
    /// The condition is that these are digits, at most sixteen, and all of the word. The memory stays. It does not
    /// allocate.
    pub fn assign_word(&mut self, word: u64, count: usize)
        requires few { count ≤ inline_digits }
        requires fits { word < 16 ^ count }
        requires tens { AllBelowBase 10 (word_digits word count) }
        ensures { self.new.items ≡ word_digits word count }
    {
        if count % 2 == 0 {
            assign_bytes(&mut self.kept, word, count / 2);
        } else {
            assign_bytes(&mut self.kept, word * 16, count / 2 + 1);
        }
        self.count = count;
    }

    // Adds the sixteen digits of a word, for which there is room, after an even count.
    fn push_whole(&mut self, word: u64)
        requires tens { AllBelowBase 10 (word_digits word 16) }
        requires room { length self.old.items + 16 ≤ self.old.capacity }
        requires even { length self.old.items % 2 ≡ 0 }
        ensures items { self.new.items ≡ self.old.items ++ word_digits word 16 }
    {
        push_bytes(&mut self.kept, word);
        self.count += 16;
    }

    // Adds the fifteen digits of a word, for which there is room, after an even count.
    fn push_fifteen(&mut self, word: u64)
        requires fits { word < 16 ^ 15 }
        requires tens { AllBelowBase 10 (word_digits word 15) }
        requires room { length self.old.items + 15 ≤ self.old.capacity }
        requires even { length self.old.items % 2 ≡ 0 }
        ensures items { self.new.items ≡ self.old.items ++ word_digits word 15 }
    {
        push_bytes(&mut self.kept, word * 16);
        self.count += 15;
    }

    // Adds the sixteen digits of a word, for which there is room, after those that are there.
    #[tactic(auto, using(crate::proofs::LongNumberLemmas::first_of_sixteen, crate::proofs::LongNumberLemmas::rest_of_sixteen, crate::proofs::LongNumberLemmas::pushed_sixteen, crate::proofs::LongNumberLemmas::even_after))]
    pub(crate) fn push_sixteen(&mut self, word: u64)
        requires tens { AllBelowBase 10 (word_digits word 16) }
        requires room { length self.old.items + 16 ≤ self.old.capacity }
        ensures items { self.new.items ≡ self.old.items ++ word_digits word 16 }
    {
        if self.len() % 2 == 0 {
            self.push_whole(word);
        } else {
            self.push_reserved((word / FIRST_OF_SIXTEEN) as u8);
            self.push_fifteen(word % FIRST_OF_SIXTEEN);
        }
    }

    // Adds a digit after an even count: it begins a byte.
    fn push_upper(&mut self, digit: u8)
        requires ten { digit < 10 }
        requires room { length self.old.items < self.old.capacity }
        requires even { length self.old.items % 2 ≡ 0 }
        ensures items { self.new.items ≡ self.old.items ++ digit ∷ [] }
        ensures capacity { self.new.capacity ≡ self.old.capacity }
    {
        self.kept.push_reserved(digit * 16);
        self.count += 1;
    }

    // Adds a digit after an odd count: it goes into the last byte.
    fn push_lower(&mut self, digit: u8)
        requires ten { digit < 10 }
        requires room { length self.old.items < self.old.capacity }
        requires odd { length self.old.items % 2 ≡ 1 }
        ensures items { self.new.items ≡ self.old.items ++ digit ∷ [] }
        ensures capacity { self.new.capacity ≡ self.old.capacity }
    {
        let last = self.count / 2;
        let byte = self.kept.as_slice()[last];
        set_byte(&mut self.kept, last, byte + digit);
        self.count += 1;
    }

    /// Adds a digit after the last: 7 after 9, 0, 5 makes 9, 0, 5, 7. The condition is that there is room. It does
    /// not allocate.
    pub fn push_reserved(&mut self, digit: u8)
        requires ten { digit < 10 }
        requires room { length self.old.items < self.old.capacity }
        ensures items { self.new.items ≡ self.old.items ++ digit ∷ [] }
        ensures capacity { self.new.capacity ≡ self.old.capacity }
    {
        if self.len() % 2 == 0 {
            self.push_upper(digit);
        } else {
            self.push_lower(digit);
        }
    }

    // Adds the digits of a text of an even count, at most a block, for which there is room, after an even count.
    pub(crate) fn push_block(&mut self, text: &[u8])
        requires text_digits { AreDigits text.now }
        requires block { length text.now ≤ 64 }
        requires pairs { length text.now % 2 ≡ 0 }
        requires room { length self.old.items + length text.now ≤ self.old.capacity }
        requires even { length self.old.items % 2 ≡ 0 }
        ensures items { self.new.items ≡ self.old.items ++ map digit_value text.now }
        ensures capacity { self.old.capacity ≤ self.new.capacity }
    {
        let bytes = bytes_of_block(text);
        let (front, _) = bytes.split_at(text.len() / 2);
        copy_bytes(&mut self.kept, front);
        self.count += text.len();
    }

    // Adds the digits of another list, for which there is room, after an even count: its bytes, as they are.
    pub(crate) fn push_list(&mut self, other: &Digits)
        requires room { length self.old.items + length other.now.items ≤ self.old.capacity }
        requires even { length self.old.items % 2 ≡ 0 }
        ensures items { self.new.items ≡ self.old.items ++ other.now.items }
        ensures capacity { self.old.capacity ≤ self.new.capacity }
    {
        copy_bytes(&mut self.kept, other.kept.as_slice());
        self.count += other.count;
    }

    // Removes an even count of digits from the front.
    fn drop_even(&mut self, count: usize)
        requires within { count ≤ length self.old.items }
        requires even { count % 2 ≡ 0 }
        ensures items { self.new.items ≡ drop count self.old.items }
        ensures capacity { self.new.capacity ≡ self.old.capacity }
    {
        drop_bytes(&mut self.kept, count / 2);
        self.count -= count;
    }

    // Removes the first digit: each other one moves up by half a byte.
    fn drop_one(&mut self)
        requires { 0 < length self.old.items }
        ensures items { self.new.items ≡ drop 1 self.old.items }
        ensures capacity { self.new.capacity ≡ self.old.capacity }
    {
        shift_half(&mut self.kept);
        self.kept.truncate(self.count / 2);
        self.count -= 1;
    }

    // Removes the first `count` digits.
    #[tactic(auto, using(crate::proofs::PackedChanges::dropped_twice))]
    pub(crate) fn drop_front(&mut self, count: usize)
        requires { count ≤ length self.old.items }
        ensures items { self.new.items ≡ drop count self.old.items }
        ensures capacity { self.new.capacity ≡ self.old.capacity }
    {
        if count % 2 == 0 {
            self.drop_even(count);
        } else {
            self.drop_even(count - 1);
            self.drop_one();
        }
    }

    /// Removes every digit: none is left of 9, 0, 5. It does not allocate.
    pub fn clear(&mut self)
        ensures items { self.new.items ≡ [] }
        ensures capacity { self.new.capacity ≡ self.old.capacity }
        ensures inline { inline_digits ≤ self.new.capacity }
    {
        self.kept.clear();
        self.count = 0;
    }
}
