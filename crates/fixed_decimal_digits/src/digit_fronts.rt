//! The first digits of a list, kept.

ghost use Rattle.std.specs.Prelude.{◌≡◌, ◌+◌, ◌-◌, ◌%◌, ◌<◌, ◌≤◌, [], ◌∷◌, ◌++◌, length, slice_index, take};
ghost use Rattle.fixed_decimal_digits.specs.InlineDigits.{inline_digits};

use crate::digit_bytes::set_byte;
use crate::digits::Digits;

impl Digits {
    // Keeps an even count of the first digits.
    fn keep_even(&mut self, len: usize)
        requires within { len ≤ length self.old.items }
        requires even { len % 2 ≡ 0 }
        ensures items { self.new.items ≡ take len self.old.items }
        ensures capacity { self.new.capacity ≡ self.old.capacity }
    {
        self.kept.truncate(len / 2);
        self.count = len;
    }

    // Keeps an odd count of the first digits: the lower half of the last byte is cleared.
    fn keep_odd(&mut self, len: usize)
        requires within { len ≤ length self.old.items }
        requires odd { len % 2 ≡ 1 }
        ensures items { self.new.items ≡ take len self.old.items }
        ensures capacity { self.new.capacity ≡ self.old.capacity }
    {
        let last = len / 2;
        self.kept.truncate(last + 1);
        let byte = self.kept.as_slice()[last];
        set_byte(&mut self.kept, last, byte / 16 * 16);
        self.count = len;
    }

    // Keeps the first `len` digits.
    pub(crate) fn truncate(&mut self, len: usize)
        ensures items { self.new.items ≡ take len self.old.items }
        ensures capacity { self.new.capacity ≡ self.old.capacity }
        ensures fits { length self.old.items ≤ self.old.capacity }
        ensures inline { inline_digits ≤ self.new.capacity }
    {
        if len < self.len() {
            if len % 2 == 0 {
                self.keep_even(len);
            } else {
                self.keep_odd(len);
            }
        }
    }

    // Keeps an odd count of the first digits, with `more` added to the last of them, the upper half of a byte.
    fn raise_upper(&mut self, len: usize, more: u8)
        requires within { len ≤ length self.old.items }
        requires odd { len % 2 ≡ 1 }
        requires ten { slice_index self.old.items (len - 1) + more < 10 }
        ensures items { self.new.items
            ≡ take (len - 1) self.old.items ++ (slice_index self.old.items (len - 1) + more) ∷ [] }
        ensures capacity { self.new.capacity ≡ self.old.capacity }
    {
        let last = (len - 1) / 2;
        self.kept.truncate(last + 1);
        let byte = self.kept.as_slice()[last];
        set_byte(&mut self.kept, last, (byte / 16 + more) * 16);
        self.count = len;
    }

    // Keeps an even count of the first digits, with `more` added to the last of them, the lower half of a byte.
    fn raise_lower(&mut self, len: usize, more: u8)
        requires some { 0 < len }
        requires within { len ≤ length self.old.items }
        requires even { len % 2 ≡ 0 }
        requires ten { slice_index self.old.items (len - 1) + more < 10 }
        ensures items { self.new.items
            ≡ take (len - 1) self.old.items ++ (slice_index self.old.items (len - 1) + more) ∷ [] }
        ensures capacity { self.new.capacity ≡ self.old.capacity }
    {
        let last = (len - 1) / 2;
        self.kept.truncate(last + 1);
        let byte = self.kept.as_slice()[last];
        set_byte(&mut self.kept, last, byte + more);
        self.count = len;
    }

    // Keeps the first `len` digits, with `more` added to the last of them.
    pub(crate) fn raise(&mut self, len: usize, more: u8)
        requires some { 0 < len }
        requires within { len ≤ length self.old.items }
        requires ten { slice_index self.old.items (len - 1) + more < 10 }
        ensures items { self.new.items
            ≡ take (len - 1) self.old.items ++ (slice_index self.old.items (len - 1) + more) ∷ [] }
        ensures capacity { self.new.capacity ≡ self.old.capacity }
    {
        if len % 2 == 0 {
            self.raise_lower(len, more);
        } else {
            self.raise_upper(len, more);
        }
    }
}
