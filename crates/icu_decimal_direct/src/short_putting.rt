//! A short text, held in place and put.

ghost use Rattle.std.specs.Prelude.{◌≡◌, ◌+◌, ◌<◌, ◌≤◌, ◌++◌, drop, length, take, IfNone, IfSome};
ghost use Rattle.icu_decimal_direct.specs.HeldUnits.{short_text};

use crate::short_text::ShortText;

// How many bytes it may have.
const SHORT: usize = 32;

// Writes a text over the bytes from a place on.
#[inline(always)]
fn lay(bytes: &mut [u8], place: usize, text: &[u8])
    requires { place + length text.now ≤ length bytes.old }
    ensures { bytes.new ≡ take place bytes.old ++ (text.now ++ drop (place + length text.now) bytes.old) }
{
    bytes[place..place + text.len()].copy_from_slice(text);
}

impl ShortText {
    // A text; `None` where it has more bytes.
    pub(crate) fn of(text: &str) -> Option<ShortText>
        ensures value { IfSome result (λ short. short_text short ≡ text.now) }
        ensures none { IfNone result (32 < length text.now) }
    {
        let len = text.len();
        if len > SHORT {
            return None;
        }
        let mut bytes = [0; SHORT];
        lay(&mut bytes, 0, text.as_bytes());
        Some(ShortText {
            bytes,
            len: len as u8,
        })
    }

    // Puts it after the first `len` bytes, and returns how many bytes there are then.
    #[inline(always)]
    pub(crate) fn put<const N: usize>(&self, out: &mut [u8; N], len: usize) -> usize
        requires room { len + 32 ≤ N }
        ensures text { take result out.new ≡ take len out.old ++ short_text self.now }
        ensures room { result ≤ len + 32 }
    {
        lay(out, len, &self.bytes);
        len + self.len as usize
    }
}
