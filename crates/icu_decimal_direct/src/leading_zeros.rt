//! The zeros that digits begin with.

ghost use Rattle.std.specs.Prelude.{◌≡◌, ◌≢◌, ℕ, ◌<◌, ◌≤◌, length, slice_index};

// How many zeros digits begin with.
#[inline(always)]
pub(crate) fn zeros_ahead(digits: &[u8]) -> usize
    ensures within { result ≤ length digits.now }
    ensures zeros { (k : ℕ) → k < result → slice_index digits.now k ≡ 48 }
    ensures stops { result < length digits.now → slice_index digits.now result ≢ 48 }
{
    let mut count = 0;
    while count < digits.len() {
        if digits[count] != b'0' {
            return count;
        }
        count += 1;
    }
    count
}
