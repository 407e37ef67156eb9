//! Forty-eight digits that lie in bytes, at once.
//!
//! Each function is one of its own over bytes in memory, since the compiler makes vectors of these.

ghost use Rattle.std.specs.Prelude.{◌≡◌, ◌≤◌, length, take, drop};
ghost use Rattle.fixed_decimal_digit_words.specs.Packed.{halves};

// The forty-eight digits from the first half on.
#[inline(never)]
#[tactic(auto, using(fixed_decimal_digit_words::proofs::HalvesLemmas::two_halves, crate::proofs::ChunkLemmas::chunk_whole))]
pub fn chunk_within(bytes: &[u8]) -> [u8; 48]
    requires { 24 ≤ length bytes.now }
    ensures { result ≡ take 48 (halves bytes.now) }
{
    let mut digits = [0; 48];
    let mut index = 0;
    while index < 24 {
        digits[2 * index] = bytes[index] / 16;
        digits[2 * index + 1] = bytes[index] % 16;
        index += 1;
    }
    digits
}

// The forty-eight digits from the second half on.
#[inline(never)]
#[tactic(auto, using(fixed_decimal_digit_words::proofs::HalvesLemmas::two_between, crate::proofs::ChunkLemmas::between_whole))]
pub fn chunk_between(bytes: &[u8]) -> [u8; 48]
    requires { 25 ≤ length bytes.now }
    ensures { result ≡ take 48 (drop 1 (halves bytes.now)) }
{
    let mut digits = [0; 48];
    let mut index = 0;
    while index < 24 {
        digits[2 * index] = bytes[index] % 16;
        digits[2 * index + 1] = bytes[index + 1] / 16;
        index += 1;
    }
    digits
}
