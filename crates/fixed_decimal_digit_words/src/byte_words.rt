//! Bytes as words, and the digits that lie in a word.

ghost use Rattle.std.specs.Prelude.{◌≡◌, ◌++◌, ◌<◌, ◌≤◌, length, replicate, take};
ghost use Rattle.fixed_decimal_digit_words.specs.DigitWord.{word_digits};
ghost use Rattle.fixed_decimal_digit_words.specs.Packed.{halves};

// The first four bytes as a number, the highest first: zeros stand for those that are not there.
#[inline(always)]
#[tactic(auto, using(crate::proofs::ByteWordLemmas::none_in, crate::proofs::ByteWordLemmas::one_in, crate::proofs::ByteWordLemmas::two_in, crate::proofs::ByteWordLemmas::three_in, crate::proofs::ByteWordLemmas::four_in))]
fn first_four(bytes: &[u8]) -> u32
    ensures { word_digits result 8 ≡ take 8 (halves (bytes.now ++ replicate 8 0)) }
{
    match bytes.len() {
        0 => 0,
        1 => u32::from(bytes[0]) * 16_777_216,
        2 => u32::from(bytes[0]) * 16_777_216 + u32::from(bytes[1]) * 65_536,
        3 => {
            u32::from(bytes[0]) * 16_777_216
                + u32::from(bytes[1]) * 65_536
                + u32::from(bytes[2]) * 256
        }
        _ => u32::from_be_bytes([bytes[0], bytes[1], bytes[2], bytes[3]]),
    }
}

// The first eight bytes as a word by two fours of them, where the first four are there.
#[inline(always)]
fn first_fours(bytes: &[u8]) -> u64
    requires { 4 ≤ length bytes.now }
    ensures { word_digits result 16 ≡ take 16 (halves (bytes.now ++ replicate 8 0)) }
{
    let (front, rest) = bytes.split_at(4);
    u64::from(first_four(front)) * 4_294_967_296 + u64::from(first_four(rest))
}

// The first eight bytes as a word, the highest first: zeros stand for those that are not there. Where all are there,
// they are loaded at once.
#[inline(always)]
pub(crate) fn first_eight(bytes: &[u8]) -> u64
    ensures { word_digits result 16 ≡ take 16 (halves (bytes.now ++ replicate 8 0)) }
{
    if bytes.len() < 4 {
        return u64::from(first_four(bytes)) * 4_294_967_296;
    }
    let Some(eight) = bytes.first_chunk::<8>() else {
        return first_fours(bytes);
    };
    u64::from_be_bytes(*eight)
}

// The halves of eight bytes. It is a function of its own over bytes in memory, since the compiler makes vectors of these,
// and not of a word.
#[inline(never)]
#[tactic(auto, using(crate::proofs::HalvesLemmas::two_halves, crate::proofs::HalvesLemmas::halves_filled))]
fn halves_of(bytes: &[u8; 8]) -> [u8; 16]
    ensures { result ≡ halves bytes.now }
{
    let mut digits = [0; 16];
    let mut index = 0;
    while index < 8 {
        digits[2 * index] = bytes[index] / 16;
        digits[2 * index + 1] = bytes[index] % 16;
        index += 1;
    }
    digits
}

// The digits of a word.
#[inline(always)]
pub(crate) fn digits_of_word(word: u64) -> [u8; 16]
    ensures { result ≡ word_digits word 16 }
{
    halves_of(&word.to_be_bytes())
}
