//! The text of a range: two numbers with two dots between.

ghost use Rattle.std.specs.Prelude.{◌≡◌, None, Some, MatchOption};
ghost use Rattle.locale_numbers_requests.specs.RangeEnds.{range_ends};

use memchr::memmem;

// What stands between the ends.
const DOTS: &[u8] = b"..";

/// The texts on both sides of the first two dots of a text: `1` and `5` of `1..5`, `1` and `.5` of `1...5`. `None` where no
/// two dots stand together, as in `1.5`. It does not allocate.
pub fn cut_range(text: &[u8]) -> Option<(&[u8], &[u8])>
    ensures { MatchOption result (range_ends text.now ≡ None) (λ ends. range_ends text.now ≡ Some (ends.0.now, ends.1.now)) }
{
    match memmem::find(text, DOTS) {
        Some(place) => Some((&text[..place], &text[place + 2..])),
        None => None,
    }
}
