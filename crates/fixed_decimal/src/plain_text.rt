//! A text taken apart at the letter that marks its exponent.

ghost use Rattle.std.specs.Prelude.{◌≡◌, ◌++◌, IsTrue, ◌↔◌};
ghost use Rattle.fixed_decimal.specs.PlainText.{MarksExponent, HasNoMark};
ghost use Rattle.fixed_decimal.specs.PlainParts.{StartsWithMark};

// Whether a character marks an exponent.
fn is_mark(c: u8) -> bool
    ensures { IsTrue result ↔ MarksExponent c }
{
    c == b'c' || c == b'e' || c == b'E'
}

// What a text has before its first mark, and the rest.
#[tactic(auto, using(crate::proofs::PlainTextLemmas::plain_more, std::proofs::lemmas::List::take_all))]
pub fn split_mark(text: &[u8]) -> (&[u8], &[u8])
    ensures whole { text.now ≡ result.0.now ++ result.1.now }
    ensures plain { HasNoMark result.0.now }
    ensures rest { StartsWithMark result.1.now }
{
    for (index, c) in text.iter().enumerate() {
        if is_mark(*c) {
            return (&text[..index], &text[index..]);
        }
    }
    (text, &[])
}
