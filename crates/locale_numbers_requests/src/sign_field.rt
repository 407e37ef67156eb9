//! The sign that a request asks for.

ghost use Rattle.std.specs.Prelude.{◌≡◌};
ghost use Rattle.locale_numbers_requests.specs.Request.{keeps_sign, sign_named};

use fixed_decimal::SignDisplay;
use locale_numbers_formats::{SignAsked, value_beside};

// The words of signs.
const SIGNS: [(&[u8], SignAsked); 6] = [
    (b"keep", SignAsked::Keep),
    (b"auto", SignAsked::Show(SignDisplay::Auto)),
    (b"never", SignAsked::Show(SignDisplay::Never)),
    (b"always", SignAsked::Show(SignDisplay::Always)),
    (b"except-zero", SignAsked::Show(SignDisplay::ExceptZero)),
    (b"negative", SignAsked::Show(SignDisplay::Negative)),
];

/// The sign that a word asks for: `Keep` of `keep`. `None` where it asks for none, as `plus`. It does not allocate.
pub fn sign_named(word: &[u8]) -> Option<SignAsked>
    ensures { result ≡ sign_named word.now }
{
    value_beside(&SIGNS, word)
}

// Whether the sign is that of the text.
pub(crate) fn keeps_sign(sign: SignAsked) -> bool
    ensures { result ≡ keeps_sign sign }
{
    matches!(sign, SignAsked::Keep)
}
