//! The digits of a number's text.

ghost use Rattle.icu_decimal_direct.specs.FewDigits.{AreFewDigits};

use fixed_decimal::Sign;

/// The digits of a number's text: one to thirty-two before its point, and none or up to thirty-two after it, with a
/// sign before them or none.
///
/// Of `-1234.5` the digits `1234` and `5`, with a minus. It borrows the text.
#[derive(Clone, Copy, Debug)]
pub struct TextDigits<'t> {
    pub(crate) sign: Sign,
    pub(crate) integer: &'t [u8],
    pub(crate) fraction: &'t [u8],
    pub(crate) ghost held: { AreFewDigits integer.now fraction.now },
}
