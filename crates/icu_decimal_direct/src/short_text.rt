//! A short text that is held in place.

ghost use Rattle.icu_decimal_direct.specs.Short.{IsShort};

// A text of at most 32 bytes.
#[derive(Clone, Copy, Debug)]
pub(crate) struct ShortText {
    pub bytes: [u8; 32],
    pub len: u8,
    pub ghost held: { IsShort bytes len },
}
