//! `AsciiByte`: a byte below 128.

mod constants;

ghost use Rattle.std.specs.Prelude.{◌≡◌, ◌<◌};
ghost use Rattle.std.specs.List.{All};

use std::marker::Model;

/// A byte from 0 to 127: `B65` is that of `A`.
#[derive(Clone, Copy, Debug, PartialEq, Eq, PartialOrd, Ord, Hash)]
pub struct AsciiByte {
    value: u8,
}

impl Model for AsciiByte {
    ghost use Rattle.std.specs.Prelude.{ℕ, ◌<◌};

    ghost Value = { ℕ };

    ghost view = { λ s. s.value };

    ghost invariant = { λ s. s.value < 128 };

    ghost inverse = { λ value. record { value = value } };
}

impl AsciiByte {
    /// The byte: of `B65` it is 65. It does not allocate.
    pub fn value(&self) -> u8
        ensures value { result ≡ self.now }
        ensures ascii { result < 128 }
    {
        self.value
    }
}

/// The bytes as ASCII bytes: `b"ab"` gives `[B97, B98]`. The condition is that each is below 128. It does not allocate.
pub fn to_ascii_byte_array<const N: usize>(bytes: &[u8; N]) -> [AsciiByte; N]
    requires { All (λ b. b < 128) bytes.now }
    ensures { result ≡ bytes.now }
{
    let mut all = [AsciiByte { value: 0 }; N];
    for (i, b) in bytes.iter().enumerate() {
        all[i] = AsciiByte { value: *b };
    }
    all
}
