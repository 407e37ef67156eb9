//! Bounds on the length of a text, known before it is written.

ghost use Rattle.std.specs.Prelude.{◌≡◌, ℕ, ◌+◌, None, Some, min};
ghost use Rattle.writeable.specs.LengthHint.{IsWithinHint};

/// How long a text is, in bytes: at least `low`, and at most `high` where that is known. Of `a,b`
/// it is from 3 to 3.
///
/// The length of the text lies between the two. After ICU4X's `writeable::LengthHint`.
#[derive(Clone, Copy, Debug, PartialEq, Eq)]
pub struct LengthHint {
    /// The least number of bytes of the text: 3 of `a,b`.
    pub low: usize,
    /// The greatest number of bytes of the text: `Some(3)` of `a,b`; `None` where nothing is known.
    pub high: Option<usize>,
}

impl LengthHint {
    /// The text has exactly `length` bytes: `exact(3)` is from 3 to 3. It does not allocate.
    pub fn exact(length: usize) -> Self
        ensures low { result.low ≡ length }
        ensures high { result.high ≡ Some length }
    {
        LengthHint {
            low: length,
            high: Some(length),
        }
    }

    /// The text has `length` bytes or more: `at_least(2)` is from 2 on. It does not allocate.
    pub fn at_least(length: usize) -> Self
        ensures low { result.low ≡ length }
        ensures high { result.high ≡ None }
    {
        LengthHint {
            low: length,
            high: None,
        }
    }

    // The hint of a text that has `bytes` more: `exact(3)` by 2 is from 5 to 5. An end that no
    // `usize` holds says what is known without it.
    pub(crate) fn longer_by(self, bytes: usize) -> Self
        ensures within { (n : ℕ) → IsWithinHint self n → IsWithinHint result (n + bytes) }
        ensures low { result.low ≡ min (self.low + bytes) usize.MAX }
    {
        LengthHint {
            low: self.low.saturating_add(bytes),
            high: match self.high {
                Some(most) => most.checked_add(bytes),
                None => None,
            },
        }
    }
}
