//! A value that is borrowed or owned.

ghost use Rattle.std.specs.Prelude.{◌≡◌};
ghost use Rattle.std.specs.Cmp.{on_equiv, on_per};
ghost use Rattle.icu_decimal_symbols.specs.Cow.{held};

use std::ops::Deref;

/// A value that is borrowed or owned, and read by `*` either way: of `Borrowed(&5)` and of `Owned(5)` it is `5`.
#[derive(Debug, Drop)]
pub enum Cow<'a, T> {
    /// A borrowed value, as in `Borrowed(&5)`.
    Borrowed(&'a T),
    /// An owned value, as in `Owned(5)`.
    Owned(T),
}

/// The value, whoever owns it: `*` of `Borrowed(&5)` is `5`. It does not allocate.
impl<'a, T> Deref for Cow<'a, T> {
    type Target = T;

    ghost deref_gives = { λ cow value. value ≡ held cow };

    fn deref(&self) -> &T {
        match self {
            Cow::Borrowed(value) => value,
            Cow::Owned(value) => value,
        }
    }
}

/// Equal where the values are, whoever owns them: `Borrowed(&5)` equals `Owned(5)`.
impl<'a, T: PartialEq> PartialEq for Cow<'a, T> {
    ghost eq = { λ a b. T.eq (held a) (held b) };

    ghost laws = { on_per held T.laws };

    fn eq(&self, other: &Self) -> bool {
        **self == **other
    }
}

impl<'a, T: Eq> Eq for Cow<'a, T> {
    ghost laws = { on_equiv held T.Eq.laws };
}
