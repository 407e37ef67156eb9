//! The raw form of a subtag: N bytes, its text and then NULs.

ghost use Rattle.std.specs.Prelude.{◌≡◌, ◌↔◌, IsOk, IfOk, IfErr};
ghost use Rattle.tinystr.specs.SmallText.{text_of, padded};
ghost use Rattle.icu_locale_core_subtags.specs.RawSubtag.{IsRawSubtag};

use crate::rule::SubtagRule;
use crate::subtag_of::SubtagOf;
use icu_locale_core_grammar::ParseError;
use std::marker::PhantomData;
use tinystr::TinyAsciiStr;

impl<R: SubtagRule<N>, const N: usize> SubtagOf<R, N> {
    /// The subtag of a raw form, as `into_raw` gives it: for a region `[85, 83, 0]` is `US`.
    ///
    /// A text that is not in normal case, as `[117, 115, 0]`, and any other bytes have the error of the rule, for a
    /// region `InvalidSubtag`. It does not allocate.
    pub fn try_from_raw(raw: [u8; N]) -> Result<Self, ParseError>
        ensures succeeds { IsOk result ↔ IsRawSubtag N R.accepts R.normal raw.entry }
        ensures value { IfOk result (λ subtag. subtag ≡ text_of raw.entry) }
        ensures fault { IfErr result (λ e. e ≡ R.fault) }
    {
        let Ok(text) = TinyAsciiStr::try_from_raw(raw) else {
            return Err(R::fault());
        };
        if R::accepts(text.as_utf8()) && R::normal(text) == text {
            Ok(SubtagOf {
                text,
                rule: PhantomData,
            })
        } else {
            Err(R::fault())
        }
    }

    /// The N bytes of the text in normal case and NULs: the region `US` is `[85, 83, 0]`. It does not allocate.
    pub fn into_raw(self) -> [u8; N]
        ensures { result ≡ padded N self }
    {
        *self.text.all_bytes()
    }
}
