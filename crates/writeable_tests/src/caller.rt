//! The caller of `CALLING.md`.

ghost use Rattle.std.specs.Prelude.{◌≡◌, ◌++◌, IfOk};
ghost use Rattle.std.specs.String.{string_bytes};
ghost use Rattle.writeable.specs.AnnotatedText.{text_of};

use std::alloc::{AllocError, Global};
use writeable::{Affixed, Writeable};

/// The text of a value between a currency sign and a unit: `€`, `5` and ` net` are `€5 net`.
#[tactic(auto, using(writeable::proofs::AnnotatedTextLemmas::text_of_affixed))]
pub fn with_unit<T: Writeable + Drop>(
    alloc: Global,
    before: &str,
    value: T,
    behind: &str,
) -> Result<String, AllocError>
    ensures { IfOk result (λ text. string_bytes text ≡ before.now ++ (text_of (T.events value) ++ behind.now)) }
{
    let all = Affixed {
        before,
        value,
        behind,
    };
    all.write_to_string(alloc)
}
