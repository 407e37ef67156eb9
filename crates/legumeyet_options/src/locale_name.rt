//! The tag of a locale's name, as the environment and C have it.

ghost use Rattle.std.specs.Prelude.{◌≡◌, ◌==◌, IfOk, string_bytes};
ghost use Rattle.std.specs.List.{before_first};
ghost use Rattle.legumeyet_options.specs.LocaleName.{at_sign, base_of, dot, hyphened, is_default, tag_of};

use std::alloc::{AllocError, Global};

// What is before the first dot, or all.
fn before_dot(text: &str) -> &str
    ensures { result.now ≡ before_first (λ b. b == dot) text.now }
{
    match text.split_once('.') {
        Some((front, _)) => front,
        None => text,
    }
}

// What is before the first at sign, or all.
fn before_at(text: &str) -> &str
    ensures { result.now ≡ before_first (λ b. b == at_sign) text.now }
{
    match text.split_once('@') {
        Some((front, _)) => front,
        None => text,
    }
}

// The name before its codeset and its modifier.
fn base_of(name: &str) -> &str
    ensures { result.now ≡ base_of name.now }
{
    before_at(before_dot(name))
}

// Whether a base names no locale of its own.
fn is_default(base: &str) -> bool
    ensures { result ≡ is_default base.now }
{
    base.is_empty() || base == "C" || base == "POSIX"
}

// A text with a hyphen for each underscore.
fn hyphened(alloc: Global, base: &str) -> Result<String, AllocError>
    ensures { IfOk result (λ tag. string_bytes tag ≡ hyphened base.now) }
{
    base.chars()
        .map(|c| if c == '_' { '-' } else { c })
        .collect(alloc)
}

/// The tag that a locale's name stands for: `de-DE` for `de_DE.UTF-8` and for `de_DE@euro`, `en` for `C`, `POSIX` and an
/// empty name. A tag without a dot, an at sign and an underscore stands for itself.
///
/// It may be no locale tag, as `d!` of `d!`. Allocates. `AllocError`: out of memory.
pub fn tag_of_name(alloc: Global, name: &str) -> Result<String, AllocError>
    ensures text { IfOk result (λ tag. string_bytes tag ≡ tag_of name.now) }
{
    let base = base_of(name);
    if is_default(base) {
        return String::from_str(alloc, "en");
    }
    hyphened(alloc, base)
}
