//! Texts that are cut where another text is first in them.

ghost use Rattle.std.specs.Prelude.{◌≡◌, ◌<◌, length, option_map};
ghost use Rattle.locale_numbers_words.specs.Cuts.{cut_at, has_once, lacks};

// What is before a text that is not empty, where it is first in another one, and what is after it.
pub(crate) fn cut_at<'t>(text: &'t str, needle: &str) -> Option<(&'t str, &'t str)>
    requires { 0 < length needle.now }
    ensures { option_map (λ parts. (parts.0.now, parts.1.now)) result ≡ cut_at needle.now text.now }
{
    text.split_once(needle)
}

// Whether it is nowhere in the other one.
pub(crate) fn lacks(text: &str, needle: &str) -> bool
    requires { 0 < length needle.now }
    ensures { result ≡ lacks needle.now text.now }
{
    cut_at(text, needle).is_none()
}

// Whether it is there, and not again after that.
pub(crate) fn has_once(text: &str, needle: &str) -> bool
    requires { 0 < length needle.now }
    ensures { result ≡ has_once needle.now text.now }
{
    match cut_at(text, needle) {
        Some((_before, after)) => lacks(after, needle),
        None => false,
    }
}
