//! Rows of variants and attributes.

use crate::call::Call;
use crate::part::{Part, put_copy, second};
use crate::refusals::{read, read_some};
use crate::writing::{put_next, put_optional, put_taken};
use icu_locale_core::extensions::unicode::Attributes;
use icu_locale_core::subtags::{SubtagOf, SubtagRule, Variant, Variants};
use icu_locale_core_subtag_lists::{SubtagSet, pieces_length, write_pieces};
use icu_locale_core_subtags::VariantRule;
use icu_locale_core_subtags::unicode::AttributeRule;
use rows::{Stop, filled, number_of, put, put_debug, put_last_written, put_text};
use writeable::TextSink;

/// A class of subtags that are in sets.
pub trait Kind: SubtagRule<8> + Sized {
    /// The set that a call makes; `None` where the call makes none.
    fn set(call: &Call<'_>, out: &mut String) -> Result<Option<SubtagSet<Self>>, Stop>;
}

/// Variants are between spaces, and are pushed one after another.
impl Kind for VariantRule {
    fn set(call: &Call<'_>, out: &mut String) -> Result<Option<Variants>, Stop> {
        match call.name {
            "new" | "try_from_str" => {
                let mut set = Variants::new(call.alloc);
                let pushed = push_all(&mut set, call.first, out);
                Ok(Some(filled(set, pushed)?))
            }
            "from_variant" => {
                let variant = read(Variant::try_from_str(call.first), out)?;
                Ok(Some(Variants::from_variant(call.alloc, variant)?))
            }
            _ => Ok(None),
        }
    }
}

fn push_all(set: &mut Variants, texts: &str, out: &mut String) -> Result<(), Stop> {
    for text in texts.split_whitespace() {
        set.push(read(Variant::try_from_str(text), out)?)?;
    }
    Ok(())
}

/// Attributes have readers.
impl Kind for AttributeRule {
    fn set(call: &Call<'_>, out: &mut String) -> Result<Option<Attributes>, Stop> {
        match call.name {
            "try_from_str" => read_some(Attributes::try_from_str(call.alloc, call.first), out),
            "try_from_utf8" => read_some(Attributes::try_from_utf8(call.alloc, call.bytes), out),
            "extend_from_attributes" => {
                let mut set = read(Attributes::try_from_str(call.alloc, call.first), out)?;
                let extended = extend(&mut set, call, out);
                Ok(Some(filled(set, extended)?))
            }
            _ => Ok(None),
        }
    }
}

fn extend(set: &mut Attributes, call: &Call<'_>, out: &mut String) -> Result<(), Stop> {
    let others = read(Attributes::try_from_str(call.alloc, call.second), out)?;
    Ok(set.extend_from_attributes(others)?)
}

impl<R: Kind> Part for SubtagSet<R> {
    fn make(call: &Call<'_>, out: &mut String) -> Result<Option<Self>, Stop> {
        R::set(call, out)
    }

    fn answer(
        &mut self,
        other: Option<&Self>,
        call: &Call<'_>,
        out: &mut String,
    ) -> Result<(), Stop> {
        match call.name {
            "cmp" => put_debug(out, &Self::cmp(self, second(other)?)),
            "try_clone" => put_copy(self, self.try_clone(), out),
            "is_empty" => put(out, &self.is_empty()),
            "first" => put_optional(out, self.first()),
            "get" => put_optional(out, self.get(number_of(call.second)?)),
            "clear" => {
                put_last_written(out, self.clear())?;
                put_text(out, " ")?;
                put(out, &self.is_empty())
            }
            "write_pieces" => {
                let mut sink = TextSink::new(call.alloc);
                let is_written = write_pieces(self.as_slice(), &mut sink).is_ok();
                put_taken(out, is_written, sink)?;
                put_text(out, " ")?;
                put_debug(out, &pieces_length(self.as_slice()))
            }
            "contains" | "push" | "remove" => at_subtag(self, call, out),
            _ => Err(Stop::Unknown),
        }
    }
}

// The answer of a call of a set and a subtag: whether it is there, or changed the set; how many there then are, and the
// set.
fn at_subtag<R: Kind>(
    set: &mut SubtagSet<R>,
    call: &Call<'_>,
    out: &mut String,
) -> Result<(), Stop> {
    let subtag = read(SubtagOf::<R, 8>::try_from_str(call.second), out)?;
    match call.name {
        "contains" => put(out, &set.contains(&subtag)),
        "push" => {
            put(out, &set.push(subtag)?)?;
            put_text(out, " ")?;
            put(out, &set.len())?;
            put_next(out, Some(set))
        }
        _ => {
            put(out, &set.remove(subtag))?;
            put_next(out, Some(set))
        }
    }
}
