//! Rows of extensions.

use crate::call::Call;
use crate::part::{Part, put_copy, second};
use crate::refusals::{read, read_some};
use crate::writing::put_joined;
use icu_locale_core::extensions::other::Other;
use icu_locale_core::extensions::transform::Transform;
use icu_locale_core::extensions::unicode::Unicode;
use icu_locale_core::extensions::{ExtensionType, Extensions};
use icu_locale_core::{Locale, ParseError};
use rows::{Stop, push, put, put_debug, put_text, put_written};
use std::alloc::Global;

impl Part for Unicode {
    fn make(call: &Call<'_>, out: &mut String) -> Result<Option<Self>, Stop> {
        match call.name {
            "try_from_str" => read_some(Self::try_from_str(call.alloc, call.first), out),
            "try_from_utf8" => read_some(Self::try_from_utf8(call.alloc, call.bytes), out),
            "new" => Ok(Some(Self::new(call.alloc))),
            _ => Ok(None),
        }
    }

    fn answer(
        &mut self,
        other: Option<&Self>,
        call: &Call<'_>,
        out: &mut String,
    ) -> Result<(), Stop> {
        match call.name {
            "total_cmp" => return put_debug(out, &self.total_cmp(second(other)?)),
            "try_clone" => return put_copy(self, self.try_clone(), out),
            "is_empty" => return put(out, &self.is_empty()),
            "extend" => self.extend(read(Self::try_from_str(call.alloc, call.second), out)?)?,
            "clear" => self.clear(),
            _ => return Err(Stop::Unknown),
        }
        put_written(out, self)
    }
}

impl Part for Transform {
    fn make(call: &Call<'_>, out: &mut String) -> Result<Option<Self>, Stop> {
        match call.name {
            "try_from_str" => read_some(Self::try_from_str(call.alloc, call.first), out),
            "try_from_utf8" => read_some(Self::try_from_utf8(call.alloc, call.bytes), out),
            _ => Ok(None),
        }
    }

    fn answer(
        &mut self,
        other: Option<&Self>,
        call: &Call<'_>,
        out: &mut String,
    ) -> Result<(), Stop> {
        match call.name {
            "total_cmp" => put_debug(out, &self.total_cmp(second(other)?)),
            "try_clone" => put_copy(self, self.try_clone(), out),
            "is_empty" => put(out, &self.is_empty()),
            "clear" => {
                self.clear();
                put_written(out, self)
            }
            _ => Err(Stop::Unknown),
        }
    }
}

impl Part for Other {
    fn make(call: &Call<'_>, out: &mut String) -> Result<Option<Self>, Stop> {
        match call.name {
            "try_from_str" => read_some(Self::try_from_str(call.alloc, call.first), out),
            "try_from_utf8" => read_some(Self::try_from_utf8(call.alloc, call.bytes), out),
            _ => Ok(None),
        }
    }

    fn answer(
        &mut self,
        other: Option<&Self>,
        call: &Call<'_>,
        out: &mut String,
    ) -> Result<(), Stop> {
        match call.name {
            "total_cmp" => put_debug(out, &self.total_cmp(second(other)?)),
            "try_clone" => put_copy(self, self.try_clone(), out),
            "get_ext" => put_debug(out, &self.get_ext()),
            "get_ext_byte" => put(out, &self.get_ext_byte()),
            "get_ext_str" => put_text(out, self.get_ext_str()),
            "as_slice" => put_joined(out, self.as_slice()),
            "clear_total_cmp" => {
                let mut other = self.try_clone()?;
                other.clear();
                let is_empty = other.is_empty();
                let order = other.total_cmp(self);
                drop(other);
                Ok(write!(out, "{is_empty} {order:?}")?)
            }
            "is_empty" => put(out, &self.is_empty()),
            "clear" => {
                self.clear();
                put_written(out, self)
            }
            _ => Err(Stop::Unknown),
        }
    }
}

// The extensions of a tag.
fn of_tag(tag: Result<Locale, ParseError>, out: &mut String) -> Result<Option<Extensions>, Stop> {
    let Locale { id, extensions } = read(tag, out)?;
    drop(id);
    Ok(Some(extensions))
}

/// Extensions are read of a whole tag.
impl Part for Extensions {
    fn make(call: &Call<'_>, out: &mut String) -> Result<Option<Self>, Stop> {
        match call.name {
            "try_from_str" => of_tag(Locale::try_from_str(call.alloc, call.first), out),
            "try_from_utf8" => of_tag(Locale::try_from_utf8(call.alloc, call.bytes), out),
            "new" => Ok(Some(Self::new(call.alloc))),
            "from_unicode" => {
                let unicode = read(Unicode::try_from_str(call.alloc, call.first), out)?;
                Ok(Some(Self::from_unicode(call.alloc, unicode)))
            }
            _ => Ok(None),
        }
    }

    fn answer(
        &mut self,
        other: Option<&Self>,
        call: &Call<'_>,
        out: &mut String,
    ) -> Result<(), Stop> {
        match call.name {
            "total_cmp" => return put_debug(out, &self.total_cmp(second(other)?)),
            "try_clone" => return put_copy(self, self.try_clone(), out),
            "is_empty" => return put(out, &self.is_empty()),
            "push" => push_others(&mut self.other, call, out)?,
            "retain_by_type" => retain(self, call.second)?,
            "clear" => self.clear(),
            _ => return Err(Stop::Unknown),
        }
        put_written(out, self)
    }
}

// Keeps `u` alone, or all but `a`.
fn retain(extensions: &mut Extensions, what: &str) -> Result<(), Stop> {
    let keeps_most = match what {
        "u" => false,
        "not a" => true,
        _ => return Err(Stop::Unknown),
    };
    extensions.retain_by_type(|kind| match kind {
        ExtensionType::Unicode => true,
        ExtensionType::Other(97) => false,
        _ => keeps_most,
    });
    Ok(())
}

/// Pushes the other extensions that the second argument has between spaces, of which a singleton alone is an emptied
/// one.
pub fn push_others(others: &mut Vec<Other>, call: &Call<'_>, out: &mut String) -> Result<(), Stop> {
    for text in call.second.split_whitespace() {
        push(others, other_of(call.alloc, text, out)?)?;
    }
    Ok(())
}

// The extension of a text; of a singleton alone, the one without a piece.
fn other_of(alloc: Global, text: &str, out: &mut String) -> Result<Other, Stop> {
    if text.len() > 1 {
        return read(Other::try_from_str(alloc, text), out);
    }
    let whole = format!(in alloc; "{text}-foo")?;
    let other = Other::try_from_str(alloc, whole.as_str());
    drop(whole);
    let mut other = read(other, out)?;
    other.clear();
    Ok(other)
}
