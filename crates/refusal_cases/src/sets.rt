//! Sets and lists of subtags.

use crate::case::Case;
use crate::change::{Argument, Change, Receiver, answer as changed};
use icu_locale_core::extensions::private::{Private, Subtag};
use icu_locale_core::extensions::unicode::Attributes;
use icu_locale_core::subtags::{SubtagOf, SubtagRule, Variants};
use icu_locale_core_subtag_lists::SubtagSet;
use rows::{Stop, filled, put_last};
use std::alloc::{AllocError, Global};

/// The answer of a call of these types.
pub fn answer(case: Case<'_>, out: &mut String) -> Result<(), Stop> {
    match case.call {
        "Variants::push" => changed::<Variants>(case, out),
        "Attributes::push" => changed::<Attributes>(case, out),
        "Attributes::extend_from_attributes" => changed::<ExtendAttributes>(case, out),
        "Private::push" => changed::<Private>(case, out),
        _ => Err(Stop::Unknown),
    }
}

/// The subtag that a text spells.
pub fn subtag<R: SubtagRule<N>, const N: usize>(text: &str) -> Result<SubtagOf<R, N>, Stop> {
    match SubtagOf::try_from_str(text) {
        Ok(subtag) => Ok(subtag),
        Err(_) => Err(Stop::Unknown),
    }
}

impl<R: SubtagRule<8>> Argument for SubtagOf<R, 8> {
    fn read(_alloc: Global, field: &str) -> Result<SubtagOf<R, 8>, Stop> {
        subtag(field)
    }
}

// Puts the subtags between hyphens into a set.
fn push_all<R: SubtagRule<8>>(set: &mut SubtagSet<R>, field: &str) -> Result<(), Stop> {
    for text in field.split('-') {
        set.push(subtag(text)?)?;
    }
    Ok(())
}

// The set of the subtags between hyphens.
fn set_of<R: SubtagRule<8>>(alloc: Global, field: &str) -> Result<SubtagSet<R>, Stop> {
    let mut set = SubtagSet::new(alloc);
    if field.is_empty() {
        return Ok(set);
    }
    let pushed = push_all(&mut set, field);
    filled(set, pushed)
}

impl<R: SubtagRule<8>> Receiver for SubtagSet<R> {
    fn read(alloc: Global, field: &str) -> Result<SubtagSet<R>, Stop> {
        set_of(alloc, field)
    }

    fn show(self, out: &mut String) -> Result<(), Stop> {
        put_last(out, self)
    }
}

// A set stands for its call `push`.
impl<R: SubtagRule<8>> Change for SubtagSet<R> {
    type Receiver = SubtagSet<R>;

    type Argument = SubtagOf<R, 8>;

    fn make(
        _alloc: Global,
        set: &mut SubtagSet<R>,
        subtag: SubtagOf<R, 8>,
    ) -> Result<(), AllocError> {
        let _is_new = set.push(subtag)?;
        Ok(())
    }
}

impl Argument for Attributes {
    fn read(alloc: Global, field: &str) -> Result<Attributes, Stop> {
        set_of(alloc, field)
    }
}

struct ExtendAttributes;

impl Change for ExtendAttributes {
    type Receiver = Attributes;

    type Argument = Attributes;

    fn make(_alloc: Global, set: &mut Attributes, other: Attributes) -> Result<(), AllocError> {
        set.extend_from_attributes(other)
    }
}

impl Receiver for Private {
    fn read(alloc: Global, field: &str) -> Result<Private, Stop> {
        match Private::try_from_str(alloc, field) {
            Ok(private) => Ok(private),
            Err(_) => Err(Stop::Unknown),
        }
    }

    fn show(self, out: &mut String) -> Result<(), Stop> {
        put_last(out, self)
    }
}

// A list of private subtags stands for its call `push`.
impl Change for Private {
    type Receiver = Private;

    type Argument = Subtag;

    fn make(_alloc: Global, private: &mut Private, subtag: Subtag) -> Result<(), AllocError> {
        private.push(subtag)
    }
}
