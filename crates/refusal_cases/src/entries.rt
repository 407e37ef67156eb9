//! Values, keywords, fields, and the extension `u`.

use crate::case::Case;
use crate::change::{Argument, Change, Receiver, answer as changed};
use crate::sets::subtag;
use icu_locale_core::extensions::transform::Fields;
use icu_locale_core::extensions::unicode::{Keywords, Unicode, Value};
use icu_locale_core::subtags::{Subtag, SubtagOf};
use icu_locale_core_keywords_fields::{EntriesOf, EntryKind, ValueOf};
use rows::{Stop, put_last};
use std::alloc::{AllocError, Global};

/// The answer of a call of these types.
pub fn answer(case: Case<'_>, out: &mut String) -> Result<(), Stop> {
    match case.call {
        "Value::push_subtag" => changed::<Value>(case, out),
        "Keywords::set" => changed::<Keywords>(case, out),
        "Fields::set" => changed::<Fields>(case, out),
        "Keywords::extend_from_keywords" => changed::<ExtendKeywords>(case, out),
        "Unicode::extend" => changed::<Unicode>(case, out),
        _ => Err(Stop::Unknown),
    }
}

// ---- a value, which stands for its call `push_subtag`

impl<K: EntryKind> Receiver for ValueOf<K> {
    fn read(alloc: Global, field: &str) -> Result<ValueOf<K>, Stop> {
        match ValueOf::try_from_str(alloc, field) {
            Ok(value) => Ok(value),
            Err(_) => Err(Stop::Unknown),
        }
    }

    fn show(self, out: &mut String) -> Result<(), Stop> {
        put_last(out, self)
    }
}

impl<K: EntryKind> Change for ValueOf<K> {
    type Receiver = ValueOf<K>;

    type Argument = Subtag;

    fn make(_alloc: Global, value: &mut ValueOf<K>, subtag: Subtag) -> Result<(), AllocError> {
        value.push_subtag(subtag)
    }
}

// ---- a map, which stands for its call `set`

/// A key and its value.
#[derive(Drop)]
pub struct Entry<K: EntryKind> {
    key: SubtagOf<K, 2>,
    value: ValueOf<K>,
}

impl<K: EntryKind> Argument for Entry<K> {
    fn read(alloc: Global, field: &str) -> Result<Entry<K>, Stop> {
        let Some((key, value)) = field.split_once('-') else {
            return Err(Stop::Unknown);
        };
        let key = subtag(key)?;
        match ValueOf::try_from_str(alloc, value) {
            Ok(value) => Ok(Entry { key, value }),
            Err(_) => Err(Stop::Unknown),
        }
    }
}

impl<K: EntryKind> Receiver for EntriesOf<K> {
    fn read(alloc: Global, field: &str) -> Result<EntriesOf<K>, Stop> {
        match EntriesOf::try_from_str(alloc, field) {
            Ok(map) => Ok(map),
            Err(_) => Err(Stop::Unknown),
        }
    }

    fn show(self, out: &mut String) -> Result<(), Stop> {
        put_last(out, self)
    }
}

impl<K: EntryKind> Change for EntriesOf<K> {
    type Receiver = EntriesOf<K>;

    type Argument = Entry<K>;

    fn make(_alloc: Global, map: &mut EntriesOf<K>, entry: Entry<K>) -> Result<(), AllocError> {
        let Entry { key, value } = entry;
        drop(map.set(key, value)?);
        Ok(())
    }
}

struct ExtendKeywords;

impl Argument for Keywords {
    fn read(alloc: Global, field: &str) -> Result<Keywords, Stop> {
        <Keywords as Receiver>::read(alloc, field)
    }
}

impl Change for ExtendKeywords {
    type Receiver = Keywords;

    type Argument = Keywords;

    fn make(_alloc: Global, map: &mut Keywords, other: Keywords) -> Result<(), AllocError> {
        map.extend_from_keywords(other)
    }
}

// ---- the extension `u`, which stands for its call `extend`

impl Receiver for Unicode {
    fn read(alloc: Global, field: &str) -> Result<Unicode, Stop> {
        if field.is_empty() {
            return Ok(Unicode::new(alloc));
        }
        match Unicode::try_from_str(alloc, field) {
            Ok(unicode) => Ok(unicode),
            Err(_) => Err(Stop::Unknown),
        }
    }

    fn show(self, out: &mut String) -> Result<(), Stop> {
        put_last(out, self)
    }
}

impl Argument for Unicode {
    fn read(alloc: Global, field: &str) -> Result<Unicode, Stop> {
        <Unicode as Receiver>::read(alloc, field)
    }
}

impl Change for Unicode {
    type Receiver = Unicode;

    type Argument = Unicode;

    fn make(_alloc: Global, unicode: &mut Unicode, other: Unicode) -> Result<(), AllocError> {
        unicode.extend(other)
    }
}
