//! Whether a value, and each value of a map, reads back from its text.

ghost use Rattle.std.specs.Prelude.{◌↔◌, IsTrue};
ghost use Rattle.std.specs.List.{AllByRecursion};
ghost use Rattle.icu_locale_core_grammar.specs.WellFormed.{IsNormalValue, AreNormalEntries};

use crate::entries::EntriesOf;
use crate::kind::EntryKind;
use crate::value::ValueOf;
use icu_locale_core_subtags::laws::subtags_are_words;

impl<K: EntryKind> ValueOf<K> {
    /// Whether each subtag has 3 to 8 characters, as those that are read have.
    ///
    /// True of `abc-def`, and false of `abc-de`, which can only be put together by hand. It does not allocate.
    pub fn is_well_formed(&self) -> bool
        ensures { IsTrue result ↔ AllByRecursion IsNormalValue self.now }
    {
        for subtag in self.as_subtags_slice() {
            subtags_are_words(subtag);
            if subtag.as_str().len() < 3 {
                return false;
            }
        }
        true
    }
}

impl<K: EntryKind> EntriesOf<K> {
    /// Whether each value is well-formed: true of `nu-thai`, and of every map that was read. It does not allocate.
    pub fn is_well_formed(&self) -> bool
        ensures { IsTrue result ↔ AreNormalEntries K.accepts self.now }
    {
        for (key, value) in self.as_slice() {
            subtags_are_words(key);
            if !value.is_well_formed() {
                return false;
            }
        }
        true
    }
}
