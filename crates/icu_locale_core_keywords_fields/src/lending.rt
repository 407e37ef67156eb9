//! A value of a map for writing.

ghost use Rattle.std.specs.Prelude.{◌≡◌, Some};
ghost use Rattle.std.specs.Borrow.{sem};
ghost use Rattle.std.specs.Option.{option_copied_mut};
ghost use Rattle.icu_locale_core_grammar.specs.Collections.{value_at};
ghost use Rattle.icu_locale_core_keywords_fields.specs.Lends.{lends_value, lends_get};
ghost use Rattle.icu_locale_core_keywords_fields.specs.Places.{IsFoundAt};

use crate::entries::EntriesOf;
use crate::kind::EntryKind;
use crate::value::ValueOf;
use icu_locale_core_subtags::SubtagOf;

impl<K: EntryKind> EntriesOf<K> {
    // The value at the place of a key, for writing.
    fn value_at_mut(&mut self, key: &SubtagOf<K, 2>, place: usize) -> &mut ValueOf<K>
        requires { IsFoundAt key.now self.old place }
        ensures* writes_back { sem 𝓛 (lends_value K.row K.needs K.SubtagRule self.entry key.now result) }
        ensures value { Some result.now ≡ value_at key.now self.old }
    {
        let entry = &mut self.entries[place];
        &mut entry.1
    }

    /// The value of a key for writing, if the map has the key; what is written there is set at the key.
    ///
    /// Of `nu-thai` at `nu` it is `thai`, and `abc` pushed there leaves `nu-thai-abc`; at `ca` there is none. It does
    /// not allocate.
    pub fn get_mut(&mut self, key: &SubtagOf<K, 2>) -> Option<&mut ValueOf<K>>
        ensures* writes_back { sem 𝓛 (lends_get K.row K.needs K.SubtagRule self.entry key.now result) }
        ensures value { option_copied_mut result ≡ value_at key.now self.old }
    {
        match self.place_of(key) {
            Ok(place) => Some(self.value_at_mut(key, place)),
            Err(_) => None,
        }
    }
}
