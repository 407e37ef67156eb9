//! Laws of values and of maps: what holds of every one, and facts about the definitions, each proved as the contract of
//! a function that does nothing.

ghost use Rattle.icu_locale_core_grammar.specs.Collections.{Rises, keys_of};
ghost use Rattle.icu_locale_core_keywords_fields.specs.Laws.{SettingSetsOne, RemovalTakesOne, JoiningPrefersOne, ValuesReadBack, KeywordsReadBack, FieldsReadBack, EqualityTells};

use crate::entries::EntriesOf;
use crate::kind::EntryKind;

/// The keys of a map rise in byte order: none occurs twice. Those of `ca-buddhist-nu-thai` are `ca`, `nu`.
pub fn keys_rise<K: EntryKind>(map: &EntriesOf<K>)
    ensures { Rises (keys_of map.now) }
{
    let _entries = map.as_slice();
}

/// A map in which a value was set has it at its key, and at every other key what it had; its keys still rise.
/// `ca-buddhist-nu-thai` with `latn` set at `nu` has `latn` there, and `buddhist` at `ca`.
pub fn setting()
    ensures { SettingSetsOne }
{}

/// A map without a key has at every other key what it had; its keys still rise: `ca-buddhist-nu-thai` without `nu` has
/// `buddhist` at `ca`, and nothing at `nu`.
pub fn removal()
    ensures { RemovalTakesOne }
{}

/// Two maps joined have at each key the value of the first, or else of the second; the keys rise: `nu-latn` and
/// `ca-buddhist-nu-thai` have `buddhist` at `ca` and `latn` at `nu`.
pub fn joining()
    ensures { JoiningPrefersOne }
{}

/// A value that was read is in normal form, and the text of one in normal form reads back as it: `ABC-true` reads as
/// `abc`, and so does `abc`.
pub fn values_read_back()
    ensures { ValuesReadBack }
{}

/// Keywords that were read are in normal form, and the text of such reads back as them: `NU-thai-ca-coptic` reads as
/// `ca-coptic-nu-thai`, and so does this text.
pub fn keywords_read_back()
    ensures { KeywordsReadBack }
{}

/// Fields that were read are in normal form, and the text of such reads back as them: `M0-und-h0-hybrid` reads as
/// `h0-hybrid-m0-und`, and so does this text.
pub fn fields_read_back()
    ensures { FieldsReadBack }
{}

/// `==` of values and of maps is true exactly where they are one: `nu-thai` is `nu-thai`, and not `nu-latn`.
pub fn equality()
    ensures { EqualityTells }
{}
