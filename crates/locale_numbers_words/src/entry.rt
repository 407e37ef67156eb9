//! What an entry of an array of words says.

ghost use Rattle.std.specs.Prelude.{◌≡◌, Bool, IfErr, IfOk, IsErrOf, OnOk, Option, Some, None, true};
ghost use Rattle.serde_json.specs.Data.{Data};
ghost use Rattle.serde_json.specs.View.{view};
ghost use Rattle.locale_numbers_words.specs.Entries.{locale_key, tagged_fault};
ghost use Rattle.locale_numbers_words.specs.Faults.{IsTold, said_fault};

use crate::error::WordsError;
use crate::plain::is_plain;
use icu_locale_core::DataLocale;
use locale_numbers_tables::Seed;
use locale_numbers_tables::fields::locale;
use serde_json::Value;
use std::alloc::Global;
use std::hash::Hash;

// An array of words: the keys of its entries, and what is under them.
pub(crate) trait WordArray {
    ghost use Rattle.locale_numbers_words.specs.declared.error.WordsError.{WordsError};

    // The keys.
    type Key: Eq + Hash + Drop;

    // What is under a key.
    type Said: Drop;

    // The key of an entry, what it says, and what is wrong with it where an earlier entry says this under its key.
    ghost key_in: { Data → Option Self.Key };

    ghost said_in: { Data → Option Self.Said };

    ghost fault_in: { Option Self.Said → Data → Option WordsError };

    // When two say the same.
    ghost same_said: { Self.Said → Self.Said → Bool };

    // The fault of an entry that has none of a lower number than a duplicate, and says nothing.
    ghost late: { WordsError };

    // Whether an entry may be reported as out of memory.
    ghost may_grow: { Data → Bool };

    fn late() -> WordsError
        ensures { result ≡ late };

    fn is_same(one: &Self::Said, other: &Self::Said) -> bool
        ensures { result ≡ same_said one.now other.now };

    // The key of an entry that has no fault of a lower number than a duplicate, and what it says.
    fn read(
        alloc: Global,
        seed: Seed,
        entry: &Value,
    ) -> Result<(Self::Key, Option<Self::Said>), WordsError>
        ensures key { IfOk result (λ pair. key_in (view entry.now) ≡ Some pair.0) }
        ensures said { IfOk result (λ pair. said_in (view entry.now) ≡ pair.1) }
        ensures late { IfOk result
            (λ pair. (earlier : Option Self.Said)
            → fault_in earlier (view entry.now) ≡ said_fault same_said late earlier pair.1) }
        ensures fault { IfErr result
            (λ fault. (earlier : Option Self.Said) → IsTold (fault_in earlier (view entry.now)) fault) }
        ensures grows { OnOk result (may_grow (view entry.now) ≡ true) }
        ensures room { IsErrOf result WordsError.Memory → may_grow (view entry.now) ≡ true };
}

// The locale of an entry that has the right shape, or what is wrong with its locale and its texts.
pub(crate) fn tagged(alloc: Global, entry: &Value) -> Result<DataLocale, WordsError>
    ensures key { IfOk result (λ locale. locale_key (view entry.now) ≡ Some locale) }
    ensures sound { OnOk result (tagged_fault (view entry.now) ≡ None) }
    ensures fault { IfErr result (λ fault. IsTold (tagged_fault (view entry.now)) fault) }
{
    let Ok(found) = locale(alloc, entry, 0) else {
        return Err(WordsError::Memory);
    };
    let Some(locale) = found else {
        return Err(WordsError::Tag);
    };
    if is_plain(entry) {
        Ok(locale)
    } else {
        Err(WordsError::Text)
    }
}
