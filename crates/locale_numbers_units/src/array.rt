//! What an entry of an array of units says.

ghost use Rattle.std.specs.Prelude.{◌≡◌, false, true, Bool, IfOk, IsErrOf, IfErr, OnOk, Option, Some, None};
ghost use Rattle.serde_json.specs.Data.{Data};
ghost use Rattle.serde_json.specs.View.{view};
ghost use Rattle.locale_numbers_tables.specs.Telling.{IsTold};
ghost use Rattle.locale_numbers_tables.specs.declared.BookError.{BookError};

use locale_numbers_tables::BookError;
use serde_json::Value;
use std::alloc::Global;
use std::hash::Hash;

/// An array of units: the keys of its entries, and what is under them.
pub trait UnitArray {
    ghost use Rattle.locale_numbers_tables.specs.declared.BookError.{BookError};

    /// The keys.
    type Key: Eq + Hash + Drop;

    /// What is under a key.
    type Said: Drop;

    // The key of an entry, what it says, and what is wrong with it where its key is new, and where it is not.
    ghost key_in: { Data → Option Self.Key };

    ghost said_in: { Data → Option Self.Said };

    ghost fault_in: { Bool → Data → Option BookError };

    // Whether an entry may be reported as out of memory.
    ghost may_grow: { Data → Bool };

    /// The key of an entry that has no fault of a lower number than a duplicate.
    fn read_key(alloc: Global, entry: &Value) -> Result<Self::Key, BookError>
        ensures key { IfOk result (λ key. key_in (view entry.now) ≡ Some key) }
        ensures sound { OnOk result (fault_in false (view entry.now) ≡ Some BookError.Duplicate) }
        ensures fault { IfErr result (λ fault. (is_new : Bool) → IsTold (fault_in is_new (view entry.now)) fault) }
        ensures grows { OnOk result (may_grow (view entry.now) ≡ true) }
        ensures room { IsErrOf result BookError.Memory → may_grow (view entry.now) ≡ true };

    /// What an entry says that has no fault of a lower number than a duplicate.
    fn read(alloc: Global, entry: &Value) -> Result<Self::Said, BookError>
        requires { fault_in false (view entry.now) ≡ Some BookError.Duplicate }
        ensures value { IfOk result (λ said. said_in (view entry.now) ≡ Some said) }
        ensures sound { OnOk result (fault_in true (view entry.now) ≡ None) }
        ensures fault { IfErr result (λ fault. IsTold (fault_in true (view entry.now)) fault) };
}
