//! What an entry of an array says.

ghost use Rattle.std.specs.Prelude.{◌≡◌, true, Bool, IfOk, IsErrOf, IfErr, OnOk, Option, Some, None};
ghost use Rattle.serde_json.specs.Data.{Data};
ghost use Rattle.serde_json.specs.View.{view};
ghost use Rattle.locale_numbers_tables.specs.Telling.{IsTold};

use crate::BookError;
use serde_json::Value;
use std::alloc::Global;
use std::hash::Hash;

/// What is in an array of a book, each one in an entry and under a key.
pub trait Entry: Drop {
    ghost use Rattle.locale_numbers_faults.specs.declared.BookError.{BookError};

    type Key: Eq + Hash + Drop;

    // What an entry says, under which key, and what is wrong with it.
    ghost meaning: { Data → Option (Self.Key × Self) };

    ghost key_in: { Data → Option Self.Key };

    ghost fault_in: { Data → Option BookError };

    // Whether an entry may be reported as out of memory.
    ghost may_grow: { Data → Bool };

    /// What an entry says, with its key.
    fn read(alloc: Global, entry: &Value) -> Result<(Self::Key, Self), BookError>
        ensures value { IfOk result (λ pair. meaning (view entry.now) ≡ Some pair) }
        ensures key { IfOk result (λ pair. key_in (view entry.now) ≡ Some pair.0) }
        ensures sound { OnOk result (fault_in (view entry.now) ≡ None) }
        ensures fault { IfErr result (λ fault. IsTold (fault_in (view entry.now)) fault) }
        ensures grows { OnOk result (may_grow (view entry.now) ≡ true) }
        ensures room { IsErrOf result BookError.Memory → may_grow (view entry.now) ≡ true };
}
