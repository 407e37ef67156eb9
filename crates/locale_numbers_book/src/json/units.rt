//! The units of a book, which may have none.

ghost use Rattle.std.specs.Prelude.{◌≡◌, true, IfOk, IfErr, IsErrOf, OnOk, None, option_map};
ghost use Rattle.locale_numbers_tables.specs.Telling.{IsTold};
ghost use Rattle.locale_numbers_book.specs.Arrays.{units_fault_in, units_may_grow_in, value_of_units};
ghost use Rattle.locale_numbers_book.specs.Book.{HasUnits};

use locale_numbers_tables::{BookError, Seed};
use locale_numbers_units::{UnitArrays, Units};
use std::alloc::Global;

/// The units of arrays that may be missing, their tables hashed by this seed: without arrays there are none.
pub fn units_in(
    alloc: Global,
    seed: Seed,
    arrays: Option<UnitArrays>,
) -> Result<Option<Units>, BookError>
    ensures value { IfOk result (HasUnits (option_map value_of_units arrays)) }
    ensures sound { OnOk result (units_fault_in arrays ≡ None) }
    ensures fault { IfErr result (λ fault. IsTold (units_fault_in arrays) fault) }
    ensures room { IsErrOf result BookError.Memory → units_may_grow_in arrays ≡ true }
{
    let Some(arrays) = arrays else {
        return Ok(None);
    };
    match Units::from_arrays(alloc, seed, arrays) {
        Ok(units) => Ok(Some(units)),
        Err(fault) => Err(fault),
    }
}
