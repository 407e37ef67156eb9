//! Handles opened and closed.

ghost use Rattle.std.specs.Prelude.{◌≡◌, None, IsSome};
ghost use Rattle.legumeyet_c.specs.Opening.{IsClosing, IsOpening};

use crate::content::ContentKind;
use crate::handle::Handle;
use legumeyet_c_values::CallError;
use std::alloc::Global;

// Puts a content into a handle, and closes what it had open, of whatever kind. The error that is given: out of
// memory.
pub(crate) fn put_after<T: ContentKind>(
    alloc: Global,
    handle: &mut Handle,
    held: T,
    fault: CallError,
) -> Result<(), CallError>
    ensures { IsOpening T.open_in (λ opened. opened ≡ held) (λ error. error ≡ fault) handle.old.pointer.value
        handle.new.pointer.value result }
{
    match Box::new(alloc, held.into_content()) {
        Ok(content) => {
            handle.put(alloc, content);
            Ok(())
        }
        Err(_) => Err(fault),
    }
}

// Closes a handle. `Closed`: it was closed already, or has a content of another kind, which it keeps.
pub(crate) fn close<T: ContentKind>(alloc: Global, handle: &mut Handle) -> Result<(), CallError>
    ensures closed { T.open_in handle.new.pointer.value ≡ None }
    ensures gone { IsSome (T.open_in handle.old.pointer.value) → handle.new.pointer.value ≡ None }
    ensures told { IsClosing (T.open_in handle.old.pointer.value) result }
    ensures same { T.open_in handle.old.pointer.value ≡ None → handle.new.pointer.value ≡ handle.old.pointer.value }
{
    let Some(content) = handle.take(alloc) else {
        return Err(CallError::Closed);
    };
    if T::of_content(&content).is_none() {
        handle.put(alloc, content);
        return Err(CallError::Closed);
    }
    drop(content);
    Ok(())
}
