//! What a handle has open, shared: any number of threads use it at once, for the rest of the run.

ghost use Rattle.std.specs.Prelude.{◌≡◌, None, IsSome};
ghost use Rattle.legumeyet_c.specs.Opening.{IsClosing};

use crate::content::{Content, ContentKind};
use crate::handle::Handle;
use crate::lent::SharedHandle;
use legumeyet_c_values::CallError;
use std::alloc::Global;

// Makes what a content would else make at its first calls, since nobody writes to it once it is shared.
fn prepare(alloc: Global, content: &mut Content)
    ensures { content.new ≡ content.old }
{
    match content {
        Content::Formatter(held) => {
            held.keep_exact_reader(alloc);
            held.keep_typed_reader(alloc)
        }
        Content::Book(_) | Content::Kept(_) | Content::Answers(_) | Content::Nothing => (),
    }
}

// Shares what a handle has open, and leaves the handle closed. `Closed`: it was closed already, or has a content of
// another kind, which it keeps.
pub(crate) fn share<T: ContentKind>(
    alloc: Global,
    handle: &mut Handle,
    shared: &mut SharedHandle,
) -> Result<(), CallError>
    ensures value { IsSome (T.open_in handle.old.pointer.value) → shared.new.lent.value ≡ handle.old.pointer.value }
    ensures gone { IsSome (T.open_in handle.old.pointer.value) → handle.new.pointer.value ≡ None }
    ensures told { IsClosing (T.open_in handle.old.pointer.value) result }
    ensures same { T.open_in handle.old.pointer.value ≡ None → handle.new.pointer.value ≡ handle.old.pointer.value }
    ensures unshared { T.open_in handle.old.pointer.value ≡ None → shared.new.lent.value ≡ shared.old.lent.value }
{
    let Some(mut content) = handle.take(alloc) else {
        return Err(CallError::Closed);
    };
    if T::of_content(&content).is_none() {
        handle.put(alloc, content);
        return Err(CallError::Closed);
    }
    prepare(alloc, &mut content);
    *shared = SharedHandle::of(Box::leak(content));
    Ok(())
}

// Closes a shared handle; what it had stays. `Closed`: it was closed already, or has a content of another kind, which
// it keeps.
pub(crate) fn close_shared<T: ContentKind>(shared: &mut SharedHandle) -> Result<(), CallError>
    ensures closed { T.open_in shared.new.lent.value ≡ None }
    ensures gone { IsSome (T.open_in shared.old.lent.value) → shared.new.lent.value ≡ None }
    ensures told { IsClosing (T.open_in shared.old.lent.value) result }
    ensures same { T.open_in shared.old.lent.value ≡ None → shared.new.lent.value ≡ shared.old.lent.value }
{
    let is_open = match shared.content() {
        Some(content) => T::of_content(content).is_some(),
        None => false,
    };
    if !is_open {
        return Err(CallError::Closed);
    }
    *shared = SharedHandle::closed();
    Ok(())
}
