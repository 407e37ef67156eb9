//! A call that changes its receiver, and what that is then.

use crate::case::Case;
use rows::{Stop, put_text};
use std::alloc::{AllocError, Global};

/// The capacity of an answer in bytes before the call, so that it is not allocated after it.
pub const ROOM: usize = 256;

/// A receiver, as a row spells it.
pub trait Receiver {
    /// The receiver that the field spells; `Stop::Unknown` where it spells none.
    fn read(alloc: Global, field: &str) -> Result<Self, Stop>;

    /// Writes it as a field spells it, and lets it go.
    fn show(self, out: &mut String) -> Result<(), Stop>;
}

/// An argument, as a row spells it.
pub trait Argument {
    /// The argument that the field spells; `Stop::Unknown` where it spells none.
    fn read(alloc: Global, field: &str) -> Result<Self, Stop>;
}

/// A call that changes its receiver, or is refused memory. A type that holds nothing stands for the call.
pub trait Change {
    /// What it changes.
    type Receiver;
    /// What it is passed.
    type Argument;

    /// Makes the call; `AllocError` where it is refused memory.
    fn make(
        alloc: Global,
        receiver: &mut Self::Receiver,
        argument: Self::Argument,
    ) -> Result<(), AllocError>;
}

/// Answers the call of a row: the receiver after it, as `nu-latn`, or `refused` and then the receiver.
pub fn answer<C: Change>(case: Case<'_>, out: &mut String) -> Result<(), Stop>
where
    C::Receiver: Receiver + Drop,
    C::Argument: Argument + Drop,
{
    let alloc = *out.allocator();
    out.reserve(ROOM)?;
    let argument = C::Argument::read(alloc, case.argument)?;
    let receiver = C::Receiver::read(alloc, case.receiver)?;
    made::<C>(case, receiver, argument, out)
}

// Makes the call, and shows what is left.
fn made<C: Change>(
    case: Case<'_>,
    mut receiver: C::Receiver,
    argument: C::Argument,
    out: &mut String,
) -> Result<(), Stop>
where
    C::Receiver: Receiver + Drop,
    C::Argument: Argument + Drop,
{
    case.begin();
    let said = match C::make(*out.allocator(), &mut receiver, argument) {
        Ok(()) => Ok(()),
        Err(_) => put_text(out, "refused "),
    };
    let shown = receiver.show(out);
    said?;
    shown
}
