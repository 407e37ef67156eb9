//! The shared handle, as C has it.

use crate::lent::SharedHandle;

/// A formatter of numbers in any format that any number of threads use at once, or a closed handle:
/// `legumeyet_shared_formatter`.
#[repr(C)]
#[derive(Drop)]
pub struct SharedFormatterHandle {
    /// What it shows.
    pub handle: SharedHandle,
}
