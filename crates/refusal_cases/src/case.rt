//! A row, and the read that is before its call.

use std::io::Read;

/// A row: its call, its receiver and its argument as texts.
#[derive(Clone, Copy)]
pub struct Case<'a> {
    pub rt: &'a HostRuntime,
    pub call: &'a str,
    pub receiver: &'a str,
    pub argument: &'a str,
}

impl Case<'_> {
    /// Reads once more, so that a library before the C library knows that the call comes now; what is read does not
    /// matter.
    pub fn begin(&self) {
        let mut byte = [0u8; 1];
        let _count = self.rt.stdin().read(&mut byte);
    }
}
