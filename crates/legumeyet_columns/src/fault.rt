//! Why a table is not written to its end.

use std::io;

/// Why a table is not written to its end.
#[derive(Clone, Copy, Debug)]
pub enum TableFault {
    /// A read failed, or was out of memory.
    Read(io::Error),
    /// A write failed.
    Write(io::Error),
    /// Out of memory.
    Memory,
    /// A quote in the record of this number does not end within [`LONGEST`](crate::LONGEST) bytes.
    Long(u64),
}
