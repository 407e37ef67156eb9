//! Parts as C has them.

ghost use Rattle.std.specs.Prelude.{◌≡◌, map};
ghost use Rattle.legumeyet_c_values.specs.Parts.{kind_of, listed_as, over};

use writeable::Part;

/// A part of a text, by bytes: `legumeyet_interval`. That of the minus sign of `-1,234.5` is 0, 1 and 1.
#[repr(C)]
#[derive(Clone, Copy, Drop)]
pub struct Interval {
    /// Its first byte.
    pub start: usize,
    /// The byte after its last one.
    pub end: usize,
    /// What it is: 1 a minus sign.
    pub kind: u32,
}

// The number of what a part is.
fn kind_by(name: &str) -> u32
    ensures { result ≡ kind_of name.now }
{
    let name = name.as_bytes();
    if name == b"minusSign".as_slice() {
        1
    } else if name == b"plusSign".as_slice() {
        2
    } else if name == b"integer".as_slice() {
        3
    } else if name == b"group".as_slice() {
        4
    } else if name == b"decimal".as_slice() {
        5
    } else if name == b"fraction".as_slice() {
        6
    } else if name == b"currency".as_slice() {
        7
    } else if name == b"percentSign".as_slice() {
        8
    } else if name == b"exponentSeparator".as_slice() {
        9
    } else if name == b"exponentMinusSign".as_slice() {
        10
    } else if name == b"exponentPlusSign".as_slice() {
        11
    } else if name == b"exponentInteger".as_slice() {
        12
    } else {
        0
    }
}

// A listed part as C has it.
fn interval_by(listed: (usize, usize, Part)) -> Interval
    ensures { result ≡ listed_as listed }
{
    let (start, end, part) = listed;
    Interval {
        start,
        end,
        kind: kind_by(part.value),
    }
}

// Lists parts at the front of the caller's intervals, as many as have room there; those after them stay as they were.
pub(crate) fn list_parts(parts: &[(usize, usize, Part)], intervals: &mut [Interval])
    ensures { intervals.new ≡ over (map listed_as parts.now) intervals.old }
{
    let count = parts.len().min(intervals.len());
    for index in 0..count {
        intervals[index] = interval_by(parts[index]);
    }
}
