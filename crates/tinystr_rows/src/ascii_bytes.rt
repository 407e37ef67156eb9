//! The constants of `AsciiByte`.

use crate::writing::put_ascii_bytes;
use rows::{Stop, number_of};
use tinystr::AsciiByte as Byte;

// The constants below 32, by fours.
const CONTROLS: [[Byte; 4]; 8] = [
    [Byte::B0, Byte::B1, Byte::B2, Byte::B3],
    [Byte::B4, Byte::B5, Byte::B6, Byte::B7],
    [Byte::B8, Byte::B9, Byte::B10, Byte::B11],
    [Byte::B12, Byte::B13, Byte::B14, Byte::B15],
    [Byte::B16, Byte::B17, Byte::B18, Byte::B19],
    [Byte::B20, Byte::B21, Byte::B22, Byte::B23],
    [Byte::B24, Byte::B25, Byte::B26, Byte::B27],
    [Byte::B28, Byte::B29, Byte::B30, Byte::B31],
];

// Those from 32 on, below 64.
const SIGNS: [[Byte; 4]; 8] = [
    [Byte::B32, Byte::B33, Byte::B34, Byte::B35],
    [Byte::B36, Byte::B37, Byte::B38, Byte::B39],
    [Byte::B40, Byte::B41, Byte::B42, Byte::B43],
    [Byte::B44, Byte::B45, Byte::B46, Byte::B47],
    [Byte::B48, Byte::B49, Byte::B50, Byte::B51],
    [Byte::B52, Byte::B53, Byte::B54, Byte::B55],
    [Byte::B56, Byte::B57, Byte::B58, Byte::B59],
    [Byte::B60, Byte::B61, Byte::B62, Byte::B63],
];

// Those from 64 on, below 96.
const CAPITALS: [[Byte; 4]; 8] = [
    [Byte::B64, Byte::B65, Byte::B66, Byte::B67],
    [Byte::B68, Byte::B69, Byte::B70, Byte::B71],
    [Byte::B72, Byte::B73, Byte::B74, Byte::B75],
    [Byte::B76, Byte::B77, Byte::B78, Byte::B79],
    [Byte::B80, Byte::B81, Byte::B82, Byte::B83],
    [Byte::B84, Byte::B85, Byte::B86, Byte::B87],
    [Byte::B88, Byte::B89, Byte::B90, Byte::B91],
    [Byte::B92, Byte::B93, Byte::B94, Byte::B95],
];

// Those from 96 on.
const SMALL: [[Byte; 4]; 8] = [
    [Byte::B96, Byte::B97, Byte::B98, Byte::B99],
    [Byte::B100, Byte::B101, Byte::B102, Byte::B103],
    [Byte::B104, Byte::B105, Byte::B106, Byte::B107],
    [Byte::B108, Byte::B109, Byte::B110, Byte::B111],
    [Byte::B112, Byte::B113, Byte::B114, Byte::B115],
    [Byte::B116, Byte::B117, Byte::B118, Byte::B119],
    [Byte::B120, Byte::B121, Byte::B122, Byte::B123],
    [Byte::B124, Byte::B125, Byte::B126, Byte::B127],
];

/// Writes four constants, those from a number on that 4 divides.
pub fn answer(call: &str, first: &str, out: &mut String) -> Result<(), Stop> {
    match four_from(number_of(first)?) {
        Some(four) if call == "constants" => put_ascii_bytes(out, &four),
        _ => Err(Stop::Unknown),
    }
}

fn four_from(first: usize) -> Option<[Byte; 4]> {
    let place = first % 32 / 4;
    match first / 32 {
        0 => four_at(&CONTROLS, place),
        1 => four_at(&SIGNS, place),
        2 => four_at(&CAPITALS, place),
        3 => four_at(&SMALL, place),
        _ => None,
    }
}

fn four_at(table: &[[Byte; 4]; 8], place: usize) -> Option<[Byte; 4]> {
    table.get(place).copied()
}
