//! A guess at an unsigned text of digits `0` to `9` in threes, each separator one byte: nothing is claimed of it.

ghost use Rattle.std.specs.Prelude.{◌≡◌, ◌+◌, ◌≤◌, length, IsTrue};

use fixed_decimal::Decimal;
use std::alloc::{AllocError, Global};

// How many bytes are gathered at once.
const BLOCK: usize = 64;

// A text of more than a block is gathered only where more digits are in the first, for which memory may be allocated.
const FEW: usize = 16;

// How many bytes a text has at most: 32,768 digits in groups of three, a point, and as many digits after it.
const LONGEST: usize = 76459;

// The separators of a text.
#[derive(Clone, Copy)]
pub(crate) struct Separators {
    pub group: u8,
    pub point: u8,
}

// Whether the last three bytes are after a separator, and something before it.
fn is_grouped(whole: &[u8], group: u8) -> bool
    ensures { IsTrue result → 5 ≤ length whole.now }
{
    whole.len() > 4 && whole[whole.len() - 4] == group
}

// How many bytes are before the point.
fn whole_len(text: &[u8], separators: Separators) -> usize
    ensures { result ≤ length text.now }
{
    if is_grouped(text, separators.group) {
        return text.len();
    }
    let mut len = 0;
    while len < text.len() && text[len] != separators.point {
        len += 1;
    }
    len
}

// Puts the last three of each four bytes into a block, from a place on, and returns where they end.
fn put_threes(groups: &[u8], from: usize, block: &mut [u8; BLOCK]) -> usize
    requires { from + length groups.now ≤ 64 }
    ensures { result ≤ from + length groups.now }
{
    let mut at = 3;
    let mut to = from;
    while at < groups.len() {
        block[to] = groups[at - 2];
        block[to + 1] = groups[at - 1];
        block[to + 2] = groups[at];
        at += 4;
        to += 3;
    }
    to
}

// Puts the digits before the point to the front of a block, and returns how many they are.
fn put_whole(whole: &[u8], group: u8, block: &mut [u8; BLOCK]) -> usize
    requires { length whole.now ≤ 64 }
    ensures { result ≤ length whole.now }
{
    let len = whole.len();
    if !is_grouped(whole, group) {
        block[..len].copy_from_slice(whole);
        return len;
    }
    let first = len % 4;
    block[0] = whole[0];
    block[1] = whole[1];
    block[2] = whole[2];
    put_threes(&whole[first..], first, block)
}

// Puts a point, and the digits after it, into a block, from a place on, and returns where they end.
fn put_fraction(behind: &[u8], from: usize, block: &mut [u8; BLOCK]) -> usize
    requires { from + length behind.now ≤ 64 }
    ensures { result ≤ from + length behind.now }
{
    let Some((_, digits)) = behind.split_first() else {
        return from;
    };
    let to = from + 1 + digits.len();
    block[from] = b'.';
    block[from + 1..to].copy_from_slice(digits);
    to
}

// Makes a number that of a text of one block at most.
fn assign_short(number: &mut Decimal, whole: &[u8], behind: &[u8], group: u8) -> bool
    requires { length whole.now + length behind.now ≤ 64 }
{
    let mut block = [0; BLOCK];
    let count = put_whole(whole, group, &mut block);
    let end = put_fraction(behind, count, &mut block);
    number.assign_from_utf8(&block[..end]).is_ok()
}

// Whether there are more digits than a few.
fn has_many_digits(text: &[u8]) -> bool {
    let mut count = 0;
    for byte in text {
        if byte.is_ascii_digit() {
            count += 1;
        }
    }
    count > FEW
}

// Adds the last three of each four bytes.
fn push_threes(groups: &[u8], gathered: &mut Vec<u8>) -> Result<(), AllocError> {
    let mut block = [0; BLOCK];
    let mut left = groups;
    while !left.is_empty() {
        let (front, behind) = left.split_at(left.len().min(BLOCK));
        let count = put_threes(front, 0, &mut block);
        gathered.extend_from_slice(&block[..count])?;
        left = behind;
    }
    Ok(())
}

// Adds the digits before the point.
fn push_whole(whole: &[u8], group: u8, gathered: &mut Vec<u8>) -> Result<(), AllocError> {
    if !is_grouped(whole, group) {
        return gathered.extend_from_slice(whole);
    }
    let (front, groups) = whole.split_at(whole.len() % 4);
    gathered.extend_from_slice(front)?;
    push_threes(groups, gathered)
}

// The digits of a text, with a point between them, where there is room for so many.
fn gathered(
    alloc: Global,
    whole: &[u8],
    behind: &[u8],
    group: u8,
    room: usize,
) -> Result<Vec<u8>, AllocError> {
    let mut gathered = Vec::with_capacity(alloc, room)?;
    push_whole(whole, group, &mut gathered)?;
    if let Some((_, digits)) = behind.split_first() {
        gathered.push(b'.')?;
        gathered.extend_from_slice(digits)?;
    }
    Ok(gathered)
}

// Makes a number that of a text of more than one block, of which `len` bytes are before the point. The digits of the
// first block are counted, so that a text of few digits allocates nothing.
#[inline(never)]
fn assign_long(alloc: Global, number: &mut Decimal, text: &[u8], len: usize, group: u8) -> bool
    requires long { 64 ≤ length text.now }
    requires within { len ≤ length text.now }
{
    if text.len() > LONGEST || !has_many_digits(&text[..BLOCK]) {
        return false;
    }
    let (whole, behind) = text.split_at(len);
    match gathered(alloc, whole, behind, group, text.len()) {
        Ok(spelled) => number.assign_from_utf8(spelled.as_slice()).is_ok(),
        Err(_) => false,
    }
}

// Makes a number the one that a text without a sign most likely is, and returns whether there is one. A text that
// spells its number as it is is not gathered.
#[inline(always)]
pub(crate) fn assign_bytes(
    alloc: Global,
    number: &mut Decimal,
    text: &[u8],
    separators: Separators,
) -> bool {
    let group = separators.group;
    let len = whole_len(text, separators);
    let (whole, behind) = text.split_at(len);
    if !is_grouped(whole, group) && (behind.is_empty() || separators.point == b'.') {
        return number.assign_from_utf8(text).is_ok();
    }
    if text.len() <= BLOCK {
        assign_short(number, whole, behind, group)
    } else {
        assign_long(alloc, number, text, len, group)
    }
}
