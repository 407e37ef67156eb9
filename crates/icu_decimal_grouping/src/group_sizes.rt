//! How many digits each group has.

ghost use Rattle.std.specs.Prelude.{◌≡◌, ◌/◌, ◌%◌, ◌<◌, ◌≤◌, ◌++◌, length, replicate, sum, IfNone, IfSome};
ghost use Rattle.std.specs.Iterator.{YieldsFirst, item_count};
ghost use Rattle.icu_decimal_grouping.specs.Grouper.{cut_sizes, group_sizes};
ghost use Rattle.icu_decimal_grouping.specs.HeldSizes.{size_if};

use crate::grouper::{has_groups, size_before};
use icu_decimal_symbols::GroupingSizes;
use icu_decimal_symbols::options::GroupingStrategy;
use std::iter::FusedIterator;
use std::marker::Model;
use std::mem;

/// How many digits are put together at once: 48. Groups of one, two, three and four digits fill it.
pub const CHUNK: usize = 48;

/// How many digits each group has, from the first to the last: with the sizes 3, 2, 1 those of ten digits have 1, 2, 2, 2
/// and 3.
///
/// It does not allocate. Source: UTS 35, part 3 (numbers), grouping of number patterns.
#[derive(Debug, Drop)]
pub struct GroupSizes {
    first: u16,
    middles: u16,
    middle: u8,
    last: u8,
}

impl Model for GroupSizes {
    ghost use Rattle.std.specs.Prelude.{ℕ, List};
    ghost use Rattle.icu_decimal_grouping.specs.HeldSizes.{sizes_held};

    ghost Value = { List ℕ };

    ghost view = { λ s. sizes_held s.first s.middles s.middle s.last };
}

impl GroupSizes {
    /// The groups of `digits` digits, of which there is one at least: with the sizes 3, 2, 1 and `Auto` those of six
    /// have 1, 2 and 3, with `Never` there is one of 6. It does not allocate.
    pub fn of(digits: u16, strategy: GroupingStrategy, sizes: GroupingSizes) -> Self
        requires { 0 < digits }
        ensures { result ≡ group_sizes strategy sizes digits }
    {
        if !has_groups(digits, strategy, sizes) {
            return GroupSizes {
                first: digits,
                middles: 0,
                middle: 0,
                last: 0,
            };
        }
        cut(digits, sizes.primary, size_before(sizes))
    }

    /// The groups of `digits` digits, cut after each chunk: those of 100 have 48, 48 and 4. It does not allocate.
    pub fn chunks(digits: u16) -> Self
        ensures cut { result ≡ replicate (digits / 48) 48 ++ size_if (digits % 48) }
        ensures whole { sum result ≡ digits }
    {
        GroupSizes {
            first: 0,
            middles: digits / CHUNK as u16,
            middle: CHUNK as u8,
            last: (digits % CHUNK as u16) as u8,
        }
    }

    /// How many groups there are: 3 in `1,00,000`. It does not allocate.
    pub fn groups(&self) -> usize
        ensures value { result ≡ length self.now }
        ensures bound { result < 65538 }
    {
        let first = (self.first > 0) as usize;
        let last = (self.last > 0) as usize;
        first + self.middles as usize + last
    }

    /// How many digits they have together: 6 in `1,00,000`. It does not allocate.
    pub fn digits(&self) -> usize
        ensures { result ≡ sum self.now }
    {
        self.first as usize + self.middles as usize * self.middle as usize + self.last as usize
    }

    /// How many groups there are, where each has three digits: 2 after the first of `1,234,567`. `None`: there may be
    /// others. It does not allocate.
    pub fn threes(&self) -> Option<usize>
        ensures { IfSome result (λ groups. self.now ≡ replicate groups 3) }
    {
        if self.first > 0 || (self.middle != 3 && self.middles > 0) {
            return None;
        }
        match self.last {
            0 => Some(self.middles as usize),
            3 => Some(self.middles as usize + 1),
            _ => None,
        }
    }

    /// Takes the middle groups that fill a chunk: 16 of three digits. `None`: a group is before them, they have too few
    /// digits, or no number of them fills a chunk. It does not allocate.
    pub fn next_chunk(&mut self) -> Option<GroupSizes>
        ensures taken { IfSome result (λ taken. self.old ≡ taken ++ self.new) }
        ensures whole { IfSome result (λ taken. sum taken ≡ 48) }
        ensures few { IfSome result (λ taken. length taken ≤ 48) }
        ensures none { IfNone result (self.new ≡ self.old) }
    {
        let size = self.middle as usize;
        if self.first > 0 || size == 0 || CHUNK % size != 0 {
            return None;
        }
        let groups = (CHUNK / size) as u16;
        if self.middles < groups {
            return None;
        }
        self.middles -= groups;
        Some(GroupSizes {
            first: 0,
            middles: groups,
            middle: self.middle,
            last: 0,
        })
    }
}

// How many groups of a size so many digits fill: 3 of three digits in eleven. Three and two are divisors that the
// compiler knows.
fn whole_groups(digits: u16, size: u8) -> u16
    requires { 0 < size }
    ensures { result ≡ digits / size }
{
    match size {
        3 => digits / 3,
        2 => digits / 2,
        _ => digits / size as u16,
    }
}

// `digits` digits cut from the right: the last group has `last`, each before it `middle`, the first what is left.
fn cut(digits: u16, last: u8, middle: u8) -> GroupSizes
    requires enough { last < digits }
    requires some { 0 < last }
    requires turns { 0 < middle }
    ensures { result ≡ cut_sizes last middle digits }
{
    let middles = whole_groups(digits - last as u16 - 1, middle);
    GroupSizes {
        first: digits - last as u16 - middles * middle as u16,
        middles,
        middle,
        last,
    }
}

/// The sizes from the first to the last; after it `None`, for good. Of `1,00,000` they are 1, 2, 3, `None`.
impl Iterator for GroupSizes {
    type Item = usize;

    ghost next_gives = { YieldsFirst (λ sizes. sizes) };

    ghost remaining = { item_count (λ sizes. sizes) };

    fn next(&mut self) -> Option<usize> {
        if self.first > 0 {
            return Some(mem::take(&mut self.first) as usize);
        }
        if self.middles > 0 {
            self.middles -= 1;
            return Some(self.middle as usize);
        }
        if self.last > 0 {
            return Some(mem::take(&mut self.last) as usize);
        }
        None
    }
}

impl FusedIterator for GroupSizes {}
