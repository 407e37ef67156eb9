//! The places of grouping separators.
ghost use Rattle.std.specs.Prelude.{◌≡◌, ℕ, ◌+◌, ◌<◌, ◌≤◌, false, pos, ◌<ℤ◌};
ghost use Rattle.icu_decimal_grouping.specs.Grouper.{ends_at, group_sizes, is_grouped, least_front, may_group, middle_size, separates, separates_at};

use icu_decimal_symbols::GroupingSizes;
use icu_decimal_symbols::options::GroupingStrategy;

/// Whether a grouping separator follows the digit at `magnitude`.
///
/// `upper_magnitude` is the highest magnitude written; both count powers of ten, 0 for units. With sizes 3, 2, 1 and
/// `Auto`, 100000 is written `1,00,000`: true at 5 and at 3, false at 4. Above `upper_magnitude` it says where a
/// separator would be if there were digits; below 0, in the fraction, there is none. It does not allocate. The call is
/// ICU4X's. Source: UTS 35, part 3 (numbers), grouping of number patterns.
#[tactic(auto, using(crate::proofs::GrouperLemmas::ends_is_separated))]
pub fn check(
    upper_magnitude: i16,
    magnitude: i16,
    strategy: GroupingStrategy,
    sizes: GroupingSizes,
) -> bool
    ensures places { (u m : ℕ) → upper_magnitude ≡ pos u → magnitude ≡ pos m → m ≤ u
        → result ≡ ends_at (group_sizes strategy sizes (u + 1)) m }
    ensures below { magnitude <ℤ pos 0 → result ≡ false }
    ensures value { result ≡ separates_at strategy sizes upper_magnitude magnitude }
{
    if magnitude < 0 || upper_magnitude < 0 {
        return false;
    }
    is_group_end(upper_magnitude as u16, magnitude as u16, strategy, sizes)
}

// The test at whole magnitudes.
fn is_group_end(
    upper: u16,
    magnitude: u16,
    strategy: GroupingStrategy,
    sizes: GroupingSizes,
) -> bool
    requires { upper < 32768 }
    ensures value { result ≡ separates strategy sizes (upper + 1) magnitude }
{
    let primary = sizes.primary as u16;
    if !has_groups(upper + 1, strategy, sizes) || magnitude < primary {
        return false;
    }
    (magnitude - primary) % size_before(sizes) as u16 == 0
}

// Whether `digits` digits have more than one group.
pub(crate) fn has_groups(digits: u16, strategy: GroupingStrategy, sizes: GroupingSizes) -> bool
    ensures { result ≡ is_grouped strategy sizes digits }
{
    if sizes.primary == 0 || !may_separate(strategy) {
        return false;
    }
    sizes.primary as u16 + least_before(strategy, sizes.min_grouping) as u16 <= digits
}

// Whether the strategy allows separators at all.
fn may_separate(strategy: GroupingStrategy) -> bool
    ensures { result ≡ may_group strategy }
{
    !matches!(strategy, GroupingStrategy::Never)
}

// The least count of digits before the last separator.
fn least_before(strategy: GroupingStrategy, min_grouping: u8) -> u8
    ensures { result ≡ least_front strategy min_grouping }
{
    match strategy {
        GroupingStrategy::Min2 => min_grouping.max(2),
        GroupingStrategy::OnAligned => 1,
        _ => min_grouping.max(1),
    }
}

// The size of the groups before the last.
pub(crate) fn size_before(sizes: GroupingSizes) -> u8
    ensures { result ≡ middle_size sizes }
{
    if sizes.secondary == 0 {
        sizes.primary
    } else {
        sizes.secondary
    }
}
