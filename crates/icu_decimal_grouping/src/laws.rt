//! Laws, beside the clauses of the calls: groups are cut from the right.

ghost use Rattle.icu_decimal_grouping.specs.GroupLaws.{GroupsAreCut, GroupsAreSeparated};

/// A law: digits in several groups are cut from the right, and the groups joined are the digits with a separator after
/// each one at which `grouper::check` says so. With the sizes 3, 2, 1 the digits `1234567` are the groups `12`, `34`,
/// `567`, and joined `12,34,567`.
pub fn groups_law()
    ensures sizes { GroupsAreCut }
    ensures separated { GroupsAreSeparated }
{}
