//! Laws of chains of parents.

ghost use Rattle.std.specs.Prelude.{◌≡◌, ◌≤◌, List, length};
ghost use Rattle.icu_locale_core.specs.TagPreferences.{DataLocaleMeaning};
ghost use Rattle.icu_decimal_chains.specs.Chains.{Follows, walk};
ghost use Rattle.locale_numbers_parents.specs.Parents.{CyclesAreMet, Entry, IsParents, most_steps, parent_step};

/// A chain of parents has at most as many steps as are taken: of `en-AU`, `en-001`, `en` two, where with two entries 14
/// are.
pub fn chains_are_short()
    ensures { (entries : List Entry) (l : DataLocaleMeaning) (xs : List DataLocaleMeaning)
        → Follows (parent_step entries) l xs → length xs ≤ most_steps entries }
{}

/// Under parents that close no cycle every chain ends, and the steps that are taken reach its end: `en-AU`, `en-001`,
/// `en`.
pub fn chains_end()
    ensures { (entries : List Entry) → IsParents entries → (l : DataLocaleMeaning)
        → Follows (parent_step entries) l (walk (parent_step entries) (most_steps entries) l) }
{}

/// A new entry closes a cycle exactly where the chain of its parent, under the entries before it, meets its locale:
/// `en-US` for `en`, since the chain of `en-US` is `en-US`, `en`.
pub fn cycles_are_met()
    ensures { CyclesAreMet }
{}
