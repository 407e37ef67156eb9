//! Parents of locales.

ghost use Rattle.std.specs.Prelude.{◌≡◌, true, false, [], ◌∷◌, ◌++◌, None, IsErrOf, IsSome, OnErr, OnOk};
ghost use Rattle.std.specs.Option.{option_copied};
ghost use Rattle.icu_locale_core.specs.TagPreferences.{DataLocaleMeaning};
ghost use Rattle.icu_decimal_chains.specs.Chains.{Follows, walk};
ghost use Rattle.locale_numbers_parents.specs.Parents.{ClosesCycle, leads_to, listed_parent, most_steps, parent_step};
ghost use Rattle.locale_numbers_parents.specs.declared.parents.ParentFault.{ParentFault};

use icu_locale_core::DataLocale;
use indexmap::IndexMap;
use std::alloc::Global;
use std::marker::Model;

/// Why a parent is refused: `Duplicate` of a second one for `en-AU`.
#[derive(Clone, Copy, Debug, Drop, PartialEq, Eq)]
pub enum ParentFault {
    /// The locale has a parent already: `en-AU`, of which `en-001` was added.
    Duplicate,
    /// The parents of the locale would lead back to it: `en-US` for `en`, since `en` is after `en-US`.
    Cycle,
    /// Out of memory.
    Memory,
}

/// Locales and their parents, of which no locale is twice and none leads back to itself: `en-001` for `en-AU`, `en`
/// for `en-001`.
#[derive(Drop)]
pub struct Parents {
    pairs: IndexMap<DataLocale, DataLocale>,
}

impl Model for Parents {
    ghost use Rattle.std.specs.Prelude.{List};
    ghost use Rattle.locale_numbers_parents.specs.Parents.{Entry, IsParents};

    ghost Value = { List Entry };

    ghost view = { λ p. p.pairs.entries };

    ghost invariant = { λ p. IsParents p.pairs.entries };
}

impl Parents {
    /// No parents, so that only truncation gives one: `en` for `en-US`. It does not allocate.
    pub fn new(alloc: Global) -> Self
        ensures { result ≡ [] }
    {
        Parents {
            pairs: IndexMap::new(alloc),
        }
    }

    // The parent that is listed.
    fn listed(&self, locale: &DataLocale) -> Option<&DataLocale>
        ensures { option_copied result ≡ listed_parent self.now locale.now }
    {
        self.pairs.get(locale)
    }

    /// The next locale to ask for: the parent that is listed, or else the locale without its last part. With `en-001`
    /// for `en-AU` it is `en-001` after `en-AU`, `en` after `en-US`, and none after `en`. It does not allocate.
    pub fn parent(&self, locale: &DataLocale) -> Option<DataLocale>
        ensures { result ≡ parent_step self.now locale.now }
    {
        match self.listed(locale) {
            Some(parent) => Some(*parent),
            None => locale.truncated(),
        }
    }

    /// The bound on the steps of a chain, which no chain exceeds: five for each parent that is listed, and four. It
    /// does not allocate.
    pub fn chain_limit(&self) -> u128
        ensures value { result ≡ most_steps self.now }
        ensures cuts_none { (l : DataLocaleMeaning)
            → Follows (parent_step self.now) l (walk (parent_step self.now) result l) }
    {
        5 * (self.pairs.len() as u128) + 4
    }

    /// Whether the chain of the start meets the goal: that of `en-US` meets `en`. It does not allocate.
    pub fn leads_to(&self, start: DataLocale, goal: DataLocale) -> bool
        ensures value { result ≡ leads_to self.now start goal }
        ensures follows { Follows (parent_step self.now) start
            (walk (parent_step self.now) (most_steps self.now) start) }
    {
        let mut current = start;
        for _turn in 0..self.chain_limit() {
            if current == goal {
                return true;
            }
            match self.parent(&current) {
                Some(parent) => current = parent,
                None => return false,
            }
        }
        current == goal
    }

    /// Gives the locale this parent: `en-001` for `en-AU`. After a fault the parents are as before. It allocates.
    ///
    /// - Duplicate: the locale has a parent already, as a second one for `en-AU`.
    /// - Cycle: else, its parents would lead back to it, as `en` or `en-US` for `en`.
    /// - Memory: else, out of memory.
    pub fn add(&mut self, locale: DataLocale, parent: DataLocale) -> Result<(), ParentFault>
        ensures duplicate { IsErrOf result ParentFault.Duplicate → IsSome (listed_parent self.old locale) }
        ensures cycle { IsErrOf result ParentFault.Cycle → ClosesCycle self.old (locale, parent) }
        ensures cycle_is_new { IsErrOf result ParentFault.Cycle → listed_parent self.old locale ≡ None }
        ensures value { OnOk result (self.new ≡ self.old ++ (locale, parent) ∷ []) }
        ensures fresh { OnOk result (listed_parent self.old locale ≡ None) }
        ensures open_ended { OnOk result (¬ (ClosesCycle self.old (locale, parent))) }
        ensures same { OnErr result (self.new ≡ self.old) }

        // The test by which a cycle is found: `laws::cycles_are_met` says that it is right.
        ensures met { IsErrOf result ParentFault.Cycle → leads_to self.old parent locale ≡ true }
        ensures not_met { OnOk result (leads_to self.old parent locale ≡ false) }

        // A locale that is listed and a parent that leads back are never reported as out of memory.
        ensures room_duplicate { IsErrOf result ParentFault.Memory → listed_parent self.old locale ≡ None }
        ensures room_cycle { IsErrOf result ParentFault.Memory → leads_to self.old parent locale ≡ false }
    {
        if self.listed(&locale).is_some() {
            return Err(ParentFault::Duplicate);
        }
        if self.leads_to(parent, locale) {
            return Err(ParentFault::Cycle);
        }
        match self.pairs.insert(locale, parent) {
            Ok(_) => {}
            Err(_) => return Err(ParentFault::Memory),
        }
        Ok(())
    }
}
