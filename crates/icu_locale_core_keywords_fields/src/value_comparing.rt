//! Equality, order and hash of values: those of their lists.

ghost use Rattle.std.specs.Prelude.{Some, refl};
ghost use Rattle.std.specs.Cmp.{partial_equiv_from_equiv};
ghost use Rattle.std.specs.Hash as fed;
ghost use Rattle.icu_locale_core_grammar.specs.TagOrder.{texts_cmp};
ghost use Rattle.icu_locale_core_subtag_lists.specs.Orders.{lists_of_texts_po, lists_fed_alike};
ghost use Rattle.icu_locale_core_keywords_fields.specs.Orders.{same_value};
ghost use Rattle.icu_locale_core_keywords_fields.specs.OrderLaws.{values_equiv, values_total, values_tie};

use crate::kind::EntryKind;
use crate::value::ValueOf;
use std::cmp::Ordering;
use std::hash::{Hash, Hasher};

impl<K: EntryKind> PartialEq for ValueOf<K> {
    ghost eq = { λ v w. same_value v w };

    ghost laws = { partial_equiv_from_equiv values_equiv };

    fn eq(&self, other: &Self) -> bool {
        self.as_subtags_slice() == other.as_subtags_slice()
    }
}

impl<K: EntryKind> Eq for ValueOf<K> {
    ghost laws = { values_equiv };
}

impl<K: EntryKind> PartialOrd for ValueOf<K> {
    ghost partial_cmp = { λ v w. Some (texts_cmp v w) };

    ghost laws = { lists_of_texts_po };

    fn partial_cmp(&self, other: &Self) -> Option<Ordering> {
        Some(self.cmp(other))
    }
}

/// Subtag by subtag, in byte order; a beginning comes first: `abc` before `abc-def`.
impl<K: EntryKind> Ord for ValueOf<K> {
    ghost cmp = { λ v w. texts_cmp v w };

    ghost total = { values_total };

    ghost matches_partial_cmp = { λ v w. refl };

    ghost matches_eq = { values_tie };

    fn cmp(&self, other: &Self) -> Ordering {
        self.as_subtags_slice().cmp(other.as_subtags_slice())
    }
}

impl<K: EntryKind> Hash for ValueOf<K> {
    ghost hash_input = { λ v. fed.slice fed.str v };

    ghost respects_eq = { λ v w e. lists_fed_alike v w e };

    fn hash<H: Hasher>(&self, state: &mut H) {
        self.as_subtags_slice().hash(state);
    }
}
