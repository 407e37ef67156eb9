//! Texts taken from the ends of a text.

ghost use Rattle.std.specs.Prelude.{◌≡◌, ◌≢◌, ℕ, List, ◌++◌, IfNone, IfSome};
ghost use Rattle.std.specs.Option.{option_copied};
ghost use Rattle.icu_dimension_lenient.specs.LenientUnits.{between, past_back, past_front};

// What follows a text at the front of another.
fn strip_before<'t>(text: &'t str, before: &str) -> Option<&'t str>
    ensures some { IfSome result (λ rest. text.now ≡ before.now ++ rest.now) }
    ensures none { IfNone result ((rest : List ℕ) → text.now ≢ before.now ++ rest) }
{
    text.strip_prefix(before)
}

// What comes before a text at the end of another.
fn strip_after<'t>(text: &'t str, after: &str) -> Option<&'t str>
    ensures some { IfSome result (λ front. text.now ≡ front.now ++ after.now) }
    ensures none { IfNone result ((front : List ℕ) → text.now ≢ front ++ after.now) }
{
    text.strip_suffix(after)
}

// What follows a text at the front, as the definition has it.
#[tactic(auto, using(crate::proofs::EndLemmas::front_is))]
pub(crate) fn strip_front<'t>(text: &'t str, name: &str) -> Option<&'t str>
    ensures { option_copied result ≡ past_front name.now text.now }
{
    strip_before(text, name)
}

// What comes before a text at the end, as the definition has it.
#[tactic(auto, using(crate::proofs::EndLemmas::back_is))]
pub(crate) fn strip_back<'t>(text: &'t str, name: &str) -> Option<&'t str>
    ensures { option_copied result ≡ past_back name.now text.now }
{
    strip_after(text, name)
}

// What is between two texts.
#[tactic(auto, using(crate::proofs::EndLemmas::back_of_front, crate::proofs::EndLemmas::no_front))]
pub(crate) fn strip_pair<'t>(text: &'t str, before: &str, after: &str) -> Option<&'t str>
    ensures { option_copied result ≡ between (record { before = before.now; after = after.now }) text.now }
{
    match strip_front(text, before) {
        Some(rest) => strip_back(rest, after),
        None => None,
    }
}
