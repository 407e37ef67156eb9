//! The pieces of a field.

ghost use Rattle.std.specs.Prelude.{◌≡◌, ◌∷◌, [], ◌↔◌, length, IsSome, IfSome};
ghost use Rattle.locale_numbers_formats.specs.Cutting.{cut_at};

use locale_numbers_formats::cut_field;

// The two pieces on both sides of a separator, where there is one.
pub(crate) fn two_pieces(field: &[u8], separator: u8) -> Option<(&[u8], &[u8])>
    ensures two { IsSome result ↔ (length (cut_at separator field.now) ≡ 2) }
    ensures pieces { IfSome result (λ two. cut_at separator field.now ≡ two.0.now ∷ two.1.now ∷ []) }
{
    let (first, rest) = cut_field(field, separator);
    match cut_field(rest?, separator) {
        (second, None) => Some((first, second)),
        (_, Some(_)) => None,
    }
}

// The three pieces between the separators of a field, where they are three.
pub(crate) fn three_pieces(field: &[u8], separator: u8) -> Option<(&[u8], &[u8], &[u8])>
    ensures three { IsSome result ↔ (length (cut_at separator field.now) ≡ 3) }
    ensures pieces { IfSome result (λ three. cut_at separator field.now ≡ three.0.now ∷ three.1.now ∷ three.2.now ∷ []) }
{
    let (first, rest) = cut_field(field, separator);
    let (second, rest) = cut_field(rest?, separator);
    match cut_field(rest?, separator) {
        (third, None) => Some((first, second, third)),
        (_, Some(_)) => None,
    }
}

// The four pieces between the separators of a field, where they are four.
pub(crate) fn four_pieces(field: &[u8], separator: u8) -> Option<(&[u8], &[u8], &[u8], &[u8])>
    ensures four { IsSome result ↔ (length (cut_at separator field.now) ≡ 4) }
    ensures pieces { IfSome result (λ four. cut_at separator field.now
        ≡ four.0.now ∷ four.1.now ∷ four.2.now ∷ four.3.now ∷ []) }
{
    let (first, rest) = cut_field(field, separator);
    let (second, rest) = cut_field(rest?, separator);
    let (third, rest) = cut_field(rest?, separator);
    match cut_field(rest?, separator) {
        (fourth, None) => Some((first, second, third, fourth)),
        (_, Some(_)) => None,
    }
}

// The five pieces between the separators of a field, where they are five.
pub(crate) fn five_pieces(
    field: &[u8],
    separator: u8,
) -> Option<(&[u8], &[u8], &[u8], &[u8], &[u8])>
    ensures five { IsSome result ↔ (length (cut_at separator field.now) ≡ 5) }
    ensures pieces { IfSome result (λ five. cut_at separator field.now
        ≡ five.0.now ∷ five.1.now ∷ five.2.now ∷ five.3.now ∷ five.4.now ∷ []) }
{
    let (first, rest) = cut_field(field, separator);
    let (second, rest) = cut_field(rest?, separator);
    let (third, rest) = cut_field(rest?, separator);
    let (fourth, rest) = cut_field(rest?, separator);
    match cut_field(rest?, separator) {
        (fifth, None) => Some((first, second, third, fourth, fifth)),
        (_, Some(_)) => None,
    }
}
