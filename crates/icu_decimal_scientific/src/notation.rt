//! Which exponents a notation has.

/// Which exponents a notation has: each whole number, or the multiples of three.
///
/// Of 12000 the scientific form is 1.2 and the exponent 4, the engineering form 12 and the exponent 3.
#[derive(Clone, Copy, Debug, Default, PartialEq, Eq, Hash)]
pub enum ScientificNotation {
    /// One digit before the point: 1.2 and 4 of 12000.
    #[default]
    Scientific,
    /// One to three digits before the point, and an exponent that is a multiple of three: 12 and 3 of 12000.
    Engineering,
}
