//! Whole numbers: the zeros at their end.

ghost use Rattle.std.specs.Prelude.{◌≡◌, ◌*◌, ◌%◌, ◌^◌, ◌<◌};

/// A number without the zeros that it ends in, and how many these are: 25 and 1 of 250. The condition is that it is not
/// 0. It does not allocate.
#[tactic(auto, using(crate::proofs::WholeLemmas::zero_stripped, crate::proofs::WholeLemmas::zeros_few))]
pub fn strip_zeros(number: u128) -> (u128, usize)
    requires { 0 < number }
    ensures value { number ≡ result.0 * 10 ^ result.1 }
    ensures last { 0 < result.0 % 10 }
    ensures few { result.1 < 39 }
{
    let mut left = number;
    let mut zeros = 0usize;
    while left % 10 == 0 {
        left /= 10;
        zeros += 1;
    }
    (left, zeros)
}
