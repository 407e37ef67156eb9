//! Skeletons, and their normal text: `legumeyet_skeleton_normal`.

ghost use Rattle.std.specs.Prelude.{◌≡◌};
ghost use Rattle.locale_numbers_formats.specs.Skeletons.{skeleton_of};
ghost use Rattle.legumeyet_c_values.specs.Putting.{Answers, IsPut};
ghost use Rattle.legumeyet_c.specs.AskedFormats.{IsSkeletonFault, SaysNormal, place_by, place_of_outcome};

use legumeyet_c_values::{CallError, put, status_of};
use locale_numbers_formats::Skeleton;

// Tells where a skeleton is wrong, where a call was refused for it.
pub(crate) fn tell_place(outcome: &Result<(), CallError>, place: &mut usize)
    ensures { place.new ≡ place_of_outcome outcome.now place.old }
{
    if let Err(CallError::Skeleton(error)) = outcome {
        *place = error.place();
    }
}

/// Writes the one normal text of a skeleton, which is read as the same format: of `K currency/eur` the text
/// `compact-short currency/EUR`.
///
/// Returns 0; 201 to 207, the text is no skeleton, and only then `place` is where the word or the part of it begins that
/// is wrong; 3, the text needs more room.
#[unsafe(no_mangle)]
pub extern "C" fn legumeyet_skeleton_normal(
    skeleton: &[u8],
    place: &mut usize,
    out: &mut [u8],
    length: &mut usize,
) -> i32
    ensures place { place.new ≡ place_by (skeleton_of skeleton.now) place.old }
    ensures told { Answers
        (IsPut (SaysNormal skeleton.now) (IsSkeletonFault skeleton.now) out.old out.new length.old length.new) result }
{
    match Skeleton::try_from_utf8(skeleton) {
        Ok(skeleton) => status_of(put(&skeleton, out, length)),
        Err(error) => {
            *place = error.place();
            CallError::Skeleton(error).number()
        }
    }
}
