//! One step of a reader.

/// What a reader makes of one more piece: the stage after it, or the stage as it was where the piece does not fit.
///
/// After `en`, the piece `us` is `Taken` with `en-US`, and the piece `u` is `Refused` with `en`. Every reader that
/// goes piece by piece returns it.
#[derive(Debug, Drop)]
pub enum Step<T> {
    /// The piece fits: the stage after it.
    Taken(T),
    /// The piece does not fit: the stage as it was.
    Refused(T),
}
