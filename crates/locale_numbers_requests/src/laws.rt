//! Laws on what lines ask: each function says one, and does nothing.

ghost use Rattle.locale_numbers_requests.specs.Laws.{RequestsAreAtMagnitude, RequestsHaveCodes};
ghost use Rattle.locale_numbers_requests.specs.OldRequests.{OldRequestsStay};

/// Each request for a currency has a code of three letters `A` to `Z`: one of the form `currency-EUR` has `EUR`. A line
/// with the form `currency-eur` is no request.
pub fn requests_have_codes()
    ensures { RequestsHaveCodes }
{}

/// A line asks what it asked before the newer forms, the grouping `on-aligned`, the rounding `cash`, choices of digits and
/// increments with zeros behind were added, or it asks what was added and was no request: that of `plain` and `1000` asks
/// the same, and that of `percent` or `0,trunc,50` asked nothing.
pub fn old_requests_stay()
    ensures { OldRequestsStay }
{}

/// What a request rounds is at a magnitude from -32768 to 32767, as the laws of rounded numbers ask for, and a decimal can
/// have the integer digits that it asks for: of `-2,half-trunc,25` the position is -2, of `-2,half-trunc,50` it is -1, and
/// `32768,trunc,1` and `32767,trunc,10` are no roundings.
pub fn requests_are_at_magnitude()
    ensures { RequestsAreAtMagnitude }
{}
