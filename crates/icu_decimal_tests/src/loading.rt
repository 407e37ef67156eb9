//! Tables asked for under one identifier after another, of a provider with an error of its own.

ghost use Rattle.std.specs.Prelude.{◌≡◌, ◌==◌, length};

use icu_decimal::provider::{
    DataError, DataIdentifier, DataProvider, DecimalDigitsV1, load_with_fallback,
};
use std::test::Fail;
use tinystr::TinyAsciiStr;

const THAI: [char; 10] = ['๐', '๑', '๒', '๓', '๔', '๕', '๖', '๗', '๘', '๙'];

// A provider that has the same digits under each numbering system, and refuses an identifier without one.
#[derive(Clone, Copy)]
struct Refusing {
    digits: [char; 10],
    refusal: DataError,
}

fn has_no_system(id: &DataIdentifier) -> bool
    ensures { result ≡ (length id.now.attributes == 0) }
{
    id.attributes.is_empty()
}

impl DataProvider<DecimalDigitsV1> for Refusing {
    ghost use Rattle.std.specs.Prelude.{◌==◌, length, Ok, Err, if◌then◌else◌};

    ghost table = { λ p id. if length id.attributes == 0 then Err p.refusal else Ok p.digits };

    fn load(&self, id: &DataIdentifier) -> Result<&[char; 10], DataError> {
        if has_no_system(id) {
            Err(self.refusal)
        } else {
            Ok(&self.digits)
        }
    }
}

// The digit of zero that is found, by a provider that refuses identifiers without a system so.
fn zero_found(refusal: DataError, ids: &[DataIdentifier]) -> Result<char, DataError> {
    let provider = Refusing {
        digits: THAI,
        refusal,
    };
    let digits = load_with_fallback::<DecimalDigitsV1, Refusing>(&provider, ids)?;
    Ok(digits[0])
}

// The identifier of a system, or of none.
fn identifier(system: &str) -> Result<DataIdentifier, Fail> {
    let attributes = TinyAsciiStr::try_from_str(system)?;
    Ok(DataIdentifier::for_marker_attributes(attributes))
}

#[test]
fn the_first_table_that_is_found(rt: HostRuntime) -> Result<(), Fail> {
    let missing = DataError::IdentifierNotFound;
    let refused_and_found = [identifier("")?, identifier("thai")?];
    let found_and_refused = [identifier("thai")?, identifier("")?];
    let refused = [identifier("")?];
    let refused_twice = [identifier("")?, identifier("")?];
    assert_eq!(rt; zero_found(missing, &[]), Err(DataError::InvalidRequest));
    assert_eq!(rt; zero_found(missing, &refused_and_found), Ok('๐'));
    assert_eq!(rt; zero_found(missing, &refused), Err(missing));
    assert_eq!(rt; zero_found(missing, &refused_twice), Err(missing));
    // another error ends it, and is the provider's own
    for error in [
        DataError::Custom,
        DataError::Memory,
        DataError::InvalidRequest,
    ] {
        assert_eq!(rt; zero_found(error, &refused_and_found), Err(error));
        // no later identifier is asked for
        assert_eq!(rt; zero_found(error, &found_and_refused), Ok('๐'));
    }
    Ok(())
}
