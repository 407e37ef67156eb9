//! How fields are told apart, and where in a field a byte is.

ghost use Rattle.std.specs.Prelude.{◌≡◌, ℕ, List};
ghost use Rattle.legumeyet_columns.specs.Places.{after, after_all, after_plain, ends_field, has_quote, is_quoted, left_after, rest_of};
ghost use Rattle.legumeyet_columns.specs.declared.dialect.Place.TheVariants.{Front};

use memchr::memchr;

/// How the fields of a record are told apart: of CSV `delimiter` is a comma, and it `has_quotes`.
#[derive(Clone, Copy, Debug, PartialEq, Eq)]
pub struct Dialect {
    /// The byte between two fields.
    pub delimiter: u8,
    /// Whether a field may be in quotes, as in RFC 4180: `"1,5"` is then one field.
    pub has_quotes: bool,
}

/// Where in a record a byte is, by the bytes before it.
#[derive(Clone, Copy, Debug, PartialEq, Eq)]
pub enum Place {
    /// It is the first of a field.
    Front,
    /// It is in a field that is not in quotes, or is after its quotes.
    Plain,
    /// It is in quotes.
    Quoted,
    /// It is after a quote in quotes, which ends them where this byte is no other quote.
    Closed,
}

impl Place {
    // Whether it is in quotes.
    pub fn is_quoted(self) -> bool
        ensures value { result ≡ is_quoted self }
    {
        match self {
            Place::Quoted => true,
            Place::Front | Place::Plain | Place::Closed => false,
        }
    }
}

// Whether there is a quote.
pub fn has_quote(bytes: &[u8]) -> bool
    ensures value { result ≡ has_quote bytes.now }
{
    memchr(b'"', bytes).is_some()
}

impl Dialect {
    // After a byte that is outside quotes, and no quote with a meaning.
    fn after_plain(self, byte: u8) -> Place
        ensures value { result ≡ after_plain self byte }
    {
        if byte == self.delimiter {
            Place::Front
        } else {
            Place::Plain
        }
    }

    // Where the next byte is.
    pub fn after(self, place: Place, byte: u8) -> Place
        ensures value { result ≡ after self place byte }
    {
        match place {
            Place::Front if self.has_quotes && byte == b'"' => Place::Quoted,
            Place::Closed if byte == b'"' => Place::Quoted,
            Place::Quoted if byte == b'"' => Place::Closed,
            Place::Quoted => Place::Quoted,
            Place::Front | Place::Plain | Place::Closed => self.after_plain(byte),
        }
    }

    // Where the byte after all of these is.
    pub fn after_all(self, place: Place, bytes: &[u8]) -> Place
        ensures value { result ≡ after_all self place bytes.now }
    {
        let mut place = place;
        for byte in bytes {
            place = self.after(place, *byte);
        }
        place
    }

    // Where the byte after these is, of which the first is in front of a field; outside quotes it may be another such place.
    pub fn place_after(self, bytes: &[u8]) -> Place
        ensures quoted { is_quoted result ≡ is_quoted (after_all self Front bytes.now) }
        ensures rest { (rest : List ℕ) → rest_of self result rest ≡ rest_of self (after_all self Front bytes.now) rest }
        ensures left { (rest : List ℕ) → left_after self result rest ≡ left_after self (after_all self Front bytes.now) rest }
    {
        if has_quote(bytes) {
            self.after_all(Place::Front, bytes)
        } else {
            Place::Plain
        }
    }

    // Whether a byte at a place is between two fields.
    pub fn ends_field(self, place: Place, byte: u8) -> bool
        ensures value { result ≡ ends_field self place byte }
    {
        !place.is_quoted() && byte == self.delimiter
    }
}
