//! What takes a text with parts, piece by piece, and may refuse to go on.

ghost use Rattle.std.specs.Prelude.{◌≡◌, Bool, false, List, [], ◌∷◌, ◌++◌, OnOk, OnErr, is_err, encode_utf8};

use crate::error::Error;
use crate::part::Part;

/// A place that takes a text with parts: one that holds `x` and takes `a,b` holds `xa,b`.
///
/// Each call is made where `has_refused` is false. It returns `Ok` exactly where `has_refused` is still false
/// afterwards; the sink has then taken all that it was given. Else it returns [`Error`], has taken a beginning, and has
/// no room for the rest.
pub trait Sink {
    ghost use Rattle.writeable.specs.AnnotatedText.{Event, bytes, opening, closing};
    ghost use Rattle.writeable.specs.PartName.{name_of};
    ghost use Rattle.writeable.specs.Taking.{HasBegun, begun_first, begun_then, on_err, on_err_by};
    ghost use Rattle.writeable.specs.declared.error.Error.{Error};
    ghost use Rattle.std.specs.Prelude.{Result};

    // how the sink is after it took these events
    ghost takes: { Self → List Event → Self → Type 0 };

    // the sink cannot take all of these events
    ghost lacks_room: { Self → List Event → Type 0 };

    // whether a call was refused
    ghost refused: { Self → Bool };

    /// Whether a call was refused: false of a new sink. Only a refused call sets it, and it stays set.
    fn has_refused(&self) -> bool
        ensures { result ≡ refused self.now };

    /// Takes the bytes of `text`, as the two of `a,`; [`Error`] where it has no room for them.
    fn write_str(&mut self, text: &str) -> Result<(), Error>
        requires { refused self.old ≡ false }
        ensures ok { OnOk result (takes self.old (bytes text.now) self.new) }
        ensures refused { refused self.new ≡ is_err result }
        ensures begun { OnErr result (HasBegun takes lacks_room self.old (bytes text.now) self.new) };

    /// Takes the bytes of `character` in UTF-8, one to four: `b` is one, `٬` two. [`Error`] as for
    /// `write_str`.
    fn write_char(&mut self, character: char) -> Result<(), Error>
        requires { refused self.old ≡ false }
        ensures ok { OnOk result (takes self.old (bytes (encode_utf8 character)) self.new) }
        ensures refused { refused self.new ≡ is_err result }
        ensures begun { OnErr result
            (HasBegun takes lacks_room self.old (bytes (encode_utf8 character)) self.new) }
    {
        let mut buffer = [0u8; 4];
        self.write_str(character.encode_utf8(&mut buffer))
    }

    /// Opens `part` at the end of the text so far, inside the parts that are open: A, `a` and a close
    /// are the part (0, 1, A).
    ///
    /// [`Error`] where the sink has no room for it.
    fn open_part(&mut self, part: Part) -> Result<(), Error>
        requires { refused self.old ≡ false }
        ensures ok { OnOk result (takes self.old (opening (name_of part)) self.new) }
        ensures refused { refused self.new ≡ is_err result }
        ensures begun { OnErr result
            (HasBegun takes lacks_room self.old (opening (name_of part)) self.new) };

    /// Closes the part that was opened last and is still open: A, `a` and a close list (0, 1, A).
    /// Where none is open it does nothing.
    ///
    /// [`Error`] where the sink has no room to list it.
    fn close_part(&mut self) -> Result<(), Error>
        requires { refused self.old ≡ false }
        ensures ok { OnOk result (takes self.old closing self.new) }
        ensures refused { refused self.new ≡ is_err result }
        ensures begun { OnErr result (HasBegun takes lacks_room self.old closing self.new) };

    // what does not fit does not fit with more after it
    ghost lacks_more: { (s : Self) (first second : List Event) → lacks_room s first
        → lacks_room s (first ++ second) };

    // no events change nothing
    ghost nothing: { (s : Self) → takes s [] s };

    // events one after another
    ghost joins: { (s t u : Self) (first second : List Event) → takes s first t
        → refused t ≡ false → takes t second u → takes s (first ++ second) u };

    // a refusal is one whatever else the result says
    ghost stops: { (r : Result (Unit {0}) Error) (s t : Self) (es : List Event)
        → HasBegun takes lacks_room s es t → OnErr r (HasBegun takes lacks_room s es t) } = { λ r s t es begun. on_err r begun };

    // a refusal of the first events, where more was to come
    ghost stops_in_first: { (r : Result (Unit {0}) Error) (s t : Self) (first second : List Event)
        → OnErr r (HasBegun takes lacks_room s first t)
        → OnErr r (HasBegun takes lacks_room s (first ++ second) t) } = { λ r s t first second refusal. on_err_by r
            (begun_first takes lacks_room lacks_more s first second t) refusal };

    // a refusal of the second events, where the first were taken
    ghost stops_in_second: { (r : Result (Unit {0}) Error) (s t u : Self)
        (first second : List Event) → takes s first t → refused t ≡ false
        → OnErr r (HasBegun takes lacks_room t second u)
        → OnErr r (HasBegun takes lacks_room s (first ++ second) u) } = { λ r s t u first second taken going refusal. on_err_by r
            (begun_then takes lacks_room refused joins s t u first second taken going) refusal };
}
