//! A value with a unit.

use writeable::{Error, Sink, Writeable};

/// A value between the two texts of a unit: 5 between `€` and nothing is `€5`, between nothing and ` %` it is `5 %`.
#[derive(Drop)]
pub struct WithUnit<'u, T> {
    pub before: &'u str,
    pub value: T,
    pub behind: &'u str,
}

impl<'u, T: Writeable> Writeable for WithUnit<'u, T> {
    ghost use Rattle.std.specs.Prelude.{◌++◌};
    ghost use Rattle.writeable.specs.AnnotatedText.{bytes};

    ghost events = { λ s. bytes s.before.now ++ (T.events s.value ++ bytes s.behind.now) };

    fn write_to<S: Sink>(&self, sink: &mut S) -> Result<(), Error> {
        sink.write_str(self.before)?;
        self.value.write_to(sink)?;
        sink.write_str(self.behind)
    }
}
