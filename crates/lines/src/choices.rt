// What a tender was filed as, as text.
ghost use Rattle.std.specs.Prelude.{Some};
ghost use Rattle.lines.specs.Log.{choices_text};

use stages::Particulars;
use std::fmt;

// The kind by its letter, the method by its number, the shortfall by its letter.
#[derive(Clone, Copy)]
pub(crate) struct Choices(pub(crate) Particulars);

impl fmt::Display for Choices {
    ghost output = { λ c. Some (choices_text c.0.kind c.0.method c.0.shortfall) };

    fn fmt<W: fmt::Write>(&self, f: &mut fmt::Formatter<W>) -> fmt::Result {
        let Particulars {
            kind,
            method,
            shortfall,
            ..
        } = self.0;
        write!(f, "{kind} {method} {shortfall}")
    }
}
