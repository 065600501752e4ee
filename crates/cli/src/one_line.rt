//! Names of files, printed so that their line stays one line.

use std::convert::AsStr;
use std::fmt::{Display, Error, Formatter, Write};

/// A text whose control characters are written as escapes, a line break as `\n`. So a fault is one line, even if a
/// file's name has a line break.
#[derive(Debug, Drop)]
pub struct OneLine<S>(pub S);

impl<S: AsStr> Display for OneLine<S> {
    fn fmt<W: Write>(&self, f: &mut Formatter<W>) -> Result<(), Error> {
        for c in self.0.as_str().chars() {
            if c.is_control() {
                write!(f, "{}", c.escape_default())?;
            } else {
                f.write_char(c)?;
            }
        }
        Ok(())
    }
}
