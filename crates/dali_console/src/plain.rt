//! Texts for a terminal, without what it would obey.

use std::fmt;

/// A text for a terminal. Of its control characters line feeds are written as they are, and each other one by its
/// number, as `\x1B`.
#[derive(Drop)]
pub struct Plain(pub String);

/// Writes a character.
fn write_plain<W: fmt::Write>(f: &mut fmt::Formatter<W>, character: char) -> fmt::Result {
    if character.is_control() && character != '\n' {
        let number = u32::from(character);
        write!(f, "\\x{number:02X}")
    } else {
        f.write_char(character)
    }
}

impl fmt::Display for Plain {
    fn fmt<W: fmt::Write>(&self, f: &mut fmt::Formatter<W>) -> fmt::Result {
        for character in self.0.as_str().chars() {
            write_plain(f, character)?;
        }
        Ok(())
    }
}
