//! What is shown of a word of a script.

ghost use Rattle.std.specs.Prelude.{◌≤◌};

use std::fmt;

/// How many bytes of a word are shown.
const SHOWN: usize = 24;

/// The first bytes of a word, at most 24. A byte that is no printable ASCII character is shown by its number.
#[derive(Clone, Copy)]
pub struct Excerpt {
    bytes: [u8; SHOWN],
    len: usize,
    is_cut: bool,
    ghost fits: { len ≤ 24 },
}

impl Excerpt {
    ghost use Rattle.std.specs.Prelude.{◌≡◌, ◌↔◌, [], take, IsTrue};
    ghost use Rattle.dali_grammar.specs.Reason.{shown};

    /// What is shown of a word.
    pub fn of(word: &[u8]) -> Excerpt
        ensures { shown result ≡ take 24 word.now }
    {
        let len = word.len().min(SHOWN);
        let mut bytes = [0; SHOWN];
        bytes[..len].copy_from_slice(&word[..len]);
        Excerpt {
            bytes,
            len,
            is_cut: word.len() > SHOWN,
        }
    }

    /// Whether it shows nothing.
    pub fn is_empty(&self) -> bool
        ensures { IsTrue result ↔ (shown self.now ≡ []) }
    {
        self.len == 0
    }
}

/// Writes a byte: itself if it is a printable ASCII character, else its number, so that no terminal obeys it.
fn write_byte<W: fmt::Write>(f: &mut fmt::Formatter<W>, byte: u8) -> fmt::Result {
    match byte {
        b'\t' => f.write_str("\\t"),
        b'\r' => f.write_str("\\r"),
        b' '..=b'~' => f.write_char(char::from(byte)),
        _ => write!(f, "\\x{byte:02X}"),
    }
}

impl fmt::Display for Excerpt {
    fn fmt<W: fmt::Write>(&self, f: &mut fmt::Formatter<W>) -> fmt::Result {
        for byte in &self.bytes[..self.len] {
            write_byte(f, *byte)?;
        }
        if self.is_cut {
            f.write_str("..")?;
        }
        Ok(())
    }
}
