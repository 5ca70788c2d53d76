//! Words of a script by their place.

ghost use Rattle.std.specs.Prelude.{◌≡◌, slice_get, option_map, IfSome};
ghost use Rattle.dali_grammar.specs.Lines.{parts_of};
ghost use Rattle.dali_grammar.specs.Reason.{Quotes};

use super::clue::Spot;
use super::excerpt::Excerpt;
use crate::lines::{cut, is_skipped};
use std::fmt;

/// A word of a script: where it stands, and its first bytes.
#[derive(Clone, Copy)]
pub struct Quote {
    /// The number of its line, from 1.
    pub line: u32,
    /// Its number in the line, from 1.
    pub word: usize,
    pub excerpt: Excerpt,
}

/// The part of a text at this index, between marks.
pub(super) fn part_at(text: &[u8], mark: u8, index: usize) -> Option<&[u8]>
    ensures { option_map (λ part. part.now) result ≡ slice_get (parts_of mark text.now) index }
{
    let mut left = index;
    let mut rest = Some(text);
    while let Some(text) = rest {
        let (part, more) = cut(text, mark);
        if left == 0 {
            return Some(part);
        }
        left -= 1;
        rest = more;
    }
    None
}

/// The word of this number in the line of this number; `None` if it is not there.
pub(super) fn quoted(input: &[u8], line: u32, word: usize) -> Option<Quote>
    ensures line { IfSome result (λ quote. quote.line ≡ line) }
    ensures quotes { IfSome result (Quotes input.now) }
{
    let row = line.checked_sub(1)?;
    let index = word.checked_sub(1)?;
    let text = part_at(input, b'\n', row as usize)?;
    let text = part_at(text, b' ', index)?;
    Some(Quote {
        line,
        word,
        excerpt: Excerpt::of(text),
    })
}

/// The number of the line that stands behind so many others which are not skipped.
fn line_number(input: &[u8], before: usize) -> u32 {
    let mut number = 0u32;
    let mut left = before;
    for line in input.split(|byte| *byte == b'\n') {
        number = number.saturating_add(1);
        if !is_skipped(line) {
            if left == 0 {
                return number;
            }
            left -= 1;
        }
    }
    number
}

/// The word at this spot.
pub(super) fn quoted_at(input: &[u8], spot: Spot) -> Option<Quote>
    ensures { IfSome result (Quotes input.now) }
{
    quoted(input, line_number(input, spot.line), spot.word)
}

impl fmt::Display for Quote {
    fn fmt<W: fmt::Write>(&self, f: &mut fmt::Formatter<W>) -> fmt::Result {
        write!(f, "word {}", self.word)?;
        if self.excerpt.is_empty() {
            return Ok(());
        }
        write!(f, ": `{}`", self.excerpt)
    }
}
