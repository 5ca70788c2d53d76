//! What is wrong with a line.

use super::forms::{Hint, Place};
use super::mistake::Mistake;
use super::quote::part_at;
use super::words::word_mistake;
use crate::words::{Wanted, Wrong};

/// What is wrong, and with which word, counted from 1; 0 if it is none.
type Found = (Mistake, usize);

/// The first byte that no line has.
fn byte_mistake(line: &[u8]) -> Option<Found> {
    let mut word = 1usize;
    for byte in line {
        match byte {
            b' ' => word = word.saturating_add(1),
            b'\r' => return Some((Mistake::CarriageReturn, word)),
            b'\t' => return Some((Mistake::Tab, word)),
            b'#' => return Some((Mistake::LateComment, word)),
            b'!'..=b'~' => {}
            _ => return Some((Mistake::Unprintable, word)),
        }
    }
    None
}

/// Whether two spaces follow each other.
fn has_two_spaces(line: &[u8]) -> bool {
    let mut was_space = false;
    for byte in line {
        let is_space = *byte == b' ';
        if was_space && is_space {
            return true;
        }
        was_space = is_space;
    }
    false
}

/// What is wrong with the bytes of a line, whatever its words say.
fn bytes_mistake(line: &[u8]) -> Option<Found> {
    if line.starts_with(b"\xEF\xBB\xBF") {
        return Some((Mistake::ByteOrderMark, 1));
    }
    if let Some(found) = byte_mistake(line) {
        return Some(found);
    }
    if line.starts_with(b" ") {
        return Some((Mistake::FirstSpace, 0));
    }
    if line.ends_with(b" ") {
        return Some((Mistake::LastSpace, 0));
    }
    if has_two_spaces(line) {
        return Some((Mistake::TwoSpaces, 0));
    }
    None
}

/// What is wrong with a bad line, of which this word is wrong, and what is said beside it.
pub(super) fn line_mistake(place: Place, line: &[u8], wrong: Wrong) -> (Found, Hint) {
    if let Some(found) = bytes_mistake(line) {
        return (found, Hint::Nothing);
    }
    let word = part_at(line, b' ', wrong.word.saturating_sub(1));
    match (wrong.wanted, place) {
        (Wanted::Line, Place::First) => ((Mistake::NoFirstLine, 0), Hint::Nothing),
        (Wanted::Line, Place::Second | Place::Used | Place::Bench | Place::Site) => {
            ((Mistake::NoSecondLine, 0), Hint::Nothing)
        }
        (Wanted::Name, _) => {
            let (mistake, hint) = place.stranger(word.unwrap_or(&[]));
            ((mistake, 1), hint)
        }
        (wanted, _) => (
            (word_mistake(wanted, word), wrong.word),
            place.form_of(line),
        ),
    }
}
