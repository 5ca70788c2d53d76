//! What is wrong with a word of a line.

ghost use Rattle.std.specs.Prelude.{◌≡◌, ◌≢◌, [], true, IsNone, IsSome};
ghost use Rattle.std.specs.Str.{all_ascii_digits};

use super::mistake::Mistake;
use crate::numbers::number_in;
use crate::words::Wanted;

/// Whether a word has decimal digits alone.
fn has_digits(word: &[u8]) -> bool
    ensures digits { result ≡ true → all_ascii_digits word.now ≡ true }
    ensures some { result ≡ true → word.now ≢ [] }
    ensures all { all_ascii_digits word.now ≡ true → word.now ≢ [] → result ≡ true }
{
    for byte in word {
        if !byte.is_ascii_digit() {
            return false;
        }
    }
    !word.is_empty()
}

/// What is wrong with a number: `other` if it is none at all, `large` if it is too large.
fn number_mistake(word: &[u8], other: Mistake, large: Mistake) -> Mistake {
    match word {
        [b'+' | b'-', digits @ ..] if has_digits(digits) => Mistake::Sign,
        [b'0', ..] if has_digits(word) => Mistake::LeadingZero,
        _ if has_digits(word) => large,
        _ => other,
    }
}

/// What is wrong with a block, each number of which is at most 255.
fn block_mistake(word: &[u8]) -> Mistake {
    let mut wrong = Mistake::AddressTooLarge;
    let mut count = 0u32;
    for part in word.split(|byte| *byte == b'-') {
        count = count.saturating_add(1);
        if number_in(part).is_none() {
            wrong = number_mistake(part, Mistake::NoBlock, Mistake::AddressTooLarge);
        }
    }
    if count == 2 { wrong } else { Mistake::NoBlock }
}

/// What is wrong with a list of gear, whose numbers are at most 127.
fn list_mistake(word: &[u8]) -> Mistake {
    for part in word.split(|byte| *byte == b',') {
        if number_in(part).is_none() {
            return number_mistake(part, Mistake::NoGearList, Mistake::GearTooLarge);
        }
    }
    Mistake::GearTooLarge
}

/// What is wrong with a word that is not as it is to be; or that none stands there.
pub(super) fn word_mistake(wanted: Wanted, word: Option<&[u8]>) -> Mistake
    ensures missing { IsNone word.entry → result ≡ Mistake.WordMissing }
    ensures more { IsSome word.entry → wanted ≡ Wanted.End → result ≡ Mistake.WordTooMany }
{
    let Some(word) = word else {
        return Mistake::WordMissing;
    };
    match wanted {
        Wanted::Number => number_mistake(word, Mistake::NoNumber, Mistake::NumberTooLarge),
        Wanted::Short => number_mistake(word, Mistake::NoNumber, Mistake::AddressTooLarge),
        Wanted::Random => Mistake::NoRandom,
        Wanted::Frame => Mistake::NoFrame,
        Wanted::Block => block_mistake(word),
        Wanted::Trouble => Mistake::NoTrouble,
        Wanted::GearList => list_mistake(word),
        Wanted::FewDraws => Mistake::DrawTooMany,
        Wanted::End | Wanted::Line | Wanted::Name => Mistake::WordTooMany,
    }
}
