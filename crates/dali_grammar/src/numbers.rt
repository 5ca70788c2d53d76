//! Decimal numbers, blocks of short addresses, and sets of gear.

ghost use Rattle.std.specs.Prelude.{◌≡◌, ◌≤◌, IfSome};
ghost use Rattle.dali_grammar.specs.Numbers.{number_in, number_to, starts_plain, block_of, set_of};

use crate::lines::cut;
use dali_events::GearSet;
use dali_frame::Short;
use std::str;

/// The largest number that a line may name.
const LARGEST: u32 = 1_000_000;

/// Whether a word begins as a number does: without a sign, and without a zero before other digits.
fn starts_plain(word: &[u8]) -> bool
    ensures { result ≡ starts_plain word.now }
{
    match word {
        [] => false,
        [first] => *first != b'+',
        [first, ..] => *first != b'+' && *first != b'0',
    }
}

/// The decimal number that a word is: digits alone, without a leading zero, at most 1,000,000.
pub fn number_in(word: &[u8]) -> Option<u32>
    ensures { result ≡ number_in word.now }
{
    if !starts_plain(word) {
        return None;
    }
    let Ok(text) = str::from_utf8(word) else {
        return None;
    };
    let Ok(number) = text.parse::<u32>() else {
        return None;
    };
    if number <= LARGEST {
        Some(number)
    } else {
        None
    }
}

/// A number of at most 255.
fn byte_of(word: &[u8]) -> Option<u8>
    ensures { result ≡ number_to 255 word.now }
{
    let number = number_in(word)?;
    if number > 255 {
        return None;
    }
    Some(number as u8)
}

/// A block `a-b`: the numbers of its first and its last address, each at most 255.
#[tactic(auto, using(crate::proofs::LineLemmas::none_of_more))]
pub fn block_of(word: &[u8]) -> Option<(u8, u8)>
    ensures { result ≡ block_of word.now }
{
    let (first, rest) = cut(word, b'-');
    let first = byte_of(first)?;
    let (last, rest) = cut(rest?, b'-');
    let last = byte_of(last)?;
    match rest {
        Some(_) => None,
        None => Some((first, last)),
    }
}

/// A number of a gear, at most 127.
fn gear_number(word: &[u8]) -> Option<u32>
    ensures number { result ≡ number_to 127 word.now }
    ensures within { IfSome result (λ number. number ≤ 127) }
{
    let number = number_in(word)?;
    if number > 127 {
        return None;
    }
    Some(number)
}

/// A short address.
pub fn short_of(word: &[u8]) -> Option<Short>
    ensures { result ≡ number_to 63 word.now }
{
    let number = number_in(word)?;
    if number > 63 {
        return None;
    }
    Short::of(number as u8)
}

/// A set of gear: `-`, or their numbers with commas. A number that stands twice counts once.
pub fn set_of(word: &[u8]) -> Option<GearSet>
    ensures { result ≡ set_of word.now }
{
    let mut set = 0u128;
    if word == b"-".as_slice() {
        return Some(GearSet::of(set));
    }
    let mut rest = Some(word);
    while let Some(list) = rest {
        let (number, more) = cut(list, b',');
        set |= 1 << gear_number(number)?;
        rest = more;
    }
    Some(GearSet::of(set))
}
