//! The words of a line, taken from left to right: what each is to be, and the first that is wrong.

ghost use Rattle.std.specs.Prelude.{◌≡◌, ◌<◌, ◌+◌, [], ◌∷◌, IfOk, IfErr, bytes_eq, option_map};
ghost use Rattle.std.specs.Result.{result_ok};
ghost use Rattle.dali_frame.specs.Hex.{random_of};
ghost use Rattle.dali_grammar.specs.Lines.{parts_after, none_of, one_of, two_of};
ghost use Rattle.dali_grammar.specs.Numbers.{number_in, number_to, set_of};
ghost use Rattle.dali_grammar.specs.Words.{frame_of, trouble_of};

use crate::lines::cut;
use crate::numbers::{number_in, set_of, short_of};
use dali_events::{GearSet, Trouble};
use dali_frame::{Forward, Random24, Short};

/// What a line or a word of it is to be.
#[derive(Clone, Copy)]
pub enum Wanted {
    /// A line, which is missing.
    Line,
    /// The first word of a line.
    Name,
    Number,
    Short,
    Random,
    Frame,
    Block,
    Trouble,
    GearList,
    /// No word: none is left to stand here.
    End,
    /// No number to draw: 1,024 stand before it.
    FewDraws,
}

/// The first word of a line that is wrong, or missing.
#[derive(Clone, Copy)]
pub struct Wrong {
    /// Its number in the line, from 1.
    pub word: usize,
    /// What it is to be.
    pub wanted: Wanted,
}

impl Wrong {
    /// The word of this number is wrong.
    pub fn at(word: usize, wanted: Wanted) -> Wrong
        ensures { result ≡ record { word = word; wanted = wanted } }
    {
        Wrong { word, wanted }
    }

    /// The word behind so many, and as many more, is wrong.
    pub fn behind(words: usize, more: usize, wanted: Wanted) -> Wrong
        ensures word { words + more < 4294967296 → result.word ≡ words + more + 1 }
        ensures wanted { result.wanted ≡ wanted }
    {
        Wrong::at(words.saturating_add(more).saturating_add(1), wanted)
    }
}

/// Whether a word is this name.
#[inline(always)]
pub fn is_name(word: &[u8], name: &[u8]) -> bool
    ensures { result ≡ bytes_eq word.now name.now }
{
    word == name
}

/// The next word, and what follows it.
#[inline(always)]
pub fn next(rest: Option<&[u8]>, missing: Wrong) -> Result<(&[u8], Option<&[u8]>), Wrong>
    ensures next { IfOk result (λ next. parts_after 32 (option_map (λ rest. rest.now) rest.entry)
        ≡ next.0.now ∷ parts_after 32 (option_map (λ rest. rest.now) next.1)) }
    ensures missing { IfErr result (λ _. parts_after 32 (option_map (λ rest. rest.now) rest.entry) ≡ []) }
{
    match rest {
        Some(text) => Ok(cut(text, b' ')),
        None => Err(missing),
    }
}

/// What was read, if no word of this number follows.
#[inline(always)]
#[tactic(auto, using(crate::proofs::LineLemmas::none_of_more))]
pub fn ended<T: Copy>(read: T, rest: Option<&[u8]>, word: usize) -> Result<T, Wrong>
    ensures { result_ok result ≡ none_of read (parts_after 32 (option_map (λ rest. rest.now) rest.entry)) }
{
    match rest {
        Some(_) => Err(Wrong::at(word, Wanted::End)),
        None => Ok(read),
    }
}

/// One number.
pub fn number(rest: Option<&[u8]>) -> Result<u32, Wrong>
    ensures { result_ok result ≡ one_of number_in (parts_after 32 (option_map (λ rest. rest.now) rest.entry)) }
{
    let wrong = Wrong::at(2, Wanted::Number);
    let (word, rest) = next(rest, wrong)?;
    let number = number_in(word).ok_or(wrong)?;
    ended(number, rest, 3)
}

/// One frame, which is the word of this number, of at most 3.
#[inline(always)]
pub fn frame(rest: Option<&[u8]>, word: usize) -> Result<Forward, Wrong>
    ensures { result_ok result ≡ one_of frame_of (parts_after 32 (option_map (λ rest. rest.now) rest.entry)) }
{
    let wrong = Wrong::at(word, Wanted::Frame);
    let (word, rest) = next(rest, wrong)?;
    let frame = Forward::read_hex(word).ok().ok_or(wrong)?;
    ended(frame, rest, wrong.word.saturating_add(1))
}

/// A number and a frame.
pub fn number_and_frame(rest: Option<&[u8]>) -> Result<(u32, Forward), Wrong>
    ensures { result_ok result ≡ two_of number_in frame_of
        (parts_after 32 (option_map (λ rest. rest.now) rest.entry)) }
{
    let wrong = Wrong::at(2, Wanted::Number);
    let (word, rest) = next(rest, wrong)?;
    let number = number_in(word).ok_or(wrong)?;
    let frame = frame(rest, 3)?;
    Ok((number, frame))
}

/// A short address and a random one, as the third and fourth word.
pub fn short_and_random(rest: Option<&[u8]>) -> Result<(Short, Random24), Wrong>
    ensures { result_ok result ≡ two_of (number_to 63) random_of
        (parts_after 32 (option_map (λ rest. rest.now) rest.entry)) }
{
    let wrong = Wrong::at(3, Wanted::Short);
    let (word, rest) = next(rest, wrong)?;
    let short = short_of(word).ok_or(wrong)?;
    let random = random(rest)?;
    Ok((short, random))
}

/// A random address, as the fourth word.
fn random(rest: Option<&[u8]>) -> Result<Random24, Wrong>
    ensures { result_ok result ≡ one_of random_of (parts_after 32 (option_map (λ rest. rest.now) rest.entry)) }
{
    let wrong = Wrong::at(4, Wanted::Random);
    let (word, rest) = next(rest, wrong)?;
    let random = Random24::read_hex(word).ok_or(wrong)?;
    ended(random, rest, 5)
}

/// A set of gear, as the third word.
fn gear_list(rest: Option<&[u8]>) -> Result<GearSet, Wrong>
    ensures { result_ok result ≡ one_of set_of (parts_after 32 (option_map (λ rest. rest.now) rest.entry)) }
{
    let wrong = Wrong::at(3, Wanted::GearList);
    let (word, rest) = next(rest, wrong)?;
    let set = set_of(word).ok_or(wrong)?;
    ended(set, rest, 4)
}

/// What disturbs a frame: nothing, or a trouble by its name, with a set of gear if the name wants one.
pub fn trouble(rest: Option<&[u8]>) -> Result<Trouble, Wrong>
    ensures { result_ok result ≡ trouble_of (parts_after 32 (option_map (λ rest. rest.now) rest.entry)) }
{
    let Some(text) = rest else {
        return Ok(Trouble::None);
    };
    let wrong = Wrong::at(2, Wanted::Trouble);
    let (word, rest) = cut(text, b' ');
    if Trouble::of_name_and_set(word, GearSet::NONE).is_some() {
        let set = gear_list(rest)?;
        return Trouble::of_name_and_set(word, set).ok_or(wrong);
    }
    let trouble = Trouble::of_name(word).ok_or(wrong)?;
    ended(trouble, rest, 3)
}
