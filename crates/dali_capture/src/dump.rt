//! Value change dumps (IEEE 1364-2005, 18): a head with the time scale and the variables, and then times and changes.

ghost use Rattle.std.specs.Prelude.{◌≡◌, Some, None, option_map};
ghost use Rattle.dali_capture.specs.Dumps.{dump_at_first, typed, sized, level_in, after_skipped, no_end, holds_changes};
ghost use Rattle.dali_capture.specs.Dumps.{section_of, scaled, scale_word, named, head_word, at_time, changed};
ghost use Rattle.dali_capture.specs.Dumps.{mark_of, level_word, marked_word, open_word, value_word, dump_word};
ghost use Rattle.dali_capture.specs.Dumps.{dump_end};

use crate::ear::{Ear, hear};
use crate::fault::Reason;
use crate::header::{Timescale, scale_in, unit_in};
use crate::item::Item;
use crate::words::{code_in, has_code, number_in};

/// Where in a dump the next word stands.
#[derive(Clone, Copy)]
pub enum Section {
    /// Between sections: a time, a change, or a section.
    Open,
    /// In a section that is passed over, until its `$end`.
    Skipped,
    /// In `$timescale`, at its number.
    Scale,
    /// In `$timescale`, at the unit of this number.
    Unit(u64),
    /// In `$var`, at its type.
    Type,
    /// In `$var`, at its size.
    Size,
    /// In `$var`, at the identifier of a variable of one bit.
    Identifier,
    /// In `$var`, at the name of the variable whose identifier has this code.
    Name(u64),
    /// At the identifier of a variable that has this value from now on: high or low, or another one.
    Value(Option<bool>),
}

/// What a word between sections is.
#[derive(Clone, Copy)]
pub enum Mark {
    /// A time.
    Time,
    /// The name of a section.
    Keyword,
    /// The value of a variable of bits, of which the next word is the identifier.
    Vector,
    /// A number or a text, of which the next word is the identifier.
    Number,
    /// High, low or another level, with the identifier behind it.
    Level(Option<bool>),
    /// None of these.
    None,
}

/// A dump, read up to a word.
#[derive(Clone, Copy)]
pub struct Dump {
    /// Where the next word stands.
    pub section: Section,
    /// How long a tick takes.
    pub timescale: Option<Timescale>,
    /// The code of the identifier of the wire.
    pub wire: Option<u64>,
    /// The last time that was told, in µs.
    pub now: u64,
    /// Hears the levels of the wire, from the first one on.
    pub ear: Option<Ear>,
}

/// What follows the type of a variable: of a text all is passed over.
fn typed(word: &[u8]) -> Section
    ensures { result ≡ typed word.now }
{
    if word == b"string".as_slice() {
        Section::Skipped
    } else {
        Section::Size
    }
}

/// The section that follows a size.
fn sized(word: &[u8]) -> Section
    ensures { result ≡ sized word.now }
{
    if word == b"1".as_slice() {
        Section::Identifier
    } else {
        Section::Skipped
    }
}

/// The level that a vector of one bit has.
fn level_in(word: &[u8]) -> Option<bool>
    ensures { result ≡ level_in word.now }
{
    if word == b"0".as_slice() {
        Some(false)
    } else if word == b"1".as_slice() {
        Some(true)
    } else {
        None
    }
}

/// Where the word behind one in a section that is passed over stands.
fn after_skipped(word: &[u8]) -> Section
    ensures { result ≡ after_skipped word.now }
{
    if word == b"$end".as_slice() {
        Section::Open
    } else {
        Section::Skipped
    }
}

/// A variable has a word more.
fn no_end(word: &[u8]) -> Result<(), Reason>
    ensures { result ≡ no_end word.now }
{
    if word == b"$end".as_slice() {
        Err(Reason::BadVariable)
    } else {
        Ok(())
    }
}

/// What a word between sections is, by its first byte.
fn mark_of(byte: u8) -> Mark
    ensures { result ≡ mark_of byte }
{
    match byte {
        b'#' => Mark::Time,
        b'$' => Mark::Keyword,
        b'b' | b'B' => Mark::Vector,
        b'r' | b'R' | b's' | b'S' => Mark::Number,
        b'0' => Mark::Level(Some(false)),
        b'1' => Mark::Level(Some(true)),
        b'x' | b'X' | b'z' | b'Z' => Mark::Level(None),
        _ => Mark::None,
    }
}

/// The section that a keyword begins, in a dump that has this wire.
fn section_of(wire: Option<u64>, word: &[u8]) -> Result<Section, Reason>
    ensures { result ≡ section_of wire word.now }
{
    if word == b"$timescale".as_slice() {
        Ok(Section::Scale)
    } else if word == b"$var".as_slice() {
        Ok(Section::Type)
    } else if word == b"$enddefinitions".as_slice() {
        match wire {
            Some(_) => Ok(Section::Skipped),
            None => Err(Reason::NoWire),
        }
    } else if holds_changes(word) {
        Ok(Section::Open)
    } else {
        Ok(Section::Skipped)
    }
}

/// Whether a keyword begins or ends a section of changes, which are read as any others.
fn holds_changes(word: &[u8]) -> bool
    ensures { result ≡ holds_changes word.now }
{
    word == b"$dumpvars".as_slice()
        || word == b"$dumpall".as_slice()
        || word == b"$dumpon".as_slice()
        || word == b"$dumpoff".as_slice()
        || word == b"$end".as_slice()
}

impl Dump {
    /// A dump of which nothing is read.
    pub fn new() -> Dump
        ensures { result ≡ dump_at_first }
    {
        Dump {
            section: Section::Open,
            timescale: None,
            wire: None,
            now: 0,
            ear: None,
        }
    }

    /// The same dump, of which the next word stands elsewhere.
    fn at(self, section: Section) -> Dump
        ensures { result ≡ record self { section = section } }
    {
        Dump { section, ..self }
    }

    /// The time scale is so many of the unit of this name.
    fn scaled(self, times: u64, unit: &[u8]) -> Result<Dump, Reason>
        ensures { result ≡ scaled self times unit.now }
    {
        match unit_in(unit) {
            Some(unit) => Ok(Dump {
                section: Section::Skipped,
                timescale: Some(Timescale { times, unit }),
                ..self
            }),
            None => Err(Reason::BadTimescale),
        }
    }

    /// The number of a time scale, with the unit behind it or without.
    fn scale_word(self, word: &[u8]) -> Result<Dump, Reason>
        ensures { result ≡ scale_word self word.now }
    {
        match scale_in(word) {
            Some((times, [])) => Ok(self.at(Section::Unit(times))),
            Some((times, unit)) => self.scaled(times, unit),
            None => Err(Reason::BadTimescale),
        }
    }

    /// The variable of one bit whose identifier has this code has this name.
    fn named(self, wanted: Option<&[u8]>, code: u64, name: &[u8]) -> Result<Dump, Reason>
        ensures { result ≡ named self (option_map (λ w. w.now) wanted.entry) code name.now }
    {
        let is_wanted = match wanted {
            Some(wanted) => wanted == name,
            None => true,
        };
        if !is_wanted {
            return Ok(self.at(Section::Skipped));
        }
        match self.wire {
            Some(wire) if wire != code => Err(Reason::SeveralWires),
            _ => Ok(Dump {
                section: Section::Skipped,
                wire: Some(code),
                ..self
            }),
        }
    }

    /// A word in a section of the head.
    fn head_word(self, wanted: Option<&[u8]>, word: &[u8]) -> Result<Dump, Reason>
        ensures { result ≡ head_word self.section self (option_map (λ w. w.now) wanted.entry) word.now }
    {
        match self.section {
            Section::Skipped => Ok(self.at(after_skipped(word))),
            Section::Scale => self.scale_word(word),
            Section::Unit(times) => self.scaled(times, word),
            Section::Type => {
                no_end(word)?;
                Ok(self.at(typed(word)))
            }
            Section::Size => {
                no_end(word)?;
                Ok(self.at(sized(word)))
            }
            Section::Identifier => {
                no_end(word)?;
                match code_in(word) {
                    Some(code) => Ok(self.at(Section::Name(code))),
                    None => Err(Reason::LongIdentifier),
                }
            }
            Section::Name(code) => {
                no_end(word)?;
                self.named(wanted, code, word)
            }
            Section::Open | Section::Value(_) => Ok(self),
        }
    }

    /// A time.
    fn at_time(self, word: &[u8]) -> Result<Dump, Reason>
        ensures { result ≡ at_time self word.now }
    {
        let ticks = number_in(word, Reason::BadWord)?;
        let Some(timescale) = self.timescale else {
            return Err(Reason::NoTimescale);
        };
        let now = timescale.micros(ticks)?;
        if now < self.now {
            return Err(Reason::TimeBack);
        }
        Ok(Dump { now, ..self })
    }

    /// The variable of this identifier has this level, and the item that had ended before.
    fn changed(self, is_inverted: bool, identifier: &[u8], is_high: bool) -> (Dump, Option<Item>)
        ensures { result ≡ changed self is_inverted identifier.now is_high }
    {
        if !has_code(self.wire, identifier) {
            return (self, None);
        }
        let (ear, told) = hear(self.ear, is_high == is_inverted, self.now);
        (Dump { ear, ..self }, told)
    }

    /// The level of a variable, in one word with its identifier.
    fn level_word(
        self,
        is_inverted: bool,
        level: Option<bool>,
        identifier: &[u8],
    ) -> Result<(Dump, Option<Item>), Reason>
        ensures { result ≡ level_word self is_inverted level identifier.now }
    {
        if identifier.is_empty() {
            return Err(Reason::BadWord);
        }
        match level {
            Some(is_high) => Ok(self.changed(is_inverted, identifier, is_high)),
            None => Ok((self, None)),
        }
    }

    /// A word between sections, by the mark that it begins with, and what follows its first byte.
    fn marked_word(
        self,
        is_inverted: bool,
        mark: Mark,
        word: &[u8],
        rest: &[u8],
    ) -> Result<(Dump, Option<Item>), Reason>
        ensures { result ≡ marked_word self is_inverted mark word.now rest.now }
    {
        match mark {
            Mark::Time => Ok((self.at_time(rest)?, None)),
            Mark::Keyword => Ok((self.at(section_of(self.wire, word)?), None)),
            Mark::Vector => Ok((self.at(Section::Value(level_in(rest))), None)),
            Mark::Number => Ok((self.at(Section::Value(None)), None)),
            Mark::Level(level) => self.level_word(is_inverted, level, rest),
            Mark::None => Err(Reason::BadWord),
        }
    }

    /// A word between sections.
    fn open_word(self, is_inverted: bool, word: &[u8]) -> Result<(Dump, Option<Item>), Reason>
        ensures { result ≡ open_word self is_inverted word.now }
    {
        match word {
            [] => Err(Reason::BadWord),
            [first, ..] => self.marked_word(is_inverted, mark_of(*first), word, &word[1..]),
        }
    }

    /// The identifier of a variable that has this value.
    fn value_word(self, is_inverted: bool, level: Option<bool>, word: &[u8]) -> (Dump, Option<Item>)
        ensures { result ≡ value_word self is_inverted level word.now }
    {
        let dump = self.at(Section::Open);
        match level {
            Some(is_high) => dump.changed(is_inverted, word, is_high),
            None => (dump, None),
        }
    }

    /// The next word, and the item that had ended before it.
    pub fn word(
        self,
        wanted: Option<&[u8]>,
        is_inverted: bool,
        word: &[u8],
    ) -> Result<(Dump, Option<Item>), Reason>
        ensures { result ≡ dump_word self (option_map (λ w. w.now) wanted.entry) is_inverted word.now }
    {
        match self.section {
            Section::Open => self.open_word(is_inverted, word),
            Section::Value(level) => Ok(self.value_word(is_inverted, level, word)),
            Section::Skipped
            | Section::Scale
            | Section::Unit(_)
            | Section::Type
            | Section::Size
            | Section::Identifier
            | Section::Name(_) => Ok((self.head_word(wanted, word)?, None)),
        }
    }

    /// The end of the dump, and the item that had ended before it.
    pub fn end(self) -> Result<Option<Item>, Reason>
        ensures { result ≡ dump_end self }
    {
        match self.section {
            Section::Open => {}
            _ => return Err(Reason::Torn),
        }
        if self.wire.is_none() {
            return Err(Reason::NoWire);
        }
        match self.ear {
            Some(ear) => Ok(ear.end(self.now)),
            None => Ok(None),
        }
    }
}
