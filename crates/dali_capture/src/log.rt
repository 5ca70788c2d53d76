//! Logs: a line for each item.

ghost use Rattle.std.specs.Prelude.{◌≡◌};
ghost use Rattle.dali_capture.specs.Logs.{log_at_first, logged, answer_in, frame_in, first_word, log_word};
ghost use Rattle.dali_capture.specs.Logs.{log_line_end};

use crate::fault::Reason;
use crate::item::{Heard, Item};
use crate::words::{after_mark, byte_in, number_in};
use dali_frame::Forward;

/// How far a line is read.
#[derive(Clone, Copy)]
pub enum LogLine {
    /// No word of it.
    Fresh,
    /// Its time.
    Time(u64),
    /// Its time, and the mark of an answer.
    Answer(u64),
    /// Its item.
    Told,
    /// A comment.
    Comment,
}

/// A log, read up to a word.
#[derive(Clone, Copy)]
pub struct Log {
    /// How far the line is read.
    pub line: LogLine,
    /// The time of the item before.
    pub last: u64,
}

/// What a word behind a time says was heard.
fn frame_in(word: &[u8]) -> Option<Heard>
    ensures { result ≡ frame_in word.now }
{
    if word == b"device".as_slice() {
        return Some(Heard::Device);
    }
    match Forward::read_hex(word) {
        Ok(frame) => Some(Heard::Forward(frame)),
        Err(_) => None,
    }
}

/// What a word behind the mark of an answer says was heard.
fn answer_in(word: &[u8]) -> Option<Heard>
    ensures { result ≡ answer_in word.now }
{
    if word == b"damaged".as_slice() {
        return Some(Heard::Damaged);
    }
    match byte_in(word) {
        Some(byte) => Some(Heard::Backward(byte)),
        None => None,
    }
}

impl Log {
    /// A log of which nothing is read.
    pub fn new() -> Log
        ensures { result ≡ log_at_first }
    {
        Log {
            line: LogLine::Fresh,
            last: 0,
        }
    }

    /// The line tells this item, which began then.
    fn tell(at: u64, what: Option<Heard>) -> Result<(Log, Option<Item>), Reason>
        ensures { result ≡ logged at what }
    {
        let Some(what) = what else {
            return Err(Reason::BadLine);
        };
        let Some(until) = at.checked_add(what.length()) else {
            return Err(Reason::TimeTooLarge);
        };
        let log = Log {
            line: LogLine::Told,
            last: at,
        };
        Ok((log, Some(Item { at, until, what })))
    }

    /// The first word of a line.
    fn first_word(self, word: &[u8]) -> Result<Log, Reason>
        ensures { result ≡ first_word self.last word.now }
    {
        if after_mark(word, b'#').is_some() {
            return Ok(Log {
                line: LogLine::Comment,
                last: self.last,
            });
        }
        let at = number_in(word, Reason::BadLine)?;
        if at < self.last {
            return Err(Reason::TimeBack);
        }
        Ok(Log {
            line: LogLine::Time(at),
            last: self.last,
        })
    }

    /// The next word of a line, and the item that it tells.
    pub fn word(self, word: &[u8]) -> Result<(Log, Option<Item>), Reason>
        ensures { result ≡ log_word self word.now }
    {
        match self.line {
            LogLine::Fresh => {
                let log = self.first_word(word)?;
                Ok((log, None))
            }
            LogLine::Time(at) => {
                if word == b"<".as_slice() {
                    let log = Log {
                        line: LogLine::Answer(at),
                        last: self.last,
                    };
                    Ok((log, None))
                } else {
                    Log::tell(at, frame_in(word))
                }
            }
            LogLine::Answer(at) => Log::tell(at, answer_in(word)),
            LogLine::Told => Err(Reason::BadLine),
            LogLine::Comment => Ok((self, None)),
        }
    }

    /// The end of a line.
    pub fn line_end(self) -> Result<Log, Reason>
        ensures { result ≡ log_line_end self }
    {
        match self.line {
            LogLine::Fresh | LogLine::Told | LogLine::Comment => Ok(Log {
                line: LogLine::Fresh,
                last: self.last,
            }),
            LogLine::Time(_) | LogLine::Answer(_) => Err(Reason::BadLine),
        }
    }
}
