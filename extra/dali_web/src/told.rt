//! What a call tells beside what it hands out.

ghost use Rattle.std.specs.Prelude.{◌≡◌};
ghost use Rattle.dali_web.specs.Calls.{StandsAt, word_of};

use dali_replay::{Explained, Quote, ReplayFault};

/// Everything was written.
pub(crate) const DONE: u8 = 0;
/// Memory is short.
pub(crate) const REFUSED: u8 = 3;
/// There is too little room for what was written, or for what is said. How much there must be is told.
pub(crate) const NO_ROOM: u8 = 4;

/// What a call tells beside what it hands out. All numbers are 0 if there is nothing to tell.
#[repr(C)]
#[derive(Clone, Copy)]
pub struct Told {
    /// How many bytes were written.
    pub written: u64,
    /// How many bytes are said of a fault.
    pub said: u64,
    /// The line of the script with which something is wrong, from 1.
    pub line: u64,
    /// The word of that line, from 1.
    pub word: u64,
}

impl Told {
    /// Nothing.
    pub(crate) const NOTHING: Told = Told {
        written: 0,
        said: 0,
        line: 0,
        word: 0,
    };

    /// So many bytes were written, and nothing is wrong.
    pub(crate) fn of_written(count: usize) -> Told
        ensures { result.written ≡ count }
    {
        Told {
            written: count as u64,
            ..Told::NOTHING
        }
    }

    /// So many bytes were written and are said, and this is wrong.
    pub(crate) fn of_fault(count: usize, said: usize, explained: &Explained) -> Told
        ensures written { result.written ≡ count }
        ensures said { result.said ≡ said }
        ensures place { StandsAt explained.now result.line result.word }
    {
        let (line, word) = place_of(explained);
        Told {
            written: count as u64,
            said: said as u64,
            line,
            word,
        }
    }
}

/// The line and the word of which something is said, 0 if of none.
fn place_of(explained: &Explained) -> (u64, u64)
    ensures { StandsAt explained.now result.0 result.1 }
{
    match (explained.fault, word_of(explained)) {
        (_, Some(word)) => (u64::from(word.line), word.word as u64),
        (ReplayFault::BadLine(number), None) => (u64::from(number), 0),
        (_, None) => (0, 0),
    }
}

/// The word of which something is said.
fn word_of(explained: &Explained) -> Option<Quote>
    ensures { result ≡ word_of explained.now }
{
    explained.reason?.word
}
