//! A system in memory, for the tests of programs: words of a command line, an input, and what is written and said.
#![tactic(auto)]

use std::alloc::{Alloc, Allocator, Global};
use std::cell::RefCell;
use std::env::{Env, FillError};
use std::fmt::Display;
use std::io::{BufRead, Eprint, ErrorKind, Lines, Write};
use std::time::{Clock, Duration};
use std::{io, str};

/// A system with a command line and an input, which keeps what is written and what is said beside it. If its output
/// is full, that takes nothing. Its clock stands still.
#[derive(Drop)]
pub struct Desk<'a> {
    alloc: Global,
    words: &'a [u8],
    input: &'a str,
    is_full: bool,
    written: RefCell<Vec<u8>>,
    said: RefCell<Vec<u8>>,
}

/// One more text at the end of what is kept.
fn keep<D: Display + Drop>(kept: &RefCell<Vec<u8>>, value: D, end: &str) -> io::Result<()> {
    match kept.try_borrow_mut() {
        Ok(mut bytes) => write!(bytes, "{value}{end}"),
        Err(_) => Err(io::Error::from(ErrorKind::Other)),
    }
}

/// Whether what is kept has this text, or is empty if the text is.
fn has(kept: &RefCell<Vec<u8>>, text: &str) -> bool {
    let Ok(bytes) = kept.try_borrow() else {
        return false;
    };
    match str::from_utf8(bytes.as_slice()) {
        Ok(kept) => kept.contains(text) && kept.is_empty() == text.is_empty(),
        Err(_) => false,
    }
}

impl<'a> Desk<'a> {
    /// With these words, of which a space ends each but the last, this input, and an empty output.
    pub fn new(alloc: Global, words: &'a [u8], input: &'a str) -> Desk<'a> {
        Desk {
            alloc,
            words,
            input,
            is_full: false,
            written: RefCell::new(Vec::new(alloc)),
            said: RefCell::new(Vec::new(alloc)),
        }
    }

    /// The same, and its output takes nothing.
    pub fn full(alloc: Global, words: &'a [u8], input: &'a str) -> Desk<'a> {
        Desk {
            alloc,
            words,
            input,
            is_full: true,
            written: RefCell::new(Vec::new(alloc)),
            said: RefCell::new(Vec::new(alloc)),
        }
    }

    /// Whether what was written has this text, or is nothing if the text is empty.
    pub fn has_written(&self, text: &str) -> bool {
        has(&self.written, text)
    }

    /// Whether what was said has this text, or is nothing if the text is empty.
    pub fn has_said(&self, text: &str) -> bool {
        has(&self.said, text)
    }

    /// How many lines were written.
    pub fn lines_written(&self) -> usize {
        match self.written.try_borrow() {
            Ok(bytes) => bytes.split(|byte| *byte == b'\n').count().saturating_sub(1),
            Err(_) => 0,
        }
    }

    /// Whether the output takes anything.
    fn room(&self) -> io::Result<()> {
        if self.is_full {
            Err(io::Error::from(ErrorKind::StorageFull))
        } else {
            Ok(())
        }
    }
}

impl Alloc for Desk<'_> {
    type A = Global;

    fn alloc(&self) -> Global {
        self.alloc
    }
}

impl Env for Desk<'_> {
    fn arg(&self, i: usize, buf: &mut [u8]) -> Result<usize, FillError> {
        let Some(bytes) = self.words.split(|byte| *byte == b' ').nth(i) else {
            return Err(FillError::NotPresent);
        };
        if buf.len() < bytes.len() {
            return Err(FillError::TooLong);
        }
        buf[..bytes.len()].copy_from_slice(bytes);
        Ok(bytes.len())
    }

    fn var(&self, _name: &str, _buf: &mut [u8]) -> Result<usize, FillError> {
        Err(FillError::NotPresent)
    }

    fn var_at(&self, _i: usize, _buf: &mut [u8]) -> Result<usize, FillError> {
        Err(FillError::NotPresent)
    }
}

impl<'a> Input for Desk<'a> {
    type Reader = &'a [u8];

    fn read_line<A: Allocator + Clone>(&self, _buf: &mut String<A>) -> io::Result<usize> {
        Err(io::Error::from(ErrorKind::Unsupported))
    }

    fn lines<A: Allocator>(&self, alloc: A) -> Lines<&'a [u8], A> {
        self.reader().lines(alloc)
    }

    fn reader(&self) -> &'a [u8] {
        self.input.as_bytes()
    }
}

impl Print for Desk<'_> {
    fn print<D: Display + Drop>(&self, value: D) -> io::Result<()> {
        self.room()?;
        keep(&self.written, value, "")
    }

    fn println<D: Display + Drop>(&self, value: D) -> io::Result<()> {
        self.room()?;
        keep(&self.written, value, "\n")
    }

    fn write_all(&self, bytes: &[u8]) -> io::Result<()> {
        self.room()?;
        match self.written.try_borrow_mut() {
            Ok(mut written) => written.write_all(bytes),
            Err(_) => Err(io::Error::from(ErrorKind::Other)),
        }
    }
}

impl Eprint for Desk<'_> {
    fn eprint<D: Display + Drop>(&self, value: D) -> io::Result<()> {
        keep(&self.said, value, "")
    }

    fn eprintln<D: Display + Drop>(&self, value: D) -> io::Result<()> {
        keep(&self.said, value, "\n")
    }
}

impl Clock for Desk<'_> {
    fn monotonic(&self) -> io::Result<Duration> {
        Ok(Duration::ZERO)
    }

    fn since_1970(&self) -> io::Result<Duration> {
        Ok(Duration::ZERO)
    }
}
