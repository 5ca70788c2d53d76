//! A system whose driver is a bus of gear in memory, and how the program is called on a system.

use super::bus::{Bus, Put, Told};
use dali_commission_program::{DriverLink, Failure, Session, Stores, run_and_say};
use std::alloc::{Alloc, Allocator, Global};
use std::cell::RefCell;
use std::env::{Env, FillError};
use std::fmt::Display;
use std::io::{BufRead, Eprint, ErrorKind, Lines, Write};
use std::time::{Clock, Duration};
use std::{io, str};

/// Calls the program on a system, with these places. Its driver is the system's input and output.
pub fn call<S, F>(system: &S, stores: &mut F) -> Result<(), Failure>
where
    S: Env + Input + Print + Eprint + AllocGlobal + Clock,
    F: Stores,
{
    let driver = DriverLink::new(system.alloc(), system.reader(), io::writer(system));
    run_and_say(system, stores, &mut Session::new(driver), false)
}

/// A system with a command line and a bus, which keeps what is said. Its clock stands still.
#[derive(Drop)]
pub struct Room<'a> {
    alloc: Global,
    words: &'a [u8],
    bus: &'a Bus,
    said: RefCell<Vec<u8>>,
}

impl<'a> Room<'a> {
    /// With these words, of which a space ends each but the last.
    pub fn new(alloc: Global, words: &'a [u8], bus: &'a Bus) -> Room<'a> {
        Room {
            alloc,
            words,
            bus,
            said: RefCell::new(Vec::new(alloc)),
        }
    }

    /// Whether what was said has this text.
    pub fn has_said(&self, text: &str) -> bool {
        let Ok(bytes) = self.said.try_borrow() else {
            return false;
        };
        match str::from_utf8(bytes.as_slice()) {
            Ok(said) => said.contains(text),
            Err(_) => false,
        }
    }

    fn say<D: Display + Drop>(&self, value: D, end: &str) -> io::Result<()> {
        match self.said.try_borrow_mut() {
            Ok(mut bytes) => write!(bytes, "{value}{end}"),
            Err(_) => Err(io::Error::from(ErrorKind::Other)),
        }
    }
}

impl Alloc for Room<'_> {
    type A = Global;

    fn alloc(&self) -> Global {
        self.alloc
    }
}

impl Env for Room<'_> {
    fn arg(&self, i: usize, buf: &mut [u8]) -> Result<usize, FillError> {
        let Some(bytes) = self.words.split(|byte| *byte == b' ').nth(i) else {
            return Err(FillError::NotPresent);
        };
        if buf.len() < bytes.len() {
            return Err(FillError::TooLong);
        }
        buf[..bytes.len()].copy_from_slice(bytes);
        Ok(bytes.len())
    }

    fn var(&self, _name: &str, _buf: &mut [u8]) -> Result<usize, FillError> {
        Err(FillError::NotPresent)
    }

    fn var_at(&self, _i: usize, _buf: &mut [u8]) -> Result<usize, FillError> {
        Err(FillError::NotPresent)
    }
}

impl<'a> Input for Room<'a> {
    type Reader = Told<'a>;

    fn read_line<A: Allocator + Clone>(&self, _buf: &mut String<A>) -> io::Result<usize> {
        Err(io::Error::from(ErrorKind::Unsupported))
    }

    fn lines<A: Allocator>(&self, alloc: A) -> Lines<Told<'a>, A> {
        self.reader().lines(alloc)
    }

    fn reader(&self) -> Told<'a> {
        Told(self.bus)
    }
}

impl Print for Room<'_> {
    fn print<D: Display + Drop>(&self, _value: D) -> io::Result<()> {
        Err(io::Error::from(ErrorKind::Unsupported))
    }

    fn println<D: Display + Drop>(&self, _value: D) -> io::Result<()> {
        Err(io::Error::from(ErrorKind::Unsupported))
    }

    fn write_all(&self, bytes: &[u8]) -> io::Result<()> {
        Put(self.bus).write_all(bytes)
    }
}

impl Eprint for Room<'_> {
    fn eprint<D: Display + Drop>(&self, value: D) -> io::Result<()> {
        self.say(value, "")
    }

    fn eprintln<D: Display + Drop>(&self, value: D) -> io::Result<()> {
        self.say(value, "\n")
    }
}

impl Clock for Room<'_> {
    fn monotonic(&self) -> io::Result<Duration> {
        Ok(Duration::ZERO)
    }

    fn since_1970(&self) -> io::Result<Duration> {
        Ok(Duration::ZERO)
    }
}
