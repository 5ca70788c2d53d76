//! The time scale of a dump.

ghost use Rattle.std.specs.Prelude.{◌≡◌, ◌*◌, option_map};
ghost use Rattle.dali_capture.specs.Headers.{scale_in, unit_in, fitting, micros_of};

use crate::fault::Reason;
use crate::words::after_mark;

/// A unit of time.
#[derive(Clone, Copy)]
pub enum Unit {
    Second,
    Millisecond,
    Microsecond,
    Nanosecond,
    Picosecond,
    Femtosecond,
}

/// How long a tick of a dump takes: so many units.
#[derive(Clone, Copy)]
pub struct Timescale {
    /// 1, 10 or 100.
    pub times: u64,
    /// The unit.
    pub unit: Unit,
}

/// The number that a time scale begins with, 1, 10 or 100, and what follows it.
pub fn scale_in(word: &[u8]) -> Option<(u64, &[u8])>
    ensures { option_map (λ s. (s.0, s.1.now)) result ≡ scale_in word.now }
{
    let one = after_mark(word, b'1')?;
    let Some(ten) = after_mark(one, b'0') else {
        return Some((1, one));
    };
    match after_mark(ten, b'0') {
        Some(hundred) => Some((100, hundred)),
        None => Some((10, ten)),
    }
}

/// The unit of this name.
pub fn unit_in(word: &[u8]) -> Option<Unit>
    ensures { result ≡ unit_in word.now }
{
    if word == b"s".as_slice() {
        Some(Unit::Second)
    } else if word == b"ms".as_slice() {
        Some(Unit::Millisecond)
    } else if word == b"us".as_slice() {
        Some(Unit::Microsecond)
    } else if word == b"ns".as_slice() {
        Some(Unit::Nanosecond)
    } else if word == b"ps".as_slice() {
        Some(Unit::Picosecond)
    } else if word == b"fs".as_slice() {
        Some(Unit::Femtosecond)
    } else {
        None
    }
}

/// So many times as many, if that is below 2^64.
fn product(number: u64, times: u64) -> Result<u64, Reason>
    ensures { result ≡ fitting (number * times) }
{
    match number.checked_mul(times) {
        Some(product) => Ok(product),
        None => Err(Reason::TimeTooLarge),
    }
}

impl Timescale {
    /// So many ticks in whole µs.
    pub fn micros(self, ticks: u64) -> Result<u64, Reason>
        ensures { result ≡ micros_of self ticks }
    {
        let units = product(ticks, self.times)?;
        match self.unit {
            Unit::Second => product(units, 1_000_000),
            Unit::Millisecond => product(units, 1_000),
            Unit::Microsecond => Ok(units),
            Unit::Nanosecond => Ok(units / 1_000),
            Unit::Picosecond => Ok(units / 1_000_000),
            Unit::Femtosecond => Ok(units / 1_000_000_000),
        }
    }
}
