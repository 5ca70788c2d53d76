//! What a survey has counted, as plain bytes.

ghost use Rattle.std.specs.Prelude.{◌≡◌, Some};
ghost use Rattle.dali_c.specs.Tallies.{tally_of, numbers_of, failed_of};

use crate::codes::{bool_of, rolls_code, rolls_of};
use crate::pairs::PlainRandom;
use dali_controller::{Passed, Tally};
use dali_frame::Random24;

/// A [`Tally`]. `rolls` is what was heard of roll calls; `failed` is read only if `has_failed` is 1.
#[repr(C)]
#[derive(Clone, Copy)]
pub struct PlainTally {
    pub draws: u8,
    pub rolls: u8,
    pub calls: u8,
    pub askings: u8,
    pub is_missed: u8,
    pub has_failed: u8,
    pub failed: PlainRandom,
    pub passed_count: u8,
    pub passed: [PlainRandom; 8],
}

impl PlainTally {
    pub(crate) fn of(tally: &Tally) -> PlainTally
        ensures { tally_of result ≡ Some tally.now }
    {
        let failed = match tally.failed {
            Some(failed) => failed,
            None => Random24::MASK,
        };
        PlainTally {
            draws: tally.draws,
            rolls: rolls_code(tally.is_silent, tally.is_heard),
            calls: tally.calls,
            askings: tally.askings,
            is_missed: u8::from(tally.is_missed),
            has_failed: u8::from(tally.failed.is_some()),
            failed: PlainRandom::of(failed),
            passed_count: tally.passed.count,
            passed: write_numbers(tally.passed.numbers),
        }
    }

    /// None if its bytes are none of a tally's.
    pub(crate) fn read(&self) -> Option<Tally>
        ensures { result ≡ tally_of self.now }
    {
        let (is_silent, is_heard) = rolls_of(self.rolls)?;
        let is_missed = bool_of(self.is_missed)?;
        let failed = read_failed(bool_of(self.has_failed)?, self.failed);
        Some(Tally {
            draws: self.draws,
            is_silent,
            is_heard,
            calls: self.calls,
            askings: self.askings,
            is_missed,
            failed,
            passed: Passed {
                numbers: read_numbers(self.passed),
                count: self.passed_count,
            },
        })
    }
}

/// The number whose visit failed, if one did.
fn read_failed(has_failed: bool, failed: PlainRandom) -> Option<Random24>
    ensures { result ≡ failed_of has_failed failed }
{
    if has_failed {
        Some(failed.read())
    } else {
        None
    }
}

fn read_numbers(bytes: [PlainRandom; 8]) -> [Random24; 8]
    ensures { result ≡ numbers_of bytes }
{
    bytes.map(|bytes| bytes.read())
}

fn write_numbers(numbers: [Random24; 8]) -> [PlainRandom; 8]
    ensures { numbers_of result ≡ numbers }
{
    numbers.map(|number| PlainRandom::of(number))
}
