//! Random addresses and search addresses as plain bytes, and one pair of addresses.

ghost use Rattle.std.specs.Prelude.{◌≡◌, ◌<◌};
ghost use Rattle.dali_c.specs.Pairs.{random_of, search_of, read_pair};

use dali_frame::{Random24, SearchAddress, Short};
use dali_script::Pair;

/// A random address, or a search address, as its three bytes.
#[repr(C)]
#[derive(Clone, Copy)]
pub struct PlainRandom {
    pub high: u8,
    pub middle: u8,
    pub low: u8,
}

impl PlainRandom {
    pub(crate) fn of(random: Random24) -> PlainRandom
        ensures { random_of result ≡ random }
    {
        PlainRandom::of_search(SearchAddress::of(random))
    }

    pub(crate) fn of_search(number: SearchAddress) -> PlainRandom
        ensures { search_of result ≡ number }
    {
        PlainRandom {
            high: number.high,
            middle: number.middle,
            low: number.low,
        }
    }

    pub(crate) fn read(self) -> Random24
        ensures { result ≡ random_of self }
    {
        Random24::from_bytes(self.high, self.middle, self.low)
    }

    pub(crate) fn search(self) -> SearchAddress
        ensures { result ≡ search_of self }
    {
        SearchAddress {
            high: self.high,
            middle: self.middle,
            low: self.low,
        }
    }
}

/// The two numbers of a pair. None if the short address is above 63.
pub(crate) fn read_pair(pair: Pair) -> Option<(Short, Random24)>
    ensures { result ≡ read_pair pair }
{
    let short = Short::of(pair.address())?;
    Some((short, pair.random()))
}
