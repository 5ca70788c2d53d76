ghost use Rattle.std.specs.Prelude.{◌≡◌, ◌<◌, length, replicate, slice_index_or, slice_set};
ghost use Rattle.dali_gear.specs.Gear.{search_mask};

use dali_frame::SearchAddress;
use std::marker::Model;

/// A 24-bit address for each gear of a row, by the numbers of the gear.
///
/// Contracts see the list of them, each by its three bytes. Inside, each byte of all of them stands in an array of its
/// own, so that the compiler compares the addresses of sixteen gear at a time.
#[derive(Drop)]
pub struct Addresses {
    high: [u8; 128],
    middle: [u8; 128],
    low: [u8; 128],
}

impl Model for Addresses {
    ghost use Rattle.std.specs.Prelude.{List};
    ghost use Rattle.dali_frame.specs.declared.numbers.SearchAddress.{SearchAddress};
    ghost use Rattle.dali_gear.specs.Addresses.{all_addresses};

    ghost Value = { List SearchAddress };

    ghost view = { all_addresses };
}

impl Addresses {
    /// `FFFFFF` for each gear.
    pub(crate) fn masked() -> Addresses
        ensures { result ≡ replicate 128 search_mask }
    {
        Addresses {
            high: [0xFF; 128],
            middle: [0xFF; 128],
            low: [0xFF; 128],
        }
    }

    /// The address of a gear.
    #[inline(always)]
    pub(crate) fn get(&self, number: usize) -> SearchAddress
        requires { number < length self.now }
        ensures { result ≡ slice_index_or self.now number search_mask }
    {
        SearchAddress {
            high: self.high[number],
            middle: self.middle[number],
            low: self.low[number],
        }
    }

    /// Sets the address of a gear.
    #[inline(always)]
    pub(crate) fn set(&mut self, number: usize, address: SearchAddress)
        requires { number < length self.old }
        ensures { self.new ≡ slice_set self.old number address }
    {
        self.high[number] = address.high;
        self.middle[number] = address.middle;
        self.low[number] = address.low;
    }
}
