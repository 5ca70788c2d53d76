ghost use Rattle.std.specs.Prelude.{◌≡◌, ◌<◌, ◌%◌, ◌^◌};

use std::marker::Model;

/// Some of the gear of a row: gear g is the bit of value 2^g. A bit past the last gear has no effect.
///
/// Contracts see the number of these bits. They lie in four words, so that what holds a set, as an event of a log does,
/// needs no more room than its bytes.
#[derive(Clone, Copy, Debug, PartialEq, Eq)]
pub struct GearSet {
    /// Gear 0 to 31.
    first: u32,
    /// Gear 32 to 63.
    second: u32,
    /// Gear 64 to 95.
    third: u32,
    /// Gear 96 to 127.
    fourth: u32,
}

impl Model for GearSet {
    ghost use Rattle.std.specs.Prelude.{ℕ, ◌+◌, ◌*◌, ◌<◌, ◌^◌, ◌/◌, ◌%◌};

    ghost Value = { ℕ };

    ghost view = { λ s. s.first + 2 ^ 32 * s.second + 2 ^ 64 * s.third + 2 ^ 96 * s.fourth };

    ghost invariant = { λ s. (s.first < 2 ^ 32) × (s.second < 2 ^ 32) × (s.third < 2 ^ 32) × (s.fourth < 2 ^ 32) };

    ghost inverse = { λ n. record {
      first = n % 2 ^ 32;
      second = n / 2 ^ 32 % 2 ^ 32;
      third = n / 2 ^ 64 % 2 ^ 32;
      fourth = n / 2 ^ 96;
    } };
}

impl GearSet {
    /// No gear.
    pub const NONE: GearSet = GearSet {
        first: 0,
        second: 0,
        third: 0,
        fourth: 0,
    };

    /// The gear of these bits.
    pub fn of(bits: u128) -> GearSet
        ensures { result ≡ bits }
    {
        GearSet {
            first: last_word(bits),
            second: last_word(bits >> 32),
            third: last_word(bits >> 64),
            fourth: last_word(bits >> 96),
        }
    }

    /// The bits.
    #[inline(always)]
    pub fn bits(&self) -> u128
        ensures value { result ≡ self.now }
        ensures range { self.now < 2 ^ 128 }
    {
        let low = u128::from(self.first) + (u128::from(self.second) << 32);
        let high = u128::from(self.third) + (u128::from(self.fourth) << 32);
        low + (high << 64)
    }
}

/// The last 32 of these bits.
fn last_word(bits: u128) -> u32
    ensures { result ≡ bits % 2 ^ 32 }
{
    (bits % (1 << 32)) as u32
}
