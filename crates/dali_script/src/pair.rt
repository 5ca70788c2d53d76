ghost use Rattle.std.specs.Prelude.{◌≡◌, ◌↔◌, IsTrue};

use dali_frame::{Random24, Short};
use std::marker::Model;

/// A short address, and the random address that it is for, as four bytes in the layout of C.
///
/// Contracts see the two numbers. Any four bytes are a pair: of one that no controller keeps, the short address may be
/// above 63.
#[repr(C)]
#[derive(Clone, Copy)]
pub struct Pair {
    address: u8,
    high: u8,
    middle: u8,
    low: u8,
}

impl Model for Pair {
    ghost use Rattle.std.specs.Prelude.{◌<◌};
    ghost use Rattle.std.proofs.Common.{ap, ◌∙◌};
    ghost use Rattle.dali_frame.specs.Random.{number_of, high_of, middle_of, low_of};
    ghost use Rattle.dali_frame.proofs.Bytes.{high_back, middle_back, low_back};
    ghost use Rattle.dali_script.specs.Records.{Assignment};

    ghost Value = { Assignment };

    ghost view = { λ p. (p.address, number_of p.high p.middle p.low) };

    ghost invariant = { λ p. (p.address < 256) × (p.high < 256) × (p.middle < 256) × (p.low < 256) };

    ghost inverse = { λ v. record {
      address = v.0;
      high = high_of v.1;
      middle = middle_of v.1;
      low = low_of v.1;
    } };

    ghost inverse_ok = { λ p h.
        let middle = middle_of (number_of p.high p.middle p.low) in
        let low = low_of (number_of p.high p.middle p.low) in
        ap (λ n. record { address = p.address; high = n; middle = middle; low = low })
        (high_back p.high p.middle p.low h.2 h.3)
        ∙ ap (λ n. record { address = p.address; high = p.high; middle = n; low = low })
        (middle_back p.high p.middle p.low h.2 h.3)
        ∙ ap (λ n. record { address = p.address; high = p.high; middle = p.middle; low = n })
        (low_back p.high p.middle p.low h.2 h.3) };
}

/// Short address 0 and random address `000000`.
impl Default for Pair {
    ghost use Rattle.std.specs.Prelude.{◌≡◌};

    ghost is_default = { λ p. p ≡ (0, 0) };

    fn default() -> Pair {
        Pair {
            address: 0,
            high: 0,
            middle: 0,
            low: 0,
        }
    }
}

impl Pair {
    ghost use Rattle.std.specs.Prelude.{◌<◌};
    ghost use Rattle.dali_frame.specs.Random.{MASK24};
    ghost use Rattle.dali_script.specs.Pairs.{last_bits};

    /// The pair of a short address and a random address.
    pub fn of(address: Short, random: Random24) -> Pair
        ensures pair { result ≡ (address, random) }
        ensures short { result.0 < 64 }
    {
        Pair {
            address: address.number(),
            high: random.high(),
            middle: random.middle(),
            low: random.low(),
        }
    }

    /// The short address, 0 to 63 if a controller keeps the pair.
    #[inline(always)]
    pub fn address(&self) -> u8
        ensures { result ≡ self.now.0 }
    {
        self.address
    }

    /// The random address.
    #[inline(always)]
    pub fn random(&self) -> Random24
        ensures { result ≡ self.now.1 }
    {
        Random24::from_bytes(self.high, self.middle, self.low)
    }

    /// Whether the random address is one that gear draw: below `FFFFFF`.
    #[inline(always)]
    pub(crate) fn is_drawn(&self) -> bool
        ensures { IsTrue result ↔ (self.now.1 < MASK24) }
    {
        self.low < 0xFF || self.middle < 0xFF || self.high < 0xFF
    }

    /// The last six bits of the random address.
    #[inline(always)]
    pub(crate) fn last_bits(&self) -> u8
        ensures bits { result ≡ last_bits self.now.1 }
        ensures small { result < 64 }
    {
        self.low % 64
    }

    /// Some pair with this random address.
    #[inline(always)]
    pub(crate) fn sharing(random: Random24) -> Pair
        ensures { result.1 ≡ random }
    {
        Pair {
            address: 0,
            high: random.high(),
            middle: random.middle(),
            low: random.low(),
        }
    }

    /// Whether both have the same random address. The middle bytes, which differ most often when the last bits are
    /// the same, are looked at first.
    #[inline(always)]
    pub(crate) fn shares_random(&self, other: &Pair) -> bool
        ensures { IsTrue result ↔ (self.now.1 ≡ other.now.1) }
    {
        self.middle == other.middle && self.low == other.low && self.high == other.high
    }

    /// Whether both have the same short address and the same random address.
    #[inline(always)]
    pub fn is(self, other: Pair) -> bool
        ensures { IsTrue result ↔ (self ≡ other) }
    {
        self.address == other.address && self.random() == other.random()
    }
}
