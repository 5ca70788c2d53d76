ghost use Rattle.std.specs.Prelude.{◌≡◌, ℕ, ◌+◌, ◌^◌, ◌<◌, ◌≤◌, ◌↔◌, Some, IsSome, IfSome};

use std::marker::Model;

/// A short address, 0 to 63 (IEC 62386-102:2014, short address).
///
/// Contracts see the number.
#[derive(Clone, Copy, Debug, PartialEq, Eq, PartialOrd, Ord)]
pub struct Short {
    number: u8,
}

impl Model for Short {
    ghost use Rattle.std.specs.Prelude.{ℕ, ◌<◌};

    ghost Value = { ℕ };

    ghost view = { λ a. a.number };

    ghost invariant = { λ a. a.number < 64 };

    ghost inverse = { λ n. record { number = n } };
}

/// 0, in a place of an array that holds none yet.
impl Default for Short {
    ghost use Rattle.std.specs.Prelude.{◌≡◌};

    ghost is_default = { λ a. a ≡ 0 };

    fn default() -> Short {
        Short { number: 0 }
    }
}

impl Short {
    ghost use Rattle.dali_frame.specs.Short.{code_of, short_of};

    /// 0, the least short address.
    pub const FIRST: Short = Short { number: 0 };

    /// 63, the greatest short address.
    pub const LAST: Short = Short { number: 63 };

    /// The short address of this number; `None` from 64 on.
    #[inline(always)]
    pub fn of(number: u8) -> Option<Short>
        ensures range { IsSome result ↔ (number < 64) }
        ensures value { IfSome result (λ a. a ≡ number) }
    {
        if number < 64 {
            Some(Short { number })
        } else {
            None
        }
    }

    /// The data byte that names the address, `0AAAAAA1`.
    pub fn code(self) -> u8
        ensures { result ≡ code_of self }
    {
        let number = self.number;
        2 * number + 1
    }

    /// The address that a data byte names: `Some` for the bytes `0AAAAAA1` alone.
    ///
    /// MASK, `FF`, is no short address, and neither is an even byte.
    pub fn read(byte: u8) -> Option<Short>
        ensures table { result ≡ short_of byte }
        ensures written { IfSome result (λ a. byte ≡ code_of a) }
        ensures read { (a : ℕ) → a < 64 → byte ≡ code_of a → result ≡ Some a }
    {
        if byte % 2 == 1 && byte < 128 {
            Some(Short { number: byte / 2 })
        } else {
            None
        }
    }

    /// The number, 0 to 63.
    #[inline(always)]
    pub fn number(self) -> u8
        ensures value { result ≡ self }
        ensures range { self < 64 }
    {
        self.number
    }
}

/// A random address, or another number of 24 bits (IEC 62386-102:2014, random address).
///
/// Contracts see the number.
#[derive(Clone, Copy, Debug, PartialEq, Eq, PartialOrd, Ord)]
pub struct Random24 {
    value: u32,
}

impl Model for Random24 {
    ghost use Rattle.std.specs.Prelude.{ℕ, ◌<◌, ◌^◌};

    ghost Value = { ℕ };

    ghost view = { λ r. r.value };

    ghost invariant = { λ r. r.value < 2 ^ 24 };

    ghost inverse = { λ n. record { value = n } };
}

/// MASK, as at reset.
impl Default for Random24 {
    ghost use Rattle.std.specs.Prelude.{◌≡◌};
    ghost use Rattle.dali_frame.specs.Random.{MASK24};

    ghost is_default = { λ r. r ≡ MASK24 };

    fn default() -> Random24 {
        Random24::MASK
    }
}

impl Random24 {
    ghost use Rattle.dali_frame.specs.Random.{high_of, middle_of, low_of, number_of};

    /// MASK: the random address at reset, which no gear draws.
    pub const MASK: Random24 = Random24 { value: 0xFFFFFF };

    /// The number, if it has at most 24 bits.
    pub fn of(number: u32) -> Option<Random24>
        ensures range { IsSome result ↔ (number < 2 ^ 24) }
        ensures value { IfSome result (λ r. r ≡ number) }
    {
        if number <= 0xFFFFFF {
            Some(Random24 { value: number })
        } else {
            None
        }
    }

    /// The number, 0 to `FFFFFF`.
    #[inline(always)]
    pub fn value(self) -> u32
        ensures value { result ≡ self }
        ensures range { self < 2 ^ 24 }
    {
        self.value
    }

    /// Bits 23 to 16.
    #[inline(always)]
    pub fn high(self) -> u8
        ensures { result ≡ high_of self }
    {
        let value = self.value;
        (value / 65536) as u8
    }

    /// Bits 15 to 8.
    #[inline(always)]
    pub fn middle(self) -> u8
        ensures { result ≡ middle_of self }
    {
        let value = self.value;
        (value / 256 % 256) as u8
    }

    /// Bits 7 to 0.
    #[inline(always)]
    pub fn low(self) -> u8
        ensures { result ≡ low_of self }
    {
        let value = self.value;
        (value % 256) as u8
    }

    /// The number of three bytes.
    #[inline(always)]
    pub fn from_bytes(high: u8, middle: u8, low: u8) -> Random24
        ensures { result ≡ number_of high middle low }
    {
        let value = u32::from(high) * 65536 + u32::from(middle) * 256 + u32::from(low);
        Random24 { value }
    }
}

/// A search address: the three bytes that SEARCHADDRH, SEARCHADDRM and SEARCHADDRL set one at a time
/// (IEC 62386-102:2014, search address).
#[derive(Clone, Copy, Debug, PartialEq, Eq)]
pub struct SearchAddress {
    /// Bits 23 to 16, set by SEARCHADDRH.
    pub high: u8,
    /// Bits 15 to 8, set by SEARCHADDRM.
    pub middle: u8,
    /// Bits 7 to 0, set by SEARCHADDRL.
    pub low: u8,
}

impl SearchAddress {
    ghost use Rattle.dali_frame.specs.Random.{value_of, high_of, middle_of, low_of};

    /// MASK: the search address at power-on.
    pub const MASK: SearchAddress = SearchAddress {
        high: 0xFF,
        middle: 0xFF,
        low: 0xFF,
    };

    /// The three bytes of a number.
    pub fn of(number: Random24) -> SearchAddress
        ensures high { result.high ≡ high_of number }
        ensures middle { result.middle ≡ middle_of number }
        ensures low { result.low ≡ low_of number }
        ensures value { value_of result ≡ number }
    {
        SearchAddress {
            high: number.high(),
            middle: number.middle(),
            low: number.low(),
        }
    }

    /// The number that the three bytes are.
    pub fn value(self) -> Random24
        ensures { result ≡ value_of self }
    {
        Random24::from_bytes(self.high, self.middle, self.low)
    }
}

/// The priority of a forward frame, 1 (highest) to 5 (IEC 62386-101:2014, multi-master transmitters).
///
/// In the standard it is the time for which a transmitter waits before it sends, and so decides who is first. Here it
/// decides in which list a request waits (this project's profile).
///
/// Contracts see the number.
#[derive(Clone, Copy, Debug, PartialEq, Eq)]
pub struct Priority {
    number: u8,
}

impl Model for Priority {
    ghost use Rattle.std.specs.Prelude.{ℕ, ◌≤◌};

    ghost Value = { ℕ };

    ghost view = { λ p. p.number };

    ghost invariant = { λ p. (1 ≤ p.number) × (p.number ≤ 5) };

    ghost inverse = { λ n. record { number = n } };
}

impl Priority {
    /// The priority of a transaction's first frame, unless it is direct arc power.
    pub const FIRST: Priority = Priority { number: 3 };

    /// The priority of each later frame of a transaction, which its sender alone may use.
    pub const LATER: Priority = Priority { number: 1 };

    /// The priority of direct arc power.
    pub const ARC: Priority = Priority { number: 2 };

    /// The priority of this number; `None` outside 1 to 5.
    pub fn of(number: u8) -> Option<Priority>
        ensures range { IsSome result ↔ ((1 ≤ number) × (number ≤ 5)) }
        ensures value { IfSome result (λ p. p ≡ number) }
    {
        if 1 <= number && number <= 5 {
            Some(Priority { number })
        } else {
            None
        }
    }

    /// The number, 1 to 5.
    pub fn number(self) -> u8
        ensures value { result ≡ self }
        ensures least { 1 ≤ self }
        ensures most { self ≤ 5 }
    {
        self.number
    }
}
