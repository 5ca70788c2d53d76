ghost use Rattle.std.specs.Prelude.{◌≡◌, [], ◌∷◌, length, MatchOption};
ghost use Rattle.dali_wire.specs.Levels.{sent_levels, forward_bits, backward_bits};

use dali_frame::Forward;
use std::marker::Model;

/// How many half bits the stop condition of a sender takes.
const STOP: u8 = 6;

/// A frame that is being sent, half bit by half bit, each 416.7 µs long.
///
/// Contracts see the levels that are still to be sent, true while the bus is low.
#[derive(Drop)]
pub struct Sender {
    /// The bits that are left, as a number of so many bits.
    number: u32,
    left: u8,
    /// Whether the first half of the first one is sent.
    is_second: bool,
    /// How many half bits of the stop condition are left.
    stop: u8,
}

impl Model for Sender {
    ghost use Rattle.std.specs.Prelude.{List, Bool, ◌≤◌};
    ghost use Rattle.dali_wire.specs.Levels.{to_send};

    ghost Value = { List Bool };

    ghost view = { λ s. to_send s.number s.left s.is_second s.stop };

    ghost invariant = { λ s. s.left ≤ 17 };
}

impl Sender {
    /// Sends a forward frame.
    pub fn forward(frame: Forward) -> Sender
        ensures levels { result ≡ sent_levels (forward_bits frame) }
        ensures count { length result ≡ 40 }
    {
        Sender {
            number: 0x10000 + 256 * u32::from(frame.address_byte) + u32::from(frame.opcode_byte),
            left: 17,
            is_second: false,
            stop: STOP,
        }
    }

    /// Sends a backward frame.
    pub fn backward(byte: u8) -> Sender
        ensures { result ≡ sent_levels (backward_bits byte) }
    {
        Sender {
            number: 0x100 + u32::from(byte),
            left: 9,
            is_second: false,
            stop: STOP,
        }
    }

    /// The next half bit: whether the bus is low in it. None once the stop condition is over.
    pub fn half(&mut self) -> Option<bool>
        ensures { MatchOption result ((self.old ≡ []) × (self.new ≡ [])) (λ low. self.old ≡ low ∷ self.new) }
    {
        if self.left == 0 {
            if self.stop == 0 {
                return None;
            }
            self.stop -= 1;
            return Some(false);
        }
        let weight = 1u32 << (self.left - 1);
        let is_one = weight <= self.number;
        if !self.is_second {
            self.is_second = true;
            return Some(is_one);
        }
        self.is_second = false;
        self.left -= 1;
        if is_one {
            self.number -= weight;
            return Some(false);
        }
        Some(true)
    }
}
