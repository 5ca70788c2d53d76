//! A frame on the bus, half bit by half bit, and compared with it.

ghost use Rattle.std.specs.Prelude.{◌≡◌, ◌<◌, ◌+◌, ◌*◌, ◌^◌};
ghost use Rattle.dali_port.specs.State.{is_so, seen, sent_of};
ghost use Rattle.dali_port.specs.Frames.{level_at, driven_in, compared, turned, sent_until};
ghost use Rattle.dali_port.specs.Ports.{on_course};

use crate::state::Port;
use dali_frame::Forward;

/// A half bit of a sender, in µs (IEC 62386-101:2014, transmitter bit timing).
pub(crate) const HALF_BIT: u64 = 417;

/// How many half bits a forward frame has, with its stop condition.
const HALVES: u8 = 40;

/// How long the level of the bus may differ from the one that is driven, in µs.
const APART: u64 = 40;

/// The 17 bits of a frame, with its start bit.
fn bits(frame: Forward) -> u32
    ensures bits { result ≡ 0x10000 + 256 * frame.address_byte + frame.opcode_byte }
    ensures count { result < 2 ^ 17 }
{
    0x10000 + 256 * u32::from(frame.address_byte) + u32::from(frame.opcode_byte)
}

/// The level of a half bit of a frame: true while the bus is low. It is high from the stop condition on.
pub(crate) fn level(frame: Forward, half: u8) -> bool
    ensures { result ≡ level_at frame half }
{
    if half >= 34 {
        return false;
    }
    let is_one = (bits(frame) >> (16 - half / 2)) % 2 == 1;
    if half % 2 == 0 { is_one } else { !is_one }
}

impl Port {
    /// The next half bit began at this time, and the bus kept its level until now.
    fn turn_half(&mut self, was_driven: bool, agreed: u64, turn: u64, now: u64)
        requires phase { self.old.phase ≡ 2 }
        requires driven { was_driven ≡ driven_in (sent_of self.old) }
        ensures { seen self.new ≡ on_course (seen self.old) (sent_of self.old) now
            (compared (turned (record (sent_of self.old) { agreed = agreed }) turn) (is_so self.old.is_low) now) }
    {
        let half = self.at_half.saturating_add(1);
        let drives_low = level(self.frame(), half);
        if was_driven != drives_low {
            self.driven = turn;
        }
        self.at_half = half;
        self.since = turn;
        let agrees = drives_low == (self.is_low != 0);
        let agreed = if agrees { now } else { agreed };
        if now.saturating_sub(agreed) > APART {
            self.destroy(now);
        } else {
            self.agreed = agreed;
        }
    }

    /// A frame that is being sent, if the bus kept its level until now.
    pub(crate) fn send_on(&mut self, now: u64)
        requires { self.old.phase ≡ 2 }
        ensures { seen self.new ≡ on_course (seen self.old) (sent_of self.old) now
            (sent_until (sent_of self.old) (is_so self.old.is_low) now) }
    {
        let lasted = now.saturating_sub(self.since);
        let is_over = lasted >= HALF_BIT;
        let end = if is_over { self.since + HALF_BIT } else { now };
        let drives_low = level(self.frame(), self.at_half);
        let agrees = drives_low == (self.is_low != 0);
        let agreed = if agrees { end } else { self.agreed };
        if end.saturating_sub(agreed) > APART {
            self.destroy(now);
        } else if !is_over {
            self.agreed = agreed;
        } else if self.at_half >= HALVES - 1 {
            self.hear(now);
        } else if lasted > 2 * HALF_BIT {
            self.destroy(now);
        } else {
            self.turn_half(drives_low, agreed, end, now);
        }
    }
}
