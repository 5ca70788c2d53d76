//! A receiver, and a window after a forward frame, as plain bytes.

ghost use Rattle.std.specs.Prelude.{◌≡◌, Some};
ghost use Rattle.dali_c.specs.Receivers.{reading_of, receiver_of, window_of, IsTold, IsHeard};

use crate::codes::{answer_code, answer_of, bool_code, bool_of};
use dali_frame::Answer;
use dali_wire::{Frame, Reading, Receiver, Told, Window};

/// A [`Receiver`]. `bits` are read if its reading has some.
#[repr(C)]
#[derive(Clone, Copy)]
pub struct PlainReceiver {
    pub reading: u8,
    pub is_low: u8,
    pub bits: [u8; 4],
    pub lasted: [u8; 4],
}

impl PlainReceiver {
    pub(crate) fn of(receiver: Receiver) -> PlainReceiver
        ensures { receiver_of result ≡ Some receiver }
    {
        let (reading, bits) = reading_code(receiver.reading);
        PlainReceiver {
            reading,
            is_low: bool_code(receiver.is_low),
            bits: bits.to_le_bytes(),
            lasted: receiver.lasted.to_le_bytes(),
        }
    }

    /// None if its bytes are none of a receiver's.
    pub(crate) fn read(self) -> Option<Receiver>
        ensures { result ≡ receiver_of self }
    {
        let reading = reading_of(self.reading, u32::from_le_bytes(self.bits))?;
        let is_low = bool_of(self.is_low)?;
        Some(Receiver {
            reading,
            is_low,
            lasted: u32::from_le_bytes(self.lasted),
        })
    }
}

/// What a receiver tells: kind 0 is nothing yet, 1 a forward frame, 2 a backward frame, 3 a frame for other devices, 4
/// a damaged one. How long ago its last edge was is not told: the call was told that.
#[repr(C)]
#[derive(Clone, Copy)]
pub struct PlainTold {
    pub kind: u8,
    pub bytes: [u8; 3],
    pub lasted: [u8; 4],
}

impl PlainTold {
    pub(crate) fn of(told: Option<Told>) -> PlainTold
        ensures { IsTold result told }
    {
        let Some(told) = told else {
            return PlainTold {
                kind: 0,
                bytes: [0; 3],
                lasted: [0; 4],
            };
        };
        let (kind, bytes) = match told.frame {
            Frame::Forward(frame) => (1, [frame.address_byte, frame.opcode_byte, 0]),
            Frame::Backward(byte) => (2, [byte, 0, 0]),
            Frame::Device(number) => (
                3,
                [
                    (number / 0x10000 % 256) as u8,
                    (number / 256 % 256) as u8,
                    (number % 256) as u8,
                ],
            ),
            Frame::Damaged => (4, [0; 3]),
        };
        PlainTold {
            kind,
            bytes,
            lasted: told.lasted.to_le_bytes(),
        }
    }
}

/// How much the code of what a window heard is greater if it has passed over a pulse.
const PULSE: u8 = 4;

/// A [`Window`].
#[repr(C)]
#[derive(Clone, Copy)]
pub struct PlainWindow {
    pub receiver: PlainReceiver,
    pub elapsed: [u8; 4],
    pub heard: u8,
    pub byte: u8,
}

impl PlainWindow {
    pub(crate) fn of(window: Window) -> PlainWindow
        ensures { window_of result ≡ Some window }
    {
        let (heard, byte) = answer_code(window.heard);
        PlainWindow {
            receiver: PlainReceiver::of(window.receiver),
            elapsed: window.elapsed.to_le_bytes(),
            heard: if window.has_pulse {
                heard + PULSE
            } else {
                heard
            },
            byte,
        }
    }

    /// None if its bytes are none of a window's.
    pub(crate) fn read(self) -> Option<Window>
        ensures { result ≡ window_of self }
    {
        let receiver = self.receiver.read()?;
        let has_pulse = self.heard >= PULSE;
        let code = if has_pulse {
            self.heard - PULSE
        } else {
            self.heard
        };
        let heard = answer_of(code, self.byte)?;
        Some(Window {
            receiver,
            elapsed: u32::from_le_bytes(self.elapsed),
            heard,
            has_pulse,
        })
    }
}

/// What a window tells: whether it is over, and then what a machine is told.
#[repr(C)]
#[derive(Clone, Copy)]
pub struct PlainHeard {
    pub is_over: u8,
    pub input: u8,
    pub byte: u8,
}

impl PlainHeard {
    pub(crate) fn of(told: Option<Answer>) -> PlainHeard
        ensures { IsHeard result told }
    {
        match told {
            None => PlainHeard {
                is_over: 0,
                input: 0,
                byte: 0,
            },
            Some(heard) => {
                let (input, byte) = answer_code(heard);
                PlainHeard {
                    is_over: 1,
                    input,
                    byte,
                }
            }
        }
    }
}

/// Where the last edge stood.
fn reading_of(code: u8, bits: u32) -> Option<Reading>
    ensures { result ≡ reading_of code bits }
{
    match code {
        0 => Some(Reading::Idle),
        1 => Some(Reading::First),
        2 => Some(Reading::Between(bits)),
        3 => Some(Reading::Middle(bits)),
        4 => Some(Reading::Spoilt),
        _ => None,
    }
}

/// The code of a reading, and its bits.
fn reading_code(reading: Reading) -> (u8, u32)
    ensures { reading_of result.0 result.1 ≡ Some reading }
{
    match reading {
        Reading::Idle => (0, 0),
        Reading::First => (1, 0),
        Reading::Between(bits) => (2, bits),
        Reading::Middle(bits) => (3, bits),
        Reading::Spoilt => (4, 0),
    }
}
