ghost use Rattle.std.specs.Prelude.{◌≡◌, Some};
ghost use Rattle.dali_capture.specs.Items.{length_of, heard_of, item_text};

use dali_frame::Forward;
use dali_wire::Frame;
use std::fmt;

/// What was heard between two times at which the bus was at rest.
#[derive(Clone, Copy, Debug, PartialEq, Eq)]
pub enum Heard {
    /// A forward frame of 16 bits.
    Forward(Forward),
    /// A backward frame of these 8 bits.
    Backward(u8),
    /// A forward frame of 24 bits, for other devices.
    Device,
    /// What is none of these: several answers at once, two frames at once, or noise.
    Damaged,
}

/// What was heard, and when, in µs from the begin of the capture.
#[derive(Clone, Copy, Debug, PartialEq, Eq)]
pub struct Item {
    /// When it began: its first edge.
    pub at: u64,
    /// When it was over: its last edge, without the stop condition.
    pub until: u64,
    /// What it was.
    pub what: Heard,
}

impl Heard {
    /// What a receiver told.
    pub(crate) fn of(frame: Frame) -> Heard
        ensures { result ≡ heard_of frame }
    {
        match frame {
            Frame::Forward(frame) => Heard::Forward(frame),
            Frame::Backward(byte) => Heard::Backward(byte),
            Frame::Device(_) => Heard::Device,
            Frame::Damaged => Heard::Damaged,
        }
    }

    /// How long it takes at 1,200 bit/s, in µs, without its stop condition; of what is damaged, as long as a backward
    /// frame.
    pub(crate) fn length(self) -> u64
        ensures { result ≡ length_of self }
    {
        match self {
            Heard::Forward(_) => 14167,
            Heard::Backward(_) | Heard::Damaged => 7500,
            Heard::Device => 20833,
        }
    }
}

/// The line of a log that tells the item, without a line feed.
impl fmt::Display for Item {
    ghost output = { λ item. Some (item_text item) };

    #[tactic(auto, using(std::proofs::lemmas::Fmt::hex_byte))]
    fn fmt<W: fmt::Write>(&self, f: &mut fmt::Formatter<W>) -> fmt::Result {
        let at = self.at;
        match self.what {
            Heard::Forward(frame) => write!(f, "{at} {frame}"),
            Heard::Backward(byte) => write!(f, "{at} < {byte:02X}"),
            Heard::Device => write!(f, "{at} device"),
            Heard::Damaged => write!(f, "{at} < damaged"),
        }
    }
}
