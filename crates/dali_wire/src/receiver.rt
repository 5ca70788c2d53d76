ghost use Rattle.std.specs.Prelude.{◌≡◌, ◌&&◌, nat_le, nat_lt};
ghost use Rattle.dali_wire.specs.Reception.{span_of, span_before, with_bit, read_edge, frame_of, frame_read, ended};
ghost use Rattle.dali_wire.specs.Reception.{longer, told_of, receiver_after, receiver_at, receiver_at_first};

use dali_frame::Forward;

/// The least and the greatest time of a half bit and of two half bits, in µs, as a receiver takes them.
const LEAST_HALF: u32 = 334;

const MOST_HALF: u32 = 500;

const LEAST_WHOLE: u32 = 667;

const MOST_WHOLE: u32 = 1000;

/// The least time of a stop condition, in µs, as a receiver takes it.
pub(crate) const LEAST_STOP: u32 = 2400;

/// What the time between two edges is.
#[derive(Clone, Copy)]
pub enum Span {
    /// Shorter than a half bit.
    Short,
    /// A half bit.
    Half,
    /// Two half bits.
    Whole,
    /// None of these, or an edge was missed.
    Wrong,
}

/// Where the last edge stood in a frame. A number is the bits that were read, with the start bit as its first one.
#[derive(Clone, Copy, Debug, PartialEq, Eq)]
pub enum Reading {
    /// No frame has begun, and the bus is high.
    Idle,
    /// A frame has begun: this is the first half of its start bit.
    First,
    /// The edge stood between two bits.
    Between(u32),
    /// The edge stood in the middle of a bit, which it told.
    Middle(u32),
    /// What has begun is no frame.
    Spoilt,
}

/// What was on the bus between two stop conditions.
#[derive(Clone, Copy, Debug, PartialEq, Eq)]
pub enum Frame {
    /// 16 bits: a forward frame.
    Forward(Forward),
    /// 8 bits: a backward frame.
    Backward(u8),
    /// 24 bits, as this number: a forward frame for other devices.
    Device(u32),
    /// Anything else: wrong bit times, a bit without a change in its middle, a wrong number of bits.
    Damaged,
}

/// A frame, and when it was.
#[derive(Clone, Copy, Debug, PartialEq, Eq)]
pub struct Told {
    /// What it was.
    pub frame: Frame,
    /// How many µs it took from its first edge to its last one, at most `u32::MAX`.
    pub lasted: u32,
    /// How many µs ago its last edge was.
    pub since: u32,
}

/// Reads the edges of a bus. Any value of its fields is a receiver, and any order of calls is taken.
#[derive(Clone, Copy, Debug, PartialEq, Eq)]
pub struct Receiver {
    /// Where the last edge stood.
    pub reading: Reading,
    /// Whether the bus is low since.
    pub is_low: bool,
    /// How many µs passed from the first edge of the frame to the last one, at most `u32::MAX`.
    pub lasted: u32,
}

fn span_for(micros: u32) -> Span
    ensures { result ≡ span_of micros }
{
    if micros < LEAST_HALF {
        Span::Short
    } else if micros <= MOST_HALF {
        Span::Half
    } else if micros < LEAST_WHOLE || micros > MOST_WHOLE {
        Span::Wrong
    } else {
        Span::Whole
    }
}

fn span_before(was_low: bool, is_low: bool, since: u32) -> Span
    ensures { result ≡ span_before was_low is_low since }
{
    if was_low == is_low {
        return Span::Wrong;
    }
    span_for(since)
}

fn with_bit(bits: u32, is_low: bool) -> Reading
    ensures { result ≡ with_bit bits is_low }
{
    if bits >= 0x1000000 {
        return Reading::Spoilt;
    }
    Reading::Middle(if is_low { 2 * bits } else { 2 * bits + 1 })
}

/// Whether these bits are those of a backward frame.
pub(crate) fn is_backward(bits: u32) -> bool
    ensures { result ≡ (nat_le 0x100 bits && nat_lt bits 0x200) }
{
    0x100 <= bits && bits < 0x200
}

fn frame_for(bits: u32) -> Frame
    ensures { result ≡ frame_of bits }
{
    if is_backward(bits) {
        Frame::Backward((bits % 256) as u8)
    } else if 0x10000 <= bits && bits < 0x20000 {
        Frame::Forward(Forward {
            address_byte: (bits / 256 % 256) as u8,
            opcode_byte: (bits % 256) as u8,
        })
    } else if 0x1000000 <= bits && bits < 0x2000000 {
        Frame::Device(bits % 0x1000000)
    } else {
        Frame::Damaged
    }
}

impl Reading {
    /// What a stop condition ends.
    fn frame(self) -> Option<Frame>
        ensures { result ≡ frame_read self }
    {
        match self {
            Reading::Idle | Reading::First => None,
            Reading::Between(bits) | Reading::Middle(bits) => Some(frame_for(bits)),
            Reading::Spoilt => Some(Frame::Damaged),
        }
    }
}

impl Receiver {
    /// A receiver of a bus that has been high for the time of a stop condition.
    pub fn new() -> Receiver
        ensures { result ≡ receiver_at_first }
    {
        Receiver {
            reading: Reading::Idle,
            is_low: false,
            lasted: 0,
        }
    }

    /// Time passes: so many µs have passed since the last edge. Tells the frame that has ended by now, once.
    pub fn time(&mut self, since: u32) -> Option<Told>
        ensures told { result ≡ told_of self.old since }
        ensures receiver { self.new ≡ receiver_at self.old since }
    {
        if self.is_low || since < LEAST_STOP {
            return None;
        }
        let ended = self.reading.frame();
        self.reading = Reading::Idle;
        match ended {
            Some(frame) => Some(Told {
                frame,
                lasted: self.lasted,
                since,
            }),
            None => None,
        }
    }

    /// An edge, after which the bus is low or high, so many µs after the last one. Tells the frame that had ended
    /// before, if `time` did not tell it.
    ///
    /// Two edges to one level are taken as a fault: one between them was missed.
    pub fn edge(&mut self, is_low: bool, since: u32) -> Option<Told>
        ensures told { result ≡ told_of self.old since }
        ensures receiver { self.new ≡ receiver_after self.old is_low since }
    {
        let told = self.time(since);
        self.turn(is_low, since);
        told
    }

    /// An edge so long after the last one, if no frame has ended.
    pub(crate) fn turn(&mut self, is_low: bool, since: u32)
        ensures { self.new ≡ record {
          reading = read_edge self.old.reading is_low (span_before self.old.is_low is_low since);
          is_low = is_low;
          lasted = longer self.old.reading self.old.lasted since;
        } }
    {
        let span = span_before(self.is_low, is_low, since);
        self.is_low = is_low;
        if matches!(self.reading, Reading::Idle) {
            self.lasted = 0;
        } else {
            self.lasted = self.lasted.saturating_add(since);
        }
        match &mut self.reading {
            Reading::Middle(bits) => {
                let bits = *bits;
                match span {
                    Span::Half => self.reading = Reading::Between(bits),
                    Span::Whole => self.reading = with_bit(bits, is_low),
                    Span::Short | Span::Wrong => self.reading = Reading::Spoilt,
                }
            }
            Reading::Between(bits) => {
                let bits = *bits;
                match span {
                    Span::Half => self.reading = with_bit(bits, is_low),
                    Span::Short | Span::Whole | Span::Wrong => self.reading = Reading::Spoilt,
                }
            }
            Reading::First => match span {
                Span::Short => self.reading = Reading::Idle,
                Span::Half => self.reading = Reading::Middle(1),
                Span::Whole | Span::Wrong => self.reading = Reading::Spoilt,
            },
            Reading::Idle => {
                if is_low {
                    self.reading = Reading::First;
                }
            }
            Reading::Spoilt => {}
        }
    }
}
