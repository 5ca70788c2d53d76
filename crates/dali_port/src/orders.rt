//! What a port is asked for, and the words with which it answers.

ghost use Rattle.std.specs.Prelude.{◌≡◌};
ghost use Rattle.dali_port.specs.Times.{settling_of, span_of};
ghost use Rattle.dali_port.specs.Orders.{refusal_of};

use dali_frame::{Answer, Forward, Priority};
use thiserror::Error;

/// Which frame of a pair a frame is: of two equal frames within 100 ms. `Whole` is sent once.
#[derive(Clone, Copy, Debug, PartialEq, Eq)]
pub enum Half {
    Whole,
    First,
    Second,
}

/// A frame to be sent.
#[derive(Clone, Copy, Debug, PartialEq, Eq)]
pub struct Order {
    pub frame: Forward,
    /// Priority 1 is a later frame of the running transaction; any other begins one.
    pub priority: Priority,
    pub half: Half,
    /// Whether a backward frame is awaited.
    pub asks: bool,
    /// How many µs later than the least time of its priority it begins, as its caller draws it.
    pub drawn: u32,
}

/// What became of a frame.
#[derive(Clone, Copy, Debug, PartialEq, Eq)]
pub enum Word {
    /// It was sent whole, and this was heard.
    Heard(Answer),
    /// It was begun, and was destroyed or may have been.
    Destroyed,
    /// It was not begun.
    Lapsed,
}

/// Why a call was refused. It changed nothing.
#[derive(Clone, Copy, Debug, PartialEq, Eq, Error)]
pub enum Refusal {
    #[error("the time runs backwards")]
    Backwards,
    #[error("a frame is under way")]
    Busy,
    #[error("the second frame of a pair has priority 1")]
    NotLater,
    #[error("drawn beyond the span of the priority")]
    BeyondSpan,
}

/// How long the bus is at rest before a frame of a priority, at least, and how much longer it may be, in µs
/// (IEC 62386-101:2014, multi-master transmitter frame sequence timing).
pub(crate) fn rest_of(priority: u8) -> (u64, u32)
    ensures { result ≡ (settling_of priority, span_of priority) }
{
    match priority {
        1 => (13_500, 1_200),
        2 => (14_900, 1_200),
        3 => (16_300, 1_400),
        4 => (17_900, 1_400),
        _ => (19_500, 1_600),
    }
}

impl Order {
    /// Why no port takes it.
    pub(crate) fn refusal(&self) -> Option<Refusal>
        ensures { result ≡ refusal_of self.now }
    {
        if matches!(self.half, Half::Second) && self.priority.number() != 1 {
            Some(Refusal::NotLater)
        } else if self.drawn > rest_of(self.priority.number()).1 {
            Some(Refusal::BeyondSpan)
        } else {
            None
        }
    }
}
