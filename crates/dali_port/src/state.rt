//! The state of a port, in fields that C sees.

ghost use Rattle.std.specs.Prelude.{◌≡◌};
ghost use Rattle.dali_port.specs.State.{Listening, is_so, heard_of, receiver_of, order_of};
ghost use Rattle.dali_port.specs.State.{after_of, window_of, after_window, seen};
ghost use Rattle.dali_port.specs.Ports.{port_at_first, spoilt};

use crate::orders::Word;
use dali_frame::{Answer, Forward};
use dali_wire::{Reading, Receiver, Told, Window};

/// Where the frame is: there is none, it waits for rest, it is sent, it is destroyed, it was sent whole.
pub(crate) const FREE: u8 = 0;

pub(crate) const WAITING: u8 = 1;

pub(crate) const SENDING: u8 = 2;

pub(crate) const BREAKING: u8 = 3;

pub(crate) const LISTENING: u8 = 4;

/// A port. Any values of its fields are one, and any order of calls is taken. A call changes in place what it must, and
/// what the phase does not name is passed over: `specs/State` says what each field stands for. Times are in µs.
#[repr(C)]
#[derive(Clone, Copy, Debug, Default, PartialEq, Eq)]
pub struct Port {
    pub called: u64,
    pub edge: u64,
    pub since: u64,
    pub agreed: u64,
    pub driven: u64,
    pub first: u64,
    pub randomise: u64,
    pub draws: u64,
    pub drawn: u32,
    pub bits: u32,
    pub lasted: u32,
    pub elapsed: u32,
    pub phase: u8,
    pub is_low: u8,
    pub is_powerless: u8,
    pub is_over: u8,
    pub at_half: u8,
    pub priority: u8,
    pub address_byte: u8,
    pub opcode_byte: u8,
    pub asks: u8,
    pub half: u8,
    pub has_first: u8,
    pub has_randomise: u8,
    pub has_draws: u8,
    pub reading: u8,
    pub was_low: u8,
    pub heard: u8,
    pub byte: u8,
    pub has_pulse: u8,
}

/// What is read of the bus while no frame of the port is on it.
#[derive(Clone, Copy, Debug, PartialEq, Eq)]
pub enum Read {
    /// A frame of others.
    Frame(Told),
    /// The bus is low for so long that it has no power.
    NoPower,
}

/// What a call tells.
#[derive(Clone, Copy, Debug, PartialEq, Eq)]
pub struct Event {
    /// What became of the frame, if it has ended.
    pub word: Option<Word>,
    pub read: Option<Read>,
}

/// What is driven.
#[derive(Clone, Copy, Debug, PartialEq, Eq)]
pub struct Drive {
    pub is_low: bool,
    /// When to call `timer`, if no other call comes before.
    pub at: Option<u64>,
    /// The level that is driven from then on, unless `timer` begins a frame.
    pub next: bool,
}

fn heard_code(heard: Answer) -> (u8, u8)
    ensures { heard_of result.0 result.1 ≡ heard }
{
    match heard {
        Answer::Silence => (0, 0),
        Answer::Byte(byte) => (1, byte),
        Answer::Damaged => (2, 0),
    }
}

impl Port {
    /// A port at power-up, or if nothing is known of the bus but its level.
    pub fn new(is_low: bool, now: u64) -> Port
        ensures { seen result ≡ port_at_first is_low now }
    {
        Port {
            called: now,
            edge: now,
            is_low: u8::from(is_low),
            is_over: 1,
            reading: 4,
            was_low: u8::from(is_low),
            ..Port::default()
        }
    }

    pub(crate) fn frame(&self) -> Forward
        ensures { result ≡ (order_of self.now).frame }
    {
        Forward {
            address_byte: self.address_byte,
            opcode_byte: self.opcode_byte,
        }
    }

    pub(crate) fn receiver(&self) -> Receiver
        ensures { result ≡ receiver_of self.now }
    {
        let reading = match self.reading {
            0 => Reading::Idle,
            1 => Reading::First,
            2 => Reading::Between(self.bits),
            3 => Reading::Middle(self.bits),
            _ => Reading::Spoilt,
        };
        Receiver {
            reading,
            is_low: self.was_low != 0,
            lasted: self.lasted,
        }
    }

    pub(crate) fn set_receiver(&mut self, receiver: &Receiver)
        ensures { seen self.new ≡ record (seen self.old) { receiver = receiver.now } }
    {
        (self.reading, self.bits) = match receiver.reading {
            Reading::Idle => (0, self.bits),
            Reading::First => (1, self.bits),
            Reading::Between(bits) => (2, bits),
            Reading::Middle(bits) => (3, bits),
            Reading::Spoilt => (4, self.bits),
        };
        self.was_low = u8::from(receiver.is_low);
        self.lasted = receiver.lasted;
    }

    /// Nothing is known of what is on the bus but its level.
    pub(crate) fn spoil(&mut self, is_low: bool)
        ensures { seen self.new ≡ record (seen self.old) { receiver = spoilt is_low } }
    {
        self.reading = 4;
        self.was_low = u8::from(is_low);
        self.lasted = 0;
    }

    pub(crate) fn window(&self) -> Window
        ensures { result ≡ window_of (seen self.now) (after_of self.now) }
    {
        let heard = match self.heard {
            0 => Answer::Silence,
            1 => Answer::Byte(self.byte),
            _ => Answer::Damaged,
        };
        Window {
            receiver: self.receiver(),
            elapsed: self.elapsed,
            heard,
            has_pulse: self.has_pulse != 0,
        }
    }

    pub(crate) fn set_window(&mut self, window: &Window)
        ensures { seen self.new ≡ record (seen self.old) {
          receiver = window.now.receiver;
          phase = Listening (after_window (is_so self.old.asks) window.now);
        } }
    {
        self.phase = LISTENING;
        self.elapsed = window.elapsed;
        self.has_pulse = u8::from(window.has_pulse);
        (self.heard, self.byte) = heard_code(window.heard);
        self.set_receiver(&window.receiver);
    }
}
