//! From the levels of a wire to items.

ghost use Rattle.std.specs.Prelude.{◌≡◌};
ghost use Rattle.dali_capture.specs.Ears.{ear_at_first, since, told_by, edge_told, ear_after_edge, level_told};
ghost use Rattle.dali_capture.specs.Ears.{ear_after_level};

use crate::item::{Heard, Item};
use dali_wire::{Reading, Receiver, Told};

/// Hears the levels of a wire.
#[derive(Clone, Copy)]
pub struct Ear {
    /// Reads the edges; until the bus was seen at rest it cannot know where a frame begins.
    pub receiver: Receiver,
    /// Whether the bus was seen at rest.
    pub has_rested: bool,
    /// When the frame began that is being read.
    pub begun: u64,
    /// When the last edge was.
    pub edge: u64,
}

impl Ear {
    /// An ear that knows this level since now, and nothing of before.
    pub fn new(is_low: bool, now: u64) -> Ear
        ensures { result ≡ ear_at_first is_low now }
    {
        Ear {
            receiver: Receiver {
                reading: Reading::Spoilt,
                is_low,
                lasted: 0,
            },
            has_rested: false,
            begun: now,
            edge: now,
        }
    }

    /// How many µs ago the last edge was, at most `u32::MAX`.
    fn since(&self, now: u64) -> u32
        ensures { result ≡ since self.now now }
    {
        let since = now.saturating_sub(self.edge);
        if since < 0xFFFF_FFFF {
            since as u32
        } else {
            u32::MAX
        }
    }

    /// The item of what the receiver told.
    fn item(&self, told: Option<Told>) -> Option<Item>
        ensures { result ≡ told_by self.now told }
    {
        match told {
            Some(told) if self.has_rested => Some(Item {
                at: self.begun,
                until: self.edge,
                what: Heard::of(told.frame),
            }),
            _ => None,
        }
    }

    /// The item that has ended by now.
    pub fn end(self, now: u64) -> Option<Item>
        ensures { result ≡ edge_told self now }
    {
        let mut receiver = self.receiver;
        let told = receiver.time(self.since(now));
        self.item(told)
    }

    /// An edge, after which the bus is low or high, and the item that had ended before.
    fn edge(self, is_low: bool, now: u64) -> (Ear, Option<Item>)
        ensures ear { result.0 ≡ ear_after_edge self is_low now }
        ensures told { result.1 ≡ edge_told self now }
    {
        let mut receiver = self.receiver;
        let told = receiver.edge(is_low, self.since(now));
        let ear = Ear {
            receiver,
            has_rested: self.has_rested || told.is_some(),
            begun: if receiver.lasted == 0 {
                now
            } else {
                self.begun
            },
            edge: now,
        };
        (ear, self.item(told))
    }
}

/// The wire has this level from now on; of no ear yet, this is the first level that is known.
pub fn hear(ear: Option<Ear>, is_low: bool, now: u64) -> (Option<Ear>, Option<Item>)
    ensures ear { result.0 ≡ ear_after_level ear is_low now }
    ensures told { result.1 ≡ level_told ear is_low now }
{
    let Some(ear) = ear else {
        return (Some(Ear::new(is_low, now)), None);
    };
    if ear.receiver.is_low == is_low {
        return (Some(ear), None);
    }
    let (after, told) = ear.edge(is_low, now);
    (Some(after), told)
}
