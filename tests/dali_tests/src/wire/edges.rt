//! Edges, as a driver at the pins would tell them.

use dali_wire::{Frame, Receiver, Sender, Told};
use std::fmt::Debug;
use std::process::Abort;

/// Fails if the two are not the same.
pub fn same<T: PartialEq + Debug>(rt: &impl Abort, was: &T, wanted: &T) {
    assert_eq!(rt; was, wanted);
}

/// The edges of a frame that is sent with half bits of so many µs, the first one so long after the last edge. Answers
/// what was told before the stop condition was over, and how long the bus is high since.
pub fn hear(
    receiver: &mut Receiver,
    sender: Sender,
    half: u32,
    before: u32,
) -> (Option<Told>, u32) {
    let mut sender = sender;
    let mut since = before;
    let mut told = None;
    for _ in 0..64u8 {
        let Some(is_low) = sender.half() else {
            return (told, since);
        };
        if is_low != receiver.is_low {
            let edge = receiver.edge(is_low, since);
            told = if told.is_some() { told } else { edge };
            since = 0;
        }
        since += half;
    }
    (told, since)
}

/// The frame that is told once the bus was high for a stop condition.
pub fn read(sender: Sender, half: u32) -> Option<Frame> {
    let mut receiver = Receiver::new();
    let (early, since) = hear(&mut receiver, sender, half, 100_000);
    if early.is_some() {
        return None;
    }
    match receiver.time(since + 2400) {
        Some(told) => Some(told.frame),
        None => None,
    }
}

/// What a receiver tells of these times between edges, the bus low first, after a stop condition.
pub fn told_of(times: &[u32]) -> Option<Frame> {
    let mut receiver = Receiver::new();
    let mut is_low = true;
    let mut since = 20_000;
    for time in times {
        if receiver.edge(is_low, since).is_some() {
            return None;
        }
        since = *time;
        is_low = !is_low;
    }
    receiver.edge(is_low, since);
    match receiver.time(2400) {
        Some(told) => Some(told.frame),
        None => None,
    }
}
