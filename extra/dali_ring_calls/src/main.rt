//! Draws calls of rings of several capacities, and writes each with what it answered. The word that it is given says
//! how often each ring is called.
#![tactic(auto)]

use dali_frame::Priority;
use dali_ring::{Ring, Sent};
use rand_core::{Rng, SeedableRng};
use rand_pcg::Pcg32;
use std::alloc::Global;
use std::env;
use std::io::Print;
use std::process::ExitCode;

/// An item with a sender, and a name to tell it from the others.
#[derive(Clone, Copy)]
struct Item {
    sender: u8,
    name: u32,
}

impl Sent for Item {
    ghost from = { λ item. item.sender };

    fn sender(&self) -> u8 {
        self.sender
    }
}

/// The number of a priority; 0 is none.
fn number(priority: Option<Priority>) -> u8 {
    match priority {
        Some(priority) => priority.number(),
        None => 0,
    }
}

/// The name of an item; 0 is none.
fn name(item: Option<Item>) -> u32 {
    match item {
        Some(item) => item.name,
        None => 0,
    }
}

/// Calls a ring as this word says, and answers what was called with what, and what came of it, as one number each.
fn call(ring: &mut Ring<Item>, word: u32, new: u32) -> (u8, u8, u8, u64) {
    let [kind, level, sender, _] = word.to_be_bytes();
    let level = level % 5 + 1;
    let sender = sender % 8;
    let Some(priority) = Priority::of(level) else {
        return (9, level, sender, 0);
    };
    match kind % 16 {
        0..=8 => {
            let item = Item { sender, name: new };
            match ring.push(priority, item) {
                Ok(()) => (0, level, sender, 0),
                Err(back) => (0, level, sender, u64::from(back.name)),
            }
        }
        9 | 10 | 11 => (1, level, sender, u64::from(name(ring.pop(priority)))),
        12 => (2, level, sender, u64::from(name(ring.front(priority)))),
        13 => (3, level, sender, u64::from(number(ring.best()))),
        14 => (4, level, sender, ring.len() as u64),
        _ => (5, level, sender, ring.remove_of(sender) as u64),
    }
}

/// Calls a ring so often. The error is 1 if there is no memory, 2 if nothing can be written.
fn calls<R: Print>(rt: &R, alloc: Global, capacity: usize, times: u32) -> Result<(), u8> {
    let Ok(mut ring) = Ring::new(alloc, capacity) else {
        return Err(1);
    };
    let mut draws = Pcg32::seed_from_u64(capacity as u64);
    for new in 0..times {
        let (kind, level, sender, answer) = call(&mut ring, draws.next_u32(), new + 1);
        if println!(rt; "{capacity} {kind} {level} {sender} {answer}").is_err() {
            return Err(2);
        }
    }
    Ok(())
}

/// The number that the program is given; nothing, if it is given none.
fn times(rt: &HostRuntime) -> Option<u32> {
    let Ok(mut words) = env::args(rt) else {
        return None;
    };
    words.nth(1)?.as_str().parse::<u32>().ok()
}

fn main(rt: HostRuntime) -> ExitCode {
    let Some(times) = times(&rt) else {
        return ExitCode::FAILURE;
    };
    for capacity in [1, 3, 64, 1024] {
        if calls(&rt, rt.alloc(), capacity, times).is_err() {
            return ExitCode::FAILURE;
        }
    }
    ExitCode::SUCCESS
}
