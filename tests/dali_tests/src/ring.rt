//! Queues in slots that are linked by their numbers.

use super::values::{priority, same};
use dali_ring::{NewError, Ring, Sent};
use std::process::Abort;
use std::test::Fail;

/// An item with a sender, and a name to tell it from the others.
#[derive(Clone, Copy, Debug, PartialEq, Eq)]
struct Item {
    sender: u8,
    name: u8,
}

impl Sent for Item {
    ghost from = { λ item. item.sender };

    fn sender(&self) -> u8 {
        self.sender
    }
}

/// A step of a test: a call and what it answers, or what the ring shows.
#[derive(Clone, Copy)]
enum Step {
    /// An item comes last in a list, or is handed back.
    Pushes(u8, Item, Result<(), Item>),
    /// This item is the oldest of a list, and leaves.
    Pops(u8, Option<Item>),
    /// All items of a sender leave: so many, and so many are left.
    Loses(u8, usize, usize),
    /// The best list that has an item.
    Best(Option<u8>),
}

fn pushes<R: Abort>(
    rt: &R,
    ring: &mut Ring<Item>,
    level: u8,
    item: Item,
    wanted: Result<(), Item>,
) -> Result<(), Fail> {
    same(rt, &ring.push(priority(level)?, item), &wanted);
    Ok(())
}

fn pops<R: Abort>(
    rt: &R,
    ring: &mut Ring<Item>,
    level: u8,
    wanted: Option<Item>,
) -> Result<(), Fail> {
    let level = priority(level)?;
    same(rt, &(ring.front(level), ring.pop(level)), &(wanted, wanted));
    Ok(())
}

fn loses<R: Abort>(rt: &R, ring: &mut Ring<Item>, sender: u8, many: usize, left: usize) {
    let gone = ring.remove_of(sender);
    same(rt, &(gone, ring.len()), &(many, left));
}

fn is_best<R: Abort>(rt: &R, ring: &Ring<Item>, wanted: Option<u8>) {
    let best = match ring.best() {
        Some(priority) => Some(priority.number()),
        None => None,
    };
    same(rt, &best, &wanted);
}

/// The steps are as they say.
fn plays<R: Abort>(rt: &R, ring: &mut Ring<Item>, steps: &[Step]) -> Result<(), Fail> {
    for step in steps {
        match *step {
            Step::Pushes(level, item, wanted) => pushes(rt, ring, level, item, wanted)?,
            Step::Pops(level, wanted) => pops(rt, ring, level, wanted)?,
            Step::Loses(sender, many, left) => loses(rt, ring, sender, many, left),
            Step::Best(wanted) => is_best(rt, ring, wanted),
        }
    }
    Ok(())
}

/// The steps, so many times, on a ring with room for so many items.
fn tells<R: Abort + AllocGlobal>(
    rt: &R,
    capacity: usize,
    rounds: u32,
    steps: &[Step],
) -> Result<(), Fail> {
    let mut ring = Ring::new(rt.alloc(), capacity)?;
    plays_rounds(rt, &mut ring, rounds, steps)?;
    same(rt, &ring.capacity(), &capacity);
    Ok(())
}

fn plays_rounds<R: Abort>(
    rt: &R,
    ring: &mut Ring<Item>,
    rounds: u32,
    steps: &[Step],
) -> Result<(), Fail> {
    for _ in 0..rounds {
        plays(rt, ring, steps)?;
    }
    Ok(())
}

const FULL_OF_THREE: [Step; 10] = [
    Step::Pushes(3, Item { sender: 0, name: 1 }, Ok(())),
    Step::Pushes(3, Item { sender: 1, name: 2 }, Ok(())),
    Step::Pushes(2, Item { sender: 0, name: 3 }, Ok(())),
    Step::Pushes(
        1,
        Item { sender: 2, name: 4 },
        Err(Item { sender: 2, name: 4 }),
    ),
    Step::Best(Some(2)),
    Step::Loses(0, 2, 1),
    Step::Best(Some(3)),
    Step::Pops(3, Some(Item { sender: 1, name: 2 })),
    Step::Pops(3, None),
    Step::Best(None),
];

#[test]
fn a_full_ring_hands_an_item_back_and_a_sender_takes_its_items_along(
    rt: HostRuntime,
) -> Result<(), Fail> {
    tells(&rt, 3, 1, &FULL_OF_THREE)
}

/// Items leave from the middle and from the end.
const USED: [Step; 10] = [
    Step::Pushes(5, Item { sender: 1, name: 0 }, Ok(())),
    Step::Pushes(5, Item { sender: 0, name: 1 }, Ok(())),
    Step::Pushes(5, Item { sender: 2, name: 2 }, Ok(())),
    Step::Pushes(5, Item { sender: 0, name: 3 }, Ok(())),
    Step::Loses(0, 2, 2),
    Step::Pushes(5, Item { sender: 3, name: 4 }, Ok(())),
    Step::Pops(5, Some(Item { sender: 1, name: 0 })),
    Step::Pops(5, Some(Item { sender: 2, name: 2 })),
    Step::Pops(5, Some(Item { sender: 3, name: 4 })),
    Step::Pops(5, None),
];

/// Slots are used again and again.
#[test]
fn slots_are_used_again_in_order(rt: HostRuntime) -> Result<(), Fail> {
    tells(&rt, 4, 3, &USED)
}

#[test]
fn a_ring_has_room_for_1_to_1024(rt: HostRuntime) {
    for capacity in [0, 1025] {
        let none: Result<Ring<Item>, NewError> = Ring::new(rt.alloc(), capacity);
        same(&rt, &none.err(), &Some(NewError::BadCapacity));
    }
}
