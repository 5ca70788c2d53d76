//! Whose frame is next, by steps that one function plays.

use super::values::{bytes_of, forward, priority, same};
use dali_arbiter::{Arbiter, NewError, OfferError, Request};
use dali_frame::{Forward, Priority};
use rand_core::{Rng, SeedableRng};
use rand_pcg::Pcg32;
use std::process::Abort;
use std::test::Fail;

/// A request, by its sender, the number of its priority, and the bytes of its frame.
type Asked = (u8, u8, u16);

fn asked(request: Option<Request>) -> Option<Asked> {
    match request {
        Some(it) => Some((it.sender, it.priority.number(), bytes_of(it.frame))),
        None => None,
    }
}

fn level(priority: Option<Priority>) -> Option<u8> {
    match priority {
        Some(priority) => Some(priority.number()),
        None => None,
    }
}

/// A step of a test: a call and what it answers, or what the bus shows.
#[derive(Clone, Copy)]
enum Step {
    /// A request is offered, and taken or refused so.
    Offers(Asked, Result<(), OfferError>),
    /// This request is next and is sent; with more to come, its sender owns the bus.
    Sends(Asked, bool),
    /// The next request collides, with this one or with none.
    Collides(Option<Asked>),
    /// The next request is destroyed.
    Destroyed,
    /// The bus lapses, and this sender owned it.
    Lapses(Option<u8>),
    /// This sender falls silent.
    Silent(u8),
    /// This request is next.
    Next(Option<Asked>),
    /// So many requests wait, and this sender owns the bus.
    Waits(usize, Option<u8>),
    /// The best priority of those that wait.
    Best(Option<u8>),
    /// Whether no request waits, and whether no more may.
    Room(bool, bool),
}

/// A step after which there is one request less, at least.
fn takes<R: Abort>(rt: &R, arbiter: &mut Arbiter, step: Step) {
    let next = arbiter.pick();
    assert!(rt; next.is_some());
    match step {
        Step::Sends(wanted, more) => {
            same(rt, &asked(next), &Some(wanted));
            arbiter.sent(more);
        }
        Step::Collides(wanted) => same(rt, &asked(arbiter.collided()), &wanted),
        _ => arbiter.destroyed(),
    }
}

/// A step that changes nothing.
fn looks<R: Abort>(rt: &R, arbiter: &Arbiter, step: Step) {
    match step {
        Step::Next(wanted) => same(rt, &asked(arbiter.pick()), &wanted),
        Step::Waits(many, owner) => {
            same(rt, &(arbiter.len(), arbiter.owner()), &(many, owner));
        }
        Step::Best(wanted) => {
            same(rt, &level(arbiter.lists().best()), &wanted);
        }
        Step::Room(empty, full) => {
            same(rt, &(arbiter.is_empty(), arbiter.is_full()), &(empty, full));
        }
        _ => assert!(rt; false),
    }
}

fn offers<R: Abort>(
    rt: &R,
    arbiter: &mut Arbiter,
    request: Asked,
    wanted: Result<(), OfferError>,
) -> Result<(), Fail> {
    let (sender, level, bytes) = request;
    let answer = arbiter.offer(sender, priority(level)?, forward(bytes));
    same(rt, &answer, &wanted);
    Ok(())
}

/// The steps are as they say.
fn plays<R: Abort>(rt: &R, arbiter: &mut Arbiter, steps: &[Step]) -> Result<(), Fail> {
    for step in steps {
        match *step {
            Step::Offers(request, wanted) => offers(rt, arbiter, request, wanted)?,
            Step::Sends(..) | Step::Collides(_) | Step::Destroyed => takes(rt, arbiter, *step),
            Step::Lapses(owner) => same(rt, &arbiter.lapse(), &owner),
            Step::Silent(sender) => arbiter.silence(sender),
            _ => looks(rt, arbiter, *step),
        }
    }
    Ok(())
}

/// The steps, on a bus with room for so many requests.
fn tells<R: Abort + AllocGlobal>(rt: &R, capacity: usize, steps: &[Step]) -> Result<(), Fail> {
    let mut arbiter = Arbiter::new(rt.alloc(), capacity)?;
    plays(rt, &mut arbiter, steps)
}

const FULL: Result<(), OfferError> = Err(OfferError::QueueFull);

const BARRED: Result<(), OfferError> = Err(OfferError::NotOwner);

const OWNER_FIRST: [Step; 16] = [
    Step::Offers((0, 3, 0xA100), Ok(())),
    Step::Offers((1, 3, 0xB1FF), Ok(())),
    Step::Offers((0, 2, 0xFE80), Ok(())),
    Step::Sends((0, 2, 0xFE80), false),
    Step::Sends((0, 3, 0xA100), true),
    Step::Waits(1, Some(0)),
    Step::Next(None),
    Step::Offers((1, 1, 0xA5FF), BARRED),
    Step::Offers((0, 1, 0xA5FF), Ok(())),
    Step::Next(Some((0, 1, 0xA5FF))),
    Step::Lapses(Some(0)),
    Step::Waits(1, None),
    Step::Next(Some((1, 3, 0xB1FF))),
    Step::Best(Some(3)),
    Step::Silent(1),
    Step::Room(true, false),
];

#[test]
fn the_owner_goes_first(rt: HostRuntime) -> Result<(), Fail> {
    tells(&rt, 4, &OWNER_FIRST)
}

const COLLISIONS: [Step; 10] = [
    Step::Offers((0, 3, 0xA100), Ok(())),
    Step::Offers((1, 3, 0xA100), Ok(())),
    Step::Collides(Some((1, 3, 0xA100))),
    Step::Waits(0, None),
    Step::Offers((0, 3, 0xA100), Ok(())),
    Step::Offers((0, 3, 0xA100), Ok(())),
    Step::Collides(None),
    Step::Waits(1, None),
    Step::Destroyed,
    Step::Waits(0, None),
];

#[test]
fn only_another_sender_collides(rt: HostRuntime) -> Result<(), Fail> {
    tells(&rt, 4, &COLLISIONS)
}

const ONE_ROOM: [Step; 8] = [
    Step::Offers((1, 1, 0xA5FF), BARRED),
    Step::Offers((0, 3, 0xA5FF), Ok(())),
    Step::Room(false, true),
    Step::Offers((1, 3, 0xA5FF), FULL),
    Step::Offers((1, 1, 0xA5FF), BARRED),
    Step::Waits(1, None),
    Step::Silent(0),
    Step::Offers((1, 3, 0xA5FF), Ok(())),
];

#[test]
fn a_full_queue_takes_one_more_when_one_has_left(rt: HostRuntime) -> Result<(), Fail> {
    tells(&rt, 1, &ONE_ROOM)
}

/// The capacity of a queue that is made for so many requests, or why it is not.
fn made<R: AllocGlobal>(rt: &R, capacity: usize) -> Result<usize, NewError> {
    match Arbiter::new(rt.alloc(), capacity) {
        Ok(arbiter) => Ok(arbiter.capacity()),
        Err(error) => Err(error),
    }
}

#[test]
fn capacities_are_1_to_1024(rt: HostRuntime) {
    for (capacity, wanted) in [
        (0, Err(NewError::BadCapacity)),
        (1, Ok(1)),
        (64, Ok(64)),
        (1024, Ok(1024)),
        (1025, Err(NewError::BadCapacity)),
    ] {
        same(&rt, &made(&rt, capacity), &wanted);
    }
}

/// How many requests may wait.
const ROOM: u32 = 64;

/// How many senders there are.
const SENDERS: u8 = 16;

/// Offers as many requests as may wait, of senders and at priorities that are drawn, 2 to 5.
fn fill(arbiter: &mut Arbiter, draws: &mut Pcg32) {
    for _ in 0..ROOM {
        let [sender, level, address_byte, opcode_byte] = draws.next_u32().to_be_bytes();
        let frame = Forward {
            address_byte,
            opcode_byte,
        };
        if let Some(priority) = Priority::of(level % 4 + 2) {
            let _ = arbiter.offer(sender % SENDERS, priority, frame);
        }
    }
}

/// Silences each sender whose bit is drawn.
fn silence(arbiter: &mut Arbiter, draws: &mut Pcg32) {
    let drawn = draws.next_u32();
    for sender in 0..SENDERS {
        if drawn & (1 << sender) != 0 {
            arbiter.silence(sender);
        }
    }
}

/// Sends what waits. How many requests that were.
fn send(arbiter: &mut Arbiter) -> u32 {
    for sent in 0..ROOM {
        if arbiter.pick().is_none() {
            return sent;
        }
        arbiter.sent(false);
    }
    ROOM
}

#[test]
fn a_queue_is_filled_and_half_of_the_senders_fall_silent(rt: HostRuntime) -> Result<(), Fail> {
    let mut arbiter = Arbiter::new(rt.alloc(), ROOM as usize)?;
    let mut draws = Pcg32::seed_from_u64(1);
    let mut sent = 0;
    for _ in 0..1024u32 {
        fill(&mut arbiter, &mut draws);
        silence(&mut arbiter, &mut draws);
        sent += send(&mut arbiter);
    }
    same(&rt, &sent, &32_600);
    Ok(())
}
