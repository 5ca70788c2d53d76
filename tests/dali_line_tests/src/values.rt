//! Values by their numbers, and the one assertion that compares two of them.

use dali_frame::{Forward, Random24, Short};
use dali_script::{Block, End, Fault, Kept, Order, Record};
use dali_world::{Plan, SiteState};
use std::alloc::Global;
use std::fmt::Debug;
use std::process::Abort;
use std::test::Fail;

/// What a call answered is what was wanted.
pub fn same<T: PartialEq + Debug>(rt: &impl Abort, was: &T, wanted: &T) {
    assert_eq!(rt; was, wanted);
}

fn short(number: u8) -> Result<Short, Fail> {
    match Short::of(number) {
        Some(short) => Ok(short),
        None => Err(Fail::from("a short address")),
    }
}

fn random(number: u32) -> Result<Random24, Fail> {
    match Random24::of(number) {
        Some(random) => Ok(random),
        None => Err(Fail::from("a random address")),
    }
}

/// The frame of these two bytes.
pub fn forward(bytes: u16) -> Forward {
    Forward {
        address_byte: (bytes / 256) as u8,
        opcode_byte: (bytes % 256) as u8,
    }
}

/// The two bytes of a frame.
fn bytes_of(frame: Forward) -> u16 {
    u16::from_be_bytes([frame.address_byte, frame.opcode_byte])
}

/// The codes of records that tests name.
pub const RESERVE: u8 = 1;

pub const ENROL: u8 = 2;

/// An order, by its numbers: the bytes of its frame, or the code of its record and its short address.
#[derive(Clone, Copy, Debug, PartialEq, Eq)]
pub enum Ordered {
    Put(u16),
    Commit(u8, u8),
    Done(End),
    Halt(Fault),
}

impl Ordered {
    fn commit(record: &Record) -> Ordered {
        Ordered::Commit(record.code(), record.address().number())
    }

    pub fn of(order: Order) -> Ordered {
        match order {
            Order::Put(_, frame) => Ordered::Put(bytes_of(frame)),
            Order::Commit(record) => Ordered::commit(&record),
            Order::Done(end) => Ordered::Done(end),
            Order::Halt(fault) => Ordered::Halt(fault),
        }
    }
}

pub fn block(first: u8, last: u8) -> Result<Block, Fail> {
    Ok(Block {
        first: short(first)?,
        last: short(last)?,
    })
}

/// The records of a controller with block 0-3 that has reserved this address for this number, and no more.
pub fn one_reserved(address: u8, number: u32) -> Result<Kept, Fail> {
    let added = Record::Reserve(short(address)?, random(number)?);
    let mut kept = Kept::new(block(0, 3)?);
    if kept.fits(&added) && kept.add(added).is_ok() {
        Ok(kept)
    } else {
        Err(Fail::from("a record that fits"))
    }
}

/// A site of so many gear with these blocks and draws, whose log has room for 65,536 events and whose queue for 64
/// requests.
pub fn site_of(
    alloc: Global,
    gear: u32,
    blocks: &[(u8, u8)],
    draws: &[u32],
) -> Result<SiteState, Fail> {
    if draws.len() > 1024 {
        return Err(Fail::from("at most 1,024 draws"));
    }
    let plan = Plan::new(alloc, gear, blocks, draws)?;
    Ok(SiteState::new(alloc, plan, 65_536, 64)?)
}
