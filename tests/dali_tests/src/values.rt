//! Values by their numbers, and the one assertion that compares two of them.
//!
//! Orders and records are compared by their numbers, and frames are told by theirs, so that a test has few calls
//! that may fail.

use dali_frame::{Forward, Priority, Random24, Short};
use dali_script::{Block, End, Fault, Kept, Order, Pair, Record};
use std::fmt::Debug;
use std::process::Abort;
use std::test::Fail;

/// What a call answered is what was wanted.
pub fn same<T: PartialEq + Debug>(rt: &impl Abort, was: &T, wanted: &T) {
    assert_eq!(rt; was, wanted);
}

pub fn short(number: u8) -> Result<Short, Fail> {
    match Short::of(number) {
        Some(short) => Ok(short),
        None => Err(Fail::from("a short address")),
    }
}

pub fn random(number: u32) -> Result<Random24, Fail> {
    match Random24::of(number) {
        Some(random) => Ok(random),
        None => Err(Fail::from("a random address")),
    }
}

/// The short and the random address of these numbers.
pub fn addresses(numbers: (u8, u32)) -> Result<(Short, Random24), Fail> {
    match (Short::of(numbers.0), Random24::of(numbers.1)) {
        (Some(short), Some(random)) => Ok((short, random)),
        _ => Err(Fail::from("a short and a random address")),
    }
}

pub fn priority(number: u8) -> Result<Priority, Fail> {
    match Priority::of(number) {
        Some(priority) => Ok(priority),
        None => Err(Fail::from("a priority")),
    }
}

/// The frame of these two bytes.
pub fn forward(bytes: u16) -> Forward {
    Forward {
        address_byte: (bytes / 256) as u8,
        opcode_byte: (bytes % 256) as u8,
    }
}

/// The two bytes of a frame.
pub fn bytes_of(frame: Forward) -> u16 {
    u16::from_be_bytes([frame.address_byte, frame.opcode_byte])
}

/// The frame of four digits.
pub fn frame(text: &[u8]) -> Result<Forward, Fail> {
    Ok(Forward::read_hex(text)?)
}

pub fn block(first: u8, last: u8) -> Result<Block, Fail> {
    Ok(Block {
        first: short(first)?,
        last: short(last)?,
    })
}

/// A record, by the numbers of its addresses.
#[derive(Clone, Copy, Debug, PartialEq, Eq)]
pub enum InNumbers {
    Reserve(u8, u32),
    Enrol(u8, u32),
    Release(u8, u32),
    /// Of a kind that no test names, by its code.
    Other(u8, u8, u32),
}

impl InNumbers {
    /// Its two numbers.
    fn numbers(self) -> (u8, u32) {
        match self {
            InNumbers::Reserve(address, number)
            | InNumbers::Enrol(address, number)
            | InNumbers::Release(address, number)
            | InNumbers::Other(_, address, number) => (address, number),
        }
    }

    pub fn record(self) -> Result<Record, Fail> {
        let (address, number) = addresses(self.numbers())?;
        match self {
            InNumbers::Reserve(..) => Ok(Record::Reserve(address, number)),
            InNumbers::Enrol(..) => Ok(Record::Enrol(address, number)),
            InNumbers::Release(..) => Ok(Record::Release(address, number)),
            InNumbers::Other(..) => Err(Fail::from("a kind that tests name")),
        }
    }

    pub fn of(record: Record) -> InNumbers {
        InNumbers::by(&record)
    }

    fn by(record: &Record) -> InNumbers {
        let address = record.address().number();
        let number = record.random().value();
        match record.code() {
            1 => InNumbers::Reserve(address, number),
            2 => InNumbers::Enrol(address, number),
            3 => InNumbers::Release(address, number),
            code => InNumbers::Other(code, address, number),
        }
    }
}

/// Adds a record that must fit.
fn add(kept: &mut Kept, pair: InNumbers) -> Result<(), Fail> {
    let added = pair.record()?;
    if !kept.fits(&added) {
        return Err(Fail::from("a record that fits"));
    }
    kept.add(added)?;
    Ok(())
}

/// The records of a controller with this block.
pub fn kept_of(bounds: (u8, u8), records: &[InNumbers]) -> Result<Kept, Fail> {
    let mut kept = Kept::new(block(bounds.0, bounds.1)?);
    for pair in records {
        add(&mut kept, *pair)?;
    }
    Ok(kept)
}

/// An order, by its numbers.
#[derive(Clone, Copy, Debug, PartialEq, Eq)]
pub enum Ordered {
    /// A frame, at a priority.
    Put(u8, u16),
    Commit(InNumbers),
    Done(End),
    Halt(Fault),
    /// None: the input was not due.
    NotDue,
}

impl Ordered {
    pub fn of(order: Order) -> Ordered {
        match order {
            Order::Put(priority, frame) => Ordered::Put(priority.number(), bytes_of(frame)),
            Order::Commit(record) => Ordered::Commit(InNumbers::of(record)),
            Order::Done(end) => Ordered::Done(end),
            Order::Halt(fault) => Ordered::Halt(fault),
        }
    }
}

/// The numbers of the pair at this place.
fn numbers_at(pairs: &[Pair], at: usize) -> Option<(u8, u32)> {
    match pairs.get(at) {
        Some(pair) => Some((pair.address(), pair.random().value())),
        None => None,
    }
}

/// These pairs of a short and a random address are these numbers, in this order.
pub fn are_pairs(rt: &impl Abort, pairs: &[Pair], wanted: &[(u8, u32)]) {
    assert!(rt; pairs.len() == wanted.len());
    for at in 0..wanted.len() {
        same(rt, &numbers_at(pairs, at), &Some(wanted[at]));
    }
}
