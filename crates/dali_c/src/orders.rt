//! Records, orders and findings as plain bytes.

ghost use Rattle.std.specs.Prelude.{◌≡◌, Some, None};
ghost use Rattle.dali_c.specs.Orders.{record_of, order_of, finding_of, HasNoMore, IsSentSo};

use crate::codes::{bool_code, half_code};
use crate::pairs::read_pair;
use dali_frame::{Forward, Priority};
use dali_script::{End, Entry, Fault, Finding, Order, Pair, Record, half_in};
use dali_special::Command;

/// A record: the code of its kind (`Record::code`), and its pair.
#[repr(C)]
#[derive(Clone, Copy)]
pub struct PlainRecord {
    pub kind: u8,
    pub pair: Pair,
}

impl PlainRecord {
    pub(crate) fn of(added: &Record) -> PlainRecord
        ensures { record_of result ≡ Some added.now }
    {
        PlainRecord {
            kind: added.code(),
            pair: Pair::of(added.address(), added.random()),
        }
    }

    pub(crate) fn read(self) -> Option<Record>
        ensures { result ≡ record_of self }
    {
        let (short, random) = read_pair(self.pair)?;
        Record::of_code(self.kind, short, random)
    }
}

/// An order: kind 0 is none yet, 1 a put, 2 a commit, 3 done, 4 halt. How a frame is sent is written and not read: the
/// frame, and those before it, say so.
#[repr(C)]
#[derive(Clone, Copy)]
pub struct PlainOrder {
    pub kind: u8,
    pub priority: u8,
    pub address_byte: u8,
    pub opcode_byte: u8,
    pub asks: u8,
    pub half: u8,
    pub record: PlainRecord,
    pub reason: u8,
}

impl PlainOrder {
    /// Of this kind, and all other bytes 0.
    fn empty(kind: u8) -> PlainOrder
        ensures kind { result.kind ≡ kind }
        ensures more { HasNoMore result None }
    {
        PlainOrder {
            kind,
            priority: 0,
            address_byte: 0,
            opcode_byte: 0,
            asks: 0,
            half: 0,
            record: PlainRecord {
                kind: 0,
                pair: Pair::default(),
            },
            reason: 0,
        }
    }

    /// `before` are the frames of its transaction that were sent before.
    pub(crate) fn of(last: Option<Order>, before: &[Entry]) -> PlainOrder
        ensures spelled { order_of result ≡ Some last }
        ensures more { HasNoMore result last }
        ensures sent { IsSentSo result before.now last }
    {
        match last {
            None => PlainOrder::empty(0),
            Some(order) => PlainOrder::ordered(order, before),
        }
    }

    fn ordered(order: Order, before: &[Entry]) -> PlainOrder
        ensures spelled { order_of result ≡ Some (Some order) }
        ensures more { HasNoMore result (Some order) }
        ensures sent { IsSentSo result before.now (Some order) }
    {
        match order {
            Order::Put(priority, frame) => PlainOrder {
                priority: priority.number(),
                address_byte: frame.address_byte,
                opcode_byte: frame.opcode_byte,
                asks: bool_code(Command::read(frame).is_question()),
                half: half_code(half_in(before, frame)),
                ..PlainOrder::empty(1)
            },
            Order::Commit(added) => PlainOrder {
                record: PlainRecord::of(&added),
                ..PlainOrder::empty(2)
            },
            Order::Done(end) => PlainOrder {
                reason: end.code(),
                ..PlainOrder::empty(3)
            },
            Order::Halt(fault) => PlainOrder {
                reason: fault.code(),
                ..PlainOrder::empty(4)
            },
        }
    }

    /// None if it is no order.
    pub(crate) fn read(self) -> Option<Option<Order>>
        ensures { result ≡ order_of self }
    {
        match self.kind {
            0 => Some(None),
            1 => {
                let priority = Priority::of(self.priority)?;
                let frame = Forward {
                    address_byte: self.address_byte,
                    opcode_byte: self.opcode_byte,
                };
                Some(Some(Order::Put(priority, frame)))
            }
            2 => Some(Some(Order::Commit(self.record.read()?))),
            3 => Some(Some(Order::Done(End::of_code(self.reason)?))),
            4 => Some(Some(Order::Halt(Fault::of_code(self.reason)?))),
            _ => None,
        }
    }
}

/// The last finding: kind 0 is none, 1 by QUERY SHORT ADDRESS, 2 by QUERY RANDOM ADDRESS.
#[repr(C)]
#[derive(Clone, Copy)]
pub struct PlainFinding {
    pub kind: u8,
    pub pair: Pair,
}

impl PlainFinding {
    pub(crate) fn of(finding: Option<Finding>) -> PlainFinding
        ensures { finding_of result ≡ Some finding }
    {
        match finding {
            None => PlainFinding {
                kind: 0,
                pair: Pair::default(),
            },
            Some(found) => PlainFinding::found(found),
        }
    }

    fn found(finding: Finding) -> PlainFinding
        ensures { finding_of result ≡ Some (Some finding) }
    {
        let (kind, short, random) = match finding {
            Finding::Queried(short, random) => (1, short, random),
            Finding::Resolved(short, random) => (2, short, random),
        };
        PlainFinding {
            kind,
            pair: Pair::of(short, random),
        }
    }

    /// None if it is no finding.
    pub(crate) fn read(self) -> Option<Option<Finding>>
        ensures { result ≡ finding_of self }
    {
        if self.kind == 0 {
            return Some(None);
        }
        let (short, random) = read_pair(self.pair)?;
        match self.kind {
            1 => Some(Some(Finding::Queried(short, random))),
            2 => Some(Some(Finding::Resolved(short, random))),
            _ => None,
        }
    }
}
