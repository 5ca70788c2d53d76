ghost use Rattle.std.specs.Prelude.{◌≡◌};

use crate::records::Record;
use dali_frame::{Answer, Forward, Priority};

/// What a machine is told.
#[derive(Clone, Copy, Debug, PartialEq, Eq)]
pub enum Input {
    /// To start, once, before all else: gear without short address are to draw new random addresses.
    Start,
    /// To start so, but to ask first who is there, and to search gear under the random addresses that they have.
    Survey,
    /// The frame that was put was sent, and this was heard after it.
    Heard(Answer),
    /// The frame that was put was destroyed on the bus.
    Destroyed,
    /// The machine lost the bus before the frame that was put was sent.
    Lapsed,
    /// The record that was ordered is kept.
    Committed,
    /// The record that was ordered could not be kept.
    CommitFailed,
}

/// What a machine orders.
#[derive(Clone, Copy, Debug, PartialEq, Eq)]
pub enum Order {
    /// To send a frame at a priority: 3 for the first frame of a transaction, 1 for each later one.
    Put(Priority, Forward),
    /// To keep a record for good.
    Commit(Record),
    /// Nothing more: the machine has ended.
    Done(End),
    /// Nothing more: the machine cannot go on.
    Halt(Fault),
}

/// How a machine ends.
#[derive(Clone, Copy, Debug, PartialEq, Eq)]
pub enum End {
    /// No gear answers the search any more. It does not say that every gear has a short address: gear whose
    /// initialisation another controller has ended do not answer either.
    AllFound,
    /// Gear without short address was found, and each address of the block is reserved.
    BlockFull,
    /// A transaction was lost eight times in a row; or too many searches in a row led to no gear, sixteen after a start
    /// and eighty in a survey. A survey also ends so if gear are left that were passed over, or that draw no random
    /// address, and gear may draw no more.
    GaveUp,
}

impl End {
    ghost use Rattle.dali_script.specs.Names.{end_name, end_code, end_by};

    /// What it is called in reports and on pages.
    pub fn name(self) -> &'static str
        ensures { result.now ≡ end_name self }
    {
        match self {
            End::AllFound => "all-found",
            End::BlockFull => "block-full",
            End::GaveUp => "gave-up",
        }
    }

    /// Its code in a struct for C.
    pub fn code(self) -> u8
        ensures { result ≡ end_code self }
    {
        match self {
            End::AllFound => 1,
            End::BlockFull => 2,
            End::GaveUp => 3,
        }
    }

    /// The end that has this code, if one has it.
    pub fn of_code(code: u8) -> Option<End>
        ensures { result ≡ end_by code }
    {
        match code {
            1 => Some(End::AllFound),
            2 => Some(End::BlockFull),
            3 => Some(End::GaveUp),
            _ => None,
        }
    }
}

/// Why a machine cannot go on.
#[derive(Clone, Copy, Debug, PartialEq, Eq)]
pub enum Fault {
    /// A gear was found whose short address or random address the table has for another.
    Conflict,
    /// A record could not be kept.
    Store,
}

impl Fault {
    ghost use Rattle.dali_script.specs.Names.{fault_name, fault_code, fault_by};

    /// What it is called in reports and on pages.
    pub fn name(self) -> &'static str
        ensures { result.now ≡ fault_name self }
    {
        match self {
            Fault::Conflict => "conflict",
            Fault::Store => "store",
        }
    }

    /// Its code in a struct for C.
    pub fn code(self) -> u8
        ensures { result ≡ fault_code self }
    {
        match self {
            Fault::Conflict => 1,
            Fault::Store => 2,
        }
    }

    /// The fault that has this code, if one has it.
    pub fn of_code(code: u8) -> Option<Fault>
        ensures { result ≡ fault_by code }
    {
        match code {
            1 => Some(Fault::Conflict),
            2 => Some(Fault::Store),
            _ => None,
        }
    }
}

/// What a machine waits for.
#[derive(Clone, Copy, Debug, PartialEq, Eq)]
pub enum Due {
    /// To be started.
    Start,
    /// What became of the frame that was put.
    Bus,
    /// What became of the record that was ordered.
    Store,
    /// Nothing: it has ended or halted.
    Nothing,
}

impl Due {
    ghost use Rattle.dali_script.specs.Due.{due_after};

    /// What a machine waits for after this order; None is before the first one.
    pub fn after(last: Option<Order>) -> Due
        ensures { result ≡ due_after last }
    {
        match last {
            None => Due::Start,
            Some(Order::Put(..)) => Due::Bus,
            Some(Order::Commit(_)) => Due::Store,
            Some(Order::Done(_) | Order::Halt(_)) => Due::Nothing,
        }
    }
}
