//! How far the machines are, as it is said on standard error.

ghost use Rattle.std.specs.Prelude.{◌≡◌, ◌≢◌, true};
ghost use Rattle.dali_commission_said.specs.Progress.{aim_after, far_after, is_told, first_aim, manner_of};

use crate::said::{Said, Voice, say};
use dali_commissioning::Watch;
use dali_frame::{Random24, Short};
use dali_script::{Input, Order, Record};
use dali_special::Command;
use std::fmt;

/// How it is said how far the machines are.
#[derive(Clone, Copy, PartialEq, Eq)]
pub enum Manner {
    /// Not at all.
    Quiet,
    /// By a line for each gear that is enrolled.
    Plain,
    /// By one line that is written over and over, on a terminal.
    Rewritten,
}

impl Manner {
    /// That of a call.
    pub fn of(is_quiet: bool, is_terminal: bool) -> Manner
        ensures { result ≡ manner_of is_quiet is_terminal }
    {
        match (is_quiet, is_terminal) {
            (true, _) => Manner::Quiet,
            (false, true) => Manner::Rewritten,
            (false, false) => Manner::Plain,
        }
    }
}

/// Which gear a frame is about.
#[derive(Clone, Copy)]
pub enum Whom {
    /// All gear.
    All,
    /// The gear with a short address.
    Address(Short),
    /// The gear up to the search address.
    Search,
}

/// Which gear the frames that were put last were about, with the search address.
#[derive(Clone, Copy)]
pub struct Aim {
    pub whom: Whom,
    pub high: u8,
    pub middle: u8,
    pub low: u8,
}

impl Aim {
    /// Before the first frame.
    const FIRST: Aim = Aim {
        whom: Whom::All,
        high: 0xFF,
        middle: 0xFF,
        low: 0xFF,
    };

    /// Once a frame more was put.
    fn after(self, command: Command) -> Aim
        ensures { result ≡ aim_after command self }
    {
        let whom = Whom::Search;
        let search = Aim { whom, ..self };
        match command {
            Command::SearchHigh(high) => Aim { high, ..search },
            Command::SearchMiddle(middle) => Aim { middle, ..search },
            Command::SearchLow(low) => Aim { low, ..search },
            Command::RandomByte(short, _) => {
                let whom = Whom::Address(short);
                Aim { whom, ..self }
            }
            Command::Terminate
            | Command::Initialise(_)
            | Command::Randomise
            | Command::Compare
            | Command::Withdraw
            | Command::Program(_)
            | Command::Verify(_)
            | Command::QueryShort
            | Command::Arc(_)
            | Command::Other(_) => self,
        }
    }
}

impl fmt::Display for Aim {
    ghost use Rattle.std.specs.Prelude.{Some};
    ghost use Rattle.dali_commission_said.specs.Progress.{aim_text};

    ghost output = { λ aim. Some (aim_text aim) };

    fn fmt<W: fmt::Write>(&self, f: &mut fmt::Formatter<W>) -> fmt::Result {
        match self.whom {
            Whom::All => f.write_str("of all gear"),
            Whom::Address(short) => {
                let number = short.number();
                write!(f, "to short address {number}")
            }
            Whom::Search => {
                let number = Random24::from_bytes(self.high, self.middle, self.low);
                write!(f, "under the search address {number}")
            }
        }
    }
}

/// How far the machines are: how many gear were enrolled, how many frames were put, and how many short addresses are
/// left that no reservation has.
#[derive(Clone, Copy)]
pub struct Far {
    pub found: u32,
    pub frames: u64,
    pub left: u32,
}

impl fmt::Display for Far {
    ghost use Rattle.std.specs.Prelude.{Some};
    ghost use Rattle.dali_commission_said.specs.Progress.{far_text};

    ghost output = { λ far. Some (far_text far) };

    fn fmt<W: fmt::Write>(&self, f: &mut fmt::Formatter<W>) -> fmt::Result {
        let (found, frames, left) = (self.found, self.frames, self.left);
        write!(
            f,
            "{found} gear found, {frames} frames, {left} addresses left"
        )
    }
}

impl Far {
    /// Once this was ordered too.
    fn after(mut self, order: &Order) -> Far
        ensures { result ≡ far_after order.now self }
    {
        match *order {
            Order::Put(..) => self.frames = self.frames.saturating_add(1),
            Order::Commit(Record::Reserve(..)) => self.left = self.left.saturating_sub(1),
            Order::Commit(Record::Release(..)) => self.left = self.left.saturating_add(1),
            Order::Commit(Record::Enrol(..)) => self.found = self.found.saturating_add(1),
            Order::Done(_) | Order::Halt(_) => {}
        }
        self
    }
}

/// How many frames are put between two lines on a terminal.
const FRAMES: u64 = 32;

/// Whether it is told after an order how far they are.
fn is_told(manner: Manner, order: &Order, frames: u64) -> bool
    ensures { result ≡ is_told manner order.now frames }
{
    match (manner, *order) {
        (Manner::Quiet, _) => false,
        (Manner::Plain | Manner::Rewritten, Order::Commit(Record::Enrol(..))) => true,
        (Manner::Rewritten, Order::Put(..)) => frames % FRAMES == 0,
        (Manner::Plain | Manner::Rewritten, _) => false,
    }
}

/// Who says how far the machines are.
#[derive(Drop)]
pub struct Progress<'a, S> {
    system: &'a S,
    manner: Manner,
    far: Far,
    aim: Aim,
}

impl<'a, S: Voice> Progress<'a, S> {
    /// Of so many short addresses that no reservation has.
    pub fn new(system: &'a S, manner: Manner, left: u32) -> Progress<'a, S>
        ensures far { result.far ≡ record { found = 0; frames = 0; left = left } }
        ensures aim { result.aim ≡ first_aim }
    {
        Progress {
            system,
            manner,
            far: Far {
                found: 0,
                frames: 0,
                left,
            },
            aim: Aim::FIRST,
        }
    }

    /// What comes first is said.
    pub fn begin(&self, said: &Said<'_>)
        ensures { self.now.manner ≢ Manner.Quiet → S.told self.now.system.now said.now }
    {
        if self.manner != Manner::Quiet {
            say(self.system, said);
        }
    }

    /// What is said. If it cannot be said, nothing else changes.
    fn tell(&self)
        ensures { self.now.manner ≢ Manner.Rewritten → S.told self.now.system.now (Said.Far self.now.far) }
    {
        let said = Said::Far(self.far);
        if self.manner == Manner::Rewritten {
            let _ = eprint!(self.system; "\r{said} ");
        } else {
            say(self.system, &said);
        }
    }

    /// The last line is ended.
    pub fn end(&self) {
        if self.manner == Manner::Rewritten {
            let _ = eprintln!(self.system; "");
        }
    }

    /// Which gear the frames that were put last were about, but for the close.
    pub fn aim(&self) -> Aim
        ensures { result ≡ self.now.aim }
    {
        self.aim
    }
}

impl<S: Voice> Watch for Progress<'_, S> {
    fn ordered(&mut self, order: &Order)
        ensures far { self.new.far ≡ far_after order.now self.old.far }
        ensures told { self.old.manner ≡ Manner.Plain → is_told Manner.Plain order.now self.new.far.frames ≡ true
            → S.told self.old.system.now (Said.Far self.new.far) }
    {
        self.far = self.far.after(order);
        if let Order::Put(_, frame) = *order {
            self.aim = self.aim.after(Command::read(frame));
        }
        if is_told(self.manner, order, self.far.frames) {
            self.tell();
        }
    }

    fn told(&mut self, _told: Input)
        ensures { self.new ≡ self.old }
    {}
}
