//! Captures, frame by frame, as a controller would send them.

use dali_audit::{Audit, KINDS, Kind, audit_items};
use dali_capture::{Heard, Item};
use dali_frame::{Forward, Random24, Short};
use dali_special::{Command, Target};
use std::alloc::Global;
use std::process::Abort;
use std::test::Fail;

/// A capture in the making, of frames that follow each other as closely as they may.
#[derive(Drop)]
pub struct Capture {
    pub items: Vec<Item>,
    now: u64,
}

/// The address of a number, which is one.
pub fn short(number: u8) -> Result<Short, Fail> {
    Ok(Short::of(number).ok_or("a short address")?)
}

/// The number of so many bits, which are 24 at most.
pub fn random(number: u32) -> Result<Random24, Fail> {
    Ok(Random24::of(number).ok_or("a number of 24 bits")?)
}

impl Capture {
    pub fn new(alloc: Global) -> Capture {
        Capture {
            items: Vec::new(alloc),
            now: 1_000_000,
        }
    }

    /// Something is heard so long after what was heard before, and takes so long.
    pub fn hear(&mut self, after: u64, lasts: u64, what: Heard) -> Result<(), Fail> {
        let at = self.now + after;
        let until = at + lasts;
        self.items.push(Item { at, until, what })?;
        self.now = until;
        Ok(())
    }

    /// The bus is quiet for so many µs.
    pub fn wait(&mut self, micros: u64) {
        self.now += micros;
    }

    /// What is heard next begins so many µs earlier.
    pub fn hurry(&mut self, micros: u64) {
        self.now -= micros;
    }

    /// A forward frame.
    pub fn frame(&mut self, frame: Forward) -> Result<(), Fail> {
        self.hear(14_000, 14_167, Heard::Forward(frame))
    }

    /// The frame of a command.
    pub fn tell(&mut self, command: Command) -> Result<(), Fail> {
        self.frame(command.write())
    }

    /// A command that is sent twice.
    pub fn twice(&mut self, command: Command) -> Result<(), Fail> {
        self.tell(command)?;
        self.tell(command)
    }

    /// A question, and the byte that is heard.
    pub fn ask(&mut self, command: Command, byte: u8) -> Result<(), Fail> {
        self.tell(command)?;
        self.hear(7_000, 7_500, Heard::Backward(byte))
    }

    /// A question, and a damaged answer.
    pub fn ask_several(&mut self, command: Command) -> Result<(), Fail> {
        self.tell(command)?;
        self.hear(7_000, 7_500, Heard::Damaged)
    }

    /// TERMINATE, INITIALISE of gear without a short address and RANDOMISE.
    pub fn open(&mut self) -> Result<(), Fail> {
        self.tell(Command::Terminate)?;
        self.twice(Command::Initialise(Target::Unaddressed))?;
        self.twice(Command::Randomise)?;
        self.wait(100_000);
        Ok(())
    }

    /// The search address.
    pub fn search(&mut self, number: u32) -> Result<(), Fail> {
        let random = random(number)?;
        self.tell(Command::SearchHigh(random.high()))?;
        self.tell(Command::SearchMiddle(random.middle()))?;
        self.tell(Command::SearchLow(random.low()))
    }

    /// The gear with this random address is found, gets a short address and confirms it.
    pub fn give(&mut self, number: u32, address: u8) -> Result<(), Fail> {
        self.search(number)?;
        self.ask(Command::Compare, 0xFF)?;
        self.ask(Command::QueryShort, 0xFF)?;
        self.program(address)?;
        self.tell(Command::Withdraw)
    }

    /// The gear at the search address gets a short address and confirms it.
    pub fn program(&mut self, address: u8) -> Result<(), Fail> {
        self.tell(Command::Program(Some(short(address)?)))?;
        self.ask(Command::QueryShort, 2 * address + 1)
    }

    /// The judge's word, after TERMINATE.
    pub fn closed(&mut self, alloc: Global) -> Result<Audit, Fail> {
        self.tell(Command::Terminate)?;
        self.audit(alloc)
    }

    /// The judge's word.
    pub fn audit(&self, alloc: Global) -> Result<Audit, Fail> {
        Ok(audit_items(alloc, self.items.as_slice())?)
    }
}

/// Fails unless these kinds of findings are told, in this order.
pub fn told<R: Abort>(rt: &R, audit: &Audit, wanted: &[Kind]) {
    assert_eq!(rt; audit.findings.len(), wanted.len());
    for (finding, kind) in audit.findings.iter().zip(wanted) {
        assert_eq!(rt; finding.kind, *kind);
    }
    assert_eq!(rt; KINDS.len(), 22);
}
