//! Which rule an item breaks, one function for each rule.

ghost use Rattle.std.specs.Prelude.{◌≡◌, ◌++◌, OnOk};
ghost use Rattle.dali_audit.specs.Findings.{at_where, is_broken, is_stray, damaged_answer, half_pair, late_pair};
ghost use Rattle.dali_audit.specs.Findings.{not_initialised, asks_initialised, too_close, settling_time, early_frame};
ghost use Rattle.dali_audit.specs.Findings.{initialisation_over, asks_short, needs_search};
ghost use Rattle.dali_audit.specs.Findings.{not_queried, unasked_by, programs_at, is_found, not_found};
ghost use Rattle.dali_audit.specs.Findings.{several_programmed, address_taken, address_moved, not_terminated};
ghost use Rattle.dali_audit.specs.Findings.{two_random, two_short, told_at, told_of, told_of_end, found_at};
ghost use Rattle.dali_audit.specs.Findings.{breaks, known_at_first, known_after, redraws, is_misspelled};
ghost use Rattle.dali_audit.specs.Findings.{not_an_address, is_to_all, erases, reset_of_all, set_for_all};
ghost use Rattle.dali_audit.specs.Holders.{change_of};
ghost use Rattle.dali_special.specs.Command.{command_of};

use crate::bus::{Bus, acts, in_initialisation, is_addressing, same_frame};
use crate::findings::{Finding, Kind};
use crate::found::Found;
use crate::holders::{Change, RESET, SET_SHORT_ADDRESS, Table, change_of};
use crate::seen::Seen;
use dali_capture::Item;
use dali_frame::{Answer, Forward, Random24};
use dali_special::Command;
use std::alloc::{AllocError, Global};

/// From the end of a frame to the next forward frame, in µs: 13.5 ms, less a tenth (IEC 62386-101:2014, multi-master
/// transmitter frame sequence timing).
const SETTLING: u64 = 12_150;

/// How long gear may take to draw a random address, in µs: 100 ms, less a tenth (IEC 62386-102:2014, RANDOMISE).
const DRAW: u64 = 90_000;

/// The address byte of PROGRAM SHORT ADDRESS.
const PROGRAM: u8 = 0xB7;

/// The address byte of a frame to all gear.
const ALL: u8 = 0xFF;

/// No short address, in DTR0.
const MASK: u8 = 0xFF;

/// What a capture tells up to an item: of the bus, and of who has which short address.
#[derive(Drop)]
pub struct Known {
    pub bus: Bus,
    pub table: Table,
    pub found: Found,
}

fn at_where(holds: bool, at: u64) -> Option<u64>
    ensures { result ≡ at_where holds at }
{
    if holds { Some(at) } else { None }
}

fn is_broken(seen: Seen) -> bool
    ensures { result ≡ is_broken seen }
{
    match seen {
        Seen::Broken => true,
        Seen::Sent(..) | Seen::Replied | Seen::Stray | Seen::Foreign => false,
    }
}

fn is_stray(seen: Seen) -> bool
    ensures { result ≡ is_stray seen }
{
    match seen {
        Seen::Stray => true,
        Seen::Sent(..) | Seen::Replied | Seen::Broken | Seen::Foreign => false,
    }
}

fn damaged_answer(item: &Item, seen: Seen) -> Option<u64>
    ensures { result ≡ damaged_answer item.now seen }
{
    match seen {
        Seen::Sent(frame, Answer::Damaged) => match Command::read(frame) {
            Command::Compare => None,
            command => at_where(command.is_question(), item.at),
        },
        _ => None,
    }
}

/// Whether gear answer a frame in an initialisation alone.
fn asks_initialised(frame: Forward) -> bool
    ensures { result ≡ asks_initialised (command_of frame) }
{
    in_initialisation(frame) && Command::read(frame).is_question()
}

fn not_initialised(bus: &Bus, item: &Item, seen: Seen) -> Option<u64>
    ensures { result ≡ not_initialised bus.now item.now seen }
{
    match seen {
        Seen::Sent(frame, answer) => {
            let is_answered = asks_initialised(frame) && answer != Answer::Silence;
            at_where(bus.is_closed && is_answered, item.at)
        }
        Seen::Replied | Seen::Stray | Seen::Foreign | Seen::Broken => None,
    }
}

fn too_close(settled: Option<u64>, item: &Item) -> Option<u64>
    ensures { result ≡ too_close settled item.now }
{
    match settled {
        Some(settled) => at_where(item.at.saturating_sub(settled) < SETTLING, item.at),
        None => None,
    }
}

fn settling_time(bus: &Bus, item: &Item, seen: Seen) -> Option<u64>
    ensures { result ≡ settling_time bus.now item.now seen }
{
    match seen {
        Seen::Sent(..) | Seen::Foreign => too_close(bus.settled, item),
        Seen::Replied | Seen::Stray | Seen::Broken => None,
    }
}

/// Whether it makes an end of a pair whose first frame was this one.
fn breaks(first: Forward, seen: Seen) -> bool
    ensures { result ≡ breaks first seen }
{
    match seen {
        Seen::Sent(frame, _) => !same_frame(first, frame),
        Seen::Foreign => true,
        Seen::Replied | Seen::Stray | Seen::Broken => false,
    }
}

fn half_pair(bus: &Bus, seen: Seen) -> Option<u64>
    ensures { result ≡ half_pair bus.now seen }
{
    match bus.half {
        Some(first) => at_where(!first.is_told && breaks(first.frame, seen), first.at),
        None => None,
    }
}

fn late_pair(bus: &Bus, item: &Item, seen: Seen) -> Option<u64>
    ensures { result ≡ late_pair bus.now item.now seen }
{
    match seen {
        Seen::Sent(frame, _) => at_where(bus.repeats(frame) && bus.is_late(item), item.at),
        Seen::Replied | Seen::Stray | Seen::Foreign | Seen::Broken => None,
    }
}

fn early_frame(bus: &Bus, item: &Item, seen: Seen) -> Option<u64>
    ensures { result ≡ early_frame bus.now item.now seen }
{
    match (bus.drawn, seen) {
        (Some(drawn), Seen::Sent(frame, _)) => {
            let is_early = item.at.saturating_sub(drawn) < DRAW;
            at_where(is_addressing(frame) && is_early, item.at)
        }
        _ => None,
    }
}

fn initialisation_over(bus: &Bus, item: &Item, seen: Seen) -> Option<u64>
    ensures { result ≡ initialisation_over bus.now item.now seen }
{
    match seen {
        Seen::Sent(frame, _) => at_where(bus.is_over(item, frame), item.at),
        Seen::Replied | Seen::Stray | Seen::Foreign | Seen::Broken => None,
    }
}

/// Whether a frame asks for a short address, or asks the gear under it.
fn asks_short(command: &Command) -> bool
    ensures { result ≡ asks_short command.now }
{
    match command {
        Command::QueryShort | Command::Verify(_) | Command::RandomByte(..) => true,
        Command::Terminate
        | Command::Initialise(_)
        | Command::Randomise
        | Command::Compare
        | Command::Withdraw
        | Command::SearchHigh(_)
        | Command::SearchMiddle(_)
        | Command::SearchLow(_)
        | Command::Program(_)
        | Command::Arc(_)
        | Command::Other(_) => false,
    }
}

/// Whether a frame is for the gear at the search address.
fn needs_search(command: &Command) -> bool
    ensures { result ≡ needs_search command.now }
{
    match command {
        Command::Compare | Command::Withdraw | Command::Program(_) | Command::QueryShort => true,
        Command::Terminate
        | Command::Initialise(_)
        | Command::Randomise
        | Command::SearchHigh(_)
        | Command::SearchMiddle(_)
        | Command::SearchLow(_)
        | Command::Verify(_)
        | Command::RandomByte(..)
        | Command::Arc(_)
        | Command::Other(_) => false,
    }
}

fn unasked_by(given: u64, frame: Forward) -> Option<u64>
    ensures { result ≡ unasked_by given (command_of frame) }
{
    let is_asked = asks_short(&Command::read(frame));
    at_where(acts(frame) && !is_asked, given)
}

fn not_queried(bus: &Bus, seen: Seen) -> Option<u64>
    ensures { result ≡ not_queried bus.now seen }
{
    match (bus.given, seen) {
        (Some(given), Seen::Sent(frame, _)) => unasked_by(given, frame),
        _ => None,
    }
}

/// The search address at which PROGRAM SHORT ADDRESS is sent, by what it changes.
fn programs_at(change: &Change) -> Option<Random24>
    ensures { result ≡ programs_at change.now }
{
    match change {
        Change::Given(_, random) | Change::Erased(random) => Some(*random),
        Change::Nothing
        | Change::Told(..)
        | Change::Verified(_)
        | Change::Answered(_)
        | Change::Redrawn
        | Change::Forgotten(_) => None,
    }
}

fn several_programmed(bus: &Bus, seen: Seen) -> Option<u64>
    ensures { result ≡ several_programmed bus.now seen }
{
    match seen {
        Seen::Sent(frame, Answer::Damaged) => {
            if asks_short(&Command::read(frame)) && bus.is_crowded() {
                bus.given
            } else {
                None
            }
        }
        _ => None,
    }
}

/// The search address at which gear answer a question.
fn found_at(bus: &Bus, seen: Seen) -> Option<Random24>
    ensures { result ≡ found_at bus.now seen }
{
    match seen {
        Seen::Sent(frame, answer) => {
            if needs_search(&Command::read(frame)) && answer != Answer::Silence {
                bus.search.number()
            } else {
                None
            }
        }
        Seen::Replied | Seen::Stray | Seen::Foreign | Seen::Broken => None,
    }
}

fn address_taken(table: &Table, change: &Change) -> bool
    ensures { result ≡ address_taken table.now change.now }
{
    match change {
        Change::Given(short, random) => table.holder(*short).is_other(*random),
        Change::Nothing
        | Change::Erased(_)
        | Change::Told(..)
        | Change::Verified(_)
        | Change::Answered(_)
        | Change::Redrawn
        | Change::Forgotten(_) => false,
    }
}

fn address_moved(table: &Table, change: &Change) -> bool
    ensures { result ≡ address_moved table.now change.now }
{
    match change {
        Change::Given(short, random) => {
            !table.holder(*short).was_confirmed(*random) && table.is_confirmed(*random)
        }
        Change::Nothing
        | Change::Erased(_)
        | Change::Told(..)
        | Change::Verified(_)
        | Change::Answered(_)
        | Change::Redrawn
        | Change::Forgotten(_) => false,
    }
}

/// Whether it is PROGRAM SHORT ADDRESS with a byte that is no short address.
fn is_misspelled(frame: Forward) -> bool
    ensures { result ≡ is_misspelled (command_of frame) }
{
    match Command::read(frame) {
        Command::Other(other) => other.address_byte == PROGRAM,
        _ => false,
    }
}

fn not_an_address(item: &Item, seen: Seen) -> Option<u64>
    ensures { result ≡ not_an_address item.now seen }
{
    match seen {
        Seen::Sent(frame, _) => at_where(is_misspelled(frame), item.at),
        Seen::Replied | Seen::Stray | Seen::Foreign | Seen::Broken => None,
    }
}

/// Whether it is this command to all gear.
fn is_to_all(opcode: u8, frame: Forward) -> bool
    ensures { result ≡ is_to_all opcode (command_of frame) }
{
    match Command::read(frame) {
        Command::Other(other) => other.address_byte == ALL && other.opcode_byte == opcode,
        _ => false,
    }
}

/// Whether SET SHORT ADDRESS takes short addresses away.
fn erases(dtr0: Option<u8>) -> bool
    ensures { result ≡ erases dtr0 }
{
    match dtr0 {
        Some(byte) => byte == MASK,
        None => false,
    }
}

fn reset_of_all(item: &Item, seen: Seen) -> Option<u64>
    ensures { result ≡ reset_of_all item.now seen }
{
    match seen {
        Seen::Sent(frame, _) => at_where(is_to_all(RESET, frame), item.at),
        Seen::Replied | Seen::Stray | Seen::Foreign | Seen::Broken => None,
    }
}

fn set_for_all(bus: &Bus, item: &Item, seen: Seen) -> Option<u64>
    ensures { result ≡ set_for_all bus.now item.now seen }
{
    match seen {
        Seen::Sent(frame, _) => {
            let is_set = is_to_all(SET_SHORT_ADDRESS, frame);
            at_where(is_set && !erases(bus.dtr0), item.at)
        }
        Seen::Replied | Seen::Stray | Seen::Foreign | Seen::Broken => None,
    }
}

/// The begin of an initialisation that has no end.
pub(crate) fn not_terminated(bus: &Bus) -> Option<u64>
    ensures { result ≡ not_terminated bus.now }
{
    match bus.begun {
        Some(begun) => Some(begun.at),
        None => None,
    }
}

fn two_random(table: &Table, change: &Change) -> bool
    ensures { result ≡ two_random table.now change.now }
{
    match change {
        Change::Told(short, random) => match table.holder(*short).heard() {
            Some(own) => own != *random,
            None => false,
        },
        Change::Nothing
        | Change::Given(..)
        | Change::Erased(_)
        | Change::Verified(_)
        | Change::Answered(_)
        | Change::Redrawn
        | Change::Forgotten(_) => false,
    }
}

fn two_short(table: &Table, change: &Change) -> bool
    ensures { result ≡ two_short table.now change.now }
{
    match change {
        Change::Told(short, random) => {
            table.holder(*short).heard() != Some(*random) && table.is_heard(*random)
        }
        Change::Nothing
        | Change::Given(..)
        | Change::Erased(_)
        | Change::Verified(_)
        | Change::Answered(_)
        | Change::Redrawn
        | Change::Forgotten(_) => false,
    }
}

impl Known {
    /// Before any item nothing is known.
    pub fn new(alloc: Global) -> Known
        ensures { result ≡ known_at_first }
    {
        Known {
            bus: Bus::new(),
            table: Table::new(),
            found: Found::new(alloc),
        }
    }

    /// Whether gear answered at this search address, or told that they have this random address.
    fn is_found(&self, random: Random24) -> bool
        ensures { result ≡ is_found self.now.found self.now.table random }
    {
        self.found.contains(random) || self.table.is_heard(random)
    }

    fn not_found(&self, change: &Change) -> bool
        ensures { result ≡ not_found self.now change.now }
    {
        match programs_at(change) {
            Some(random) => self.bus.begun.is_some() && !self.is_found(random),
            None => false,
        }
    }

    /// Whether all gear draw new random addresses, while some have short addresses.
    fn redraws(&self, change: &Change) -> bool
        ensures { result ≡ redraws self.now change.now }
    {
        match change {
            Change::Redrawn => self.bus.takes_all && self.table.is_held(),
            Change::Nothing
            | Change::Given(..)
            | Change::Erased(_)
            | Change::Told(..)
            | Change::Verified(_)
            | Change::Answered(_)
            | Change::Forgotten(_) => false,
        }
    }

    fn change(&self, item: &Item, seen: Seen) -> Change
        ensures { result ≡ change_of self.now.bus item.now seen }
    {
        change_of(&self.bus, item, seen)
    }

    /// The time that is told of an item, if it breaks this rule.
    pub fn told_at(&self, kind: Kind, item: &Item, seen: Seen) -> Option<u64>
        ensures { result ≡ told_at kind self.now item.now seen }
    {
        match kind {
            Kind::DamagedFrame => at_where(is_broken(seen), item.at),
            Kind::DamagedAnswer => damaged_answer(item, seen),
            Kind::UnaskedAnswer => at_where(is_stray(seen), item.at),
            Kind::NotInitialised => not_initialised(&self.bus, item, seen),
            Kind::SettlingTime => settling_time(&self.bus, item, seen),
            Kind::HalfPair => half_pair(&self.bus, seen),
            Kind::LatePair => late_pair(&self.bus, item, seen),
            Kind::EarlyFrame => early_frame(&self.bus, item, seen),
            Kind::InitialisationOver => initialisation_over(&self.bus, item, seen),
            Kind::NotQueried => not_queried(&self.bus, seen),
            Kind::NotFound => {
                let change = self.change(item, seen);
                at_where(self.not_found(&change), item.at)
            }
            Kind::SeveralProgrammed => several_programmed(&self.bus, seen),
            Kind::AddressTaken => {
                let change = self.change(item, seen);
                at_where(address_taken(&self.table, &change), item.at)
            }
            Kind::AddressMoved => {
                let change = self.change(item, seen);
                at_where(address_moved(&self.table, &change), item.at)
            }
            Kind::TwoRandomAddresses => {
                let change = self.change(item, seen);
                at_where(two_random(&self.table, &change), item.at)
            }
            Kind::TwoShortAddresses => {
                let change = self.change(item, seen);
                at_where(two_short(&self.table, &change), item.at)
            }
            Kind::Redrawn => {
                let change = self.change(item, seen);
                at_where(self.redraws(&change), item.at)
            }
            Kind::NotAnAddress => not_an_address(item, seen),
            Kind::ResetOfAll => reset_of_all(item, seen),
            Kind::SetForAll => set_for_all(&self.bus, item, seen),
            Kind::CutOff | Kind::NotTerminated => None,
        }
    }

    /// Notes which of these rules an item breaks.
    pub(crate) fn tell(
        &self,
        findings: &mut Vec<Finding>,
        item: &Item,
        seen: Seen,
        kinds: &[Kind],
    ) -> Result<(), AllocError>
        ensures { OnOk result (findings.new.items ≡ findings.old.items ++ told_of self.now item.now seen kinds.now) }
    {
        for kind in kinds {
            if let Some(at) = self.told_at(*kind, item, seen) {
                findings.push(Finding { at, kind: *kind })?;
            }
        }
        Ok(())
    }

    /// Notes what the end of the capture breaks.
    pub(crate) fn tell_end(&self, findings: &mut Vec<Finding>) -> Result<(), AllocError>
        ensures { OnOk result (findings.new.items ≡ findings.old.items ++ told_of_end self.now.bus) }
    {
        if let Some(at) = self.bus.cut {
            findings.push(Finding {
                at,
                kind: Kind::CutOff,
            })?;
        }
        if let Some(at) = not_terminated(&self.bus) {
            findings.push(Finding {
                at,
                kind: Kind::NotTerminated,
            })?;
        }
        Ok(())
    }

    /// After an item.
    pub fn take(&mut self, item: &Item, seen: Seen) -> Result<(), AllocError>
        ensures { OnOk result (self.new ≡ known_after item.now seen self.old) }
    {
        let change = self.change(item, seen);
        let found = found_at(&self.bus, seen);
        self.table.take(&change);
        self.bus = self.bus.after(item, seen);
        self.found.note(found)
    }
}
