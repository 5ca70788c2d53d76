//! The gear that a capture reveals: those that told their random address, or got a short address and confirmed it.

ghost use Rattle.std.specs.Prelude.{◌≡◌, OnOk, IfOk};
ghost use Rattle.dali_audit.specs.Places.{unaddressed, used, told_place, verified_place, is_mask, asks_at};
ghost use Rattle.dali_audit.specs.Places.{masked_place, revealed, opened_after, reading_after, reading_at_first};
ghost use Rattle.dali_audit.specs.Places.{is_same, has_same, is_there, placed_with, places_in};

use crate::audit::first_of;
use crate::holders::{Change, Holder, change_of};
use crate::seen::{Seen, seen_of};
use crate::telling::Known;
use dali_capture::Item;
use dali_frame::{Answer, Random24, Short};
use dali_special::Command;
use std::alloc::{AllocError, Global};

/// How many gear a bench has at the most.
pub const GEAR_LIMIT: usize = 128;

/// Why there is no bench of a capture.
#[derive(Clone, Copy, Debug, PartialEq, Eq)]
pub enum BenchError {
    /// There is too little memory.
    NoMemory,
    /// The capture reveals more than 128 gear.
    TooManyGear,
    /// A script of the bench has more than 1,048,576 bytes.
    TooLong,
}

/// A gear that a capture reveals.
#[derive(Clone, Copy)]
pub struct Place {
    pub random: Random24,
    /// The short address that it had when the capture began.
    pub short: Option<Short>,
    /// The item from which on it is played: the first frame of INITIALISE before it drew its random address.
    pub from: usize,
    /// The item at which it drew that: the second frame of RANDOMISE. None stands for before the capture.
    pub draw: Option<usize>,
}

/// How far a capture is read.
#[derive(Drop)]
pub struct Reading {
    pub known: Known,
    /// The last RANDOMISE.
    draw: Option<usize>,
    /// Where the last INITIALISE before it began.
    from: usize,
    /// Where the last complete INITIALISE began, and the last frame of one.
    started: usize,
    opened: usize,
    /// Whether gear with a short address may have drawn a new random address.
    redrawn: bool,
}

fn is_mask(answer: Answer) -> bool
    ensures { result ≡ is_mask answer }
{
    match answer {
        Answer::Byte(byte) => byte == 0xFF,
        Answer::Silence | Answer::Damaged => false,
    }
}

/// Whether a frame asks for the short address of the gear at the search address.
fn asks_at(command: &Command) -> bool
    ensures { result ≡ asks_at command.now }
{
    match command {
        Command::QueryShort => true,
        Command::Terminate
        | Command::Initialise(_)
        | Command::Randomise
        | Command::Compare
        | Command::Withdraw
        | Command::SearchHigh(_)
        | Command::SearchMiddle(_)
        | Command::SearchLow(_)
        | Command::Program(_)
        | Command::Verify(_)
        | Command::RandomByte(..)
        | Command::Arc(_)
        | Command::Other(_) => false,
    }
}

impl Reading {
    /// Before any item.
    pub fn new(alloc: Global) -> Reading
        ensures { result ≡ reading_at_first }
    {
        Reading {
            known: Known::new(alloc),
            draw: None,
            from: 0,
            started: 0,
            opened: 0,
            redrawn: false,
        }
    }

    /// A gear without a short address, that drew its random address at the last RANDOMISE.
    fn unaddressed(&self, random: Random24) -> Place
        ensures { result ≡ unaddressed random self.now }
    {
        Place {
            random,
            short: None,
            from: self.from,
            draw: self.draw,
        }
    }

    /// A gear that had its short address before the capture, unless such gear may have drawn.
    fn used(&self, short: Short, random: Random24) -> Option<Place>
        ensures { result ≡ used short random self.now }
    {
        if self.redrawn {
            return None;
        }
        Some(Place {
            random,
            short: Some(short),
            from: 0,
            draw: None,
        })
    }

    /// The gear that was heard under a short address. If that was not programmed in this capture, the gear had it.
    fn told(&self, short: Short, random: Random24) -> Option<Place>
        ensures { result ≡ told_place short random self.now }
    {
        if self.known.table.holder(short).was_given(random) {
            Some(self.unaddressed(random))
        } else {
            self.used(short, random)
        }
    }

    /// The gear that has the short address that was verified, if that was programmed.
    fn verified(&self, holder: &Holder) -> Option<Place>
        ensures { result ≡ verified_place holder.now self.now }
    {
        match holder {
            Holder::Programmed(random) => Some(self.unaddressed(*random)),
            Holder::Verified(_) | Holder::Answered(_) | Holder::Nobody | Holder::Somebody => None,
        }
    }

    /// The gear that says that it has no short address.
    fn masked(&self, seen: Seen) -> Option<Place>
        ensures { result ≡ masked_place seen self.now }
    {
        let Seen::Sent(frame, answer) = seen else {
            return None;
        };
        if !asks_at(&Command::read(frame)) || !is_mask(answer) {
            return None;
        }
        match self.known.bus.search.number() {
            Some(random) => Some(self.unaddressed(random)),
            None => None,
        }
    }

    /// The gear that an item reveals.
    fn revealed(&self, item: &Item, seen: Seen) -> Option<Place>
        ensures { result ≡ revealed item.now seen self.now }
    {
        match change_of(&self.known.bus, item, seen) {
            Change::Told(short, random) => self.told(short, random),
            Change::Verified(short) => self.verified(&self.known.table.holder(short)),
            Change::Nothing => self.masked(seen),
            Change::Given(..)
            | Change::Erased(_)
            | Change::Answered(_)
            | Change::Redrawn
            | Change::Forgotten(_) => None,
        }
    }

    /// Notes which INITIALISE and which RANDOMISE came last.
    fn open(&mut self, number: usize, item: &Item, seen: Seen)
        ensures { self.new ≡ opened_after number item.now seen self.old }
    {
        let Seen::Sent(frame, _) = seen else {
            return;
        };
        let is_second = self.known.bus.completes(item, frame);
        match Command::read(frame) {
            Command::Initialise(_) => {
                if is_second {
                    self.started = self.opened;
                } else {
                    self.opened = number;
                }
            }
            Command::Randomise => {
                if is_second {
                    self.draw = Some(number);
                    self.from = self.started;
                    self.redrawn = self.redrawn || self.known.bus.may_redraw;
                }
            }
            Command::Terminate
            | Command::Compare
            | Command::Withdraw
            | Command::SearchHigh(_)
            | Command::SearchMiddle(_)
            | Command::SearchLow(_)
            | Command::Program(_)
            | Command::Verify(_)
            | Command::QueryShort
            | Command::RandomByte(..)
            | Command::Arc(_)
            | Command::Other(_) => {}
        }
    }

    /// After an item of this number.
    pub fn take(&mut self, number: usize, item: &Item, seen: Seen) -> Result<(), AllocError>
        ensures { OnOk result (self.new ≡ reading_after number item.now seen self.old) }
    {
        self.open(number, item, seen);
        self.known.take(item, seen)
    }
}

#[tactic(auto, unfolding(crate::specs::Places::is_same))]
fn is_same(one: &Place, other: &Place) -> bool
    ensures { result ≡ is_same one.now other.now }
{
    one.random == other.random || (one.short.is_some() && one.short == other.short)
}

fn has_same(places: &[Place], place: &Place) -> bool
    ensures { result ≡ has_same places.now place.now }
{
    places.iter().any(|other| is_same(other, place))
}

/// Whether a gear is there already, or has drawn no number.
fn is_there(places: &[Place], place: &Place) -> bool
    ensures { result ≡ is_there places.now place.now }
{
    has_same(places, place) || place.random == Random24::MASK
}

/// One more gear, if it is not there yet.
fn add(places: &mut Vec<Place>, place: Option<Place>) -> Result<(), AllocError>
    ensures { OnOk result (places.new.items ≡ placed_with place places.old.items) }
{
    if let Some(place) = place {
        if !is_there(places.as_slice(), &place) {
            places.push(place)?;
        }
    }
    Ok(())
}

/// The gear that a capture reveals.
pub fn places_of(alloc: Global, items: &[Item]) -> Result<Vec<Place>, AllocError>
    ensures { IfOk result (λ ps. ps.items ≡ places_in items.now) }
{
    let mut places = Vec::new(alloc);
    let mut reading = Reading::new(alloc);
    let mut before = None;
    let mut rest = items;
    let mut number: usize = 0;
    while let [item, more @ ..] = rest {
        let seen = seen_of(before, item, first_of(more));
        add(&mut places, reading.revealed(item, seen))?;
        reading.take(number, item, seen)?;
        before = Some(*item);
        rest = more;
        number += 1;
    }
    Ok(places)
}
