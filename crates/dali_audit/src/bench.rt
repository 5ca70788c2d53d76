//! A capture as a bench: gear with the random addresses that it reveals, and its frames.

ghost use Rattle.std.specs.Prelude.{◌≡◌, ◌<◌, ◌≤◌, ◌++◌, [], ◌∷◌, length, OnOk, IfOk, IfErr, slice_set};
ghost use Rattle.std.specs.Prelude.{slice_index_or, slice_get, All, true, false, None, option_to_list};
ghost use Rattle.std.specs.List.{list_any};
ghost use Rattle.dali_audit.specs.declared.comparing.Move.TheVariants.{Frame};
ghost use Rattle.dali_frame.specs.Random.{MASK24};
ghost use Rattle.dali_audit.specs.Comparing.{compared};
ghost use Rattle.dali_audit.specs.Frames.{frames_of, frames_in, step_of, asked};
ghost use Rattle.dali_audit.specs.Bench.{gear_at_first, early, early_frames, is_early, IsBenchOf, power_steps};
ghost use Rattle.dali_audit.specs.Bench.{is_due, woken};
ghost use Rattle.dali_audit.specs.Places.{places_in};
ghost use Rattle.dali_audit.specs.declared.places.BenchError.TheVariants.{TooManyGear};

use crate::audit::first_of;
use crate::comparing::{Move, Outcome, Step, compare, play};
use crate::draws::Draws;
use crate::frames::asked;
use crate::holders::{Change, change_of};
use crate::later::heard_later;
use crate::places::{BenchError, GEAR_LIMIT, Place, Reading, places_of};
use crate::seen::{Seen, seen_of};
use dali_capture::Item;
use dali_frame::{Answer, Forward, Random24, Short};
use dali_gear::Row;
use dali_special::{Command, Target};
use std::alloc::{AllocError, Global};

/// A bench that takes the frames of a capture.
#[derive(Drop)]
pub struct Bench {
    /// The gear, in order of their numbers.
    pub places: Vec<Place>,
    pub steps: Vec<Step>,
    /// The numbers that gear draw, in order.
    pub draws: Draws,
    /// How many of the gear are not known to the end.
    pub unknown: usize,
}

/// The item that is taken: its number, and when it began.
#[derive(Clone, Copy)]
struct Moment {
    at: u64,
    number: usize,
}

/// What becomes of a gear beside the frames.
#[derive(Clone, Copy)]
enum Deed {
    /// It has power.
    On,
    /// It has none until the next TERMINATE.
    Rest,
    /// It is not known any more.
    Lose,
    /// Its initialisation is over.
    Expire,
}

/// Of which gear.
#[derive(Clone, Copy)]
enum Whom {
    Everyone,
    /// Those that did not draw before the capture, or had a short address.
    NotEarly,
    /// Those that are played from this item on.
    Coming,
    /// Those that the frame at the search address is for.
    Found,
    /// The same, if they have no power.
    FoundResting,
    /// Those that may have drawn at this RANDOMISE, though they have no power.
    Missed,
    /// Those that may have drawn at a RANDOMISE that was destroyed.
    Drawing,
    /// Those with this short address.
    Under(Short),
    /// Those that are played already.
    Born,
    /// Those that are not heard before the next TERMINATE.
    Unheard,
}

/// A bench in the making. The row has taken each step.
#[derive(Drop)]
struct Making {
    steps: Vec<Step>,
    draws: Draws,
    unknown: usize,
    row: Row,
    reading: Reading,
    /// Which gear have power, and which are not known any more.
    on: [bool; 128],
    lost: [bool; 128],
    /// Which gear are heard after the last damaged frame, before the next TERMINATE.
    heard: [bool; 128],
    /// How many numbers were drawn.
    drawn: usize,
}

/// The row of gear when a capture begins: those with a short address, and others from the factory.
fn row_of(places: &[Place]) -> Row
    requires { length places.now ≤ 128 }
    ensures { result ≡ gear_at_first places.now }
{
    let mut row = Row::new(places.len());
    for number in 0..places.len() {
        if let Some(short) = places[number].short {
            row.place(number, places[number].random, short);
        }
    }
    row
}

/// Whether a gear drew its number before the capture.
fn is_early(place: &Place) -> bool
    ensures { result ≡ is_early place.now }
{
    place.draw.is_none() && place.short.is_none()
}

/// Whether some gear drew their number before the capture.
fn has_early(places: &[Place]) -> bool
    ensures { result ≡ list_any is_early places.now }
{
    places.iter().any(|place| is_early(place))
}

/// The row takes a move, if so many of the numbers were drawn. Answers how many then are.
fn played(row: &mut Row, what: &Move, draws: &[Random24], drawn: usize) -> usize
    requires { All (λ r. r < MASK24) draws.now }
{
    let left = &draws[drawn.min(draws.len())..];
    drawn.saturating_add(play(row, what, left))
}

fn place_at(places: &[Place], gear: u8) -> Option<Place>
    ensures { result ≡ slice_get places.now gear }
{
    places.get(usize::from(gear)).copied()
}

impl Making {
    fn new(alloc: Global, places: &[Place]) -> Making
        requires { length places.now ≤ 128 }
        ensures { result.steps.items ≡ [] }
    {
        Making {
            steps: Vec::new(alloc),
            draws: Draws::new(alloc),
            unknown: 0,
            row: row_of(places),
            reading: Reading::new(alloc),
            on: [true; 128],
            lost: [false; 128],
            heard: [false; 128],
            drawn: 0,
        }
    }

    /// One step more, which the row takes.
    #[tactic(auto, using(crate::proofs::Growing::frames_more))]
    fn push(&mut self, at: u64, what: Move) -> Result<(), AllocError>
        ensures steps { OnOk result (self.new.steps.items
            ≡ self.old.steps.items ++ (record { at = at; what = what } ∷ [])) }
        ensures frames { OnOk result (frames_of self.new.steps.items
            ≡ frames_of self.old.steps.items ++ frames_of (record { at = at; what = what } ∷ [])) }
        ensures on { self.new.on ≡ self.old.on }
        ensures lost { self.new.lost ≡ self.old.lost }
    {
        self.drawn = played(&mut self.row, &what, self.draws.as_slice(), self.drawn);
        self.steps.push(Step { at, what })?;
        Ok(())
    }

    /// A gear has power, or has it not.
    fn set_power(&mut self, at: u64, gear: u8, on: bool) -> Result<(), AllocError>
        requires { gear < 128 }
        ensures steps { OnOk result (self.new.steps.items
            ≡ self.old.steps.items ++ power_steps at gear (slice_index_or self.old.on gear false) on) }
        ensures frames { OnOk result (frames_of self.new.steps.items ≡ frames_of self.old.steps.items) }
        ensures on { OnOk result (self.new.on ≡ slice_set self.old.on gear on) }
        ensures lost { self.new.lost ≡ self.old.lost }
    {
        if self.on[usize::from(gear)] == on {
            return Ok(());
        }
        self.on[usize::from(gear)] = on;
        self.push(at, if on { Move::On(gear) } else { Move::Off(gear) })
    }

    /// A gear is not known any more.
    fn lose(&mut self, at: u64, gear: u8) -> Result<(), AllocError>
        requires { gear < 128 }
        ensures { OnOk result (frames_of self.new.steps.items ≡ frames_of self.old.steps.items) }
    {
        if !self.lost[usize::from(gear)] {
            self.lost[usize::from(gear)] = true;
            self.unknown = self.unknown.saturating_add(1);
        }
        self.set_power(at, gear, false)
    }

    /// The short address of a gear, as it stands in the row.
    fn short(&self, gear: u8) -> Option<Short> {
        if usize::from(gear) < self.row.len() {
            self.row.gear(usize::from(gear)).short()
        } else {
            None
        }
    }

    fn would_draw(&self, gear: u8, frame: Forward) -> bool {
        if usize::from(gear) < self.row.len() {
            self.row.gear(usize::from(gear)).would_draw(&frame)
        } else {
            false
        }
    }

    fn is_found(&self, place: &Place) -> bool {
        self.reading.known.bus.search.number() == Some(place.random)
    }

    /// Whether it may have drawn at a RANDOMISE that was destroyed: if that was the second of two.
    fn may_have_drawn(&self, gear: u8) -> bool {
        match self.reading.known.bus.half {
            Some(first) => {
                Command::read(first.frame) == Command::Randomise
                    && (self.short(gear).is_none() || self.would_draw(gear, first.frame))
            }
            None => false,
        }
    }

    /// Whether a gear is meant.
    fn is_meant(&self, places: &[Place], number: usize, whom: &Whom, gear: u8) -> bool
        requires { gear < 128 }
    {
        let Some(place) = place_at(places, gear) else {
            return false;
        };
        let index = usize::from(gear);
        let is_born = place.from <= number;
        match whom {
            Whom::Everyone => true,
            Whom::NotEarly => !is_early(&place),
            Whom::Coming => number > 0 && place.from == number && !self.lost[index],
            Whom::Found => is_born && self.is_found(&place),
            Whom::FoundResting => is_born && self.is_found(&place) && !self.on[index],
            Whom::Missed => is_born && !self.on[index] && self.short(gear).is_none(),
            Whom::Drawing => is_born && self.may_have_drawn(gear),
            Whom::Under(short) => is_born && self.short(gear) == Some(*short),
            Whom::Born => is_born,
            Whom::Unheard => !self.heard[index],
        }
    }

    fn deal(&mut self, at: u64, deed: Deed, gear: u8) -> Result<(), AllocError>
        requires { gear < 128 }
        ensures { OnOk result (frames_of self.new.steps.items ≡ frames_of self.old.steps.items) }
    {
        match deed {
            Deed::On => self.set_power(at, gear, true),
            Deed::Rest => self.set_power(at, gear, false),
            Deed::Lose => self.lose(at, gear),
            Deed::Expire => self.push(at, Move::Expire(gear)),
        }
    }

    /// What becomes of some gear.
    fn each(
        &mut self,
        places: &[Place],
        now: Moment,
        whom: &Whom,
        deed: Deed,
    ) -> Result<(), AllocError>
        ensures { OnOk result (frames_of self.new.steps.items ≡ frames_of self.old.steps.items) }
    {
        for gear in 0..128u8 {
            if self.is_meant(places, now.number, whom, gear) {
                self.deal(now.at, deed, gear)?;
            }
        }
        Ok(())
    }

    fn is_due(&self, places: &[Place], number: usize, gear: u8) -> bool
        requires { gear < 128 }
        ensures { result ≡ is_due number (slice_get places.now gear) (slice_index_or self.now.lost gear true) }
    {
        match place_at(places, gear) {
            Some(place) => place.from <= number && !self.lost[usize::from(gear)],
            None => false,
        }
    }

    /// A gear has power, if its state is known after TERMINATE.
    fn wake_one(&mut self, places: &[Place], now: Moment, gear: u8) -> Result<(), AllocError>
        requires { gear < 128 }
        ensures frames { OnOk result (frames_of self.new.steps.items ≡ frames_of self.old.steps.items) }
        ensures on { OnOk result (self.new.on ≡ woken
            (is_due now.number (slice_get places.now gear) (slice_index_or self.old.lost gear true)) gear self.old.on) }
    {
        if self.is_due(places, now.number, gear) {
            self.set_power(now.at, gear, true)
        } else {
            Ok(())
        }
    }

    /// After TERMINATE the state of all gear is known.
    fn wake(&mut self, places: &[Place], now: Moment) -> Result<(), AllocError>
        ensures { OnOk result (frames_of self.new.steps.items ≡ frames_of self.old.steps.items) }
    {
        for gear in 0..128u8 {
            self.wake_one(places, now, gear)?;
        }
        Ok(())
    }

    /// A gear that would draw at this frame draws its random address, if it is that of this RANDOMISE. Of any other
    /// it is not known what it draws.
    fn draw_one(
        &mut self,
        places: &[Place],
        at: u64,
        gear: u8,
        draw: Option<usize>,
    ) -> Result<(), AllocError>
        requires { gear < 128 }
        ensures { OnOk result (frames_of self.new.steps.items ≡ frames_of self.old.steps.items) }
    {
        match place_at(places, gear) {
            Some(place) if place.draw == draw && place.short.is_none() => {
                self.draws.push(place.random)
            }
            _ => self.lose(at, gear),
        }
    }

    /// All gear that would draw at this frame, which is the RANDOMISE of this item, do so.
    fn draw(
        &mut self,
        places: &[Place],
        at: u64,
        frame: Forward,
        draw: Option<usize>,
    ) -> Result<(), AllocError>
        ensures { OnOk result (frames_of self.new.steps.items ≡ frames_of self.old.steps.items) }
    {
        for gear in 0..128u8 {
            if self.would_draw(gear, frame) {
                self.draw_one(places, at, gear, draw)?;
            }
        }
        Ok(())
    }

    /// A frame from before the capture.
    fn put(&mut self, command: Command) -> Result<(), AllocError>
        ensures { OnOk result (frames_of self.new.steps.items
            ≡ frames_of self.old.steps.items ++ (early command ∷ [])) }
    {
        self.push(0, Move::Frame(command.write(), None))
    }

    /// The gear that drew their random address before the capture draw it.
    fn draw_early(&mut self, places: &[Place]) -> Result<(), AllocError>
        ensures { OnOk result (frames_of self.new.steps.items ≡ frames_of self.old.steps.items ++ early_frames true) }
    {
        self.put(Command::Initialise(Target::Unaddressed))?;
        self.put(Command::Initialise(Target::Unaddressed))?;
        self.put(Command::Randomise)?;
        self.draw(places, 0, Command::Randomise.write(), None)?;
        self.put(Command::Randomise)?;
        self.put(Command::Terminate)
    }

    /// What was before the capture, if some gear drew their random address before it.
    fn precede(&mut self, places: &[Place], now: Moment, has_early: bool) -> Result<(), AllocError>
        ensures { OnOk result (frames_of self.new.steps.items
            ≡ frames_of self.old.steps.items ++ early_frames has_early) }
    {
        if !has_early {
            return Ok(());
        }
        self.each(places, now, &Whom::NotEarly, Deed::Rest)?;
        self.draw_early(places)
    }

    /// What was before the capture; then all gear wait for the first TERMINATE.
    fn begin(&mut self, places: &[Place]) -> Result<(), AllocError>
        ensures { OnOk result (frames_of self.new.steps.items
            ≡ frames_of self.old.steps.items ++ early_frames (list_any is_early places.now)) }
    {
        let now = Moment { at: 0, number: 0 };
        self.precede(places, now, has_early(places))?;
        self.each(places, now, &Whom::Everyone, Deed::Rest)
    }

    /// Time that passed before a frame.
    fn pass(
        &mut self,
        places: &[Place],
        now: Moment,
        item: &Item,
        frame: Forward,
    ) -> Result<(), AllocError>
        ensures { OnOk result (frames_of self.new.steps.items ≡ frames_of self.old.steps.items) }
    {
        let bus = self.reading.known.bus;
        if bus.repeats(frame) && bus.is_late(item) {
            self.push(now.at, Move::Quiet)?;
        }
        if bus.is_over(item, frame) {
            self.each(places, now, &Whom::Everyone, Deed::Expire)?;
        }
        Ok(())
    }

    /// A damaged frame: it is not known what it was, and which gear took it. After TERMINATE it changes the state of no
    /// gear. Else that of the gear at the search address is not known, nor that of any gear which is not heard before
    /// the next TERMINATE.
    fn spoil(
        &mut self,
        places: &[Place],
        now: Moment,
        item: &Item,
        after: &[Item],
    ) -> Result<(), AllocError>
        ensures { OnOk result (frames_of self.new.steps.items ≡ frames_of self.old.steps.items) }
    {
        self.push(now.at, Move::Quiet)?;
        let bus = self.reading.known.bus;
        if bus.is_closed && bus.half.is_none() {
            return Ok(());
        }
        self.each(places, now, &Whom::Found, Deed::Lose)?;
        self.each(places, now, &Whom::Drawing, Deed::Lose)?;
        self.heard = heard_later(places, &bus, item, after);
        self.each(places, now, &Whom::Unheard, Deed::Rest)
    }

    /// RESET and SET SHORT ADDRESS.
    fn forget(
        &mut self,
        places: &[Place],
        now: Moment,
        short: Option<Short>,
    ) -> Result<(), AllocError>
        ensures { OnOk result (frames_of self.new.steps.items ≡ frames_of self.old.steps.items) }
    {
        match short {
            Some(short) => self.each(places, now, &Whom::Under(short), Deed::Lose),
            None => self.each(places, now, &Whom::Born, Deed::Lose),
        }
    }

    /// RANDOMISE.
    fn randomise(
        &mut self,
        places: &[Place],
        now: Moment,
        item: &Item,
        frame: Forward,
    ) -> Result<(), AllocError>
        ensures { OnOk result (frames_of self.new.steps.items ≡ frames_of self.old.steps.items) }
    {
        if self.reading.known.bus.completes(item, frame) {
            self.each(places, now, &Whom::Missed, Deed::Lose)?;
        }
        self.draw(places, now.at, frame, Some(now.number))
    }

    /// What a frame makes unknown.
    fn unlearn(
        &mut self,
        places: &[Place],
        now: Moment,
        item: &Item,
        seen: Seen,
        frame: Forward,
    ) -> Result<(), AllocError>
        ensures { OnOk result (frames_of self.new.steps.items ≡ frames_of self.old.steps.items) }
    {
        match change_of(&self.reading.known.bus, item, seen) {
            Change::Forgotten(short) => self.forget(places, now, short)?,
            Change::Given(..) | Change::Erased(_) => {
                // A gear whose state was not known may have got a short address, or lost it.
                self.each(places, now, &Whom::FoundResting, Deed::Lose)?;
            }
            Change::Nothing
            | Change::Told(..)
            | Change::Verified(_)
            | Change::Answered(_)
            | Change::Redrawn => {}
        }
        if Command::read(frame) == Command::Randomise {
            self.randomise(places, now, item, frame)?;
        }
        Ok(())
    }

    fn send(
        &mut self,
        places: &[Place],
        now: Moment,
        item: &Item,
        frame: Forward,
        answer: Answer,
    ) -> Result<(), AllocError>
        ensures frames { OnOk result (frames_of self.new.steps.items
            ≡ frames_of self.old.steps.items
            ++ (record { at = now.at; what = Frame frame (asked frame answer) } ∷ [])) }
    {
        self.each(places, now, &Whom::Coming, Deed::On)?;
        self.pass(places, now, item, frame)?;
        self.unlearn(places, now, item, Seen::Sent(frame, answer), frame)?;
        self.push(now.at, Move::Frame(frame, asked(frame, answer)))?;
        if Command::read(frame) == Command::Terminate {
            self.wake(places, now)?;
        }
        Ok(())
    }

    /// An item of the capture, by its number; what is behind it.
    fn take(
        &mut self,
        places: &[Place],
        number: usize,
        item: &Item,
        seen: Seen,
        after: &[Item],
    ) -> Result<(), AllocError>
        ensures frames { OnOk result (frames_of self.new.steps.items
            ≡ frames_of self.old.steps.items ++ option_to_list (step_of item.now seen)) }
    {
        let now = Moment {
            at: item.at,
            number,
        };
        match seen {
            Seen::Sent(frame, answer) => self.send(places, now, item, frame, answer)?,
            Seen::Foreign => self.push(now.at, Move::Quiet)?,
            Seen::Broken => self.spoil(places, now, item, after)?,
            Seen::Replied | Seen::Stray => {}
        }
        self.reading.take(number, item, seen)
    }

    /// All items of the capture.
    fn take_all(&mut self, places: &[Place], items: &[Item]) -> Result<(), AllocError>
        ensures { OnOk result (frames_of self.new.steps.items
            ≡ frames_of self.old.steps.items ++ frames_in None items.now) }
    {
        let mut before = None;
        let mut rest = items;
        let mut number: usize = 0;
        while let [item, more @ ..] = rest {
            self.take(
                places,
                number,
                item,
                seen_of(before, item, first_of(more)),
                more,
            )?;
            before = Some(*item);
            rest = more;
            number += 1;
        }
        Ok(())
    }
}

impl Bench {
    /// The bench of a capture that reveals these gear.
    fn made(alloc: Global, places: Vec<Place>, items: &[Item]) -> Result<Bench, AllocError>
        requires few { length places.items ≤ 128 }
        requires gear { places.items ≡ places_in items.now }
        ensures { IfOk result (λ b. IsBenchOf b items.now) }
    {
        let mut making = Making::new(alloc, places.as_slice());
        making.begin(places.as_slice())?;
        making.take_all(places.as_slice(), items)?;
        let Making {
            steps,
            draws,
            unknown,
            ..
        } = making;
        Ok(Bench {
            places,
            steps,
            draws,
            unknown,
        })
    }

    /// The bench of a capture.
    pub fn of(alloc: Global, items: &[Item]) -> Result<Bench, BenchError>
        ensures bench { IfOk result (λ b. IsBenchOf b items.now) }
        ensures many { IfErr result (λ e. e ≡ TooManyGear → 128 < length (places_in items.now)) }
    {
        let Ok(places) = places_of(alloc, items) else {
            return Err(BenchError::NoMemory);
        };
        if places.len() > GEAR_LIMIT {
            return Err(BenchError::TooManyGear);
        }
        match Bench::made(alloc, places, items) {
            Ok(bench) => Ok(bench),
            Err(_) => Err(BenchError::NoMemory),
        }
    }

    /// The first step at which something was heard that the gear did not answer.
    pub fn compare(&self) -> Outcome
        requires { length self.now.places.items ≤ 128 }
        ensures { result ≡ compared 0 self.now.steps.items self.now.draws (gear_at_first self.now.places.items) }
    {
        let mut row = row_of(self.places.as_slice());
        compare(&mut row, self.steps.as_slice(), self.draws.as_slice())
    }
}
