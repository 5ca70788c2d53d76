//! The gear of a run, event by event: what they take, draw and answer.

ghost use Rattle.std.specs.Prelude.{◌≡◌, ◌<◌, true, nat_lt, All};
ghost use Rattle.std.specs.List.{list_all};
ghost use Rattle.dali_frame.specs.Random.{MASK24};
ghost use Rattle.dali_special.specs.Command.{command_of};
ghost use Rattle.dali_events.specs.World.{gear_changed};
ghost use Rattle.dali_events.specs.Foreign.{is_foreign};
ghost use Rattle.dali_events.specs.Happens.{gear_powered};
ghost use Rattle.dali_events.specs.Used.{with_used};
ghost use Rattle.dali_gear.specs.Gear.{gear_expired};
ghost use Rattle.dali_story.specs.RunGear.{after_foreign};

use dali_frame::{Answer, Forward, Random24};
use dali_gear::{Reach, Row};
use dali_special::Command;
use dali_world::{Event, Used, is_foreign};
use std::marker::Model;

/// Whether gear draw all of these.
fn are_drawn(draws: &[Random24]) -> bool
    ensures value { result ≡ list_all (λ r. nat_lt r MASK24) draws.now }
    ensures all { result ≡ true → All (λ r. r < MASK24) draws.now }
{
    draws.iter().all(|draw| draw.value() < 0xFFFFFF)
}

/// Used gear stand in their places, if these are there.
fn place(gear: &mut Row, used: &[Used])
    ensures { gear.new ≡ with_used gear.old used.now }
{
    for one in used {
        let number = one.gear as usize;
        if number < gear.len() {
            gear.place(number, one.random, one.short);
        }
    }
}

/// The power of a gear comes or goes, if it is there.
fn power(gear: &mut Row, number: u32, on: bool)
    ensures { gear.new ≡ gear_changed gear.old number (gear_powered on) }
{
    let number = number as usize;
    if number >= gear.len() {
        return;
    }
    if on {
        gear.power_on(number);
    } else {
        gear.power_off(number);
    }
}

/// The initialisation of a gear runs out, if it is there.
fn expire(gear: &mut Row, number: u32)
    ensures { gear.new ≡ gear_changed gear.old number gear_expired }
{
    let number = number as usize;
    if number < gear.len() {
        gear.expire(number);
    }
}

/// A frame of another device comes, if it may.
#[tactic(auto, using(dali_events::proofs::Interrupted::row, dali_events::proofs::Interrupted::draws))]
fn interrupt(gear: &mut Row, frame: Forward)
    ensures { gear.new ≡ after_foreign (is_foreign frame) gear.old }
{
    if is_foreign(frame) {
        gear.take(&Command::read(frame), Reach::Everyone, &[]);
    }
}

/// The gear of a run at one moment, and the numbers that they draw. Contracts see the gear, and the numbers that are
/// left.
#[derive(Drop)]
pub struct RunGear<'a> {
    gear: Row,
    draws: &'a [Random24],
    drawn: usize,
}

impl<'a> Model for RunGear<'a> {
    ghost use Rattle.std.specs.Prelude.{◌≤◌, ◌<◌, drop, length, All};
    ghost use Rattle.dali_frame.specs.Random.{MASK24};
    ghost use Rattle.dali_story.specs.RunGear.{Moment};

    ghost Value = { Moment };

    ghost view = { λ r. record { gear = r.gear; left = drop r.drawn r.draws.now } };

    ghost invariant = { λ r. (r.drawn ≤ length r.draws.now) × All (λ n. n < MASK24) r.draws.now };
}

impl<'a> RunGear<'a> {
    ghost use Rattle.dali_story.specs.RunGear.{moment_first, after_frame, befallen};

    /// So many gear as they are at first, at most 128.
    pub fn new(count: usize, used: &[Used], draws: &'a [Random24]) -> RunGear<'a>
        ensures { result ≡ moment_first count used.now draws.now }
    {
        let mut gear = Row::new(count.min(128));
        place(&mut gear, used);
        let draws = if are_drawn(draws) { draws } else { &[] };
        RunGear {
            gear,
            draws,
            drawn: 0,
        }
    }

    /// The gear, in order of their number.
    pub fn row(&self) -> &Row
        ensures { result.now ≡ self.now.gear }
    {
        &self.gear
    }

    /// A frame reaches gear. What they answer.
    fn reached(&mut self, frame: Forward, reach: &Reach) -> Answer
        ensures { (self.new, result) ≡ after_frame reach.now (command_of frame) self.old }
    {
        let command = Command::read(frame);
        let left = &self.draws[self.drawn..];
        if self.gear.draws_needed(&command, *reach) > left.len() {
            return Answer::Silence;
        }
        let heard = self.gear.take(&command, *reach, left);
        self.drawn += heard.drawn;
        heard.answer
    }

    /// An event befalls the gear. What they answer to its frame.
    pub fn befall(&mut self, event: Event) -> Answer
        ensures { (self.new, result) ≡ befallen event self.old }
    {
        match event {
            Event::Sent(_, frame, _) => return self.reached(frame, &Reach::Everyone),
            Event::Destroyed(_, frame, set) => return self.reached(frame, &Reach::Only(set)),
            Event::Power(number, on) => power(&mut self.gear, number, on),
            Event::Expired(number) => expire(&mut self.gear, number),
            Event::Quiet => self.gear.quiet(),
            Event::Foreign(frame) => interrupt(&mut self.gear, frame),
            Event::Acted(..)
            | Event::Offered(..)
            | Event::Collided(..)
            | Event::Lapsed
            | Event::Down(_)
            | Event::Up(..) => {}
        }
        Answer::Silence
    }
}
