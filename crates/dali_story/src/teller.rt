//! The events of a log, each with its line.
#![tactic(auto, using(std::proofs::lemmas::List::append_assoc))]

ghost use Rattle.std.specs.Prelude.{◌≡◌, ◌++◌, OnOk, string_bytes};
ghost use Rattle.dali_story.specs.Teller.{frames_in, bits_with, counts_after, counts_first, event_line};

use crate::events::{push_changed_by, push_members, push_opening, push_trouble};
use crate::run_gear::RunGear;
use crate::transactions::{Running, counted};
use dali_frame::{Answer, Random24};
use dali_gear::Row;
use dali_world::{Event, Used};
use std::alloc::AllocError;
use std::marker::Model;

/// How many frames of controllers come on the bus by an event, whole or not.
fn frames_in(event: &Event) -> u64
    ensures { result ≡ frames_in event.now }
{
    match event {
        Event::Sent(..) | Event::Destroyed(..) | Event::Collided(..) => 1,
        Event::Acted(..)
        | Event::Offered(..)
        | Event::Lapsed
        | Event::Quiet
        | Event::Foreign(_)
        | Event::Power(..)
        | Event::Expired(_)
        | Event::Down(_)
        | Event::Up(..) => 0,
    }
}

/// How many bit times a forward frame of 16 bits takes with its start bit and its stop bits, and a backward frame of 8
/// bits with its own (IEC 62386-101).
const FORWARD_BITS: u64 = 19;

const BACKWARD_BITS: u64 = 11;

/// How many bit times the frames of an event take at least: a frame that was destroyed may have broken off at once.
fn bits_with(heard: Option<Answer>) -> u64
    ensures { result ≡ bits_with heard }
{
    match heard {
        None => 0,
        Some(Answer::Silence) => FORWARD_BITS,
        Some(Answer::Byte(_) | Answer::Damaged) => FORWARD_BITS + BACKWARD_BITS,
    }
}

/// What is counted of a log so far.
#[derive(Clone, Copy)]
pub struct Counts {
    pub events: u64,
    /// Frames of controllers, destroyed ones too.
    pub frames: u64,
    /// The bit times that its frames take at least.
    pub bits: u64,
    pub running: Running,
}

impl Counts {
    fn none() -> Counts
        ensures { result ≡ counts_first }
    {
        Counts {
            events: 0,
            frames: 0,
            bits: 0,
            running: Running::none(),
        }
    }

    /// With one event more.
    fn after(&self, event: &Event) -> Counts
        ensures { result ≡ counts_after event.now self.now }
    {
        Counts {
            events: counted(self.events, 1),
            frames: counted(self.frames, frames_in(event)),
            bits: counted(self.bits, bits_with(event.heard())),
            running: self.running.after(event),
        }
    }
}

/// The line of an event.
#[tactic(auto, unfolding(crate::specs::Teller::event_line))]
fn push_event(
    text: &mut String,
    number: u64,
    event: &Event,
    counts: &Counts,
    plain: Answer,
    was: &Row,
    is: &Row,
) -> Result<(), AllocError>
    ensures { OnOk result (string_bytes text.new ≡ string_bytes text.old
        ++ event_line number event.now counts.now plain was.now is.now) }
{
    push_opening(text, number, event, counts.bits)?;
    push_members(text, event, &counts.running, was)?;
    push_trouble(text, event, plain)?;
    push_changed_by(text, event, was, is)?;
    text.push_str("}\n")
}

/// What is told of a log so far. Contracts see what is counted, and the gear.
#[derive(Drop)]
pub struct Teller<'a> {
    counts: Counts,
    gear: RunGear<'a>,
    /// The same, which are a step behind while an event is told.
    was: RunGear<'a>,
}

impl<'a> Model for Teller<'a> {
    ghost use Rattle.std.specs.Prelude.{◌≡◌};
    ghost use Rattle.dali_story.specs.Teller.{Told};

    ghost Value = { Told };

    ghost view = { λ t. record { counts = t.counts; moment = t.gear } };

    ghost invariant = { λ t. t.was ≡ t.gear };
}

impl<'a> Teller<'a> {
    ghost use Rattle.dali_story.specs.RunGear.{moment_first};
    ghost use Rattle.dali_story.specs.Teller.{told_after, event_text, told_after_all, events_text};

    /// Before the first event, of so many gear.
    pub fn new(count: usize, used: &[Used], draws: &'a [Random24]) -> Teller<'a>
        ensures { result ≡ record { counts = counts_first; moment = moment_first count used.now draws.now } }
    {
        Teller {
            counts: Counts::none(),
            gear: RunGear::new(count, used, draws),
            was: RunGear::new(count, used, draws),
        }
    }

    /// What is counted so far.
    pub fn counts(&self) -> &Counts
        ensures { result.now ≡ self.now.counts }
    {
        &self.counts
    }

    /// The gear, in order of their number.
    pub fn row(&self) -> &Row
        ensures { result.now ≡ self.now.moment.gear }
    {
        self.gear.row()
    }

    /// Tells an event.
    fn tell(&mut self, text: &mut String, event: Event) -> Result<(), AllocError>
        ensures text { OnOk result (string_bytes text.new ≡ string_bytes text.old ++ event_text event self.old) }
        ensures after { self.new ≡ told_after event self.old }
    {
        let plain = self.gear.befall(event);
        let number = self.counts.events;
        let counts = self.counts.after(&event);
        let told = push_event(
            text,
            number,
            &event,
            &counts,
            plain,
            self.was.row(),
            self.gear.row(),
        );
        self.was.befall(event);
        self.counts = counts;
        told
    }

    /// Tells events, one after the other.
    pub fn tell_all(&mut self, text: &mut String, events: &[Event]) -> Result<(), AllocError>
        ensures text { OnOk result (string_bytes text.new ≡ string_bytes text.old ++ events_text events.now self.old) }
        ensures after { OnOk result (self.new ≡ told_after_all events.now self.old) }
    {
        for event in events {
            self.tell(text, *event)?;
        }
        Ok(())
    }
}
