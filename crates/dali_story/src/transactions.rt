//! Which frames of a log belong to one transaction.

ghost use Rattle.std.specs.Prelude.{◌≡◌};
ghost use Rattle.dali_special.specs.Command.{command_of};
ghost use Rattle.dali_script.specs.Stages.{may_come};
ghost use Rattle.dali_events.specs.Happens.{keeps_bus};
ghost use Rattle.dali_story.specs.Transactions.{counted, goes_on, led, with_frame, given_up, running_after, none_runs};

use dali_frame::{Answer, Forward, Priority};
use dali_script::{Order, Stage};
use dali_special::Command;
use dali_world::Event;

/// A number and so many more; it stops at the last one.
pub fn counted(number: u64, more: u64) -> u64
    ensures { result ≡ counted number more }
{
    number.saturating_add(more)
}

/// Whether a frame may come next in a script, for some sender.
fn comes(stage: Stage, frame: Forward) -> bool
    ensures { result ≡ may_come stage (command_of frame) }
{
    match stage.led_by(Command::read(frame), Answer::Silence) {
        Some(_) => true,
        None => false,
    }
}

/// How far a transaction is with a further frame.
fn led(stage: Stage, frame: Forward, heard: Answer) -> Stage
    ensures { result ≡ led stage (command_of frame) heard }
{
    match stage.led_by(Command::read(frame), heard) {
        Some(next) => next,
        None => Stage::Over,
    }
}

/// Whether a controller that owns the bus keeps it with this order.
fn keeps_bus(order: &Order) -> bool
    ensures { result ≡ keeps_bus order.now }
{
    match order {
        Order::Put(priority, _) => *priority == Priority::LATER,
        Order::Commit(_) | Order::Done(_) | Order::Halt(_) => false,
    }
}

/// The transaction of the last frame that came, and how many were begun with it.
#[derive(Clone, Copy)]
pub struct Running {
    pub begun: u64,
    /// How many frames it has so far.
    pub frames: u64,
    /// The controller that sends them. None if it gave up the bus, or lost it.
    pub owner: Option<u8>,
    /// How far it is in its script.
    pub stage: Stage,
}

impl Running {
    /// Before the first frame.
    pub fn none() -> Running
        ensures { result ≡ none_runs }
    {
        Running {
            begun: 0,
            frames: 0,
            owner: None,
            stage: Stage::Free,
        }
    }

    /// Whether a frame goes on with this transaction.
    fn goes_on(&self, sender: u8, frame: Forward) -> bool
        ensures { result ≡ goes_on self.now sender (command_of frame) }
    {
        self.owner == Some(sender) && (comes(self.stage, frame) || !comes(Stage::Free, frame))
    }

    /// The transaction of a further frame: this one, or the next.
    fn with_frame(&self, sender: u8, frame: Forward, heard: Answer) -> Running
        ensures { result ≡ with_frame self.now sender (command_of frame) heard }
    {
        if self.goes_on(sender, frame) {
            Running {
                begun: self.begun,
                frames: counted(self.frames, 1),
                owner: Some(sender),
                stage: led(self.stage, frame, heard),
            }
        } else {
            Running {
                begun: counted(self.begun, 1),
                frames: 1,
                owner: Some(sender),
                stage: led(Stage::Free, frame, heard),
            }
        }
    }

    fn given_up(&self) -> Running
        ensures { result ≡ given_up self.now }
    {
        Running {
            owner: None,
            ..*self
        }
    }

    /// The transaction of the last frame once one more event has come.
    pub fn after(&self, event: &Event) -> Running
        ensures { result ≡ running_after event.now self.now }
    {
        match *event {
            Event::Sent(sender, frame, heard) => self.with_frame(sender, frame, heard),
            Event::Destroyed(sender, frame, _) => {
                self.with_frame(sender, frame, Answer::Silence).given_up()
            }
            Event::Collided(..) | Event::Lapsed => self.given_up(),
            Event::Acted(c, _, order) if self.owner == Some(c) && !keeps_bus(&order) => {
                self.given_up()
            }
            Event::Down(c) if self.owner == Some(c) => self.given_up(),
            Event::Acted(..)
            | Event::Down(_)
            | Event::Offered(..)
            | Event::Quiet
            | Event::Foreign(_)
            | Event::Power(..)
            | Event::Expired(_)
            | Event::Up(..) => *self,
        }
    }
}
