ghost use Rattle.std.specs.Prelude.{◌≡◌};

use dali_frame::{Answer, Forward};
use dali_gear::GearSet;
use dali_script::{Input, Order};

/// What happened on a site. Each accepted call adds one event to its log.
///
/// A controller is named by its number, 0 to 3, and a gear by its number, 0 to 127.
#[derive(Clone, Copy, Debug, PartialEq, Eq)]
pub enum Event {
    /// A controller acted on what it was told, and ordered something.
    Acted(u8, Input, Order),
    /// A controller asked to send an arc power frame.
    Offered(u8, Forward),
    /// A frame was sent, and this was heard.
    Sent(u8, Forward, Answer),
    /// A frame was destroyed on the bus; these gear took it all the same.
    Destroyed(u8, Forward, GearSet),
    /// The frames of two controllers collided; no gear took either.
    Collided(u8, Forward, u8, Forward),
    /// The owner, if any, lost the bus.
    Lapsed,
    /// The bus was quiet for so long that half pairs are forgotten.
    Quiet,
    /// A frame of another device came: direct arc power, or one that is no addressing command. Gear with power took it.
    Foreign(Forward),
    /// A gear's power came (true) or went.
    Power(u32, bool),
    /// The 15 minutes of a gear's initialisation ended.
    Expired(u32),
    /// A controller went down: all that it does not keep is gone.
    Down(u8),
    /// A controller came up, with its outstanding record kept (true) or not.
    Up(u8, bool),
}

/// What happens to a site from outside: no controller's step, and no frame of a controller.
///
/// Gear and controllers are named as in an [`Event`].
#[derive(Clone, Copy, Debug, PartialEq, Eq)]
pub enum Outside {
    /// The owner, if any, loses the bus.
    Lapse,
    /// The bus is quiet for so long that half pairs are forgotten.
    Quiet,
    /// A frame of another device comes, as of a sensor or a push button. Gear with power take it.
    Foreign(Forward),
    /// A gear's power comes (true) or goes.
    Power(u32, bool),
    /// The 15 minutes of a gear's initialisation are over.
    Expire(u32),
    /// A controller goes down.
    Down(u8),
}

impl Outside {
    ghost use Rattle.dali_events.specs.Events.{event_of};

    /// The event that it is.
    pub fn event(self) -> Event
        ensures { result ≡ event_of self }
    {
        match self {
            Outside::Lapse => Event::Lapsed,
            Outside::Quiet => Event::Quiet,
            Outside::Foreign(frame) => Event::Foreign(frame),
            Outside::Power(number, on) => Event::Power(number, on),
            Outside::Expire(number) => Event::Expired(number),
            Outside::Down(c) => Event::Down(c),
        }
    }
}

/// A frame that came on the bus for gear to take, all of them or some.
#[derive(Clone, Copy)]
pub struct Sending {
    /// The controller that sent it.
    pub sender: u8,
    pub frame: Forward,
    /// What was heard after it. None if it was destroyed.
    pub heard: Option<Answer>,
}

impl Event {
    ghost use Rattle.dali_events.specs.Events.{sending, heard_in, whose_step};

    /// The frame that gear could take by this event. Of two that collided neither counts.
    pub fn sending(self) -> Option<Sending>
        ensures { result ≡ sending self }
    {
        match self {
            Event::Sent(sender, frame, heard) => Some(Sending {
                sender,
                frame,
                heard: Some(heard),
            }),
            Event::Destroyed(sender, frame, _) => Some(Sending {
                sender,
                frame,
                heard: None,
            }),
            Event::Acted(..)
            | Event::Offered(..)
            | Event::Collided(..)
            | Event::Lapsed
            | Event::Quiet
            | Event::Foreign(_)
            | Event::Power(..)
            | Event::Expired(_)
            | Event::Down(_)
            | Event::Up(..) => None,
        }
    }

    /// What was heard after the frame of this event. None if there was no frame, or if it was destroyed.
    pub fn heard(self) -> Option<Answer>
        ensures { result ≡ heard_in self }
    {
        self.sending()?.heard
    }

    /// The controller whose step this is: it acted, or asked to send an arc power frame.
    pub fn whose_step(self) -> Option<u8>
        ensures { result ≡ whose_step self }
    {
        match self {
            Event::Acted(c, ..) | Event::Offered(c, _) => Some(c),
            Event::Sent(..)
            | Event::Destroyed(..)
            | Event::Collided(..)
            | Event::Lapsed
            | Event::Quiet
            | Event::Foreign(_)
            | Event::Power(..)
            | Event::Expired(_)
            | Event::Down(_)
            | Event::Up(..) => None,
        }
    }
}
