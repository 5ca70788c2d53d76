ghost use Rattle.std.specs.Prelude.{◌≡◌, ◌<◌, ◌&&◌, nat_le, IsTrue, Some, None, if◌then◌else◌};
ghost use Rattle.dali_frame.specs.Random.{MASK24, value_of};

use crate::state::InitialisationState;
use dali_frame::{Forward, Random24, SearchAddress, Short};
use dali_special::{Command, Part, Target};
use std::marker::Model;

/// The backward frame YES.
const YES: u8 = 0xFF;

/// The backward frame of a gear that has no short address.
const NO_ADDRESS: u8 = 0xFF;

#[inline(always)]
fn yes_where(holds: bool) -> Option<u8>
    ensures { result ≡ (if holds then Some 255 else None) }
{
    if holds { Some(YES) } else { None }
}

/// What a gear did with a frame.
#[derive(Clone, Copy)]
pub struct Effect {
    /// The backward frame that it answers, if any.
    pub answer: Option<u8>,
    /// Whether it drew the number that it was offered.
    pub drew: bool,
}

/// A control gear's addressing variables. It keeps random and short address without power.
#[derive(Clone, Copy, Debug)]
pub struct Gear {
    pub(crate) powered: bool,
    pub(crate) state: InitialisationState,
    pub(crate) random: Random24,
    pub(crate) search: SearchAddress,
    pub(crate) short: Option<Short>,
    pub(crate) half: Option<Command>,
}

impl Model for Gear {
    ghost use Rattle.dali_gear.specs.Gear.{Gear};

    ghost Value = { Gear };

    ghost view = { λ g. record {
      powered = g.powered;
      state = g.state;
      random = g.random;
      search = g.search;
      short = g.short;
      half = g.half;
    } };

    ghost invariant = { λ g. Unit {0} };

    ghost inverse = { λ g. record {
      powered = g.powered;
      state = g.state;
      random = g.random;
      search = g.search;
      short = g.short;
      half = g.half;
    } };
}

impl Gear {
    ghost use Rattle.dali_special.specs.Command.{command_of};
    ghost use Rattle.dali_gear.specs.Gear.{after_frame, answer_to, would_draw, fresh, without_power, with_power};
    ghost use Rattle.dali_gear.specs.Gear.{gear_expired, gear_quieted, is_active, is_found, answer, byte_at};
    ghost use Rattle.dali_gear.specs.Gear.{gear_taken, state_after, random_after, search_after, short_after};
    ghost use Rattle.dali_gear.specs.Gear.{half_after, concerns, is_second, draws_a_number, addressed};

    /// A gear from the factory: powered, DISABLED, without short address and with random address `FFFFFF`.
    pub fn new() -> Gear
        ensures { result ≡ fresh }
    {
        Gear {
            powered: true,
            state: InitialisationState::Disabled,
            random: Random24::MASK,
            search: SearchAddress::MASK,
            short: None,
            half: None,
        }
    }

    /// A gear that comes with a random and a short address, and else is as from the factory.
    pub fn addressed(random: Random24, short: Short) -> Gear
        ensures { result ≡ addressed random short }
    {
        Gear {
            powered: true,
            state: InitialisationState::Disabled,
            random,
            search: SearchAddress::MASK,
            short: Some(short),
            half: None,
        }
    }

    /// Takes a forward frame. `draw` is the number that it draws if the frame makes it draw one: then it must be below
    /// `FFFFFF` (`would_draw` tells beforehand), else any number will do. A gear without power takes nothing.
    pub fn take(&mut self, frame: Forward, draw: Random24) -> Effect
        requires { IsTrue (would_draw (command_of frame) self.old) → draw < MASK24 }
        ensures gear { self.new ≡ after_frame (command_of frame) draw self.old }
        ensures answer { result.answer ≡ answer_to (command_of frame) self.old }
        ensures drew { result.drew ≡ would_draw (command_of frame) self.old }
    {
        if !self.powered {
            return Effect {
                answer: None,
                drew: false,
            };
        }
        let command = Command::read(frame);
        let answer = self.answer(&command);
        let drew = self.draws_a_number(&command);
        *self = self.after(&command, draw);
        Effect { answer, drew }
    }

    /// Whether the gear would draw a number if it took this frame now.
    pub fn would_draw(&self, frame: &Forward) -> bool
        ensures { result ≡ would_draw (command_of frame.now) self.now }
    {
        self.would_draw_at(&Command::read(*frame))
    }

    /// As `would_draw`, with the command of the frame.
    pub(crate) fn would_draw_at(&self, command: &Command) -> bool
        ensures { result ≡ would_draw command.now self.now }
    {
        self.powered && self.draws_a_number(command)
    }

    /// Whether a command would make it draw, without regard to power.
    #[inline(always)]
    pub(crate) fn draws_a_number(&self, command: &Command) -> bool
        ensures { result ≡ draws_a_number command.now self.now }
    {
        *command == Command::Randomise && self.is_second(command) && self.is_active()
    }

    /// Whether a send-twice command is the second of a pair.
    #[inline(always)]
    fn is_second(&self, command: &Command) -> bool
        ensures { result ≡ is_second command.now self.now.half }
    {
        command.is_send_twice() && self.half.as_ref() == Some(command)
    }

    #[inline(always)]
    fn is_active(&self) -> bool
        ensures { result ≡ is_active self.now.state }
    {
        self.state != InitialisationState::Disabled
    }

    /// Whether the random address is the search address.
    ///
    /// Their bytes are compared and not their numbers, and by `&`, so that the compiler takes sixteen gear of a row at
    /// a time.
    #[inline(always)]
    fn is_found(&self) -> bool
        ensures { result ≡ is_found self.now }
    {
        let random = SearchAddress::of(self.random);
        let search = self.search;
        (random.high == search.high) & (random.middle == search.middle) & (random.low == search.low)
    }

    /// Whether the gear takes part in the initialisation, and its random address is the search address.
    #[inline(always)]
    pub fn is_selected(&self) -> bool
        ensures { result ≡ (is_active self.now.state && is_found self.now) }
    {
        self.is_active() & self.is_found()
    }

    /// Whether the random address is at most the search address; byte by byte, as above.
    #[inline(always)]
    fn is_at_most(&self) -> bool
        ensures { result ≡ nat_le self.now.random (value_of self.now.search) }
    {
        let random = SearchAddress::of(self.random);
        let search = self.search;
        let low = random.low <= search.low;
        let middle = random.middle < search.middle || (random.middle == search.middle && low);
        random.high < search.high || (random.high == search.high && middle)
    }

    /// Whether an INITIALISE of this target speaks to the gear.
    #[inline(always)]
    fn is_concerned(&self, target: Target) -> bool
        ensures { result ≡ concerns target self.now.short }
    {
        match target {
            Target::All => true,
            Target::Addressed(short) => self.short == Some(short),
            Target::Unaddressed => self.short.is_none(),
        }
    }

    /// A byte of the random address.
    #[inline(always)]
    fn random_byte(&self, part: Part) -> u8
        ensures { result ≡ byte_at part self.now.random }
    {
        match part {
            Part::High => self.random.high(),
            Part::Middle => self.random.middle(),
            Part::Low => self.random.low(),
        }
    }

    /// The answer to a command, without regard to power.
    #[inline(always)]
    pub(crate) fn answer(&self, command: &Command) -> Option<u8>
        ensures { result ≡ answer command.now self.now }
    {
        match *command {
            Command::Compare => {
                let below = self.is_at_most();
                yes_where(self.state == InitialisationState::Enabled && below)
            }
            Command::Verify(short) => yes_where(self.is_active() && self.short == Some(short)),
            Command::QueryShort if self.is_selected() => {
                Some(self.short.map_or(NO_ADDRESS, Short::code))
            }
            Command::RandomByte(short, part) => {
                let byte = self.random_byte(part);
                if self.short == Some(short) {
                    Some(byte)
                } else {
                    None
                }
            }
            _ => None,
        }
    }

    /// The gear after a command, variable by variable, without regard to power.
    #[inline(always)]
    pub(crate) fn after(&self, command: &Command, draw: Random24) -> Gear
        ensures { result ≡ gear_taken command.now draw self.now }
    {
        Gear {
            powered: self.powered,
            state: self.state_after(command),
            random: self.random_after(command, draw),
            search: self.search_after(command),
            short: self.short_after(command),
            half: self.half_after(command),
        }
    }

    #[inline(always)]
    fn state_after(&self, command: &Command) -> InitialisationState
        ensures { result ≡ state_after command.now self.now }
    {
        match *command {
            Command::Terminate => InitialisationState::Disabled,
            Command::Initialise(target) => {
                if self.is_second(command) && self.is_concerned(target) {
                    InitialisationState::Enabled
                } else {
                    self.state
                }
            }
            Command::Withdraw => {
                if (self.state == InitialisationState::Enabled) & self.is_found() {
                    InitialisationState::Withdrawn
                } else {
                    self.state
                }
            }
            _ => self.state,
        }
    }

    #[inline(always)]
    fn random_after(&self, command: &Command, draw: Random24) -> Random24
        ensures { result ≡ random_after command.now draw self.now }
    {
        if self.draws_a_number(command) {
            draw
        } else {
            self.random
        }
    }

    #[inline(always)]
    fn search_after(&self, command: &Command) -> SearchAddress
        ensures { result ≡ search_after command.now self.now }
    {
        let mut search = self.search;
        if self.is_active() {
            match *command {
                Command::SearchHigh(byte) => search.high = byte,
                Command::SearchMiddle(byte) => search.middle = byte,
                Command::SearchLow(byte) => search.low = byte,
                _ => {}
            }
        }
        search
    }

    #[inline(always)]
    fn short_after(&self, command: &Command) -> Option<Short>
        ensures { result ≡ short_after command.now self.now }
    {
        match *command {
            Command::Program(short) => {
                if self.is_selected() {
                    short
                } else {
                    self.short
                }
            }
            _ => self.short,
        }
    }

    /// The half pair that a command leaves.
    #[inline(always)]
    fn half_after(&self, command: &Command) -> Option<Command>
        ensures { result ≡ half_after command.now self.now }
    {
        if command.is_send_twice() && !self.is_second(command) {
            Some(*command)
        } else {
            None
        }
    }

    /// The power goes. The gear keeps its variables, and takes no frame.
    pub fn power_off(&mut self)
        ensures { self.new ≡ without_power self.old }
    {
        self.powered = false;
    }

    /// The power comes back; on a gear that has power it has no effect.
    pub fn power_on(&mut self)
        ensures { self.new ≡ with_power self.old }
    {
        if !self.is_powered() {
            *self = Gear {
                random: self.random,
                short: self.short,
                ..Gear::new()
            };
        }
    }

    /// The 15 minutes of the initialisation are over.
    pub fn expire(&mut self)
        ensures { self.new ≡ gear_expired self.old }
    {
        self.state = InitialisationState::Disabled;
    }

    /// So much time passes without a frame that a half pair is forgotten.
    pub fn quiet(&mut self)
        ensures { self.new ≡ gear_quieted self.old }
    {
        self.half = None;
    }

    /// Whether the gear has power.
    pub fn is_powered(&self) -> bool
        ensures { result ≡ self.now.powered }
    {
        self.powered
    }

    /// The state of the initialisation.
    pub fn state(&self) -> InitialisationState
        ensures { result ≡ self.now.state }
    {
        self.state
    }

    /// The random address; `FFFFFF` before the first draw.
    pub fn random(&self) -> Random24
        ensures { result ≡ self.now.random }
    {
        self.random
    }

    /// The search address.
    pub fn search(&self) -> SearchAddress
        ensures { result ≡ self.now.search }
    {
        self.search
    }

    /// The short address, if it has one.
    pub fn short(&self) -> Option<Short>
        ensures { result ≡ self.now.short }
    {
        self.short
    }

    /// The send-twice command whose first frame was the last frame that the gear took.
    pub fn half_pair(&self) -> Option<Command>
        ensures { result ≡ self.now.half }
    {
        self.half
    }
}
