//! The calls of a port.

ghost use Rattle.std.specs.Prelude.{◌≡◌, ◌^◌, ◌-◌, min, true, None, IsErr};
ghost use Rattle.dali_port.specs.State.{seen, order_of, sent_of, after_of, window_of};
ghost use Rattle.dali_wire.specs.Reception.{receiver_after};
ghost use Rattle.dali_port.specs.Ports.{since_edge, noted, rested, rest_event, only, broken_at, whole_at, listened};
ghost use Rattle.dali_port.specs.Ports.{listened_word, until, event_until, edge_in, lapsed, lapsed_word, lost_in};
ghost use Rattle.dali_port.specs.Ports.{edged, lost, with_level};
ghost use Rattle.dali_port.specs.Calls.{timed, timed_word, also, answered, taken, taken_word, drive_of, window_due};
ghost use Rattle.dali_port.specs.Calls.{begins_at, rest_due, timer_after, timer_told, edge_after, edge_told};
ghost use Rattle.dali_port.specs.Calls.{lost_after, lost_told, send_after, send_told};

use crate::frames::{HALF_BIT, level};
use crate::orders::{Half, Order, Refusal, Word, rest_of};
use crate::state::{BREAKING, Drive, Event, FREE, LISTENING, Port, Read, SENDING, WAITING};
use dali_frame::{Answer, Forward};
use dali_wire::{Frame, Receiver};

/// The times of `specs/Times`, in µs.
const BREAK: u64 = 1_300;

const PAIR: u64 = 100_000;

/// The second frame of a pair begins so long after the first one at most: it has 17 bits.
const SECOND: u64 = PAIR - 34 * HALF_BIT;

const DRAW: u64 = 100_000;

const POWER: u64 = 500_000;

/// When a receiver and a window are to be asked, in µs (`dali_wire`).
const STOP: u32 = 2_400;

const WINDOW: u32 = 12_401;

const GIVEN_UP: u32 = 50_001;

/// How many µs passed between two times, as receivers count them.
fn passed(from: u64, to: u64) -> u32
    ensures { result ≡ min (to - from) (2 ^ 32 - 1) }
{
    to.saturating_sub(from).min(0xFFFF_FFFF) as u32
}

const NOTHING: Event = Event {
    word: None,
    read: None,
};

impl Port {
    /// A frame that gear may have taken ended at this time.
    fn note(&mut self, frame: Forward, at: u64)
        ensures { seen self.new ≡ noted (seen self.old) frame at }
    {
        if frame.address_byte == 0xA7 && frame.opcode_byte == 0 {
            if self.has_randomise != 0 && at.saturating_sub(self.randomise) <= PAIR {
                self.has_draws = 1;
                self.draws = at;
            }
            self.has_randomise = 1;
            self.randomise = at;
        }
    }

    fn rest(&mut self, now: u64, event: &mut Event)
        requires { event.old ≡ only None }
        ensures told { event.new ≡ rest_event (seen self.old) now }
        ensures port { seen self.new ≡ rested (seen self.old) now }
    {
        if self.is_low != 0 && now.saturating_sub(self.edge) >= POWER {
            if self.phase == WAITING {
                event.word = Some(Word::Lapsed);
            }
            if self.is_powerless == 0 {
                event.read = Some(Read::NoPower);
            }
            self.is_powerless = 1;
            self.is_over = 1;
            self.phase = FREE;
            return;
        }
        let since = passed(self.edge, now);
        if self.was_low != 0 || since < STOP || self.reading == 0 {
            return;
        }
        let mut receiver = self.receiver();
        let told = receiver.time(since);
        self.set_receiver(&receiver);
        if let Some(told) = told {
            if let Frame::Forward(frame) = told.frame {
                self.note(frame, self.edge);
            }
            event.read = Some(Read::Frame(told));
        }
    }

    /// A frame is destroyed: the bus is driven low.
    pub(crate) fn destroy(&mut self, now: u64)
        ensures { seen self.new ≡ broken_at (seen self.old) (order_of self.old).frame now }
    {
        self.is_over = 1;
        self.phase = BREAKING;
        self.since = now;
        self.note(self.frame(), now);
    }

    /// A frame was sent whole.
    pub(crate) fn hear(&mut self, now: u64)
        ensures { seen self.new ≡ whole_at (seen self.old) (sent_of self.old) now }
    {
        let frame = self.frame();
        self.phase = LISTENING;
        self.elapsed = passed(self.driven, self.edge);
        self.heard = 0;
        self.has_pulse = 0;
        self.set_receiver(&Receiver::new());
        self.note(frame, now);
    }

    fn listen(&mut self, now: u64, event: &mut Event)
        requires { event.old ≡ only None }
        ensures told { event.new ≡ only (listened_word (seen self.old) (after_of self.old) now) }
        ensures port { seen self.new ≡ listened (seen self.old) (after_of self.old) now }
    {
        let since = passed(self.edge, now);
        let elapsed = self.elapsed.saturating_add(since);
        let is_over = elapsed >= WINDOW && (self.reading == 0 || elapsed >= GIVEN_UP);
        self.phase = LISTENING;
        if !is_over && (self.was_low != 0 || since < STOP || self.reading == 0) {
            return;
        }
        let mut window = self.window();
        let told = window.time(since);
        self.set_window(&window);
        if let Some(heard) = told {
            self.phase = FREE;
            if self.asks != 0 || matches!(heard, Answer::Silence) {
                event.word = Some(Word::Heard(heard));
            } else {
                self.is_over = 1;
                event.word = Some(Word::Destroyed);
            }
        }
    }

    /// Time passes, and the bus keeps its level until now.
    fn until(&mut self, now: u64, event: &mut Event)
        requires { event.old ≡ only None }
        ensures told { event.new ≡ event_until (seen self.old) now }
        ensures port { seen self.new ≡ until (seen self.old) now }
    {
        self.called = now;
        match self.phase {
            FREE | WAITING => self.rest(now, event),
            SENDING => self.send_on(now),
            BREAKING => {
                if now.saturating_sub(self.since) >= BREAK {
                    self.phase = FREE;
                    self.spoil(self.is_low != 0);
                    event.word = Some(Word::Destroyed);
                }
            }
            _ => self.listen(now, event),
        }
    }

    fn set_level(&mut self, is_low: bool, now: u64)
        ensures { seen self.new ≡ with_level (seen self.old) is_low now }
    {
        self.called = now;
        self.edge = now;
        self.is_low = u8::from(is_low);
        if !is_low {
            self.is_powerless = 0;
        }
    }

    /// Others sent, or may have: the transaction is over, and a later frame that waits lapses.
    fn lapse(&mut self, event: &mut Event)
        ensures told { event.new ≡ also event.old (lapsed_word (seen self.old).phase) }
        ensures port { seen self.new ≡ record (seen self.old) { is_over = true; phase = lapsed (seen self.old).phase } }
    {
        self.is_over = 1;
        if self.phase == WAITING && self.priority == 1 {
            self.phase = FREE;
            event.word = Some(Word::Lapsed);
        }
    }

    fn read_edge(&mut self, is_low: bool, now: u64)
        ensures { seen self.new ≡ record (seen self.old) {
          receiver = receiver_after (seen self.old).receiver is_low (since_edge (seen self.old) now);
        } }
    {
        let mut receiver = self.receiver();
        receiver.edge(is_low, passed(self.edge, now));
        self.set_receiver(&receiver);
    }

    /// An edge to another level, before it is the level of the bus.
    fn turn_in(&mut self, is_low: bool, now: u64, event: &mut Event)
        ensures told { event.new ≡ also event.old (lapsed_word (seen self.old).phase) }
        ensures port { seen self.new ≡ edge_in (seen self.old).phase (seen self.old) is_low now }
    {
        match self.phase {
            FREE => {
                self.is_over = 1;
                self.read_edge(is_low, now);
            }
            WAITING => {
                self.lapse(event);
                self.read_edge(is_low, now);
            }
            SENDING => {
                if level(self.frame(), self.at_half) != is_low {
                    self.destroy(now);
                }
            }
            BREAKING => {}
            _ => {
                let mut window = self.window();
                window.edge(is_low, passed(self.edge, now));
                self.set_window(&window);
            }
        }
    }

    fn turn(&mut self, is_low: bool, now: u64, event: &mut Event)
        ensures told { event.new ≡ also event.old (lapsed_word (seen self.old).phase) }
        ensures port { seen self.new ≡ edged (seen self.old) is_low now }
    {
        self.turn_in(is_low, now, event);
        self.set_level(is_low, now);
    }

    /// An edge may have been lost, before the level of the bus is known.
    fn lose_in(&mut self, is_low: bool, now: u64, event: &mut Event)
        ensures told { event.new ≡ also event.old (lapsed_word (seen self.old).phase) }
        ensures port { seen self.new
            ≡ record (lost_in (seen self.old).phase (seen self.old) is_low now) { is_over = true } }
    {
        self.is_over = 1;
        match self.phase {
            FREE => self.spoil(is_low),
            WAITING => {
                self.lapse(event);
                self.spoil(is_low);
            }
            SENDING => self.destroy(now),
            BREAKING => {}
            _ => {
                self.phase = LISTENING;
                self.elapsed = self.elapsed.saturating_add(passed(self.edge, now));
                self.heard = 2;
                self.has_pulse = 1;
                self.spoil(is_low);
            }
        }
    }

    fn lose(&mut self, is_low: bool, now: u64, event: &mut Event)
        ensures told { event.new ≡ also event.old (lapsed_word (seen self.old).phase) }
        ensures port { seen self.new ≡ lost (seen self.old) is_low now }
    {
        self.lose_in(is_low, now, event);
        self.set_level(is_low, now);
    }

    /// A frame that waits begins or lapses.
    fn tick(&mut self, now: u64, event: &mut Event)
        ensures told { event.new ≡ also event.old (timed_word (seen self.old).phase (seen self.old) now) }
        ensures port { seen self.new ≡ timed (seen self.old) now }
    {
        if self.phase != WAITING {
            return;
        }
        let rest = rest_of(self.priority).0 + u64::from(self.drawn);
        let is_rested = self.is_low == 0 && now.saturating_sub(self.edge) >= rest;
        let is_drawn = self.has_draws == 0 || now.saturating_sub(self.draws) >= DRAW;
        if !is_rested || !is_drawn {
            return;
        }
        let is_in_time = self.has_first != 0 && now.saturating_sub(self.first) <= SECOND;
        if self.half > 1 && !is_in_time {
            self.is_over = 1;
            self.phase = FREE;
            event.word = Some(Word::Lapsed);
            return;
        }
        self.is_over = 0;
        self.has_first = u8::from(self.half == 1);
        self.first = now;
        self.phase = SENDING;
        self.at_half = 0;
        self.since = now;
        self.agreed = now;
        self.driven = now;
    }

    /// A frame is taken, unless its transaction is over.
    fn take(&mut self, order: &Order, event: &mut Event)
        ensures told { event.new ≡ also event.old (taken_word (seen self.old) order.now) }
        ensures port { seen self.new ≡ taken (seen self.old) order.now }
    {
        let is_alone = matches!(order.half, Half::Second) && self.has_first == 0;
        if order.priority.number() == 1 && (self.is_over != 0 || is_alone) {
            self.is_over = 1;
            event.word = Some(Word::Lapsed);
            return;
        }
        self.phase = WAITING;
        self.address_byte = order.frame.address_byte;
        self.opcode_byte = order.frame.opcode_byte;
        self.priority = order.priority.number();
        self.half = order.half as u8;
        self.asks = u8::from(order.asks);
        self.drawn = order.drawn;
    }

    /// The timer.
    pub fn timer(&mut self, now: u64, event: &mut Event) -> Result<(), Refusal>
        ensures told { answered result event.new ≡ timer_told (seen self.old) now }
        ensures port { seen self.new ≡ timer_after (seen self.old) now }
        ensures refused { IsErr result → (self.new ≡ self.old) × (event.new ≡ event.old) }
    {
        if now < self.called {
            return Err(Refusal::Backwards);
        }
        *event = NOTHING;
        self.until(now, event);
        self.tick(now, event);
        Ok(())
    }

    /// An edge of the bus, after which it is low or high. If it has that level already, an edge was lost.
    pub fn edge(&mut self, is_low: bool, now: u64, event: &mut Event) -> Result<(), Refusal>
        ensures told { answered result event.new ≡ edge_told (seen self.old) is_low now }
        ensures port { seen self.new ≡ edge_after (seen self.old) is_low now }
        ensures refused { IsErr result → (self.new ≡ self.old) × (event.new ≡ event.old) }
    {
        if now < self.called {
            return Err(Refusal::Backwards);
        }
        *event = NOTHING;
        if (self.is_low != 0) == is_low {
            self.lose(is_low, now, event);
        } else {
            self.until(now, event);
            self.turn(is_low, now, event);
        }
        Ok(())
    }

    /// An edge may have been lost; the bus is low or high now.
    pub fn lost(&mut self, is_low: bool, now: u64, event: &mut Event) -> Result<(), Refusal>
        ensures told { answered result event.new ≡ lost_told (seen self.old) is_low now }
        ensures port { seen self.new ≡ lost_after (seen self.old) is_low now }
        ensures refused { IsErr result → (self.new ≡ self.old) × (event.new ≡ event.old) }
    {
        if now < self.called {
            return Err(Refusal::Backwards);
        }
        *event = NOTHING;
        self.lose(is_low, now, event);
        Ok(())
    }

    /// A frame is handed in.
    pub fn send(&mut self, order: &Order, now: u64, event: &mut Event) -> Result<(), Refusal>
        ensures told { answered result event.new ≡ send_told (seen self.old) order.now now }
        ensures port { seen self.new ≡ send_after (seen self.old) order.now now }
        ensures refused { IsErr result → (self.new ≡ self.old) × (event.new ≡ event.old) }
    {
        if now < self.called {
            return Err(Refusal::Backwards);
        }
        if self.phase != FREE {
            return Err(Refusal::Busy);
        }
        if let Some(refusal) = order.refusal() {
            return Err(refusal);
        }
        *event = NOTHING;
        self.until(now, event);
        self.take(order, event);
        Ok(())
    }

    /// When a frame that waits may begin, if no edge comes before.
    fn begins(&self) -> u64
        ensures { result ≡ begins_at (seen self.now) (order_of self.now) }
    {
        let rest = rest_of(self.priority).0 + u64::from(self.drawn);
        let rested = self.edge.saturating_add(rest);
        if self.has_draws == 0 {
            return rested;
        }
        rested.max(self.draws.saturating_add(DRAW))
    }

    fn rest_due(&self, begin: Option<u64>) -> Option<u64>
        ensures { result ≡ rest_due (seen self.now) begin }
    {
        match (self.is_low, self.reading) {
            (0, 0) => begin,
            (0, _) => Some(self.edge.saturating_add(u64::from(STOP))),
            _ if self.is_powerless != 0 && begin.is_none() => None,
            _ => Some(self.edge.saturating_add(POWER)),
        }
    }

    fn window_due(&self) -> u64
        ensures { result ≡ window_due (seen self.now) (window_of (seen self.now) (after_of self.now)) }
    {
        let left = WINDOW.saturating_sub(self.elapsed);
        let left = match (self.is_low, self.reading) {
            (0, 0) => left,
            (0, _) => left.max(STOP),
            _ => GIVEN_UP.saturating_sub(self.elapsed),
        };
        self.edge.saturating_add(u64::from(left))
    }

    /// What to drive, and when to call again; look after each call.
    pub fn drive(&self) -> Drive
        ensures { result ≡ drive_of (seen self.now) }
    {
        let (is_low, at, next) = match self.phase {
            FREE => (false, self.rest_due(None), false),
            WAITING => (false, self.rest_due(Some(self.begins())), false),
            SENDING => (
                level(self.frame(), self.at_half),
                Some(self.since.saturating_add(HALF_BIT)),
                level(self.frame(), self.at_half.saturating_add(1)),
            ),
            BREAKING => (true, Some(self.since.saturating_add(BREAK)), false),
            _ => (false, Some(self.window_due()), false),
        };
        Drive { is_low, at, next }
    }
}
