//! A port between the pins and a machine, in words and bytes; and what C calls of it.

ghost use Rattle.std.specs.Prelude.{◌≡◌, ◌+◌, ◌^◌, Bool, Some, None};
ghost use Rattle.dali_port.specs.declared.orders.Order.{Order as Sent};
ghost use Rattle.dali_port.specs.State.{seen};
ghost use Rattle.dali_port.specs.Ports.{port_at_first, only};
ghost use Rattle.dali_port.specs.Calls.{edge_after, edge_told, lost_after, lost_told, timer_after, timer_told};
ghost use Rattle.dali_port.specs.Calls.{send_after, send_told, answered};
ghost use Rattle.dali_c.specs.Codes.{bool_of};
ghost use Rattle.dali_c.specs.Port.{half_of, order_by, time_at};
ghost use Rattle.dali_c.specs.Port.{ticks_of, refusal_code, IsWord, IsRead, IsEvent, Answers, Tells, order_sent};
ghost use Rattle.dali_c.specs.Calls.{OK, BAD_ARGUMENT};

use crate::codes::{answer_code, bool_code, bool_of};
use crate::orders::PlainOrder;
use crate::receivers::PlainTold;
use crate::status;
use dali_frame::{Forward, Priority};
use dali_port::{Event, Half, Order, Port, Read, Refusal, Word};

/// What a call tells: what to drive, what the frame came to, and what was read of others.
#[repr(C)]
#[derive(Clone, Copy)]
pub struct PlainEvent {
    pub at: u32,
    pub is_low: u8,
    pub next: u8,
    pub input: u8,
    pub byte: u8,
    pub read: PlainTold,
}

/// After so many µs a clock of 32 bits begins anew.
const TURN: u64 = 0x1_0000_0000;

const NOTHING: Event = Event {
    word: None,
    read: None,
};

/// The time of a call by a clock of 32 bits, as a port counts it that was called last at this time.
fn time_at(called: u64, now: u32) -> u64
    ensures { result ≡ time_at called now }
{
    let ago = (u64::from(now) + TURN - called % TURN) % TURN;
    if ago < TURN / 2 {
        called.saturating_add(ago)
    } else {
        called.saturating_sub(TURN - ago)
    }
}

/// The time of the clock, if a port is to be called then; within 18 minutes it is to be called in any case.
fn ticks(called: u64, at: Option<u64>) -> u32
    ensures { result ≡ ticks_of called at }
{
    let at = match at {
        None => called.saturating_add(TURN / 4),
        Some(at) => at,
    };
    (at % TURN) as u32
}

fn half_of(code: u8) -> Option<Half>
    ensures { result ≡ half_of code }
{
    match code {
        0 => Some(Half::Whole),
        1 => Some(Half::First),
        2 => Some(Half::Second),
        _ => None,
    }
}

fn order_by(priority: u8, frame: Forward, half: u8, asks: u8, drawn: u32) -> Option<Order>
    ensures { result ≡ order_by priority frame half asks drawn }
{
    let priority = Priority::of(priority)?;
    let half = half_of(half)?;
    Some(Order {
        frame,
        priority,
        half,
        asks: asks != 0,
        drawn,
    })
}

/// What a machine orders, as a port is handed it. None if it is no frame.
fn order_sent(order: &PlainOrder, drawn: u32) -> Option<Order>
    ensures { result ≡ order_sent order.now drawn }
{
    if order.kind != 1 {
        return None;
    }
    let frame = Forward {
        address_byte: order.address_byte,
        opcode_byte: order.opcode_byte,
    };
    order_by(order.priority, frame, order.half, order.asks, drawn)
}

/// The code of what a frame came to, and its byte.
fn word_code(word: &Option<Word>) -> (u8, u8)
    ensures { IsWord result.0 result.1 word.now }
{
    match word {
        None => (0, 0),
        Some(Word::Heard(heard)) => answer_code(*heard),
        Some(Word::Destroyed) => (4, 0),
        Some(Word::Lapsed) => (5, 0),
    }
}

impl PlainEvent {
    fn set_read(&mut self, read: &Option<Read>)
        ensures read { IsRead self.new.read read.now }
        ensures rest { self.new ≡ record self.old { read = self.new.read } }
    {
        self.read = match read {
            None => PlainTold::of(None),
            Some(Read::Frame(told)) => PlainTold::of(Some(*told)),
            Some(Read::NoPower) => PlainTold {
                kind: 5,
                ..PlainTold::of(None)
            },
        };
    }

    fn set(&mut self, told: &Event, port: &Port)
        ensures { IsEvent self.new told.now (seen port.now) }
    {
        let drive = port.drive();
        let (input, byte) = word_code(&told.word);
        self.at = ticks(port.called, drive.at);
        self.is_low = bool_code(drive.is_low);
        self.next = bool_code(drive.next);
        self.input = input;
        self.byte = byte;
        self.set_read(&told.read);
    }
}

fn refusal_code(refusal: Refusal) -> u8
    ensures { result ≡ refusal_code refusal }
{
    match refusal {
        Refusal::Backwards => status::BACKWARDS,
        Refusal::Busy => status::BUSY,
        Refusal::NotLater | Refusal::BeyondSpan => status::BAD_ARGUMENT,
    }
}

/// What a call answers: it is done, or refused and nothing is written.
fn answer(done: Result<(), Refusal>, told: &Event, port: &Port, event: &mut PlainEvent) -> u8
    ensures { Tells port.now event.old event.new result (answered done told.now) }
{
    match done {
        Ok(()) => {
            event.set(told, port);
            status::OK
        }
        Err(refusal) => refusal_code(refusal),
    }
}

/// A port at power-up, or if nothing is known of the bus but its level.
#[unsafe(no_mangle)]
pub extern "C" fn dali_port_new(port: &mut Port, is_low: u8, now: u32, event: &mut PlainEvent) -> u8
    ensures done { (low : Bool) → bool_of is_low ≡ Some low → (result ≡ OK)
        × (seen port.new ≡ port_at_first low (2 ^ 32 + now))
        × IsEvent event.new (only None) (port_at_first low (2 ^ 32 + now)) }
    ensures bad { bool_of is_low ≡ None
        → (result ≡ BAD_ARGUMENT) × (port.new ≡ port.old) × (event.new ≡ event.old) }
{
    let Some(is_low) = bool_of(is_low) else {
        return status::BAD_ARGUMENT;
    };
    *port = Port::new(is_low, TURN + u64::from(now));
    event.set(&NOTHING, port);
    status::OK
}

/// A frame is handed in, as a machine ordered it.
#[unsafe(no_mangle)]
pub extern "C" fn dali_port_send(
    port: &mut Port,
    order: &PlainOrder,
    drawn: u32,
    now: u32,
    event: &mut PlainEvent,
) -> u8
    ensures done { (o : Sent) → order_sent order.now drawn ≡ Some o
        → Answers port.old port.new event.old event.new result
        (send_after (seen port.old) o (time_at port.old.called now))
        (send_told (seen port.old) o (time_at port.old.called now)) }
    ensures bad { order_sent order.now drawn ≡ None
        → (result ≡ BAD_ARGUMENT) × (port.new ≡ port.old) × (event.new ≡ event.old) }
{
    let Some(order) = order_sent(order, drawn) else {
        return status::BAD_ARGUMENT;
    };
    let mut told = NOTHING;
    let done = port.send(&order, time_at(port.called, now), &mut told);
    answer(done, &told, port, event)
}

/// An edge of the bus, after which it is low or high.
#[unsafe(no_mangle)]
pub extern "C" fn dali_port_edge(
    port: &mut Port,
    is_low: u8,
    now: u32,
    event: &mut PlainEvent,
) -> u8
    ensures done { (low : Bool) → bool_of is_low ≡ Some low
        → Answers port.old port.new event.old event.new result
        (edge_after (seen port.old) low (time_at port.old.called now))
        (edge_told (seen port.old) low (time_at port.old.called now)) }
    ensures bad { bool_of is_low ≡ None
        → (result ≡ BAD_ARGUMENT) × (port.new ≡ port.old) × (event.new ≡ event.old) }
{
    let Some(is_low) = bool_of(is_low) else {
        return status::BAD_ARGUMENT;
    };
    let mut told = NOTHING;
    let done = port.edge(is_low, time_at(port.called, now), &mut told);
    answer(done, &told, port, event)
}

/// An edge may have been lost; the bus is low or high now.
#[unsafe(no_mangle)]
pub extern "C" fn dali_port_lost(
    port: &mut Port,
    is_low: u8,
    now: u32,
    event: &mut PlainEvent,
) -> u8
    ensures done { (low : Bool) → bool_of is_low ≡ Some low
        → Answers port.old port.new event.old event.new result
        (lost_after (seen port.old) low (time_at port.old.called now))
        (lost_told (seen port.old) low (time_at port.old.called now)) }
    ensures bad { bool_of is_low ≡ None
        → (result ≡ BAD_ARGUMENT) × (port.new ≡ port.old) × (event.new ≡ event.old) }
{
    let Some(is_low) = bool_of(is_low) else {
        return status::BAD_ARGUMENT;
    };
    let mut told = NOTHING;
    let done = port.lost(is_low, time_at(port.called, now), &mut told);
    answer(done, &told, port, event)
}

/// The timer.
#[unsafe(no_mangle)]
pub extern "C" fn dali_port_timer(port: &mut Port, now: u32, event: &mut PlainEvent) -> u8
    ensures { Answers port.old port.new event.old event.new result
        (timer_after (seen port.old) (time_at port.old.called now))
        (timer_told (seen port.old) (time_at port.old.called now)) }
{
    let mut told = NOTHING;
    let done = port.timer(time_at(port.called, now), &mut told);
    answer(done, &told, port, event)
}
