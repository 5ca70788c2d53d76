//! How each controller ended, as far as a log tells.
#![tactic(auto, using(std::proofs::lemmas::List::append_assoc))]

ghost use Rattle.std.specs.Prelude.{◌≡◌, ◌++◌, OnOk, string_bytes};
ghost use Rattle.dali_story.specs.Stances.{after_order, stance_by, stance_of, stance_text, stance_item, stances_before};

use dali_replay::push_comma;
use dali_script::{End, Fault, Order};
use dali_world::Event;
use std::alloc::AllocError;

/// How a controller stands.
#[derive(Clone, Copy)]
pub enum Stance {
    /// It is at work, or did nothing yet.
    AtWork,
    /// Its commissioning ended.
    Ended(End),
    /// Its machine halted.
    Halted(Fault),
    /// It is down.
    Down,
}

/// How a controller stands after an order of its own.
fn after_order(order: Order) -> Stance
    ensures { result ≡ after_order order }
{
    match order {
        Order::Done(end) => Stance::Ended(end),
        Order::Halt(fault) => Stance::Halted(fault),
        Order::Put(..) | Order::Commit(_) => Stance::AtWork,
    }
}

/// The controller of which an event says how it stands, and how.
fn stance_by(event: Event) -> Option<(u8, Stance)>
    ensures { result ≡ stance_by event }
{
    match event {
        Event::Acted(c, _, order) => Some((c, after_order(order))),
        Event::Down(c) => Some((c, Stance::Down)),
        Event::Up(c, _) => Some((c, Stance::AtWork)),
        Event::Offered(..)
        | Event::Sent(..)
        | Event::Destroyed(..)
        | Event::Collided(..)
        | Event::Lapsed
        | Event::Quiet
        | Event::Foreign(_)
        | Event::Power(..)
        | Event::Expired(_) => None,
    }
}

/// How controller c stands at the end of a log.
fn stance_of(c: u8, log: &[Event]) -> Stance
    ensures { result ≡ stance_of c log.now }
{
    let mut stance = Stance::AtWork;
    for event in log {
        if let Some((told, stands)) = stance_by(*event) {
            if told == c {
                stance = stands;
            }
        }
    }
    stance
}

fn push_stance(text: &mut String, stance: Stance) -> Result<(), AllocError>
    ensures { OnOk result (string_bytes text.new ≡ string_bytes text.old ++ stance_text stance) }
{
    match stance {
        Stance::AtWork => text.push_str("at-work"),
        Stance::Down => text.push_str("down"),
        Stance::Ended(end) => text.push_str(end.name()),
        Stance::Halted(fault) => {
            let name = fault.name();
            write!(text, "halt-{name}")
        }
    }
}

/// How a controller stands, behind a comma if it is not the first.
fn push_item(text: &mut String, c: u8, stance: Stance) -> Result<(), AllocError>
    ensures { OnOk result (string_bytes text.new ≡ string_bytes text.old ++ stance_item c stance) }
{
    push_comma(text, c as usize)?;
    text.push_str("\"")?;
    push_stance(text, stance)?;
    text.push_str("\"")
}

/// How so many controllers stand at the end of a log.
pub fn push_stances(text: &mut String, controllers: u8, log: &[Event]) -> Result<(), AllocError>
    ensures { OnOk result (string_bytes text.new ≡ string_bytes text.old ++ stances_before log.now controllers) }
{
    for c in 0..controllers {
        push_item(text, c, stance_of(c, log))?;
    }
    Ok(())
}
