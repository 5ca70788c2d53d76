ghost use Rattle.std.specs.Prelude.{◌≡◌, ◌⊎◌, ◌+◌, ◌≤◌, false, None, Ok};
ghost use Rattle.dali_line.specs.Driving.{Drives};

use crate::bus::Bus;
use crate::gate::{Gate, Moment};
use crate::ready::Ready;
use dali_world::{Refusal, Trouble};
use std::sync::Wait;

/// The number by which a pumper asks its gate.
const PUMPER: u8 = 255;

/// The bus's thread: it lets each request that is next come on the bus.
///
/// The gate is asked after each turn, by the number 255.
#[derive(Drop)]
pub struct Pumper<D, G> {
    /// The right to drive the bus.
    pub driver: D,
    /// What is asked after each turn.
    pub gate: G,
}

impl<D, G: Gate> Pumper<D, G> {
    /// A pumper with this driver and gate.
    pub fn new(driver: D, gate: G) -> Pumper<D, G>
        ensures { result.driver ≡ driver }
    {
        Pumper { driver, gate }
    }

    /// Takes turns until all is over, the line is stopped or refuses, or this many turns are taken. The last two stop
    /// the line. Gives the driver back, with the refusal, if there was one.
    ///
    /// A turn waits until a request is next, and lets it come on the bus undisturbed. If no request more may wait and
    /// the owner of the bus has none among them, it lets the bus lapse. It does nothing else (`drives`).
    pub fn run<B: Bus<Driver = D>, R: Wait>(
        self,
        rt: &R,
        bus: &B,
        turns: u32,
    ) -> (D, Option<Refusal>)
        ensures least { B.driven self.driver ≤ B.driven result.0 }
        ensures most { B.driven result.0 ≤ B.driven self.driver + turns }
        ensures drives { Drives B.pumped B.is_stuck B.lapsed (B.driven self.driver) (B.driven result.0) turns }
        // No thread waits for it then.
        ensures ended { B.is_told_to_stop bus.now
            ⊎ ((result.1 ≡ None) × (B.is_stopped bus.now ⊎ B.is_over (B.driven result.0))) }
    {
        let Pumper { driver, gate } = self;
        let mut driver = driver;
        for _ in 0..turns {
            match take_turn(rt, bus, &mut driver) {
                Ok(true) => {}
                Ok(false) => return (driver, None),
                Err(refusal) => {
                    bus.stop(rt);
                    return (driver, Some(refusal));
                }
            }
            gate.at(rt, PUMPER, Moment::AfterTurn);
        }
        bus.stop(rt);
        (driver, None)
    }
}

/// A turn of the bus, once there is one. Whether there was one: none if all is over, or the line is stopped.
#[tactic(auto, using(crate::proofs::Driving::turns))]
fn take_turn<B: Bus, R: Wait>(rt: &R, bus: &B, driver: &mut B::Driver) -> Result<bool, Refusal>
    ensures least { B.driven driver.old ≤ B.driven driver.new }
    ensures most { B.driven driver.new ≤ B.driven driver.old + 1 }
    ensures drives { Drives B.pumped B.is_stuck B.lapsed (B.driven driver.old) (B.driven driver.new) 1 }
    ensures ended { result ≡ Ok false → B.is_stopped bus.now ⊎ B.is_over (B.driven driver.new) }
{
    match bus.ready(rt, driver) {
        Ready::Stopped | Ready::Over => return Ok(false),
        Ready::Next => {
            bus.pump(rt, driver, Trouble::None)?;
        }
        Ready::Full => {
            bus.lapse(rt, driver)?;
        }
    }
    Ok(true)
}
