//! A bus of one's own: it drives itself, so that a worker runs alone. If its controller has nothing due, or waits
//! for room, the bus has a turn before. It tells nothing to who looks first, so that a worker takes a turn in vain.

ghost use Rattle.std.specs.Prelude.{◌≡◌};

use dali_line::{Bus, Ready};
use dali_script::{Due, Input, Record};
use dali_world::{Receipt, Refusal, Report, Trouble};
use std::sync::atomic::AtomicBool;
use std::sync::atomic::Ordering::SeqCst;
use std::sync::{Mutex, Wait};

/// How many turns the bus has in a row before it gives up.
const TURNS: u32 = 1000;

/// A bus that drives itself by this driver.
#[derive(Drop)]
pub struct DrivenBus<'a, B: Bus> {
    pub bus: &'a B,
    pub driver: &'a Mutex<B::Driver>,
    /// Whether a worker has waited for room.
    pub has_waited: &'a AtomicBool,
    /// Whether a worker has looked what it is told.
    pub has_looked: &'a AtomicBool,
}

impl<B: Bus> DrivenBus<'_, B> {
    /// A frame comes on the bus; if none can, the bus lapses.
    fn drive<R: Wait>(&self, rt: &R) {
        let mut driver = self.driver.lock(rt);
        let report = self.bus.pump(rt, &mut driver, Trouble::None);
        if report == Ok(Report::Idle) {
            let _ = self.bus.lapse(rt, &mut driver);
        }
    }

    /// Whether nothing is due for the port's controller.
    fn has_nothing<R: Wait>(&self, rt: &R, port: &mut B::Port) -> bool
        ensures { B.share port.new ≡ B.share port.old }
    {
        self.bus.next(rt, port).is_none() && self.bus.due(rt, port) == Due::Bus
    }
}

impl<B: Bus> Bus for DrivenBus<'_, B> {
    type Port = B::Port;

    type Driver = B::Driver;

    ghost share = { λ port. B.share port };

    ghost driven = { λ driver. B.driven driver };

    ghost acted = { B.acted };

    ghost refused = { B.refused };

    ghost told = { B.told };

    ghost untold = { λ _. Unit {0} };

    ghost ordered = { B.ordered };

    ghost unordered = { B.unordered };

    ghost is_down = { B.is_down };

    ghost pumped = { B.pumped };

    ghost lapsed = { B.lapsed };

    ghost is_stuck = { B.is_stuck };

    ghost is_over = { B.is_over };

    ghost is_stopped = { λ it. B.is_stopped it.bus.now };

    ghost is_told_to_stop = { λ it. B.is_told_to_stop it.bus.now };

    fn controller(&self, port: &B::Port) -> u8 {
        self.bus.controller(port)
    }

    fn act<R: Wait>(&self, rt: &R, port: &mut B::Port, input: Input) -> Result<Receipt, Refusal> {
        self.bus.act(rt, port, input)
    }

    fn next<R: Wait>(&self, rt: &R, port: &mut B::Port) -> Option<Input> {
        if self.has_looked.load(SeqCst) {
            self.bus.next(rt, port)
        } else {
            self.has_looked.store(true, SeqCst);
            None
        }
    }

    fn due<R: Wait>(&self, rt: &R, port: &mut B::Port) -> Due {
        self.bus.due(rt, port)
    }

    fn wait<R: Wait>(&self, rt: &R, port: &mut B::Port) -> bool {
        for _ in 0..TURNS {
            if !self.has_nothing(rt, port) {
                break;
            }
            self.drive(rt);
        }
        self.bus.wait(rt, port)
    }

    fn begin_commit<R: Wait>(&self, rt: &R, port: &mut B::Port) -> Option<Record> {
        self.bus.begin_commit(rt, port)
    }

    fn end_commit<R: Wait>(&self, rt: &R, port: &mut B::Port, is_made: bool) {
        self.bus.end_commit(rt, port, is_made)
    }

    fn wait_for_room<R: Wait>(&self, rt: &R, port: &mut B::Port) -> bool {
        self.has_waited.store(true, SeqCst);
        self.drive(rt);
        self.bus.wait_for_room(rt, port)
    }

    fn pump<R: Wait>(
        &self,
        rt: &R,
        driver: &mut B::Driver,
        trouble: Trouble,
    ) -> Result<Report, Refusal> {
        self.bus.pump(rt, driver, trouble)
    }

    fn lapse<R: Wait>(&self, rt: &R, driver: &mut B::Driver) -> Result<Option<u8>, Refusal> {
        self.bus.lapse(rt, driver)
    }

    fn ready<R: Wait>(&self, rt: &R, driver: &mut B::Driver) -> Ready {
        self.bus.ready(rt, driver)
    }

    fn stop<R: Wait>(&self, rt: &R) {
        self.bus.stop(rt)
    }

    fn is_stopped<R: Wait>(&self, rt: &R) -> bool {
        self.bus.is_stopped(rt)
    }
}
