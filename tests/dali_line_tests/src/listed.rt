//! A bus of one's own: it hands each call to another bus, and each holder of a port, and the driver's, keeps a list of
//! what it asked and was answered, as events.

use dali_line::{Bus, Ready};
use dali_script::{Due, Input, Record};
use dali_world::{Event, Receipt, Refusal, Report, Trouble};
use std::alloc::Global;
use std::sync::Wait;

/// What a holder asked and was answered. `is_whole` is false if memory ran out for it.
#[derive(Drop)]
pub struct List {
    pub events: Vec<Event>,
    pub is_whole: bool,
}

impl List {
    /// Puts one event more at the end of the list.
    fn append(&mut self, event: &Event) {
        if !put(&mut self.events, event) {
            self.is_whole = false;
        }
    }
}

/// A port, or a driver, with its list.
#[derive(Drop)]
pub struct Listed<T> {
    pub inner: T,
    pub list: List,
}

impl<T> Listed<T> {
    /// A port or a driver with an empty list.
    pub fn new(alloc: Global, inner: T) -> Listed<T> {
        let list = List {
            events: Vec::new(alloc),
            is_whole: true,
        };
        Listed { inner, list }
    }
}

/// Puts one item more at the end of a list. Whether there was memory for it.
fn put<T: Copy + Drop>(list: &mut Vec<T>, item: &T) -> bool {
    list.push(*item).is_ok()
}

/// A bus whose ports and driver keep lists.
#[derive(Drop)]
pub struct ListedBus<'a, B> {
    pub bus: &'a B,
}

impl<B: Bus> Bus for ListedBus<'_, B> {
    type Port = Listed<B::Port>;

    type Driver = Listed<B::Driver>;

    ghost share = { λ port. B.share port.inner };

    ghost driven = { λ driver. B.driven driver.inner };

    ghost acted = { B.acted };

    ghost refused = { B.refused };

    ghost told = { B.told };

    ghost untold = { B.untold };

    ghost ordered = { B.ordered };

    ghost unordered = { B.unordered };

    ghost is_down = { B.is_down };

    ghost pumped = { B.pumped };

    ghost lapsed = { B.lapsed };

    ghost is_stuck = { B.is_stuck };

    ghost is_over = { B.is_over };

    ghost is_stopped = { λ it. B.is_stopped it.bus.now };

    ghost is_told_to_stop = { λ it. B.is_told_to_stop it.bus.now };

    fn controller(&self, port: &Listed<B::Port>) -> u8 {
        self.bus.controller(&port.inner)
    }

    fn act<R: Wait>(
        &self,
        rt: &R,
        port: &mut Listed<B::Port>,
        input: Input,
    ) -> Result<Receipt, Refusal> {
        let receipt = self.bus.act(rt, &mut port.inner, input)?;
        port.list.append(&Event::Acted(receipt.controller(), receipt.input(), receipt.order()));
        Ok(receipt)
    }

    fn next<R: Wait>(&self, rt: &R, port: &mut Listed<B::Port>) -> Option<Input> {
        self.bus.next(rt, &mut port.inner)
    }

    fn due<R: Wait>(&self, rt: &R, port: &mut Listed<B::Port>) -> Due {
        self.bus.due(rt, &mut port.inner)
    }

    fn wait<R: Wait>(&self, rt: &R, port: &mut Listed<B::Port>) -> bool {
        self.bus.wait(rt, &mut port.inner)
    }

    fn begin_commit<R: Wait>(&self, rt: &R, port: &mut Listed<B::Port>) -> Option<Record> {
        self.bus.begin_commit(rt, &mut port.inner)
    }

    fn end_commit<R: Wait>(&self, rt: &R, port: &mut Listed<B::Port>, is_made: bool) {
        self.bus.end_commit(rt, &mut port.inner, is_made)
    }

    fn wait_for_room<R: Wait>(&self, rt: &R, port: &mut Listed<B::Port>) -> bool {
        self.bus.wait_for_room(rt, &mut port.inner)
    }

    fn pump<R: Wait>(
        &self,
        rt: &R,
        driver: &mut Listed<B::Driver>,
        trouble: Trouble,
    ) -> Result<Report, Refusal> {
        let report = self.bus.pump(rt, &mut driver.inner, trouble)?;
        if let Report::Sent(c, frame, heard) = report {
            driver.list.append(&Event::Sent(c, frame, heard));
        }
        Ok(report)
    }

    fn lapse<R: Wait>(
        &self,
        rt: &R,
        driver: &mut Listed<B::Driver>,
    ) -> Result<Option<u8>, Refusal> {
        let owner = self.bus.lapse(rt, &mut driver.inner)?;
        driver.list.append(&Event::Lapsed);
        Ok(owner)
    }

    fn ready<R: Wait>(&self, rt: &R, driver: &mut Listed<B::Driver>) -> Ready {
        self.bus.ready(rt, &mut driver.inner)
    }

    fn stop<R: Wait>(&self, rt: &R) {
        self.bus.stop(rt)
    }

    fn is_stopped<R: Wait>(&self, rt: &R) -> bool {
        self.bus.is_stopped(rt)
    }
}
