//! A bus with all calls of a line. What knows a line by this trait is proved in a third of the time, since it names
//! none of the five ledgers.

use dali_frame::Forward;
use dali_line::{Bus, Line, UpRefusal};
use dali_script::Kept;
use dali_world::{Outside, Refusal};
use std::sync::Wait;
use std::sync::ledger::Ledger;

/// A bus that has also the calls of a line that no worker and no pumper makes. Each is the line's call of this name.
pub trait FullBus: Bus {
    fn arc<R: Wait>(&self, rt: &R, port: &mut Self::Port, frame: Forward) -> Result<(), Refusal>;

    fn quiet<R: Wait>(&self, rt: &R, driver: &mut Self::Driver) -> Result<(), Refusal>;

    fn befall<R: Wait>(
        &self,
        rt: &R,
        driver: &mut Self::Driver,
        what: Outside,
    ) -> Result<(), Refusal>;

    fn power<R: Wait>(
        &self,
        rt: &R,
        driver: &mut Self::Driver,
        number: u32,
        on: bool,
    ) -> Result<(), Refusal>;

    fn expire<R: Wait>(
        &self,
        rt: &R,
        driver: &mut Self::Driver,
        number: u32,
    ) -> Result<(), Refusal>;

    fn down<R: Wait>(&self, rt: &R, driver: &mut Self::Driver, c: u8) -> Result<(), Refusal>;

    fn up<R: Wait>(
        &self,
        rt: &R,
        driver: &mut Self::Driver,
        c: u8,
        copy: &Kept,
    ) -> Result<(), UpRefusal>;
}

impl<P0: Ledger, P1: Ledger, P2: Ledger, P3: Ledger, D: Ledger> FullBus
    for Line<P0, P1, P2, P3, D> {
    fn arc<R: Wait>(&self, rt: &R, port: &mut Self::Port, frame: Forward) -> Result<(), Refusal> {
        self.arc(rt, port, frame)
    }

    fn quiet<R: Wait>(&self, rt: &R, driver: &mut Self::Driver) -> Result<(), Refusal> {
        self.quiet(rt, driver)
    }

    fn befall<R: Wait>(
        &self,
        rt: &R,
        driver: &mut Self::Driver,
        what: Outside,
    ) -> Result<(), Refusal> {
        self.befall(rt, driver, what)
    }

    fn power<R: Wait>(
        &self,
        rt: &R,
        driver: &mut Self::Driver,
        number: u32,
        on: bool,
    ) -> Result<(), Refusal> {
        self.power(rt, driver, number, on)
    }

    fn expire<R: Wait>(
        &self,
        rt: &R,
        driver: &mut Self::Driver,
        number: u32,
    ) -> Result<(), Refusal> {
        self.expire(rt, driver, number)
    }

    fn down<R: Wait>(&self, rt: &R, driver: &mut Self::Driver, c: u8) -> Result<(), Refusal> {
        self.down(rt, driver, c)
    }

    fn up<R: Wait>(
        &self,
        rt: &R,
        driver: &mut Self::Driver,
        c: u8,
        copy: &Kept,
    ) -> Result<(), UpRefusal> {
        self.up(rt, driver, c, copy)
    }
}
