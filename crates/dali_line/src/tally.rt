ghost use Rattle.std.specs.Prelude.{◌≡◌, ◌+◌, ◌<◌};
ghost use Rattle.dali_line.specs.Shares.{count_at, raised, raised_share, raised_driver};

use crate::driver::Driver;
use crate::port::{Kind, Port};
use std::marker::Model;
use std::sync::ledger::{Book, Ledger};

/// The books of a line's five ledgers, which lie under its lock. They know no site.
///
/// Contracts see their totals.
#[derive(Drop)]
pub(crate) struct Tally<P0: Ledger, P1: Ledger, P2: Ledger, P3: Ledger, D: Ledger> {
    pub(crate) first: Book<P0>,
    pub(crate) second: Book<P1>,
    pub(crate) third: Book<P2>,
    pub(crate) fourth: Book<P3>,
    pub(crate) driver: Book<D>,
}

impl<P0: Ledger, P1: Ledger, P2: Ledger, P3: Ledger, D: Ledger> Model for Tally<P0, P1, P2, P3, D> {
    ghost use Rattle.dali_line.specs.Shares.{Tally};

    ghost Value = { Tally };

    ghost view = { λ t. record {
      first = t.first.total;
      second = t.second.total;
      third = t.third.total;
      fourth = t.fourth.total;
      driver = t.driver.total;
    } };
}

impl<P0: Ledger, P1: Ledger, P2: Ledger, P3: Ledger, D: Ledger> Tally<P0, P1, P2, P3, D> {
    /// One step more of the port's controller.
    pub(crate) fn raise(&mut self, port: &mut Port<P0, P1, P2, P3, D>)
        requires { port.old.controller < 4 }
        ensures tally { self.new ≡ raised self.old port.old.controller }
        ensures port { port.new ≡ raised_share port.old }
    {
        match &mut port.kind {
            Kind::First(own) => own.raise(&mut self.first),
            Kind::Second(own) => own.raise(&mut self.second),
            Kind::Third(own) => own.raise(&mut self.third),
            Kind::Fourth(own) => own.raise(&mut self.fourth),
            // A spare port speaks for no controller.
            Kind::Spare => unreachable!(),
        }
    }

    /// Says that the port's share is its controller's count. It changes neither.
    pub(crate) fn audit(&mut self, port: &mut Port<P0, P1, P2, P3, D>)
        ensures exact { port.old.share ≡ count_at self.old port.old.controller }
        ensures tally { self.new ≡ self.old }
        ensures port { port.new ≡ port.old }
    {
        match &mut port.kind {
            Kind::First(own) => own.audit(&mut self.first),
            Kind::Second(own) => own.audit(&mut self.second),
            Kind::Third(own) => own.audit(&mut self.third),
            Kind::Fourth(own) => own.audit(&mut self.fourth),
            Kind::Spare => {}
        }
    }

    /// One event more that is no controller's step.
    pub(crate) fn raise_driver(&mut self, driver: &mut Driver<P0, P1, P2, P3, D>)
        ensures tally { self.new ≡ raised_driver self.old }
        ensures driver { driver.new ≡ driver.old + 1 }
    {
        driver.own.raise(&mut self.driver);
    }

    /// Says that the driver's share is the count of events that are no controller's step. It changes neither.
    pub(crate) fn audit_driver(&mut self, driver: &mut Driver<P0, P1, P2, P3, D>)
        ensures exact { driver.old ≡ self.old.driver }
        ensures tally { self.new ≡ self.old }
        ensures driver { driver.new ≡ driver.old }
    {
        driver.own.audit(&mut self.driver);
    }
}
