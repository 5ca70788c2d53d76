ghost use Rattle.std.specs.Prelude.{◌≡◌};
ghost use Rattle.dali_line.specs.Shares.{no_share};

use crate::own::Own;
use std::marker::{Model, PhantomData};
use std::sync::ledger::Ledger;

/// Which controller a port speaks for, with that controller's share.
#[derive(Drop)]
pub(crate) enum Kind<P0: Ledger, P1: Ledger, P2: Ledger, P3: Ledger> {
    First(Own<P0>),
    Second(Own<P1>),
    Third(Own<P2>),
    Fourth(Own<P3>),
    Spare,
}

/// The right to act for one controller of a line.
///
/// `Line::new` gives one for each controller. It cannot be copied, so its holder knows what its controller did. A spare
/// one, as `default` gives, speaks for no controller: its number is 255, and each call with it is UnknownController.
///
/// Contracts see its share: the controller's number, and how many events of the line's log are its steps.
#[derive(Drop)]
pub struct Port<P0: Ledger, P1: Ledger, P2: Ledger, P3: Ledger, D: Ledger> {
    pub(crate) kind: Kind<P0, P1, P2, P3>,
    line: PhantomData<D>,
}

impl<P0: Ledger, P1: Ledger, P2: Ledger, P3: Ledger, D: Ledger> Model for Port<P0, P1, P2, P3, D> {
    ghost use Rattle.dali_line.specs.Shares.{PortShare};

    ghost Value = { PortShare };

    ghost use Rattle.dali_line.specs.Ports.{port_share_of};

    ghost view = { λ p. port_share_of p.kind };
}

impl<P0: Ledger, P1: Ledger, P2: Ledger, P3: Ledger, D: Ledger> Port<P0, P1, P2, P3, D> {
    ghost use Rattle.dali_line.specs.Ports.{port_share_of};

    pub(crate) fn of(kind: Kind<P0, P1, P2, P3>) -> Port<P0, P1, P2, P3, D>
        ensures { result ≡ port_share_of kind }
    {
        Port {
            kind,
            line: PhantomData,
        }
    }

    /// The controller's number, 0 to 3; 255 of a spare port.
    pub fn controller(&self) -> u8
        ensures { result ≡ self.now.controller }
    {
        match &self.kind {
            Kind::First(_) => 0,
            Kind::Second(_) => 1,
            Kind::Third(_) => 2,
            Kind::Fourth(_) => 3,
            Kind::Spare => 255,
        }
    }
}

/// A spare port.
impl<P0: Ledger, P1: Ledger, P2: Ledger, P3: Ledger, D: Ledger> Default
    for Port<P0, P1, P2, P3, D> {
    ghost is_default = { λ p. p ≡ no_share };

    fn default() -> Port<P0, P1, P2, P3, D> {
        Port::of(Kind::Spare)
    }
}
