use crate::own::Own;
use std::marker::{Model, PhantomData};
use std::sync::ledger::Ledger;

/// The right to let things happen on a line that no controller does: on the bus, to its gear, and to its controllers,
/// which go down and come up.
///
/// `Line::new` gives one. Contracts see its share: how many events of the line's log are no controller's step.
#[derive(Drop)]
pub struct Driver<P0: Ledger, P1: Ledger, P2: Ledger, P3: Ledger, D: Ledger> {
    pub(crate) own: Own<D>,
    line: PhantomData<(P0, P1, P2, P3)>,
}

impl<P0: Ledger, P1: Ledger, P2: Ledger, P3: Ledger, D: Ledger> Model
    for Driver<P0, P1, P2, P3, D> {
    ghost use Rattle.std.specs.Prelude.{ℕ};

    ghost Value = { ℕ };

    ghost view = { λ d. d.own };
}

impl<P0: Ledger, P1: Ledger, P2: Ledger, P3: Ledger, D: Ledger> Driver<P0, P1, P2, P3, D> {
    ghost use Rattle.std.specs.Prelude.{◌≡◌};

    pub(crate) fn of(own: Own<D>) -> Driver<P0, P1, P2, P3, D>
        ensures { result ≡ own }
    {
        Driver {
            own,
            line: PhantomData,
        }
    }
}
