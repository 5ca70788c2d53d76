//! A machine as plain bytes.

ghost use Rattle.std.specs.Prelude.{◌≡◌, MatchOption};
ghost use Rattle.dali_controller.specs.Machine.{Machine};
ghost use Rattle.dali_c.specs.Machines.{IsRead, Holds};
ghost use Rattle.dali_c.specs.Calls.{refusal};

use crate::records::PlainRecords;
use crate::state::{PlainState, VERSION};
use crate::status;
use dali_controller::State;

/// A machine between two inputs: its state, and the records that it goes by.
#[repr(C)]
#[derive(Clone, Copy)]
pub struct PlainMachine {
    pub state: PlainState,
    pub records: PlainRecords,
}

impl PlainMachine {
    /// Its state. None if it is no machine between two inputs.
    pub(crate) fn read(&self) -> Option<State>
        ensures { MatchOption result
            ((m : Machine) → Holds self.now m → ⊥)
            (λ state. IsRead self.now state) }
    {
        let state = self.state.read()?;
        let records = self.records.read()?;
        if state.is_whole(&records) {
            Some(state)
        } else {
            None
        }
    }

    /// Why it is refused if it is none.
    pub(crate) fn refusal(&self) -> u8
        ensures { result ≡ refusal self.now }
    {
        if self.state.version == VERSION {
            status::NO_MACHINE
        } else {
            status::OTHER_VERSION
        }
    }
}
