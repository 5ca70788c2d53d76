//! How far a machine is.

ghost use Rattle.std.specs.Prelude.{◌≡◌, ◌⊎◌};
ghost use Rattle.dali_controller.specs.Course.{address_for};
ghost use Rattle.dali_controller.specs.Machine.{Machine};
ghost use Rattle.dali_controller.specs.States.{machine_with};
ghost use Rattle.dali_c.specs.Calls.{refusal, OK};
ghost use Rattle.dali_c.specs.Machines.{Holds};
ghost use Rattle.dali_c.specs.Progress.{phase_by, phase_of, address_about, IsProgress};
ghost use Rattle.dali_c.specs.Records.{kept_of, AreRecords};

use crate::machine::PlainMachine;
use crate::records::PlainRecords;
use crate::status;
use dali_controller::{Purpose, State};
use dali_frame::{Random24, Short};
use dali_script::{Order, Records};

/// No short address.
const NONE: u8 = 64;

/// What a machine does, which short address it is about, and how many gear are enrolled.
#[repr(C)]
#[derive(Clone, Copy)]
pub struct PlainProgress {
    pub phase: u8,
    pub short_address: u8,
    pub gear: u8,
}

/// How far a machine is.
#[unsafe(no_mangle)]
pub extern "C" fn dali_machine_progress(machine: &PlainMachine, progress: &mut PlainProgress) -> u8
    ensures progress { (m : Machine) → Holds machine.now m → (result ≡ OK) × IsProgress progress.new m }
    ensures no_machine { ((m : Machine) → Holds machine.now m → ⊥) → result ≡ refusal machine.now }
    ensures held { result ≡ OK → (m : Machine) × Holds machine.now m }
    ensures named { (result ≡ OK) ⊎ (result ≡ refusal machine.now) }
    ensures untouched { (result ≡ OK → ⊥) → progress.new ≡ progress.old }
{
    let Some(state) = machine.read() else {
        return machine.refusal();
    };
    *progress = PlainProgress::of(&state, &machine.records);
    status::OK
}

impl PlainProgress {
    /// That of a machine in this state, with these records.
    fn of(state: &State, records: &PlainRecords) -> PlainProgress
        requires { AreRecords records.now }
        ensures { IsProgress result (machine_with state.now (kept_of records.now)) }
    {
        PlainProgress {
            phase: phase_of(state.last, state.purpose),
            short_address: address_about(state, &records.known()),
            gear: records.enrolled.as_slice().len() as u8,
        }
    }
}

fn phase_of(last: Option<Order>, purpose: Purpose) -> u8
    ensures { result ≡ phase_of last purpose }
{
    match last {
        None => 0,
        Some(Order::Put(..) | Order::Commit(_)) => phase_by(purpose),
        Some(Order::Done(_) | Order::Halt(_)) => 5,
    }
}

fn phase_by(purpose: Purpose) -> u8
    ensures { result ≡ phase_by purpose }
{
    match purpose {
        Purpose::Asking(_) | Purpose::Resolving(_) => 1,
        Purpose::Opening
        | Purpose::Probing
        | Purpose::Hunting
        | Purpose::Calling
        | Purpose::Drawing
        | Purpose::PassingOver => 2,
        Purpose::Visiting => 3,
        Purpose::Closing(_) => 4,
    }
}

fn address_about(state: &State, kept: &Records<'_>) -> u8
    ensures { result ≡ address_about (machine_with state.now kept.now) state.now.purpose }
{
    match state.purpose {
        Purpose::Asking(short) | Purpose::Resolving(short) => short.number(),
        Purpose::Visiting => match reserved_for(kept, state.number.value()) {
            Some(short) => short.number(),
            None => NONE,
        },
        Purpose::Opening
        | Purpose::Probing
        | Purpose::Hunting
        | Purpose::Closing(_)
        | Purpose::Calling
        | Purpose::Drawing
        | Purpose::PassingOver => NONE,
    }
}

/// The short address that is reserved for the gear at a random address.
pub(crate) fn reserved_for(kept: &Records<'_>, random: Random24) -> Option<Short>
    ensures { result ≡ address_for kept.now.reserved random }
{
    kept.reserved_for(random)
}

/// The short address with which the gear at a random address is enrolled.
pub(crate) fn enrolled_for(kept: &Records<'_>, random: Random24) -> Option<Short>
    ensures { result ≡ address_for kept.now.enrolled random }
{
    kept.enrolled_for(random)
}
