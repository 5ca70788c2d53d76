//! A run that is to end before its time.

ghost use Rattle.std.specs.Prelude.{◌≡◌, ◌⊎◌, true, false, Some, None};
ghost use Rattle.dali_script.specs.declared.orders.Input.{Input};
ghost use Rattle.dali_script.specs.Due.{due_after, accepts};
ghost use Rattle.dali_frame.specs.Random.{value_of};
ghost use Rattle.dali_controller.specs.Legs.{way_on, is_searching, from_on, silences_on, search_on, ascent_on};
ghost use Rattle.dali_controller.specs.Machine.{Machine};
ghost use Rattle.dali_controller.specs.States.{machine_with};
ghost use Rattle.dali_controller.specs.Whole.{IsWhole};
ghost use Rattle.dali_c.specs.Codes.{input_of};
ghost use Rattle.dali_c.specs.Records.{AreCleared};
ghost use Rattle.dali_c.specs.Machines.{IsRead, Holds};
ghost use Rattle.dali_c.specs.Calls.{refusal, OK, NOT_DUE, BAD_ARGUMENT};
ghost use Rattle.dali_c.specs.Stops.{is_unfinished, is_needed, may_end, ended, Stops, HasStopped};

use crate::calls::step;
use crate::codes::input_of;
use crate::machine::PlainMachine;
use crate::orders::PlainOrder;
use crate::progress::{enrolled_for, reserved_for};
use crate::status;
use dali_controller::{Leg, Purpose, State};
use dali_frame::{Priority, Random24};
use dali_script::{End, Order, Records, Trace};
use dali_search::{Ascent, Search};
use dali_special::Command;

/// Tells a machine what happened, as `dali_machine_step` does, and ends its run if nothing is outstanding then.
#[unsafe(no_mangle)]
pub extern "C" fn dali_machine_stop(
    machine: &mut PlainMachine,
    input: u8,
    byte: u8,
    order: &mut PlainOrder,
) -> u8
    ensures done { (m : Machine) → (i : Input) → Holds machine.old m → input_of input byte ≡ Some i
        → accepts (due_after m.last) i ≡ true → (result ≡ OK) × Stops m i machine.new order.new }
    ensures not_due { (m : Machine) → (i : Input) → Holds machine.old m → input_of input byte ≡ Some i
        → accepts (due_after m.last) i ≡ false → result ≡ NOT_DUE }
    ensures ok { result ≡ OK → HasStopped machine.old input byte machine.new order.new }
    ensures bad { (m : Machine) → Holds machine.old m → input_of input byte ≡ None → result ≡ BAD_ARGUMENT }
    ensures no_machine { ((m : Machine) → Holds machine.old m → ⊥) → result ≡ refusal machine.old }
    ensures held { (result ≡ refusal machine.old → ⊥) → (m : Machine) × Holds machine.old m }
    ensures named { (result ≡ OK) ⊎ (result ≡ NOT_DUE) ⊎ (result ≡ refusal machine.old) ⊎ (result ≡ BAD_ARGUMENT) }
    ensures cleared { AreCleared machine.old.records → AreCleared machine.new.records }
    ensures untouched { (result ≡ OK → ⊥) → (machine.new ≡ machine.old) × (order.new ≡ order.old) }
{
    match machine.read() {
        Some(mut state) => stop_on(machine, &mut state, input, byte, order),
        None => machine.refusal(),
    }
}

/// A machine in this state is told what happened, and ends if it may.
fn stop_on(
    machine: &mut PlainMachine,
    state: &mut State,
    input: u8,
    byte: u8,
    order: &mut PlainOrder,
) -> u8
    requires { IsRead machine.old state.old }

    ensures done { (m : Machine) → (i : Input) → Holds machine.old m → input_of input byte ≡ Some i
        → accepts (due_after m.last) i ≡ true → (result ≡ OK) × Stops m i machine.new order.new }
    ensures not_due { (m : Machine) → (i : Input) → Holds machine.old m → input_of input byte ≡ Some i
        → accepts (due_after m.last) i ≡ false → result ≡ NOT_DUE }
    ensures bad { input_of input byte ≡ None → result ≡ BAD_ARGUMENT }
    ensures named { (result ≡ OK) ⊎ (result ≡ NOT_DUE) ⊎ (result ≡ BAD_ARGUMENT) }
    ensures cleared { AreCleared machine.old.records → AreCleared machine.new.records }
    ensures untouched { (result ≡ OK → ⊥) → (machine.new ≡ machine.old) × (order.new ≡ order.old) }
{
    let Some(told) = input_of(input, byte) else {
        return status::BAD_ARGUMENT;
    };
    match step(state, &mut machine.records, told) {
        Some(_) => {
            end(state, &machine.records.known());
            machine.state.set(state);
            *order = machine.state.last;
            status::OK
        }
        None => status::NOT_DUE,
    }
}

/// A machine ends, if nothing is outstanding.
fn end(state: &mut State, kept: &Records<'_>)
    requires { IsWhole (machine_with state.old kept.now) }

    ensures state { machine_with state.new kept.now ≡ ended (machine_with state.old kept.now) }
    ensures whole { IsWhole (machine_with state.new kept.now) }
    ensures id { state.new.id ≡ state.old.id }
{
    if may_end(state, kept) {
        state.trace = Trace::new();
        state.last = Some(Order::Put(Priority::FIRST, Command::Terminate.write()));
        state.tries = 0;
        state.purpose = Purpose::Closing(End::GaveUp);
        state.leg = searched(&state.leg);
    }
}

/// Whether a machine orders a frame that begins a transaction which the end does not need.
fn may_end(state: &State, kept: &Records<'_>) -> bool
    ensures { result ≡ may_end (machine_with state.now kept.now) state.now.last }
{
    match state.last {
        Some(Order::Put(priority, _)) => {
            priority.number() == Priority::FIRST.number() && !is_needed(state, kept)
        }
        None | Some(Order::Commit(_) | Order::Done(_) | Order::Halt(_)) => false,
    }
}

/// Whether the end needs the transaction that begins: the visit of gear for which a reservation is unfinished, or a
/// close.
fn is_needed(state: &State, kept: &Records<'_>) -> bool
    ensures { result ≡ is_needed kept.now state.now.purpose (value_of state.now.number) }
{
    match state.purpose {
        Purpose::Visiting => is_unfinished(kept, state.number.value()),
        Purpose::Closing(_) => true,
        Purpose::Opening
        | Purpose::Probing
        | Purpose::Hunting
        | Purpose::Resolving(_)
        | Purpose::Asking(_)
        | Purpose::Calling
        | Purpose::Drawing
        | Purpose::PassingOver => false,
    }
}

/// Whether a short address is reserved for the gear at a random address, and the gear is not enrolled.
fn is_unfinished(kept: &Records<'_>, random: Random24) -> bool
    ensures { result ≡ is_unfinished kept.now random }
{
    let is_reserved = reserved_for(kept, random).is_some();
    is_reserved && enrolled_for(kept, random).is_none()
}

/// The same way, as one on which gear are searched.
fn searched(leg: &Leg) -> Leg
    ensures way { way_on result ≡ way_on leg.now }
    ensures searching { is_searching result ≡ true }
    ensures from { from_on result ≡ 64 }
    ensures silences { silences_on result ≡ 0 }
    ensures search { search_on result ≡ search_on leg.now }
    ensures ascent { ascent_on result ≡ ascent_on leg.now }
{
    match leg {
        Leg::Revisiting { .. } => Leg::Searching(Search::new()),
        Leg::Asking { .. } => Leg::Hunting(Ascent::new()),
        Leg::Searching(search) => Leg::Searching(search.copy()),
        Leg::Hunting(ascent) => Leg::Hunting(ascent.copy()),
    }
}
