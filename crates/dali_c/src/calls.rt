//! What C calls. Bytes that are none are refused, but by `dali_machine_go`: the one call with a condition.

ghost use Rattle.std.specs.Prelude.{◌≡◌, ◌<◌, ◌↔◌, ◌⊎◌, Bool, true, false, [], Option, Some, None, IsSome, IfSome};
ghost use Rattle.dali_script.specs.declared.records.Record.{Record};
ghost use Rattle.dali_script.specs.declared.orders.Input.{Input};
ghost use Rattle.dali_script.specs.declared.orders.Order.{Order};
ghost use Rattle.dali_script.specs.Records.{Fits, with_record};
ghost use Rattle.dali_script.specs.Pairs.{pairs_in};
ghost use Rattle.dali_script.specs.Due.{due_after, accepts, record_ordered};
ghost use Rattle.dali_controller.specs.Machine.{Machine, at_first};
ghost use Rattle.dali_controller.specs.Orders.{IsGiven, machine_after};
ghost use Rattle.dali_controller.specs.States.{machine_with};
ghost use Rattle.dali_controller.specs.Whole.{IsWhole};
ghost use Rattle.dali_wire.specs.declared.receiver.Receiver.{Receiver};
ghost use Rattle.dali_wire.specs.declared.window.Window.{Window};
ghost use Rattle.dali_wire.specs.Levels.{sent_levels, forward_bits};
ghost use Rattle.dali_wire.specs.Reception.{receiver_at_first, receiver_after, receiver_at, told_of};
ghost use Rattle.dali_wire.specs.Windows.{window_at_first, window_after, window_at, answer_at, passed};
ghost use Rattle.dali_c.specs.Codes.{input_of, bool_of, due_code};
ghost use Rattle.dali_c.specs.Orders.{record_of, order_of, HasNoMore, IsSentSo};
ghost use Rattle.dali_c.specs.Records.{kept_of, AreRecords, AreCleared};
ghost use Rattle.dali_c.specs.Machines.{VERSION, IsRead, Holds};
ghost use Rattle.dali_c.specs.Levels.{AreLevels};
ghost use Rattle.dali_c.specs.Receivers.{receiver_of, window_of, IsTold, IsHeard};
ghost use Rattle.dali_c.specs.Calls.{AnswersAdd, Steps, refusal, OK, NOT_DUE, NO_MACHINE, BAD_ARGUMENT, NO_RECORDS};
ghost use Rattle.dali_c.specs.Hosts.{HasStepped};
ghost use Rattle.dali_c.specs.Passes.{passes_after, next_after};
ghost use Rattle.dali_c.specs.Calls.{DOES_NOT_FIT, ADDRESS_TAKEN, RANDOM_TAKEN, NOT_RESERVED};

use crate::codes::{bool_of, due_code, input_of};
use crate::levels::PlainLevels;
use crate::machine::PlainMachine;
use crate::orders::{PlainOrder, PlainRecord};
use crate::passes::{PlainPasses, QUIET_RUNS};
use crate::receivers::{PlainHeard, PlainReceiver, PlainTold, PlainWindow};
use crate::records::PlainRecords;
use crate::state::VERSION;
use crate::status;
use dali_controller::State;
use dali_frame::{Forward, Short};
use dali_script::{AddError, Block, Due, Input, Order, Pairs, Record, Records};
use dali_wire::{Receiver, Window};

/// The version of the structs and calls.
#[unsafe(no_mangle)]
pub extern "C" fn dali_c_version() -> u8
    ensures { result ≡ VERSION }
{
    VERSION
}

/// The records of a controller that has kept none, for a block of short addresses.
#[unsafe(no_mangle)]
pub extern "C" fn dali_records_new(records: &mut PlainRecords, first: u8, last: u8) -> u8
    ensures status { (result ≡ OK) ↔ ((first < 64) × (last < 64)) }
    ensures refused { (result ≡ OK) ⊎ (result ≡ BAD_ARGUMENT) }
    ensures records { result ≡ OK → AreRecords records.new
        × (kept_of records.new
        ≡ record { block = record { first = first; last = last }; reserved = []; enrolled = [] }) }
    ensures cleared { result ≡ OK → AreCleared records.new }
    ensures untouched { (result ≡ OK → ⊥) → records.new ≡ records.old }
{
    let (Some(first), Some(last)) = (Short::of(first), Short::of(last)) else {
        return status::BAD_ARGUMENT;
    };
    *records = PlainRecords::new(Block { first, last });
    status::OK
}

/// Adds a record that was kept, as it was read from a store.
#[unsafe(no_mangle)]
pub extern "C" fn dali_records_add(records: &mut PlainRecords, addition: &PlainRecord) -> u8
    ensures no_records { (result ≡ NO_RECORDS) ↔ (AreRecords records.old → ⊥) }
    ensures bad { (result ≡ BAD_ARGUMENT) ↔ (AreRecords records.old × (record_of addition.now ≡ None)) }
    ensures status { (x : Record) → AreRecords records.old → record_of addition.now ≡ Some x
        → AnswersAdd (kept_of records.old) x result }
    ensures added { (x : Record) → result ≡ OK → record_of addition.now ≡ Some x
        → AreRecords records.new × (kept_of records.new ≡ with_record (kept_of records.old) x) }
    ensures cleared { AreCleared records.old → AreCleared records.new }
    ensures untouched { (result ≡ OK → ⊥) → records.new ≡ records.old }
{
    let Some(kept) = records.read() else {
        return status::NO_RECORDS;
    };
    let Some(added) = addition.read() else {
        return status::BAD_ARGUMENT;
    };
    let status = addition_status(&kept, &added);
    if status == status::OK {
        records.add(added);
    }
    status
}

/// Whether a record fits and may be added, or why not.
fn addition_status(kept: &Records<'_>, added: &Record) -> u8
    ensures status { AnswersAdd kept.now added.now result }
    ensures named { (result ≡ OK) ⊎ (result ≡ DOES_NOT_FIT) ⊎ (result ≡ ADDRESS_TAKEN) ⊎ (result ≡ RANDOM_TAKEN)
        ⊎ (result ≡ NOT_RESERVED) }
{
    if !kept.fits(added) {
        return status::DOES_NOT_FIT;
    }
    match kept.refusal(added) {
        None => status::OK,
        Some(AddError::AddressTaken) => status::ADDRESS_TAKEN,
        Some(AddError::RandomTaken) => status::RANDOM_TAKEN,
        Some(AddError::NotReserved) => status::NOT_RESERVED,
    }
}

/// A machine that has not started, with these records.
#[unsafe(no_mangle)]
pub extern "C" fn dali_machine_new(machine: &mut PlainMachine, records: &PlainRecords) -> u8
    ensures status { (result ≡ OK) ↔ AreRecords records.now }
    ensures refused { (result ≡ OK) ⊎ (result ≡ NO_RECORDS) }
    ensures machine { result ≡ OK → Holds machine.new (at_first 0 (kept_of records.now)) }
    ensures bytes { result ≡ OK → machine.new.records ≡ records.now }
    ensures untouched { (result ≡ OK → ⊥) → machine.new ≡ machine.old }
{
    let Some(_) = records.read() else {
        return status::NO_RECORDS;
    };
    machine.state.set(&State::new(0));
    machine.records = *records;
    status::OK
}

/// Whether a struct holds a machine.
#[unsafe(no_mangle)]
pub extern "C" fn dali_machine_check(machine: &PlainMachine) -> u8
    ensures machine { result ≡ OK → (m : Machine) × Holds machine.now m }
    ensures no_machine { ((m : Machine) → Holds machine.now m → ⊥) → result ≡ refusal machine.now }
    ensures held { (m : Machine) → Holds machine.now m → result ≡ OK }
    ensures named { (result ≡ OK) ⊎ (result ≡ refusal machine.now) }
{
    match machine.read() {
        Some(_) => status::OK,
        None => machine.refusal(),
    }
}

/// Tells a machine what happened, and gives its next order.
#[unsafe(no_mangle)]
pub extern "C" fn dali_machine_step(
    machine: &mut PlainMachine,
    input: u8,
    byte: u8,
    order: &mut PlainOrder,
) -> u8
    ensures done { (m : Machine) → (i : Input) → Holds machine.old m → input_of input byte ≡ Some i
        → accepts (due_after m.last) i ≡ true → (result ≡ OK) × Steps m i machine.new order.new }
    ensures not_due { (m : Machine) → (i : Input) → Holds machine.old m → input_of input byte ≡ Some i
        → accepts (due_after m.last) i ≡ false → result ≡ NOT_DUE }
    ensures ok { result ≡ OK → HasStepped machine.old input byte machine.new order.new }
    ensures bad { (m : Machine) → Holds machine.old m → input_of input byte ≡ None → result ≡ BAD_ARGUMENT }
    ensures no_machine { ((m : Machine) → Holds machine.old m → ⊥) → result ≡ refusal machine.old }
    ensures held { (result ≡ refusal machine.old → ⊥) → (m : Machine) × Holds machine.old m }
    ensures named { (result ≡ OK) ⊎ (result ≡ NOT_DUE) ⊎ (result ≡ refusal machine.old) ⊎ (result ≡ BAD_ARGUMENT) }
    ensures cleared { AreCleared machine.old.records → AreCleared machine.new.records }
    ensures untouched { (result ≡ OK → ⊥) → (machine.new ≡ machine.old) × (order.new ≡ order.old) }
{
    match machine.read() {
        Some(mut state) => go_on(machine, &mut state, input, byte, order),
        None => machine.refusal(),
    }
}

/// The same, if it is known that the struct holds a machine.
#[unsafe(no_mangle)]
pub extern "C" fn dali_machine_go(
    machine: &mut PlainMachine,
    input: u8,
    byte: u8,
    order: &mut PlainOrder,
) -> u8
    requires { (m : Machine) × Holds machine.old m }

    ensures done { (m : Machine) → (i : Input) → Holds machine.old m → input_of input byte ≡ Some i
        → accepts (due_after m.last) i ≡ true → (result ≡ OK) × Steps m i machine.new order.new }
    ensures ok { result ≡ OK → HasStepped machine.old input byte machine.new order.new }
    ensures not_due { (m : Machine) → (i : Input) → Holds machine.old m → input_of input byte ≡ Some i
        → accepts (due_after m.last) i ≡ false → result ≡ NOT_DUE }
    ensures bad { input_of input byte ≡ None → result ≡ BAD_ARGUMENT }
    ensures named { (result ≡ OK) ⊎ (result ≡ NOT_DUE) ⊎ (result ≡ BAD_ARGUMENT) }
    ensures cleared { AreCleared machine.old.records → AreCleared machine.new.records }
    ensures untouched { (result ≡ OK → ⊥) → (machine.new ≡ machine.old) × (order.new ≡ order.old) }
{
    match machine.state.read() {
        Some(mut state) => go_on(machine, &mut state, input, byte, order),
        // It is required that the struct holds a machine, so its state can be read.
        None => unreachable!(),
    }
}

/// A machine in this state is told what happened, and gives its next order.
fn go_on(
    machine: &mut PlainMachine,
    state: &mut State,
    input: u8,
    byte: u8,
    order: &mut PlainOrder,
) -> u8
    requires { IsRead machine.old state.old }

    ensures done { (m : Machine) → (i : Input) → Holds machine.old m → input_of input byte ≡ Some i
        → accepts (due_after m.last) i ≡ true → (result ≡ OK) × Steps m i machine.new order.new }
    ensures not_due { (m : Machine) → (i : Input) → Holds machine.old m → input_of input byte ≡ Some i
        → accepts (due_after m.last) i ≡ false → result ≡ NOT_DUE }
    ensures bad { input_of input byte ≡ None → result ≡ BAD_ARGUMENT }
    ensures named { (result ≡ OK) ⊎ (result ≡ NOT_DUE) ⊎ (result ≡ BAD_ARGUMENT) }
    ensures cleared { AreCleared machine.old.records → AreCleared machine.new.records }
    ensures untouched { (result ≡ OK → ⊥) → (machine.new ≡ machine.old) × (order.new ≡ order.old) }
{
    let Some(told) = input_of(input, byte) else {
        return status::BAD_ARGUMENT;
    };
    match step(state, &mut machine.records, told) {
        Some(_) => {
            machine.state.set(state);
            *order = machine.state.last;
            status::OK
        }
        None => status::NOT_DUE,
    }
}

/// A machine with these records takes an input. None if it waits for something else.
pub(crate) fn step(state: &mut State, records: &mut PlainRecords, told: Input) -> Option<Order>
    requires records { AreRecords records.old }
    requires whole { IsWhole (machine_with state.old (kept_of records.old)) }

    ensures due { IsSome result ↔ (accepts (due_after state.old.last) told ≡ true) }
    ensures not_due { result ≡ None → records.new ≡ records.old }
    ensures kept { AreRecords records.new }
    ensures given { IfSome result (IsGiven (machine_with state.old (kept_of records.old)) told) }
    ensures state { IfSome result (λ order. machine_with state.new (kept_of records.new)
        ≡ machine_after (machine_with state.old (kept_of records.old)) told order) }
    ensures whole { IfSome result (λ _. IsWhole (machine_with state.new (kept_of records.new))) }
    ensures fits { IfSome result (λ order. IfSome (record_ordered (Some order)) (Fits (kept_of records.old).block)) }
    ensures cleared { AreCleared records.old → AreCleared records.new }
{
    let added = state.kept_by(told);
    records.keep(added);
    match state.step(&records.known(), told) {
        Ok(order) => Some(order),
        Err(_) => None,
    }
}

/// What a machine waits for. It reads the last order alone.
#[unsafe(no_mangle)]
pub extern "C" fn dali_machine_due(machine: &PlainMachine, due: &mut u8) -> u8
    ensures due { (m : Machine) → Holds machine.now m → (result ≡ OK) × (due.new ≡ due_code (due_after m.last)) }
    ensures read { (last : Option Order) → order_of machine.now.state.last ≡ Some last
        → (result ≡ OK) × (due.new ≡ due_code (due_after last)) }
    ensures no_order { (result ≡ NO_MACHINE) ↔ (order_of machine.now.state.last ≡ None) }
    ensures named { (result ≡ OK) ⊎ (result ≡ NO_MACHINE) }
    ensures untouched { (result ≡ OK → ⊥) → due.new ≡ due.old }
{
    let Some(last) = machine.state.last.read() else {
        return status::NO_MACHINE;
    };
    *due = due_code(Due::after(last));
    status::OK
}

/// What a machine ordered last.
#[unsafe(no_mangle)]
pub extern "C" fn dali_machine_last(machine: &PlainMachine, order: &mut PlainOrder) -> u8
    ensures last { (m : Machine) → Holds machine.now m
        → (result ≡ OK) × (order_of order.new ≡ Some m.last) × HasNoMore order.new m.last
        × IsSentSo order.new m.trace m.last }
    ensures no_machine { ((m : Machine) → Holds machine.now m → ⊥) → result ≡ refusal machine.now }
    ensures held { result ≡ OK → (m : Machine) × Holds machine.now m }
    ensures named { (result ≡ OK) ⊎ (result ≡ refusal machine.now) }
    ensures untouched { (result ≡ OK → ⊥) → order.new ≡ order.old }
{
    let Some(read) = machine.read() else {
        return machine.refusal();
    };
    *order = PlainOrder::of(read.last, read.trace.entries());
    status::OK
}

/// The records of a machine.
#[unsafe(no_mangle)]
pub extern "C" fn dali_machine_records(machine: &PlainMachine, records: &mut PlainRecords) -> u8
    ensures records { (m : Machine) → Holds machine.now m
        → (result ≡ OK) × AreRecords records.new × (kept_of records.new ≡ m.kept) }
    ensures bytes { result ≡ OK → records.new ≡ machine.now.records }
    ensures no_machine { ((m : Machine) → Holds machine.now m → ⊥) → result ≡ refusal machine.now }
    ensures held { result ≡ OK → (m : Machine) × Holds machine.now m }
    ensures named { (result ≡ OK) ⊎ (result ≡ refusal machine.now) }
    ensures untouched { (result ≡ OK → ⊥) → records.new ≡ records.old }
{
    let Some(_) = machine.read() else {
        return machine.refusal();
    };
    *records = machine.records;
    status::OK
}

/// The enrolment table of a machine.
#[unsafe(no_mangle)]
pub extern "C" fn dali_machine_table(machine: &PlainMachine, table: &mut Pairs) -> u8
    ensures table { (m : Machine) → Holds machine.now m
        → (result ≡ OK) × (pairs_in table.new ≡ m.kept.enrolled) }
    ensures no_machine { ((m : Machine) → Holds machine.now m → ⊥) → result ≡ refusal machine.now }
    ensures held { result ≡ OK → (m : Machine) × Holds machine.now m }
    ensures named { (result ≡ OK) ⊎ (result ≡ refusal machine.now) }
    ensures untouched { (result ≡ OK → ⊥) → table.new ≡ table.old }
{
    let Some(_) = machine.read() else {
        return machine.refusal();
    };
    *table = machine.records.enrolled;
    status::OK
}

/// The runs of a controller, before the first one.
#[unsafe(no_mangle)]
pub extern "C" fn dali_passes_new(passes: &mut PlainPasses) -> u8
    ensures { (result ≡ OK) × (passes.new ≡ record { quiet = 0; has_committed = 0; has_heard = 0 }) }
{
    *passes = PlainPasses::NONE;
    status::OK
}

/// A machine was told an input, and has ordered this: whether another run is to be begun, or what it came to.
#[unsafe(no_mangle)]
pub extern "C" fn dali_passes_step(
    passes: &mut PlainPasses,
    input: u8,
    order: &PlainOrder,
    next: &mut u8,
) -> u8
    ensures done { (o : Order) → passes.old.quiet < 3 → order_of order.now ≡ Some (Some o)
        → (result ≡ OK) × (passes.new ≡ passes_after passes.old input o)
        × (next.new ≡ next_after passes.old input o) }
    ensures bad { (result ≡ BAD_ARGUMENT) ↔ ((passes.old.quiet < 3 → ⊥)
        ⊎ (order_of order.now ≡ None) ⊎ (order_of order.now ≡ Some None)) }
    ensures named { (result ≡ OK) ⊎ (result ≡ BAD_ARGUMENT) }
    ensures untouched { (result ≡ OK → ⊥) → (passes.new ≡ passes.old) × (next.new ≡ next.old) }
{
    if passes.quiet >= QUIET_RUNS {
        return status::BAD_ARGUMENT;
    }
    let Some(Some(ordered)) = order.read() else {
        return status::BAD_ARGUMENT;
    };
    *next = passes.step(input, ordered);
    status::OK
}

/// The levels of a forward frame, with its stop condition.
#[unsafe(no_mangle)]
pub extern "C" fn dali_levels_new(levels: &mut PlainLevels, address_byte: u8, opcode_byte: u8) -> u8
    ensures { (result ≡ OK) × AreLevels levels.new.is_low
        (sent_levels (forward_bits (record { address_byte = address_byte; opcode_byte = opcode_byte }))) }
{
    *levels = PlainLevels::of(Forward {
        address_byte,
        opcode_byte,
    });
    status::OK
}

/// A receiver of a bus that has been high for the time of a stop condition.
#[unsafe(no_mangle)]
pub extern "C" fn dali_receiver_new(receiver: &mut PlainReceiver) -> u8
    ensures { (result ≡ OK) × (receiver_of receiver.new ≡ Some receiver_at_first) }
{
    *receiver = PlainReceiver::of(Receiver::new());
    status::OK
}

/// An edge, after which the bus is low or high, so many µs after the last one: the frame that had ended before, if
/// `dali_receiver_time` did not tell it.
#[unsafe(no_mangle)]
pub extern "C" fn dali_receiver_edge(
    receiver: &mut PlainReceiver,
    is_low: u8,
    micros: u32,
    told: &mut PlainTold,
) -> u8
    ensures done { (r : Receiver) → (low : Bool) → receiver_of receiver.old ≡ Some r → bool_of is_low ≡ Some low
        → (result ≡ OK) × (receiver_of receiver.new ≡ Some (receiver_after r low micros))
        × IsTold told.new (told_of r micros) }
    ensures bad { (result ≡ BAD_ARGUMENT) ↔ ((receiver_of receiver.old ≡ None) ⊎ (bool_of is_low ≡ None)) }
    ensures named { (result ≡ OK) ⊎ (result ≡ BAD_ARGUMENT) }
    ensures untouched { (result ≡ OK → ⊥) → (receiver.new ≡ receiver.old) × (told.new ≡ told.old) }
{
    let (Some(mut running), Some(is_low)) = (receiver.read(), bool_of(is_low)) else {
        return status::BAD_ARGUMENT;
    };
    *told = PlainTold::of(running.edge(is_low, micros));
    *receiver = PlainReceiver::of(running);
    status::OK
}

/// So many µs have passed since the last edge: the frame that has ended by now, once.
#[unsafe(no_mangle)]
pub extern "C" fn dali_receiver_time(
    receiver: &mut PlainReceiver,
    micros: u32,
    told: &mut PlainTold,
) -> u8
    ensures done { (r : Receiver) → receiver_of receiver.old ≡ Some r
        → (result ≡ OK) × (receiver_of receiver.new ≡ Some (receiver_at r micros))
        × IsTold told.new (told_of r micros) }
    ensures bad { (result ≡ BAD_ARGUMENT) ↔ (receiver_of receiver.old ≡ None) }
    ensures named { (result ≡ OK) ⊎ (result ≡ BAD_ARGUMENT) }
    ensures untouched { (result ≡ OK → ⊥) → (receiver.new ≡ receiver.old) × (told.new ≡ told.old) }
{
    let Some(mut running) = receiver.read() else {
        return status::BAD_ARGUMENT;
    };
    *told = PlainTold::of(running.time(micros));
    *receiver = PlainReceiver::of(running);
    status::OK
}

/// A window, at the last edge of a forward frame.
#[unsafe(no_mangle)]
pub extern "C" fn dali_window_new(window: &mut PlainWindow) -> u8
    ensures { (result ≡ OK) × (window_of window.new ≡ Some window_at_first) }
{
    *window = PlainWindow::of(Window::new());
    status::OK
}

/// An edge, after which the bus is low or high, so many µs after the last one.
#[unsafe(no_mangle)]
pub extern "C" fn dali_window_edge(window: &mut PlainWindow, is_low: u8, micros: u32) -> u8
    ensures done { (w : Window) → (low : Bool) → window_of window.old ≡ Some w → bool_of is_low ≡ Some low
        → (result ≡ OK) × (window_of window.new ≡ Some (window_after w low micros)) }
    ensures bad { (result ≡ BAD_ARGUMENT) ↔ ((window_of window.old ≡ None) ⊎ (bool_of is_low ≡ None)) }
    ensures named { (result ≡ OK) ⊎ (result ≡ BAD_ARGUMENT) }
    ensures untouched { (result ≡ OK → ⊥) → window.new ≡ window.old }
{
    let (Some(mut running), Some(is_low)) = (window.read(), bool_of(is_low)) else {
        return status::BAD_ARGUMENT;
    };
    running.edge(is_low, micros);
    *window = PlainWindow::of(running);
    status::OK
}

/// So many µs have passed since the last edge: what a machine is told, once the window is over.
#[unsafe(no_mangle)]
pub extern "C" fn dali_window_time(
    window: &mut PlainWindow,
    micros: u32,
    heard: &mut PlainHeard,
) -> u8
    ensures done { (w : Window) → window_of window.old ≡ Some w
        → (result ≡ OK) × (window_of window.new ≡ Some (window_at w micros))
        × IsHeard heard.new (answer_at (window_at w micros) (passed w micros)) }
    ensures ends { (w : Window) → window_of window.old ≡ Some w → 50000 < passed w micros → heard.new.is_over ≡ 1 }
    ensures bad { (result ≡ BAD_ARGUMENT) ↔ (window_of window.old ≡ None) }
    ensures named { (result ≡ OK) ⊎ (result ≡ BAD_ARGUMENT) }
    ensures untouched { (result ≡ OK → ⊥) → (window.new ≡ window.old) × (heard.new ≡ heard.old) }
{
    let Some(mut running) = window.read() else {
        return status::BAD_ARGUMENT;
    };
    *heard = PlainHeard::of(running.time(micros));
    *window = PlainWindow::of(running);
    status::OK
}
