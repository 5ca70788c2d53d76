//! The texts of reports, of benches and of sites.
#![tactic(auto, using(std::proofs::lemmas::List::append_assoc, std::proofs::lemmas::Fmt::hex_byte))]

ghost use Rattle.std.specs.Prelude.{◌≡◌, ◌++◌, OnOk, string_bytes};
ghost use Rattle.dali_replay.specs.Text.{heard_text, power_text, state_text, short_text, condition_text};
ghost use Rattle.dali_replay.specs.Text.{addresses_text, gear_text, gear_texts, ok_text, refused_text};
ghost use Rattle.dali_replay.specs.Text.{commit_text, put_text, order_text, ordered_text};
ghost use Rattle.dali_replay.specs.Text.{kept_text, offered_text, destroyed_text, sent_text, report_text};
ghost use Rattle.dali_replay.specs.Text.{collided_text, owner_text, lapse_text, ran_text, entry_text, entries_text};
ghost use Rattle.dali_replay.specs.Text.{table_text};
ghost use Rattle.dali_frame.specs.Hex.{forward_text};

use dali_frame::{Answer, Forward, Priority, Short};
use dali_gear::{Gear, InitialisationState, Row};
use dali_script::{Order, Pair, Record};
use dali_world::{Refusal, Report};
use std::alloc::AllocError;
use std::str;

/// The line of a call that answers nothing.
pub fn push_ok(text: &mut String) -> Result<(), AllocError>
    ensures { OnOk result (string_bytes text.new ≡ string_bytes text.old ++ ok_text) }
{
    text.push_str("ok\n")
}

/// The four digits of a frame.
fn push_frame(text: &mut String, frame: Forward) -> Result<(), AllocError>
    ensures { OnOk result (string_bytes text.new ≡ string_bytes text.old ++ forward_text frame) }
{
    let mut digits = [0; 4];
    frame.write_hex(&mut digits);
    match str::from_utf8(&digits) {
        Ok(digits) => text.push_str(digits),
        // Never so, since digits are text; the frame spells itself all the same.
        Err(_) => write!(text, "{frame}"),
    }
}

/// A frame, and what was heard after it.
pub fn push_heard(text: &mut String, frame: Forward, answer: Answer) -> Result<(), AllocError>
    ensures { OnOk result (string_bytes text.new ≡ string_bytes text.old ++ heard_text frame answer) }
{
    push_frame(text, frame)?;
    match answer {
        Answer::Silence => text.push_str(" silence\n"),
        Answer::Byte(byte) => write!(text, " byte {byte:02X}\n"),
        Answer::Damaged => text.push_str(" damaged\n"),
    }
}

pub(crate) fn power_name(powered: bool) -> &'static str
    ensures { result.now ≡ power_text powered }
{
    if powered { "on" } else { "off" }
}

pub(crate) fn state_name(state: InitialisationState) -> &'static str
    ensures { result.now ≡ state_text state }
{
    match state {
        InitialisationState::Disabled => "disabled",
        InitialisationState::Enabled => "enabled",
        InitialisationState::Withdrawn => "withdrawn",
    }
}

fn push_short(text: &mut String, short: Option<Short>) -> Result<(), AllocError>
    ensures { OnOk result (string_bytes text.new ≡ string_bytes text.old ++ short_text short) }
{
    match short {
        None => text.push_str("-"),
        Some(short) => {
            let number = short.number();
            write!(text, "{number}")
        }
    }
}

fn push_addresses(text: &mut String, gear: &Gear) -> Result<(), AllocError>
    ensures { OnOk result (string_bytes text.new ≡ string_bytes text.old ++ addresses_text gear.now) }
{
    let random = gear.random();
    let search = gear.search().value();
    write!(text, "{random} {search} ")?;
    push_short(text, gear.short())
}

fn push_condition(text: &mut String, number: usize, gear: &Gear) -> Result<(), AllocError>
    ensures { OnOk result (string_bytes text.new ≡ string_bytes text.old ++ condition_text number gear.now) }
{
    let power = power_name(gear.is_powered());
    let state = state_name(gear.state());
    write!(text, "gear {number} {power} {state} ")
}

/// The state of one gear.
#[tactic(auto, using(std::proofs::lemmas::List::append_assoc))]
pub fn push_gear(text: &mut String, number: usize, gear: &Gear) -> Result<(), AllocError>
    ensures { OnOk result (string_bytes text.new ≡ string_bytes text.old ++ gear_text number gear.now) }
{
    push_condition(text, number, gear)?;
    push_addresses(text, gear)?;
    text.push_str("\n")
}

/// The states of a row of gear.
pub fn push_all_gear(text: &mut String, row: &Row) -> Result<(), AllocError>
    ensures { OnOk result (string_bytes text.new ≡ string_bytes text.old ++ gear_texts 0 row.now) }
{
    for number in 0..row.len() {
        let gear = row.gear(number);
        push_gear(text, number, &gear)?;
    }
    Ok(())
}

/// A refusal, with its number and its name.
pub fn push_refused(text: &mut String, error: Refusal) -> Result<(), AllocError>
    ensures { OnOk result (string_bytes text.new ≡ string_bytes text.old ++ refused_text error) }
{
    let number = error.number();
    write!(text, "refused {number} {error}\n")
}

fn push_record(text: &mut String, added: &Record) -> Result<(), AllocError>
    ensures { OnOk result (string_bytes text.new ≡ string_bytes text.old ++ commit_text added.now) }
{
    text.push_str(added.name())?;
    let number = added.address().number();
    let random = added.random();
    write!(text, " {number} {random}")
}

fn push_put(text: &mut String, priority: u8, frame: Forward) -> Result<(), AllocError>
    ensures { OnOk result (string_bytes text.new ≡ string_bytes text.old ++ put_text priority frame) }
{
    write!(text, "put {priority} {frame}")
}

fn push_order(text: &mut String, order: Order) -> Result<(), AllocError>
    ensures { OnOk result (string_bytes text.new ≡ string_bytes text.old ++ order_text order) }
{
    match order {
        Order::Put(priority, frame) => push_put(text, priority.number(), frame),
        Order::Commit(record) => {
            text.push_str("commit ")?;
            push_record(text, &record)
        }
        Order::Done(end) => {
            let name = end.name();
            write!(text, "done {name}")
        }
        Order::Halt(fault) => {
            let name = fault.name();
            write!(text, "halt {name}")
        }
    }
}

/// What a controller ordered.
pub fn push_ordered(text: &mut String, c: u32, order: Order) -> Result<(), AllocError>
    ensures { OnOk result (string_bytes text.new ≡ string_bytes text.old ++ ordered_text c order) }
{
    write!(text, "{c}: ")?;
    push_order(text, order)?;
    text.push_str("\n")
}

/// What a controller ordered in a run: nothing is reported of a frame that is put.
pub fn push_kept(text: &mut String, c: u32, order: &Order) -> Result<(), AllocError>
    ensures { OnOk result (string_bytes text.new ≡ string_bytes text.old ++ kept_text c order.now) }
{
    match *order {
        Order::Put(..) => Ok(()),
        Order::Commit(_) | Order::Done(_) | Order::Halt(_) => push_ordered(text, c, *order),
    }
}

/// A frame of direct arc power that a controller asked to send.
pub fn push_offered(text: &mut String, c: u32, frame: Forward) -> Result<(), AllocError>
    ensures { OnOk result (string_bytes text.new ≡ string_bytes text.old ++ offered_text c frame) }
{
    let priority = Priority::ARC.number();
    write!(text, "{c}: put {priority} {frame}\n")
}

fn push_destroyed(text: &mut String, c: u8, frame: Forward) -> Result<(), AllocError>
    ensures { OnOk result (string_bytes text.new ≡ string_bytes text.old ++ destroyed_text c frame) }
{
    write!(text, "{c}: destroyed {frame}")
}

fn push_collided(
    text: &mut String,
    c: u8,
    frame: Forward,
    d: u8,
    other: Forward,
) -> Result<(), AllocError>
    ensures { OnOk result (string_bytes text.new ≡ string_bytes text.old ++ collided_text c frame d other) }
{
    push_destroyed(text, c, frame)?;
    text.push_str(", ")?;
    push_destroyed(text, d, other)?;
    text.push_str("\n")
}

fn push_sent(text: &mut String, c: u8, frame: Forward, answer: Answer) -> Result<(), AllocError>
    ensures { OnOk result (string_bytes text.new ≡ string_bytes text.old ++ sent_text c frame answer) }
{
    write!(text, "{c}: sent ")?;
    push_heard(text, frame, answer)?;
    Ok(())
}

/// What came on the bus.
pub fn push_report(text: &mut String, report: Report) -> Result<(), AllocError>
    ensures { OnOk result (string_bytes text.new ≡ string_bytes text.old ++ report_text report) }
{
    match report {
        Report::Idle => text.push_str("idle\n"),
        Report::Sent(c, frame, answer) => push_sent(text, c, frame, answer),
        Report::Destroyed(c, frame) => {
            push_destroyed(text, c, frame)?;
            text.push_str("\n")
        }
        Report::Collided(c, frame, d, other) => push_collided(text, c, frame, d, other),
    }
}

fn push_owner(text: &mut String, owner: Option<u8>) -> Result<(), AllocError>
    ensures { OnOk result (string_bytes text.new ≡ string_bytes text.old ++ owner_text owner) }
{
    match owner {
        None => text.push_str("-"),
        Some(c) => write!(text, "{c}"),
    }
}

/// Who lost the bus.
pub fn push_lapse(text: &mut String, owner: Option<u8>) -> Result<(), AllocError>
    ensures { OnOk result (string_bytes text.new ≡ string_bytes text.old ++ lapse_text owner) }
{
    text.push_str("lapse ")?;
    push_owner(text, owner)?;
    text.push_str("\n")
}

/// How many frames a run sent.
pub fn push_ran(text: &mut String, frames: u32) -> Result<(), AllocError>
    ensures { OnOk result (string_bytes text.new ≡ string_bytes text.old ++ ran_text frames) }
{
    write!(text, "ran {frames}\n")
}

fn push_entry(text: &mut String, entry: Pair) -> Result<(), AllocError>
    ensures { OnOk result (string_bytes text.new ≡ string_bytes text.old ++ entry_text entry) }
{
    let number = entry.address();
    let random = entry.random();
    write!(text, " {number}={random}")
}

fn push_entries(text: &mut String, entries: &[Pair]) -> Result<(), AllocError>
    ensures { OnOk result (string_bytes text.new ≡ string_bytes text.old ++ entries_text entries.now) }
{
    for entry in entries {
        push_entry(text, *entry)?;
    }
    Ok(())
}

/// A controller's table.
pub fn push_table(text: &mut String, c: u8, entries: &[Pair]) -> Result<(), AllocError>
    ensures { OnOk result (string_bytes text.new ≡ string_bytes text.old ++ table_text c entries.now) }
{
    write!(text, "table {c}:")?;
    push_entries(text, entries)?;
    text.push_str("\n")
}
