//! Gear that an event names: those that answer, those that a destroyed frame reaches, those that were changed.
#![tactic(auto, using(std::proofs::lemmas::List::append_assoc, std::proofs::lemmas::Fmt::hex_byte))]

ghost use Rattle.std.specs.Prelude.{◌≡◌, ◌++◌, ◌<◌, OnOk, IfOk, Some, None, slice_index_or, string_bytes};
ghost use Rattle.std.specs.Prelude.{decimal, if◌then◌else◌};
ghost use Rattle.dali_special.specs.Command.{command_of};
ghost use Rattle.dali_gear.specs.Gear.{fresh, answer_to};
ghost use Rattle.dali_story.specs.Lists.{answer_item, state_number, same_short, shows_same, gear_object, item_of};
ghost use Rattle.dali_story.specs.Lists.{between, item_text, still_first, list_text};

use dali_frame::{Forward, Random24, Short};
use dali_gear::{Gear, GearSet, InitialisationState, Reach, Row};
use dali_replay::{push_addresses, push_condition};
use std::alloc::AllocError;

/// What is listed of gear.
#[derive(Clone, Copy)]
pub enum Listed {
    /// Those that answer this frame, each with its backward frame.
    Answers(Forward),
    /// Those that a frame reaches which reaches these.
    Takers(GearSet),
    /// Those that show something else than before, each as it is now.
    Changes,
}

/// A comma, but before the first item.
fn push_between(text: &mut String, first: bool) -> Result<(), AllocError>
    ensures { OnOk result (string_bytes text.new ≡ string_bytes text.old ++ between first) }
{
    if first {
        return Ok(());
    }
    text.push_str(",")
}

/// What a gear answers to a frame.
fn answer_of(gear: &Gear, frame: Forward) -> Option<u8>
    ensures { result ≡ answer_to (command_of frame) gear.now }
{
    let mut asked = *gear;
    asked.take(frame, Random24::from_bytes(0, 0, 0)).answer
}

/// A gear that answers. Whether the next item is the first.
fn push_answer(
    text: &mut String,
    first: bool,
    number: usize,
    answer: Option<u8>,
) -> Result<bool, AllocError>
    ensures text { OnOk result (string_bytes text.new
        ≡ string_bytes text.old ++ item_text first (answer_item number answer)) }
    ensures first { IfOk result (λ next. next ≡ still_first first (answer_item number answer)) }
{
    let Some(byte) = answer else {
        return Ok(first);
    };
    push_between(text, first)?;
    write!(text, "{{\"gear\":{number},\"byte\":\"{byte:02X}\"}}")?;
    Ok(false)
}

/// A gear that a frame reaches, if it does. Whether the next item is the first.
fn push_taker(
    text: &mut String,
    first: bool,
    number: usize,
    reached: bool,
) -> Result<bool, AllocError>
    ensures text { OnOk result (string_bytes text.new
        ≡ string_bytes text.old ++ item_text first (if reached then Some (decimal number) else None)) }
    ensures first { IfOk result (λ next. next ≡ still_first first (if reached then Some (decimal number) else None)) }
{
    if !reached {
        return Ok(first);
    }
    push_between(text, first)?;
    write!(text, "{number}")?;
    Ok(false)
}

fn state_number(state: InitialisationState) -> u8
    ensures { result ≡ state_number state }
{
    match state {
        InitialisationState::Disabled => 0,
        InitialisationState::Enabled => 1,
        InitialisationState::Withdrawn => 2,
    }
}

fn same_short(one: Option<Short>, other: Option<Short>) -> bool
    ensures { result ≡ same_short one other }
{
    match (one, other) {
        (None, None) => true,
        (Some(one), Some(other)) => one.number() == other.number(),
        (None, Some(_)) | (Some(_), None) => false,
    }
}

/// Whether two gear show the same. A search address does not show.
fn shows_same(one: &Gear, other: &Gear) -> bool
    ensures { result ≡ shows_same one.now other.now }
{
    let power = if one.is_powered() {
        other.is_powered()
    } else {
        !other.is_powered()
    };
    power
        && state_number(one.state()) == state_number(other.state())
        && one.random().value() == other.random().value()
        && same_short(one.short(), other.short())
}

/// A gear that was changed, if it was. Whether the next item is the first.
#[tactic(auto, unfolding(crate::specs::Lists::gear_object))]
fn push_change(
    text: &mut String,
    first: bool,
    number: usize,
    was: &Gear,
    is: &Gear,
) -> Result<bool, AllocError>
    ensures text { OnOk result (string_bytes text.new ≡ string_bytes text.old
        ++ item_text first (if shows_same was.now is.now then None else Some (gear_object number is.now))) }
    ensures first { IfOk result (λ next. next
        ≡ still_first first (if shows_same was.now is.now then None else Some (gear_object number is.now))) }
{
    if shows_same(was, is) {
        return Ok(first);
    }
    push_between(text, first)?;
    push_condition(text, number, is)?;
    push_addresses(text, is)?;
    Ok(false)
}

/// What is listed of a gear. Whether the next item is the first.
fn push_item(
    text: &mut String,
    listed: &Listed,
    first: bool,
    number: usize,
    was: &Gear,
    is: &Gear,
) -> Result<bool, AllocError>
    requires { number < 128 }
    ensures text { OnOk result (string_bytes text.new
        ≡ string_bytes text.old ++ item_text first (item_of listed.now number was.now is.now)) }
    ensures first { IfOk result (λ next. next ≡ still_first first (item_of listed.now number was.now is.now)) }
{
    match *listed {
        Listed::Answers(frame) => push_answer(text, first, number, answer_of(was, frame)),
        Listed::Takers(set) => {
            push_taker(text, first, number, Reach::Only(set).includes(number))
        }
        Listed::Changes => push_change(text, first, number, was, is),
    }
}

/// The gear of this number; one from the factory if there is none.
fn gear_at(row: &Row, number: usize) -> Gear
    ensures { result ≡ slice_index_or row.now number fresh }
{
    if number < row.len() {
        row.gear(number)
    } else {
        Gear::new()
    }
}

/// What is listed of gear, by what they were before an event and are after it.
#[tactic(auto, unfolding(crate::specs::Lists::list_text))]
pub fn push_list(text: &mut String, listed: &Listed, was: &Row, is: &Row) -> Result<(), AllocError>
    ensures { OnOk result (string_bytes text.new ≡ string_bytes text.old ++ list_text listed.now was.now is.now) }
{
    let mut first = true;
    for number in 0..was.len() {
        let before = was.gear(number);
        let after = gear_at(is, number);
        first = push_item(text, listed, first, number, &before, &after)?;
    }
    Ok(())
}
