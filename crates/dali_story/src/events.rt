//! The line of an event, member by member.
#![tactic(auto, using(std::proofs::lemmas::List::append_assoc))]

ghost use Rattle.std.specs.Prelude.{◌≡◌, ◌++◌, OnOk, codes, string_bytes};
ghost use Rattle.dali_frame.specs.Hex.{random_text};
ghost use Rattle.dali_story.specs.Members.{text_member, list_member};
ghost use Rattle.dali_story.specs.Events.{kind_of, frame_members, the_frame, other_frame};
ghost use Rattle.dali_story.specs.Events.{answer_text, told_text, put_members, commit_members, done_members};
ghost use Rattle.dali_story.specs.Events.{halt_members, order_members, acted_members, framed, placed, sent_members};
ghost use Rattle.dali_story.specs.Events.{destroyed_members, collided_members, power_members, kept_member, up_members};
ghost use Rattle.dali_story.specs.Events.{members, opening, trouble_member, disturbed, trouble_of, changed_by};
ghost use Rattle.dali_story.specs.Lists.{list_text};

use crate::commands::push_command;
use crate::lists::{Listed, push_list};
use crate::members::{push_name, push_number};
use crate::transactions::Running;
use dali_frame::{Answer, Forward, Random24};
use dali_gear::{GearSet, Row};
use dali_script::{End, Fault, Input, Order, Record};
use dali_special::Command;
use dali_world::Event;
use std::alloc::AllocError;

fn kind_of(event: &Event) -> &'static str
    ensures { result.now ≡ kind_of event.now }
{
    match event {
        Event::Acted(..) => "acted",
        Event::Offered(..) => "offered",
        Event::Sent(..) => "sent",
        Event::Destroyed(..) => "destroyed",
        Event::Collided(..) => "collided",
        Event::Lapsed => "lapsed",
        Event::Quiet => "quiet",
        Event::Foreign(_) => "foreign",
        Event::Power(..) => "power",
        Event::Expired(_) => "expired",
        Event::Down(_) => "down",
        Event::Up(..) => "up",
    }
}

#[tactic(auto, unfolding(crate::specs::Members::text_member))]
fn push_random(text: &mut String, key: &str, random: Random24) -> Result<(), AllocError>
    ensures { OnOk result (string_bytes text.new
        ≡ string_bytes text.old ++ text_member key.now (random_text random)) }
{
    write!(text, ",\"{key}\":\"{random}\"")
}

/// A frame as four digits, and its command, under these names.
#[tactic(auto, unfolding(crate::specs::Members::text_member))]
fn push_frame_as(
    text: &mut String,
    frame_key: &str,
    key: &str,
    frame: Forward,
) -> Result<(), AllocError>
    ensures { OnOk result (string_bytes text.new
        ≡ string_bytes text.old ++ frame_members frame_key.now key.now frame) }
{
    write!(text, ",\"{frame_key}\":\"{frame}\",\"{key}\":\"")?;
    push_command(text, Command::read(frame))?;
    text.push_str("\"")
}

#[tactic(auto, unfolding(crate::specs::Events::the_frame))]
fn push_frame(text: &mut String, frame: Forward) -> Result<(), AllocError>
    ensures { OnOk result (string_bytes text.new ≡ string_bytes text.old ++ the_frame frame) }
{
    push_frame_as(text, "frame", "command", frame)
}

/// Of two frames that collide the second one.
#[tactic(auto, unfolding(crate::specs::Events::other_frame))]
fn push_other_frame(text: &mut String, frame: Forward) -> Result<(), AllocError>
    ensures { OnOk result (string_bytes text.new ≡ string_bytes text.old ++ other_frame frame) }
{
    push_frame_as(text, "other_frame", "other_command", frame)
}

#[tactic(auto, unfolding(crate::specs::Members::list_member))]
fn push_listed(
    text: &mut String,
    key: &str,
    listed: &Listed,
    was: &Row,
    is: &Row,
) -> Result<(), AllocError>
    ensures { OnOk result (string_bytes text.new
        ≡ string_bytes text.old ++ list_member key.now (list_text listed.now was.now is.now)) }
{
    write!(text, ",\"{key}\":[")?;
    push_list(text, listed, was, is)?;
    text.push_str("]")
}

#[tactic(auto, using(std::proofs::lemmas::Fmt::hex_byte))]
fn push_answer(text: &mut String, answer: Answer) -> Result<(), AllocError>
    ensures { OnOk result (string_bytes text.new ≡ string_bytes text.old ++ answer_text answer) }
{
    match answer {
        Answer::Silence => text.push_str("silence"),
        Answer::Byte(byte) => write!(text, "{byte:02X}"),
        Answer::Damaged => text.push_str("damaged"),
    }
}

/// What was heard, behind a word.
#[tactic(auto, unfolding(crate::specs::Members::text_member))]
fn push_heard(text: &mut String, key: &str, before: &str, heard: Answer) -> Result<(), AllocError>
    ensures { OnOk result (string_bytes text.new
        ≡ string_bytes text.old ++ text_member key.now (before.now ++ answer_text heard)) }
{
    write!(text, ",\"{key}\":\"{before}")?;
    push_answer(text, heard)?;
    text.push_str("\"")
}

fn push_told(text: &mut String, input: Input) -> Result<(), AllocError>
    ensures { OnOk result (string_bytes text.new
        ≡ string_bytes text.old ++ text_member (codes "told") (told_text input)) }
{
    match input {
        Input::Start => push_name(text, "told", "start"),
        Input::Survey => push_name(text, "told", "survey"),
        Input::Heard(heard) => push_heard(text, "told", "heard ", heard),
        Input::Destroyed => push_name(text, "told", "destroyed"),
        Input::Lapsed => push_name(text, "told", "lapsed"),
        Input::Committed => push_name(text, "told", "committed"),
        Input::CommitFailed => push_name(text, "told", "commit-failed"),
    }
}

#[tactic(auto, unfolding(crate::specs::Events::put_members))]
fn push_put(text: &mut String, priority: u8, frame: Forward) -> Result<(), AllocError>
    ensures { OnOk result (string_bytes text.new ≡ string_bytes text.old ++ put_members priority frame) }
{
    push_name(text, "order", "put")?;
    push_number(text, "priority", u64::from(priority))?;
    push_frame(text, frame)
}

#[tactic(auto, unfolding(crate::specs::Events::commit_members))]
fn push_commit(text: &mut String, added: &Record) -> Result<(), AllocError>
    ensures { OnOk result (string_bytes text.new ≡ string_bytes text.old ++ commit_members added.now) }
{
    push_name(text, "order", "commit")?;
    push_name(text, "record", added.name())?;
    push_number(text, "short", u64::from(added.address().number()))?;
    push_random(text, "random", added.random())
}

#[tactic(auto, unfolding(crate::specs::Events::done_members))]
fn push_done(text: &mut String, end: End) -> Result<(), AllocError>
    ensures { OnOk result (string_bytes text.new ≡ string_bytes text.old ++ done_members end) }
{
    push_name(text, "order", "done")?;
    push_name(text, "end", end.name())
}

#[tactic(auto, unfolding(crate::specs::Events::halt_members))]
fn push_halt(text: &mut String, fault: Fault) -> Result<(), AllocError>
    ensures { OnOk result (string_bytes text.new ≡ string_bytes text.old ++ halt_members fault) }
{
    push_name(text, "order", "halt")?;
    push_name(text, "fault", fault.name())
}

fn push_order(text: &mut String, order: Order) -> Result<(), AllocError>
    ensures { OnOk result (string_bytes text.new ≡ string_bytes text.old ++ order_members order) }
{
    match order {
        Order::Put(priority, frame) => push_put(text, priority.number(), frame),
        Order::Commit(added) => push_commit(text, &added),
        Order::Done(end) => push_done(text, end),
        Order::Halt(fault) => push_halt(text, fault),
    }
}

#[tactic(auto, unfolding(crate::specs::Events::acted_members))]
fn push_acted(text: &mut String, c: u8, input: Input, order: Order) -> Result<(), AllocError>
    ensures { OnOk result (string_bytes text.new ≡ string_bytes text.old ++ acted_members c input order) }
{
    push_number(text, "controller", u64::from(c))?;
    push_told(text, input)?;
    push_order(text, order)
}

#[tactic(auto, unfolding(crate::specs::Events::framed))]
fn push_framed(text: &mut String, c: u8, frame: Forward) -> Result<(), AllocError>
    ensures { OnOk result (string_bytes text.new ≡ string_bytes text.old ++ framed c frame) }
{
    push_number(text, "controller", u64::from(c))?;
    push_frame(text, frame)
}

/// A frame of a controller, and its place in its transaction.
#[tactic(auto, unfolding(crate::specs::Events::placed))]
fn push_placed(
    text: &mut String,
    c: u8,
    frame: Forward,
    running: &Running,
) -> Result<(), AllocError>
    ensures { OnOk result (string_bytes text.new ≡ string_bytes text.old ++ placed c frame running.now) }
{
    push_framed(text, c, frame)?;
    push_number(text, "transaction", running.begun.saturating_sub(1))?;
    push_number(text, "place", running.frames.saturating_sub(1))
}

#[tactic(auto, unfolding(crate::specs::Events::sent_members))]
fn push_sent(
    text: &mut String,
    c: u8,
    frame: Forward,
    heard: Answer,
    running: &Running,
    was: &Row,
) -> Result<(), AllocError>
    ensures { OnOk result (string_bytes text.new
        ≡ string_bytes text.old ++ sent_members c frame heard running.now was.now) }
{
    push_placed(text, c, frame, running)?;
    push_heard(text, "heard", "", heard)?;
    push_listed(text, "answers", &Listed::Answers(frame), was, was)
}

#[tactic(auto, unfolding(crate::specs::Events::destroyed_members))]
fn push_destroyed(
    text: &mut String,
    c: u8,
    frame: Forward,
    set: GearSet,
    running: &Running,
    was: &Row,
) -> Result<(), AllocError>
    ensures { OnOk result (string_bytes text.new
        ≡ string_bytes text.old ++ destroyed_members c frame set running.now was.now) }
{
    push_placed(text, c, frame, running)?;
    push_listed(text, "takers", &Listed::Takers(set), was, was)
}

#[tactic(auto, unfolding(crate::specs::Events::collided_members))]
fn push_collided(
    text: &mut String,
    c: u8,
    frame: Forward,
    d: u8,
    other: Forward,
) -> Result<(), AllocError>
    ensures { OnOk result (string_bytes text.new ≡ string_bytes text.old ++ collided_members c frame d other) }
{
    push_framed(text, c, frame)?;
    push_number(text, "other", u64::from(d))?;
    push_other_frame(text, other)
}

#[tactic(auto, unfolding(crate::specs::Events::power_members))]
fn push_power(text: &mut String, number: u32, on: bool) -> Result<(), AllocError>
    ensures { OnOk result (string_bytes text.new ≡ string_bytes text.old ++ power_members number on) }
{
    push_number(text, "gear", u64::from(number))?;
    push_name(text, "power", if on { "on" } else { "off" })
}

fn push_kept(text: &mut String, kept: bool) -> Result<(), AllocError>
    ensures { OnOk result (string_bytes text.new ≡ string_bytes text.old ++ kept_member kept) }
{
    text.push_str(if kept {
        ",\"kept\":true"
    } else {
        ",\"kept\":false"
    })
}

#[tactic(auto, unfolding(crate::specs::Events::up_members))]
fn push_up(text: &mut String, c: u8, kept: bool) -> Result<(), AllocError>
    ensures { OnOk result (string_bytes text.new ≡ string_bytes text.old ++ up_members c kept) }
{
    push_number(text, "controller", u64::from(c))?;
    push_kept(text, kept)
}

/// What holds of an event, by the transaction of its frame and the gear before it.
pub fn push_members(
    text: &mut String,
    event: &Event,
    running: &Running,
    was: &Row,
) -> Result<(), AllocError>
    ensures { OnOk result (string_bytes text.new
        ≡ string_bytes text.old ++ members event.now running.now was.now) }
{
    match *event {
        Event::Acted(c, input, order) => push_acted(text, c, input, order),
        Event::Offered(c, frame) => push_framed(text, c, frame),
        Event::Sent(c, frame, heard) => push_sent(text, c, frame, heard, running, was),
        Event::Destroyed(c, frame, set) => push_destroyed(text, c, frame, set, running, was),
        Event::Collided(c, frame, d, other) => push_collided(text, c, frame, d, other),
        Event::Lapsed | Event::Quiet => Ok(()),
        Event::Foreign(frame) => push_frame(text, frame),
        Event::Power(number, on) => push_power(text, number, on),
        Event::Expired(number) => push_number(text, "gear", u64::from(number)),
        Event::Down(c) => push_number(text, "controller", u64::from(c)),
        Event::Up(c, kept) => push_up(text, c, kept),
    }
}

/// The number of an event, its kind, and the bit times so far.
#[tactic(auto, unfolding(crate::specs::Events::opening))]
pub fn push_opening(
    text: &mut String,
    number: u64,
    event: &Event,
    bits: u64,
) -> Result<(), AllocError>
    ensures { OnOk result (string_bytes text.new
        ≡ string_bytes text.old ++ opening number (kind_of event.now) bits) }
{
    write!(text, "{{\"event\":{number}")?;
    push_name(text, "kind", kind_of(event))?;
    push_number(text, "bits", bits)
}

fn push_name_of_trouble(text: &mut String, name: &str) -> Result<(), AllocError>
    ensures { OnOk result (string_bytes text.new ≡ string_bytes text.old ++ trouble_member name.now) }
{
    push_name(text, "trouble", name)
}

/// A frame was sent, and this was heard, and that is what the gear answer together.
fn push_disturbed(text: &mut String, heard: Answer, plain: Answer) -> Result<(), AllocError>
    ensures { OnOk result (string_bytes text.new ≡ string_bytes text.old ++ disturbed heard plain) }
{
    match (heard, plain) {
        (Answer::Silence, Answer::Byte(_) | Answer::Damaged) => push_name_of_trouble(text, "lost"),
        (Answer::Damaged, Answer::Silence | Answer::Byte(_)) => push_name_of_trouble(text, "noise"),
        (Answer::Silence, Answer::Silence)
        | (Answer::Damaged, Answer::Damaged)
        | (Answer::Byte(_), _) => Ok(()),
    }
}

/// What went wrong by an event, if something did.
pub fn push_trouble(text: &mut String, event: &Event, plain: Answer) -> Result<(), AllocError>
    ensures { OnOk result (string_bytes text.new ≡ string_bytes text.old ++ trouble_of event.now plain) }
{
    match *event {
        Event::Sent(_, _, heard) => push_disturbed(text, heard, plain),
        Event::Destroyed(..) => push_name_of_trouble(text, "destroyed"),
        Event::Collided(..) => push_name_of_trouble(text, "collided"),
        Event::Lapsed => push_name_of_trouble(text, "lapsed"),
        Event::Power(_, false) => push_name_of_trouble(text, "power-off"),
        Event::Expired(_) => push_name_of_trouble(text, "expired"),
        Event::Down(_) => push_name_of_trouble(text, "down"),
        Event::Acted(..)
        | Event::Offered(..)
        | Event::Quiet
        | Event::Foreign(_)
        | Event::Power(_, true)
        | Event::Up(..) => Ok(()),
    }
}

/// The gear that an event has changed, if it is one that may.
pub fn push_changed_by(
    text: &mut String,
    event: &Event,
    was: &Row,
    is: &Row,
) -> Result<(), AllocError>
    ensures { OnOk result (string_bytes text.new ≡ string_bytes text.old ++ changed_by event.now was.now is.now) }
{
    match event {
        Event::Sent(..) | Event::Destroyed(..) | Event::Power(..) | Event::Expired(_) =>
            push_listed(text, "changed", &Listed::Changes, was, is),
        Event::Acted(..)
        | Event::Offered(..)
        | Event::Collided(..)
        | Event::Lapsed
        | Event::Quiet
        | Event::Foreign(_)
        | Event::Down(_)
        | Event::Up(..) => Ok(()),
    }
}
