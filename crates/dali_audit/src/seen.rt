//! What an item is beside its neighbours: a forward frame has what was heard after it, an answer belongs to a frame.

ghost use Rattle.std.specs.Prelude.{◌≡◌};
ghost use Rattle.dali_audit.specs.Seen.{awaits, may_be_answered, in_window, is_reply, as_answer, answer_after, seen_of};

use dali_capture::{Heard, Item};
use dali_frame::{Answer, Forward};
use dali_special::Command;

/// What an item is.
#[derive(Clone, Copy)]
pub enum Seen {
    /// A forward frame, with what was heard after it.
    Sent(Forward, Answer),
    /// An answer to the item before, with which it is judged; or what a capture begins with.
    Replied,
    /// A backward frame where none may come.
    Stray,
    /// A forward frame for other devices.
    Foreign,
    /// No frame, and no answer.
    Broken,
}

/// The time from the end of a forward frame to the begin of a backward one, in µs (IEC 62386-101:2014, receiver frame
/// sequence timing).
const LEAST_WAIT: u64 = 2_400;

const MOST_WAIT: u64 = 12_400;

/// Whether gear may answer a forward frame: it is a question of the command table, or no command of it.
fn awaits(frame: Forward) -> bool
    ensures { result ≡ awaits frame }
{
    match Command::read(frame) {
        Command::Other(_) => true,
        command => command.is_question(),
    }
}

/// Whether a backward frame may come after this.
fn may_be_answered(what: Heard) -> bool
    ensures { result ≡ may_be_answered what }
{
    match what {
        Heard::Forward(frame) => awaits(frame),
        Heard::Device | Heard::Damaged => true,
        Heard::Backward(_) => false,
    }
}

/// Whether an item begins in the time of an answer to another.
fn in_window(asked: &Item, item: &Item) -> bool
    ensures { result ≡ in_window asked.now item.now }
{
    let gap = item.at.saturating_sub(asked.until);
    LEAST_WAIT <= gap && gap <= MOST_WAIT
}

/// Whether an item may be an answer to the one before.
fn is_reply(before: Option<Item>, item: &Item) -> bool
    ensures { result ≡ is_reply before item.now }
{
    match before {
        Some(asked) => may_be_answered(asked.what) && in_window(&asked, item),
        None => true,
    }
}

fn as_answer(what: Heard) -> Answer
    ensures { result ≡ as_answer what }
{
    match what {
        Heard::Backward(byte) => Answer::Byte(byte),
        Heard::Damaged => Answer::Damaged,
        Heard::Forward(_) | Heard::Device => Answer::Silence,
    }
}

/// What was heard after an item.
fn answer_after(asked: &Item, after: Option<Item>) -> Answer
    ensures { result ≡ answer_after asked.now after }
{
    match after {
        Some(item) if may_be_answered(asked.what) && in_window(asked, &item) => as_answer(
            item.what,
        ),
        _ => Answer::Silence,
    }
}

/// What an item is, by the one before it and the one after it.
pub fn seen_of(before: Option<Item>, item: &Item, after: Option<Item>) -> Seen
    ensures { result ≡ seen_of before item.now after }
{
    match item.what {
        Heard::Forward(frame) => Seen::Sent(frame, answer_after(item, after)),
        Heard::Device => Seen::Foreign,
        Heard::Backward(_) => {
            if is_reply(before, item) {
                Seen::Replied
            } else {
                Seen::Stray
            }
        }
        Heard::Damaged => {
            if is_reply(before, item) {
                Seen::Replied
            } else {
                Seen::Broken
            }
        }
    }
}
