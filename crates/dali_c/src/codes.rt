//! The codes of what a machine is told and of what it answers with.

ghost use Rattle.std.specs.Prelude.{◌≡◌, ◌<◌, Some};
ghost use Rattle.dali_script.specs.declared.orders.Input.TheVariants.{Heard};
ghost use Rattle.dali_c.specs.Codes.{answer_of, input_of, bool_of, rolls_of, due_code, half_code};

use dali_frame::Answer;
use dali_script::{Due, Half, Input};

/// What was heard.
pub(crate) fn answer_of(code: u8, byte: u8) -> Option<Answer>
    ensures { result ≡ answer_of code byte }
{
    match code {
        1 => Some(Answer::Silence),
        2 => Some(Answer::Byte(byte)),
        3 => Some(Answer::Damaged),
        _ => None,
    }
}

/// The code of what was heard, and the byte.
pub(crate) fn answer_code(heard: Answer) -> (u8, u8)
    ensures spelled { answer_of result.0 result.1 ≡ Some heard }
    ensures few { result.0 < 4 }
    ensures input { input_of result.0 result.1 ≡ Some (Heard heard) }
{
    match heard {
        Answer::Silence => (1, 0),
        Answer::Byte(byte) => (2, byte),
        Answer::Damaged => (3, 0),
    }
}

/// What a machine is told.
pub(crate) fn input_of(code: u8, byte: u8) -> Option<Input>
    ensures { result ≡ input_of code byte }
{
    match code {
        0 => Some(Input::Start),
        4 => Some(Input::Destroyed),
        5 => Some(Input::Lapsed),
        6 => Some(Input::Committed),
        7 => Some(Input::CommitFailed),
        8 => Some(Input::Survey),
        _ => Some(Input::Heard(answer_of(code, byte)?)),
    }
}

/// What a machine waits for.
pub(crate) fn due_code(due: Due) -> u8
    ensures { result ≡ due_code due }
{
    match due {
        Due::Start => 0,
        Due::Bus => 1,
        Due::Store => 2,
        Due::Nothing => 3,
    }
}

/// Which frame of a pair a frame is.
pub(crate) fn half_code(half: Half) -> u8
    ensures { result ≡ half_code half }
{
    match half {
        Half::Whole => 0,
        Half::First => 1,
        Half::Second => 2,
    }
}

/// 0 is no, 1 is yes.
pub(crate) fn bool_of(code: u8) -> Option<bool>
    ensures { result ≡ bool_of code }
{
    match code {
        0 => Some(false),
        1 => Some(true),
        _ => None,
    }
}

/// The code of no or yes.
pub(crate) fn bool_code(is_so: bool) -> u8
    ensures { bool_of result ≡ Some is_so }
{
    u8::from(is_so)
}

/// Whether the last roll call was silent, and whether one heard gear since gear were to draw last.
pub(crate) fn rolls_of(code: u8) -> Option<(bool, bool)>
    ensures { result ≡ rolls_of code }
{
    match code {
        0 => Some((false, false)),
        1 => Some((true, false)),
        2 => Some((false, true)),
        3 => Some((true, true)),
        _ => None,
    }
}

/// The code of the two.
pub(crate) fn rolls_code(is_silent: bool, is_heard: bool) -> u8
    ensures { rolls_of result ≡ Some (is_silent, is_heard) }
{
    match (is_silent, is_heard) {
        (false, false) => 0,
        (true, false) => 1,
        (false, true) => 2,
        (true, true) => 3,
    }
}
