//! The lines between the program and its driver.
#![tactic(auto, using(std::proofs::lemmas::List::append_assoc))]

ghost use Rattle.std.specs.Prelude.{◌≡◌, ◌++◌, true, OnOk, IfSome, string_bytes};
ghost use Rattle.dali_script.specs.Due.{accepts};
ghost use Rattle.dali_script.specs.declared.orders.Due.TheVariants as due;
ghost use Rattle.dali_frame.specs.Hex.{byte_of};
ghost use Rattle.dali_commissioning.specs.Lines.{asked_text, half_text, put_text, told_byte, told_of};

use dali_frame::{Answer, Forward, Priority};
use dali_script::{Half, Input};
use dali_special::Command;
use std::alloc::AllocError;

fn asked_name(asks: bool) -> &'static str
    ensures { result.now ≡ asked_text asks }
{
    if asks { " ask" } else { " tell" }
}

fn half_name(half: Half) -> &'static str
    ensures { result.now ≡ half_text half }
{
    match half {
        Half::Whole => "",
        Half::First => " pair 1",
        Half::Second => " pair 2",
    }
}

/// The line of a frame that is put: `put P HHHH ask|tell [pair 1|2]`.
pub fn push_put(
    text: &mut String,
    priority: Priority,
    frame: Forward,
    half: Half,
) -> Result<(), AllocError>
    ensures { OnOk result (string_bytes text.new ≡ string_bytes text.old ++ put_text priority frame half) }
{
    let level = priority.number();
    write!(text, "put {level} {frame}")?;
    text.push_str(asked_name(Command::read(frame).is_question()))?;
    text.push_str(half_name(half))?;
    text.push_str("\n")
}

/// The byte that two hexadecimal digits write.
fn byte(high: u8, low: u8) -> Option<u8>
    ensures { result ≡ byte_of high low }
{
    let frame = Forward::read_hex(&[b'0', b'0', high, low]).ok()?;
    Some(frame.opcode_byte)
}

fn told_byte(line: &[u8]) -> Option<Input>
    ensures value { result ≡ told_byte line.now }
    ensures of_bus { IfSome result (λ told. accepts due.Bus told ≡ true) }
{
    let [b, y, t, e, space, high, low] = line else {
        return None;
    };
    let name = [*b, *y, *t, *e, *space];
    if name.as_slice() == b"byte ".as_slice() {
        Some(Input::Heard(Answer::Byte(byte(*high, *low)?)))
    } else {
        None
    }
}

/// What a driver's line says, without its line feed; `None` if it is a bad line.
pub fn told_of(line: &[u8]) -> Option<Input>
    ensures value { result ≡ told_of line.now }
    ensures of_bus { IfSome result (λ told. accepts due.Bus told ≡ true) }
{
    if line == b"silence".as_slice() {
        Some(Input::Heard(Answer::Silence))
    } else if line == b"damaged".as_slice() {
        Some(Input::Heard(Answer::Damaged))
    } else if line == b"destroyed".as_slice() {
        Some(Input::Destroyed)
    } else if line == b"lapsed".as_slice() {
        Some(Input::Lapsed)
    } else {
        told_byte(line)
    }
}
