//! What a sender is told of a search byte that was destroyed. Told as damaged, it makes two gear with one short
//! address.

use super::gear::{INITIALISE, hear};
use super::moments::{DAMAGED, machine_of};
use super::values::InNumbers::Reserve;
use super::values::{bytes_of, random, same};
use dali_controller::Machine;
use dali_frame::{Answer, Forward};
use dali_gear::{GearSet, Reach, Row};
use dali_script::{Input, Order};
use dali_special::Command;
use std::process::Abort;
use std::test::Fail;

/// A frame that is destroyed once. The first gear alone takes it, and its sender is told so.
#[derive(Drop)]
struct Destroyed {
    frame: u16,
    told: Input,
    was: bool,
}

impl Destroyed {
    fn of(frame: u16, told: Input) -> Destroyed {
        Destroyed {
            frame,
            told,
            was: false,
        }
    }

    /// Whether this frame is destroyed.
    fn befalls(&mut self, frame: Forward) -> bool {
        let befalls = !self.was && bytes_of(frame) == self.frame;
        self.was |= befalls;
        befalls
    }
}

/// Two gear without short address that have drawn 123456 and 12FF56: the middle byte of the second is that of every
/// search address at power-on.
fn two_drawn<R: Abort>(rt: &R) -> Result<Row, Fail> {
    let draws = [random(0x123456)?, random(0x12FF56)?];
    let mut row = Row::new(2);
    for command in [
        INITIALISE,
        INITIALISE,
        Command::Randomise,
        Command::Randomise,
    ] {
        hear(rt, &mut row, &command, &Reach::Everyone, &draws);
    }
    Ok(row)
}

/// What the machine is told of a frame. If both gear answer, they answer FF, and that is heard.
fn told<R: Abort>(rt: &R, row: &mut Row, frame: Forward, destroyed: &mut Destroyed) -> Input {
    let command = Command::read(frame);
    if destroyed.befalls(frame) {
        hear(rt, row, &command, &Reach::Only(GearSet::of(0b01)), &[]);
        return destroyed.told;
    }
    match hear(rt, row, &command, &Reach::Everyone, &[]).answer {
        Answer::Damaged => Input::Heard(Answer::Byte(0xFF)),
        heard => Input::Heard(heard),
    }
}

/// A machine starts, with 0 reserved for 123456, and sends up to PROGRAM SHORT ADDRESS.
fn gives<R: Abort>(
    rt: &R,
    row: &mut Row,
    machine: &mut Machine,
    destroyed: &mut Destroyed,
) -> Result<(), Fail> {
    let mut input = Input::Start;
    for _ in 0..20 {
        let Ok(Order::Put(_, frame)) = machine.step(input) else {
            return Err(Fail::from("a frame is put"));
        };
        input = told(rt, row, frame, destroyed);
        if bytes_of(frame) == 0xB701 {
            return Ok(());
        }
    }
    Err(Fail::from("the address is given"))
}

/// Of a frame that is destroyed the machine is told this: which gear have a short address in the end.
fn addressed<R: Abort>(rt: &R, frame: u16, input: Input) -> Result<[bool; 2], Fail> {
    let mut row = two_drawn(rt)?;
    let mut machine = machine_of((0, 3), &[Reserve(0, 0x123456)])?;
    let mut destroyed = Destroyed::of(frame, input);
    gives(rt, &mut row, &mut machine, &mut destroyed)?;
    assert!(rt; destroyed.was);
    assert!(rt; row.len() == 2);
    Ok([row.gear(0).short().is_some(), row.gear(1).short().is_some()])
}

#[test]
fn a_search_byte_is_told_as_destroyed(rt: HostRuntime) -> Result<(), Fail> {
    same(
        &rt,
        &addressed(&rt, 0xB334, Input::Destroyed)?,
        &[true, false],
    );
    same(&rt, &addressed(&rt, 0xB334, DAMAGED)?, &[true, true]);
    Ok(())
}
