//! Captures without a fault, and what they tell of the gear.

use super::captures::{Capture, random, short, told};
use dali_audit::{Holder, Kind};
use dali_capture::Heard;
use dali_frame::Forward;
use dali_special::{Command, Part};
use std::test::Fail;

#[test]
fn a_plain_commissioning_breaks_no_rule(rt: HostRuntime) -> Result<(), Fail> {
    let mut capture = Capture::new(rt.alloc());
    capture.open()?;
    capture.give(0x123456, 0)?;
    capture.give(0x9ABCDE, 1)?;
    capture.tell(Command::Terminate)?;
    let audit = capture.closed(rt.alloc())?;
    told(&rt, &audit, &[]);
    assert_eq!(rt;
        audit.known.table.holder(short(0)?),
        Holder::Verified(random(0x123456)?)
    );
    assert_eq!(rt;
        audit.known.table.holder(short(1)?),
        Holder::Verified(random(0x9ABCDE)?)
    );
    assert_eq!(rt; audit.known.table.holder(short(2)?), Holder::Nobody);
    Ok(())
}

#[test]
fn gear_tell_their_random_address(rt: HostRuntime) -> Result<(), Fail> {
    let mut capture = Capture::new(rt.alloc());
    let five = short(5)?;
    capture.ask(Command::RandomByte(five, Part::High), 0x12)?;
    capture.ask(Command::RandomByte(five, Part::Middle), 0x34)?;
    capture.ask(Command::RandomByte(five, Part::Low), 0x56)?;
    capture.ask(Command::RandomByte(short(6)?, Part::High), 0x12)?;
    capture.search(0xABCDEF)?;
    capture.tell(Command::Program(Some(short(7)?)))?;
    let audit = capture.audit(rt.alloc())?;
    told(&rt, &audit, &[]);
    assert_eq!(rt;
        audit.known.table.holder(five),
        Holder::Answered(random(0x123456)?)
    );
    assert_eq!(rt; audit.known.table.holder(short(6)?), Holder::Somebody);
    assert_eq!(rt;
        audit.known.table.holder(short(7)?),
        Holder::Programmed(random(0xABCDEF)?)
    );
    Ok(())
}

#[test]
fn after_reset_nothing_is_known_of_a_gear(rt: HostRuntime) -> Result<(), Fail> {
    let mut capture = Capture::new(rt.alloc());
    capture.open()?;
    capture.give(0x123456, 0)?;
    capture.give(0x9ABCDE, 1)?;
    for _ in 0..2u8 {
        capture.frame(Forward {
            address_byte: 0x01,
            opcode_byte: 0x20,
        })?;
    }
    let audit = capture.closed(rt.alloc())?;
    told(&rt, &audit, &[]);
    assert_eq!(rt; audit.known.table.holder(short(0)?), Holder::Nobody);
    assert_eq!(rt;
        audit.known.table.holder(short(1)?),
        Holder::Verified(random(0x9ABCDE)?)
    );
    Ok(())
}

#[test]
fn sensors_and_other_questions_break_no_rule(rt: HostRuntime) -> Result<(), Fail> {
    let mut capture = Capture::new(rt.alloc());
    // What a capture begins with, light control, QUERY STATUS, a device that is asked and answers.
    capture.hear(0, 3_000, Heard::Damaged)?;
    capture.open()?;
    capture.frame(Forward {
        address_byte: 0xFE,
        opcode_byte: 0x80,
    })?;
    capture.frame(Forward {
        address_byte: 0x01,
        opcode_byte: 0x90,
    })?;
    capture.hear(7_000, 7_500, Heard::Backward(0x04))?;
    capture.hear(14_000, 20_800, Heard::Device)?;
    capture.hear(7_000, 7_500, Heard::Backward(0x04))?;
    capture.give(0x123456, 0)?;
    told(&rt, &capture.closed(rt.alloc())?, &[]);
    Ok(())
}

#[test]
fn an_answer_begins_in_its_time(rt: HostRuntime) -> Result<(), Fail> {
    for (gap, is_one) in [
        (2_399, false),
        (2_400, true),
        (12_400, true),
        (12_401, false),
    ] {
        let mut capture = Capture::new(rt.alloc());
        capture.open()?;
        capture.tell(Command::Compare)?;
        capture.hear(gap, 7_500, Heard::Backward(0xFF))?;
        let audit = capture.closed(rt.alloc())?;
        if is_one {
            told(&rt, &audit, &[]);
        } else {
            told(&rt, &audit, &[Kind::UnaskedAnswer]);
        }
    }
    Ok(())
}
