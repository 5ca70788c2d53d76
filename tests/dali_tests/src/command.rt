//! The table of special commands and of the queries of a random address, of IEC 62386-102:2014.

use super::values::{frame, same, short};
use dali_frame::Forward;
use dali_special::{Command, Part, Target};
use std::process::Abort;
use std::test::Fail;

/// How many of the 65,536 frames have each command, counted on the standard's tables.
#[test]
fn every_frame_has_its_command(rt: HostRuntime) {
    // TERMINATE, INITIALISE (all, 64 addresses, unaddressed), RANDOMISE, COMPARE, WITHDRAW,
    // SEARCHADDRH, SEARCHADDRM, SEARCHADDRL, PROGRAM (64 addresses, erase), VERIFY, QUERY SHORT ADDRESS,
    // direct arc power (each even address byte), QUERY RANDOM ADDRESS (64 addresses, three bytes), and the rest.
    let counts = [1, 66, 1, 1, 1, 256, 256, 256, 65, 64, 1, 32768, 192, 31608];
    for (row, wanted) in counts.iter().enumerate() {
        same(&rt, &frames_of(row), wanted);
    }
}

fn frames_of(row: usize) -> u32 {
    let mut count = 0u32;
    for address_byte in 0..=255 {
        for opcode_byte in 0..=255 {
            let frame = Forward {
                address_byte,
                opcode_byte,
            };
            if row_of(Command::read(frame)) == row {
                count = count.wrapping_add(1);
            }
        }
    }
    count
}

fn row_of(command: Command) -> usize {
    match command {
        Command::Terminate => 0,
        Command::Initialise(_) => 1,
        Command::Randomise => 2,
        Command::Compare => 3,
        Command::Withdraw => 4,
        Command::SearchHigh(_) => 5,
        Command::SearchMiddle(_) => 6,
        Command::SearchLow(_) => 7,
        Command::Program(_) => 8,
        Command::Verify(_) => 9,
        Command::QueryShort => 10,
        Command::Arc(_) => 11,
        Command::RandomByte(..) => 12,
        Command::Other(_) => 13,
    }
}

/// The frame of four digits is this command, and the command is that frame.
fn is_frame_of<R: Abort>(rt: &R, text: &[u8], command: Command) -> Result<(), Fail> {
    let frame = frame(text)?;
    same(rt, &Command::read(frame), &command);
    same(rt, &command.write(), &frame);
    Ok(())
}

#[test]
fn commands_have_frames(rt: HostRuntime) -> Result<(), Fail> {
    let five = short(5)?;
    for (text, command) in [
        (b"A100", Command::Terminate),
        (b"A500", Command::Initialise(Target::All)),
        (b"A50B", Command::Initialise(Target::Addressed(five))),
        (b"A5FF", Command::Initialise(Target::Unaddressed)),
        (b"A700", Command::Randomise),
        (b"A900", Command::Compare),
        (b"AB00", Command::Withdraw),
        (b"B112", Command::SearchHigh(0x12)),
        (b"B334", Command::SearchMiddle(0x34)),
        (b"B556", Command::SearchLow(0x56)),
        (b"B70B", Command::Program(Some(five))),
        (b"B7FF", Command::Program(None)),
        (b"B90B", Command::Verify(five)),
        (b"BB00", Command::QueryShort),
        (b"01C2", Command::RandomByte(short(0)?, Part::High)),
        (b"0BC3", Command::RandomByte(five, Part::Middle)),
        (b"7FC4", Command::RandomByte(short(63)?, Part::Low)),
    ] {
        is_frame_of(&rt, text, command)?;
    }
    Ok(())
}

#[test]
fn other_frames_have_no_special_command(rt: HostRuntime) -> Result<(), Fail> {
    for text in [
        b"A101", b"A502", b"A581", b"A901", b"B702", b"B9FF", b"BB01", b"0BA0", b"FF00", b"0BC1",
        b"0BC5", b"81C2", b"FFC3",
    ] {
        let frame = frame(text)?;
        same(&rt, &Command::read(frame), &Command::Other(frame));
    }
    for text in [b"FE80", b"00A0", b"A2A0", b"0AC2"] {
        let frame = frame(text)?;
        same(&rt, &Command::read(frame), &Command::Arc(frame));
    }
    let pairs = [
        Command::Initialise(Target::All).is_send_twice(),
        Command::Randomise.is_send_twice(),
        Command::Terminate.is_send_twice(),
        Command::RandomByte(short(5)?, Part::High).is_send_twice(),
    ];
    same(&rt, &pairs, &[true, true, false, false]);
    Ok(())
}
