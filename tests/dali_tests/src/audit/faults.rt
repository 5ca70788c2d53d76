//! Faults that are planted into a controller's frames: each is told by its name, and nothing else.

use super::captures::{Capture, short, told};
use dali_audit::Kind;
use dali_capture::Heard;
use dali_special::{Command, Part, Target};
use std::test::Fail;

#[test]
fn a_damaged_frame(rt: HostRuntime) -> Result<(), Fail> {
    let mut capture = Capture::new(rt.alloc());
    capture.open()?;
    capture.hear(14_000, 9_000, Heard::Damaged)?;
    capture.give(0x123456, 0)?;
    told(&rt, &capture.closed(rt.alloc())?, &[Kind::DamagedFrame]);
    Ok(())
}

#[test]
fn a_damaged_frame_in_place_of_the_second_of_a_pair(rt: HostRuntime) -> Result<(), Fail> {
    let mut capture = Capture::new(rt.alloc());
    capture.tell(Command::Terminate)?;
    capture.tell(Command::Randomise)?;
    capture.hear(14_000, 9_000, Heard::Damaged)?;
    capture.open()?;
    told(&rt, &capture.closed(rt.alloc())?, &[Kind::DamagedFrame]);
    Ok(())
}

#[test]
fn several_gear_answer_at_one_search_address(rt: HostRuntime) -> Result<(), Fail> {
    let mut capture = Capture::new(rt.alloc());
    capture.open()?;
    capture.search(0x123456)?;
    capture.ask_several(Command::Compare)?;
    capture.ask_several(Command::QueryShort)?;
    told(&rt, &capture.closed(rt.alloc())?, &[Kind::DamagedAnswer]);
    Ok(())
}

#[test]
fn an_answer_where_nobody_may_answer(rt: HostRuntime) -> Result<(), Fail> {
    let mut capture = Capture::new(rt.alloc());
    capture.open()?;
    capture.ask(Command::Withdraw, 0xFF)?;
    capture.ask(Command::Compare, 0xFF)?;
    capture.hear(7_000, 7_500, Heard::Backward(0xFF))?;
    told(
        &rt,
        &capture.closed(rt.alloc())?,
        &[Kind::UnaskedAnswer, Kind::UnaskedAnswer],
    );
    Ok(())
}

#[test]
fn half_a_pair(rt: HostRuntime) -> Result<(), Fail> {
    let mut capture = Capture::new(rt.alloc());
    capture.tell(Command::Terminate)?;
    capture.tell(Command::Initialise(Target::Unaddressed))?;
    capture.twice(Command::Randomise)?;
    capture.wait(100_000);
    let audit = capture.closed(rt.alloc())?;
    told(&rt, &audit, &[Kind::HalfPair]);
    // The time that is told is that of the half.
    assert_eq!(rt; audit.findings[0].at, capture.items[1].at);
    Ok(())
}

#[test]
fn a_pair_too_slow(rt: HostRuntime) -> Result<(), Fail> {
    for (pause, is_late) in [(71_666, false), (71_667, true)] {
        let mut capture = Capture::new(rt.alloc());
        capture.tell(Command::Terminate)?;
        capture.tell(Command::Initialise(Target::Unaddressed))?;
        capture.wait(pause - 14_000);
        capture.tell(Command::Initialise(Target::Unaddressed))?;
        capture.twice(Command::Randomise)?;
        capture.wait(100_000);
        let audit = capture.closed(rt.alloc())?;
        if is_late {
            told(&rt, &audit, &[Kind::LatePair]);
        } else {
            told(&rt, &audit, &[]);
        }
    }
    Ok(())
}

#[test]
fn randomise_followed_too_soon(rt: HostRuntime) -> Result<(), Fail> {
    let mut capture = Capture::new(rt.alloc());
    capture.tell(Command::Terminate)?;
    capture.twice(Command::Initialise(Target::Unaddressed))?;
    capture.twice(Command::Randomise)?;
    capture.give(0x123456, 0)?;
    told(&rt, &capture.closed(rt.alloc())?, &[Kind::EarlyFrame]);
    Ok(())
}

#[test]
fn an_initialisation_that_went_on(rt: HostRuntime) -> Result<(), Fail> {
    let mut capture = Capture::new(rt.alloc());
    capture.open()?;
    capture.give(0x123456, 0)?;
    capture.wait(900_000_000);
    capture.give(0x9ABCDE, 1)?;
    told(
        &rt,
        &capture.closed(rt.alloc())?,
        &[Kind::InitialisationOver],
    );
    Ok(())
}

#[test]
fn a_verify_left_out(rt: HostRuntime) -> Result<(), Fail> {
    let mut capture = Capture::new(rt.alloc());
    capture.open()?;
    capture.search(0x123456)?;
    capture.ask(Command::QueryShort, 0xFF)?;
    capture.tell(Command::Program(Some(short(0)?)))?;
    capture.tell(Command::Withdraw)?;
    capture.give(0x9ABCDE, 1)?;
    told(&rt, &capture.closed(rt.alloc())?, &[Kind::NotQueried]);
    Ok(())
}

#[test]
fn several_gear_get_one_address(rt: HostRuntime) -> Result<(), Fail> {
    let mut capture = Capture::new(rt.alloc());
    capture.open()?;
    capture.search(0x123456)?;
    capture.ask_several(Command::Compare)?;
    capture.search(0x123455)?;
    capture.tell(Command::Compare)?;
    capture.search(0x123456)?;
    capture.tell(Command::Program(Some(short(0)?)))?;
    capture.ask_several(Command::QueryShort)?;
    told(
        &rt,
        &capture.closed(rt.alloc())?,
        &[Kind::DamagedAnswer, Kind::SeveralProgrammed],
    );
    Ok(())
}

#[test]
fn one_damaged_answer_is_not_that_of_several_gear(rt: HostRuntime) -> Result<(), Fail> {
    let mut capture = Capture::new(rt.alloc());
    capture.open()?;
    capture.search(0x123456)?;
    capture.ask_several(Command::Compare)?;
    capture.program(0)?;
    capture.search(0x9ABCDE)?;
    capture.ask(Command::Compare, 0xFF)?;
    capture.tell(Command::Program(Some(short(1)?)))?;
    capture.ask_several(Command::QueryShort)?;
    told(&rt, &capture.closed(rt.alloc())?, &[Kind::DamagedAnswer]);
    Ok(())
}

/// A controller has found gear and searches on, when another one sends TERMINATE.
fn cut_off(capture: &mut Capture) -> Result<(), Fail> {
    capture.open()?;
    capture.give(0x123456, 0)?;
    capture.search(0xFFFFFF)?;
    capture.ask(Command::Compare, 0xFF)?;
    capture.tell(Command::Terminate)?;
    capture.search(0x7FFFFF)?;
    capture.tell(Command::Compare)?;
    capture.search(0xFFFFFF)?;
    capture.tell(Command::Compare)
}

#[test]
fn another_controller_ends_a_search(rt: HostRuntime) -> Result<(), Fail> {
    let mut capture = Capture::new(rt.alloc());
    cut_off(&mut capture)?;
    told(&rt, &capture.closed(rt.alloc())?, &[Kind::CutOff]);
    Ok(())
}

#[test]
fn gear_are_searched_anew_after_another_controller_ended_a_search(rt: HostRuntime) -> Result<(), Fail> {
    let mut capture = Capture::new(rt.alloc());
    cut_off(&mut capture)?;
    capture.open()?;
    capture.give(0x9ABCDE, 1)?;
    told(&rt, &capture.closed(rt.alloc())?, &[]);
    Ok(())
}

#[test]
fn an_address_given_twice(rt: HostRuntime) -> Result<(), Fail> {
    let mut capture = Capture::new(rt.alloc());
    capture.open()?;
    capture.give(0x123456, 0)?;
    capture.give(0x9ABCDE, 0)?;
    told(&rt, &capture.closed(rt.alloc())?, &[Kind::AddressTaken]);
    Ok(())
}

#[test]
fn an_address_given_although_somebody_answered(rt: HostRuntime) -> Result<(), Fail> {
    let mut capture = Capture::new(rt.alloc());
    capture.ask(Command::RandomByte(short(0)?, Part::High), 0x77)?;
    capture.open()?;
    capture.give(0x123456, 0)?;
    told(&rt, &capture.closed(rt.alloc())?, &[Kind::AddressTaken]);
    Ok(())
}

#[test]
fn one_short_address_with_two_random_addresses(rt: HostRuntime) -> Result<(), Fail> {
    let mut capture = Capture::new(rt.alloc());
    for middle in [0x34, 0x35] {
        capture.ask(Command::RandomByte(short(5)?, Part::High), 0x12)?;
        capture.ask(Command::RandomByte(short(5)?, Part::Middle), middle)?;
        capture.ask(Command::RandomByte(short(5)?, Part::Low), 0x56)?;
    }
    told(
        &rt,
        &capture.closed(rt.alloc())?,
        &[Kind::TwoRandomAddresses],
    );
    Ok(())
}

#[test]
fn one_random_address_with_two_short_addresses(rt: HostRuntime) -> Result<(), Fail> {
    let mut capture = Capture::new(rt.alloc());
    for number in [5, 6] {
        capture.ask(Command::RandomByte(short(number)?, Part::High), 0x12)?;
        capture.ask(Command::RandomByte(short(number)?, Part::Middle), 0x34)?;
        capture.ask(Command::RandomByte(short(number)?, Part::Low), 0x56)?;
    }
    told(
        &rt,
        &capture.closed(rt.alloc())?,
        &[Kind::TwoShortAddresses],
    );
    Ok(())
}
