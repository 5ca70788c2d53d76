//! A capture as a bench: gear with the random addresses that it reveals take its frames, and what they answer is
//! compared with what was heard.

use super::captures::{Capture, random, short};
use dali_audit::{Bench, BenchError, Judgement, Outcome};
use dali_capture::Heard;
use dali_special::{Command, Part, Target};
use std::process::Abort;
use std::test::Fail;

/// Fails unless the gear of the bench may have answered all that was heard, and so many are known.
fn agrees<R: Abort>(rt: &R, bench: &Bench, gear: usize) {
    assert_eq!(rt; bench.places.len(), gear);
    assert_eq!(rt; bench.compare(), Outcome::Agrees);
}

/// Fails unless the first difference is at this time.
fn differs_at<R: Abort>(rt: &R, bench: &Bench, at: u64) {
    match bench.compare() {
        Outcome::Differs(step) => assert_eq!(rt; bench.steps[step].at, at),
        outcome => assert_eq!(rt; outcome, Outcome::Differs(0)),
    }
}

#[test]
fn a_plain_commissioning_agrees(rt: HostRuntime) -> Result<(), Fail> {
    let mut capture = Capture::new(rt.alloc());
    capture.open()?;
    capture.give(0x123456, 0)?;
    capture.give(0x9ABCDE, 1)?;
    capture.tell(Command::Terminate)?;
    agrees(&rt, &Bench::of(rt.alloc(), capture.items.as_slice())?, 2);
    Ok(())
}

#[test]
fn silence_of_a_gear_that_is_known_differs(rt: HostRuntime) -> Result<(), Fail> {
    let mut capture = Capture::new(rt.alloc());
    capture.open()?;
    capture.search(0x200000)?;
    capture.tell(Command::Compare)?;
    let at = capture.items[capture.items.len() - 1].at;
    capture.give(0x123456, 0)?;
    differs_at(&rt, &Bench::of(rt.alloc(), capture.items.as_slice())?, at);
    Ok(())
}

#[test]
fn an_answer_after_withdraw_is_of_somebody_else(rt: HostRuntime) -> Result<(), Fail> {
    let mut capture = Capture::new(rt.alloc());
    capture.open()?;
    capture.give(0x123456, 0)?;
    capture.ask(Command::Compare, 0xFF)?;
    agrees(&rt, &Bench::of(rt.alloc(), capture.items.as_slice())?, 1);
    capture.ask(Command::Compare, 0xFE)?;
    let at = capture.items[capture.items.len() - 2].at;
    differs_at(&rt, &Bench::of(rt.alloc(), capture.items.as_slice())?, at);
    Ok(())
}

#[test]
fn another_byte_differs(rt: HostRuntime) -> Result<(), Fail> {
    let mut capture = Capture::new(rt.alloc());
    capture.open()?;
    capture.give(0x123456, 5)?;
    capture.ask(Command::RandomByte(short(5)?, Part::High), 0x12)?;
    capture.ask(Command::RandomByte(short(5)?, Part::Middle), 0x35)?;
    let at = capture.items[capture.items.len() - 2].at;
    differs_at(&rt, &Bench::of(rt.alloc(), capture.items.as_slice())?, at);
    Ok(())
}

#[test]
fn used_gear_and_gear_from_before_are_there(rt: HostRuntime) -> Result<(), Fail> {
    let mut capture = Capture::new(rt.alloc());
    capture.ask(Command::RandomByte(short(9)?, Part::High), 0x77)?;
    capture.ask(Command::RandomByte(short(9)?, Part::Middle), 0x00)?;
    capture.ask(Command::RandomByte(short(9)?, Part::Low), 0x01)?;
    capture.tell(Command::Terminate)?;
    capture.twice(Command::Initialise(Target::Unaddressed))?;
    capture.give(0x123456, 0)?;
    capture.ask(Command::RandomByte(short(9)?, Part::Low), 0x01)?;
    capture.open()?;
    capture.give(0x654321, 1)?;
    let bench = Bench::of(rt.alloc(), capture.items.as_slice())?;
    agrees(&rt, &bench, 3);
    assert_eq!(rt; bench.places[0].random, random(0x770001)?);
    assert_eq!(rt; bench.places[0].short, Some(short(9)?));
    assert_eq!(rt;
        bench.draws.as_slice(),
        [random(0x123456)?, random(0x654321)?].as_slice()
    );
    Ok(())
}

#[test]
fn after_a_damaged_frame_gear_are_not_known(rt: HostRuntime) -> Result<(), Fail> {
    let mut capture = Capture::new(rt.alloc());
    capture.open()?;
    capture.search(0x123456)?;
    capture.ask(Command::QueryShort, 0xFF)?;
    // PROGRAM SHORT ADDRESS, which the gear took.
    capture.hear(14_000, 14_167, Heard::Damaged)?;
    capture.search(0x123456)?;
    capture.ask(Command::QueryShort, 0x01)?;
    capture.open()?;
    capture.give(0x654321, 1)?;
    agrees(&rt, &Bench::of(rt.alloc(), capture.items.as_slice())?, 2);
    Ok(())
}

#[test]
fn a_bench_is_a_script(rt: HostRuntime) -> Result<(), Fail> {
    let mut capture = Capture::new(rt.alloc());
    capture.ask(Command::RandomByte(short(9)?, Part::High), 0x77)?;
    capture.ask(Command::RandomByte(short(9)?, Part::Middle), 0x00)?;
    capture.ask(Command::RandomByte(short(9)?, Part::Low), 0x01)?;
    capture.tell(Command::Terminate)?;
    capture.ask(Command::RandomByte(short(9)?, Part::Low), 0x01)?;
    let bench = Bench::of(rt.alloc(), capture.items.as_slice())?;
    let script = bench.script(rt.alloc())?;
    let wanted = "bench 1\ndraws\nused 0 9 770001\noff 0\n\
        frame 13C2\nframe 13C3\nframe 13C4\nframe A100\non 0\nframe 13C4\n";
    assert_eq!(rt; script.as_str(), wanted);
    Ok(())
}

#[test]
fn no_gear_are_a_script_too(rt: HostRuntime) -> Result<(), Fail> {
    let mut capture = Capture::new(rt.alloc());
    capture.tell(Command::Terminate)?;
    let bench = Bench::of(rt.alloc(), capture.items.as_slice())?;
    let script = bench.script(rt.alloc())?;
    let wanted = "bench 1\ndraws\noff 0\nframe A100\n";
    assert_eq!(rt; script.as_str(), wanted);
    Ok(())
}

#[test]
fn more_gear_than_a_bench_has_are_refused(rt: HostRuntime) -> Result<(), Fail> {
    let mut capture = Capture::new(rt.alloc());
    capture.open()?;
    for number in 0..129u8 {
        capture.search(0x1000 + u32::from(number))?;
        capture.ask(Command::QueryShort, 0xFF)?;
    }
    match Bench::of(rt.alloc(), capture.items.as_slice()) {
        Ok(bench) => assert_eq!(rt; bench.places.len(), 0),
        Err(error) => assert_eq!(rt; error, BenchError::TooManyGear),
    }
    Ok(())
}

#[test]
fn a_judgement_has_a_head_findings_and_gear(rt: HostRuntime) -> Result<(), Fail> {
    let mut capture = Capture::new(rt.alloc());
    capture.open()?;
    capture.give(0x123456, 0)?;
    capture.give(0x9ABCDE, 0)?;
    capture.tell(Command::Terminate)?;
    let judgement = Judgement::of(rt.alloc(), capture.items.as_slice())?;
    assert_eq!(rt; judgement.is_clean(), false);
    let mut text = String::new(rt.alloc());
    judgement.push_lines(&mut text)?;
    let wanted =
        "played 2 gear, 0 of them not to the end\n1693506 address-taken\ngear 9ABCDE short 0 verified\n";
    assert_eq!(rt; text.as_str(), wanted);
    let mut json = String::new(rt.alloc());
    judgement.push_json(&mut json)?;
    let head =
        "{\"played\":2,\"unknown\":0,\"findings\":[{\"at\":1693506,\"kind\":\"address-taken\"}],\
        \"other_answer\":null,\"gear\":[{\"short\":0,\"random\":\"9ABCDE\",\"known\":\"verified\"},\
        {\"short\":1,\"random\":null,\"known\":\"unknown\"},";
    assert_eq!(rt; json.as_str().starts_with(head), true);
    assert_eq!(rt; json.as_str().ends_with("\"known\":\"unknown\"}]}\n"), true);
    Ok(())
}

/// The bench of a capture with a damaged frame, at the search address of the gear 123456 or before any search; after it
/// the gear gets its short address.
fn disturbed<R: Abort + AllocGlobal>(rt: &R, is_found: bool) -> Result<Bench, Fail> {
    let mut capture = Capture::new(rt.alloc());
    capture.open()?;
    if is_found {
        capture.search(0x123456)?;
    }
    capture.hear(14_000, 9_000, Heard::Damaged)?;
    capture.give(0x123456, 0)?;
    capture.tell(Command::Terminate)?;
    capture.twice(Command::Initialise(Target::Unaddressed))?;
    capture.search(0xFFFFFE)?;
    capture.tell(Command::Compare)?;
    Ok(Bench::of(rt.alloc(), capture.items.as_slice())?)
}

#[test]
fn a_gear_that_is_heard_after_a_damaged_frame_is_known(rt: HostRuntime) -> Result<(), Fail> {
    let bench = disturbed(&rt, false)?;
    agrees(&rt, &bench, 1);
    assert_eq!(rt; bench.unknown, 0);
    Ok(())
}

#[test]
fn a_gear_at_the_search_address_of_a_damaged_frame_is_not_known(
    rt: HostRuntime,
) -> Result<(), Fail> {
    let bench = disturbed(&rt, true)?;
    agrees(&rt, &bench, 1);
    assert_eq!(rt; bench.unknown, 1);
    Ok(())
}

#[test]
fn after_terminate_a_damaged_frame_changes_no_gear(rt: HostRuntime) -> Result<(), Fail> {
    let mut capture = Capture::new(rt.alloc());
    capture.open()?;
    capture.give(0x123456, 0)?;
    capture.tell(Command::Terminate)?;
    capture.hear(14_000, 9_000, Heard::Damaged)?;
    // The gear is asked, and another byte is heard.
    capture.ask(Command::RandomByte(short(0)?, Part::High), 0x77)?;
    let at = capture.items[capture.items.len() - 2].at;
    let bench = Bench::of(rt.alloc(), capture.items.as_slice())?;
    assert_eq!(rt; bench.unknown, 0);
    differs_at(&rt, &bench, at);
    Ok(())
}
