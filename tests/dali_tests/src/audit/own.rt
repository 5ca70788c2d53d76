//! Captures of this project's own controllers, on simulated sites: they break no rule, and the gear may have answered
//! so; if something is disturbed, that alone is told.

use super::captures::{Capture, told};
use dali_audit::{Judgement, Kind};
use dali_capture::Heard;
use dali_frame::{Answer, Forward};
use dali_replay::{Played, read_input};
use dali_world::Event;
use std::alloc::Global;
use std::process::Abort;
use std::test::Fail;

const RANDOMISE: Forward = Forward {
    address_byte: 0xA7,
    opcode_byte: 0,
};

/// A frame that was sent, and what was heard after it.
fn send(capture: &mut Capture, frame: Forward, answer: Answer) -> Result<(), Fail> {
    let is_second = frame == RANDOMISE
        && match capture.items.last() {
            Some(item) => item.what == Heard::Forward(RANDOMISE),
            None => false,
        };
    capture.frame(frame)?;
    if is_second {
        capture.wait(100_000);
    }
    match answer {
        Answer::Silence => Ok(()),
        Answer::Byte(byte) => capture.hear(7_000, 7_500, Heard::Backward(byte)),
        Answer::Damaged => capture.hear(7_000, 7_500, Heard::Damaged),
    }
}

fn happen(capture: &mut Capture, event: Event) -> Result<(), Fail> {
    match event {
        Event::Sent(_, frame, answer) => send(capture, frame, answer),
        Event::Foreign(frame) => capture.frame(frame),
        Event::Destroyed(..) | Event::Collided(..) => capture.hear(14_000, 9_000, Heard::Damaged),
        _ => Ok(()),
    }
}

/// The judgement of a capture of what a script lets happen.
fn judged(alloc: Global, script: &str) -> Result<Judgement, Fail> {
    let mut reader = script.as_bytes();
    let input = read_input(alloc, &mut reader).ok().ok_or("a script")?;
    let played = Played::of(alloc, &input).ok().ok_or("a run")?;
    let mut capture = Capture::new(alloc);
    for event in played.log.iter() {
        happen(&mut capture, *event)?;
    }
    Ok(Judgement::of(alloc, capture.items.as_slice())?)
}

/// Fails unless this is told of a script, so many gear are played, and a difference is told or not.
fn tells<R: Abort + AllocGlobal>(
    rt: &R,
    script: &str,
    findings: &[Kind],
    gear: usize,
    is_other: bool,
) -> Result<(), Fail> {
    let judgement = judged(rt.alloc(), script)?;
    told(rt, &judgement.audit, findings);
    assert_eq!(rt; judgement.other_answer.is_some(), is_other);
    match &judgement.bench {
        Some(bench) => assert_eq!(rt; bench.places.len(), gear),
        None => assert_eq!(rt; gear, 129),
    }
    Ok(())
}

#[test]
fn one_controller(rt: HostRuntime) -> Result<(), Fail> {
    let script = "site 3 0-5\ndraws 300000 100000 200000\nrun 2000\n";
    tells(&rt, script, &[], 3, false)
}

#[test]
fn two_controllers(rt: HostRuntime) -> Result<(), Fail> {
    let script = "site 3 0-2 3-5\ndraws 000001 000002 000003 300000 100000 200000\nrun 2000\n";
    tells(&rt, script, &[], 3, false)
}

#[test]
fn a_survey_with_used_gear(rt: HostRuntime) -> Result<(), Fail> {
    let script = "site 4 0-9\ndraws 300000 100000 200000\nused 3 7 0ABCDE\nsurvey 0\nrun 3000\n";
    tells(&rt, script, &[], 4, false)
}

#[test]
fn a_push_button(rt: HostRuntime) -> Result<(), Fail> {
    let script = "site 2 0-5\ndraws 300000 100000\nrun 30\nforeign FE10\nrun 2000\n";
    tells(&rt, script, &[], 2, false)
}

#[test]
fn a_destroyed_frame(rt: HostRuntime) -> Result<(), Fail> {
    for round in [
        "run 3\n",
        "run 12\n",
        "run 110\n",
        "run 112\n",
        "run 113\n",
        "run 114\n",
        "run 115\n",
    ] {
        let mut script = String::new(rt.alloc());
        write!(
            script,
            "site 2 0-5\ndraws 400000 500000 300000 100000\n{round}go 0\npump destroyed 0,1\nrun 2000\n"
        )?;
        let judgement = judged(rt.alloc(), script.as_str())?;
        told(&rt, &judgement.audit, &[Kind::DamagedFrame]);
        assert_eq!(rt; judgement.other_answer, None);
    }
    Ok(())
}

#[test]
fn a_lost_answer_of_a_gear_that_is_known(rt: HostRuntime) -> Result<(), Fail> {
    let script = "site 1 0-5\ndraws 300000\nrun 12\ngo 0\npump lost\nrun 2000\n";
    tells(&rt, script, &[], 1, true)
}

#[test]
fn a_damaged_answer_to_compare(rt: HostRuntime) -> Result<(), Fail> {
    let script = "site 1 0-5\ndraws 300000\nrun 8\ngo 0\npump noise\nrun 2000\n";
    tells(&rt, script, &[], 1, false)
}
