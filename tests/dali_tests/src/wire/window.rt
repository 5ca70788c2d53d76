//! What is heard after a forward frame.

use super::edges::same;
use dali_frame::Answer;
use dali_wire::{Sender, Window};
use std::test::Fail;

/// A frame with half bits of 417 µs in a window, so long after the last edge; answers how long the bus is high since.
fn send(window: &mut Window, sender: Sender, before: u32) -> u32 {
    let mut sender = sender;
    let mut since = before;
    for _ in 0..64u8 {
        let Some(is_low) = sender.half() else {
            return since;
        };
        if is_low != window.receiver.is_low {
            window.edge(is_low, since);
            since = 0;
        }
        since += 417;
    }
    since
}

/// What is heard of a byte that begins so many µs after the forward frame.
fn heard(byte: u8, begin: u32) -> Option<Answer> {
    let mut window = Window::new();
    let since = send(&mut window, Sender::backward(byte), begin);
    window.time(since + 4000)
}

#[test]
fn nothing_is_silence_once_the_window_is_over(rt: HostRuntime) -> Result<(), Fail> {
    let mut window = Window::new();
    for (time, wanted) in [
        (0, None),
        (2400, None),
        (12_400, None),
        (12_401, Some(Answer::Silence)),
    ] {
        same(&rt, &window.time(time), &wanted);
    }
    Ok(())
}

#[test]
fn a_byte_has_its_time(rt: HostRuntime) -> Result<(), Fail> {
    for (begin, wanted) in [
        (100, Answer::Damaged),
        (2399, Answer::Damaged),
        (2400, Answer::Byte(0x93)),
        (7000, Answer::Byte(0x93)),
        (12_400, Answer::Byte(0x93)),
        (12_401, Answer::Damaged),
    ] {
        same(&rt, &heard(0x93, begin), &Some(wanted));
    }
    Ok(())
}

#[test]
fn a_byte_is_told_after_its_stop_condition(rt: HostRuntime) -> Result<(), Fail> {
    let mut window = Window::new();
    send(&mut window, Sender::backward(0x01), 9000);
    same(&rt, &window.time(2399), &None);
    same(&rt, &window.time(2400), &Some(Answer::Byte(0x01)));
    Ok(())
}

#[test]
fn a_byte_waits_for_the_end_of_the_window(rt: HostRuntime) -> Result<(), Fail> {
    // it ends 17 half bits after it began, and its stop condition 2,400 µs later: 11,889 µs
    let mut window = Window::new();
    send(&mut window, Sender::backward(0x01), 2400);
    same(&rt, &window.time(2900), &None);
    same(&rt, &window.time(2911), &None);
    same(&rt, &window.time(2912), &Some(Answer::Byte(0x01)));
    Ok(())
}

#[test]
fn two_frames_are_damaged(rt: HostRuntime) -> Result<(), Fail> {
    let mut window = Window::new();
    let since = send(&mut window, Sender::backward(0x01), 2500);
    let since = send(&mut window, Sender::backward(0x01), since);
    same(&rt, &window.time(since + 4000), &Some(Answer::Damaged));
    Ok(())
}

/// What is told if the last edge of the forward frame is told so late, with an answer or without.
fn told_after_echo(late: u32, is_answered: bool) -> Option<Answer> {
    let mut window = Window::new();
    window.edge(false, late);
    let since = if is_answered {
        send(&mut window, Sender::backward(0x0B), 7000 - late)
    } else {
        7000
    };
    window.time(since + 6000)
}

#[test]
fn an_echo_of_the_own_last_edge_is_not_heard(rt: HostRuntime) -> Result<(), Fail> {
    let byte = Some(Answer::Byte(0x0B));
    for late in [0u32, 1, 20, 400, 2399] {
        same(&rt, &told_after_echo(late, false), &Some(Answer::Silence));
        same(&rt, &told_after_echo(late, true), &byte);
    }
    same(&rt, &told_after_echo(2400, false), &Some(Answer::Damaged));
    same(&rt, &told_after_echo(2400, true), &Some(Answer::Damaged));
    Ok(())
}

#[test]
fn a_bus_that_does_not_rest_is_damaged(rt: HostRuntime) -> Result<(), Fail> {
    let mut window = Window::new();
    window.edge(true, 6000);
    same(&rt, &window.time(44_000), &None);
    same(&rt, &window.time(44_001), &Some(Answer::Damaged));
    Ok(())
}

/// What is told of edges by turns, the bus low first, with these times before them, and so long after the last one.
fn told_of(times: &[u32], rest: u32) -> Option<Answer> {
    let mut window = Window::new();
    let mut is_low = true;
    for time in times {
        window.edge(is_low, *time);
        is_low = !is_low;
    }
    window.time(rest)
}

/// What is told of a byte with half bits of 417 µs, the lows of which end so much too early, and of the pulses before
/// and after it, each with the high before it.
fn told_with(before: &[u32], byte: u8, early: u32, after: &[u32]) -> Option<Answer> {
    let mut window = Window::new();
    let mut since = 4000;
    for (at, time) in before.iter().enumerate() {
        window.edge(at % 2 == 0, *time);
    }
    let mut sender = Sender::backward(byte);
    for _ in 0..64u8 {
        let Some(is_low) = sender.half() else {
            break;
        };
        if is_low && !window.receiver.is_low {
            window.edge(true, since);
            since = 0;
        } else if !is_low && window.receiver.is_low {
            window.edge(false, since - early);
            since = early;
        }
        since += 417;
    }
    for (at, time) in after.iter().enumerate() {
        window.edge(at % 2 == 0, *time);
        since = 0;
    }
    window.time(since + 12_401)
}

#[test]
fn a_weak_answer_is_no_silence(rt: HostRuntime) -> Result<(), Fail> {
    let weak = [
        6000, 330, 470, 330, 470, 330, 470, 330, 470, 330, 470, 330, 470, 330, 470, 330, 470, 330,
    ];
    same(&rt, &told_of(&weak, 4000), &Some(Answer::Damaged));
    same(
        &rt,
        &told_with(&[], 0xFF, 0, &[]),
        &Some(Answer::Byte(0xFF)),
    );
    Ok(())
}

#[test]
fn an_answer_with_short_lows_is_its_byte_or_damaged(rt: HostRuntime) -> Result<(), Fail> {
    for byte in 0..256u32 {
        for early in 0..417u32 {
            // a low of two half bits takes 667 to 1,000 µs, and one of one half bit 334 to 500
            let byte = byte as u8;
            let told = told_with(&[], byte, early, &[]);
            let wanted = if early <= 83 {
                Answer::Byte(byte)
            } else {
                Answer::Damaged
            };
            same(&rt, &told, &Some(wanted));
        }
    }
    Ok(())
}

#[test]
fn short_lows_at_rest_are_no_silence(rt: HostRuntime) -> Result<(), Fail> {
    for low in [1, 99, 100, 333] {
        let lows = [
            2500, low, 800, low, 800, low, 800, low, 800, low, 800, low, 800, low, 800, low, 800,
            low,
        ];
        same(&rt, &told_of(&lows, 4000), &Some(Answer::Damaged));
    }
    Ok(())
}

#[test]
fn one_pulse_is_passed_over(rt: HostRuntime) -> Result<(), Fail> {
    for (low, wanted) in [
        (0, Answer::Silence),
        (99, Answer::Silence),
        (100, Answer::Damaged),
        (333, Answer::Damaged),
        (334, Answer::Damaged),
        (501, Answer::Damaged),
    ] {
        same(&rt, &told_of(&[6000, low], 12_401), &Some(wanted));
    }
    same(&rt, &told_of(&[6000, 99], 6301), &None);
    same(&rt, &told_of(&[6000, 99], 6302), &Some(Answer::Silence));
    same(
        &rt,
        &told_of(&[6000, 99, 3000, 99], 12_401),
        &Some(Answer::Damaged),
    );
    Ok(())
}

#[test]
fn a_byte_has_at_most_one_pulse_beside_it(rt: HostRuntime) -> Result<(), Fail> {
    let byte = Answer::Byte(0x93);
    let pulse: &[u32] = &[3000, 99];
    let longer: &[u32] = &[3000, 100];
    let none: &[u32] = &[];
    for (before, after, wanted) in [
        (pulse, none, byte),
        (none, pulse, byte),
        (pulse, pulse, Answer::Damaged),
        (longer, none, Answer::Damaged),
        (none, longer, Answer::Damaged),
        (&[3000, 200], none, Answer::Damaged),
        (none, &[3000, 200], Answer::Damaged),
        // too early after the frame, in its stop condition
        (none, &[2000, 50], Answer::Damaged),
        // two in a row
        (&[1000, 50, 1000, 50], none, Answer::Damaged),
        (none, &[3000, 50, 1000, 50], Answer::Damaged),
    ] {
        same(&rt, &told_with(before, 0x93, 0, after), &Some(wanted));
    }
    Ok(())
}

#[test]
fn a_pulse_amid_a_byte_damages_it(rt: HostRuntime) -> Result<(), Fail> {
    // the byte FF, in the third high of which the bus is low for 50 µs
    let times = [
        6000, 417, 417, 417, 417, 417, 180, 50, 187, 417, 417, 417, 417, 417, 417, 417, 417, 417,
        417, 417,
    ];
    same(&rt, &told_of(&times, 4000), &Some(Answer::Damaged));
    Ok(())
}

#[test]
fn a_missed_edge_is_damaged(rt: HostRuntime) -> Result<(), Fail> {
    for is_low in [false, true] {
        let mut window = Window::new();
        if is_low {
            window.edge(true, 3000);
        }
        window.edge(is_low, 3000);
        window.edge(false, 50);
        same(&rt, &window.time(12_401), &Some(Answer::Damaged));
    }
    Ok(())
}
