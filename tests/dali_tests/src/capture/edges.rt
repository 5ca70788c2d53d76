//! Frames and answers, as a bus would have them.

use super::reading::{forward, other, tells, tells_of};
use dali_capture::{Heard, Item};
use dali_frame::Forward;
use dali_wire::Sender;
use std::test::Fail;

/// Adds the edges of a frame to a dump, each half bit so many µs long, and then the time at which the bus was high for
/// a stop condition. `low` and `high` are the words of these levels.
fn send(
    text: &mut String,
    sender: Sender,
    begin: u64,
    half: u64,
    words: (&str, &str),
) -> Result<(), Fail> {
    let mut sender = sender;
    let mut was_low = false;
    let mut now = begin;
    for _ in 0..64u8 {
        let Some(is_low) = sender.half() else {
            write!(text, "#{now}\n")?;
            return Ok(());
        };
        if is_low != was_low {
            let word = if is_low { words.0 } else { words.1 };
            write!(text, "#{now} {word}\n")?;
        }
        was_low = is_low;
        now += half;
    }
    Ok(())
}

fn head<R: AllocGlobal>(rt: &R) -> Result<String, Fail> {
    let mut text = String::new(rt.alloc());
    text.push_str("$timescale 1 us $end $var wire 1 ! D0 $end $enddefinitions $end\n")?;
    Ok(text)
}

const RANDOMISE: Forward = Forward {
    address_byte: 0xA7,
    opcode_byte: 0x00,
};

/// RANDOMISE at 417 µs a half bit: its last bit is 0, so its last edge is the rise behind its 34th half bit.
const PUT: Item = Item {
    at: 10_000,
    until: 10_000 + 33 * 417 + 417,
    what: Heard::Forward(RANDOMISE),
};

#[test]
fn frames_and_answers_are_read(rt: HostRuntime) -> Result<(), Fail> {
    for (is_inverted, words, rest) in [
        (false, ("0!", "1!"), "#0 1!\n"),
        (true, ("1!", "0!"), "#0 0!\n"),
    ] {
        let mut text = head(&rt)?;
        text.push_str(rest)?;
        send(&mut text, Sender::forward(RANDOMISE), 10_000, 417, words)?;
        send(&mut text, Sender::backward(0xFF), 30_000, 400, words)?;
        tells_of(
            &rt,
            None,
            is_inverted,
            text.as_str(),
            &[PUT, other(30_000, 30_000 + 17 * 400, Heard::Backward(0xFF))],
        );
    }
    Ok(())
}

#[test]
fn before_the_bus_was_at_rest_nothing_is_told(rt: HostRuntime) -> Result<(), Fail> {
    let mut text = head(&rt)?;
    text.push_str("#8000 1!\n")?;
    send(
        &mut text,
        Sender::forward(RANDOMISE),
        10_000,
        417,
        ("0!", "1!"),
    )?;
    tells(&rt, text.as_str(), &[]);
    send(
        &mut text,
        Sender::forward(RANDOMISE),
        60_000,
        417,
        ("0!", "1!"),
    )?;
    tells(
        &rt,
        text.as_str(),
        &[forward(60_000, 60_000 + 34 * 417, 0xA7, 0x00)],
    );
    Ok(())
}

#[test]
fn what_has_not_ended_is_not_told(rt: HostRuntime) -> Result<(), Fail> {
    let mut text = head(&rt)?;
    text.push_str("#0 1!\n")?;
    send(
        &mut text,
        Sender::forward(RANDOMISE),
        10_000,
        417,
        ("0!", "1!"),
    )?;
    tells(&rt, text.as_str(), &[PUT]);
    // the same without the last time, at which the bus was at rest
    let Some(end) = text.as_str().rfind('#') else {
        panic!(rt; "no time");
    };
    tells(&rt, &text.as_str()[..end], &[]);
    Ok(())
}
