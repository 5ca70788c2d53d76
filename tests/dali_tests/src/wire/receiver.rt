//! The receiver: each frame at each bit time, and what is no frame.

use super::edges::{hear, read, same, told_of};
use dali_frame::Forward;
use dali_wire::{Frame, Receiver, Sender, Told};
use std::test::Fail;

#[test]
fn every_byte_is_read_at_every_bit_time(rt: HostRuntime) -> Result<(), Fail> {
    for half in [334, 367, 400, 416, 417, 450, 467, 500] {
        for byte in 0..=255u8 {
            same(
                &rt,
                &read(Sender::backward(byte), half),
                &Some(Frame::Backward(byte)),
            );
        }
    }
    Ok(())
}

#[test]
fn frames_are_read_at_every_bit_time(rt: HostRuntime) -> Result<(), Fail> {
    for half in [334, 417, 500] {
        for (address_byte, opcode_byte) in [
            (0xA9, 0x00),
            (0xA5, 0xFF),
            (0x00, 0x00),
            (0xFF, 0xFF),
            (0x55, 0xAA),
        ] {
            let frame = Forward {
                address_byte,
                opcode_byte,
            };
            same(
                &rt,
                &read(Sender::forward(frame), half),
                &Some(Frame::Forward(frame)),
            );
        }
    }
    Ok(())
}

#[test]
fn a_frame_is_told_once_with_its_times(rt: HostRuntime) -> Result<(), Fail> {
    let mut receiver = Receiver::new();
    let (early, _) = hear(&mut receiver, Sender::backward(0x0B), 400, 50_000);
    same(&rt, &early, &None);
    same(&rt, &receiver.time(2399), &None);
    // 17 half bits from the first edge to the last one, in the middle of the last bit, a 1
    let wanted = Told {
        frame: Frame::Backward(0x0B),
        lasted: 6800,
        since: 2400,
    };
    same(&rt, &receiver.time(2400), &Some(wanted));
    same(&rt, &receiver.time(2401), &None);
    Ok(())
}

#[test]
fn a_frame_that_nobody_asked_for_is_told_at_the_next_edge(rt: HostRuntime) -> Result<(), Fail> {
    let mut receiver = Receiver::new();
    let (_, since) = hear(&mut receiver, Sender::backward(0x80), 417, 50_000);
    let (told, since) = hear(&mut receiver, Sender::backward(0x7F), 417, since + 3000);
    same(&rt, &told.map(|it| it.frame), &Some(Frame::Backward(0x80)));
    same(
        &rt,
        &receiver.time(since + 2400).map(|it| it.frame),
        &Some(Frame::Backward(0x7F)),
    );
    Ok(())
}

/// A byte FF by its times: 9 bits are 9 lows and 8 highs between them.
const ALL_ONES: [u32; 17] = [417; 17];

#[test]
fn each_time_has_its_limits(rt: HostRuntime) -> Result<(), Fail> {
    for (time, is_right) in [
        (333, false),
        (334, true),
        (500, true),
        (501, false),
        (666, false),
    ] {
        for place in 0..17usize {
            let mut times = ALL_ONES;
            times[place] = time;
            // a first low that is too short is noise, and what follows begins as the frame of a bit less
            let wanted = if is_right {
                Frame::Backward(0xFF)
            } else {
                Frame::Damaged
            };
            same(&rt, &told_of(&times), &Some(wanted));
        }
    }
    // 0 after the start bit: the high between them takes two half bits
    for (time, is_right) in [
        (501, false),
        (666, false),
        (667, true),
        (1000, true),
        (1001, false),
    ] {
        let times = [
            417, time, 417, 417, 417, 417, 417, 417, 417, 417, 417, 417, 417, 417, 417, 417, 417,
        ];
        let wanted = if is_right {
            Frame::Backward(0x00)
        } else {
            Frame::Damaged
        };
        same(&rt, &told_of(&times), &Some(wanted));
    }
    Ok(())
}

#[test]
fn a_bit_that_is_low_throughout_is_no_bit(rt: HostRuntime) -> Result<(), Fail> {
    // a byte 00 and a byte FF, begun together: each bit after the start bit is low throughout
    same(&rt, &told_of(&[417, 417, 6672]), &Some(Frame::Damaged));
    // the same, one bit of it: FF and FE
    same(
        &rt,
        &told_of(&[
            417, 417, 417, 417, 417, 417, 417, 417, 417, 417, 417, 417, 417, 417, 417, 417, 834,
        ]),
        &Some(Frame::Damaged),
    );
    Ok(())
}

#[test]
fn another_number_of_bits_is_damaged(rt: HostRuntime) -> Result<(), Fail> {
    for bits in 1..=30usize {
        let times = [417u32; 59];
        let wanted = match bits {
            9 => Frame::Backward(0xFF),
            17 => Frame::Forward(Forward {
                address_byte: 0xFF,
                opcode_byte: 0xFF,
            }),
            25 => Frame::Device(0xFFFFFF),
            _ => Frame::Damaged,
        };
        same(&rt, &told_of(&times[..2 * bits - 1]), &Some(wanted));
    }
    Ok(())
}

#[test]
fn a_stop_condition_that_is_too_short_is_no_end(rt: HostRuntime) -> Result<(), Fail> {
    let mut receiver = Receiver::new();
    let (_, _) = hear(&mut receiver, Sender::backward(0xFF), 417, 50_000);
    same(&rt, &receiver.edge(true, 2399), &None);
    same(&rt, &receiver.edge(false, 417), &None);
    same(
        &rt,
        &receiver.time(2400).map(|it| it.frame),
        &Some(Frame::Damaged),
    );
    Ok(())
}

#[test]
fn noise_is_not_told(rt: HostRuntime) -> Result<(), Fail> {
    let mut receiver = Receiver::new();
    for (high, low) in [(10_000, 1), (1, 333), (2400, 200), (7, 7), (100_000, 333)] {
        same(&rt, &receiver.edge(true, high), &None);
        same(&rt, &receiver.edge(false, low), &None);
        same(&rt, &receiver.time(5000), &None);
    }
    same(
        &rt,
        &read(Sender::backward(0x42), 417),
        &Some(Frame::Backward(0x42)),
    );
    Ok(())
}

#[test]
fn a_missed_edge_is_a_fault(rt: HostRuntime) -> Result<(), Fail> {
    let mut receiver = Receiver::new();
    same(&rt, &receiver.edge(true, 20_000), &None);
    same(&rt, &receiver.edge(true, 834), &None);
    same(&rt, &receiver.edge(false, 417), &None);
    same(
        &rt,
        &receiver.time(2400).map(|it| it.frame),
        &Some(Frame::Damaged),
    );
    same(&rt, &receiver.edge(false, 9000), &None);
    same(&rt, &receiver.time(9000), &None);
    Ok(())
}
