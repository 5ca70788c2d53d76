//! The levels of frames: a bit 1 is low, then high; a bit 0 is high, then low.

use super::edges::same;
use dali_frame::Forward;
use dali_wire::Sender;
use std::test::Fail;

/// The half bits of a sender, `L` while the bus is low and `H` while it is high.
fn levels(sender: Sender) -> [u8; 42] {
    let mut sender = sender;
    let mut text = [b' '; 42];
    for place in text.iter_mut() {
        match sender.half() {
            Some(true) => *place = b'L',
            Some(false) => *place = b'H',
            None => {}
        }
    }
    text
}

#[test]
fn a_byte_is_nine_bits_and_a_stop_condition(rt: HostRuntime) -> Result<(), Fail> {
    same(
        &rt,
        &levels(Sender::backward(0xFF)),
        b"LHLHLHLHLHLHLHLHLHHHHHHH                  ",
    );
    same(
        &rt,
        &levels(Sender::backward(0x00)),
        b"LHHLHLHLHLHLHLHLHLHHHHHH                  ",
    );
    same(
        &rt,
        &levels(Sender::backward(0x0B)),
        b"LHHLHLHLHLLHHLLHLHHHHHHH                  ",
    );
    Ok(())
}

#[test]
fn a_frame_is_seventeen_bits_and_a_stop_condition(rt: HostRuntime) -> Result<(), Fail> {
    let compare = Forward {
        address_byte: 0xA9,
        opcode_byte: 0x00,
    };
    same(
        &rt,
        &levels(Sender::forward(compare)),
        b"LHLHHLLHHLLHHLHLLHHLHLHLHLHLHLHLHLHHHHHH  ",
    );
    Ok(())
}

#[test]
fn a_sender_is_over_once(rt: HostRuntime) -> Result<(), Fail> {
    let mut sender = Sender::backward(0x55);
    for _ in 0..24u8 {
        same(&rt, &sender.half().is_some(), &true);
    }
    for _ in 0..3u8 {
        same(&rt, &sender.half(), &None);
    }
    Ok(())
}
