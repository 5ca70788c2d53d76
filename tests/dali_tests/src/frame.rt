//! Frames, addresses and priorities, by the codes of IEC 62386-102:2014.

use super::values::{frame, random, same, short};
use dali_frame::{Forward, HexError, Priority, Random24, SearchAddress, Short};
use std::fmt::Display;
use std::process::Abort;
use std::test::Fail;

#[test]
fn short_addresses_have_codes(rt: HostRuntime) -> Result<(), Fail> {
    for (number, code) in [(0, 0x01), (5, 0x0B), (63, 0x7F)] {
        let address = short(number)?;
        same(&rt, &(address.code(), address.number()), &(code, number));
        same(&rt, &Short::read(code), &Some(address));
    }
    for byte in [0x00, 0x02, 0x81, 0xFF] {
        same(&rt, &Short::read(byte), &None);
    }
    same(&rt, &Short::of(64), &None);
    Ok(())
}

/// The number of the priority of this number.
fn level_of(number: u8) -> Option<u8> {
    match Priority::of(number) {
        Some(priority) => Some(priority.number()),
        None => None,
    }
}

#[test]
fn priorities_are_1_to_5(rt: HostRuntime) {
    for (number, wanted) in [
        (0, None),
        (1, Some(1)),
        (3, Some(3)),
        (5, Some(5)),
        (6, None),
    ] {
        same(&rt, &level_of(number), &wanted);
    }
}

#[test]
fn random_addresses_have_24_bits(rt: HostRuntime) -> Result<(), Fail> {
    let ends = [Random24::of(0x1000000), Random24::of(0xFFFFFF)];
    same(&rt, &ends, &[None, Some(Random24::MASK)]);
    let number = random(0x123456)?;
    let bytes = [number.high(), number.middle(), number.low()];
    same(
        &rt,
        &(number.value(), bytes),
        &(0x123456, [0x12, 0x34, 0x56]),
    );
    let made = [
        Random24::from_bytes(0x12, 0x34, 0x56),
        SearchAddress::of(number).value(),
        SearchAddress::MASK.value(),
    ];
    same(&rt, &made, &[number, number, Random24::MASK]);
    Ok(())
}

/// A value is written so.
fn is_written<T: Display, R: Abort + AllocGlobal>(
    rt: &R,
    value: &T,
    wanted: &str,
) -> Result<(), Fail> {
    let text = value.to_string(rt.alloc())?;
    same(rt, &text.as_str(), &wanted);
    Ok(())
}

/// A text is no frame, for this cause and with this code.
fn is_no_frame<R: Abort>(rt: &R, text: &[u8], wanted: (HexError, u8)) {
    let refusal = match Forward::read_hex(text) {
        Ok(_) => None,
        Err(error) => Some((error, error.number())),
    };
    same(rt, &refusal, &Some(wanted));
}

#[test]
fn frames_are_read_and_written(rt: HostRuntime) -> Result<(), Fail> {
    let read = frame(b"a5Ff")?;
    same(&rt, &[read.address_byte, read.opcode_byte], &[0xA5, 0xFF]);
    let mut text = [0; 4];
    read.write_hex(&mut text);
    same(&rt, &text, b"A5FF");
    is_written(&rt, &read, "A5FF")
}

#[test]
fn other_texts_are_no_frames(rt: HostRuntime) {
    for (text, wanted) in [
        (b"A1F".as_slice(), (HexError::NotFourDigits, 1)),
        (b"A1FF0".as_slice(), (HexError::NotFourDigits, 1)),
        (b"A1FG".as_slice(), (HexError::NotHex, 2)),
        (b"@1FF".as_slice(), (HexError::NotHex, 2)),
    ] {
        is_no_frame(&rt, text, wanted);
    }
}

#[test]
fn random_addresses_are_read_and_written(rt: HostRuntime) -> Result<(), Fail> {
    let read = Random24::read_hex(b"0aBc9F").ok_or("six digits")?;
    same(&rt, &read.value(), &0x0ABC9F);
    for text in [b"12345".as_slice(), b"12345g".as_slice()] {
        same(&rt, &Random24::read_hex(text), &None);
    }
    is_written(&rt, &read, "0ABC9F")
}
