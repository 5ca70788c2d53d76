//! `dali_commission mend` over gear in memory: who keeps a short address that gear share, what is refused, and stops.

use super::bus::Bus;
use super::cabinet::Cabinet;
use super::exchanges::ends_over;
use super::room::{Room, call};
use dali_console::Failed;
use dali_frame::Short;
use std::process::Abort;

const RUN: &[u8] = b"dali_commission run --records site.db 0-63";

const CHECK: &[u8] = b"dali_commission check --records site.db";

const MEND: &[u8] = b"dali_commission mend --records site.db 0-63";

const FIVE: &[u8] = b"dali_commission mend 5 --records site.db 0-63";

/// Two gear that share a short address, and one with another.
const THREE: [(u8, u32); 3] = [(5, 0x123456), (5, 0x654321), (7, 0xABCDEF)];

/// The short address of a gear with this random address.
fn short_of(bus: &Bus, number: usize, random: u32) -> Option<Short> {
    match bus.gear(number) {
        Some((own, short)) if own.value() == random => short,
        _ => None,
    }
}

fn has<R: Abort>(rt: &R, bus: &Bus, number: usize, random: u32, short: u8) {
    assert!(rt;
        short_of(bus, number, random) == Short::of(short),
        "gear {number}"
    );
}

#[test]
fn words_that_ask_for_no_mend_are_refused(rt: HostRuntime) {
    let (cabinet, bus) = (Cabinet::new(rt.alloc()), Bus::with(rt.alloc(), &THREE));
    for (words, said) in [
        (
            b"dali_commission mend 5 0-63".as_slice(),
            "--records <FILE>",
        ),
        (
            b"dali_commission mend --records site.db".as_slice(),
            "<WORD>",
        ),
        (
            b"dali_commission mend 5 --records site.db".as_slice(),
            "invalid value '5': not a block such as 0-63",
        ),
        (
            b"dali_commission mend 5 64 --records site.db 0-63".as_slice(),
            "invalid value '64': not a short address, 0 to 63",
        ),
        (
            b"dali_commission mend 5 --records site.db --missing 64 0-63".as_slice(),
            "'64'",
        ),
        (
            b"dali_commission mend --records site.db --others 9-20 0-15".as_slice(),
            "in common",
        ),
        (
            b"dali_commission mend --records site.db --driver x 0-63".as_slice(),
            "launcher",
        ),
    ] {
        ends_over(&rt, words, &cabinet, &bus, 2, said);
    }
    assert!(rt; bus.frames() == 0);
}

/// A run and a check name what is to be called, and end with a status of their own; the mend serves both gear.
#[test]
fn gear_that_share_an_address_are_told_apart(rt: HostRuntime) {
    let (cabinet, bus) = (Cabinet::new(rt.alloc()), Bus::with(rt.alloc(), &THREE));
    let said = "gear share a short address, or have no random one: call ./dali_commission mend";
    ends_over(
        &rt,
        RUN,
        &cabinet,
        &bus,
        13,
        "5 - a gear answers, but its random address",
    );
    ends_over(&rt, CHECK, &cabinet, &bus, 13, said);
    ends_over(&rt, RUN, &cabinet, &bus, 13, said);
    let told = "5 123456 one gear alone answers, and keeps it\n5 654321 lost it, and has 0 now\n";
    ends_over(&rt, FIVE, &cabinet, &bus, 0, told);
    has(&rt, &bus, 0, 0x123456, 5);
    has(&rt, &bus, 1, 0x654321, 0);
    has(&rt, &bus, 2, 0xABCDEF, 7);
    ends_over(
        &rt,
        CHECK,
        &cabinet,
        &bus,
        0,
        "3 in the table, 0 of them not there",
    );
    ends_over(&rt, RUN, &cabinet, &bus, 0, "3 are in the table");
    // Once no gear share an address, all is done.
    ends_over(
        &rt,
        MEND,
        &cabinet,
        &bus,
        0,
        "0 gear were enrolled, 3 are in the table",
    );
}

#[test]
fn a_run_may_mend_at_its_end(rt: HostRuntime) {
    let (cabinet, bus) = (Cabinet::new(rt.alloc()), Bus::with(rt.alloc(), &THREE));
    let words = b"dali_commission run --mend --records site.db 0-63";
    let room = Room::new(rt.alloc(), words, &bus);
    assert!(rt; call(&room, &mut &cabinet).is_ok());
    assert!(rt; room.has_said("left alone\n1 gear were enrolled, 1 are in the table"));
    assert!(rt; room.has_said("5 654321 lost it, and has 0 now\n2 gear were enrolled, 3 are"));
    ends_over(
        &rt,
        CHECK,
        &cabinet,
        &bus,
        0,
        "3 in the table, 0 of them not there",
    );
}

/// The gear of the table keeps the address, though the other one has a lower number.
#[test]
fn the_gear_of_the_table_keeps_the_address(rt: HostRuntime) {
    let (cabinet, bus) = (Cabinet::new(rt.alloc()), Bus::with(rt.alloc(), &THREE));
    assert!(rt; cabinet.has_put("site.db", &[(2, 5, 0x654321), (2, 7, 0xABCDEF)]));
    ends_over(
        &rt,
        MEND,
        &cabinet,
        &bus,
        0,
        "5 123456 lost it, and has 0 now\n",
    );
    has(&rt, &bus, 0, 0x123456, 0);
    has(&rt, &bus, 1, 0x654321, 5);
    // The table of another file counts too.
    let (cabinet, bus) = (Cabinet::new(rt.alloc()), Bus::with(rt.alloc(), &THREE));
    assert!(rt; cabinet.has_put("two.db", &[(2, 5, 0x654321)]));
    let both = b"dali_commission mend --records site.db --records two.db 0-63";
    ends_over(
        &rt,
        both,
        &cabinet,
        &bus,
        0,
        "5 123456 lost it, and has 0 now\n",
    );
    has(&rt, &bus, 1, 0x654321, 5);
    assert!(rt; cabinet.is("two.db", &[(2, 5, 0x654321)]));
}

/// After a RESET gear have a short address and no random address: each keeps the address, and draws a number.
#[test]
fn gear_without_random_address_keep_their_addresses(rt: HostRuntime) {
    let gear = [(0, 0xFFFFFF), (1, 0xFFFFFF), (2, 0xFFFFFF), (3, 0xFFFFFF)];
    let (cabinet, bus) = (Cabinet::new(rt.alloc()), Bus::with(rt.alloc(), &gear));
    ends_over(&rt, RUN, &cabinet, &bus, 13, "0 are in the table");
    ends_over(
        &rt,
        MEND,
        &cabinet,
        &bus,
        0,
        "4 gear were enrolled, 4 are in the table",
    );
    for number in 0..4u8 {
        match bus.gear(usize::from(number)) {
            Some((random, short)) => {
                assert!(rt; short == Short::of(number));
                assert!(rt; random.value() != 0xFFFFFF);
            }
            None => assert!(rt; false),
        }
    }
    ends_over(
        &rt,
        CHECK,
        &cabinet,
        &bus,
        0,
        "4 in the table, 0 of them not there",
    );
}

/// Each refusal, after questions alone.
#[test]
fn what_does_not_fit_is_refused(rt: HostRuntime) {
    let nothing = "not mended, nothing was changed: short address ";
    for (words, at, said) in [
        (
            b"dali_commission mend 9 --records site.db 0-63".as_slice(),
            7,
            "9: no gear answers at it\n",
        ),
        (
            b"dali_commission mend 5 --records site.db --others 4-6 0-3".as_slice(),
            7,
            "5: it lies in the block of another controller",
        ),
        (FIVE, 8, "8: a gear of the tables is not there as recorded"),
        (
            b"dali_commission mend --records site.db --records two.db 0-63".as_slice(),
            7,
            "7: the tables disagree about it\n",
        ),
        (
            b"dali_commission mend --records site.db --records three.db 0-63".as_slice(),
            7,
            "9: the block has it, but it is reserved in another file",
        ),
    ] {
        let (cabinet, bus) = (Cabinet::new(rt.alloc()), Bus::with(rt.alloc(), &THREE));
        assert!(rt; cabinet.has_put("site.db", &[(2, at, 0xABCDEF)]));
        assert!(rt; cabinet.has_put("two.db", &[(2, 7, 0x111111)]));
        assert!(rt; cabinet.has_put("three.db", &[(1, 9, 0x222222)]));
        ends_over(&rt, words, &cabinet, &bus, 11, nothing);
        ends_over(&rt, words, &cabinet, &bus, 11, said);
        has(&rt, &bus, 0, 0x123456, 5);
        has(&rt, &bus, 1, 0x654321, 5);
        has(&rt, &bus, 2, 0xABCDEF, 7);
        assert!(rt; cabinet.is("site.db", &[(2, at, 0xABCDEF)]));
    }
}

#[test]
fn gear_that_are_gone_may_be_named(rt: HostRuntime) {
    let (cabinet, bus) = (Cabinet::new(rt.alloc()), Bus::with(rt.alloc(), &THREE));
    let records = [(2, 5, 0x654321), (2, 8, 0x333333)];
    assert!(rt; cabinet.has_put("site.db", &records));
    let said = "8 333333 missing\nnot mended, nothing was changed: short address 8: a gear";
    ends_over(&rt, FIVE, &cabinet, &bus, 11, said);
    let words = b"dali_commission mend --records site.db --missing 8 0-63";
    ends_over(&rt, words, &cabinet, &bus, 0, "4 are in the table");
    has(&rt, &bus, 1, 0x654321, 5);
}

/// A gear of the table that has another short address, among others, is found there, and has its own again. Without
/// it, it is named.
#[test]
fn a_gear_that_hangs_among_others_has_its_own_again(rt: HostRuntime) {
    for records in [
        [(2, 8, 0x123456), (2, 7, 0xABCDEF)].as_slice(),
        &[(2, 8, 0x123456), (2, 7, 0xABCDEF), (2, 5, 0x654321)],
    ] {
        let (cabinet, bus) = (Cabinet::new(rt.alloc()), Bus::with(rt.alloc(), &THREE));
        assert!(rt; cabinet.has_put("site.db", records));
        let said =
            "random address 123456: it answers at short address 5, but the table has it at 8\n";
        ends_over(&rt, MEND, &cabinet, &bus, 0, said);
        has(&rt, &bus, 0, 0x123456, 8);
        has(&rt, &bus, 1, 0x654321, 5);
        has(&rt, &bus, 2, 0xABCDEF, 7);
    }
    let (cabinet, bus) = (Cabinet::new(rt.alloc()), Bus::with(rt.alloc(), &THREE));
    assert!(rt; cabinet.has_put("site.db", &[(2, 8, 0x333333), (2, 9, 0x654321)]));
    ends_over(
        &rt,
        MEND,
        &cabinet,
        &bus,
        11,
        "8: a gear of the tables is not there",
    );
    has(&rt, &bus, 1, 0x654321, 5);
}

/// Of gear whose answers are lost or damaged most of the time it is not said that they share an address, and none
/// changes.
#[test]
fn weak_answers_are_unclear(rt: HostRuntime) {
    let gear = [(5, 0x123456), (7, 0xABCDEF)];
    let (cabinet, bus) = (Cabinet::new(rt.alloc()), Bus::with(rt.alloc(), &gear));
    assert!(rt; cabinet.has_put("site.db", &[(2, 7, 0xABCDEF)]));
    bus.weaken(5, 4);
    let mut unclear = 0;
    for words in [CHECK, MEND, CHECK, FIVE, CHECK, RUN, CHECK] {
        let room = Room::new(rt.alloc(), words, &bus);
        let status = match call(&room, &mut &cabinet) {
            Ok(()) => 0,
            Err(failure) => failure.status(),
        };
        assert!(rt; status != 13);
        if status == 15 {
            assert!(rt; room.has_said("unclear: more than one control gear may answer"));
            unclear += 1;
        }
        has(&rt, &bus, 0, 0x123456, 5);
        has(&rt, &bus, 1, 0xABCDEF, 7);
    }
    assert!(rt; unclear > 0);
}

#[test]
fn a_dead_bus_is_told(rt: HostRuntime) {
    let (cabinet, bus) = (Cabinet::new(rt.alloc()), Bus::with(rt.alloc(), &THREE));
    for number in 0..3usize {
        bus.switch(number, false);
    }
    ends_over(&rt, MEND, &cabinet, &bus, 10, "no gear answered");
    assert!(rt; bus.frames() == 576);
}

/// The bus loses its power at a frame. What looks then like gear that are not there is told.
#[test]
fn a_bus_that_fails_on_the_way_is_told(rt: HostRuntime) {
    let whole = Bus::with(rt.alloc(), &THREE);
    ends_over(&rt, MEND, &Cabinet::new(rt.alloc()), &whole, 0, "");
    let mut at = 550;
    while at < whole.frames() - 9 {
        let (cabinet, bus) = (Cabinet::new(rt.alloc()), Bus::with(rt.alloc(), &THREE));
        bus.fail(at);
        let room = Room::new(rt.alloc(), MEND, &bus);
        let status = match call(&room, &mut &cabinet) {
            Ok(()) => 0,
            Err(failure) => failure.status(),
        };
        assert!(rt; status == 10 || status == 7);
        at += 37;
    }
}

/// Two gear with the random address of the table cannot be told apart, and the others are served all the same.
#[test]
fn twins_of_the_table_stay(rt: HostRuntime) {
    let gear = [(5, 0x123456), (5, 0x123456), (7, 0xABCDEF), (7, 0x111111)];
    let (cabinet, bus) = (Cabinet::new(rt.alloc()), Bus::with(rt.alloc(), &gear));
    assert!(rt; cabinet.has_put("site.db", &[(2, 5, 0x123456)]));
    let words = b"dali_commission mend --records site.db 0-63";
    let room = Room::new(rt.alloc(), words, &bus);
    assert!(rt; call(&room, &mut &cabinet).is_err());
    let said =
        "5 123456 several gear have this random address, or its answers are weak; left as it is\n\
        7 111111 one gear alone answers, and keeps it\n7 ABCDEF lost it, and has 0 now\n";
    assert!(rt; room.has_said(said));
    bus.switch(1, false);
    ends_over(&rt, MEND, &cabinet, &bus, 0, "3 are in the table");
}

/// A mend that is stopped at a frame, and called again.
#[test]
fn a_stopped_mend_goes_on(rt: HostRuntime) {
    let whole = Bus::with(rt.alloc(), &THREE);
    ends_over(&rt, MEND, &Cabinet::new(rt.alloc()), &whole, 0, "");
    let mut stop = 570;
    while stop < whole.frames() {
        let (cabinet, bus) = (Cabinet::new(rt.alloc()), Bus::with(rt.alloc(), &THREE));
        bus.limit(Some(stop));
        ends_over(&rt, MEND, &cabinet, &bus, 4, "end of input");
        bus.limit(None);
        ends_over(&rt, MEND, &cabinet, &bus, 0, "3 are in the table");
        has(&rt, &bus, 2, 0xABCDEF, 7);
        ends_over(
            &rt,
            CHECK,
            &cabinet,
            &bus,
            0,
            "3 in the table, 0 of them not there",
        );
        stop += 9;
    }
}
