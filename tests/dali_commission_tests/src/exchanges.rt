//! `dali_commission replace` over gear in memory: luminaires are exchanged, and what the bus tells is something else
//! than the files of an earlier call say.

use super::bus::Bus;
use super::cabinet::Cabinet;
use super::room::{Room, call};
use dali_commission_program::Stores;
use dali_console::Failed;
use dali_frame::Short;
use std::process::Abort;

const BOTH_AGAIN: &[u8] = b"dali_commission replace 0 --records two.db --records site.db --again";

/// The program over a bus ends with this status, and says this.
pub fn ends_over<R: Abort + AllocGlobal>(
    rt: &R,
    words: &[u8],
    mut cabinet: &Cabinet,
    bus: &Bus,
    wanted: u8,
    said: &str,
) {
    let room = Room::new(rt.alloc(), words, bus);
    let status = match call(&room, &mut cabinet) {
        Ok(()) => 0,
        Err(failure) => failure.status(),
    };
    assert!(rt; status == wanted);
    assert!(rt; room.has_said(said));
}

const FIRST: &[u8] = b"dali_commission run --records site.db --others 1-63 0-0";

const SECOND: &[u8] = b"dali_commission run --records two.db --others 0-0 1-63";

const BOTH: &[u8] = b"dali_commission replace 0 --records two.db --records site.db";

/// The number of the gear among the first two with a short address.
fn with<R: Abort>(rt: &R, bus: &Bus, wanted: u8) -> usize {
    let mut found = 3;
    for number in 0..2usize {
        if let Some((_, Some(short))) = bus.gear(number) {
            found = if short.number() == wanted {
                number
            } else {
                found
            };
        }
    }
    assert!(rt; found < 2);
    found
}

/// Two gear with addresses 0 and 1, each given by another controller; the first one is gone, and a new one is there.
fn exchanged<R: Abort + AllocGlobal>(rt: &R) -> (Cabinet, Bus) {
    let (cabinet, bus) = (Cabinet::new(rt.alloc()), Bus::of(rt.alloc(), 4));
    bus.switch(2, false);
    bus.switch(3, false);
    ends_over(rt, FIRST, &cabinet, &bus, 6, "ended: block-full\n");
    ends_over(rt, SECOND, &cabinet, &bus, 0, "2 are in the table");
    bus.switch(with(rt, &bus, 0), false);
    bus.switch(2, true);
    (cabinet, bus)
}

fn has_first(bus: &Bus) -> bool {
    match bus.gear(2) {
        Some((_, short)) => short == Some(Short::FIRST),
        None => false,
    }
}

#[test]
fn a_luminaire_is_replaced_in_one_file_or_two(rt: HostRuntime) {
    let (cabinet, bus) = exchanged(&rt);
    let words = b"dali_commission replace 0 --records two.db 0-63";
    ends_over(
        &rt,
        words,
        &cabinet,
        &bus,
        0,
        "the new luminaire has the address; 2 gear are in each table\n",
    );
    assert!(rt; has_first(&bus));
    assert!(rt; cabinet.count() == 3);
    ends_over(
        &rt,
        b"dali_commission check --records two.db",
        &cabinet,
        &bus,
        0,
        "0 of them not there; 0 strangers",
    );
    let (cabinet, bus) = exchanged(&rt);
    ends_over(
        &rt,
        BOTH,
        &cabinet,
        &bus,
        0,
        "two.db: the old file is kept as two.db.before-1\nsite.db: the old",
    );
    assert!(rt; has_first(&bus));
    assert!(rt; cabinet.count() == 4);
    for words in [
        b"dali_commission check --records two.db".as_slice(),
        b"dali_commission check --records site.db".as_slice(),
    ] {
        ends_over(
            &rt,
            words,
            &cabinet,
            &bus,
            0,
            "2 in the table, 0 of them not there; 0 strangers",
        );
    }
}

/// Wherever the exchange of the files is stopped, the same line goes on, also if the new luminaire has the address.
#[test]
fn a_replacement_goes_on_after_each_step_that_fails(rt: HostRuntime) {
    for left in 0..8u32 {
        let (cabinet, bus) = exchanged(&rt);
        cabinet.limit(Some(left));
        ends_over(
            &rt,
            BOTH,
            &cabinet,
            &bus,
            12,
            "error: the files cannot be exchanged: it cannot be opened\n",
        );
        cabinet.limit(None);
        let said = if left < 2 {
            "going on with what an earlier call began\n"
        } else {
            "short address 0: the files that an earlier call began to exchange are exchanged now\n"
        };
        ends_over(&rt, BOTH, &cabinet, &bus, 0, said);
        assert!(rt; has_first(&bus));
        assert!(rt; cabinet.count() == 4);
        ends_over(
            &rt,
            b"dali_commission check --records site.db",
            &cabinet,
            &bus,
            0,
            "2 in the table, 0 of them",
        );
    }
}

#[test]
fn not_exactly_one_new_luminaire_is_refused(rt: HostRuntime) {
    let (cabinet, bus) = exchanged(&rt);
    bus.switch(3, true);
    ends_over(
        &rt,
        BOTH,
        &cabinet,
        &bus,
        11,
        "several luminaires without short address are there",
    );
    bus.switch(2, false);
    bus.switch(3, false);
    ends_over(
        &rt,
        BOTH,
        &cabinet,
        &bus,
        11,
        "no luminaire without short address was found\n",
    );
    // An earlier call has begun to give the address to a gear that is gone since.
    bus.switch(2, true);
    assert!(rt; cabinet.has_put("site.db.new", &[(1, 0, 0x111111)]));
    ends_over(
        &rt,
        BOTH,
        &cabinet,
        &bus,
        11,
        "short address 0: the new luminaire did not get it: call again when the new one alone answers, or begin anew",
    );
    let mut places = &cabinet;
    let _ = places.remove(rt.alloc(), "site.db.new");
    bus.switch(with(&rt, &bus, 0), true);
    ends_over(
        &rt,
        BOTH,
        &cabinet,
        &bus,
        11,
        "short address 0: a gear answers at it",
    );
    assert!(rt; cabinet.count() == 2);
}

const ALONE: &[u8] = b"dali_commission run --records site.db 0-63";

/// What the old files have reserved stays reserved, so each luminaire of a site may be replaced, one after the other.
#[test]
fn luminaires_are_replaced_one_after_the_other(rt: HostRuntime) {
    let (cabinet, bus) = exchanged(&rt);
    ends_over(
        &rt,
        BOTH,
        &cabinet,
        &bus,
        0,
        "the new luminaire has the address",
    );
    bus.switch(with(&rt, &bus, 1), false);
    bus.switch(3, true);
    let words = b"dali_commission replace 1 --records site.db --records two.db";
    ends_over(
        &rt,
        words,
        &cabinet,
        &bus,
        0,
        "site.db: the old file is kept as site.db.before-2\n",
    );
    assert!(rt; cabinet.count() == 6);
    for (words, status) in [
        (b"dali_commission check --records two.db".as_slice(), 0),
        (
            b"dali_commission check --records two.db.before-2".as_slice(),
            1,
        ),
    ] {
        ends_over(&rt, words, &cabinet, &bus, status, "2 in the table");
    }
}

/// A call that was stopped after the new file had all is gone on with: the bus is asked again, and no address given.
#[test]
fn a_new_file_that_has_all_is_gone_on_with(rt: HostRuntime) {
    let (cabinet, bus) = (Cabinet::new(rt.alloc()), Bus::of(rt.alloc(), 3));
    bus.switch(2, false);
    ends_over(&rt, ALONE, &cabinet, &bus, 0, "2 are in the table");
    bus.switch(with(&rt, &bus, 0), false);
    bus.switch(2, true);
    let words = b"dali_commission replace 0 --records site.db --only";
    cabinet.limit(Some(0));
    ends_over(
        &rt,
        words,
        &cabinet,
        &bus,
        12,
        "the files cannot be exchanged",
    );
    ends_over(
        &rt,
        b"dali_commission replace 1 --records site.db --only",
        &cabinet,
        &bus,
        11,
        "finish that first, or begin anew with --again",
    );
    cabinet.limit(None);
    ends_over(
        &rt,
        words,
        &cabinet,
        &bus,
        0,
        "going on with what an earlier call began\n0 ",
    );
    assert!(rt; has_first(&bus));
    ends_over(
        &rt,
        b"dali_commission check --records site.db",
        &cabinet,
        &bus,
        0,
        "2 addresses reserved",
    );
}

/// What an earlier call has given is not there any more, or not alone; and the way out.
#[test]
fn what_an_earlier_call_has_given_must_answer(rt: HostRuntime) {
    let (cabinet, bus) = exchanged(&rt);
    let old = with(&rt, &bus, 0);
    cabinet.limit(Some(0));
    ends_over(
        &rt,
        BOTH,
        &cabinet,
        &bus,
        12,
        "the files cannot be exchanged",
    );
    cabinet.limit(None);
    assert!(rt; has_first(&bus));
    let count = cabinet.count();
    for (is_new_on, is_old_on, is_other_on, said) in [
        (
            false,
            false,
            false,
            "the new luminaire does not answer at it",
        ),
        (
            false,
            false,
            true,
            "the new luminaire does not answer at it",
        ),
        (
            false,
            true,
            false,
            "another luminaire than the new one answers at it",
        ),
        (true, true, false, "several luminaires answer at it"),
    ] {
        bus.switch(2, is_new_on);
        bus.switch(old, is_old_on);
        bus.switch(3, is_other_on);
        ends_over(&rt, BOTH, &cabinet, &bus, 11, said);
        ends_over(
            &rt,
            BOTH,
            &cabinet,
            &bus,
            11,
            "not replaced, no file of records was changed: short address 0: ",
        );
        assert!(rt; cabinet.count() == count);
    }
    bus.switch(2, false);
    bus.switch(old, false);
    bus.switch(3, true);
    ends_over(
        &rt,
        BOTH_AGAIN,
        &cabinet,
        &bus,
        0,
        "site.db.new: put aside as site.db.aside-1\n",
    );
    assert!(rt; cabinet.count() == 6);
    ends_over(
        &rt,
        b"dali_commission check --records site.db",
        &cabinet,
        &bus,
        0,
        "2 in the table, 0 of them not there; 0 strangers",
    );
}
