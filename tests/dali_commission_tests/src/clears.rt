//! `dali_commission clear` over gear in memory: what is erased, which files are put aside, and what is refused.

use super::bus::Bus;
use super::cabinet::Cabinet;
use super::exchanges::ends_over;
use std::process::Abort;

const CLEAR: &[u8] = b"dali_commission clear --yes --records site.db --records two.db";

const RUN: &[u8] = b"dali_commission run --records site.db 0-63";

/// Two gear that share a short address, one without random address, and one that has both.
const FOUR: [(u8, u32); 4] = [(5, 0x123456), (5, 0x654321), (6, 0xFFFFFF), (7, 0xABCDEF)];

/// Whether each gear has its random address as before, and a short address or none.
fn are<R: Abort>(rt: &R, bus: &Bus, have_any: bool) {
    for (number, (_, random)) in FOUR.iter().enumerate() {
        match bus.gear(number) {
            Some((own, short)) => {
                assert!(rt; own.value() == *random && short.is_some() == have_any)
            }
            None => assert!(rt; false),
        }
    }
}

/// Without its word nothing is put aside, and no frame is put.
#[test]
fn a_clear_wants_its_word(rt: HostRuntime) {
    let (cabinet, bus) = (Cabinet::new(rt.alloc()), Bus::with(rt.alloc(), &FOUR));
    assert!(rt; cabinet.has_put("site.db", &[(2, 7, 0xABCDEF)]));
    let words = b"dali_commission clear --records site.db";
    ends_over(&rt, words, &cabinet, &bus, 2, "say --yes");
    let words = b"dali_commission clear 0-63 --yes --records site.db";
    ends_over(&rt, words, &cabinet, &bus, 2, "'0-63'");
    assert!(rt; bus.frames() == 0);
    assert!(rt; cabinet.count() == 1 && cabinet.is("site.db", &[(2, 7, 0xABCDEF)]));
    are(&rt, &bus, true);
}

#[test]
fn all_gear_lose_their_short_addresses(rt: HostRuntime) {
    let (cabinet, bus) = (Cabinet::new(rt.alloc()), Bus::with(rt.alloc(), &FOUR));
    assert!(rt; cabinet.has_put("site.db", &[(2, 7, 0xABCDEF)]));
    assert!(rt; cabinet.has_put("site.db.before-1", &[]));
    // An empty file stays.
    assert!(rt; cabinet.has_put("two.db", &[]));
    let said =
        "site.db: the old file is kept as site.db.before-2\ntaking all short addresses away, round 1\n\
        no gear answers at a short address any more\n";
    ends_over(&rt, CLEAR, &cabinet, &bus, 0, said);
    are(&rt, &bus, false);
    assert!(rt; cabinet.count() == 3 && cabinet.is("site.db.before-2", &[(2, 7, 0xABCDEF)]));
    // What is called again finds nothing to do; then a run begins anew.
    ends_over(&rt, CLEAR, &cabinet, &bus, 0, "round 1\n");
    ends_over(
        &rt,
        RUN,
        &cabinet,
        &bus,
        0,
        "4 gear were enrolled, 4 are in",
    );
}

/// No file is put aside where another one is to lie that is named, though it is not there yet.
#[test]
fn a_file_is_not_put_aside_under_a_name_of_the_call(rt: HostRuntime) {
    let (cabinet, bus) = (Cabinet::new(rt.alloc()), Bus::with(rt.alloc(), &FOUR));
    assert!(rt; cabinet.has_put("site.db", &[(2, 7, 0xABCDEF)]));
    let words = b"dali_commission clear --yes --records site.db --records site.db.before-1";
    let said = "site.db: the old file is kept as site.db.before-2\n";
    ends_over(&rt, words, &cabinet, &bus, 0, said);
    assert!(rt; cabinet.is("site.db.before-2", &[(2, 7, 0xABCDEF)]) && cabinet.count() == 1);
}

/// What a replacement that was stopped has left beside a file is put aside, and hinders no replacement of the new site.
#[test]
fn new_files_of_a_replacement_are_put_aside(rt: HostRuntime) {
    let (cabinet, bus) = (Cabinet::new(rt.alloc()), Bus::with(rt.alloc(), &FOUR));
    assert!(rt; cabinet.has_put("site.db", &[(2, 7, 0xABCDEF)]));
    assert!(rt; cabinet.has_put("site.db.new", &[(1, 7, 0xABCDEF)]));
    let said = "site.db.new: put aside as site.db.aside-1\n";
    ends_over(&rt, CLEAR, &cabinet, &bus, 0, said);
    assert!(rt; cabinet.is("site.db.aside-1", &[(1, 7, 0xABCDEF)]));
    assert!(rt; cabinet.is("site.db.before-1", &[(2, 7, 0xABCDEF)]) && cabinet.count() == 2);
}

/// A bus without gear, one that has only gear without short address, and one whose driver ends.
#[test]
fn a_clear_says_how_it_ends(rt: HostRuntime) {
    let cabinet = Cabinet::new(rt.alloc());
    let bus = Bus::of(rt.alloc(), 0);
    ends_over(&rt, CLEAR, &cabinet, &bus, 10, "no gear answered");
    let bus = Bus::of(rt.alloc(), 2);
    ends_over(&rt, CLEAR, &cabinet, &bus, 0, "");
    let bus = Bus::with(rt.alloc(), &FOUR);
    bus.fail(20);
    ends_over(&rt, CLEAR, &cabinet, &bus, 10, "no gear answered");
    let bus = Bus::with(rt.alloc(), &FOUR);
    assert!(rt; cabinet.has_put("site.db", &[(2, 7, 0xABCDEF)]));
    bus.limit(Some(0));
    ends_over(&rt, CLEAR, &cabinet, &bus, 4, "end of input");
    assert!(rt; cabinet.is("site.db.before-1", &[(2, 7, 0xABCDEF)]));
}

/// A file that cannot be put aside: no frame is put.
#[test]
fn files_are_put_aside_before_a_frame(rt: HostRuntime) {
    let (cabinet, bus) = (Cabinet::new(rt.alloc()), Bus::with(rt.alloc(), &FOUR));
    assert!(rt; cabinet.has_put("site.db", &[(2, 7, 0xABCDEF)]));
    cabinet.limit(Some(0));
    ends_over(&rt, CLEAR, &cabinet, &bus, 5, "it cannot be opened");
    assert!(rt; bus.frames() == 0);
    are(&rt, &bus, true);
}
