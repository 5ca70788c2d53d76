//! The loop over lines in memory, with each fault of reader, writer and store.

use super::broken::Broken;
use super::bus::{Bus, Put, Told};
use dali_commissioning::{
    CommissionFault, DriverFault, DriverLink, Ended, Newcomers, Unwatched, Watch, commission,
    look_for_newcomers, told_of,
};
use dali_frame::{Answer, Short};
use dali_reserve::{Keep, KeepError, MemoryKeep};
use dali_script::{Block, End, Input, Kept, Order};
use std::io::Write;
use std::process::Abort;

/// How machines end that begin with Start.
fn ended<K: Keep, W: Write>(
    keep: &mut K,
    driver: &mut DriverLink<&[u8], W>,
) -> Result<Ended, CommissionFault> {
    match commission(keep, driver, &mut Unwatched, Input::Start, 1) {
        Ok(pass) => Ok(pass.ended),
        Err(fault) => Err(fault),
    }
}

/// What machines come to over a driver that answers this, and at which of its lines.
fn ends_as<R: Abort + AllocGlobal, K: Keep + Drop, W: Write + Drop>(
    rt: &R,
    keep: K,
    answers: &[u8],
    writer: W,
    wanted: Result<Ended, CommissionFault>,
    line: u64,
) {
    let mut keep = keep;
    let mut driver = DriverLink::new(rt.alloc(), answers, writer);
    let found = ended(&mut keep, &mut driver);
    assert!(rt; found == wanted);
    assert!(rt; driver.lines() == line);
}

/// A store in memory with no records.
fn none_kept() -> MemoryKeep {
    MemoryKeep::new(Block::ALL)
}

/// A writer that takes nothing.
#[derive(Drop)]
struct Full;

impl Write for Full {
    fn write(&mut self, _buf: &[u8]) -> std::io::Result<usize> {
        Err(std::io::Error::from(std::io::ErrorKind::StorageFull))
    }

    fn flush(&mut self) -> std::io::Result<()> {
        Ok(())
    }
}

/// A driver's answers to an opening, and to a search that ends at the gear with random address 000000, which has no
/// short address.
fn found<R: Abort + AllocGlobal>(rt: &R) -> String {
    let mut text = String::new(rt.alloc());
    let mut is_made = text
        .push_str("silence\nsilence\nsilence\nsilence\nsilence\n")
        .is_ok();
    for _ in 0..SEARCHES {
        is_made = is_made
            && text
                .push_str("silence\nsilence\nsilence\nbyte FF\n")
                .is_ok();
    }
    assert!(rt; is_made);
    text
}

/// How many searches there are with the question for the short address behind them.
const SEARCHES: u8 = 26;

/// What it answers then, if the gear is programmed with short address 0 and withdrawn, and no other is left; and to
/// one run more.
const GIVEN: &str = "\
silence\nsilence\nsilence\nbyte FF\nsilence\nbyte 01\nsilence\n\
silence\nsilence\nsilence\nsilence\nsilence\n\
silence\nsilence\nsilence\nsilence\nsilence\nsilence\nsilence\nsilence\nsilence\nsilence\n";

#[test]
fn a_gear_is_given_an_address(rt: HostRuntime) {
    let mut answers = found(&rt);
    assert!(rt; answers.push_str(GIVEN).is_ok());
    let mut keep = none_kept();
    let mut driver = DriverLink::new(rt.alloc(), answers.as_bytes(), std::io::sink());
    let found = ended(&mut keep, &mut driver);
    assert!(rt; found == Ok(Ended::Done(End::AllFound)));
    assert!(rt; driver.lines() == 131);
    match keep.read() {
        Ok(kept) => assert!(rt; kept.enrolled().len() == 1 && kept.reserved().len() == 1),
        Err(_) => panic!(rt; "not read"),
    }
}

/// Counts what it sees.
#[derive(Drop)]
struct Counted {
    ordered: u64,
    told: u64,
}

impl Watch for Counted {
    fn ordered(&mut self, _order: &Order) {
        self.ordered += 1;
    }

    fn told(&mut self, _told: Input) {
        self.told += 1;
    }
}

/// Each line of the driver is told, and each of two commits; nothing is told of the last order of either machine.
#[test]
fn a_watch_sees_each_order_and_what_comes_of_it(rt: HostRuntime) {
    let mut answers = found(&rt);
    assert!(rt; answers.push_str(GIVEN).is_ok());
    let mut keep = none_kept();
    let mut driver = DriverLink::new(rt.alloc(), answers.as_bytes(), std::io::sink());
    let mut watch = Counted {
        ordered: 0,
        told: 0,
    };
    assert!(rt; commission(&mut keep, &mut driver, &mut watch, Input::Start, 1).is_ok());
    assert!(rt; watch.told == driver.lines() + 2);
    assert!(rt; watch.ordered == watch.told + 2);
}

#[test]
fn a_store_that_fails_ends_the_run(rt: HostRuntime) {
    let answers = found(&rt);
    let ended = Err(CommissionFault::Store(KeepError::StoreFailed));
    let broken = Broken::of(Kept::new(Block::ALL));
    ends_as(&rt, broken, answers.as_bytes(), std::io::sink(), ended, 109);
}

#[test]
fn a_line_tells_what_became_of_a_frame(rt: HostRuntime) {
    for (line, told) in [
        (b"silence".as_slice(), Some(Input::Heard(Answer::Silence))),
        (b"damaged".as_slice(), Some(Input::Heard(Answer::Damaged))),
        (b"byte 0a".as_slice(), Some(Input::Heard(Answer::Byte(10)))),
        (b"byte FF".as_slice(), Some(Input::Heard(Answer::Byte(255)))),
        (b"destroyed".as_slice(), Some(Input::Destroyed)),
        (b"lapsed".as_slice(), Some(Input::Lapsed)),
        (b"".as_slice(), None),
        (b"byte".as_slice(), None),
        (b"byte 0".as_slice(), None),
        (b"byte 0g".as_slice(), None),
        (b"byte 000".as_slice(), None),
        (b"Silence".as_slice(), None),
        (b"silence\r".as_slice(), None),
        (b"committed".as_slice(), None),
    ] {
        assert!(rt; told_of(line) == told);
    }
}

#[test]
fn a_driver_that_fails_ends_the_run_by_name_and_line(rt: HostRuntime) {
    for (answers, fault, line) in [
        (b"".as_slice(), DriverFault::Ended, 1),
        (b"silence\n".as_slice(), DriverFault::Ended, 2),
        (b"silence\nsil".as_slice(), DriverFault::TornLine, 2),
        (b"silence\nnothing\n".as_slice(), DriverFault::BadLine, 2),
        (b"silence\n\n".as_slice(), DriverFault::BadLine, 2),
        (b"silence silence\n".as_slice(), DriverFault::BadLine, 1),
        (b"silence silence s\n".as_slice(), DriverFault::LongLine, 1),
    ] {
        let ended = Err(CommissionFault::Driver(fault));
        ends_as(&rt, none_kept(), answers, std::io::sink(), ended, line);
    }
}

#[test]
fn a_driver_that_takes_no_line_ends_the_run(rt: HostRuntime) {
    let ended = Err(CommissionFault::Driver(DriverFault::Write));
    ends_as(&rt, none_kept(), b"silence\n", Full, ended, 0);
}

/// Who is found on a bus by a store of one address, which keeps nothing of it.
fn found_on<R: Abort + AllocGlobal>(
    rt: &R,
    bus: &Bus,
    short: Short,
) -> Result<Newcomers, CommissionFault> {
    let keep = MemoryKeep::new(Block {
        first: short,
        last: short,
    });
    let mut driver = DriverLink::new(rt.alloc(), Told(bus), Put(bus));
    look_for_newcomers(keep, &mut driver, &mut Unwatched)
}

#[test]
fn one_newcomer_is_told_from_none_and_from_two_and_given_nothing(rt: HostRuntime) {
    let Some(five) = Short::of(5) else {
        panic!(rt; "no short address");
    };
    for count in 0..4usize {
        let bus = Bus::of(rt.alloc(), count);
        let found = found_on(&rt, &bus, five);
        match (count, found) {
            (0, Ok(Newcomers::Nobody)) | (2.., Ok(Newcomers::Several)) => {}
            (1, Ok(Newcomers::One(random))) => assert!(rt; bus.gear(0) == Some((random, None))),
            _ => panic!(rt; "found otherwise"),
        }
        for number in 0..count {
            assert!(rt; matches!(bus.gear(number), Some((_, None))));
        }
        // One is given 5. It is no newcomer any more, and a survey that has no other address to give looks for no gear.
        let mut keep = MemoryKeep::new(Block {
            first: five,
            last: five,
        });
        let mut driver = DriverLink::new(rt.alloc(), Told(&bus), Put(&bus));
        assert!(rt; commission(&mut keep, &mut driver, &mut Unwatched, Input::Survey, 1).is_ok());
        let wanted = if count < 2 {
            Newcomers::Nobody
        } else {
            Newcomers::Unclear(Ended::Done(End::BlockFull))
        };
        assert!(rt; found_on(&rt, &bus, five) == Ok(wanted));
    }
}
