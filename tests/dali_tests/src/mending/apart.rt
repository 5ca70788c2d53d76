//! Gear that share a short address are told apart, on a bus without trouble.

use super::site::{Addresses, Dice, ENOUGH, SHARED, Site, are, mended, mending_of, random, short};
use dali_frame::Short;
use dali_gear::Reach;
use dali_mending::{Mending, Outcome};
use dali_script::{Block, Input, Kept, Pair};
use dali_special::{Command, Target};
use std::process::Abort;
use std::test::Fail;

/// Gear with these addresses are mended with this table, and end so.
fn ends<R: Abort>(
    rt: &R,
    gear: &[Addresses],
    table: Option<u32>,
    outcome: Outcome,
    wanted: &[Addresses],
) -> Result<u32, Fail> {
    let mut site = Site::of(gear)?;
    let (ended, _) = mended(&mut site, table)?;
    assert_eq!(rt; ended, Some(outcome));
    are(rt, &site, wanted);
    Ok(site.frames)
}

const AT: Option<u8> = Some(SHARED);

/// A gear alone is left as it is, after three questions of three frames, with a table and without.
#[test]
fn a_gear_alone_keeps_its_address(rt: HostRuntime) -> Result<(), Fail> {
    let gear = [(AT, 0x123456), (Some(6), 0xABCDEF)];
    for table in [None, Some(0x123456)] {
        let kept = Outcome::Kept(random(0x123456)?);
        assert_eq!(rt; ends(&rt, &gear, table, kept, &gear)?, 9);
    }
    Ok(())
}

/// Of two to four gear that no table has, the one with the least number keeps the address.
#[test]
fn the_least_number_keeps_it(rt: HostRuntime) -> Result<(), Fail> {
    let kept = Outcome::Kept(random(0x100000)?);
    let two = [(AT, 0x765432), (AT, 0x100000)];
    ends(&rt, &two, None, kept, &[(None, 0x765432), (AT, 0x100000)])?;
    let four = [
        (AT, 0x765432),
        (AT, 0x100000),
        (AT, 0x100001),
        (AT, 0xFFFFFE),
    ];
    let wanted = [
        (None, 0x765432),
        (AT, 0x100000),
        (None, 0x100001),
        (None, 0xFFFFFE),
    ];
    ends(&rt, &four, None, kept, &wanted)?;
    Ok(())
}

/// Who has lost the address is told, in the order of the numbers.
#[test]
fn it_is_told_who_lost_it(rt: HostRuntime) -> Result<(), Fail> {
    let mut site = Site::of(&[(AT, 0x300000), (AT, 0x200000), (AT, 0xFFFFFF)])?;
    let (outcome, mending) = mended(&mut site, Some(0x300000))?;
    assert_eq!(rt; outcome, Some(Outcome::Kept(random(0x300000)?)));
    assert_eq!(rt; mending.erased().len(), 2);
    assert_eq!(rt; mending.erased()[0].value(), 0x200000);
    assert_eq!(rt; mending.erased()[1].value(), 0xFFFFFF);
    assert_eq!(rt; mending.short().number(), SHARED);
    assert!(rt; mending.course().keeper == Some(random(0x300000)?));
    Ok(())
}

/// A gear for which the table has another short address does not keep this one, though it has the least number.
#[test]
fn a_gear_that_hangs_here_loses_it(rt: HostRuntime) -> Result<(), Fail> {
    let mut site = Site::of(&[(AT, 0x300000), (AT, 0x100000)])?;
    let elsewhere = [Pair::of(short(9)?, random(0x100000)?)];
    let mut mending = Mending::new(short(SHARED)?, &elsewhere);
    let outcome = site.mend(&mut mending, ENOUGH);
    assert_eq!(rt; outcome, Some(Outcome::Kept(random(0x300000)?)));
    are(&rt, &site, &[(AT, 0x300000), (None, 0x100000)]);
    Ok(())
}

/// The gear of a table keeps it, whatever the other numbers are.
#[test]
fn the_gear_of_the_table_keeps_it(rt: HostRuntime) -> Result<(), Fail> {
    let kept = Outcome::Kept(random(0x300000)?);
    let gear = [
        (AT, 0x200000),
        (AT, 0x300000),
        (AT, 0xFFFFFF),
        (AT, 0x400000),
    ];
    let wanted = [
        (None, 0x200000),
        (AT, 0x300000),
        (None, 0xFFFFFF),
        (None, 0x400000),
    ];
    ends(&rt, &gear, Some(0x300000), kept, &wanted)?;
    Ok(())
}

/// Gear without random address draw one, and one of them keeps the address.
#[test]
fn gear_without_number_draw(rt: HostRuntime) -> Result<(), Fail> {
    for count in 1..5 {
        let gear = [(AT, 0xFFFFFF); 4];
        let mut site = Site::of(&gear[..count])?;
        let (outcome, _) = mended(&mut site, None)?;
        assert_eq!(rt; site.sharing(), 1, "of {count}");
        assert!(rt; matches!(outcome, Some(Outcome::Kept(number)) if number.value() < 0xFFFFFF));
    }
    Ok(())
}

/// A gear that has a number keeps it and the address, and the one without loses the address.
#[test]
fn who_has_a_number_goes_before_who_has_none(rt: HostRuntime) -> Result<(), Fail> {
    let kept = Outcome::Kept(random(0x654321)?);
    let gear = [(AT, 0xFFFFFF), (AT, 0x654321)];
    ends(&rt, &gear, None, kept, &[(None, 0xFFFFFF), (AT, 0x654321)])?;
    Ok(())
}

/// Twins cannot be told apart from a gear whose answers are weak, so they stay as they are, whether a table has one or
/// none.
#[test]
fn twins_stay(rt: HostRuntime) -> Result<(), Fail> {
    // Their answers overlap: one byte, or damaged, as two are heard here.
    let gear = [(AT, 0x123456), (AT, 0x123456)];
    let twins = Outcome::Twins(random(0x123456)?);
    ends(&rt, &gear, Some(0x123456), twins, &gear)?;
    ends(&rt, &gear, None, twins, &gear)?;
    Ok(())
}

/// A gear that shares its short address with none keeps both addresses, however its answers are lost and damaged.
#[test]
fn a_lone_gear_with_weak_answers_stays(rt: HostRuntime) -> Result<(), Fail> {
    for (trouble, seed) in [(100, 300), (300, 400), (500, 500), (800, 600)] {
        for number in seed..seed + 25u64 {
            let gear = [(AT, 0x123456), (Some(6), 0x654321)];
            let mut site = Site::of(&gear)?;
            site.dice = Dice(number);
            site.trouble = trouble;
            let table = if number % 2 == 0 {
                None
            } else {
                Some(0x123456)
            };
            let (outcome, mending) = mended(&mut site, table)?;
            assert!(rt; outcome.is_some());
            assert!(rt; mending.erased().is_empty());
            are(&rt, &site, &gear);
        }
    }
    Ok(())
}

/// It changes nothing if no gear answers, if another one alone does, or if others answer and the gear of the table does
/// not.
#[test]
fn it_is_refused(rt: HostRuntime) -> Result<(), Fail> {
    let away = [(Some(9), 0x300000)];
    ends(&rt, &away, None, Outcome::Nobody, &away)?;
    ends(&rt, &away, Some(0x123456), Outcome::Nobody, &away)?;
    let another = [(AT, 0x300000)];
    let other = Outcome::Another(random(0x300000)?);
    ends(&rt, &another, Some(0x123456), other, &another)?;
    let others = [(AT, 0x300000), (AT, 0x400000), (AT, 0xFFFFFF)];
    let missing = Outcome::Missing(random(0x123456)?);
    ends(&rt, &others, Some(0x123456), missing, &others)?;
    Ok(())
}

/// An address in a block of others is refused before anything is asked; else the table says who keeps it.
#[test]
fn a_block_of_others_is_refused(rt: HostRuntime) -> Result<(), Fail> {
    let mut table = Kept::new(Block::ALL);
    let _ = table.add(dali_script::Record::Enrol(short(SHARED)?, random(0x123456)?));
    let others = [Block {
        first: short(4)?,
        last: short(5)?,
    }];
    assert!(rt; Mending::of(&table, &others, short(5)?).is_none());
    let mending = Mending::of(&table, &others, short(6)?);
    assert!(rt; matches!(mending, Some(it) if it.course().table.is_none()));
    let mending = Mending::of(&table, &[], short(5)?);
    assert!(rt; matches!(mending, Some(it) if it.course().table == Some(random(0x123456)?)));
    Ok(())
}

/// Gear with other addresses, or none, stay as they are, also if another controller has left them initialised.
#[test]
fn no_other_gear_changes(rt: HostRuntime) -> Result<(), Fail> {
    let gear = [
        (AT, 0xFFFFFF),
        (AT, 0xFFFFFF),
        (Some(6), 0xFFFFFF),
        (None, 0x111111),
        (Some(7), 0x111111),
    ];
    let mut site = Site::of(&gear)?;
    for command in [
        Command::Initialise(Target::All),
        Command::Initialise(Target::All),
        Command::Randomise,
    ] {
        let _ = site.take(command, Reach::Everyone);
    }
    let (outcome, _) = mended(&mut site, None)?;
    assert!(rt; matches!(outcome, Some(Outcome::Kept(_))));
    for number in 2..5 {
        assert_eq!(rt; site.gear(number), gear[number]);
    }
    assert_eq!(rt; site.sharing(), 1);
    Ok(())
}

/// A transaction that is lost eight times in a row ends it.
#[test]
fn what_is_lost_eight_times_ends_it(rt: HostRuntime) -> Result<(), Fail> {
    let mut mending = Mending::new(Short::FIRST, &[]);
    for _ in 0..7 {
        mending.told(Input::Destroyed);
        assert_eq!(rt; mending.outcome(), None);
    }
    mending.told(Input::Lapsed);
    assert_eq!(rt; mending.outcome(), Some(Outcome::Lost));
    assert!(rt; mending.put().is_none());
    Ok(())
}

/// On a bus on which nothing but noise is heard, and on one that says yes to everything, it ends too.
#[test]
fn it_ends_on_a_bad_bus(rt: HostRuntime) -> Result<(), Fail> {
    for answer in [
        dali_frame::Answer::Damaged,
        dali_frame::Answer::Byte(0xFF),
        dali_frame::Answer::Byte(11),
    ] {
        for table in [None, Some(random(0x123456)?)] {
            let mut mending = mending_of(table)?;
            let mut frames = 0u32;
            for _ in 0..200_000u32 {
                if mending.put().is_none() {
                    break;
                }
                mending.told(Input::Heard(answer));
                frames += 1;
            }
            assert!(rt; mending.outcome().is_some(), "after {frames} frames");
        }
    }
    Ok(())
}
