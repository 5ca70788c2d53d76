//! Sites by seeds, on buses with troubles, and mendings that are stopped.

use super::site::{Addresses, Dice, ENOUGH, SHARED, Site, mending_of, random};
use dali_mending::Outcome;
use std::process::Abort;
use std::test::Fail;

/// How many calls a site may need.
const CALLS: u32 = 12;

/// A number that no other gear of the site has, or none.
fn number_of(dice: &mut Dice, place: usize, may_lack: bool) -> u32 {
    if may_lack && dice.roll(3) == 0 {
        0xFFFFFF
    } else {
        dice.roll(0xFFFFF) * 16 + place as u32
    }
}

/// Two to four gear that share the address, and four others.
fn gear_of(dice: &mut Dice, has_table: bool) -> ([Addresses; 8], usize) {
    let sharing = 2 + dice.roll(3) as usize;
    let mut gear = [(None, 0xFFFFFF); 8];
    for place in 0..8 {
        let may_lack = place != 0 || !has_table;
        let number = number_of(dice, place, may_lack);
        gear[place] = if place < sharing {
            (Some(SHARED), number)
        } else if place < 7 {
            (Some(SHARED + 1 + place as u8), number)
        } else {
            (None, number)
        };
    }
    (gear, sharing)
}

/// One site: it is called, and called again where it was stopped, or something was left open.
fn settles<R: Abort>(rt: &R, seed: u64, trouble: u32) -> Result<bool, Fail> {
    let mut dice = Dice(seed);
    let has_table = seed % 2 == 0;
    let (gear, sharing) = gear_of(&mut dice, has_table);
    let table = if has_table {
        Some(random(gear[0].1)?)
    } else {
        None
    };
    let mut site = Site::of(&gear)?;
    site.dice = dice;
    site.trouble = trouble;
    let mut is_settled = false;
    for call in 0..CALLS {
        let mut mending = mending_of(table)?;
        let frames = if call < 2 {
            site.dice.roll(200)
        } else {
            ENOUGH
        };
        let outcome = site.mend(&mut mending, frames);
        // What is promised at every moment.
        assert!(rt; site.sharing() >= 1, "seed {seed}");
        if has_table {
            assert_eq!(rt; site.gear(0), gear[0], "seed {seed}");
        }
        for place in 0..8 {
            let was = gear[place];
            let is = site.gear(place);
            if place < sharing {
                assert!(rt;
                    is.0 == was.0 || is.0.is_none(),
                    "seed {seed}, gear {place}"
                );
            } else {
                assert_eq!(rt; is, was, "seed {seed}, gear {place}");
            }
        }
        if matches!(outcome, Some(Outcome::Kept(_))) && site.sharing() == 1 {
            is_settled = true;
            break;
        }
    }
    Ok(is_settled)
}

/// Without trouble each site is settled by the first call that is not stopped.
#[test]
fn stopped_sites_are_settled(rt: HostRuntime) -> Result<(), Fail> {
    for seed in 0..60 {
        assert!(rt; settles(&rt, seed, 0)?, "seed {seed}");
    }
    Ok(())
}

/// So it is with troubles at one frame in a hundred, after some calls.
#[test]
fn troubled_sites_are_settled(rt: HostRuntime) -> Result<(), Fail> {
    for seed in 100..160 {
        assert!(rt; settles(&rt, seed, 10)?, "seed {seed}");
    }
    Ok(())
}

/// With one in twenty nothing is promised but that no other gear changes.
#[test]
fn bad_buses_change_no_other_gear(rt: HostRuntime) -> Result<(), Fail> {
    let mut settled = 0;
    for seed in 200..230 {
        if settles(&rt, seed, 50)? {
            settled += 1;
        }
    }
    assert!(rt; settled > 10, "{settled}");
    Ok(())
}
