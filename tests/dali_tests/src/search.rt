//! The search for the least random address.

use super::values::{random, same};
use dali_search::{Search, Step};
use std::process::Abort;
use std::test::Fail;

/// Whether one of these numbers is at most this one.
fn has_at_most(members: &[u32], most: u32) -> bool {
    for member in members {
        if *member <= most {
            return true;
        }
    }
    false
}

/// What a search over a set of numbers ends with, after how many probes.
fn end_of(members: &[u32]) -> Option<(Step, usize)> {
    let mut search = Search::new();
    for probes in 1..30 {
        let probe = search.probe().value();
        let step = search.answer(has_at_most(members, probe));
        if step != Step::Again {
            return Some((step, probes));
        }
    }
    None
}

/// A search over 0xFFFFFE and this number finds the number, by so many probes.
fn finds<R: Abort>(rt: &R, number: u32, probes: usize) -> Result<(), Fail> {
    let found = Step::Found(random(number)?);
    same(rt, &end_of(&[0xFFFFFE, number]), &Some((found, probes)));
    Ok(())
}

#[test]
fn searches_end_with_the_least_member(rt: HostRuntime) -> Result<(), Fail> {
    for (number, probes) in [
        (0x000000, 25),
        (0x000001, 25),
        (0x123456, 25),
        (0x7FFFFF, 25),
        (0x800000, 25),
        (0xFFFFFD, 25),
        (0xFFFFFE, 24),
    ] {
        finds(&rt, number, probes)?;
    }
    Ok(())
}

#[test]
fn a_search_over_nobody_has_one_probe(rt: HostRuntime) {
    same(&rt, &end_of(&[]), &Some((Step::Nobody, 1)));
}

/// The search asks these numbers, each with its answer.
fn asks<R: Abort>(rt: &R, search: &mut Search, probes: &[(u32, bool)], wanted: Step) {
    for (probe, yes) in probes {
        same(rt, &search.probe().value(), probe);
        same(rt, &search.answer(*yes), &wanted);
    }
}

#[test]
fn probes_halve_what_is_left(rt: HostRuntime) {
    let probes = [
        (0xFFFFFE, true),
        (0x7FFFFF, false),
        (0xBFFFFF, true),
        (0x9FFFFF, true),
        (0x8FFFFF, false),
        (0x97FFFF, false),
        (0x9BFFFF, true),
    ];
    asks(&rt, &mut Search::new(), &probes, Step::Again);
}

#[test]
fn an_end_comes_again(rt: HostRuntime) {
    let probes = [(0xFFFFFE, false), (0xFFFFFE, true), (0xFFFFFE, false)];
    asks(&rt, &mut Search::new(), &probes, Step::Nobody);
}

/// The search that is made of the three numbers of this one, if it is the same.
fn made_again(search: &Search) -> Option<Search> {
    let made = Search::of(search.answers(), search.least(), search.probe())?;
    if made.probe() == search.probe() && made.step() == search.step() {
        Some(made)
    } else {
        None
    }
}

/// Whether a search for this number that is made again after each answer goes on as it would have, to its end.
fn goes_on_anew(number: u32) -> bool {
    let mut search = Search::new();
    for _ in 0..26 {
        match made_again(&search) {
            Some(made) => search = made,
            None => return false,
        }
        search.answer(number <= search.probe().value());
    }
    search.step() != Step::Again
}

#[test]
fn a_search_is_made_again_of_three_numbers(rt: HostRuntime) {
    for number in [0, 0x123456, 0xFFFFFE, 0xFFFFFF] {
        same(&rt, &(number, goes_on_anew(number)), &(number, true));
    }
}

/// Whether there is a search of so many answers that leave this least number, with this probe.
fn is_search(answers: u8, least: u32, probe: u32) -> Result<bool, Fail> {
    Ok(Search::of(answers, random(least)?, random(probe)?).is_some())
}

#[test]
fn numbers_of_no_search_are_refused(rt: HostRuntime) -> Result<(), Fail> {
    let cases = [
        ((0, 0, 0xFFFFFE), true),
        ((1, 0, 0x7FFFFF), true),
        ((1, 0xFFFFFF, 0xFFFFFE), true),
        ((0, 0, 0x7FFFFF), false),
        ((0, 1, 0xFFFFFE), false),
        ((1, 5, 0x7FFFFF), false),
        ((1, 0xFFFFFF, 0xFFFFFF), false),
        ((26, 0, 0), false),
    ];
    for ((answers, least, probe), wanted) in cases {
        same(&rt, &is_search(answers, least, probe)?, &wanted);
    }
    Ok(())
}
