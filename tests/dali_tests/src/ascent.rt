//! The search that goes up from one random address to the next.

use super::values::{random, same};
use dali_search::{Ascent, Step};
use std::process::Abort;
use std::test::Fail;

/// The ascent asks these numbers, each with its answer, and then leads to this.
fn asks<R: Abort>(rt: &R, ascent: &mut Ascent, probes: &[(u32, bool)], wanted: Step) {
    for (probe, yes) in probes {
        same(rt, &ascent.step(), &Step::Again);
        same(rt, &ascent.probe().value(), probe);
        ascent.answer(*yes);
    }
    same(rt, &ascent.step(), &wanted);
}

/// It finds this number, whose gear is withdrawn.
fn finds<R: Abort>(
    rt: &R,
    ascent: &mut Ascent,
    probes: &[(u32, bool)],
    number: u32,
) -> Result<(), Fail> {
    asks(rt, ascent, probes, Step::Found(random(number)?));
    ascent.go_above();
    Ok(())
}

/// Over 123456, 123460 and 900000: the first search goes down from FFFFFE.
const FIRST: &[(u32, bool)] = &[
    (0xFFFFFE, true),
    (0x7FFFFF, true),
    (0x3FFFFF, true),
    (0x1FFFFF, true),
    (0x0FFFFF, false),
    (0x17FFFF, true),
    (0x13FFFF, true),
    (0x11FFFF, false),
    (0x12FFFF, true),
    (0x127FFF, true),
    (0x123FFF, true),
    (0x121FFF, false),
    (0x122FFF, false),
    (0x1237FF, true),
    (0x1233FF, false),
    (0x1235FF, true),
    (0x1234FF, true),
    (0x12347F, true),
    (0x12343F, false),
    (0x12345F, true),
    (0x12344F, false),
    (0x123457, true),
    (0x123453, false),
    (0x123455, false),
    (0x123456, true),
];

/// The second begins with the block of the distance of what was found.
const SECOND: &[(u32, bool)] = &[
    (0x1FFFFF, true),
    (0x17FFFF, true),
    (0x13FFFF, true),
    (0x12FFFF, true),
    (0x127FFF, true),
    (0x123FFF, true),
    (0x1237FF, true),
    (0x1235FF, true),
    (0x1234FF, true),
    (0x12347F, true),
    (0x12345F, false),
    (0x12346F, true),
    (0x123467, true),
    (0x123463, true),
    (0x123461, true),
    (0x123460, true),
];

/// The third goes four steps up, and asks FFFFFE then.
const THIRD: &[(u32, bool)] = &[
    (0x17FFFF, false),
    (0x1FFFFF, false),
    (0x3FFFFF, false),
    (0x7FFFFF, false),
    (0xFFFFFE, true),
    (0xBFFFFF, true),
    (0x9FFFFF, true),
    (0x8FFFFF, false),
    (0x97FFFF, true),
    (0x93FFFF, true),
    (0x91FFFF, true),
    (0x90FFFF, true),
    (0x907FFF, true),
    (0x903FFF, true),
    (0x901FFF, true),
    (0x900FFF, true),
    (0x9007FF, true),
    (0x9003FF, true),
    (0x9001FF, true),
    (0x9000FF, true),
    (0x90007F, true),
    (0x90003F, true),
    (0x90001F, true),
    (0x90000F, true),
    (0x900007, true),
    (0x900003, true),
    (0x900001, true),
    (0x900000, true),
];

/// The last ends with two silences under FFFFFE.
const LAST: &[(u32, bool)] = &[
    (0x9FFFFF, false),
    (0xBFFFFF, false),
    (0xFFFFFE, false),
    (0xFFFFFE, false),
];

#[test]
fn an_ascent_goes_up_from_member_to_member(rt: HostRuntime) -> Result<(), Fail> {
    let mut ascent = Ascent::new();
    finds(&rt, &mut ascent, FIRST, 0x123456)?;
    finds(&rt, &mut ascent, SECOND, 0x123460)?;
    finds(&rt, &mut ascent, THIRD, 0x900000)?;
    asks(&rt, &mut ascent, LAST, Step::Nobody);
    same(&rt, &ascent.answer(true), &Step::Nobody);
    Ok(())
}

/// The second search, if the yes to 123FFF is lost: no gear answers under the number that it finds.
const LOST: &[(u32, bool)] = &[
    (0x1FFFFF, true),
    (0x17FFFF, true),
    (0x13FFFF, true),
    (0x12FFFF, true),
    (0x127FFF, true),
    (0x123FFF, false),
    (0x125FFF, true),
    (0x124FFF, true),
    (0x1247FF, true),
    (0x1243FF, true),
    (0x1241FF, true),
    (0x1240FF, true),
    (0x12407F, true),
    (0x12403F, true),
    (0x12401F, true),
    (0x12400F, true),
    (0x124007, true),
    (0x124003, true),
    (0x124001, true),
    (0x124000, true),
];

#[test]
fn an_ascent_that_begins_anew_finds_who_was_passed_over(rt: HostRuntime) -> Result<(), Fail> {
    let mut ascent = Ascent::new();
    finds(&rt, &mut ascent, FIRST, 0x123456)?;
    asks(&rt, &mut ascent, LOST, Step::Found(random(0x124000)?));
    ascent.begin_anew();
    // No gear is left below 123456, which was found.
    asks(&rt, &mut ascent, &[(0x123456, false)], Step::Again);
    finds(&rt, &mut ascent, SECOND, 0x123460)
}

#[test]
fn an_ascent_over_nobody_asks_twice(rt: HostRuntime) {
    let mut ascent = Ascent::new();
    asks(&rt, &mut ascent, &[(0xFFFFFE, false)], Step::Again);
    asks(&rt, &mut ascent, &[(0xFFFFFE, false)], Step::Nobody);
    ascent.begin_anew();
    asks(&rt, &mut ascent, &[(0xFFFFFE, false)], Step::Again);
}

/// The ascent that is made of the parts of this one.
fn made_again(ascent: &Ascent) -> Option<Ascent> {
    Ascent::of(
        ascent.low(),
        ascent.high(),
        ascent.steps(),
        ascent.is_anew(),
        ascent.silent(),
        ascent.found(),
        ascent.top(),
    )
}

/// Whether an ascent that is made again before each question asks these numbers, each with its answer.
fn goes_on_anew(ascent: &mut Ascent, probes: &[(u32, bool)]) -> bool {
    for (probe, yes) in probes {
        match made_again(ascent) {
            Some(made) => *ascent = made,
            None => return false,
        }
        if ascent.probe().value() != *probe {
            return false;
        }
        ascent.answer(*yes);
    }
    true
}

/// At last it begins anew, and asks the greatest number that was found.
#[test]
fn an_ascent_is_made_again_of_its_parts(rt: HostRuntime) {
    let mut ascent = Ascent::new();
    for probes in [FIRST, SECOND, THIRD, LAST, &[(0x900000, true)]] {
        same(&rt, &goes_on_anew(&mut ascent, probes), &true);
        ascent.go_on();
    }
}

/// The two bounds, the steps up, whether it begins anew, the silences, how many were found, and the greatest of them.
type Parts = (u32, u32, u8, bool, u8, u8, u32);

/// Whether there is an ascent with these parts.
fn is_ascent(parts: Parts) -> Result<bool, Fail> {
    let (low, high, steps, is_anew, silent, found, top) = parts;
    let (low, high, top) = (random(low)?, random(high)?, random(top)?);
    Ok(Ascent::of(low, high, steps, is_anew, silent, found, top).is_some())
}

#[test]
fn parts_of_no_ascent_are_refused(rt: HostRuntime) -> Result<(), Fail> {
    let cases: [(Parts, bool); 10] = [
        ((0, 0xFFFFFF, 0, false, 0, 0, 0), true),
        ((0, 0xFFFFFF, 0, true, 0, 255, 0xFFFFFE), true),
        ((0xFFFFFF, 0xFFFFFF, 6, false, 2, 3, 0x900000), true),
        ((0, 0xFFFFFF, 5, false, 0, 1, 0), false),
        ((0xFFFFFF, 0xFFFFFF, 6, false, 1, 3, 0x900000), false),
        ((0xFFFFFF, 0xFFFFFF, 6, false, 3, 3, 0x900000), false),
        ((0xFFFFFE, 0xFFFFFF, 1, false, 1, 0, 0), false),
        ((0, 0xFFFFFF, 0, false, 2, 0, 0), false),
        ((0xFFFFFF, 0xFFFFFF, 0, true, 1, 1, 5), false),
        ((0, 0xFFFFFF, 0, false, 0, 1, 0xFFFFFF), false),
    ];
    for (parts, wanted) in cases {
        same(&rt, &is_ascent(parts)?, &wanted);
    }
    Ok(())
}
