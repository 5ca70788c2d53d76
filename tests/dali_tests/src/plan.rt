//! Plans of sites, and what each is refused for.

use super::values::{addresses, same};
use dali_frame::Random24;
use dali_script::Block;
use dali_world::{Plan, PlanError, Used};
use std::process::Abort;
use std::test::Fail;

/// A plan of so much gear, with these blocks and these numbers, is refused for this cause.
fn refused<R: Abort + AllocGlobal>(
    rt: &R,
    gear: u32,
    blocks: &[(u8, u8)],
    draws: &[u32],
    wanted: PlanError,
) {
    assert!(rt; draws.len() <= 1024);
    let refusal = match Plan::new(rt.alloc(), gear, blocks, draws) {
        Ok(_) => None,
        Err(error) => Some(error),
    };
    same(rt, &refusal, &Some(wanted));
}

/// What is planned: so much gear, these blocks and these numbers; and the cause for which it is refused.
type Planned<'a> = (u32, &'a [(u8, u8)], &'a [u32], PlanError);

const REFUSED: [Planned<'static>; 12] = [
    // Gear and controllers are counted first.
    (0, &[(0, 3)], &[], PlanError::GearCount),
    (129, &[], &[0xFFFFFF], PlanError::GearCount),
    (1, &[], &[], PlanError::ControllerCount),
    (
        1,
        &[(0, 0), (1, 1), (2, 2), (3, 3), (4, 4)],
        &[],
        PlanError::ControllerCount,
    ),
    // Blocks are in order and disjoint.
    (1, &[(0, 3), (3, 2)], &[], PlanError::BlockOrder),
    (1, &[(4, 3)], &[], PlanError::BlockOrder),
    (1, &[(0, 64)], &[], PlanError::BlockOrder),
    (1, &[(0, 3), (3, 5)], &[], PlanError::BlockOverlap),
    (
        1,
        &[(4, 7), (0, 3), (5, 5)],
        &[0xFFFFFF],
        PlanError::BlockOverlap,
    ),
    // Numbers are drawn once.
    (1, &[(0, 3)], &[1, 1, 0xFFFFFF], PlanError::DrawTooLarge),
    (1, &[(0, 3)], &[0x1000000], PlanError::DrawTooLarge),
    (1, &[(0, 3)], &[0x123456, 0, 0x123456], PlanError::DrawTwice),
];

#[test]
fn plans_are_refused_in_order(rt: HostRuntime) {
    for (gear, blocks, draws, wanted) in REFUSED {
        refused(&rt, gear, blocks, draws, wanted);
    }
}

/// The numbers of a block.
fn bounds_of(blocks: &[Block], at: usize) -> Option<(u8, u8)> {
    match blocks.get(at) {
        Some(block) => Some((block.first.number(), block.last.number())),
        None => None,
    }
}

fn draw_of(draws: &[Random24], at: usize) -> Option<u32> {
    match draws.get(at) {
        Some(draw) => Some(draw.value()),
        None => None,
    }
}

/// A plan has two blocks and two draws.
fn has<R: Abort>(rt: &R, plan: &Plan, blocks: [(u8, u8); 2], draws: [u32; 2]) {
    let counts = (plan.gear(), plan.blocks().len(), plan.draws().len());
    same(rt, &counts, &(128, 2, 2));
    for at in 0..2 {
        same(rt, &bounds_of(plan.blocks(), at), &Some(blocks[at]));
        same(rt, &draw_of(plan.draws(), at), &Some(draws[at]));
    }
}

#[test]
fn a_plan_has_what_it_was_made_of(rt: HostRuntime) -> Result<(), Fail> {
    let plan = Plan::new(rt.alloc(), 128, &[(0, 3), (4, 63)], &[0xFFFFFE, 0])?;
    has(&rt, &plan, [(0, 3), (4, 63)], [0xFFFFFE, 0]);
    Ok(())
}

/// A used gear of these numbers.
fn used(gear: u32, numbers: (u8, u32)) -> Result<Used, Fail> {
    let (short, random) = addresses(numbers)?;
    Ok(Used {
        gear,
        short,
        random,
    })
}

/// What a plan of two gear that draw `123456` answers of these used gear: how many it has then, or its refusal.
fn with_used<R: AllocGlobal>(rt: &R, all: &[Used]) -> Result<Result<usize, PlanError>, Fail> {
    let plan = Plan::new(rt.alloc(), 2, &[(0, 3)], &[0x123456])?;
    match plan.with_used(rt.alloc(), all) {
        Ok(plan) => Ok(Ok(plan.used().len())),
        Err(error) => Ok(Err(error)),
    }
}

#[test]
fn a_plan_takes_used_gear_or_says_why_not(rt: HostRuntime) -> Result<(), Fail> {
    let one = used(1, (9, 0x0ABCDE))?;
    let other = used(0, (7, 0x0ABCDF))?;
    same(&rt, &with_used(&rt, &[])?, &Ok(0));
    same(&rt, &with_used(&rt, &[one])?, &Ok(1));
    same(&rt, &with_used(&rt, &[one, other])?, &Ok(2));
    let refused = [
        (used(2, (7, 0x0ABCDF))?, PlanError::UnknownGear),
        (used(1, (7, 0x0ABCDF))?, PlanError::GearTwice),
        (used(0, (9, 0x0ABCDF))?, PlanError::ShortTwice),
        (used(0, (7, 0xFFFFFF))?, PlanError::RandomTooLarge),
        (used(0, (7, 0x0ABCDE))?, PlanError::RandomTwice),
        (used(0, (7, 0x123456))?, PlanError::RandomTwice),
    ];
    for (bad, error) in refused {
        same(&rt, &with_used(&rt, &[one, bad])?, &Err(error));
    }
    Ok(())
}
