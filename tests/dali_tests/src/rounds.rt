//! Rounds of a site, as its calls: every controller that has something due acts, in order of their numbers, and then
//! the bus has its turn. The same commissionings stand as scripts in `dali_stories`.

use super::values::InNumbers::{Enrol, Release, Reserve};
use super::values::Ordered::{Commit, Done};
use super::values::{Ordered, are_pairs, kept_of, same};
use dali_script::{Due, End, Input};
use dali_world::{GearSet, Plan, Report, SiteState, Trouble};
use std::alloc::Global;
use std::process::Abort;
use std::test::Fail;

/// A controller and what it ordered, unless that is a frame.
type Told = (u8, Ordered);

fn site_of(
    alloc: Global,
    gear: u32,
    blocks: &[(u8, u8)],
    draws: &[u32],
) -> Result<SiteState, Fail> {
    if draws.len() > 1024 {
        return Err(Fail::from("at most 1,024 draws"));
    }
    let plan = Plan::new(alloc, gear, blocks, draws)?;
    Ok(SiteState::new(alloc, plan, 4096, 64)?)
}

/// A controller acts on what is due, if anything is. A record that it ordered is committed.
fn goes<R: Abort>(rt: &R, site: &mut SiteState, c: u8) -> Option<Ordered> {
    if usize::from(c) >= site.plan().blocks().len() {
        return None;
    }
    let input = if site.due(c) == Due::Store {
        Input::Committed
    } else {
        site.next(c)?
    };
    match site.act(c, input) {
        Ok(receipt) => Some(Ordered::of(receipt.order())),
        Err(_) => {
            assert!(rt; false);
            None
        }
    }
}

/// A round of two controllers, under this trouble. What they order, but frames, is what stands next in the list.
/// Whether a frame was sent.
fn round<R: Abort>(
    rt: &R,
    site: &mut SiteState,
    trouble: &Trouble,
    wanted: &[Told],
    told: &mut usize,
) -> bool {
    for c in 0..2 {
        let Some(ordered) = goes(rt, site, c) else {
            continue;
        };
        if !matches!(ordered, Ordered::Put(..)) {
            same(rt, &wanted.get(*told).copied(), &Some((c, ordered)));
            *told = told.saturating_add(1);
        }
    }
    *told < wanted.len() && matches!(site.pump(*trouble), Ok(Report::Sent(..)))
}

/// Rounds until all of this was ordered, in this order, but for frames. How many frames were sent.
fn runs<R: Abort>(rt: &R, site: &mut SiteState, trouble: &Trouble, wanted: &[Told]) -> u32 {
    let (mut told, mut frames) = (0, 0u32);
    for _ in 0..1000 {
        if round(rt, site, trouble, wanted, &mut told) {
            frames = frames.saturating_add(1);
        }
        if told >= wanted.len() {
            return frames;
        }
    }
    assert!(rt; false);
    frames
}

/// What a controller keeps: its reservations, and what it has enrolled.
fn keeps<R: Abort>(
    rt: &R,
    site: &SiteState,
    c: u8,
    reserved: &[(u8, u32)],
    enrolled: &[(u8, u32)],
) {
    assert!(rt; usize::from(c) < site.plan().blocks().len());
    are_pairs(rt, site.kept(c).reserved(), reserved);
    are_pairs(rt, site.kept(c).enrolled(), enrolled);
}

/// The short address of a gear, if there is such a gear.
fn short_of(site: &SiteState, number: u32) -> Option<Option<u8>> {
    if number >= site.plan().gear() {
        return None;
    }
    match site.gear(number).short() {
        Some(address) => Some(Some(address.number())),
        None => Some(None),
    }
}

/// The gear of these numbers have these short addresses, and no other has one.
fn have<R: Abort>(rt: &R, site: &SiteState, wanted: &[Option<u8>]) {
    assert!(rt; site.plan().gear() as usize == wanted.len());
    for number in 0..site.plan().gear() {
        same(
            rt,
            &short_of(site, number),
            &wanted.get(number as usize).copied(),
        );
    }
}

const BOTH_END: [Told; 17] = [
    (0, Commit(Reserve(0, 0x100000))),
    (1, Commit(Reserve(3, 0x100000))),
    (0, Commit(Enrol(0, 0x100000))),
    (1, Commit(Enrol(0, 0x100000))),
    (1, Commit(Release(3, 0x100000))),
    (0, Commit(Reserve(1, 0x200000))),
    (1, Commit(Reserve(3, 0x200000))),
    (0, Commit(Enrol(1, 0x200000))),
    (1, Commit(Enrol(1, 0x200000))),
    (1, Commit(Release(3, 0x200000))),
    (0, Commit(Reserve(2, 0x300000))),
    (1, Commit(Reserve(3, 0x300000))),
    (0, Commit(Enrol(2, 0x300000))),
    (1, Commit(Enrol(2, 0x300000))),
    (1, Commit(Release(3, 0x300000))),
    (0, Done(End::AllFound)),
    (1, Done(End::AllFound)),
];

fn both_end<R: Abort>(rt: &R, site: &mut SiteState) {
    same(rt, &runs(rt, site, &Trouble::None, &BOTH_END), &680);
    let all = [(0, 0x100000), (1, 0x200000), (2, 0x300000)];
    keeps(rt, site, 0, &all, &all);
    keeps(rt, site, 1, &[], &all);
    have(rt, site, &[Some(2), Some(0), Some(1)]);
}

const SMALL_BLOCK: [Told; 3] = [
    (0, Commit(Reserve(7, 0x100000))),
    (0, Commit(Enrol(7, 0x100000))),
    (0, Done(End::BlockFull)),
];

fn block_fills<R: Abort>(rt: &R, site: &mut SiteState) {
    same(rt, &runs(rt, site, &Trouble::None, &SMALL_BLOCK), &221);
    have(rt, site, &[Some(7), None]);
}

fn gives_up<R: Abort>(rt: &R, site: &mut SiteState) {
    let destroyed = Trouble::Destroyed(GearSet::NONE);
    let frames = runs(rt, site, &destroyed, &[(0, Done(End::GaveUp))]);
    same(rt, &frames, &0);
    // An act and a destroyed frame, eight times, and the act that gives up.
    same(rt, &site.log().len(), &17);
}

const LEFT_BEHIND: [Told; 7] = [
    (1, Commit(Reserve(4, 0x0ABCDE))),
    (0, Commit(Reserve(1, 0x0ABCDE))),
    (1, Commit(Enrol(4, 0x0ABCDE))),
    (0, Commit(Enrol(4, 0x0ABCDE))),
    (0, Commit(Release(1, 0x0ABCDE))),
    (1, Done(End::AllFound)),
    (0, Done(End::AllFound)),
];

/// Controller 1 opens after controller 0 has reserved an address for a number that the gear has no more then.
fn leaves_one_behind<R: Abort>(rt: &R, site: &mut SiteState) -> Result<(), Fail> {
    same(rt, &site.down(1), &Ok(()));
    let first = [(0, Commit(Reserve(0, 0x123456)))];
    same(rt, &runs(rt, site, &Trouble::None, &first), &109);
    let kept = kept_of((4, 7), &[])?;
    same(rt, &site.up(1, &kept), &Ok(()));
    assert!(rt; goes(rt, site, 1).is_some());
    same(rt, &runs(rt, site, &Trouble::None, &LEFT_BEHIND), &239);
    keeps(rt, site, 0, &[(0, 0x123456)], &[(4, 0x0ABCDE)]);
    keeps(rt, site, 1, &[(4, 0x0ABCDE)], &[(4, 0x0ABCDE)]);
    Ok(())
}

/// What is played on a site of its own.
#[derive(Clone, Copy)]
enum Story {
    /// Two controllers name all gear alike.
    BothEnd,
    /// The smallest block is full after one gear.
    BlockFills,
    /// Eight destroyed frames are the end.
    GivesUp,
    /// A release leaves other reservations.
    LeavesOneBehind,
}

fn plays<R: Abort>(rt: &R, site: &mut SiteState, story: Story) -> Result<(), Fail> {
    match story {
        Story::BothEnd => both_end(rt, site),
        Story::BlockFills => block_fills(rt, site),
        Story::GivesUp => gives_up(rt, site),
        Story::LeavesOneBehind => leaves_one_behind(rt, site)?,
    }
    Ok(())
}

/// How many gear a site has, its blocks and the numbers that its gear draw, and what is played on it.
type Site<'a> = (u32, &'a [(u8, u8)], &'a [u32], Story);

const STORIES: [Site<'static>; 4] = [
    (
        3,
        &[(0, 2), (3, 5)],
        &[1, 2, 3, 0x300000, 0x100000, 0x200000],
        Story::BothEnd,
    ),
    (2, &[(7, 7)], &[0x100000, 0x200000], Story::BlockFills),
    (1, &[(0, 3)], &[], Story::GivesUp),
    (
        1,
        &[(0, 3), (4, 7)],
        &[0x123456, 0x0ABCDE],
        Story::LeavesOneBehind,
    ),
];

fn tells<R: Abort + AllocGlobal>(rt: &R, site: &Site<'_>) -> Result<(), Fail> {
    let (gear, blocks, draws, story) = *site;
    let mut site = site_of(rt.alloc(), gear, blocks, draws)?;
    plays(rt, &mut site, story)
}

#[test]
fn rounds_end_as_they_do_in_scripts(rt: HostRuntime) -> Result<(), Fail> {
    for site in STORIES {
        tells(&rt, &site)?;
    }
    Ok(())
}
