//! A line and a site are played the same steps side by side, and each call of the line answers as the site's does.
//! No contract says that a line's calls are not all refused, nor that its waits end.

use super::full::FullBus;
use super::threads::{Blanks, blanks, closed, go_back, last_two, line_of};
use super::values::Ordered::{Commit, Done, Put};
use super::values::{ENROL, Ordered, RESERVE, forward, one_reserved, same, site_of};
use dali_line::{Bus, Port, Ready, UpRefusal};
use dali_script::{Due, End, Input, Kept};
use dali_world::{Outside, Receipt, Refusal, SiteState, Trouble};
use std::alloc::Global;
use std::marker::Brand;
use std::process::Abort;
use std::sync::Wait;
use std::sync::ledger::Ledger;
use std::test::Fail;

/// What a controller ordered, with the number of its step.
fn shown(answer: Result<Receipt, Refusal>) -> Result<(Ordered, u32), Refusal> {
    match answer {
        Ok(receipt) => Ok((Ordered::of(receipt.order()), receipt.number())),
        Err(refusal) => Err(refusal),
    }
}

/// What a controller is given: what it was told, or that its record was committed.
fn given<B: Bus, R: Abort + Wait>(
    rt: &R,
    bus: &B,
    port: &mut B::Port,
    site: &SiteState,
) -> Option<Input> {
    let c = bus.controller(port);
    assert!(rt; usize::from(c) < site.plan().blocks().len());
    let (next, due) = (site.next(c), site.due(c));
    same(rt, &bus.next(rt, port), &next);
    same(rt, &bus.due(rt, port), &due);
    if due == Due::Store {
        same(rt, &bus.begin_commit(rt, port), &site.ordered(c));
        Some(Input::Committed)
    } else {
        next
    }
}

/// A controller acts on what it is given. What it ordered, if it was given anything.
fn goes<B: Bus, R: Abort + Wait>(
    rt: &R,
    bus: &B,
    port: &mut B::Port,
    site: &mut SiteState,
) -> Option<Ordered> {
    let input = given(rt, bus, port, site)?;
    assert!(rt; bus.wait(rt, port));
    let c = bus.controller(port);
    let was = shown(bus.act(rt, port, input));
    same(rt, &was, &shown(site.act(c, input)));
    match was {
        Ok((ordered, _)) => Some(ordered),
        Err(_) => None,
    }
}

/// The bus has its turn under this trouble.
fn pumps<B: Bus, R: Abort + Wait>(
    rt: &R,
    bus: &B,
    driver: &mut B::Driver,
    site: &mut SiteState,
    trouble: &Trouble,
) {
    if !site.idle() {
        same(rt, &bus.ready(rt, driver), &Ready::Next);
    }
    let was = bus.pump(rt, driver, *trouble);
    same(rt, &was, &site.pump(*trouble));
}

/// Controller 0 acts and the bus has its turn, until the controller orders this. How many frames were sent.
fn runs_until<B: Bus, R: Abort + Wait>(
    rt: &R,
    bus: &B,
    port: &mut B::Port,
    driver: &mut B::Driver,
    site: &mut SiteState,
    wanted: Ordered,
) -> Option<u32> {
    for frames in 0..1000u32 {
        if goes(rt, bus, port, site)? == wanted {
            return Some(frames);
        }
        pumps(rt, bus, driver, site, &Trouble::None);
    }
    None
}

/// A step of a story, which the line and the site take alike. A story has two ports: the first, and the other one,
/// which is that of the last controller.
#[derive(Clone, Copy)]
enum Step {
    /// The other port's controller orders this after so many frames.
    Until(Ordered, u32),
    /// A controller acts on what it is given, and orders this: the first port's, or the other one's.
    Goes(bool, Ordered),
    /// The bus has its turn under this trouble.
    Pumps(Trouble),
    /// The bus lapses, and controller 0 owned it.
    Lapses,
    /// What the driver may do.
    Ready(Ready),
    /// All waits end.
    Stops,
    /// Controller 0 goes down.
    Down,
    /// It comes up with the records of its store, or is refused with others.
    Up,
    UpWithOthers,
    /// The other port's controller, of number 1, offers arc power.
    Arc,
    /// What befalls gear and bus.
    Quiet,
    Foreign,
    Power,
    Expire,
}

/// The controller goes down after its store has its first record, and before it is told.
const RESTART: [Step; 7] = [
    Step::Until(Commit(RESERVE, 0), 109),
    Step::Down,
    Step::UpWithOthers,
    Step::Up,
    Step::Until(Commit(ENROL, 0), 7),
    Step::Until(Done(End::AllFound), 10),
    Step::Ready(Ready::Over),
];

/// The bus lapses while PROGRAM SHORT ADDRESS waits.
const LAPSE: [Step; 9] = [
    Step::Until(Commit(RESERVE, 0), 109),
    Step::Until(Put(0xB701), 4),
    Step::Lapses,
    Step::Pumps(Trouble::None),
    Step::Goes(false, Put(0xB112)),
    Step::Pumps(Trouble::None),
    Step::Until(Commit(ENROL, 0), 6),
    Step::Until(Done(End::AllFound), 5),
    Step::Ready(Ready::Over),
];

/// Two controllers send at once; then one of them sends arc power.
const COLLISION: [Step; 8] = [
    Step::Goes(true, Put(0xA100)),
    Step::Goes(false, Put(0xA100)),
    Step::Pumps(Trouble::Collision),
    Step::Goes(true, Put(0xA100)),
    Step::Goes(false, Put(0xA100)),
    Step::Pumps(Trouble::AnswerLost),
    Step::Arc,
    Step::Pumps(Trouble::None),
];

/// How each story ends.
const STOP: [Step; 6] = [
    Step::Quiet,
    Step::Foreign,
    Step::Power,
    Step::Expire,
    Step::Stops,
    Step::Ready(Ready::Stopped),
];

/// What a call answered that says no more than that it was accepted.
fn does<R: Abort>(rt: &R, answer: Result<(), Refusal>, other: Result<(), Refusal>) {
    same(rt, &[answer, other], &[Ok(()), Ok(())]);
}

/// What a line answered when a controller was to come up.
pub fn comes_up<R: Abort>(rt: &R, was: Result<(), UpRefusal>, wanted: &Result<(), UpRefusal>) {
    same(rt, &was, wanted);
}

/// The records with which a controller may come up again: those of its store, and others.
type Records<'a> = (&'a Kept, &'a Kept);

/// A step that not every bus takes.
fn line_does<B: FullBus, R: Abort + Wait>(
    rt: &R,
    bus: &B,
    other: &mut B::Port,
    driver: &mut B::Driver,
    site: &mut SiteState,
    records: Records<'_>,
    step: &Step,
) {
    let (kept, wrong) = records;
    let disagrees = Refusal::StoreDisagrees;
    let arc = forward(0xFE80);
    match *step {
        Step::Down => does(rt, bus.down(rt, driver, 0), site.down(0)),
        Step::Up => {
            comes_up(rt, bus.up(rt, driver, 0, kept), &Ok(()));
            same(rt, &site.up(0, kept), &Ok(()));
        }
        Step::UpWithOthers => {
            let refused = Err(UpRefusal::Site(disagrees));
            comes_up(rt, bus.up(rt, driver, 0, wrong), &refused);
            same(rt, &site.up(0, wrong), &Err(disagrees));
        }
        Step::Arc => does(rt, bus.arc(rt, other, arc), site.arc(1, arc)),
        Step::Quiet => does(rt, bus.quiet(rt, driver), site.quiet()),
        Step::Foreign => does(
            rt,
            bus.befall(rt, driver, Outside::Foreign(arc)),
            site.befall(Outside::Foreign(arc)),
        ),
        Step::Power => does(rt, bus.power(rt, driver, 0, false), site.power(0, false)),
        Step::Expire => does(rt, bus.expire(rt, driver, 0), site.expire(0)),
        Step::Until(..)
        | Step::Goes(..)
        | Step::Pumps(_)
        | Step::Lapses
        | Step::Ready(_)
        | Step::Stops => assert!(rt; false),
    }
}

/// The line and the site take a step.
fn both_do<B: FullBus, R: Abort + Wait>(
    rt: &R,
    bus: &B,
    ports: (&mut B::Port, &mut B::Port),
    driver: &mut B::Driver,
    site: &mut SiteState,
    records: Records<'_>,
    step: &Step,
) {
    let (first, other) = ports;
    match *step {
        Step::Until(ordered, frames) => {
            let was = runs_until(rt, bus, other, driver, site, ordered);
            same(rt, &was, &Some(frames));
        }
        Step::Goes(true, ordered) => same(rt, &goes(rt, bus, first, site), &Some(ordered)),
        Step::Goes(false, ordered) => same(rt, &goes(rt, bus, other, site), &Some(ordered)),
        Step::Pumps(trouble) => pumps(rt, bus, driver, site, &trouble),
        Step::Lapses => {
            let owners = [bus.lapse(rt, driver), site.lapse()];
            same(rt, &owners, &[Ok(Some(0)), Ok(Some(0))]);
        }
        Step::Ready(wanted) => same(rt, &bus.ready(rt, driver), &wanted),
        Step::Stops => {
            bus.stop(rt);
            assert!(rt; bus.is_stopped(rt));
            assert!(rt; !bus.wait(rt, other));
        }
        Step::Down
        | Step::Up
        | Step::UpWithOthers
        | Step::Arc
        | Step::Quiet
        | Step::Foreign
        | Step::Power
        | Step::Expire => line_does(rt, bus, other, driver, site, records, step),
    }
}

/// The line and the site take these steps.
fn both_take<B: FullBus, R: Abort + Wait>(
    rt: &R,
    bus: &B,
    ports: (&mut B::Port, &mut B::Port),
    driver: &mut B::Driver,
    site: &mut SiteState,
    records: Records<'_>,
    steps: &[Step],
) {
    let (first, other) = ports;
    for step in steps {
        both_do(rt, bus, (first, other), driver, site, records, step);
    }
}

/// A spare port has nothing due, and each call with it is refused.
fn speaks_for_nobody<B: Bus, R: Abort + Wait>(rt: &R, bus: &B, spare: &mut B::Port) {
    same(rt, &bus.controller(spare), &255);
    same(rt, &bus.next(rt, spare), &None);
    same(rt, &bus.due(rt, spare), &Due::Nothing);
    same(rt, &bus.begin_commit(rt, spare), &None);
    let refused = Err(Refusal::UnknownController);
    same(rt, &shown(bus.act(rt, spare, Input::Start)), &refused);
}

/// A line and its site are played a story, and stopped. The ports are two of the line, and a spare one.
fn played<B: FullBus, R: Abort + Wait>(
    rt: &R,
    bus: &B,
    ports: (&mut B::Port, &mut B::Port, &mut B::Port),
    driver: &mut B::Driver,
    site: &mut SiteState,
    records: Records<'_>,
    story: &[Step],
) {
    let (port, other, spare) = ports;
    both_take(rt, bus, (port, other), driver, site, records, story);
    both_take(rt, bus, (port, other), driver, site, records, &STOP);
    speaks_for_nobody(rt, bus, spare);
}

/// Both sites have the same log.
fn have_one_log<R: Abort>(rt: &R, was: SiteState, wanted: &SiteState) {
    same(rt, &was.log(), &wanted.log());
}

/// A line and a site that are the same at first are played a story, and have the same log at its end.
fn beside<P0: Ledger, P1: Ledger, P2: Ledger, P3: Ledger, D: Ledger, R: Abort + Wait>(
    rt: &R,
    under: SiteState,
    blanks: Blanks,
    site: &mut SiteState,
    records: Records<'_>,
    story: &[Step],
) {
    let (line, mut ports, mut driver) = line_of::<P0, P1, P2, P3, D>(under, blanks);
    let (mut port, mut other) = last_two(&mut ports);
    played(
        rt,
        &line,
        (&mut port, &mut other, &mut Port::default()),
        &mut driver,
        site,
        records,
        story,
    );
    let is_spare = port.controller() == 255;
    go_back(rt, &mut ports, (port, other), is_spare);
    have_one_log(rt, closed(rt, line, ports, driver), site);
}

/// A site of one gear with these blocks.
fn one_gear(alloc: Global, blocks: &[(u8, u8)]) -> Result<SiteState, Fail> {
    site_of(alloc, 1, blocks, &[0x123456, 0x654321])
}

/// A story is played on a line round the one site and on the other site, which are the same.
fn plays_on_both<R: Abort + Wait>(
    rt: &R,
    sites: (SiteState, SiteState),
    records: Records<'_>,
    story: &[Step],
) {
    let (under, mut site) = sites;
    let blanks = blanks();
    beside::<Brand, Brand, Brand, Brand, Brand, R>(rt, under, blanks, &mut site, records, story);
}

/// Two sites of one gear that are the same.
fn two_sites(alloc: Global, blocks: &[(u8, u8)]) -> Result<(SiteState, SiteState), Fail> {
    let under = one_gear(alloc, blocks)?;
    Ok((under, one_gear(alloc, blocks)?))
}

/// The records that the store of controller 0 has when it goes down, and others.
fn two_records() -> Result<(Kept, Kept), Fail> {
    let kept = one_reserved(0, 0x123456)?;
    Ok((kept, one_reserved(1, 0x123456)?))
}

/// A site of one gear, twice, and the story that is played on both.
fn plays<R: Abort + Wait + AllocGlobal>(
    rt: &R,
    blocks: &[(u8, u8)],
    story: &[Step],
) -> Result<(), Fail> {
    let (kept, wrong) = two_records()?;
    let sites = two_sites(rt.alloc(), blocks)?;
    plays_on_both(rt, sites, (&kept, &wrong), story);
    Ok(())
}

#[test]
fn a_line_answers_as_a_site(rt: HostRuntime) -> Result<(), Fail> {
    for story in [RESTART.as_slice(), LAPSE.as_slice()] {
        plays(&rt, &[(0, 3)], story)?;
    }
    plays(&rt, &[(0, 1), (2, 3)], &COLLISION)
}
