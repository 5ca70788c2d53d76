//! The calls of a site: what a script of `replay` cannot say. Those are small queues and logs, receipts, the log
//! itself, gifts, and a controller that comes up with other records than its own.
//!
//! Most tests are lists of steps, which one function plays. What another test does with its site stands in a function
//! of its own, which only borrows the site: that is proved in a tenth of the time.

use super::values::InNumbers::{Enrol, Reserve};
use super::values::Ordered::{Commit, Done, Halt, Put};
use super::values::{InNumbers, Ordered, are_pairs, forward, kept_of, same};
use dali_frame::{Answer, Forward};
use dali_script::{Due, End, Fault, Input, Pair};
use dali_world::{Event, GearSet, Outside, Plan, Receipt, Refusal, Report, SiteState, Trouble};
use std::alloc::Global;
use std::process::Abort;
use std::test::Fail;

const SILENCE: Input = Input::Heard(Answer::Silence);

/// A site of one gear, with room for so many events.
fn site_of(
    alloc: Global,
    blocks: &[(u8, u8)],
    events: u16,
    requests: u16,
) -> Result<SiteState, Fail> {
    let plan = Plan::new(alloc, 1, blocks, &[0x123456])?;
    let (events, requests) = (usize::from(events), usize::from(requests));
    if events == 0 || requests == 0 || 1024 < requests {
        return Err(Fail::from("room"));
    }
    Ok(SiteState::new(alloc, plan, events, requests)?)
}

/// A controller acts on this, and orders that or is refused so.
fn acts<R: Abort>(
    rt: &R,
    site: &mut SiteState,
    c: u8,
    input: Input,
    wanted: Result<Ordered, Refusal>,
) {
    let ordered = match site.act(c, input) {
        Ok(receipt) => Ok(Ordered::of(receipt.order())),
        Err(refusal) => Err(refusal),
    };
    same(rt, &ordered, &wanted);
}

/// The bus has its turn under this trouble.
fn pumps<R: Abort>(
    rt: &R,
    site: &mut SiteState,
    trouble: Trouble,
    wanted: Result<Report, Refusal>,
) {
    same(rt, &site.pump(trouble), &wanted);
}

/// A frame of controller 0 is sent, and silence is heard.
fn sends<R: Abort>(rt: &R, site: &mut SiteState, bytes: u16) {
    let sent = Report::Sent(0, forward(bytes), Answer::Silence);
    pumps(rt, site, Trouble::None, Ok(sent));
}

/// What a call answered that says no more than that it was accepted.
fn does<R: Abort>(rt: &R, answer: Result<(), Refusal>, wanted: Result<(), Refusal>) {
    same(rt, &answer, &wanted);
}

/// So many events are in the log, and this is the last of them.
fn logged<R: Abort>(rt: &R, site: &SiteState, events: usize, last: Event) {
    site.is_safe();
    assert!(rt; site.log().len() == events);
    match site.log().last() {
        Some(event) => same(rt, event, &last),
        None => assert!(rt; false),
    }
}

/// So many frames of direct arc power are offered, and wait.
fn offers<R: Abort>(rt: &R, site: &mut SiteState, many: u16) {
    for _ in 0..many {
        does(rt, site.arc(0, forward(0xFE80)), Ok(()));
    }
}

/// A site with room for as many requests as may wait: all of a controller leave with it.
fn wide_queue<R: Abort>(rt: &R, site: &mut SiteState) -> Result<(), Fail> {
    offers(rt, site, 1024);
    does(rt, site.arc(0, forward(0xFE80)), Err(Refusal::QueueFull));
    does(rt, site.down(0), Ok(()));
    pumps(rt, site, Trouble::None, Ok(Report::Idle));
    comes_up(rt, site, None, Ok(()))?;
    offers(rt, site, 1024);
    logged(rt, site, 2050, Event::Offered(0, forward(0xFE80)));
    Ok(())
}

/// The bus lapses, and this controller owned it.
fn lapses<R: Abort>(rt: &R, site: &mut SiteState, wanted: Result<Option<u8>, Refusal>) {
    same(rt, &site.lapse(), &wanted);
}

/// Controller 0 acts on what it was told, or else the bus has its turn.
fn goes_on(site: &mut SiteState) -> Result<(), Refusal> {
    if site.plan().blocks().is_empty() {
        return Err(Refusal::UnknownController);
    }
    match site.next(0) {
        Some(input) => match site.act(0, input) {
            Ok(_) => Ok(()),
            Err(refusal) => Err(refusal),
        },
        None => match site.pump(Trouble::None) {
            Ok(_) => Ok(()),
            Err(refusal) => Err(refusal),
        },
    }
}

/// A commissioning fills the log, and is refused from then on, again and again.
fn log_fills<R: Abort>(rt: &R, site: &mut SiteState, events: u16) {
    for _ in 0..events {
        does(rt, goes_on(site), Ok(()));
    }
    let was = shown(site);
    for _ in 0..3 {
        does(rt, goes_on(site), Err(Refusal::LogFull));
        same(rt, &site.log().len(), &usize::from(events));
        same(rt, &shown(site), &was);
    }
}

/// Controller 0 comes up with this record or none, or is refused so.
fn comes_up<R: Abort>(
    rt: &R,
    site: &mut SiteState,
    record: Option<InNumbers>,
    wanted: Result<(), Refusal>,
) -> Result<(), Fail> {
    let kept = match record {
        Some(record) => kept_of((0, 3), &[record])?,
        None => kept_of((0, 3), &[])?,
    };
    does(rt, site.up(0, &kept), wanted);
    Ok(())
}

/// What a receipt shows of its controller, its input, its order, and its number.
fn shows<R: Abort>(rt: &R, receipt: Result<Receipt, Refusal>, wanted: (u8, Input, Ordered, u32)) {
    let shown = match receipt {
        Ok(it) => Some((
            it.controller(),
            it.input(),
            Ordered::of(it.order()),
            it.number(),
        )),
        Err(_) => None,
    };
    same(rt, &shown, &Some(wanted));
}

/// Who owns the bus, whether no request waits, and of controller 0 what it was told and what is due.
type Shown = (Option<u8>, bool, Option<Input>, Due);

fn shown(site: &SiteState) -> Option<Shown> {
    if site.plan().blocks().is_empty() {
        return None;
    }
    Some((site.owner(), site.idle(), site.next(0), site.due(0)))
}

fn reads<R: Abort>(rt: &R, site: &SiteState, wanted: Shown) {
    same(rt, &shown(site), &Some(wanted));
}

/// What controller 0 may act on. A record that it ordered is committed.
fn due_of(site: &SiteState) -> Option<Input> {
    let (_, _, next, due) = shown(site)?;
    if due == Due::Store {
        Some(Input::Committed)
    } else {
        next
    }
}

/// Controller 0 acts and the bus has its turn, until it orders this. The site is safe all along. Answers how many
/// frames were sent.
fn run_until(site: &mut SiteState, wanted: Ordered) -> Option<u32> {
    let mut frames = 0u32;
    for _ in 0..1000 {
        let receipt = site.act(0, due_of(site)?).ok()?;
        if Ordered::of(receipt.order()) == wanted {
            return Some(frames);
        }
        site.is_safe();
        if let Report::Sent(..) = site.pump(Trouble::None).ok()? {
            frames = frames.wrapping_add(1);
        }
        site.is_safe();
    }
    None
}

/// What controller 0 keeps: its reservations, and what it has enrolled.
fn keeps<R: Abort>(
    rt: &R,
    site: &SiteState,
    reserved: Option<(u8, u32)>,
    enrolled: Option<(u8, u32)>,
) {
    assert!(rt; !site.plan().blocks().is_empty());
    is_pair(rt, site.kept(0).reserved(), reserved);
    is_pair(rt, site.kept(0).enrolled(), enrolled);
    if let Some(table) = site.table(0) {
        is_pair(rt, table.entries(), enrolled);
    }
}

/// There is this pair alone, or none.
fn is_pair<R: Abort>(rt: &R, pairs: &[Pair], wanted: Option<(u8, u32)>) {
    match wanted {
        Some(pair) => are_pairs(rt, pairs, &[pair]),
        None => are_pairs(rt, pairs, &[]),
    }
}

/// The random address of gear 0, its short address, and the gear that stored one.
fn has_given<R: Abort>(rt: &R, site: &SiteState, random: u32, short: u8) {
    assert!(rt; site.plan().gear() == 1);
    let gear = site.gear(0);
    let held = gear.short().map(|it| it.number());
    same(rt, &(gear.random().value(), held), &(random, Some(short)));
    let gifts = site.gifts().iter().map(|gift| (gift.0, gift.1.number()));
    assert!(rt; gifts.eq([(0, short)]));
}

fn commissioned<R: Abort>(rt: &R, site: &mut SiteState) {
    let reserved = Commit(Reserve(0, 0x123456));
    let enrolled = Commit(Enrol(0, 0x123456));
    for (ordered, frames) in [(reserved, 109), (enrolled, 7), (Done(End::AllFound), 5)] {
        same(rt, &run_until(site, ordered), &Some(frames));
    }
    assert!(rt; site.log().len() == 245);
    keeps(rt, site, Some((0, 0x123456)), Some((0, 0x123456)));
    has_given(rt, site, 0x123456, 0);
}

/// The record whose commit is due for controller 0.
fn has_ordered<R: Abort>(rt: &R, site: &SiteState, wanted: Option<InNumbers>) {
    assert!(rt; !site.plan().blocks().is_empty());
    same(rt, &site.ordered(0).map(InNumbers::of), &wanted);
}

/// Controller 0 goes on to its first record, which is not committed.
fn reserves<R: Abort>(rt: &R, site: &mut SiteState) {
    let reserved = Reserve(0, 0x123456);
    same(rt, &run_until(site, Commit(reserved)), &Some(109));
    has_ordered(rt, site, Some(reserved));
}

/// A step of a test: a call and what it answers, or what the site shows.
#[derive(Clone, Copy)]
enum Step {
    Acts(u8, Input, Result<Ordered, Refusal>),
    /// A controller acts, and its receipt shows this order and this number of its step.
    Receipt(u8, Input, Ordered, u32),
    Pumps(Trouble, Result<Report, Refusal>),
    /// The frame of these bytes, of controller 0, is sent.
    Sends(u16),
    Lapses(Result<Option<u8>, Refusal>),
    /// Controller 0 offers the frame of these bytes.
    Offers(u16, Result<(), Refusal>),
    /// Gear 0 loses its power, or has it again.
    Powers(bool, Result<(), Refusal>),
    /// The initialisation of gear 0 ends.
    Expires(Result<(), Refusal>),
    Quiet(Result<(), Refusal>),
    /// Another device sends the frame of these bytes.
    Comes(u16, Result<(), Refusal>),
    /// Controller 0 goes down, and comes up with this record or none.
    Down(Result<(), Refusal>),
    Up(Option<InNumbers>, Result<(), Refusal>),
    /// So many events are in the log, and this is the last of them.
    Logged(usize, Event),
    Reads(Shown),
    /// What controller 0 has reserved, and what it has enrolled.
    Keeps(Option<(u8, u32)>, Option<(u8, u32)>),
    /// Whether the queue is full.
    Crowded(bool),
    /// The record whose commit is due for controller 0.
    Ordered(Option<InNumbers>),
    /// Controller 0 goes on to its first record, which is not committed.
    Reserves,
    /// One gear is commissioned, and all of it stands in the log.
    Commissions,
    /// So many requests wait as may wait, and all of a controller leave with it.
    Waits,
    /// A commissioning fills the log, which has room for so many events, and is refused from then on.
    Fills(u16),
}

/// A step that calls the site and answers no more than that it was accepted.
fn calls<R: Abort>(rt: &R, site: &mut SiteState, step: &Step) {
    match *step {
        Step::Offers(bytes, wanted) => does(rt, site.arc(0, forward(bytes)), wanted),
        Step::Powers(on, wanted) => does(rt, site.power(0, on), wanted),
        Step::Expires(wanted) => does(rt, site.expire(0), wanted),
        Step::Quiet(wanted) => does(rt, site.quiet(), wanted),
        Step::Comes(bytes, wanted) => does(
            rt,
            site.befall(Outside::Foreign(forward(bytes))),
            wanted,
        ),
        Step::Down(wanted) => does(rt, site.down(0), wanted),
        _ => assert!(rt; false),
    }
}

/// A step that is many rounds of a commissioning.
fn runs<R: Abort>(rt: &R, site: &mut SiteState, step: &Step) {
    match *step {
        Step::Reserves => reserves(rt, site),
        Step::Fills(events) => log_fills(rt, site, events),
        _ => commissioned(rt, site),
    }
}

/// A step that changes nothing.
fn looks<R: Abort>(rt: &R, site: &SiteState, step: &Step) {
    match *step {
        Step::Logged(events, last) => logged(rt, site, events, last),
        Step::Reads(wanted) => reads(rt, site, wanted),
        Step::Keeps(reserved, enrolled) => keeps(rt, site, reserved, enrolled),
        Step::Crowded(wanted) => same(rt, &site.is_crowded(), &wanted),
        Step::Ordered(wanted) => has_ordered(rt, site, wanted),
        _ => assert!(rt; false),
    }
}

/// The steps are as they say.
fn plays<R: Abort>(rt: &R, site: &mut SiteState, steps: &[Step]) -> Result<(), Fail> {
    for step in steps {
        match *step {
            Step::Acts(c, input, wanted) => acts(rt, site, c, input, wanted),
            Step::Receipt(c, input, order, number) => {
                shows(rt, site.act(c, input), (c, input, order, number));
            }
            Step::Pumps(trouble, wanted) => pumps(rt, site, trouble, wanted),
            Step::Sends(bytes) => sends(rt, site, bytes),
            Step::Lapses(wanted) => lapses(rt, site, wanted),
            Step::Up(record, wanted) => comes_up(rt, site, record, wanted)?,
            Step::Logged(..)
            | Step::Reads(_)
            | Step::Keeps(..)
            | Step::Crowded(_)
            | Step::Ordered(_) => looks(rt, site, step),
            Step::Waits => wide_queue(rt, site)?,
            Step::Reserves | Step::Commissions | Step::Fills(_) => runs(rt, site, step),
            _ => calls(rt, site, step),
        }
    }
    Ok(())
}

/// Direct arc power to all gear.
const ARC: Forward = Forward {
    address_byte: 0xFE,
    opcode_byte: 0x80,
};

/// The steps, on a site of one gear with these blocks and room for so many events and requests.
fn tells<R: Abort + AllocGlobal>(
    rt: &R,
    blocks: &[(u8, u8)],
    events: u16,
    requests: u16,
    steps: &[Step],
) -> Result<(), Fail> {
    let mut site = site_of(rt.alloc(), blocks, events, requests)?;
    plays(rt, &mut site, steps)
}

#[test]
fn a_commissioning_stands_in_the_log(rt: HostRuntime) -> Result<(), Fail> {
    tells(&rt, &[(0, 3)], 4096, 16, &[Step::Commissions])
}

#[test]
fn a_wide_queue_is_empty_when_its_controller_went_down(rt: HostRuntime) -> Result<(), Fail> {
    tells(&rt, &[(0, 3)], 4096, 1024, &[Step::Waits])
}

#[test]
fn a_log_of_any_size_fills(rt: HostRuntime) -> Result<(), Fail> {
    for events in 1..21 {
        tells(&rt, &[(0, 3)], events, 16, &[Step::Fills(events)])?;
    }
    Ok(())
}

const FULL_QUEUE: Result<(), Refusal> = Err(Refusal::QueueFull);

const FULL_LOG: Result<(), Refusal> = Err(Refusal::LogFull);

const DISAGREES: Result<(), Refusal> = Err(Refusal::StoreDisagrees);

/// A site with room for one request.
const SMALL_QUEUE: [Step; 8] = [
    Step::Acts(0, Input::Start, Ok(Put(3, 0xA100))),
    Step::Crowded(true),
    Step::Acts(1, Input::Start, Err(Refusal::QueueFull)),
    Step::Acts(1, SILENCE, Err(Refusal::NotDue)),
    Step::Offers(0xFE80, FULL_QUEUE),
    Step::Offers(0xA100, Err(Refusal::NotArc)),
    Step::Sends(0xA100),
    Step::Acts(1, Input::Start, Ok(Put(3, 0xA100))),
];

/// A site with room for one event, which has come. A full log changes no reader.
const SMALL_LOG: [Step; 16] = [
    Step::Quiet(Ok(())),
    Step::Logged(1, Event::Quiet),
    Step::Quiet(FULL_LOG),
    Step::Comes(0xFE80, FULL_LOG),
    Step::Comes(0xA100, FULL_LOG),
    Step::Offers(0xFE80, FULL_LOG),
    Step::Powers(false, FULL_LOG),
    Step::Expires(FULL_LOG),
    Step::Down(FULL_LOG),
    Step::Lapses(Err(Refusal::LogFull)),
    Step::Acts(0, Input::Start, Err(Refusal::LogFull)),
    Step::Pumps(Trouble::None, Ok(Report::Idle)),
    Step::Logged(1, Event::Quiet),
    Step::Reads((None, true, Some(Input::Start), Due::Start)),
    Step::Keeps(None, None),
    Step::Crowded(false),
];

/// A site with room for one event, which is a frame of another device. The owner of the bus, if any, is as it was.
const SMALL_FOREIGN: [Step; 6] = [
    Step::Comes(0xA100, Err(Refusal::NotForeign)),
    Step::Comes(0x0180, Err(Refusal::NotForeign)),
    Step::Comes(0xFE80, Ok(())),
    Step::Logged(1, Event::Foreign(ARC)),
    Step::Comes(0x0180, FULL_LOG),
    Step::Reads((None, true, Some(Input::Start), Due::Start)),
];

/// A site with room for one event and one request, both of which have come.
const SMALL_BOTH: [Step; 5] = [
    Step::Acts(0, Input::Start, Ok(Put(3, 0xA100))),
    Step::Pumps(Trouble::None, Err(Refusal::LogFull)),
    Step::Pumps(Trouble::Noise, Err(Refusal::LogFull)),
    Step::Pumps(Trouble::Collision, Err(Refusal::LogFull)),
    Step::Offers(0xFE80, FULL_QUEUE),
];

/// A site with room for one event, whose controller is down.
const SMALL_DOWN: [Step; 2] = [Step::Down(Ok(())), Step::Up(None, FULL_LOG)];

#[test]
fn a_full_queue_and_a_full_log_refuse(rt: HostRuntime) -> Result<(), Fail> {
    tells(&rt, &[(0, 1), (2, 3)], 16, 1, &SMALL_QUEUE)?;
    for steps in [
        SMALL_LOG.as_slice(),
        SMALL_FOREIGN.as_slice(),
        SMALL_BOTH.as_slice(),
        SMALL_DOWN.as_slice(),
    ] {
        tells(&rt, &[(0, 3)], 1, 1, steps)?;
    }
    Ok(())
}

/// Each event of gear, bus and controllers stands in the log as it was called.
const ALL_LOGGED: [Step; 16] = [
    Step::Powers(false, Ok(())),
    Step::Logged(1, Event::Power(0, false)),
    Step::Powers(true, Ok(())),
    Step::Logged(2, Event::Power(0, true)),
    Step::Expires(Ok(())),
    Step::Logged(3, Event::Expired(0)),
    Step::Lapses(Ok(None)),
    Step::Logged(4, Event::Lapsed),
    Step::Down(Ok(())),
    Step::Logged(5, Event::Down(0)),
    Step::Up(None, Ok(())),
    Step::Logged(6, Event::Up(0, false)),
    Step::Offers(0xFE80, Ok(())),
    Step::Logged(7, Event::Offered(0, ARC)),
    Step::Pumps(
        Trouble::Destroyed(GearSet::NONE),
        Ok(Report::Destroyed(0, ARC)),
    ),
    Step::Logged(8, Event::Destroyed(0, ARC, GearSet::NONE)),
];

/// The readers follow the bus.
const ALL_READ: [Step; 11] = [
    Step::Reads((None, true, Some(Input::Start), Due::Start)),
    Step::Acts(0, Input::Start, Ok(Put(3, 0xA100))),
    Step::Reads((None, false, None, Due::Bus)),
    Step::Sends(0xA100),
    Step::Reads((Some(0), true, Some(SILENCE), Due::Bus)),
    Step::Lapses(Ok(Some(0))),
    Step::Reads((None, true, Some(Input::Lapsed), Due::Bus)),
    Step::Lapses(Ok(None)),
    Step::Reads((None, true, Some(Input::Lapsed), Due::Bus)),
    Step::Down(Ok(())),
    Step::Reads((None, true, None, Due::Nothing)),
];

#[test]
fn calls_stand_in_the_log_and_readers_follow(rt: HostRuntime) -> Result<(), Fail> {
    for steps in [ALL_LOGGED.as_slice(), ALL_READ.as_slice()] {
        tells(&rt, &[(0, 3)], 16, 16, steps)?;
    }
    Ok(())
}

/// While the record is outstanding a controller may come up without it, and with no other.
const WITHOUT_RECORD: [Step; 7] = [
    Step::Reserves,
    Step::Down(Ok(())),
    Step::Up(Some(Reserve(1, 0x123456)), DISAGREES),
    Step::Up(Some(Enrol(0, 0x123456)), DISAGREES),
    Step::Up(None, Ok(())),
    Step::Logged(221, Event::Up(0, false)),
    Step::Keeps(None, None),
];

/// Or with it.
const WITH_RECORD: [Step; 5] = [
    Step::Reserves,
    Step::Down(Ok(())),
    Step::Up(Some(Reserve(0, 0x123456)), Ok(())),
    Step::Logged(221, Event::Up(0, true)),
    Step::Keeps(Some((0, 0x123456)), None),
];

/// A record that is committed must be there.
const COMMITTED_RECORD: [Step; 7] = [
    Step::Reserves,
    Step::Acts(0, Input::Committed, Ok(Put(3, 0xB112))),
    Step::Down(Ok(())),
    Step::Up(None, DISAGREES),
    Step::Up(Some(Reserve(0, 0x654321)), DISAGREES),
    Step::Up(Some(Reserve(0, 0x123456)), Ok(())),
    Step::Logged(222, Event::Up(0, false)),
];

/// A record that failed is not kept.
const FAILED_RECORD: [Step; 5] = [
    Step::Reserves,
    Step::Acts(0, Input::CommitFailed, Ok(Halt(Fault::Store))),
    Step::Reads((None, true, None, Due::Nothing)),
    Step::Keeps(None, None),
    Step::Ordered(None),
];

/// A request for arc power is a step too; what befalls the bus is none.
const RECEIPTS: [Step; 10] = [
    Step::Receipt(0, Input::Start, Put(3, 0xA100), 1),
    Step::Sends(0xA100),
    Step::Receipt(0, SILENCE, Put(1, 0xA5FF), 2),
    Step::Offers(0xFE80, Ok(())),
    Step::Receipt(1, Input::Start, Put(3, 0xA100), 1),
    Step::Sends(0xA5FF),
    Step::Receipt(0, SILENCE, Put(1, 0xA5FF), 4),
    Step::Lapses(Ok(Some(0))),
    Step::Receipt(0, Input::Lapsed, Put(3, 0xA100), 5),
    Step::Crowded(false),
];

#[test]
fn receipts_count_the_steps_of_a_controller(rt: HostRuntime) -> Result<(), Fail> {
    tells(&rt, &[(0, 1), (2, 3)], 64, 16, &RECEIPTS)
}

#[test]
fn a_record_is_outstanding(rt: HostRuntime) -> Result<(), Fail> {
    for steps in [
        WITHOUT_RECORD.as_slice(),
        WITH_RECORD.as_slice(),
        COMMITTED_RECORD.as_slice(),
        FAILED_RECORD.as_slice(),
    ] {
        tells(&rt, &[(0, 3)], 4096, 16, steps)?;
    }
    Ok(())
}

#[test]
fn a_trouble_says_what_is_heard(rt: HostRuntime) {
    let byte = Answer::Byte(3);
    let heard = [
        Trouble::None.heard(byte),
        Trouble::AnswerLost.heard(byte),
        Trouble::Noise.heard(byte),
    ];
    same(&rt, &heard, &[byte, Answer::Silence, Answer::Damaged]);
}
