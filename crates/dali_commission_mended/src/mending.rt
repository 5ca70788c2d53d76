//! `mend`: gear that share a short address are told apart; then surveys enrol who has kept one, and serve who lost it.

ghost use Rattle.std.specs.Prelude.{◌≡◌, ◌≤◌, ℕ, [], None, Err, IfOk, IfErr, OnOk, length};
ghost use Rattle.dali_commission_asked.specs.Ending.{pass_at_last};
ghost use Rattle.dali_mending.specs.Mending.{put_next, mending_begun};
ghost use Rattle.dali_commissioning.specs.Drivers.{talk_of, lines_of};
ghost use Rattle.dali_commissioning.specs.Places.{places};
ghost use Rattle.dali_commission_mended.specs.Mends.{HasPut, IsMended, AreMended, HasSurveyed, MendedSo, Follows};
ghost use Rattle.dali_commission_mended.specs.Mends.{HasMendedSo, MendsBeside, MendsTo, MendsFrom, mended_as};
ghost use Rattle.dali_commission_mended.specs.Mends.{mended_reported, unsurveyed_reported, refused_reported};
ghost use Rattle.dali_commission_mended.specs.Hanging.{AreLookedFor};
ghost use Rattle.dali_commission_mended.specs.Cut.{IsPutCut, AreMendsCut, AreSurveysCut, IsEndCut, FollowsCut};
ghost use Rattle.dali_commission_mended.specs.Cut.{MendedCut, BesideCut, ToCut, FromCut, EndsMend};
ghost use Rattle.dali_commission_asked.specs.Came.{IsCutAs};
ghost use Rattle.dali_commission_asked.specs.Sharing.{with_left, why_open, is_any_left_shared, meant_from};
ghost use Rattle.dali_commission_mended.specs.Tellings.{AreLossesTold, AreMendsTold, MendsOver, IsMendBeside, IsMendOf};
ghost use Rattle.dali_commission_said.specs.Reports.{RunSaid};

use crate::hanging::{Hanging, look_for_all};
use crate::running::left_of;
use arrayvec::ArrayVec;
use dali_commission_asked::{
    AtLast, Site, ask_at_last, has_any, is_any_bare, is_any_left, is_any_left_shared, meant_of,
    or_open, refused_from, reserved_in, why_open, with_left,
};
use dali_commission_said::{
    Aim, Came, Failure, Manner, MendRefusal, Progress, REFUSED, Report, Said, Session, Voice,
    Which, add, ended_as, failure_of, heard_of, or_say, own_rows, push_places, say,
};
use dali_commission_stores::{Borrower, Stores, kept, lend, read_all};
use dali_commission_tasks::{Asked, Mend};
use dali_commissioning::{
    CommissionFault, DriverLink, PassEnd, Reply, Watch, commission, places, take_census,
};
use dali_controller::Shorts;
use dali_frame::{Random24, Short};
use dali_mending::Mending;
use dali_replacement::{gathered_whole, refill};
use dali_reserve::Keep;
use dali_script::{Block, Input as Told, Kept, Pair};
use std::io::{Read, Write};

/// How many frames the mending of a short address may put: more than it puts before it gives up.
const MOST_FRAMES: u32 = 2_000_000;

/// How many surveys in a row are to have found nothing more.
const IDLE_PASSES: u8 = 3;

/// Puts what a mending says, until it has ended.
#[tactic(auto, using(crate::proofs::Frames::none))]
fn conduct<R: Read, W: Write>(
    driver: &mut DriverLink<R, W>,
    mending: &mut Mending,
) -> Result<(), CommissionFault>
    ensures put { OnOk result (HasPut mending.old mending.new
        (talk_of R.remaining W.contents driver.old) (talk_of R.remaining W.contents driver.new)) }
    ensures over { OnOk result (put_next mending.new ≡ None) }
    ensures failed { IfErr result (λ reason. IsPutCut reason mending.old
        (talk_of R.remaining W.contents driver.old) (talk_of R.remaining W.contents driver.new)) }
{
    for _ in 0..MOST_FRAMES {
        let Some(put) = mending.put() else {
            return Ok(());
        };
        match driver.exchange(put.priority, put.frame, put.half) {
            Ok(told) => mending.told(told),
            Err(fault) => return Err(CommissionFault::Driver(fault)),
        }
    }
    Err(CommissionFault::StepsSpent)
}

/// Mends a short address, for which this table may have a gear.
fn mend<R: Read, W: Write>(
    driver: &mut DriverLink<R, W>,
    table: &Kept,
    short: Short,
) -> Result<Mending, CommissionFault>
    ensures mended { IfOk result (λ mending. IsMended table.now short mending
        (talk_of R.remaining W.contents driver.old) (talk_of R.remaining W.contents driver.new)) }
    ensures failed { IfErr result (λ reason. IsPutCut reason (mending_begun short table.now.enrolled)
        (talk_of R.remaining W.contents driver.old) (talk_of R.remaining W.contents driver.new)) }
{
    let mut mending = Mending::new(short, table.enrolled());
    conduct(driver, &mut mending)?;
    Ok(mending)
}

/// Mends short addresses, and adds what came of each to a list.
fn mend_all<S: Voice, R: Read, W: Write>(
    driver: &mut DriverLink<R, W>,
    progress: &Progress<'_, S>,
    table: &Kept,
    shorts: &[Short],
    mended: &mut Vec<Mending>,
) -> Result<(), Failure>
    ensures mended { OnOk result (AreMended table.now shorts.now mended.old.items mended.new.items
        (talk_of R.remaining W.contents driver.old) (talk_of R.remaining W.contents driver.new)) }
    ensures failed { IfErr result (λ failure. AreMendsCut table.now shorts.now failure
        (talk_of R.remaining W.contents driver.old) (talk_of R.remaining W.contents driver.new)) }
{
    let [short, more @ ..] = shorts else {
        return Ok(());
    };
    progress.begin(&Said::Mends(short.number()));
    match mend(driver, table, *short) {
        Ok(mending) => add(mended, mending)?,
        Err(fault) => return Err(failure_of(fault, driver.lines())),
    }
    mend_all(driver, progress, table, more, mended)
}

/// Surveys, over a store that has the gear of a table then, and has reserved their own short addresses for these.
fn survey<K: Keep, R: Read, W: Write, P: Watch>(
    store: &mut K,
    driver: &mut DriverLink<R, W>,
    watch: &mut P,
    table: &Kept,
    hanging: &[Pair],
) -> Result<PassEnd, CommissionFault>
    ensures surveyed { IfOk result (HasSurveyed K.is_up K.is_sound K.holds K.kept (K.block store.old) table.now
        hanging.now store.new (talk_of R.remaining W.contents driver.old) (talk_of R.remaining W.contents driver.new)) }
    ensures failed { IfErr result (λ reason. AreSurveysCut K.is_up K.is_sound K.holds K.kept (K.block store.old)
        table.now hanging.now reason store.new
        (talk_of R.remaining W.contents driver.old) (talk_of R.remaining W.contents driver.new)) }
{
    if let Err(error) = refill(store, table, hanging) {
        return Err(CommissionFault::Store(error));
    }
    commission(store, driver, watch, Told::Survey, IDLE_PASSES)
}

/// What was heard of each short address before, which gear of the tables were heard at others than their own, and which
/// were mended.
#[derive(Clone, Copy)]
struct Work<'a> {
    replies: &'a [Reply],
    hanging: &'a [Pair],
    mended: &'a [Mending],
}

/// What a mend comes to whose surveys ended so, from one table to another, by what was heard at last, and after so many
/// frames.
fn came_of(
    work: &Work<'_>,
    pass: &PassEnd,
    before: &Kept,
    after: &Kept,
    aim: Aim,
    last: &AtLast,
    frames: u64,
) -> Came
    ensures ended { result.ended ≡ mended_as pass.now last.now work.now.replies.now work.now.mended.now }
    ensures report { result.report ≡ mended_reported (pass_at_last pass.now last.now) before.now after.now
        (with_left last.now.left.heard work.now.mended.now) result.report.said.items }
    ensures said { RunSaid (pass_at_last pass.now last.now) before.now after.now aim frames result.report.said.items }
{
    let (pass, heard) = (last.pass(pass), last.left.heard);
    Came {
        report: Report {
            left_alone: heard_of(with_left(heard, work.mended)),
            ..Report::of_run(&pass, before, after, aim, frames)
        },
        ended: or_open(
            ended_as(pass.ended, last.is_there),
            has_any(heard) || is_any_left(work.mended),
            last.left.shared || is_any_left_shared(work.replies, work.mended),
        ),
    }
}

/// What a mend comes to after which no survey may enrol gear.
fn came_unsurveyed(work: &Work<'_>, before: &Kept) -> Came
    ensures ended { result.ended
        ≡ Err (why_open (is_any_left_shared work.now.replies.now work.now.mended.now)) }
    ensures report { result.report ≡ unsurveyed_reported before.now work.now.mended.now }
{
    let mended = work.mended;
    let mut said = ArrayVec::new();
    said.push(Said::NotSurveyed);
    Came {
        report: Report {
            table: own_rows(before),
            left_alone: heard_of(with_left(Shorts::NONE, mended)),
            said,
            ..Report::new()
        },
        ended: Err(why_open(is_any_left_shared(work.replies, mended))),
    }
}

/// What a mend comes to that is refused, by what was heard of each short address.
fn came_refused(site: &Site<'_>, replies: &[Reply], refusal: Failure) -> Came
    ensures ended { result.ended ≡ Err refusal }
    ensures report { result.report
        ≡ refused_reported (places site.now.table.now site.now.others.now replies.now) }
{
    let places = places(site.table, site.others, replies);
    let mut said = ArrayVec::new();
    push_places(&mut said, Which::Wrong, 0, &places);
    Came {
        report: Report {
            said,
            places,
            ..Report::new()
        },
        ended: Err(refusal),
    }
}

/// What the end of the last machine comes to, with what the records have then.
fn end_so<K: Keep, R: Read, W: Write>(
    store: &mut K,
    driver: &mut DriverLink<R, W>,
    aim: Aim,
    site: &Site<'_>,
    work: &Work<'_>,
    pass: &PassEnd,
) -> Result<Came, Failure>
    ensures ended { IfOk result (λ came. MendedSo pass.now site.now.before.now (K.kept store.new)
        work.now.replies.now work.now.mended.now (lines_of driver.new) came.report came.ended
        (talk_of R.remaining W.contents driver.old) (talk_of R.remaining W.contents driver.new)) }
    ensures failed { IfErr result (λ failure. IsEndCut failure
        (talk_of R.remaining W.contents driver.old) (talk_of R.remaining W.contents driver.new)) }
{
    let after = kept(store)?;
    let asked = ask_at_last(driver, pass, &after);
    let lines = driver.lines();
    match asked {
        Ok(last) => Ok(came_of(work, pass, site.before, &after, aim, &last, lines)),
        Err(fault) => Err(failure_of(fault, lines)),
    }
}

/// What follows once short addresses were mended.
fn follow<S: Voice, K: Keep, R: Read, W: Write>(
    store: &mut K,
    driver: &mut DriverLink<R, W>,
    progress: &mut Progress<'_, S>,
    site: &Site<'_>,
    work: &Work<'_>,
) -> Result<Came, Failure>
    ensures follows { IfOk result (λ came. Follows K.is_up K.is_sound K.holds K.kept (K.block store.old)
        site.now.table.now
        work.now.hanging.now site.now.before.now work.now.replies.now work.now.mended.now store.old store.new
        (talk_of R.remaining W.contents driver.old)
        (talk_of R.remaining W.contents driver.new) (lines_of driver.new) came.report came.ended) }
    ensures failed { IfErr result (λ failure. FollowsCut K.is_up K.is_sound K.holds K.kept (K.block store.old)
        site.now.table.now work.now.hanging.now work.now.replies.now work.now.mended.now failure store.new
        (talk_of R.remaining W.contents driver.old) (talk_of R.remaining W.contents driver.new)) }
{
    if is_any_bare(work.replies, work.mended) {
        return Ok(came_unsurveyed(work, site.before));
    }
    let surveyed = survey(store, driver, progress, site.table, work.hanging);
    progress.end();
    match surveyed {
        Ok(pass) => end_so(store, driver, progress.aim(), site, work, &pass),
        Err(fault) => Err(failure_of(fault, driver.lines())),
    }
}

/// Looks for the gear of the tables that are away at the short addresses that are mended.
fn look<S: Voice, R: Read, W: Write>(
    driver: &mut DriverLink<R, W>,
    progress: &Progress<'_, S>,
    site: &Site<'_>,
    replies: &[Reply],
) -> Result<Hanging, Failure>
    requires { length replies.now ≤ 64 }
    ensures looked { IfOk result (λ hanging. AreLookedFor site.now.table.now site.now.before.now site.now.others.now
        site.now.wanted.now (meant_from site.now.wanted.now.named.items 0 replies.now) 0 replies.now [] hanging.items
        (talk_of R.remaining W.contents driver.old) (talk_of R.remaining W.contents driver.new)) }
    ensures failed { IfErr result (λ failure. (line : ℕ) × IsCutAs failure line
        (talk_of R.remaining W.contents driver.new)) }
{
    let meant = meant_of(&site.wanted.named, replies);
    let mut hanging = ArrayVec::new();
    match look_for_all(driver, progress, site, &meant, 0, replies, &mut hanging) {
        Ok(()) => Ok(hanging),
        Err(fault) => Err(failure_of(fault, driver.lines())),
    }
}

/// Mends the short addresses that are meant, and goes on, by what was heard before.
fn mend_meant<S: Voice, K: Keep, R: Read, W: Write>(
    store: &mut K,
    driver: &mut DriverLink<R, W>,
    progress: &mut Progress<'_, S>,
    site: &Site<'_>,
    replies: &[Reply],
    hanging: &[Pair],
    mended: &mut Vec<Mending>,
) -> Result<Came, Failure>
    requires few { length replies.now ≤ 64 }
    requires none { mended.old.items ≡ [] }
    ensures mended { IfOk result (λ came. HasMendedSo K.is_up K.is_sound K.holds K.kept (K.block store.old)
        site.now.table.now site.now.wanted.now hanging.now site.now.before.now replies.now mended.new.items store.old
        store.new (talk_of R.remaining W.contents driver.old) (talk_of R.remaining W.contents driver.new)
        (lines_of driver.new) came.report came.ended) }
    ensures failed { IfErr result (λ failure. MendedCut K.is_up K.is_sound K.holds K.kept (K.block store.old)
        site.now.table.now site.now.wanted.now hanging.now replies.now failure store.new
        (talk_of R.remaining W.contents driver.old) (talk_of R.remaining W.contents driver.new)) }
{
    let meant = meant_of(&site.wanted.named, replies);
    mend_all(driver, progress, site.table, &meant, mended)?;
    let work = Work {
        replies,
        hanging,
        mended,
    };
    follow(store, driver, progress, site, &work)
}

/// What a mend comes to, by what was heard of each short address, if these gear of the tables hang at others.
fn mends_beside<S: Voice, K: Keep, R: Read, W: Write>(
    store: &mut K,
    driver: &mut DriverLink<R, W>,
    progress: &mut Progress<'_, S>,
    site: &Site<'_>,
    replies: &[Reply],
    hanging: &[Pair],
    mended: &mut Vec<Mending>,
) -> Result<Came, Failure>
    requires few { length replies.now ≤ 64 }
    requires none { mended.old.items ≡ [] }
    ensures mends { IfOk result (λ came. MendsBeside K.is_up K.is_sound K.holds K.kept (K.block store.old)
        site.now.table.now site.now.others.now site.now.wanted.now hanging.now site.now.before.now replies.now
        mended.new.items store.old store.new (talk_of R.remaining W.contents driver.old)
        (talk_of R.remaining W.contents driver.new) (lines_of driver.new) came.report came.ended) }
    ensures failed { IfErr result (λ failure. BesideCut K.is_up K.is_sound K.holds K.kept (K.block store.old)
        site.now.table.now site.now.others.now site.now.wanted.now hanging.now replies.now failure store.new
        (talk_of R.remaining W.contents driver.old) (talk_of R.remaining W.contents driver.new)) }
{
    if let Some(refusal) = refused_from(site, hanging, 0, replies) {
        return Ok(came_refused(site, replies, refusal));
    }
    mend_meant(store, driver, progress, site, replies, hanging, mended)
}

/// What a mend comes to, by what was heard of each short address.
fn mends_by<S: Voice, K: Keep, R: Read, W: Write>(
    store: &mut K,
    driver: &mut DriverLink<R, W>,
    progress: &mut Progress<'_, S>,
    site: &Site<'_>,
    replies: &[Reply],
    mended: &mut Vec<Mending>,
) -> Result<Came, Failure>
    requires few { length replies.now ≤ 64 }
    requires none { mended.old.items ≡ [] }
    ensures mends { IfOk result (λ came. MendsTo K.is_up K.is_sound K.holds K.kept (K.block store.old)
        site.now.table.now
        site.now.before.now site.now.others.now site.now.wanted.now replies.now mended.new.items store.old store.new
        (talk_of R.remaining W.contents driver.old) (talk_of R.remaining W.contents driver.new)
        (lines_of driver.new) came.report came.ended) }
    ensures failed { IfErr result (λ failure. ToCut K.is_up K.is_sound K.holds K.kept (K.block store.old)
        site.now.table.now site.now.before.now site.now.others.now site.now.wanted.now replies.now failure store.new
        (talk_of R.remaining W.contents driver.old) (talk_of R.remaining W.contents driver.new)) }
{
    let hanging = look(driver, progress, site, replies)?;
    mends_beside(store, driver, progress, site, replies, &hanging, mended)
}

/// What a mend comes to: each short address is asked first.
fn came_to<S: Voice, K: Keep, R: Read, W: Write>(
    store: &mut K,
    driver: &mut DriverLink<R, W>,
    progress: &mut Progress<'_, S>,
    site: &Site<'_>,
    mended: &mut Vec<Mending>,
) -> Result<Came, Failure>
    requires { mended.old.items ≡ [] }
    ensures mends { IfOk result (λ came. MendsFrom K.is_up K.is_sound K.holds K.kept (K.block store.old)
        site.now.table.now
        site.now.before.now site.now.others.now site.now.wanted.now mended.new.items store.old store.new
        (talk_of R.remaining W.contents driver.old) (talk_of R.remaining W.contents driver.new)
        (lines_of driver.new) came.report came.ended) }
    ensures failed { IfErr result (λ failure. FromCut K.is_up K.is_sound K.holds K.kept (K.block store.old)
        site.now.table.now site.now.before.now site.now.others.now site.now.wanted.now failure store.new
        (talk_of R.remaining W.contents driver.old) (talk_of R.remaining W.contents driver.new)) }
{
    progress.begin(&Said::AsksAll);
    match take_census(driver, &Kept::new(site.table.block()), site.others) {
        Ok(replies) => {
            if driver.has_heard() {
                mends_by(store, driver, progress, site, &replies, mended)
            } else {
                Err(Failure::NobodyAnswered)
            }
        }
        Err(fault) => Err(failure_of(fault, driver.lines())),
    }
}

/// What it comes to, also if it cannot be made.
fn came_to_or_not<S: Voice, K: Keep, R: Read, W: Write>(
    store: &mut K,
    driver: &mut DriverLink<R, W>,
    progress: &mut Progress<'_, S>,
    site: &Site<'_>,
    mended: &mut Vec<Mending>,
) -> Came
    requires { mended.old.items ≡ [] }
    ensures { EndsMend K.is_up K.is_sound K.holds K.kept (K.block store.old) site.now.table.now
        site.now.before.now site.now.others.now site.now.wanted.now mended.new.items store.old store.new
        (talk_of R.remaining W.contents driver.old) (talk_of R.remaining W.contents driver.new)
        (lines_of driver.new) result.report result.ended }
{
    match came_to(store, driver, progress, site, mended) {
        Ok(came) => came,
        Err(failure) => Came::bare(Err(failure)),
    }
}

/// Says which gear have lost a short address, and which one a table has for each.
fn say_lost<S: Voice>(system: &S, at: u8, erased: &[Random24], table: &Kept)
    ensures { AreLossesTold (S.told system.now) table.now at erased.now }
{
    let [random, more @ ..] = erased else {
        return;
    };
    say(
        system,
        &Said::HasLost(at, *random, table.enrolled_for(*random)),
    );
    say_lost(system, at, more, table);
}

/// Says what came of each short address, and who has lost it.
fn say_mended<S: Voice>(system: &S, mended: &[Mending], table: &Kept)
    ensures { AreMendsTold (S.told system.now) table.now mended.now }
{
    let [mending, more @ ..] = mended else {
        return;
    };
    let at = mending.short().number();
    if let Some(outcome) = mending.outcome() {
        say(system, &Said::Mended(at, outcome));
    }
    say_lost(system, at, mending.erased(), table);
    say_mended(system, more, table);
}

/// Who mends short addresses.
#[derive(Drop)]
pub(crate) struct Mender<'a, S> {
    pub system: &'a S,
    pub manner: Manner,
    pub wanted: &'a Mend,
    pub others: &'a [Block],
    /// The tables of the other files.
    pub tables: Vec<Kept>,
}

impl<S: Voice + AllocGlobal> Mender<'_, S> {
    /// Mends them over a driver, with the records of the first file.
    pub fn over<K: Keep, R: Read, W: Write>(
        self,
        store: &mut K,
        session: &mut Session<R, W>,
    ) -> Result<(), Failure>
        ensures { MendsOver K.is_up K.is_sound K.holds K.kept (K.block store.old) R.remaining W.contents
            (S.told self.entry.system.now) self.entry.others.now self.entry.wanted.now self.entry.tables.items
            store.old store.new session.old session.new result }
    {
        let (system, mut tables) = (self.system, self.tables);
        let before = kept(store)?;
        add(&mut tables, before.copy())?;
        let table = match gathered_whole(&tables) {
            Ok(table) => table,
            Err(short) => return Err(Failure::NotMended(short, MendRefusal::Disagree)),
        };
        let site = Site {
            table: &table,
            before: &before,
            others: self.others,
            wanted: self.wanted,
        };
        let mut progress = Progress::new(system, self.manner, left_of(&before));
        let mut mended = Vec::new(system.alloc());
        let came = came_to_or_not(
            store,
            &mut session.driver,
            &mut progress,
            &site,
            &mut mended,
        );
        match kept(store) {
            Ok(after) => {
                say_mended(system, &mended, &after);
                came.told(system, &session.driver, &mut session.report)
            }
            Err(failure) => session
                .report
                .note_lines(system, &session.driver, Err(failure)),
        }
    }
}

impl<K: Keep, S: Voice + AllocGlobal, R: Read, W: Write> Borrower<K, Session<R, W>>
    for Mender<'_, S> {
    type Out = ();

    ghost use Rattle.dali_commission_mended.specs.Tellings.{MendsOver};

    ghost came = { λ mender from to x y result. MendsOver K.is_up K.is_sound K.holds K.kept (K.block from)
        R.remaining W.contents (S.told mender.system.now) mender.others.now mender.wanted.now mender.tables.items
        from to x y result };

    fn take(self, store: &mut K, session: &mut Session<R, W>) -> Result<(), Failure> {
        self.over(store, session)
    }
}

/// Mends short addresses over the records of a name, with the gear of other files, too.
#[tactic(auto, unfolding(crate::specs::Tellings::IsMendBeside))]
fn mends_beside_others<S, F, R, W>(
    system: &S,
    stores: &mut F,
    session: &mut Session<R, W>,
    manner: Manner,
    name: &str,
    more: &[String],
    others: &[Block],
    wanted: &Mend,
) -> Result<(), Failure>
where
    S: Voice + AllocGlobal,
    F: Stores,
    R: Read,
    W: Write,
    ensures { IsMendBeside F.Open.is_up F.Open.is_sound F.Open.holds F.Open.kept F.Open.block F.saw F.opens R.remaining
        W.contents (S.told system.now) others.now wanted.now stores.old name.now more.now
        session.old session.new result }
{
    let mut tables = Vec::new(system.alloc());
    read_all(system, stores, more, &mut tables)?;
    if let Some(short) = reserved_in(&wanted.block, &tables) {
        return Err(Failure::NotMended(short, MendRefusal::ReservedByOthers));
    }
    let mender = Mender {
        system,
        manner,
        wanted,
        others,
        tables,
    };
    let done = lend(system.alloc(), stores, name, wanted.block, mender, session);
    or_say(system, name, done)
}

/// Mends short addresses, with the gear of these files, of which the first one is that of the controller.
pub fn mends<S, F, R, W>(
    system: &S,
    stores: &mut F,
    session: &mut Session<R, W>,
    manner: Manner,
    asked: &Asked,
    wanted: &Mend,
) -> Result<(), Failure>
where
    S: Voice + AllocGlobal,
    F: Stores,
    R: Read,
    W: Write,
    ensures { IsMendOf F.Open.is_up F.Open.is_sound F.Open.holds F.Open.kept F.Open.block F.saw F.opens R.remaining
        W.contents (S.told system.now) asked.now.others.items wanted.now stores.old session.old session.new result
        asked.now.records.items }
{
    let [name, more @ ..] = asked.records.as_slice() else {
        return Err(REFUSED);
    };
    let others = asked.others.as_slice();
    mends_beside_others(system, stores, session, manner, name, more, others, wanted)
}
