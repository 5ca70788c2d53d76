//! What a task came to: what is said of it, and what is written of it as JSON.

ghost use Rattle.std.specs.Prelude.{◌≡◌, ◌++◌, ◌+◌, ◌≤◌, ◌<◌, [], None, Some, length};
ghost use Rattle.dali_commissioning.specs.Drivers.{lines_of};
ghost use Rattle.dali_commissioning.specs.Places.{places};
ghost use Rattle.dali_commission_said.specs.Reports.{RunSaid, own_row, own_rows, heard_if, heard_of, checked_said};
ghost use Rattle.dali_commission_said.specs.Reports.{addressed_said, no_report, check_reported, places_reported};
ghost use Rattle.dali_commission_said.specs.Reports.{run_reported};
ghost use Rattle.dali_commission_said.specs.Said.{WhySaid, heard_said, AreTold};
ghost use Rattle.dali_commission_said.specs.Tables.{rows};

use crate::failure::Failure;
use crate::progress::Aim;
use crate::reports::{
    Saying, Which, count, push_left_alone, push_places, push_why_ended, wrote_said,
};
use crate::said::{Said, Voice, say, say_all};
use crate::table::rows;
use arrayvec::ArrayVec;
use dali_commissioning::{Checked, DriverLink, PassEnd, Place, Reply, places, random_at};
use dali_controller::Shorts;
use dali_frame::{Random24, Short};
use dali_script::{Block, Kept};
use std::io::{Read, Write};

/// A row of the table: a short address, the random address of its gear, and whether this controller has reserved the
/// one for the other.
pub type Row = (u8, Random24, bool);

/// What a task came to.
#[derive(Drop)]
pub struct Report {
    /// How many frames were put.
    pub frames: u64,
    /// How many gear were enrolled.
    pub enrolled: usize,
    /// The gear in the table, by their short addresses.
    pub table: ArrayVec<Row, 64>,
    /// The short addresses that were left alone.
    pub left_alone: ArrayVec<u8, 64>,
    /// What stands under each short address, from 0 on; empty if not all were asked.
    pub places: ArrayVec<Place, 64>,
    /// Whether gear without short address are there, if that was asked.
    pub has_unaddressed: Option<bool>,
    /// What is to be said of it.
    pub said: Saying,
}

fn own_row(kept: &Kept, row: (Short, Random24)) -> Row
    ensures { result ≡ own_row kept.now.reserved row }
{
    let (short, random) = row;
    let is_own = random_at(kept.reserved(), short) == Some(random);
    (short.number(), random, is_own)
}

#[tactic(auto, using(std::proofs::lemmas::List::append_assoc))]
fn push_own_rows(table: &mut ArrayVec<Row, 64>, kept: &Kept, rows: &[(Short, Random24)])
    requires { length table.old.items + length rows.now ≤ 64 }
    ensures { table.new.items ≡ table.old.items ++ own_rows kept.now.reserved rows.now }
{
    if let [row, more @ ..] = rows {
        table.push(own_row(kept, *row));
        push_own_rows(table, kept, more);
    }
}

/// The gear in a table, by their short addresses.
pub fn own_rows(kept: &Kept) -> ArrayVec<Row, 64>
    ensures { result.items ≡ own_rows kept.now.reserved (rows kept.now.enrolled) }
{
    let mut table = ArrayVec::new();
    push_own_rows(&mut table, kept, &rows(kept));
    table
}

fn add_heard(numbers: &mut ArrayVec<u8, 64>, number: u8, is_heard: bool)
    requires { length numbers.old.items < 64 }
    ensures { numbers.new.items ≡ numbers.old.items ++ heard_if number is_heard }
{
    if is_heard {
        numbers.push(number);
    }
}

/// The short addresses of a set, as those under which the survey of the last machine heard gear that it left alone.
#[tactic(auto, using(crate::proofs::Heard::none, crate::proofs::Heard::one_more))]
pub fn heard_of(heard: Shorts) -> ArrayVec<u8, 64>
    ensures { result.items ≡ heard_of heard }
{
    let mut numbers = ArrayVec::new();
    for number in 0..64u8 {
        let Some(short) = Short::of(number) else {
            // Each number of the loop is below 64.
            unreachable!();
        };
        add_heard(&mut numbers, number, heard.has(short));
    }
    numbers
}

/// What is said of a check: what stands under each short address, whether gear are there that have none, and how many
/// there are.
fn checked_said(kept: &Kept, places: &[Place], has_unaddressed: bool) -> Saying
    requires { length places.now ≤ 64 }
    ensures { result.items ≡ checked_said kept.now places.now has_unaddressed }
{
    let mut said = ArrayVec::new();
    push_places(&mut said, Which::All, 0, places);
    if has_unaddressed {
        said.push(Said::Unaddressed);
    }
    said.push(Said::Counted(
        kept.enrolled().len(),
        count(Which::Wrong, places),
        count(Which::Strange, places),
        kept.reserved().len(),
    ));
    said
}

impl Report {
    /// Of a task that has not begun.
    pub fn new() -> Report
        ensures { result ≡ no_report }
    {
        Report {
            frames: 0,
            enrolled: 0,
            table: ArrayVec::new(),
            left_alone: ArrayVec::new(),
            places: ArrayVec::new(),
            has_unaddressed: None,
            said: ArrayVec::new(),
        }
    }

    /// Of a check that found this.
    pub fn of_check(found: &Checked, others: &[Block]) -> Report
        ensures { result ≡ check_reported found.now others.now }
    {
        let places = places(&found.kept, others, &found.replies);
        Report {
            table: own_rows(&found.kept),
            has_unaddressed: Some(found.has_unaddressed),
            said: checked_said(&found.kept, &places, found.has_unaddressed),
            places,
            ..Report::new()
        }
    }

    /// Of a run that was not begun, since gear answer that no record names.
    pub fn of_strangers(kept: &Kept, others: &[Block], replies: &[Reply]) -> Report
        ensures { result ≡ places_reported (places kept.now others.now replies.now)
            (addressed_said (places kept.now others.now replies.now)) }
    {
        let places = places(kept, others, replies);
        let mut said = ArrayVec::new();
        push_places(&mut said, Which::Strange, 0, &places);
        said.push(Said::Advice);
        Report {
            said,
            places,
            ..Report::new()
        }
    }

    /// Of a run whose last machine ended so, from one table to another, after so many frames.
    pub fn of_run(pass: &PassEnd, before: &Kept, after: &Kept, aim: Aim, frames: u64) -> Report
        ensures said { RunSaid pass.now before.now after.now aim frames result.said.items }
        ensures reports { result ≡ run_reported pass.now before.now after.now result.said.items }
    {
        let all = after.enrolled().len();
        let enrolled = all.saturating_sub(before.enrolled().len());
        let mut said = ended_said(pass, after, aim);
        said.push(Said::Commissioned(enrolled, all, frames));
        Report {
            enrolled,
            table: own_rows(after),
            left_alone: heard_of(pass.heard),
            said,
            ..Report::new()
        }
    }

    /// Notes what stands at these places, at most 64: others than recorded.
    pub fn note_wrong(&mut self, places: &[Place])
        ensures noted { length places.now ≤ 64 → self.new.places.items ≡ places.now }
        ensures rest { self.new ≡ record self.old { places = self.new.places } }
    {
        let mut wrong = ArrayVec::new();
        let _ = wrong.try_extend_from_slice(places);
        self.places = wrong;
    }

    /// Notes how many lines of the driver were read. The last one is said if it was refused.
    pub fn note_lines<T, S: Voice, R: Read, W: Write>(
        &mut self,
        system: &S,
        driver: &DriverLink<R, W>,
        ended: Result<T, Failure>,
    ) -> Result<T, Failure>
        ensures ended { result ≡ ended }
        ensures report { self.new ≡ record self.old { frames = lines_of driver.now } }
    {
        self.frames = driver.lines();
        if let Err(failure) = &ended {
            if let Some(said) = wrote_said(*failure, driver.line()) {
                say(system, &said);
            }
        }
        ended
    }
}

/// What is said of the end of the last machine: which gear its survey left alone, and why it ended so.
pub fn ended_said(pass: &PassEnd, kept: &Kept, aim: Aim) -> Saying
    ensures said { WhySaid (heard_said (heard_of pass.now.heard)) pass.now kept.now aim result.items }
    ensures room { length result.items < 80 }
{
    let mut said = ArrayVec::new();
    push_left_alone(&mut said, &heard_of(pass.heard));
    push_why_ended(&mut said, pass, kept, aim);
    said
}

/// What a task came to, and how it ended.
#[derive(Drop)]
pub struct Came {
    pub report: Report,
    pub ended: Result<(), Failure>,
}

impl Came {
    /// How it ended, and nothing else.
    pub fn bare(ended: Result<(), Failure>) -> Came
        ensures { result ≡ record { report = no_report; ended = ended } }
    {
        Came {
            report: Report::new(),
            ended,
        }
    }

    /// Says what is to be said of it, and hands on what is to be written, with how many frames were put.
    pub fn told<S: Voice, R: Read, W: Write>(
        self,
        system: &S,
        driver: &DriverLink<R, W>,
        report: &mut Report,
    ) -> Result<(), Failure>
        ensures ended { result ≡ self.ended }
        ensures report { report.new ≡ record self.report { frames = lines_of driver.now } }
        ensures told { AreTold (S.told system.now) self.report.said.items }
    {
        say_all(system, &self.report.said);
        let ended = self.ended;
        *report = self.report;
        report.note_lines(system, driver, ended)
    }
}

/// A driver, and what was reported of a task over it.
#[derive(Drop)]
pub struct Session<R, W> {
    pub driver: DriverLink<R, W>,
    pub report: Report,
}

impl<R, W> Session<R, W> {
    /// Over this driver, before a task.
    pub fn new(driver: DriverLink<R, W>) -> Session<R, W>
        ensures { result ≡ record { driver = driver; report = no_report } }
    {
        Session {
            driver,
            report: Report::new(),
        }
    }
}
