//! The program: what it reads of the system, does, and says.

ghost use Rattle.std.specs.Borrow.{Bor};
ghost use Rattle.std.specs.Prelude.{◌≡◌, ℕ, List, Option, true, IfOk, OnOk, MatchOption, option_map, slice_get};
ghost use Rattle.std.specs.Prelude.{string_bytes};
ghost use Rattle.dali_console.specs.Status.{status_after};
ghost use Rattle.dali_commission_said.specs.Failures.{status_of, end_name, or_refused, refused_name};
ghost use Rattle.dali_commission_program.specs.Object.{report_text};
ghost use Rattle.dali_commission_said.specs.Tables.{only};
ghost use Rattle.dali_commission_program.specs.Done.{WhyTold, HasTabled, HasDone, HasAnswered, HasServed};
ghost use Rattle.dali_commission_words.specs.Words.{Values, IsAsked};

use crate::writing::{Text, Writes};
use dali_commission_asked::{checks, identify};
use dali_commission_cleared::clears;
use dali_commission_mended::{Running, mends};
use dali_commission_replaced::{accepts, replaces};
use dali_commission_said::{Failure, Manner, Report, Session, Voice, say, why_said};
use dali_commission_stores::{Reading, Stores, lend, lend_copy};
use dali_commission_tasks::{Asked, TableForm, Task};
use dali_commission_words::{PROGRAM, asked_of};
use dali_console::ConsoleFault;
use dali_words::{CommandLine, LineFault, Shows, asked};
use std::alloc::Global;
use std::env::Env;
use std::io::{Eprint, Read, Write};
use std::time::Clock;

/// Writes the table of the gear that are enrolled, by the records of a name.
fn writes_table<S: Writes + AllocGlobal, F: Stores>(
    system: &S,
    stores: &F,
    name: &str,
    form: TableForm,
) -> Result<(), Failure>
    ensures { OnOk result (HasTabled F.saw (S.wrote system.now) stores.now name.now form) }
{
    let kept = lend_copy(system.alloc(), stores, name, Reading, &mut ())?;
    system.write(&Text::of_table(system.alloc(), form, &kept)?)
}

/// Does what the words of the command line ask for, and reports what it came to.
fn does<S, F, R, W>(
    system: &S,
    stores: &mut F,
    session: &mut Session<R, W>,
    manner: Manner,
    asked: &Asked,
) -> Result<(), Failure>
where
    S: Voice + Writes + AllocGlobal + Clock,
    F: Stores,
    R: Read,
    W: Write,
    ensures { HasDone F.Open.is_up F.Open.is_sound F.Open.holds F.Open.kept F.Open.block F.made F.began F.saw F.opens
        R.remaining
        W.contents (S.told system.now) (S.wrote system.now) asked.now.records.items asked.now.others.items stores.old
        stores.new
        session.old session.new result asked.now.task }
{
    let (alloc, others) = (system.alloc(), asked.others.as_slice());
    let name = first(&asked.records);
    match &asked.task {
        Task::Run(setup) => {
            let running = Running {
                system,
                setup,
                others,
                manner,
            };
            lend(
                alloc,
                stores,
                only(&asked.records),
                setup.block,
                running,
                session,
            )
        }
        Task::Check => checks(system, stores, session, name, others),
        Task::Identify(short) => identify(system, &mut session.driver, *short, &mut session.report),
        Task::Table(form) => writes_table(system, stores, only(&asked.records), *form),
        Task::Replace(wanted) => {
            replaces(system, stores, session, manner, &asked.records, wanted)
        }
        Task::Accept(wanted) => accepts(system, stores, session, manner, &asked.records, wanted),
        Task::Mend(wanted) => mends(system, stores, session, manner, asked, wanted),
        Task::Clear => clears(
            system,
            stores,
            &mut session.driver,
            manner,
            &asked.records,
            &mut session.report,
        ),
    }
}

/// The first name of records.
fn first(records: &[String]) -> Option<&str>
    ensures { option_map (λ name. name.now) result ≡ option_map string_bytes (slice_get records.now 0) }
{
    match records {
        [name, ..] => Some(name),
        [] => None,
    }
}

/// The same, or an empty one. `clap` has seen that it is there.
fn only(records: &[String]) -> &str
    ensures { result.now ≡ only records.now }
{
    match records {
        [name, ..] => name,
        [] => "",
    }
}

/// The name of the records that a refusal is about. Which of several files it is was said before.
fn refused_name(asked: &Asked) -> Option<&str>
    ensures { option_map (λ name. name.now) result ≡ refused_name asked.now.task asked.now.records.items }
{
    match &asked.task {
        Task::Run(_) | Task::Check | Task::Identify(_) | Task::Table(_) => first(&asked.records),
        Task::Replace(_) | Task::Accept(_) | Task::Mend(_) | Task::Clear => None,
    }
}

/// The exit status of a task, and what its end is called: done, or why it ended before.
fn end(task: &Task, ended: &Result<(), Failure>) -> (u8, &'static str)
    ensures status { result.0 ≡ status_after status_of ended.now }
    ensures name { result.1.now ≡ end_name task.now ended.now }
{
    match (ended, task) {
        (Err(failure), _) => failure.end(),
        (Ok(()), Task::Run(_)) => (0, "all-found"),
        (Ok(()), Task::Check) => (0, "as-recorded"),
        (Ok(()), Task::Identify(_)) => (0, "shown"),
        (Ok(()), Task::Table(_)) => (0, "written"),
        (Ok(()), Task::Replace(_)) => (0, "replaced"),
        (Ok(()), Task::Accept(_)) => (0, "accepted"),
        (Ok(()), Task::Mend(_)) => (0, "mended"),
        (Ok(()), Task::Clear) => (0, "cleared"),
    }
}

/// Writes what a task came to as JSON, if that is asked for.
fn writes<S: Writes + AllocGlobal>(
    system: &S,
    asked: &Asked,
    report: &Report,
    ended: &Result<(), Failure>,
) -> Result<(), Failure>
    ensures { OnOk result (asked.now.as_json ≡ true → S.wrote system.now
        (report_text (end_name asked.now.task ended.now) (status_after status_of ended.now) report.now)) }
{
    if !asked.as_json {
        return Ok(());
    }
    let (status, name) = end(&asked.task, ended);
    system.write(&Text::of_report(system.alloc(), report, name, status)?)
}

/// How a task ends whose result was written, or could not be: that is a failure if there was none before.
fn or_refused(ended: Result<(), Failure>, written: Result<(), Failure>) -> Result<(), Failure>
    ensures { result ≡ or_refused ended written }
{
    ended.and(written)
}

/// Does a task, and says and writes what it came to.
fn does_and_tells<S, F, R, W>(
    system: &S,
    stores: &mut F,
    session: &mut Session<R, W>,
    is_terminal: bool,
    asked: &Asked,
) -> Result<(), Failure>
where
    S: Voice + Writes + AllocGlobal + Clock,
    F: Stores,
    R: Read,
    W: Write,
    ensures why { (name : Option (Bor (List ℕ))) × WhyTold (S.told system.now) result name }
    ensures done { HasAnswered F.Open.is_up F.Open.is_sound F.Open.holds F.Open.kept F.Open.block F.made F.began F.saw
        F.opens R.remaining
        W.contents (S.told system.now) (S.wrote system.now) asked.now stores.old stores.new session.old session.new
        result }
{
    session.report = Report::new();
    let manner = Manner::of(asked.is_quiet, is_terminal);
    let done = does(system, stores, session, manner, asked);
    let written = writes(system, asked, &session.report, &done);
    ended(system, or_refused(done, written), refused_name(asked))
}

/// Says why the program ended, if that needs to be said.
fn ended<S: Voice>(
    system: &S,
    ended: Result<(), Failure>,
    records: Option<&str>,
) -> Result<(), Failure>
    ensures same { result ≡ ended }
    ensures told { WhyTold (S.told system.now) ended records.entry }
{
    if let Err(failure) = &ended {
        if let Some(said) = why_said(*failure, records) {
            say(system, &said);
        }
    }
    ended
}

/// What a line asks for. A function of another crate cannot be handed over as a value.
fn asked_by(alloc: Global, line: &CommandLine) -> Result<Asked, LineFault>
    ensures { IfOk result (IsAsked (string_bytes line.now.subcommand) line.now.values.items) }
{
    asked_of(alloc, line)
}

/// What the command line asks for. None if help is shown.
fn found<S>(system: &S) -> Result<Option<Asked>, ConsoleFault>
where
    S: Env + Shows + Eprint + AllocGlobal,
    ensures { IfOk result (λ found. MatchOption found (S.shown system.now) (λ asked. (name : List ℕ)
        × (values : Values) × IsAsked name values asked)) }
{
    asked(system, &PROGRAM, asked_by)
}

/// Does what the words of the command line ask for in a session, and says on standard error why it ended before its
/// end. Nothing else is put than what that asks for.
pub fn run_and_say<S, F, R, W>(
    system: &S,
    stores: &mut F,
    session: &mut Session<R, W>,
    is_terminal: bool,
) -> Result<(), Failure>
where
    S: Env + Shows + Eprint + Voice + Writes + AllocGlobal + Clock,
    F: Stores,
    R: Read,
    W: Write,
    ensures why { (name : Option (Bor (List ℕ))) × WhyTold (S.told system.now) result name }
    ensures done { HasServed F.Open.is_up F.Open.is_sound F.Open.holds F.Open.kept F.Open.block F.made F.began F.saw
        F.opens R.remaining
        W.contents (S.told system.now) (S.wrote system.now) (S.shown system.now) stores.old stores.new session.old
        session.new result }
{
    let found = match found(system) {
        Ok(found) => found,
        Err(fault) => return ended(system, Err(Failure::Console(fault)), None),
    };
    match found {
        Some(asked) => does_and_tells(system, stores, session, is_terminal, &asked),
        None => Ok(()),
    }
}
