//! What is reported of a run.

ghost use Rattle.std.specs.Prelude.{◌≡◌, ◌++◌, ◌<◌, IfOk, OnOk, length, string_bytes};
ghost use Rattle.dali_events.specs.World.{controller_at};
ghost use Rattle.dali_threads.specs.Report.{controller_text, outcome_text, outcome_line, outcome_lines};
ghost use Rattle.dali_threads.specs.Report.{table_line, tables_up, addressed, addressed_text, run_text};
ghost use Rattle.dali_threads.specs.Json.{json_head, json_outcome, json_outcomes, one_if_up, json_table_up};
ghost use Rattle.dali_threads.specs.Json.{json_tables_up, json_controllers, json_gear, json_tables, json_addressed};
ghost use Rattle.dali_threads.specs.Json.{json_run};
ghost use Rattle.dali_story.specs.Site.{story_of_site};
ghost use Rattle.dali_world.specs.Site.{world};

use dali_line::Outcome;
use dali_replay::{push_comma, push_gear_lines, push_json_gear, push_json_table, push_table};
use dali_story::story_of_site;
use dali_world::SiteState;
use std::alloc::{AllocError, Global};

/// How a worker ended.
fn push_outcome(text: &mut String, outcome: Outcome) -> Result<(), AllocError>
    ensures { OnOk result (string_bytes text.new ≡ string_bytes text.old ++ outcome_text outcome) }
{
    match outcome {
        Outcome::Ended(end) => text.push_str(end.name()),
        Outcome::Halted(fault) => {
            let name = fault.name();
            write!(text, "halt {name}")
        }
        Outcome::Down => text.push_str("down"),
        Outcome::Refused(_) => text.push_str("refused"),
        Outcome::TurnsSpent => text.push_str("turns-spent"),
        Outcome::Stopped => text.push_str("stopped"),
        Outcome::NoMemory => text.push_str("no-memory"),
    }
}

fn push_controller(text: &mut String, c: usize) -> Result<(), AllocError>
    ensures { OnOk result (string_bytes text.new ≡ string_bytes text.old ++ controller_text c) }
{
    write!(text, "controller {c}: ")
}

/// The line of one worker.
#[tactic(auto, using(std::proofs::lemmas::List::append_assoc))]
fn push_outcome_line(text: &mut String, c: usize, outcome: Outcome) -> Result<(), AllocError>
    ensures { OnOk result (string_bytes text.new ≡ string_bytes text.old ++ outcome_line c outcome) }
{
    push_controller(text, c)?;
    push_outcome(text, outcome)?;
    text.push_str("\n")
}

/// How each worker ended, in order of the controllers' numbers.
#[tactic(auto, using(std::proofs::lemmas::List::append_assoc))]
fn push_outcomes(text: &mut String, outcomes: &[Outcome]) -> Result<(), AllocError>
    ensures { OnOk result (string_bytes text.new ≡ string_bytes text.old ++ outcome_lines 0 outcomes.now) }
{
    let mut c = 0usize;
    for outcome in outcomes {
        push_outcome_line(text, c, *outcome)?;
        c += 1;
    }
    Ok(())
}

/// The table of a controller, if it is up.
fn push_table_line(text: &mut String, site: &SiteState, c: u8) -> Result<(), AllocError>
    requires { c < length site.now.plan.blocks }
    ensures { OnOk result (string_bytes text.new ≡ string_bytes text.old
        ++ table_line c (controller_at (world site.now) c) (controller_at (world site.now) c).up) }
{
    match site.table(c) {
        Some(table) => push_table(text, c, table.entries()),
        None => Ok(()),
    }
}

/// The tables of all controllers that are up, in order of their numbers.
#[tactic(auto, using(std::proofs::lemmas::List::append_assoc))]
fn push_tables(text: &mut String, site: &SiteState) -> Result<(), AllocError>
    ensures { OnOk result (string_bytes text.new ≡ string_bytes text.old
        ++ tables_up (world site.now) (length site.now.plan.blocks)) }
{
    let controllers = site.plan().blocks().len() as u8;
    for c in 0..controllers {
        push_table_line(text, site, c)?;
    }
    Ok(())
}

/// How many gear have a short address.
fn addressed(site: &SiteState) -> u32
    ensures { result ≡ addressed (world site.now) site.now.plan.gear }
{
    let mut addressed = 0u32;
    for number in 0..site.plan().gear() {
        if site.gear(number).short().is_some() {
            addressed += 1;
        }
    }
    addressed
}

/// How many gear of all have a short address.
fn push_addressed(text: &mut String, site: &SiteState) -> Result<(), AllocError>
    ensures { OnOk result (string_bytes text.new ≡ string_bytes text.old
        ++ addressed_text (addressed (world site.now) site.now.plan.gear) site.now.plan.gear) }
{
    let addressed = addressed(site);
    let gear = site.plan().gear();
    write!(text, "addressed {addressed} of {gear}\n")
}

/// All of the report.
fn push_run(text: &mut String, outcomes: &[Outcome], site: &SiteState) -> Result<(), AllocError>
    ensures { OnOk result (string_bytes text.new ≡ string_bytes text.old ++ run_text outcomes.now site.now) }
{
    push_outcomes(text, outcomes)?;
    push_gear_lines(text, site)?;
    push_tables(text, site)?;
    push_addressed(text, site)
}

/// How the workers ended, the states of all gear, the controllers' tables, and how many gear have a short address.
pub(crate) fn report(
    alloc: Global,
    outcomes: &[Outcome],
    site: &SiteState,
) -> Result<String, AllocError>
    ensures { IfOk result (λ text. string_bytes text ≡ run_text outcomes.now site.now) }
{
    let mut text = String::new(alloc);
    push_run(&mut text, outcomes, site)?;
    Ok(text)
}

#[tactic(auto, unfolding(crate::specs::Json::json_head))]
fn push_json_head(text: &mut String, c: usize) -> Result<(), AllocError>
    ensures { OnOk result (string_bytes text.new ≡ string_bytes text.old ++ json_head c) }
{
    write!(text, "{{\"controller\":{c},\"end\":\"")
}

/// How a worker ended, as an item of a list of JSON.
#[tactic(auto, using(std::proofs::lemmas::List::append_assoc))]
fn push_json_outcome(text: &mut String, c: usize, outcome: Outcome) -> Result<(), AllocError>
    ensures { OnOk result (string_bytes text.new ≡ string_bytes text.old ++ json_outcome c outcome) }
{
    push_comma(text, c)?;
    push_json_head(text, c)?;
    push_outcome(text, outcome)?;
    text.push_str("\"}")
}

/// How each worker ended, as a list of JSON.
#[tactic(auto, using(std::proofs::lemmas::List::append_assoc))]
fn push_json_outcomes(text: &mut String, outcomes: &[Outcome]) -> Result<(), AllocError>
    ensures { OnOk result (string_bytes text.new ≡ string_bytes text.old ++ json_outcomes 0 outcomes.now) }
{
    let mut c = 0usize;
    for outcome in outcomes {
        push_json_outcome(text, c, *outcome)?;
        c += 1;
    }
    Ok(())
}

/// The table of a controller, if it is up, behind a comma if there are so many before it. Answers 1 if there is one
/// before the next controller's, else 0.
fn push_json_table_line(
    text: &mut String,
    site: &SiteState,
    c: u8,
    before: usize,
) -> Result<usize, AllocError>
    requires { c < length site.now.plan.blocks }
    ensures { IfOk result (λ after. (after ≡ one_if_up before (controller_at (world site.now) c).up)
        × (string_bytes text.new ≡ string_bytes text.old
        ++ json_table_up before c (controller_at (world site.now) c) (controller_at (world site.now) c).up)) }
{
    match site.table(c) {
        Some(table) => {
            push_comma(text, before)?;
            push_json_table(text, c, table.entries())?;
            Ok(1)
        }
        None => Ok(before),
    }
}

/// The tables of all controllers that are up, as a list of JSON.
#[tactic(auto, using(std::proofs::lemmas::List::append_assoc))]
fn push_json_tables(text: &mut String, site: &SiteState) -> Result<(), AllocError>
    ensures { OnOk result (string_bytes text.new ≡ string_bytes text.old
        ++ json_tables_up (world site.now) (length site.now.plan.blocks)) }
{
    let controllers = site.plan().blocks().len() as u8;
    let mut before = 0usize;
    for c in 0..controllers {
        before = push_json_table_line(text, site, c, before)?;
    }
    Ok(())
}

/// How many gear of all have a short address, as members of an object.
#[tactic(auto, unfolding(crate::specs::Json::json_addressed))]
fn push_json_addressed(text: &mut String, site: &SiteState) -> Result<(), AllocError>
    ensures { OnOk result (string_bytes text.new ≡ string_bytes text.old
        ++ json_addressed (addressed (world site.now) site.now.plan.gear) site.now.plan.gear) }
{
    let addressed = addressed(site);
    let gear = site.plan().gear();
    write!(text, "],\"addressed\":{addressed},\"of\":{gear}}}\n")
}

fn push_controllers(text: &mut String, outcomes: &[Outcome]) -> Result<(), AllocError>
    ensures { OnOk result (string_bytes text.new ≡ string_bytes text.old ++ json_controllers outcomes.now) }
{
    text.push_str("{\"controllers\":[")?;
    push_json_outcomes(text, outcomes)
}

#[tactic(auto, using(std::proofs::lemmas::List::append_assoc), unfolding(crate::specs::Json::json_gear))]
fn push_gear(text: &mut String, site: &SiteState) -> Result<(), AllocError>
    ensures { OnOk result (string_bytes text.new ≡ string_bytes text.old ++ json_gear site.now) }
{
    text.push_str("],\"gear\":[")?;
    push_json_gear(text, site)
}

fn push_up_tables(text: &mut String, site: &SiteState) -> Result<(), AllocError>
    ensures { OnOk result (string_bytes text.new ≡ string_bytes text.old ++ json_tables site.now) }
{
    text.push_str("],\"tables\":[")?;
    push_json_tables(text, site)
}

/// All of the report as one line of JSON.
fn push_json_run(
    text: &mut String,
    outcomes: &[Outcome],
    site: &SiteState,
) -> Result<(), AllocError>
    ensures { OnOk result (string_bytes text.new ≡ string_bytes text.old ++ json_run outcomes.now site.now) }
{
    push_controllers(text, outcomes)?;
    push_gear(text, site)?;
    push_up_tables(text, site)?;
    push_json_addressed(text, site)
}

/// The report of `report` as one line of JSON.
pub(crate) fn json_report(
    alloc: Global,
    outcomes: &[Outcome],
    site: &SiteState,
) -> Result<String, AllocError>
    ensures { IfOk result (λ text. string_bytes text ≡ json_run outcomes.now site.now) }
{
    let mut text = String::new(alloc);
    push_json_run(&mut text, outcomes, site)?;
    Ok(text)
}

/// The story of the run, with the tables of all controllers that are up.
pub(crate) fn story(alloc: Global, site: &SiteState) -> Result<String, AllocError>
    ensures { IfOk result (λ story. string_bytes story
        ≡ story_of_site site.now (json_tables_up (world site.now) (length site.now.plan.blocks))) }
{
    let mut tables = String::new(alloc);
    push_json_tables(&mut tables, site)?;
    story_of_site(alloc, site, tables.as_str())
}
