//! The story of a script that was played: a head, the lines of the script, each with its events, and an end.
#![tactic(auto, using(std::proofs::lemmas::List::append_assoc))]

ghost use Rattle.std.specs.Prelude.{◌≡◌, ◌++◌, IfOk, OnOk, take, drop, string_bytes};
ghost use Rattle.dali_story.specs.RunGear.{gear_first};
ghost use Rattle.dali_story.specs.Members.{list_member};
ghost use Rattle.dali_story.specs.Stances.{stances_before};
ghost use Rattle.dali_story.specs.Story.{source_of, head_text, report_text, end_text, story_of};

use crate::members::{push_items, push_name, push_number, push_quoted, push_row_of};
use crate::stances::push_stances;
use crate::teller::{Counts, Teller};
use dali_gear::Row;
use dali_replay::{Played, PlayedLine};
use dali_world::Event;
use std::alloc::{AllocError, Global};
use std::marker::Model;

/// So many items from the front of a list, as far as it goes, and the rest.
#[tactic(auto, using(std::proofs::lemmas::List::take_min, std::proofs::lemmas::List::drop_min))]
fn cut<T>(items: &[T], count: usize) -> (&[T], &[T])
    ensures front { result.0.now ≡ take count items.now }
    ensures rest { result.1.now ≡ drop count items.now }
{
    let count = count.min(items.len());
    (&items[..count], &items[count..])
}

fn source_of(controllers: u8) -> &'static str
    ensures { result.now ≡ source_of controllers }
{
    if controllers == 0 { "bench" } else { "script" }
}

/// The head, with the gear as they are at first.
#[tactic(auto, unfolding(crate::specs::Story::head_text))]
fn push_head(text: &mut String, played: &Played, row: &Row) -> Result<(), AllocError>
    requires { row.now ≡ gear_first played.now.gear played.now.used.items }
    ensures { OnOk result (string_bytes text.new ≡ string_bytes text.old ++ head_text played.now) }
{
    text.push_str("{\"story\":1")?;
    push_name(text, "source", source_of(played.controllers))?;
    push_number(text, "controllers", u64::from(played.controllers))?;
    push_row_of(text, "gear", row)?;
    push_quoted(text, "script", played.input)?;
    text.push_str("}\n")
}

/// What is reported of a line of the script.
#[tactic(auto, unfolding(crate::specs::Story::report_text))]
fn push_report(text: &mut String, number: u32, report: &[u8]) -> Result<(), AllocError>
    ensures { OnOk result (string_bytes text.new ≡ string_bytes text.old ++ report_text number report.now) }
{
    write!(text, "{{\"line\":{number}")?;
    push_quoted(text, "report", report)?;
    text.push_str("}\n")
}

/// How the controllers stand, as a member.
#[tactic(auto, unfolding(crate::specs::Members::list_member))]
fn push_stands(
    text: &mut String,
    key: &str,
    controllers: u8,
    log: &[Event],
) -> Result<(), AllocError>
    ensures { OnOk result (string_bytes text.new
        ≡ string_bytes text.old ++ list_member key.now (stances_before log.now controllers)) }
{
    write!(text, ",\"{key}\":[")?;
    push_stances(text, controllers, log)?;
    text.push_str("]")
}

/// The end: how the controllers stand, what was counted, and the state of gear and tables.
#[tactic(auto, unfolding(crate::specs::Story::end_text))]
pub fn push_end(
    text: &mut String,
    controllers: u8,
    log: &[Event],
    counts: &Counts,
    state: &str,
) -> Result<(), AllocError>
    ensures { OnOk result (string_bytes text.new
        ≡ string_bytes text.old ++ end_text controllers log.now counts.now state.now) }
{
    text.push_str("{\"end\":true")?;
    push_stands(text, "stands", controllers, log)?;
    push_number(text, "frames", counts.frames)?;
    push_number(text, "bits", counts.bits)?;
    push_items(text, "gear", state)?;
    text.push_str("}\n")
}

/// What is told so far, and what is left of the log and of the reports.
#[derive(Drop)]
struct Telling<'a> {
    teller: Teller<'a>,
    log: &'a [Event],
    reports: &'a [u8],
    /// Where the reports begin that are left.
    said: usize,
}

impl<'a> Model for Telling<'a> {
    ghost use Rattle.dali_story.specs.Story.{Left};

    ghost Value = { Left };

    ghost view = { λ t. record { told = t.teller; log = t.log.now; reports = t.reports.now; said = t.said } };
}

impl<'a> Telling<'a> {
    ghost use Rattle.dali_story.specs.Story.{line_text, left_after, lines_text, left_after_all, left_first};

    /// Nothing was told yet.
    fn of(played: &'a Played) -> Telling<'a>
        ensures { result ≡ left_first played.now }
    {
        Telling {
            teller: Teller::new(played.gear as usize, &played.used, &played.draws),
            log: &played.log,
            reports: played.reports.as_bytes(),
            said: 0,
        }
    }

    /// A line of the script, and its events.
    #[tactic(auto, unfolding(crate::specs::Story::line_text))]
    fn tell_line(&mut self, text: &mut String, line: &PlayedLine) -> Result<(), AllocError>
        ensures text { OnOk result (string_bytes text.new ≡ string_bytes text.old ++ line_text line.now self.old) }
        ensures after { OnOk result (self.new ≡ left_after line.now self.old) }
    {
        let (report, reports) = cut(self.reports, line.report.saturating_sub(self.said));
        let (events, log) = cut(self.log, line.after.saturating_sub(line.first));
        self.reports = reports;
        self.log = log;
        self.said = line.report;
        push_report(text, line.number, report)?;
        self.teller.tell_all(text, events)
    }

    /// All lines.
    fn tell_lines(&mut self, text: &mut String, lines: &[PlayedLine]) -> Result<(), AllocError>
        ensures text { OnOk result (string_bytes text.new ≡ string_bytes text.old ++ lines_text lines.now self.old) }
        ensures after { OnOk result (self.new ≡ left_after_all lines.now self.old) }
    {
        for line in lines {
            self.tell_line(text, line)?;
        }
        Ok(())
    }
}

/// The story of a script that was played.
pub fn story_of(alloc: Global, played: &Played) -> Result<String, AllocError>
    ensures { IfOk result (λ story. string_bytes story ≡ story_of played.now) }
{
    let mut text = String::new(alloc);
    let mut telling = Telling::of(played);
    push_head(&mut text, played, telling.teller.row())?;
    telling.tell_lines(&mut text, &played.lines)?;
    push_end(
        &mut text,
        played.controllers,
        &played.log,
        telling.teller.counts(),
        played.state.as_str(),
    )?;
    Ok(text)
}
