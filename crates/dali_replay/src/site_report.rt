//! What becomes of a line on a site, and what is reported of it.

ghost use Rattle.std.specs.Prelude.{◌≡◌, ◌++◌, length, OnOk, string_bytes};
ghost use Rattle.dali_replay.specs.SiteReport.{Says, gear_lines, table_lines, site_text};
ghost use Rattle.dali_replay.specs.Text.{Writes, answer_or_refusal, ok_of, offered_of, ordered_text, report_text};
ghost use Rattle.dali_replay.specs.Text.{lapse_text};
ghost use Rattle.dali_world.specs.Site.{world};

use crate::installation::Installation;
use crate::rounds::run;
use crate::text::{
    push_gear, push_lapse, push_offered, push_ok, push_ordered, push_refused, push_report,
    push_table,
};
use dali_frame::Forward;
use dali_grammar::SiteLine;
use dali_script::Order;
use dali_world::{Refusal, Report, SiteState};
use std::alloc::AllocError;

/// The text of a call that answers nothing.
fn push_done(text: &mut String, answer: Result<(), Refusal>) -> Result<(), AllocError>
    ensures { OnOk result (string_bytes text.new ≡ string_bytes text.old ++ answer_or_refusal ok_of answer) }
{
    match answer {
        Ok(()) => push_ok(text),
        Err(error) => push_refused(text, error),
    }
}

/// The text of a controller's step.
fn push_step(text: &mut String, c: u32, answer: Result<Order, Refusal>) -> Result<(), AllocError>
    ensures { OnOk result (string_bytes text.new ≡ string_bytes text.old ++ answer_or_refusal (ordered_text c) answer) }
{
    match answer {
        Ok(order) => push_ordered(text, c, order),
        Err(error) => push_refused(text, error),
    }
}

/// The text of a pump.
fn push_pumped(text: &mut String, answer: Result<Report, Refusal>) -> Result<(), AllocError>
    ensures { OnOk result (string_bytes text.new ≡ string_bytes text.old ++ answer_or_refusal report_text answer) }
{
    match answer {
        Ok(report) => push_report(text, report),
        Err(error) => push_refused(text, error),
    }
}

/// The text of a lapse.
fn push_lapsed(text: &mut String, answer: Result<Option<u8>, Refusal>) -> Result<(), AllocError>
    ensures { OnOk result (string_bytes text.new ≡ string_bytes text.old ++ answer_or_refusal lapse_text answer) }
{
    match answer {
        Ok(owner) => push_lapse(text, owner),
        Err(error) => push_refused(text, error),
    }
}

/// The text of a request for direct arc power.
fn push_asked(
    text: &mut String,
    c: u32,
    frame: Forward,
    answer: Result<(), Refusal>,
) -> Result<(), AllocError>
    ensures { OnOk result (string_bytes text.new ≡ string_bytes text.old
        ++ answer_or_refusal (offered_of c frame) answer) }
{
    match answer {
        Ok(()) => push_offered(text, c, frame),
        Err(error) => push_refused(text, error),
    }
}

/// The state of all gear, in order of their numbers.
pub fn push_gear_lines(text: &mut String, site: &SiteState) -> Result<(), AllocError>
    ensures { OnOk result (string_bytes text.new ≡ string_bytes text.old
        ++ gear_lines (world site.now) site.now.plan.gear) }
{
    for number in 0..site.plan().gear() {
        let gear = site.gear(number);
        push_gear(text, number as usize, &gear)?;
    }
    Ok(())
}

/// The tables of all controllers, in order of their numbers.
fn push_table_lines(text: &mut String, installation: &Installation) -> Result<(), AllocError>
    ensures { OnOk result (string_bytes text.new ≡ string_bytes text.old
        ++ table_lines (world installation.now.site) (length installation.now.site.plan.blocks)) }
{
    for c in 0..installation.controllers() {
        push_table(text, c, installation.enrolled(c))?;
    }
    Ok(())
}

/// `show`: the state of all gear, and the tables.
pub fn show(text: &mut String, installation: &Installation) -> Result<(), AllocError>
    ensures { OnOk result (string_bytes text.new ≡ string_bytes text.old ++ site_text installation.now.site) }
{
    push_gear_lines(text, installation.site())?;
    push_table_lines(text, installation)
}

/// Plays a line on a site, and appends the report of it.
pub fn report_site(
    text: &mut String,
    installation: &mut Installation,
    line: SiteLine,
) -> Result<(), AllocError>
    ensures { OnOk result
        (Writes (string_bytes text.old) (string_bytes text.new)
        (λ more. Says installation.old line more installation.new)) }
{
    match line {
        SiteLine::Go(c) => push_step(text, c, installation.go(c)),
        SiteLine::Store(c) => push_done(text, installation.store(c)),
        SiteLine::Fail(c) => push_step(text, c, installation.fail(c)),
        SiteLine::Survey(c) => push_step(text, c, installation.survey(c)),
        SiteLine::Pump(trouble) => push_pumped(text, installation.pump(trouble)),
        SiteLine::Lapse => push_lapsed(text, installation.lapse()),
        SiteLine::Arc(c, frame) => push_asked(text, c, frame, installation.arc(c, frame)),
        SiteLine::Outside(what) => push_done(text, installation.befall(what)),
        SiteLine::Down(c) => push_done(text, installation.down(c)),
        SiteLine::Up(c) => push_done(text, installation.up(c)),
        SiteLine::Run(limit) => run(text, installation, limit),
        SiteLine::Show => show(text, installation),
    }
}
