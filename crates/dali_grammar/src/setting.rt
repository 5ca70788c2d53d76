//! What the first lines of a script set up: whether it is a bench, and the plan.

ghost use Rattle.std.specs.Prelude.{◌≡◌, ◌+◌, ◌<◌, ◌≤◌, List, [], ◌∷◌, ◌++◌, length, Ok, Err, IfOk, IfErr, IfSome};
ghost use Rattle.std.specs.Prelude.{MatchOption};
ghost use Rattle.dali_grammar.specs.Lines.{lines_of, numbered_after};
ghost use Rattle.dali_grammar.specs.ReplayFault.{fault_of};
ghost use Rattle.dali_grammar.specs.declared.fault.ReplayFault.TheVariants.{BadLine};
ghost use Rattle.dali_grammar.specs.Heading.{draws_of, shown};
ghost use Rattle.dali_grammar.specs.Setting.{AtLine, PlansNot, planned, next_as, then_draws, used_of, then_used};

use crate::fault::Stop;
use crate::heading::{Heading, draws_of, heading_of, is_used_line, used_of};
use crate::lines::Script;
use crate::reason::{Clue, Place};
use crate::words::{Wanted, Wrong};
use dali_events::{Plan, PlanError, Used};
use std::alloc::{AllocError, Global};

/// The first two lines, and those of used gear that follow: whether they set up a bench, and the plan.
pub fn plan(alloc: Global, script: &mut Script) -> Result<(bool, Plan), Stop>
    requires { script.old.read + length script.old.rest.now ≤ 1048576 }
    ensures planned { IfOk result
        (λ setting. planned (script.old.read + length (lines_of script.old.rest.now)
        + 1) (numbered_after script.old.read script.old.rest.now)
        ≡ Ok (setting, numbered_after script.new.read script.new.rest.now)) }
    ensures refused { IfErr result
        (λ stop. PlansNot (planned (script.old.read + length (lines_of script.old.rest.now) + 1)
        (numbered_after script.old.read script.old.rest.now)) (fault_of stop)) }
    ensures range { script.new.read + length script.new.rest.now ≤ 1048576 }
{
    let Some(line) = script.next() else {
        return Err(missing(script.number(), Place::First));
    };
    let heading = match heading_of(alloc, line)? {
        Ok(heading) => heading,
        Err(wrong) => return Err(Stop::Line(script.number(), Place::First, wrong)),
    };
    with_draws(alloc, &heading, script)
}

/// The plan of what the first line sets up, by the second one, and by those of used gear that follow.
fn with_draws(alloc: Global, heading: &Heading, script: &mut Script) -> Result<(bool, Plan), Stop>
    requires { script.old.read + length script.old.rest.now ≤ 1048576 }
    ensures planned { IfOk result
        (λ setting. then_draws (shown heading.now) (next_as draws_of
        (script.old.read + length (lines_of script.old.rest.now) + 1)
        (numbered_after script.old.read script.old.rest.now))
        ≡ Ok (setting, numbered_after script.new.read script.new.rest.now)) }
    ensures refused { IfErr result
        (λ stop. PlansNot (then_draws (shown heading.now) (next_as draws_of
        (script.old.read + length (lines_of script.old.rest.now) + 1)
        (numbered_after script.old.read script.old.rest.now))) (fault_of stop)) }
    ensures range { script.new.read + length script.new.rest.now ≤ 1048576 }
{
    let Some(line) = script.next() else {
        return Err(missing(script.number(), Place::Second));
    };
    let draws = match draws_of(alloc, line)? {
        Ok(draws) => draws,
        Err(wrong) => return Err(Stop::Line(script.number(), Place::Second, wrong)),
    };
    match Plan::new(alloc, heading.gear, &heading.blocks, &draws) {
        Ok(plan) => with_used(alloc, heading, &draws, plan, script),
        Err(PlanError::NoMemory) => Err(Stop::Memory),
        Err(error) => Err(Stop::Plan(error, Clue::of(error, &heading.blocks, &draws))),
    }
}

/// A line of the plan is missing, behind so many lines.
fn missing(lines: u32, place: Place) -> Stop
    requires { lines ≤ 1048576 }
    ensures { fault_of result ≡ BadLine (lines + 1) }
{
    Stop::Line(lines + 1, place, Wrong::at(1, Wanted::Line))
}

/// The plan with the used gear that the next lines name.
fn with_used(
    alloc: Global,
    heading: &Heading,
    draws: &[u32],
    plan: Plan,
    script: &mut Script,
) -> Result<(bool, Plan), Stop>
    requires { script.old.read + length script.old.rest.now ≤ 1048576 }
    ensures planned { IfOk result
        (λ setting. then_used heading.now.is_bench plan
        (used_of [] (numbered_after script.old.read script.old.rest.now))
        ≡ Ok (setting, numbered_after script.new.read script.new.rest.now)) }
    ensures refused { IfErr result
        (λ stop. PlansNot (then_used heading.now.is_bench plan
        (used_of [] (numbered_after script.old.read script.old.rest.now))) (fault_of stop)) }
    ensures range { script.new.read + length script.new.rest.now ≤ 1048576 }
{
    let used = used_gear(alloc, script)?;
    match plan.with_used(alloc, &used) {
        Ok(plan) => Ok((heading.is_bench, plan)),
        Err(PlanError::NoMemory) => Err(Stop::Memory),
        Err(error) => Err(Stop::Plan(error, Clue::of_used(error, &used, heading.gear, draws))),
    }
}

/// The used gear that the next lines name.
fn used_gear(alloc: Global, script: &mut Script) -> Result<Vec<Used>, Stop>
    requires { script.old.read + length script.old.rest.now ≤ 1048576 }
    ensures used { IfOk result (λ used. used_of [] (numbered_after script.old.read script.old.rest.now)
        ≡ Ok (used.items, numbered_after script.new.read script.new.rest.now)) }
    ensures refused { IfErr result
        (λ stop. PlansNot (used_of [] (numbered_after script.old.read script.old.rest.now)) (fault_of stop)) }
    ensures range { script.new.read + length script.new.rest.now ≤ 1048576 }
{
    let mut used = Vec::new(alloc);
    while let Some(one) = next_used(script)? {
        append(&mut used, one)?;
    }
    Ok(used)
}

/// The used gear that the next line names, if it names one: then the line is taken.
fn next_used(script: &mut Script) -> Result<Option<Used>, Stop>
    requires { script.old.read + length script.old.rest.now ≤ 1048576 }
    ensures named { IfOk result (λ one. (us : List Used) → MatchOption one
        (used_of us (numbered_after script.old.read script.old.rest.now)
        ≡ Ok (us, numbered_after script.new.read script.new.rest.now))
        (λ u. used_of us (numbered_after script.old.read script.old.rest.now)
        ≡ used_of (us ++ u ∷ []) (numbered_after script.new.read script.new.rest.now))) }
    ensures taken { IfOk result (λ one. IfSome one
        (λ _. length (numbered_after script.new.read script.new.rest.now)
        < length (numbered_after script.old.read script.old.rest.now))) }
    ensures refused { IfErr result (λ stop. (fault_of stop ≡ BadLine script.new.read) × ((us : List Used)
        → used_of us (numbered_after script.old.read script.old.rest.now) ≡ Err (AtLine script.new.read))) }
    ensures range { script.new.read + length script.new.rest.now ≤ 1048576 }
{
    let Some(line) = script.ahead() else {
        return Ok(None);
    };
    if !is_used_line(line) {
        return Ok(None);
    }
    let Some(_) = script.next() else {
        return Ok(None);
    };
    match used_of(line) {
        Ok(one) => Ok(Some(one)),
        Err(wrong) => Err(Stop::Line(script.number(), Place::Used, wrong)),
    }
}

/// One used gear more.
fn append(used: &mut Vec<Used>, one: Used) -> Result<(), AllocError>
    ensures { IfOk result (λ _. used.new.items ≡ used.old.items ++ one ∷ []) }
{
    used.push(one)?;
    Ok(())
}
