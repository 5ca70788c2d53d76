//! A script that was played to its end: its lines, what each caused and reported, and all that happened.

ghost use Rattle.std.specs.Prelude.{◌≡◌, ◌+◌, ◌≤◌, ◌++◌, ◌∷◌, [], length, IfOk, IfErr, OnOk, string_bytes};
ghost use Rattle.dali_grammar.specs.ReplayFault.{fault_of, with_fault};
ghost use Rattle.dali_replay.specs.BenchReport.{with_event};
ghost use Rattle.dali_replay.specs.Played.{stand, events_in, log_in, IsEmpty, IsOf, IsSame, PlaysAll};
ghost use Rattle.dali_replay.specs.Played.{IsPlayed, IsPlayedBy, StopsIn, StopsBy};
ghost use Rattle.dali_grammar.specs.Setting.{setting_of};

use crate::json::push_state;
use crate::player::Player;
use dali_frame::Random24;
use dali_grammar::{Script, Stop, plan};
use dali_world::{Event, Plan, Used};
use std::alloc::{AllocError, Global};

/// A line of a script that was played, and what it caused.
#[derive(Clone, Copy)]
pub struct PlayedLine<'a> {
    /// The number of the line, from 1.
    pub number: u32,
    pub line: &'a [u8],
    /// The events that it caused are those from place `first` of the log up to, but not with, place `after`.
    pub first: usize,
    pub after: usize,
    /// Where its report ends in the text of all reports. It begins where that of the line before it ends.
    pub report: usize,
}

/// A script that was played to its end.
#[derive(Drop)]
pub struct Played<'a> {
    /// The bytes of the script.
    pub input: &'a [u8],
    /// How many gear there are, and how many controllers: none on a bench.
    pub gear: u32,
    pub controllers: u8,
    /// The numbers that gear will draw, and the used gear.
    pub draws: Vec<Random24>,
    pub used: Vec<Used>,
    /// The lines that were played, in order: those after the ones that set the script up.
    pub lines: Vec<PlayedLine<'a>>,
    /// What all lines reported, one after the other, as `replay` writes it.
    pub reports: String,
    /// All that happened, oldest first. On a bench controller 0 stands for the sender of a frame.
    pub log: Vec<Event>,
    /// The gear and the tables at the end, as `show` has them as JSON.
    pub state: String,
}

/// Puts one item more at the end of a list.
fn append<T: Copy>(list: &mut Vec<T>, item: &T) -> Result<(), AllocError>
    ensures { OnOk result (list.new.items ≡ list.old.items ++ item.now ∷ []) }
{
    list.push(*item)?;
    Ok(())
}

/// A copy of a list.
fn copy_of<T: Copy + Drop>(alloc: Global, list: &[T]) -> Result<Vec<T>, AllocError>
    ensures { IfOk result (λ copy. copy.items ≡ list.now) }
{
    let mut copy = Vec::with_capacity(alloc, list.len())?;
    copy.extend_from_slice(list)?;
    Ok(copy)
}

/// Adds what came of a line of a bench.
fn keep_event(log: &mut Vec<Event>, event: Option<Event>) -> Result<(), AllocError>
    ensures { OnOk result (log.new.items ≡ with_event log.old.items event) }
{
    match event {
        Some(event) => append(log, &event),
        None => Ok(()),
    }
}

/// How many events happened so far: on a bench those that were kept.
fn events_in(player: &Player, kept: &[Event]) -> usize
    ensures { result ≡ events_in player.now kept.now }
{
    match player {
        Player::Bench(_) => kept.len(),
        Player::Site(installation) => installation.site().log().len(),
    }
}

/// Plays all lines that are left, and keeps each, its report and, of a bench, what came of it.
fn play_all<'a>(
    player: &mut Player,
    script: &mut Script<'a>,
    lines: &mut Vec<PlayedLine<'a>>,
    reports: &mut String,
    log: &mut Vec<Event>,
) -> Result<(), Stop>
    requires { script.old.read + length script.old.rest.now ≤ 1048576 }
    ensures { PlaysAll (stand player.old script.old) player.new lines.old.items lines.new.items
        (string_bytes reports.old) (string_bytes reports.new) log.old.items log.new.items
        (with_fault result) }
{
    let mut first = events_in(player, log);
    while let Some(line) = script.next() {
        let number = script.number();
        let event = player.play(number, line, reports)?;
        keep_event(log, event)?;
        let after = events_in(player, log);
        let line = PlayedLine {
            number,
            line,
            first,
            after,
            report: reports.len(),
        };
        append(lines, &line)?;
        first = after;
    }
    Ok(())
}

/// All that happened: on a bench what was kept, on a site its log.
fn keep_log(log: &mut Vec<Event>, player: &Player) -> Result<(), AllocError>
    ensures { OnOk result (log.new.items ≡ log_in player.now log.old.items) }
{
    match player {
        Player::Bench(_) => Ok(()),
        Player::Site(installation) => {
            log.clear();
            log.extend_from_slice(installation.site().log())
        }
    }
}

impl<'a> Played<'a> {
    /// Nothing yet, of a script of this plan.
    fn begun(
        alloc: Global,
        input: &'a [u8],
        plan: &Plan,
        is_bench: bool,
    ) -> Result<Played<'a>, AllocError>
        ensures of { IfOk result (IsOf is_bench plan.now) }
        ensures empty { IfOk result IsEmpty }
        ensures input { IfOk result (λ played. played.input.now ≡ input.entry.now) }
    {
        let draws = copy_of(alloc, plan.draws())?;
        let used = copy_of(alloc, plan.used())?;
        Ok(Played {
            input,
            gear: plan.gear(),
            controllers: if is_bench {
                0
            } else {
                plan.blocks().len() as u8
            },
            draws,
            used,
            lines: Vec::new(alloc),
            reports: String::new(alloc),
            log: Vec::new(alloc),
            state: String::new(alloc),
        })
    }

    /// Plays all lines.
    fn play(&mut self, player: &mut Player, script: &mut Script<'a>) -> Result<(), Stop>
        requires empty { IsEmpty self.old }
        requires range { script.old.read + length script.old.rest.now ≤ 1048576 }
        ensures played { OnOk result (IsPlayed (stand player.old script.old) self.new) }
        ensures same { OnOk result (IsSame self.old self.new) }
        ensures stops { IfErr result (λ stop. StopsIn (stand player.old script.old) (fault_of stop)) }
    {
        play_all(
            player,
            script,
            &mut self.lines,
            &mut self.reports,
            &mut self.log,
        )?;
        push_state(&mut self.state, player)?;
        keep_log(&mut self.log, player)?;
        Ok(())
    }

    /// Plays a script to its end.
    ///
    /// It stops as `run_replay` does: at a bad line or plan, or for want of memory.
    pub fn of(alloc: Global, input: &'a [u8]) -> Result<Played<'a>, Stop>
        requires { length input.now ≤ 1048576 }
        ensures played { IfOk result (λ played. IsPlayedBy (setting_of input.now) played) }
        ensures input { IfOk result (λ played. played.input.now ≡ input.entry.now) }
        ensures stops { IfErr result (λ stop. StopsBy (setting_of input.now) (fault_of stop)) }
    {
        let mut script = Script::new(input);
        let (is_bench, plan) = plan(alloc, &mut script)?;
        let mut played = Played::begun(alloc, input, &plan, is_bench)?;
        let mut player = Player::new(alloc, is_bench, plan)?;
        played.play(&mut player, &mut script)?;
        Ok(played)
    }
}
