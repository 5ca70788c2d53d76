//! A run of rounds: in each, every controller that has something due goes, and then the bus.

ghost use Rattle.std.specs.Prelude.{◌≡◌, ◌<◌, length, true, OnOk, IfOk, string_bytes, if◌then◌else◌};
ghost use Rattle.dali_replay.specs.Rounds.{IsTurn, AreTurns, IsRoundOf, Ran, is_sent, came_of, Runs};
ghost use Rattle.dali_replay.specs.Text.{Writes};

use crate::installation::Installation;
use crate::text::{push_kept, push_ran, push_refused};
use dali_world::{Report, Trouble};
use std::alloc::AllocError;

/// What came of a round.
#[derive(Clone, Copy)]
pub enum Round {
    /// It sent a frame that was not destroyed (true), or none.
    Played(bool),
    /// No controller had a turn, and no request was next.
    Over,
    /// A call was refused.
    Refused,
}

/// A controller's turn in a round, and whether it went; `None` if it was refused.
fn take_turn(
    text: &mut String,
    installation: &mut Installation,
    c: u8,
) -> Result<Option<bool>, AllocError>
    requires { c < length installation.old.site.plan.blocks }
    ensures { IfOk result
        (λ went. Writes (string_bytes text.old) (string_bytes text.new)
        (λ more. IsTurn installation.old c went more installation.new)) }
{
    let turn = installation.turn(c);
    match &turn {
        Ok(None) => Ok(Some(false)),
        Ok(Some(order)) => {
            push_kept(text, u32::from(c), order)?;
            Ok(Some(true))
        }
        Err(error) => {
            push_refused(text, *error)?;
            Ok(None)
        }
    }
}

/// The turns of all controllers, in order of their numbers, and whether one of them went; `None` if a turn was refused,
/// which is the last then.
#[inline(always)]
fn turns(text: &mut String, installation: &mut Installation) -> Result<Option<bool>, AllocError>
    ensures { IfOk result
        (λ acted. Writes (string_bytes text.old) (string_bytes text.new)
        (λ more. AreTurns installation.old acted more installation.new)) }
{
    let mut acted = false;
    for c in 0..installation.controllers() {
        let Some(went) = take_turn(text, installation, c)? else {
            return Ok(None);
        };
        acted |= went;
    }
    Ok(Some(acted))
}

/// Whether a report counts as a frame: it was sent, and not destroyed.
fn is_sent(report: Report) -> bool
    ensures { result ≡ is_sent report }
{
    match report {
        Report::Sent(..) => true,
        Report::Idle | Report::Destroyed(..) | Report::Collided(..) => false,
    }
}

/// What came of a round in which some controller went or none did, and this came on the bus.
fn came_of(acted: bool, report: Report) -> Round
    ensures { result ≡ came_of acted report }
{
    match report {
        Report::Idle if !acted => Round::Over,
        Report::Idle | Report::Sent(..) | Report::Destroyed(..) | Report::Collided(..) => {
            Round::Played(is_sent(report))
        }
    }
}

/// One round.
#[inline(always)]
fn play_round(text: &mut String, installation: &mut Installation) -> Result<Round, AllocError>
    ensures { IfOk result
        (λ round. Writes (string_bytes text.old) (string_bytes text.new)
        (λ more. IsRoundOf installation.old round more installation.new)) }
{
    let Some(acted) = turns(text, installation)? else {
        return Ok(Round::Refused);
    };
    match installation.pump(Trouble::None) {
        Ok(report) => Ok(came_of(acted, report)),
        Err(error) => {
            push_refused(text, error)?;
            Ok(Round::Refused)
        }
    }
}

/// One for a frame that was sent, and none else.
fn count(sent: bool) -> u32
    ensures { result ≡ (if sent then 1 else 0) }
{
    if sent { 1 } else { 0 }
}

/// Up to so many rounds; how many frames they sent.
fn rounds(text: &mut String, installation: &mut Installation, limit: u32) -> Result<u32, AllocError>
    ensures { IfOk result
        (λ frames. Writes (string_bytes text.old) (string_bytes text.new)
        (λ more. Ran limit installation.old frames more installation.new)) }
{
    let mut played = 0;
    let mut frames = 0;
    while played < limit {
        match play_round(text, installation)? {
            Round::Played(sent) => frames += count(sent),
            Round::Over => return Ok(frames),
            Round::Refused => return Ok(frames),
        }
        played += 1;
    }
    Ok(frames)
}

/// `run n`: up to so many rounds, and the report of them.
pub fn run(text: &mut String, installation: &mut Installation, limit: u32) -> Result<(), AllocError>
    ensures { OnOk result
        (Writes (string_bytes text.old) (string_bytes text.new)
        (λ more. Runs limit installation.old more installation.new)) }
{
    let frames = rounds(text, installation, limit)?;
    push_ran(text, frames)
}
