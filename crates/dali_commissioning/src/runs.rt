//! Commissioning until it is done: one machine after the other, each from the records of the store.

ghost use Rattle.std.specs.Prelude.{◌≡◌, ◌≢◌, ◌<◌, ◌↔◌, true, List, IsTrue, Err, IfOk, IfErr};
ghost use Rattle.dali_script.specs.Due.{accepts};
ghost use Rattle.dali_script.specs.declared.orders.Due.TheVariants as due;
ghost use Rattle.dali_script.specs.declared.orders.End.TheVariants as ends;
ghost use Rattle.dali_statement.specs.Own.{Act};
ghost use Rattle.dali_commissioning.specs.Acts.{RunsKeepRules, RunsLeaveRules, IsLeftRun};
ghost use Rattle.dali_commissioning.specs.Drivers.{talk_of, IsFailed};
ghost use Rattle.dali_commissioning.specs.Steps.{has_committed};
ghost use Rattle.dali_commissioning.specs.Conducted.{Stays};
ghost use Rattle.dali_commissioning.specs.Runs.{Run, IsRun, AreRuns, HaveRun, AreQuiet, EndWith, ComeTo, Grows};
ghost use Rattle.dali_commissioning.specs.Runs.{IsSpent, IsSpentBefore, quiet_after};

use crate::conducting::{Ended, PassEnd, conduct};
use crate::driver::DriverLink;
use crate::fault::CommissionFault;
use crate::watch::Watch;
use dali_controller::Machine;
use dali_reserve::Keep;
use dali_script::{End, Input};
use std::io::{Read, Write};

/// How many steps a machine may take: at twenty milliseconds a frame, some five hours.
const MOST_STEPS: u32 = 1_000_000;

/// How many machines may run.
const MOST_RUNS: u32 = 1_000;

fn is_all_found(ended: Ended) -> bool
    ensures { IsTrue result ↔ (ended ≡ Ended.Done ends.AllFound) }
{
    matches!(ended, Ended::Done(End::AllFound))
}

/// How many runs in a row have committed nothing, with one more.
fn quiet_after(quiet: u8, committed: bool) -> u8
    requires { quiet < 255 }
    ensures { result ≡ quiet_after quiet committed }
{
    if committed { 0 } else { quiet + 1 }
}

/// Runs one machine, from the records of the store and by this input.
fn run<K: Keep, R: Read, W: Write, P: Watch>(
    keep: &mut K,
    driver: &mut DriverLink<R, W>,
    watch: &mut P,
    start: Input,
) -> Result<PassEnd, CommissionFault>
    requires begins { accepts due.Start start ≡ true }
    ensures ran { IfOk result (λ pass. (run : Run) × IsRun K.is_up K.is_sound K.holds (K.block keep.old) start
        keep.old keep.new (talk_of R.remaining W.contents driver.old) (talk_of R.remaining W.contents driver.new) run
        × (run.ended ≡ pass.ended) × (run.heard ≡ pass.heard) × (run.found ≡ pass.found)
        × (run.tries ≡ pass.tries) × (run.tally ≡ pass.tally) × (pass.committed ≡ has_committed run.steps)) }
    ensures left { IfErr result (λ _. Grows K.is_up K.is_sound K.holds keep.old keep.new) }
    ensures stays { Stays K.is_up K.is_sound keep.old keep.new }
    ensures block { K.block keep.new ≡ K.block keep.old }
    ensures steps { result ≡ Err CommissionFault.StepsSpent → IsSpent K.is_up K.is_sound K.holds (K.block keep.old)
        start keep.old keep.new (talk_of R.remaining W.contents driver.old)
        (talk_of R.remaining W.contents driver.new) }
    ensures one_run { result ≢ Err CommissionFault.RunsSpent }
    ensures none_lost { result ≢ Err CommissionFault.QuestionLost }
    ensures left_rules { IfErr result (λ reason. (acts : List Act) × IsLeftRun K.is_up K.is_sound K.holds
        (K.block keep.old) start reason keep.old keep.new (talk_of R.remaining W.contents driver.old)
        (talk_of R.remaining W.contents driver.new) acts) }
    ensures failed { IfErr result (λ reason. IsFailed reason (talk_of R.remaining W.contents driver.new)) }
{
    let kept = match keep.read() {
        Ok(kept) => kept,
        Err(error) => return Err(CommissionFault::Store(error)),
    };
    let mut machine = Machine::new(0, &kept);
    match conduct(&mut machine, keep, driver, watch, start, MOST_STEPS) {
        // For the prover: what a pass says and what a fault says are told apart.
        Ok(pass) => Ok(pass),
        Err(fault) => Err(fault),
    }
}

/// Runs machines, each of which begins by this input, until one ended otherwise than that no gear answers any more, or
/// so many in a row have committed nothing. Answers what came of the last one.
///
/// One run may leave gear if an answer was lost. The store has all that was committed, however it ends.
/// Whatever the driver answers, what was put and committed keeps the rules for senders of `dali_statement`, all runs as
/// one sender that restarts (`rules`, `left_rules`).
#[tactic(auto, using(crate::proofs::Ran::none_ran, crate::proofs::Ran::all_ran))]
pub fn commission<K: Keep, R: Read, W: Write, P: Watch>(
    keep: &mut K,
    driver: &mut DriverLink<R, W>,
    watch: &mut P,
    start: Input,
    quiet_runs: u8,
) -> Result<PassEnd, CommissionFault>
    requires begins { accepts due.Start start ≡ true }
    requires some { 0 < quiet_runs }
    ensures ran { IfOk result (λ pass. (runs : List Run) × AreRuns K.is_up K.is_sound K.holds (K.block keep.old)
        start keep.old keep.new (talk_of R.remaining W.contents driver.old)
        (talk_of R.remaining W.contents driver.new) runs
        × EndWith pass.ended runs × ComeTo pass runs
        × (pass.ended ≡ Ended.Done ends.AllFound → AreQuiet quiet_runs runs)) }
    ensures spent { result ≡ Err CommissionFault.RunsSpent → HaveRun K.is_up K.is_sound K.holds (K.block keep.old)
        start keep.old keep.new (talk_of R.remaining W.contents driver.old)
        (talk_of R.remaining W.contents driver.new) 1000 }
    ensures steps { result ≡ Err CommissionFault.StepsSpent → IsSpentBefore K.is_up K.is_sound K.holds
        (K.block keep.old) start keep.old keep.new (talk_of R.remaining W.contents driver.old)
        (talk_of R.remaining W.contents driver.new) 1000 }
    ensures none_lost { result ≢ Err CommissionFault.QuestionLost }
    ensures left { IfErr result (λ _. Grows K.is_up K.is_sound K.holds keep.old keep.new) }
    ensures stays { Stays K.is_up K.is_sound keep.old keep.new }
    ensures block { K.block keep.new ≡ K.block keep.old }
    ensures rules { IfOk result (λ _. RunsKeepRules K.is_up K.is_sound K.holds (K.block keep.old) start keep.old
        keep.new (talk_of R.remaining W.contents driver.old) (talk_of R.remaining W.contents driver.new)) }
    ensures left_rules { IfErr result (λ reason. RunsLeaveRules K.is_up K.is_sound K.holds (K.block keep.old) start
        reason keep.old keep.new (talk_of R.remaining W.contents driver.old)
        (talk_of R.remaining W.contents driver.new)) }
    ensures failed { IfErr result (λ reason. IsFailed reason (talk_of R.remaining W.contents driver.new)) }
{
    let mut quiet = 0;
    for _ in 0..MOST_RUNS {
        let pass = run(keep, driver, watch, start)?;
        if !is_all_found(pass.ended) {
            return Ok(pass);
        }
        quiet = quiet_after(quiet, pass.committed);
        if quiet == quiet_runs {
            return Ok(pass);
        }
    }
    Err(CommissionFault::RunsSpent)
}
