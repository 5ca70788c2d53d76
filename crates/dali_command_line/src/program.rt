//! The program: what it reads of the system, does, and says.

ghost use Rattle.std.specs.Prelude.{◌≡◌, [], IfSome};
ghost use Rattle.std.specs.Process.{exit_status};
ghost use Rattle.dali_command_line.specs.Ran.{EndsRun};
ghost use Rattle.dali_events.specs.Plan.{refusal_of};

use crate::words::{PROGRAM, Task, task_of};
use dali_console::{ConsoleFault, exit_code, say_and_exit};
use dali_replay::replay_streams;
use dali_threads::{Setup, run_threads};
use dali_words::asked;
use std::env::Env;
use std::io;
use std::io::Eprint;
use std::process::ExitCode;
use std::sync::Wait;
use std::thread::Threads;

/// Runs controllers in threads of the runtime, and writes the report to the system's output.
fn threads<S, R>(system: &S, rt: &R, setup: Setup) -> ExitCode
where
    S: Print + Eprint + AllocGlobal,
    R: Threads + Wait + Sync,
    ensures run { EndsRun setup (exit_status result) }
    ensures refused { IfSome (refusal_of setup.gear setup.blocks.items []) (λ _. exit_status result ≡ 2) }
{
    let ended = run_threads(rt, system.alloc(), setup, &mut io::writer(system));
    say_and_exit(system, "threads: ", ended)
}

/// Does what the words of the command line ask for, and says on standard error why it ended before its end. What is
/// said there changes nothing, also if it cannot be said. Words, input and output are the system's; the runtime has
/// the threads.
pub fn run_and_say<S, R>(system: &S, rt: &R) -> ExitCode
where
    S: Env + Input + Print + Eprint + AllocGlobal,
    R: Threads + Wait + Sync,
{
    match asked(system, &PROGRAM, task_of) {
        Ok(Some(Task::Replay(form))) => {
            say_and_exit(system, "replay: ", replay_streams(system, form))
        }
        Ok(Some(Task::Threads(setup))) => threads(system, rt, setup),
        Ok(None) => ExitCode::SUCCESS,
        // `clap` has said why.
        Err(ConsoleFault::BadCommandLine) => exit_code(Err(ConsoleFault::BadCommandLine)),
        Err(fault) => say_and_exit(system, "", Err(fault)),
    }
}
