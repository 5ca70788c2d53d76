//! `dali_sim replay` reads a script of what happens on a bench of DALI control gear, or on a site with application
//! controllers, and reports what comes of it. `dali_sim threads` runs application controllers in threads of their own,
//! and reports what became of the gear.
#![tactic(auto)]

use dali_command_line::run_and_say;
use std::process::ExitCode;

fn main(rt: HostRuntime) -> ExitCode {
    run_and_say(&rt, &rt)
}
