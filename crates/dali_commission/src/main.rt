//! `dali_commission` gives short addresses to the DALI control gear on a bus, over a driver that stands beside it, and
//! keeps its records in a file.
#![tactic(auto)]

use dali_commission_files::Files;
use dali_commission_program::{DriverLink, Session, Stores, run_and_say};
use dali_console::exit_code;
use dali_folder::System;
use std::io;
use std::io::IsTerminal;
use std::process::ExitCode;

/// Does what the command line asks for, with records in these places, over the driver that writes to the input and
/// reads the output.
fn serves<F: Stores>(rt: &HostRuntime, places: &mut F) -> ExitCode {
    let is_terminal = IsTerminal::is_terminal(&rt.stderr());
    let driver = DriverLink::new(rt.alloc(), rt.reader(), io::writer(rt));
    exit_code(run_and_say(rt, places, &mut Session::new(driver), is_terminal))
}

fn main(rt: HostRuntime) -> ExitCode {
    serves(&rt, &mut Files::of(&rt, System::of(&rt)))
}
