//! `dali_view` reads a script of what happens on a bench of DALI control gear, or on a site with application
//! controllers, plays it to its end, and writes the story of the run: what happened, as lines of JSON. It takes no
//! word.
#![tactic(auto)]

use dali_console::{ConsoleFault, say_and_exit, words};
use dali_story::tell_streams;
use std::process::ExitCode;

fn main(rt: HostRuntime) -> ExitCode {
    let fault = match words(&rt) {
        Ok(words) if words.len() <= 1 => return say_and_exit(&rt, "view: ", tell_streams(&rt)),
        Ok(_) => ConsoleFault::BadCommandLine,
        Err(fault) => fault,
    };
    say_and_exit(&rt, "", Err(fault))
}
