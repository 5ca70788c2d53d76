//! `dali_audit_program` reads a capture of a bus, a log or a value change dump, from standard input, and says which
//! rules were broken and which gear has which short address. It is `dali_sim audit`.
//!
//! Words: `--wire NAME` and `--inverted` for a dump; `--json` for one line of JSON, `--items` for what was heard, as a
//! log, `--bench` for a script of a bench.
#![tactic(auto)]

ghost use Rattle.std.specs.Prelude.{◌≡◌};
ghost use Rattle.dali_audit_program.specs.Ends.{judged};

mod asked;
mod ended;
mod telling;

use asked::{Asked, asked_of};
use dali_console::{ConsoleFault, say_and_exit, words};
use ended::Ended;
use std::io;
use std::io::BufWriter;
use std::process::ExitCode;
use telling::audit_through;

fn main(rt: HostRuntime) -> ExitCode {
    let fault = match words(&rt) {
        Ok(words) => match asked_of(&words) {
            Some(asked) => return say_and_exit(&rt, "audit: ", audit(&rt, asked)),
            None => ConsoleFault::BadCommandLine,
        },
        Err(fault) => fault,
    };
    say_and_exit(&rt, "", Err(fault))
}

/// Reads the capture of standard input, and writes what is asked for to standard output, by `audit_through`.
fn audit<R: Input + Print + AllocGlobal>(rt: &R, asked: Asked<'_>) -> Result<(), Ended> {
    match BufWriter::new(rt.alloc(), io::writer(rt)) {
        Ok(mut writer) => judged(audit_through(rt.alloc(), asked, &mut rt.reader(), &mut writer)?),
        Err(_) => Err(Ended::Refused),
    }
}

/// How the program ends that has judged a capture.
fn judged(is_clean: bool) -> Result<(), Ended>
    ensures { result ≡ judged is_clean }
{
    if is_clean { Ok(()) } else { Err(Ended::Broken) }
}
