//! `dali_play` reads a script of what happens on a bench of DALI control gear, or on a site with application
//! controllers, and reports what comes of each line. It is `dali_sim replay` without what `dali_sim threads` needs. So
//! a user who plays a script waits for the proofs of that alone. It takes one word, `--json`, or none.
#![tactic(auto)]

ghost use Rattle.std.specs.Prelude.{◌≡◌};
ghost use Rattle.dali_play.specs.Forms.{form_of};

use dali_console::{ConsoleFault, say_and_exit, words};
use dali_replay::{Form, replay_streams};
use std::process::ExitCode;

fn main(rt: HostRuntime) -> ExitCode {
    let fault = match words(&rt) {
        Ok(words) => match form_of(&words) {
            Some(form) => return say_and_exit(&rt, "replay: ", replay_streams(&rt, form)),
            None => ConsoleFault::BadCommandLine,
        },
        Err(fault) => fault,
    };
    say_and_exit(&rt, "", Err(fault))
}

/// What the command line asks to be written.
fn form_of(words: &[String]) -> Option<Form>
    ensures { result ≡ form_of words.now }
{
    match words {
        [] | [_] => Some(Form::Text),
        [_, word] if word.as_str() == "--json" => Some(Form::Json),
        _ => None,
    }
}
