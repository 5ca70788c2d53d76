//! What is written of a script: texts, or JSON for other programs.

ghost use Rattle.std.specs.Prelude.{◌≡◌, OnOk, string_bytes};
ghost use Rattle.dali_replay.specs.Json.{written};

use crate::json::push_shown;
use crate::player::Player;
use std::alloc::AllocError;

/// What is written of a script.
#[derive(Clone, Copy, PartialEq, Eq)]
pub enum Form {
    /// The report of each line.
    Text,
    /// What each `show` shows, as one line of JSON.
    Json,
}

/// Puts what is written of a line in this form in place of its report.
pub fn put_in_form(
    text: &mut String,
    form: Form,
    number: u32,
    line: &[u8],
    player: &Player,
) -> Result<(), AllocError>
    ensures { OnOk result (string_bytes text.new ≡ written form number line.now player.now (string_bytes text.old)) }
{
    match form {
        Form::Text => Ok(()),
        Form::Json => {
            text.clear();
            if line == b"show".as_slice() {
                push_shown(text, number, player)
            } else {
                Ok(())
            }
        }
    }
}
