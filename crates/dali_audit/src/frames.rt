//! What is compared of the frames of a capture.

ghost use Rattle.std.specs.Prelude.{◌≡◌};
ghost use Rattle.dali_audit.specs.Frames.{asked};

use dali_frame::{Answer, Forward};
use dali_special::Command;

/// What is compared of a frame: what was heard, if it is a question of the command table.
pub(crate) fn asked(frame: Forward, answer: Answer) -> Option<Answer>
    ensures { result ≡ asked frame answer }
{
    if Command::read(frame).is_question() {
        Some(answer)
    } else {
        None
    }
}
