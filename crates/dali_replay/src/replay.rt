//! A run from the bytes of a script to the bytes of its reports.

ghost use Rattle.std.specs.Prelude.{◌≡◌, ℕ, ◌+◌, ◌<◌, ◌≤◌, ◌⊎◌, List, length, IfOk, IfErr, IfSome, IsErrOf, IsErrAnd};
ghost use Rattle.std.specs.Io.KnownBytes.{Consumes};
ghost use Rattle.dali_grammar.specs.Lines.{numbered_after};
ghost use Rattle.dali_grammar.specs.ReplayFault.{with_fault};
ghost use Rattle.dali_replay.specs.Player.{PlaysOn};
ghost use Rattle.dali_grammar.specs.Setting.{setting_of};
ghost use Rattle.dali_replay.specs.Replay.{Replays, Tells};
ghost use Rattle.dali_replay.specs.declared.form.Form.TheVariants as form;

use crate::form::{Form, put_in_form};
use crate::player::Player;
use dali_grammar::{INPUT_LIMIT, ReplayFault, Script, Stop, plan};
use std::alloc::Global;
use std::io::{Read, Write};

/// Reads the whole input. Every error of the reader, `Interrupted` too, and an input past the limit is `Read`.
pub fn read_input<R: Read>(alloc: Global, reader: &mut R) -> Result<Vec<u8>, ReplayFault>
    ensures read { IfOk result (λ input. Consumes (R.remaining reader.old) (R.remaining reader.new) input.items) }
    ensures whole { IfOk result (λ input. IfSome (R.remaining reader.old) (λ left. left ≡ input.items)) }
    ensures limit { IfOk result (λ input. length input.items ≤ 1048576) }
    ensures faults { IfErr result (λ e. (e ≡ ReplayFault.Memory) ⊎ (e ≡ ReplayFault.Read)) }
{
    let mut input = Vec::new(alloc);
    let mut chunk = [0u8; 4096];
    while input.len() <= INPUT_LIMIT {
        let Ok(count) = reader.read(&mut chunk) else {
            return Err(ReplayFault::Read);
        };
        if count == 0 {
            return Ok(input);
        }
        input.extend_from_slice(&chunk[..count])?;
    }
    Err(ReplayFault::Read)
}

/// Plays the lines that are left. What is to be written of each is written before the next line is taken.
fn play<W: Write>(
    alloc: Global,
    form: Form,
    player: &mut Player,
    script: &mut Script,
    writer: &mut W,
) -> Result<(), Stop>
    requires { script.old.read + length script.old.rest.now ≤ 1048576 }
    ensures { PlaysOn form player.old (numbered_after script.old.read script.old.rest.now) (W.contents writer.old)
        (W.contents writer.new) (with_fault result) }
{
    let mut text = String::new(alloc);
    while let Some(line) = script.next() {
        text.clear();
        player.play(script.number(), line, &mut text)?;
        put_in_form(&mut text, form, script.number(), line, player)?;
        match writer.write_all(text.as_bytes()) {
            Ok(()) => {}
            Err(_) => return Err(Stop::Write),
        }
    }
    Ok(())
}

/// Plays a whole input.
pub(crate) fn replay<W: Write>(
    alloc: Global,
    form: Form,
    input: &[u8],
    writer: &mut W,
) -> Result<(), Stop>
    requires { length input.now ≤ 1048576 }
    ensures { Replays form (setting_of input.now) (W.contents writer.old) (W.contents writer.new) (with_fault result) }
{
    let mut script = Script::new(input);
    let (is_bench, plan) = plan(alloc, &mut script)?;
    let mut player = Player::new(alloc, is_bench, plan)?;
    play(alloc, form, &mut player, &mut script, writer)
}

/// Reads a script of a bench or a site, and writes the reports of its lines.
///
/// If the answer is `Ok`, exactly what the input asks for is written. On a bench that is a function of the input. On a
/// site it is the text of each line, in order, of the call that the line makes. At `BadLine` the reports up to that
/// line are written, at `Memory` the first of the reports, and at `BadPlan` and `Read` nothing. At `Write` nothing is
/// said of what went out.
pub fn run_replay<R: Read, W: Write>(
    alloc: Global,
    reader: &mut R,
    writer: &mut W,
) -> Result<(), ReplayFault>
    // Of a reader that does not tell its bytes, some input is told.
    ensures some { (input : List ℕ) × Tells form.Text (setting_of input) (W.contents writer.old)
        (W.contents writer.new) result }
    ensures unread { IsErrOf result ReplayFault.Read → writer.new ≡ writer.old }
    ensures told { IfSome (R.remaining reader.old)
        (λ input. Tells form.Text (setting_of input) (W.contents writer.old) (W.contents writer.new) result) }
    ensures long { IfSome (R.remaining reader.old) (λ input. 1048576 < length input
        → IsErrAnd result (λ e. (e ≡ ReplayFault.Memory) ⊎ (e ≡ ReplayFault.Read))) }
{
    let input = read_input(alloc, reader)?;
    fault_alone(replay(alloc, Form::Text, &input, writer))
}

/// How a run ended, without what is wrong in the script.
fn fault_alone(ended: Result<(), Stop>) -> Result<(), ReplayFault>
    ensures { result ≡ with_fault ended }
{
    match ended {
        Ok(()) => Ok(()),
        Err(stop) => Err(stop.fault()),
    }
}
