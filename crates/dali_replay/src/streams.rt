//! A run over a reader and a writer behind a buffer, and over standard input and output.

ghost use Rattle.std.specs.Prelude.{◌≡◌, ◌≤◌, [], OnOk, IfSome, length};
ghost use Rattle.std.specs.Io.Buffered.{writer_buffer, writer_contents};
ghost use Rattle.dali_grammar.specs.ReplayFault.{with_fault};
ghost use Rattle.dali_grammar.specs.Setting.{setting_of};
ghost use Rattle.dali_replay.specs.Replay.{Replays};
ghost use Rattle.dali_replay.specs.Streams.{Explains};

use crate::form::Form;
use crate::replay::{read_input, replay};
use dali_grammar::{Explained, ReplayFault, Stop};
use std::alloc::Global;
use std::io;
use std::io::{BufWriter, Read, Write};

/// Plays a whole input, and passes on what was written, before a fault too.
fn replay_and_pass_on<W: Write + Drop>(
    alloc: Global,
    form: Form,
    input: &[u8],
    writer: &mut BufWriter<W>,
) -> Result<(), Stop>
    requires { length input.now ≤ 1048576 }
    ensures told { Replays form (setting_of input.now)
        (writer_contents W.contents writer.old) (writer_contents W.contents writer.new) (with_fault result) }
    ensures passed { OnOk result (writer_buffer writer.new ≡ []) }
{
    let played = replay(alloc, form, input, writer);
    match writer.flush() {
        Ok(()) => played,
        Err(_) => Err(Stop::Write),
    }
}

/// Reads a script, plays it, and writes what is to be written of its lines in this form, as `run_replay` writes their
/// reports. What is written is passed on, before a fault too: after `Ok` nothing is left in the buffer. A fault comes
/// with its reason.
///
/// The faults are those of `run_replay`; `Write` also if what was written cannot be passed on.
pub fn replay_through<R: Read, W: Write + Drop>(
    alloc: Global,
    form: Form,
    reader: &mut R,
    writer: &mut BufWriter<W>,
) -> Result<(), Explained>
    ensures told { IfSome (R.remaining reader.old) (λ input. Explains form input
        (writer_contents W.contents writer.old) (writer_contents W.contents writer.new) result) }
    ensures passed { OnOk result (writer_buffer writer.new ≡ []) }
{
    let input = match read_input(alloc, reader) {
        Ok(input) => input,
        Err(fault) => return Err(Explained::without_reason(fault)),
    };
    match replay_and_pass_on(alloc, form, &input, writer) {
        Ok(()) => Ok(()),
        Err(stop) => Err(Explained::of(&input, stop)),
    }
}

/// Plays standard input to standard output, by `replay_through`.
pub fn replay_streams<R: Input + Print + AllocGlobal>(rt: &R, form: Form) -> Result<(), Explained> {
    let alloc = rt.alloc();
    match BufWriter::new(alloc, io::writer(rt)) {
        Ok(mut writer) => replay_through(alloc, form, &mut rt.reader(), &mut writer),
        Err(_) => Err(Explained::without_reason(ReplayFault::Memory)),
    }
}
