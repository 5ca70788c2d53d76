//! A story from the bytes of a script.

ghost use Rattle.std.specs.Prelude.{◌≤◌, length, IfOk, IfErr, IfSome};
ghost use Rattle.dali_grammar.specs.ReplayFault.{fault_of};
ghost use Rattle.dali_story.specs.Tells.{IsTold, TellsNot, Tells};

use crate::story::story_of;
use dali_replay::{Explained, Played, Stop, read_input};
use std::alloc::Global;
use std::io;
use std::io::{Read, Write};

/// Writes the story of a script.
fn tell<W: Write>(alloc: Global, input: &[u8], writer: &mut W) -> Result<(), Stop>
    requires { length input.now ≤ 1048576 }
    ensures told { IfOk result (λ _. IsTold input.now (W.contents writer.old) (W.contents writer.new)) }
    ensures stops { IfErr result
        (λ stop. TellsNot input.now (W.contents writer.old) (W.contents writer.new) (fault_of stop)) }
{
    let played = Played::of(alloc, input)?;
    let story = story_of(alloc, &played)?;
    match writer.write_all(story.as_bytes()) {
        Ok(()) => Ok(()),
        Err(_) => Err(Stop::Write),
    }
}

/// Reads a script of a bench or a site, plays it to its end, and writes its story. At every fault but `Write` nothing
/// is written. A fault comes with its reason.
///
/// The faults are those of `run_replay`.
pub fn tell_run<R: Read, W: Write>(
    alloc: Global,
    reader: &mut R,
    writer: &mut W,
) -> Result<(), Explained>
    ensures { IfSome (R.remaining reader.old)
        (λ input. Tells input (W.contents writer.old) (W.contents writer.new) result) }
{
    let input = match read_input(alloc, reader) {
        Ok(input) => input,
        Err(fault) => return Err(Explained::without_reason(fault)),
    };
    match tell(alloc, &input, writer) {
        Ok(()) => Ok(()),
        Err(stop) => Err(Explained::of(&input, stop)),
    }
}

/// Plays standard input, and writes its story to standard output, by `tell_run`.
pub fn tell_streams<R: Input + Print + AllocGlobal>(rt: &R) -> Result<(), Explained> {
    tell_run(rt.alloc(), &mut rt.reader(), &mut io::writer(rt))
}
