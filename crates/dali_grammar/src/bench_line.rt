//! What a line asks for on a bench.

ghost use Rattle.std.specs.Prelude.{◌≡◌, option_map};
ghost use Rattle.std.specs.Result.{result_ok};
ghost use Rattle.dali_grammar.specs.Lines.{words_of, parts_after};
ghost use Rattle.dali_grammar.specs.BenchLine.{bench_line, bench_line_of};

use crate::lines::cut;
use crate::words::{Wanted, Wrong, ended, frame, is_name, number};
use dali_frame::Forward;

/// A line of a bench, after the two of its plan.
#[derive(Clone, Copy)]
pub enum BenchLine {
    /// `frame HHHH`: all powered gear take the frame, in order of their number.
    Frame(Forward),
    /// `off g`: gear g loses its power.
    Off(u32),
    /// `on g`: the power of gear g comes back.
    On(u32),
    /// `expire g`: the 15 minutes of gear g's initialisation are over.
    Expire(u32),
    /// `quiet`: half pairs are forgotten.
    Quiet,
    /// `show`: the state of all gear.
    Show,
}

fn bench_line(name: &[u8], rest: Option<&[u8]>) -> Result<BenchLine, Wrong>
    ensures { result_ok result
        ≡ bench_line name.now (parts_after 32 (option_map (λ rest. rest.now) rest.entry)) }
{
    if is_name(name, b"frame") {
        Ok(BenchLine::Frame(frame(rest, 2)?))
    } else if is_name(name, b"off") {
        Ok(BenchLine::Off(number(rest)?))
    } else if is_name(name, b"on") {
        Ok(BenchLine::On(number(rest)?))
    } else if is_name(name, b"expire") {
        Ok(BenchLine::Expire(number(rest)?))
    } else if is_name(name, b"quiet") {
        ended(BenchLine::Quiet, rest, 2)
    } else if is_name(name, b"show") {
        ended(BenchLine::Show, rest, 2)
    } else {
        Err(Wrong::at(1, Wanted::Name))
    }
}

/// What a line asks for on a bench, or its first wrong word.
pub fn bench_line_of(line: &[u8]) -> Result<BenchLine, Wrong>
    ensures { result_ok result ≡ bench_line_of (words_of line.now) }
{
    let (name, rest) = cut(line, b' ');
    bench_line(name, rest)
}
