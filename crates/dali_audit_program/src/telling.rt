//! What is written of a capture.

ghost use Rattle.std.specs.Prelude.{◌≡◌, [], IfOk, IfSome, OnOk, string_bytes};
ghost use Rattle.std.specs.Io.Buffered.{writer_buffer, writer_contents};
ghost use Rattle.std.specs.Io.KnownBytes.{Appends};
ghost use Rattle.dali_capture.specs.Spelled.{log_text};
ghost use Rattle.dali_audit_program.specs.Tells.{judgement_text, IsJudged, HasScript, IsTold, Tells};

use crate::asked::{Asked, Form};
use crate::ended::Ended;
use dali_audit::{Bench, Judgement};
use dali_capture::{Item, read_capture};
use std::alloc::{AllocError, Global};
use std::io;
use std::io::{BufWriter, Read, Write};

/// A judgement, in lines or as one line of JSON.
fn judgement_text(alloc: Global, judgement: &Judgement, is_json: bool) -> Result<String, AllocError>
    ensures { IfOk result (λ text. string_bytes text ≡ judgement_text is_json judgement.now) }
{
    let mut text = String::new(alloc);
    if is_json {
        judgement.push_json(&mut text)?;
    } else {
        judgement.push_lines(&mut text)?;
    }
    Ok(text)
}

/// Judges a capture, writes what is told of it, and answers whether no rule was broken.
fn judge<W: Write + Drop>(
    alloc: Global,
    items: &[Item],
    is_json: bool,
    writer: &mut BufWriter<W>,
) -> io::Result<bool>
    ensures { IfOk result (IsJudged is_json items.now
        (writer_contents W.contents writer.old) (writer_contents W.contents writer.new)) }
{
    let judgement = Judgement::of(alloc, items)?;
    let text = judgement_text(alloc, &judgement, is_json)?;
    writer.write_all(text.as_bytes())?;
    Ok(judgement.is_clean())
}

/// Writes a script of the bench that takes the frames of a capture.
fn write_bench<W: Write + Drop>(
    alloc: Global,
    items: &[Item],
    writer: &mut BufWriter<W>,
) -> Result<(), Ended>
    ensures { OnOk result (HasScript items.now
        (writer_contents W.contents writer.old) (writer_contents W.contents writer.new)) }
{
    let bench = Bench::of(alloc, items)?;
    let text = bench.script(alloc)?;
    Ok(writer.write_all(text.as_bytes())?)
}

/// Writes the items as a log.
fn write_items<W: Write + Drop>(items: &[Item], writer: &mut BufWriter<W>) -> io::Result<()>
    ensures { OnOk result (Appends
        (writer_contents W.contents writer.old) (writer_contents W.contents writer.new) (log_text items.now)) }
{
    for item in items {
        writeln!(writer, "{item}")?;
    }
    Ok(())
}

/// Writes what is asked for of a capture, and answers whether no rule was broken, as far as it was judged.
fn tell<W: Write + Drop>(
    alloc: Global,
    form: Form,
    items: &[Item],
    writer: &mut BufWriter<W>,
) -> Result<bool, Ended>
    ensures { IfOk result (IsTold form items.now
        (writer_contents W.contents writer.old) (writer_contents W.contents writer.new)) }
{
    match form {
        Form::Lines => Ok(judge(alloc, items, false, writer)?),
        Form::Json => Ok(judge(alloc, items, true, writer)?),
        Form::Items => {
            write_items(items, writer)?;
            Ok(true)
        }
        Form::Bench => {
            write_bench(alloc, items, writer)?;
            Ok(true)
        }
    }
}

/// Reads a capture to its end, writes what is asked for of all that was heard in it, and answers whether no rule was
/// broken, as far as it was judged. What is written is passed on.
pub fn audit_through<R: Read, W: Write + Drop>(
    alloc: Global,
    asked: Asked<'_>,
    reader: &mut R,
    writer: &mut BufWriter<W>,
) -> Result<bool, Ended>
    ensures told { IfOk result (λ is_clean. IfSome (R.remaining reader.old) (λ text. Tells asked.entry text
        (writer_contents W.contents writer.old) (writer_contents W.contents writer.new) is_clean)) }
    ensures passed { OnOk result (writer_buffer writer.new ≡ []) }
{
    let items = match read_capture(alloc, asked.wire, asked.is_inverted, reader) {
        Ok(items) => items,
        Err(fault) => return Err(Ended::Unread(fault)),
    };
    let is_clean = tell(alloc, asked.form, &items, writer)?;
    writer.flush()?;
    Ok(is_clean)
}
