//! What comes of a line of a bench, and what is reported of it.

ghost use Rattle.std.specs.Prelude.{◌≡◌, ◌++◌, IfOk, OnOk, Some, None, string_bytes, if◌then◌else◌};
ghost use Rattle.dali_standing.specs.declared.refusal.Refusal.TheVariants.{UnknownGear};
ghost use Rattle.dali_replay.specs.Text.{ok_text, refused_text};
ghost use Rattle.dali_replay.specs.BenchReport.{bench_event, report};
ghost use Rattle.dali_replay.specs.Bench.{after};

use crate::bench::Bench;
use crate::text::{push_all_gear, push_heard, push_ok, push_refused};
use dali_grammar::BenchLine;
use dali_world::{Event, Refusal};
use std::alloc::AllocError;

/// The event that befalls a gear, if the gear is known, and the text of that.
fn push_known(text: &mut String, known: bool, event: Event) -> Result<Option<Event>, AllocError>
    ensures text { OnOk result (string_bytes text.new ≡ string_bytes text.old
        ++ (if known then ok_text else refused_text UnknownGear)) }
    ensures event { IfOk result (λ came. came ≡ (if known then Some event else None)) }
{
    if known {
        push_ok(text)?;
        Ok(Some(event))
    } else {
        push_refused(text, Refusal::UnknownGear)?;
        Ok(None)
    }
}

/// Lets a line happen on a bench, and appends the report of it. Answers the event that it is, unless it is refused or
/// only shows the gear. Controller 0 stands for the sender of a frame.
pub fn report_bench(
    text: &mut String,
    bench: &mut Bench,
    line: BenchLine,
) -> Result<Option<Event>, AllocError>
    ensures text { OnOk result (string_bytes text.new ≡ string_bytes text.old ++ report bench.old line) }
    ensures world { bench.new ≡ after bench.old line }
    ensures event { IfOk result (λ event. event ≡ bench_event bench.old line) }
{
    match line {
        BenchLine::Frame(frame) => match bench.send(frame) {
            Some(answer) => {
                push_heard(text, frame, answer)?;
                Ok(Some(Event::Sent(0, frame, answer)))
            }
            None => {
                push_refused(text, Refusal::DrawsSpent)?;
                Ok(None)
            }
        },
        BenchLine::Off(g) => push_known(text, bench.off(g), Event::Power(g, false)),
        BenchLine::On(g) => push_known(text, bench.on(g), Event::Power(g, true)),
        BenchLine::Expire(g) => push_known(text, bench.expire(g), Event::Expired(g)),
        BenchLine::Quiet => {
            bench.quiet();
            push_known(text, true, Event::Quiet)
        }
        BenchLine::Show => {
            push_all_gear(text, bench.gear())?;
            Ok(None)
        }
    }
}
