//! A bench of a capture as a script, which `dali_sim replay` plays.
#![tactic(auto, using(std::proofs::lemmas::List::append_assoc))]

ghost use Rattle.std.specs.Prelude.{◌≡◌, ◌++◌, OnOk, IfOk, codes, decimal, string_bytes};
ghost use Rattle.dali_audit.specs.Script.{gear_head, bench_head, script_text};
ghost use Rattle.dali_audit.specs.Script.{step_text, steps_text, used_text, all_used_text, draws_text};

use crate::bench::Bench;
use crate::comparing::{Move, Step};
use crate::places::{BenchError, Place};
use dali_frame::Random24;
use std::alloc::{AllocError, Global};

/// How many bytes a script has at the most.
pub const SCRIPT_LIMIT: usize = 1_048_576;

/// What happens to a gear alone.
fn push_turn(text: &mut String, word: &str, gear: u8) -> Result<(), AllocError>
    ensures { OnOk result (string_bytes text.new
        ≡ string_bytes text.old ++ (word.now ++ (codes " " ++ (decimal gear ++ codes "\n")))) }
{
    write!(text, "{word} {gear}\n")
}

fn push_step(text: &mut String, step: &Step) -> Result<(), AllocError>
    ensures { OnOk result (string_bytes text.new ≡ string_bytes text.old ++ step_text step.now) }
{
    match step.what {
        Move::On(gear) => push_turn(text, "on", gear),
        Move::Off(gear) => push_turn(text, "off", gear),
        Move::Expire(gear) => push_turn(text, "expire", gear),
        Move::Quiet => text.push_str("quiet\n"),
        Move::Frame(frame, _) => write!(text, "frame {frame}\n"),
    }
}

/// A line for each step.
fn push_steps(text: &mut String, steps: &[Step]) -> Result<(), AllocError>
    ensures { OnOk result (string_bytes text.new ≡ string_bytes text.old ++ steps_text steps.now) }
{
    for step in steps {
        push_step(text, step)?;
    }
    Ok(())
}

fn push_used(text: &mut String, number: usize, place: &Place) -> Result<(), AllocError>
    ensures { OnOk result (string_bytes text.new ≡ string_bytes text.old ++ used_text number place.now) }
{
    match place.short {
        Some(short) => write!(text, "used {number} {} {}\n", short.number(), place.random),
        None => Ok(()),
    }
}

/// A line for each gear that had a short address.
fn push_all_used(text: &mut String, places: &[Place]) -> Result<(), AllocError>
    ensures { OnOk result (string_bytes text.new ≡ string_bytes text.old ++ all_used_text 0 places.now) }
{
    for (number, place) in places.iter().enumerate() {
        push_used(text, number, place)?;
    }
    Ok(())
}

/// The numbers that gear draw, each behind a space.
fn push_draws(text: &mut String, draws: &[Random24]) -> Result<(), AllocError>
    ensures { OnOk result (string_bytes text.new ≡ string_bytes text.old ++ draws_text draws.now) }
{
    for draw in draws {
        write!(text, " {}", *draw)?;
    }
    Ok(())
}

/// How many gear there are, the numbers that they draw, and those that had a short address.
fn push_gear(text: &mut String, places: &[Place], draws: &[Random24]) -> Result<(), AllocError>
    ensures { OnOk result (string_bytes text.new ≡ string_bytes text.old ++ gear_head places.now draws.now) }
{
    write!(text, "bench {}\ndraws", places.len())?;
    push_draws(text, draws)?;
    text.push_str("\n")?;
    push_all_used(text, places)
}

/// What a script has before the steps. It has one gear at least: if none is known, that one has no power.
fn push_head(text: &mut String, places: &[Place], draws: &[Random24]) -> Result<(), AllocError>
    ensures { OnOk result (string_bytes text.new ≡ string_bytes text.old ++ bench_head places.now draws.now) }
{
    if places.len() == 0 {
        text.push_str("bench 1\ndraws\noff 0\n")
    } else {
        push_gear(text, places, draws)
    }
}

fn push_bench(text: &mut String, bench: &Bench) -> Result<(), AllocError>
    ensures { OnOk result (string_bytes text.new ≡ string_bytes text.old ++ script_text bench.now) }
{
    push_head(text, bench.places.as_slice(), bench.draws.as_slice())?;
    push_steps(text, bench.steps.as_slice())
}

impl Bench {
    /// The bench as a script, of at most 1,048,576 bytes.
    pub fn script(&self, alloc: Global) -> Result<String, BenchError>
        ensures { IfOk result (λ text. string_bytes text ≡ script_text self.now) }
    {
        let mut text = String::new(alloc);
        if push_bench(&mut text, self).is_err() {
            return Err(BenchError::NoMemory);
        }
        if text.len() > SCRIPT_LIMIT {
            return Err(BenchError::TooLong);
        }
        Ok(text)
    }
}
