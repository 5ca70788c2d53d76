//! All that is told of a capture: findings, the bench's first difference, who has which short address.
#![tactic(auto, using(std::proofs::lemmas::List::append_assoc))]

ghost use Rattle.std.specs.Prelude.{◌≡◌, ◌≤◌, ◌++◌, OnOk, IfOk, length, string_bytes};
ghost use Rattle.dali_audit.specs.Judging.{other_of, IsBenchIn, IsJudgementOf, is_clean, head_text, other_text};
ghost use Rattle.dali_audit.specs.Judging.{lines_text, json_head, json_other, json_text};

use crate::audit::{Audit, audit_items};
use crate::bench::Bench;
use crate::comparing::Outcome;
use crate::places::BenchError;
use crate::report::{push_findings, push_json_findings, push_json_table, push_table};
use dali_capture::Item;
use std::alloc::{AllocError, Global};

/// What is told of a capture.
#[derive(Drop)]
pub struct Judgement {
    pub audit: Audit,
    /// The bench that takes its frames; none if it reveals more than 128 gear.
    pub bench: Option<Bench>,
    /// When something was heard for the first time that the gear of the bench did not answer.
    pub other_answer: Option<u64>,
}

fn bench_of(alloc: Global, items: &[Item]) -> Result<Option<Bench>, AllocError>
    ensures { IfOk result (λ b. IsBenchIn b items.now) }
{
    match Bench::of(alloc, items) {
        Ok(bench) => Ok(Some(bench)),
        Err(BenchError::TooManyGear) => Ok(None),
        Err(BenchError::NoMemory | BenchError::TooLong) => Err(AllocError),
    }
}

/// The time of the first difference.
fn first_other(bench: &Bench) -> Option<u64>
    requires { length bench.now.places.items ≤ 128 }
    ensures { result ≡ other_of bench.now }
{
    match bench.compare() {
        Outcome::Differs(step) | Outcome::Spent(step) => match bench.steps.get(step) {
            Some(step) => Some(step.at),
            None => None,
        },
        Outcome::Agrees => None,
    }
}

fn push_head(text: &mut String, bench: &Option<Bench>) -> Result<(), AllocError>
    ensures { OnOk result (string_bytes text.new ≡ string_bytes text.old ++ head_text bench.now) }
{
    match bench {
        Some(bench) => {
            let count = bench.places.len();
            let unknown = bench.unknown;
            write!(
                text,
                "played {count} gear, {unknown} of them not to the end\n"
            )
        }
        None => text.push_str("played none: more than 128 gear\n"),
    }
}

fn push_other(text: &mut String, other: Option<u64>) -> Result<(), AllocError>
    ensures { OnOk result (string_bytes text.new ≡ string_bytes text.old ++ other_text other) }
{
    match other {
        Some(at) => write!(text, "{at} other-answer\n"),
        None => Ok(()),
    }
}

fn push_json_head(text: &mut String, bench: &Option<Bench>) -> Result<(), AllocError>
    ensures { OnOk result (string_bytes text.new ≡ string_bytes text.old ++ json_head bench.now) }
{
    match bench {
        Some(bench) => {
            let count = bench.places.len();
            let unknown = bench.unknown;
            write!(
                text,
                "{{\"played\":{count},\"unknown\":{unknown},\"findings\":["
            )
        }
        None => text.push_str("{\"played\":null,\"unknown\":null,\"findings\":["),
    }
}

fn push_json_other(text: &mut String, other: Option<u64>) -> Result<(), AllocError>
    ensures { OnOk result (string_bytes text.new ≡ string_bytes text.old ++ json_other other) }
{
    match other {
        Some(at) => write!(text, "],\"other_answer\":{at},\"gear\":["),
        None => text.push_str("],\"other_answer\":null,\"gear\":["),
    }
}

impl Judgement {
    /// Judges a capture.
    pub fn of(alloc: Global, items: &[Item]) -> Result<Judgement, AllocError>
        ensures { IfOk result (λ j. IsJudgementOf j items.now) }
    {
        let audit = audit_items(alloc, items)?;
        let bench = bench_of(alloc, items)?;
        let other_answer = match &bench {
            Some(bench) => first_other(bench),
            None => None,
        };
        Ok(Judgement {
            audit,
            bench,
            other_answer,
        })
    }

    /// Whether no rule was broken, and nothing was heard that the gear did not answer.
    pub fn is_clean(&self) -> bool
        ensures { result ≡ is_clean self.now.audit.findings.items self.now.other_answer }
    {
        self.audit.findings.is_empty() && self.other_answer.is_none()
    }

    /// A head, a line for each finding, and a line for each short address that gear has.
    pub fn push_lines(&self, text: &mut String) -> Result<(), AllocError>
        ensures { OnOk result (string_bytes text.new ≡ string_bytes text.old ++ lines_text self.now) }
    {
        push_head(text, &self.bench)?;
        push_findings(text, self.audit.findings.as_slice())?;
        push_other(text, self.other_answer)?;
        push_table(text, &self.audit.known.table)
    }

    /// The same as one line of JSON.
    pub fn push_json(&self, text: &mut String) -> Result<(), AllocError>
        ensures { OnOk result (string_bytes text.new ≡ string_bytes text.old ++ json_text self.now) }
    {
        push_json_head(text, &self.bench)?;
        push_json_findings(text, self.audit.findings.as_slice())?;
        push_json_other(text, self.other_answer)?;
        push_json_table(text, &self.audit.known.table)?;
        text.push_str("]}\n")
    }
}
