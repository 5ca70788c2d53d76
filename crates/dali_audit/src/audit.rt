//! The judge: item by item, by what the items before it tell.

ghost use Rattle.std.specs.Prelude.{◌≡◌, IfOk};
ghost use Rattle.dali_audit.specs.Findings.{first_of, findings_in, known_in};

use crate::findings::{Finding, KINDS};
use crate::seen::seen_of;
use crate::telling::Known;
use dali_capture::Item;
use std::alloc::{AllocError, Global};

/// What is told of a capture.
#[derive(Drop)]
pub struct Audit {
    /// The rules that were broken, in the order of the items, and last what the end of the capture breaks.
    pub findings: Vec<Finding>,
    /// What is known after the last item.
    pub known: Known,
}

/// The first of these items.
pub(crate) fn first_of(items: &[Item]) -> Option<Item>
    ensures { result ≡ first_of items.now }
{
    match items {
        [first, ..] => Some(*first),
        [] => None,
    }
}

/// Judges a capture.
pub fn audit_items(alloc: Global, items: &[Item]) -> Result<Audit, AllocError>
    ensures findings { IfOk result (λ a. a.findings.items ≡ findings_in items.now) }
    ensures known { IfOk result (λ a. a.known ≡ known_in items.now) }
{
    let mut findings = Vec::new(alloc);
    let mut known = Known::new(alloc);
    let mut before = None;
    let mut rest = items;
    while let [item, more @ ..] = rest {
        let seen = seen_of(before, item, first_of(more));
        known.tell(&mut findings, item, seen, &KINDS)?;
        known.take(item, seen)?;
        before = Some(*item);
        rest = more;
    }
    known.tell_end(&mut findings)?;
    Ok(Audit { findings, known })
}
