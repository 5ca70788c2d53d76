//! `replay` and its stories over readers and writers, and disturbed at each step. Scripts whose reports are
//! known stand in `dali_stories`.

mod every_step;
mod faults;
mod lines;
mod story;

use dali_replay::{ReplayFault, run_replay};
use std::alloc::Global;
use std::process::Abort;
use std::test::Fail;

/// How a run over an input ends, and what it writes.
pub fn played(alloc: Global, input: &[u8]) -> Result<(Result<(), ReplayFault>, String), Fail> {
    let mut reader = input;
    let mut written = Vec::new(alloc);
    let end = run_replay(alloc, &mut reader, &mut written);
    let text = std::str::from_utf8(&written)
        .ok()
        .ok_or("reports are text")?;
    Ok((end, String::from_str(alloc, text)?))
}

/// Plays an input, and wants these reports and this end.
pub fn ends<R: Abort + AllocGlobal>(
    rt: &R,
    input: &str,
    reports: &str,
    end: Result<(), ReplayFault>,
) -> Result<(), Fail> {
    let (was, text) = played(rt.alloc(), input.as_bytes())?;
    assert_eq!(rt; (was, text.as_str()), (end, reports), "of {input:?}");
    Ok(())
}

/// Plays an input that may be no text, and wants these reports and this end.
pub fn bytes_end<R: Abort + AllocGlobal>(
    rt: &R,
    input: &[u8],
    reports: &str,
    end: Result<(), ReplayFault>,
) -> Result<(), Fail> {
    let (was, text) = played(rt.alloc(), input)?;
    assert_eq!(rt; (was, text.as_str()), (end, reports));
    Ok(())
}
