//! Stories: marks that are escaped, scripts that are refused, and outputs that fail. What they say of a script
//! stands in `dali_stories`.

use dali_replay::{Explained, INPUT_LIMIT, ReplayFault};
use dali_story::tell_run;
use dali_world::PlanError;
use std::alloc::Global;
use std::io::{Error, ErrorKind, Write};
use std::process::Abort;
use std::test::Fail;

/// How the telling of a script ends, whether a fault comes with a reason, and what is written.
fn told(alloc: Global, script: &[u8]) -> Result<(Result<(), (ReplayFault, bool)>, String), Fail> {
    let mut reader = script;
    let mut written = Vec::new(alloc);
    let ended = match tell_run(alloc, &mut reader, &mut written) {
        Ok(()) => Ok(()),
        Err(explained) => Err((explained.fault, explained.reason.is_some())),
    };
    let text = std::str::from_utf8(&written).ok().ok_or("a story is text")?;
    Ok((ended, String::from_str(alloc, text)?))
}

/// The story of a script.
fn story(alloc: Global, script: &[u8]) -> Result<String, Fail> {
    let (ended, text) = told(alloc, script)?;
    match ended {
        Ok(()) => Ok(text),
        Err(_) => Err(Fail::from("a story")),
    }
}

#[test]
fn marks_of_a_page_are_escaped(rt: HostRuntime) -> Result<(), Fail> {
    let script = b"bench 1\ndraws\n#\t</script>&<b a=\"x\">\\ \x7F\xC3\xA9\r\n";
    let text = story(rt.alloc(), script)?;
    let wanted =
        "\"script\":\"bench 1\\ndraws\\n#\\t\\u003c/script\\u003e\\u0026\\u003cb a=\\\"x\\\"\\u003e\\\\ ????\\n\"}\n";
    assert!(&rt; text.contains(wanted), "{text}");
    assert!(&rt; !text.contains('<') && !text.contains('>') && !text.contains('&'));
    Ok(())
}

/// Wants this end, and that nothing was written.
fn is_refused<R: Abort + AllocGlobal>(
    rt: &R,
    script: &[u8],
    wanted: (ReplayFault, bool),
) -> Result<(), Fail> {
    let (ended, text) = told(rt.alloc(), script)?;
    assert_eq!(rt; ended, Err(wanted));
    assert_eq!(rt; text.as_str(), "");
    Ok(())
}

#[test]
fn nothing_is_told_of_what_is_not_played(rt: HostRuntime) -> Result<(), Fail> {
    let bad_line = (ReplayFault::BadLine(3), true);
    is_refused(&rt, b"bench 1\ndraws\nframe A1\n", bad_line)?;
    let bad_plan = (ReplayFault::BadPlan(PlanError::DrawTwice), true);
    is_refused(&rt, b"bench 2\ndraws 123456 123456\n", bad_plan)
}

#[test]
fn a_script_may_have_so_many_bytes(rt: HostRuntime) -> Result<(), Fail> {
    let mut script = Vec::from_slice(rt.alloc(), b"bench 1\ndraws\n")?;
    for _ in script.len()..INPUT_LIMIT {
        script.push(b'#')?;
    }
    let (ended, text) = told(rt.alloc(), &script)?;
    assert_eq!(&rt; ended, Ok(()));
    assert!(&rt; text.len() > INPUT_LIMIT);
    script.push(b'#')?;
    is_refused(&rt, &script, (ReplayFault::Read, false))
}

/// An output that takes nothing.
#[derive(Drop)]
struct Full;

impl Write for Full {
    fn write(&mut self, _buf: &[u8]) -> std::io::Result<usize> {
        Err(Error::from(ErrorKind::StorageFull))
    }

    fn flush(&mut self) -> std::io::Result<()> {
        Ok(())
    }
}

#[test]
fn an_output_that_takes_nothing_is_a_fault(rt: HostRuntime) -> Result<(), Fail> {
    let mut reader = b"bench 1\ndraws\nquiet\n".as_slice();
    let ended = tell_run(rt.alloc(), &mut reader, &mut Full);
    let fault = match ended {
        Ok(()) => None,
        Err(Explained { fault, .. }) => Some(fault),
    };
    assert_eq!(&rt; fault, Some(ReplayFault::Write));
    Ok(())
}
