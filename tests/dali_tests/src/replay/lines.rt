//! Lines that no file of stories has: each name of a line with each bad end, bytes that are no text, and many numbers.

use super::{bytes_end, ends, played};
use dali_replay::{Form, ReplayFault, replay_through};
use std::alloc::Global;
use std::fmt::Write;
use std::io::BufWriter;
use std::process::Abort;
use std::test::Fail;

/// What may not stand behind the name of a line with one number.
const BAD_ENDS: &str = "| | 0 | 0 0|  0| 00| 01| +0| -0| -1| x| 0x0| 1.0| 1000001| 4294967296\
| 99999999999999999999| 0,1| -| 0\t|\t0| 0\r| 0 FE80|s 0|0";

/// This line is bad on a site.
fn is_bad<R: Abort + AllocGlobal>(rt: &R, line: &str) -> Result<(), Fail> {
    let input = format!(in rt.alloc(); "site 2 0-3 4-7\ndraws\nquiet\n{line}\nquiet\n")?;
    ends(rt, input.as_str(), "ok\n", Err(ReplayFault::BadLine(4)))
}

/// A line of this name has one number behind it, and nothing else.
fn has_one_number<R: Abort + AllocGlobal>(rt: &R, name: &str) -> Result<(), Fail> {
    for end in BAD_ENDS.split('|') {
        let line = format!(in rt.alloc(); "{name}{end}")?;
        is_bad(rt, line.as_str())?;
    }
    let line = format!(in rt.alloc(); " {name} 0")?;
    is_bad(rt, line.as_str())
}

#[test]
fn lines_with_a_number_have_that_number_alone(rt: HostRuntime) -> Result<(), Fail> {
    for name in "go store fail down up run off on expire".split(' ') {
        has_one_number(&rt, name)?;
    }
    Ok(())
}

#[test]
fn bytes_that_are_no_text_are_a_bad_line_but_in_a_comment(rt: HostRuntime) -> Result<(), Fail> {
    let refused = Err(ReplayFault::BadLine(5));
    let script = b"bench 1\ndraws\n# \xFF\nquiet\nshow\xFF\n";
    bytes_end(&rt, script, "ok\n", refused)?;
    let script = b"site 1 0-3\ndraws\n# \xFF\nquiet\nshow\xFF\nquiet\n";
    bytes_end(&rt, script, "ok\n", refused)
}

/// A bench with so many numbers to draw.
fn drawing<R: Abort + AllocGlobal>(rt: &R, many: u32) -> Result<String, Fail> {
    let mut script = String::from_str(rt.alloc(), "bench 1\ndraws")?;
    for number in 0..many {
        write!(script, " {number:06X}")?;
    }
    Ok(script)
}

/// What is said of the end of a script; nothing if it ends well.
fn said(alloc: Global, input: &str) -> Result<String, Fail> {
    let mut reader = input.as_bytes();
    let mut writer = BufWriter::new(alloc, Vec::new(alloc))
        .ok()
        .ok_or("a buffer")?;
    match replay_through(alloc, Form::Text, &mut reader, &mut writer) {
        Ok(()) => Ok(String::new(alloc)),
        Err(explained) => Ok(format!(in alloc; "{explained}")?),
    }
}

#[test]
fn up_to_1024_numbers_are_drawn(rt: HostRuntime) -> Result<(), Fail> {
    let most = drawing(&rt, 1024)?;
    ends(&rt, most.as_str(), "", Ok(()))?;
    let more = drawing(&rt, 1025)?;
    let was = said(rt.alloc(), more.as_str())?;
    let reason = "at most 1024 numbers are drawn; the form is `draws RRRRRR ..`";
    let wanted = format!(in rt.alloc(); "line 2: bad line: word 1026: `000400`: {reason}")?;
    assert_eq!(&rt; was.as_str(), wanted.as_str());
    Ok(())
}

#[test]
fn a_bench_has_up_to_128_gear(rt: HostRuntime) -> Result<(), Fail> {
    let (end, text) = played(rt.alloc(), b"bench 128\ndraws\nshow\nframe A900\n")?;
    assert!(&rt; end == Ok(()));
    assert!(&rt; text.as_str().lines().count() == 129);
    assert!(&rt; text.as_str().lines().last() == Some("A900 silence"));
    assert!(&rt; text.contains("gear 127 on disabled FFFFFF FFFFFF -\n"));
    Ok(())
}
