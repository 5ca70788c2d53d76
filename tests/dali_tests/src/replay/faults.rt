//! Faults: their texts and statuses, and readers and writers that fail.

use super::{bytes_end, played};
use dali_replay::{ReplayFault, run_replay};
use dali_world::PlanError;
use std::alloc::Global;
use std::io::{Error, ErrorKind, Read, Write};
use std::process::Abort;
use std::test::Fail;

/// A fault has this text and this status.
fn says<R: Abort + AllocGlobal>(
    rt: &R,
    fault: ReplayFault,
    text: &str,
    status: u8,
) -> Result<(), Fail> {
    let shown = fault.to_string(rt.alloc())?;
    assert_eq!(rt; (shown.as_str(), fault.status()), (text, status));
    Ok(())
}

/// The fault of a refused plan has this text.
fn refused<R: Abort + AllocGlobal>(rt: &R, error: PlanError, text: &str) -> Result<(), Fail> {
    says(rt, ReplayFault::BadPlan(error), text, 1)
}

#[test]
fn refused_plans_have_texts(rt: HostRuntime) -> Result<(), Fail> {
    refused(&rt, PlanError::GearCount, "plan refused: GearCount")?;
    refused(
        &rt,
        PlanError::ControllerCount,
        "plan refused: ControllerCount",
    )?;
    refused(&rt, PlanError::BlockOrder, "plan refused: BlockOrder")?;
    refused(&rt, PlanError::BlockOverlap, "plan refused: BlockOverlap")?;
    refused(&rt, PlanError::DrawTooLarge, "plan refused: DrawTooLarge")?;
    refused(&rt, PlanError::DrawTwice, "plan refused: DrawTwice")
}

#[test]
fn faults_have_texts_and_statuses(rt: HostRuntime) -> Result<(), Fail> {
    says(&rt, ReplayFault::BadLine(3), "line 3: bad line", 1)?;
    says(&rt, ReplayFault::Memory, "out of memory", 3)?;
    let read = "the input cannot be read, or is longer than 1,048,576 bytes";
    says(&rt, ReplayFault::Read, read, 3)?;
    says(&rt, ReplayFault::Write, "the output cannot be written", 3)
}

/// A script with a comment at its end that makes it as long as an input may be.
fn script_of_the_limit(alloc: Global) -> Result<Vec<u8>, Fail> {
    let mut input = Vec::from_slice(alloc, b"bench 1\ndraws\nshow\n#")?;
    for _ in input.len()..1_048_576 {
        input.push(b'x')?;
    }
    Ok(input)
}

#[test]
fn an_input_of_the_limit_is_read_and_one_byte_more_is_not(rt: HostRuntime) -> Result<(), Fail> {
    let mut input = script_of_the_limit(rt.alloc())?;
    let shown = "gear 0 on disabled FFFFFF FFFFFF -\n";
    bytes_end(&rt, &input, shown, Ok(()))?;
    input.push(b'x')?;
    bytes_end(&rt, &input, "", Err(ReplayFault::Read))
}

/// A reader that gives the same bytes again and again.
#[derive(Drop)]
struct Endless;

impl Read for Endless {
    fn read(&mut self, buf: &mut [u8]) -> std::io::Result<usize> {
        for byte in buf.iter_mut() {
            *byte = b'#';
        }
        Ok(buf.len())
    }
}

#[test]
fn a_reader_without_end_is_a_fault(rt: HostRuntime) -> Result<(), Fail> {
    let mut written = Vec::new(rt.alloc());
    let end = run_replay(rt.alloc(), &mut Endless, &mut written);
    assert_eq!(rt; end, Err(ReplayFault::Read));
    assert_eq!(rt; written.len(), 0);
    Ok(())
}

const SCRIPT: &[u8] = b"bench 1\ndraws\nframe A900\nquiet\nshow\n";

/// A reader of the script, a byte at a time, that fails at one call.
#[derive(Drop)]
struct FailingReader {
    given: usize,
    fails_at: usize,
    kind: ErrorKind,
}

impl Read for FailingReader {
    fn read(&mut self, buf: &mut [u8]) -> std::io::Result<usize> {
        if self.given == self.fails_at {
            return Err(Error::from(self.kind));
        }
        match (buf.first_mut(), SCRIPT.get(self.given)) {
            (Some(place), Some(byte)) => {
                *place = *byte;
                self.given = self.given.wrapping_add(1);
                Ok(1)
            }
            _ => Ok(0),
        }
    }
}

/// A reader that fails so at this call is a fault, and nothing is written.
fn is_unread<R: Abort + AllocGlobal>(rt: &R, fails_at: usize, kind: ErrorKind) {
    let mut reader = FailingReader {
        given: 0,
        fails_at,
        kind,
    };
    let mut written = Vec::new(rt.alloc());
    let end = run_replay(rt.alloc(), &mut reader, &mut written);
    assert!(rt; end == Err(ReplayFault::Read));
    assert!(rt; written.is_empty());
}

#[test]
fn each_error_of_the_reader_is_a_fault(rt: HostRuntime) {
    for fails_at in 0..=SCRIPT.len() {
        is_unread(&rt, fails_at, ErrorKind::Other);
        is_unread(&rt, fails_at, ErrorKind::Interrupted);
    }
}

/// A writer that fails at one call.
#[derive(Drop)]
struct FailingWriter {
    calls: usize,
    fails_at: usize,
}

impl Write for FailingWriter {
    fn write(&mut self, buf: &[u8]) -> std::io::Result<usize> {
        if self.calls == self.fails_at {
            return Err(Error::from(ErrorKind::Other));
        }
        self.calls = self.calls.wrapping_add(1);
        Ok(buf.len())
    }

    fn flush(&mut self) -> std::io::Result<()> {
        Ok(())
    }
}

/// How a script ends whose writer fails at this call, and how many calls come before it.
fn written(alloc: Global, script: &[u8], fails_at: usize) -> (Result<(), ReplayFault>, usize) {
    let mut reader = script;
    let mut writer = FailingWriter { calls: 0, fails_at };
    let end = run_replay(alloc, &mut reader, &mut writer);
    (end, writer.calls)
}

/// A script of three reports, each of whose writes fails in turn.
fn check_each_write<R: Abort + AllocGlobal>(rt: &R, script: &[u8]) {
    for fails_at in 0..3 {
        let (end, _) = written(rt.alloc(), script, fails_at);
        assert!(rt; end == Err(ReplayFault::Write));
    }
    assert_eq!(rt; written(rt.alloc(), script, 3), (Ok(()), 3));
}

#[test]
fn each_error_of_the_writer_is_a_fault(rt: HostRuntime) {
    check_each_write(&rt, SCRIPT);
    check_each_write(&rt, b"site 1 0-3\ndraws 123456\ngo 0\nrun 1000\nshow\n");
}

/// A reader that gives at most so many bytes a call.
#[derive(Drop)]
struct ShortReader<'a> {
    rest: &'a [u8],
    most: usize,
}

impl<'a> Read for ShortReader<'a> {
    fn read(&mut self, buf: &mut [u8]) -> std::io::Result<usize> {
        match buf.get_mut(..self.most) {
            Some(part) => self.rest.read(part),
            None => self.rest.read(buf),
        }
    }
}

/// A writer that takes at most so many bytes a call.
#[derive(Drop)]
struct ShortWriter {
    taken: Vec<u8>,
    most: usize,
}

impl Write for ShortWriter {
    fn write(&mut self, buf: &[u8]) -> std::io::Result<usize> {
        let part = buf.get(..self.most).unwrap_or(buf);
        match self.taken.extend_from_slice(part) {
            Ok(()) => Ok(part.len()),
            Err(_) => Err(Error::from(ErrorKind::OutOfMemory)),
        }
    }

    fn flush(&mut self) -> std::io::Result<()> {
        Ok(())
    }
}

/// What is read and written in parts of this size at most is this.
fn is_whole<R: Abort + AllocGlobal>(rt: &R, script: &[u8], most: usize, whole: &[u8]) {
    let mut reader = ShortReader { rest: script, most };
    let taken = Vec::new(rt.alloc());
    let mut writer = ShortWriter { taken, most };
    let end = run_replay(rt.alloc(), &mut reader, &mut writer);
    assert!(rt; end == Ok(()));
    assert!(rt; writer.taken.as_slice() == whole);
}

/// What is read and written in parts of each size is what is read and written at once.
fn check_parts<R: Abort + AllocGlobal>(rt: &R, script: &[u8]) -> Result<(), Fail> {
    let (_, whole) = played(rt.alloc(), script)?;
    for most in 1..40 {
        is_whole(rt, script, most, whole.as_bytes());
    }
    Ok(())
}

#[test]
fn short_reads_and_short_writes_lose_nothing(rt: HostRuntime) -> Result<(), Fail> {
    check_parts(&rt, SCRIPT)?;
    check_parts(&rt, b"site 1 0-3\ndraws 123456\ngo 0\nrun 1000\nshow\n")
}

#[test]
fn a_writer_that_takes_nothing_is_a_fault(rt: HostRuntime) {
    let taken = Vec::new(rt.alloc());
    let mut writer = ShortWriter { taken, most: 0 };
    let mut reader = SCRIPT;
    let end = run_replay(rt.alloc(), &mut reader, &mut writer);
    assert_eq!(rt; end, Err(ReplayFault::Write));
}
