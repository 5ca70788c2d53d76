//! Plays scripts, one after the other, for the stories that are kept as files.
//!
//! Each begins behind a line `%% text`, `%% json` or `%% story`: the form in which it is told. A line `*N LINE` stands
//! for N lines, and a line `%%` for the end of a script whose last line has no line feed. What is told of a script
//! stands behind a line `%% STATUS FAULT`; N lines in a row that are the same are one, `*N LINE`.
#![tactic(auto)]

use dali_console::Failed;
use dali_replay::{Explained, Form, read_input, replay_through};
use dali_story::tell_run;
use std::alloc::Global;
use std::io::{BufWriter, Error, ErrorKind};
use std::process::ExitCode;

/// How a script ends, and what is told of it.
type Told = (Result<(), Explained>, String);

fn as_text(alloc: Global, bytes: &[u8]) -> std::io::Result<String> {
    match std::str::from_utf8(bytes) {
        Ok(text) => Ok(String::from_str(alloc, text)?),
        Err(_) => Err(Error::from(ErrorKind::InvalidData)),
    }
}

fn played(alloc: Global, form: Form, script: &str) -> std::io::Result<Told> {
    let mut writer = BufWriter::new(alloc, Vec::new(alloc))?;
    let ended = replay_through(alloc, form, &mut script.as_bytes(), &mut writer);
    let text = as_text(alloc, writer.get_ref())?;
    Ok((ended, text))
}

fn story(alloc: Global, script: &str) -> std::io::Result<Told> {
    let mut written = Vec::new(alloc);
    let ended = tell_run(alloc, &mut script.as_bytes(), &mut written);
    let text = as_text(alloc, &written)?;
    Ok((ended, text))
}

/// The reports of a story. No report has a mark in it but line feeds.
fn reports_in(alloc: Global, story: &str) -> std::io::Result<String> {
    let mut reports = String::new(alloc);
    for line in story.lines() {
        if let Some((_, report)) = line.split_once(",\"report\":\"") {
            for part in report.trim_end_matches("\"}").split("\\n") {
                if !part.is_empty() {
                    reports.push_str(part)?;
                    reports.push('\n')?;
                }
            }
        }
    }
    Ok(reports)
}

/// A longer script is not told as a story too: a log that is full costs a minute.
const LONG: usize = 10_000;

/// What is told in this form. The story of a script has the reports of its lines.
fn told(alloc: Global, form: &str, script: &str) -> std::io::Result<Told> {
    if form == "json" {
        return played(alloc, Form::Json, script);
    }
    let reported = played(alloc, Form::Text, script)?;
    if script.len() > LONG {
        return Ok(reported);
    }
    let as_story = story(alloc, script)?;
    if reported.0.is_ok() && reports_in(alloc, as_story.1.as_str())? != reported.1 {
        return Err(Error::from(ErrorKind::InvalidData));
    }
    if form == "story" {
        Ok(as_story)
    } else {
        Ok(reported)
    }
}

/// Writes a line that stands so often in a row.
fn write_line<R: Print>(rt: &R, line: &str, count: u32) {
    match count {
        0 => {}
        1 => {
            let _ = println!(rt; "{line}");
        }
        _ => {
            let _ = println!(rt; "*{count} {line}");
        }
    }
}

fn write_told<R: Print>(rt: &R, told: &Told) {
    match &told.0 {
        Ok(()) => {
            let _ = println!(rt; "%% 0");
        }
        Err(fault) => {
            let status = fault.status();
            let _ = println!(rt; "%% {status} {fault}");
        }
    }
    let (mut last, mut count) = ("", 0u32);
    for line in told.1.as_str().lines() {
        if line != last {
            write_line(rt, last, count);
            last = line;
            count = 0;
        }
        count = count.wrapping_add(1);
    }
    write_line(rt, last, count);
}

/// Appends a line to a script, so often as it says.
fn push_lines(script: &mut String, line: &str) -> std::io::Result<()> {
    let (count, line) = match line.strip_prefix("*") {
        Some(rest) => rest.split_once(' ').unwrap_or((rest, "")),
        None => ("1", line),
    };
    for _ in 0..count.parse::<u32>().unwrap_or(0) {
        script.push_str(line)?;
        script.push('\n')?;
    }
    Ok(())
}

fn play_all<R: Input + Print + AllocGlobal>(rt: &R) -> std::io::Result<()> {
    let alloc = rt.alloc();
    let input = match read_input(alloc, &mut rt.reader()) {
        Ok(input) => as_text(alloc, &input)?,
        Err(_) => return Err(Error::from(ErrorKind::InvalidData)),
    };
    for case in input.as_str().split("%% ") {
        if let Some((form, lines)) = case.split_once('\n') {
            let mut script = String::new(alloc);
            for line in lines.trim_end_matches("%%\n").split('\n') {
                push_lines(&mut script, line)?;
            }
            // Behind the last line feed stands an empty line more.
            let _ = script.pop();
            if case.ends_with("%%\n") {
                let _ = script.pop();
            }
            write_told(rt, &told(alloc, form, script.as_str())?);
        }
    }
    Ok(())
}

fn main(rt: HostRuntime) -> ExitCode {
    match play_all(&rt) {
        Ok(()) => ExitCode::SUCCESS,
        Err(_) => ExitCode::FAILURE,
    }
}
