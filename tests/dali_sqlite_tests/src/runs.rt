//! Whole runs of workers and a pumper, by what they write.

use arrayvec::ArrayVec;
use dali_threads::{Setup, ThreadsFault, run_threads};
use dali_world::PlanError;
use std::io::{Error, ErrorKind, Write};
use std::process::Abort;
use std::sync::Wait;
use std::test::Fail;
use std::thread::Threads;

fn setup(gear: u32, seed: u64, blocks: &[(u8, u8)]) -> Setup {
    let mut list = ArrayVec::new();
    for block in blocks {
        let _ = list.try_push(*block);
    }
    Setup {
        gear,
        seed,
        turns: 100_000,
        surveys: false,
        as_json: false,
        as_story: false,
        blocks: list,
    }
}

/// The same to be run, but each worker begins by a survey.
fn surveying(mut setup: Setup) -> Setup {
    setup.surveys = true;
    setup
}

/// The same to be run, and reported as JSON.
fn as_json(mut setup: Setup) -> Setup {
    setup.as_json = true;
    setup
}

/// What a run writes.
fn written<R: Threads + Wait + Sync + AllocGlobal>(rt: &R, setup: Setup) -> Result<String, Fail> {
    let mut bytes = Vec::new(rt.alloc());
    if run_threads(rt, rt.alloc(), setup, &mut bytes).is_err() {
        return Err(Fail::from("a fault"));
    }
    match String::from_utf8(bytes) {
        Ok(text) => Ok(text),
        Err(_) => Err(Fail::from("no text")),
    }
}

/// The word of a line at this place.
fn word<'a>(line: &'a str, at: usize) -> &'a str {
    line.split(' ').nth(at).unwrap_or("")
}

/// A line of a gear and the line of its controller's table: the gear has its least address, and the table names it.
fn names_one<R: Abort>(rt: &R, gear: &str, table: &str) {
    assert!(rt; word(gear, 0) == "gear" && word(gear, 6) == "0");
    assert!(rt; word(table, 2).strip_prefix("0=") == Some(word(gear, 4)));
    assert!(rt; word(table, 3) == "");
}

/// What a run of one worker and one gear writes.
fn one_gear_report<R: Abort>(rt: &R, text: &str) {
    let mut lines = text.lines();
    assert!(rt; lines.next() == Some("controller 0: all-found"));
    let gear = lines.next().unwrap_or("");
    names_one(rt, gear, lines.next().unwrap_or(""));
    assert!(rt; lines.next() == Some("addressed 1 of 1"));
    assert!(rt; lines.next().is_none());
}

/// One worker gives the one gear its least address, and its table names the gear.
fn one_run<R: Threads + Wait + Sync + Abort + AllocGlobal>(rt: &R) -> Result<(), Fail> {
    let text = written(rt, setup(1, 7, &[(0, 3)]))?;
    one_gear_report(rt, text.as_str());
    Ok(())
}

#[test]
fn one_controller_names_its_gear(rt: HostRuntime) -> Result<(), Fail> {
    one_run(&rt)
}

/// The report of one gear as JSON, by the report as text.
fn one_gear_json<R: Abort + AllocGlobal>(rt: &R, text: &str, json: &str) -> Result<(), Fail> {
    let gear = text.lines().nth(1).unwrap_or("");
    let (random, search) = (word(gear, 4), word(gear, 5));
    let mut wanted = String::from_str(
        rt.alloc(),
        "{\"controllers\":[{\"controller\":0,\"end\":\"all-found\"}],\"gear\":[{\"gear\":0,\"power\":\"on\",",
    )?;
    write!(
        wanted,
        "\"state\":\"disabled\",\"random\":\"{random}\",\"search\":\"{search}\",\"short\":0"
    )?;
    wanted.push_str("}],\"tables\":[{\"controller\":0,\"entries\":[{\"short\":0,")?;
    write!(wanted, "\"random\":\"{random}\"")?;
    wanted.push_str("}]}],\"addressed\":1,\"of\":1}\n")?;
    assert_eq!(rt; json, wanted.as_str());
    Ok(())
}

/// A run of the same seed as text and as JSON.
fn one_run_twice<R: Threads + Wait + Sync + Abort + AllocGlobal>(rt: &R) -> Result<(), Fail> {
    let text = written(rt, setup(1, 7, &[(0, 3)]))?;
    let json = written(rt, as_json(setup(1, 7, &[(0, 3)])))?;
    one_gear_json(rt, text.as_str(), json.as_str())
}

/// The same to be run, and told as a story.
fn as_story(mut setup: Setup) -> Setup {
    setup.as_story = true;
    setup
}

/// A story of one gear begins with the gear as it comes from the factory, has an event of each number, and ends with
/// what the report as JSON has.
fn one_gear_story<R: Abort>(rt: &R, story: &str, json: &str) {
    let head =
        "{\"story\":1,\"source\":\"threads\",\"controllers\":1,\"gear\":[{\"gear\":0,\"power\":\"on\",\
        \"state\":\"disabled\",\"random\":\"FFFFFF\",\"search\":\"FFFFFF\",\"short\":null}]}";
    assert!(rt; story.lines().next() == Some(head));
    let last = story.lines().last().unwrap_or("");
    assert!(rt;
        last.starts_with("{\"end\":true,\"stands\":[\"all-found\"],\"frames\":121,\"bits\":")
    );
    let state = json.split(",\"gear\":").nth(1).unwrap_or("?");
    let state = state.split(",\"addressed\":").next().unwrap_or("?");
    assert!(rt; last.strip_suffix("}").is_some_and(|it| it.ends_with(state)));
    let mut events = 0;
    for line in story.lines().skip(1) {
        let number = line
            .strip_prefix("{\"event\":")
            .and_then(|it| it.split(',').next());
        assert!(rt; line == last || number.and_then(|it| it.parse::<u32>().ok()) == Some(events));
        events += 1;
    }
    assert!(rt; events > 121 * 2);
}

/// A run of the same seed as a story and as JSON.
fn one_run_told<R: Threads + Wait + Sync + Abort + AllocGlobal>(rt: &R) -> Result<(), Fail> {
    let story = written(rt, as_story(setup(1, 7, &[(0, 3)])))?;
    let json = written(rt, as_json(setup(1, 7, &[(0, 3)])))?;
    one_gear_story(rt, story.as_str(), json.as_str());
    Ok(())
}

#[test]
fn a_story_has_each_event_and_ends_as_the_report(rt: HostRuntime) -> Result<(), Fail> {
    one_run_told(&rt)
}

#[test]
fn a_report_as_json_says_what_the_text_says(rt: HostRuntime) -> Result<(), Fail> {
    one_run_twice(&rt)
}

/// Gear from the factory have no short address, so a survey hears none, and the run leaves what it leaves without: an
/// address for each of the three.
fn surveys_nobody<R: Threads + Wait + Sync + Abort + AllocGlobal>(rt: &R) -> Result<(), Fail> {
    let plain = written(rt, setup(3, 7, &[(0, 3)]))?;
    let surveyed = written(rt, surveying(setup(3, 7, &[(0, 3)])))?;
    assert!(rt; surveyed == plain);
    assert!(rt; plain.as_str().lines().next() == Some("controller 0: all-found"));
    assert!(rt; plain.as_str().lines().last() == Some("addressed 3 of 3"));
    Ok(())
}

#[test]
fn one_controller_surveys_gear_from_the_factory(rt: HostRuntime) -> Result<(), Fail> {
    surveys_nobody(&rt)
}

/// Whether a line says that a controller ended by itself. On a busy machine it may give up, if the others end its
/// searches again and again.
fn has_ended(line: &&str) -> bool {
    let end = word(line, 2);
    word(line, 0) == "controller" && matches!(end, "all-found" | "block-full" | "gave-up")
}

/// Whether a line shows a gear with a short address.
fn is_addressed(line: &&str) -> bool {
    word(line, 0) == "gear" && word(line, 6) != "-"
}

/// The random address of the gear with this short address, if it is the only one.
fn holder<'a>(text: &'a str, address: &str) -> Option<&'a str> {
    let holds = |line: &&str| is_addressed(line) && word(line, 6) == address;
    let mut holders = text.lines().filter(holds);
    let random = word(holders.next()?, 4);
    match holders.next() {
        None => Some(random),
        Some(_) => None,
    }
}

/// The gear with this short address is the only one with it, and has this random address.
fn is_holder<R: Abort>(rt: &R, text: &str, address: &str, random: &str) {
    assert!(rt; holder(text, address) == Some(random));
}

/// A gear with a short address is the only one with it, and the entries of a table are the addresses of a gear.
fn names_gear<R: Abort>(rt: &R, text: &str, line: &str) {
    if is_addressed(&line) {
        is_holder(rt, text, word(line, 6), word(line, 4));
    }
    if word(line, 0) == "table" {
        for entry in line.split(' ').skip(2) {
            let (address, random) = entry.split_once('=').unwrap_or(("", ""));
            is_holder(rt, text, address, random);
        }
    }
}

/// All four controllers end by themselves; a gear alone has its short address; each table names gear by the addresses
/// that the gear's own lines have. How many gear have an address.
fn four_named<R: Abort>(rt: &R, text: &str) -> usize {
    assert!(rt; text.lines().filter(has_ended).count() == 4);
    for line in text.lines() {
        names_gear(rt, text, line);
    }
    text.lines().filter(is_addressed).count()
}

/// What is run by four workers and eight gear, if each block has an address for each gear.
fn wide() -> Setup {
    setup(8, 1, &[(0, 7), (8, 15), (16, 23), (24, 31)])
}

/// The same if a block has two addresses.
fn narrow() -> Setup {
    setup(8, 1, &[(0, 1), (2, 3), (4, 5), (6, 7)])
}

/// A run of four workers and eight gear, of which so many get an address at least. The last line counts them.
fn four_run<R: Threads + Wait + Sync + Abort + AllocGlobal>(
    rt: &R,
    setup: Setup,
    least: usize,
) -> Result<(), Fail> {
    let text = written(rt, setup)?;
    let count = four_named(rt, text.as_str());
    assert!(rt; count >= least);
    let last = format!(in rt.alloc(); "addressed {count} of 8")?;
    assert!(rt; text.as_str().lines().last() == Some(last.as_str()));
    Ok(())
}

#[test]
fn four_controllers_name_the_same_gear(rt: HostRuntime) -> Result<(), Fail> {
    // By a start the first controller that closes disables the gear that others search: how many are left is open.
    four_run(&rt, narrow(), 0)?;
    four_run(&rt, wide(), 0)
}

#[test]
fn four_controllers_that_survey_name_the_same_gear(rt: HostRuntime) -> Result<(), Fail> {
    // By a survey gear are left only if controllers give up. With eight addresses one that does not serves all.
    four_run(&rt, surveying(narrow()), 2)?;
    four_run(&rt, surveying(wide()), 8)
}

#[test]
fn a_plan_that_is_refused_is_not_run(rt: HostRuntime) -> Result<(), Fail> {
    let mut bytes = Vec::new(rt.alloc());
    let refused = run_threads(&rt, rt.alloc(), setup(0, 7, &[(0, 3)]), &mut bytes);
    assert!(rt; refused == Err(ThreadsFault::BadPlan(PlanError::GearCount)));
    assert!(rt; bytes.is_empty());
    Ok(())
}

/// A writer that fails at one call: a write, or the flush at the end.
#[derive(Drop)]
struct FailingWriter {
    calls: usize,
    fails_at: usize,
}

impl FailingWriter {
    /// Fails if it is the turn of this call.
    fn is_called(&mut self) -> std::io::Result<()> {
        if self.calls == self.fails_at {
            return Err(Error::from(ErrorKind::Other));
        }
        self.calls = self.calls.wrapping_add(1);
        Ok(())
    }
}

impl Write for FailingWriter {
    fn write(&mut self, buf: &[u8]) -> std::io::Result<usize> {
        self.is_called()?;
        Ok(buf.len())
    }

    fn flush(&mut self) -> std::io::Result<()> {
        self.is_called()
    }
}

/// A report is one write and one flush.
#[test]
fn each_error_of_the_writer_is_a_fault(rt: HostRuntime) {
    for fails_at in 0..3 {
        let mut writer = FailingWriter { calls: 0, fails_at };
        let end = run_threads(&rt, rt.alloc(), setup(1, 7, &[(0, 3)]), &mut writer);
        let wanted = if fails_at < 2 {
            Err(ThreadsFault::Write)
        } else {
            Ok(())
        };
        assert!(rt; end == wanted);
    }
}
