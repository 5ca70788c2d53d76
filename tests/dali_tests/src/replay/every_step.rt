//! The commissioning of one gear by a start and by a survey, disturbed once, at each of its steps: each time it ends,
//! once, and the table names the gear by the address that it has, or is empty.

use super::played;
use std::process::Abort;
use std::test::Fail;

/// A way to begin: its line of the script, how many rounds the undisturbed commissioning then has, the one with its end
/// included, and the last short address that the gear may be given.
struct Beginning {
    line: &'static str,
    rounds: u32,
    last: &'static str,
}

const START: Beginning = Beginning {
    line: "",
    rounds: 124,
    last: "0",
};

/// What is heard under 0 by mistake keeps that address from the gear, which is given 1.
const SURVEY: Beginning = Beginning {
    line: "survey 0\n",
    rounds: 302,
    last: "1",
};

/// What happens once, at each step. If no commit is outstanding the line `fail 0` is refused, and the commissioning
/// goes on.
const DISTURBANCES: [&str; 7] = [
    "go 0\npump lost",
    "go 0\npump noise",
    "go 0\npump collision",
    "go 0\npump destroyed -",
    "go 0\npump destroyed 0",
    "fail 0",
    "down 0\nup 0",
];

/// Whether a line reports an end of controller 0.
fn is_end(line: &str) -> bool {
    line.strip_prefix("0: done ").is_some() || line.strip_prefix("0: halt store").is_some()
}

/// How many ends reports have.
fn ends_in(reports: &str) -> usize {
    reports.lines().filter(|line| is_end(line)).count()
}

/// What follows a front in the only line, or the last, that begins with it.
fn after<'a>(reports: &'a str, front: &str) -> Option<&'a str> {
    let mut found = None;
    for line in reports.lines() {
        if let Some(rest) = line.strip_prefix(front) {
            found = Some(rest);
        }
    }
    found
}

/// The random and the short address in the state of a gear: `STATE RANDOM SEARCH SHORT`.
fn addresses_in(state: &str) -> Option<(&str, &str)> {
    let (_, rest) = state.split_once(' ')?;
    let (random, rest) = rest.split_once(' ')?;
    let (_, short) = rest.split_once(' ')?;
    Some((random, short))
}

/// Whether a table is empty, or has one entry, with these two.
fn names(table: &str, short: &str, random: &str) -> bool {
    match table.strip_prefix(" ") {
        Some(entry) => entry.split_once('=') == Some((short, random)),
        None => table == "",
    }
}

/// Whether reports have one end, the gear has no short address, or 0 to the last one, and the table is empty or names
/// the gear by it. None if they don't show the gear or the table.
fn are_true(reports: &str, last: &str) -> Option<bool> {
    let (random, short) = addresses_in(after(reports, "gear 0 on ")?)?;
    let table = after(reports, "table 0:")?;
    let is_given = short == "-" || short == "0" || short == last;
    Some(ends_in(reports) == 1 && is_given && names(table, short, random))
}

/// A script is played to its end, and its reports are true.
fn ends_truly<R: Abort + AllocGlobal>(rt: &R, script: &str, last: &str) -> Result<(), Fail> {
    let (end, text) = played(rt.alloc(), script.as_bytes())?;
    let reports = text.as_str();
    assert!(rt; end == Ok(()), "of {script:?}");
    assert!(rt;
        are_true(reports, last) == Some(true),
        "of {script:?}: {reports}"
    );
    Ok(())
}

/// Disturbs the commissioning after k rounds, for each k, and wants one end and a true table of each.
fn check_every_step<R: Abort + AllocGlobal>(
    rt: &R,
    begins: &Beginning,
    disturbance: &str,
) -> Result<(), Fail> {
    for k in 0..begins.rounds {
        let line = begins.line;
        let script = format!(in rt.alloc();
            "site 1 0-3\ndraws 123456 654321\n{line}run {k}\n{disturbance}\nrun 1000\nshow\n"
        )?;
        ends_truly(rt, script.as_str(), begins.last)?;
    }
    Ok(())
}

/// Disturbs the commissioning in each way.
fn check_all<R: Abort + AllocGlobal>(rt: &R, begins: &Beginning) -> Result<(), Fail> {
    for disturbance in DISTURBANCES {
        check_every_step(rt, begins, disturbance)?;
    }
    Ok(())
}

#[test]
fn a_start_is_disturbed_at_every_step(rt: HostRuntime) -> Result<(), Fail> {
    check_all(&rt, &START)
}

#[test]
fn a_survey_is_disturbed_at_every_step(rt: HostRuntime) -> Result<(), Fail> {
    check_all(&rt, &SURVEY)
}
