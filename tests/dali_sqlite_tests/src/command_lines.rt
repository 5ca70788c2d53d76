//! `dali_sim`, played whole by its command line.

use dali_command_line::run_and_say;
use dali_desk::Desk;
use std::process::{Abort, ExitCode};
use std::sync::Wait;
use std::thread::Threads;

/// What the program is to end with: its status, what it has written and what it has said.
type End<'a> = (u8, &'a str, &'a str);

/// The program at this desk ends so. Its threads run in the runtime of the test.
fn ends_at<R: Abort + Threads + Wait + Sync>(rt: &R, desk: &Desk<'_>, end: End<'_>) {
    assert!(rt; run_and_say(desk, rt) == ExitCode::from(end.0));
    assert!(rt; desk.has_written(end.1));
    assert!(rt; desk.has_said(end.2));
}

/// The program with this command line and this input ends so.
fn ends<R: Abort + AllocGlobal + Threads + Wait + Sync>(
    rt: &R,
    words: &[u8],
    input: &str,
    end: End<'_>,
) {
    ends_at(rt, &Desk::new(rt.alloc(), words, input), end);
}

/// The program with this command line and this input ends with status 3 if its output takes nothing.
fn is_refused<R: Abort + AllocGlobal + Threads + Wait + Sync>(
    rt: &R,
    words: &[u8],
    input: &str,
    said: &str,
) {
    ends_at(rt, &Desk::full(rt.alloc(), words, input), (3, "", said));
}

#[test]
fn command_lines_are_answered(rt: HostRuntime) {
    let usage = "Usage: dali_sim <COMMAND>";
    for (words, said) in [
        (b"dali_sim".as_slice(), usage),
        (b"dali_sim play".as_slice(), "'play'"),
        (
            b"dali_sim pl\x1B[31may\x07".as_slice(),
            "'pl\\x1B[31may\\x07'",
        ),
        (b"dali_sim replay now".as_slice(), "'now'"),
        (
            b"dali_sim \xFF".as_slice(),
            "error: an argument is not UTF-8\n",
        ),
    ] {
        ends(&rt, words, "", (2, "", said));
    }
    for (words, written) in [
        (b"dali_sim --help".as_slice(), usage),
        (b"dali_sim --help".as_slice(), "The manual is README.md"),
        (b"dali_sim --version".as_slice(), "dali_sim 0.3.0\n"),
        (
            b"dali_sim replay --help".as_slice(),
            "dali_sim replay < examples/plain-path.txt",
        ),
        (b"dali_sim threads --help".as_slice(), "addressed K of N"),
    ] {
        ends(&rt, words, "", (0, written, ""));
    }
}

/// The words of `threads`, of which something is missing or is no number or no block, and what is said of them.
const BAD: [(&[u8], &str); 14] = [
    (
        b"dali_sim threads --seed 1 --turns 9 0-3",
        "provided:\n  --gear <N>\n",
    ),
    (
        b"dali_sim threads --gear 1 --turns 9 0-3",
        "provided:\n  --seed <S>\n",
    ),
    (
        b"dali_sim threads --gear 1 --seed 1 0-3",
        "provided:\n  --turns <T>\n",
    ),
    (
        b"dali_sim threads --gear 1 --seed 1 --turns 9",
        "provided:\n  <BLOCK>...\n",
    ),
    (
        b"dali_sim threads --gear x --seed 1 --turns 9 0-3",
        "'x' for '--gear <N>'",
    ),
    (b"dali_sim threads --gear -1 --seed 1 --turns 9 0-3", "'-1'"),
    (
        b"dali_sim threads --gear 4294967296 --seed 1 --turns 9 0-3",
        "'4294967296' for '--gear <N>'",
    ),
    (
        b"dali_sim threads --gear 1 --seed 18446744073709551616 --turns 9 0-3",
        "for '--seed <S>'",
    ),
    (
        b"dali_sim threads --gear 1 --seed 1 --turns 4294967296 0-3",
        "'4294967296' for '--turns <T>'",
    ),
    (
        b"dali_sim threads --gear 1 --seed 1 --turns 9 3",
        "'3' for '<BLOCK>...'",
    ),
    (
        b"dali_sim threads --gear 1 --seed 1 --turns 9 0-3-5",
        "'0-3-5' for '<BLOCK>...'",
    ),
    (
        b"dali_sim threads --gear 1 --seed 1 --turns 9 a-b",
        "'a-b' for '<BLOCK>...'",
    ),
    (
        b"dali_sim threads --gear 1 --seed 1 --turns 9 0-256",
        "'0-256' for '<BLOCK>...': a block is first-last, as 0-15, and addresses end at 63\n",
    ),
    (
        b"dali_sim threads --gear 1 --seed 1 --turns 9 0-1 2-3 4-5 6-7 8-9",
        "'8-9' for '<BLOCK>...' found; no more were expected: a site has 1 to 4 controllers",
    ),
];

#[test]
fn bad_words_of_threads_are_refused(rt: HostRuntime) {
    for (words, said) in BAD {
        ends(&rt, words, "", (2, "", said));
    }
}

#[test]
fn a_refused_plan_of_threads_is_said(rt: HostRuntime) {
    for (words, said) in [
        (
            b"dali_sim threads --gear 0 --seed 1 --turns 9 0-3".as_slice(),
            "threads: plan refused: GearCount: a bus has 1 to 128 gear\n",
        ),
        (
            b"dali_sim threads --gear 1 --seed 1 --turns 9 0-64".as_slice(),
            "threads: plan refused: BlockOrder: the first address of a block is not above its last, \
and addresses end at 63\n",
        ),
        (
            b"dali_sim threads --gear 1 --seed 1 --turns 9 0-3 3-5".as_slice(),
            "threads: plan refused: BlockOverlap: no address stands in two blocks\n",
        ),
    ] {
        ends(&rt, words, "", (2, "", said));
    }
}

#[test]
fn controllers_run_in_threads(rt: HostRuntime) {
    let words = b"dali_sim threads --gear 3 --seed 1 --turns 10000 0-63";
    let report = "controller 0: all-found\ngear 0 on disabled ";
    ends(&rt, words, "", (0, report, ""));
    ends(&rt, words, "", (0, "addressed 3 of 3\n", ""));
}

/// The questions of a survey take more turns than all of a run without.
#[test]
fn controllers_survey_in_threads(rt: HostRuntime) {
    let words = b"dali_sim threads --gear 1 --seed 1 --turns 190 0-3";
    ends(&rt, words, "", (0, "controller 0: all-found\n", ""));
    let words = b"dali_sim threads --survey --gear 1 --seed 1 --turns 190 0-3";
    ends(&rt, words, "", (0, "controller 0: turns-spent\n", ""));
}

#[test]
fn a_script_is_played_and_its_fault_is_said(rt: HostRuntime) {
    let words = b"dali_sim replay";
    let script = "bench 1\ndraws\nframe A900\n";
    ends(&rt, words, script, (0, "A900 silence\n", ""));
    let bad = "bench 1\ndraws\nframe A900\nframe A1\n";
    ends(
        &rt,
        words,
        bad,
        (
            1,
            "A900 silence\n",
            "replay: line 4: bad line: word 2: `A1`: a frame has four hexadecimal digits, as FE80; \
the form is `frame HHHH`\n",
        ),
    );
    let refused = "bench 0\ndraws\n";
    ends(
        &rt,
        words,
        refused,
        (
            1,
            "",
            "replay: plan refused: GearCount: line 1, word 2: `0`: a bus has 1 to 128 gear\n",
        ),
    );
}

#[test]
fn what_is_asked_for_is_written(rt: HostRuntime) {
    let script = "bench 1\ndraws\nshow\n";
    let text = "gear 0 on disabled FFFFFF FFFFFF -\n";
    ends(&rt, b"dali_sim replay", script, (0, text, ""));
    let json = "{\"line\":3,\"gear\":[{\"gear\":0,";
    ends(&rt, b"dali_sim replay --json", script, (0, json, ""));
    for (words, written) in [
        (
            b"dali_sim threads --gear 1 --seed 1 --turns 9 --json 0-3".as_slice(),
            "],\"addressed\":",
        ),
        (
            b"dali_sim threads --gear 1 --seed 1 --turns 9 --story 0-3".as_slice(),
            "{\"story\":1,",
        ),
    ] {
        ends(&rt, words, "", (0, written, ""));
    }
}

#[test]
fn a_full_output_is_said(rt: HostRuntime) {
    let threads = b"dali_sim threads --gear 1 --seed 1 --turns 9 0-3";
    is_refused(&rt, threads, "", "threads: the output cannot be written\n");
    let script = "bench 1\ndraws\nframe A900\n";
    is_refused(
        &rt,
        b"dali_sim replay",
        script,
        "replay: the output cannot be written\n",
    );
    let said = "error: memory, the command line or the output is refused\n";
    is_refused(&rt, b"dali_sim --help", "", said);
}
