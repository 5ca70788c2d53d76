//! `dali_commission replace`, by its command line: what it refuses, and how it goes on from each moment of a swap.

use super::cabinet::Cabinet;
use super::room::call;
use dali_console::Failed;
use dali_desk::Desk;
use std::process::Abort;

/// The records of a site of two luminaires, 5 and 7; what another one has them as; and what new files have.
const SITE: [(u8, u8, u32); 4] = [
    (1, 5, 0x123456),
    (1, 7, 0xABCDEF),
    (2, 5, 0x123456),
    (2, 7, 0xABCDEF),
];

const OTHER: [(u8, u8, u32); 2] = [(2, 5, 0x123456), (2, 7, 0xABCDEF)];

const NEW: [(u8, u8, u32); 3] = [(1, 5, 0x222222), (2, 7, 0xABCDEF), (2, 5, 0x222222)];

const OTHER_NEW: [(u8, u8, u32); 2] = [(2, 7, 0xABCDEF), (2, 5, 0x222222)];

const ONE: &[u8] = b"dali_commission replace 5 --records site.db --only";

const TWO: &[u8] = b"dali_commission replace 5 --records site.db --records two.db";

/// The program with this command line, these files and these answers of the driver ends with this status and says this.
fn ends<R: Abort + AllocGlobal>(
    rt: &R,
    words: &[u8],
    mut cabinet: &Cabinet,
    answers: &str,
    wanted: u8,
    said: &str,
) {
    let desk = Desk::new(rt.alloc(), words, answers);
    let status = match call(&desk, &mut cabinet) {
        Ok(()) => 0,
        Err(failure) => failure.status(),
    };
    assert!(rt; status == wanted);
    assert!(rt; desk.has_said(said));
}

/// A line so often, behind these answers.
fn repeated<R: Abort + AllocGlobal>(rt: &R, first: &str, line: &str, count: u32) -> String {
    let mut text = String::new(rt.alloc());
    let mut is_made = text.push_str(first).is_ok();
    for _ in 0..count {
        is_made = is_made && text.push_str(line).is_ok();
    }
    assert!(rt; is_made);
    text
}

/// So many lines of silence, behind these answers.
fn silence<R: Abort + AllocGlobal>(rt: &R, first: &str, silent: u32) -> String {
    repeated(rt, first, "silence\n", silent)
}

/// What luminaire 7 answers when it is asked for its random address three times, behind these answers.
fn then_seven<R: Abort + AllocGlobal>(rt: &R, first: &str) -> String {
    repeated(rt, first, "byte AB\nbyte CD\nbyte EF\n", 3)
}

/// What the new luminaire 5 answers when it is asked so, behind these answers.
fn then_five<R: Abort + AllocGlobal>(rt: &R, first: &str) -> String {
    repeated(rt, first, "byte 22\n", 9)
}

/// What is heard if all is as the new files say: 5 is asked, then 7, then 5 once more.
fn all_there<R: Abort + AllocGlobal>(rt: &R) -> String {
    then_five(rt, then_seven(rt, then_five(rt, "").as_str()).as_str())
}

/// The site with one file, and with two.
fn one<R: Abort + AllocGlobal>(rt: &R) -> Cabinet {
    let cabinet = Cabinet::new(rt.alloc());
    assert!(rt; cabinet.has_put("site.db", &SITE));
    cabinet
}

fn two<R: Abort + AllocGlobal>(rt: &R) -> Cabinet {
    let cabinet = one(rt);
    assert!(rt; cabinet.has_put("two.db", &OTHER));
    cabinet
}

#[test]
fn words_that_do_not_go_together_are_refused(rt: HostRuntime) {
    let cabinet = two(&rt);
    for (words, said) in [
        (b"dali_commission replace 5".as_slice(), "--records <FILE>"),
        (
            b"dali_commission replace --records site.db".as_slice(),
            "<ADDRESS>",
        ),
        (
            b"dali_commission replace 64 --records site.db".as_slice(),
            "'64'",
        ),
        (
            b"dali_commission replace 5 --records site.db --only --missing 64".as_slice(),
            "'64'",
        ),
        (
            b"dali_commission replace 5 --records two.db".as_slice(),
            "one file is named: if other controllers have files, name each by --records; if none has, say --only",
        ),
        (
            b"dali_commission replace 5 --records site.db --records two.db --only".as_slice(),
            "--only is said of one file, and several are named",
        ),
        (
            b"dali_commission replace 5 --records site.db 0-64".as_slice(),
            "'0-64'",
        ),
        (
            b"dali_commission replace 5 --records site.db --records two.db 0-31".as_slice(),
            "a block is that of one file",
        ),
        (
            b"dali_commission replace 5 --records site.db --driver x".as_slice(),
            "launcher",
        ),
    ] {
        ends(&rt, words, &cabinet, "", 2, said);
    }
}

/// What the files tell, before anything is put on the bus.
#[test]
fn files_that_do_not_fit_are_refused(rt: HostRuntime) {
    let nothing = "not replaced, nothing was changed: ";
    for (words, said) in [
        (
            b"dali_commission replace 6 --records site.db --only".as_slice(),
            "short address 6: no table has",
        ),
        (
            b"dali_commission replace 5 --records site.db --records site.db".as_slice(),
            "two of the files are one",
        ),
        (
            b"dali_commission replace 5 --records site.db --records site.db.new".as_slice(),
            "two of the files are one",
        ),
        (
            b"dali_commission replace 5 --records site.db --only --missing 9".as_slice(),
            "short address 9: --missing names it, but no table has it",
        ),
        (
            b"dali_commission replace 5 --records site.db --only --missing 5".as_slice(),
            "short address 5: --missing names it, but no table has it",
        ),
        (
            b"dali_commission replace 5 --records site.db 6-9".as_slice(),
            "short address 5: it is not clear whose block",
        ),
        (
            b"dali_commission replace 5 --records two.db --records three.db".as_slice(),
            "short address 5: it is not clear whose block",
        ),
        (
            b"dali_commission replace 5 --records site.db --records four.db".as_slice(),
            "short address 5: it is not clear whose block",
        ),
        (
            b"dali_commission replace 5 --records site.db --records five.db".as_slice(),
            "short address 7: the tables disagree",
        ),
    ] {
        let cabinet = two(&rt);
        assert!(rt; cabinet.has_put("three.db", &OTHER));
        assert!(rt; cabinet.has_put("four.db", &SITE));
        assert!(rt; cabinet.has_put("five.db", &[(2, 7, 0xABCDEE)]));
        let count = cabinet.count();
        ends(&rt, words, &cabinet, "", 11, nothing);
        ends(&rt, words, &cabinet, "", 11, said);
        assert!(rt; cabinet.count() == count);
    }
    let cabinet = one(&rt);
    let words = b"dali_commission replace 5 --records site.db 5-6";
    ends(
        &rt,
        words,
        &cabinet,
        "",
        5,
        "short address 7 is reserved, and lies outside",
    );
    let words = b"dali_commission replace 5 --records site.db --records gone.db";
    ends(
        &rt,
        words,
        &cabinet,
        "",
        5,
        "error: gone.db: there is no such file of records\n",
    );
    let words = b"dali_commission replace 5 --only --records a\nb.db";
    ends(
        &rt,
        words,
        &cabinet,
        "",
        5,
        "error: a\nb.db: it cannot be opened\n",
    );
    assert!(rt; cabinet.has_put("site.db.new", &[(1, 7, 0x222222)]));
    ends(
        &rt,
        ONE,
        &cabinet,
        "",
        11,
        "a new file of another replacement lies there",
    );
}

/// Address 5 is asked three times, then 7, then whether one alone has none.
#[test]
fn a_bus_on_which_not_one_luminaire_alone_is_new_is_refused(rt: HostRuntime) {
    let there = then_seven(&rt, silence(&rt, "", 9).as_str());
    let mut other = silence(&rt, "", 9);
    for _ in 0..3u8 {
        assert!(rt; other.push_str("byte AB\nbyte CD\nbyte EE\n").is_ok());
    }
    for (answers, status, said) in [
        (
            "byte 12\nbyte 34\nbyte 56\nsilence\nsilence\nsilence\nsilence\nsilence\nsilence\n",
            11,
            "a gear answers at it",
        ),
        // Once is no silence.
        (
            "silence\nsilence\nsilence\nsilence\nsilence\nsilence\nsilence\nsilence\nbyte 56\n",
            11,
            "a gear answers at it",
        ),
        ("lapsed\n", 4, "end of input"),
        (silence(&rt, "", 18).as_str(), 10, "no gear answered"),
        (silence(&rt, "", 9).as_str(), 4, "end of input"),
        (
            other.as_str(),
            11,
            "7 ABCDEF another gear answers: ABCDEE\n",
        ),
        (
            silence(&rt, there.as_str(), 3000).as_str(),
            11,
            "no luminaire without short address was found",
        ),
        (
            repeated(&rt, there.as_str(), "lapsed\n", 100).as_str(),
            11,
            "it is not clear whether one luminaire alone has no short address: call again",
        ),
    ] {
        let cabinet = one(&rt);
        ends(&rt, ONE, &cabinet, answers, status, said);
        assert!(rt; cabinet.is("site.db", &SITE));
        assert!(rt; cabinet.count() == 1);
    }
    // If 7 is known to be gone, no other is asked for.
    let words = b"dali_commission replace 5 --records site.db --only --missing 7";
    let silent = silence(&rt, "", 3000);
    ends(
        &rt,
        words,
        &one(&rt),
        silent.as_str(),
        11,
        "no luminaire without short address was found",
    );
}

/// What an earlier call left is gone on with; and if the new files do not come to have all, no file is moved.
#[test]
fn new_files_that_are_not_complete_are_refused(rt: HostRuntime) {
    let cabinet = one(&rt);
    assert!(rt; cabinet.has_put("site.db.new", &[(1, 5, 0x222222)]));
    let there = then_seven(&rt, silence(&rt, "", 9).as_str());
    // The bus fails once luminaire 7 has answered.
    ends(
        &rt,
        ONE,
        &cabinet,
        silence(&rt, there.as_str(), 3000).as_str(),
        10,
        "no gear answered",
    );
    // It does not, and there is no new luminaire.
    let last = then_seven(&rt, silence(&rt, there.as_str(), 618).as_str());
    ends(
        &rt,
        ONE,
        &cabinet,
        silence(&rt, last.as_str(), 3000).as_str(),
        11,
        "not replaced, no file of records was changed: short address 5: the new luminaire did not get it: call again",
    );
    // It has nothing but what it was given, so the next call asks again.
    assert!(rt; cabinet.is("site.db.new", &[(1, 5, 0x222222), (2, 7, 0xABCDEF)]));
    let cabinet = one(&rt);
    let lacks = [(1, 5, 0x222222), (1, 7, 0xABCDEF), (2, 5, 0x222222)];
    assert!(rt; cabinet.has_put("site.db.new", &lacks));
    ends(
        &rt,
        ONE,
        &cabinet,
        all_there(&rt).as_str(),
        11,
        "not replaced, no file of records was changed: short address 5: a new table would lack something",
    );
    assert!(rt; cabinet.is("site.db", &SITE));
    assert!(rt; cabinet.count() == 2);
}

const JOURNAL: &str = "\
dali_commission: a replacement is not finished; call ./dali_commission replace again
5 1
site.db
two.db
";

/// A site with two files at a moment of a swap: two journals are written, each file is moved in two steps, and the
/// journals are removed.
fn at<R: Abort + AllocGlobal>(rt: &R, moment: u32) -> Cabinet {
    let cabinet = Cabinet::new(rt.alloc());
    let files: [(
        u32,
        &str,
        &str,
        &str,
        &str,
        &[(u8, u8, u32)],
        &[(u8, u8, u32)],
    ); 2] = [
        (
            0,
            "site.db",
            "site.db.new",
            "site.db.before-1",
            "site.db.replacing",
            &SITE,
            &NEW,
        ),
        (
            1,
            "two.db",
            "two.db.new",
            "two.db.before-1",
            "two.db.replacing",
            &OTHER,
            &OTHER_NEW,
        ),
    ];
    for (number, name, new_name, kept, journal, old, new) in files {
        if number < moment && moment <= 6 + number {
            assert!(rt; cabinet.has_written(journal, JOURNAL));
        }
        let place = 2 + 2 * number;
        if moment <= place {
            assert!(rt; cabinet.has_put(name, old));
        } else {
            assert!(rt; cabinet.has_put(kept, old));
        }
        if moment < place + 2 {
            assert!(rt; cabinet.has_put(new_name, new));
        } else {
            assert!(rt; cabinet.has_put(name, new));
        }
    }
    cabinet
}

fn is_old(cabinet: &Cabinet) -> bool {
    cabinet.count() == 4 && cabinet.is("site.db", &SITE) && cabinet.is("two.db", &OTHER)
}

fn is_new(cabinet: &Cabinet) -> bool {
    cabinet.count() == 4
        && cabinet.is("site.db", &NEW)
        && cabinet.is("two.db", &OTHER_NEW)
        && cabinet.is("site.db.before-1", &SITE)
        && cabinet.is("two.db.before-1", &OTHER)
}

const EXCHANGED: &str =
    "short address 5: the files that an earlier call began to exchange are exchanged now\n";

/// Before each journal is written nothing is changed, and the call begins as always: the driver that it asks has ended.
/// From then on the files are exchanged, and the bus is asked.
#[test]
fn a_swap_that_was_stopped_goes_on_or_is_taken_back(rt: HostRuntime) {
    for moment in 0..2u32 {
        let cabinet = at(&rt, moment);
        ends(&rt, TWO, &cabinet, "", 4, "end of input");
        assert!(rt; is_old(&cabinet));
    }
    let there = all_there(&rt);
    for moment in 2..8u32 {
        for words in [
            TWO,
            ONE,
            b"dali_commission replace 5 --records two.db --only".as_slice(),
        ] {
            let is_seen = moment < 7 || words != ONE;
            let (status, said) = if is_seen {
                (0, EXCHANGED)
            } else {
                (11, "a gear answers at it")
            };
            let cabinet = at(&rt, moment);
            ends(&rt, words, &cabinet, there.as_str(), status, said);
            assert!(rt; is_seen != cabinet.is("two.db.replacing", &[]));
        }
        ends(
            &rt,
            TWO,
            &at(&rt, moment),
            there.as_str(),
            0,
            "5 222222 the new luminaire has the address; 2 gear are in each table\n",
        );
    }
    assert!(rt; is_new(&at(&rt, 8)));
}

/// Once the files are exchanged, it is done only if the new luminaire and all others answer.
#[test]
fn an_exchange_that_is_finished_says_what_the_bus_tells(rt: HostRuntime) {
    let five = then_five(&rt, "");
    let six = repeated(&rt, then_seven(&rt, five.as_str()).as_str(), "byte 23\n", 9);
    let but = "the files are exchanged, but short address 5: ";
    for (answers, status, said) in [
        ("", 4, "end of input"),
        (
            silence(&rt, "", 9).as_str(),
            11,
            "the new luminaire does not answer at it; check says which gear answer",
        ),
        (
            repeated(&rt, "", "byte 12\nbyte 34\nbyte 56\n", 3).as_str(),
            11,
            "another luminaire than the new one answers at it; check says",
        ),
        (
            repeated(&rt, "", "damaged\n", 9).as_str(),
            11,
            "several luminaires answer at it, or the bus is disturbed; check says",
        ),
        (
            silence(&rt, five.as_str(), 9).as_str(),
            11,
            "a luminaire of the tables is not there as recorded",
        ),
        // What is heard last decides.
        (
            six.as_str(),
            11,
            "another luminaire than the new one answers at it; check says",
        ),
        (
            silence(&rt, then_seven(&rt, five.as_str()).as_str(), 9).as_str(),
            11,
            "the new luminaire does not answer at it; check says",
        ),
    ] {
        let cabinet = at(&rt, 3);
        ends(&rt, TWO, &cabinet, answers, status, said);
        assert!(rt; is_new(&cabinet));
        if status == 11 {
            ends(&rt, TWO, &at(&rt, 4), answers, status, but);
        }
    }
}

#[test]
fn what_a_replacement_came_to_is_an_object_of_json(rt: HostRuntime) {
    let words = b"dali_commission replace 5 --records site.db --records two.db --json";
    let there = all_there(&rt);
    let finished = Desk::new(rt.alloc(), words, there.as_str());
    assert!(rt; call(&finished, &mut &at(&rt, 4)).is_ok());
    assert!(rt;
        finished.has_written(
            "{\"end\":\"replaced\",\"status\":0,\"frames\":27,\"enrolled\":0,\"table\":[\
        {\"address\":5,\"random\":\"222222\",\"given\":true},{\"address\":7,\"random\":\"ABCDEF\",\"given\":false}],\
        \"left_alone\":[],\"missing\":[],\"strangers\":[],\"unaddressed\":null}\n"
        )
    );
    let gone = silence(&rt, "", 9);
    let unheard = Desk::new(rt.alloc(), words, gone.as_str());
    assert!(rt; call(&unheard, &mut &at(&rt, 4)).is_err());
    assert!(rt;
        unheard.has_written(
            "{\"end\":\"not-confirmed\",\"status\":11,\"frames\":9,\"enrolled\":0,\"table\":[],"
        )
    );
    let other = repeated(
        &rt,
        silence(&rt, "", 9).as_str(),
        "byte AB\nbyte CD\nbyte EE\n",
        3,
    );
    let nobody = silence(
        &rt,
        then_seven(&rt, silence(&rt, "", 9).as_str()).as_str(),
        3000,
    );
    for (heard, text) in [
        (
            other.as_str(),
            "\"frames\":18,\"enrolled\":0,\"table\":[],\"left_alone\":[],\"missing\":[],\
        \"strangers\":[{\"address\":7,\"is\":\"another\",\"random\":\"ABCDEE\"}],\"unaddressed\":null}\n",
        ),
        (
            silence(&rt, "byte 12\n", 8).as_str(),
            "{\"end\":\"not-replaced\",\"status\":11,\"frames\":9,\"enrolled\":0,\"table\":[],",
        ),
        // A look for a new luminaire asks all short addresses but 7, which the table has.
        (
            nobody.as_str(),
            "{\"end\":\"not-replaced\",\"status\":11,\"frames\":224,\"enrolled\":0,\"table\":[],",
        ),
    ] {
        let refused = Desk::new(rt.alloc(), words, heard);
        assert!(rt; call(&refused, &mut &two(&rt)).is_err());
        assert!(rt; refused.has_written(text));
    }
}

/// What is said at an end with this status.
fn said(status: u8) -> &'static str {
    match status {
        0 => EXCHANGED,
        12 => "a replacement is not finished: call ./dali_commission replace again",
        4 => "end of input",
        _ => "an end that is not expected here",
    }
}

/// A file that cannot be written, renamed or removed stops it, at any moment; the next call goes on from there.
#[test]
fn a_swap_goes_on_after_a_step_that_fails(rt: HostRuntime) {
    let there = all_there(&rt);
    for moment in 1..8u32 {
        for left in 0..8u32 {
            let cabinet = at(&rt, moment);
            cabinet.limit(Some(left));
            let (more, is_forward) = if moment < 2 {
                (moment, false)
            } else {
                (8 - moment, true)
            };
            let status = if left < more {
                12
            } else if is_forward {
                0
            } else {
                4
            };
            let heard = if is_forward { there.as_str() } else { "" };
            ends(&rt, TWO, &cabinet, heard, status, said(status));
            cabinet.limit(None);
            let (status, heard) = if is_forward && left < more {
                (0, there.as_str())
            } else {
                (4, "")
            };
            ends(&rt, TWO, &cabinet, heard, status, said(status));
            assert!(rt;
                if is_forward {
                    is_new(&cabinet)
                } else {
                    is_old(&cabinet)
                }
            );
        }
    }
}

#[test]
fn other_tasks_wait_for_the_end_of_a_swap(rt: HostRuntime) {
    let said = "a replacement is not finished: call ./dali_commission replace again";
    for words in [
        b"dali_commission run --records site.db 0-63".as_slice(),
        b"dali_commission check --records site.db".as_slice(),
        b"dali_commission table --records site.db".as_slice(),
    ] {
        for moment in 1..7u32 {
            ends(&rt, words, &at(&rt, moment), "", 12, said);
        }
    }
    // What lies there at no moment of a swap is left as it is.
    let cabinet = at(&rt, 4);
    assert!(rt; cabinet.has_put("two.db.new.new", &SITE));
    assert!(rt; cabinet.has_put("site.db.new", &NEW));
    ends(
        &rt,
        TWO,
        &cabinet,
        "",
        12,
        "what lies beside the files is not what a replacement leaves",
    );
    // What is no journal of the files that lie there is named, by whichever task finds it.
    let elsewhere = "\
        dali_commission: a replacement is not finished; call ./dali_commission replace again\n5 1\n/there/site.db\n";
    for journal in ["something else\n", elsewhere] {
        let cabinet = one(&rt);
        assert!(rt; cabinet.has_written("site.db.replacing", journal));
        for words in [
            ONE,
            b"dali_commission table --records site.db".as_slice(),
            b"dali_commission run --records site.db 0-63".as_slice(),
        ] {
            ends(
                &rt,
                words,
                &cabinet,
                "",
                5,
                "error: site.db: its journal, with .replacing behind its name, is damaged, or of files that lay",
            );
        }
        assert!(rt; cabinet.count() == 2);
    }
}

/// The old luminaire is connected again after the address was reserved: that is seen before anything is given.
#[test]
fn an_old_luminaire_that_is_back_is_seen_early(rt: HostRuntime) {
    let cabinet = one(&rt);
    assert!(rt; cabinet.has_put("site.db.new", &[(1, 5, 0x222222)]));
    let old = repeated(&rt, "", "byte 12\nbyte 34\nbyte 56\n", 3);
    ends(
        &rt,
        ONE,
        &cabinet,
        old.as_str(),
        11,
        "short address 5: another luminaire than the new one answers at it: call again when the new one alone",
    );
    assert!(rt; cabinet.is("site.db.new", &[(1, 5, 0x222222)]));
}

const ACCEPT: &[u8] = b"dali_commission replace 5 --accept --records site.db --only";

const ACCEPT_TWO: &[u8] = b"dali_commission replace 5 --accept --records site.db --records two.db";

const ACCEPTED: &str = "5 222222 the new luminaire has the address; 2 gear are in each table\n";

/// What is heard if the luminaire that answers at 5 is accepted: it is asked before all else, too.
fn all_accepted<R: Abort + AllocGlobal>(rt: &R) -> String {
    let five = then_five(rt, then_five(rt, "").as_str());
    then_five(rt, then_seven(rt, five.as_str()).as_str())
}

#[test]
fn a_luminaire_that_answers_is_accepted_in_all_files(rt: HostRuntime) {
    let there = all_accepted(&rt);
    let cabinet = two(&rt);
    ends(&rt, ACCEPT_TWO, &cabinet, there.as_str(), 0, ACCEPTED);
    let new = [(1, 7, 0xABCDEF), (2, 7, 0xABCDEF), (2, 5, 0x222222)];
    assert!(rt; cabinet.is("site.db", &new));
    assert!(rt; cabinet.is("two.db", &OTHER_NEW));
    assert!(rt; cabinet.is("site.db.before-1", &SITE) && cabinet.is("two.db.before-1", &OTHER));
    assert!(rt; cabinet.count() == 4);
    // An exchange that was stopped is brought to its end by it, too.
    let there = all_there(&rt);
    let cabinet = at(&rt, 4);
    ends(&rt, ACCEPT_TWO, &cabinet, there.as_str(), 0, EXCHANGED);
    assert!(rt; is_new(&cabinet));
}

/// If 7 is known to be gone, it is not asked for.
#[test]
fn a_luminaire_is_accepted_beside_one_that_is_gone(rt: HostRuntime) {
    let five = then_five(&rt, then_five(&rt, "").as_str());
    let there = then_five(&rt, silence(&rt, five.as_str(), 9).as_str());
    let words = b"dali_commission replace 5 --accept --records site.db --only --missing 7";
    ends(&rt, words, &one(&rt), there.as_str(), 0, ACCEPTED);
    ends(
        &rt,
        ACCEPT,
        &one(&rt),
        there.as_str(),
        11,
        "not replaced, nothing was changed: short address 5: a luminaire of the tables is not there as recorded",
    );
}

#[test]
fn a_bus_on_which_not_one_luminaire_alone_answers_is_refused(rt: HostRuntime) {
    let seven = then_seven(&rt, then_seven(&rt, then_seven(&rt, "").as_str()).as_str());
    let old = repeated(&rt, "", "byte 12\nbyte 34\nbyte 56\n", 3);
    let noise = repeated(&rt, "", "damaged\n", 9);
    let silent = silence(&rt, "", 9);
    for (words, answers, status, said) in [
        (
            ACCEPT,
            old.as_str(),
            11,
            "a gear answers at it: the old luminaire is still there",
        ),
        (
            ACCEPT,
            silent.as_str(),
            11,
            "the new luminaire does not answer at it",
        ),
        (
            ACCEPT,
            noise.as_str(),
            11,
            "several luminaires answer at it, or the bus is disturbed",
        ),
        // The table has its number at 7.
        (
            ACCEPT,
            seven.as_str(),
            11,
            "another luminaire than the new one answers at it",
        ),
        (
            b"dali_commission replace 6 --accept --records site.db --only".as_slice(),
            "",
            11,
            "short address 6: no table has this short address",
        ),
        (
            b"dali_commission replace 5 --accept --records site.db".as_slice(),
            "",
            2,
            "if none has, say --only",
        ),
        (ACCEPT, "lapsed\n", 4, "end of input"),
    ] {
        let cabinet = one(&rt);
        ends(&rt, words, &cabinet, answers, status, said);
        assert!(rt; cabinet.is("site.db", &SITE));
        assert!(rt; cabinet.count() == 1);
    }
}

/// What an earlier call left is gone on with, unless it is of another luminaire; that is put aside.
#[test]
fn an_acceptance_goes_on_or_begins_anew(rt: HostRuntime) {
    let there = all_accepted(&rt);
    let again = b"dali_commission replace 5 --accept --records site.db --only --again";
    for (left, words, status, count) in [
        ([(2, 7, 0xABCDEF), (2, 5, 0x222222)], ACCEPT, 0, 2),
        ([(2, 7, 0xABCDEF), (2, 5, 0x333333)], ACCEPT, 11, 2),
        ([(1, 5, 0x222222), (2, 7, 0xABCDEF)], ACCEPT, 11, 2),
        ([(2, 7, 0xABCDEF), (2, 5, 0x333333)], again.as_slice(), 0, 3),
    ] {
        let cabinet = one(&rt);
        assert!(rt; cabinet.has_put("site.db.new", &left));
        let said = if status == 0 {
            ACCEPTED
        } else {
            "a new file of another replacement lies there"
        };
        ends(&rt, words, &cabinet, there.as_str(), status, said);
        assert!(rt; cabinet.count() == count);
        assert!(rt; cabinet.is("site.db", &SITE) == (status != 0));
    }
}
