//! `dali_commission`, played whole by its command line.

use super::room::call;
use super::shelf::Shelf;
use dali_commission_program::StoreFault;
use dali_console::Failed;
use dali_desk::Desk;
use std::process::Abort;

/// What the program is to end with: its status, how many lines it has written, and what it has said.
type End<'a> = (u8, usize, &'a str);

/// The program with this command line, these records and these answers of the driver ends so.
fn ends<R: Abort + AllocGlobal>(
    rt: &R,
    words: &[u8],
    mut shelf: &Shelf<'_>,
    answers: &str,
    end: End<'_>,
) {
    let desk = Desk::new(rt.alloc(), words, answers);
    let status = match call(&desk, &mut shelf) {
        Ok(()) => 0,
        Err(failure) => failure.status(),
    };
    assert!(rt; status == end.0);
    assert!(rt; desk.lines_written() == end.1);
    assert!(rt; desk.has_said(end.2));
}

/// So many lines of silence, behind these answers.
fn answers<R: Abort + AllocGlobal>(rt: &R, first: &str, silent: u32) -> String {
    let mut text = String::new(rt.alloc());
    let mut is_made = text.push_str(first).is_ok();
    for _ in 0..silent {
        is_made = is_made && text.push_str("silence\n").is_ok();
    }
    assert!(rt; is_made);
    text
}

/// The same, and then a gear answers when it is asked whether any is there.
fn answers_there<R: Abort + AllocGlobal>(rt: &R, first: &str, silent: u32) -> String {
    let mut text = answers(rt, first, silent);
    let end = "byte 12\nbyte 34\nbyte 56\nsilence\nsilence\nsilence\nsilence\nsilence\nsilence\n";
    assert!(rt; text.push_str(end).is_ok());
    text
}

const RUN: &[u8] = b"dali_commission run --records site.db 0-63";

const FRESH: &[u8] = b"dali_commission run --records site.db --start fresh 0-63";

const ONCE: &[u8] = b"dali_commission run --records site.db --idle-passes 1 0-63";

const CHECK: &[u8] = b"dali_commission check --records site.db";

const FIVE: [(u8, u8, u32); 4] = [
    (1, 5, 0x123456),
    (2, 5, 0x123456),
    (1, 7, 0xABCDEF),
    (2, 7, 0xABCDEF),
];

#[test]
fn words_that_ask_for_nothing_are_refused(rt: HostRuntime) {
    for (words, said) in [
        (
            b"dali_commission".as_slice(),
            "Usage: dali_commission <COMMAND>",
        ),
        (
            b"dali_commission wa\x1B[31mlk\x07".as_slice(),
            "'wa\\x1B[31mlk\\x07'",
        ),
        (b"dali_commission run 0-63".as_slice(), "--records <FILE>"),
        (
            b"dali_commission run --records site.db".as_slice(),
            "<BLOCK>",
        ),
        (
            b"dali_commission run --records site.db 0-64".as_slice(),
            "'0-64'",
        ),
        (b"dali_commission run --records site.db 7".as_slice(), "'7'"),
        (
            b"dali_commission run --records site.db 9-3".as_slice(),
            "'9-3'",
        ),
        (
            b"dali_commission run --records site.db --idle-passes 0 0-63".as_slice(),
            "'0'",
        ),
        (
            b"dali_commission run --records site.db --others 9-20 0-15".as_slice(),
            "in common",
        ),
        (
            b"dali_commission run --records site.db --driver x 0-15".as_slice(),
            "launcher",
        ),
        (
            b"dali_commission run --records site.db --start census 0-63".as_slice(),
            "'census'",
        ),
        (b"dali_commission identify 64".as_slice(), "'64'"),
        (
            b"dali_commission identify 5 --driver x".as_slice(),
            "launcher",
        ),
        (
            b"dali_commission table --records site.db --csv --json".as_slice(),
            "--csv",
        ),
        (
            b"dali_commission \xFF".as_slice(),
            "error: an argument is not UTF-8\n",
        ),
    ] {
        ends(&rt, words, &Shelf::of(&[]), "", (2, 0, said));
    }
}

/// What is said last if no gear was heard.
const NOBODY: &str = "no gear answered: is the interface connected, is the bus powered?\n";

#[test]
fn a_bus_on_which_nobody_answers_is_told(rt: HostRuntime) {
    let silent = answers(&rt, "", 627);
    let said = "0 gear were enrolled, 0 are in the table; 627 frames\n";
    ends(&rt, RUN, &Shelf::of(&[]), &silent, (10, 627, said));
    ends(&rt, RUN, &Shelf::of(&[]), &silent, (10, 627, NOBODY));
    let said = "0 gear were enrolled, 0 are in the table; 209 frames\n";
    ends(&rt, ONCE, &Shelf::of(&[]), &silent, (10, 209, said));
    // The two gear of the table are asked too, three times each, and neither answers.
    let silent = answers(&rt, "", 227);
    ends(&rt, ONCE, &Shelf::of(&FIVE), &silent, (10, 227, NOBODY));
}

/// No gear is heard in the only pass; then the second gear of the table answers.
#[test]
fn a_bus_whose_gear_are_all_in_the_table_is_done(rt: HostRuntime) {
    let silent = answers(&rt, "", 218);
    let mut heard = answers(&rt, &silent, 0);
    assert!(rt;
        heard
            .push_str(
                "byte AB\nbyte CD\nbyte EF\nsilence\nsilence\nsilence\nsilence\nsilence\nsilence\n"
            )
            .is_ok()
    );
    let said = "0 gear were enrolled, 2 are in the table; 227 frames\n";
    ends(&rt, ONCE, &Shelf::of(&FIVE), &heard, (0, 227, said));
}

#[test]
fn an_empty_bus_with_new_gear_alone_is_left_after_three_passes(rt: HostRuntime) {
    let silent = answers(&rt, "", 606);
    let said = "0 gear were enrolled, 0 are in the table; 606 frames\n";
    ends(&rt, FRESH, &Shelf::of(&[]), &silent, (10, 606, said));
    let words =
        b"dali_commission run --records site.db --start fresh --idle-passes 1 --others 16-63 --quiet 0-15";
    ends(&rt, words, &Shelf::of(&[]), &silent, (10, 154, said_once()));
}

/// A gear that has short address 0 is asked in the first run, and named by the table in the second one.
#[test]
fn a_survey_enrols_who_tells_its_random_address(rt: HostRuntime) {
    let told = answers_there(&rt, "byte 12\nbyte 34\nbyte 56\n", 412);
    let shelf = Shelf::of(&[]);
    let said = "1 gear were enrolled, 1 are in the table; 424 frames\n";
    ends(&rt, ONCE, &shelf, &told, (0, 424, said));
    assert!(rt; shelf.enrolled() == Some(1));
}

/// From some frame on the interface hears silence, since the bus has no power any more.
#[test]
fn a_bus_that_fails_on_the_way_is_told(rt: HostRuntime) {
    let told = answers(&rt, "byte 12\nbyte 34\nbyte 56\n", 997);
    ends(&rt, ONCE, &Shelf::of(&[]), &told, (10, 1000, NOBODY));
    let left = answers(&rt, "byte 12\ndamaged\n", 782);
    ends(&rt, ONCE, &Shelf::of(&[]), &left, (10, 784, NOBODY));
}

#[test]
fn a_survey_leaves_alone_who_does_not_tell_its_random_address(rt: HostRuntime) {
    let two = "byte 12\nbyte 34\nbyte 56\nbyte 12\nbyte 34\nbyte 57\nsilence\nsilence\nsilence\n";
    let one = "byte 12\nbyte 34\nbyte 56\nsilence\nsilence\nsilence\nsilence\nsilence\nsilence\n";
    let none = answers(&rt, "", 9);
    for (first, silent, lines) in [
        ("damaged\n", 206, 207),
        ("byte 12\ndamaged\n", 206, 208),
        ("byte 12\nbyte 34\n", 207, 209),
        ("byte FF\nbyte FF\nbyte FF\n", 206, 209),
    ] {
        // It is asked again at last: it is said that gear share the address only if two were heard.
        for (again, status, said) in [
            (two, 13, LEFT_ALONE),
            (one, 15, LEFT_ALONE),
            (none.as_str(), 0, "0 gear were enrolled"),
        ] {
            let shelf = Shelf::of(&[]);
            let mut heard = answers_there(&rt, first, silent);
            assert!(rt; heard.push_str(again).is_ok());
            ends(&rt, ONCE, &shelf, &heard, (status, lines + 18, said));
            assert!(rt; shelf.enrolled() == Some(0));
        }
    }
}

const LEFT_ALONE: &str = "\
0 - a gear answers, but its random address was not heard; left alone
0 gear were enrolled, 0 are in the table; ";

/// What is said of one run that found no gear.
fn said_once() -> &'static str {
    "0 gear were enrolled, 0 are in the table; 154 frames\n"
}

#[test]
fn nothing_is_begun_beside_new_gear_where_a_stranger_answers(rt: HostRuntime) {
    let stranger = answers(&rt, "byte 12\nbyte 34\nbyte 56\n", 573);
    ends(
        &rt,
        FRESH,
        &Shelf::of(&[]),
        &stranger,
        (1, 576, "0 123456 stranger\nWhat can be done:\n"),
    );
    let noise = "damaged\nsilence\nsilence\n";
    let once = answers_there(&rt, noise, 603);
    ends(
        &rt,
        FRESH,
        &Shelf::of(&[]),
        &once,
        (0, 615, "0 gear were enrolled"),
    );
    // What three questions leave unclear is asked nine times more.
    let mut thrice = answers(
        &rt,
        "damaged\nsilence\nsilence\ndamaged\nsilence\nsilence\nsilence\nsilence\ndamaged\n",
        0,
    );
    for _ in 0..8u8 {
        assert!(rt; thrice.push_str("damaged\nsilence\nsilence\n").is_ok());
    }
    assert!(rt; thrice.push_str("silence\ndamaged\nsilence\n").is_ok());
    let thrice = answers(&rt, &thrice, 567);
    let said = "0 - several strangers, or a disturbed bus\n";
    ends(&rt, FRESH, &Shelf::of(&[]), &thrice, (1, 603, said));
    let unclear = answers(&rt, "byte 12\n", 602);
    let said = "0 - strangers that were not understood\n";
    ends(&rt, FRESH, &Shelf::of(&[]), &unclear, (1, 603, said));
    // One byte that is damaged each of these times says that several answer.
    let mut each = answers(&rt, "", 0);
    for _ in 0..12u8 {
        assert!(rt; each.push_str("byte 12\ndamaged\nbyte 56\n").is_ok());
    }
    let each = answers(&rt, &each, 567);
    let said = "0 - several strangers\n";
    ends(&rt, FRESH, &Shelf::of(&[]), &each, (1, 603, said));
    let two = answers(
        &rt,
        "byte 12\nbyte 34\nbyte 56\nbyte 12\nbyte 34\nbyte 57\n",
        570,
    );
    ends(
        &rt,
        FRESH,
        &Shelf::of(&[]),
        &two,
        (1, 576, "0 - several strangers\n"),
    );
}

#[test]
fn a_bus_that_loses_all_is_given_up(rt: HostRuntime) {
    let lost = "lapsed\nlapsed\ndestroyed\nlapsed\nlapsed\nlapsed\nlapsed\nlapsed\n";
    ends(&rt, RUN, &Shelf::of(&[]), lost, (7, 8, "ended: gave-up\n"));
    ends(
        &rt,
        FRESH,
        &Shelf::of(&[]),
        lost,
        (7, 8, "ended: gave-up\n"),
    );
}

#[test]
fn a_driver_that_fails_is_said_with_its_line(rt: HostRuntime) {
    ends(
        &rt,
        RUN,
        &Shelf::of(&[]),
        "silence\nhe\x07llo\n",
        (
            4,
            2,
            "the driver wrote 'he\\x07llo'\nerror: line 2 of the driver: bad line\n",
        ),
    );
    ends(
        &rt,
        RUN,
        &Shelf::of(&[]),
        "silence\n",
        (4, 2, "error: line 2 of the driver: end of input\n"),
    );
}

#[test]
fn records_that_cannot_be_had_are_said(rt: HostRuntime) {
    for (fault, said) in [
        (
            StoreFault::Locked,
            "error: site.db: another program has the file open\n",
        ),
        (
            StoreFault::Foreign,
            "error: site.db: it is no file of records, and is left as it is\n",
        ),
        (
            StoreFault::NoFolder,
            "error: site.db: its folder is not there\n",
        ),
        (
            StoreFault::ReadOnly,
            "error: site.db: its disk cannot be written\n",
        ),
        (
            StoreFault::Forbidden,
            "error: site.db: the system refuses to read or write it\n",
        ),
        (StoreFault::Full, "error: site.db: its disk is full\n"),
        (
            StoreFault::Damaged,
            "error: site.db: it is a damaged database\n",
        ),
        (
            StoreFault::CannotOpen,
            "error: site.db: it cannot be opened\n",
        ),
    ] {
        ends(&rt, RUN, &Shelf::refused(fault), "", (5, 0, said));
    }
    let outside = b"dali_commission run --records site.db 0-6";
    let said = "error: short address 7 is reserved, and lies outside of the block\n";
    ends(&rt, outside, &Shelf::of(&FIVE), "", (5, 0, said));
    let missing = b"dali_commission table --records other.db";
    ends(
        &rt,
        missing,
        &Shelf::of(&FIVE),
        "",
        (5, 0, "error: other.db: there is no such file of records\n"),
    );
    let twice = Shelf::of(&[(1, 5, 1), (1, 5, 2)]);
    ends(
        &rt,
        RUN,
        &twice,
        "",
        (5, 0, "error: site.db: the store holds no list of records\n"),
    );
}

#[test]
fn a_check_says_where_each_gear_stands(rt: HostRuntime) {
    let silent = answers(&rt, "", 586);
    let said =
        "5 123456 missing\n7 ABCDEF missing\n2 in the table, 2 of them not there; 0 strangers";
    ends(&rt, CHECK, &Shelf::of(&FIVE), &silent, (10, 586, said));
    let alone = b"dali_commission check";
    ends(&rt, alone, &Shelf::of(&FIVE), &silent, (10, 586, NOBODY));
    let first = answers(&rt, "byte 12\nbyte 34\nbyte 57\n", 583);
    let beside = b"dali_commission check --records site.db --others 4-9";
    let said = "0 123457 stranger\n2 in the table, 0 of them not there; 1 strangers; 2 addresses";
    ends(&rt, beside, &Shelf::of(&FIVE), &first, (1, 532, said));
    let five = [(1, 0, 0x123456), (2, 0, 0x123456)];
    let said = "0 123456 another gear answers: 123457\n";
    ends(&rt, CHECK, &Shelf::of(&five), &first, (1, 586, said));
    let there = answers(&rt, "byte 12\nbyte 34\nbyte 56\n", 583);
    let said = "0 123456 there\n1 in the table, 0 of them";
    ends(&rt, CHECK, &Shelf::of(&five), &there, (0, 586, said));
    let said = "0 123456 is reserved, and not in the table; a gear answers\n0 in the table";
    let unfinished = [(1, 0, 0x123456)];
    ends(&rt, CHECK, &Shelf::of(&unfinished), &there, (1, 586, said));
}

/// They are woken once all short addresses were asked, and asked under `FFFFFF`. A lost frame begins all that again.
#[test]
fn a_check_tells_of_gear_without_short_address(rt: HostRuntime) {
    let five = [(1, 0, 0x123456), (2, 0, 0x123456)];
    let there = answers(&rt, "byte 12\nbyte 34\nbyte 56\n", 573);
    let said = "0 123456 there\ngear without short address are there: run\n";
    let words = b"dali_commission check --records site.db --json";
    for (asked, frames) in [
        (
            "silence\nsilence\nsilence\nsilence\nsilence\nsilence\nsilence\ndamaged\nsilence\nsilence\n",
            586,
        ),
        (
            "silence\nlapsed\nsilence\nsilence\nsilence\nsilence\nsilence\nsilence\n\
            byte FF\nsilence\nsilence\nsilence\n",
            588,
        ),
    ] {
        let mut heard = answers(&rt, &there, 0);
        assert!(rt; heard.push_str(asked).is_ok());
        ends(&rt, CHECK, &Shelf::of(&five), &heard, (1, frames, said));
        let desk = Desk::new(rt.alloc(), words, &heard);
        assert!(rt; call(&desk, &mut &Shelf::of(&five)).is_err());
        let put =
            "put 3 A100 tell\nput 1 A5FF tell pair 1\nput 1 A5FF tell pair 2\nput 3 B1FF tell\nput 1 B5FF tell\n\
            put 1 B3FF tell\nput 1 A900 ask\nput 1 A900 ask\nput 1 A900 ask\nput 3 A100 tell\n\
            {\"end\":\"not-as-recorded\",\"status\":1,";
        assert!(rt; desk.has_written(put));
        assert!(rt; desk.has_written("\"strangers\":[],\"unaddressed\":true}\n"));
    }
    let lost = answers(&rt, &there, 0);
    let mut lost = lost;
    for _ in 0..8u8 {
        assert!(rt; lost.push_str("lapsed\n").is_ok());
    }
    ends(
        &rt,
        CHECK,
        &Shelf::of(&five),
        &lost,
        (7, 584, "ended: gave-up\n"),
    );
}

#[test]
fn what_a_check_found_is_an_object_of_json(rt: HostRuntime) {
    let words = b"dali_commission check --records site.db --json";
    let first =
        "byte 12\nbyte 34\nbyte 57\nsilence\nsilence\nsilence\nsilence\nsilence\nsilence\nbyte 01\n";
    let heard = answers(&rt, first, 603);
    let records = [(1, 0, 0x123456), (2, 0, 0x123456), (2, 5, 0xABCDEF)];
    let desk = Desk::new(rt.alloc(), words, &heard);
    assert!(rt; call(&desk, &mut &Shelf::of(&records)).is_err());
    assert!(rt;
        desk.has_written(
            "{\"end\":\"unclear\",\"status\":15,\"frames\":613,\"enrolled\":0,\"table\":[\
        {\"address\":0,\"random\":\"123456\",\"given\":true},{\"address\":5,\"random\":\"ABCDEF\",\"given\":false}],\
        \"left_alone\":[],\"missing\":[5],\"strangers\":[{\"address\":0,\"is\":\"another\",\"random\":\"123457\"},\
        {\"address\":1,\"is\":\"unclear-strangers\",\"random\":null}],\"unaddressed\":false}\n"
        )
    );
}

#[test]
fn what_a_run_came_to_is_an_object_of_json(rt: HostRuntime) {
    let words = b"dali_commission run --records site.db --idle-passes 1 --json 0-63";
    let heard = answers_there(&rt, "byte 12\nbyte 34\nbyte 56\ndamaged\n", 409);
    let desk = Desk::new(rt.alloc(), words, &heard);
    assert!(rt; call(&desk, &mut &Shelf::of(&[])).is_ok());
    assert!(rt;
        desk.has_written(
            "\"enrolled\":1,\"table\":[{\"address\":0,\"random\":\"123456\",\"given\":false}],\
        \"left_alone\":[],\"missing\":[],\"strangers\":[],\"unaddressed\":null}\n"
        )
    );
    assert!(rt; desk.has_written("{\"end\":\"all-found\",\"status\":0,\"frames\":"));
    let refused = Desk::new(rt.alloc(), words, "");
    let shelf = Shelf::refused(StoreFault::Locked);
    assert!(rt; call(&refused, &mut &shelf).is_err());
    assert!(rt;
        refused.has_written(
            "{\"end\":\"records\",\"status\":5,\"frames\":0,\"enrolled\":0,\"table\":[],"
        )
    );
}

#[test]
fn a_table_has_what_is_enrolled(rt: HostRuntime) {
    for (words, written) in [
        (
            b"dali_commission table --records site.db".as_slice(),
            "5 123456\n7 ABCDEF\n",
        ),
        (
            b"dali_commission table --records site.db --csv".as_slice(),
            "address,random\n5,0x123456\n7,0xABCDEF\n",
        ),
        (
            b"dali_commission table --records site.db --json".as_slice(),
            "[\n{\"address\":5,\"random\":\"123456\"},\n{\"address\":7,\"random\":\"ABCDEF\"}\n]\n",
        ),
    ] {
        let desk = Desk::new(rt.alloc(), words, "");
        let shelf = Shelf::of(&FIVE);
        assert!(rt; call(&desk, &mut &shelf).is_ok());
        assert!(rt; desk.has_written(written));
        assert!(rt; shelf.enrolled() == Some(2));
    }
}

#[test]
fn a_gear_shows_itself(rt: HostRuntime) {
    let words = b"dali_commission identify 5";
    let there = answers(&rt, "byte 12\n", 8);
    let mut heard = answers(&rt, &there, 0);
    assert!(rt; heard.push_str("silence\nlapsed\nsilence\n").is_ok());
    // The driver ends while the gear is dark: the line that makes it bright is written all the same.
    let desk = Desk::new(rt.alloc(), words, &heard);
    assert!(rt; call(&desk, &mut &Shelf::of(&[])).is_err());
    assert!(rt;
        desk.has_written(
            "put 2 0AFE tell\nput 2 0A00 tell\nput 2 0A00 tell\nput 2 0AFE tell\nput 2 0AFE tell\n"
        )
    );
    let whole = answers(&rt, "byte 12\n", 19);
    ends(&rt, words, &Shelf::of(&[]), &whole, (0, 20, ""));
    let nobody = answers(&rt, "", 9);
    let said = "no gear answers at short address 5\n";
    ends(&rt, words, &Shelf::of(&[]), &nobody, (10, 9, said));
}

#[test]
fn what_a_gear_showed_is_an_object_of_json(rt: HostRuntime) {
    let words = b"dali_commission identify 5 --json";
    let whole = answers(&rt, "byte 12\n", 19);
    for (heard, text) in [
        (
            whole.as_str(),
            "{\"end\":\"shown\",\"status\":0,\"frames\":20,\"enrolled\":0,\"table\":[],",
        ),
        (
            answers(&rt, "", 9).as_str(),
            "{\"end\":\"nobody-answered\",\"status\":10,\"frames\":9,\"enrolled\":0,\"table\":[],",
        ),
        (
            "byte 12\nbyte\n",
            "{\"end\":\"driver\",\"status\":4,\"frames\":2,\"enrolled\":0,\"table\":[],",
        ),
    ] {
        let desk = Desk::new(rt.alloc(), words, heard);
        let _ = call(&desk, &mut &Shelf::of(&[]));
        assert!(rt; desk.has_written(text));
    }
}

#[test]
fn a_machine_says_why_it_gave_up_or_found_a_conflict(rt: HostRuntime) {
    let lost = answers(
        &rt,
        "lapsed\nlapsed\nlapsed\nlapsed\nlapsed\nlapsed\nlapsed\nlapsed\n",
        0,
    );
    let said = "eight times in a row: the frames to short address 0\n0 gear were enrolled";
    ends(&rt, RUN, &Shelf::of(&[]), &lost, (7, 8, said));
    // The gear under short address 0 tells the random address that the table has under 5.
    let told = answers(&rt, "byte 12\nbyte 34\nbyte 56\n", 0);
    let said = "random address 123456: it answers at short address 0, but the table has it at 5\n";
    ends(&rt, RUN, &Shelf::of(&FIVE), &told, (8, 3, said));
    // Addresses 0 to 4 are silent, and the gear under 5 tells another random address than the table has there.
    let mut other = answers(&rt, "", 15);
    assert!(rt; other.push_str("byte AA\nbyte BB\nbyte CC\n").is_ok());
    let said =
        "short address 5: a gear with random address AABBCC answers, but the table has 123456 there\n";
    ends(&rt, RUN, &Shelf::of(&FIVE), &other, (8, 18, said));
}

/// No gear is heard in the census. Then each search ends at the random address 000000, and none tells a short address.
#[test]
fn searches_that_lead_to_nobody_are_given_up(rt: HostRuntime) {
    let mut heard = answers(&rt, "", 581);
    for _ in 0..16u8 {
        for _ in 0..25u8 {
            assert!(rt;
                heard
                    .push_str("silence\nsilence\nsilence\nbyte FF\n")
                    .is_ok()
            );
        }
        assert!(rt;
            heard
                .push_str("silence\nsilence\nsilence\nsilence\n")
                .is_ok()
        );
    }
    assert!(rt; heard.push_str("silence\n").is_ok());
    // At last no gear answers at a short address, and one that has none does.
    let silent = answers(&rt, &heard, 582);
    let mut there = answers(&rt, &silent, 0);
    assert!(rt;
        there
            .push_str("byte FF\nsilence\nsilence\nsilence\n")
            .is_ok()
    );
    let said = "too many searches in a row led to a gear that did not answer; \
        the last frames were under the search address 000000\n";
    ends(&rt, FRESH, &Shelf::of(&[]), &there, (7, 2832, said));
    // If none does, the bus has failed.
    let failed = answers(&rt, &silent, 4);
    let said = "0 gear were enrolled, 0 are in the table; 2832 frames\nno gear answered";
    ends(&rt, FRESH, &Shelf::of(&[]), &failed, (10, 2832, said));
}
