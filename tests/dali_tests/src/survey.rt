//! A machine that begins by a survey: what it asks, which gear it enrols, what it gives and what it leaves alone.
//! `moments` says how a story is written.

use super::moments::{SILENCE, Told, YES, all_play, machine_of, ordered};
use super::values::Ordered::{Done, Put};
use super::values::{same, short};
use dali_script::{End, Input};
use std::test::Fail;

/// Surveys that enrol what is told.
const SURVEYS: &str = "
= silence is asked three times under each address
surveys 192; @called; @once-more; @called; @once-more; - > 3 A100; - > done all-found; survey > not-due
= a roll call is silent, and somebody answers the second one
surveys 192; @called; @once-more; @called; @nobody; @drawn
= the second question of a roll call is answered
surveys 192; @called; @once-more; @nobody; @drawn
= three draws are the most
surveys 192; @called; @nobody; @drawn; @drew-nobody; @drawn; @drew-nobody; @drawn; @drew-nobody; @called
@nobody; - > 3 A100; - > done gave-up
= after three draws no gear is left
surveys 192; @called; @nobody; @drawn; @drew-nobody; @drawn; @drew-nobody; @drawn; @drew-nobody; @called
@once-more; @called; @once-more; - > 3 A100; - > done all-found; survey > not-due
= nobody draws where somebody is heard
surveys 192; @called; @nobody; - > 3 A100; - > 1 A5FF; - > 1 A5FF; - > 1 B1FF; - > 1 B3FE; - > 1 A900
FF > 3 B1FF
= gear that tells a number is enrolled
block 8-9; @told; keeps enrol 0 123456; surveys 193; @called
= another address that is reserved for the number is given back
block 8-9; has reserve 9 123456; @told; keeps enrol 0 123456; keeps release 9 123456; surveys 194; @called
= what the table names is asked only where it is reserved
block 8-9; has enrol 1 111111; has enrol 2 222222; surveys 186; @called
= another number at an address of the table is a conflict
has reserve 0 111111; has enrol 0 111111; survey > 3 01C2; 12 > 1 01C3; 34 > 1 01C4; 56 > halt conflict
";

#[test]
fn surveys_enrol_what_is_told(rt: HostRuntime) -> Result<(), Fail> {
    all_play(&rt, SURVEYS)
}

/// What is not told: an address of a gear whose number is not told is not given.
const UNTOLD: &str = "
= what was damaged is not given
# An address of a gear whose number is not told is not given.
block 0-0; hears 01C2 damaged; surveys 190; @called; @nobody; - > 3 A100; - > done block-full
= what was cut off is not given
block 0-0; hears 01C2 12; surveys 191; @called; @nobody; - > 3 A100; - > done block-full
= what has drawn no number is not given
block 0-0; hears 01C2 FF; hears 01C3 FF; hears 01C4 FF; surveys 192; @called; @nobody; - > 3 A100
- > done block-full
= a question that is lost is asked again
survey > 3 01C2; - > 3 01C2; destroyed > 3 01C2; lapsed > 3 01C2; - > 3 01C2; 12 > 1 01C3; destroyed > 3 01C2
damaged > 3 03C2; start > not-due
= eight lost questions in a row give up
survey > 3 01C2; 7 x destroyed > 3 01C2; destroyed > done gave-up
";

#[test]
fn surveys_leave_alone_what_is_not_told(rt: HostRuntime) -> Result<(), Fail> {
    all_play(&rt, UNTOLD)
}

/// A byte is heard, and then the question is lost and no gear answers any more: a gear was there that answered once.
#[test]
fn who_answered_once_was_heard(rt: HostRuntime) -> Result<(), Fail> {
    let mut told = Told::new(rt.alloc())?;
    let heard =
        "survey > 3 01C2; 12 > 1 01C3; destroyed > 3 01C2; - > 3 01C2; - > 3 01C2; - > 3 03C2";
    told.plays(&rt, "heard", heard)?;
    same(&rt, &told.machine.heard().has(short(0)?), &true);
    same(&rt, &told.machine.heard().has(short(1)?), &false);
    Ok(())
}

/// 0 is reserved for the gear at 000000, which has no short address, and the machine has found it.
const RESERVED: &str = "
= the own address is given
block 0-1; has reserve 0 000000; surveys 192; @called; searches FF 69; @found; FF > 1 B701
= another address is given
block 0-1; has reserve 0 000000; hears 01C2 damaged; surveys 190; @called; searches FF 69; @found; FF > 3 A100
@opened
= no address is left to give
block 0-0; has reserve 0 000000; hears 01C2 damaged; surveys 190; @called; searches FF 69; @found; FF > 3 A100
- > done block-full
";

#[test]
fn an_address_of_somebody_else_is_not_given_by_a_reservation(rt: HostRuntime) -> Result<(), Fail> {
    all_play(&rt, RESERVED)
}

/// Hunts after a roll call. While frames are searched each COMPARE is answered YES.
const HUNTS: &str = "
= asks on
surveys 192; @called; searches FF 4
# FFFFFE and 7FFFFF are in one transaction, which then has room for one frame more, and the next question needs
# two. A damaged answer is a yes: no gear is up to 3FFFFF, some is up to 5FFFFF, and none up to 4FFFFF. Then the
# transaction is full.
FF > 1 B17F; - > 1 B5FF; - > 1 A900; FF > 3 B13F; - > 1 B5FF; - > 1 B3FF; - > 1 A900; - > 1 B15F; - > 1 A900
damaged > 1 B14F; - > 1 A900; - > 3 B157; - > 1 B5FF; - > 1 B3FF; - > 1 A900; survey > not-due
= two bytes change
surveys 192; @called; searches FF 27
# No gear is up to 00FFFF: two bytes change, the high one is sent before the middle one.
- > 1 B101; - > 1 B37F; - > 1 A900
searches FF 20
# Some gear is up to 0101FF, and none up to 0100FF: the low byte is sent before the middle one.
- > 1 B57F; - > 1 B301; - > 1 A900; FF > 3 B101; - > 1 B53F; - > 1 B301; - > 1 A900
= a question is lost
surveys 192; @called; searches FF 4
# A frame is lost: the question that it was for begins again, in a new transaction, and so does the next one that
# is lost. What was answered stays.
FF > 1 B17F; lapsed > 3 B17F; - > 1 B5FF; destroyed > 3 B17F; - > 1 B5FF; - > 1 B3FF; - > 1 A900
destroyed > 3 B17F; - > 1 B5FF; - > 1 B3FF; - > 1 A900
# After it there is room for four frames.
FF > 1 B13F; - > 1 A900; FF > 1 B11F
= begun anew
surveys 192; @called; searches FF 69
# The gear at 000000 has short address 0. The search goes on above it, with a step up to 000001, finds gear there,
# and the visit hears nothing.
FF > 3 B100; - > 1 B300; - > 1 B500; - > 1 BB00; 01 > 1 AB00; - > enrol 0 000000; committed > 3 B100; - > 1 B501
- > 1 B300; - > 1 A900; FF > 3 B100; - > 1 B300; - > 1 B501; - > 1 BB00
# So it begins anew: it asks first whether gear is up to 000000, the greatest number that was found; then one,
# two, four and eight numbers further; and then twice under FFFFFE. It had found gear, so the roll is called.
- > 3 B100; - > 1 B500; - > 1 B300; - > 1 A900; - > 1 B501; - > 1 A900; - > 1 B503; - > 1 A900; - > 3 B100
- > 1 B507; - > 1 B300; - > 1 A900; - > 1 B50F; - > 1 A900; - > 3 B1FF; - > 1 B5FE; - > 1 B3FF; - > 1 A900
- > 1 A900; - > 3 A100
= a first visit that heard nothing
surveys 192; @called; searches FF 69; @found
# Before any gear was found it begins anew as it began.
- > 3 B1FF; - > 1 B5FE; - > 1 B3FF; - > 1 A900
= passed over
surveys 192; @called; searches FF 69; @found
# Before any gear was found it begins anew as it began.
- > 3 B1FF; - > 1 B5FE; - > 1 B3FF; - > 1 A900
searches FF 65; @found
# The visit of 000000 fails once more: it is passed over, and the search goes on above it.
- > 3 B100; - > 1 B300; - > 1 B500; - > 1 AB00; - > 3 B100; - > 1 B501; - > 1 B300; - > 1 A900
= a no and a yes
surveys 192; @called; searches FF 4
# A no under FFFFFE, and then a yes: who answered can be at FFFFFE alone.
- > 1 A900; FF > 3 B1FF; - > 1 B3FF; - > 1 B5FE; - > 1 BB00; survey > not-due
";

#[test]
fn hunts_ask_one_question_after_the_other(rt: HostRuntime) -> Result<(), Fail> {
    all_play(&rt, HUNTS)
}

/// Each COMPARE is heard, and no gear tells a short address. A search that begins anew ends at 000000; the second visit
/// there in a row passes it over. The next one ends at 000001, and after its visit the search begins anew. So one of
/// each three visits passes a gear over.
#[test]
fn the_eightieth_silent_search_in_a_row_gives_up(rt: HostRuntime) -> Result<(), Fail> {
    let mut machine = machine_of((0, 3), &[])?;
    let (mut told, mut visits) = (Input::Survey, 0u32);
    for _ in 0..10_000 {
        told = match ordered(&mut machine, told) {
            Put(_, 0xA900) => YES,
            Put(_, 0xBB00) => {
                visits += 1;
                SILENCE
            }
            Put(..) => SILENCE,
            end => {
                same(&rt, &end, &Done(End::GaveUp));
                same(&rt, &visits, &80);
                let passed = machine.tally().passed;
                same(&rt, &passed.count, &26);
                return Ok(());
            }
        };
    }
    Err(Fail::from("a survey that does not end"))
}
