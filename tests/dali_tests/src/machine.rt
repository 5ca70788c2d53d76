//! The machine's moments: what it orders after each thing that it may be told, also what no true bus tells. Most are
//! stories of `machine_stories`.

use super::moments::{Told, all_play, begun, machine_of, moment, moments};
use super::values::InNumbers::{Enrol, Reserve};
use super::values::{are_pairs, forward, same};
use dali_controller::{Leg, Machine, Purpose, State};
use dali_frame::{Priority, SearchAddress};
use dali_script::{End, Kept, Order};
use dali_search::Search;
use std::process::Abort;
use std::test::Fail;

/// Transactions that begin again if one of their frames is lost: how many items stand before them, those and the
/// transaction, and how it begins.
const AGAIN: [(usize, &str, &str, &str); 3] = [
    (
        0,
        "start > 3 A100; - > 1 A5FF; - > 1 A5FF; - > 1 A700; - > 1 A700",
        "3 A100",
        "1 A5FF",
    ),
    (
        5,
        "start > 3 A100; - > 1 A5FF; - > 1 A5FF; - > 1 A700; - > 1 A700; - > 3 B1FF; - > 1 B3FF; - > 1 B5FE; \
- > 1 A900",
        "3 B1FF",
        "1 B3FF",
    ),
    (
        1,
        "has reserve 0 123456; start > 3 B112; - > 1 B334; - > 1 B556; - > 1 BB00; FF > 1 B701; - > 1 BB00; \
01 > 1 AB00",
        "3 B112",
        "1 B334",
    ),
];

/// Behind each frame of a transaction that frame is lost: the same transaction begins again.
fn begins_again<R: Abort>(
    rt: &R,
    told: &mut Told,
    lost: &str,
    first: &str,
    second: &str,
) -> Result<(), Fail> {
    moment(rt, "a lost frame", &mut told.machine, lost, first)?;
    moment(rt, "a lost frame", &mut told.machine, "-", second)
}

#[test]
fn a_lost_frame_begins_its_transaction_again(rt: HostRuntime) -> Result<(), Fail> {
    for (before, items, first, second) in AGAIN {
        for many in before + 1..=items.split("; ").count() {
            for lost in ["destroyed", "lapsed"] {
                begins_again(&rt, &mut begun(&rt, items, many)?, lost, first, second)?;
            }
        }
    }
    Ok(())
}

/// Stories, and what the machine has reserved and enrolled at their ends.
const LEAVES: &str = "
= the first visit is not committed
has reserve 3 000003; has reserve 1 ABCDEF; has reserve 0 000001; has enrol 0 000001; @first-visit
reserved 3=000003 1=ABCDEF 0=000001; enrolled 0=000001
= the first visit is committed
has reserve 3 000003; has reserve 1 ABCDEF; has reserve 0 000001; has enrol 0 000001; @first-visit; @releasing
reserved 3=000003 0=000001; enrolled 0=000001 5=ABCDEF
= the second visit is not committed
has reserve 3 000003; has reserve 1 ABCDEF; has reserve 0 000001; has enrol 0 000001; @first-visit; @releasing
@second-visit; reserved 3=000003 0=000001; enrolled 0=000001 5=ABCDEF
= both visits are committed
has reserve 3 000003; has reserve 1 ABCDEF; has reserve 0 000001; has enrol 0 000001; @first-visit; @releasing
@second-visit; committed > 3 A100; reserved 3=000003 0=000001; enrolled 0=000001 5=ABCDEF 3=000003
= a reservation of gear with another address is released
# The machine reserves 0 for the gear that it has found, and the gear has address 2 by then.
searches start 105; @found; FF > reserve 0 000000; committed > 3 B100; - > 1 B300; - > 1 B500; - > 1 BB00
05 > 1 AB00; - > enrol 2 000000; committed > release 0 000000; committed > 3 B1FF; reserved; enrolled 2=000000
= nothing is released at the start
# A controller that went down before its release starts with the reservation and the enrolment.
has reserve 0 123456; has enrol 2 123456; start > 3 A100; reserved 0=123456; enrolled 2=123456
";

#[test]
fn machines_keep_what_they_commit(rt: HostRuntime) -> Result<(), Fail> {
    all_play(&rt, LEAVES)
}

#[test]
fn a_machine_gives_its_records_away(rt: HostRuntime) -> Result<(), Fail> {
    let machine = machine_of((0, 3), &[Enrol(2, 0x123456)])?;
    same(&rt, &machine.id(), &0);
    are_pairs(&rt, machine.into_kept().enrolled(), &[(2, 0x123456)]);
    Ok(())
}

/// Parts of a story. A machine that is taken apart and made again after each goes on as it would have.
const MADE_AGAIN: [&str; 6] = [
    "start > 3 B112; - > 1 B334; - > 1 B556; - > 1 BB00",
    "FF > 1 B701; - > 1 BB00; 01 > 1 AB00",
    "- > enrol 0 123456",
    "committed > 3 A100",
    "- > 1 A5FF; - > 1 A5FF; - > 1 A700; - > 1 A700",
    "- > 3 B1FF; - > 1 B3FF; - > 1 B5FE; - > 1 A900",
];

/// The machine that a machine's parts make.
fn made_again(machine: Machine) -> Result<Machine, Fail> {
    let (kept, state) = machine.into_parts();
    Ok(Machine::of(kept, state).ok_or("a machine")?)
}

#[test]
fn a_machine_is_made_again_from_its_parts(rt: HostRuntime) -> Result<(), Fail> {
    let mut machine = made_again(machine_of((0, 3), &[Reserve(0, 0x123456)])?)?;
    for part in MADE_AGAIN {
        moments(&rt, "made again", &mut machine, part)?;
        machine = made_again(machine)?;
    }
    Ok(())
}

/// What is changed of the state of a machine that is in a visit.
#[derive(Clone, Copy)]
enum Change {
    Nothing,
    Tries,
    Silent,
    Opened,
    Purpose,
    Number,
    Last(Option<Order>),
}

/// Changes the state of a machine.
fn make(change: Change, state: &mut State) {
    match change {
        Change::Nothing => {}
        Change::Tries => state.tries = 8,
        Change::Silent => state.silent = 16,
        Change::Opened => state.leg = Leg::Searching(Search::new()),
        Change::Purpose => state.purpose = Purpose::Probing,
        Change::Number => state.number = SearchAddress::MASK,
        Change::Last(order) => state.last = order,
    }
}

/// Whether the records and the state, with a change, are those of a machine.
fn are_whole(parts: (Kept, State), change: Change) -> bool {
    let (kept, mut state) = parts;
    make(change, &mut state);
    Machine::of(kept, state).is_some()
}

/// The records and the state of a machine that has sent the first two bytes of a visit's search address, and puts the
/// third.
fn visiting<R: Abort>(rt: &R) -> Result<(Kept, State), Fail> {
    let mut machine = machine_of((0, 3), &[Reserve(0, 0x123456)])?;
    let items = "start > 3 B112; - > 1 B334; - > 1 B556";
    moments(rt, "a visit", &mut machine, items)?;
    Ok(machine.into_parts())
}

#[test]
fn parts_of_no_machine_are_refused(rt: HostRuntime) -> Result<(), Fail> {
    let low = Order::Put(Priority::LATER, forward(0xB556));
    let high = Order::Put(Priority::FIRST, forward(0xB112));
    let again = Order::Commit(Reserve(0, 0x123456).record()?);
    // A visit after the opening is no other frame.
    for (change, whole) in [
        (Change::Nothing, true),
        (Change::Opened, true),
        (Change::Last(Some(low)), true),
        (Change::Last(Some(Order::Done(End::GaveUp))), true),
        (Change::Tries, false),
        (Change::Silent, false),
        (Change::Purpose, false),
        (Change::Number, false),
        (Change::Last(Some(high)), false),
        (Change::Last(Some(again)), false),
        (Change::Last(None), false),
    ] {
        same(&rt, &are_whole(visiting(&rt)?, change), &whole);
    }
    Ok(())
}
