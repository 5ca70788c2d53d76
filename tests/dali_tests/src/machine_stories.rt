//! Stories of a machine: of its searches, of frames that are lost, and of its visits. `moments` says how one is
//! written.

use super::moments::all_play;
use std::test::Fail;

/// Stories of searches.
const SEARCHES: &str = "
= an empty bus is all found
- > not-due; @opening; start > not-due; committed > not-due; @probe; - > 3 A100; - > done all-found
start > not-due; - > not-due; destroyed > not-due; lapsed > not-due; committed > not-due; failed > not-due
= YES is a yes
@opening; @probe; FF > 3 B17F
= damage is a yes
@opening; @probe; damaged > 3 B17F
= another byte is a yes
@opening; @probe; 02 > 3 B17F
= gear without address are given the least address
searches start 105; @found; FF > reserve 0 000000; - > not-due; committed > 3 B100; - > 1 B300; - > 1 B500
- > 1 BB00; FF > 1 B701; - > 1 BB00; 01 > 1 AB00; - > enrol 0 000000; committed > 3 B1FF
= gear without address are given the least free address
block 1-3; has reserve 1 123456; has enrol 1 123456; searches start 105; @found; FF > reserve 2 000000
- > not-due; committed > 3 B100; - > 1 B300; - > 1 B500; - > 1 BB00; FF > 1 B705; - > 1 BB00; 05 > 1 AB00
- > enrol 2 000000; committed > 3 B1FF
= a full block closes
block 7-7; has reserve 7 123456; has enrol 7 123456; searches start 105; @found; FF > 3 A100
- > done block-full
= silence ends a visit of a search
# An unclear answer ends a visit of a search, and another search follows.
searches start 105; @found; - > 3 B1FF
= damage ends a visit of a search
searches start 105; @found; damaged > 3 B1FF
= a byte that is no address ends a visit of a search
searches start 105; @found; 02 > 3 B1FF
= another byte that is no address ends a visit of a search
searches start 105; @found; 81 > 3 B1FF
= enrolled gear with its own address is found again
# With its own address a gear that is enrolled is found again, and the search goes on. With another one the
# machine halts.
has enrol 2 000000; searches start 105; @found; 05 > 1 AB00; - > 3 B1FF
= enrolled gear with another address is a conflict
has enrol 2 000000; searches start 105; @found; 03 > 1 AB00; - > halt conflict; - > not-due; start > not-due
= a reservation that is not kept halts
searches start 105; @found; FF > reserve 0 000000; failed > halt store; start > not-due
= sixteen silent searches give up
# An opening, and sixteen times a search of 25 probes and a visit, 104 frames. A silent visit of the start, and
# the three queries after it, do not count.
searches start 1669; - > 3 A100; - > done gave-up
= a silent visit of the start is no silent search
has reserve 0 123456; searches start 1676; - > 3 A100; - > done gave-up
";

#[test]
fn searches_go_on_by_what_is_heard(rt: HostRuntime) -> Result<(), Fail> {
    all_play(&rt, SEARCHES)
}

/// Stories of frames that are lost.
const LOSSES: &str = "
= the eighth lost frame in a row gives up
@begun; 7 x destroyed > 3 A100; destroyed > done gave-up
= after a whole opening the count begins anew
@begun; 7 x destroyed > 3 A100; @opened; - > 3 B1FF; 7 x lapsed > 3 B1FF; lapsed > done gave-up; - > not-due
= destroyed and lapsed frames count alike
@begun; destroyed > 3 A100; lapsed > 3 A100; destroyed > 3 A100; lapsed > 3 A100; destroyed > 3 A100
lapsed > 3 A100; destroyed > 3 A100; destroyed > done gave-up
= a destroyed frame begins a close again
@opening; @probe; - > 3 A100; destroyed > 3 A100; - > done all-found
= a lapsed frame begins a close again
@opening; @probe; - > 3 A100; lapsed > 3 A100; - > done all-found
";

#[test]
fn eight_lost_frames_in_a_row_give_up(rt: HostRuntime) -> Result<(), Fail> {
    all_play(&rt, LOSSES)
}

/// Stories of visits at the start.
const VISITS: &str = "
= gear of a visit with another address is enrolled with it
# The first query decides a visit.
has reserve 0 123456; @visit; 05 > 1 AB00; - > enrol 2 123456; committed > release 0 123456; committed > 3 A100
= gear of a visit without address is given the reserved one
has reserve 0 123456; @visit; @given; - > enrol 0 123456; committed > 3 A100
= an enrolment that is not kept halts
has reserve 0 123456; @visit; 05 > 1 AB00; - > enrol 2 123456; failed > halt store; committed > not-due
= a release that is not kept halts
has reserve 0 123456; @visit; 05 > 1 AB00; - > enrol 2 123456; committed > release 0 123456; failed > halt store
committed > not-due
= unfinished reservations are visited by address
has reserve 3 000003; has reserve 1 000001; has reserve 2 000002; has enrol 2 000002; start > 3 B100; - > 1 B300
- > 1 B501; - > 1 BB00; - > 3 03C2; - > 1 03C3; - > 1 03C4; - > 3 B100; - > 1 B300; - > 1 B503; - > 1 BB00
- > 3 07C2; - > 1 07C3; - > 1 07C4; - > 3 A100
";

#[test]
fn visits_go_on_by_what_is_heard(rt: HostRuntime) -> Result<(), Fail> {
    all_play(&rt, VISITS)
}

/// Stories of visits whose answers are unclear.
const UNCLEAR: &str = "
= damage ends a visit
# An unclear answer ends a visit of the start, and the opening follows.
has reserve 0 123456; @visit; damaged > 3 A100
= a byte that is no address ends a visit
has reserve 0 123456; @visit; 02 > 3 A100
= another byte that is no address ends a visit
has reserve 0 123456; @visit; 81 > 3 A100
= silence does not confirm an address
# The second query confirms the address that was given alone.
has reserve 0 123456; @visit; FF > 1 B701; - > 1 BB00; - > 3 A100
= damage does not confirm an address
has reserve 0 123456; @visit; FF > 1 B701; - > 1 BB00; damaged > 3 A100
= YES does not confirm an address
has reserve 0 123456; @visit; FF > 1 B701; - > 1 BB00; FF > 3 A100
= a byte that is no address does not confirm one
has reserve 0 123456; @visit; FF > 1 B701; - > 1 BB00; 02 > 3 A100
= another address does not confirm one
has reserve 0 123456; @visit; FF > 1 B701; - > 1 BB00; 03 > 3 A100
";

#[test]
fn an_unclear_answer_gives_nothing(rt: HostRuntime) -> Result<(), Fail> {
    all_play(&rt, UNCLEAR)
}

/// Stories of gear that is heard under another address, or with another number.
const NAMED: &str = "
= the number visited is enrolled
# The gear of a visit does not answer, and the gear with its address is asked for its number. It is enrolled if
# the three bytes are the number visited. With another number the machine goes on to the opening, also if its
# table has that number for another address.
has reserve 1 123456; @visit; - > 3 03C2; 12 > 1 03C3; 34 > 1 03C4; 56 > enrol 1 123456
= another high byte is another gear
has reserve 1 123456; @visit; - > 3 03C2; 13 > 1 03C3; 34 > 1 03C4; 56 > 3 A100
= another middle byte is another gear
has reserve 1 123456; @visit; - > 3 03C2; 12 > 1 03C3; 35 > 1 03C4; 56 > 3 A100
= another low byte is another gear
has reserve 1 123456; @visit; - > 3 03C2; 12 > 1 03C3; 34 > 1 03C4; 57 > 3 A100
= the number of another gear of the table is another gear
has reserve 1 123456; has enrol 5 133456; @visit; - > 3 03C2; 13 > 1 03C3; 34 > 1 03C4; 56 > 3 A100
= the address of another gear of the own block is a conflict
# A finding is settled against the table: it has another number for the address, or nothing of both.
has reserve 1 123456; has enrol 0 654321; @visit; 01 > 1 AB00; - > halt conflict
= the address of another gear is a conflict
has reserve 1 123456; has enrol 5 654321; @visit; 0B > 1 AB00; - > halt conflict
= an address that the table does not have is enrolled
has reserve 1 123456; has enrol 5 654321; @visit; 07 > 1 AB00; - > enrol 3 123456
";

#[test]
fn what_is_heard_is_settled_against_the_table(rt: HostRuntime) -> Result<(), Fail> {
    all_play(&rt, NAMED)
}
