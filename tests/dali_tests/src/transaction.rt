//! The transactions that a controller may send, position by position.
//!
//! A trace is written as frames, each with what was heard after it if that is not silence: `B10A B3BC B5DE
//! BB00=09`. A byte is two digits, and `??` is a damaged answer.

use super::values::InNumbers::Reserve;
use super::values::{addresses, frame, kept_of, same};
use dali_frame::{Answer, Forward, Random24, SearchAddress, Short};
use dali_script::{Entry, Finding, Kept, Stage, Trace};
use dali_special::Command;
use std::alloc::Global;
use std::process::Abort;
use std::test::Fail;

/// Each special command once, queries of a random address, and frames that are neither.
const FRAMES: &str =
    "A100 A500 A50B A5FF A700 A900 AB00 B10A B3BC B5DE B709 B70B B7FF B909 BB00 09C2 09C3 09C4 0BC3 FE80 FF00";

/// Block 4 to 7, with 4 reserved for `0ABCDE`.
fn one_reserved() -> Result<Kept, Fail> {
    kept_of((4, 7), &[Reserve(4, 0x0ABCDE)])
}

/// Block 4 to 7, and nothing reserved.
fn none_reserved() -> Result<Kept, Fail> {
    kept_of((4, 7), &[])
}

/// What was heard: a byte as two digits, or damage.
fn heard_of(text: &str) -> Answer {
    match u8::from_str_radix(text, 16) {
        Ok(byte) => Answer::Byte(byte),
        Err(_) => Answer::Damaged,
    }
}

/// A frame is sent after those of the trace.
fn send(trace: &mut Trace, kept: &Kept, frame: Forward, heard: Answer) -> Result<(), Fail> {
    if !trace.allows(kept, frame) {
        return Err(Fail::from("a frame that is allowed"));
    }
    let reached = trace.after(frame, Command::read(frame), heard);
    trace.push(frame, heard, reached);
    Ok(())
}

/// A frame, and behind a `=` what was heard after it.
fn entry_of(word: &str) -> Result<Entry, Fail> {
    let (text, heard) = match word.split_once('=') {
        Some((text, heard)) => (text, heard_of(heard)),
        None => (word, Answer::Silence),
    };
    Ok(Entry {
        frame: frame(text.as_bytes())?,
        heard,
    })
}

/// The frame of a word is sent after those of the trace.
fn send_word(trace: &mut Trace, kept: &Kept, word: &str) -> Result<(), Fail> {
    let entry = entry_of(word)?;
    send(trace, kept, entry.frame, entry.heard)
}

/// The trace of these frames.
fn trace_of(kept: &Kept, frames: &str) -> Result<Trace, Fail> {
    let mut trace = Trace::new();
    for word in frames.split_ascii_whitespace() {
        send_word(&mut trace, kept, word)?;
    }
    Ok(trace)
}

/// Whether a trace allows the frame of this word.
fn allows(kept: &Kept, trace: &Trace, text: &str) -> Result<bool, Fail> {
    Ok(trace.allows(kept, frame(text.as_bytes())?))
}

/// After these frames just those are allowed, of all of `FRAMES`; if none is, the transaction is complete.
fn follows<R: Abort>(rt: &R, kept: &Kept, frames: &str, allowed: &str) -> Result<(), Fail> {
    let trace = trace_of(kept, frames)?;
    for text in FRAMES.split_ascii_whitespace() {
        let is_allowed = allows(kept, &trace, text)?;
        same(rt, &(text, is_allowed), &(text, allowed.contains(text)));
    }
    same(rt, &trace.complete(kept), &allowed.is_empty());
    Ok(())
}

/// Each row has a trace, and behind a `>` the frames that are allowed after it.
fn each_follows<R: Abort>(rt: &R, kept: &Kept, rows: &str) -> Result<(), Fail> {
    for row in rows.lines() {
        let (frames, allowed) = row.split_once('>').ok_or("a row")?;
        follows(rt, kept, frames, allowed.trim())?;
    }
    Ok(())
}

/// Every position of an opening, of a roll call, of a draw and of arc power.
const OPENINGS: &str = "> A100 B10A 09C2 FE80
A100 > A5FF
A100 A5FF > A5FF
A100 A5FF A5FF > A700 B10A
A100 A5FF A5FF A700 > A700
A100 A5FF A5FF A700 A700 >
A100 A5FF A5FF B10A > B3BC B5DE
A100 A5FF A5FF B10A B5DE > B3BC
A100 A5FF A5FF B10A B5DE B3BC > A900 B10A B3BC B5DE
A100 A5FF A5FF B10A B5DE B3BC A900 > A900 B10A B3BC B5DE
A100 A5FF A5FF B10A B5DE B3BC A900=FF > A900 B10A B3BC B5DE
A100 A5FF A5FF B10A B5DE B3BC A900 A900 >
A100 A5FF A5FF B10A B3BC > A900
A100 A5FF A5FF B10A B3BC A900 > A700
A100 A5FF A5FF B10A B3BC A900=FF >
A100 A5FF A5FF B10A B3BC A900=?? >
A100 A5FF A5FF B10A B3BC A900 A700 > A700
A100 A5FF A5FF B10A B3BC A900 A700 A700 >
FE80 >";

/// Every position of the scripts that use a search address, if an address is reserved for the number.
const SEARCHES: &str = "B10A > B3BC B5DE
B10A B3BC > B5DE
B10A B3BC B5DE > A900 BB00 AB00
B10A B3BC B5DE AB00 >
B10A B3BC B5DE A900 >
B10A B3BC B5DE A900=09 >
B10A B3BC B5DE A900=FF >
B10A B3BC B5DE A900=?? >
B10A B3BC B5DE BB00=09 > AB00
B10A B3BC B5DE BB00=FF > B709
B10A B3BC B5DE BB00=FF B709 > BB00
B10A B3BC B5DE BB00=FF B709 BB00=09 > AB00
B10A B3BC B5DE BB00=FF B709 BB00=09 AB00 >
B10A B3BC B5DE BB00=FF B709 BB00 >
B10A B3BC B5DE BB00=FF B709 BB00=FF >
B10A B3BC B5DE BB00=FF B709 BB00=?? >
B10A B3BC B5DE BB00=FF B709 BB00=0B >";

/// Every position of a hunt: the low byte before the middle one, and then five frames, each a search byte or COMPARE.
const HUNTS: &str = "B10A B5DE > B3BC
B10A B5DE B3BC > A900 B10A B3BC B5DE
B10A B5DE B3BC A900 > A900 B10A B3BC B5DE
B10A B5DE B3BC A900=FF > A900 B10A B3BC B5DE
B10A B5DE B3BC A900=?? B10B > A900 B10A B3BC B5DE
B10A B5DE B3BC B10B B31C B56E > A900 B10A B3BC B5DE
B10A B5DE B3BC A900 B56E A900=FF B36E > A900 B10A B3BC B5DE
B10A B5DE B3BC A900 B56E A900=FF B36E A900 >
B10A B5DE B3BC A900 A900 A900 A900 A900=FF >
B10A B5DE B3BC B10B B31C B56E A900 B10C >";

/// Every position of the queries of a random address, whatever is heard, and whatever is reserved.
const QUERIES: &str = "09C2 > 09C3
09C2=0A > 09C3
09C2=?? 09C3 > 09C4
09C2=0A 09C3=BC > 09C4
09C2=0A 09C3=BC 09C4 >
09C2=0A 09C3=BC 09C4=DE >";

/// If nothing is reserved, an address that was heard leads to WITHDRAW, and nothing else goes on.
const UNRESERVED: &str = "B10A B3BC B5DE BB00=09 > AB00
B10A B3BC B5DE BB00=09 AB00 >
B10A B3BC B5DE BB00 >
B10A B3BC B5DE BB00=FF >
B10A B3BC B5DE BB00=?? >
B10A B3BC B5DE BB00=81 >
B10A B3BC B5DE BB00=08 >";

#[test]
fn transactions_go_on_by_their_tables(rt: HostRuntime) -> Result<(), Fail> {
    for rows in [OPENINGS, SEARCHES, HUNTS] {
        each_follows(&rt, &one_reserved()?, rows)?;
    }
    for rows in [QUERIES, UNRESERVED] {
        each_follows(&rt, &none_reserved()?, rows)?;
    }
    Ok(())
}

/// What a trace shows: the gear that it found, by its number under QUERY SHORT ADDRESS or by the queries of a random
/// address; or that it ends with a first QUERY SHORT ADDRESS that was heard as silence.
#[derive(Clone, Copy)]
enum Shown {
    Nothing,
    Unanswered,
    Queried(u8, u32),
    Resolved(u8, u32),
}

/// The gear that was found, whether that was by the queries of a random address, and whether no gear answered.
type Found = (Option<(Short, Random24)>, bool, bool);

fn shown_by(trace: &Trace) -> Found {
    let is_resolved = match trace.how_found() {
        Some(Finding::Resolved(..)) => true,
        Some(Finding::Queried(..)) | None => false,
    };
    let is_unanswered = matches!(trace.stage(), Stage::Unanswered(_));
    (trace.finding(), is_resolved, is_unanswered)
}

fn wanted_of(shown: Shown) -> Result<Found, Fail> {
    Ok(match shown {
        Shown::Nothing => (None, false, false),
        Shown::Unanswered => (None, false, true),
        Shown::Queried(address, number) => (Some(addresses((address, number))?), false, false),
        Shown::Resolved(address, number) => (Some(addresses((address, number))?), true, false),
    })
}

/// Each of these traces shows this.
fn each_shows<R: Abort>(rt: &R, kept: &Kept, rows: &[(&str, Shown)]) -> Result<(), Fail> {
    for (frames, wanted) in rows {
        let shown = shown_by(&trace_of(kept, *frames)?);
        same(rt, &(*frames, shown), &(*frames, wanted_of(*wanted)?));
    }
    Ok(())
}

/// Traces that need no reservation.
const UNRESERVED_SHOWN: [(&str, Shown); 11] = [
    ("B10A B3BC B5DE", Shown::Nothing),
    ("B10A B3BC B5DE BB00=09", Shown::Queried(4, 0x0ABCDE)),
    ("B10A B3BC B5DE BB00", Shown::Unanswered),
    ("B10A B3BC B5DE BB00=FF", Shown::Nothing),
    // Silence is told apart from damage, and from what is no address.
    ("B10A B3BC B5DE BB00=??", Shown::Nothing),
    ("B10A B3BC B5DE BB00=81", Shown::Nothing),
    ("B10A B5DE B3BC A900=FF B56E A900=09", Shown::Nothing),
    ("09C2=0A 09C3=BC", Shown::Nothing),
    ("09C2=0A 09C3=BC 09C4", Shown::Nothing),
    ("09C2=0A 09C3=BC 09C4=DE", Shown::Resolved(4, 0x0ABCDE)),
    ("09C2=0A 09C3=BC 09C4=??", Shown::Nothing),
];

/// Traces of a gear for which an address is reserved, and of queries of which one was not heard.
const RESERVED_SHOWN: [(&str, Shown); 4] = [
    (
        "B10A B3BC B5DE BB00=FF B709 BB00=09",
        Shown::Queried(4, 0x0ABCDE),
    ),
    ("B10A B3BC B5DE BB00=FF B709 BB00", Shown::Nothing),
    ("09C2=0A 09C3 09C4=DE", Shown::Nothing),
    ("09C2=?? 09C3=BC 09C4=DE", Shown::Nothing),
];

#[test]
fn traces_show_whom_they_found(rt: HostRuntime) -> Result<(), Fail> {
    for kept in [one_reserved()?, none_reserved()?] {
        each_shows(&rt, &kept, &UNRESERVED_SHOWN)?;
    }
    each_shows(&rt, &one_reserved()?, &RESERVED_SHOWN)
}

/// Whether a trace ends with the confirmation of address 4 for `0ABCDE`.
fn is_confirmed(trace: &Trace) -> Result<bool, Fail> {
    let (address, number) = addresses((4, 0x0ABCDE))?;
    Ok(match trace.stage() {
        Stage::Confirmed(searched, given) => {
            searched == SearchAddress::of(number) && given == address
        }
        _ => false,
    })
}

/// After a trace that was sent with a reservation, records without it allow no WITHDRAW.
fn asks_again<R: Abort>(rt: &R, trace: &Trace, kept: &Kept, none: &Kept) -> Result<(), Fail> {
    let withdraw = [allows(kept, trace, "AB00")?, allows(none, trace, "AB00")?];
    same(rt, &withdraw, &[true, false]);
    let shown = [is_confirmed(trace)?, trace.complete(none)];
    same(rt, &shown, &[true, true]);
    Ok(())
}

fn confirmed<R: Abort>(rt: &R, kept: &Kept, none: &Kept) -> Result<(), Fail> {
    let trace = trace_of(kept, "B10A B3BC B5DE BB00=FF B709 BB00=09")?;
    asks_again(rt, &trace, kept, none)
}

/// The reservation is asked for again of the records at hand, whichever the trace was sent under.
#[test]
fn a_confirmed_address_needs_its_reservation(rt: HostRuntime) -> Result<(), Fail> {
    let kept = one_reserved()?;
    let none = none_reserved()?;
    confirmed(&rt, &kept, &none)
}

/// The trace of its entries allows the same frames, and has the same finding.
fn is_made_again<R: Abort>(rt: &R, kept: &Kept, frames: &str) -> Result<(), Fail> {
    let trace = trace_of(kept, frames)?;
    match Trace::of(trace.entries()) {
        Some(again) => are_alike(rt, kept, frames, &again, &trace),
        None => Err(Fail::from("a trace")),
    }
}

/// Two traces allow the same frames, and have the same finding.
fn are_alike<R: Abort>(
    rt: &R,
    kept: &Kept,
    frames: &str,
    one: &Trace,
    other: &Trace,
) -> Result<(), Fail> {
    for text in FRAMES.split_ascii_whitespace() {
        let were = (allows(kept, one, text)?, allows(kept, other, text)?);
        same(rt, &(frames, text, were.0), &(frames, text, were.1));
    }
    same(rt, &one.finding(), &other.finding());
    Ok(())
}

/// The entries of these frames.
fn entries_of(alloc: Global, frames: &str) -> Result<Vec<Entry>, Fail> {
    let mut entries = Vec::new(alloc);
    for word in frames.split_ascii_whitespace() {
        entries.push(entry_of(word)?)?;
    }
    Ok(entries)
}

/// No controller sends these frames.
fn is_no_trace<R: Abort + AllocGlobal>(rt: &R, frames: &str) -> Result<(), Fail> {
    let entries = entries_of(rt.alloc(), frames)?;
    let is_trace = entries.len() <= 8 && Trace::of(entries.as_slice()).is_some();
    same(rt, &(frames, is_trace), &(frames, false));
    Ok(())
}

fn made_again<R: Abort + AllocGlobal>(rt: &R, kept: &Kept) -> Result<(), Fail> {
    let traces = [
        "",
        "A100 A5FF A5FF A700",
        "B10A B3BC B5DE A900=FF",
        "B10A B5DE B3BC A900 B56E A900=FF B10B",
        "B10A B3BC B5DE BB00=09",
        "B10A B3BC B5DE BB00=FF B709 BB00=09",
        "09C2=0A 09C3=BC",
    ];
    let others = [
        "AB00",
        "A100 A700",
        "B10A B3BC B5DE BB00=09 B709",
        "B1FF B3FF B5FF BB00=FF B709",
        "B10A B3BC B5DE A900=FF B10A",
        "B10A B3BC B5DE B56E",
        "B10A B5DE B3BC BB00",
    ];
    for frames in traces {
        is_made_again(rt, kept, frames)?;
    }
    for frames in others {
        is_no_trace(rt, frames)?;
    }
    Ok(())
}

#[test]
fn a_trace_is_made_again_of_its_entries(rt: HostRuntime) -> Result<(), Fail> {
    made_again(&rt, &one_reserved()?)
}
