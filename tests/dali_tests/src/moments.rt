//! Stories of a machine, as texts. Each begins with a line `= NAME`, and has items, with `; ` between those of a line:
//!
//! ```text
//! block 0-3; has enrol 2 123456        its block, if it is not 0-3, and the records that it begins with
//! searches start 105                   it is told this, and sends so many frames; each COMPARE is answered YES
//! hears 01C2 12; keeps enrol 0 123456  what a survey hears after a frame, and a record that it orders
//! surveys 192                          it surveys, for so many orders
//! - > 1 A5FF; 05 > enrol 2 123456      it is told this, silence or a byte, and orders that
//! 7 x lapsed > 3 A100; @visit          seven times; a part, by its name
//! reserved 0=123456; enrolled          what it has reserved and enrolled
//! ```

use super::values::InNumbers::{Enrol, Release, Reserve};
use super::values::Ordered::{Commit, Done, Halt, NotDue, Put};
use super::values::{InNumbers, Ordered, are_pairs, kept_of, same};
use dali_controller::{Machine, StepError};
use dali_frame::Answer;
use dali_script::{End, Fault, Input};
use std::alloc::Global;
use std::process::Abort;
use std::test::Fail;

pub const SILENCE: Input = Input::Heard(Answer::Silence);

pub const DAMAGED: Input = Input::Heard(Answer::Damaged);

pub const YES: Input = Input::Heard(Answer::Byte(0xFF));

/// Parts of stories, by their names.
const PARTS: &str = "
# An opening.
opening: start > 3 A100; - > 1 A5FF; - > 1 A5FF; - > 1 A700; - > 1 A700
# The first frame of an opening.
begun: start > 3 A100
# What follows it.
opened: - > 1 A5FF; - > 1 A5FF; - > 1 A700; - > 1 A700
# The first probe of a search.
probe: - > 3 B1FF; - > 1 B3FF; - > 1 B5FE; - > 1 A900
# The search hears YES to its last COMPARE, as to all others: a visit of 000000.
found: FF > 3 B100; - > 1 B300; - > 1 B500; - > 1 BB00
# A start with 0 or 1 reserved for 123456: a visit.
visit: start > 3 B112; - > 1 B334; - > 1 B556; - > 1 BB00
# The gear of a visit has no address. It is given 0, which is reserved for it.
given: FF > 1 B701; - > 1 BB00; 01 > 1 AB00
# A roll call up to its first COMPARE: all gear without short address are initialised and asked under FFFFFF. They
# draw no number.
called: - > 3 A100; - > 1 A5FF; - > 1 A5FF; - > 1 B1FF; - > 1 B5FF; - > 1 B3FF; - > 1 A900
# The first COMPARE was silent: one more, and that is silent too.
once-more: - > 1 A900
# A hunt that finds no gear: COMPARE under FFFFFE, and once more, with no search byte again.
nobody: FF > 3 B1FF; - > 1 B5FE; - > 1 B3FF; - > 1 A900; - > 1 A900
# The gear heard in the roll call never drew: whether gear are to be searched is asked once more, under FFFExx,
# and none is heard.
drawn: - > 3 A100; - > 1 A5FF; - > 1 A5FF; - > 1 B1FF; - > 1 B3FE; - > 1 A900; - > 1 A700; - > 1 A700
# The hunt after a draw finds no gear.
drew-nobody: - > 3 B1FF; - > 1 B5FE; - > 1 B3FF; - > 1 A900; - > 1 A900
# Gear that tells its number under address 0.
told: hears 01C2 12; hears 01C3 34; hears 01C4 56
# The first of two visits hears another address than the reserved one.
first-visit: start > 3 B1AB; - > 1 B3CD; - > 1 B5EF; - > 1 BB00; 0B > 1 AB00; - > enrol 5 ABCDEF
# It is enrolled as it was heard, and the reserved address is released.
releasing: committed > release 1 ABCDEF; committed > 3 B100
# The gear of the second visit is given its own address.
second-visit: - > 1 B300; - > 1 B503; - > 1 BB00; FF > 1 B707; - > 1 BB00; 07 > 1 AB00; - > enrol 3 000003
";

/// The items of a part, or none.
fn part(name: &str) -> &'static str {
    for line in PARTS.lines() {
        if let Some((found, items)) = line.split_once(": ") {
            if found == name {
                return items;
            }
        }
    }
    ""
}

/// A machine of a block, with these records.
pub fn machine_of(bounds: (u8, u8), records: &[InNumbers]) -> Result<Machine, Fail> {
    let kept = kept_of(bounds, records)?;
    Ok(Machine::new(0, &kept))
}

/// What the machine orders when it is told this.
pub fn ordered(machine: &mut Machine, told: Input) -> Ordered {
    match machine.step(told) {
        Ok(order) => Ordered::of(order),
        Err(StepError::NotDue) => NotDue,
    }
}

fn number(text: &str) -> Result<u32, Fail> {
    Ok(text.parse::<u32>().ok().ok_or("a number")?)
}

fn small(text: &str) -> Result<u8, Fail> {
    Ok(text.parse::<u8>().ok().ok_or("a small number")?)
}

fn hexadecimal(text: &str) -> Result<u32, Fail> {
    Ok(
        u32::from_str_radix(text, 16)
            .ok()
            .ok_or("hexadecimal digits")?,
    )
}

/// The two halves of a text round a mark.
fn halves<'a>(text: &'a str, mark: &str) -> Result<(&'a str, &'a str), Fail> {
    Ok(text.split_once(mark).ok_or("two words")?)
}

fn record(text: &str) -> Result<InNumbers, Fail> {
    let (kind, rest) = halves(text, " ")?;
    let (address, random) = halves(rest, " ")?;
    let (address, random) = (small(address)?, hexadecimal(random)?);
    match kind {
        "reserve" => Ok(Reserve(address, random)),
        "enrol" => Ok(Enrol(address, random)),
        "release" => Ok(Release(address, random)),
        _ => Err(Fail::from("a kind of record")),
    }
}

/// What a machine is told: a word, or the byte that is heard.
fn input(text: &str) -> Result<Input, Fail> {
    match text {
        "-" => Ok(SILENCE),
        "damaged" => Ok(DAMAGED),
        "start" => Ok(Input::Start),
        "survey" => Ok(Input::Survey),
        "committed" => Ok(Input::Committed),
        "failed" => Ok(Input::CommitFailed),
        "destroyed" => Ok(Input::Destroyed),
        "lapsed" => Ok(Input::Lapsed),
        _ => Ok(Input::Heard(Answer::Byte(hexadecimal(text)? as u8))),
    }
}

/// What a machine orders: a word, a record, or a frame behind its priority.
fn order(text: &str) -> Result<Ordered, Fail> {
    match text {
        "not-due" => Ok(NotDue),
        "done all-found" => Ok(Done(End::AllFound)),
        "done block-full" => Ok(Done(End::BlockFull)),
        "done gave-up" => Ok(Done(End::GaveUp)),
        "halt conflict" => Ok(Halt(Fault::Conflict)),
        "halt store" => Ok(Halt(Fault::Store)),
        _ => {
            let (head, rest) = halves(text, " ")?;
            match head {
                "1" => Ok(Put(1, hexadecimal(rest)? as u16)),
                "3" => Ok(Put(3, hexadecimal(rest)? as u16)),
                _ => Ok(Commit(record(text)?)),
            }
        }
    }
}

/// The machine is told this, and orders that. The name of the story is told if it does not.
pub fn moment<R: Abort>(
    rt: &R,
    name: &str,
    machine: &mut Machine,
    told: &str,
    wanted: &str,
) -> Result<(), Fail> {
    let was = ordered(machine, input(told)?);
    same(rt, &(name, told, was), &(name, told, order(wanted)?));
    Ok(())
}

/// Moments one after the other.
pub fn moments<R: Abort>(
    rt: &R,
    name: &str,
    machine: &mut Machine,
    items: &str,
) -> Result<(), Fail> {
    for item in items.split("; ") {
        let (told, wanted) = halves(item, " > ")?;
        moment(rt, name, machine, told, wanted)?;
    }
    Ok(())
}

/// The machine sends so many frames from this input on. Each COMPARE is answered YES, and nothing else.
fn searches<R: Abort>(rt: &R, machine: &mut Machine, first: Input, frames: u32) {
    let mut input = first;
    for _ in 0..frames {
        let order = ordered(machine, input);
        assert!(rt; matches!(order, Put(..)));
        input = if order == Put(1, 0xA900) {
            YES
        } else {
            SILENCE
        };
    }
}

/// A machine that is told a story: its block, the records that it began with, what a survey hears after which frame (if
/// it is not silence) and which records it is to order, and the machine.
#[derive(Drop)]
pub struct Told {
    block: (u8, u8),
    has: Vec<InNumbers>,
    heard: Vec<(u32, Input)>,
    keeps: Vec<InNumbers>,
    pairs: Vec<(u8, u32)>,
    pub machine: Machine,
}

impl Told {
    pub fn new(alloc: Global) -> Result<Told, Fail> {
        Ok(Told {
            block: (0, 3),
            has: Vec::new(alloc),
            heard: Vec::new(alloc),
            keeps: Vec::new(alloc),
            pairs: Vec::new(alloc),
            machine: machine_of((0, 3), &[])?,
        })
    }

    fn hears(&self, frame: u16) -> Input {
        for (sent, answer) in self.heard.iter() {
            if *sent == u32::from(frame) {
                return *answer;
            }
        }
        SILENCE
    }

    /// The machine surveys, for so many orders; what it orders to be kept are the records that were named, and they are
    /// kept.
    fn surveys<R: Abort>(&mut self, rt: &R, orders: u32) {
        let mut told = Input::Survey;
        let mut kept = 0usize;
        for _ in 0..orders {
            told = match ordered(&mut self.machine, told) {
                Put(_, frame) => self.hears(frame),
                Commit(record) => {
                    same(rt, &self.keeps.get(kept).copied(), &Some(record));
                    kept = kept.saturating_add(1);
                    Input::Committed
                }
                Done(_) | Halt(_) | NotDue => Input::Start,
            };
        }
        same(rt, &kept, &self.keeps.len());
    }

    /// The pairs `SHORT=RANDOM` of a list.
    fn read_pairs(&mut self, text: &str) -> Result<(), Fail> {
        self.pairs.clear();
        for pair in text.split(' ') {
            if let Some((short, random)) = pair.split_once('=') {
                self.pairs.push((small(short)?, hexadecimal(random)?))?;
            }
        }
        Ok(())
    }

    /// An item of a story that is no part.
    fn item<R: Abort>(&mut self, rt: &R, name: &str, item: &str) -> Result<(), Fail> {
        let (head, rest) = item.split_once(' ').unwrap_or((item, ""));
        match head {
            "block" => {
                let (first, last) = halves(rest, "-")?;
                self.block = (small(first)?, small(last)?);
                self.machine = machine_of(self.block, &self.has)?;
            }
            "has" => {
                self.has.push(record(rest)?)?;
                self.machine = machine_of(self.block, &self.has)?;
            }
            "hears" => {
                let (frame, answer) = halves(rest, " ")?;
                self.heard.push((hexadecimal(frame)?, input(answer)?))?;
            }
            "keeps" => self.keeps.push(record(rest)?)?,
            "surveys" => self.surveys(rt, number(rest)?),
            "searches" => {
                let (first, frames) = halves(rest, " ")?;
                searches(rt, &mut self.machine, input(first)?, number(frames)?);
            }
            "reserved" => {
                self.read_pairs(rest)?;
                are_pairs(rt, self.machine.kept().reserved(), &self.pairs);
            }
            "enrolled" => {
                self.read_pairs(rest)?;
                are_pairs(rt, self.machine.kept().enrolled(), &self.pairs);
                are_pairs(rt, self.machine.table().entries(), &self.pairs);
            }
            _ => {
                let (told, wanted) = halves(item, " > ")?;
                let (times, told) = told.split_once(" x ").unwrap_or(("1", told));
                for _ in 0..number(times)? {
                    moment(rt, name, &mut self.machine, told, wanted)?;
                }
            }
        }
        Ok(())
    }

    /// The items of a line.
    pub fn plays<R: Abort>(&mut self, rt: &R, name: &str, items: &str) -> Result<(), Fail> {
        for item in items.split("; ") {
            match item.strip_prefix("@") {
                Some(found) => {
                    for item in part(found).split("; ") {
                        self.item(rt, name, item)?;
                    }
                }
                None => self.item(rt, name, item)?,
            }
        }
        Ok(())
    }
}

/// Plays stories: one more costs nothing.
pub fn all_play<R: Abort + AllocGlobal>(rt: &R, stories: &str) -> Result<(), Fail> {
    let mut name = "";
    let mut told = Told::new(rt.alloc())?;
    for line in stories.lines() {
        if let Some(begun) = line.strip_prefix("= ") {
            name = begun;
            told = Told::new(rt.alloc())?;
        } else if !line.is_empty() && !line.starts_with("#") {
            told.plays(rt, name, line)?;
        }
    }
    assert!(rt; !name.is_empty());
    Ok(())
}

/// A machine that has played the first items of a line.
pub fn begun<R: Abort + AllocGlobal>(rt: &R, items: &str, many: usize) -> Result<Told, Fail> {
    let mut told = Told::new(rt.alloc())?;
    let mut played = 0usize;
    for item in items.split("; ") {
        if played < many {
            told.item(rt, items, item)?;
        }
        played = played.wrapping_add(1);
    }
    Ok(told)
}
