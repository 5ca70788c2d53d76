//! What a capture tells of the bus up to an item, variable by variable.

ghost use Rattle.std.specs.Prelude.{◌≡◌, Option};
ghost use Rattle.dali_audit.specs.Bus.{same_frame, number, is_addressing, in_initialisation, repeats, late_by};
ghost use Rattle.dali_audit.specs.Bus.{completes, bus_at_first, half_after, is_over, begun_after, begins, crowd};
ghost use Rattle.dali_audit.specs.Bus.{is_crowded, high_heard, middle_heard, byte_heard, names_addressed, begun_by};
ghost use Rattle.dali_audit.specs.Bus.{drawn_by, heard_by, searched_by, searches, sent_by, unless_addressing, passed};
ghost use Rattle.dali_audit.specs.Bus.{acts, unless_acting, is_all, dtr0_after, names_unaddressed, misled, compared_by};
ghost use Rattle.dali_special.specs.Command.{command_of};
ghost use Rattle.dali_audit.specs.Bus.{bus_heard, frame_end, bus_after};

use crate::seen::Seen;
use dali_capture::{Heard, Item};
use dali_frame::{Answer, Forward, Random24, Short};
use dali_special::{Command, Part, Target};

/// How long a pair may take, from the begin of its first frame to the end of its second, in µs (IEC 62386-101:2014,
/// send-twice forward frames).
pub const PAIR: u64 = 100_000;

/// How long an initialisation lasts, in µs: 15 minutes (IEC 62386-102:2014, INITIALISE).
pub const INITIALISATION: u64 = 900_000_000;

/// The address byte of the frame that sends a byte for DTR0.
const DTR0: u8 = 0xA3;

/// The bytes of the search address that were sent last; those of which the capture does not tell are `None`.
#[derive(Clone, Copy)]
pub struct Search {
    pub high: Option<u8>,
    pub middle: Option<u8>,
    pub low: Option<u8>,
}

/// The first frame of a pair, which waits for its second.
#[derive(Clone, Copy)]
pub struct First {
    pub frame: Forward,
    pub at: u64,
    /// Whether it is the second frame of a pair that came too late, of which that was told.
    pub is_told: bool,
}

/// An INITIALISE that was complete.
#[derive(Clone, Copy)]
pub struct Begun {
    /// When its second frame began.
    pub at: u64,
    /// When that was over.
    pub until: u64,
    /// Whether it was told that its time is over.
    pub is_told: bool,
}

/// How much of a random address was heard under a short address, query by query.
#[derive(Clone, Copy)]
pub enum Spelled {
    Nothing,
    /// Its high byte.
    High(Short, u8),
    /// Its high and its middle byte.
    Middle(Short, u8, u8),
}

/// What a capture tells of the bus up to an item.
#[derive(Clone, Copy)]
pub struct Bus {
    pub search: Search,
    pub half: Option<First>,
    /// When RANDOMISE was complete, if no addressing command followed yet.
    pub drawn: Option<u64>,
    /// The last INITIALISE that was complete, if no TERMINATE followed.
    pub begun: Option<Begun>,
    /// Whether TERMINATE came, and since then nothing that may have begun an initialisation.
    pub is_closed: bool,
    /// When PROGRAM SHORT ADDRESS began, if no addressing command but bytes of the search address followed yet.
    pub given: Option<u64>,
    /// When the last frame was over, if what was heard last is one.
    pub settled: Option<u64>,
    /// The search address under which several gear were heard, and nothing told them apart.
    pub crowded: Option<Random24>,
    pub spelled: Spelled,
    /// Whether gear with a short address may take part in the initialisation.
    pub may_redraw: bool,
    /// Whether all gear do, by INITIALISE.
    pub takes_all: bool,
    /// When COMPARE was sent first after TERMINATE, and silence was heard, if no search can have begun anew since.
    pub cut: Option<u64>,
    /// What was sent for DTR0 last.
    pub dtr0: Option<u8>,
}

/// Whether two frames are equal.
pub(crate) fn same_frame(one: Forward, other: Forward) -> bool
    ensures { result ≡ same_frame one other }
{
    one.address_byte == other.address_byte && one.opcode_byte == other.opcode_byte
}

/// Whether a frame is a command of the table.
pub(crate) fn is_addressing(frame: Forward) -> bool
    ensures { result ≡ is_addressing frame }
{
    match Command::read(frame) {
        Command::Terminate
        | Command::Initialise(_)
        | Command::Randomise
        | Command::Compare
        | Command::Withdraw
        | Command::SearchHigh(_)
        | Command::SearchMiddle(_)
        | Command::SearchLow(_)
        | Command::Program(_)
        | Command::Verify(_)
        | Command::QueryShort
        | Command::RandomByte(..) => true,
        Command::Arc(_) | Command::Other(_) => false,
    }
}

/// Whether a frame is a command of the table, and no byte of the search address.
pub(crate) fn acts(frame: Forward) -> bool
    ensures { result ≡ acts (command_of frame) }
{
    match Command::read(frame) {
        Command::Terminate
        | Command::Initialise(_)
        | Command::Randomise
        | Command::Compare
        | Command::Withdraw
        | Command::Program(_)
        | Command::Verify(_)
        | Command::QueryShort
        | Command::RandomByte(..) => true,
        Command::SearchHigh(_)
        | Command::SearchMiddle(_)
        | Command::SearchLow(_)
        | Command::Arc(_)
        | Command::Other(_) => false,
    }
}

/// Whether a frame is for gear in an initialisation alone.
pub(crate) fn in_initialisation(frame: Forward) -> bool
    ensures { result ≡ in_initialisation frame }
{
    match Command::read(frame) {
        Command::Randomise
        | Command::Compare
        | Command::Withdraw
        | Command::SearchHigh(_)
        | Command::SearchMiddle(_)
        | Command::SearchLow(_)
        | Command::Program(_)
        | Command::Verify(_)
        | Command::QueryShort => true,
        Command::Terminate
        | Command::Initialise(_)
        | Command::RandomByte(..)
        | Command::Arc(_)
        | Command::Other(_) => false,
    }
}

fn high_heard(short: Short, answer: Answer) -> Spelled
    ensures { result ≡ high_heard short answer }
{
    match answer {
        Answer::Byte(high) => Spelled::High(short, high),
        Answer::Silence | Answer::Damaged => Spelled::Nothing,
    }
}

fn middle_heard(short: Short, answer: Answer, spelled: &Spelled) -> Spelled
    ensures { result ≡ middle_heard short answer spelled.now }
{
    if let (Answer::Byte(middle), Spelled::High(same, high)) = (answer, spelled) {
        if *same == short {
            return Spelled::Middle(short, *high, middle);
        }
    }
    Spelled::Nothing
}

fn byte_heard(short: Short, part: Part, answer: Answer, spelled: &Spelled) -> Spelled
    ensures { result ≡ byte_heard short part answer spelled.now }
{
    match part {
        Part::High => high_heard(short, answer),
        Part::Middle => middle_heard(short, answer, spelled),
        Part::Low => Spelled::Nothing,
    }
}

fn names_addressed(target: Target) -> bool
    ensures { result ≡ names_addressed target }
{
    match target {
        Target::All | Target::Addressed(_) => true,
        Target::Unaddressed => false,
    }
}

fn is_all(target: Target) -> bool
    ensures { result ≡ is_all target }
{
    match target {
        Target::All => true,
        Target::Addressed(_) | Target::Unaddressed => false,
    }
}

fn names_unaddressed(target: Target) -> bool
    ensures { result ≡ names_unaddressed target }
{
    match target {
        Target::All | Target::Unaddressed => true,
        Target::Addressed(_) => false,
    }
}

fn begins(item: &Item) -> Begun
    ensures { result ≡ begins item.now }
{
    Begun {
        at: item.at,
        until: item.until,
        is_told: false,
    }
}

fn unless_addressing(frame: Forward, time: Option<u64>) -> Option<u64>
    ensures { result ≡ unless_addressing frame time }
{
    if is_addressing(frame) { None } else { time }
}

fn unless_acting(frame: Forward, time: Option<u64>) -> Option<u64>
    ensures { result ≡ unless_acting (command_of frame) time }
{
    if acts(frame) { None } else { time }
}

/// When a frame was over, from which on the bus settles.
fn frame_end(item: &Item) -> Option<u64>
    ensures { result ≡ frame_end item.now.what item.now.until }
{
    match item.what {
        Heard::Forward(_) | Heard::Backward(_) | Heard::Device => Some(item.until),
        Heard::Damaged => None,
    }
}

impl Search {
    /// The search address, if the capture tells all of it.
    pub fn number(self) -> Option<Random24>
        ensures { result ≡ number self }
    {
        match (self.high, self.middle, self.low) {
            (Some(high), Some(middle), Some(low)) => Some(Random24::from_bytes(high, middle, low)),
            _ => None,
        }
    }

    fn searched(self, part: Part, byte: u8) -> Search
        ensures { result ≡ searched_by part byte self }
    {
        let byte = Some(byte);
        match part {
            Part::High => Search { high: byte, ..self },
            Part::Middle => Search {
                middle: byte,
                ..self
            },
            Part::Low => Search { low: byte, ..self },
        }
    }
}

impl Bus {
    /// Before any item nothing is known.
    pub fn new() -> Bus
        ensures { result ≡ bus_at_first }
    {
        Bus {
            search: Search {
                high: None,
                middle: None,
                low: None,
            },
            half: None,
            drawn: None,
            begun: None,
            is_closed: false,
            given: None,
            settled: None,
            crowded: None,
            spelled: Spelled::Nothing,
            may_redraw: true,
            takes_all: false,
            cut: None,
            dtr0: None,
        }
    }

    /// Whether a frame is equal to the first frame of a pair that waits.
    pub(crate) fn repeats(&self, frame: Forward) -> bool
        ensures { result ≡ repeats self.now.half frame }
    {
        match self.half {
            Some(first) => same_frame(first.frame, frame),
            None => false,
        }
    }

    /// Whether it comes too late for that.
    pub(crate) fn is_late(&self, item: &Item) -> bool
        ensures { result ≡ late_by self.now.half item.now.until }
    {
        match self.half {
            Some(first) => item.until.saturating_sub(first.at) > PAIR,
            None => false,
        }
    }

    /// Whether a frame completes a pair.
    pub(crate) fn completes(&self, item: &Item, frame: Forward) -> bool
        ensures { result ≡ completes self.now.half item.now.until frame }
    {
        self.repeats(frame) && !self.is_late(item)
    }

    /// Whether the time of the initialisation is over at a frame that is for gear in it.
    pub(crate) fn is_over(&self, item: &Item, frame: Forward) -> bool
        ensures { result ≡ is_over self.now.begun item.now.at frame }
    {
        match self.begun {
            Some(begun) => {
                !begun.is_told
                    && in_initialisation(frame)
                    && item.at.saturating_sub(begun.until) > INITIALISATION
            }
            None => false,
        }
    }

    /// Whether several gear were heard under the search address, and nothing told them apart.
    pub(crate) fn is_crowded(&self) -> bool
        ensures { result ≡ is_crowded self.now }
    {
        match (self.search.number(), self.crowded) {
            (Some(search), Some(crowded)) => search == crowded,
            _ => false,
        }
    }

    fn half_after(&self, item: &Item, frame: Forward) -> Option<First>
        ensures { result ≡ half_after item.now frame self.now.half }
    {
        if !Command::read(frame).is_send_twice() || self.completes(item, frame) {
            return None;
        }
        Some(First {
            frame,
            at: item.at,
            is_told: self.repeats(frame),
        })
    }

    fn begun_after(&self, item: &Item, frame: Forward) -> Option<Begun>
        ensures { result ≡ begun_after item.now frame self.now.begun }
    {
        match self.begun {
            Some(begun) if self.is_over(item, frame) => Some(Begun {
                is_told: true,
                ..begun
            }),
            _ => self.begun,
        }
    }

    /// What every forward frame changes.
    fn passed(&self, item: &Item, frame: Forward) -> Bus
        ensures { result ≡ passed item.now frame self.now }
    {
        Bus {
            half: self.half_after(item, frame),
            begun: self.begun_after(item, frame),
            drawn: unless_addressing(frame, self.drawn),
            given: unless_acting(frame, self.given),
            ..*self
        }
    }

    fn initialised(&self, target: Target, is_again: bool, is_second: bool, item: &Item) -> Bus
        ensures { result ≡ begun_by target is_again is_second item.now self.now }
    {
        Bus {
            begun: if is_second {
                Some(begins(item))
            } else {
                self.begun
            },
            is_closed: self.is_closed && !is_again,
            may_redraw: self.may_redraw || (is_second && names_addressed(target)),
            takes_all: self.takes_all || (is_second && is_all(target)),
            cut: if names_unaddressed(target) {
                None
            } else {
                self.cut
            },
            ..*self
        }
    }

    fn randomised(&self, is_second: bool, item: &Item) -> Bus
        ensures { result ≡ drawn_by is_second item.now self.now }
    {
        let spelled = Spelled::Nothing;
        if is_second {
            Bus {
                drawn: Some(item.until),
                crowded: None,
                spelled,
                ..*self
            }
        } else {
            Bus { spelled, ..*self }
        }
    }

    /// What an answer under the search address tells of how many gear are there.
    fn crowd(&self, answer: Answer) -> Option<Random24>
        ensures { result ≡ crowd answer (number self.now.search) self.now.crowded }
    {
        let search = self.search.number();
        match answer {
            Answer::Damaged if search.is_some() => search,
            Answer::Damaged | Answer::Silence | Answer::Byte(_) => {
                if self.crowded == search {
                    None
                } else {
                    self.crowded
                }
            }
        }
    }

    fn heard(&self, answer: Answer) -> Bus
        ensures { result ≡ heard_by answer self.now }
    {
        Bus {
            crowded: self.crowd(answer),
            ..*self
        }
    }

    /// Since when the silence after COMPARE does not say that no gear is left.
    fn misled(&self, item: &Item, answer: Answer) -> Option<u64>
        ensures { result ≡ misled self.now.is_closed item.now.at answer self.now.cut }
    {
        match answer {
            Answer::Silence if self.is_closed && self.cut.is_none() => Some(item.at),
            Answer::Silence | Answer::Damaged | Answer::Byte(_) => self.cut,
        }
    }

    fn compared(&self, item: &Item, answer: Answer) -> Bus
        ensures { result ≡ compared_by item.now answer self.now }
    {
        Bus {
            cut: self.misled(item, answer),
            ..self.heard(answer)
        }
    }

    fn searched(&self, part: Part, byte: u8) -> Bus
        ensures { result ≡ searches part byte self.now }
    {
        Bus {
            search: self.search.searched(part, byte),
            ..*self
        }
    }

    /// What was sent for DTR0 last, with a frame that is no command of the table.
    fn dtr0_after(&self, frame: Forward) -> Option<u8>
        ensures { result ≡ dtr0_after frame self.now.dtr0 }
    {
        if frame.address_byte == DTR0 {
            Some(frame.opcode_byte)
        } else {
            self.dtr0
        }
    }

    /// What each command changes.
    fn sent(
        &self,
        command: Command,
        is_again: bool,
        is_second: bool,
        item: &Item,
        answer: Answer,
    ) -> Bus
        ensures { result ≡ sent_by command is_again is_second item.now answer self.now }
    {
        match command {
            Command::Terminate => Bus {
                begun: None,
                is_closed: true,
                may_redraw: false,
                takes_all: false,
                ..*self
            },
            Command::Initialise(target) => self.initialised(target, is_again, is_second, item),
            Command::Randomise => self.randomised(is_second, item),
            Command::Compare => self.compared(item, answer),
            Command::QueryShort => self.heard(answer),
            Command::SearchHigh(byte) => self.searched(Part::High, byte),
            Command::SearchMiddle(byte) => self.searched(Part::Middle, byte),
            Command::SearchLow(byte) => self.searched(Part::Low, byte),
            Command::Program(_) => Bus {
                given: Some(item.at),
                spelled: Spelled::Nothing,
                may_redraw: true,
                ..*self
            },
            Command::RandomByte(short, part) => Bus {
                spelled: byte_heard(short, part, answer, &self.spelled),
                ..*self
            },
            Command::Other(other) => Bus {
                dtr0: self.dtr0_after(other),
                ..*self
            },
            Command::Withdraw | Command::Verify(_) | Command::Arc(_) => *self,
        }
    }

    fn heard_of(&self, item: &Item, seen: Seen) -> Bus
        ensures { result ≡ bus_heard item.now seen self.now }
    {
        match seen {
            Seen::Sent(frame, answer) => {
                let is_again = self.repeats(frame);
                let is_second = self.completes(item, frame);
                self.passed(item, frame)
                    .sent(Command::read(frame), is_again, is_second, item, answer)
            }
            Seen::Foreign => Bus {
                half: None,
                ..*self
            },
            Seen::Broken => Bus {
                half: None,
                given: None,
                is_closed: false,
                ..*self
            },
            Seen::Replied | Seen::Stray => *self,
        }
    }

    /// After an item.
    pub fn after(&self, item: &Item, seen: Seen) -> Bus
        ensures { result ≡ bus_after item.now seen self.now }
    {
        Bus {
            settled: frame_end(item),
            ..self.heard_of(item, seen)
        }
    }
}
