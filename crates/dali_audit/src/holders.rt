//! Who has which short address, as far as a capture shows.

ghost use Rattle.std.specs.Prelude.{◌≡◌, map};
ghost use Rattle.std.specs.List.{list_any};
ghost use Rattle.dali_audit.specs.Holders.{is_somebody};
ghost use Rattle.dali_audit.specs.Holders.{given, was_given, was_confirmed, is_confirmed, left_by, told};
ghost use Rattle.dali_audit.specs.Holders.{passed_on, answered, verified, redrawn, renewed};
ghost use Rattle.dali_audit.specs.Holders.{swept, short_in};
ghost use Rattle.dali_audit.specs.Holders.{program_change, short_change, byte_change, verify_change, forgets};
ghost use Rattle.dali_audit.specs.Holders.{change_by};
ghost use Rattle.dali_audit.specs.Holders.{number_told, low_change, table_at_first, holder_at, is_heard, table_after};
ghost use Rattle.dali_audit.specs.Holders.{change_of, random_of, heard_of, is_other};

use crate::bus::{Bus, Spelled};
use crate::seen::Seen;
use dali_capture::Item;
use dali_frame::{Answer, Forward, Random24, Short};
use dali_special::{Command, Part};
use std::marker::Model;

/// Who has a short address, as far as the capture shows.
#[derive(Clone, Copy, Debug, PartialEq, Eq)]
pub enum Holder {
    /// No gear was heard under it.
    Nobody,
    /// Gear was heard under it whose random address is not known.
    Somebody,
    /// It was programmed at this search address, and no gear was heard under it since.
    Programmed(Random24),
    /// The gear with this random address was heard under it.
    Answered(Random24),
    /// It was programmed at this search address, and then heard there.
    Verified(Random24),
}

/// What an item changes of who has which short address.
#[derive(Clone, Copy)]
pub enum Change {
    Nothing,
    /// The short address was programmed at this search address.
    Given(Short, Random24),
    /// The short address of the gear at this search address was erased.
    Erased(Random24),
    /// The gear with this random address was heard under the short address.
    Told(Short, Random24),
    /// VERIFY SHORT ADDRESS was heard as one answer.
    Verified(Short),
    /// Gear was heard under the short address.
    Answered(Short),
    /// Gear that may have short addresses drew new random addresses.
    Redrawn,
    /// RESET or SET SHORT ADDRESS, of the gear with this short address or of gear that are not known.
    Forgotten(Option<Short>),
}

/// What PROGRAM SHORT ADDRESS changes at a search address.
fn program_change(search: Option<Random24>, short: Option<Short>) -> Change
    ensures { result ≡ program_change search short }
{
    match (search, short) {
        (Some(random), Some(short)) => Change::Given(short, random),
        (Some(random), None) => Change::Erased(random),
        (None, _) => Change::Nothing,
    }
}

/// What QUERY SHORT ADDRESS at a search address tells.
fn short_change(search: Option<Random24>, answer: Answer) -> Change
    ensures { result ≡ short_change search answer }
{
    let Answer::Byte(byte) = answer else {
        return Change::Nothing;
    };
    match (search, Short::read(byte)) {
        (Some(random), Some(short)) => Change::Told(short, random),
        _ => Change::Nothing,
    }
}

/// What a random address tells that was heard under a short address.
fn number_told(short: Short, random: Random24) -> Change
    ensures { result ≡ number_told short random }
{
    if random == Random24::MASK {
        Change::Answered(short)
    } else {
        Change::Told(short, random)
    }
}

/// What the low byte of a random address tells, of which these bytes were heard before.
fn low_change(spelled: &Spelled, short: Short, low: u8) -> Change
    ensures { result ≡ low_change spelled.now short low }
{
    match spelled {
        Spelled::Middle(same, high, middle) if *same == short => {
            number_told(short, Random24::from_bytes(*high, *middle, low))
        }
        _ => Change::Answered(short),
    }
}

/// What a query of a random address tells, of which these bytes were heard before.
fn byte_change(spelled: &Spelled, short: Short, part: Part, answer: Answer) -> Change
    ensures { result ≡ byte_change spelled.now short part answer }
{
    match (answer, part) {
        (Answer::Silence | Answer::Damaged, _) => Change::Nothing,
        (Answer::Byte(low), Part::Low) => low_change(spelled, short, low),
        (Answer::Byte(_), Part::High | Part::Middle) => Change::Answered(short),
    }
}

/// What VERIFY SHORT ADDRESS tells.
fn verify_change(short: Short, answer: Answer) -> Change
    ensures { result ≡ verify_change short answer }
{
    match answer {
        Answer::Silence | Answer::Damaged => Change::Nothing,
        Answer::Byte(_) => Change::Verified(short),
    }
}

/// The opcode of RESET.
pub(crate) const RESET: u8 = 0x20;

/// The opcode of SET SHORT ADDRESS.
pub(crate) const SET_SHORT_ADDRESS: u8 = 0x80;

/// What a frame changes that is no command of the table: RESET or SET SHORT ADDRESS to a short address, to a group or
/// to all.
fn forgets(frame: Forward) -> Change
    ensures { result ≡ forgets frame }
{
    if frame.opcode_byte != RESET && frame.opcode_byte != SET_SHORT_ADDRESS {
        return Change::Nothing;
    }
    match Short::read(frame.address_byte) {
        Some(short) => Change::Forgotten(Some(short)),
        None => {
            if frame.address_byte == 0xFF
                || (0x80 <= frame.address_byte && frame.address_byte < 0xA0)
            {
                Change::Forgotten(None)
            } else {
                Change::Nothing
            }
        }
    }
}

fn change_by(bus: &Bus, item: &Item, frame: Forward, answer: Answer) -> Change
    ensures { result ≡ change_by bus.now item.now frame answer }
{
    match Command::read(frame) {
        Command::Program(short) => program_change(bus.search.number(), short),
        Command::QueryShort => short_change(bus.search.number(), answer),
        Command::RandomByte(short, part) => byte_change(&bus.spelled, short, part, answer),
        Command::Verify(short) => verify_change(short, answer),
        Command::Randomise if bus.may_redraw && bus.completes(item, frame) => Change::Redrawn,
        Command::Other(other) => forgets(other),
        Command::Randomise
        | Command::Terminate
        | Command::Initialise(_)
        | Command::Compare
        | Command::Withdraw
        | Command::SearchHigh(_)
        | Command::SearchMiddle(_)
        | Command::SearchLow(_)
        | Command::Arc(_) => Change::Nothing,
    }
}

/// What an item changes.
pub fn change_of(bus: &Bus, item: &Item, seen: Seen) -> Change
    ensures { result ≡ change_of bus.now item.now seen }
{
    match seen {
        Seen::Sent(frame, answer) => change_by(bus, item, frame, answer),
        Seen::Replied | Seen::Stray | Seen::Foreign | Seen::Broken => Change::Nothing,
    }
}

impl Holder {
    /// The random address of the gear that has the short address, if one is known.
    pub fn random(&self) -> Option<Random24>
        ensures { result ≡ random_of self.now }
    {
        match self {
            Holder::Nobody | Holder::Somebody => None,
            Holder::Programmed(random) | Holder::Answered(random) | Holder::Verified(random) => {
                Some(*random)
            }
        }
    }

    /// The same, if that gear was heard.
    pub fn heard(&self) -> Option<Random24>
        ensures { result ≡ heard_of self.now }
    {
        match self {
            Holder::Nobody | Holder::Somebody | Holder::Programmed(_) => None,
            Holder::Answered(random) | Holder::Verified(random) => Some(*random),
        }
    }

    /// Whether it is gear that was heard, and not known to be the gear with this random address.
    pub(crate) fn is_other(&self, random: Random24) -> bool
        ensures { result ≡ is_other random self.now }
    {
        match self {
            Holder::Somebody => true,
            Holder::Answered(own) | Holder::Verified(own) => *own != random,
            Holder::Nobody | Holder::Programmed(_) => false,
        }
    }

    /// Whether it was programmed at this search address, and the gear there was heard under no other one since.
    pub(crate) fn was_given(&self, random: Random24) -> bool
        ensures { result ≡ was_given random self.now }
    {
        match self {
            Holder::Programmed(own) | Holder::Verified(own) => *own == random,
            Holder::Nobody | Holder::Somebody | Holder::Answered(_) => false,
        }
    }

    /// Whether it is gear.
    pub(crate) fn is_somebody(&self) -> bool
        ensures { result ≡ is_somebody self.now }
    {
        match self {
            Holder::Nobody => false,
            Holder::Somebody | Holder::Programmed(_) | Holder::Answered(_) | Holder::Verified(_) =>
                true,
        }
    }

    /// Whether it was programmed at this search address, and then heard.
    pub(crate) fn was_confirmed(&self, random: Random24) -> bool
        ensures { result ≡ was_confirmed random self.now }
    {
        match self {
            Holder::Verified(own) => *own == random,
            Holder::Programmed(_) | Holder::Answered(_) | Holder::Nobody | Holder::Somebody =>
                false,
        }
    }

    fn given(&self, random: Random24) -> Holder
        ensures { result ≡ given random self.now }
    {
        if self.heard() == Some(random) {
            *self
        } else {
            Holder::Programmed(random)
        }
    }

    fn left_by(&self, random: Random24) -> Holder
        ensures { result ≡ left_by random self.now }
    {
        if self.random() == Some(random) {
            Holder::Nobody
        } else {
            *self
        }
    }

    fn told(&self, random: Random24) -> Holder
        ensures { result ≡ told random self.now }
    {
        match self {
            Holder::Programmed(own) | Holder::Verified(own) if *own == random => {
                Holder::Verified(random)
            }
            _ => Holder::Answered(random),
        }
    }

    /// The gear with this random address was heard under another short address.
    fn passed_on(&self, random: Random24) -> Holder
        ensures { result ≡ passed_on random self.now }
    {
        match self {
            Holder::Programmed(own) if *own == random => Holder::Nobody,
            _ => *self,
        }
    }

    fn answered(&self) -> Holder
        ensures { result ≡ answered self.now }
    {
        match self {
            Holder::Nobody => Holder::Somebody,
            _ => *self,
        }
    }

    fn verified(&self) -> Holder
        ensures { result ≡ verified self.now }
    {
        match self {
            Holder::Nobody => Holder::Somebody,
            Holder::Programmed(own) => Holder::Verified(*own),
            _ => *self,
        }
    }

    fn redrawn(&self) -> Holder
        ensures { result ≡ redrawn self.now }
    {
        match self {
            Holder::Nobody => Holder::Nobody,
            _ => Holder::Somebody,
        }
    }

    /// The gear with the short address of which a change tells.
    fn renewed(&self, change: &Change) -> Holder
        ensures { result ≡ renewed change.now self.now }
    {
        match change {
            Change::Given(_, random) => self.given(*random),
            Change::Told(_, random) => self.told(*random),
            Change::Verified(_) => self.verified(),
            Change::Answered(_) => self.answered(),
            Change::Forgotten(_) => Holder::Nobody,
            Change::Nothing | Change::Erased(_) | Change::Redrawn => *self,
        }
    }

    /// The gear with any other.
    fn swept(&self, change: &Change) -> Holder
        ensures { result ≡ swept change.now self.now }
    {
        match change {
            Change::Given(_, random) | Change::Erased(random) => self.left_by(*random),
            Change::Told(_, random) => self.passed_on(*random),
            Change::Redrawn => self.redrawn(),
            Change::Forgotten(None) => Holder::Nobody,
            Change::Forgotten(Some(_))
            | Change::Nothing
            | Change::Verified(_)
            | Change::Answered(_) => *self,
        }
    }
}

impl Change {
    /// The short address of which it tells.
    fn short(&self) -> Option<Short>
        ensures { result ≡ short_in self.now }
    {
        match self {
            Change::Given(short, _)
            | Change::Told(short, _)
            | Change::Verified(short)
            | Change::Answered(short) => Some(*short),
            Change::Forgotten(short) => *short,
            Change::Nothing | Change::Erased(_) | Change::Redrawn => None,
        }
    }
}

/// Who has each short address. Contracts see the list of them, by their numbers.
#[derive(Drop)]
pub struct Table {
    holders: [Holder; 64],
}

impl Model for Table {
    ghost use Rattle.std.specs.Prelude.{List};
    ghost use Rattle.dali_audit.specs.declared.holders.Holder.{Holder};
    ghost use Rattle.std.specs.Prelude.{◌≡◌, length};

    ghost Value = { List Holder };

    ghost view = { λ t. t.holders };

    ghost invariant = { λ t. length t.holders ≡ 64 };
}

impl Table {
    /// No gear was heard.
    pub fn new() -> Table
        ensures { result ≡ table_at_first }
    {
        Table {
            holders: [Holder::Nobody; 64],
        }
    }

    /// Who has a short address.
    pub fn holder(&self, short: Short) -> Holder
        ensures { result ≡ holder_at self.now short }
    {
        self.holders[usize::from(short.number())]
    }

    /// Who has each short address, in order of their numbers.
    pub fn holders(&self) -> &[Holder]
        ensures { result.now ≡ self.now }
    {
        &self.holders
    }

    /// Whether a gear with this random address was heard under some short address.
    pub fn is_heard(&self, random: Random24) -> bool
        ensures { result ≡ is_heard random self.now }
    {
        self.holders
            .iter()
            .any(|holder| holder.heard() == Some(random))
    }

    /// Whether the gear that has this random address was programmed and heard under some short address.
    pub(crate) fn is_confirmed(&self, random: Random24) -> bool
        ensures { result ≡ is_confirmed random self.now }
    {
        self.holders
            .iter()
            .any(|holder| holder.was_confirmed(random))
    }

    /// Whether gear are known to have short addresses.
    pub(crate) fn is_held(&self) -> bool
        ensures { result ≡ list_any is_somebody self.now }
    {
        self.holders.iter().any(|holder| holder.is_somebody())
    }

    fn sweep(&mut self, change: &Change)
        ensures { self.new ≡ map (swept change.now) self.old }
    {
        for number in 0..64 {
            self.holders[number] = self.holders[number].swept(change);
        }
    }

    /// After a change.
    pub fn take(&mut self, change: &Change)
        ensures { self.new ≡ table_after change.now self.old }
    {
        match change.short() {
            None => self.sweep(change),
            Some(short) => {
                let renewed = self.holder(short).renewed(change);
                self.sweep(change);
                self.holders[usize::from(short.number())] = renewed;
            }
        }
    }
}
